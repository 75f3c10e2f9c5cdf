//! Two pipes and a file over one store of segments, and what is done to them.
use pl_model::Node;
use pl_nodes::{CapacityFault, MakeFault, NoMemory, NoSuchName, NodeLimits, Nodes, WriteFault};
use std::alloc::{Allocator, Global};
use std::marker::Model;
use std::mem;

/// The most bytes of the file: enough for three segments, the last of which isn't full.
pub(crate) const FILE_MAX: usize = 10_000;

/// Two pipes, and a file. At first the first pipe is the FIFO `fifo`, and the file is `file`.
#[derive(Drop)]
pub(crate) struct Ends<A: Allocator = Global> {
    alloc: A,
    nodes: Nodes<A>,
    first: usize,
    second: usize,
    file: usize,
}

impl<A: Allocator> Model for Ends<A> {
    ghost use Rattle.std.specs.Prelude.{ℕ, ◌≢◌, IsSome};
    ghost use Rattle.pl_segments.specs.Segments.{at};

    ghost Value = { ℕ };

    ghost view = { λ _. 0 };

    ghost invariant = { λ k. IsSome (at k.nodes.pipes k.first) × IsSome (at k.nodes.pipes k.second) × IsSome (at k.nodes.files k.file) × (k.first ≢ k.second) };
}

/// What is done. Of so many bytes of a pipe only those count that are there and have room.
#[derive(Clone, Copy)]
pub(crate) enum Operation {
    /// These bytes are written to the first pipe.
    Write(&'static [u8]),
    /// So many of one byte are written to the first pipe.
    Fill(u8, usize),
    /// So many bytes of the first pipe are read.
    Read(usize),
    /// The first pipe is to hold so many bytes at most.
    Hold(usize),
    /// The first pipe is hung or not.
    Hang(bool),
    /// The first pipe is made what a new one is.
    Reset,
    /// The second pipe becomes the first.
    Turn,
    /// So many bytes go from the first pipe to the second, and stay in the first.
    Copy(usize),
    /// So many bytes go from the first pipe to the second.
    Move(usize),
    /// So many bytes go from the second pipe to the file at a place.
    ToFile(usize, usize),
    /// So many bytes of the file from a place on go to the first pipe.
    FromFile(usize, usize),
    /// These bytes are written to the file at a place.
    WriteFile(usize, &'static [u8]),
    /// So many of one byte are written to the file at a place.
    FillFile(usize, u8, usize),
    /// So many bytes of the file are read from a place on.
    ReadFile(usize, usize),
    EmptyFile,
    MakeFile(&'static str),
    MakeFifo(&'static str),
    LookUp(&'static str),
    Unlink(&'static str),
}

/// What an operation answers.
#[derive(Clone, Copy, Debug, PartialEq)]
pub(crate) enum Answer {
    /// Nothing is to be told.
    Done,
    /// So many bytes are written.
    Count(usize),
    /// None of them fits.
    TooBig,
    /// The weight of the bytes that are read.
    Weight(u32),
    /// The pipe holds more bytes.
    Busy,
    /// The name stands for something.
    Exists,
    /// The name stands for nothing.
    NoSuchName,
    /// The pipe is one of packets.
    Packets,
    NoMemory,
}

/// What is told of the pipes and the file.
#[derive(Clone, Copy, Debug, PartialEq)]
pub(crate) struct Told {
    pub(crate) capacity: usize,
    pub(crate) room: usize,
    pub(crate) is_hung: bool,
    /// How many bytes each pipe holds, and in how many slots.
    pub(crate) first: (usize, usize),
    pub(crate) second: (usize, usize),
    pub(crate) file: usize,
    pub(crate) segments: usize,
}

/// A number that tells bytes and their order apart.
pub(crate) fn weight(bytes: &[u8]) -> u32 {
    let mut sum = 0u32;
    for byte in bytes {
        sum = sum.wrapping_mul(257).wrapping_add(*byte as u32);
    }
    sum
}

/// Whether something is made, or its name stood for something already.
fn made(key: Result<usize, MakeFault>) -> Answer {
    match key {
        Ok(_) => Answer::Done,
        Err(MakeFault::Exists) => Answer::Exists,
        Err(MakeFault::NoMemory) => Answer::NoMemory,
    }
}

/// Whether bytes are moved.
fn moved(done: Result<(), NoMemory>) -> Answer {
    match done {
        Ok(()) => Answer::Done,
        Err(NoMemory) => Answer::NoMemory,
    }
}

/// The weight of bytes that are read.
fn weighed<A: Allocator>(bytes: Result<Vec<u8, A>, NoMemory>) -> Answer {
    match bytes {
        Ok(bytes) => Answer::Weight(weight(bytes.as_slice())),
        Err(NoMemory) => Answer::NoMemory,
    }
}

/// How many bytes are written to a file.
fn written(count: Result<usize, WriteFault>) -> Answer {
    match count {
        Ok(count) => Answer::Count(count),
        Err(WriteFault::TooBig) => Answer::TooBig,
        Err(WriteFault::NoMemory) => Answer::NoMemory,
    }
}

impl<A: Allocator + Copy> Ends<A> {
    pub(crate) fn new(alloc: A) -> Result<Ends<A>, NoMemory> {
        let limits = NodeLimits {
            file_max: FILE_MAX,
            spare_max: 1,
        };
        let mut nodes = Nodes::new(alloc, limits);
        let name = Vec::from_slice(alloc, b"fifo")?;
        let Ok(first) = nodes.make_fifo(name) else {
            return Err(NoMemory);
        };
        let second = nodes.make_pipe()?;
        let name = Vec::from_slice(alloc, b"file")?;
        let Ok(file) = nodes.make_file(name) else {
            return Err(NoMemory);
        };
        Ok(Ends {
            alloc,
            nodes,
            first,
            second,
            file,
        })
    }

    fn write(&mut self, bytes: &[u8]) -> Answer {
        let count = bytes.len().min(self.nodes.room(self.first));
        moved(self.nodes.write_pipe(self.first, &bytes[..count]))
    }

    fn fill(&mut self, byte: u8, count: usize) -> Answer {
        match vec![in self.alloc; byte; count] {
            Ok(bytes) => self.write(bytes.as_slice()),
            Err(_) => Answer::NoMemory,
        }
    }

    fn read(&mut self, count: usize) -> Answer {
        let count = count.min(self.nodes.front(self.first));
        weighed(self.nodes.read_pipe(self.first, count))
    }

    /// What is no capacity is answered as if the pipe held more.
    fn hold(&mut self, capacity: usize) -> Answer {
        if capacity < 4_096 || 1_048_576 < capacity || capacity.next_power_of_two() != capacity {
            return Answer::Busy;
        }
        match self.nodes.set_capacity(self.first, capacity) {
            Ok(()) => Answer::Done,
            Err(CapacityFault::Busy) => Answer::Busy,
            Err(CapacityFault::NoMemory) => Answer::NoMemory,
        }
    }

    fn hang(&mut self, hung: bool) {
        self.nodes.set_hung(self.first, hung);
    }

    fn reset(&mut self) {
        if self.nodes.is_packet(self.first) {
            return;
        }
        self.nodes.reset_pipe(self.first);
    }

    fn turn(&mut self) {
        mem::swap(&mut self.first, &mut self.second);
    }

    fn copy(&mut self, count: usize) -> Answer {
        // Only byte queues give and take bytes so.
        if self.nodes.is_packet(self.first) {
            return Answer::Packets;
        }
        if self.nodes.is_packet(self.second) {
            return Answer::Packets;
        }
        let held = self.nodes.held(self.first);
        let count = count.min(held).min(self.nodes.room(self.second));
        moved(self.nodes.copy_pipe_pipe(self.first, self.second, count))
    }

    fn pass_on(&mut self, count: usize) -> Answer {
        if self.nodes.is_packet(self.first) {
            return Answer::Packets;
        }
        if self.nodes.is_packet(self.second) {
            return Answer::Packets;
        }
        let held = self.nodes.held(self.first);
        let count = count.min(held).min(self.nodes.room(self.second));
        moved(self.nodes.move_pipe_pipe(self.first, self.second, count))
    }

    fn move_to_file(&mut self, place: usize, count: usize) -> Answer {
        if self.nodes.is_packet(self.second) {
            return Answer::Packets;
        }
        let count = count.min(self.nodes.held(self.second));
        written(
            self.nodes
                .move_pipe_file(self.second, self.file, place, count),
        )
    }

    fn take_from_file(&mut self, place: usize, count: usize) -> Answer {
        if self.nodes.is_packet(self.first) {
            return Answer::Packets;
        }
        let count = count.min(self.nodes.room(self.first));
        moved(
            self.nodes
                .move_file_pipe(self.file, place, self.first, count),
        )
    }

    fn write_file(&mut self, place: usize, bytes: &[u8]) -> Answer {
        written(self.nodes.write_file(self.file, place, bytes))
    }

    fn fill_file(&mut self, place: usize, byte: u8, count: usize) -> Answer {
        match vec![in self.alloc; byte; count] {
            Ok(bytes) => self.write_file(place, bytes.as_slice()),
            Err(_) => Answer::NoMemory,
        }
    }

    fn read_file(&self, place: usize, count: usize) -> Answer {
        weighed(self.nodes.read_file(self.file, place, count))
    }

    fn empty_file(&mut self) {
        self.nodes.empty_file(self.file);
    }

    fn make_file(&mut self, name: &str) -> Answer {
        match Vec::from_slice(self.alloc, name.as_bytes()) {
            Ok(name) => made(self.nodes.make_file(name)),
            Err(_) => Answer::NoMemory,
        }
    }

    fn make_fifo(&mut self, name: &str) -> Answer {
        match Vec::from_slice(self.alloc, name.as_bytes()) {
            Ok(name) => made(self.nodes.make_fifo(name)),
            Err(_) => Answer::NoMemory,
        }
    }

    /// What a name stands for has it.
    fn look_up(&self, name: &str) -> Answer {
        match self.nodes.look_up(name.as_bytes()) {
            Some(node) if self.nodes.has_name(node) => Answer::Done,
            _ => Answer::NoSuchName,
        }
    }

    /// What the name stood for hasn't it any more.
    fn unlink(&mut self, name: &str) -> Answer {
        match self.nodes.unlink(name.as_bytes()) {
            Ok(node) if self.nodes.has_name(node) => Answer::Exists,
            Ok(_) => Answer::Done,
            Err(NoSuchName) => Answer::NoSuchName,
        }
    }

    pub(crate) fn make(&mut self, operation: Operation) -> Answer {
        match operation {
            Operation::Write(bytes) => return self.write(bytes),
            Operation::Fill(byte, count) => return self.fill(byte, count),
            Operation::Read(count) => return self.read(count),
            Operation::Hold(capacity) => return self.hold(capacity),
            Operation::Hang(hung) => self.hang(hung),
            Operation::Reset => self.reset(),
            Operation::Turn => self.turn(),
            Operation::Copy(count) => return self.copy(count),
            Operation::Move(count) => return self.pass_on(count),
            Operation::ToFile(place, count) => return self.move_to_file(place, count),
            Operation::FromFile(place, count) => return self.take_from_file(place, count),
            Operation::WriteFile(place, bytes) => return self.write_file(place, bytes),
            Operation::FillFile(place, byte, count) => return self.fill_file(place, byte, count),
            Operation::ReadFile(place, count) => return self.read_file(place, count),
            Operation::EmptyFile => self.empty_file(),
            Operation::MakeFile(name) => return self.make_file(name),
            Operation::MakeFifo(name) => return self.make_fifo(name),
            Operation::LookUp(name) => return self.look_up(name),
            Operation::Unlink(name) => return self.unlink(name),
        }
        Answer::Done
    }

    pub(crate) fn tell(&self) -> Told {
        let nodes = &self.nodes;
        Told {
            capacity: nodes.capacity(self.first),
            room: nodes.room(self.first),
            is_hung: nodes.is_hung(self.first),
            first: (nodes.held(self.first), nodes.slots(self.first)),
            second: (nodes.held(self.second), nodes.slots(self.second)),
            file: nodes.file_len(self.file),
            segments: nodes.segments(),
        }
    }

    /// Lets the first pipe and the file go that have no name, and answers how many segments are left.
    pub(crate) fn discard(self) -> usize {
        let mut nodes = self.nodes;
        if !nodes.has_name(Node::Pipe(self.first)) {
            nodes.discard_pipe(self.first);
        }
        if !nodes.has_name(Node::File(self.file)) {
            nodes.discard_file(self.file);
        }
        nodes.segments()
    }
}
