//! Two rings and a file over one store, beside plain lists of what they are to hold.
use crate::fault::Fault;
use crate::one_store::OneStore;
use crate::operation::Operation;
use crate::plain::{Place, Plain, after_write, part, range, same_bytes};
use pl_model::numbers::FIRST_CAPACITY;
use std::alloc::{Allocator, Global};
use std::mem;

/// Two rings and a file, beside what they are to hold.
#[derive(Drop)]
pub(crate) struct Watched<A: Allocator = Global> {
    alloc: Global,
    real: OneStore<A>,
    left: Plain,
    right: Plain,
    file: Vec<u8>,
    /// How many bytes the file may have.
    most: usize,
    /// How many bytes were made to be added or written.
    made: usize,
}

impl<A: Allocator + Copy> Watched<A> {
    /// Two rings of these capacities and a file, with memory of `heap`, and lists with memory of `alloc`.
    pub(crate) fn new(
        alloc: Global,
        heap: A,
        capacities: (usize, usize),
        most: usize,
    ) -> Result<Watched<A>, Fault> {
        Ok(Watched {
            alloc,
            real: OneStore::new(heap, capacities.0, capacities.1)?,
            left: Plain::new(alloc, capacities.0),
            right: Plain::new(alloc, capacities.1),
            file: Vec::new(alloc),
            most,
            made: 0,
        })
    }

    /// How many segments the store holds.
    pub(crate) fn in_use(&self) -> usize {
        self.real.in_use()
    }

    /// All is as the lists say.
    pub(crate) fn check(&self) -> Result<(), Fault> {
        if self.real.file_len() != self.file.len() {
            return Err(Fault::OtherSizes);
        }
        self.real.read(0, usize::MAX, &self.file)?;
        let mut keys = Vec::new(self.alloc);
        self.real.agrees(&self.left, &self.right, &mut keys)
    }

    /// Makes the operation, and sees that all is as the lists say.
    pub(crate) fn step(&mut self, operation: Operation) -> Result<(), Fault> {
        self.make(operation)?;
        self.check()
    }

    /// Makes the operation, to the lists too. Where there is no memory for it, they stay as they were.
    pub(crate) fn make(&mut self, operation: Operation) -> Result<(), Fault> {
        match operation {
            Operation::Push(count) => self.push_made(count),
            Operation::PushThese(bytes) => self.push(bytes),
            Operation::Tee(count) => self.tee(count),
            Operation::Pass(count) => self.pass(count),
            Operation::Pop(count) => self.pop(count),
            Operation::Skip(count) => self.skip(count),
            Operation::Reset => self.reset(),
            Operation::SetCapacity(capacity) => self.set_capacity(capacity),
            Operation::Turn => self.turn(),
            Operation::Take(from, count) => self.take(from, count),
            _ => self.make_in_file(operation),
        }
    }

    /// An operation that isn't one of the rings alone.
    fn make_in_file(&mut self, operation: Operation) -> Result<(), Fault> {
        match operation {
            Operation::Write(place, count) => self.write_made(place, count),
            Operation::WriteThese(place, bytes) => self.write(place, bytes),
            Operation::Read(place, count) => {
                let wanted = range(&self.file, place, count);
                self.real.read(place, count, wanted)
            }
            Operation::Copy(from, count, place) => self.copy(from, count, place),
            Operation::Put(count, place) => self.put(count, place),
            Operation::Truncate => self.truncate(),
            _ => self.make_long(operation),
        }
    }

    /// An operation of many steps, or what is wanted of all.
    fn make_long(&mut self, operation: Operation) -> Result<(), Fault> {
        match operation {
            Operation::Fill(first, second) => self.fill(first, second),
            Operation::IsFull => self.is_full(),
            Operation::Drain(step) => self.drain(step),
            Operation::Backwards(count) => self.write_backwards(count),
            Operation::Scatter(count) => self.scatter(count),
            Operation::Repeat(count) => self.repeat(count),
            Operation::HasSlots(count) => self.has_slots(count),
            Operation::Holds(bytes) => same_bytes(self.left.bytes(), bytes),
            Operation::EndsWith(place, bytes) => {
                same_bytes(range(&self.file, place, usize::MAX), bytes)?;
                self.real.read(place, usize::MAX, bytes)
            }
            Operation::InUse(least, most) => self.in_use_within(least, most),
            Operation::IsDense => {
                self.in_use_within(0, (self.file.len() / 2_048).saturating_add(3))
            }
            _ => Err(Fault::Unfit),
        }
    }

    fn push(&mut self, bytes: &[u8]) -> Result<(), Fault> {
        self.real.push(bytes)?;
        self.left.push(bytes)?;
        Ok(())
    }

    fn push_made(&mut self, count: usize) -> Result<(), Fault> {
        let bytes = part(self.alloc, self.made, count)?;
        self.push(&bytes)?;
        self.made = self.made.wrapping_add(count);
        Ok(())
    }

    /// A copy of the front makes at most three segments.
    fn tee(&mut self, count: usize) -> Result<(), Fault> {
        let most = self.real.in_use().saturating_add(3);
        let front = self.left.bytes().get(..count).ok_or(Fault::Unfit)?;
        self.real.tee(count)?;
        self.right.push(front)?;
        self.in_use_within(0, most)
    }

    /// So does a move of it.
    fn pass(&mut self, count: usize) -> Result<(), Fault> {
        let most = self.real.in_use().saturating_add(3);
        let front = self.left.bytes().get(..count).ok_or(Fault::Unfit)?;
        self.real.pass(count)?;
        self.right.push(front)?;
        self.left.skip(count);
        self.in_use_within(0, most)
    }

    fn take(&mut self, from: usize, count: usize) -> Result<(), Fault> {
        self.real.take(from, count)?;
        let taken = range(&self.file, from, count);
        self.left.push(taken)?;
        Ok(())
    }

    fn pop(&mut self, count: usize) -> Result<(), Fault> {
        let front = self.left.bytes().get(..count).ok_or(Fault::Unfit)?;
        self.real.pop(front)?;
        self.left.skip(count);
        Ok(())
    }

    fn skip(&mut self, count: usize) -> Result<(), Fault> {
        self.real.skip(count)?;
        self.left.skip(count);
        Ok(())
    }

    fn reset(&mut self) -> Result<(), Fault> {
        self.real.reset();
        self.left = Plain::new(self.alloc, FIRST_CAPACITY);
        Ok(())
    }

    /// A ring is busy exactly where it holds more bytes than are to fit.
    fn set_capacity(&mut self, capacity: usize) -> Result<(), Fault> {
        let is_set = self.real.set_capacity(capacity)?;
        if is_set != (self.left.len() <= capacity) {
            return Err(Fault::OtherSizes);
        }
        if is_set {
            self.left.capacity = capacity;
        }
        Ok(())
    }

    fn turn(&mut self) -> Result<(), Fault> {
        self.real.turn();
        mem::swap(&mut self.left, &mut self.right);
        Ok(())
    }

    fn place(&self, at: usize) -> Place {
        Place {
            at,
            most: self.most,
        }
    }

    fn write(&mut self, place: usize, bytes: &[u8]) -> Result<(), Fault> {
        let answer = self.real.write(place, bytes, self.most);
        self.file = after_write(self.alloc, &self.file, self.place(place), bytes, answer)?;
        Ok(())
    }

    fn write_made(&mut self, place: usize, count: usize) -> Result<(), Fault> {
        let bytes = part(self.alloc, self.made, count)?;
        self.write(place, &bytes)?;
        self.made = self.made.wrapping_add(count);
        Ok(())
    }

    fn copy(&mut self, from: usize, count: usize, place: usize) -> Result<(), Fault> {
        let answer = self.real.copy(from, count, place, self.most);
        let bytes = range(&self.file, from, count);
        self.file = after_write(self.alloc, &self.file, self.place(place), bytes, answer)?;
        Ok(())
    }

    fn put(&mut self, count: usize, place: usize) -> Result<(), Fault> {
        let answer = self.real.put(count, place, self.most);
        let bytes = range(self.left.bytes(), 0, count);
        self.file = after_write(self.alloc, &self.file, self.place(place), bytes, answer)?;
        Ok(())
    }

    fn truncate(&mut self) -> Result<(), Fault> {
        self.real.truncate();
        self.file.clear();
        Ok(())
    }

    fn fill(&mut self, first: usize, second: usize) -> Result<(), Fault> {
        for turn in 0..self.left.capacity {
            let size = if turn % 2 == 0 { first } else { second };
            let room = self.left.room();
            self.push_made(size.min(room))?;
            self.real.has_few_slots()?;
            if room <= size {
                break;
            }
        }
        Ok(())
    }

    fn drain(&mut self, step: usize) -> Result<(), Fault> {
        for _ in 0..self.left.len() {
            let count = step.min(self.left.len());
            if count == 0 {
                break;
            }
            self.pop(count)?;
        }
        Ok(())
    }

    fn write_backwards(&mut self, count: usize) -> Result<(), Fault> {
        for place in (0..count).rev() {
            self.write_made(place, 1)?;
        }
        Ok(())
    }

    fn scatter(&mut self, count: usize) -> Result<(), Fault> {
        for turn in 0..count {
            let place = turn.wrapping_mul(2);
            self.copy(place.wrapping_add(1), 1, place)?;
        }
        Ok(())
    }

    fn repeat(&mut self, count: usize) -> Result<(), Fault> {
        for place in (0..count).rev() {
            self.copy(place, 1, count.wrapping_add(place))?;
        }
        Ok(())
    }

    fn has_slots(&self, count: usize) -> Result<(), Fault> {
        if self.real.file_slots()? != count {
            return Err(Fault::OtherSizes);
        }
        Ok(())
    }

    fn is_full(&self) -> Result<(), Fault> {
        if self.left.room() != 0 {
            return Err(Fault::OtherSizes);
        }
        Ok(())
    }

    /// The store holds at least and at most so many segments.
    pub(crate) fn in_use_within(&self, least: usize, most: usize) -> Result<(), Fault> {
        let in_use = self.real.in_use();
        if in_use < least || most < in_use {
            return Err(Fault::OtherSegments);
        }
        Ok(())
    }

    /// The operation, of no more bytes than there are, and than fit the rings, and at places below those that it has.
    pub(crate) fn fitting(&self, operation: Operation, draws: &mut Draws) -> Operation {
        let held = self.left.len();
        let room = self.left.room();
        match operation {
            Operation::Push(count) => Operation::Push(count.min(room)),
            Operation::Tee(count) => Operation::Tee(count.min(held).min(self.right.room())),
            Operation::Pass(count) => Operation::Pass(count.min(held).min(self.right.room())),
            Operation::Pop(count) => Operation::Pop(count.min(held)),
            Operation::Skip(count) => Operation::Skip(count.min(held)),
            Operation::Take(from, count) => Operation::Take(draws.below(from), count.min(room)),
            Operation::Put(count, place) => Operation::Put(count.min(held), draws.below(place)),
            Operation::Write(place, count) => Operation::Write(draws.below(place), count),
            Operation::Read(place, count) => Operation::Read(draws.below(place), count),
            Operation::Copy(from, count, place) => {
                Operation::Copy(draws.below(from), count, draws.below(place))
            }
            _ => operation,
        }
    }
}

/// Numbers of a linear congruential generator, that of Knuth's MMIX.
#[derive(Clone, Copy)]
pub(crate) struct Draws {
    drawn: u64,
}

impl Draws {
    /// Always the same numbers.
    pub(crate) fn new() -> Draws {
        Draws { drawn: 1 }
    }

    /// The next number, below this one.
    pub(crate) fn below(&mut self, most: usize) -> usize {
        self.drawn = self
            .drawn
            .wrapping_mul(6_364_136_223_846_793_005)
            .wrapping_add(1_442_695_040_888_963_407);
        ((self.drawn >> 33) as usize).checked_rem(most).unwrap_or(0)
    }
}
