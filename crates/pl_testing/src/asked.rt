//! Tables of what is asked of a kernel, and what it is to answer.
use bitflags::Flags;
use pl_model::{
    Bytes8, Call, Errno, MaskList, Mode, Name, OpenFlags, Outcome, PollList, PollMask, Reply,
    SpliceFlags, Step, Whence,
};
use std::alloc::{AllocError, Allocator};
use std::test::Fail;

/// The number that no call gets.
pub const NEVER_GIVEN: u64 = 18_446_744_073_709_551_615;

/// Bytes that are still to be made, at most 16,777,216 of them.
#[derive(Clone, Copy)]
pub enum Data {
    Text(&'static str),
    /// The byte, so many times.
    Many(u8, usize),
    /// The first byte, so many times, and then the second, so many times.
    TwoRuns(u8, usize, u8, usize),
    /// From a place on, so many bytes of a text without end, whose byte at each place is the place's remainder by 251.
    Part(usize, usize),
}

/// A step whose bytes are still to be made. A call names its process, then its descriptor or the name of a file or FIFO, and a
/// read the most bytes that it takes; `PacketPipe` makes a pipe with `direct` (pipe(2), O_DIRECT); `Splice` names each of its two
/// descriptors with the offset that is given for it, and then, as `Tee` does behind the two, the most bytes that go over and the flags;
/// a poll names each of its descriptors with all that is asked of it; `Dup2` names its target last, `DupFd` the least descriptor,
/// `SetFl` the flags, and `SetPipeSz` the size. `Resume` and `Interrupt` name a parked call by its number.
#[derive(Clone, Copy)]
pub enum Ask {
    Start,
    Resume(u64),
    Interrupt(u64),
    Pipe(u32),
    PipeNonblock(u32),
    PacketPipe(u32),
    PacketPipeNonblock(u32),
    Mkfifo(u32, Data),
    Open(u32, Data, Mode, &'static [OpenFlags]),
    Read(u32, i32, u32),
    Write(u32, i32, Data),
    Splice(u32, (i32, Option<u64>), (i32, Option<u64>), u32, &'static [SpliceFlags]),
    Tee(u32, i32, i32, u32, &'static [SpliceFlags]),
    PollNow(u32, &'static [(i32, &'static [PollMask])]),
    PollWait(u32, &'static [(i32, &'static [PollMask])]),
    Dup(u32, i32),
    Dup2(u32, i32, i32),
    DupFd(u32, i32, i32),
    Close(u32, i32),
    Lseek(u32, i32, i64, Whence),
    GetFl(u32, i32),
    SetFl(u32, i32, &'static [OpenFlags]),
    GetPipeSz(u32, i32),
    SetPipeSz(u32, i32, u32),
    Unlink(u32, Data),
    Fork(u32),
    Exit(u32),
}

/// A reply whose bytes are still to be made.
#[derive(Clone, Copy)]
pub enum Want {
    Pid(u32),
    Fd(i32),
    Fds(i32, i32),
    Count(u32),
    /// The count of a write whose rest nobody can read.
    CountSigpipe(u32),
    Bytes(Data),
    Offset(u64),
    Flags(Mode, &'static [OpenFlags]),
    Size(u32),
    /// How many masks aren't empty, and all masks.
    Masks(u32, &'static [&'static [PollMask]]),
    Unit,
    Fault(Errno),
    Parked(u64),
    NoProcess,
    NoCall,
    CallsSpent,
}

/// The first byte, so many times, and then the second, so many times.
fn two_runs<A: Allocator>(
    alloc: A,
    first: u8,
    times: usize,
    second: u8,
    more: usize,
) -> Result<Vec<u8, A>, AllocError> {
    let mut bytes = Vec::from_elem(alloc, first, times)?;
    for _place in 0..more {
        bytes.push(second)?;
    }
    Ok(bytes)
}

/// From a place on, so many bytes of the text without end.
fn part<A: Allocator>(alloc: A, from: usize, count: usize) -> Result<Vec<u8, A>, AllocError> {
    let mut bytes = Vec::with_capacity(alloc, count)?;
    for i in 0..count {
        bytes.push((from.wrapping_add(i) % 251) as u8)?;
    }
    Ok(bytes)
}

impl Data {
    fn list<A: Allocator>(self, alloc: A) -> Result<Vec<u8, A>, AllocError> {
        match self {
            Data::Text(text) => Vec::from_slice(alloc, text.as_bytes()),
            Data::Many(byte, times) => Vec::from_elem(alloc, byte, times),
            Data::TwoRuns(first, times, second, more) => {
                two_runs(alloc, first, times, second, more)
            }
            Data::Part(from, count) => part(alloc, from, count),
        }
    }

    pub(crate) fn bytes<A: Allocator>(self, alloc: A) -> Result<Bytes8<A>, Fail> {
        let bytes = self.list(alloc)?;
        Ok(Bytes8::from_vec(bytes).ok_or("more bytes than a call moves")?)
    }

    /// The name of these bytes, in memory of `alloc`. It fails where there is no memory.
    pub fn name<A: Allocator>(self, alloc: A) -> Result<Name<A>, Fail> {
        Ok(Name::from_vec(self.list(alloc)?))
    }
}

/// All flags of the list.
fn all_of<F: Flags + Copy>(flags: &[F]) -> F {
    let mut all = F::empty();
    for flag in flags {
        all = all.union(*flag);
    }
    all
}

/// The entries of a poll.
fn entries_of<A: Allocator>(alloc: A, asks: &[(i32, &[PollMask])]) -> Result<PollList<A>, Fail> {
    let mut entries = Vec::new(alloc);
    for (fd, masks) in asks {
        entries.push((*fd, all_of(masks)))?;
    }
    Ok(PollList::from_vec(entries))
}

/// What a poll found.
fn masks_of<A: Allocator>(alloc: A, found: &[&[PollMask]]) -> Result<MaskList<A>, Fail> {
    let mut masks = Vec::new(alloc);
    for mask in found {
        masks.push(all_of(mask))?;
    }
    Ok(MaskList::from_vec(masks))
}

/// A pipe is made.
fn pipe<A: Allocator>(pid: u32, nonblock: bool, direct: bool) -> Step<A> {
    Step::Begin(pid, Call::Pipe { nonblock, direct })
}

impl Ask {
    /// What a failure calls the step.
    pub(crate) fn kind(self) -> &'static str {
        match self {
            Ask::Start => "Start",
            Ask::Resume(..) => "Resume",
            Ask::Interrupt(..) => "Interrupt",
            Ask::Pipe(..) => "Pipe",
            Ask::PipeNonblock(..) => "PipeNonblock",
            Ask::PacketPipe(..) => "PacketPipe",
            Ask::PacketPipeNonblock(..) => "PacketPipeNonblock",
            Ask::Mkfifo(..) => "Mkfifo",
            Ask::Open(..) => "Open",
            Ask::Read(..) => "Read",
            Ask::Write(..) => "Write",
            Ask::Splice(..) => "Splice",
            Ask::Tee(..) => "Tee",
            Ask::PollNow(..) => "PollNow",
            Ask::PollWait(..) => "PollWait",
            Ask::Dup(..) => "Dup",
            Ask::Dup2(..) => "Dup2",
            Ask::DupFd(..) => "DupFd",
            Ask::Close(..) => "Close",
            Ask::Lseek(..) => "Lseek",
            Ask::GetFl(..) => "GetFl",
            Ask::SetFl(..) => "SetFl",
            Ask::GetPipeSz(..) => "GetPipeSz",
            Ask::SetPipeSz(..) => "SetPipeSz",
            Ask::Unlink(..) => "Unlink",
            Ask::Fork(..) => "Fork",
            Ask::Exit(..) => "Exit",
        }
    }

    /// The step, with its bytes in memory of `alloc`. It fails where there is no memory, and at more than 16,777,216 bytes.
    pub fn step<A: Allocator>(self, alloc: A) -> Result<Step<A>, Fail> {
        Ok(match self {
            Ask::Start => Step::Start,
            Ask::Resume(call) => Step::Resume(call),
            Ask::Interrupt(call) => Step::Interrupt(call),
            Ask::Pipe(pid) => pipe(pid, false, false),
            Ask::PipeNonblock(pid) => pipe(pid, true, false),
            Ask::PacketPipe(pid) => pipe(pid, false, true),
            Ask::PacketPipeNonblock(pid) => pipe(pid, true, true),
            Ask::Mkfifo(pid, name) => {
                let name = name.name(alloc)?;
                Step::Begin(pid, Call::Mkfifo { name })
            }
            Ask::Open(pid, name, mode, flags) => {
                let name = name.name(alloc)?;
                let flags = all_of(flags);
                Step::Begin(pid, Call::OpenName { name, mode, flags })
            }
            Ask::Read(pid, fd, n) => Step::Begin(pid, Call::Read { fd, n }),
            Ask::Write(pid, fd, data) => {
                let bytes = data.bytes(alloc)?;
                Step::Begin(pid, Call::Write { fd, bytes })
            }
            Ask::Splice(pid, (from, from_offset), (to, to_offset), len, flags) => {
                let flags = all_of(flags);
                Step::Begin(
                    pid,
                    Call::Splice {
                        from,
                        from_offset,
                        to,
                        to_offset,
                        len,
                        flags,
                    },
                )
            }
            Ask::Tee(pid, from, to, len, flags) => {
                let flags = all_of(flags);
                Step::Begin(
                    pid,
                    Call::Tee {
                        from,
                        to,
                        len,
                        flags,
                    },
                )
            }
            Ask::PollNow(pid, asks) => {
                let entries = entries_of(alloc, asks)?;
                Step::Begin(
                    pid,
                    Call::Poll {
                        entries,
                        wait: false,
                    },
                )
            }
            Ask::PollWait(pid, asks) => {
                let entries = entries_of(alloc, asks)?;
                Step::Begin(
                    pid,
                    Call::Poll {
                        entries,
                        wait: true,
                    },
                )
            }
            Ask::Dup(pid, fd) => Step::Begin(pid, Call::Dup { fd }),
            Ask::Dup2(pid, fd, target) => Step::Begin(pid, Call::Dup2 { fd, target }),
            Ask::DupFd(pid, fd, least) => Step::Begin(pid, Call::DupFd { fd, least }),
            Ask::Close(pid, fd) => Step::Begin(pid, Call::Close { fd }),
            Ask::Lseek(pid, fd, offset, whence) => {
                Step::Begin(pid, Call::Lseek { fd, offset, whence })
            }
            Ask::GetFl(pid, fd) => Step::Begin(pid, Call::GetFl { fd }),
            Ask::SetFl(pid, fd, flags) => {
                let flags = all_of(flags);
                Step::Begin(pid, Call::SetFl { fd, flags })
            }
            Ask::GetPipeSz(pid, fd) => Step::Begin(pid, Call::GetPipeSz { fd }),
            Ask::SetPipeSz(pid, fd, size) => Step::Begin(pid, Call::SetPipeSz { fd, size }),
            Ask::Unlink(pid, name) => {
                let name = name.name(alloc)?;
                Step::Begin(pid, Call::Unlink { name })
            }
            Ask::Fork(pid) => Step::Begin(pid, Call::Fork),
            Ask::Exit(pid) => Step::Begin(pid, Call::Exit),
        })
    }
}

impl Want {
    /// The reply, with its bytes in memory of `alloc`. It fails where there is no memory, and at more than 16,777,216 bytes.
    pub fn reply<A: Allocator>(self, alloc: A) -> Result<Reply<A>, Fail> {
        Ok(match self {
            Want::Pid(pid) => Reply::Pid(pid),
            Want::Fd(fd) => Reply::Fd(fd),
            Want::Fds(first, second) => Reply::Fds(first, second),
            Want::Count(n) => Reply::Count { n, sigpipe: false },
            Want::CountSigpipe(n) => Reply::Count { n, sigpipe: true },
            Want::Bytes(data) => Reply::Bytes(data.bytes(alloc)?),
            Want::Offset(offset) => Reply::Offset(offset),
            Want::Flags(mode, flags) => {
                let flags = all_of(flags);
                Reply::Flags { mode, flags }
            }
            Want::Size(size) => Reply::Size(size),
            Want::Masks(ready, found) => {
                let masks = masks_of(alloc, found)?;
                Reply::Masks { ready, masks }
            }
            Want::Unit => Reply::Unit,
            Want::Fault(errno) => Reply::Fault(errno),
            Want::Parked(call) => Reply::Parked(call),
            Want::NoProcess => Reply::NoProcess,
            Want::NoCall => Reply::NoCall,
            Want::CallsSpent => Reply::CallsSpent,
        })
    }

    /// What a step comes to that answers this. It fails where there is no memory, and at more than 16,777,216 bytes.
    pub fn outcome<A: Allocator>(self, alloc: A) -> Result<Outcome<A>, Fail> {
        Ok(Outcome::Replied(self.reply(alloc)?))
    }
}

/// The steps of the table, with their bytes in memory of `alloc`. It fails where there is none, and at more than 16,777,216
/// bytes.
pub fn steps_of<A: Allocator + Copy>(
    alloc: A,
    rows: &[(Ask, Want)],
) -> Result<Vec<Step<A>, A>, Fail> {
    let mut steps = Vec::new(alloc);
    for (ask, _) in rows {
        steps.push(ask.step(alloc)?)?;
    }
    Ok(steps)
}
