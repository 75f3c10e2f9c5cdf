//! What a step asks for.
ghost use Rattle.std.specs.Prelude.{◌≡◌, IfOk};
ghost use Rattle.pl_model.specs.Carried.{IsSpliceOrTee};
ghost use Rattle.pl_model.specs.Numbers.{usual_spare};
ghost use Rattle.pl_model.specs.Tables.{descriptor_limit, entry_limit, description_limit, process_limit};

use crate::bytes::Bytes8;
use crate::flags::{OpenFlags, SpliceFlags};
use crate::name::Name;
use crate::numbers::{
    MAX_CAPACITY, MAX_DESCRIPTIONS, MAX_DESCRIPTORS, MAX_FILE_BYTES, MAX_PROCESSES, NO_LIMIT,
    OPEN_MAX, USUAL_DESCRIPTIONS, USUAL_PROCESSES,
};
use crate::polls::PollList;
use std::alloc::{AllocError, Allocator, Global};

/// What an open file description may be used for (POSIX.1-2017, open).
#[derive(Clone, Copy, Debug, PartialEq, Eq)]
pub enum Mode {
    /// Reading alone, as the read end of a pipe.
    Read,
    /// Writing alone, as the write end of a pipe.
    Write,
    /// Reading and writing.
    Both,
}

impl Mode {
    ghost use Rattle.pl_model.specs.Modes.{reads, writes};

    /// Whether it allows reading.
    pub fn reads(self) -> bool
        ensures { result ≡ reads self }
    {
        matches!(self, Mode::Read | Mode::Both)
    }

    /// Whether it allows writing.
    pub fn writes(self) -> bool
        ensures { result ≡ writes self }
    {
        matches!(self, Mode::Write | Mode::Both)
    }
}

/// Where a new offset is counted from (POSIX.1-2017, lseek).
#[derive(Clone, Copy, Debug, PartialEq, Eq)]
pub enum Whence {
    /// The beginning of the file.
    Set,
    /// The offset of before.
    Cur,
    /// The end of the file.
    End,
}

/// The part of a kernel's memory that it keeps for further bytes at most, if nobody says how much.
const SPARE_PART: u64 = 16;

/// The limits that are chosen when a kernel is made. `Limits::DEFAULT` has those where nobody chooses.
#[derive(Clone, Copy, Debug, PartialEq, Eq)]
pub struct Limits {
    /// The number of the first parked call.
    pub first_call: u64,
    /// The most bytes of a regular file, at most 16,777,216.
    pub file_max: u32,
    /// The most names of files and FIFOs at one time. A name more is refused (POSIX.1-2017, open and mkfifo, ENOSPC).
    pub names_max: u64,
    /// The most calls that wait at one time. A call that would wait above it is refused, with nothing taken (EAGAIN).
    pub waiting_max: u64,
    /// The most calls of one process that wait at one time. A call that would wait above it is refused, as above `waiting_max`. So no process
    /// can use up the waiting calls of the others.
    pub waiting_of_each: u64,
    /// The most bytes that a pipe can be made to hold, at most 1,048,576 (fcntl(2), F_SETPIPE_SZ, EPERM). A new pipe can hold
    /// 65,536, whatever this is.
    pub capacity_max: u32,
    /// The most descriptors of a process, which are numbered from 0; above 65,536 it counts as 65,536 (POSIX.1-2017, getrlimit,
    /// RLIMIT_NOFILE). A poll has at most as many entries, and at most 256 where this is less (POSIX.1-2017, poll, EINVAL).
    pub descriptors_max: u32,
    /// The most open file descriptions that are live at one time; above 1,048,576 it counts as 1,048,576. A description more is refused
    /// (POSIX.1-2017, open and pipe, ENFILE).
    pub descriptions_max: u32,
    /// The most processes at one time, with pids from 1 on; above 65,536 it counts as 65,536. A process more is refused (POSIX.1-2017, fork,
    /// EAGAIN).
    pub processes_max: u32,
    /// The most bytes of memory that are kept for further bytes when no pipe or file holds them any more, in whole segments of
    /// 4,096 bytes. No reply depends on it.
    pub spare_max: u64,
}

impl Limits {
    /// Calls are numbered from 1, a file has at most 16,777,216 bytes, a pipe at most 1,048,576, a process at most 256 descriptors. At one
    /// time there are at most 4,096 descriptions and 1,024 processes; names and waiting calls have no limit but memory. As much memory is
    /// kept for further bytes as the longest file takes.
    pub const DEFAULT: Limits = Limits {
        first_call: 1,
        file_max: MAX_FILE_BYTES,
        names_max: NO_LIMIT,
        waiting_max: NO_LIMIT,
        waiting_of_each: NO_LIMIT,
        capacity_max: MAX_CAPACITY,
        descriptors_max: OPEN_MAX as u32,
        descriptions_max: USUAL_DESCRIPTIONS as u32,
        processes_max: USUAL_PROCESSES as u32,
        spare_max: MAX_FILE_BYTES as u64,
    };

    /// The limit `spare_max` of a kernel that may hold `memory` bytes, if nobody says another: as much as the longest file takes, and at most a
    /// sixteenth of `memory`.
    pub fn usual_spare(memory: u64) -> u64
        ensures { result ≡ usual_spare memory }
    {
        (memory / SPARE_PART).min(u64::from(MAX_FILE_BYTES))
    }

    /// How many descriptors a process may have.
    pub fn descriptors(&self) -> usize
        ensures { result ≡ descriptor_limit self.now }
    {
        MAX_DESCRIPTORS.min(self.descriptors_max as usize)
    }

    /// How many open file descriptions may be live.
    pub fn descriptions(&self) -> usize
        ensures { result ≡ description_limit self.now }
    {
        MAX_DESCRIPTIONS.min(self.descriptions_max as usize)
    }

    /// How many processes there may be.
    pub fn processes(&self) -> usize
        ensures { result ≡ process_limit self.now }
    {
        MAX_PROCESSES.min(self.processes_max as usize)
    }

    /// How many entries a poll may have.
    pub fn poll_entries(&self) -> usize
        ensures { result ≡ entry_limit self.now }
    {
        OPEN_MAX.max(self.descriptors())
    }
}

/// A call of a process. A descriptor is any `i32`; one that isn't below the limit `descriptors_max` isn't open.
#[derive(Drop, Debug, PartialEq)]
pub enum Call<A: Allocator = Global> {
    /// Makes a pipe, its read end and its write end (POSIX.1-2017, pipe). With `nonblock` both ends have `NONBLOCK`, as by Linux's
    /// pipe2(2) with `O_NONBLOCK`. With `direct` it is a packet pipe, and its write end has `DIRECT` (pipe(2), O_DIRECT).
    Pipe {
        /// Whether both ends have `NONBLOCK`.
        nonblock: bool,
        /// Whether it is a packet pipe.
        direct: bool,
    },
    /// Makes a FIFO: a pipe that the name stands for (POSIX.1-2017, mkfifo).
    Mkfifo {
        /// The name of the FIFO: 1 to 255 bytes, without a slash or a NUL.
        name: Name<A>,
    },
    /// Opens what the name stands for, by the least free descriptor. With `CREAT` a name that stands for nothing comes to stand
    /// for an empty regular file (POSIX.1-2017, open).
    OpenName {
        /// The name: 1 to 255 bytes, without a slash or a NUL.
        name: Name<A>,
        /// What the description may be used for.
        mode: Mode,
        /// How it is opened. `DIRECT` is ignored.
        flags: OpenFlags,
    },
    /// Reads at most `n` bytes (POSIX.1-2017, read).
    Read {
        /// The descriptor to read from.
        fd: i32,
        /// The most bytes to read.
        n: u32,
    },
    /// Writes the bytes (POSIX.1-2017, write).
    Write {
        /// The descriptor to write to.
        fd: i32,
        /// The bytes to write, at most 16,777,216.
        bytes: Bytes8<A>,
    },
    /// Moves at most `len` bytes from what `from` names to what `to` names, of which one at least is a pipe. A file gives or takes
    /// them at the offset that is given for it; where none is, at its own, which advances (splice(2)).
    Splice {
        /// The descriptor that gives the bytes.
        from: i32,
        /// Where in the file the bytes begin; `None` for a pipe, and for the offset of the description.
        from_offset: Option<u64>,
        /// The descriptor that takes the bytes.
        to: i32,
        /// Where in the file the bytes go; `None` for a pipe, and for the offset of the description.
        to_offset: Option<u64>,
        /// The most bytes to move.
        len: u32,
        /// Whether the call may wait.
        flags: SpliceFlags,
    },
    /// Copies at most `len` bytes from a pipe to another, and leaves them in the first (tee(2)).
    Tee {
        /// The read end of the pipe whose bytes are copied.
        from: i32,
        /// The write end of the pipe that takes the copies.
        to: i32,
        /// The most bytes to copy.
        len: u32,
        /// Whether the call may wait.
        flags: SpliceFlags,
    },
    /// Tells what each descriptor is ready for. With `wait` it waits until one of them is ready for anything (POSIX.1-2017, poll,
    /// with no time-out, and without `wait` with one of 0).
    Poll {
        /// The descriptors, and the events that are asked of each; at most 256.
        entries: PollList<A>,
        /// Whether to wait where no descriptor is ready.
        wait: bool,
    },
    /// Names what a descriptor names by the least free descriptor too (POSIX.1-2017, dup).
    Dup {
        /// The descriptor to duplicate.
        fd: i32,
    },
    /// Names what `fd` names by `target` too, which is closed first. Where `target` is `fd` itself nothing changes
    /// (POSIX.1-2017, dup, dup2).
    Dup2 {
        /// The descriptor to duplicate.
        fd: i32,
        /// The descriptor that names the same afterwards.
        target: i32,
    },
    /// Names what `fd` names by the least free descriptor from `least` on too (POSIX.1-2017, fcntl, `F_DUPFD`).
    DupFd {
        /// The descriptor to duplicate.
        fd: i32,
        /// The least descriptor that may be the duplicate.
        least: i32,
    },
    /// Closes a descriptor (POSIX.1-2017, close).
    Close {
        /// The descriptor to close.
        fd: i32,
    },
    /// Sets the offset of what a descriptor names, a regular file (POSIX.1-2017, lseek).
    Lseek {
        /// A descriptor of a regular file.
        fd: i32,
        /// The new offset in bytes, counted from `whence`.
        offset: i64,
        /// Where the new offset is counted from.
        whence: Whence,
    },
    /// Tells the mode and the status flags of what a descriptor names (POSIX.1-2017, fcntl, `F_GETFL`).
    GetFl {
        /// The descriptor that is asked about.
        fd: i32,
    },
    /// Sets `APPEND` and `NONBLOCK` of what a descriptor names as they are in `flags`, and ignores all other flags
    /// (POSIX.1-2017, fcntl, `F_SETFL`).
    SetFl {
        /// A descriptor of the description whose flags are set.
        fd: i32,
        /// The flags, of which `APPEND` and `NONBLOCK` count.
        flags: OpenFlags,
    },
    /// Tells how many bytes the pipe that a descriptor names can hold (Linux, fcntl(2), `F_GETPIPE_SZ`).
    GetPipeSz {
        /// Either end of the pipe.
        fd: i32,
    },
    /// Sets how many bytes the pipe that a descriptor names, by either end, can hold: `size`, rounded up (Linux, fcntl(2),
    /// `F_SETPIPE_SZ`).
    SetPipeSz {
        /// Either end of the pipe.
        fd: i32,
        /// The bytes that the pipe is to hold at least.
        size: u32,
    },
    /// Takes a name away. What it stood for lives on while a description is open on it (POSIX.1-2017, unlink).
    Unlink {
        /// The name to take away.
        name: Name<A>,
    },
    /// Starts a process whose descriptors name what those of this one do (POSIX.1-2017, fork).
    Fork,
    /// Ends the process: its descriptors are closed and its parked calls dropped (POSIX.1-2017, _exit).
    Exit,
}

/// One event. What the processes do, in which order, is a list of steps.
#[derive(Drop, Debug, PartialEq)]
pub enum Step<A: Allocator = Global> {
    /// Starts a process with no open descriptor.
    Start,
    /// The process of this pid begins a call.
    Begin(u32, Call<A>),
    /// Tries the parked call of this number again.
    Resume(u64),
    /// Ends the parked call of this number, as a signal does (POSIX.1-2017, Interrupted functions: `EINTR`).
    Interrupt(u64),
}

impl<A: Allocator> Call<A> {
    /// The same call, in memory of its own.
    pub fn copy(&self, alloc: A) -> Result<Call<A>, AllocError>
        ensures { IfOk result (λ call. call ≡ self.now) }
    {
        Ok(match self {
            Call::Mkfifo { name } => Call::Mkfifo {
                name: name.copy(alloc)?,
            },
            Call::OpenName { name, mode, flags } => Call::OpenName {
                name: name.copy(alloc)?,
                mode: *mode,
                flags: *flags,
            },
            Call::Write { fd, bytes } => Call::Write {
                fd: *fd,
                bytes: bytes.copy(alloc)?,
            },
            Call::Poll { entries, wait } => Call::Poll {
                entries: entries.copy(alloc)?,
                wait: *wait,
            },
            Call::Unlink { name } => Call::Unlink {
                name: name.copy(alloc)?,
            },
            &Call::Pipe { nonblock, direct } => Call::Pipe { nonblock, direct },
            &Call::Read { fd, n } => Call::Read { fd, n },
            &Call::Dup { fd } => Call::Dup { fd },
            &Call::Dup2 { fd, target } => Call::Dup2 { fd, target },
            &Call::DupFd { fd, least } => Call::DupFd { fd, least },
            &Call::Close { fd } => Call::Close { fd },
            &Call::Lseek { fd, offset, whence } => Call::Lseek { fd, offset, whence },
            &Call::GetFl { fd } => Call::GetFl { fd },
            &Call::SetFl { fd, flags } => Call::SetFl { fd, flags },
            &Call::GetPipeSz { fd } => Call::GetPipeSz { fd },
            &Call::SetPipeSz { fd, size } => Call::SetPipeSz { fd, size },
            Call::Fork => Call::Fork,
            Call::Exit => Call::Exit,
            Call::Splice { .. } | Call::Tee { .. } => self.copy_move(),
        })
    }

    // The same splice or tee, which owns no memory.
    fn copy_move(&self) -> Call<A>
        requires { IsSpliceOrTee self.now }
        ensures { result ≡ self.now }
    {
        match self {
            &Call::Splice {
                from,
                from_offset,
                to,
                to_offset,
                len,
                flags,
            } => Call::Splice {
                from,
                from_offset,
                to,
                to_offset,
                len,
                flags,
            },
            &Call::Tee {
                from,
                to,
                len,
                flags,
            } => Call::Tee {
                from,
                to,
                len,
                flags,
            },
            _ => unreachable!(),
        }
    }
}

impl<A: Allocator> Step<A> {
    /// The same step, in memory of its own.
    pub fn copy(&self, alloc: A) -> Result<Step<A>, AllocError>
        ensures { IfOk result (λ step. step ≡ self.now) }
    {
        Ok(match self {
            Step::Start => Step::Start,
            Step::Begin(pid, call) => Step::Begin(*pid, call.copy(alloc)?),
            Step::Resume(call) => Step::Resume(*call),
            Step::Interrupt(call) => Step::Interrupt(*call),
        })
    }
}
