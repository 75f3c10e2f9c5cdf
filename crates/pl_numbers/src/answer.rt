//! A reply as one answer in numbers.
ghost use Rattle.std.specs.Prelude.{◌≡◌};
ghost use Rattle.pl_numbers.specs.Answers.{said, plain, faulty, ends_after};

use crate::errors::error_number;
use crate::flags::status_bits;
use pl_model::{Errno, Reply};
use std::alloc::Allocator;

/// What an answer is.
pub mod kind {
    /// The call is done.
    pub const DONE: u8 = 0;
    /// The call failed.
    pub const FAULT: u8 = 1;
    /// The call waits under a number.
    pub const PARKED: u8 = 2;
    /// There is no process of this pid.
    pub const NO_PROCESS: u8 = 3;
    /// No call is parked under this number.
    pub const NO_CALL: u8 = 4;
    /// The call would have waited, and no number is left for it.
    pub const CALLS_SPENT: u8 = 5;
    /// No memory was found, and nothing changed.
    pub const NO_MEMORY: u8 = 6;
    /// The caller's room is too small, and nothing changed.
    pub const SHORT: u8 = 7;
}

/// What a call came to.
#[repr(C)]
#[derive(Clone, Copy, Debug, PartialEq, Eq)]
pub struct Answer {
    /// A pid, a descriptor, a count, an offset, a size, flags, the number of a parked call, or how many bytes are wanted; 0 where there
    /// is nothing to tell.
    pub value: u64,
    /// The number of the error where the call failed, else 0.
    pub error: i32,
    /// What the answer is, a number of `kind`.
    pub kind: u8,
    /// Whether the process gets `SIGPIPE`: no reader was left for what it wrote.
    pub sigpipe: bool,
    /// Whether the call waits, and this step took some of its bytes.
    pub moved: bool,
}

impl Answer {
    /// The call is done, and tells a value.
    pub fn done(value: u64) -> Answer
        ensures { result ≡ plain value 0 }
    {
        Answer::of_kind(kind::DONE, value)
    }

    /// An answer that is no error, with its value.
    pub fn of_kind(kind: u8, value: u64) -> Answer
        ensures { result ≡ plain value kind }
    {
        Answer {
            value,
            error: 0,
            kind,
            sigpipe: false,
            moved: false,
        }
    }

    /// The call failed. With `EPIPE` comes the signal (POSIX.1-2017, write).
    pub fn fault(errno: Errno) -> Answer
        ensures { result ≡ faulty errno }
    {
        Answer {
            value: 0,
            error: error_number(errno),
            kind: kind::FAULT,
            sigpipe: matches!(errno, Errno::EPIPE),
            moved: false,
        }
    }
}

/// The answer that says a reply. The two ends of a pipe, the bytes of a read and the masks of a poll don't find room in it: it has 0,
/// their count, and how many masks aren't empty. A reply doesn't tell whether bytes moved, so `moved` is false.
pub fn answer_of<A: Allocator>(reply: &Reply<A>) -> Answer
    ensures { result ≡ said reply.now }
{
    match reply {
        Reply::Pid(pid) => Answer::done(*pid as u64),
        Reply::Fd(fd) => Answer::done(fd.unsigned_abs() as u64),
        Reply::Fds(_, _) | Reply::Unit => Answer::done(0),
        Reply::Count { n, sigpipe } => Answer {
            sigpipe: *sigpipe,
            ..Answer::done(*n as u64)
        },
        Reply::Bytes(bytes) => Answer::done(bytes.as_slice().len() as u64),
        Reply::Offset(offset) => Answer::done(*offset),
        Reply::Flags { mode, flags } => Answer::done(status_bits(*mode, *flags) as u64),
        Reply::Size(size) => Answer::done(*size as u64),
        Reply::Masks { ready, .. } => Answer::done(*ready as u64),
        Reply::Fault(errno) => Answer::fault(*errno),
        Reply::Parked(number) => Answer::of_kind(kind::PARKED, *number),
        Reply::NoProcess => Answer::of_kind(kind::NO_PROCESS, 0),
        Reply::NoCall => Answer::of_kind(kind::NO_CALL, 0),
        Reply::CallsSpent => Answer::of_kind(kind::CALLS_SPENT, 0),
    }
}

/// The two ends of a pipe.
#[repr(C)]
#[derive(Clone, Copy, Debug, PartialEq, Eq)]
pub struct Ends {
    pub read_end: i32,
    pub write_end: i32,
}

/// Tells the ends of a pipe that a reply has; without any, what stood there stays (POSIX.1-2017, pipe).
pub fn tell_ends<A: Allocator>(reply: &Reply<A>, ends: &mut Ends)
    ensures { ends.new ≡ ends_after ends.old reply.now }
{
    if let Reply::Fds(read_end, write_end) = reply {
        *ends = Ends {
            read_end: *read_end,
            write_end: *write_end,
        };
    }
}
