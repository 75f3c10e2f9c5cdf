//! What a step answers.
ghost use Rattle.std.specs.Prelude.{◌≡◌, IfOk};

use crate::bytes::Bytes8;
use crate::calls::Mode;
use crate::flags::OpenFlags;
use crate::polls::MaskList;
use std::alloc::{AllocError, Allocator, Global};

/// The errors of calls, by their names in the standard (POSIX.1-2017, errno.h). They have no numbers here.
#[derive(Clone, Copy, Debug, PartialEq, Eq)]
pub enum Errno {
    /// The call would wait, and may not; or as many calls wait, or as many processes are there, as the limits allow.
    EAGAIN,
    /// The descriptor is not open, or not for what is asked.
    EBADF,
    /// The pipe holds more than its new capacity would.
    EBUSY,
    /// The name stands for something already.
    EEXIST,
    /// The file would be larger than a file may be.
    EFBIG,
    /// The call was interrupted before it moved a byte.
    EINTR,
    /// An argument has a value that the call does not take.
    EINVAL,
    /// The process has no free descriptor.
    EMFILE,
    /// The name has more than 255 bytes.
    ENAMETOOLONG,
    /// The kernel has no room for another open file description.
    ENFILE,
    /// The name stands for nothing, or has no byte.
    ENOENT,
    /// There are as many names as the limit allows.
    ENOSPC,
    /// The FIFO has no reader, and the call may not wait for one.
    ENXIO,
    /// The offset would be above 9,223,372,036,854,775,807.
    EOVERFLOW,
    /// The capacity is above what a pipe may be made to hold.
    EPERM,
    /// The pipe has no reader. The signal `SIGPIPE` is due.
    EPIPE,
    /// A pipe has no offset.
    ESPIPE,
}

/// What a step answers.
#[derive(Drop, Debug, PartialEq)]
pub enum Reply<A: Allocator = Global> {
    /// The pid of the process that was started, from 1 to 1,024.
    Pid(u32),
    /// The descriptor that names what was opened or duplicated, from 0 to 255.
    Fd(i32),
    /// The read end and the write end of a new pipe, from 0 to 255.
    Fds(i32, i32),
    /// So many bytes were written.
    Count {
        /// The number of bytes.
        n: u32,
        /// Whether no reader was left for the rest. The signal `SIGPIPE` is due then.
        sigpipe: bool,
    },
    /// The bytes that were read; none of them is end of file, or a read of 0 bytes.
    Bytes(Bytes8<A>),
    /// The offset of an open file description, from the beginning of its file.
    Offset(u64),
    /// The mode and the flags of an open file description.
    Flags {
        /// What the description may be used for.
        mode: Mode,
        /// Those of its flags `APPEND`, `NONBLOCK` and `DIRECT` that are set.
        flags: OpenFlags,
    },
    /// The bytes that a pipe can hold: a power of two from 4,096 to 1,048,576.
    Size(u32),
    /// What a poll found.
    Masks {
        /// How many of the masks aren't empty, from 0 to 256.
        ready: u32,
        /// A mask for each entry of the poll, in their order.
        masks: MaskList<A>,
    },
    /// The call is done, and has nothing to tell.
    Unit,
    /// The call failed. `EPIPE` stands for the error and the signal `SIGPIPE`.
    Fault(Errno),
    /// The call waits under this number.
    Parked(u64),
    /// There is no process of this pid.
    NoProcess,
    /// No call is parked under this number.
    NoCall,
    /// The call would have waited, and no number is left for it.
    CallsSpent,
}

impl<A: Allocator> Reply<A> {
    /// The same reply, in memory of its own.
    pub fn copy(&self, alloc: A) -> Result<Reply<A>, AllocError>
        ensures { IfOk result (λ reply. reply ≡ self.now) }
    {
        Ok(match self {
            Reply::Bytes(bytes) => Reply::Bytes(bytes.copy(alloc)?),
            Reply::Masks { ready, masks } => Reply::Masks {
                ready: *ready,
                masks: masks.copy(alloc)?,
            },
            &Reply::Pid(pid) => Reply::Pid(pid),
            &Reply::Fd(fd) => Reply::Fd(fd),
            &Reply::Fds(read_end, write_end) => Reply::Fds(read_end, write_end),
            &Reply::Count { n, sigpipe } => Reply::Count { n, sigpipe },
            &Reply::Offset(offset) => Reply::Offset(offset),
            &Reply::Flags { mode, flags } => Reply::Flags { mode, flags },
            &Reply::Size(size) => Reply::Size(size),
            Reply::Unit => Reply::Unit,
            &Reply::Fault(errno) => Reply::Fault(errno),
            &Reply::Parked(call) => Reply::Parked(call),
            Reply::NoProcess => Reply::NoProcess,
            Reply::NoCall => Reply::NoCall,
            Reply::CallsSpent => Reply::CallsSpent,
        })
    }
}

/// What became of a step in a run.
#[derive(Drop, Debug, PartialEq)]
pub enum Outcome<A: Allocator = Global> {
    /// The step was made, and answered this.
    Replied(Reply<A>),
    /// The step found no memory, and changed nothing.
    NoMemory,
}
