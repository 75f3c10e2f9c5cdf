//! What steps come to, in plain numbers: so a test keeps no reply, and a proof of it sees nothing of what the layer promises.
use pl_locked::{CallFault, StepFault};
use pl_model::{Errno, Reply};
use std::alloc::Allocator;

/// What a step, a whole call or a glance comes to.
#[derive(Clone, Copy, PartialEq)]
pub(crate) enum Came {
    Pid(u32),
    Fds(i32, i32),
    /// A write of so many bytes, without a signal.
    Count(u32),
    /// So many `a` and so many `b`, and no other byte.
    Bytes(u32, u32),
    /// One byte, `a` or `b`: it is wanted, and never told.
    OneByte,
    Unit,
    Parked(u64),
    Fault(Errno),
    NoCall,
    /// Any other reply.
    Other,
    /// The journal is full. Nothing is parked.
    Full,
    /// There is no memory. Nothing is parked.
    NoMemory,
    /// A whole call isn't answered, and stays parked under this number.
    Stays(StepFault, u64),
    /// A glance tells of so many steps.
    Steps(u64),
}

impl Came {
    /// What the reply tells.
    pub(crate) fn of<A: Allocator>(reply: &Reply<A>) -> Came {
        match reply {
            Reply::Pid(pid) => Came::Pid(*pid),
            Reply::Fds(first, second) => Came::Fds(*first, *second),
            Reply::Count { n, sigpipe: false } => Came::Count(*n),
            Reply::Bytes(read) => bytes(read.as_slice()),
            Reply::Unit => Came::Unit,
            Reply::Parked(number) => Came::Parked(*number),
            Reply::Fault(error) => Came::Fault(*error),
            Reply::NoCall => Came::NoCall,
            _ => Came::Other,
        }
    }

    /// What a step that wasn't made comes to.
    pub(crate) fn refused(fault: StepFault) -> Came {
        match fault {
            StepFault::JournalFull => Came::Full,
            StepFault::NoMemory => Came::NoMemory,
        }
    }

    /// What a whole call that wasn't answered comes to.
    pub(crate) fn unanswered(fault: CallFault) -> Came {
        match fault.parked {
            None => Came::refused(fault.cause),
            Some(number) => Came::Stays(fault.cause, number),
        }
    }

    /// Whether it is what is wanted.
    pub(crate) fn is(self, want: Came) -> bool {
        match want {
            Came::OneByte => self == Came::Bytes(1, 0) || self == Came::Bytes(0, 1),
            _ => self == want,
        }
    }

    /// Whether the step was made.
    pub(crate) fn is_made(self) -> bool {
        !matches!(self, Came::Full | Came::NoMemory)
    }
}

/// What was read: it is another reply where there are other bytes than `a` and `b`.
fn bytes(read: &[u8]) -> Came {
    let (mut some, mut others) = (0u32, 0u32);
    for byte in read {
        match *byte {
            b'a' => some = some.wrapping_add(1),
            b'b' => others = others.wrapping_add(1),
            _ => return Came::Other,
        }
    }
    Came::Bytes(some, others)
}
