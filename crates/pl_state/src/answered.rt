//! What a call answers that works on the caller's bytes or entries.
use pl_model::{Errno, Reply};
use std::alloc::Allocator;

/// What a call answers that works on the caller's bytes or entries. If it is done, it gives a `T`: how many there were, say.
#[derive(Clone, Copy, Debug, PartialEq, Eq)]
pub enum Answered<T> {
    /// The call is done.
    Done(T),
    /// The call failed.
    Fault(Errno),
    /// The call waits under this number.
    Parked(u64),
    /// There is no process of its pid.
    NoProcess,
    /// The call would have waited, and no number is left for it.
    CallsSpent,
}

impl<T: Copy> Answered<T> {
    ghost use Rattle.std.specs.Prelude.{◌≡◌};
    ghost use Rattle.pl_state.specs.Answered.{told, IsDone};
    ghost use Rattle.pl_model.specs.declared.replies.Reply.{Reply as ReplyOf};

    /// The reply of a call that isn't done.
    pub fn undone<A: Allocator>(self) -> Reply<A>
        requires { ¬ IsDone self }
        ensures { (reply_of : T → ReplyOf A) → result ≡ told reply_of self }
    {
        match self {
            Answered::Done(_) => unreachable!(),
            Answered::Fault(errno) => Reply::Fault(errno),
            Answered::Parked(number) => Reply::Parked(number),
            Answered::NoProcess => Reply::NoProcess,
            Answered::CallsSpent => Reply::CallsSpent,
        }
    }
}
