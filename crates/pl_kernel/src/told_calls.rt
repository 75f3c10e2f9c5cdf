//! What is told of parked calls. Nothing here takes memory.
ghost use Rattle.std.specs.Prelude.{◌≡◌};
ghost use Rattle.pl_kernel.specs.ToldCalls.{first_fd, facts_of_call, TellsAlike, TellsCall, TellsEach};

use pl_model::{Call, PollMask};
use pl_state::KernelState;
use pl_transfers::waiting_read;
use std::alloc::Allocator;

/// In place of a descriptor, where a call has none.
const NO_FD: i32 = -1;

/// What a parked call can be.
#[derive(Clone, Copy, Debug, PartialEq, Eq)]
pub enum CallKind {
    /// A read of a pipe.
    Read,
    /// A write to a pipe.
    Write,
    /// The open of a FIFO.
    Open,
    /// A splice.
    Splice,
    /// A tee.
    Tee,
    /// A poll.
    Poll,
}

/// What is told of a parked call. Its descriptors are those that it was begun with: it keeps what these named then, and they may name
/// something else by now, or nothing.
#[derive(Clone, Copy, Debug, PartialEq, Eq)]
pub struct CallFacts {
    /// What it is.
    pub kind: CallKind,
    /// The process that began it.
    pub pid: u32,
    /// The descriptor of a read or a write, the one that a splice or a tee takes from, or that of a poll's first entry, which may be below 0.
    /// It is -1 of an open, and of a poll without entries.
    pub first: i32,
    /// The descriptor that a splice or a tee gives to. It is -1 of any other call.
    pub second: i32,
}

// The descriptor of the first entry of a poll.
fn first_fd(entries: &[(i32, PollMask)]) -> i32
    ensures { result ≡ first_fd entries.now }
{
    if entries.is_empty() {
        return NO_FD;
    }
    entries[0].0
}

// What is told of a call that a process began, if it is one that can wait.
fn facts_of_call<A: Allocator>(pid: u32, call: &Call<A>) -> Option<CallFacts>
    ensures { result ≡ facts_of_call pid call.now }
{
    let (kind, first, second) = match call {
        Call::Read { fd, .. } => (CallKind::Read, *fd, NO_FD),
        Call::Write { fd, .. } => (CallKind::Write, *fd, NO_FD),
        Call::OpenName { .. } => (CallKind::Open, NO_FD, NO_FD),
        Call::Splice { from, to, .. } => (CallKind::Splice, *from, *to),
        Call::Tee { from, to, .. } => (CallKind::Tee, *from, *to),
        Call::Poll { entries, .. } => (CallKind::Poll, first_fd(entries.as_slice()), NO_FD),
        _ => return None,
    };
    Some(CallFacts {
        kind,
        pid,
        first,
        second,
    })
}

/// What is told of the parked call of a number. `None` where no call is parked under it.
pub fn call_facts<A: Allocator + Copy>(kernel: &KernelState<A>, number: u64) -> Option<CallFacts>
    ensures value { TellsCall {A = A} kernel.now number result }
    ensures each { TellsEach {A = A} kernel.now number result }
{
    let waiting = kernel.parked.get(number)?;
    facts_of_call(waiting.pid, &waiting.call)
}

/// Whether the parked calls of two numbers are reads that keep the same description.
pub fn are_alike<A: Allocator + Copy>(kernel: &KernelState<A>, number: u64, other: u64) -> bool
    ensures { TellsAlike {A = A} kernel.now number other result }
{
    // A proof learns here what holds of the kernel.
    let _ = &kernel.descs;
    let Some(one) = waiting_read(kernel, number) else {
        return false;
    };
    let Some(two) = waiting_read(kernel, other) else {
        return false;
    };
    one.key == two.key
}
