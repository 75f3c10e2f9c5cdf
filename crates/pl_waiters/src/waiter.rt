//! A call in a queue.
ghost use Rattle.std.specs.Prelude.{◌≡◌};
ghost use Rattle.pl_waiters.specs.Queue.{earlier_of, on_from, at_node, is_one};

/// A call that waits in a queue. By this order the calls of one queue stand together, in rising order of number, as do the queues of one node.
#[derive(Clone, Copy, PartialEq, Eq, PartialOrd, Ord)]
pub struct Waiter {
    /// The key of the node at which it waits.
    pub node: usize,
    /// Which of the queues of that node it waits in: in one wait calls that make progress together, or not at all.
    pub queue: u64,
    /// The number that it is parked under.
    pub number: u64,
}

/// Whether there is a call, and it is this one.
pub(crate) fn is_same(one: Option<Waiter>, call: &Waiter) -> bool
    ensures { result ≡ is_one one call.now }
{
    match one {
        Some(one) => one == *call,
        None => false,
    }
}

/// The call, if it doesn't stand before another one.
pub(crate) fn not_before(call: Option<Waiter>, least: &Waiter) -> Option<Waiter>
    ensures { result ≡ on_from call least.now }
{
    match call {
        Some(call) if *least <= call => Some(call),
        _ => None,
    }
}

/// The call, if it is of a node.
pub(crate) fn of_node(call: Option<Waiter>, node: usize) -> Option<Waiter>
    ensures { result ≡ at_node call node }
{
    match call {
        Some(call) if call.node == node => Some(call),
        _ => None,
    }
}

/// The one of two calls that stands before the other, where there are any.
pub(crate) fn earlier(one: Option<Waiter>, other: Option<Waiter>) -> Option<Waiter>
    ensures { result ≡ earlier_of one other }
{
    match (one, other) {
        (Some(one), Some(other)) => Some(one.min(other)),
        (None, other) => other,
        (one, None) => one,
    }
}
