//! Which calls that wait may make progress: an index of them, by the nodes at which they wait and by what they wait for there.
#![tactic(auto)]

mod marks;
mod queue;
mod waiter;
mod waiters;

pub use waiter::Waiter;
pub use waiters::Waiters;
