//! What a kernel holds, and what its calls share.
//!
//! The fields of a `KernelState` are public, so that the crates of the calls can reach them. Its invariant holds wherever it is whole:
//! who changes a field proves it again.
#![tactic(auto)]

mod access;
mod answered;
mod ending;
mod holding;
mod last_hold;
mod opening;
mod state;
mod waits;

pub use access::{Access, OpenEnd, OpenNode};
pub use answered::Answered;
pub use ending::end_call;
pub use holding::{hold_all, park};
pub use last_hold::{leave_unnamed, release, release_all};
pub use opening::open_at;
pub use pl_model::NoMemory;
pub use state::KernelState;
pub use waits::{WaitingCall, WaitingMove, waiting_call};
