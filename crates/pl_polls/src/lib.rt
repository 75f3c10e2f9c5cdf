//! The call that tells what several descriptors are ready for, and waits until one is ready: poll, how it is tried again, and
//! whether it can get on.
#![tactic(auto)]

mod begin;
mod counts;
mod ends;
mod entries;
mod into;
mod masks;
mod waiting;

pub use begin::poll;
pub use counts::{masks_to_begin, masks_to_resume};
pub use ends::end_is_ready;
pub use entries::{PollEntry, asked_of, mark_entries};
pub use into::poll_into;
pub use waiting::{poll_can_progress, resume_poll};
