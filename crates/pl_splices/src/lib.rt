//! The calls by which bytes go from what one descriptor names to what another does: splice and tee, how they are tried again, and whether
//! they can make progress.
#![tactic(auto)]

mod begin;
mod moving;
mod sides;
mod waiting;

pub use begin::{splice, tee};
pub use waiting::{move_can_progress, resume_move};
