//! Calls on descriptors and processes.
#![tactic(auto)]

mod descriptors;
mod processes;

pub use descriptors::{close, dup, dup_fd, dup2, get_fl, set_fl};
pub use processes::{exit, fork, start};
