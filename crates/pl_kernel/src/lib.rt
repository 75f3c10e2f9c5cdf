//! The kernel: processes, descriptors, files and pipes, one step at a time.
//!
//! `Kernel::step` makes one step, and `Kernel::run` a list of them. What they answer is what the flat machine of
//! `pl_model` answers, from every state for which the kernel stands.
#![tactic(auto)]

mod asking;
mod kernel;
mod placing;
mod queue;
mod ready;
mod resuming;
mod sizes;
mod stats;
mod steps;
mod told_calls;
mod told_nodes;
mod told_processes;
mod touch;

pub use kernel::{Kernel, Resumed};
pub use pl_polls::PollEntry;
pub use pl_state::{Answered, NoMemory};
pub use pl_transfers::{Written, reply_of_write};
pub use stats::Stats;
pub use told_calls::{CallFacts, CallKind};
pub use told_nodes::{NodeFacts, NodeKind};
pub use told_processes::ProcessFacts;
