//! What `piperun` is told and says: the words of its command line, its help text, the limits of a run, and the faults with their
//! lines and statuses.
#![tactic(auto)]

mod choice;
mod fault;
mod help;
mod limits;
mod program;
mod terminal;
mod version;

pub use choice::{Choice, LiveChoice, words};
pub use fault::{Fault, status, write_fault};
pub use help::HELP;
use pl_model::Limits;
pub use program::{end, live_from, run, run_program};
pub use terminal::Terminal;
pub use version::VERSION;

/// The limits of a run, unless the command line names others: calls are numbered from 1, and each limit is the usual one.
pub const LIMITS: Limits = Limits::DEFAULT;
