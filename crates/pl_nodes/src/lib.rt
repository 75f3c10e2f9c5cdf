//! What descriptions are on: pipes and regular files, whose bytes stand in the segments of one store, and their names.
//!
//! Contracts see flat maps from keys to pipes and to the bytes of files, and one from names to what they stand for: each call says
//! what becomes of one entry or two, and that all others stay as they were, though they share segments. Of these contracts tell
//! how many there are, and of the slots how many a pipe has, and which of them are shared where bytes go from one to another.
#![tactic(auto)]

mod content;
mod fault;
mod nodes;
mod queue;
mod upper;

pub use fault::{MakeFault, NoSuchName};
pub use nodes::{NodeLimits, Nodes};
pub use pl_file::WriteFault;
pub use pl_model::NoMemory;
pub use pl_ring::CapacityFault;
