//! Regular files as slots in order: slices of the segments of a store.
#![tactic(auto)]

mod chunks;
mod compact;
mod cut;
mod edit;
mod fault;
mod file;
mod over;
mod patch;
mod pieces;
mod row;
mod spot;

pub use fault::WriteFault;
pub use file::File;
