//! Segments of 4,096 bytes with the counts of their holders, and slices of them.
#![tactic(auto)]

mod block;
mod fault;
mod keys;
mod segment;
mod sharing;
mod slice;
mod store;

pub use block::SEGMENT_SIZE;
pub use fault::AppendFault;
pub use pl_model::NoMemory;
pub use sharing::lists_over_one_store;
pub use slice::{Slice, SliceList, len_of};
pub use store::Store;
