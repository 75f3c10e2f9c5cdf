//! The slots of one pipe: slices of shared segments, seen with their store as a list of bytes.
#![tactic(auto)]

mod fault;
mod front;
mod places;
mod plan;
mod push;
mod ring;

pub use fault::CapacityFault;
pub use ring::Ring;
