//! Parked calls: calls that wait, each under a number of its own.
//!
//! The numbers are given in rising order, and none is given twice.
#![tactic(auto)]

mod call;
mod fault;
mod opens;
mod owners;
mod parked;

pub use call::ParkedCall;
pub use fault::ParkFault;
pub use parked::Parked;
