//! Open file descriptions with the counts of their holders, and the tables of descriptors of processes.
//!
//! A description is open as long as something holds it: a descriptor, or a loose hold, as that of a call which waits.
#![tactic(auto)]

mod description;
mod descs;
mod ends;
mod fault;
mod limits;
mod released;
mod rows;
mod table;
mod tables;

pub use descs::Descs;
pub use fault::StartFault;
pub use limits::DescLimits;
pub use pl_model::NoMemory;
pub use released::Released;
pub use rows::LEAST_ROWS;
pub use table::Table;
