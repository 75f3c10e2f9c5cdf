//! What calls come to, decided on plain values: the tables of the rules. They change nothing, so that each is proved, and each
//! wrong one refused, without a kernel.
#![tactic(auto)]

mod capacities;
mod closing;
mod moves;
mod naming;
mod opening;
mod poll;
mod seeking;
mod transfers;

pub use capacities::capacity_for;
pub use closing::hung_after_close;
pub use moves::{SpliceSide, case_of_move, splice_fault, tee_fault};
pub use naming::name_fault;
pub use opening::{open_fault, opens_at_once};
pub use poll::mask_of;
pub use seeking::{place_in_file, sought};
pub use transfers::{case_of_read, case_of_write};
