//! The steps that are refused memory.
mod calls;
mod capacities;
mod examples;
mod fifos;
mod names;
mod packets;
mod polls;
mod splices;
mod whole;
mod worked;

use crate::steps::Steps;
use pl_testing::sessions::Session;
pub(crate) use worked::THE_LARGEST_FILE;

/// All tables of steps.
pub(crate) fn tables() -> [&'static [Steps]; 8] {
    [
        examples::transfers(),
        examples::ends(),
        calls::calls(),
        capacities::capacities(),
        fifos::fifos(),
        polls::polls(),
        splices::splices(),
        packets::packets(),
    ]
}

/// All tables of sessions of which a step that finds no memory is made again, and not passed over.
pub(crate) fn sessions() -> [&'static [Session]; 5] {
    [
        worked::bytes(),
        worked::ends(),
        names::names(),
        whole::sessions(),
        packets::sessions(),
    ]
}
