//! Numbers at places, and the least of them.
#![tactic(auto)]

mod least;
mod tournament;

pub use least::Least;
