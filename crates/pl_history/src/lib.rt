//! The history word of a layer: how many steps its journal has, as a number that any thread reads without a lock, and what each
//! has seen of the journal.
#![tactic(auto)]

mod layer;
mod rule;
mod word;

pub use layer::{Handing, Layer};
pub use word::{Eye, History, HistorySeat, Word, history};
