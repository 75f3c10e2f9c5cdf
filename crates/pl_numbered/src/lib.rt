//! Values, each under a number above those of all before it.
#![tactic(auto)]

mod entries;
mod numbered;

pub use entries::Entry;
pub use numbered::Numbered;
