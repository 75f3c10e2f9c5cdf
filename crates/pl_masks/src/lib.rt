//! A set of numbers, and the least of them from one on.
#![tactic(auto)]

mod masks;
mod words;

pub use masks::Masks;
