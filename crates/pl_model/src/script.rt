//! What the lines of a script ask, and what is counted of them.
use crate::calls::Step;
use crate::name::Name;
use std::alloc::{Allocator, Global};

/// A version of the script format. The first line of a script names it.
#[derive(Clone, Copy, Debug, PartialEq, Eq)]
pub enum Version {
    /// Every script whose first line isn't `piperun 2`.
    One,
    /// A script whose first line is `piperun 2`: it writes bytes as pieces that `+` joins, it shows them by runs, and its pipes have flags.
    Two,
}

/// What a line of a script asks.
#[derive(Drop, Debug, PartialEq)]
pub enum Line<A: Allocator = Global> {
    /// A step.
    Do(Step<A>),
    /// What the file of this name holds.
    File(Name<A>),
}

/// What a run of a script counted.
#[derive(Clone, Copy, Debug, PartialEq, Eq)]
pub struct Totals {
    /// All lines of the script.
    pub lines: u32,
    /// The lines that ask for a step.
    pub steps: u32,
    /// The lines `nomem` that were printed.
    pub nomem: u32,
}
