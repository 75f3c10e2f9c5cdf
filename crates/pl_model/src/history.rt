//! What a journal of steps keeps of each of them.
use crate::calls::Step;
use crate::replies::Reply;
use std::alloc::{Allocator, Global};

/// One step of a journal: whose it was, and what it answered.
#[derive(Drop, Debug, PartialEq)]
pub struct Entry<A: Allocator = Global> {
    /// The number of the caller that made the step.
    pub caller: u32,
    /// How many entries of the same caller stand before it.
    pub number: u64,
    pub step: Step<A>,
    pub reply: Reply<A>,
}
