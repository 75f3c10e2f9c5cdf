//! What the crates of tests share: tables of steps with the replies that are wanted, and a kernel on which these are made.
#![tactic(auto)]

pub mod asked;
pub mod bench;
mod buffers;
pub mod examples;
pub mod masks;
pub mod sessions;
pub mod wanting;

use pl_model::Limits;

/// The limits of most tests: those where nobody chooses.
pub const LIMITS: Limits = Limits::DEFAULT;
