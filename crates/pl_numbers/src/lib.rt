//! What the layer says in words, as numbers for C: the errors, flags, modes and places of Linux, and one answer of sixteen bytes
//! for every reply. They are tables, each proved, and each wrong entry refused, without a kernel.
#![tactic(auto)]

mod answer;
mod errors;
mod flags;
mod places;

pub use answer::{Answer, Ends, answer_of, kind, tell_ends};
pub use errors::error_number;
pub use flags::{
    PipeFlags, mode_of_bits, open_flags_of_bits, pipe_flags_of_bits, splice_flags_of_bits,
    status_bits,
};
pub use places::whence_of_number;
