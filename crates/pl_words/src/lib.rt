//! The words of a line of a script, and what one word says: a number, a name, flags, bytes.
//!
//! `next_word`, `word`, `only_word` and `end` part the words of a line. `parse_u32`, `parse_u64`, `parse_i32`, `parse_i64`, `parse_offset`,
//! `parse_name`, `parse_flags_or_none` and `parse_bytes` read one, and `only_u64`, `only_i32`, `fd_and_word`, `open_flags_if_any`,
//! `pipe_flags_if_any`, `splice_flags_if_any` and `parse_entries` all the words that are left. `bytes_len` tells how many bytes a word
//! says, and makes none. `is_name`, `is_entry`, `are_open_flags`, `are_pipe_flags` and `are_splice_flags` tell whether a word says such a
//! thing. `Reason` is why a word is at fault, and `bytes_reason` why one says no bytes (`specs/Reasons.antt`). `place_of` finds a byte, as
//! the line feed that ends a line, and `without_return` leaves out a carriage return there. `is_plain` tells whether a byte stands for
//! itself in a name. What words say is defined in `pl_model`, in `specs/Words.antt`; what a reader of them answers, and where it may find
//! no memory, in `specs/Parsed.antt`.
#![tactic(auto)]

mod bytes;
mod fault;
mod flags;
mod names;
mod numbers;
mod pieces;
mod polls;
mod reasons;
mod search;
mod words;

pub use fault::LineFault;
pub use flags::{
    are_open_flags, are_pipe_flags, are_splice_flags, open_flags_if_any, parse_flags_or_none,
    pipe_flags_if_any, splice_flags_if_any,
};
pub use names::{is_name, is_plain, parse_name};
pub use numbers::{
    fd_and_word, only_i32, only_u64, parse_i32, parse_i64, parse_offset, parse_u32, parse_u64,
};
pub use pieces::{bytes_len, may_repeat, parse_bytes};
pub use polls::{is_entry, parse_entries};
pub use reasons::{Reason, Wanted, bytes_reason};
pub use search::place_of;
pub use words::{end, next_word, only_word, without_return, word};
