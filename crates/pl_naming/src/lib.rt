//! Calls on names of files and FIFOs, and the bytes of the file of a name.
#![tactic(auto)]

mod fifos;
mod naming;

pub use fifos::mkfifo;
pub use naming::{file_bytes, open_name, unlink};
