//! What becomes of a description that loses a hold.
use pl_model::{Mode, Node};

/// What becomes of a description that loses a hold (POSIX.1-2017, close).
#[derive(Clone, Copy, Debug, PartialEq, Eq)]
pub enum Released {
    /// It has another holder, and stays open.
    Still,
    /// That was its last holder, and it is gone.
    Gone {
        /// What it was open on.
        node: Node,
        /// What it was open for.
        mode: Mode,
        /// How many descriptions on the node are left that read.
        readers: usize,
        /// How many descriptions on the node are left that write.
        writers: usize,
    },
}
