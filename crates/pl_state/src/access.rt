//! What a descriptor is wanted for, and what it names.
use pl_model::{Mode, Node};

/// What a descriptor is wanted for.
#[derive(Clone, Copy, Debug, PartialEq, Eq)]
pub enum Access {
    Reading,
    Writing,
}

impl Access {
    ghost use Rattle.std.specs.Prelude.{◌≡◌};
    ghost use Rattle.pl_state.specs.Contents.{allows};

    /// Whether the mode allows it.
    pub fn is_allowed_by(self, mode: Mode) -> bool
        ensures { result ≡ allows self mode }
    {
        match self {
            Access::Reading => mode.reads(),
            Access::Writing => mode.writes(),
        }
    }
}

/// What a descriptor names.
#[derive(Clone, Copy)]
pub struct OpenNode {
    /// The key of the description.
    pub key: usize,
    /// What it is on.
    pub node: Node,
    /// Whether a call on it doesn't wait (POSIX.1-2017, read and write, O_NONBLOCK).
    pub nonblock: bool,
}

/// The end of a pipe that a descriptor names.
#[derive(Clone, Copy)]
pub struct OpenEnd {
    /// The key of the description.
    pub key: usize,
    /// The key of the pipe.
    pub pipe: usize,
    /// Whether a call on it doesn't wait (POSIX.1-2017, read and write, O_NONBLOCK).
    pub nonblock: bool,
}
