//! Why a line isn't parsed.
ghost use Rattle.std.specs.Prelude.{◌≡◌};
ghost use Rattle.pl_words.specs.declared.fault.LineFault.TheVariants.{NoMemory};

use std::alloc::AllocError;
use thiserror::Error;

/// Why a line isn't parsed.
#[derive(Clone, Copy, Debug, PartialEq, Eq, Error)]
pub enum LineFault {
    /// The format has no such line, or a number of the line is out of its range.
    #[error("not a line of a script")]
    Bad,
    /// There was no memory for the bytes that the line writes, for its name or for its entries.
    #[error("no memory")]
    NoMemory,
}

impl From<AllocError> for LineFault {
    ghost from_gives = { λ _ e. e ≡ NoMemory };

    fn from(_e: AllocError) -> LineFault {
        LineFault::NoMemory
    }
}
