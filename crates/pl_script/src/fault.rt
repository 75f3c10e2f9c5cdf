//! Why the run of a script ends early.
ghost use Rattle.std.specs.Prelude.{◌≡◌};
ghost use Rattle.pl_script.specs.declared.fault.ScriptFault.TheVariants.{NoMemory};

use std::alloc::AllocError;
use thiserror::Error;

/// Why the run of a script ended early.
#[derive(Clone, Copy, Debug, PartialEq, Eq, Error)]
pub enum ScriptFault {
    /// A read of the script failed. An interrupted read is one that failed.
    #[error("the script cannot be read")]
    Read,
    /// A write of the output failed, or took no byte.
    #[error("the output cannot be written")]
    Write,
    /// The script has more than 16,777,216 bytes.
    #[error("the script is longer than 16777216 bytes")]
    TooLong,
    /// The line of this number, counted from 1, is the first bad one.
    #[error("line {0} is not a line of a script")]
    BadLine(u32),
    /// There was no memory to hold the script, a line of it or its output. A step, or a line `file`, that finds none is no fault: it
    /// prints `nomem`.
    #[error("no memory")]
    NoMemory,
}

impl From<AllocError> for ScriptFault {
    ghost from_gives = { λ _ e. e ≡ NoMemory };

    fn from(_e: AllocError) -> ScriptFault {
        ScriptFault::NoMemory
    }
}
