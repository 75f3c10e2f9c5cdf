//! Which steps are to take no memory.
use crate::asked::Ask::{self, Close, Exit, GetFl, GetPipeSz, Interrupt, Lseek, SetFl, Unlink};
use crate::asked::Want::{self, CallsSpent, Fault, NoCall, NoProcess};

/// Whether the step is to take no memory: a step that is refused, an interrupt, and each call on descriptors or names that neither
/// makes a descriptor or something else new nor moves bytes.
pub fn takes_no_memory(ask: Ask, want: Want) -> bool {
    matches!(want, Fault(_) | NoProcess | NoCall | CallsSpent)
        || matches!(
            ask,
            Interrupt(_)
                | Close(..)
                | Lseek(..)
                | GetFl(..)
                | SetFl(..)
                | GetPipeSz(..)
                | Unlink(..)
                | Exit(_)
        )
}
