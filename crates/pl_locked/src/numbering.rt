//! The numbers of the entries of a journal.
ghost use Rattle.std.specs.Prelude.{◌≡◌, ◌↔◌, IfOk, IsTrue};
ghost use Rattle.pl_locked.specs.Journals.{AreNumbered};

use pl_model::Entry;
use std::alloc::{AllocError, Allocator};
use std::collections::HashMap;

/// Whether the number of each entry is how many of the same caller stand before it.
pub(crate) fn are_numbered<A: Allocator + Copy>(
    alloc: A,
    entries: &[Entry<A>],
) -> Result<bool, AllocError>
    ensures { IfOk result (λ right. IsTrue right ↔ AreNumbered entries.now) }
{
    let mut counts = HashMap::new(alloc);
    for entry in entries {
        let before: u64 = counts.get(&entry.caller).copied().unwrap_or(0);
        if entry.number != before {
            return Ok(false);
        }
        counts.insert(entry.caller, before + 1)?;
    }
    Ok(true)
}
