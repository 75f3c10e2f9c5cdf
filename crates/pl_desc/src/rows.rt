//! How the rows of a table get more and fewer.
ghost use Rattle.std.specs.Prelude.{◌≡◌, ℕ, ◌<◌, ◌≤◌, length, OnOk, None};
ghost use Rattle.pl_model.specs.Numbers.{most_descriptors};
ghost use Rattle.pl_desc.specs.Rows.{at};
ghost use Rattle.pl_desc.specs.TableView.{named_all};
ghost use Rattle.pl_desc.specs.Vacant.{AreVacant};

use crate::table::FREE;
use pl_masks::Masks;
use pl_model::NoMemory;
use std::alloc::Allocator;

/// The rows that a table has at least once it has one, unless there may be fewer descriptors. They are never given back.
pub const LEAST_ROWS: usize = 16;

/// Makes a row for a descriptor that has none, and as many further ones that rows which come one by one are moved a few times in all.
///
/// # Errors
///
/// `NoMemory` where there is no memory for them. No row is made then.
pub(crate) fn grow<A: Allocator>(
    keys: &mut Vec<usize, A>,
    free: &mut Masks<A>,
    fd: usize,
    most: usize,
) -> Result<(), NoMemory>
    requires none { length keys.old.items ≤ fd }
    requires place { fd < most }
    requires most { most ≤ most_descriptors }
    requires vacant { AreVacant (named_all keys.old.items) free.old }
    ensures row { OnOk result (fd < length keys.new.items) }
    ensures more { length keys.old.items ≤ length keys.new.items }
    ensures few { length keys.new.items ≤ most }
    ensures same { (k : ℕ) → at (named_all keys.new.items) k ≡ at (named_all keys.old.items) k }
    ensures vacant { AreVacant (named_all keys.new.items) free.new }
{
    let rows = keys.len();
    let more = (2 * rows).max(fd + 1).max(LEAST_ROWS).min(most);
    free.reserve(more)?;
    if keys.try_reserve(more - rows).is_err() {
        return Err(NoMemory);
    }
    for row in rows..more {
        keys.push_reserved(FREE);
        free.insert(row);
    }
    Ok(())
}

/// Gives back rows past the last open descriptor, where these are three quarters of all rows or more.
pub(crate) fn trim<A: Allocator>(keys: &mut Vec<usize, A>, free: &mut Masks<A>)
    requires { AreVacant (named_all keys.old.items) free.old }
    ensures fewer { length keys.new.items ≤ length keys.old.items }
    ensures same { (k : ℕ) → at (named_all keys.new.items) k ≡ at (named_all keys.old.items) k }
    ensures vacant { AreVacant (named_all keys.new.items) free.new }
{
    let used = used(keys);
    if used > keys.len() / 4 {
        return;
    }
    let kept = (2 * used).max(LEAST_ROWS);
    while kept < keys.len() {
        let row = keys.len() - 1;
        keys.truncate(row);
        free.remove(row);
    }
    keys.shrink_to_fit();
    free.shrink(kept);
}

// How many rows there are up to that of the last open descriptor.
fn used(keys: &[usize]) -> usize
    ensures few { result ≤ length keys.now }
    ensures free { (k : ℕ) → result ≤ k → at (named_all keys.now) k ≡ None }
{
    let mut used = keys.len();
    while 0 < used && keys[used - 1] == FREE {
        used -= 1;
    }
    used
}
