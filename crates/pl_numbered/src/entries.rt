//! Entries in rising order of number. An entry is empty once its value was taken out.
ghost use Rattle.std.specs.Prelude.{◌≡◌, ℕ, ◌≤◌, IfSome, IfNone, Some, None, nat_eq, length};
ghost use Rattle.pl_model.specs.Map.{get};
ghost use Rattle.pl_numbered.specs.Rising.{Rise, number_at};
ghost use Rattle.pl_numbered.specs.Entries.{AllBelow, NoneBelow, IsLastFull, values_in, empties};

use std::alloc::Allocator;

/// A number, and its value, if that wasn't taken out.
pub type Entry<T> = (u64, Option<T>);

// Where the entry of a number stands, if no number is missing from it on. Numbers are missing only where others were given
// elsewhere, or where empty entries were dropped together, so this finds most values, whatever their count.
fn place_from_end<T>(entries: &[Entry<T>], number: u64) -> Option<usize>
    ensures { IfSome result (λ place. number_at entries.now place ≡ Some number) }
{
    let end = entries.len().checked_sub(1)?;
    let behind = entries[end].0.checked_sub(number)?;
    if behind > end as u64 {
        return None;
    }
    let place = end - behind as usize;
    if entries[place].0 == number {
        Some(place)
    } else {
        None
    }
}

// Where the entry of a number stands, if no number is missing up to it: so this finds values that stay for long while newer ones come and go.
fn place_from_start<T>(entries: &[Entry<T>], number: u64) -> Option<usize>
    ensures { IfSome result (λ place. number_at entries.now place ≡ Some number) }
{
    let end = entries.len().checked_sub(1)?;
    let ahead = number.checked_sub(entries[0].0)?;
    if ahead > end as u64 {
        return None;
    }
    let place = ahead as usize;
    if number == entries[place].0 {
        Some(place)
    } else {
        None
    }
}

/// Where the entry of a number stands.
pub(crate) fn place_of<T>(entries: &[Entry<T>], number: u64) -> Option<usize>
    ensures here { (next : ℕ) → Rise 0 next entries.now → IfSome result (λ place. number_at entries.now place ≡ Some number) }
    ensures none { (next : ℕ) → Rise 0 next entries.now → IfNone result (get nat_eq entries.now number ≡ None) }
{
    let place = place_from_end(entries, number).or_else(|| place_from_start(entries, number));
    if place.is_some() {
        return place;
    }
    entries.binary_search_by_key(&number, |entry| entry.0).ok()
}

/// How many entries have a number below this one.
pub(crate) fn count_below<T>(entries: &[Entry<T>], number: u64) -> usize
    ensures within { result ≤ length entries.now }
    ensures below { (next : ℕ) → Rise 0 next entries.now → AllBelow number result entries.now }
    ensures above { (next : ℕ) → Rise 0 next entries.now → NoneBelow number result entries.now }
{
    let len = entries.len();
    if len == 0 {
        return 0;
    }
    if entries[len - 1].0 < number {
        return len;
    }
    match entries.binary_search_by_key(&number, |entry| entry.0) {
        Ok(place) => place,
        Err(place) => place,
    }
}

/// Drops the empty entries at the end. Returns how many empty ones are left of so many.
pub(crate) fn drop_empty_end<T: Drop, A: Allocator>(
    entries: &mut Vec<Entry<T>, A>,
    empty: usize,
) -> usize
    requires { empty ≡ empties entries.old.items }
    ensures count { result ≡ empties entries.new.items }
    ensures full { IsLastFull entries.new.items }
    ensures rise { (next : ℕ) → Rise 0 next entries.old.items → Rise 0 next entries.new.items }
    ensures same { values_in entries.new.items ≡ values_in entries.old.items }
{
    let mut empty = empty;
    while let Some(end) = entries.len().checked_sub(1) {
        if entries[end].1.is_some() {
            return empty;
        }
        let _ended = entries.pop();
        empty -= 1;
    }
    empty
}
