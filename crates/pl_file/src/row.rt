//! Slots in a row, each with the place where it starts.
ghost use Rattle.std.specs.Prelude.{◌≡◌, ◌+◌, ◌-◌, ◌*◌, ◌/◌, nat_lt, ◌<◌, ◌≤◌, ◌^◌, ◌++◌, [], ◌∷◌, length, take, drop, slice_get, Some, IfOk, OnOk, vec_len, vec_capacity};
ghost use Rattle.pl_segments.specs.Segments.{segment_size};
ghost use Rattle.pl_segments.specs.Slots.{total, last_len};
ghost use Rattle.pl_file.specs.Rows.{placed, slots_of};
ghost use Rattle.pl_file.specs.declared.row.Entry.{Entry as Placed};

use pl_segments::{NoMemory, SEGMENT_SIZE, Slice};
use std::alloc::Allocator;
use std::marker::Model;

/// For how many slots more than twice those that it has a row may keep memory, once it stands in a file.
const SPARE: usize = 16;

/// How many slots a row may have beside two for each 4,096 bytes before they count as scattered.
const FEW: usize = 16;

/// A slot, and the place of its first byte.
#[derive(Clone, Copy, Debug, PartialEq, Eq)]
pub(crate) struct Entry {
    start: usize,
    slice: Slice,
}

/// Slots one behind the other. Each keeps the place where it starts, so that a place is found by halving.
#[derive(Drop)]
pub(crate) struct Row<A: Allocator> {
    entries: Vec<Entry, A>,
    base: usize,
    end: usize,
}

impl<A: Allocator> Model for Row<A> {
    ghost use Rattle.pl_file.specs.Rows.{Row as Slots};

    ghost Value = { Slots };

    ghost use Rattle.pl_file.specs.RowView.{view_of, IsSound};

    ghost view = { view_of };

    ghost invariant = { IsSound };
}

impl<A: Allocator> Row<A> {
    /// No slots, from the place 0 on. It takes no memory.
    pub(crate) fn new(alloc: A) -> Row<A>
        ensures base { result.base ≡ 0 }
        ensures slots { result.slots ≡ [] }
    {
        Row {
            entries: Vec::new(alloc),
            base: 0,
            end: 0,
        }
    }

    /// No slots, from a place on, and room for `count`.
    pub(crate) fn with_capacity(alloc: A, base: usize, count: usize) -> Result<Row<A>, NoMemory>
        ensures base { IfOk result (λ row. row.base ≡ base) }
        ensures slots { IfOk result (λ row. row.slots ≡ []) }
        ensures capacity { IfOk result (λ row. count ≤ row.capacity) }
    {
        let entries = Vec::with_capacity(alloc, count)?;
        Ok(Row {
            entries,
            base,
            end: base,
        })
    }

    /// How many slots there are.
    pub(crate) fn len(&self) -> usize
        ensures value { result ≡ length self.now.slots }
        ensures most { result ≤ self.now.capacity }
    {
        self.entries.len()
    }

    /// How many slots there can be without more memory.
    pub(crate) fn capacity(&self) -> usize
        ensures { result ≡ self.now.capacity }
    {
        self.entries.capacity()
    }

    /// The place behind the last slot.
    pub(crate) fn end(&self) -> usize
        ensures { result ≡ self.now.base + total self.now.slots }
    {
        self.end
    }

    /// Whether the slots are scattered: more than two for each 4,096 bytes, and 16 beside them.
    pub(crate) fn is_scattered(&self) -> bool
        ensures { result ≡ nat_lt (2 * (total self.now.slots / segment_size) + 16) (length self.now.slots) }
    {
        2 * ((self.end - self.base) / SEGMENT_SIZE) + FEW < self.entries.len()
    }

    /// A slot.
    pub(crate) fn get(&self, index: usize) -> Slice
        requires { index < length self.now.slots }
        ensures { slice_get self.now.slots index ≡ Some result }
    {
        self.entries[index].slice
    }

    /// The place where a slot starts, and behind the last one the end.
    pub(crate) fn start(&self, index: usize) -> usize
        requires { index ≤ length self.now.slots }
        ensures { result ≡ self.now.base + total (take index self.now.slots) }
    {
        if index < self.entries.len() {
            self.entries[index].start
        } else {
            self.end
        }
    }

    /// How many bytes the last slot has; 0 where there is none.
    pub(crate) fn last_len(&self) -> u32
        ensures { result ≡ last_len self.now.slots }
    {
        match self.entries.last() {
            Some(entry) => entry.slice.len,
            None => 0,
        }
    }

    /// Makes room for so many more slots. An error leaves the slots as they were.
    pub(crate) fn reserve(&mut self, count: usize) -> Result<(), NoMemory>
        ensures room { OnOk result (length self.new.slots + count ≤ self.new.capacity) }
        ensures slots { self.new.slots ≡ self.old.slots }
        ensures base { self.new.base ≡ self.old.base }
    {
        self.entries.try_reserve(count)?;
        Ok(())
    }

    /// Adds a slot behind the last, for which there is room. It takes no memory.
    pub(crate) fn push(&mut self, slice: Slice)
        requires room { length self.old.slots + 1 ≤ self.old.capacity }
        requires fits { self.old.base + total self.old.slots + slice.len < 2 ^ 64 }
        ensures slots { self.new.slots ≡ self.old.slots ++ slice ∷ [] }
        ensures base { self.new.base ≡ self.old.base }
        ensures capacity { self.new.capacity ≡ self.old.capacity }
    {
        self.entries.push_reserved(Entry {
            start: self.end,
            slice,
        });
        self.end += slice.len as usize;
    }

    /// Takes the last slot out.
    pub(crate) fn pop(&mut self) -> Slice
        requires { 1 ≤ length self.old.slots }
        ensures slots { self.old.slots ≡ self.new.slots ++ result ∷ [] }
        ensures base { self.new.base ≡ self.old.base }
        ensures capacity { self.new.capacity ≡ self.old.capacity }
    {
        let entry = self.entries.pop().unwrap();
        self.end = entry.start;
        entry.slice
    }

    /// How many slots start at a place or before it, found by halving.
    pub(crate) fn starting_up_to(&self, place: usize) -> usize
        ensures most { result ≤ length self.now.slots }
        ensures before { 1 ≤ result → self.now.base + total (take (result - 1) self.now.slots) ≤ place }
        ensures after { result < length self.now.slots → place < self.now.base + total (take result self.now.slots) }
    {
        let mut low = 0;
        let mut high = self.entries.len();
        while low < high {
            let middle = low + (high - low) / 2;
            if self.entries[middle].start <= place {
                low = middle + 1;
            } else {
                high = middle;
            }
        }
        low
    }

    /// Puts before the own slots the first `count` of another row. There is room for them. It takes no memory.
    pub(crate) fn put_before(&mut self, row: &Row<A>, count: usize)
        requires count { count ≤ length row.now.slots }
        requires room { length self.old.slots + count ≤ self.old.capacity }
        requires starts { self.old.base ≡ row.now.base + total (take count row.now.slots) }
        ensures slots { self.new.slots ≡ take count row.now.slots ++ self.old.slots }
        ensures base { self.new.base ≡ row.now.base }
        ensures capacity { self.old.capacity ≤ self.new.capacity }
    {
        let (front, _) = row.entries.split_at(count);
        insert_front(&mut self.entries, front);
        self.base = row.base;
    }

    /// Puts behind the own slots those of another row from `from` on. There is room for them. It takes no memory.
    pub(crate) fn put_behind(&mut self, row: &Row<A>, from: usize)
        requires from { from ≤ length row.now.slots }
        requires room { length self.old.slots + (length row.now.slots - from) ≤ self.old.capacity }
        requires starts { self.old.base + total self.old.slots ≡ row.now.base + total (take from row.now.slots) }
        ensures slots { self.new.slots ≡ self.old.slots ++ drop from row.now.slots }
        ensures base { self.new.base ≡ self.old.base }
    {
        let (_, rest) = row.entries.split_at(from);
        extend(&mut self.entries, rest);
        self.end = row.end;
    }

    /// Takes the first `count` slots of another row, where it has none itself. There is room for them. It takes no memory.
    pub(crate) fn take_front(&mut self, row: &mut Row<A>, count: usize)
        requires none { self.old.slots ≡ [] }
        requires count { count ≤ length row.old.slots }
        requires room { count ≤ self.old.capacity }
        ensures slots { self.new.slots ≡ take count row.old.slots }
        ensures base { self.new.base ≡ row.old.base }
        ensures rest { row.new.slots ≡ drop count row.old.slots }
        ensures rest_base { row.new.base ≡ row.old.base + total (take count row.old.slots) }
    {
        let middle = row.start(count);
        let (front, _) = row.entries.split_at(count);
        extend(&mut self.entries, front);
        self.base = row.base;
        self.end = middle;
        remove_front(&mut row.entries, count);
        row.base = middle;
    }

    /// Gives back the memory that no slot needs, where it is as much as all slots need and more. It asks for as much as they need, and
    /// where that is refused all stays as it is.
    pub(crate) fn shrink(&mut self)
        ensures slots { self.new.slots ≡ self.old.slots }
        ensures base { self.new.base ≡ self.old.base }
    {
        if self.entries.len() < self.entries.capacity().saturating_sub(SPARE) / 2 {
            self.entries.shrink_to_fit();
        }
    }
}

/// Adds entries before all others; there is room for them.
fn insert_front<A: Allocator>(entries: &mut Vec<Entry, A>, more: &[Entry])
    requires { vec_len entries.old + length more.now ≤ vec_capacity entries.old }
    ensures items { entries.new.items ≡ more.now ++ entries.old.items }
    ensures capacity { vec_capacity entries.old ≤ vec_capacity entries.new }
{
    let len = entries.len();
    extend(entries, more);
    entries.slice_mut(..).rotate_left(len);
}

/// Adds entries behind all others; there is room for them.
fn extend<A: Allocator>(entries: &mut Vec<Entry, A>, more: &[Entry])
    requires { vec_len entries.old + length more.now ≤ vec_capacity entries.old }
    ensures items { entries.new.items ≡ entries.old.items ++ more.now }
    ensures capacity { vec_capacity entries.old ≤ vec_capacity entries.new }
{
    entries.extend_from_slice(more).unwrap();
}

/// Takes the first entries out.
fn remove_front<A: Allocator>(entries: &mut Vec<Entry, A>, count: usize)
    requires { count ≤ vec_len entries.old }
    ensures { entries.new.items ≡ drop count entries.old.items }
{
    let len = entries.len();
    entries.copy_within(count.., 0);
    entries.truncate(len - count);
}
