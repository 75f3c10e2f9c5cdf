//! Slots at the front.
ghost use Rattle.std.specs.Prelude.{◌≡◌, ℕ, ◌+◌, ◌-◌, ◌<◌, ◌≤◌, ◌^◌, [], ◌∷◌, ◌++◌, length, take, drop, vec_len, vec_capacity, IfOk, IfSome, OnOk};
ghost use Rattle.pl_segments.specs.Segments.{segment_at, holders, live_count};
ghost use Rattle.pl_segments.specs.Slices.{Lies, AllLie, reads, all_read};
ghost use Rattle.pl_segments.specs.Turns.{Holds, Turns};
ghost use Rattle.pl_segments.specs.Slots.{total, AllSolid, drop_bytes, front_of};

use crate::places::{put_first, take_first, take_only, take_whole};
use circular_buffer::HeapCircularBuffer;
use pl_model::NoMemory;
use pl_segments::{Slice, Store};
use std::alloc::Allocator;

/// The bytes of the first slots, copied.
#[inline(always)]
pub(crate) fn copy_front<A: Allocator + Copy>(
    alloc: A,
    store: &Store<A>,
    slots: &HeapCircularBuffer<Slice, A>,
    count: usize,
) -> Result<Vec<u8, A>, NoMemory>
    requires { AllLie (segment_at store.now) slots.now.items }
    ensures { IfOk result (λ bytes. bytes.items ≡ take count (all_read (segment_at store.now) slots.now.items)) }
{
    match slots.front() {
        Some(first) if count <= first.len as usize => copy_slot(alloc, store, *first, count),
        _ => copy_slots(alloc, store, slots, count),
    }
}

/// The first bytes of one slot, copied.
#[inline(always)]
fn copy_slot<A: Allocator + Copy>(
    alloc: A,
    store: &Store<A>,
    slot: Slice,
    count: usize,
) -> Result<Vec<u8, A>, NoMemory>
    requires lies { Lies (segment_at store.now) slot }
    requires count { count ≤ slot.len }
    ensures { IfOk result (λ bytes. bytes.items ≡ take count (reads (segment_at store.now) slot)) }
{
    let part = Slice {
        segment: slot.segment,
        from: slot.from,
        len: count as u32,
    };
    Ok(Vec::from_slice(alloc, store.bytes(part))?)
}

/// The bytes of the first slots, copied, as many as there are.
#[inline(never)]
fn copy_slots<A: Allocator + Copy>(
    alloc: A,
    store: &Store<A>,
    slots: &HeapCircularBuffer<Slice, A>,
    count: usize,
) -> Result<Vec<u8, A>, NoMemory>
    requires { AllLie (segment_at store.now) slots.now.items }
    ensures { IfOk result (λ bytes. bytes.items ≡ take count (all_read (segment_at store.now) slots.now.items)) }
{
    let mut bytes = Vec::with_capacity(alloc, count)?;
    let (front, back) = slots.as_slices();
    add_bytes(store, front, count, &mut bytes);
    add_bytes(store, back, count, &mut bytes);
    Ok(bytes)
}

/// Adds the bytes of slots to a list that has the capacity for `count`, until it has so many.
fn add_bytes<A: Allocator + Copy>(
    store: &Store<A>,
    slots: &[Slice],
    count: usize,
    bytes: &mut Vec<u8, A>,
)
    requires lie { AllLie (segment_at store.now) slots.now }
    requires len { vec_len bytes.old ≤ count }
    requires capacity { count ≤ vec_capacity bytes.old }
    ensures items { bytes.new.items ≡ bytes.old.items ++ take (count - vec_len bytes.old) (all_read (segment_at store.now) slots.now) }
    ensures len { vec_len bytes.new ≤ count }
    ensures capacity { vec_capacity bytes.old ≤ vec_capacity bytes.new }
{
    let mut place = 0;
    while place < slots.len() && bytes.len() < count {
        let slot = slots[place];
        let len = (slot.len as usize).min(count - bytes.len());
        let part = Slice {
            segment: slot.segment,
            from: slot.from,
            len: len as u32,
        };
        bytes.extend_from_slice(store.bytes(part)).unwrap();
        place += 1;
    }
}

/// Copies the first bytes into a list of so many.
#[inline(always)]
fn copy_into<A: Allocator + Copy>(
    store: &Store<A>,
    slots: &HeapCircularBuffer<Slice, A>,
    into: &mut [u8],
)
    requires lie { AllLie (segment_at store.now) slots.now.items }
    requires count { length into.old ≤ total slots.now.items }
    ensures { into.new ≡ take (length into.old) (all_read (segment_at store.now) slots.now.items) }
{
    match slots.front() {
        Some(first) if into.len() <= first.len as usize => store.read_into(
            Slice {
                segment: first.segment,
                from: first.from,
                len: into.len() as u32,
            },
            into,
        ),
        _ => copy_slots_into(store, slots, into),
    }
}

/// Copies the first bytes, which may stand in several slots, into a list of so many.
#[inline(never)]
fn copy_slots_into<A: Allocator + Copy>(
    store: &Store<A>,
    slots: &HeapCircularBuffer<Slice, A>,
    into: &mut [u8],
)
    requires lie { AllLie (segment_at store.now) slots.now.items }
    requires count { length into.old ≤ total slots.now.items }
    ensures { into.new ≡ take (length into.old) (all_read (segment_at store.now) slots.now.items) }
{
    let (front, back) = slots.as_slices();
    let filled = fill(store, front, into, 0);
    fill(store, back, into, filled);
}

/// Copies the bytes of slots to the places of a list from `from` on, until it is full, and answers how many places are filled
/// then.
fn fill<A: Allocator + Copy>(
    store: &Store<A>,
    slots: &[Slice],
    into: &mut [u8],
    from: usize,
) -> usize
    requires lie { AllLie (segment_at store.now) slots.now }
    requires from { from ≤ length into.old }
    ensures bytes { take result into.new ≡ take from into.old ++ take (length into.old - from) (all_read (segment_at store.now) slots.now) }
    ensures most { result ≤ length into.new }
    ensures len { length into.new ≡ length into.old }
{
    let mut filled = from;
    let mut place = 0;
    while place < slots.len() && filled < into.len() {
        filled = store.fill(slots[place], into, filled);
        place += 1;
    }
    filled
}

/// Takes the first bytes, into a list of so many. It takes no memory.
#[inline(always)]
pub(crate) fn pop_into<A: Allocator + Copy>(
    store: &mut Store<A>,
    slots: &mut HeapCircularBuffer<Slice, A>,
    into: &mut [u8],
)
    requires held { Holds (segment_at store.old) slots.old.items }
    requires solid { AllSolid slots.old.items }
    requires count { length into.old ≤ total slots.old.items }
    ensures bytes { into.new ≡ take (length into.old) (all_read (segment_at store.old) slots.old.items) }
    ensures slots { slots.new.items ≡ drop_bytes (length into.old) slots.old.items }
    ensures turns { Turns (segment_at store.old) slots.old.items (segment_at store.new) slots.new.items }
    ensures read { all_read (segment_at store.new) slots.new.items ≡ drop (length into.old) (all_read (segment_at store.old) slots.old.items) }
    ensures capacity { slots.new.capacity ≡ slots.old.capacity }
{
    // Most reads take what one write brought.
    if let Some(first) = take_whole(slots, into.len()) {
        store.read_out(first, into);
        return;
    }
    pop_parts(store, slots, into);
}

/// Takes all bytes, which stand in one slot, into a list of so many. It takes no memory.
#[inline(always)]
pub(crate) fn pop_only<A: Allocator + Copy>(
    store: &mut Store<A>,
    slots: &mut HeapCircularBuffer<Slice, A>,
    into: &mut [u8],
)
    requires held { Holds (segment_at store.old) slots.old.items }
    requires one { length slots.old.items ≡ 1 }
    requires all { length into.old ≡ total slots.old.items }
    ensures bytes { into.new ≡ take (length into.old) (all_read (segment_at store.old) slots.old.items) }
    ensures slots { slots.new.items ≡ drop_bytes (length into.old) slots.old.items }
    ensures turns { Turns (segment_at store.old) slots.old.items (segment_at store.new) slots.new.items }
    ensures read { all_read (segment_at store.new) slots.new.items ≡ drop (length into.old) (all_read (segment_at store.old) slots.old.items) }
    ensures capacity { slots.new.capacity ≡ slots.old.capacity }
{
    let only = take_only(slots);
    store.read_out(only, into);
}

// Takes the first bytes, which may stand in several slots or be a part of one, into a list of so many.
#[inline(never)]
fn pop_parts<A: Allocator + Copy>(
    store: &mut Store<A>,
    slots: &mut HeapCircularBuffer<Slice, A>,
    into: &mut [u8],
)
    requires held { Holds (segment_at store.old) slots.old.items }
    requires solid { AllSolid slots.old.items }
    requires count { length into.old ≤ total slots.old.items }
    ensures bytes { into.new ≡ take (length into.old) (all_read (segment_at store.old) slots.old.items) }
    ensures slots { slots.new.items ≡ drop_bytes (length into.old) slots.old.items }
    ensures turns { Turns (segment_at store.old) slots.old.items (segment_at store.new) slots.new.items }
    ensures read { all_read (segment_at store.new) slots.new.items ≡ drop (length into.old) (all_read (segment_at store.old) slots.old.items) }
    ensures capacity { slots.new.capacity ≡ slots.old.capacity }
{
    let count = into.len();
    copy_into(store, slots, into);
    drop_front(store, slots, count);
}

/// All slots.
pub(crate) fn all_slices<A: Allocator + Copy>(
    alloc: A,
    slots: &HeapCircularBuffer<Slice, A>,
) -> Result<Vec<Slice, A>, NoMemory>
    ensures { IfOk result (λ list. list.items ≡ slots.now.items) }
{
    let (front, back) = slots.as_slices();
    let mut list = Vec::with_capacity(alloc, slots.len())?;
    list.extend_from_slice(front)?;
    list.extend_from_slice(back)?;
    Ok(list)
}

/// The slice of the first bytes, if there are some and they stand in one slot.
pub(crate) fn front_slice<A: Allocator>(
    slots: &HeapCircularBuffer<Slice, A>,
    count: usize,
) -> Option<Slice>
    ensures { IfSome result (λ slice. front_of count slots.now.items ≡ slice ∷ []) }
{
    let first = slots.front()?;
    if count == 0 || (first.len as usize) < count {
        return None;
    }
    Some(Slice {
        segment: first.segment,
        from: first.from,
        len: count as u32,
    })
}

/// The slices of the first bytes.
pub(crate) fn front_slices<A: Allocator + Copy>(
    alloc: A,
    slots: &HeapCircularBuffer<Slice, A>,
    count: usize,
) -> Result<Vec<Slice, A>, NoMemory>
    ensures { IfOk result (λ list. list.items ≡ front_of count slots.now.items) }
{
    let mut list = Vec::new(alloc);
    let (front, back) = slots.as_slices();
    let rest = add_slices(front, count, &mut list)?;
    add_slices(back, rest, &mut list)?;
    Ok(list)
}

/// Adds the slices of the first bytes to a list, and answers how many bytes are left to be listed.
fn add_slices<A: Allocator + Copy>(
    slots: &[Slice],
    count: usize,
    list: &mut Vec<Slice, A>,
) -> Result<usize, NoMemory>
    ensures items { OnOk result (list.new.items ≡ list.old.items ++ front_of count slots.now) }
    ensures left { IfOk result (λ rest. rest ≡ count - total slots.now) }
{
    let mut place = 0;
    let mut rest = count;
    while place < slots.len() && (slots[place].len as usize) < rest {
        rest -= slots[place].len as usize;
        place += 1;
    }
    // The slots before this place go whole, so they are copied at once.
    list.try_reserve(place + 1)?;
    list.extend_from_slice(&slots[..place])?;
    if slots.len() <= place || rest == 0 {
        return Ok(rest);
    }
    list.push_reserved(Slice {
        segment: slots[place].segment,
        from: slots[place].from,
        len: rest as u32,
    });
    Ok(0)
}

/// Lets the first bytes go. It takes no memory.
#[inline(always)]
pub(crate) fn drop_front<A: Allocator + Copy>(
    store: &mut Store<A>,
    slots: &mut HeapCircularBuffer<Slice, A>,
    count: usize,
)
    requires held { Holds (segment_at store.old) slots.old.items }
    requires solid { AllSolid slots.old.items }
    requires count { count ≤ total slots.old.items }
    ensures slots { slots.new.items ≡ drop_bytes count slots.old.items }
    ensures turns { Turns (segment_at store.old) slots.old.items (segment_at store.new) slots.new.items }
    ensures read { all_read (segment_at store.new) slots.new.items ≡ drop count (all_read (segment_at store.old) slots.old.items) }
    ensures capacity { slots.new.capacity ≡ slots.old.capacity }
{
    let mut rest = count;
    while 0 < rest {
        // A proof learns here that no segment has more than 4,096 bytes.
        let _segments = store.in_use();
        let first = take_first(slots);
        if rest < first.len as usize {
            let kept = Slice {
                segment: first.segment,
                from: first.from + rest as u32,
                len: first.len - rest as u32,
            };
            put_first(slots, kept);
            return;
        }
        store.release(first);
        rest -= first.len as usize;
    }
}

/// Takes the first bytes out of slots that are held, and leaves them held. A slot that goes whole keeps its hold, and one that goes in part gets
/// another for what is left of it. It takes no memory.
#[inline(always)]
pub(crate) fn leave_front<A: Allocator + Copy>(
    store: &mut Store<A>,
    slots: &mut HeapCircularBuffer<Slice, A>,
    count: usize,
)
    requires held { Holds (segment_at store.old) slots.old.items }
    requires few { (key : ℕ) → holders (segment_at store.old) key < 2 ^ 100 }
    requires solid { AllSolid slots.old.items }
    requires count { count ≤ total slots.old.items }
    ensures turns { Turns (segment_at store.old) slots.old.items (segment_at store.new) (front_of count slots.old.items ++ slots.new.items) }
    ensures read { all_read (segment_at store.new) (front_of count slots.old.items ++ slots.new.items) ≡ all_read (segment_at store.old) slots.old.items }
    ensures slots { slots.new.items ≡ drop_bytes count slots.old.items }
    ensures kept { (live_count store.new.held ≡ live_count store.old.held) × (store.new.room ≡ store.old.room) }
    ensures capacity { slots.new.capacity ≡ slots.old.capacity }
{
    let mut rest = count;
    while 0 < rest {
        // A proof learns here that no segment has more than 4,096 bytes.
        let _segments = store.in_use();
        let first = take_first(slots);
        if rest < first.len as usize {
            let kept = Slice {
                segment: first.segment,
                from: first.from + rest as u32,
                len: first.len - rest as u32,
            };
            store.hold(kept);
            put_first(slots, kept);
            return;
        }
        rest -= first.len as usize;
    }
}
