//! Slots of a file replaced: what is put in is made whole first, and then takes the place of what goes.
ghost use Rattle.std.specs.Prelude.{◌≡◌, ℕ, ◌+◌, ◌<◌, ◌≤◌, ◌^◌, ◌++◌, length, take, drop, false, IfOk, OnOk, OnErr};
ghost use Rattle.pl_model.specs.Numbers.{most_file_bytes};
ghost use Rattle.pl_segments.specs.Segments.{segment_at, holders, live_count};
ghost use Rattle.pl_segments.specs.Slices.{AllLie, all_read};
ghost use Rattle.pl_segments.specs.Turns.{Holds};
ghost use Rattle.pl_segments.specs.Slots.{total, AllSolid, tail_room};
ghost use Rattle.pl_file.specs.Rows.{AllWithin, index};
ghost use Rattle.pl_file.specs.Added.{Adds, IsAdded};
ghost use Rattle.pl_file.specs.File.{written};
ghost use Rattle.pl_file.specs.Spans.{FitsIn, HasMemory, Opened};
ghost use Rattle.pl_file.specs.Written.{Becomes, IsFile, PutBetween};

use crate::chunks::Chunks;
use crate::compact::compact;
use crate::cut::{Cut, front_cut, rest_cut};
use crate::over::write_over;
use crate::patch::{hold_part, join_part, put_bytes, put_slices, put_zeros, release_range};
use crate::pieces::Pieces;
use crate::row::Row;
use crate::spot::Spot;
use pl_segments::{NoMemory, SEGMENT_SIZE, Slice, Store};
use std::alloc::Allocator;

/// A change that has begun: memory for all of it is there, and the file is as it was.
struct Opening<A: Allocator> {
    /// What is put in, so far: what stays of the slot before the place, and the zeros of a gap.
    patch: Row<A>,
    /// Memory for the chunks that it becomes, where it becomes more than one.
    pieces: Pieces<A>,
    /// The first of the slots that go.
    first: Spot,
    /// The first of the slots that stay behind them, and what stays of the one before it.
    rest: Cut,
}

/// Begins to put `count` bytes at a place, for which there will be `slots` more slots and `segments` more segments. An error
/// leaves all as it was.
fn open<A: Allocator + Copy>(
    alloc: A,
    store: &mut Store<A>,
    chunks: &mut Chunks<A>,
    place: usize,
    count: usize,
    slots: usize,
    segments: usize,
) -> Result<Opening<A>, NoMemory>
    requires file { IsFile (segment_at store.old) chunks.old.slots }
    requires fits { place + count ≤ most_file_bytes }
    requires slots { slots < 2 ^ 60 }
    requires segments { segments < 2 ^ 60 }
    requires few { (key : ℕ) → holders (segment_at store.old) key < 2 ^ 101 }
    ensures opened { IfOk result (λ o. Opened store.old chunks.old place count store.new o.patch o.first o.rest) }
    ensures memory { IfOk result (λ o. HasMemory chunks.new o.first o.rest.place (length o.patch.slots + slots) o.patch.capacity o.pieces.rows.items o.pieces.last) }
    ensures room { OnOk result (segments ≤ store.new.room) }
    ensures chunks { chunks.new ≡ record chunks.old { room = chunks.new.room } }
    ensures unchanged { OnErr result (store.new ≡ store.old) }
{
    let front = front_cut(chunks, place);
    let rest = rest_cut(chunks, place + count);
    let gap = place.saturating_sub(chunks.end());
    let start = chunks.start(front.place);
    let capacity = chunks.staying(front.place, rest.place) + slots + gap / SEGMENT_SIZE + 3;
    let mut patch = Row::with_capacity(alloc, start, capacity)?;
    let pieces = chunks.reserve(alloc, patch.capacity())?;
    store.reserve(if gap == 0 { segments } else { segments + 2 })?;
    hold_part(store, &mut patch, front.part);
    put_zeros(store, &mut patch, gap);
    Ok(Opening {
        patch,
        pieces,
        first: front.place,
        rest,
    })
}

/// Puts slots in the place of those from `first` to before `end`, which are let go. It takes no memory.
fn close<A: Allocator + Copy>(
    store: &mut Store<A>,
    chunks: &mut Chunks<A>,
    first: Spot,
    end: Spot,
    patch: Row<A>,
    pieces: Pieces<A>,
)
    requires held { Holds (segment_at store.old) (chunks.old.slots ++ patch.slots) }
    requires fits { FitsIn chunks.old first end patch }
    requires memory { HasMemory chunks.old first end (length patch.slots) patch.capacity pieces.rows.items pieces.last }
    ensures slots { chunks.new.slots ≡ take (index chunks.old first) chunks.old.slots ++ (patch.slots ++ drop (index chunks.old end) chunks.old.slots) }
    ensures becomes { Becomes (segment_at store.old) (chunks.old.slots ++ patch.slots) (segment_at store.new) chunks.new.slots (all_read (segment_at store.old) (take (index chunks.old first) chunks.old.slots) ++ (all_read (segment_at store.old) patch.slots ++ all_read (segment_at store.old) (drop (index chunks.old end) chunks.old.slots))) }
    ensures in_use { live_count store.new.held ≤ live_count store.old.held }
{
    release_range(store, chunks, first, end);
    chunks.replace(first, end, patch, pieces);
}

/// Writes bytes at a place: at the end to the last slot or in one slot more, where all fit there, and else over others or in new segments, after
/// which the slots around the place are copied together if they are scattered. An error leaves all as it was.
pub(crate) fn write<A: Allocator + Copy>(
    alloc: A,
    store: &mut Store<A>,
    chunks: &mut Chunks<A>,
    place: usize,
    bytes: &[u8],
) -> Result<(), NoMemory>
    requires file { IsFile (segment_at store.old) chunks.old.slots }
    requires fits { place + length bytes.now ≤ most_file_bytes }
    requires some { 1 ≤ length bytes.now }
    requires few { (key : ℕ) → holders (segment_at store.old) key < 2 ^ 100 }
    ensures becomes { OnOk result (Becomes (segment_at store.old) chunks.old.slots (segment_at store.new) chunks.new.slots (written place bytes.now (all_read (segment_at store.old) chunks.old.slots))) }
    ensures file { OnOk result (IsFile (segment_at store.new) chunks.new.slots) }
    ensures unchanged { OnErr result ((chunks.new.slots ≡ chunks.old.slots) × (store.new ≡ store.old)) }
{
    if place != chunks.end() {
        return write_within(alloc, store, chunks, place, bytes);
    }
    if append(store, chunks, bytes)? {
        return Ok(());
    }
    write_within(alloc, store, chunks, place, bytes)
}

/// Writes bytes at a place over others or in new segments, after which the slots around the place are copied together if they are scattered.
/// An error leaves all as it was.
fn write_within<A: Allocator + Copy>(
    alloc: A,
    store: &mut Store<A>,
    chunks: &mut Chunks<A>,
    place: usize,
    bytes: &[u8],
) -> Result<(), NoMemory>
    requires file { IsFile (segment_at store.old) chunks.old.slots }
    requires fits { place + length bytes.now ≤ most_file_bytes }
    requires some { 1 ≤ length bytes.now }
    requires few { (key : ℕ) → holders (segment_at store.old) key < 2 ^ 100 }
    ensures becomes { OnOk result (Becomes (segment_at store.old) chunks.old.slots (segment_at store.new) chunks.new.slots (written place bytes.now (all_read (segment_at store.old) chunks.old.slots))) }
    ensures file { OnOk result (IsFile (segment_at store.new) chunks.new.slots) }
    ensures unchanged { OnErr result ((chunks.new.slots ≡ chunks.old.slots) × (store.new ≡ store.old)) }
{
    write_over(alloc, store, chunks, place, bytes)?;
    compact(alloc, store, chunks, place);
    Ok(())
}

/// Writes bytes at a place, in new segments. An error leaves all as it was.
pub(crate) fn overwrite<A: Allocator + Copy>(
    alloc: A,
    store: &mut Store<A>,
    chunks: &mut Chunks<A>,
    place: usize,
    bytes: &[u8],
) -> Result<(), NoMemory>
    requires file { IsFile (segment_at store.old) chunks.old.slots }
    requires fits { place + length bytes.now ≤ most_file_bytes }
    requires some { 1 ≤ length bytes.now }
    requires few { (key : ℕ) → holders (segment_at store.old) key < 2 ^ 101 }
    ensures becomes { OnOk result (Becomes (segment_at store.old) chunks.old.slots (segment_at store.new) chunks.new.slots (written place bytes.now (all_read (segment_at store.old) chunks.old.slots))) }
    ensures file { OnOk result (IsFile (segment_at store.new) chunks.new.slots) }
    ensures unchanged { OnErr result ((chunks.new.slots ≡ chunks.old.slots) × (store.new ≡ store.old)) }
{
    let count = bytes.len() / SEGMENT_SIZE + 4;
    let Opening {
        patch,
        pieces,
        first,
        rest,
    } = open(alloc, store, chunks, place, bytes.len(), count, count)?;
    let mut patch = patch;
    put_bytes(store, &mut patch, bytes);
    join_part(store, &mut patch, rest.part);
    close(store, chunks, first, rest.place, patch, pieces);
    // A proof learns here that no slot ends past its segment.
    let _segments = store.in_use();
    Ok(())
}

/// Puts the first `count` bytes of slices at a place. Where that isn't behind the end, no segment is made. An error leaves all as it was.
pub(crate) fn put<A: Allocator + Copy>(
    alloc: A,
    store: &mut Store<A>,
    chunks: &mut Chunks<A>,
    place: usize,
    slices: &[Slice],
    count: usize,
) -> Result<(), NoMemory>
    requires file { IsFile (segment_at store.old) chunks.old.slots }
    requires lie { AllLie (segment_at store.old) slices.now }
    requires fits { place + count ≤ most_file_bytes }
    requires some { 1 ≤ count }
    requires all { count ≤ total slices.now }
    requires few { (key : ℕ) → holders (segment_at store.old) key < 2 ^ 100 }
    ensures becomes { OnOk result (Becomes (segment_at store.old) chunks.old.slots (segment_at store.new) chunks.new.slots (written place (take count (all_read (segment_at store.old) slices.now)) (all_read (segment_at store.old) chunks.old.slots))) }
    ensures between { OnOk result (place ≤ total chunks.old.slots → PutBetween store.old chunks.old.slots place count slices.now store.new chunks.new.slots) }
    ensures file { OnOk result (IsFile (segment_at store.new) chunks.new.slots) }
    ensures unchanged { OnErr result ((chunks.new.slots ≡ chunks.old.slots) × (store.new ≡ store.old)) }
{
    let more = slices.len() + 1;
    let Opening {
        patch,
        pieces,
        first,
        rest,
    } = open(alloc, store, chunks, place, count, more, 0)?;
    let mut patch = patch;
    put_slices(store, &mut patch, slices, count);
    hold_part(store, &mut patch, rest.part);
    close(store, chunks, first, rest.place, patch, pieces);
    // A proof learns here that no slot ends past its segment.
    let _segments = store.in_use();
    Ok(())
}

/// Adds bytes at the end: to the last slot, where all fit its segment, and behind it in a segment of their own, where it can't be grown and they
/// fit one. Returns whether it did. An error leaves all as it was.
fn append<A: Allocator + Copy>(
    store: &mut Store<A>,
    chunks: &mut Chunks<A>,
    bytes: &[u8],
) -> Result<bool, NoMemory>
    requires held { Holds (segment_at store.old) chunks.old.slots }
    requires solid { AllSolid chunks.old.slots }
    requires within { AllWithin chunks.old.slots }
    requires some { 1 ≤ length bytes.now }
    requires most { total chunks.old.slots + length bytes.now < 2 ^ 64 }
    ensures added { IfOk result (λ added. IsAdded (segment_at store.old) chunks.old.slots bytes.now added (segment_at store.new) chunks.new.slots) }
    ensures none { IfOk result (λ added. added ≡ false → store.new ≡ store.old) }
    ensures unchanged { OnErr result ((chunks.new.slots ≡ chunks.old.slots) × (store.new ≡ store.old)) }
{
    let room = tail_room(store, chunks);
    if bytes.len() <= room {
        grow_tail(store, chunks, bytes);
        return Ok(true);
    }
    if room != 0 || chunks.is_empty() || SEGMENT_SIZE < bytes.len() {
        return Ok(false);
    }
    let added = chunks.append(store, bytes)?.is_some();
    // A proof learns here that no slot ends past its segment.
    let _segments = store.in_use();
    Ok(added)
}

/// How many bytes the last slot can be grown by; 0 where there is none.
fn tail_room<A: Allocator + Copy>(store: &Store<A>, chunks: &Chunks<A>) -> usize
    requires { AllLie (segment_at store.now) chunks.now.slots }
    ensures { result ≡ tail_room (segment_at store.now) chunks.now.slots }
{
    if chunks.is_empty() {
        return 0;
    }
    store.room_after(chunks.last())
}

/// Grows the last slot by bytes that fit. It takes no memory.
fn grow_tail<A: Allocator + Copy>(store: &mut Store<A>, chunks: &mut Chunks<A>, bytes: &[u8])
    requires held { Holds (segment_at store.old) chunks.old.slots }
    requires solid { AllSolid chunks.old.slots }
    requires some { 1 ≤ length bytes.now }
    requires fits { length bytes.now ≤ tail_room (segment_at store.old) chunks.old.slots }
    requires most { total chunks.old.slots + length bytes.now < 2 ^ 64 }
    ensures added { Adds (segment_at store.old) chunks.old.slots bytes.now (segment_at store.new) chunks.new.slots }
    ensures room { store.new.room ≡ store.old.room }
{
    let last = chunks.last();
    let longer = store.try_append(last, bytes).unwrap();
    chunks.set_last(longer);
    // A proof learns here that no slot ends past its segment.
    let _segments = store.in_use();
}
