//! Writes over bytes that are there and that nobody else reads.
ghost use Rattle.std.specs.Prelude.{◌≡◌, ◌+◌, ◌<◌, ◌≤◌, ◌^◌, ℕ, length, IfSome, OnErr, OnOk};
ghost use Rattle.pl_model.specs.Numbers.{most_file_bytes};
ghost use Rattle.pl_segments.specs.Segments.{segment_at, holders};
ghost use Rattle.pl_segments.specs.Slices.{AllLie, all_read};
ghost use Rattle.pl_segments.specs.Turns.{Holds, Turns};
ghost use Rattle.pl_segments.specs.Slots.{AllSolid};
ghost use Rattle.pl_file.specs.File.{written};
ghost use Rattle.pl_file.specs.Rows.{index, IsSpot};
ghost use Rattle.pl_file.specs.Alone.{AreAlone};
ghost use Rattle.pl_file.specs.Written.{Becomes, IsFile};

use crate::chunks::Chunks;
use crate::edit::overwrite;
use crate::spot::Spot;
use pl_segments::{NoMemory, SEGMENT_SIZE, Store};
use std::alloc::Allocator;

/// Writes bytes at a place: over those that are there, where they lie in few slots that alone hold their segments, and else in new segments.
/// Over others they take no memory, and no slot changes. An error leaves all as it was.
pub(crate) fn write_over<A: Allocator + Copy>(
    alloc: A,
    store: &mut Store<A>,
    chunks: &mut Chunks<A>,
    place: usize,
    bytes: &[u8],
) -> Result<(), NoMemory>
    requires file { IsFile (segment_at store.old) chunks.old.slots }
    requires fits { place + length bytes.now ≤ most_file_bytes }
    requires some { 1 ≤ length bytes.now }
    requires few { (key : ℕ) → holders (segment_at store.old) key < 2 ^ 101 }
    ensures becomes { OnOk result (Becomes (segment_at store.old) chunks.old.slots (segment_at store.new) chunks.new.slots (written place bytes.now (all_read (segment_at store.old) chunks.old.slots))) }
    ensures file { OnOk result (IsFile (segment_at store.new) chunks.new.slots) }
    ensures unchanged { OnErr result ((chunks.new.slots ≡ chunks.old.slots) × (store.new ≡ store.old)) }
{
    match find_alone(store, chunks, place, bytes.len()) {
        Some(first) => {
            put_over(store, chunks, first, place, bytes);
            Ok(())
        }
        None => overwrite(alloc, store, chunks, place, bytes),
    }
}

/// The first of the slots in which `count` bytes from a place on lie, if each of these alone holds its segment, and they are no more than the
/// segments that the bytes would take anew: so scattered slots are still copied together.
fn find_alone<A: Allocator + Copy>(
    store: &Store<A>,
    chunks: &Chunks<A>,
    place: usize,
    count: usize,
) -> Option<Spot>
    requires fits { place + count ≤ most_file_bytes }
    requires some { 1 ≤ count }
    requires lie { AllLie (segment_at store.now) chunks.now.slots }
    ensures spot { IfSome result (λ first. IsSpot chunks.now first) }
    ensures alone { IfSome result (λ first. AreAlone (segment_at store.now) chunks.now.slots (index chunks.now first) place count) }
{
    if chunks.end() < place + count {
        return None;
    }
    let first = chunks.find(place);
    let mut spot = first;
    // from the front of the slot on
    let mut left = place - chunks.start(first) + count;
    for _ in 0..count / SEGMENT_SIZE + 2 {
        let slot = chunks.get(spot);
        if store.holders(slot) != 1 {
            return None;
        }
        if left <= slot.len as usize {
            return Some(first);
        }
        left -= slot.len as usize;
        spot = chunks.next(spot);
    }
    None
}

/// Writes bytes at a place over those of slots that alone hold their segments. It takes no memory.
fn put_over<A: Allocator + Copy>(
    store: &mut Store<A>,
    chunks: &Chunks<A>,
    first: Spot,
    place: usize,
    bytes: &[u8],
)
    requires held { Holds (segment_at store.old) chunks.now.slots }
    requires solid { AllSolid chunks.now.slots }
    requires spot { IsSpot chunks.now first }
    requires alone { AreAlone (segment_at store.old) chunks.now.slots (index chunks.now first) place (length bytes.now) }
    ensures turns { Turns (segment_at store.old) chunks.now.slots (segment_at store.new) chunks.now.slots }
    ensures read { all_read (segment_at store.new) chunks.now.slots ≡ written place bytes.now (all_read (segment_at store.old) chunks.now.slots) }
{
    let mut spot = first;
    let mut at = place - chunks.start(first);
    let mut rest = bytes;
    while 0 < rest.len() {
        let slot = chunks.get(spot);
        let (piece, more) = rest.split_at(rest.len().min(slot.len as usize - at));
        store.overwrite(slot, at, piece);
        rest = more;
        at = 0;
        spot = chunks.next(spot);
    }
}
