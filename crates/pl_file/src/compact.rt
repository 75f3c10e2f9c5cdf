//! Slots of a file copied together.
ghost use Rattle.std.specs.Prelude.{◌≡◌, ℕ, ◌<◌, ◌≤◌, ◌^◌, length, take, drop, IfOk};
ghost use Rattle.pl_segments.specs.Segments.{segment_at, holders};
ghost use Rattle.pl_segments.specs.Slices.{AllLie, all_read};
ghost use Rattle.pl_file.specs.Rows.{index};
ghost use Rattle.pl_file.specs.Spans.{IsSpan};
ghost use Rattle.pl_file.specs.Written.{Becomes, IsFile};

use crate::chunks::Chunks;
use crate::edit::overwrite;
use crate::spot::Spot;
use pl_segments::{NoMemory, Store};
use std::alloc::Allocator;

/// Copies the bytes of the slots around a place together into new segments, if these slots are scattered. The file's bytes stay as
/// they are. If there is no memory for it, all stays as it is.
pub(crate) fn compact<A: Allocator + Copy>(
    alloc: A,
    store: &mut Store<A>,
    chunks: &mut Chunks<A>,
    place: usize,
)
    requires file { IsFile (segment_at store.old) chunks.old.slots }
    requires some { 1 ≤ length chunks.old.slots }
    requires few { (key : ℕ) → holders (segment_at store.old) key < 2 ^ 101 }
    ensures becomes { Becomes (segment_at store.old) chunks.old.slots (segment_at store.new) chunks.new.slots (all_read (segment_at store.old) chunks.old.slots) }
    ensures file { IsFile (segment_at store.new) chunks.new.slots }
{
    let Some((first, end)) = chunks.scattered(place) else {
        return;
    };
    let Ok(bytes) = bytes_of(alloc, store, chunks, first, end) else {
        return;
    };
    let place = chunks.start(first);
    let Ok(()) = overwrite(alloc, store, chunks, place, bytes.as_slice()) else {
        return;
    };
}

/// The bytes of the slots from `first` to before `end`.
fn bytes_of<A: Allocator + Copy>(
    alloc: A,
    store: &Store<A>,
    chunks: &Chunks<A>,
    first: Spot,
    end: Spot,
) -> Result<Vec<u8, A>, NoMemory>
    requires span { IsSpan chunks.now first end }
    requires lie { AllLie (segment_at store.now) chunks.now.slots }
    ensures { IfOk result (λ bytes. bytes.items ≡ all_read (segment_at store.now) (drop (index chunks.now first) (take (index chunks.now end) chunks.now.slots))) }
{
    let mut bytes = Vec::with_capacity(alloc, chunks.start(end) - chunks.start(first))?;
    let mut spot = first;
    while chunks.is_before(spot, end) {
        bytes.extend_from_slice(store.bytes(chunks.get(spot)))?;
        spot = chunks.next(spot);
    }
    Ok(bytes)
}
