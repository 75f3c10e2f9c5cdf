//! Where the first bytes of slots end, and where the rest begins.
ghost use Rattle.std.specs.Prelude.{◌≡◌, ◌≤◌, ◌++◌, [], ◌∷◌, length, take};
ghost use Rattle.pl_segments.specs.Slots.{total, AllSolid, solid_of, front_of};
ghost use Rattle.pl_file.specs.Rows.{AllWithin, index, IsSpot};
ghost use Rattle.pl_file.specs.Spans.{IsRest};

use crate::chunks::Chunks;
use crate::spot::Spot;
use pl_segments::Slice;
use std::alloc::Allocator;

/// A place among slots, and the part of a slot that stands before it or behind it; the part is empty where no slot is cut.
#[derive(Clone, Copy)]
pub(crate) struct Cut {
    pub(crate) place: Spot,
    pub(crate) part: Slice,
}

/// No bytes.
const NO_BYTES: Slice = Slice {
    segment: 0,
    from: 0,
    len: 0,
};

/// The first `count` bytes: the slots before a place, and the part of the one there, in which the last of the bytes lies.
pub(crate) fn front_cut<A: Allocator + Copy>(chunks: &Chunks<A>, count: usize) -> Cut
    requires solid { AllSolid chunks.now.slots }
    ensures spot { IsSpot chunks.now result.place }
    ensures place { index chunks.now result.place ≤ length chunks.now.slots }
    ensures starts { total (take (index chunks.now result.place) chunks.now.slots) ≤ count }
    ensures some { 1 ≤ length (front_of count chunks.now.slots) → 1 ≤ result.part.len }
    ensures front { front_of count chunks.now.slots ≡ take (index chunks.now result.place) chunks.now.slots ++ solid_of (result.part ∷ []) }
{
    if count == 0 || chunks.is_empty() {
        return Cut {
            place: chunks.first(),
            part: NO_BYTES,
        };
    }
    let place = chunks.find(count - 1);
    let slot = chunks.get(place);
    let len = (count - chunks.start(place)).min(slot.len as usize);
    Cut {
        place,
        part: Slice {
            segment: slot.segment,
            from: slot.from,
            len: len as u32,
        },
    }
}

/// The bytes behind the first `count`: the part of the slot before a place, in which the first of them lies, and the slots from
/// there on.
pub(crate) fn rest_cut<A: Allocator + Copy>(chunks: &Chunks<A>, count: usize) -> Cut
    requires solid { AllSolid chunks.now.slots }
    requires within { AllWithin chunks.now.slots }
    ensures spot { IsSpot chunks.now result.place }
    ensures place { index chunks.now result.place ≤ length chunks.now.slots }
    ensures rest { IsRest chunks.now count result }
{
    if chunks.is_empty() {
        return Cut {
            place: chunks.first(),
            part: NO_BYTES,
        };
    }
    let here = chunks.find(count);
    let slot = chunks.get(here);
    let skipped = (count - chunks.start(here)).min(slot.len as usize) as u32;
    Cut {
        place: chunks.next(here),
        part: Slice {
            segment: slot.segment,
            from: slot.from + skipped,
            len: slot.len - skipped,
        },
    }
}
