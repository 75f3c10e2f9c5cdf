//! What becomes one slot.
ghost use Rattle.std.specs.Prelude.{◌≡◌, ◌+◌, ◌*◌, ◌<◌, ◌≤◌, ◌^◌, length};
ghost use Rattle.pl_segments.specs.Slots.{total, solid_of};
ghost use Rattle.pl_ring.specs.Merging.{lens, merges, joins, IsFront};
ghost use Rattle.pl_ring.specs.Pushed.{CanTake, IsPlan};

use crate::places::last_len;
use circular_buffer::HeapCircularBuffer;
use pl_segments::{SEGMENT_SIZE, Slice};
use std::alloc::Allocator;

/// The most slices of the front of a ring of which each may become one with what stands before it.
const FEW: usize = 3;

/// Whether a slot becomes one with the last of `count` slots, which has `last` bytes: they aren't the first pair, and fit a
/// segment.
pub(crate) fn joins(count: usize, last: u32, len: u32) -> bool
    ensures { result ≡ joins count last len }
{
    2 <= count && last as usize + len as usize <= SEGMENT_SIZE
}

/// What becomes of slots after which slices are pushed.
#[derive(Clone, Copy)]
pub(crate) struct Plan {
    /// How many of the slices become one slot with what stands before them.
    pub(crate) merges: usize,
    /// How many slots there are then.
    pub(crate) slots: usize,
}

/// What a push of slices makes, where the last of `count` slots has `last` bytes. A slice of no bytes makes no slot.
fn plan_after(count: usize, last: u32, slices: &[Slice]) -> Plan
    requires { count + last + 2 * total slices.now < 2 ^ 32 }
    ensures merges { result.merges ≡ merges count last (lens (solid_of slices.now)) }
    ensures slots { result.slots + result.merges ≡ count + length (solid_of slices.now) }
    ensures more { count ≤ result.slots }
    ensures few { result.slots < 2 ^ 32 }
{
    let mut plan = Plan {
        merges: 0,
        slots: count,
    };
    let mut end = last;
    for i in 0..slices.len() {
        let len = slices[i].len;
        if len != 0 {
            if joins(plan.slots, end, len) {
                plan.merges += 1;
                end += len;
            } else {
                plan.slots += 1;
                end = len;
            }
        }
    }
    plan
}

/// What a push of slices makes after the slots of a ring.
pub(crate) fn plan_of<A: Allocator>(slots: &HeapCircularBuffer<Slice, A>, slices: &[Slice]) -> Plan
    requires ring { CanTake slots.now (total slices.now) }
    requires most { slots.now.capacity ≤ 512 }
    ensures { IsPlan slots.now.items slices.now result }
{
    plan_after(slots.len(), last_len(slots), slices)
}

/// What a push of the front of one ring makes after the slots of another. Of such slices none becomes one with what stands before it but the
/// first two, and the last, which may be a part of its slot.
#[inline(always)]
pub(crate) fn plan_of_front<A: Allocator>(
    slots: &HeapCircularBuffer<Slice, A>,
    slices: &[Slice],
) -> Plan
    requires ring { CanTake slots.now (total slices.now) }
    requires most { slots.now.capacity ≤ 512 }
    requires front { IsFront slices.now }
    ensures { IsPlan slots.now.items slices.now result }
{
    if slices.len() <= FEW {
        return plan_of(slots, slices);
    }
    let (head, rest) = slices.split_at(FEW - 1);
    let (middle, end) = rest.split_at(rest.len() - 1);
    let plan = plan_after(slots.len(), last_len(slots), head);
    let last = plan_after(plan.slots + middle.len(), middle[middle.len() - 1].len, end);
    Plan {
        merges: plan.merges + last.merges,
        slots: last.slots,
    }
}
