//! The slots that are put into a file, made and held before it changes.
ghost use Rattle.std.specs.Prelude.{◌≡◌, ℕ, ◌+◌, ◌*◌, ◌/◌, ◌<◌, ◌≤◌, ◌^◌, ◌++◌, [], ◌∷◌, length, take, drop, replicate};
ghost use Rattle.pl_segments.specs.Segments.{segment_size, segment_at, holders, live_count};
ghost use Rattle.pl_segments.specs.Slices.{Lies, AllLie, all_read};
ghost use Rattle.pl_segments.specs.Turns.{Holds, Turns};
ghost use Rattle.pl_segments.specs.Slots.{total, solid_of, front_of};
ghost use Rattle.pl_file.specs.Rows.{index};
ghost use Rattle.pl_file.specs.Joined.{goes_behind, joined, Holding};
ghost use Rattle.pl_file.specs.Patches.{AreHeld, IsZeros, Patched};
ghost use Rattle.pl_file.specs.Spans.{IsSpan};

use crate::chunks::Chunks;
use crate::row::Row;
use crate::spot::Spot;
use pl_segments::{SEGMENT_SIZE, Slice, Store};
use std::alloc::Allocator;

/// The bytes that a gap reads as.
const ZEROS: [u8; 4_096] = [0; 4_096];

/// Adds a slot that is held, and makes it one with the last where both fit a segment. There is room for one more segment, and
/// for one more slot. It takes no memory.
fn push_joined<A: Allocator + Copy>(store: &mut Store<A>, patch: &mut Row<A>, slice: Slice)
    requires held { AreHeld (segment_at store.old) (patch.old.slots ++ slice ∷ []) }
    requires room { 1 ≤ store.old.room }
    requires slots { length patch.old.slots + 1 ≤ patch.old.capacity }
    requires fits { patch.old.base + total patch.old.slots + slice.len < 2 ^ 64 }
    ensures patched { Patched (segment_at store.old) (record patch.old { slots = patch.old.slots ++ slice ∷ [] }) (segment_at store.new) patch.new (all_read (segment_at store.old) (patch.old.slots ++ slice ∷ [])) }
    ensures room { store.old.room ≤ store.new.room + 1 }
    ensures many { length patch.new.slots ≤ length patch.old.slots + 1 }
    ensures total { total patch.new.slots ≡ total patch.old.slots + slice.len }
{
    let len = patch.last_len();
    if len == 0 || SEGMENT_SIZE < len as usize + slice.len as usize {
        patch.push(slice);
        return;
    }
    let last = patch.pop();
    let joined = store.join_reserved(last, slice);
    patch.push(joined);
}

/// Whether a slice goes on where the last slot ends, in the same segment.
fn goes_behind<A: Allocator>(patch: &Row<A>, part: Slice) -> bool
    ensures { result ≡ goes_behind patch.now.slots part }
{
    if patch.len() == 0 {
        return false;
    }
    let last = patch.get(patch.len() - 1);
    if last.segment != part.segment {
        return false;
    }
    last.from as usize + last.len as usize == part.from as usize
}

/// Adds a slice, but one of no bytes: where it goes on where the last slot ends, in the same segment, that slot becomes longer, and
/// else the slice is held and is a slot of its own. It takes no memory.
pub(crate) fn hold_part<A: Allocator + Copy>(store: &mut Store<A>, patch: &mut Row<A>, part: Slice)
    requires lies { 1 ≤ part.len → Lies (segment_at store.old) part }
    requires few { 1 ≤ part.len → holders (segment_at store.old) part.segment < 2 ^ 127 }
    requires held { AreHeld (segment_at store.old) patch.old.slots }
    requires slots { length patch.old.slots + 1 ≤ patch.old.capacity }
    requires fits { patch.old.base + total patch.old.slots + part.len < 2 ^ 64 }
    ensures slots { patch.new.slots ≡ joined patch.old.slots (solid_of (part ∷ [])) }
    ensures patched { Patched (segment_at store.old) patch.old (segment_at store.new) patch.new (all_read (segment_at store.old) patch.old.slots ++ all_read (segment_at store.old) (solid_of (part ∷ []))) }
    ensures held { Holding (segment_at store.old) (segment_at store.new) 1 }
    ensures in_use { live_count store.new.held ≡ live_count store.old.held }
    ensures room { store.new.room ≡ store.old.room }
{
    if part.len == 0 {
        return;
    }
    // A proof learns here that no slot ends past its segment.
    let _segments = store.in_use();
    if goes_behind(patch, part) {
        let last = patch.pop();
        patch.push(Slice {
            segment: last.segment,
            from: last.from,
            len: last.len + part.len,
        });
        return;
    }
    store.hold(part);
    patch.push(part);
}

/// Holds a slice and adds it, but one of no bytes, and makes it one with the last slot where both fit a segment. There is room
/// for one more segment. It takes no memory.
pub(crate) fn join_part<A: Allocator + Copy>(store: &mut Store<A>, patch: &mut Row<A>, part: Slice)
    requires lies { 1 ≤ part.len → Lies (segment_at store.old) part }
    requires few { 1 ≤ part.len → holders (segment_at store.old) part.segment < 2 ^ 127 }
    requires held { AreHeld (segment_at store.old) patch.old.slots }
    requires room { 1 ≤ store.old.room }
    requires slots { length patch.old.slots + 1 ≤ patch.old.capacity }
    requires fits { patch.old.base + total patch.old.slots + part.len < 2 ^ 64 }
    ensures patched { Patched (segment_at store.old) patch.old (segment_at store.new) patch.new (all_read (segment_at store.old) patch.old.slots ++ all_read (segment_at store.old) (solid_of (part ∷ []))) }
    ensures many { length patch.new.slots ≤ length patch.old.slots + 1 }
    ensures total { total patch.new.slots ≡ total patch.old.slots + part.len }
{
    if part.len != 0 {
        store.hold(part);
        push_joined(store, patch, part);
    }
}

/// Adds bytes in new segments: first as many as fill a segment with the last slot, which become one with it. There is room for
/// the segments and slots, and for one segment after. It takes no memory.
pub(crate) fn put_bytes<A: Allocator + Copy>(store: &mut Store<A>, patch: &mut Row<A>, bytes: &[u8])
    requires held { AreHeld (segment_at store.old) patch.old.slots }
    requires some { 1 ≤ length bytes.now }
    requires room { length bytes.now + 3 * segment_size ≤ segment_size * store.old.room }
    requires slots { segment_size * length patch.old.slots + length bytes.now + 2 * segment_size ≤ segment_size * patch.old.capacity }
    requires fits { patch.old.base + total patch.old.slots + length bytes.now < 2 ^ 64 }
    ensures patched { Patched (segment_at store.old) patch.old (segment_at store.new) patch.new (all_read (segment_at store.old) patch.old.slots ++ bytes.now) }
    ensures room { 1 ≤ store.new.room }
    ensures many { segment_size * length patch.new.slots ≤ segment_size * length patch.old.slots + length bytes.now + 2 * segment_size }
    ensures total { total patch.new.slots ≡ total patch.old.slots + length bytes.now }
{
    let len = patch.last_len() as usize;
    let space = if len < SEGMENT_SIZE {
        SEGMENT_SIZE - len
    } else {
        SEGMENT_SIZE
    };
    let count = space.min(bytes.len());
    let (first, rest) = bytes.split_at(count);
    let slice = store.make_reserved(first);
    push_joined(store, patch, slice);
    put_chunks(store, patch, rest);
}

/// Adds bytes in new segments, all filled but the last. There is room for the segments and slots, and for one segment after. It
/// takes no memory.
fn put_chunks<A: Allocator + Copy>(store: &mut Store<A>, patch: &mut Row<A>, bytes: &[u8])
    requires held { AreHeld (segment_at store.old) patch.old.slots }
    requires room { length bytes.now + segment_size ≤ segment_size * store.old.room }
    requires slots { segment_size * length patch.old.slots + length bytes.now + segment_size ≤ segment_size * patch.old.capacity }
    requires fits { patch.old.base + total patch.old.slots + length bytes.now < 2 ^ 64 }
    ensures patched { Patched (segment_at store.old) patch.old (segment_at store.new) patch.new (all_read (segment_at store.old) patch.old.slots ++ bytes.now) }
    ensures room { 1 ≤ store.new.room }
    ensures many { segment_size * length patch.new.slots ≤ segment_size * length patch.old.slots + length bytes.now + segment_size }
    ensures total { total patch.new.slots ≡ total patch.old.slots + length bytes.now }
{
    let mut rest = bytes;
    while 0 < rest.len() {
        let count = rest.len().min(SEGMENT_SIZE);
        let (chunk, more) = rest.split_at(count);
        let slice = store.make_reserved(chunk);
        patch.push(slice);
        rest = more;
    }
}

/// Adds so many zeros: up to 4,096 in a segment of their own, which becomes one with the last slot where both fit, and more in
/// one segment of zeros that is held again and again. There is room for two segments and for the slots. It takes no memory.
pub(crate) fn put_zeros<A: Allocator + Copy>(store: &mut Store<A>, patch: &mut Row<A>, count: usize)
    requires held { AreHeld (segment_at store.old) patch.old.slots }
    requires room { 1 ≤ count → 2 ≤ store.old.room }
    requires slots { segment_size * length patch.old.slots + count + segment_size ≤ segment_size * patch.old.capacity }
    requires fits { patch.old.base + total patch.old.slots + count < 2 ^ 64 }
    ensures patched { Patched (segment_at store.old) patch.old (segment_at store.new) patch.new (all_read (segment_at store.old) patch.old.slots ++ replicate count 0) }
    ensures same { count ≡ 0 → (store.new ≡ store.old) × (patch.new ≡ patch.old) }
    ensures room { store.old.room ≤ store.new.room + 2 }
    ensures many { segment_size * length patch.new.slots ≤ segment_size * length patch.old.slots + count + segment_size }
    ensures total { total patch.new.slots ≡ total patch.old.slots + count }
{
    if count == 0 {
        return;
    }
    if count <= SEGMENT_SIZE {
        let slice = store.make_reserved(&ZEROS[..count]);
        push_joined(store, patch, slice);
        return;
    }
    let zeros = store.make_reserved(&ZEROS);
    patch.push(zeros);
    put_copies(store, patch, zeros, count - SEGMENT_SIZE);
}

/// Adds so many zeros more by slices of a segment of zeros.
fn put_copies<A: Allocator + Copy>(
    store: &mut Store<A>,
    patch: &mut Row<A>,
    zeros: Slice,
    count: usize,
)
    requires zeros { IsZeros (segment_at store.old) zeros }
    requires few { holders (segment_at store.old) zeros.segment + count < 2 ^ 127 }
    requires held { AreHeld (segment_at store.old) patch.old.slots }
    requires slots { segment_size * length patch.old.slots + count + segment_size ≤ segment_size * patch.old.capacity }
    requires fits { patch.old.base + total patch.old.slots + count < 2 ^ 64 }
    ensures patched { Patched (segment_at store.old) patch.old (segment_at store.new) patch.new (all_read (segment_at store.old) patch.old.slots ++ replicate count 0) }
    ensures room { store.new.room ≡ store.old.room }
    ensures many { segment_size * length patch.new.slots ≤ segment_size * length patch.old.slots + count + segment_size }
    ensures total { total patch.new.slots ≡ total patch.old.slots + count }
{
    let mut rest = count;
    while 0 < rest {
        let len = rest.min(SEGMENT_SIZE);
        let part = Slice {
            segment: zeros.segment,
            from: zeros.from,
            len: len as u32,
        };
        store.hold(part);
        patch.push(part);
        rest -= len;
    }
}

/// Adds the first `count` bytes of slices, each as `hold_part` does. It takes no memory.
pub(crate) fn put_slices<A: Allocator + Copy>(
    store: &mut Store<A>,
    patch: &mut Row<A>,
    slices: &[Slice],
    count: usize,
)
    requires lie { AllLie (segment_at store.old) slices.now }
    requires few { (key : ℕ) → holders (segment_at store.old) key + length slices.now < 2 ^ 127 }
    requires held { AreHeld (segment_at store.old) patch.old.slots }
    requires slots { length patch.old.slots + length slices.now ≤ patch.old.capacity }
    requires fits { patch.old.base + total patch.old.slots + count < 2 ^ 64 }
    ensures slots { patch.new.slots ≡ joined patch.old.slots (solid_of (front_of count slices.now)) }
    ensures patched { Patched (segment_at store.old) patch.old (segment_at store.new) patch.new (all_read (segment_at store.old) patch.old.slots ++ take count (all_read (segment_at store.old) slices.now)) }
    ensures in_use { live_count store.new.held ≡ live_count store.old.held }
    ensures room { store.new.room ≡ store.old.room }
    ensures many { length patch.new.slots ≤ length patch.old.slots + length slices.now }
{
    let mut rest = count;
    let mut place = 0;
    while 0 < rest && place < slices.len() {
        let slice = slices[place];
        let len = rest.min(slice.len as usize);
        let part = Slice {
            segment: slice.segment,
            from: slice.from,
            len: len as u32,
        };
        hold_part(store, patch, part);
        rest -= len;
        place += 1;
    }
}

/// Lets the slots from `first` to before `end` go, which stay in their chunks. It takes no memory.
pub(crate) fn release_range<A: Allocator + Copy>(
    store: &mut Store<A>,
    chunks: &Chunks<A>,
    first: Spot,
    end: Spot,
)
    requires span { IsSpan chunks.now first end }
    requires held { Holds (segment_at store.old) (drop (index chunks.now first) (take (index chunks.now end) chunks.now.slots)) }
    ensures turns { Turns (segment_at store.old) (drop (index chunks.now first) (take (index chunks.now end) chunks.now.slots)) (segment_at store.new) [] }
    ensures in_use { live_count store.new.held ≤ live_count store.old.held }
{
    let mut spot = first;
    while chunks.is_before(spot, end) {
        store.release(chunks.get(spot));
        spot = chunks.next(spot);
    }
}
