//! Slices of rings and files, and what they read beside plain lists.
ghost use Rattle.std.specs.Prelude.{◌≤◌, IfOk};
ghost use Rattle.pl_model.specs.Numbers.{most_file_bytes};
ghost use Rattle.pl_segments.specs.Segments.{Map, segment_at};
ghost use Rattle.pl_segments.specs.Slices.{AllLie};
ghost use Rattle.pl_segments.specs.Slots.{total};

use crate::fault::Fault;
use crate::plain::Plain;
use pl_file::File;
use pl_ring::Ring;
use pl_segments::{NoMemory, Slice, SliceList, Store};
use std::alloc::{AllocError, Allocator};

/// The slices of at most so many of the first bytes of a ring.
pub(crate) fn front<A: Allocator + Copy>(
    ring: &Ring<A>,
    count: usize,
) -> Result<SliceList<A>, NoMemory>
    ensures lie { IfOk result (λ list. (m : Map) → AllLie m ring.now.slots → AllLie m list) }
    ensures long { IfOk result (λ list. total list ≤ count) }
    ensures most { IfOk result (λ list. total list ≤ most_file_bytes) }
{
    let count = count.min(ring.len());
    // A proof learns here that it is less than a file may have.
    let _capacity = ring.capacity();
    let list = ring.front_slices(count)?;
    Ok(list)
}

/// The slices of at most so many bytes of a file from a place on.
pub(crate) fn range_of<A: Allocator + Copy>(
    file: &File<A>,
    from: usize,
    count: usize,
) -> Result<SliceList<A>, NoMemory>
    ensures lie { IfOk result (λ list. (m : Map) → AllLie m file.now → AllLie m list) }
    ensures long { IfOk result (λ list. total list ≤ count) }
    ensures most { IfOk result (λ list. total list ≤ most_file_bytes) }
{
    let len = file.len();
    let from = from.min(len);
    let count = count.min(len - from);
    let list = file.slices_at(from, count)?;
    Ok(list)
}

/// Whether slices read these bytes.
fn read<A: Allocator + Copy>(store: &Store<A>, slices: &[Slice], bytes: &[u8]) -> bool
    requires { AllLie (segment_at store.now) slices.now }
{
    let mut place = 0usize;
    for i in 0..slices.len() {
        let read = store.bytes(slices[i]);
        let end = place.saturating_add(read.len());
        if bytes.get(place..end) != Some(read) {
            return false;
        }
        place = end;
    }
    place == bytes.len()
}

/// Adds the keys of segments that slices name, each once.
fn add_keys(slices: &[Slice], keys: &mut Vec<usize>) -> Result<(), AllocError> {
    for slice in slices {
        if !keys.contains(&slice.segment) {
            keys.push(slice.segment)?;
        }
    }
    Ok(())
}

/// Whether a ring holds, may hold and has room for as many bytes as its list says.
fn is_as_long<A: Allocator + Copy>(ring: &Ring<A>, plain: &Plain) -> bool {
    ring.len() == plain.len() && ring.capacity() == plain.capacity && ring.room() == plain.room()
}

/// A ring holds what its list says, in no more slots than it may have: two for each 4,096 bytes that it may hold. The keys of its
/// segments are added.
pub(crate) fn ring_agrees<A: Allocator + Copy>(
    store: &Store<A>,
    ring: &Ring<A>,
    plain: &Plain,
    keys: &mut Vec<usize>,
) -> Result<(), Fault>
    requires { AllLie (segment_at store.now) ring.now.slots }
{
    if !is_as_long(ring, plain) {
        return Err(Fault::OtherSizes);
    }
    let list = front(ring, usize::MAX)?;
    let slices = list.as_slice();
    if slices.len() != ring.slots() || plain.capacity / 2_048 < slices.len() {
        return Err(Fault::OtherSizes);
    }
    if !read(store, slices, plain.bytes()) {
        return Err(Fault::OtherBytes);
    }
    add_keys(slices, keys)?;
    Ok(())
}

/// Adds the keys of the segments of a file.
pub(crate) fn add_file_keys<A: Allocator + Copy>(
    file: &File<A>,
    keys: &mut Vec<usize>,
) -> Result<(), Fault> {
    let list = range_of(file, 0, usize::MAX)?;
    add_keys(list.as_slice(), keys)?;
    Ok(())
}
