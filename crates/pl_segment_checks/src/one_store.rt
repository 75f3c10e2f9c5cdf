//! Two rings and a file over one store. Each call looks first whether it may be made.
ghost use Rattle.std.specs.Prelude.{ℕ, ◌≡◌, ◌<◌, ◌≤◌, ◌+◌, ◌^◌, true, [], ◌∷◌, IfOk, length};
ghost use Rattle.pl_segments.specs.Sharing.{named};
ghost use Rattle.pl_segments.specs.Slots.{total};
ghost use Rattle.pl_ring.specs.Ring.{IsCapacity};

use crate::fault::Fault;
use crate::operation::MOST;
use crate::plain::{Plain, same_bytes};
use crate::reading::{add_file_keys, front, range_of, ring_agrees};
use pl_file::{File, WriteFault};
use pl_model::numbers::MAX_CAPACITY;
use pl_ring::{CapacityFault, Ring};
use pl_segments::{SEGMENT_SIZE, Store, len_of};
use std::alloc::{Allocator, Global};
use std::marker::Model;
use std::mem;

/// The capacity, where a ring may have it.
fn checked(capacity: usize) -> Result<usize, Fault>
    ensures { IfOk result IsCapacity }
{
    if capacity % SEGMENT_SIZE != 0
        || capacity < SEGMENT_SIZE
        || (MAX_CAPACITY as usize) < capacity
    {
        return Err(Fault::Unfit);
    }
    Ok(capacity)
}

/// Whether so many more bytes fit a ring.
fn fits<A: Allocator + Copy>(ring: &Ring<A>, count: usize) -> bool
    ensures { result ≡ true → total ring.now.slots + count ≤ ring.now.capacity }
{
    count <= ring.capacity() - ring.len()
}

/// A proof learns here that no segment has so many holders that it can't get further ones.
fn name_few<A: Allocator + Copy>(left: &Ring<A>, right: &Ring<A>, file: &File<A>)
    ensures { (key : ℕ) → named (left.now.slots ∷ right.now.slots ∷ file.now ∷ []) key < 2 ^ 100 }
{
    let _left = left.len();
    let _right = right.len();
    let _file = file.len();
}

/// Two rings and a file over one store, which nothing else holds.
#[derive(Drop)]
pub(crate) struct OneStore<A: Allocator = Global> {
    store: Store<A>,
    left: Ring<A>,
    right: Ring<A>,
    file: File<A>,
}

impl<A: Allocator> Model for OneStore<A> {
    ghost use Rattle.std.specs.Prelude.{ℕ, [], ◌∷◌};
    ghost use Rattle.pl_segments.specs.Segments.{segment_at};
    ghost use Rattle.pl_segments.specs.Sharing.{AreShared};

    ghost Value = { ℕ };

    ghost view = { λ _. 0 };

    ghost invariant = { λ k. AreShared (segment_at k.store) (k.left.slots ∷ k.right.slots ∷ k.file ∷ []) };
}

impl<A: Allocator + Copy> OneStore<A> {
    /// No bytes, and the capacity of each ring.
    pub(crate) fn new(alloc: A, left: usize, right: usize) -> Result<OneStore<A>, Fault> {
        let left = Ring::new(alloc, checked(left)?)?;
        let right = Ring::new(alloc, checked(right)?)?;
        Ok(OneStore {
            store: Store::new(alloc),
            left,
            right,
            file: File::new(alloc),
        })
    }

    /// How many segments the store holds.
    pub(crate) fn in_use(&self) -> usize {
        self.store.in_use()
    }

    /// How many bytes the file has.
    pub(crate) fn file_len(&self) -> usize {
        self.file.len()
    }

    /// How many slots the file has.
    pub(crate) fn file_slots(&self) -> Result<usize, Fault> {
        let list = range_of(&self.file, 0, usize::MAX)?;
        Ok(list.as_slice().len())
    }

    /// The left ring has no more slots than it may have: two for each 4,096 bytes that it may hold.
    pub(crate) fn has_few_slots(&self) -> Result<(), Fault> {
        if self.left.capacity() / 2_048 < self.left.slots() {
            return Err(Fault::OtherSizes);
        }
        Ok(())
    }

    /// The rings change places.
    pub(crate) fn turn(&mut self) {
        mem::swap(&mut self.left, &mut self.right);
    }

    /// Adds bytes to the left ring.
    pub(crate) fn push(&mut self, bytes: &[u8]) -> Result<(), Fault> {
        if !fits(&self.left, bytes.len()) {
            return Err(Fault::Unfit);
        }
        self.left.push_bytes(&mut self.store, bytes)?;
        Ok(())
    }

    /// Adds the first bytes of the left ring to the right one.
    pub(crate) fn tee(&mut self, count: usize) -> Result<(), Fault> {
        let slices = front(&self.left, count)?;
        name_few(&self.left, &self.right, &self.file);
        if !fits(&self.right, count) {
            return Err(Fault::Unfit);
        }
        self.right.push_slices(&mut self.store, &slices)?;
        Ok(())
    }

    /// Moves the first bytes of the left ring to the right one.
    pub(crate) fn pass(&mut self, count: usize) -> Result<(), Fault> {
        if self.left.len() < count {
            return Err(Fault::Unfit);
        }
        name_few(&self.left, &self.right, &self.file);
        if !fits(&self.right, count) {
            return Err(Fault::Unfit);
        }
        self.right
            .take_front(&mut self.store, &mut self.left, count)?;
        Ok(())
    }

    /// Adds bytes of the file to the left ring, as slices.
    pub(crate) fn take(&mut self, from: usize, count: usize) -> Result<(), Fault> {
        let slices = range_of(&self.file, from, count)?;
        name_few(&self.left, &self.right, &self.file);
        if !fits(&self.left, len_of(slices.as_slice())) {
            return Err(Fault::Unfit);
        }
        self.left.push_slices(&mut self.store, &slices)?;
        Ok(())
    }

    /// Takes the first bytes of the left ring, which are to be these.
    pub(crate) fn pop(&mut self, wanted: &[u8]) -> Result<(), Fault> {
        if self.left.len() < wanted.len() {
            return Err(Fault::Unfit);
        }
        let bytes = self.left.pop_bytes(&mut self.store, wanted.len())?;
        same_bytes(bytes.as_slice(), wanted)
    }

    /// Lets the first bytes of the left ring go.
    pub(crate) fn skip(&mut self, count: usize) -> Result<(), Fault> {
        if self.left.len() < count {
            return Err(Fault::Unfit);
        }
        self.left.drop_front(&mut self.store, count);
        Ok(())
    }

    /// The left ring is as a new pipe's.
    pub(crate) fn reset(&mut self) {
        self.left.reset(&mut self.store);
    }

    /// Sets how many bytes the left ring may hold, and answers whether it isn't busy.
    pub(crate) fn set_capacity(&mut self, capacity: usize) -> Result<bool, Fault> {
        let capacity = checked(capacity)?;
        match self.left.set_capacity(capacity) {
            Ok(()) => Ok(true),
            Err(CapacityFault::Busy) => Ok(false),
            Err(CapacityFault::NoMemory) => Err(Fault::NoMemory),
        }
    }

    /// At most so many bytes of the file from a place on are these.
    pub(crate) fn read(&self, place: usize, count: usize, wanted: &[u8]) -> Result<(), Fault> {
        let bytes = self.file.read_at(&self.store, place, count)?;
        same_bytes(bytes.as_slice(), wanted)
    }

    /// Writes bytes at a place of the file, and answers how many.
    pub(crate) fn write(
        &mut self,
        place: usize,
        bytes: &[u8],
        most: usize,
    ) -> Result<usize, WriteFault> {
        name_few(&self.left, &self.right, &self.file);
        let count = self
            .file
            .write_at(&mut self.store, place, bytes, most.min(MOST))?;
        Ok(count)
    }

    /// Puts bytes of the file at another place of it, as slices, and answers how many.
    pub(crate) fn copy(
        &mut self,
        from: usize,
        count: usize,
        place: usize,
        most: usize,
    ) -> Result<usize, WriteFault> {
        let Ok(slices) = range_of(&self.file, from, count) else {
            return Err(WriteFault::NoMemory);
        };
        name_few(&self.left, &self.right, &self.file);
        let count = self
            .file
            .put_slices_at(&mut self.store, place, &slices, most.min(MOST))?;
        Ok(count)
    }

    /// Puts the first bytes of the left ring at a place of the file, as slices, and answers how many.
    pub(crate) fn put(
        &mut self,
        count: usize,
        place: usize,
        most: usize,
    ) -> Result<usize, WriteFault> {
        let Ok(slices) = front(&self.left, count) else {
            return Err(WriteFault::NoMemory);
        };
        name_few(&self.left, &self.right, &self.file);
        let count = self
            .file
            .put_slices_at(&mut self.store, place, &slices, most.min(MOST))?;
        Ok(count)
    }

    /// The file has no bytes any more.
    pub(crate) fn truncate(&mut self) {
        self.file.truncate(&mut self.store);
    }

    /// The rings are as their lists say, and the store holds just the segments that slots name. `keys` is empty.
    pub(crate) fn agrees(
        &self,
        left: &Plain,
        right: &Plain,
        keys: &mut Vec<usize>,
    ) -> Result<(), Fault> {
        ring_agrees(&self.store, &self.left, left, keys)?;
        ring_agrees(&self.store, &self.right, right, keys)?;
        add_file_keys(&self.file, keys)?;
        if keys.len() != self.store.in_use() {
            return Err(Fault::OtherSegments);
        }
        Ok(())
    }
}
