//! Regular files.
ghost use Rattle.std.specs.Prelude.{◌≡◌, ℕ, ◌+◌, ◌-◌, ◌<◌, ◌≤◌, ◌^◌, ◌↔◌, ◌++◌, [], ◌∷◌, length, take, drop, IfOk, OnOk, OnErr, Err};
ghost use Rattle.pl_model.specs.Numbers.{most_file_bytes};
ghost use Rattle.pl_segments.specs.Segments.{segment_at, holders, live_count};
ghost use Rattle.pl_segments.specs.Slices.{AllLie, all_read};
ghost use Rattle.pl_segments.specs.Turns.{Holds, Turns};
ghost use Rattle.pl_segments.specs.Slots.{total, AllSolid, solid_of, drop_bytes, front_of};
ghost use Rattle.pl_file.specs.File.{written, fitting};
ghost use Rattle.pl_file.specs.Written.{Becomes, PutBetween};

use crate::chunks::Chunks;
use crate::cut::rest_cut;
use crate::edit::{put, write};
use crate::fault::WriteFault;
use crate::patch::release_range;
use pl_segments::{NoMemory, SEGMENT_SIZE, Slice, SliceList, Store, len_of};
use std::alloc::{Allocator, Global};
use std::marker::Model;

/// The slots of one regular file, from the first byte to the last: slices of the segments of a store, each of which it holds.
/// With the store it is a list of bytes. They stand in chunks, and each keeps the place where it starts, so a write moves no byte
/// behind those that it replaces.
#[derive(Drop)]
pub struct File<A: Allocator = Global> {
    alloc: A,
    chunks: Chunks<A>,
}

impl<A: Allocator> Model for File<A> {
    ghost use Rattle.std.specs.Prelude.{List};
    ghost use Rattle.pl_segments.specs.declared.slice.Slice.{Slice as Part};

    ghost Value = { List Part };

    ghost use Rattle.pl_file.specs.FileView.{view_of, IsSound};

    ghost view = { view_of };

    ghost invariant = { IsSound };
}

impl<A: Allocator + Copy> File<A> {
    /// A file of no bytes. It takes no memory.
    pub fn new(alloc: A) -> File<A>
        ensures { result ≡ [] }
    {
        File {
            alloc,
            chunks: Chunks::new(alloc),
        }
    }

    /// How many bytes the file has.
    pub fn len(&self) -> usize
        ensures value { result ≡ total self.now }
        ensures most { result ≤ most_file_bytes }
        ensures solid { AllSolid self.now }
    {
        self.chunks.end()
    }

    /// At most `count` bytes from a place on, none past the end (POSIX.1-2017, read).
    pub fn read_at(
        &self,
        store: &Store<A>,
        place: usize,
        count: usize,
    ) -> Result<Vec<u8, A>, NoMemory>
        requires { AllLie (segment_at store.now) self.now }
        ensures { IfOk result (λ bytes. bytes.items ≡ take count (drop place (all_read (segment_at store.now) self.now))) }
    {
        let list = self.slices_at(place, count)?;
        let capacity = self.len().saturating_sub(place).min(count);
        read_all(self.alloc, store, list.as_slice(), capacity)
    }

    /// Copies the bytes from a place on into a list, which is no longer than what is there (POSIX.1-2017, read). It takes no memory.
    pub fn read_into(&self, store: &Store<A>, place: usize, into: &mut [u8])
        requires lie { AllLie (segment_at store.now) self.now }
        requires fits { length into.old ≤ total self.now - place }
        ensures { into.new ≡ take (length into.old) (drop place (all_read (segment_at store.now) self.now)) }
    {
        let cut = rest_cut(&self.chunks, place);
        let mut filled = fill_part(store, cut.part, into);
        let mut spot = cut.place;
        while filled < into.len() && self.chunks.has(spot) {
            filled = store.fill(self.chunks.get(spot), into, filled);
            spot = self.chunks.next(spot);
        }
    }

    /// The slices of at most `count` bytes from a place on, none past the end.
    pub fn slices_at(&self, place: usize, count: usize) -> Result<SliceList<A>, NoMemory>
        ensures { IfOk result (λ list. list ≡ front_of count (drop_bytes place self.now)) }
    {
        let cut = rest_cut(&self.chunks, place);
        let mut list = Vec::with_capacity(self.alloc, self.len().min(count) / SEGMENT_SIZE + 2)?;
        let mut rest = list_part(&mut list, cut.part, count)?;
        let mut spot = cut.place;
        while 0 < rest && self.chunks.has(spot) {
            rest = list_part(&mut list, self.chunks.get(spot), rest)?;
            spot = self.chunks.next(spot);
        }
        Ok(SliceList::from_vec(list))
    }

    /// Writes bytes from a place on, and answers how many: those that stand below `most`, the greatest length of the file, which is
    /// at most 16,777,216. What lies between the end and the place reads as zeros (POSIX.1-2017, write; lseek). No bytes are
    /// always written, and change nothing. An error leaves all as it was.
    ///
    /// # Errors
    ///
    /// - `TooBig` exactly where there are bytes, and the place is at `most` or past it.
    /// - `NoMemory` where it isn't, and there is no memory.
    pub fn write_at(
        &mut self,
        store: &mut Store<A>,
        place: usize,
        bytes: &[u8],
        most: usize,
    ) -> Result<usize, WriteFault>
        requires most { most ≤ most_file_bytes }
        requires held { Holds (segment_at store.old) self.old }
        requires few { (key : ℕ) → holders (segment_at store.old) key < 2 ^ 100 }
        ensures count { IfOk result (λ count. count ≡ fitting (length bytes.now) place most) }
        ensures big { (result ≡ Err WriteFault.TooBig) ↔ ((1 ≤ length bytes.now) × (most ≤ place)) }
        ensures becomes { OnOk result (Becomes (segment_at store.old) self.old (segment_at store.new) self.new (written place (take (most - place) bytes.now) (all_read (segment_at store.old) self.old))) }
        ensures unchanged { OnErr result ((self.new ≡ self.old) × (store.new ≡ store.old)) }
    {
        let count = fitting(bytes.len(), place, most)?;
        if count == 0 {
            return Ok(0);
        }
        let bytes = &bytes[..count];
        let Ok(()) = write(self.alloc, store, &mut self.chunks, place, bytes) else {
            return Err(WriteFault::NoMemory);
        };
        Ok(count)
    }

    /// Puts slices of held segments at a place, as `write_at` writes their bytes; a slice of no bytes adds no slot. Where the
    /// place isn't behind the end, no segment is made, and the slots are those of the bytes before, the slices, and those of
    /// the bytes behind. An error leaves all as it was.
    ///
    /// # Errors
    ///
    /// - `TooBig` exactly where there are bytes, and the place is at `most` or past it.
    /// - `NoMemory` where it isn't, and there is no memory.
    pub fn put_slices_at(
        &mut self,
        store: &mut Store<A>,
        place: usize,
        slices: &SliceList<A>,
        most: usize,
    ) -> Result<usize, WriteFault>
        requires most { most ≤ most_file_bytes }
        requires lie { AllLie (segment_at store.old) slices.now }
        requires long { total slices.now ≤ most_file_bytes }
        requires held { Holds (segment_at store.old) self.old }
        requires few { (key : ℕ) → holders (segment_at store.old) key < 2 ^ 100 }
        ensures count { IfOk result (λ count. count ≡ fitting (total slices.now) place most) }
        ensures big { (result ≡ Err WriteFault.TooBig) ↔ ((1 ≤ total slices.now) × (most ≤ place)) }
        ensures becomes { OnOk result (Becomes (segment_at store.old) self.old (segment_at store.new) self.new (written place (take (most - place) (all_read (segment_at store.old) slices.now)) (all_read (segment_at store.old) self.old))) }
        ensures between { IfOk result (λ count. place ≤ total self.old → PutBetween store.old self.old place count slices.now store.new self.new) }
        ensures unchanged { OnErr result ((self.new ≡ self.old) × (store.new ≡ store.old)) }
    {
        let slices = slices.as_slice();
        let count = fitting(len_of(slices), place, most)?;
        if count == 0 {
            return Ok(0);
        }
        let Ok(()) = put(self.alloc, store, &mut self.chunks, place, slices, count) else {
            return Err(WriteFault::NoMemory);
        };
        Ok(count)
    }

    /// Lets all bytes go. It takes no memory.
    pub fn truncate(&mut self, store: &mut Store<A>)
        requires { Holds (segment_at store.old) self.old }
        ensures value { self.new ≡ [] }
        ensures turns { Turns (segment_at store.old) self.old (segment_at store.new) [] }
        ensures in_use { live_count store.new.held ≤ live_count store.old.held }
    {
        let first = self.chunks.first();
        release_range(store, &self.chunks, first, self.chunks.behind());
        self.chunks.clear();
    }
}

/// How many of so many bytes a write from a place on puts in.
fn fitting(count: usize, place: usize, most: usize) -> Result<usize, WriteFault>
    ensures value { IfOk result (λ fit. fit ≡ fitting count place most) }
    ensures some { OnOk result (1 ≤ count → place < most) }
    ensures err { OnErr result (result ≡ Err WriteFault.TooBig) }
    ensures big { OnErr result ((1 ≤ count) × (most ≤ place)) }
{
    if count == 0 {
        return Ok(0);
    }
    if most <= place {
        return Err(WriteFault::TooBig);
    }
    Ok(count.min(most - place))
}

/// Adds the first `count` bytes of a slice to a list, but no slice of no bytes, and answers how many are left to be listed.
fn list_part<A: Allocator>(
    list: &mut Vec<Slice, A>,
    slice: Slice,
    count: usize,
) -> Result<usize, NoMemory>
    ensures items { OnOk result (list.new.items ≡ list.old.items ++ front_of count (solid_of (slice ∷ []))) }
    ensures left { IfOk result (λ left. left ≡ count - slice.len) }
{
    let len = count.min(slice.len as usize);
    if len != 0 {
        let part = Slice {
            segment: slice.segment,
            from: slice.from,
            len: len as u32,
        };
        if list.push(part).is_err() {
            return Err(NoMemory);
        }
    }
    Ok(count - len)
}

/// Copies the bytes of a slice, where it has some, to the first places of a list, as many as there are places for, and answers how
/// many.
fn fill_part<A: Allocator + Copy>(store: &Store<A>, slice: Slice, into: &mut [u8]) -> usize
    requires { AllLie (segment_at store.now) (solid_of (slice ∷ [])) }
    ensures bytes { take result into.new ≡ take (length into.old) (all_read (segment_at store.now) (solid_of (slice ∷ []))) }
    ensures most { result ≤ length into.new }
    ensures len { length into.new ≡ length into.old }
{
    if slice.len == 0 {
        return 0;
    }
    store.fill(slice, into, 0)
}

/// The bytes of slices, one after another, in a list with memory for `capacity`.
fn read_all<A: Allocator + Copy>(
    alloc: A,
    store: &Store<A>,
    slices: &[Slice],
    capacity: usize,
) -> Result<Vec<u8, A>, NoMemory>
    requires { AllLie (segment_at store.now) slices.now }
    ensures { IfOk result (λ bytes. bytes.items ≡ all_read (segment_at store.now) slices.now) }
{
    let mut bytes = Vec::with_capacity(alloc, capacity)?;
    for i in 0..slices.len() {
        bytes.extend_from_slice(store.bytes(slices[i]))?;
    }
    Ok(bytes)
}
