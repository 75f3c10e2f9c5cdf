//! The store of segments.
ghost use Rattle.std.specs.Prelude.{◌≡◌, ◌++◌, nat_eq, if◌then◌else◌, ◌+◌, ◌-◌, ◌<◌, ◌≤◌, ◌^◌, [], ◌∷◌, length, take, max, IsOk, IfOk, OnErr, OnOk, Some, None};
ghost use Rattle.std.specs.List.{splice};
ghost use Rattle.pl_segments.specs.Segments.{segment_size, segment_at, set_at, filled, holders, AreGood, live_count, more_held, less_held, longer, trimmed, overwritten};
ghost use Rattle.pl_segments.specs.Slices.{Lies, reads, longer_by, appended, room_after, is_part};
ghost use Rattle.pl_segments.specs.Turns.{Holds, Turns};

use crate::block::{Block, SEGMENT_SIZE, put};
use crate::fault::AppendFault;
use crate::keys::Keys;
use crate::segment::Segment;
use crate::slice::Slice;
use pl_model::NoMemory;
use slab::Slab;
use std::alloc::{Allocator, Global};
use std::marker::Model;

/// Segments of at most 4,096 bytes, each with the number of its holders. A segment is there as long as it is held. Its bytes stay while
/// several hold it: bytes are only added behind them.
#[derive(Drop)]
pub struct Store<A: Allocator = Global> {
    alloc: A,
    segments: Slab<Segment<A>, A>,
    // The keys of the segments that nobody holds. They stay where they are, with their memory, so that a segment comes and goes
    // without being moved; only one that a join takes is.
    spare: Keys<A>,
}

impl<A: Allocator> Model for Store<A> {
    ghost use Rattle.pl_segments.specs.Segments.{Segments};

    ghost Value = { Segments };

    ghost use Rattle.pl_segments.specs.StoreView.{view_of, IsSound};

    ghost view = { view_of };

    ghost invariant = { IsSound };
}

impl<A: Allocator + Copy> Store<A> {
    /// No segments. It takes no memory.
    pub fn new(alloc: A) -> Store<A>
        ensures { result ≡ record { held = []; room = 0 } }
    {
        Store {
            alloc,
            segments: Slab::new(alloc),
            spare: Keys::new(alloc),
        }
    }

    /// How many segments are held.
    pub fn in_use(&self) -> usize
        ensures value { result ≡ live_count self.now.held }
        ensures good { AreGood self.now.held }
    {
        self.segments.len() - self.spare.len()
    }

    /// How many segments are spare: nobody holds them, and they are kept for further ones.
    pub fn spare(&self) -> usize
        ensures { result ≡ self.now.room }
    {
        self.spare.len()
    }

    /// Gives back the memory of spare segments, so that at most so many stay. It takes no memory.
    #[inline(always)]
    pub fn trim(&mut self, most: usize)
        ensures { self.new ≡ trimmed most self.old }
    {
        if most < self.spare.len() {
            self.drop_spares(most);
        }
    }

    // Gives back the memory of spare segments, until there are `count`.
    #[inline(never)]
    fn drop_spares(&mut self, count: usize)
        requires { count ≤ self.old.room }
        ensures { self.new ≡ record self.old { room = count } }
    {
        while count < self.spare() {
            self.drop_spare();
        }
    }

    // Gives back the memory of a spare segment.
    fn drop_spare(&mut self)
        requires { 1 ≤ self.old.room }
        ensures { self.new ≡ record self.old { room = self.old.room - 1 } }
    {
        let key = self.spare.pop().unwrap();
        let _gone = self.segments.remove(key);
    }

    // Makes a spare segment. An error leaves all as it was.
    fn add_spare(&mut self) -> Result<(), NoMemory>
        ensures room { OnOk result (self.new.room ≡ self.old.room + 1) }
        ensures kept { self.new ≡ record self.old { room = self.new.room } }
        ensures unchanged { OnErr result (self.new ≡ self.old) }
    {
        // A place for the key of each segment that there is then, so that all can be kept when nobody holds them any more.
        let places = self.in_use().saturating_add(1);
        self.segments.reserve(1)?;
        self.spare.try_reserve(places)?;
        let block = Block::new(self.alloc)?;
        let key = self.segments.insert_reserved(Segment::new(block));
        self.spare.push_reserved(key);
        Ok(())
    }

    // Makes spare segments, until there are `count`. An error leaves as many as there were.
    #[inline(never)]
    fn add_spares(&mut self, count: usize) -> Result<(), NoMemory>
        ensures room { OnOk result (count ≤ self.new.room) }
        ensures grows { self.old.room ≤ self.new.room }
        ensures most { self.new.room ≤ max count self.old.room }
        ensures kept { self.new ≡ record self.old { room = self.new.room } }
        ensures succeeds { count ≤ self.old.room → IsOk result }
        ensures unchanged { OnErr result (self.new ≡ self.old) }
    {
        let before = self.spare();
        while self.spare() < count {
            if self.add_spare().is_err() {
                self.drop_spares(before);
                return Err(NoMemory);
            }
        }
        Ok(())
    }

    /// Makes room for `count` more segments, so that making them takes no memory. Nothing else changes: as many segments are spare
    /// then as there were, or `count` if they were fewer. An error leaves all as it was.
    #[inline(always)]
    pub fn reserve(&mut self, count: usize) -> Result<(), NoMemory>
        ensures room { OnOk result (count ≤ self.new.room) }
        ensures grows { self.old.room ≤ self.new.room }
        ensures most { self.new.room ≤ max count self.old.room }
        ensures kept { self.new ≡ record self.old { room = self.new.room } }
        ensures succeeds { count ≤ self.old.room → IsOk result }
        ensures unchanged { OnErr result (self.new ≡ self.old) }
    {
        if count <= self.spare.len() {
            return Ok(());
        }
        self.add_spares(count)
    }

    /// Makes a segment of these 1 to 4,096 bytes, for which there is room, and answers the slice of them, which holds it. It
    /// takes no memory.
    #[inline(always)]
    pub fn make_reserved(&mut self, bytes: &[u8]) -> Slice
        requires room { 1 ≤ self.old.room }
        requires some { 1 ≤ length bytes.now }
        requires most { length bytes.now ≤ segment_size }
        ensures slice { result ≡ record { segment = result.segment; from = 0; len = length bytes.now } }
        ensures vacant { segment_at self.old result.segment ≡ None }
        ensures made { segment_at self.new ≡ set_at (segment_at self.old) result.segment (Some (record { filled = bytes.now; holders = 1 })) }
        ensures in_use { live_count self.new.held ≡ live_count self.old.held + 1 }
        ensures room { self.new.room + 1 ≡ self.old.room }
        ensures turns { Turns (segment_at self.old) [] (segment_at self.new) (result ∷ []) }
        ensures reads { reads (segment_at self.new) result ≡ bytes.now }
    {
        let segment = self.spare.pop().unwrap();
        let made = &mut self.segments[segment];
        made.begin(bytes);
        Slice {
            segment,
            from: 0,
            len: bytes.len() as u32,
        }
    }

    /// Adds a hold of a slice's segment, which has fewer than 2^127 of them. It takes no memory.
    pub fn hold(&mut self, slice: Slice)
        requires lies { Lies (segment_at self.old) slice }
        requires few { holders (segment_at self.old) slice.segment < 2 ^ 127 }
        ensures held { segment_at self.new ≡ set_at (segment_at self.old) slice.segment (more_held (segment_at self.old slice.segment)) }
        ensures in_use { live_count self.new.held ≡ live_count self.old.held }
        ensures room { self.new.room ≡ self.old.room }
        ensures turns { Turns (segment_at self.old) [] (segment_at self.new) (slice ∷ []) }
        ensures reads { reads (segment_at self.new) slice ≡ reads (segment_at self.old) slice }
    {
        let segment = &mut self.segments[slice.segment];
        segment.hold();
    }

    /// Gives up a hold of a slice's segment, which is gone where that was its last. It takes no memory.
    #[inline(always)]
    pub fn release(&mut self, slice: Slice)
        requires { Lies (segment_at self.old) slice }
        ensures released { segment_at self.new ≡ set_at (segment_at self.old) slice.segment (less_held (segment_at self.old slice.segment)) }
        ensures in_use { live_count self.new.held + (if nat_eq (holders (segment_at self.old) slice.segment) 1 then 1 else 0) ≡ live_count self.old.held }
        ensures room { self.old.room ≤ self.new.room }
        ensures turns { Turns (segment_at self.old) (slice ∷ []) (segment_at self.new) [] }
    {
        self.read_out(slice, &mut []);
    }

    /// Copies the first bytes of a slice into a list of no more, and gives up a hold of its segment, as `release` does. It takes no memory.
    #[inline(always)]
    pub fn read_out(&mut self, slice: Slice, into: &mut [u8])
        requires lies { Lies (segment_at self.old) slice }
        requires few { length into.old ≤ slice.len }
        ensures bytes { into.new ≡ take (length into.old) (reads (segment_at self.old) slice) }
        ensures released { segment_at self.new ≡ set_at (segment_at self.old) slice.segment (less_held (segment_at self.old slice.segment)) }
        ensures in_use { live_count self.new.held + (if nat_eq (holders (segment_at self.old) slice.segment) 1 then 1 else 0) ≡ live_count self.old.held }
        ensures room { self.old.room ≤ self.new.room }
        ensures turns { Turns (segment_at self.old) (slice ∷ []) (segment_at self.new) [] }
    {
        let segment = &mut self.segments[slice.segment];
        segment.release();
        let start = slice.from as usize;
        let bytes = &segment.filled()[start..start + into.len()];
        // The copy comes last where it can, so that little is to be kept over it.
        if segment.holders() != 0 {
            put(into, bytes);
            return;
        }
        // It stays for further bytes where there is a place for its key.
        if self.spare.keep(slice.segment) {
            put(into, bytes);
        } else {
            put(into, bytes);
            let _gone = self.segments.remove(slice.segment);
        }
    }

    /// Adds bytes to a slice's segment, and answers the slice with them, which takes over its hold. An error leaves all as it
    /// was. It takes no memory.
    ///
    /// # Errors
    ///
    /// - `NotAtEnd` exactly where the slice doesn't end where its segment is filled to.
    /// - `NoRoom` exactly where it does, and the bytes don't fit the segment.
    pub fn try_append(&mut self, slice: Slice, bytes: &[u8]) -> Result<Slice, AppendFault>
        requires { Lies (segment_at self.old) slice }
        ensures value { result ≡ appended (segment_at self.old) slice (length bytes.now) }
        ensures filled { OnOk result (segment_at self.new ≡ set_at (segment_at self.old) slice.segment (longer bytes.now (segment_at self.old slice.segment))) }
        ensures in_use { OnOk result (live_count self.new.held ≡ live_count self.old.held) }
        ensures room { OnOk result (self.new.room ≡ self.old.room) }
        ensures turns { IfOk result (λ more. Turns (segment_at self.old) (slice ∷ []) (segment_at self.new) (more ∷ [])) }
        ensures reads { IfOk result (λ more. reads (segment_at self.new) more ≡ reads (segment_at self.old) slice ++ bytes.now) }
        ensures unchanged { OnErr result (self.new ≡ self.old) }
    {
        let end = slice.from as usize + slice.len as usize;
        let segment = &mut self.segments[slice.segment];
        if end != segment.len() {
            return Err(AppendFault::NotAtEnd);
        }
        if SEGMENT_SIZE - end < bytes.len() {
            return Err(AppendFault::NoRoom);
        }
        segment.append(bytes);
        Ok(Slice {
            segment: slice.segment,
            from: slice.from,
            len: slice.len + bytes.len() as u32,
        })
    }

    /// Writes bytes over those of a slice, from a place among them on, where nothing else holds its segment: so nobody reads them but who
    /// holds the slice. It takes no memory.
    pub fn overwrite(&mut self, slice: Slice, place: usize, bytes: &[u8])
        requires lies { Lies (segment_at self.old) slice }
        requires alone { holders (segment_at self.old) slice.segment ≡ 1 }
        requires within { place + length bytes.now ≤ slice.len }
        ensures overwritten { segment_at self.new ≡ set_at (segment_at self.old) slice.segment (overwritten (slice.from + place) bytes.now (segment_at self.old slice.segment)) }
        ensures in_use { live_count self.new.held ≡ live_count self.old.held }
        ensures room { self.new.room ≡ self.old.room }
        ensures turns { Turns (segment_at self.old) (slice ∷ []) (segment_at self.new) (slice ∷ []) }
        ensures reads { reads (segment_at self.new) slice ≡ splice (reads (segment_at self.old) slice) place (place + length bytes.now) bytes.now }
    {
        let segment = &mut self.segments[slice.segment];
        segment.overwrite(slice.from as usize + place, bytes);
    }

    /// Copies the bytes of a slice into a list of its length.
    pub fn read_into(&self, slice: Slice, into: &mut [u8])
        requires lies { Lies (segment_at self.now) slice }
        requires long { length into.old ≡ slice.len }
        ensures { into.new ≡ reads (segment_at self.now) slice }
    {
        into.copy_from_slice(self.bytes(slice));
    }

    /// Copies the bytes of a slice to the places of a list from `filled` on, as many as there are places for, and answers how many
    /// places are filled then.
    #[inline(always)]
    pub fn fill(&self, slice: Slice, into: &mut [u8], filled: usize) -> usize
        requires lies { Lies (segment_at self.now) slice }
        requires filled { filled ≤ length into.old }
        ensures bytes { take result into.new ≡ take filled into.old ++ take (length into.old - filled) (reads (segment_at self.now) slice) }
        ensures most { result ≤ length into.new }
        ensures len { length into.new ≡ length into.old }
    {
        let bytes = self.bytes(slice);
        let count = bytes.len().min(into.len() - filled);
        into[filled..filled + count].copy_from_slice(&bytes[..count]);
        filled + count
    }

    /// The bytes of a slice.
    pub fn bytes(&self, slice: Slice) -> &[u8]
        requires { Lies (segment_at self.now) slice }
        ensures { result.now ≡ reads (segment_at self.now) slice }
    {
        let from = slice.from as usize;
        &self.segments[slice.segment].filled()[from..from + slice.len as usize]
    }

    /// How many hold the segment of a slice.
    pub fn holders(&self, slice: Slice) -> u128
        requires { Lies (segment_at self.now) slice }
        ensures { result ≡ holders (segment_at self.now) slice.segment }
    {
        self.segments[slice.segment].holders()
    }

    /// How many bytes the segment of a slice is filled with.
    pub fn filled(&self, slice: Slice) -> usize
        requires { Lies (segment_at self.now) slice }
        ensures value { result ≡ length (filled (segment_at self.now) slice.segment) }
        ensures most { result ≤ segment_size }
    {
        self.segments[slice.segment].len()
    }

    /// Makes a segment of these 1 to 4,096 bytes, and answers the slice of them, which holds it.
    pub fn make(&mut self, bytes: &[u8]) -> Result<Slice, NoMemory>
        requires some { 1 ≤ length bytes.now }
        requires most { length bytes.now ≤ segment_size }
        ensures slice { IfOk result (λ slice. slice ≡ record { segment = slice.segment; from = 0; len = length bytes.now }) }
        ensures vacant { IfOk result (λ slice. segment_at self.old slice.segment ≡ None) }
        ensures made { IfOk result (λ slice. segment_at self.new ≡ set_at (segment_at self.old) slice.segment (Some (record { filled = bytes.now; holders = 1 }))) }
        ensures in_use { OnOk result (live_count self.new.held ≡ live_count self.old.held + 1) }
        ensures turns { IfOk result (λ slice. Turns (segment_at self.old) [] (segment_at self.new) (slice ∷ [])) }
        ensures reads { IfOk result (λ slice. reads (segment_at self.new) slice ≡ bytes.now) }
        ensures unchanged { OnErr result (self.new ≡ self.old) }
    {
        self.reserve(1)?;
        Ok(self.make_reserved(bytes))
    }

    /// How many bytes can be appended to a slice: as many as its segment has room for, where the slice ends where the segment is
    /// filled to, and else none.
    pub fn room_after(&self, slice: Slice) -> usize
        requires { Lies (segment_at self.now) slice }
        ensures value { result ≡ room_after (segment_at self.now) slice }
        ensures most { result ≤ segment_size }
    {
        let end = slice.from as usize + slice.len as usize;
        if end == self.filled(slice) {
            SEGMENT_SIZE - end
        } else {
            0
        }
    }

    /// Makes one slice of the bytes of two, whose holds it takes over; there is room for one more segment. Where the bytes of
    /// the second fit behind the first they are appended to it, and else all are copied into a new segment, of which the slice is all
    /// then. So slices that become one, one after another, are copied once, as long as they fit a segment. It takes no memory.
    pub fn join_reserved(&mut self, first: Slice, second: Slice) -> Slice
        requires room { 1 ≤ self.old.room }
        requires held { Holds (segment_at self.old) (first ∷ second ∷ []) }
        requires some { 1 ≤ second.len }
        requires most { first.len + second.len ≤ segment_size }
        ensures appended { second.len ≤ room_after (segment_at self.old) first → result ≡ longer_by second.len first }
        ensures copied { room_after (segment_at self.old) first < second.len → result ≡ record { segment = result.segment; from = 0; len = first.len + second.len } }
        ensures len { result.len ≡ first.len + second.len }
        ensures in_use { live_count self.new.held ≤ live_count self.old.held + 1 }
        ensures appended_in_use { second.len ≤ room_after (segment_at self.old) first → live_count self.new.held ≤ live_count self.old.held }
        ensures room { self.old.room ≤ self.new.room + 1 }
        ensures once { is_part (segment_at self.new) result + self.old.room ≤ self.new.room + is_part (segment_at self.old) first }
        ensures turns { Turns (segment_at self.old) (first ∷ second ∷ []) (segment_at self.new) (result ∷ []) }
        ensures reads { reads (segment_at self.new) result ≡ reads (segment_at self.old) first ++ reads (segment_at self.old) second }
    {
        if second.len as usize <= self.room_after(first) {
            return self.append_slice(first, second);
        }
        let joined = self.copy_both(first, second);
        self.release(first);
        self.release(second);
        joined
    }

    // Appends the bytes of the second slice to the first, by way of a spare segment: the two may be of one segment.
    fn append_slice(&mut self, first: Slice, second: Slice) -> Slice
        requires room { 1 ≤ self.old.room }
        requires held { Holds (segment_at self.old) (first ∷ second ∷ []) }
        requires some { 1 ≤ second.len }
        requires fits { second.len ≤ room_after (segment_at self.old) first }
        ensures value { result ≡ longer_by second.len first }
        ensures in_use { live_count self.new.held ≤ live_count self.old.held }
        ensures room { self.old.room ≤ self.new.room }
        ensures after { room_after (segment_at self.new) result + second.len ≡ room_after (segment_at self.old) first }
        ensures turns { Turns (segment_at self.old) (first ∷ second ∷ []) (segment_at self.new) (result ∷ []) }
        ensures reads { reads (segment_at self.new) result ≡ reads (segment_at self.old) first ++ reads (segment_at self.old) second }
    {
        let key = self.spare.pop().unwrap();
        let mut scratch = self.segments.remove(key);
        scratch.refill(self.bytes(second));
        let segment = &mut self.segments[first.segment];
        segment.append(scratch.filled());
        let key = self.segments.insert_reserved(scratch);
        self.spare.push_reserved(key);
        self.release(second);
        Slice {
            segment: first.segment,
            from: first.from,
            len: first.len + second.len,
        }
    }

    // Makes a segment of the bytes of two slices.
    fn copy_both(&mut self, first: Slice, second: Slice) -> Slice
        requires room { 1 ≤ self.old.room }
        requires first { Lies (segment_at self.old) first }
        requires second { Lies (segment_at self.old) second }
        requires most { first.len + second.len ≤ segment_size }
        ensures slice { result ≡ record { segment = result.segment; from = 0; len = first.len + second.len } }
        ensures in_use { live_count self.new.held ≡ live_count self.old.held + 1 }
        ensures room { self.new.room + 1 ≡ self.old.room }
        ensures whole { length (filled (segment_at self.new) result.segment) ≡ result.len }
        ensures turns { Turns (segment_at self.old) [] (segment_at self.new) (result ∷ []) }
        ensures reads { reads (segment_at self.new) result ≡ reads (segment_at self.old) first ++ reads (segment_at self.old) second }
    {
        let key = self.spare.pop().unwrap();
        let mut made = self.segments.remove(key);
        made.refill(self.bytes(first));
        made.append(self.bytes(second));
        made.hold();
        let segment = self.segments.insert_reserved(made);
        Slice {
            segment,
            from: 0,
            len: first.len + second.len,
        }
    }
}
