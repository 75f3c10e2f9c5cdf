//! The slots of a file, in chunks.
ghost use Rattle.std.specs.Prelude.{◌≡◌, ℕ, ◌+◌, ◌-◌, ◌*◌, ◌<◌, ◌≤◌, ◌^◌, nat_lt, ◌++◌, [], ◌∷◌, length, take, drop, slice_get, slice_index_or, Some, IfOk, IfSome, IfNone, OnErr};
ghost use Rattle.pl_segments.specs.declared.slice.Slice.{Slice as Part};
ghost use Rattle.std.specs.Option.{option_to_list};
ghost use Rattle.pl_segments.specs.Segments.{segment_size, segment_at};
ghost use Rattle.pl_segments.specs.Slices.{reads};
ghost use Rattle.pl_segments.specs.Turns.{Turns};
ghost use Rattle.pl_segments.specs.Slots.{total};
ghost use Rattle.pl_file.specs.Rows.{Row as Slots, most_in_chunk, left_from, slots_in, index, IsSpot, staying, AreReady};
ghost use Rattle.pl_file.specs.Spans.{FitsIn, HasMemory};

use crate::pieces::{
    MOST_IN_CHUNK, Pieces, add_front, add_rest, last_up_to, new_pieces, pieces_for, put_rows,
};
use crate::row::Row;
use crate::spot::Spot;
use pl_segments::{NoMemory, Slice, Store};
use std::alloc::Allocator;
use std::marker::Model;

/// How many chunks a write copies together at most: a segment full, if each slot has a byte.
const MOST_TOGETHER: usize = 32;

/// Below how many bytes it begins to copy a further chunk.
const BYTES_TOGETHER: usize = 65_536;

/// Slots one behind the other from the place 0 on, in chunks of at most 256, none of which is empty. So a change moves the slots
/// of the chunks that it touches. It moves the list of the chunks behind them only if it makes chunks more or fewer, which is rare:
/// see `put_rows`. A chunk that is one of several has 64 bytes or more: it was cut off with as many slots, or took the place of
/// chunks that had as many bytes.
#[derive(Drop)]
pub(crate) struct Chunks<A: Allocator> {
    rows: Vec<Row<A>, A>,
}

impl<A: Allocator> Model for Chunks<A> {
    ghost use Rattle.pl_file.specs.Rows.{Chunks as Chunked};

    ghost Value = { Chunked };

    ghost use Rattle.pl_file.specs.ChunksView.{view_of, IsSound};

    ghost view = { view_of };

    ghost invariant = { IsSound };
}

impl<A: Allocator + Copy> Chunks<A> {
    /// No slots. It takes no memory.
    pub(crate) fn new(alloc: A) -> Chunks<A>
        ensures slots { result.slots ≡ [] }
    {
        Chunks {
            rows: Vec::new(alloc),
        }
    }

    /// The place behind the last slot.
    pub(crate) fn end(&self) -> usize
        ensures { result ≡ total self.now.slots }
    {
        match self.rows.last() {
            Some(row) => row.end(),
            None => 0,
        }
    }

    /// Whether there is no slot.
    pub(crate) fn is_empty(&self) -> bool
        ensures { result ≡ nat_lt (length self.now.slots) 1 }
    {
        self.rows.is_empty()
    }

    /// The first slot, or where there is none the place behind all.
    pub(crate) fn first(&self) -> Spot
        ensures spot { IsSpot self.now result }
        ensures index { index self.now result ≡ 0 }
    {
        // A proof learns here that no chunk is empty.
        let _rows = self.rows.len();
        Spot { chunk: 0, at: 0 }
    }

    /// The place behind all slots.
    pub(crate) fn behind(&self) -> Spot
        ensures spot { IsSpot self.now result }
        ensures index { index self.now result ≡ length self.now.slots }
    {
        Spot {
            chunk: self.rows.len(),
            at: 0,
        }
    }

    /// The slot in which the byte at a place lies, and behind the end the last slot. It is found by halving, among the chunks and then
    /// in one.
    pub(crate) fn find(&self, place: usize) -> Spot
        requires some { 1 ≤ length self.now.slots }
        ensures spot { IsSpot self.now result }
        ensures within { index self.now result < length self.now.slots }
        ensures before { total (take (index self.now result) self.now.slots) ≤ place }
        ensures after { index self.now result + 1 < length self.now.slots → place < total (take (index self.now result + 1) self.now.slots) }
    {
        let chunk = last_up_to(&self.rows, place);
        let at = self.rows[chunk].starting_up_to(place) - 1;
        Spot { chunk, at }
    }

    /// Whether a slot is there, and not the place behind all.
    pub(crate) fn has(&self, spot: Spot) -> bool
        requires { IsSpot self.now spot }
        ensures { result ≡ nat_lt (index self.now spot) (length self.now.slots) }
    {
        spot.chunk < self.rows.len()
    }

    /// A slot.
    pub(crate) fn get(&self, spot: Spot) -> Slice
        requires spot { IsSpot self.now spot }
        requires within { index self.now spot < length self.now.slots }
        ensures { slice_get self.now.slots (index self.now spot) ≡ Some result }
    {
        self.rows[spot.chunk].get(spot.at)
    }

    /// The place where a slot starts, and behind the last one the end.
    pub(crate) fn start(&self, spot: Spot) -> usize
        requires { IsSpot self.now spot }
        ensures { result ≡ total (take (index self.now spot) self.now.slots) }
    {
        if spot.chunk < self.rows.len() {
            self.rows[spot.chunk].start(spot.at)
        } else {
            self.end()
        }
    }

    /// The place behind a slot.
    pub(crate) fn next(&self, spot: Spot) -> Spot
        requires spot { IsSpot self.now spot }
        requires within { index self.now spot < length self.now.slots }
        ensures spot { IsSpot self.now result }
        ensures index { index self.now result ≡ index self.now spot + 1 }
    {
        let row = &self.rows[spot.chunk];
        if spot.at + 1 < row.len() {
            Spot {
                chunk: spot.chunk,
                at: spot.at + 1,
            }
        } else {
            Spot {
                chunk: spot.chunk + 1,
                at: 0,
            }
        }
    }

    /// The chunk at a place, if its slots are scattered, with those behind it that are scattered too: the second slot, and the last one.
    /// So what is put in the place of those between is in these chunks alone, and no chunk beside them is cut.
    pub(crate) fn scattered(&self, place: usize) -> Option<(Spot, Spot)>
        requires some { 1 ≤ length self.now.slots }
        ensures first { IfSome result (λ range. IsSpot self.now range.0) }
        ensures end { IfSome result (λ range. IsSpot self.now range.1) }
        ensures order { IfSome result (λ range. index self.now range.0 < index self.now range.1) }
        ensures within { IfSome result (λ range. index self.now range.1 < length self.now.slots) }
    {
        let chunk = last_up_to(&self.rows, place);
        let behind = behind_scattered(&self.rows, chunk);
        if behind == chunk {
            return None;
        }
        let last = behind - 1;
        let at = self.rows[last].len() - 1;
        Some((Spot { chunk, at: 1 }, Spot { chunk: last, at }))
    }

    /// Whether one slot stands before another.
    pub(crate) fn is_before(&self, spot: Spot, other: Spot) -> bool
        requires spot { IsSpot self.now spot }
        requires other { IsSpot self.now other }
        ensures { result ≡ nat_lt (index self.now spot) (index self.now other) }
    {
        spot.chunk < other.chunk || spot.chunk == other.chunk && spot.at < other.at
    }

    /// How many slots stay of the chunks of two spots, where those from `first` to before `end` go.
    pub(crate) fn staying(&self, first: Spot, end: Spot) -> usize
        requires first { IsSpot self.now first }
        requires end { IsSpot self.now end }
        ensures value { result ≡ staying self.now first end }
        ensures most { result ≤ 2 * most_in_chunk }
    {
        // A proof learns here that no chunk has too many slots.
        let _first = self.left_in(first);
        first.at + self.left_in(end)
    }

    /// How many slots of a chunk stand at a spot and behind it, where that isn't the first of them.
    fn left_in(&self, spot: Spot) -> usize
        requires { IsSpot self.now spot }
        ensures value { result ≡ left_from (slice_index_or self.now.lens spot.chunk 0) spot.at }
        ensures most { result + spot.at ≤ most_in_chunk }
    {
        if spot.at == 0 {
            return 0;
        }
        self.rows[spot.chunk].len() - spot.at
    }

    /// Takes memory for so many slots in the place of others, the slots that stay of their chunks among them. But for that nothing
    /// changes.
    pub(crate) fn reserve(&mut self, alloc: A, capacity: usize) -> Result<Pieces<A>, NoMemory>
        requires { capacity < 2 ^ 64 }
        ensures ready { IfOk result (λ pieces. AreReady self.new.room (length self.new.lens) capacity pieces.rows.items pieces.last) }
        ensures kept { self.new ≡ record self.old { room = self.new.room } }
    {
        let count = pieces_for(capacity);
        let pieces = new_pieces(alloc, count)?;
        self.rows.try_reserve(count + 1)?;
        Ok(pieces)
    }

    /// Puts the slots of a row in the place of those from `first` to before `end`: it starts where they do, and ends where they do but
    /// where none is behind them. There is memory for it. It takes none.
    pub(crate) fn replace(&mut self, first: Spot, end: Spot, patch: Row<A>, pieces: Pieces<A>)
        requires fits { FitsIn self.old first end patch }
        requires memory { HasMemory self.old first end (length patch.slots) patch.capacity pieces.rows.items pieces.last }
        ensures { self.new.slots ≡ take (index self.old first) self.old.slots ++ (patch.slots ++ drop (index self.old end) self.old.slots) }
    {
        let mut middle = patch;
        add_front(&self.rows, first, &mut middle);
        let last = add_rest(&self.rows, end, &mut middle);
        put_rows(&mut self.rows, first.chunk, last, middle, pieces);
    }

    /// The last slot.
    pub(crate) fn last(&self) -> Slice
        requires { 1 ≤ length self.now.slots }
        ensures shape { self.now.slots ≡ take (length self.now.slots - 1) self.now.slots ++ result ∷ [] }
        ensures got { slice_get self.now.slots (length self.now.slots - 1) ≡ Some result }
    {
        let row = &self.rows[self.rows.len() - 1];
        row.get(row.len() - 1)
    }

    /// Takes the last slot's place for another slot.
    pub(crate) fn set_last(&mut self, slice: Slice)
        requires some { 1 ≤ length self.old.slots }
        requires fits { total (take (length self.old.slots - 1) self.old.slots) + slice.len < 2 ^ 64 }
        ensures { self.new.slots ≡ take (length self.old.slots - 1) self.old.slots ++ slice ∷ [] }
    {
        let last = self.rows.len() - 1;
        let row = &mut self.rows[last];
        // A proof learns here that there are no more slots than fit.
        let _slots = row.len();
        row.pop();
        row.push(slice);
    }

    /// Adds bytes in a segment of their own behind the last slot, where the last chunk has a place for one slot more and isn't scattered. Returns
    /// the slot, and `None` where nothing was added. An error leaves all as it was.
    pub(crate) fn append(
        &mut self,
        store: &mut Store<A>,
        bytes: &[u8],
    ) -> Result<Option<Slice>, NoMemory>
        requires some { 1 ≤ length self.old.slots }
        requires bytes { 1 ≤ length bytes.now }
        requires most { length bytes.now ≤ segment_size }
        requires fits { total self.old.slots + length bytes.now < 2 ^ 64 }
        ensures slots { IfOk result (λ added. self.new.slots ≡ self.old.slots ++ option_to_list added) }
        ensures turns { IfOk result (λ added. IfSome added (λ x. Turns (segment_at store.old) [] (segment_at store.new) (x ∷ []))) }
        ensures reads { IfOk result (λ added. IfSome added (λ x. (x.len ≡ length bytes.now) × (reads (segment_at store.new) x ≡ bytes.now))) }
        ensures none { IfOk result (λ added. IfNone added (store.new ≡ store.old)) }
        ensures unchanged { OnErr result ((self.new.slots ≡ self.old.slots) × (store.new ≡ store.old)) }
    {
        let last = self.rows.len() - 1;
        let row = &mut self.rows[last];
        if row.len() == MOST_IN_CHUNK || row.is_scattered() {
            return Ok(None);
        }
        row.reserve(1)?;
        store.reserve(1)?;
        let slice = store.make_reserved(bytes);
        row.push(slice);
        Ok(Some(slice))
    }

    /// Forgets all slots, and gives back the memory of their lists. It takes no memory.
    pub(crate) fn clear(&mut self)
        ensures slots { self.new.slots ≡ [] }
        ensures room { self.new.room ≡ 0 }
    {
        self.rows.clear();
        self.rows.shrink_to_fit();
    }
}

/// The chunk behind those that are scattered one behind the other from `chunk` on; the same if that one isn't.
fn behind_scattered<A: Allocator>(rows: &[Row<A>], chunk: usize) -> usize
    requires { chunk < length rows.now }
    ensures from { chunk ≤ result }
    ensures most { result ≤ length rows.now }
    ensures many { chunk < result → 16 < length (slots_in rows.now chunk) }
{
    let from = rows[chunk].start(0);
    let mut end = chunk;
    while end < rows.len()
        && end - chunk < MOST_TOGETHER
        && rows[end].start(0).saturating_sub(from) < BYTES_TOGETHER
        && rows[end].is_scattered()
    {
        end += 1;
    }
    end
}
