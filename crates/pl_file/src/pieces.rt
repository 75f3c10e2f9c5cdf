//! Rows as chunks: one found by its place, and some put in the place of others.
ghost use Rattle.std.specs.Prelude.{◌≡◌, ℕ, ◌+◌, ◌-◌, ◌*◌, ◌<◌, ◌≤◌, ◌^◌, ◌++◌, [], ◌∷◌, length, take, drop, IfOk, vec_len, vec_capacity};
ghost use Rattle.pl_segments.specs.Slots.{total};
ghost use Rattle.pl_file.specs.Rows.{most_in_chunk, piece, flat, lens_of, slots_in, left_from, index_of, IsAt, AreChunks, AreEmpty, AreReady, Adds};
ghost use Rattle.pl_file.specs.Spans.{IsNext};

use crate::row::Row;
use crate::spot::Spot;
use pl_segments::NoMemory;
use std::alloc::Allocator;

/// The most slots of a chunk.
pub(crate) const MOST_IN_CHUNK: usize = 256;

/// How many slots are cut off at most as a chunk of their own: a half, so that a chunk that was cut off takes as many more before it
/// is cut. Several chunks become one if they have no more slots than this: a chunk that came of several takes as many more, too.
const PIECE: usize = 128;

/// Memory for the chunks that a row becomes, where it may have too many slots for one: rows of no slots with memory for a piece each,
/// and for the last one that has memory for a chunk.
#[derive(Drop)]
pub(crate) struct Pieces<A: Allocator> {
    rows: Vec<Row<A>, A>,
    last: Row<A>,
}

/// Takes memory for so many pieces, and for the last chunk where there are some.
pub(crate) fn new_pieces<A: Allocator + Copy>(alloc: A, count: usize) -> Result<Pieces<A>, NoMemory>
    ensures len { IfOk result (λ pieces. length pieces.rows.items ≡ count) }
    ensures empty { IfOk result (λ pieces. AreEmpty pieces.rows.items) }
    ensures none { IfOk result (λ pieces. pieces.last.slots ≡ []) }
    ensures last { IfOk result (λ pieces. 1 ≤ count → most_in_chunk ≤ pieces.last.capacity) }
{
    let rows = empty_rows(alloc, count)?;
    if count == 0 {
        return Ok(Pieces {
            rows,
            last: Row::new(alloc),
        });
    }
    let last = Row::with_capacity(alloc, 0, MOST_IN_CHUNK)?;
    Ok(Pieces { rows, last })
}

/// The last chunk that starts at a place or before it, found by halving. The first starts at 0.
pub(crate) fn last_up_to<A: Allocator>(rows: &[Row<A>], place: usize) -> usize
    requires chunks { AreChunks 0 rows.now }
    requires some { 1 ≤ length rows.now }
    ensures within { result < length rows.now }
    ensures before { total (flat (take result rows.now)) ≤ place }
    ensures after { result + 1 < length rows.now → place < total (flat (take (result + 1) rows.now)) }
{
    let mut low = 1;
    let mut high = rows.len();
    while low < high {
        let middle = low + (high - low) / 2;
        if rows[middle].start(0) <= place {
            low = middle + 1;
        } else {
            high = middle;
        }
    }
    low - 1
}

/// Rows of no slots, each with memory for a piece.
fn empty_rows<A: Allocator + Copy>(alloc: A, count: usize) -> Result<Vec<Row<A>, A>, NoMemory>
    ensures len { IfOk result (λ rows. length rows.items ≡ count) }
    ensures empty { IfOk result (λ rows. AreEmpty rows.items) }
{
    let mut rows = Vec::with_capacity(alloc, count)?;
    while rows.len() < count {
        rows.push_reserved(Row::with_capacity(alloc, 0, PIECE)?);
    }
    Ok(rows)
}

/// How many chunks are cut off so many slots at most.
pub(crate) fn pieces_for(capacity: usize) -> usize
    ensures enough { capacity ≤ piece + piece * result }
    ensures most { result ≤ capacity }
{
    capacity.saturating_sub(1) / PIECE
}

/// Puts before a row the slots of a spot's chunk that stand before it there. There is room for them.
pub(crate) fn add_front<A: Allocator>(rows: &[Row<A>], spot: Spot, middle: &mut Row<A>)
    requires chunks { AreChunks 0 rows.now }
    requires spot { IsAt (lens_of rows.now) spot.chunk spot.at }
    requires room { length middle.old.slots + spot.at ≤ middle.old.capacity }
    requires starts { middle.old.base ≡ total (take (index_of (lens_of rows.now) spot.chunk spot.at) (flat rows.now)) }
    ensures slots { middle.new.slots ≡ take spot.at (slots_in rows.now spot.chunk) ++ middle.old.slots }
    ensures whole { flat (take spot.chunk rows.now) ++ take spot.at (slots_in rows.now spot.chunk) ≡ take (index_of (lens_of rows.now) spot.chunk spot.at) (flat rows.now) }
    ensures base { middle.new.base ≡ total (flat (take spot.chunk rows.now)) }
    ensures end { middle.new.base + total middle.new.slots ≡ middle.old.base + total middle.old.slots }
    ensures many { length middle.new.slots ≡ length middle.old.slots + spot.at }
    ensures capacity { middle.old.capacity ≤ middle.new.capacity }
{
    if 0 < spot.at {
        middle.put_before(&rows[spot.chunk], spot.at);
    }
}

/// Puts behind a row the slots of a spot's chunk that stand there from it on, where it isn't the first there, and answers the first
/// of the chunks behind. There is room for them.
pub(crate) fn add_rest<A: Allocator>(rows: &[Row<A>], spot: Spot, middle: &mut Row<A>) -> usize
    requires chunks { AreChunks 0 rows.now }
    requires spot { IsAt (lens_of rows.now) spot.chunk spot.at }
    requires room { length middle.old.slots + left_from (length (slots_in rows.now spot.chunk)) spot.at ≤ middle.old.capacity }
    requires ends { index_of (lens_of rows.now) spot.chunk spot.at < length (flat rows.now) → middle.old.base + total middle.old.slots ≡ total (take (index_of (lens_of rows.now) spot.chunk spot.at) (flat rows.now)) }
    ensures slots { middle.new.slots ++ flat (drop result rows.now) ≡ middle.old.slots ++ drop (index_of (lens_of rows.now) spot.chunk spot.at) (flat rows.now) }
    ensures some { length middle.old.slots ≤ length middle.new.slots }
    ensures many { length middle.new.slots ≤ length middle.old.slots + left_from (length (slots_in rows.now spot.chunk)) spot.at }
    ensures base { middle.new.base ≡ middle.old.base }
    ensures ends { result < length rows.now → middle.new.base + total middle.new.slots ≡ total (flat (take result rows.now)) }
    ensures next { IsNext (length rows.now) spot result }
{
    if spot.at == 0 {
        return spot.chunk;
    }
    middle.put_behind(&rows[spot.chunk], spot.at);
    // A proof learns here that there are no more chunks than fit.
    let _chunks = rows.len();
    spot.chunk + 1
}

/// Puts a row in the place of those from `first` to before `last`, cut into chunks if it has too many slots for one. There is memory
/// for it. It takes none.
///
/// In the place of one chunk stands one while the slots fit. In the place of several stand two at least, unless a piece takes all
/// slots. So one chunk more comes only where the chunks that are cut have 128 slots more than a piece each, and a chunk goes without
/// any having more than a piece. The number of chunks, with which the list moves, thus changes at most once for 64 slots that come.
pub(crate) fn put_rows<A: Allocator + Copy>(
    rows: &mut Vec<Row<A>, A>,
    first: usize,
    last: usize,
    middle: Row<A>,
    pieces: Pieces<A>,
)
    requires chunks { AreChunks 0 rows.old.items }
    requires order { first ≤ last }
    requires most { last ≤ length rows.old.items }
    requires some { 1 ≤ length middle.slots }
    requires ready { AreReady (vec_capacity rows.old) (length rows.old.items) (length middle.slots) pieces.rows.items pieces.last }
    requires starts { middle.base ≡ total (flat (take first rows.old.items)) }
    requires ends { last < length rows.old.items → middle.base + total middle.slots ≡ total (flat (take last rows.old.items)) }
    ensures slots { flat rows.new.items ≡ flat (take first rows.old.items) ++ (middle.slots ++ flat (drop last rows.old.items)) }
    ensures chunks { AreChunks 0 rows.new.items }
{
    let most = if last - first <= 1 {
        MOST_IN_CHUNK
    } else {
        PIECE
    };
    let len = rows.len();
    push_chunks(rows, middle, pieces, most);
    move_last(rows, first, last, len);
}

/// Adds a row behind others, cut into chunks if it has more slots than `most`. There is memory for it. It takes none.
fn push_chunks<A: Allocator + Copy>(
    rows: &mut Vec<Row<A>, A>,
    row: Row<A>,
    pieces: Pieces<A>,
    most: usize,
)
    requires some { 1 ≤ length row.slots }
    requires least { piece ≤ most }
    requires most { most ≤ most_in_chunk }
    requires ready { AreReady (vec_capacity rows.old) (length rows.old.items) (length row.slots) pieces.rows.items pieces.last }
    ensures { Adds rows.old.items rows.new.items row }
{
    let mut row = row;
    let Pieces { rows: pieces, last } = pieces;
    if pieces.is_empty() {
        row.shrink();
        rows.push_reserved(row);
        return;
    }
    let mut pieces = pieces;
    let mut most = most;
    while most < row.len() {
        let len = row.len();
        let count = PIECE.min(len - len / 2);
        let mut front = pieces.pop().unwrap();
        front.take_front(&mut row, count);
        rows.push_reserved(front);
        most = MOST_IN_CHUNK;
    }
    let mut last = last;
    let left = row.len();
    last.take_front(&mut row, left);
    last.shrink();
    rows.push_reserved(last);
}

/// Puts the rows from `len` on in the place of those from `first` to before `last`. If they are as many, no other row moves.
fn move_last<A: Allocator>(rows: &mut Vec<Row<A>, A>, first: usize, last: usize, len: usize)
    requires order { first ≤ last }
    requires last { last ≤ len }
    requires most { len ≤ length rows.old.items }
    ensures { rows.new.items ≡ take first rows.old.items ++ (drop len rows.old.items ++ drop last (take len rows.old.items)) }
{
    let gone = last - first;
    let added = rows.len() - len;
    if added == gone {
        swap_last(rows, first, last);
        return;
    }
    rotate(rows, first, len);
    rotate(rows, first + added, last + added);
    let left = rows.len() - gone;
    rows.truncate(left);
}

/// Puts the last rows in the place of as many, of those from `first` to before `last`.
fn swap_last<A: Allocator>(rows: &mut Vec<Row<A>, A>, first: usize, last: usize)
    requires order { first ≤ last }
    requires most { last + (last - first) ≤ length rows.old.items }
    ensures { rows.new.items ≡ take first rows.old.items ++ (drop (length rows.old.items - (last - first)) rows.old.items ++ drop last (take (length rows.old.items - (last - first)) rows.old.items)) }
{
    let mut place = last;
    while first < place {
        place -= 1;
        rows.swap_remove(place);
    }
}

/// Puts the rows from `last` on before those from `first` to before `last`.
fn rotate<A: Allocator>(rows: &mut Vec<Row<A>, A>, first: usize, last: usize)
    requires order { first ≤ last }
    requires most { last ≤ length rows.old.items }
    ensures { rows.new.items ≡ take first rows.old.items ++ (drop (last - first) (drop first rows.old.items) ++ take (last - first) (drop first rows.old.items)) }
{
    rows.slice_mut(first..).rotate_left(last - first);
}
