//! The bytes of a write: none, one piece, or in version 2 pieces that `+` joins.
ghost use Rattle.std.specs.Prelude.{◌≡◌, ◌≤◌, ◌+◌, ◌/◌, length, take, vec_len};
ghost use Rattle.std.specs.Option.{option_map};
ghost use Rattle.std.specs.List.{slice_split};
ghost use Rattle.pl_model.specs.Numbers.{most_bytes};
ghost use Rattle.pl_model.specs.Words.{hex_bytes, repeated, digits_or_repeated, is_plus, pieces, bytes_of};
ghost use Rattle.pl_words.specs.Parsed.{GivesTaking, BytesTake, PutsPiece, one_write};

use crate::bytes::{digits_or_repeated, is_one_write, one_byte, star_of};
use crate::fault::LineFault;
use crate::numbers::parse_count;
use crate::search::{is_blank, place_of};
use pl_model::numbers::MAX_BYTES;
use pl_model::{Bytes8, Version};
use std::alloc::Allocator;

/// How many bytes `N*hh` says.
#[tactic(auto, unfolding(pl_model::specs::Words::repeated))]
fn repeated_len(times: &[u8], digits: &[u8]) -> Option<usize>
    ensures { result ≡ option_map length (one_write (repeated times.now digits.now)) }
{
    let times = parse_count(times).ok()?;
    one_byte(digits)?;
    Some(times)
}

/// How many bytes a piece says.
pub(crate) fn piece_len(piece: &[u8]) -> Option<usize>
    ensures { result ≡ option_map length (one_write (digits_or_repeated piece.now)) }
{
    if let Some(star) = star_of(piece) {
        return repeated_len(piece.split_at(star).0, piece.split_at(star + 1).1);
    }
    if piece.is_empty() {
        return None;
    }
    if is_one_write(piece) {
        Some(piece.len() / 2)
    } else {
        None
    }
}

/// How many bytes the pieces of a word say together.
fn pieces_len(word: &[u8]) -> Option<usize>
    ensures { result ≡ option_map length (one_write (pieces (slice_split is_plus word.now))) }
{
    let mut len = 0;
    let mut rest = word;
    while let Some(plus) = place_of(b'+', rest) {
        len += piece_len(rest.split_at(plus).0)?;
        if len > MAX_BYTES {
            return None;
        }
        rest = rest.split_at(plus + 1).1;
    }
    len += piece_len(rest)?;
    if len > MAX_BYTES { None } else { Some(len) }
}

/// Adds the byte of two digits, so many times.
#[tactic(auto, unfolding(pl_model::specs::Words::repeated))]
fn push_repeated<A: Allocator + Copy>(
    bytes: &mut Vec<u8, A>,
    times: &[u8],
    digits: &[u8],
) -> Result<(), LineFault>
    requires { vec_len bytes.old ≤ most_bytes }
    ensures { PutsPiece result (repeated times.now digits.now) bytes.old.items bytes.new.items }
{
    let times = parse_count(times)?;
    let byte = one_byte(digits).ok_or(LineFault::Bad)?;
    let len = bytes.len();
    Ok(bytes.resize(len + times, byte)?)
}

/// Puts the bytes of digits behind the first ones, and over all others.
fn decode_behind(len: usize, digits: &[u8], bytes: &mut [u8]) -> Result<(), LineFault>
    requires { length bytes.old ≡ len + length digits.now / 2 }
    ensures { PutsPiece result (hex_bytes digits.now) (take len bytes.old) bytes.new }
{
    let (_, added) = bytes.split_at_mut(len);
    match hex::decode_to_slice(digits, added) {
        Ok(()) => Ok(()),
        Err(_) => Err(LineFault::Bad),
    }
}

/// Adds the bytes of digits.
fn push_digits<A: Allocator + Copy>(bytes: &mut Vec<u8, A>, digits: &[u8]) -> Result<(), LineFault>
    requires { vec_len bytes.old ≤ most_bytes }
    ensures { PutsPiece result (hex_bytes digits.now) bytes.old.items bytes.new.items }
{
    let len = bytes.len();
    bytes.resize(len + digits.len() / 2, 0)?;
    decode_behind(len, digits, bytes.as_mut_slice())
}

/// Adds the bytes of a piece.
fn push_piece<A: Allocator + Copy>(bytes: &mut Vec<u8, A>, piece: &[u8]) -> Result<(), LineFault>
    requires { vec_len bytes.old ≤ most_bytes }
    ensures { PutsPiece result (digits_or_repeated piece.now) bytes.old.items bytes.new.items }
{
    if let Some(star) = star_of(piece) {
        return push_repeated(bytes, piece.split_at(star).0, piece.split_at(star + 1).1);
    }
    if piece.is_empty() {
        return Err(LineFault::Bad);
    }
    push_digits(bytes, piece)
}

/// The bytes of the pieces of a word.
fn parse_pieces<A: Allocator + Copy>(alloc: A, word: &[u8]) -> Result<Bytes8<A>, LineFault>
    ensures { GivesTaking BytesTake result (one_write (pieces (slice_split is_plus word.now))) }
{
    // A piece may be bad wherever it stands, so all are read before memory is taken, at once for all.
    let len = pieces_len(word).ok_or(LineFault::Bad)?;
    let mut bytes = Vec::with_capacity(alloc, len)?;
    let mut rest = word;
    while let Some(plus) = place_of(b'+', rest) {
        push_piece(&mut bytes, rest.split_at(plus).0)?;
        rest = rest.split_at(plus + 1).1;
    }
    push_piece(&mut bytes, rest)?;
    Bytes8::from_vec(bytes).ok_or(LineFault::Bad)
}

/// The bytes of a write: `-` for none, digits, or `N*hh`; in version 2 also several of these, joined by `+`. At most 16,777,216.
///
/// # Errors
///
/// `Bad` exactly where the word says no such bytes, whatever the memory. `NoMemory` only where it says a byte or more, and there
/// was no memory for them.
#[tactic(auto, unfolding(pl_model::specs::Words::bytes_of))]
pub fn parse_bytes<A: Allocator + Copy>(
    alloc: A,
    version: Version,
    word: &[u8],
) -> Result<Bytes8<A>, LineFault>
    ensures { GivesTaking BytesTake result (bytes_of version word.now) }
{
    if word == b"-".as_slice() {
        return Bytes8::from_vec(Vec::new(alloc)).ok_or(LineFault::Bad);
    }
    match version {
        Version::One => digits_or_repeated(alloc, word),
        Version::Two => parse_pieces(alloc, word),
    }
}

/// How many bytes the word of a write says; `None` exactly where it says none such. They aren't made, and no memory is taken.
#[tactic(auto, unfolding(pl_model::specs::Words::bytes_of))]
pub fn bytes_len(version: Version, word: &[u8]) -> Option<usize>
    ensures { result ≡ option_map length (bytes_of version word.now) }
{
    if word == b"-".as_slice() {
        return Some(0);
    }
    match version {
        Version::One => piece_len(word),
        Version::Two => pieces_len(word),
    }
}

/// Whether the word of a write that ends a line may repeat a byte. In version 1 the end of such a line is a `*` and two bytes, so
/// that this costs next to nothing of other lines, however long they are. In version 2 a `*` stands somewhere in it.
pub fn may_repeat(version: Version, line: &[u8]) -> bool {
    match version {
        Version::One => ends_in_repeated(line),
        Version::Two => place_of(b'*', line).is_some(),
    }
}

/// Whether the line ends, but for blanks, in a `*` and two bytes.
fn ends_in_repeated(line: &[u8]) -> bool {
    let mut end = line.len();
    while end > 0 && is_blank(line[end - 1]) {
        end -= 1;
    }
    end >= 3 && line[end - 3] == b'*'
}
