//! The bytes of one piece: digits, or `N*hh`.
ghost use Rattle.std.specs.Prelude.{◌≡◌, ◌<◌, ◌+◌, length, take, drop, is_some, IfSome, None};
ghost use Rattle.std.specs.List.{list_all};
ghost use Rattle.pl_model.specs.Words.{hex_digit, one_byte, hex_bytes, repeated, digits_or_repeated};
ghost use Rattle.pl_words.specs.Parsed.{GivesTaking, BytesTake, one_write};

use crate::fault::LineFault;
use crate::numbers::{MOST_DIGITS, parse_count};
use crate::search::place_of;
use hex::FromHexError;
use pl_model::Bytes8;
use pl_model::numbers::MAX_BYTES;
use std::alloc::Allocator;

/// The one byte of two hexadecimal digits.
pub(crate) fn one_byte(digits: &[u8]) -> Option<u8>
    ensures { result ≡ one_byte digits.now }
{
    let mut byte = [0u8];
    match hex::decode_to_slice(digits, &mut byte) {
        Ok(()) => Some(byte[0]),
        Err(_) => None,
    }
}

fn is_hex_digit(c: u8) -> bool
    ensures { result ≡ is_some (hex_digit c) }
{
    c.is_ascii_hexdigit()
}

pub(crate) fn are_hex_digits(word: &[u8]) -> bool
    ensures { result ≡ list_all (λ c. is_some (hex_digit c)) word.now }
{
    word.iter().all(|c| is_hex_digit(*c))
}

/// Where the `*` of a piece stands, which is behind a number.
pub(crate) fn star_of(piece: &[u8]) -> Option<usize>
    ensures within { IfSome result (λ star. star < length piece.now) }
    ensures found { IfSome result (λ star. digits_or_repeated piece.now ≡ repeated (take star piece.now) (drop (star + 1) piece.now)) }
    ensures none { result ≡ None → 0 < length piece.now → digits_or_repeated piece.now ≡ hex_bytes piece.now }
{
    place_of(b'*', piece.split_at(piece.len().min(MOST_DIGITS + 1)).0)
}

/// Whether these are the digits of the bytes of one write.
pub(crate) fn is_one_write(word: &[u8]) -> bool
    ensures { result ≡ is_some (one_write (hex_bytes word.now)) }
{
    if word.len() % 2 == 1 {
        return false;
    }
    if word.len() / 2 > MAX_BYTES {
        return false;
    }
    are_hex_digits(word)
}

/// The bytes of an even number of digits, for one write.
fn hex_bytes<A: Allocator + Copy>(alloc: A, word: &[u8]) -> Result<Bytes8<A>, LineFault>
    requires { 0 < length word.now }
    ensures { GivesTaking BytesTake result (one_write (hex_bytes word.now)) }
{
    match hex::decode(alloc, word) {
        Ok(bytes) => Bytes8::from_vec(bytes).ok_or(LineFault::Bad),
        Err(e) => match e {
            // Nothing was decoded, so whether the digits are good is still to be seen.
            FromHexError::OutOfMemory => Err(if is_one_write(word) {
                LineFault::NoMemory
            } else {
                LineFault::Bad
            }),
            _ => Err(LineFault::Bad),
        },
    }
}

/// The byte of two digits, so many times, for one write.
#[tactic(auto, unfolding(pl_model::specs::Words::repeated))]
fn repeated<A: Allocator + Copy>(
    alloc: A,
    times: &[u8],
    digits: &[u8],
) -> Result<Bytes8<A>, LineFault>
    ensures { GivesTaking BytesTake result (one_write (repeated times.now digits.now)) }
{
    let times = parse_count(times)?;
    let byte = one_byte(digits).ok_or(LineFault::Bad)?;
    let bytes = if times == 0 {
        Vec::new(alloc)
    } else {
        vec![in alloc; byte; times]?
    };
    Bytes8::from_vec(bytes).ok_or(LineFault::Bad)
}

/// The bytes of digits, or of `N*hh`, for one write.
#[tactic(auto, unfolding(pl_model::specs::Words::digits_or_repeated))]
pub(crate) fn digits_or_repeated<A: Allocator + Copy>(
    alloc: A,
    word: &[u8],
) -> Result<Bytes8<A>, LineFault>
    ensures { GivesTaking BytesTake result (one_write (digits_or_repeated word.now)) }
{
    if let Some(star) = star_of(word) {
        return repeated(alloc, word.split_at(star).0, word.split_at(star + 1).1);
    }
    if word.is_empty() {
        return Err(LineFault::Bad);
    }
    hex_bytes(alloc, word)
}
