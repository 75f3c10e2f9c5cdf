//! The numbers in words.
ghost use Rattle.std.specs.Prelude.{◌≡◌, ◌<◌, ◌≤◌, ◌+◌, ◌^◌, length, Option, Some, None, if◌then◌else◌, IfOk, ℤ};
ghost use Rattle.std.specs.List.{list_all};
ghost use Rattle.std.specs.Str.Parse.{digits_value};
ghost use Rattle.pl_model.specs.Numbers.{most_bytes};
ghost use Rattle.pl_model.specs.Words.{is_digit, number, signed, signed_long, offset_of, words};
ghost use Rattle.pl_words.specs.Parsed.{Gives, GivesAs, only_number, only_signed, fd_and_word};

use crate::fault::LineFault;
use crate::words::{only_word, word};
use pl_model::numbers::MAX_BYTES;

/// The most digits of a number.
pub(crate) const MOST_DIGITS: usize = 20;

/// The value of decimal digits; `None` where another byte stands among them.
fn value(word: &[u8]) -> Option<u128>
    requires { length word.now ≤ 20 }
    ensures { result ≡ (if list_all is_digit word.now then Some (digits_value 10 word.now) else None) }
{
    let mut value: u128 = 0;
    for c in word {
        if !c.is_ascii_digit() {
            return None;
        }
        value = value * 10 + u128::from(*c - b'0');
    }
    Some(value)
}

/// A number of 1 to 20 digits, below the limit.
#[tactic(auto, unfolding(pl_model::specs::Words::number))]
fn number(limit: u128, word: &[u8]) -> Result<u128, LineFault>
    ensures said { Gives result (number limit word.now) }
    ensures below { IfOk result (λ n. n < limit) }
{
    if word.is_empty() || word.len() > MOST_DIGITS {
        return Err(LineFault::Bad);
    }
    match value(word) {
        Some(n) if n < limit => Ok(n),
        _ => Err(LineFault::Bad),
    }
}

/// A number of 32 bits, of 1 to 20 decimal digits.
///
/// # Errors
///
/// `Bad` exactly where the word is no such number.
pub fn parse_u32(word: &[u8]) -> Result<u32, LineFault>
    ensures { Gives result (number (2 ^ 32) word.now) }
{
    Ok(number(1 << 32, word)? as u32)
}

/// A number of 64 bits, of 1 to 20 decimal digits.
///
/// # Errors
///
/// `Bad` exactly where the word is no such number.
pub fn parse_u64(word: &[u8]) -> Result<u64, LineFault>
    ensures { Gives result (number (2 ^ 64) word.now) }
{
    Ok(number(1 << 64, word)? as u64)
}

/// A number of 32 bits, of 1 to 20 decimal digits with or without one `-` in front.
///
/// # Errors
///
/// `Bad` exactly where the word is no such number.
#[tactic(auto, unfolding(pl_model::specs::Words::signed_below))]
pub fn parse_i32(word: &[u8]) -> Result<i32, LineFault>
    ensures { Gives result (signed word.now) }
{
    if word.is_empty() {
        return Err(LineFault::Bad);
    }
    if word[0] == b'-' {
        let n = number((1 << 31) + 1, word.split_at(1).1)?;
        Ok(-(n as i64) as i32)
    } else {
        Ok(number(1 << 31, word)? as i32)
    }
}

/// A number of 64 bits, of 1 to 20 decimal digits with or without one `-` in front.
///
/// # Errors
///
/// `Bad` exactly where the word is no such number.
#[tactic(auto, unfolding(pl_model::specs::Words::signed_below))]
pub fn parse_i64(word: &[u8]) -> Result<i64, LineFault>
    ensures { Gives result (signed_long word.now) }
{
    if word.is_empty() {
        return Err(LineFault::Bad);
    }
    if word[0] == b'-' {
        let n = number((1 << 63) + 1, word.split_at(1).1)?;
        Ok(-(n as i128) as i64)
    } else {
        Ok(number(1 << 63, word)? as i64)
    }
}

/// An offset: a number of 64 bits, of 1 to 20 decimal digits, or none of `-`.
///
/// # Errors
///
/// `Bad` exactly where the word is neither.
#[tactic(auto, unfolding(pl_model::specs::Words::offset_of))]
pub fn parse_offset(word: &[u8]) -> Result<Option<u64>, LineFault>
    ensures { Gives result (offset_of word.now) }
{
    if word == b"-".as_slice() {
        return Ok(None);
    }
    Ok(Some(parse_u64(word)?))
}

/// The number of 64 bits that stands alone.
///
/// # Errors
///
/// `Bad` exactly where there isn't one word alone, or it is no such number.
pub fn only_u64(rest: &[u8]) -> Result<u64, LineFault>
    ensures { Gives result (only_number (words rest.now)) }
{
    parse_u64(only_word(rest)?)
}

/// The number of 32 bits, with or without one `-` in front, that stands alone.
///
/// # Errors
///
/// `Bad` exactly where there isn't one word alone, or it is no such number.
pub fn only_i32(rest: &[u8]) -> Result<i32, LineFault>
    ensures { Gives result (only_signed (words rest.now)) }
{
    parse_i32(only_word(rest)?)
}

/// A descriptor, which is a number as `parse_i32` reads it, and the word behind it, which stand alone.
///
/// # Errors
///
/// `Bad` exactly where there aren't two words alone, or the first is no such number.
pub fn fd_and_word(rest: &[u8]) -> Result<(i32, &[u8]), LineFault>
    ensures { GivesAs (λ p. (p.0, p.1.now)) result (fd_and_word (words rest.now)) }
{
    let (fd, rest) = word(rest)?;
    let second = only_word(rest)?;
    Ok((parse_i32(fd)?, second))
}

/// A count of bytes of one write.
pub(crate) fn parse_count(word: &[u8]) -> Result<usize, LineFault>
    ensures said { Gives result (number (most_bytes + 1) word.now) }
    ensures few { IfOk result (λ n. n ≤ most_bytes) }
{
    Ok(number(MAX_BYTES as u128 + 1, word)? as usize)
}
