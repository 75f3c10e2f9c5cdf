//! Bytes by runs, as version 2 shows them.
ghost use Rattle.std.specs.Prelude.{◌≡◌, ◌<◌, ◌≤◌, ℕ, false, true, length, string_bytes, slice_index};
ghost use Rattle.pl_model.specs.Shown.{Times, piece_text, runs_text};
ghost use Rattle.pl_lines.specs.Pushed.{Pushes};
ghost use Rattle.pl_lines.specs.Runs.{ThreeBegin, IsBeforeFour, IsFirstFour, IsFirstRun};

use crate::digits::{push_byte, push_digits};
use crate::text::push_number;
use std::alloc::{AllocError, Allocator};

/// How many places are looked at at once.
const PLACES: usize = 32;

/// 1 if three bytes are equal, and 0 if they aren't.
#[inline(always)]
fn one_if_equal(first: u8, second: u8, third: u8) -> u8
    ensures { result ≡ 0 → first ≡ second → second ≡ third → ⊥ }
{
    let two = if first == second { 1 } else { 0 };
    if second == third { two } else { 0 }
}

/// Whether three equal bytes begin at one of the first 32 places.
#[inline(always)]
fn three_begin(bytes: &[u8]) -> bool
    requires { length bytes.now ≡ 34 }
    ensures { result ≡ false → (k : ℕ) → k < 32 → ThreeBegin bytes.now k → ⊥ }
{
    let first = &bytes[..PLACES];
    let second = &bytes[1..PLACES + 1];
    let third = &bytes[2..PLACES + 2];
    // All are looked at, as many are at once.
    let mut most = 0;
    for i in 0..PLACES {
        most = most.max(one_if_equal(first[i], second[i], third[i]));
    }
    most != 0
}

/// Whether all of these are this byte.
#[inline(always)]
fn are_all(bytes: &[u8], byte: u8) -> bool
    ensures { result ≡ true → (k : ℕ) → k < length bytes.now → slice_index bytes.now k ≡ byte }
{
    let mut most = 0;
    for i in 0..bytes.len() {
        most = most.max(if bytes[i] == byte { 0u8 } else { 1 });
    }
    most == 0
}

/// The first of these places where four equal bytes begin, or their end.
fn first_four(bytes: &[u8], from: usize, end: usize) -> usize
    requires some { from ≤ end }
    requires within { end ≤ length bytes.now }
    ensures { IsFirstFour bytes.now from end result }
{
    let mut place = from;
    while place < end && place + 3 < bytes.len() {
        // The last two bytes that differ tell how many places can be passed over.
        if bytes[place + 2] != bytes[place + 3] {
            place += 3;
        } else if bytes[place + 1] != bytes[place + 3] {
            place += 2;
        } else if bytes[place] != bytes[place + 3] {
            place += 1;
        } else {
            return place;
        }
    }
    end
}

/// How many bytes stand before the first four that are equal: all of them belong to shorter runs.
fn digits_len(bytes: &[u8]) -> usize
    ensures { IsBeforeFour bytes.now result }
{
    let mut len = 0;
    while bytes.len() - len >= PLACES + 2 {
        let end = len + PLACES;
        // Where no three begin, no four do.
        if three_begin(&bytes[len..len + PLACES + 2]) {
            let place = first_four(bytes, len, end);
            if place < end {
                return place;
            }
        }
        len = end;
    }
    // The last places are fewer, and are looked at with some before them.
    if bytes.len() >= PLACES + 2 && !three_begin(&bytes[bytes.len() - PLACES - 2..]) {
        return bytes.len();
    }
    first_four(bytes, len, bytes.len())
}

/// How many bytes in front are equal.
fn run_len(bytes: &[u8]) -> usize
    requires { 0 < length bytes.now }
    ensures { IsFirstRun bytes.now result }
{
    let byte = bytes[0];
    let mut len = 0;
    while bytes.len() - len >= PLACES && are_all(&bytes[len..len + PLACES], byte) {
        len += PLACES;
    }
    while len < bytes.len() && bytes[len] == byte {
        len += 1;
    }
    len
}

/// Adds a run: how often its byte stands there, and the byte.
fn push_run<A: Allocator + Copy>(text: &mut String<A>, run: &[u8]) -> Result<(), AllocError>
    requires { 0 < length run.now }
    ensures { Pushes result (string_bytes text.old) (string_bytes text.new) (piece_text (Times (length run.now) (slice_index run.now 0))) }
{
    push_number(text, "", run.len())?;
    text.push_str("*")?;
    push_byte(text, run[0])
}

/// Adds the pieces of bytes, of which there are some, joined by `+`.
pub(crate) fn push_runs<A: Allocator + Copy>(
    text: &mut String<A>,
    bytes: &[u8],
) -> Result<(), AllocError>
    ensures { Pushes result (string_bytes text.old) (string_bytes text.new) (runs_text bytes.now) }
{
    let mut others = false;
    let mut rest = bytes;
    while !rest.is_empty() {
        if others {
            text.push_str("+")?;
        }
        let len = digits_len(rest);
        if len == 0 {
            let (run, behind) = rest.split_at(run_len(rest));
            push_run(text, run)?;
            rest = behind;
        } else {
            let (digits, behind) = rest.split_at(len);
            push_digits(text, digits)?;
            rest = behind;
        }
        others = true;
    }
    Ok(())
}
