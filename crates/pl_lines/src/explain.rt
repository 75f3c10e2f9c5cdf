//! What is wrong with a bad line.
ghost use Rattle.std.specs.Prelude.{◌≡◌, ◌+◌, ◌<◌, ◌^◌, length, MatchOption, Some, None};
ghost use Rattle.pl_model.specs.Words.{words, without_return};
ghost use Rattle.pl_lines.specs.Explained.{next_expected, end_fault, says, why, word_fault, first_fault, begin_fault, words_fault, explained};

use crate::calls::{parse_mode, parse_wait, parse_whence};
use crate::kinds::{CALL_NUMBER, Expected, NAME, NOTHING, call_kinds};
use crate::parse::is_comment;
use pl_model::Version;
use pl_words::{
    Reason, Wanted, are_open_flags, are_pipe_flags, are_splice_flags, bytes_len, bytes_reason,
    is_entry, is_name, next_word, parse_flags_or_none, parse_i32, parse_i64, parse_offset,
    parse_u32, parse_u64, without_return,
};

/// What is wrong with a bad line.
#[derive(Clone, Copy, Debug, PartialEq, Eq)]
pub struct Explanation {
    /// The number of the word, counted from 1. For a word that is missing it is the number that it would have.
    pub word: u64,
    /// What is wrong with it.
    pub reason: Reason,
}

/// The kind of the next word, and what is expected behind it; `None` where no word may stand.
fn next_expected(expected: &[Expected]) -> Option<(Wanted, &[Expected])>
    ensures { MatchOption result (next_expected expected.now ≡ None) (λ p. next_expected expected.now ≡ Some (p.0, p.1.now)) }
{
    let next = expected.first()?;
    match *next {
        Expected::Repeated(kind) => Some((kind, expected)),
        Expected::Needed(kind) | Expected::Optional(kind) => Some((kind, expected.split_at(1).1)),
    }
}

/// What is wrong at the end of a line, where this is expected.
fn end_fault(number: u64, expected: &[Expected]) -> Option<Explanation>
    ensures { result ≡ end_fault number expected.now }
{
    match expected.first() {
        Some(Expected::Needed(kind)) => Some(Explanation {
            word: number,
            reason: Reason::Missing(*kind),
        }),
        _ => None,
    }
}

/// Whether the word is of this kind.
fn says(version: Version, kind: Wanted, word: &[u8]) -> bool
    ensures { result ≡ says version kind word.now }
{
    match kind {
        Wanted::First => parse_u32(word).is_ok(),
        Wanted::CallName => call_kinds(version, word).is_some(),
        Wanted::CallNumber => parse_u64(word).is_ok(),
        Wanted::Descriptor => parse_i32(word).is_ok(),
        Wanted::Size => parse_u32(word).is_ok(),
        Wanted::Offset => parse_offset(word).is_ok(),
        Wanted::SeekOffset => parse_i64(word).is_ok(),
        Wanted::Whence => parse_whence(word).is_ok(),
        Wanted::Bytes => bytes_len(version, word).is_some(),
        Wanted::Name => is_name(word),
        Wanted::Mode => parse_mode(word).is_ok(),
        Wanted::OpenFlags => are_open_flags(word),
        Wanted::PipeFlags => are_pipe_flags(word),
        Wanted::SpliceFlags => are_splice_flags(word),
        Wanted::StatusFlags => parse_flags_or_none(word).is_ok(),
        Wanted::Nonblock => word == b"nonblock".as_slice(),
        Wanted::When => parse_wait(word).is_ok(),
        Wanted::Entry => is_entry(word),
    }
}

/// Why the word isn't of this kind.
fn why(version: Version, kind: Wanted, word: &[u8]) -> Reason
    ensures { result ≡ why version kind word.now }
{
    match kind {
        Wanted::Bytes => bytes_reason(version, word),
        _ => Reason::Not(kind),
    }
}

/// What is wrong with the word of this number, which is to be of this kind.
fn word_fault(version: Version, number: u64, kind: Wanted, word: &[u8]) -> Option<Explanation>
    ensures { result ≡ word_fault version number kind word.now }
{
    if says(version, kind, word) {
        return None;
    }
    Some(Explanation {
        word: number,
        reason: why(version, kind, word),
    })
}

/// The first fault of the words that are left, of which the first has this number.
fn first_fault(
    version: Version,
    first: u64,
    expected: &[Expected],
    rest: &[u8],
) -> Option<Explanation>
    requires { first + length (words rest.now) < 2 ^ 64 }
    ensures { result ≡ first_fault version first expected.now (words rest.now) }
{
    let mut number = first;
    let mut ahead = expected;
    let mut left = rest;
    while let Some((word, behind)) = next_word(left) {
        let Some((kind, others)) = next_expected(ahead) else {
            return Some(Explanation {
                word: number,
                reason: Reason::Surplus,
            });
        };
        if let Some(fault) = word_fault(version, number, kind, word) {
            return Some(fault);
        }
        number += 1;
        ahead = others;
        left = behind;
    }
    end_fault(number, ahead)
}

/// The first fault of a line in which a process begins a call.
fn begin_fault(version: Version, pid: &[u8], rest: &[u8]) -> Option<Explanation>
    requires { length (words rest.now) < 2 ^ 63 + 1 }
    ensures { result ≡ begin_fault version pid.now (words rest.now) }
{
    if let Some(fault) = word_fault(version, 1, Wanted::First, pid) {
        return Some(fault);
    }
    let Some((name, rest)) = next_word(rest) else {
        return Some(Explanation {
            word: 2,
            reason: Reason::Missing(Wanted::CallName),
        });
    };
    match call_kinds(version, name) {
        Some(kinds) => first_fault(version, 3, kinds, rest),
        None => Some(Explanation {
            word: 2,
            reason: Reason::Not(Wanted::CallName),
        }),
    }
}

/// The first fault of a line of these words, the first of them and the rest.
#[tactic(auto, unfolding(crate::specs::Explained::words_fault))]
fn words_fault(version: Version, first: &[u8], rest: &[u8]) -> Option<Explanation>
    requires { length (words rest.now) < 2 ^ 63 + 1 }
    ensures { result ≡ words_fault version first.now (words rest.now) }
{
    if first == b"start".as_slice() {
        first_fault(version, 2, NOTHING, rest)
    } else if first == b"resume".as_slice() {
        first_fault(version, 2, CALL_NUMBER, rest)
    } else if first == b"interrupt".as_slice() {
        first_fault(version, 2, CALL_NUMBER, rest)
    } else if first == b"file".as_slice() {
        first_fault(version, 2, NAME, rest)
    } else {
        begin_fault(version, first, rest)
    }
}

/// What is wrong with a line of a script of this version, given without its line feed: the first word that isn't of its kind, that is
/// missing, or that is one too many. `None` of a line that isn't bad. It takes no memory, and time for what the line is long.
#[tactic(auto, unfolding(crate::specs::Explained::explained), using(crate::proofs::Explaining::few_words))]
pub fn explain_line(version: Version, line: &[u8]) -> Option<Explanation>
    ensures { result ≡ explained version (words (without_return line.now)) }
{
    match next_word(without_return(line)) {
        None => None,
        Some((first, _)) if is_comment(first) => None,
        Some((first, rest)) => words_fault(version, first, rest),
    }
}
