//! Why a word of a line is at fault.
ghost use Rattle.std.specs.Prelude.{◌≡◌};
ghost use Rattle.std.specs.List.{slice_split};
ghost use Rattle.pl_model.specs.Words.{is_plus};
ghost use Rattle.pl_words.specs.Reasons.{wanted_text, reason_text, repeated_reason, piece_reason, pieces_reason, bytes_reason};

use crate::bytes::{are_hex_digits, one_byte};
use crate::numbers::parse_u64;
use crate::pieces::piece_len;
use crate::search::place_of;
use pl_model::Version;

/// The kinds of words that a line has.
#[derive(Clone, Copy, Debug, PartialEq, Eq)]
pub enum Wanted {
    /// The first word of a line: the number of a process, `start`, `resume`, `interrupt` or `file`.
    First,
    /// The name of a call.
    CallName,
    /// The number of a call that waits.
    CallNumber,
    /// A descriptor.
    Descriptor,
    /// A number of bytes.
    Size,
    /// An offset of a splice, or `-`.
    Offset,
    /// An offset of lseek.
    SeekOffset,
    /// Where an offset is counted from: `set`, `cur` or `end`.
    Whence,
    /// The bytes of a write.
    Bytes,
    /// A name.
    Name,
    /// What a file is opened for: `r`, `w` or `rw`.
    Mode,
    /// Flags of an open.
    OpenFlags,
    /// Flags of a pipe.
    PipeFlags,
    /// Flags of a splice or a tee.
    SpliceFlags,
    /// Flags of setfl, or `-`.
    StatusFlags,
    /// The word `nonblock`.
    Nonblock,
    /// Whether a poll waits: `now` or `wait`.
    When,
    /// An entry of a poll, `FD:MASK`.
    Entry,
}

impl Wanted {
    /// Its text behind `not ` or `missing: `.
    pub fn text(self) -> &'static str
        ensures { result.now ≡ wanted_text self }
    {
        match self {
            Wanted::First => "a process, start, resume, interrupt or file",
            Wanted::CallName => "a call",
            Wanted::CallNumber => "the number of a waiting call",
            Wanted::Descriptor => "a descriptor",
            Wanted::Size => "a number of bytes",
            Wanted::Offset => "an offset or -",
            Wanted::SeekOffset => "an offset",
            Wanted::Whence => "set, cur or end",
            Wanted::Bytes => "bytes",
            Wanted::Name => "a name",
            Wanted::Mode => "r, w or rw",
            Wanted::OpenFlags => "flags of an open",
            Wanted::PipeFlags => "flags of a pipe",
            Wanted::SpliceFlags => "flags of a splice",
            Wanted::StatusFlags => "flags of setfl, or -",
            Wanted::Nonblock => "nonblock",
            Wanted::When => "now or wait",
            Wanted::Entry => "an entry FD:MASK",
        }
    }
}

/// Why a word of a line is at fault.
#[derive(Clone, Copy, Debug, PartialEq, Eq)]
pub enum Reason {
    /// It is one too many.
    Surplus,
    /// It isn't there.
    Missing(Wanted),
    /// It isn't what has to stand there.
    Not(Wanted),
    /// Of a write's bytes: a piece has an odd number of digits.
    OddDigits,
    /// A piece has a letter that is no hexadecimal digit.
    NoDigit,
    /// A piece with a `*` isn't a number, `*` and two digits.
    NoRepetition,
    /// A piece is empty.
    NoPiece,
    /// They are more than 16,777,216.
    TooManyBytes,
}

impl Reason {
    /// The two pieces of its text, to be put one behind another.
    pub fn text(&self) -> (&'static str, &'static str)
        ensures { (result.0.now, result.1.now) ≡ reason_text self.now }
    {
        match *self {
            Reason::Surplus => ("a word too many", ""),
            Reason::Missing(wanted) => ("missing: ", wanted.text()),
            Reason::Not(wanted) => ("not ", wanted.text()),
            Reason::OddDigits => ("an odd number of digits", ""),
            Reason::NoDigit => ("a letter that is no hexadecimal digit", ""),
            Reason::NoRepetition => ("not a repetition N*hh", ""),
            Reason::NoPiece => ("a piece without digits", ""),
            Reason::TooManyBytes => ("more than 16777216 bytes", ""),
        }
    }
}

/// Why `N*hh` says no bytes.
fn repeated_reason(times: &[u8], digits: &[u8]) -> Reason
    ensures { result ≡ repeated_reason times.now digits.now }
{
    if one_byte(digits).is_some() && parse_u64(times).is_ok() {
        Reason::TooManyBytes
    } else {
        Reason::NoRepetition
    }
}

/// Why a piece says no bytes.
#[tactic(auto, unfolding(crate::specs::Reasons::piece_reason))]
fn piece_reason(piece: &[u8]) -> Reason
    ensures { result ≡ piece_reason piece.now }
{
    if let Some(star) = place_of(b'*', piece) {
        return repeated_reason(piece.split_at(star).0, piece.split_at(star + 1).1);
    }
    if piece.is_empty() {
        Reason::NoPiece
    } else if !are_hex_digits(piece) {
        Reason::NoDigit
    } else if piece.len() % 2 == 1 {
        Reason::OddDigits
    } else {
        Reason::TooManyBytes
    }
}

/// Why the pieces of a word say no bytes: the reason of the first bad one.
fn pieces_reason(word: &[u8]) -> Reason
    ensures { result ≡ pieces_reason (slice_split is_plus word.now) }
{
    let mut rest = word;
    while let Some(plus) = place_of(b'+', rest) {
        let piece = rest.split_at(plus).0;
        if piece_len(piece).is_none() {
            return piece_reason(piece);
        }
        rest = rest.split_at(plus + 1).1;
    }
    if piece_len(rest).is_none() {
        piece_reason(rest)
    } else {
        Reason::TooManyBytes
    }
}

/// Why a word says no bytes of a write, of a word of which `bytes_len` answers `None`. It takes no memory.
#[tactic(auto, unfolding(crate::specs::Reasons::bytes_reason))]
pub fn bytes_reason(version: Version, word: &[u8]) -> Reason
    ensures { result ≡ bytes_reason version word.now }
{
    match version {
        Version::One => piece_reason(word),
        Version::Two => pieces_reason(word),
    }
}
