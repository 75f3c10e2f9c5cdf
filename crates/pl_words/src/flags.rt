//! The flags in words, and the masks of polls.
ghost use Rattle.std.specs.Prelude.{◌≡◌, is_some};
ghost use Rattle.std.specs.List.{slice_split};
ghost use Rattle.pl_model.specs.Words.{is_comma, open_flag, pipe_flag, splice_flag, with_flags, flags_of, flags_if_any, open_flags_if_any, pipe_flags_if_any, splice_flags_if_any, flags_or_none, poll_flag, poll_mask_of, words};
ghost use Rattle.pl_words.specs.Parsed.{Gives};
ghost use Rattle.pl_words.specs.Named.{flag_of};

use crate::fault::LineFault;
use crate::search::place_of;
use crate::words::{end, next_word};
use bitflags::Flags;
use pl_model::{OpenFlags, PollMask, SpliceFlags};

/// Whose names a list of flags has.
#[derive(Clone, Copy)]
pub(crate) enum Named {
    Open,
    Pipe,
    Splice,
    Poll,
}

#[tactic(auto, unfolding(pl_model::specs::Words::open_flag))]
fn open_flag(name: &[u8]) -> Result<u8, LineFault>
    ensures { Gives result (open_flag name.now) }
{
    if name == b"creat".as_slice() {
        Ok(OpenFlags::CREAT.bits())
    } else if name == b"excl".as_slice() {
        Ok(OpenFlags::EXCL.bits())
    } else if name == b"trunc".as_slice() {
        Ok(OpenFlags::TRUNC.bits())
    } else if name == b"append".as_slice() {
        Ok(OpenFlags::APPEND.bits())
    } else if name == b"nonblock".as_slice() {
        Ok(OpenFlags::NONBLOCK.bits())
    } else {
        Err(LineFault::Bad)
    }
}

#[tactic(auto, unfolding(pl_model::specs::Words::pipe_flag))]
fn pipe_flag(name: &[u8]) -> Result<u8, LineFault>
    ensures { Gives result (pipe_flag name.now) }
{
    if name == b"nonblock".as_slice() {
        Ok(OpenFlags::NONBLOCK.bits())
    } else if name == b"direct".as_slice() {
        Ok(OpenFlags::DIRECT.bits())
    } else {
        Err(LineFault::Bad)
    }
}

#[tactic(auto, unfolding(pl_model::specs::Words::splice_flag))]
fn splice_flag(name: &[u8]) -> Result<u8, LineFault>
    ensures { Gives result (splice_flag name.now) }
{
    if name == b"move".as_slice() {
        Ok(SpliceFlags::MOVE.bits())
    } else if name == b"nonblock".as_slice() {
        Ok(SpliceFlags::NONBLOCK.bits())
    } else if name == b"more".as_slice() {
        Ok(SpliceFlags::MORE.bits())
    } else if name == b"gift".as_slice() {
        Ok(SpliceFlags::GIFT.bits())
    } else {
        Err(LineFault::Bad)
    }
}

#[tactic(auto, unfolding(pl_model::specs::Words::poll_flag))]
fn poll_flag(name: &[u8]) -> Result<u8, LineFault>
    ensures { Gives result (poll_flag name.now) }
{
    if name == b"in".as_slice() {
        Ok(PollMask::IN.bits())
    } else if name == b"out".as_slice() {
        Ok(PollMask::OUT.bits())
    } else if name == b"err".as_slice() {
        Ok(PollMask::ERR.bits())
    } else if name == b"hup".as_slice() {
        Ok(PollMask::HUP.bits())
    } else if name == b"nval".as_slice() {
        Ok(PollMask::NVAL.bits())
    } else {
        Err(LineFault::Bad)
    }
}

/// The bit of the flag of this name.
fn parse_flag(named: Named, name: &[u8]) -> Result<u8, LineFault>
    ensures { Gives result (flag_of named name.now) }
{
    match named {
        Named::Open => open_flag(name),
        Named::Pipe => pipe_flag(name),
        Named::Splice => splice_flag(name),
        Named::Poll => poll_flag(name),
    }
}

/// The bits of the flags of names that are joined by commas.
#[tactic(auto, unfolding(pl_model::specs::Words::flags_of))]
fn parse_flags(named: Named, names: &[u8]) -> Result<u8, LineFault>
    ensures { Gives result (flags_of (flag_of named) names.now) }
{
    let mut bits = 0;
    let mut rest = names;
    while let Some(comma) = place_of(b',', rest) {
        bits |= parse_flag(named, rest.split_at(comma).0)?;
        rest = rest.split_at(comma + 1).1;
    }
    bits |= parse_flag(named, rest)?;
    Ok(bits)
}

/// Whether the word is names of flags of an open, joined by commas.
pub fn are_open_flags(word: &[u8]) -> bool
    ensures { result ≡ is_some (flags_of open_flag word.now) }
{
    parse_flags(Named::Open, word).is_ok()
}

/// Whether the word is names of flags of a pipe, joined by commas.
pub fn are_pipe_flags(word: &[u8]) -> bool
    ensures { result ≡ is_some (flags_of pipe_flag word.now) }
{
    parse_flags(Named::Pipe, word).is_ok()
}

/// Whether the word is names of flags of a splice, joined by commas.
pub fn are_splice_flags(word: &[u8]) -> bool
    ensures { result ≡ is_some (flags_of splice_flag word.now) }
{
    parse_flags(Named::Splice, word).is_ok()
}

/// The bits of the flags of the word that may stand there; none where there is no word.
#[tactic(auto, unfolding(pl_model::specs::Words::flags_if_any))]
fn parse_flags_if_any(named: Named, rest: &[u8]) -> Result<u8, LineFault>
    ensures { Gives result (flags_if_any (flag_of named) (words rest.now)) }
{
    match next_word(rest) {
        None => Ok(0),
        Some((names, rest)) => {
            end(rest)?;
            parse_flags(named, names)
        }
    }
}

/// The flags of an open, in the word that may stand there, names joined by commas; none where there is no word.
///
/// # Errors
///
/// `Bad` exactly where there is more than one word, or one of its names is none of such a flag.
pub fn open_flags_if_any(rest: &[u8]) -> Result<OpenFlags, LineFault>
    ensures { Gives result (open_flags_if_any (words rest.now)) }
{
    let bits = parse_flags_if_any(Named::Open, rest)?;
    Ok(OpenFlags::from_bits_retain(bits))
}

/// The flags of a pipe, in the word that may stand there, names joined by commas; none where there is no word.
///
/// # Errors
///
/// `Bad` exactly where there is more than one word, or one of its names is none of such a flag.
pub fn pipe_flags_if_any(rest: &[u8]) -> Result<OpenFlags, LineFault>
    ensures { Gives result (pipe_flags_if_any (words rest.now)) }
{
    let bits = parse_flags_if_any(Named::Pipe, rest)?;
    Ok(OpenFlags::from_bits_retain(bits))
}

/// The flags of a splice, in the word that may stand there, names joined by commas; none where there is no word.
///
/// # Errors
///
/// `Bad` exactly where there is more than one word, or one of its names is none of such a flag.
pub fn splice_flags_if_any(rest: &[u8]) -> Result<SpliceFlags, LineFault>
    ensures { Gives result (splice_flags_if_any (words rest.now)) }
{
    let bits = parse_flags_if_any(Named::Splice, rest)?;
    Ok(SpliceFlags::from_bits_retain(bits))
}

/// The flags of an open, of names that are joined by commas, or none of `-`.
///
/// # Errors
///
/// `Bad` exactly where the word is not `-`, and one of its names is none of such a flag.
#[tactic(auto, unfolding(pl_model::specs::Words::flags_or_none))]
pub fn parse_flags_or_none(word: &[u8]) -> Result<OpenFlags, LineFault>
    ensures { Gives result (flags_or_none word.now) }
{
    if word == b"-".as_slice() {
        return Ok(OpenFlags::empty());
    }
    let bits = parse_flags(Named::Open, word)?;
    Ok(OpenFlags::from_bits_retain(bits))
}

/// A mask of a poll, of names that are joined by commas, or none of `-`.
///
/// # Errors
///
/// `Bad` exactly where the word is not `-`, and one of its names is none of what a mask has.
#[tactic(auto, unfolding(pl_model::specs::Words::poll_mask_of))]
pub(crate) fn parse_poll_mask(word: &[u8]) -> Result<PollMask, LineFault>
    ensures { Gives result (poll_mask_of word.now) }
{
    if word == b"-".as_slice() {
        return Ok(PollMask::empty());
    }
    let bits = parse_flags(Named::Poll, word)?;
    Ok(PollMask::from_bits_retain(bits))
}
