//! What words ask of descriptors.
ghost use Rattle.std.specs.Prelude.{◌≡◌, is_some};
ghost use Rattle.pl_model.specs.Words.{entry_of, entries_of, words};
ghost use Rattle.pl_words.specs.Parsed.{Gives, GivesTaking, EntriesTake};

use crate::fault::LineFault;
use crate::flags::parse_poll_mask;
use crate::numbers::parse_i32;
use crate::search::place_of;
use crate::words::next_word;
use pl_model::{PollList, PollMask};
use std::alloc::Allocator;

/// A descriptor and what is asked of it, `FD:MASK`.
fn parse_entry(word: &[u8]) -> Result<(i32, PollMask), LineFault>
    ensures { Gives result (entry_of word.now) }
{
    let colon = place_of(b':', word).ok_or(LineFault::Bad)?;
    let fd = parse_i32(word.split_at(colon).0)?;
    let asked = parse_poll_mask(word.split_at(colon + 1).1)?;
    Ok((fd, asked))
}

/// Whether the word says a descriptor and what is asked of it, `FD:MASK`.
pub fn is_entry(word: &[u8]) -> bool
    ensures { result ≡ is_some (entry_of word.now) }
{
    parse_entry(word).is_ok()
}

/// The entries of a poll, each a descriptor and what is asked of it: all the words that are left, `FD:MASK`, of which there may be
/// none.
///
/// # Errors
///
/// `Bad` exactly where one of the words is no such entry, whatever the memory. `NoMemory` only where there are entries, and there
/// was no memory for them.
pub fn parse_entries<A: Allocator + Copy>(alloc: A, rest: &[u8]) -> Result<PollList<A>, LineFault>
    ensures { GivesTaking EntriesTake result (entries_of (words rest.now)) }
{
    let mut entries = Vec::new(alloc);
    let mut wants = false;
    let mut left = rest;
    while let Some((word, behind)) = next_word(left) {
        let entry = parse_entry(word)?;
        // Where there is no memory, whether the words behind are good is still to be seen.
        wants = wants || entries.push(entry).is_err();
        left = behind;
    }
    if wants {
        return Err(LineFault::NoMemory);
    }
    Ok(PollList::from_vec(entries))
}
