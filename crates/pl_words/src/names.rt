//! The names in words.
ghost use Rattle.std.specs.Prelude.{◌≡◌, ◌<◌, length, is_some};
ghost use Rattle.pl_model.specs.Words.{is_plain, name_bytes, name_of};
ghost use Rattle.pl_words.specs.Parsed.{GivesAs, GivesTaking, BytesTake, first_of_name};

use crate::bytes::one_byte;
use crate::fault::LineFault;
use pl_model::Name;
use std::alloc::Allocator;

/// Whether the byte stands for itself in a name: one of 33 to 126 that isn't `%`.
pub fn is_plain(c: u8) -> bool
    ensures { result ≡ is_plain c }
{
    c >= 33 && c <= 126 && c != b'%'
}

/// The first byte of a name, and what stands behind it.
fn first_of_name(word: &[u8]) -> Result<(u8, &[u8]), LineFault>
    requires { 0 < length word.now }
    ensures { GivesAs (λ p. (p.0, p.1.now)) result (first_of_name word.now) }
{
    let c = word[0];
    if c != b'%' {
        return if is_plain(c) {
            Ok((c, word.split_at(1).1))
        } else {
            Err(LineFault::Bad)
        };
    }
    if word.len() < 3 {
        return Err(LineFault::Bad);
    }
    let (escaped, rest) = word.split_at(3);
    let byte = one_byte(escaped.split_at(1).1).ok_or(LineFault::Bad)?;
    Ok((byte, rest))
}

/// Whether these say the bytes of a name.
fn is_name_bytes(word: &[u8]) -> bool
    ensures { result ≡ is_some (name_bytes word.now) }
{
    let mut rest = word;
    while !rest.is_empty() {
        match first_of_name(rest) {
            Ok((_, behind)) => rest = behind,
            Err(_) => return false,
        }
    }
    true
}

/// The name of these bytes, in which `%hh` is the byte hh.
fn name_bytes<A: Allocator + Copy>(alloc: A, word: &[u8]) -> Result<Name<A>, LineFault>
    ensures { GivesTaking BytesTake result (name_bytes word.now) }
{
    let mut bytes = Vec::new(alloc);
    let mut rest = word;
    while !rest.is_empty() {
        let (byte, behind) = first_of_name(rest)?;
        rest = behind;
        if bytes.push(byte).is_err() {
            // Whether the rest is good is still to be seen.
            return Err(if is_name_bytes(rest) {
                LineFault::NoMemory
            } else {
                LineFault::Bad
            });
        }
    }
    Ok(Name::from_vec(bytes))
}

/// A name: `-` for the empty one, or its bytes, in which `%hh` is the byte hh.
///
/// # Errors
///
/// `Bad` exactly where the word says no name, whatever the memory. `NoMemory` only where it says one that isn't empty, and there
/// was no memory for its bytes.
#[tactic(auto, unfolding(pl_model::specs::Words::name_of))]
pub fn parse_name<A: Allocator + Copy>(alloc: A, word: &[u8]) -> Result<Name<A>, LineFault>
    ensures { GivesTaking BytesTake result (name_of word.now) }
{
    if word == b"-".as_slice() {
        Ok(Name::from_vec(Vec::new(alloc)))
    } else {
        name_bytes(alloc, word)
    }
}

/// Whether the word says a name, as `parse_name` reads it. It takes no memory.
#[tactic(auto, unfolding(pl_model::specs::Words::name_of))]
pub fn is_name(word: &[u8]) -> bool
    ensures { result ≡ is_some (name_of word.now) }
{
    word == b"-".as_slice() || is_name_bytes(word)
}
