//! Where bytes stand first. A short text is searched byte by byte, and a long one by blocks behind its front: a word or a line
//! is mostly short, and a search by blocks costs more to begin than it saves there.
ghost use Rattle.std.specs.Prelude.{◌≡◌, ◌<◌, ◌==◌, length, position, IfSome};
ghost use Rattle.memchr.specs.Find.{IsFirstByte, is_byte, is_byte2};
ghost use Rattle.pl_model.specs.Words.{is_blank};

use memchr::{memchr, memchr2};

/// How many bytes of a text are searched one by one.
const FRONT: usize = 64;

pub(crate) fn is_blank(c: u8) -> bool
    ensures { result ≡ is_blank c }
{
    c == b' ' || c == b'\t'
}

/// Where the byte stands first, found byte by byte.
fn near_place_of(byte: u8, text: &[u8]) -> Option<usize>
    ensures place { result ≡ position (λ c. c == byte) text.now }
    ensures within { IfSome result (λ i. i < length text.now) }
{
    text.iter().position(|c| *c == byte)
}

/// The same, found by blocks. It isn't inlined, so that the search of a short text is.
#[inline(never)]
fn far_place_of(byte: u8, text: &[u8]) -> Option<usize>
    ensures { IsFirstByte (is_byte byte) text.now result }
{
    memchr(byte, text)
}

/// Where the byte stands first; `None` where it stands nowhere.
pub fn place_of(byte: u8, text: &[u8]) -> Option<usize>
    ensures place { result ≡ position (λ c. c == byte) text.now }
    ensures within { IfSome result (λ i. i < length text.now) }
{
    let (front, rest) = text.split_at(text.len().min(FRONT));
    if let Some(place) = near_place_of(byte, front) {
        return Some(place);
    }
    if rest.is_empty() {
        return None;
    }
    let place = far_place_of(byte, rest)?;
    Some(front.len() + place)
}

/// Where a blank stands first, found byte by byte.
fn near_blank(text: &[u8]) -> Option<usize>
    ensures place { result ≡ position is_blank text.now }
    ensures within { IfSome result (λ i. i < length text.now) }
{
    text.iter().position(|c| is_blank(*c))
}

/// The same, found by blocks. It isn't inlined, so that the search of a short text is.
#[inline(never)]
fn far_blank(text: &[u8]) -> Option<usize>
    ensures { IsFirstByte (is_byte2 32 9) text.now result }
{
    memchr2(b' ', b'\t', text)
}

/// Where a blank stands first; `None` where none does.
pub(crate) fn first_blank(text: &[u8]) -> Option<usize>
    ensures place { result ≡ position is_blank text.now }
    ensures within { IfSome result (λ i. i < length text.now) }
{
    let (front, rest) = text.split_at(text.len().min(FRONT));
    if let Some(place) = near_blank(front) {
        return Some(place);
    }
    if rest.is_empty() {
        return None;
    }
    let place = far_blank(rest)?;
    Some(front.len() + place)
}
