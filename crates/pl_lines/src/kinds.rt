//! The kinds of the words of each line.
ghost use Rattle.std.specs.Prelude.{◌≡◌, MatchOption, Some, None};
ghost use Rattle.pl_lines.specs.Explained.{pipe_kinds, later_call_kinds, call_kinds};

use crate::kinds::Expected::{Needed, Optional, Repeated};
use pl_model::Version;
use pl_words::Wanted;

/// What is expected where a word may stand.
#[derive(Clone, Copy)]
pub(crate) enum Expected {
    /// A word of this kind.
    Needed(Wanted),
    /// A word of this kind, or the end of the line.
    Optional(Wanted),
    /// Words of this kind up to the end of the line.
    Repeated(Wanted),
}

pub(crate) const NOTHING: &[Expected] = &[];

pub(crate) const CALL_NUMBER: &[Expected] = &[Needed(Wanted::CallNumber)];

pub(crate) const NAME: &[Expected] = &[Needed(Wanted::Name)];

const NONBLOCK: &[Expected] = &[Optional(Wanted::Nonblock)];

const PIPE_FLAGS: &[Expected] = &[Optional(Wanted::PipeFlags)];

const OPEN: &[Expected] = &[
    Needed(Wanted::Name),
    Needed(Wanted::Mode),
    Optional(Wanted::OpenFlags),
];

const DESCRIPTOR: &[Expected] = &[Needed(Wanted::Descriptor)];

const TWO_DESCRIPTORS: &[Expected] = &[Needed(Wanted::Descriptor), Needed(Wanted::Descriptor)];

const DESCRIPTOR_AND_SIZE: &[Expected] = &[Needed(Wanted::Descriptor), Needed(Wanted::Size)];

const WRITE: &[Expected] = &[Needed(Wanted::Descriptor), Needed(Wanted::Bytes)];

const SPLICE: &[Expected] = &[
    Needed(Wanted::Descriptor),
    Needed(Wanted::Offset),
    Needed(Wanted::Descriptor),
    Needed(Wanted::Offset),
    Needed(Wanted::Size),
    Optional(Wanted::SpliceFlags),
];

const TEE: &[Expected] = &[
    Needed(Wanted::Descriptor),
    Needed(Wanted::Descriptor),
    Needed(Wanted::Size),
    Optional(Wanted::SpliceFlags),
];

const POLL: &[Expected] = &[Needed(Wanted::When), Repeated(Wanted::Entry)];

const LSEEK: &[Expected] = &[
    Needed(Wanted::Descriptor),
    Needed(Wanted::SeekOffset),
    Needed(Wanted::Whence),
];

const SET_FL: &[Expected] = &[Needed(Wanted::Descriptor), Needed(Wanted::StatusFlags)];

fn pipe_kinds(version: Version) -> &'static [Expected]
    ensures { result.now ≡ pipe_kinds version }
{
    match version {
        Version::One => NONBLOCK,
        Version::Two => PIPE_FLAGS,
    }
}

/// The words of the call of this name, of those from `dup` on.
#[tactic(auto, unfolding(crate::specs::Explained::later_call_kinds))]
fn later_call_kinds(name: &[u8]) -> Option<&'static [Expected]>
    ensures { MatchOption result (later_call_kinds name.now ≡ None) (λ kinds. later_call_kinds name.now ≡ Some kinds.now) }
{
    if name == b"dup".as_slice() {
        Some(DESCRIPTOR)
    } else if name == b"dup2".as_slice() {
        Some(TWO_DESCRIPTORS)
    } else if name == b"dupfd".as_slice() {
        Some(TWO_DESCRIPTORS)
    } else if name == b"close".as_slice() {
        Some(DESCRIPTOR)
    } else if name == b"lseek".as_slice() {
        Some(LSEEK)
    } else if name == b"getfl".as_slice() {
        Some(DESCRIPTOR)
    } else if name == b"setfl".as_slice() {
        Some(SET_FL)
    } else if name == b"getsz".as_slice() {
        Some(DESCRIPTOR)
    } else if name == b"setsz".as_slice() {
        Some(DESCRIPTOR_AND_SIZE)
    } else if name == b"unlink".as_slice() {
        Some(NAME)
    } else if name == b"fork".as_slice() {
        Some(NOTHING)
    } else if name == b"exit".as_slice() {
        Some(NOTHING)
    } else {
        None
    }
}

/// The words of the call of this name, behind the name.
#[tactic(auto, unfolding(crate::specs::Explained::call_kinds))]
pub(crate) fn call_kinds(version: Version, name: &[u8]) -> Option<&'static [Expected]>
    ensures { MatchOption result (call_kinds version name.now ≡ None) (λ kinds. call_kinds version name.now ≡ Some kinds.now) }
{
    if name == b"pipe".as_slice() {
        Some(pipe_kinds(version))
    } else if name == b"mkfifo".as_slice() {
        Some(NAME)
    } else if name == b"open".as_slice() {
        Some(OPEN)
    } else if name == b"read".as_slice() {
        Some(DESCRIPTOR_AND_SIZE)
    } else if name == b"write".as_slice() {
        Some(WRITE)
    } else if name == b"splice".as_slice() {
        Some(SPLICE)
    } else if name == b"tee".as_slice() {
        Some(TEE)
    } else if name == b"poll".as_slice() {
        Some(POLL)
    } else {
        later_call_kinds(name)
    }
}
