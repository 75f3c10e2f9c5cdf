//! Plain lists of bytes.
use crate::fault::Fault;
use pl_file::WriteFault;
use std::alloc::{AllocError, Global};

/// No bytes.
const NO_BYTES: &[u8] = &[];

/// From a place on, so many bytes of a text without end, whose byte at each place is the place's remainder by 251.
pub(crate) fn part(alloc: Global, from: usize, count: usize) -> Result<Vec<u8>, AllocError> {
    let mut bytes = Vec::with_capacity(alloc, count)?;
    for i in 0..count {
        bytes.push((from.wrapping_add(i) % 251) as u8)?;
    }
    Ok(bytes)
}

/// At most `count` bytes from a place on, none past the end.
pub(crate) fn range(bytes: &[u8], place: usize, count: usize) -> &[u8] {
    let rest = bytes.get(place..).unwrap_or(NO_BYTES);
    rest.get(..count).unwrap_or(rest)
}

/// The bytes are those that are wanted.
pub(crate) fn same_bytes(bytes: &[u8], wanted: &[u8]) -> Result<(), Fault> {
    if bytes != wanted {
        return Err(Fault::OtherBytes);
    }
    Ok(())
}

/// What a ring is to hold, and may hold.
#[derive(Drop)]
pub(crate) struct Plain {
    added: Vec<u8>,
    /// How many of the first bytes that were added are gone.
    gone: usize,
    pub(crate) capacity: usize,
}

impl Plain {
    pub(crate) fn new(alloc: Global, capacity: usize) -> Plain {
        Plain {
            added: Vec::new(alloc),
            gone: 0,
            capacity,
        }
    }

    /// The bytes that are held.
    pub(crate) fn bytes(&self) -> &[u8] {
        range(&self.added, self.gone, usize::MAX)
    }

    /// How many bytes are held.
    pub(crate) fn len(&self) -> usize {
        self.added.len().saturating_sub(self.gone)
    }

    /// How many more bytes fit.
    pub(crate) fn room(&self) -> usize {
        self.capacity.saturating_sub(self.len())
    }

    /// Adds bytes at the end.
    pub(crate) fn push(&mut self, bytes: &[u8]) -> Result<(), AllocError> {
        self.added.extend_from_slice(bytes)
    }

    /// Lets the first bytes go.
    pub(crate) fn skip(&mut self, count: usize) {
        self.gone = self.gone.saturating_add(count);
    }
}

/// The bytes of a file after others are written at a place: what lies between its end and the place reads as zeros. No bytes change
/// nothing (POSIX.1-2017, write; lseek).
fn overwritten(
    alloc: Global,
    old: &[u8],
    place: usize,
    bytes: &[u8],
) -> Result<Vec<u8>, AllocError> {
    if bytes.is_empty() {
        return Vec::from_slice(alloc, old);
    }
    let mut new = Vec::from_slice(alloc, range(old, 0, place))?;
    let zeros = Vec::from_elem(alloc, 0u8, place.saturating_sub(old.len()))?;
    new.extend_from_slice(&zeros)?;
    new.extend_from_slice(bytes)?;
    let end = place.saturating_add(bytes.len());
    new.extend_from_slice(range(old, end, usize::MAX))?;
    Ok(new)
}

/// A place in a file that has at most so many bytes.
#[derive(Clone, Copy)]
pub(crate) struct Place {
    pub(crate) at: usize,
    pub(crate) most: usize,
}

/// The bytes of a file after others are written at a place, of which only those go in that stand below the greatest length. Where
/// there are bytes and none goes in, the file is too big, and stays as it is. It fails where the write answered anything else.
pub(crate) fn after_write(
    alloc: Global,
    old: &[u8],
    place: Place,
    bytes: &[u8],
    answer: Result<usize, WriteFault>,
) -> Result<Vec<u8>, Fault> {
    let fitting = range(bytes, 0, place.most.saturating_sub(place.at));
    let is_too_big = fitting.is_empty() && !bytes.is_empty();
    match answer {
        Ok(count) if count == fitting.len() && !is_too_big => {
            Ok(overwritten(alloc, old, place.at, fitting)?)
        }
        Err(WriteFault::TooBig) if is_too_big => Ok(Vec::from_slice(alloc, old)?),
        Err(WriteFault::NoMemory) => Err(Fault::NoMemory),
        _ => Err(Fault::OtherSizes),
    }
}
