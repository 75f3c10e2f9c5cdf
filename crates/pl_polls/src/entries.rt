//! The entries of a poll, as C has them.
ghost use Rattle.std.specs.Prelude.{◌≡◌, IfOk};
ghost use Rattle.pl_polls.specs.Entries.{mask_of_events, asked, marked, entries_after};

use bitflags::Flags;
use pl_model::{PollList, PollMask, Reply};
use std::alloc::{AllocError, Allocator};

/// All bits that a mask has here: `POLLIN`, `POLLOUT`, `POLLERR`, `POLLHUP`, `POLLNVAL` (Linux, poll.h).
const POLL_ALL: u16 = 0o75;

/// An entry of a poll, as `struct pollfd` has it (POSIX.1-2017, poll.h).
#[repr(C)]
#[derive(Clone, Copy, Debug, PartialEq, Eq)]
pub struct PollEntry {
    /// The descriptor; a negative one is passed over.
    pub fd: i32,
    /// What is asked of it.
    pub events: u16,
    /// What was found.
    pub revents: u16,
}

// What is asked. Bits that have no name here are ignored.
#[inline(always)]
pub(crate) fn mask_of_events(events: u16) -> PollMask
    ensures { result ≡ mask_of_events events }
{
    PollMask::from_bits_retain((events & POLL_ALL) as u8)
}

/// What the entries ask, as the list of a poll.
///
/// # Errors
///
/// `AllocError`, where there is no memory for the list.
pub fn asked_of<A: Allocator + Copy>(
    alloc: A,
    entries: &[PollEntry],
) -> Result<PollList<A>, AllocError>
    ensures { IfOk result (λ list. list ≡ asked entries.now) }
{
    let mut list = Vec::with_capacity(alloc, entries.len())?;
    for entry in entries {
        list.push_reserved((entry.fd, mask_of_events(entry.events)));
    }
    Ok(PollList::from_vec(list))
}

// Notes in each entry what was found of it. Where one of the two is shorter, the rest of the other counts for nothing.
fn mark(entries: &mut [PollEntry], masks: &[PollMask])
    ensures { entries.new ≡ marked entries.old masks.now }
{
    let count = entries.len().min(masks.len());
    for place in 0..count {
        let found = masks[place].bits() as u16;
        let entry = &mut entries[place];
        entry.revents = found;
    }
}

/// Notes in each entry what a reply says was found of it; of any other reply they stay as they are (POSIX.1-2017, poll).
pub fn mark_entries<A: Allocator>(reply: &Reply<A>, entries: &mut [PollEntry])
    ensures { entries.new ≡ entries_after entries.old reply.now }
{
    if let Reply::Masks { masks, .. } = reply {
        mark(entries, masks.as_slice());
    }
}
