//! How a poll of the caller's entries begins.
ghost use Rattle.std.specs.Prelude.{◌≡◌, ◌≤◌, length, count_by, IfOk, OnErr};
ghost use Rattle.std.specs.List.{list_any};
ghost use Rattle.pl_model.specs.Numbers.{most_descriptors};
ghost use Rattle.pl_model.specs.Poll.{is_ready as is_mask_ready};
ghost use Rattle.pl_state.specs.Contents.{IsProcess};
ghost use Rattle.pl_state.specs.Makes.{MakesAtKeys, ParksAtKeys};
ghost use Rattle.pl_polls.specs.Masks.{AreCurrent, masks_of};
ghost use Rattle.pl_polls.specs.Entries.{asked, marked, entries_after};
ghost use Rattle.pl_polls.specs.Into.{told};

use crate::begin::park_poll;
use crate::entries::{PollEntry, asked_of, mask_of_events};
use crate::masks::{Descriptions, next_mask};
use bitflags::Flags;
use pl_model::{Call, Errno, Step};
use pl_state::{Answered, KernelState, NoMemory};
use std::alloc::Allocator;

// Whether something is found of an entry.
fn is_any_ready<A: Allocator + Copy>(
    kernel: &KernelState<A>,
    descriptions: Descriptions<'_, A>,
    entries: &[PollEntry],
) -> bool
    requires current { AreCurrent kernel.now descriptions }
    requires few { length entries.now ≤ most_descriptors }
    ensures { result ≡ list_any is_mask_ready (masks_of {A = A} kernel.now descriptions.entry (asked entries.now)) }
{
    let mut before = 0;
    for entry in entries {
        let asked = mask_of_events(entry.events);
        if !next_mask(kernel, descriptions, entry.fd, asked, &mut before).is_empty() {
            return true;
        }
    }
    false
}

// Notes in each entry what is found of it, and answers of how many something is.
fn note_masks<A: Allocator + Copy>(
    kernel: &KernelState<A>,
    descriptions: Descriptions<'_, A>,
    entries: &mut [PollEntry],
) -> u32
    requires current { AreCurrent kernel.now descriptions }
    requires few { length entries.old ≤ most_descriptors }
    ensures noted { entries.new ≡ marked entries.old (masks_of {A = A} kernel.now descriptions.entry (asked entries.old)) }
    ensures ready { result ≡ count_by is_mask_ready (masks_of {A = A} kernel.now descriptions.entry (asked entries.old)) }
{
    let mut before = 0;
    let mut ready = 0;
    for place in 0..entries.len() {
        let entry = entries[place];
        let asked = mask_of_events(entry.events);
        let mask = next_mask(kernel, descriptions, entry.fd, asked, &mut before);
        let noted = &mut entries[place];
        noted.revents = mask.bits() as u16;
        if !mask.is_empty() {
            ready += 1;
        }
    }
    ready
}

/// Tells what each of the caller's entries is ready for, as `poll` does of a call's, and notes it there. It takes memory only where the
/// call is parked, which keeps a copy of what is asked; the entries stay as they are then, and at each other answer but `Done`.
pub fn poll_into<A: Allocator + Copy>(
    kernel: &mut KernelState<A>,
    pid: u32,
    entries: &mut [PollEntry],
    wait: bool,
) -> Result<Answered<u32>, NoMemory>
    requires { IsProcess kernel.old pid }
    ensures done { IfOk result (λ reply. MakesAtKeys {A = A} kernel.old (Step.Begin pid (Call.Poll (asked entries.old) wait)) (told reply entries.new) kernel.new) }
    ensures noted { IfOk result (λ reply. entries.new ≡ entries_after {A = A} entries.old (told reply entries.new)) }
    ensures undone { OnErr result (kernel.new ≡ kernel.old) }
    ensures unmarked { OnErr result (entries.new ≡ entries.old) }
    ensures wanted { OnErr result (ParksAtKeys {A = A} kernel.old (Step.Begin pid (Call.Poll (asked entries.old) wait))) }
{
    // A proof learns here what holds of the kernel.
    let _ = &kernel.descs;
    if entries.len() > kernel.limits.poll_entries() {
        return Ok(Answered::Fault(Errno::EINVAL));
    }
    let named = Descriptions::Named {
        pid,
        table: kernel.descs.table(pid),
    };
    if !wait || is_any_ready(kernel, named, entries) {
        let ready = note_masks(kernel, named, entries);
        return Ok(Answered::Done(ready));
    }
    if !kernel.can_wait(pid) {
        return Ok(Answered::Fault(Errno::EAGAIN));
    }
    if kernel.parked.spent() {
        return Ok(Answered::CallsSpent);
    }
    let list = asked_of(kernel.alloc, entries)?;
    let number = park_poll(kernel, pid, list)?;
    Ok(Answered::Parked(number))
}
