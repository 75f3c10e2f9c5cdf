//! How many masks a poll answers, told before it is made. Nothing here takes memory.
ghost use Rattle.std.specs.Prelude.{◌≡◌, nat_eq};
ghost use Rattle.pl_model.specs.Map.{get};
ghost use Rattle.pl_state.specs.Contents.{core_of};
ghost use Rattle.pl_polls.specs.Counts.{masks_begun, masks_again};

use crate::masks::{Descriptions, is_ready};
use pl_model::{Call, PollMask};
use pl_state::KernelState;
use std::alloc::Allocator;

/// How many masks a poll answers that a process begins (POSIX.1-2017, poll): none where it is refused, or waits.
pub fn masks_to_begin<A: Allocator + Copy>(
    kernel: &KernelState<A>,
    pid: u32,
    entries: &[(i32, PollMask)],
    wait: bool,
) -> usize
    ensures { result ≡ masks_begun (core_of {A = A} kernel.now) pid entries.now wait }
{
    if entries.len() > kernel.limits.poll_entries() {
        return 0;
    }
    let named = Descriptions::Named {
        pid,
        table: kernel.descs.table(pid),
    };
    if wait && !is_ready(kernel, named, entries) {
        return 0;
    }
    entries.len()
}

/// How many masks the parked call of a number answers where it is tried again now: none where it waits on, or is no poll, or isn't
/// there.
pub fn masks_to_resume<A: Allocator + Copy>(kernel: &KernelState<A>, number: u64) -> usize
    ensures { result ≡ masks_again (core_of {A = A} kernel.now) (get nat_eq (core_of {A = A} kernel.now).parked number) }
{
    let Some(call) = kernel.parked.get(number) else {
        return 0;
    };
    let Call::Poll { entries, .. } = &call.call else {
        return 0;
    };
    let kept = Descriptions::Kept(call.kept.as_slice());
    if !is_ready(kernel, kept, entries.as_slice()) {
        return 0;
    }
    entries.as_slice().len()
}
