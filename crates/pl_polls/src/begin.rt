//! How a poll begins.
ghost use Rattle.std.specs.Prelude.{◌≡◌, ◌≤◌, true, false, length, IfOk, OnOk, OnErr};
ghost use Rattle.pl_model.specs.Numbers.{last_call, most_descriptors};
ghost use Rattle.pl_state.specs.Contents.{IsProcess};
ghost use Rattle.pl_state.specs.Parking.{with_call};
ghost use Rattle.pl_state.specs.Makes.{MakesAtKeys, MayWantAtKeys};
ghost use Rattle.pl_polls.specs.declared.masks.Descriptions.TheVariants.{Named};
ghost use Rattle.pl_polls.specs.Waiting.{keys_named, poll_of};

use crate::masks::{Descriptions, is_ready, masks_reply};
use pl_desc::Descs;
use pl_model::{Call, Errno, KeyList, PollList, PollMask, Reply, Step};
use pl_parked::ParkedCall;
use pl_state::{KernelState, NoMemory, park};
use std::alloc::{AllocError, Allocator};

// The keys of the descriptions that the entries name.
fn keys_of<A: Allocator + Copy>(
    alloc: A,
    descs: &Descs<A>,
    pid: u32,
    entries: &[(i32, PollMask)],
) -> Result<Vec<usize, A>, AllocError>
    ensures { IfOk result (λ keys. keys.items ≡ keys_named descs.now.tables pid entries.now) }
{
    let mut keys = Vec::with_capacity(alloc, entries.len())?;
    for (fd, _) in entries {
        if let Some(key) = descs.find(pid, *fd) {
            keys.push_reserved(key);
        }
    }
    Ok(keys)
}

/// Parks a poll, all of whose descriptors are negative or open.
pub(crate) fn park_poll<A: Allocator + Copy>(
    kernel: &mut KernelState<A>,
    pid: u32,
    entries: PollList<A>,
) -> Result<u64, NoMemory>
    requires process { IsProcess kernel.old pid }
    requires few { length entries ≤ most_descriptors }
    requires left { ¬ (kernel.old.calls.next ≡ last_call) }
    ensures number { IfOk result (λ number. number ≡ kernel.old.calls.next) }
    ensures ok { OnOk result (kernel.new ≡ with_call kernel.old (poll_of kernel.old.tables pid entries)) }
    ensures err { OnErr result (kernel.new ≡ kernel.old) }
{
    let kept = keys_of(kernel.alloc, &kernel.descs, pid, entries.as_slice())?;
    park(
        kernel,
        ParkedCall {
            pid,
            call: Call::Poll {
                entries,
                wait: true,
            },
            kept: KeyList::from_vec(kept),
            fifo: None,
            taken: 0,
            met: false,
        },
    )
}

/// Tells what each entry's descriptor is ready for, of what is asked of it (POSIX.1-2017, poll): nothing of a negative one, and `NVAL`
/// of one that isn't open; unasked `HUP` of a pipe that is hung, where the description reads, and `ERR` of one without readers, where
/// it writes. A file is ready for what is asked of `IN` and `OUT`. A pipe is ready to be written to once it has room for 4,096
/// bytes.
///
/// The reply is how many masks aren't empty, and all masks; or with `wait`, and where all are empty, a number under which the call
/// waits; or, in this order: `EINVAL` of more than 256 entries; where it would wait, `EAGAIN` if as many calls wait as may, and
/// `CallsSpent` if no number is left. The only error is want of memory. All but a call that is parked leave all as it was.
pub fn poll<A: Allocator + Copy>(
    kernel: &mut KernelState<A>,
    pid: u32,
    entries: PollList<A>,
    wait: bool,
) -> Result<Reply<A>, NoMemory>
    requires { IsProcess kernel.old pid }
    ensures done { IfOk result (λ reply. MakesAtKeys kernel.old (Step.Begin pid (Call.Poll entries wait)) reply kernel.new) }
    ensures undone { OnErr result (kernel.new ≡ kernel.old) }
    ensures wanted { OnErr result (MayWantAtKeys {A = A} kernel.old (Step.Begin pid (Call.Poll entries wait))) }
{
    // A proof learns here what holds of the kernel.
    let _ = &kernel.descs;
    let asked = entries.as_slice();
    if asked.len() > kernel.limits.poll_entries() {
        return Ok(Reply::Fault(Errno::EINVAL));
    }
    let named = Descriptions::Named {
        pid,
        table: kernel.descs.table(pid),
    };
    if !wait || is_ready(kernel, named, asked) {
        return masks_reply(kernel, named, asked);
    }
    if !kernel.can_wait(pid) {
        return Ok(Reply::Fault(Errno::EAGAIN));
    }
    if kernel.parked.spent() {
        return Ok(Reply::CallsSpent);
    }
    let number = park_poll(kernel, pid, entries)?;
    Ok(Reply::Parked(number))
}
