//! How a poll that waits is tried again, and whether it can get on.
ghost use Rattle.std.specs.Prelude.{◌≡◌, nat_eq, IfOk, OnErr, IfSome};
ghost use Rattle.pl_model.specs.Map.{get};
ghost use Rattle.pl_model.specs.Waking.{can_progress};
ghost use Rattle.pl_state.specs.Contents.{core_of};
ghost use Rattle.pl_state.specs.Sound.{IsPoll};
ghost use Rattle.pl_state.specs.Makes.{MakesAtKeys, MayWantAtKeys};

use crate::masks::{Descriptions, is_ready, masks_reply};
use pl_model::{Call, Reply, Step};
use pl_state::{KernelState, NoMemory, end_call};
use std::alloc::Allocator;

/// Tries the parked poll of a number again, on the descriptions that it keeps (POSIX.1-2017, poll). The reply is what it comes to, its
/// number where it waits on, or `NoCall` where there is none.
///
/// The only error is want of memory, which leaves all as it was, the call parked.
pub fn resume_poll<A: Allocator + Copy>(
    kernel: &mut KernelState<A>,
    number: u64,
) -> Result<Reply<A>, NoMemory>
    requires { IfSome (get nat_eq kernel.old.calls.calls number) (λ w. IsPoll w.call) }
    ensures done { IfOk result (λ reply. MakesAtKeys kernel.old (Step.Resume number) reply kernel.new) }
    ensures undone { OnErr result (kernel.new ≡ kernel.old) }
    ensures wanted { OnErr result (MayWantAtKeys {A = A} kernel.old (Step.Resume number)) }
{
    let Some(call) = kernel.parked.get(number) else {
        return Ok(Reply::NoCall);
    };
    let Call::Poll { entries, .. } = &call.call else {
        unreachable!()
    };
    let kept = Descriptions::Kept(call.kept.as_slice());
    if !is_ready(kernel, kept, entries.as_slice()) {
        return Ok(Reply::Parked(number));
    }
    let reply = masks_reply(kernel, kept, entries.as_slice())?;
    end_call(kernel, number);
    Ok(reply)
}

/// Whether the parked poll of a number can get on where it is tried again now: something that it asks for is there. Where there is no such
/// call, the answer comes at once too. It takes no memory.
pub fn poll_can_progress<A: Allocator + Copy>(kernel: &KernelState<A>, number: u64) -> bool
    requires { IfSome (get nat_eq kernel.now.calls.calls number) (λ w. IsPoll w.call) }
    ensures { result ≡ can_progress (core_of {A = A} kernel.now) number }
{
    // A proof learns here what holds of the kernel.
    let _ = &kernel.descs;
    let Some(call) = kernel.parked.get(number) else {
        return true;
    };
    let Call::Poll { entries, .. } = &call.call else {
        unreachable!()
    };
    let kept = Descriptions::Kept(call.kept.as_slice());
    is_ready(kernel, kept, entries.as_slice())
}
