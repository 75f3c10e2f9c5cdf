//! How a splice and a tee that wait are tried again, and whether they can make progress.
ghost use Rattle.std.specs.Prelude.{◌≡◌, IfOk, OnErr, IsSome};
ghost use Rattle.pl_model.specs.Waking.{can_progress};
ghost use Rattle.pl_desc.specs.Rows.{at};
ghost use Rattle.pl_state.specs.Contents.{core_of};
ghost use Rattle.pl_state.specs.Opens.{OpenOn};
ghost use Rattle.pl_state.specs.Makes.{MakesAtKeys, MayWantAtKeys};
ghost use Rattle.pl_state.specs.Waits.{MoveIsKept};
ghost use Rattle.pl_splices.specs.Waits.{WaitsToMove};
ghost use Rattle.pl_splices.specs.Shares.{SharesByStep};

use crate::moving::try_move;
use crate::sides::{Side, either_is_packet, source_of, target_of};
use pl_decisions::case_of_move;
use pl_model::{MoveCase, Reply, Step};
use pl_state::{KernelState, NoMemory, WaitingMove, end_call};
use std::alloc::Allocator;

/// The two sides of a splice or a tee that waits.
#[derive(Clone, Copy)]
pub(crate) struct Sides {
    pub(crate) from: Side,
    pub(crate) to: Side,
}

// The side of a description that a call keeps.
fn kept_side<A: Allocator + Copy>(kernel: &KernelState<A>, key: usize, given: Option<u64>) -> Side
    requires { IsSome (at kernel.now.opened key) }
    ensures key { result.key ≡ key }
    ensures given { result.given ≡ given }
    ensures on { OpenOn kernel.now key result.node }
{
    Side {
        key,
        node: kernel.descs.node(key),
        given,
    }
}

// The sides of the splice or the tee that waits under a number.
fn sides_of<A: Allocator + Copy>(
    kernel: &KernelState<A>,
    number: u64,
    waiting: WaitingMove,
) -> Sides
    requires { MoveIsKept kernel.now number waiting }
    ensures { WaitsToMove kernel.now number waiting result }
{
    // A proof learns here what holds of the kernel.
    let _ = &kernel.descs;
    Sides {
        from: kept_side(kernel, waiting.from, waiting.from_offset),
        to: kept_side(kernel, waiting.to, waiting.to_offset),
    }
}

/// Tries the parked splice or tee of a number again. The reply is what it comes to, or its number where it waits on.
///
/// The only error is want of memory, which leaves all as it was, the call parked.
pub fn resume_move<A: Allocator + Copy>(
    kernel: &mut KernelState<A>,
    number: u64,
    waiting: WaitingMove,
) -> Result<Reply<A>, NoMemory>
    requires { MoveIsKept kernel.old number waiting }
    ensures done { IfOk result (λ reply. MakesAtKeys kernel.old (Step.Resume number) reply kernel.new) }
    ensures shares { SharesByStep {A = A} kernel.old (Step.Resume number) kernel.new }
    ensures undone { OnErr result (kernel.new ≡ kernel.old) }
    ensures wanted { OnErr result (MayWantAtKeys {A = A} kernel.old (Step.Resume number)) }
{
    // A proof learns here what holds of the kernel.
    let _ = &kernel.descs;
    let Sides { from, to } = sides_of(kernel, number, waiting);
    let Some(reply) = try_move(kernel, from, to, waiting.len, waiting.is_tee)? else {
        return Ok(Reply::Parked(number));
    };
    end_call(kernel, number);
    Ok(reply)
}

/// Whether the parked splice or tee of a number can make progress where it is tried again now: bytes go over, or it is answered without. It
/// takes no memory.
pub fn move_can_progress<A: Allocator + Copy>(
    kernel: &KernelState<A>,
    number: u64,
    waiting: WaitingMove,
) -> bool
    requires { MoveIsKept kernel.now number waiting }
    ensures { result ≡ can_progress (core_of {A = A} kernel.now) number }
{
    // A proof learns here what holds of the kernel.
    let _ = &kernel.descs;
    let Sides { from, to } = sides_of(kernel, number, waiting);
    if either_is_packet(kernel, from, to) {
        return true;
    }
    let source = source_of(kernel, from);
    let target = target_of(kernel, to);
    match case_of_move(source, target, waiting.len as usize) {
        MoveCase::Broken => true,
        MoveCase::EndOfInput => true,
        MoveCase::Waits => false,
        MoveCase::TooBig => true,
        MoveCase::Moves(_count) => true,
    }
}
