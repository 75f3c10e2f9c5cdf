//! What a parked call waits for.
ghost use Rattle.std.specs.Prelude.{◌≡◌, nat_eq, IfSome, IfNone, None};
ghost use Rattle.pl_model.specs.Map.{get};
ghost use Rattle.pl_state.specs.Waits.{WaitsAs};

use crate::state::KernelState;
use pl_model::Call;
use std::alloc::Allocator;

/// A splice or a tee that waits.
#[derive(Clone, Copy)]
pub struct WaitingMove {
    /// The key of the description that it takes from.
    pub from: usize,
    /// The offset that was given to take from, if any.
    pub from_offset: Option<u64>,
    /// The key of the description that it gives to.
    pub to: usize,
    /// The offset that was given to give to, if any.
    pub to_offset: Option<u64>,
    /// How many bytes it asks for, at most.
    pub len: u32,
    /// Whether the bytes stay in the pipe that they are taken from.
    pub is_tee: bool,
}

/// What a parked call does as it is tried again, with the keys of the descriptions that it keeps.
#[derive(Clone, Copy)]
pub enum WaitingCall {
    /// It reads at most `n` bytes.
    Read {
        key: usize,
        n: u32,
    },
    /// It writes `length` bytes, of which `taken` went in.
    Write {
        key: usize,
        length: usize,
        taken: u32,
    },
    /// It opens a FIFO for a process, once the other end was opened too.
    Open {
        key: usize,
        pid: u32,
        met: bool,
    },
    /// It is a splice or a tee.
    Move(WaitingMove),
    /// It is a poll, whose entries stand in the call.
    Poll,
}

/// What the parked call of a number waits for. `None` where no call is parked under it.
#[inline(always)]
pub fn waiting_call<A: Allocator + Copy>(
    kernel: &KernelState<A>,
    number: u64,
) -> Option<WaitingCall>
    ensures some { IfSome result (WaitsAs kernel.now number) }
    ensures none { IfNone result (get nat_eq kernel.now.calls.calls number ≡ None) }
{
    let call = kernel.parked.get(number)?;
    let kept = call.kept.as_slice();
    Some(match &call.call {
        Call::Read { n, .. } => WaitingCall::Read {
            key: kept[0],
            n: *n,
        },
        Call::Write { bytes, .. } => WaitingCall::Write {
            key: kept[0],
            length: bytes.as_slice().len(),
            taken: call.taken,
        },
        Call::OpenName { .. } => WaitingCall::Open {
            key: kept[0],
            pid: call.pid,
            met: call.met,
        },
        Call::Splice {
            from_offset,
            to_offset,
            len,
            ..
        } => WaitingCall::Move(WaitingMove {
            from: kept[0],
            from_offset: *from_offset,
            to: kept[1],
            to_offset: *to_offset,
            len: *len,
            is_tee: false,
        }),
        Call::Tee { len, .. } => WaitingCall::Move(WaitingMove {
            from: kept[0],
            from_offset: None,
            to: kept[1],
            to_offset: None,
            len: *len,
            is_tee: true,
        }),
        Call::Poll { .. } => WaitingCall::Poll,
        _ => unreachable!(),
    })
}
