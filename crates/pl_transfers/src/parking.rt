//! How a call comes to wait.
ghost use Rattle.std.specs.Prelude.{◌≡◌, ◌+◌, [], ◌∷◌, ◌++◌, IfOk, OnOk, OnErr};
ghost use Rattle.pl_model.specs.Numbers.{last_call};
ghost use Rattle.pl_state.specs.Parking.{call_on};

use pl_model::{Call, KeyList};
use pl_parked::{Parked, ParkedCall};
use pl_state::NoMemory;
use std::alloc::Allocator;

/// Parks a call that waits on the description of a key, under the next number, which is answered. The caller holds the
/// description for it.
pub(crate) fn park_call<A: Allocator + Copy>(
    parked: &mut Parked<A>,
    pid: u32,
    call: Call<A>,
    key: usize,
    taken: u32,
) -> Result<u64, NoMemory>
    requires { ¬ (parked.old.next ≡ last_call) }
    ensures number { IfOk result (λ number. number ≡ parked.old.next) }
    ensures ok { OnOk result (parked.new ≡ record { calls = parked.old.calls ++ (parked.old.next, call_on key pid call taken) ∷ []; next = parked.old.next + 1 }) }
    ensures err { OnErr result (parked.new ≡ parked.old) }
{
    let Ok(number) = parked.park(ParkedCall {
        pid,
        call,
        kept: KeyList::from(key),
        fifo: None,
        taken,
        met: false,
    }) else {
        return Err(NoMemory);
    };
    Ok(number)
}
