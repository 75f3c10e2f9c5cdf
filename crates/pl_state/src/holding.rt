//! How a call is parked, and the descriptions that it keeps are held.
ghost use Rattle.std.specs.Prelude.{ℕ, ◌≡◌, ◌+◌, ◌≤◌, ◌^◌, IfOk, OnOk, OnErr, IsSome, length, true, nat_eq};
ghost use Rattle.std.specs.Set.{is_member};
ghost use Rattle.pl_model.specs.Numbers.{last_call};
ghost use Rattle.pl_desc.specs.Rows.{at, count_at};
ghost use Rattle.pl_desc.specs.Descs.{IsTidy};
ghost use Rattle.pl_state.specs.Contents.{IsProcess};
ghost use Rattle.pl_state.specs.Parking.{with_call};
ghost use Rattle.pl_state.specs.Sound.{IsWaiting, KeepsNodes, times};

use crate::state::KernelState;
use pl_desc::Descs;
use pl_model::NoMemory;
use pl_parked::ParkedCall;
use std::alloc::Allocator;

/// Adds a loose hold of each of these descriptions, as many as times it stands among them. It takes no memory.
pub fn hold_all<A: Allocator + Copy>(descs: &mut Descs<A>, keys: &[usize])
    requires here { (key : ℕ) → is_member nat_eq keys.now key ≡ true → IsSome (at descs.old.opened key) }
    requires few { (key : ℕ) → count_at descs.old.loose key + length keys.now ≤ 2 ^ 100 }
    requires tidy { IsTidy descs.old }
    ensures loose { (key : ℕ) → count_at descs.new.loose key ≡ count_at descs.old.loose key + times keys.now key }
    ensures rest { descs.new ≡ record descs.old { loose = descs.new.loose } }
    ensures tidy { IsTidy descs.new }
{
    for place in 0..keys.len() {
        descs.hold(keys[place]);
    }
}

/// Parks a call under the next number, which is answered, and holds the descriptions that it keeps. They are open, and the call is of a
/// process that is there.
///
/// The only error is want of memory, which leaves all as it was.
pub fn park<A: Allocator + Copy>(
    kernel: &mut KernelState<A>,
    call: ParkedCall<A>,
) -> Result<u64, NoMemory>
    requires process { IsProcess kernel.old call.pid }
    requires left { ¬ (kernel.old.calls.next ≡ last_call) }
    requires here { (key : ℕ) → is_member nat_eq call.kept key ≡ true → IsSome (at kernel.old.opened key) }
    requires nodes { KeepsNodes (at kernel.old.opened) call }
    requires waits { IsWaiting A call }
    ensures number { IfOk result (λ number. number ≡ kernel.old.calls.next) }
    ensures ok { OnOk result (kernel.new ≡ with_call kernel.old call) }
    ensures unchanged { OnErr result (kernel.new ≡ kernel.old) }
{
    let Ok(number) = kernel.parked.park(call) else {
        return Err(NoMemory);
    };
    let call = kernel.parked.get(number).unwrap();
    hold_all(&mut kernel.descs, call.kept.as_slice());
    Ok(number)
}
