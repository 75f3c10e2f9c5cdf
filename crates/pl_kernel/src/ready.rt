//! Which call that waits can make progress next, by the index.
ghost use Rattle.std.specs.Prelude.{◌≡◌, ◌≤◌, ◌<◌, ◌+◌, ℕ, true, false, nat_eq, length, IsSome, IfSome, IfNone, None};
ghost use Rattle.pl_state.specs.Contents.{core_of};
ghost use Rattle.pl_kernel.specs.Progress.{is_ready, IsLeastFrom};
ghost use Rattle.pl_kernel.specs.Asking.{FindsBelow};
ghost use Rattle.pl_kernel.specs.Index.{Knows};

use crate::asking::{ask_all, first_ready, first_ready_from, settle};
use crate::placing::look_at_new;
use pl_state::KernelState;
use pl_waiters::Waiters;
use std::alloc::Allocator;

/// Where no more calls wait, asking each costs no more than the index.
pub(crate) const FEW: usize = 4;

// The index begins anew where few calls wait, and most that it holds are of calls that ended.
fn renew<A: Allocator + Copy>(state: &KernelState<A>, waiters: &mut Waiters<A>)
    requires { Knows (core_of {A = A} state.now) waiters.old }
    ensures { Knows (core_of {A = A} state.now) waiters.new }
{
    // Twice the places that so few calls can have: where the index holds more, most are of calls that ended.
    let most = 2 * FEW * state.limits.poll_entries();
    let is_worn = state.parked.len() <= FEW && waiters.len() > most;
    if is_worn {
        *waiters = Waiters::new(state.alloc);
    }
}

// The least number, `from` or above, of a call that can make progress, by what was found of those that were looked at. The others, of which there
// are few, are asked one after another.
fn or_of_new<A: Allocator + Copy>(
    state: &KernelState<A>,
    looked: u64,
    from: u64,
    found: Option<u64>,
) -> Option<u64>
    requires { FindsBelow (core_of {A = A} state.now) from looked found }
    ensures { IsLeastFrom (is_ready (core_of {A = A} state.now)) from result }
{
    match found {
        Some(number) if number < looked => Some(number),
        _ => ask_all(state, from.max(looked)),
    }
}

/// The least number, `from` or above, of a parked call that can make progress. It asks the nodes that were touched since the last time, and of
/// the calls of each queue there the first one. It asks all that wait if they are few. What calls that ended left in the index is given back, where
/// they were many and few wait.
pub(crate) fn next_ready<A: Allocator + Copy>(
    state: &KernelState<A>,
    waiters: &mut Waiters<A>,
    from: u64,
) -> Option<u64>
    requires { Knows (core_of {A = A} state.now) waiters.old }
    ensures least { IsLeastFrom (is_ready (core_of {A = A} state.now)) from result }
    ensures knows { Knows (core_of {A = A} state.now) waiters.new }
{
    // A proof learns here what holds of the kernel.
    let _ = &state.descs;
    renew(state, waiters);
    if state.parked.len() <= FEW {
        return ask_all(state, from);
    }
    look_at_new(state, waiters);
    let asked = settle(state, waiters);
    let looked = waiters.looked();
    let found = if from == 0 {
        first_ready(state, waiters, asked)
    } else {
        first_ready_from(state, waiters, from)
    };
    or_of_new(state, looked, from, found)
}
