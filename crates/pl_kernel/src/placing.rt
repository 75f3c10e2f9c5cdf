//! Calls that began to wait are placed in their queues.
ghost use Rattle.std.specs.Prelude.{◌≡◌, ◌≤◌, ◌+◌, ℕ, true, nat_eq, IsSome, IfSome, IfNone, OnSome, None, [], ◌∷◌, option_map};
ghost use Rattle.std.specs.List.{flat_map};
ghost use Rattle.std.specs.Set.{is_member};
ghost use Rattle.pl_model.specs.Map.{get};
ghost use Rattle.pl_desc.specs.Rows.{at};
ghost use Rattle.pl_state.specs.Contents.{core_of, node_of};
ghost use Rattle.pl_kernel.specs.ToldNodes.{key_of};
ghost use Rattle.pl_kernel.specs.Asking.{Prunes};
ghost use Rattle.pl_kernel.specs.Queues.{ends, place_in, end_of, entry_place, poll_places, move_places, places, is_skipped, are_kept, is_placed};
ghost use Rattle.pl_kernel.specs.Index.{Knows, Adds};

use crate::asking::{drop_ended, drop_if_ended};
use crate::queue::{queue_of, queue_of_entry, queue_of_source, queue_of_target};
use crate::ready::FEW;
use crate::touch::key_of_node;
use pl_model::{Call, Node, PollMask};
use pl_parked::Parked;
use pl_state::KernelState;
use pl_waiters::{Waiter, Waiters};
use std::alloc::Allocator;

/// Where so many calls were parked since calls got places, the next do.
const MOST_NEW: u64 = 6;

// The least number, `from` or above, of the calls that wait. Mostly it is `from`, or there is none.
fn next_new<A: Allocator>(parked: &Parked<A>, from: u64) -> Option<u64>
    ensures parked { IfSome result (λ number. (from ≤ number) × IsSome (get nat_eq parked.now.calls number)) }
    ensures least { IfSome result (λ number. (other : ℕ) → from ≤ other → IsSome (get nat_eq parked.now.calls other) → number ≤ other) }
    ensures none { IfNone result ((number : ℕ) → from ≤ number → get nat_eq parked.now.calls number ≡ None) }
{
    if from >= parked.next_number() {
        return None;
    }
    if parked.get(from).is_some() {
        return Some(from);
    }
    parked.next_from(from)
}

// The call that has the plain place of a node leaves it, if it ended.
fn drop_one<A: Allocator + Copy>(state: &KernelState<A>, waiters: &mut Waiters<A>, node: usize)
    ensures { Prunes (core_of {A = A} state.now) waiters.old waiters.new }
{
    let Some(one) = waiters.one_at(node) else {
        return;
    };
    let _ended = drop_if_ended(state, waiters, &one);
}

// The call of a number waits in a queue of a node, which is to be asked. The one call that has the plain place of the node leaves it, if it ended.
// Returns whether there was memory for it, as the functions after it do.
fn place_node<A: Allocator + Copy>(
    state: &KernelState<A>,
    waiters: &mut Waiters<A>,
    node: Node,
    queue: u64,
    number: u64,
) -> bool
    ensures { Adds (core_of {A = A} state.now) waiters.old waiters.new number ((key_of (node_of node), queue) ∷ []) result }
{
    let node = key_of_node(node);
    drop_one(state, waiters, node);
    let call = Waiter {
        node,
        queue,
        number,
    };
    if waiters.add(call).is_err() {
        return false;
    }
    waiters.touch(node);
    true
}

// The call of a number waits in a queue of the nodes of these descriptions.
fn place_kept<A: Allocator + Copy>(
    state: &KernelState<A>,
    waiters: &mut Waiters<A>,
    kept: &[usize],
    queue: u64,
    number: u64,
) -> bool
    requires described { (key : ℕ) → is_member nat_eq kept.now key ≡ true → IsSome (at state.now.opened key) }
    requires parked { IsSome (get nat_eq (core_of {A = A} state.now).parked number) }
    ensures { Adds (core_of {A = A} state.now) waiters.old waiters.new number (flat_map (place_in queue) (ends (core_of {A = A} state.now) kept.now)) result }
{
    // A proof learns here what holds of the kernel.
    let _ = &state.descs;
    for key in kept {
        if !place_node(state, waiters, state.descs.node(*key), queue, number) {
            return false;
        }
    }
    true
}

// The splice or the tee of a number waits at the nodes of these two descriptions.
fn place_move<A: Allocator + Copy>(
    state: &KernelState<A>,
    waiters: &mut Waiters<A>,
    kept: &[usize],
    number: u64,
) -> bool
    requires described { (key : ℕ) → is_member nat_eq kept.now key ≡ true → IsSome (at state.now.opened key) }
    requires parked { IsSome (get nat_eq (core_of {A = A} state.now).parked number) }
    ensures { Adds (core_of {A = A} state.now) waiters.old waiters.new number (move_places (ends (core_of {A = A} state.now) kept.now)) result }
{
    // A proof learns here what holds of the kernel.
    let _ = &state.descs;
    if kept.len() < 2 {
        return true;
    }
    let from = state.descs.node(kept[0]);
    let to = state.descs.node(kept[1]);
    if !place_node(state, waiters, from, queue_of_source(from, to), number) {
        return false;
    }
    place_node(state, waiters, to, queue_of_target(from, to), number)
}

// The poll of a number waits at the node of a description, of which it asks this.
fn place_entry<A: Allocator + Copy>(
    state: &KernelState<A>,
    waiters: &mut Waiters<A>,
    key: usize,
    asked: PollMask,
    number: u64,
) -> bool
    requires { IsSome (at state.now.opened key) }
    ensures { Adds (core_of {A = A} state.now) waiters.old waiters.new number (entry_place asked (option_map end_of ((core_of {A = A} state.now).descriptions key))) result }
{
    // A proof learns here what holds of the kernel.
    let _ = &state.descs;
    let node = state.descs.node(key);
    let queue = queue_of_entry(node, state.descs.mode(key), asked);
    place_node(state, waiters, node, queue, number)
}

// Whether a poll skips an entry with this descriptor (POSIX.1-2017, poll).
fn is_skipped(fd: i32) -> bool
    ensures { result ≡ is_skipped fd }
{
    fd < 0
}

// The poll of a number waits where its entries ask something. A poll of which an entry kept nothing would get no place.
fn place_poll<A: Allocator + Copy>(
    state: &KernelState<A>,
    waiters: &mut Waiters<A>,
    entries: &[(i32, PollMask)],
    kept: &[usize],
    number: u64,
) -> bool
    requires described { (key : ℕ) → is_member nat_eq kept.now key ≡ true → IsSome (at state.now.opened key) }
    requires parked { IsSome (get nat_eq (core_of {A = A} state.now).parked number) }
    ensures adds { Adds (core_of {A = A} state.now) waiters.old waiters.new number (poll_places entries.now (ends (core_of {A = A} state.now) kept.now)) result }
    ensures whole { result ≡ true → are_kept entries.now (ends (core_of {A = A} state.now) kept.now) ≡ true }
{
    // A proof learns here what holds of the kernel.
    let _ = &state.descs;
    let mut before = 0;
    for (fd, asked) in entries {
        if is_skipped(*fd) {
            continue;
        }
        if before >= kept.len() {
            return false;
        }
        if !place_entry(state, waiters, kept[before], *asked, number) {
            return false;
        }
        before += 1;
    }
    true
}

// The call of a number is placed in its queues.
fn place<A: Allocator + Copy>(
    state: &KernelState<A>,
    waiters: &mut Waiters<A>,
    call: &Call<A>,
    kept: &[usize],
    number: u64,
) -> bool
    requires described { (key : ℕ) → is_member nat_eq kept.now key ≡ true → IsSome (at state.now.opened key) }
    requires parked { IsSome (get nat_eq (core_of {A = A} state.now).parked number) }
    ensures adds { Adds (core_of {A = A} state.now) waiters.old waiters.new number (places call.now (ends (core_of {A = A} state.now) kept.now)) result }
    ensures whole { result ≡ true → is_placed call.now (ends (core_of {A = A} state.now) kept.now) ≡ true }
{
    match call {
        Call::Poll { entries, .. } => place_poll(state, waiters, entries.as_slice(), kept, number),
        Call::Splice { .. } | Call::Tee { .. } => place_move(state, waiters, kept, number),
        _ => place_kept(state, waiters, kept, queue_of(call), number),
    }
}

// The first call that wasn't looked at is placed in its queues. Returns in how many it was placed, at most; or `None` if there is no memory for them.
fn look_at<A: Allocator + Copy>(
    state: &KernelState<A>,
    waiters: &mut Waiters<A>,
    number: u64,
) -> Option<usize>
    requires knows { Knows (core_of {A = A} state.now) waiters.old }
    requires from { waiters.old.looked ≤ number }
    requires parked { IsSome (get nat_eq state.now.calls.calls number) }
    requires first { (other : ℕ) → waiters.old.looked ≤ other → IsSome (get nat_eq state.now.calls.calls other) → number ≤ other }
    ensures knows { Knows (core_of {A = A} state.now) waiters.new }
    ensures looked { OnSome result (waiters.new.looked ≡ number + 1) }
{
    // A proof learns here what holds of the kernel.
    let _ = &state.descs;
    // A proof learns here that a number is never the greatest of its type.
    let _next = state.parked.next_number();
    let Some(call) = state.parked.get(number) else {
        return None;
    };
    let kept = call.kept.as_slice();
    if !place(state, waiters, &call.call, kept, number) {
        return None;
    }
    waiters.look_to(number + 1);
    Some(kept.len())
}

/// The calls that were parked since the last time are placed in their queues. Where memory runs out, the first that has none and those after it
/// aren't looked at.
pub(crate) fn look_at_new<A: Allocator + Copy>(state: &KernelState<A>, waiters: &mut Waiters<A>)
    requires { Knows (core_of {A = A} state.now) waiters.old }
    ensures { Knows (core_of {A = A} state.now) waiters.new }
{
    while let Some(number) = next_new(&state.parked, waiters.looked()) {
        let Some(placed) = look_at(state, waiters, number) else {
            return;
        };
        drop_ended(state, waiters, placed);
    }
    waiters.look_to(state.parked.next_number());
}

/// The calls that were parked since the last time are placed in their queues, unless few wait, and a few more may be parked. Returns at which next
/// number that is to be done again: before no more may be parked, and not before one more was.
pub(crate) fn make_places<A: Allocator + Copy>(
    state: &mut KernelState<A>,
    waiters: &mut Waiters<A>,
) -> u64
    requires { Knows (core_of {A = A} state.old) waiters.old }
    ensures knows { Knows (core_of {A = A} state.new) waiters.new }
    ensures same { state.new ≡ state.old }
{
    let next = state.parked.next_number();
    let placed = if state.parked.len() > FEW {
        look_at_new(state, waiters);
        waiters.looked()
    } else {
        next.saturating_sub(FEW as u64)
    };
    state.parked.place_below(placed);
    placed.saturating_add(MOST_NEW).max(next.saturating_add(1))
}
