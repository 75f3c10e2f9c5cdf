//! The calls in the queues of the index are asked which of them can make progress.
ghost use Rattle.std.specs.Prelude.{◌≡◌, ◌≤◌, ◌<◌, ◌^◌, ℕ, true, false, not, nat_eq, is_some, IsSome, IfSome, IfNone, Some};
ghost use Rattle.pl_model.specs.Map.{get};
ghost use Rattle.pl_state.specs.Contents.{core_of};
ghost use Rattle.pl_state.specs.Waits.{WaitsAs};
ghost use Rattle.pl_kernel.specs.Progress.{is_ready, IsLeastFrom};
ghost use Rattle.pl_waiters.specs.Queue.{IsBefore};
ghost use Rattle.pl_waiters.specs.Seen.{stands, is_touched, SameTouched, SameKnown};
ghost use Rattle.pl_least.specs.Numbers.{has_place};
ghost use Rattle.pl_kernel.specs.Index.{Knows, KnowsBut, is_open};
ghost use Rattle.pl_kernel.specs.Queues.{polls_of_pipes, is_polls, finds};
ghost use Rattle.pl_kernel.specs.Asking.{AreUnderstood, Prunes, Covers, CoversNode, FindsBelow, IsDone, IsPast, lesser_of, number_if, answered_to};

use crate::queue::{OTHERS, POLLS, asked_by, found_of_file, is_of_polls, last_answered, mode_of};
use crate::steps::{call_can_progress, can_progress};
use pl_polls::end_is_ready;
use pl_state::{KernelState, WaitingCall, waiting_call};
use pl_waiters::{Waiter, Waiters};
use std::alloc::Allocator;

/// What a call comes to that is asked.
#[derive(Clone, Copy)]
pub(crate) enum Found {
    /// It ended, and was taken out of its queue.
    Gone,
    /// It can't make progress.
    Stuck,
    /// It can.
    Ready,
}

/// Takes a call out of its queue, if it ended. Returns whether it did.
pub(crate) fn drop_if_ended<A: Allocator + Copy>(
    state: &KernelState<A>,
    waiters: &mut Waiters<A>,
    call: &Waiter,
) -> bool
    ensures prunes { Prunes (core_of {A = A} state.now) waiters.old waiters.new }
    ensures ended { result ≡ not (is_some (get nat_eq (core_of {A = A} state.now).parked call.now.number)) }
{
    // A proof learns here what holds of the kernel.
    let _ = &state.descs;
    if state.parked.get(call.number).is_some() {
        return false;
    }
    waiters.remove(call);
    true
}

/// Takes some of the calls that ended out of their queues, where they may be more than those that wait: twice as many are looked at as were
/// placed since the last time, so that those that ended stay fewer than those that were placed.
pub(crate) fn drop_ended<A: Allocator + Copy>(
    state: &KernelState<A>,
    waiters: &mut Waiters<A>,
    placed: usize,
)
    requires { Knows (core_of {A = A} state.now) waiters.old }
    ensures knows { Knows (core_of {A = A} state.now) waiters.new }
    ensures known { SameKnown waiters.old waiters.new }
{
    if waiters.len() / 2 <= state.parked.len() {
        return;
    }
    for _ in 0..placed.saturating_mul(2) {
        let Some(next) = waiters.sweep() else {
            return;
        };
        let _ended = drop_if_ended(state, waiters, &next);
    }
}

// Whether the polls of a queue find something of the node of a key.
fn finds<A: Allocator + Copy>(state: &KernelState<A>, key: usize, queue: u64) -> bool
    requires polls { is_polls queue ≡ true }
    requires there { polls_of_pipes ≤ queue → IsSome ((core_of {A = A} state.now).pipes key) }
    ensures { result ≡ finds (core_of {A = A} state.now) key queue }
{
    let kind = queue - POLLS;
    if let Some(found) = found_of_file(kind) {
        return found;
    }
    end_is_ready(state, key, mode_of(kind), asked_by(kind))
}

// Whether a call that waits so can make progress for the sake of its queue.
#[inline(always)]
fn is_open<A: Allocator + Copy>(state: &KernelState<A>, call: &Waiter, waiting: WaitingCall) -> bool
    requires waits { WaitsAs state.now call.now.number waiting }
    requires there { is_polls call.now.queue ≡ true → polls_of_pipes ≤ call.now.queue → IsSome ((core_of {A = A} state.now).pipes call.now.node) }
    ensures { result ≡ is_open (core_of {A = A} state.now) call.now }
{
    // A proof learns here what holds of the kernel.
    let _ = &state.descs;
    if is_of_polls(call.queue) {
        finds(state, call.node, call.queue)
    } else {
        call_can_progress(state, call.number, waiting)
    }
}

// Asks a call that stands in a queue whether it can make progress for the sake of that queue.
fn ask<A: Allocator + Copy>(
    state: &KernelState<A>,
    waiters: &mut Waiters<A>,
    call: &Waiter,
) -> Found
    requires there { IsSome (get nat_eq (core_of {A = A} state.now).parked call.now.number) → is_polls call.now.queue ≡ true → polls_of_pipes ≤ call.now.queue → IsSome ((core_of {A = A} state.now).pipes call.now.node) }
    ensures prunes { Prunes (core_of {A = A} state.now) waiters.old waiters.new }
    ensures ready { result ≡ Found.Ready → is_open (core_of {A = A} state.now) call.now ≡ true }
    ensures stuck { result ≡ Found.Stuck → (IsSome (get nat_eq (core_of {A = A} state.now).parked call.now.number) × (is_open (core_of {A = A} state.now) call.now ≡ false)) }
    ensures gone { result ≡ Found.Gone → is_open (core_of {A = A} state.now) call.now ≡ false }
{
    // A proof learns here what holds of the kernel.
    let _ = &state.descs;
    let Some(waiting) = waiting_call(state, call.number) else {
        waiters.remove(call);
        return Found::Gone;
    };
    if is_open(state, call, waiting) {
        Found::Ready
    } else {
        Found::Stuck
    }
}

// The number of a call that was asked, if it can make progress.
fn number_if_ready(found: Found, number: u64) -> Option<u64>
    ensures { result ≡ number_if found number }
{
    match found {
        Found::Ready => Some(number),
        Found::Stuck | Found::Gone => None,
    }
}

// Up to which queue what a call comes to answers for the calls from there on, if it does: those of its queue after one that is ready have
// greater numbers, and where all are alike the others are stuck too.
fn answered_to(found: Found, queue: u64) -> Option<u64>
    ensures { result ≡ answered_to found queue }
{
    match found {
        Found::Ready => Some(queue),
        Found::Stuck if queue != OTHERS => Some(last_answered(queue)),
        Found::Stuck | Found::Gone => None,
    }
}

// The place from which the asking goes on: after the call, or after the last queue for which it answered, if it did.
fn after(call: &Waiter, last: Option<u64>) -> Option<Waiter>
    requires { IfSome last (λ last. call.now.queue ≤ last) }
    ensures some { IfSome result (λ key. (key.node ≡ call.now.node) × IsPast key.queue key.number call.now last) }
    ensures on { IfSome result (λ key. IsBefore call.now.queue call.now.number key) }
    ensures none { IfNone result ((queue number : ℕ) → queue < 2 ^ 64 → number < 2 ^ 64 → IsDone call.now last queue number) }
{
    if last.is_none() {
        if let Some(number) = call.number.checked_add(1) {
            return Some(Waiter { number, ..*call });
        }
    }
    let last = last.unwrap_or(call.queue);
    Some(Waiter {
        queue: last.checked_add(1)?,
        number: 0,
        ..*call
    })
}

// The lesser one of two numbers, where there are any.
fn lesser(one: Option<u64>, other: Option<u64>) -> Option<u64>
    ensures { result ≡ lesser_of one other }
{
    match (one, other) {
        (Some(one), Some(other)) => Some(one.min(other)),
        (None, other) => other,
        (one, None) => one,
    }
}

// The least number, `from` or above, of the calls at a node that can make progress. Of a queue in which all are alike the first call is asked for
// all. Calls that ended are taken out of their queues as they are found.
fn least_at<A: Allocator + Copy>(
    state: &KernelState<A>,
    waiters: &mut Waiters<A>,
    node: usize,
    from: u64,
) -> Option<u64>
    requires { AreUnderstood (core_of {A = A} state.now) waiters.old }
    ensures prunes { Prunes (core_of {A = A} state.now) waiters.old waiters.new }
    ensures some { IfSome result (λ n. (from ≤ n) × (is_ready (core_of {A = A} state.now) n ≡ true)) }
    ensures covers { (queue : ℕ) → queue < 2 ^ 64 → Covers (core_of {A = A} state.now) waiters.old node queue from result }
{
    let mut least = None;
    let mut key = Waiter {
        node,
        queue: 0,
        number: 0,
    };
    while let Some(next) = waiters.first_from(&key) {
        if next.number < from {
            key = Waiter {
                number: from,
                ..next
            };
            continue;
        }
        let found = ask(state, waiters, &next);
        least = lesser(least, number_if_ready(found, next.number));
        let Some(after) = after(&next, answered_to(found, next.queue)) else {
            return least;
        };
        key = after;
    }
    least
}

// Asks a node, but for whose calls all are up that can make progress. Returns the least number of those there that can.
fn ask_node<A: Allocator + Copy>(
    state: &KernelState<A>,
    waiters: &mut Waiters<A>,
    node: usize,
) -> Option<u64>
    requires understood { AreUnderstood (core_of {A = A} state.now) waiters.old }
    requires place { has_place waiters.old.least node }
    requires knows { KnowsBut (core_of {A = A} state.now) waiters.old (Some node) }
    ensures ready { IfSome result (λ n. is_ready (core_of {A = A} state.now) n ≡ true) }
    ensures knows { Knows (core_of {A = A} state.now) waiters.new }
    ensures understood { AreUnderstood (core_of {A = A} state.now) waiters.new }
    ensures fewer { (key : Waiter) → stands waiters.new key ≡ true → stands waiters.old key ≡ true }
    ensures touched { SameTouched waiters.old waiters.new }
    ensures known { SameKnown waiters.old waiters.new }
{
    let least = least_at(state, waiters, node, 0);
    waiters.set_least(node, least);
    least
}

/// Asks the nodes that were touched. Returns the least number that was found there.
pub(crate) fn settle<A: Allocator + Copy>(
    state: &KernelState<A>,
    waiters: &mut Waiters<A>,
) -> Option<u64>
    requires understood { AreUnderstood (core_of {A = A} state.now) waiters.old }
    requires knows { Knows (core_of {A = A} state.now) waiters.old }
    ensures knows { Knows (core_of {A = A} state.now) waiters.new }
    ensures settled { (node : ℕ) → is_touched waiters.new node ≡ false }
    ensures known { SameKnown waiters.old waiters.new }
    ensures ready { IfSome result (λ n. is_ready (core_of {A = A} state.now) n ≡ true) }
{
    let mut least = None;
    while let Some(node) = waiters.take_touched() {
        let found = ask_node(state, waiters, node);
        least = lesser(least, found);
    }
    least
}

// Whether a call waits under the number, and can make progress.
fn is_ready<A: Allocator + Copy>(state: &KernelState<A>, number: u64) -> bool
    ensures { result ≡ is_ready (core_of {A = A} state.now) number }
{
    // A proof learns here what holds of the kernel.
    let _ = &state.descs;
    match waiting_call(state, number) {
        Some(call) => call_can_progress(state, number, call),
        None => false,
    }
}

// The least number, `from` or above, of a parked call that can make progress. It asks all that wait, one after another.
#[inline(never)]
pub(crate) fn ask_all<A: Allocator + Copy>(state: &KernelState<A>, from: u64) -> Option<u64>
    ensures { IsLeastFrom (is_ready (core_of {A = A} state.now)) from result }
{
    let mut least = from;
    while let Some(number) = state.parked.next_from(least) {
        if can_progress(state, number) {
            return Some(number);
        }
        // A proof learns here that a number is never the greatest of its type.
        let _next = state.parked.next_number();
        least = number + 1;
    }
    None
}

// Whether there is a call, and it has this number.
fn is_number(call: Option<u64>, number: u64) -> bool
    ensures { result ≡ true → call ≡ Some number }
{
    match call {
        Some(found) => found == number,
        None => false,
    }
}

/// A call that can make progress, and whose number is at most that of each that was looked at and can, where no node is still to be asked. A node
/// whose call can't make progress any more is asked again, each at most once. `asked` was found since the last step, if it is a call, and isn't asked
/// again.
pub(crate) fn first_ready<A: Allocator + Copy>(
    state: &KernelState<A>,
    waiters: &mut Waiters<A>,
    asked: Option<u64>,
) -> Option<u64>
    requires asked { IfSome asked (λ n. is_ready (core_of {A = A} state.now) n ≡ true) }
    requires understood { AreUnderstood (core_of {A = A} state.now) waiters.old }
    requires settled { (node : ℕ) → is_touched waiters.old node ≡ false }
    requires knows { Knows (core_of {A = A} state.now) waiters.old }
    ensures finds { FindsBelow (core_of {A = A} state.now) 0 waiters.old.looked result }
    ensures knows { Knows (core_of {A = A} state.now) waiters.new }
{
    for _ in 0..waiters.nodes().saturating_add(1) {
        let node = waiters.first_node()?;
        let number = waiters.least_at(node)?;
        if is_number(asked, number) {
            return asked;
        }
        if is_ready(state, number) {
            return Some(number);
        }
        let _least = ask_node(state, waiters, node);
    }
    ask_all(state, 0)
}

// The least number, `from` or above, of the calls at a node that can make progress, if one was found there before.
fn least_if_any<A: Allocator + Copy>(
    state: &KernelState<A>,
    waiters: &mut Waiters<A>,
    node: usize,
    from: u64,
) -> Option<u64>
    requires { AreUnderstood (core_of {A = A} state.now) waiters.old }
    ensures prunes { Prunes (core_of {A = A} state.now) waiters.old waiters.new }
    ensures some { IfSome result (λ n. (from ≤ n) × (is_ready (core_of {A = A} state.now) n ≡ true)) }
    ensures covers { CoversNode (core_of {A = A} state.now) waiters.old node from result }
{
    if waiters.least_at(node).is_none() {
        return None;
    }
    least_at(state, waiters, node, from)
}

/// The same from a number on: the nodes are gone over at which a call was found.
pub(crate) fn first_ready_from<A: Allocator + Copy>(
    state: &KernelState<A>,
    waiters: &mut Waiters<A>,
    from: u64,
) -> Option<u64>
    requires understood { AreUnderstood (core_of {A = A} state.now) waiters.old }
    requires settled { (node : ℕ) → is_touched waiters.old node ≡ false }
    requires knows { Knows (core_of {A = A} state.now) waiters.old }
    ensures finds { FindsBelow (core_of {A = A} state.now) from waiters.old.looked result }
    ensures knows { Knows (core_of {A = A} state.now) waiters.new }
{
    let mut least = None;
    for node in 0..waiters.nodes() {
        let found = least_if_any(state, waiters, node, from);
        least = lesser(least, found);
    }
    least
}
