//! The nodes that a step touches, noted before it is made: a call that waits at none of them is left as it was.
ghost use Rattle.std.specs.Prelude.{◌≡◌, ◌||◌, ℕ, true, false, nat_eq, IsSome, Some};
ghost use Rattle.std.specs.Set.{is_member};
ghost use Rattle.std.specs.List.{list_any};
ghost use Rattle.pl_model.specs.declared.calls.Mode.{Mode};
ghost use Rattle.pl_model.specs.declared.flags.OpenFlags.{OpenFlags};
ghost use Rattle.pl_model.specs.Map.{get};
ghost use Rattle.pl_model.specs.Numbered.{numbers};
ghost use Rattle.pl_model.specs.Keys.{Node as KeyNode};
ghost use Rattle.pl_model.specs.Modes.{any_mode};
ghost use Rattle.pl_model.specs.Live.{is_end};
ghost use Rattle.pl_model.specs.State.{named};
ghost use Rattle.pl_model.specs.Touching.{stands_at, names_at, waits_at, has_at, touches, touches_by};
ghost use Rattle.pl_desc.specs.Rows.{at};
ghost use Rattle.pl_state.specs.Contents.{core_of, node_of};
ghost use Rattle.pl_transfers.specs.Again.{FindsAgain};
ghost use Rattle.pl_kernel.specs.ToldNodes.{key_of};
ghost use Rattle.pl_kernel.specs.Index.{IsNoLess, IsTouched, IsTouchedAt, TouchesAll, Touches};

use crate::told_nodes::{node_of_fd, node_of_name};
use pl_model::{Call, Node, Step};
use pl_state::KernelState;
use pl_transfers::ReadAgain;
use pl_waiters::Waiters;
use std::alloc::Allocator;

/// The key of a node in the index. Pipes and files have theirs from one slab.
pub(crate) fn key_of_node(node: Node) -> usize
    ensures { result ≡ key_of (node_of node) }
{
    match node {
        Node::Pipe(pipe) => pipe,
        Node::File(file) => file,
    }
}

// The calls at a node may make progress.
fn touch_node<A: Allocator>(waiters: &mut Waiters<A>, node: Node)
    ensures no_less { IsNoLess waiters.old waiters.new }
    ensures touched { IsTouched waiters.old waiters.new (key_of (node_of node)) }
{
    waiters.touch(key_of_node(node));
}

// The calls at these descriptions may make progress.
fn touch_kept<A: Allocator + Copy>(state: &KernelState<A>, waiters: &mut Waiters<A>, kept: &[usize])
    requires { (key : ℕ) → is_member nat_eq kept.now key ≡ true → IsSome (at state.now.opened key) }
    ensures no_less { IsNoLess waiters.old waiters.new }
    ensures touched { TouchesAll waiters.old waiters.new (λ node. list_any (λ d. is_end any_mode node ((core_of {A = A} state.now).descriptions d)) kept.now) }
{
    // A proof learns here what holds of the kernel.
    let _ = &state.descs;
    for key in kept {
        touch_node(waiters, state.descs.node(*key));
    }
}

// The calls that wait where the call of a number does may make progress, this one too.
fn touch_call<A: Allocator + Copy>(state: &KernelState<A>, waiters: &mut Waiters<A>, number: u64)
    ensures no_less { IsNoLess waiters.old waiters.new }
    ensures touched { TouchesAll waiters.old waiters.new (λ node. waits_at (core_of {A = A} state.now) node (get nat_eq (core_of {A = A} state.now).parked number)) }
{
    // A proof learns here what holds of the kernel.
    let _ = &state.descs;
    let Some(call) = state.parked.get(number) else {
        return;
    };
    touch_kept(state, waiters, call.kept.as_slice());
}

// The key of what a descriptor of a process is open on.
fn key_of_fd<A: Allocator + Copy>(state: &KernelState<A>, pid: u32, fd: i32) -> Option<usize>
    ensures { (node : KeyNode numbers) → names_at (core_of {A = A} state.now) node pid fd ≡ true → result ≡ Some (key_of node) }
{
    // A proof learns here what holds of the kernel.
    let _ = &state.descs;
    let node = node_of_fd(state, pid, fd)?;
    Some(key_of_node(node))
}

// The calls at the key, if it is one, may make progress.
fn touch_key<A: Allocator>(waiters: &mut Waiters<A>, key: Option<usize>)
    ensures no_less { IsNoLess waiters.old waiters.new }
    ensures touched { IsTouchedAt waiters.old waiters.new key }
{
    if let Some(key) = key {
        waiters.touch(key);
    }
}

// The calls at what a descriptor names may make progress.
fn touch_fd<A: Allocator + Copy>(
    state: &KernelState<A>,
    waiters: &mut Waiters<A>,
    pid: u32,
    fd: i32,
)
    ensures no_less { IsNoLess waiters.old waiters.new }
    ensures touched { TouchesAll waiters.old waiters.new (λ node. names_at (core_of {A = A} state.now) node pid fd) }
{
    touch_key(waiters, key_of_fd(state, pid, fd));
}

// The same of two descriptors.
fn touch_fds<A: Allocator + Copy>(
    state: &KernelState<A>,
    waiters: &mut Waiters<A>,
    pid: u32,
    from: i32,
    to: i32,
)
    ensures no_less { IsNoLess waiters.old waiters.new }
    ensures touched { TouchesAll waiters.old waiters.new (λ node. names_at (core_of {A = A} state.now) node pid from || names_at (core_of {A = A} state.now) node pid to) }
{
    touch_fd(state, waiters, pid, from);
    touch_fd(state, waiters, pid, to);
}

// The calls at what a name stands for may make progress.
fn touch_name<A: Allocator + Copy>(state: &KernelState<A>, waiters: &mut Waiters<A>, name: &[u8])
    ensures no_less { IsNoLess waiters.old waiters.new }
    ensures touched { TouchesAll waiters.old waiters.new (λ node. stands_at node (named (core_of {A = A} state.now) name.now)) }
{
    // A proof learns here what holds of the kernel.
    let _ = &state.descs;
    if let Some(node) = node_of_name(state, name) {
        touch_node(waiters, node);
    }
}

// The calls may make progress that wait where a descriptor of the process, or a call of it, is.
fn touch_process<A: Allocator + Copy>(state: &KernelState<A>, waiters: &mut Waiters<A>, pid: u32)
    ensures no_less { IsNoLess waiters.old waiters.new }
    ensures touched { TouchesAll waiters.old waiters.new (λ node. has_at (core_of {A = A} state.now) node pid) }
{
    for fd in 0..state.limits.descriptors() {
        touch_fd(state, waiters, pid, fd as i32);
    }
    let mut from = 0;
    while let Some(number) = state.parked.next_of_process(pid, from) {
        touch_call(state, waiters, number);
        from = number + 1;
    }
}

// The calls may make progress at what the call touches.
fn touch_begin<A: Allocator + Copy>(
    state: &KernelState<A>,
    waiters: &mut Waiters<A>,
    pid: u32,
    call: &Call<A>,
)
    ensures no_less { IsNoLess waiters.old waiters.new }
    ensures touched { TouchesAll waiters.old waiters.new (λ node. touches_by (core_of {A = A} state.now) node pid call.now) }
{
    match call {
        Call::OpenName { name, .. } => touch_name(state, waiters, name.as_slice()),
        Call::Read { fd, .. } => touch_fd(state, waiters, pid, *fd),
        Call::Write { fd, .. } => touch_fd(state, waiters, pid, *fd),
        Call::Splice { from, to, .. } => touch_fds(state, waiters, pid, *from, *to),
        Call::Tee { from, to, .. } => touch_fds(state, waiters, pid, *from, *to),
        Call::Dup2 { target, .. } => touch_fd(state, waiters, pid, *target),
        Call::Close { fd } => touch_fd(state, waiters, pid, *fd),
        Call::Lseek { fd, .. } => touch_fd(state, waiters, pid, *fd),
        Call::SetFl { fd, .. } => touch_fd(state, waiters, pid, *fd),
        Call::SetPipeSz { fd, .. } => touch_fd(state, waiters, pid, *fd),
        Call::Exit => touch_process(state, waiters, pid),
        Call::Pipe { .. }
        | Call::Mkfifo { .. }
        | Call::Poll { .. }
        | Call::Dup { .. }
        | Call::DupFd { .. }
        | Call::GetFl { .. }
        | Call::GetPipeSz { .. }
        | Call::Unlink { .. }
        | Call::Fork => touch_key(waiters, None),
    }
}

// The calls may make progress at what the step touches. Out of line, so that `touch_step` stays short enough to be made in place.
#[inline(never)]
fn touch_by_step<A: Allocator + Copy>(
    state: &KernelState<A>,
    waiters: &mut Waiters<A>,
    step: &Step<A>,
)
    ensures no_less { IsNoLess waiters.old waiters.new }
    ensures touched { TouchesAll waiters.old waiters.new (touches (core_of {A = A} state.now) step.now) }
{
    match step {
        Step::Start => touch_key(waiters, None),
        Step::Begin(pid, call) => touch_begin(state, waiters, *pid, call),
        Step::Resume(number) => touch_call(state, waiters, *number),
        Step::Interrupt(number) => touch_call(state, waiters, *number),
    }
}

/// Notes what a step is about to touch. Where no call waits it touches none.
#[inline(always)]
pub(crate) fn touch_step<A: Allocator + Copy>(
    state: &KernelState<A>,
    waiters: &mut Waiters<A>,
    step: &Step<A>,
)
    ensures { Touches (core_of {A = A} state.now) step.now waiters.old waiters.new }
{
    // A proof learns here what holds of the kernel.
    let _ = &state.descs;
    if state.parked.len() != 0 {
        touch_by_step(state, waiters, step);
    }
}

/// Notes what a call on a descriptor is about to touch.
#[inline(always)]
pub(crate) fn touch_named<A: Allocator + Copy>(
    state: &KernelState<A>,
    waiters: &mut Waiters<A>,
    pid: u32,
    fd: i32,
)
    ensures { (call : Call A) → ((node : KeyNode numbers) → touches_by (core_of {A = A} state.now) node pid call ≡ true → names_at (core_of {A = A} state.now) node pid fd ≡ true) → Touches (core_of {A = A} state.now) (Step.Begin pid call) waiters.old waiters.new }
{
    // A proof learns here what holds of the kernel.
    let _ = &state.descs;
    if state.parked.len() != 0 {
        touch_fd(state, waiters, pid, fd);
    }
}

/// Notes what a call is about to touch that is tried again.
pub(crate) fn touch_again<A: Allocator + Copy>(
    state: &KernelState<A>,
    waiters: &mut Waiters<A>,
    number: u64,
)
    ensures { Touches (core_of {A = A} state.now) (Step.Resume number) waiters.old waiters.new }
{
    touch_call(state, waiters, number);
}

/// The same of a read that waits.
#[inline(always)]
pub(crate) fn touch_read_again<A: Allocator + Copy>(
    state: &KernelState<A>,
    waiters: &mut Waiters<A>,
    number: u64,
    read: ReadAgain,
)
    requires { FindsAgain {A = A} state.now number read }
    ensures { Touches (core_of {A = A} state.now) (Step.Resume number) waiters.old waiters.new }
{
    // A proof learns here what holds of the kernel.
    let _ = &state.descs;
    touch_node(waiters, Node::Pipe(read.pipe));
}
