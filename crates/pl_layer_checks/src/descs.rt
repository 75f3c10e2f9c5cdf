//! Descriptions and processes where there is memory, where a limit is met, and where the Nth request for memory is refused.
ghost use Rattle.std.specs.Prelude.{◌≡◌, ◌<◌, ◌^◌, [], ℕ, IsTrue};
ghost use Rattle.pl_desc.specs.Rows.{is_pid, count_at};

use crate::equal::is;
use pl_desc::{DescLimits, Descs, NoMemory, Released, StartFault};
use pl_model::{Mode, Node, OpenFlags};
use pl_refusing::{MOST_REQUESTS, Refusing, all_were_refused};
use std::alloc::{Allocator, Global};
use std::process::Abort;
use std::test::Fail;

/// The limits that a kernel usually has.
const USUAL: DescLimits = DescLimits {
    descriptors: 256,
    descriptions: 4_096,
    processes: 1_024,
};

fn start_in_order<A: Allocator + Copy>(rt: &impl Abort, descs: &mut Descs<A>) {
    for pid in 1..1_025 {
        is(rt, "started", descs.start(), Ok(pid));
    }
    is(rt, "one more", descs.start(), Err(StartFault::Eagain));
    is(rt, "the last", descs.has(1_024), true);
    is(rt, "before the first", descs.has(0), false);
    is(rt, "past the last", descs.has(1_025), false);
    is(rt, "not open", descs.find(1_024, 255), None);
}

fn reserve_past_all_memory<A: Allocator + Copy>(rt: &impl Abort, descs: &mut Descs<A>) {
    let reserved = descs.reserve(Node::Pipe(usize::MAX), 1);
    is(rt, "reserved", reserved, Err(NoMemory));
    is(rt, "live", descs.live(), 0);
    is(rt, "readers", descs.readers(Node::Pipe(usize::MAX)), 0);
}

/// Copies the table of the only process, whose only description is the only one. A copy that is refused memory leaves nothing behind, and is
/// made again. Answers the pid of the copy.
fn copy_at_last<A: Allocator + Copy>(
    rt: &impl Abort,
    heap: &Refusing<Global>,
    descs: &mut Descs<A>,
    pid: u32,
    node: Node,
) -> Result<u32, StartFault>
    requires process { IsTrue (is_pid descs.old.tables pid) }
    requires few { (key : ℕ) → count_at descs.old.loose key < 2 ^ 100 }
{
    let copied = descs.copy_table(pid);
    is(rt, "a copy", copied.is_ok(), !heap.refused());
    let Err(StartFault::NoMemory) = copied else {
        return copied;
    };
    is(rt, "a process", descs.has(2), false);
    is(rt, "live", descs.live(), 1);
    is(rt, "readers", descs.readers(node), 1);
    is(rt, "still open", descs.find(pid, 0).is_some(), true);
    descs.copy_table(pid)
}

/// A parent opens the only description, and a child has it too, also where the `n`th request of its start is refused at first. Answers its
/// key.
fn fork_with_one<A: Allocator + Copy>(
    rt: &impl Abort,
    heap: &Refusing<Global>,
    descs: &mut Descs<A>,
    node: Node,
    n: u64,
) -> Result<usize, Fail>
    requires { descs.old ≡ record { tables = []; opened = []; loose = []; room = record { descriptions = 0; pipes = 0; files = 0; rows = [] }; limits = record { descriptors = 256; descriptions = 4096; processes = 1024 } } }
{
    let parent = descs.start()?;
    is(rt, "the parent", parent, 1);
    heap.refuse(1);
    is(rt, "no row", descs.reserve_row(parent, 0), Err(NoMemory));
    heap.refuse(0);
    descs.reserve_at(parent, 0, node, 1)?;
    let key = descs.open_reserved(node, Mode::Read, OpenFlags::NONBLOCK);
    is(rt, "readers", descs.readers(node), 1);
    is(rt, "the lowest", descs.lowest(parent, 0), Some(0));
    descs.install(parent, 0, key);
    heap.refuse(n);
    let child = copy_at_last(rt, heap, descs, parent, node)?;
    is(rt, "the child", child, 2);
    Ok(key)
}

/// Closes the first descriptor of a process. Answers the key that it named, and what became of the description.
fn close<A: Allocator + Copy>(descs: &mut Descs<A>, pid: u32) -> Result<(usize, Released), Fail> {
    let named = descs.remove(pid, 0).ok_or("not open")?;
    Ok((named, descs.release(named)))
}

fn close_twice<A: Allocator + Copy>(
    rt: &impl Abort,
    heap: &Refusing<Global>,
    descs: &mut Descs<A>,
    n: u64,
) -> Result<(), Fail>
    requires { descs.old ≡ record { tables = []; opened = []; loose = []; room = record { descriptions = 0; pipes = 0; files = 0; rows = [] }; limits = record { descriptors = 256; descriptions = 4096; processes = 1024 } } }
{
    let node = Node::Pipe(7);
    let key = fork_with_one(rt, heap, descs, node, n)?;
    let gone = Released::Gone {
        node,
        mode: Mode::Read,
        readers: 0,
        writers: 0,
    };
    is(rt, "the parent's", close(descs, 1)?, (key, Released::Still));
    is(rt, "the child's", close(descs, 2)?, (key, gone));
    Ok(())
}

/// Each request for memory of a start is refused, until it makes none more, and then the two of room for a description. They leave no process and nothing open.
fn refuse_each<A: Allocator + Copy>(
    rt: &impl Abort,
    heap: &Refusing<Global>,
    descs: &mut Descs<A>,
) {
    for request in 1..MOST_REQUESTS {
        heap.refuse(request);
        let started = descs.start();
        if !heap.refused() {
            is(rt, "started", started, Ok(1));
            break;
        }
        is(rt, "a start is refused", started, Err(StartFault::NoMemory));
        is(rt, "a process", descs.has(1), false);
    }
    heap.refuse(0);
    is(rt, "the process", descs.has(1), true);
    let node = Node::Pipe(0);
    for request in 1..3u64 {
        heap.refuse(request);
        is(rt, "room", descs.reserve(node, 1), Err(NoMemory));
        is(rt, "room is refused", heap.refused(), true);
        is(rt, "live", descs.live(), 0);
        is(rt, "readers", descs.readers(node), 0);
    }
}

/// Memory is reserved for two, which then are opened without any.
fn reserve<A: Allocator + Copy>(
    rt: &impl Abort,
    heap: &Refusing<Global>,
    descs: &mut Descs<A>,
) -> Result<(), Fail>
    requires { descs.old ≡ record { tables = []; opened = []; loose = []; room = record { descriptions = 0; pipes = 0; files = 0; rows = [] }; limits = record { descriptors = 256; descriptions = 4096; processes = 1024 } } }
{
    let node = Node::Pipe(5);
    heap.refuse(1);
    is(rt, "refused", descs.reserve(node, 2), Err(NoMemory));
    heap.refuse(0);
    descs.reserve(node, 2)?;
    heap.refuse(1);
    let reader = descs.open_reserved(node, Mode::Read, OpenFlags::NONBLOCK);
    let writer = descs.open_reserved(node, Mode::Write, OpenFlags::NONBLOCK);
    is(rt, "another key", reader == writer, false);
    is(rt, "a request is refused", heap.refused(), false);
    is(rt, "live", descs.live(), 2);
    Ok(())
}

/// What is tried on descriptions that are new.
#[derive(Clone, Copy)]
enum Trial {
    StartInOrder,
    ReservePastAllMemory,
    /// Where this request of a fork is refused.
    CloseTwice(u64),
    RefuseEach,
    Reserve,
}

/// Tries it. The descriptions stand here alone, so that the end of them is proved once.
fn on_new<A: Allocator + Copy>(
    rt: &impl Abort,
    heap: &Refusing<Global>,
    alloc: A,
    trial: Trial,
) -> Result<(), Fail> {
    let mut descs = Descs::new(alloc, USUAL);
    match trial {
        Trial::StartInOrder => start_in_order(rt, &mut descs),
        Trial::ReservePastAllMemory => reserve_past_all_memory(rt, &mut descs),
        Trial::CloseTwice(n) => close_twice(rt, heap, &mut descs, n)?,
        Trial::RefuseEach => refuse_each(rt, heap, &mut descs),
        Trial::Reserve => reserve(rt, heap, &mut descs)?,
    }
    Ok(())
}

fn meets(rt: &impl Abort, alloc: Global, trial: Trial) -> Result<(), Fail> {
    let heap = Refusing::new(alloc);
    on_new(rt, &heap, &heap, trial)
}

#[test]
fn processes_start_in_order(rt: HostRuntime) -> Result<(), Fail> {
    meets(&rt, rt.alloc(), Trial::StartInOrder)
}

#[test]
fn no_memory_is_enough_for_some_counts(rt: HostRuntime) -> Result<(), Fail> {
    meets(&rt, rt.alloc(), Trial::ReservePastAllMemory)
}

/// A description is there until the last row that names it goes (POSIX.1-2017, fork and close).
#[test]
fn the_last_hold_of_a_description(rt: HostRuntime) -> Result<(), Fail> {
    let heap = Refusing::new(rt.alloc());
    for n in 1..MOST_REQUESTS {
        on_new(&rt, &heap, &heap, Trial::CloseTwice(n))?;
        if !heap.refused() {
            break;
        }
    }
    all_were_refused(&heap, "a fork")
}

#[test]
fn a_want_of_memory_changes_nothing(rt: HostRuntime) -> Result<(), Fail> {
    meets(&rt, rt.alloc(), Trial::RefuseEach)?;
    meets(&rt, rt.alloc(), Trial::Reserve)
}
