//! What is told of processes, pipes, files and parked calls, and of the segments of a kernel, without a step.
ghost use Rattle.std.specs.Prelude.{◌≡◌, ◌≤◌, ◌/◌};
ghost use Rattle.pl_kernel.specs.ToldSegments.{TellsUsed, TellsNone};
ghost use Rattle.pl_kernel.specs.ToldNodes.{OfFd, OfName, facts_named, TellsShape, TellsWhich};
ghost use Rattle.bindingclay.specs.Heap.{InBudget};
ghost use Rattle.bindingclay.specs.Facts.{node_after, IsFound, TellsOf, Holds, Finds, Names, Waits, Tells};

use crate::handle::Handle;
use crate::layer::{SegmentUse, ToldCall, ToldNode, ToldProcess};
use pl_numbers::Answer;

/// Tells how many descriptors and how many waiting calls a process has.
#[unsafe(no_mangle)]
pub extern "C" fn bindingclay_process_facts(
    handle: Handle,
    pid: u32,
    process: &mut ToldProcess,
) -> Answer
    ensures says { IsFound handle.layer.kernel pid result }
    ensures process { TellsOf handle.layer.kernel pid process.old process.new }
{
    handle.layer().process_facts(pid, process)
}

/// Tells how many bytes the pipe holds that a descriptor is open on: the value is how many (pipe(7), FIONREAD).
#[unsafe(no_mangle)]
pub extern "C" fn bindingclay_held(handle: Handle, pid: u32, fd: i32) -> Answer
    ensures { Holds handle.layer.kernel pid fd result }
{
    handle.layer().held(pid, fd)
}

/// Tells of what a descriptor stands for: its kind, its size and its key (POSIX.1-2017, fstat). Just those descriptors and names have the same
/// kind and the same key that stand for the same pipe or file.
#[unsafe(no_mangle)]
pub extern "C" fn bindingclay_fd_facts(
    handle: Handle,
    pid: u32,
    fd: i32,
    node: &mut ToldNode,
) -> Answer
    ensures says { Finds handle.layer.kernel pid fd result }
    ensures node { node.new ≡ node_after node.old (facts_named {A = InBudget} handle.layer.kernel (OfFd pid fd)) }
    ensures shape { TellsShape {A = InBudget} handle.layer.kernel (OfFd pid fd) (facts_named {A = InBudget} handle.layer.kernel (OfFd pid fd)) }
    ensures which { TellsWhich {A = InBudget} handle.layer.kernel (OfFd pid fd) (facts_named {A = InBudget} handle.layer.kernel (OfFd pid fd)) }
{
    handle.layer().fd_facts(pid, fd, node)
}

/// Tells of what a name stands for, which isn't opened (POSIX.1-2017, stat).
#[unsafe(no_mangle)]
pub extern "C" fn bindingclay_name_facts(handle: Handle, name: &[u8], node: &mut ToldNode) -> Answer
    ensures says { Names handle.layer.kernel name.now result }
    ensures node { node.new ≡ node_after node.old (facts_named {A = InBudget} handle.layer.kernel (OfName name.now)) }
    ensures shape { TellsShape {A = InBudget} handle.layer.kernel (OfName name.now) (facts_named {A = InBudget} handle.layer.kernel (OfName name.now)) }
    ensures which { TellsWhich {A = InBudget} handle.layer.kernel (OfName name.now) (facts_named {A = InBudget} handle.layer.kernel (OfName name.now)) }
{
    handle.layer().name_facts(name, node)
}

/// Tells of the parked call of a number: what it is, whose it is, and the descriptors that it was begun with.
#[unsafe(no_mangle)]
pub extern "C" fn bindingclay_call_facts(handle: Handle, number: u64, call: &mut ToldCall) -> Answer
    ensures says { Waits handle.layer.kernel number result }
    ensures call { Tells handle.layer.kernel number call.old call.new }
{
    handle.layer().call_facts(number, call)
}

/// Tells in how many segments the kernel keeps bytes. With no process and no name no segment is used.
#[unsafe(no_mangle)]
pub extern "C" fn bindingclay_stats(handle: Handle, stats: &mut SegmentUse)
    ensures spare { stats.new.spare ≤ handle.layer.kernel.limits.spare_max / 4096 }
    ensures used { stats.new.used ≡ handle.layer.kernel.nodes.memory.segments }
    ensures named { TellsUsed {A = InBudget} handle.layer.kernel stats.new.used }
    ensures none { TellsNone {A = InBudget} handle.layer.kernel stats.new.used }
{
    *stats = handle.layer().segments();
}
