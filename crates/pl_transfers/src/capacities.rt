//! How many bytes pipes can hold.
ghost use Rattle.std.specs.Prelude.{◌≡◌, IfOk, OnErr, IfSome};
ghost use Rattle.pl_state.specs.Contents.{IsProcess, core_of};
ghost use Rattle.pl_state.specs.Makes.{MakesAtKeys, MayWantAtKeys};
ghost use Rattle.pl_transfers.specs.Capacities.{pipe_named, slots_named, HasEnd, WithinCapacity};

use pl_decisions::capacity_for;
use pl_model::{Call, Errno, Node, Reply, Step};
use pl_state::{KernelState, NoMemory};
use std::alloc::Allocator;

// The pipe that a descriptor of a process is open on, if it is one.
fn pipe_named<A: Allocator + Copy>(kernel: &KernelState<A>, pid: u32, fd: i32) -> Option<usize>
    ensures value { result ≡ pipe_named (core_of {A = A} kernel.now) pid fd }
    ensures end { IfSome result (HasEnd kernel.now) }
{
    let key = kernel.descs.find(pid, fd)?;
    match kernel.descs.node(key) {
        Node::Pipe(pipe) => Some(pipe),
        Node::File(_) => None,
    }
}

/// Tells how many bytes the pipe that a descriptor of a process, which is there, names can hold (fcntl(2), F_GETPIPE_SZ). It
/// takes no memory.
///
/// The reply is that number, or `EBADF` where the descriptor isn't open on a pipe.
pub fn get_pipe_sz<A: Allocator + Copy>(kernel: &KernelState<A>, pid: u32, fd: i32) -> Reply<A>
    requires { IsProcess kernel.now pid }
    ensures { MakesAtKeys kernel.now (Step.Begin pid (Call.GetPipeSz fd)) result kernel.now }
{
    // A proof learns here what holds of the kernel.
    let _ = &kernel.nodes;
    let Some(pipe) = pipe_named(kernel, pid, fd) else {
        return Reply::Fault(Errno::EBADF);
    };
    Reply::Size(kernel.nodes.capacity(pipe) as u32)
}

/// In how many slots the bytes stand of the pipe that a descriptor of a process names, or `None` where there is no such process, or
/// its descriptor isn't open on a pipe. They are at most two for each 4,096 bytes of its capacity. It takes no memory.
pub fn slots<A: Allocator + Copy>(kernel: &KernelState<A>, pid: u32, fd: i32) -> Option<u32>
    ensures value { result ≡ slots_named {A = A} kernel.now pid fd }
    ensures few { WithinCapacity {A = A} kernel.now pid fd result }
{
    let pipe = pipe_named(kernel, pid, fd)?;
    // A proof learns here how great a capacity may be.
    let _capacity = kernel.nodes.capacity(pipe);
    Some(kernel.nodes.slots(pipe) as u32)
}

/// Sets how many bytes the pipe that a descriptor of a process, which is there, names can hold: a size rounded up to a power of
/// two of at least 4,096 (fcntl(2), F_SETPIPE_SZ; pipe(7), Pipe capacity).
///
/// The reply is that number, or, in this order: `EBADF` where the descriptor isn't open on a pipe, `EPERM` where the size is above
/// 1,048,576, or what it is rounded to above the limit, `EBUSY` where the pipe takes more of its capacity; these and the only error, want of memory, leave all as it was.
pub fn set_pipe_sz<A: Allocator + Copy>(
    kernel: &mut KernelState<A>,
    pid: u32,
    fd: i32,
    size: u32,
) -> Result<Reply<A>, NoMemory>
    requires { IsProcess kernel.old pid }
    ensures done { IfOk result (λ reply. MakesAtKeys kernel.old (Step.Begin pid (Call.SetPipeSz fd size)) reply kernel.new) }
    ensures undone { OnErr result (kernel.new ≡ kernel.old) }
    ensures wanted { OnErr result (MayWantAtKeys {A = A} kernel.old (Step.Begin pid (Call.SetPipeSz fd size))) }
{
    let Some(pipe) = pipe_named(kernel, pid, fd) else {
        return Ok(Reply::Fault(Errno::EBADF));
    };
    let capacity = match capacity_for(size, kernel.nodes.used(pipe), kernel.limits.capacity_max) {
        Ok(capacity) => capacity,
        Err(errno) => return Ok(Reply::Fault(errno)),
    };
    // What the pipe takes fits, as was just decided, so it's memory that is wanting.
    let Ok(()) = kernel.nodes.set_capacity(pipe, capacity as usize) else {
        return Err(NoMemory);
    };
    Ok(Reply::Size(capacity))
}
