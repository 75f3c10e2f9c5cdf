//! How processes start and end.
ghost use Rattle.std.specs.Prelude.{◌≡◌, IfOk, OnErr};
ghost use Rattle.pl_state.specs.Contents.{IsProcess};
ghost use Rattle.pl_state.specs.Makes.{MakesAtKeys, MayWantAtKeys};

use pl_desc::StartFault;
use pl_model::{Call, Errno, Reply, Step};
use pl_state::{KernelState, NoMemory, end_call, release};
use std::alloc::Allocator;

/// Starts a process without descriptors, under the least free pid.
///
/// The reply is its pid, or `EAGAIN` where as many processes are there as may be. The only error is want of memory; neither changes anything.
pub fn start<A: Allocator + Copy>(kernel: &mut KernelState<A>) -> Result<Reply<A>, NoMemory>
    ensures done { IfOk result (λ reply. MakesAtKeys kernel.old Step.Start reply kernel.new) }
    ensures undone { OnErr result (kernel.new ≡ kernel.old) }
    ensures wanted { OnErr result (MayWantAtKeys {A = A} kernel.old Step.Start) }
{
    match kernel.descs.start() {
        Ok(pid) => Ok(Reply::Pid(pid)),
        Err(StartFault::Eagain) => Ok(Reply::Fault(Errno::EAGAIN)),
        Err(StartFault::NoMemory) => Err(NoMemory),
    }
}

/// Starts a process whose descriptors name what those of a process name, which is there (POSIX.1-2017, fork).
///
/// The reply is its pid, or `EAGAIN` where as many processes are there as may be. The only error is want of memory; neither changes anything.
pub fn fork<A: Allocator + Copy>(
    kernel: &mut KernelState<A>,
    pid: u32,
) -> Result<Reply<A>, NoMemory>
    requires { IsProcess kernel.old pid }
    ensures done { IfOk result (λ reply. MakesAtKeys kernel.old (Step.Begin pid Call.Fork) reply kernel.new) }
    ensures undone { OnErr result (kernel.new ≡ kernel.old) }
    ensures wanted { OnErr result (MayWantAtKeys {A = A} kernel.old (Step.Begin pid Call.Fork)) }
{
    match kernel.descs.copy_table(pid) {
        Ok(child) => Ok(Reply::Pid(child)),
        Err(StartFault::Eagain) => Ok(Reply::Fault(Errno::EAGAIN)),
        Err(StartFault::NoMemory) => Err(NoMemory),
    }
}

/// Closes all descriptors of a process that is there, drops its parked calls, and ends it (POSIX.1-2017, _exit). The reply is `Unit`. It
/// takes no memory.
pub fn exit<A: Allocator + Copy>(kernel: &mut KernelState<A>, pid: u32) -> Reply<A>
    requires { IsProcess kernel.old pid }
    ensures { MakesAtKeys kernel.old (Step.Begin pid Call.Exit) result kernel.new }
{
    // A proof learns here that nothing is left to settle at first.
    let _ = &kernel.descs;
    let mut least = 0;
    while let Some((fd, key)) = kernel.descs.take_fd(pid, least) {
        release(&mut kernel.descs, &mut kernel.nodes, key);
        least = fd + 1;
    }
    let mut from = 0;
    while let Some(number) = kernel.parked.next_of_process(pid, from) {
        end_call(kernel, number);
        from = number + 1;
    }
    kernel.descs.end(pid);
    Reply::Unit
}
