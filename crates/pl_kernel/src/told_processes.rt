//! What is told of processes. Nothing here takes memory.
ghost use Rattle.std.specs.Prelude.{◌≡◌};
ghost use Rattle.pl_kernel.specs.ToldProcesses.{TellsHoldings};

use pl_state::KernelState;
use std::alloc::Allocator;

/// How much of what the limits allow a process has.
#[derive(Clone, Copy, Debug, PartialEq, Eq)]
pub struct ProcessFacts {
    /// How many of its descriptors are open.
    pub descriptors: usize,
    /// How many of its calls wait.
    pub waiting_calls: usize,
}

/// How much a process has. `None` where there is no such process.
pub fn process_facts<A: Allocator + Copy>(kernel: &KernelState<A>, pid: u32) -> Option<ProcessFacts>
    ensures { TellsHoldings {A = A} kernel.now pid result }
{
    let table = kernel.descs.table(pid)?;
    Some(ProcessFacts {
        descriptors: table.open_count(),
        waiting_calls: kernel.parked.count_of(pid),
    })
}
