//! What is told of processes, pipes, files and parked calls, without a step. Nothing here takes memory.
ghost use Rattle.std.specs.Prelude.{◌≡◌};
ghost use Rattle.pl_kernel.specs.ToldNodes.{OfFd, OfName, facts_named, TellsHeld, TellsShape, TellsWhich, TellsProcess};
ghost use Rattle.pl_kernel.specs.ToldCalls.{TellsCall, TellsEach};
ghost use Rattle.pl_kernel.specs.ToldProcesses.{TellsHoldings};

use super::Kernel;
use crate::told_calls::{CallFacts, call_facts};
use crate::told_nodes::{NodeFacts, fd_facts, held, name_facts};
use crate::told_processes::{ProcessFacts, process_facts};
use std::alloc::Allocator;

impl<A: Allocator + Copy> Kernel<A> {
    /// Whether there is a process of this pid. It changes nothing and takes no memory.
    pub fn has_process(&self, pid: u32) -> bool
        ensures { TellsProcess {A = A} self.now pid result }
    {
        let state = &self.state;
        state.descs.has(pid)
    }

    /// How many descriptors and how many waiting calls a process has: at most as many as the limits `descriptors_max` and `waiting_of_each` allow.
    /// `None` where there is no such process. It changes nothing and takes no memory.
    pub fn process_facts(&self, pid: u32) -> Option<ProcessFacts>
        ensures { TellsHoldings {A = A} self.now pid result }
    {
        process_facts(&self.state, pid)
    }

    /// How many bytes the pipe holds that a descriptor of a process is open on, by either end: at most 1,048,576 (pipe(7), FIONREAD). Of a
    /// packet pipe it is the bytes of all packets. `None` where there is no such process, or its descriptor isn't open on a pipe. It changes
    /// nothing and takes no memory.
    pub fn held(&self, pid: u32, fd: i32) -> Option<u32>
        ensures { TellsHeld {A = A} self.now pid fd result }
    {
        held(&self.state, pid, fd)
    }

    /// What a descriptor of a process stands for (POSIX.1-2017, fstat). `None` where there is no such process, or its descriptor isn't open.
    /// It changes nothing and takes no memory.
    ///
    /// Just those descriptors and names have the same kind and the same key that stand for the same pipe or file.
    pub fn fd_facts(&self, pid: u32, fd: i32) -> Option<NodeFacts>
        ensures value { result ≡ facts_named {A = A} self.now (OfFd pid fd) }
        ensures shape { TellsShape {A = A} self.now (OfFd pid fd) result }
        ensures which { TellsWhich {A = A} self.now (OfFd pid fd) result }
    {
        fd_facts(&self.state, pid, fd)
    }

    /// What a name stands for, which isn't opened (POSIX.1-2017, stat). `None` where it stands for nothing. It changes nothing and takes no
    /// memory.
    ///
    /// Just those descriptors and names have the same kind and the same key that stand for the same pipe or file.
    pub fn name_facts(&self, name: &[u8]) -> Option<NodeFacts>
        ensures value { result ≡ facts_named {A = A} self.now (OfName name.now) }
        ensures shape { TellsShape {A = A} self.now (OfName name.now) result }
        ensures which { TellsWhich {A = A} self.now (OfName name.now) result }
    {
        name_facts(&self.state, name)
    }

    /// What the parked call of a number is, whose it is, and the descriptors that it was begun with. `None` where no call is parked under it.
    /// It changes nothing and takes no memory.
    pub fn call_facts(&self, number: u64) -> Option<CallFacts>
        ensures value { TellsCall {A = A} self.now number result }
        ensures each { TellsEach {A = A} self.now number result }
    {
        call_facts(&self.state, number)
    }
}
