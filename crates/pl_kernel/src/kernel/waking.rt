//! Which calls that wait can get on.
ghost use Rattle.std.specs.Prelude.{◌≡◌};
ghost use Rattle.pl_kernel.specs.Progress.{TellsProgress, OrWaitsInVain, TellsNextReady, ready_entries};
ghost use Rattle.pl_kernel.specs.ToldCalls.{TellsAlike};

use super::Kernel;
use crate::ready::next_ready;
use crate::steps::can_progress;
use crate::told_calls::are_alike;
use pl_polls::masks_to_resume;
use std::alloc::Allocator;

impl<A: Allocator + Copy> Kernel<A> {
    /// Whether the parked call of a number can get on: a Resume made now answers it, or takes more of its bytes. `true` too where no call is
    /// parked under the number, since the answer then comes at once. Where it can't, a Resume answers that it waits on, and moves no byte.
    ///
    /// It changes nothing and takes no memory. It costs what such a Resume looks at: a few values, and of a poll its entries up to the first
    /// that is ready.
    pub fn can_progress(&self, number: u64) -> bool
        ensures value { TellsProgress {A = A} self.now number result }
        ensures vain { OrWaitsInVain {A = A} self.now number result }
    {
        can_progress(&self.state, number)
    }

    /// Whether the parked calls of two numbers are reads that keep the same description. As long as both are parked, one can get on just where
    /// the other can: so of many such calls it is enough to ask one. `false` promises nothing. It changes nothing and takes no memory.
    pub fn are_alike(&self, number: u64, other: u64) -> bool
        ensures { TellsAlike {A = A} self.now number other result }
    {
        are_alike(&self.state, number, other)
    }

    /// The least number, `from` or above, of a parked call that can get on; `None` if no call from there on can. So a loop that makes a step,
    /// and then resumes what this answers for 0 until it is `None`, forgets no call that waits. Each try ends a call or takes bytes of a write.
    ///
    /// It changes nothing that a step or a question sees. Calls wait in queues at the pipes and files that they wait for, of which all make
    /// progress together or none does: so it asks the pipes and files that steps touched since the last time, and of each queue there the
    /// first call. Where it answered `None` for 0, and no step was made since, it costs nothing. Else it costs from 0 the logarithm of how many
    /// calls wait for each queue at a pipe or file that was touched, and a look at each open and each splice from a file there; from another
    /// number also a look at each pipe and file where a call can make progress. Calls that have no place in a queue,
    /// for want of memory, are asked one by one. There are at most eight of them, as then no more are parked.
    pub fn next_ready(&mut self, from: u64) -> Option<u64>
        ensures told { TellsNextReady {A = A} self.old from result }
        ensures same { self.new ≡ self.old }
    {
        if self.none_ready {
            return None;
        }
        let next = next_ready(&self.state, &mut self.waiters, from);
        self.none_ready = from == 0 && next.is_none();
        next
    }

    /// How many entries the parked call of a number has, if it is a poll that can get on: a Resume made now answers as many masks. Else 0. It
    /// changes nothing and takes no memory.
    pub fn ready_entries(&self, number: u64) -> usize
        ensures { result ≡ ready_entries {A = A} self.now number }
    {
        masks_to_resume(&self.state, number)
    }
}
