//! Calls that wait, by the processes that began them.

use pl_numbered::Numbered;
use std::alloc::{AllocError, Allocator};

/// The numbers of the calls that wait, by the pids of their processes.
#[derive(Drop)]
pub(crate) struct Owners<A: Allocator> {
    /// By pid.
    pub(crate) rows: Vec<Numbered<(), A>, A>,
}

impl<A: Allocator + Copy> Owners<A> {
    ghost use Rattle.std.specs.Prelude.{◌≡◌, ℕ, ◌||◌, ◌&&◌, ◌<◌, false, nat_eq, length, OnOk, OnErr};
    ghost use Rattle.pl_parked.specs.Owners.{owns, AreUnder};

    /// No calls. It takes no memory.
    pub(crate) fn new(alloc: A) -> Self
        ensures { (pid number : ℕ) → owns result pid number ≡ false }
    {
        Owners {
            rows: Vec::new(alloc),
        }
    }

    // Makes a row for a process.
    fn make_row(&mut self, pid: usize) -> Result<(), AllocError>
        ensures row { OnOk result (pid < length self.new.rows.items) }
        ensures same { (other number : ℕ) → owns self.new other number ≡ owns self.old other number }
    {
        while self.rows.len() <= pid {
            let row = Numbered::new(*self.rows.allocator());
            if self.rows.push(row).is_err() {
                return Err(AllocError);
            }
        }
        Ok(())
    }

    /// Adds a call of a process, under a number above those of all calls.
    ///
    /// # Errors
    ///
    /// `AllocError` where there is no memory for it.
    pub(crate) fn add(&mut self, pid: usize, number: u64) -> Result<(), AllocError>
        requires { AreUnder number self.old }
        ensures ok { OnOk result ((other call : ℕ) → owns self.new other call ≡ ((nat_eq pid other && nat_eq number call) || owns self.old other call)) }
        ensures err { OnErr result ((other call : ℕ) → owns self.new other call ≡ owns self.old other call) }
    {
        self.make_row(pid)?;
        self.rows[pid].push(number, ())
    }
}

impl<A: Allocator> Owners<A> {
    ghost use Rattle.std.specs.Prelude.{◌≡◌, ℕ, ◌&&◌, ◌≤◌, not, true, false, nat_eq, IfSome, IfNone};
    ghost use Rattle.pl_parked.specs.Owners.{owns, owned_count};

    /// Removes a call of a process. It takes no memory.
    pub(crate) fn remove(&mut self, pid: usize, number: u64)
        ensures { (other call : ℕ) → owns self.new other call ≡ (not (nat_eq pid other && nat_eq number call) && owns self.old other call) }
    {
        if pid < self.rows.len() {
            let _taken = self.rows[pid].take(number);
        }
    }

    /// How many calls of a process there are.
    pub(crate) fn count(&self, pid: usize) -> usize
        ensures { result ≡ owned_count self.now pid }
    {
        if pid >= self.rows.len() {
            return 0;
        }
        self.rows[pid].len()
    }

    /// The least number, `from` or above, of the calls of a process.
    pub(crate) fn first_from(&self, pid: usize, from: u64) -> Option<u64>
        ensures some { IfSome result (λ number. (from ≤ number) × (owns self.now pid number ≡ true)) }
        ensures least { IfSome result (λ number. (other : ℕ) → from ≤ other → owns self.now pid other ≡ true → number ≤ other) }
        ensures none { IfNone result ((number : ℕ) → from ≤ number → owns self.now pid number ≡ false) }
    {
        if pid >= self.rows.len() {
            return None;
        }
        self.rows[pid].next_from(from)
    }
}
