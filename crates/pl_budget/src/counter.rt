//! The count of a budget, in words that threads may share.
ghost use Rattle.std.specs.Prelude.{◌≡◌, ◌≤◌, false};
ghost use Rattle.pl_budget.specs.Accounts.{between};

use crate::account::{Account, bytes_between};
use std::sync::atomic::{AtomicU64, Ordering};

/// How many bytes are held and were at most, and how many may be.
#[derive(Drop)]
pub struct Counter {
    held: AtomicU64,
    peak: AtomicU64,
    most: u64,
}

impl Counter {
    pub fn new(most: u64) -> Counter
        ensures { result.most ≡ most }
    {
        Counter {
            held: AtomicU64::new(0),
            peak: AtomicU64::new(0),
            most,
        }
    }

    pub fn account(&self) -> Account
        ensures { result.most ≡ self.now.most }
    {
        Account {
            held: self.held.load(Ordering::SeqCst),
            peak: self.peak.load(Ordering::SeqCst),
            most: self.most,
        }
    }

    /// Whether a block may not grow from so many items of so many bytes each to so many. Where it may, it counts as grown from then on.
    /// Where another thread comes between the answer is yes: so what counts is never above the most.
    pub fn refuses(&self, from: usize, to: usize, each: usize) -> bool
        ensures { result ≡ false → between from to each ≤ self.now.most }
    {
        let before = self.account();
        let Some(after) = before.take(bytes_between(from, to, each)) else {
            return true;
        };
        if self
            .held
            .compare_exchange(before.held, after.held, Ordering::SeqCst, Ordering::SeqCst)
            .is_err()
        {
            return true;
        }
        if before.peak < after.peak {
            self.peak.fetch_max(after.peak, Ordering::SeqCst);
        }
        false
    }

    /// A block shrinks from so many items of so many bytes each to so many.
    pub fn shrinks(&self, from: usize, to: usize, each: usize) {
        let bytes = bytes_between(to, from, each);
        let before = self.account();
        let after = before.give_back(bytes);
        if self
            .held
            .compare_exchange(before.held, after.held, Ordering::SeqCst, Ordering::SeqCst)
            .is_err()
        {
            // Another thread came between, so it is taken off what that one left.
            self.held.fetch_sub(bytes, Ordering::SeqCst);
        }
    }
}
