//! What a layer leaves: a journal, and a kernel.
use crate::asked::{Ask, step_of};
use crate::came::Came;
use pl_kernel::Kernel;
use pl_locked::Journal;
use pl_model::numbers::USUAL_PROCESSES;
use pl_testing::LIMITS;
use std::alloc::Allocator;

/// What is to be left in the kernel.
pub(crate) enum Left {
    /// It is not looked at.
    Anything,
    /// Process 1 can read a hundred `a` and a hundred `b`, and no more.
    HundredOfEach,
    /// Nothing is left once the FIFO has no name, and no process is there.
    Nothing,
}

/// How many steps are to be in the journal.
pub(crate) enum Kept {
    /// So many of each caller, by its number, and no others.
    Of(&'static [u64]),
    /// At least the first number, and at most the second.
    Between(u64, u64),
}

/// How many steps of the caller are in the journal.
fn steps_of<A: Allocator>(journal: &Journal<A>, caller: usize) -> u64 {
    let mut own = 0u64;
    for place in 0..journal.len() {
        match journal.get(place) {
            Some(entry) if entry.caller as usize == caller => own = own.wrapping_add(1),
            _ => {}
        }
    }
    own
}

/// Whether so many steps of each caller are in the journal, by its number, and no others.
fn has_steps<A: Allocator>(journal: &Journal<A>, counts: &[u64]) -> bool {
    let mut all = 0u64;
    for (caller, count) in counts.iter().enumerate() {
        if steps_of(journal, caller) != *count {
            return false;
        }
        all = all.wrapping_add(*count);
    }
    all == journal.len() as u64
}

impl Kept {
    /// Whether these are the steps that are in the journal.
    pub(crate) fn is_in<A: Allocator>(&self, journal: &Journal<A>) -> bool {
        let all = journal.len() as u64;
        match self {
            Kept::Of(counts) => has_steps(journal, *counts),
            Kept::Between(fewest, most) => *fewest <= all && all <= *most,
        }
    }
}

/// What the step comes to.
fn answer<A: Allocator + Copy>(alloc: A, kernel: &mut Kernel<A>, ask: Ask) -> Came {
    let Some(step) = step_of(alloc, ask) else {
        return Came::NoMemory;
    };
    match kernel.step(step) {
        Ok(reply) => Came::of(&reply),
        Err(_) => Came::NoMemory,
    }
}

/// Whether no bytes are kept once the FIFO has no name, and every process has ended.
fn keeps_nothing<A: Allocator + Copy>(alloc: A, kernel: &mut Kernel<A>) -> bool {
    let is_unlinked = answer(alloc, kernel, Ask::Unlink) == Came::Unit;
    for pid in 1..=USUAL_PROCESSES as u32 {
        answer(alloc, kernel, Ask::Exit(pid));
    }
    is_unlinked && kernel.stats().segments == 0
}

impl Left {
    /// Whether that is what is left in the kernel.
    pub(crate) fn is_in<A: Allocator + Copy>(&self, alloc: A, kernel: &mut Kernel<A>) -> bool {
        match self {
            Left::Anything => true,
            Left::HundredOfEach => {
                answer(alloc, kernel, Ask::Read(300)) == Came::Bytes(100, 100)
            }
            Left::Nothing => keeps_nothing(alloc, kernel),
        }
    }
}

/// Whether the journal replays. `None` where there is no memory.
pub(crate) fn replays<A: Allocator + Copy>(alloc: A, journal: &Journal<A>) -> Option<bool> {
    journal.replay(alloc, LIMITS).ok()
}
