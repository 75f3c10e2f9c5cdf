//! Callers at once, each in a thread. Each function here gives halves of the callers to two of the one before it: one that calls itself would
//! have to say across its threads that it ends.
use crate::job::{Job, work};
use pl_locked::{Caller, Layer, Locked};
use std::alloc::Global;
use std::sync::Wait;
use std::thread::{Threads, join};

fn one<N: Layer, R: Wait>(
    rt: &R,
    alloc: Global,
    locked: &Locked<N>,
    callers: &mut [Caller<N>],
    job: Job,
    rounds: u32,
) -> bool {
    match callers.first_mut() {
        Some(me) => work(rt, alloc, locked, me, job, rounds),
        None => true,
    }
}

fn two<N: Layer + Send + Sync, R: Threads + Wait + Sync>(
    rt: &R,
    alloc: Global,
    locked: &Locked<N>,
    callers: &mut [Caller<N>],
    job: Job,
    rounds: u32,
) -> bool {
    if callers.len() <= 1 {
        return one(rt, alloc, locked, callers, job, rounds);
    }
    let (low, high) = callers.split_at_mut(1);
    let (some, others) = join(
        rt,
        move || one(rt, alloc, locked, low, job, rounds),
        move || one(rt, alloc, locked, high, job, rounds),
    );
    some && others
}

fn four<N: Layer + Send + Sync, R: Threads + Wait + Sync>(
    rt: &R,
    alloc: Global,
    locked: &Locked<N>,
    callers: &mut [Caller<N>],
    job: Job,
    rounds: u32,
) -> bool {
    if callers.len() <= 2 {
        return two(rt, alloc, locked, callers, job, rounds);
    }
    let (low, high) = callers.split_at_mut(2);
    let (some, others) = join(
        rt,
        move || two(rt, alloc, locked, low, job, rounds),
        move || two(rt, alloc, locked, high, job, rounds),
    );
    some && others
}

fn eight<N: Layer + Send + Sync, R: Threads + Wait + Sync>(
    rt: &R,
    alloc: Global,
    locked: &Locked<N>,
    callers: &mut [Caller<N>],
    job: Job,
    rounds: u32,
) -> bool {
    if callers.len() <= 4 {
        return four(rt, alloc, locked, callers, job, rounds);
    }
    let (low, high) = callers.split_at_mut(4);
    let (some, others) = join(
        rt,
        move || four(rt, alloc, locked, low, job, rounds),
        move || four(rt, alloc, locked, high, job, rounds),
    );
    some && others
}

fn sixteen<N: Layer + Send + Sync, R: Threads + Wait + Sync>(
    rt: &R,
    alloc: Global,
    locked: &Locked<N>,
    callers: &mut [Caller<N>],
    job: Job,
    rounds: u32,
) -> bool {
    if callers.len() <= 8 {
        return eight(rt, alloc, locked, callers, job, rounds);
    }
    let (low, high) = callers.split_at_mut(8);
    let (some, others) = join(
        rt,
        move || eight(rt, alloc, locked, low, job, rounds),
        move || eight(rt, alloc, locked, high, job, rounds),
    );
    some && others
}

fn thirty_two<N: Layer + Send + Sync, R: Threads + Wait + Sync>(
    rt: &R,
    alloc: Global,
    locked: &Locked<N>,
    callers: &mut [Caller<N>],
    job: Job,
    rounds: u32,
) -> bool {
    if callers.len() <= 16 {
        return sixteen(rt, alloc, locked, callers, job, rounds);
    }
    let (low, high) = callers.split_at_mut(16);
    let (some, others) = join(
        rt,
        move || sixteen(rt, alloc, locked, low, job, rounds),
        move || sixteen(rt, alloc, locked, high, job, rounds),
    );
    some && others
}

/// At most 64 callers do a job.
pub(crate) fn sixty_four<N: Layer + Send + Sync, R: Threads + Wait + Sync>(
    rt: &R,
    alloc: Global,
    locked: &Locked<N>,
    callers: &mut [Caller<N>],
    job: Job,
    rounds: u32,
) -> bool {
    if callers.len() <= 32 {
        return thirty_two(rt, alloc, locked, callers, job, rounds);
    }
    let (low, high) = callers.split_at_mut(32);
    let (some, others) = join(
        rt,
        move || thirty_two(rt, alloc, locked, low, job, rounds),
        move || thirty_two(rt, alloc, locked, high, job, rounds),
    );
    some && others
}
