//! `pl_bench JOB ROUNDS`: how long threads take over the locked layer, in nanoseconds a round. `library/bench` runs the same threads at the
//! host's pipes beside it. `pl_bench entry ROUNDS`: how many bytes of memory an entry of the journal takes.
#![tactic(auto)]

ghost use Rattle.std.specs.Prelude.{◌≡◌, ◌≤◌, ◌^◌};
ghost use Rattle.pl_model.specs.Numbers.{most_file_bytes};

mod crowd;
mod entry;
mod job;

use crate::crowd::sixty_four;
use crate::entry::entry_bytes;
use crate::job::{Job, begin};
use pl_budget::Budget;
use pl_locked::{Caller, Ground, Layer, Locked};
use pl_model::Limits;
use std::alloc::Global;
use std::env::{self, Env};
use std::io;
use std::marker::Brand;
use std::process::ExitCode;
use std::sync::Wait;
use std::thread::Threads;
use std::time::{Clock, Instant};

/// How many steps a layer makes at most.
const MOST_STEPS: u64 = 1_000_000_000_000;

/// How many nanoseconds the callers take for all rounds of a job, on a layer with pipes; nothing where something fails.
fn time<N: Layer + Send + Sync, R: Threads + Wait + Clock + Sync>(
    rt: &R,
    alloc: Global,
    locked: &Locked<N>,
    callers: &mut [Caller<N>],
    job: Job,
    rounds: u32,
) -> Option<u128> {
    let first = callers.first_mut()?;
    if !begin(rt, locked, first) {
        return None;
    }
    let begun = Instant::now(rt).ok()?;
    if !sixty_four(rt, alloc, locked, callers, job, rounds) {
        return None;
    }
    Some(begun.elapsed(rt).ok()?.as_nanos())
}

/// The same of a new layer.
fn bench<N: Layer + Send + Sync, R: Threads + Wait + Clock + Sync>(
    rt: &R,
    alloc: Global,
    ground: Ground,
    limits: Limits,
    count: u32,
    max_steps: u64,
    job: Job,
    rounds: u32,
) -> Option<u128>
    requires ground { (ground.name ≡ N.name) × (ground.parts ≡ N.parts) × (ground.table ≡ N.table) }
    requires limits { limits ≡ N.limits }
    requires file_max { limits.file_max ≤ most_file_bytes }
    requires callers { count ≡ N.callers }
    requires steps { (max_steps ≡ N.max_steps) × (max_steps ≤ 2 ^ 62) }
{
    let (locked, mut callers) = Locked::<N>::open(alloc, ground, limits, count, max_steps).ok()?;
    time(rt, alloc, &locked, callers.as_mut_slice(), job, rounds)
}

/// How long a round of a job takes, in nanoseconds.
fn nanoseconds<R: Threads + Wait + Clock + Sync + AllocGlobal>(
    rt: &R,
    job: Job,
    rounds: u32,
) -> Option<u128> {
    let ground = Ground::new(rt.alloc()).ok()?;
    let took = bench::<Brand, _>(
        rt,
        rt.alloc(),
        ground,
        Limits::DEFAULT,
        job.callers(),
        MOST_STEPS,
        job,
        rounds,
    )?;
    took.checked_div(u128::from(rounds))
}

/// How many bytes an entry of the journal takes.
fn bytes<R: Wait + AllocGlobal>(rt: &R, rounds: u32) -> Option<u128> {
    let budget = Budget::new(rt.alloc(), u64::MAX);
    let ground = Ground::new(&budget).ok()?;
    let each = entry_bytes::<Brand, _>(rt, &budget, ground, Limits::DEFAULT, MOST_STEPS, rounds)?;
    Some(u128::from(each))
}

/// What is measured.
#[derive(Clone, Copy)]
enum Subject {
    /// How long a job takes.
    Time(Job),
    /// What an entry of the journal takes.
    Entry,
}

/// The words: what is measured, and how many rounds it has.
fn asked<R: Env + AllocGlobal>(rt: &R) -> Option<(Subject, u32)> {
    let mut words = env::args(rt).ok()?.skip(1);
    let word = words.next()?;
    let subject = match word.as_str() {
        "entry" => Subject::Entry,
        name => Subject::Time(Job::named(name)?),
    };
    let rounds = words.next()?.as_str().parse::<u32>().ok()?;
    Some((subject, rounds))
}

/// The status where the usage is printed: only a program that was given no words was asked for it.
fn status_of_usage<R: Env + AllocGlobal>(rt: &R) -> ExitCode {
    let is_asked = match env::args(rt) {
        Ok(words) => words.skip(1).next().is_none(),
        Err(_) => false,
    };
    if is_asked {
        ExitCode::SUCCESS
    } else {
        ExitCode::from(2)
    }
}

fn main(rt: HostRuntime) -> io::Result<ExitCode> {
    let Some((subject, rounds)) = asked(&rt) else {
        println!(rt;
            "usage: pl_bench alone|handed|pairs|pingpong|readers|answered|stream|glance|own2|own4|one2|one4|entry ROUNDS"
        )?;
        return Ok(status_of_usage(&rt));
    };
    let measured = match subject {
        Subject::Time(job) => nanoseconds(&rt, job, rounds),
        Subject::Entry => bytes(&rt, rounds),
    };
    let Some(figure) = measured else {
        return Ok(ExitCode::FAILURE);
    };
    println!(rt; "{figure}")?;
    Ok(ExitCode::SUCCESS)
}
