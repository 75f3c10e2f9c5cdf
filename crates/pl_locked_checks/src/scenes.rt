//! Scenes: what callers do on a new layer, and what is left of it.
ghost use Rattle.std.specs.Prelude.{◌≡◌, ◌≤◌};
ghost use Rattle.pl_model.specs.Numbers.{most_file_bytes};

use crate::acts::{Act, Acts, Told, glance, in_turn};
use crate::asked::Ask;
use crate::came::Came;
use crate::left::{Kept, Left, replays};
use crate::threads::at_once;
use pl_kernel::Kernel;
use pl_locked::{Caller, Ground, Journal, Layer, Locked, OpenFault};
use pl_model::Limits;
use pl_testing::LIMITS;
use std::alloc::{Allocator, Global};
use std::marker::Brand;
use std::sync::Wait;
use std::test::Fail;
use std::thread::Threads;

/// What callers do on a new layer.
pub(crate) struct Scene {
    /// What a failure calls it.
    pub(crate) name: &'static str,
    /// How many callers there are.
    pub(crate) callers: u32,
    /// How many steps the journal takes.
    pub(crate) max_steps: u32,
    /// What each caller does, by its number: first one after the other, in one thread.
    pub(crate) in_turn: &'static [Acts],
    /// And then all at once, each in a thread.
    pub(crate) at_once: &'static [Acts],
    /// How many `a` and `b` they read.
    pub(crate) read: (u32, u32),
    /// How many steps are in the journal then.
    pub(crate) kept: Kept,
    /// What is left in the kernel.
    pub(crate) left: Left,
}

/// Process 1 starts.
pub(crate) const START: (Act, Came) = (Act::Step(Ask::Start), Came::Pid(1));

/// It makes a pipe: it reads from descriptor 0, and writes to 1.
pub(crate) const PIPE: (Act, Came) = (Act::Step(Ask::Pipe), Came::Fds(0, 1));

/// What is otherwise than the scene says, and two numbers that tell more of it.
#[derive(Clone, Copy)]
struct Fault {
    what: &'static str,
    numbers: (u64, u64),
}

fn otherwise(what: &'static str, one: u64, other: u64) -> Result<u32, Fault> {
    Err(Fault {
        what,
        numbers: (one, other),
    })
}

/// Fails unless all is as the scene says: what the acts came to, what the journal and the kernel are that the layer leaves, and
/// that a caller saw as many steps as there are. Where it finds no memory it asks for the replay once more. It answers how often
/// something found no memory.
fn look<A: Allocator + Copy>(
    alloc: A,
    scene: &Scene,
    told: Told,
    seen: u64,
    journal: &Journal<A>,
    kernel: &mut Kernel<A>,
) -> Result<u32, Fault> {
    if let Some((caller, act)) = told.missed {
        return otherwise(
            "a caller's act comes to something else",
            u64::from(caller),
            act as u64,
        );
    }
    let (some, others) = told.read;
    if (some, others) != scene.read {
        return otherwise(
            "so many a and b are read",
            u64::from(some),
            u64::from(others),
        );
    }
    let len = journal.len() as u64;
    if len != seen || !scene.kept.is_in(journal) {
        return otherwise("so many steps are kept and seen", len, seen);
    }
    let first = replays(alloc, journal);
    let is_right = match first {
        None => replays(alloc, journal),
        told => told,
    };
    if is_right != Some(true) {
        return otherwise("the journal doesn't replay", len, seen);
    }
    if !scene.left.is_in(alloc, kernel) {
        return otherwise("something else is left", len, seen);
    }
    Ok(told.wants.wrapping_add(u32::from(first.is_none())))
}

/// How many steps the first caller sees.
fn seen_by_first<N: Layer, A: Allocator + Copy>(
    locked: &Locked<N, A>,
    callers: &mut [Caller<N, A>],
) -> u64 {
    match callers.first_mut() {
        Some(me) => glance(locked, me),
        None => 0,
    }
}

/// Closes the layer, and looks at what it leaves.
fn close<N: Layer, A: Allocator + Copy>(
    alloc: A,
    scene: &Scene,
    told: Told,
    locked: Locked<N, A>,
    mut callers: Vec<Caller<N, A>, A>,
) -> Result<u32, Fault> {
    let seen = seen_by_first(&locked, callers.as_mut_slice());
    match locked.close(callers) {
        Ok((part, mut kernel)) => look(alloc, scene, told, seen, &part.journal, &mut kernel),
        Err(missing) => otherwise("a caller is missing", u64::from(missing.number), seen),
    }
}

/// The layer isn't opened, which may only be for want of memory.
fn not_opened(fault: OpenFault) -> Result<u32, Fault> {
    match fault {
        OpenFault::NoMemory => Ok(1),
        OpenFault::BadCallers => otherwise("there are too many callers", 0, 0),
    }
}

fn alone_on<N: Layer, R: Wait, A: Allocator + Copy>(
    rt: &R,
    alloc: A,
    ground: Ground<A>,
    limits: Limits,
    callers: u32,
    max_steps: u32,
    scene: &Scene,
) -> Result<u32, Fault>
    requires ground { (ground.name ≡ N.name) × (ground.parts ≡ N.parts) × (ground.table ≡ N.table) }
    requires limits { limits ≡ N.limits }
    requires file_max { limits.file_max ≤ most_file_bytes }
    requires callers { callers ≡ N.callers }
    requires steps { max_steps ≡ N.max_steps }
{
    match Locked::<N, A>::open(alloc, ground, limits, callers, u64::from(max_steps)) {
        Ok((locked, mut callers)) => {
            let told = in_turn(rt, alloc, &locked, scene.in_turn, callers.as_mut_slice());
            close(alloc, scene, told, locked, callers)
        }
        Err(fault) => not_opened(fault),
    }
}

fn together_on<N: Layer + Send + Sync, R: Threads + Wait + Sync>(
    rt: &R,
    alloc: Global,
    ground: Ground,
    limits: Limits,
    callers: u32,
    max_steps: u32,
    scene: &Scene,
) -> Result<u32, Fault>
    requires ground { (ground.name ≡ N.name) × (ground.parts ≡ N.parts) × (ground.table ≡ N.table) }
    requires limits { limits ≡ N.limits }
    requires file_max { limits.file_max ≤ most_file_bytes }
    requires callers { callers ≡ N.callers }
    requires steps { max_steps ≡ N.max_steps }
{
    match Locked::<N>::open(alloc, ground, limits, callers, u64::from(max_steps)) {
        Ok((locked, mut callers)) => {
            let told = at_once(rt, alloc, &locked, scene, callers.as_mut_slice());
            close(alloc, scene, told, locked, callers)
        }
        Err(fault) => not_opened(fault),
    }
}

/// What a test fails with, if it does.
fn verdict(scene: &Scene, played: Result<u32, Fault>) -> Result<u32, Fail> {
    match played {
        Ok(wants) => Ok(wants),
        Err(fault) => {
            let (name, what, (one, other)) = (scene.name, fault.what, fault.numbers);
            Err(Fail::new(format_args!("{name}: {what}: {one}, {other}")))
        }
    }
}

/// Plays the scene in one thread, on a new layer. It fails where something is otherwise than the scene says, and answers how often
/// something found no memory.
pub(crate) fn alone<R: Wait, A: Allocator + Copy>(
    rt: &R,
    alloc: A,
    scene: &Scene,
) -> Result<u32, Fail> {
    let Ok(ground) = Ground::new(alloc) else {
        return Ok(1);
    };
    let (callers, max_steps) = (scene.callers, scene.max_steps);
    let played = alone_on::<Brand, R, A>(rt, alloc, ground, LIMITS, callers, max_steps, scene);
    verdict(scene, played)
}

/// The same, in threads.
pub(crate) fn together<R: Threads + Wait + Sync>(
    rt: &R,
    alloc: Global,
    scene: &Scene,
) -> Result<u32, Fail> {
    let Ok(ground) = Ground::new(alloc) else {
        return Ok(1);
    };
    let (callers, max_steps) = (scene.callers, scene.max_steps);
    let played = together_on::<Brand, R>(rt, alloc, ground, LIMITS, callers, max_steps, scene);
    verdict(scene, played)
}
