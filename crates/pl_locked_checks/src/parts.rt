//! Layers whose journal is handed out in parts.
ghost use Rattle.std.specs.Prelude.{◌≡◌, ◌≤◌};
ghost use Rattle.pl_model.specs.Numbers.{most_file_bytes};

use crate::acts::attempt;
use crate::asked::Ask;
use crate::came::Came;
use crate::left::replays;
use pl_locked::{Caller, Ground, Journal, JournalPart, Layer, Locked};
use pl_model::{Errno, Limits};
use pl_testing::LIMITS;
use std::alloc::{Allocator, Global};
use std::marker::Brand;
use std::sync::Wait;
use std::test::Fail;
use std::thread::{self, Threads, join};

/// Steps, each with what it is to come to.
type Steps = &'static [(Ask, Came)];

/// Steps of a caller, and then how many entries stand before the part that it is handed, and how many are in it.
const TURNS: [(Steps, (u64, usize)); 4] = [
    (
        &[
            (Ask::Start, Came::Pid(1)),
            (Ask::Pipe, Came::Fds(0, 1)),
            (Ask::Write("ab"), Came::Count(2)),
        ],
        (0, 3),
    ),
    (
        &[
            (Ask::Read(1), Came::Bytes(1, 0)),
            (Ask::Read(1), Came::Bytes(0, 1)),
        ],
        (3, 2),
    ),
    (&[], (5, 0)),
    (&[(Ask::Read(1), Came::Parked(1))], (5, 1)),
];

/// The last steps. No more than eight are made.
const LAST: Steps = &[
    (Ask::Interrupt(1), Came::Fault(Errno::EINTR)),
    (Ask::Close(0), Came::Unit),
    (Ask::Close(1), Came::Full),
];

/// The first steps of two threads.
const BEGIN: Steps = &[(Ask::Start, Came::Pid(1)), (Ask::Pipe, Came::Fds(0, 1))];

/// What is left for the end.
const LAST_PART: (u64, usize) = (6, 2);

/// How many steps are made in all.
const MADE: u64 = 8;

/// How many steps two threads make, one of which is handed out what happens meanwhile.
const LONG: u64 = 2_002;

/// How often it asks for a part at most.
const ASKED: u32 = 100_000_000;

/// Whether the steps come to what is wanted.
fn come<N: Layer, R: Wait, A: Allocator + Copy>(
    rt: &R,
    alloc: A,
    locked: &Locked<N, A>,
    me: &mut Caller<N, A>,
    steps: Steps,
) -> bool {
    for (ask, came) in steps {
        if attempt(rt, alloc, locked, me, *ask) != *came {
            return false;
        }
    }
    true
}

/// Puts a part behind the others. It tells how many entries stand before it, and how many are in it.
fn put<A: Allocator + Copy>(part: &mut JournalPart<A>, whole: &mut Journal<A>) -> (u64, usize) {
    let told = (part.first, part.journal.len());
    match whole.append(&mut part.journal) {
        Ok(()) => told,
        Err(_) => (u64::MAX, 0),
    }
}

/// The caller is handed a part.
fn hand_out<N: Layer, R: Wait, A: Allocator + Copy>(
    rt: &R,
    locked: &Locked<N, A>,
    me: &mut Caller<N, A>,
    whole: &mut Journal<A>,
) -> (u64, usize) {
    let mut part = locked.hand_out(rt, me);
    put(&mut part, whole)
}

/// The first caller makes all steps, and is handed the parts.
fn turns<N: Layer, R: Wait, A: Allocator + Copy>(
    rt: &R,
    alloc: A,
    locked: &Locked<N, A>,
    callers: &mut [Caller<N, A>],
    whole: &mut Journal<A>,
) -> bool {
    let Some(me) = callers.first_mut() else {
        return false;
    };
    for (steps, part) in TURNS {
        if !come(rt, alloc, locked, me, steps) || hand_out(rt, locked, me, whole) != part {
            return false;
        }
    }
    come(rt, alloc, locked, me, LAST)
}

/// Whether the last part is so long, and all of them are so many entries, which replay.
fn ends<A: Allocator + Copy>(
    alloc: A,
    part: &mut JournalPart<A>,
    whole: &mut Journal<A>,
    wanted: (u64, usize),
    made: u64,
) -> bool {
    put(part, whole) == wanted && whole.len() as u64 == made && replays(alloc, whole) == Some(true)
}

fn turns_on<N: Layer, R: Wait, A: Allocator + Copy>(
    rt: &R,
    alloc: A,
    ground: Ground<A>,
    limits: Limits,
    callers: u32,
    max_steps: u64,
) -> bool
    requires ground { (ground.name ≡ N.name) × (ground.parts ≡ N.parts) × (ground.table ≡ N.table) }
    requires limits { limits ≡ N.limits }
    requires file_max { limits.file_max ≤ most_file_bytes }
    requires callers { callers ≡ N.callers }
    requires steps { (max_steps ≡ N.max_steps) × (max_steps ≤ 100) }
{
    let mut whole = Journal::from_vec(Vec::new(alloc));
    match Locked::<N, A>::open(alloc, ground, limits, callers, max_steps) {
        Ok((locked, mut callers)) => {
            let came = turns(rt, alloc, &locked, callers.as_mut_slice(), &mut whole);
            match locked.close(callers) {
                Ok((mut part, _kernel)) => {
                    came && ends(alloc, &mut part, &mut whole, LAST_PART, MADE)
                }
                Err(_) => false,
            }
        }
        Err(_) => false,
    }
}

/// Whether the parts of a journal come to the whole of it.
fn in_parts<R: Wait, A: Allocator + Copy>(rt: &R, alloc: A) -> bool {
    match Ground::new(alloc) {
        Ok(ground) => turns_on::<Brand, R, A>(rt, alloc, ground, LIMITS, 1, MADE),
        Err(_) => false,
    }
}

/// A caller writes a byte and reads it, so many times.
fn pairs<N: Layer, R: Wait, A: Allocator + Copy>(
    rt: &R,
    alloc: A,
    locked: &Locked<N, A>,
    me: &mut Caller<N, A>,
    times: u64,
) -> bool {
    for _time in 0..times {
        if attempt(rt, alloc, locked, me, Ask::Write("a")) != Came::Count(1)
            || attempt(rt, alloc, locked, me, Ask::Read(1)) != Came::Bytes(1, 0)
        {
            return false;
        }
    }
    true
}

/// A caller is handed parts until there are so many entries. It tells whether each part begins where the one before it ends.
fn collect<N: Layer, R: Wait, A: Allocator + Copy>(
    rt: &R,
    locked: &Locked<N, A>,
    me: &mut Caller<N, A>,
    whole: &mut Journal<A>,
    wanted: u64,
) -> bool {
    for _time in 0..ASKED {
        let before = whole.len() as u64;
        if before >= wanted {
            return true;
        }
        if hand_out(rt, locked, me, whole).0 != before {
            return false;
        }
        thread::yield_now();
    }
    false
}

/// One caller makes the steps, and the other is handed them meanwhile.
fn both<N: Layer + Send + Sync, R: Threads + Wait + Sync>(
    rt: &R,
    alloc: Global,
    locked: &Locked<N>,
    callers: &mut [Caller<N>],
    whole: &mut Journal,
) -> bool {
    let middle = callers.len().min(1);
    let (one, other) = callers.split_at_mut(middle);
    let (Some(one), Some(other)) = (one.first_mut(), other.first_mut()) else {
        return false;
    };
    let begun = come(rt, alloc, locked, one, BEGIN);
    let (made, collected) = join(
        rt,
        move || pairs(rt, alloc, locked, one, (LONG - 2) / 2),
        move || collect(rt, locked, other, whole, LONG),
    );
    begun && made && collected
}

fn both_on<N: Layer + Send + Sync, R: Threads + Wait + Sync>(
    rt: &R,
    alloc: Global,
    ground: Ground,
    limits: Limits,
    callers: u32,
    max_steps: u64,
) -> bool
    requires ground { (ground.name ≡ N.name) × (ground.parts ≡ N.parts) × (ground.table ≡ N.table) }
    requires limits { limits ≡ N.limits }
    requires file_max { limits.file_max ≤ most_file_bytes }
    requires callers { callers ≡ N.callers }
    requires steps { (max_steps ≡ N.max_steps) × (max_steps ≤ 10_000) }
{
    let mut whole = Journal::from_vec(Vec::new(alloc));
    match Locked::<N>::open(alloc, ground, limits, callers, max_steps) {
        Ok((locked, mut callers)) => {
            let came = both(rt, alloc, &locked, callers.as_mut_slice(), &mut whole);
            match locked.close(callers) {
                Ok((mut part, _kernel)) => {
                    came && ends(alloc, &mut part, &mut whole, (LONG, 0), LONG)
                }
                Err(_) => false,
            }
        }
        Err(_) => false,
    }
}

/// Whether the parts that are handed out while another thread makes steps come to the whole journal.
fn in_parts_meanwhile<R: Threads + Wait + Sync>(rt: &R, alloc: Global) -> bool {
    match Ground::new(alloc) {
        Ok(ground) => both_on::<Brand, R>(rt, alloc, ground, LIMITS, 2, LONG),
        Err(_) => false,
    }
}

#[test]
fn parts_come_to_the_whole(rt: HostRuntime) -> Result<(), Fail> {
    assert!(rt; in_parts(&rt, rt.alloc()), "by one caller");
    assert!(rt;
        in_parts_meanwhile(&rt, rt.alloc()),
        "while another makes steps"
    );
    Ok(())
}
