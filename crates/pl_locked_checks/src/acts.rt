//! What callers do on a layer. Each function that makes a step tells what it came to in plain numbers, and has no contract.
use crate::asked::{Ask, step_of};
use crate::came::Came;
use crate::storm::storm;
use pl_locked::{Caller, Layer, Locked};
use pl_model::Step;
use std::alloc::Allocator;
use std::sync::{Condvar, Wait};
use std::time::Duration;

/// What a caller does.
pub(crate) enum Act {
    /// It makes one step.
    Step(Ask),
    /// It makes a step so many times, which come to the same.
    Steps(u32, Ask),
    /// It makes a whole call, which waits until it is answered.
    Call(Ask),
    /// It makes two whole calls one after the other, so many times.
    Rounds(u32, Ask, Ask),
    /// It makes whole calls, each a read of at most 70,000 bytes, until it has read so many `a`.
    Drain(u32),
    /// It makes a whole call, which takes at most so many turns.
    Turns(Ask, u32),
    /// It glances.
    Glance,
    /// It glances from time to time until there are so many steps, and then tells of that many.
    Sees(u64),
    /// It makes so many steps that look like chance, and so do three others.
    Storm(u32),
}

/// What a caller does in a scene, each act with what it is to come to.
pub(crate) type Acts = &'static [(Act, Came)];

/// What the acts of callers came to.
#[derive(Clone, Copy)]
pub(crate) struct Told {
    /// The caller, and its act, counted from 0, that first came to something else than is wanted.
    pub(crate) missed: Option<(u32, usize)>,
    /// How many `a` and `b` were read.
    pub(crate) read: (u32, u32),
    /// How many acts found no memory, and were done once more.
    pub(crate) wants: u32,
}

/// No acts came to this.
const NOTHING: Told = Told {
    missed: None,
    read: (0, 0),
    wants: 0,
};

impl Told {
    /// What these acts and others came to.
    pub(crate) fn and(self, other: Told) -> Told {
        let (some, others) = (self.read, other.read);
        Told {
            missed: self.missed.or(other.missed),
            read: (some.0.wrapping_add(others.0), some.1.wrapping_add(others.1)),
            wants: self.wants.wrapping_add(other.wants),
        }
    }
}

/// The caller makes the step.
pub(crate) fn attempt<N: Layer, R: Wait, A: Allocator + Copy>(
    rt: &R,
    alloc: A,
    locked: &Locked<N, A>,
    me: &mut Caller<N, A>,
    ask: Ask,
) -> Came {
    let Some(step) = step_of(alloc, ask) else {
        return Came::NoMemory;
    };
    match locked.attempt(rt, me, step) {
        Ok(reply) => Came::of(&reply),
        Err(fault) => Came::refused(fault),
    }
}

/// The caller makes the step so many times. It comes to `Other` where they don't come to the same.
fn attempts<N: Layer, R: Wait, A: Allocator + Copy>(
    rt: &R,
    alloc: A,
    locked: &Locked<N, A>,
    me: &mut Caller<N, A>,
    times: u32,
    ask: Ask,
) -> Came {
    let first = attempt(rt, alloc, locked, me, ask);
    for _time in 1..times {
        if attempt(rt, alloc, locked, me, ask) != first {
            return Came::Other;
        }
    }
    first
}

/// The caller makes the call that is asked, and waits.
fn call<N: Layer, R: Wait, A: Allocator + Copy>(
    rt: &R,
    alloc: A,
    locked: &Locked<N, A>,
    me: &mut Caller<N, A>,
    ask: Ask,
) -> Came {
    let Some(Step::Begin(pid, call)) = step_of(alloc, ask) else {
        return Came::NoMemory;
    };
    match locked.call(rt, me, pid, call) {
        Ok(reply) => Came::of(&reply),
        Err(fault) => Came::unanswered(fault),
    }
}

/// The caller makes two whole calls one after the other, so many times. It comes to what the second call does, or to `Other` unless each call
/// comes to the same in each round.
fn rounds<N: Layer, R: Wait, A: Allocator + Copy>(
    rt: &R,
    alloc: A,
    locked: &Locked<N, A>,
    me: &mut Caller<N, A>,
    times: u32,
    asks: (Ask, Ask),
) -> Came {
    let (first, second) = asks;
    let began = call(rt, alloc, locked, me, first);
    let ended = call(rt, alloc, locked, me, second);
    for _round in 1..times {
        if call(rt, alloc, locked, me, first) != began
            || call(rt, alloc, locked, me, second) != ended
        {
            return Came::Other;
        }
    }
    ended
}

/// The caller reads by whole calls until it has so many `a`. It comes to `Other` if a read gives none, or anything else.
fn drain<N: Layer, R: Wait, A: Allocator + Copy>(
    rt: &R,
    alloc: A,
    locked: &Locked<N, A>,
    me: &mut Caller<N, A>,
    count: u32,
) -> Came {
    let mut left = count;
    for _read in 0..count {
        if left == 0 {
            break;
        }
        match call(rt, alloc, locked, me, Ask::Read(70_000)) {
            Came::Bytes(some, 0) if some != 0 && some <= left => left = left.saturating_sub(some),
            _ => return Came::Other,
        }
    }
    Came::Bytes(count.saturating_sub(left), 0)
}

/// The caller makes the call that is asked, which takes at most so many turns.
fn call_turns<N: Layer, R: Wait, A: Allocator + Copy>(
    rt: &R,
    alloc: A,
    locked: &Locked<N, A>,
    me: &mut Caller<N, A>,
    ask: Ask,
    turns: u32,
) -> Came {
    let Some(Step::Begin(pid, call)) = step_of(alloc, ask) else {
        return Came::NoMemory;
    };
    match locked.call_turns(rt, me, pid, call, turns) {
        Ok(reply) => Came::of(&reply),
        Err(fault) => Came::unanswered(fault),
    }
}

/// How many steps the caller sees.
pub(crate) fn glance<N: Layer, A: Allocator + Copy>(
    locked: &Locked<N, A>,
    me: &mut Caller<N, A>,
) -> u64 {
    locked.glance(me)
}

/// Glances, at most a million times and 50 microseconds apart, until there are so many steps. It sleeps meanwhile, since those who make the steps
/// may want the processor.
fn sees<N: Layer, R: Wait, A: Allocator + Copy>(
    rt: &R,
    locked: &Locked<N, A>,
    me: &mut Caller<N, A>,
    steps: u64,
) -> Came {
    let pause = Condvar::new();
    for _time in 0..1_000_000u32 {
        if steps <= glance(locked, me) {
            return Came::Steps(steps);
        }
        pause.sleep(rt, pause.notifications(), Duration::from_micros(50));
    }
    Came::Other
}

/// What the act comes to.
fn does<N: Layer, R: Wait, A: Allocator + Copy>(
    rt: &R,
    alloc: A,
    locked: &Locked<N, A>,
    me: &mut Caller<N, A>,
    act: &Act,
) -> Came {
    match act {
        Act::Step(ask) => attempt(rt, alloc, locked, me, *ask),
        Act::Steps(times, ask) => attempts(rt, alloc, locked, me, *times, *ask),
        Act::Call(ask) => call(rt, alloc, locked, me, *ask),
        Act::Rounds(times, first, second) => {
            rounds(rt, alloc, locked, me, *times, (*first, *second))
        }
        Act::Drain(count) => drain(rt, alloc, locked, me, *count),
        Act::Turns(ask, turns) => call_turns(rt, alloc, locked, me, *ask, *turns),
        Act::Glance => Came::Steps(glance(locked, me)),
        Act::Sees(steps) => sees(rt, locked, me, *steps),
        Act::Storm(steps) => storm(rt, alloc, locked, me, *steps),
    }
}

/// What the act comes to. Where it finds no memory, the caller sees no step more than before, and does it once more, which is
/// told.
fn tries<N: Layer, R: Wait, A: Allocator + Copy>(
    rt: &R,
    alloc: A,
    locked: &Locked<N, A>,
    me: &mut Caller<N, A>,
    act: &Act,
) -> (Came, bool) {
    let before = glance(locked, me);
    let came = does(rt, alloc, locked, me, act);
    if came != Came::NoMemory {
        return (came, false);
    }
    if glance(locked, me) != before {
        return (Came::Other, true);
    }
    (does(rt, alloc, locked, me, act), true)
}

/// The caller does the acts, in order, up to the first that comes to something else than is wanted.
fn play<N: Layer, R: Wait, A: Allocator + Copy>(
    rt: &R,
    alloc: A,
    locked: &Locked<N, A>,
    me: &mut Caller<N, A>,
    acts: &[(Act, Came)],
) -> Told {
    let mut told = NOTHING;
    for (place, (act, want)) in acts.iter().enumerate() {
        let (came, found_none) = tries(rt, alloc, locked, me, act);
        told.wants = told.wants.wrapping_add(u32::from(found_none));
        if !came.is(*want) {
            told.missed = Some((me.number(), place));
            return told;
        }
        if let Came::Bytes(some, others) = came {
            told = told.and(Told {
                read: (some, others),
                ..NOTHING
            });
        }
    }
    told
}

/// Each caller does the acts of its number, if there are any, one caller after the other.
pub(crate) fn in_turn<N: Layer, R: Wait, A: Allocator + Copy>(
    rt: &R,
    alloc: A,
    locked: &Locked<N, A>,
    acts: &[Acts],
    callers: &mut [Caller<N, A>],
) -> Told {
    let mut told = NOTHING;
    for me in callers.iter_mut() {
        if let Some(own) = acts.get(me.number() as usize) {
            told = told.and(play(rt, alloc, locked, me, own));
        }
    }
    told
}
