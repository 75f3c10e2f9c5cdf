//! What the callers of a layer do.
use pl_locked::{Caller, Layer, Locked};
use pl_model::{Bytes8, Call, Reply, Step};
use std::alloc::Allocator;
use std::sync::Wait;

/// How many bytes a small write has, and a large one.
const SMALL: u32 = 64;

const LARGE: u32 = 65_536;

/// How many pipes there are: one for each of four callers. That of caller k has the descriptors 2k and 2k + 1.
const PIPES: u32 = 4;

/// After how many rounds the journal is handed out, where it is.
const HANDED: u32 = 100;

/// A job of the callers.
#[derive(Clone, Copy, PartialEq)]
pub(crate) enum Job {
    /// One caller writes 64 bytes and reads them, on a layer that has one.
    Alone,
    /// The same, and the journal is handed out every hundred rounds, and dropped.
    Handed,
    /// The first on a layer of 64 callers.
    Pairs,
    /// Two callers answer each other's byte.
    PingPong,
    /// One caller writes a byte, for which 63 wait.
    Readers,
    /// Whoever reads it answers before the next one.
    Answered,
    /// One caller writes pieces of 64 KiB, and another reads them.
    Stream,
    /// One caller glances, a thousand times a round.
    Glance,
    /// So many callers write 64 bytes and read them, each at a pipe of its own.
    Own(u32),
    /// So many callers do so at one pipe.
    One(u32),
}

impl Job {
    pub(crate) fn named(name: &str) -> Option<Job> {
        Some(match name {
            "alone" => Job::Alone,
            "handed" => Job::Handed,
            "pairs" => Job::Pairs,
            "pingpong" => Job::PingPong,
            "readers" => Job::Readers,
            "answered" => Job::Answered,
            "stream" => Job::Stream,
            "glance" => Job::Glance,
            "own2" => Job::Own(2),
            "own4" => Job::Own(4),
            "one2" => Job::One(2),
            "one4" => Job::One(4),
            _ => return None,
        })
    }

    /// How many callers the layer has.
    pub(crate) fn callers(self) -> u32 {
        match self {
            Job::Alone | Job::Handed | Job::Glance => 1,
            Job::Pairs | Job::Readers | Job::Answered => 64,
            Job::PingPong | Job::Stream => 2,
            Job::Own(count) | Job::One(count) => count,
        }
    }
}

/// Starts process 1, and makes its pipes.
pub(crate) fn begin<N: Layer, R: Wait, A: Allocator + Copy>(
    rt: &R,
    locked: &Locked<N, A>,
    me: &mut Caller<N, A>,
) -> bool {
    if locked.attempt(rt, me, Step::Start).is_err() {
        return false;
    }
    for _ in 0..PIPES {
        let pipe = Step::Begin(
            1,
            Call::Pipe {
                nonblock: false,
                direct: false,
            },
        );
        if locked.attempt(rt, me, pipe).is_err() {
            return false;
        }
    }
    true
}

/// A write of so many bytes.
fn write<A: Allocator>(alloc: A, fd: i32, len: u32) -> Option<Call<A>> {
    let bytes = Bytes8::from_vec(Vec::from_elem(alloc, b'a', len as usize).ok()?)?;
    Some(Call::Write { fd, bytes })
}

/// The caller writes, and waits until all is written.
fn put<N: Layer, R: Wait, A: Allocator + Copy>(
    rt: &R,
    alloc: A,
    locked: &Locked<N, A>,
    me: &mut Caller<N, A>,
    fd: i32,
    len: u32,
) -> bool {
    match write(alloc, fd, len) {
        Some(call) => locked.call(rt, me, 1, call).is_ok(),
        None => false,
    }
}

/// The caller reads, and waits for bytes. It tells how many came.
fn get<N: Layer, R: Wait, A: Allocator + Copy>(
    rt: &R,
    locked: &Locked<N, A>,
    me: &mut Caller<N, A>,
    fd: i32,
    n: u32,
) -> usize {
    match locked.call(rt, me, 1, Call::Read { fd, n }) {
        Ok(Reply::Bytes(bytes)) => bytes.as_slice().len(),
        _ => 0,
    }
}

/// The caller writes 64 bytes and reads them, so many times, by steps that wait for nothing.
fn pairs<N: Layer, R: Wait, A: Allocator + Copy>(
    rt: &R,
    alloc: A,
    locked: &Locked<N, A>,
    me: &mut Caller<N, A>,
    pipe: u32,
    rounds: u32,
) -> bool {
    let fd = (pipe % PIPES) as i32 * 2;
    for _ in 0..rounds {
        let Some(call) = write(alloc, fd + 1, SMALL) else {
            return false;
        };
        let read = Call::Read { fd, n: SMALL };
        if locked.attempt(rt, me, Step::Begin(1, call)).is_err()
            || locked.attempt(rt, me, Step::Begin(1, read)).is_err()
        {
            return false;
        }
    }
    true
}

/// The same by parts of so many rounds, and behind each the journal is handed out.
fn handed<N: Layer, R: Wait, A: Allocator + Copy>(
    rt: &R,
    alloc: A,
    locked: &Locked<N, A>,
    me: &mut Caller<N, A>,
    rounds: u32,
) -> bool {
    for _ in 0..rounds / HANDED {
        if !pairs(rt, alloc, locked, me, 0, HANDED) {
            return false;
        }
        drop(locked.hand_out(rt, me));
    }
    true
}

/// The caller glances so many thousand times.
fn glances<N: Layer, A: Allocator + Copy>(
    locked: &Locked<N, A>,
    me: &mut Caller<N, A>,
    rounds: u32,
) -> bool {
    for _ in 0..rounds {
        for _ in 0..1000 {
            let _steps = locked.glance(me);
        }
    }
    true
}

/// The caller writes so many pieces, and waits for an answer after each if it is to. Then it closes the write end.
fn send<N: Layer, R: Wait, A: Allocator + Copy>(
    rt: &R,
    alloc: A,
    locked: &Locked<N, A>,
    me: &mut Caller<N, A>,
    len: u32,
    rounds: u32,
    answered: bool,
) -> bool {
    for _ in 0..rounds {
        if !put(rt, alloc, locked, me, 1, len) || answered && get(rt, locked, me, 2, 1) != 1 {
            return false;
        }
    }
    let close = Step::Begin(1, Call::Close { fd: 1 });
    locked.attempt(rt, me, close).is_ok()
}

/// The caller reads until the other end is closed, and answers each piece if it is to.
fn receive<N: Layer, R: Wait, A: Allocator + Copy>(
    rt: &R,
    alloc: A,
    locked: &Locked<N, A>,
    me: &mut Caller<N, A>,
    len: u32,
    answered: bool,
) -> bool {
    for _ in 0..u32::MAX {
        if get(rt, locked, me, 0, len) == 0 {
            return true;
        }
        if answered && !put(rt, alloc, locked, me, 3, 1) {
            return false;
        }
    }
    false
}

/// What a caller does of a job, by its number.
pub(crate) fn work<N: Layer, R: Wait, A: Allocator + Copy>(
    rt: &R,
    alloc: A,
    locked: &Locked<N, A>,
    me: &mut Caller<N, A>,
    job: Job,
    rounds: u32,
) -> bool {
    let number = me.number();
    let (len, answered) = match job {
        Job::Own(_) => return pairs(rt, alloc, locked, me, number, rounds),
        Job::One(_) => return pairs(rt, alloc, locked, me, 0, rounds),
        Job::Glance => return glances(locked, me, rounds),
        Job::Handed => return handed(rt, alloc, locked, me, rounds),
        Job::Alone | Job::Pairs if number == 0 => {
            return pairs(rt, alloc, locked, me, 0, rounds);
        }
        Job::Alone | Job::Pairs => return true,
        Job::Readers => (1, false),
        Job::PingPong | Job::Answered => (1, true),
        Job::Stream => (LARGE, false),
    };
    if number == 0 {
        send(rt, alloc, locked, me, len, rounds, answered)
    } else {
        receive(rt, alloc, locked, me, len, answered)
    }
}
