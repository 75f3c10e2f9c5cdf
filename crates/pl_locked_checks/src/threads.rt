//! Scenes in threads.
use crate::acts::{Act, Acts, Told, in_turn};
use crate::asked::Ask;
use crate::came::Came;
use crate::left::{Kept, Left};
use crate::scenes::{PIPE, START, Scene, together};
use pl_locked::{Caller, Layer, Locked, StepFault};
use pl_model::Errno;
use std::alloc::Global;
use std::sync::Wait;
use std::test::Fail;
use std::thread::{Threads, join};

/// At most two callers do what the scene says of them at once, each in a thread.
fn both<N: Layer + Send + Sync, R: Threads + Wait + Sync>(
    rt: &R,
    alloc: Global,
    locked: &Locked<N>,
    scene: &Scene,
    callers: &mut [Caller<N>],
) -> Told {
    let middle = callers.len().min(1);
    let (one, other) = callers.split_at_mut(middle);
    let (some, others) = join(
        rt,
        move || in_turn(rt, alloc, locked, scene.at_once, one),
        move || in_turn(rt, alloc, locked, scene.at_once, other),
    );
    some.and(others)
}

/// At most four callers do what the scene says of them at once, each in a thread.
fn all<N: Layer + Send + Sync, R: Threads + Wait + Sync>(
    rt: &R,
    alloc: Global,
    locked: &Locked<N>,
    scene: &Scene,
    callers: &mut [Caller<N>],
) -> Told {
    let middle = callers.len().min(2);
    let (low, high) = callers.split_at_mut(middle);
    let (some, others) = join(
        rt,
        move || both(rt, alloc, locked, scene, low),
        move || both(rt, alloc, locked, scene, high),
    );
    some.and(others)
}

/// The callers, at most four, do all that the scene says: first in turn, and then at once.
pub(crate) fn at_once<N: Layer + Send + Sync, R: Threads + Wait + Sync>(
    rt: &R,
    alloc: Global,
    locked: &Locked<N>,
    scene: &Scene,
    callers: &mut [Caller<N>],
) -> Told {
    let told = in_turn(rt, alloc, locked, scene.in_turn, callers);
    if told.missed.is_some() {
        return told;
    }
    told.and(all(rt, alloc, locked, scene, callers))
}

/// Two callers write to one pipe, a hundred bytes each.
const WRITERS: Scene = Scene {
    name: "two write to one pipe",
    callers: 2,
    max_steps: 1_000,
    in_turn: &[&[START, PIPE]],
    at_once: &[
        &[(Act::Steps(100, Ask::Write("a")), Came::Count(1))],
        &[(Act::Steps(100, Ask::Write("b")), Came::Count(1))],
    ],
    read: (0, 0),
    kept: Kept::Of(&[102, 100]),
    left: Left::HundredOfEach,
};

/// One caller writes two bytes at once, after it has seen that two others wait for a byte each.
const READERS: Scene = Scene {
    name: "two wait for a third",
    callers: 3,
    max_steps: 20,
    in_turn: &[&[START, PIPE]],
    at_once: &[
        &[
            (Act::Sees(4), Came::Steps(4)),
            (Act::Step(Ask::Write("ab")), Came::Count(2)),
        ],
        ONE_READ,
        ONE_READ,
    ],
    read: (1, 1),
    kept: Kept::Of(&[3, 2, 2]),
    left: Left::Anything,
};

/// Three callers wait for a byte each, and one writes the bytes one at a time. Each read is tried again once: no try is in vain, though each byte
/// is for one read of three.
const BYTE_BY_BYTE: Scene = Scene {
    name: "three are served byte by byte",
    callers: 4,
    max_steps: 11,
    in_turn: &[&[START, PIPE]],
    at_once: &[
        &[
            (Act::Sees(5), Came::Steps(5)),
            (Act::Steps(3, Ask::Write("a")), Came::Count(1)),
        ],
        ONE_READ,
        ONE_READ,
        ONE_READ,
    ],
    read: (3, 0),
    kept: Kept::Of(&[5, 2, 2, 2]),
    left: Left::Anything,
};

/// Two callers write an `a` and wait for a `b`, and two wait for an `a` and write a `b`, a thousand times each. A round takes two or three steps
/// of a caller, so the journal is full if a try is in vain.
const PING_PONG: Scene = Scene {
    name: "ping-pong",
    callers: 4,
    max_steps: 12_003,
    in_turn: &[&[START, PIPE, (Act::Step(Ask::Pipe), Came::Fds(2, 3))]],
    at_once: &[PING, PONG, PING, PONG],
    read: (0, 2),
    kept: Kept::Between(8_003, 12_003),
    left: Left::Anything,
};

const PING: Acts = &[(
    Act::Rounds(1_000, Ask::Write("a"), Ask::ReadOther),
    Came::Bytes(0, 1),
)];

const PONG: Acts = &[(
    Act::Rounds(1_000, Ask::Read(1), Ask::WriteOther),
    Came::Count(1),
)];

/// A caller waits for a byte.
const ONE_READ: Acts = &[(READS, Came::OneByte)];

/// A byte that is written only once a read of it is known to wait, and read only once it is known to be written: so neither thread
/// holds the lock while the other needs it.
const TURNS: Scene = Scene {
    name: "a read takes turns",
    callers: 2,
    max_steps: 1_000,
    in_turn: &[&[START, PIPE]],
    at_once: &[
        &[(TAKES_TURNS, Came::Bytes(1, 0))],
        &[
            (Act::Sees(3), Came::Steps(3)),
            (Act::Step(Ask::Write("a")), Came::Count(1)),
        ],
    ],
    read: (1, 0),
    kept: Kept::Of(&[4, 1]),
    left: Left::Anything,
};

/// A read of a byte, which is tried again as often as there are more steps.
const TAKES_TURNS: Act = Act::Turns(Ask::Read(1), u32::MAX);

/// The read is interrupted: its next turn finds no call.
const INTERRUPTS: Scene = Scene {
    name: "a read that takes turns is interrupted",
    callers: 2,
    max_steps: 1_000,
    in_turn: &[&[START, PIPE]],
    at_once: &[
        &[(TAKES_TURNS, Came::NoCall)],
        &[
            (Act::Sees(3), Came::Steps(3)),
            (Act::Step(Ask::Interrupt(1)), Came::Fault(Errno::EINTR)),
        ],
    ],
    read: (0, 0),
    kept: Kept::Of(&[4, 1]),
    left: Left::Anything,
};

/// The process of the read ends: its next turn finds no call.
const ENDS: Scene = Scene {
    name: "the process of a read that takes turns ends",
    callers: 2,
    max_steps: 1_000,
    in_turn: &[&[START, PIPE]],
    at_once: &[
        &[(TAKES_TURNS, Came::NoCall)],
        &[
            (Act::Sees(3), Came::Steps(3)),
            (Act::Step(Ask::Exit(1)), Came::Unit),
        ],
    ],
    read: (0, 0),
    kept: Kept::Of(&[4, 1]),
    left: Left::Anything,
};

/// The byte for the read is the last step that the journal takes: the read stays parked.
const FILLS: Scene = Scene {
    name: "the journal fills behind a read that takes turns",
    callers: 2,
    max_steps: 4,
    in_turn: &[&[START, PIPE]],
    at_once: &[
        &[(TAKES_TURNS, Came::Stays(StepFault::JournalFull, 1))],
        &[
            (Act::Sees(3), Came::Steps(3)),
            (Act::Step(Ask::Write("a")), Came::Count(1)),
        ],
    ],
    read: (0, 0),
    kept: Kept::Of(&[3, 1]),
    left: Left::Anything,
};

/// Three callers wait for a byte each, and sleep, as the bytes for another pipe help none of them. The last of these is the last step that the
/// journal takes: each read stays parked.
const ASLEEP: Scene = Scene {
    name: "three sleep as the journal fills",
    callers: 4,
    max_steps: 2_006,
    in_turn: &[&[START, PIPE, (Act::Step(Ask::Pipe), Came::Fds(2, 3))]],
    at_once: &[
        &[
            (Act::Sees(6), Came::Steps(6)),
            (Act::Steps(2_000, Ask::WriteOther), Came::Count(1)),
            (Act::Step(Ask::Write("a")), Came::Full),
        ],
        &[(READS, Came::Stays(StepFault::JournalFull, 1))],
        &[
            (Act::Sees(4), Came::Steps(4)),
            (READS, Came::Stays(StepFault::JournalFull, 2)),
        ],
        &[
            (Act::Sees(5), Came::Steps(5)),
            (READS, Came::Stays(StepFault::JournalFull, 3)),
        ],
    ],
    read: (0, 0),
    kept: Kept::Of(&[2_003, 1, 1, 1]),
    left: Left::Anything,
};

/// A read of a byte, which waits.
const READS: Act = Act::Call(Ask::Read(1));

/// A read and a write that are both longer than the pipe wait for each other: the write that begins to wait has put bytes in, of which
/// the reader is told.
const LONG_READ: Scene = Scene {
    name: "a long read beside a long write",
    callers: 2,
    max_steps: 100,
    in_turn: &[&[START, PIPE]],
    at_once: &[
        &[(Act::Call(Ask::Read(70_000)), Came::Bytes(65_536, 0))],
        &[(Act::Call(Ask::WriteLong(70_000)), Came::Count(70_000))],
    ],
    read: (65_536, 0),
    kept: Kept::Between(5, 6),
    left: Left::Anything,
};

/// A write puts bytes in at several turns, and is read whole: of each turn the reader is told.
const LONG_WRITE: Scene = Scene {
    name: "a write of several turns",
    callers: 2,
    max_steps: 1_000,
    in_turn: &[&[START, PIPE]],
    at_once: &[
        &[(Act::Drain(300_000), Came::Bytes(300_000, 0))],
        &[(Act::Call(Ask::WriteLong(300_000)), Came::Count(300_000))],
    ],
    read: (300_000, 0),
    kept: Kept::Between(12, 17),
    left: Left::Anything,
};

/// One caller waits on a pipe, and then another on another pipe. A byte for the second one reaches it; the second then writes for the first.
const TWO_PIPES: Scene = Scene {
    name: "two wait on two pipes",
    callers: 3,
    max_steps: 100,
    in_turn: &[&[START, PIPE, (Act::Step(Ask::Pipe), Came::Fds(2, 3))]],
    at_once: &[
        &[
            (Act::Sees(5), Came::Steps(5)),
            (Act::Step(Ask::WriteOther), Came::Count(1)),
        ],
        &[(Act::Call(Ask::Read(1)), Came::Bytes(1, 0))],
        &[
            (Act::Sees(4), Came::Steps(4)),
            (Act::Call(Ask::ReadOther), Came::Bytes(0, 1)),
            (Act::Step(Ask::Write("a")), Came::Count(1)),
        ],
    ],
    read: (1, 1),
    kept: Kept::Of(&[4, 2, 3]),
    left: Left::Anything,
};

/// Four callers do this and that.
const STORM: Scene = Scene {
    name: "a storm",
    callers: 4,
    max_steps: 2_000,
    in_turn: STORMED,
    at_once: &[BLOWS, BLOWS, BLOWS, BLOWS],
    read: (0, 0),
    kept: Kept::Of(&[203, 200, 200, 200]),
    left: Left::Nothing,
};

/// The same for longer, up to the last step that the journal takes.
const LONG_STORM: Scene = Scene {
    name: "a long storm",
    callers: 4,
    max_steps: 2_003,
    in_turn: STORMED,
    at_once: &[BLOWS_LONG, BLOWS_LONG, BLOWS_LONG, BLOWS_LONG],
    read: (0, 0),
    kept: Kept::Of(&[503, 500, 500, 500]),
    left: Left::Nothing,
};

/// What is there before a storm: a process with a pipe, and a FIFO.
const STORMED: &[Acts] = &[&[START, PIPE, (Act::Step(Ask::Mkfifo), Came::Unit)]];

const BLOWS: Acts = &[(Act::Storm(200), Came::Unit)];

const BLOWS_LONG: Acts = &[(Act::Storm(500), Came::Unit)];

#[test]
fn callers_in_threads(rt: HostRuntime) -> Result<(), Fail> {
    for scene in [&WRITERS, &READERS, &TURNS] {
        assert!(rt; together(&rt, rt.alloc(), scene)? == 0);
    }
    Ok(())
}

#[test]
fn turns_that_come_too_late(rt: HostRuntime) -> Result<(), Fail> {
    for scene in [&INTERRUPTS, &ENDS, &FILLS] {
        assert!(rt; together(&rt, rt.alloc(), scene)? == 0);
    }
    Ok(())
}

#[test]
fn callers_that_wait_are_told(rt: HostRuntime) -> Result<(), Fail> {
    for scene in [&LONG_READ, &LONG_WRITE, &TWO_PIPES, &BYTE_BY_BYTE] {
        assert!(rt; together(&rt, rt.alloc(), scene)? == 0);
    }
    Ok(())
}

#[test]
fn nobody_sleeps_at_a_full_journal(rt: HostRuntime) -> Result<(), Fail> {
    for _time in 0..20u8 {
        assert!(rt; together(&rt, rt.alloc(), &ASLEEP)? == 0);
    }
    Ok(())
}

#[test]
fn nobody_waits_for_ever(rt: HostRuntime) -> Result<(), Fail> {
    for _time in 0..20u8 {
        assert!(rt; together(&rt, rt.alloc(), &PING_PONG)? == 0);
    }
    Ok(())
}

#[test]
fn twenty_storms(rt: HostRuntime) -> Result<(), Fail> {
    for _storm in 0..20u8 {
        assert!(rt; together(&rt, rt.alloc(), &STORM)? == 0);
    }
    assert!(rt; together(&rt, rt.alloc(), &LONG_STORM)? == 0);
    Ok(())
}
