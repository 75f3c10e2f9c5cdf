//! Scenes in one thread, some of them also where each request for memory is refused in turn.
use crate::acts::{Act, Acts};
use crate::asked::Ask;
use crate::came::Came;
use crate::left::{Kept, Left};
use crate::scenes::{PIPE, START, Scene, alone};
use pl_refusing::{MOST_REQUESTS, Refusing, all_were_refused};
use std::alloc::Global;
use std::sync::Wait;
use std::test::Fail;

/// The journal takes three steps, and refuses the fourth.
const FILLS: Scene = Scene {
    name: "the journal fills",
    callers: 1,
    max_steps: 3,
    in_turn: &[&[
        START,
        PIPE,
        (Act::Call(Ask::Write("a")), Came::Count(1)),
        (Act::Step(Ask::Read(1)), Came::Full),
        (Act::Glance, Came::Steps(3)),
    ]],
    at_once: &[],
    read: (0, 0),
    kept: Kept::Of(&[3]),
    left: Left::Anything,
};

/// The journal takes no step.
const TAKES_NONE: Scene = Scene {
    name: "the journal takes no step",
    callers: 1,
    max_steps: 0,
    in_turn: &[&[
        (Act::Step(Ask::Start), Came::Full),
        (Act::Glance, Came::Steps(0)),
    ]],
    at_once: &[],
    read: (0, 0),
    kept: Kept::Of(&[0]),
    left: Left::Anything,
};

/// What one caller writes another reads, which doesn't have to wait.
const HANDS_OVER: Scene = Scene {
    name: "a byte goes from caller to caller",
    callers: 2,
    max_steps: 1_000,
    in_turn: &[
        &[START, PIPE, (Act::Step(Ask::Write("a")), Came::Count(1))],
        &[(Act::Call(Ask::Read(1)), Came::Bytes(1, 0))],
    ],
    at_once: &[],
    read: (1, 0),
    kept: Kept::Of(&[3, 1]),
    left: Left::Anything,
};

/// A read that nobody answers takes its turns, and waits on: it is tried again only where there are more steps.
const NO_BYTE: Scene = Scene {
    name: "a read waits on after its turns",
    callers: 1,
    max_steps: 1_000,
    in_turn: &[&[
        START,
        PIPE,
        (Act::Turns(Ask::Read(1), 1_000), Came::Parked(1)),
    ]],
    at_once: &[],
    read: (0, 0),
    kept: Kept::Of(&[3]),
    left: Left::Anything,
};

#[test]
fn callers_in_one_thread(rt: HostRuntime) -> Result<(), Fail> {
    for scene in [&FILLS, &TAKES_NONE, &HANDS_OVER, &NO_BYTE] {
        assert!(rt; alone(&rt, rt.alloc(), scene)? == 0);
    }
    Ok(())
}

/// A byte is written and read.
const FOUR_STEPS: Scene = Scene {
    name: "a layer in scarce memory",
    callers: 1,
    max_steps: 4,
    in_turn: &[&[
        START,
        PIPE,
        (Act::Step(Ask::Write("a")), Came::Count(1)),
        (Act::Step(Ask::Read(9)), Came::Bytes(1, 0)),
    ]],
    at_once: &[],
    read: (1, 0),
    kept: Kept::Of(&[4]),
    left: Left::Anything,
};

/// Plays the scene on a new ground, and once more if something found no memory: that is at most once, and only where a request is
/// refused.
fn plays<R: Wait>(rt: &R, heap: &Refusing<Global>, scene: &Scene) -> Result<(), Fail> {
    let wants = alone(rt, heap, scene)?;
    if wants > u32::from(heap.refused()) || (wants != 0 && alone(rt, heap, scene)? != 0) {
        let name = scene.name;
        return Err(Fail::new(format_args!("{name}: {wants} found no memory")));
    }
    Ok(())
}

/// Plays the scene with each request for memory refused in turn, until none is.
fn refuse_each<R: Wait>(rt: &R, heap: &Refusing<Global>, scene: &Scene) -> Result<(), Fail> {
    for request in 1..=MOST_REQUESTS {
        heap.refuse(request);
        plays(rt, heap, scene)?;
        if !heap.refused() {
            break;
        }
    }
    all_were_refused(heap, scene.name)
}

#[test]
fn each_request_is_refused_once(rt: HostRuntime) -> Result<(), Fail> {
    let heap = Refusing::new(rt.alloc());
    for scene in [&FOUR_STEPS, &FILLS, &HANDS_OVER] {
        refuse_each(&rt, &heap, scene)?;
    }
    Ok(())
}
