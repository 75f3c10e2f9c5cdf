//! Journals that are no longer what happened.
use crate::asked::{Ask, step_of};
use pl_kernel::Kernel;
use pl_locked::Journal;
use pl_model::{Entry, Reply};
use pl_testing::LIMITS;
use std::alloc::Global;
use std::test::Fail;

/// The steps of process 1: it starts, makes a pipe, and then writes a byte and reads it, again and again.
fn ask(place: u32) -> Ask {
    match place {
        0 => Ask::Start,
        1 => Ask::Pipe,
        _ if place % 2 == 0 => Ask::Write("a"),
        _ => Ask::Read(1),
    }
}

/// Makes the step of this place, and adds its entry: two callers make them in turn. Whether there is memory.
fn add(alloc: Global, kernel: &mut Kernel, entries: &mut Vec<Entry>, place: u32) -> bool {
    let (Some(made), Some(step)) = (step_of(alloc, ask(place)), step_of(alloc, ask(place))) else {
        return false;
    };
    match kernel.step(made) {
        Ok(reply) => {
            let entry = Entry {
                caller: place % 2,
                number: u64::from(place / 2),
                step,
                reply,
            };
            entries.push(entry).is_ok()
        }
        Err(_) => false,
    }
}

/// Adds a hundred entries. Whether there is memory.
fn add_all(alloc: Global, kernel: &mut Kernel, entries: &mut Vec<Entry>) -> bool {
    for place in 0..100u32 {
        if !add(alloc, kernel, entries, place) {
            return false;
        }
    }
    true
}

/// Makes a hundred steps on a new kernel, and adds their entries. Whether there is memory.
fn fill(alloc: Global, entries: &mut Vec<Entry>) -> bool {
    let mut kernel = Kernel::new(alloc, LIMITS);
    add_all(alloc, &mut kernel, entries)
}

/// What is changed in an entry.
#[derive(Clone, Copy)]
enum Change {
    Nothing,
    Reply,
    Number,
    Caller,
}

/// Changes the write of a byte that caller 0 made as its step 25. Whether it is there.
fn make_change(entries: &mut Vec<Entry>, change: Change) -> bool {
    let Some(entry) = entries.get_mut(50) else {
        return false;
    };
    match change {
        Change::Nothing => {}
        Change::Reply => entry.reply = Reply::Unit,
        Change::Number => entry.number = 26,
        Change::Caller => entry.caller = 1,
    }
    true
}

/// Whether the entries replay, with one of them changed. `None` where there is no memory.
fn replays(alloc: Global, how: Change) -> Option<bool> {
    let mut entries = Vec::new(alloc);
    let is_changed = fill(alloc, &mut entries) && make_change(&mut entries, how);
    let replays = Journal::from_vec(entries).replay(alloc, LIMITS);
    if is_changed { replays.ok() } else { None }
}

#[test]
fn a_change_is_found(rt: HostRuntime) -> Result<(), Fail> {
    let alloc = rt.alloc();
    assert_eq!(rt; replays(alloc, Change::Nothing), Some(true));
    for how in [Change::Reply, Change::Number, Change::Caller] {
        assert_eq!(rt; replays(alloc, how), Some(false));
    }
    Ok(())
}
