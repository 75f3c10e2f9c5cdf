//! Parked calls: their numbers, up to the last one, and what a want of memory leaves.
mod calls;
mod meetings;
mod orders;

use crate::equal::is;
use calls::{Bench, Kind};
use meetings::{MEETINGS, Meeting, meet};
use orders::{CALLS, ENDED, ORDERS, are_all_taken, is_taken_back_after, park_all, pid_of};
use pl_model::Mode;
use pl_parked::ParkFault;
use pl_refusing::Refusing;
use std::alloc::{Allocator, Global};
use std::process::Abort;

/// The greatest number that a call gets.
const LAST: u64 = 18_446_744_073_709_551_614;

/// What is asked of the parked calls. A call is named by its number.
#[derive(Clone, Copy)]
enum Ask {
    Spent,
    NextNumber,
    /// A call of the process is parked.
    Park(u32, Kind),
    /// One is parked, stands, and is taken back.
    TakeBack(u32, Kind),
    Get(u64),
    Take(u64),
    /// The least number of a call of the process, from a number on.
    NextOf(u32, u64),
    /// The call has taken so many bytes.
    SetTaken(u64, u32),
    /// The FIFO of a pipe is opened.
    MarkMet(usize, Mode),
}

/// What is answered.
#[derive(Clone, Copy, Debug, PartialEq)]
enum Answer {
    Is(bool),
    Number(u64),
    /// The call of a process, whole as it was parked.
    Call(u32, Kind),
    Changed,
    Nothing,
    Done,
    Fault(ParkFault),
}

/// What is asked, and what is to be answered.
type Row = (Ask, Answer);

use Answer::{Done, Fault, Is, Nothing, Number};
use Ask::{Get, MarkMet, NextNumber, NextOf, Park, SetTaken, Spent, Take, TakeBack};
use Kind::{Open, Read, Write};

/// The first number, and rows.
const SESSIONS: &[(u64, &[Row])] = &[
    // The last number is given, and no number is given again.
    (
        LAST,
        &[
            (Spent, Is(false)),
            (Park(1, Read(10)), Number(LAST)),
            (Spent, Is(true)),
            (Park(1, Read(11)), Fault(ParkFault::CallsSpent)),
            (Take(LAST), Answer::Call(1, Read(10))),
            (Take(LAST), Nothing),
            (Park(1, Read(12)), Fault(ParkFault::CallsSpent)),
        ],
    ),
    // A call that is taken back gives up its number.
    (
        1,
        &[
            (Park(1, Read(10)), Number(1)),
            (TakeBack(2, Read(20)), Answer::Call(2, Read(20))),
            (Get(2), Nothing),
            (Park(3, Read(30)), Number(2)),
            (Get(1), Answer::Call(1, Read(10))),
        ],
    ),
    // The calls of a process come in order.
    (
        1,
        &[
            (NextOf(1, 0), Nothing),
            (Park(2, Read(10)), Number(1)),
            (Park(1, Read(10)), Number(2)),
            (Park(2, Read(10)), Number(3)),
            (Park(1, Read(10)), Number(4)),
            (NextOf(1, 0), Number(2)),
            (NextOf(2, 0), Number(1)),
            (NextOf(3, 0), Nothing),
            (NextOf(2, 1), Number(1)),
            (NextOf(2, 2), Number(3)),
            (NextOf(2, 4), Nothing),
            (NextOf(2, u64::MAX), Nothing),
            (Take(2), Answer::Call(1, Read(10))),
            (NextOf(1, 0), Number(4)),
            (Take(4), Answer::Call(1, Read(10))),
            (NextOf(1, 0), Nothing),
        ],
    ),
    // Any pid has calls of its own, also where pids are 1,024 apart.
    (
        1,
        &[
            (Park(3, Read(10)), Number(1)),
            (Park(1_027, Read(10)), Number(2)),
            (Park(3, Read(10)), Number(3)),
            (Park(4_099, Read(10)), Number(4)),
            (NextOf(3, 2), Number(3)),
            (NextOf(1_027, 0), Number(2)),
            (NextOf(2_051, 0), Nothing),
            (NextOf(4_099, 0), Number(4)),
            (NextOf(u32::MAX, 0), Nothing),
            (Take(2), Answer::Call(1_027, Read(10))),
            (NextOf(1_027, 0), Nothing),
            (NextOf(3, 0), Number(1)),
        ],
    ),
    // A write takes more bytes, and another one doesn't.
    (
        1,
        &[
            (Park(1, Write(0)), Number(1)),
            (Park(1, Write(1)), Number(2)),
            (SetTaken(2, 2), Done),
            (Get(1), Answer::Call(1, Write(0))),
            (Get(2), Answer::Call(1, Write(2))),
        ],
    ),
];

/// Each row is answered as it says.
fn are_answered<A: Allocator + Copy>(rt: &impl Abort, bench: &mut Bench<'_, A>, rows: &[Row]) {
    for (ask, want) in rows {
        let answer = bench.answer(*ask);
        is(rt, "parked calls", answer, *want);
    }
}

/// No number is left for a call, and it asks for no memory.
fn is_spent<A: Allocator + Copy>(rt: &impl Abort, bench: &mut Bench<'_, A>) {
    are_answered(rt, bench, &[(Spent, Is(true))]);
    let answer = bench.park(1, Read(10), 1);
    is(rt, "parked", answer, Fault(ParkFault::CallsSpent));
    is(rt, "requests", bench.heap.requests(), 0);
}

/// Parks the only call of a process, whose number is the process's, where a request for memory is refused. Answers whether it
/// was refused: then all is as it was, and once there is memory the call is parked under the same number.
fn is_refused<A: Allocator + Copy>(
    rt: &impl Abort,
    bench: &mut Bench<'_, A>,
    pid: u32,
    kind: Kind,
    request: u64,
) -> bool {
    let number = u64::from(pid);
    let answer = bench.park(pid, kind, request);
    let is_refused = bench.heap.refused();
    bench.heap.refuse(0);
    if is_refused {
        is(rt, "parked", answer, Fault(ParkFault::NoMemory));
        let again = [
            (NextNumber, Number(number)),
            (Get(number), Nothing),
            (NextOf(pid, 0), Nothing),
            (Park(pid, kind), Number(number)),
        ];
        are_answered(rt, bench, &again);
    } else {
        is(rt, "parked", answer, Number(number));
    }
    are_answered(rt, bench, &[(Get(number), Answer::Call(pid, kind))]);
    is_refused
}

/// The first call is refused memory at the request, and all goes on. Then opens are met, which takes no memory.
fn some_are_refused<A: Allocator + Copy>(
    rt: &impl Abort,
    bench: &mut Bench<'_, A>,
    kind: Kind,
    request: u64,
) {
    let first = is_refused(rt, bench, 1, kind, request);
    is(rt, "the first call is refused memory", first, true);
    for pid in 2..20u32 {
        is_refused(rt, bench, pid, kind, request);
    }
    bench.heap.refuse(1);
    are_answered(rt, bench, &[(MarkMet(7, Mode::Write), Done)]);
    for pid in 1..20u32 {
        let met = Answer::Call(pid, kind.met());
        are_answered(rt, bench, &[(Get(u64::from(pid)), met)]);
    }
    is(rt, "requests", bench.heap.requests(), 0);
}

/// Each call is taken, the least of its process first, and none asks for memory.
fn are_taken_without_memory<A: Allocator + Copy>(rt: &impl Abort, bench: &mut Bench<'_, A>) {
    park_all(rt, bench);
    bench.heap.refuse(1);
    for call in 1..CALLS + 1 {
        let (pid, number) = (pid_of(call), u64::from(call));
        let rows = [
            (NextOf(pid, 0), Number(number)),
            (Take(number), Answer::Call(pid, Read(call))),
        ];
        are_answered(rt, bench, &rows);
    }
    is(rt, "requests", bench.heap.requests(), 0);
}

/// What is tried on parked calls that are new.
#[derive(Clone, Copy)]
enum Trial {
    AreAnswered(&'static [Row]),
    Meet(Meeting),
    IsSpent,
    AreAllTaken(&'static [u32]),
    IsTakenBackAfter(&'static [u32]),
    SomeAreRefused(Kind, u64),
    AreTakenWithoutMemory,
}

fn tries<A: Allocator + Copy>(rt: &impl Abort, bench: &mut Bench<'_, A>, trial: Trial) {
    match trial {
        Trial::AreAnswered(rows) => are_answered(rt, bench, rows),
        Trial::Meet(meeting) => meet(rt, bench, meeting),
        Trial::IsSpent => is_spent(rt, bench),
        Trial::AreAllTaken(order) => are_all_taken(rt, bench, order),
        Trial::IsTakenBackAfter(ended) => is_taken_back_after(rt, bench, ended),
        Trial::SomeAreRefused(kind, request) => some_are_refused(rt, bench, kind, request),
        Trial::AreTakenWithoutMemory => are_taken_without_memory(rt, bench),
    }
}

/// Tries it on calls whose first gets the number. They stand here alone, so that the end of them is proved once.
fn meets(rt: &impl Abort, alloc: Global, first: u64, trial: Trial) {
    let heap = Refusing::new(alloc);
    let mut bench = Bench::new(&heap, &heap, first);
    tries(rt, &mut bench, trial);
}

#[test]
fn each_session_is_answered(rt: HostRuntime) {
    for (first, rows) in SESSIONS {
        meets(&rt, rt.alloc(), *first, Trial::AreAnswered(*rows));
    }
    meets(&rt, rt.alloc(), LAST + 1, Trial::IsSpent);
}

#[test]
fn opens_meet_those_that_wait_for_them(rt: HostRuntime) {
    for meeting in MEETINGS {
        meets(&rt, rt.alloc(), 1, Trial::Meet(*meeting));
    }
}

#[test]
fn calls_end_in_any_order(rt: HostRuntime) {
    for order in ORDERS {
        meets(&rt, rt.alloc(), 1, Trial::AreAllTaken(*order));
    }
    for ended in ENDED {
        meets(&rt, rt.alloc(), 1, Trial::IsTakenBackAfter(*ended));
    }
}

#[test]
fn a_want_of_memory_changes_nothing(rt: HostRuntime) {
    for request in 1..3u64 {
        meets(&rt, rt.alloc(), 1, Trial::SomeAreRefused(Read(10), request));
        let open = Open(7, Mode::Read, false);
        meets(&rt, rt.alloc(), 1, Trial::SomeAreRefused(open, request));
    }
    // The first listing of an open is taken back where there is no memory for the second.
    let open = Open(7, Mode::Read, false);
    meets(&rt, rt.alloc(), 1, Trial::SomeAreRefused(open, 3));
    meets(&rt, rt.alloc(), 1, Trial::AreTakenWithoutMemory);
}
