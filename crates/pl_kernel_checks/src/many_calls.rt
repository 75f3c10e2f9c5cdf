//! Two hundred calls of one process wait, and it exits: its calls are gone with it (POSIX.1-2017, _exit).
use pl_model::{Errno, Mode, OpenFlags, SpliceFlags};
use pl_testing::LIMITS;
use pl_testing::asked::Ask::{
    self, Close, Exit, Fork, Interrupt, Mkfifo, Open, Pipe, PollWait, Read, Resume, Splice, Start,
    Tee, Write,
};
use pl_testing::asked::Data::{self, Many, Text};
use pl_testing::asked::Want::{self, Bytes, Count, Fault, Fds, NoCall, Parked, Pid, Unit};
use pl_testing::bench::Bench;
use pl_testing::masks::IN;
use std::test::Fail;

const CALLS: u64 = 200;

/// More bytes than a pipe takes.
const LARGE: usize = 70_000;

const WITHOUT_WRITER: Data = Text("w");

const WITHOUT_READER: Data = Text("r");

const WITHOUT: &[SpliceFlags] = &[];

/// Process 1 has an empty pipe, whose ends are 0 and 1, and a full one, whose ends are 2 and 3. It has no end of the two FIFOs. Its call 1
/// waits on.
const BEFORE: &[(Ask, Want)] = &[
    (Start, Pid(1)),
    (Pipe(1), Fds(0, 1)),
    (Pipe(1), Fds(2, 3)),
    (Write(1, 3, Many(b'x', 65_536)), Count(65_536)),
    (Mkfifo(1, WITHOUT_WRITER), Unit),
    (Mkfifo(1, WITHOUT_READER), Unit),
    (Read(1, 0, 9), Parked(1)),
];

/// Nothing was done of what the calls of process 2 waited for, and the ends that they kept are gone.
const BEHIND: &[(Ask, Want)] = &[
    (
        Open(1, WITHOUT_WRITER, Mode::Write, &[OpenFlags::NONBLOCK]),
        Fault(Errno::ENXIO),
    ),
    (Open(1, WITHOUT_READER, Mode::Read, &[]), Parked(402)),
    (Interrupt(402), Fault(Errno::EINTR)),
    (Write(1, 1, Text("hello")), Count(5)),
    (Resume(1), Bytes(Text("hello"))),
    (Read(1, 2, 70_000), Bytes(Many(b'x', 65_536))),
    (Close(1, 3), Unit),
    (Read(1, 2, 70_000), Bytes(Text(""))),
];

/// A call of process 2 that waits, of eight kinds.
fn call_that_waits(kind: u64) -> Ask {
    match kind % 8 {
        0 => Read(2, 0, 100),
        1 => Write(2, 3, Text("z")),
        2 => Write(2, 3, Many(b'z', LARGE)),
        3 => Splice(2, (0, None), (3, None), 100, WITHOUT),
        4 => Tee(2, 0, 3, 100, WITHOUT),
        5 => PollWait(2, &[(0, IN)]),
        6 => Open(2, WITHOUT_WRITER, Mode::Read, &[]),
        _ => Open(2, WITHOUT_READER, Mode::Write, &[]),
    }
}

/// No call waits under the two hundred numbers from the first on.
fn no_call_waits(bench: &mut Bench, first: u64) -> Result<(), Fail> {
    for number in first..first.saturating_add(CALLS) {
        bench.answers(Resume(number), NoCall)?;
        bench.answers(Interrupt(number), NoCall)?;
    }
    Ok(())
}

/// Process 2 begins the calls, of which the first has this number, and exits. Neither has another process of the same pid one of them.
fn exits_with_many_calls(bench: &mut Bench, first: u64) -> Result<(), Fail> {
    bench.answers(Fork(1), Pid(2))?;
    for number in first..first.saturating_add(CALLS) {
        bench.answers(call_that_waits(number), Parked(number))?;
    }
    bench.answers(Exit(2), Unit)?;
    no_call_waits(bench, first)?;
    bench.answers(Fork(1), Pid(2))?;
    no_call_waits(bench, first)?;
    bench.answers(Exit(2), Unit)
}

fn exits_twice(bench: &mut Bench) -> Result<(), Fail> {
    bench.all_answer(BEFORE)?;
    exits_with_many_calls(bench, 2)?;
    exits_with_many_calls(bench, 202)?;
    bench.all_answer(BEHIND)?;
    bench.ends_empty(&[WITHOUT_WRITER, WITHOUT_READER])
}

#[test]
fn an_exit_with_two_hundred_calls(rt: HostRuntime) -> Result<(), Fail> {
    let mut bench = Bench::new("two_hundred_calls", rt.alloc(), rt.alloc(), LIMITS)?;
    exits_twice(&mut bench)
}
