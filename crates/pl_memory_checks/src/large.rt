//! Want of memory where all bytes of a full pipe of the greatest capacity go over at once.
use crate::made_again::{make_each, make_one};
use crate::scarce::Scarce;
use pl_model::Errno::EAGAIN;
use pl_model::Whence::End;
use pl_model::{Mode, OpenFlags, SpliceFlags};
use pl_refusing::{MOST_REQUESTS, Refusing, all_were_refused};
use pl_testing::asked::Ask::{
    self, Lseek, Open, Pipe, PipeNonblock, Read, SetPipeSz, Splice, Start, Tee, Write,
};
use pl_testing::asked::Data::{self, Many, Part, Text};
use pl_testing::asked::Want::{self, Bytes, Count, Fault, Fd, Fds, Offset, Pid, Size};
use std::alloc::Global;
use std::test::Fail;

const F: Data = Text("f");

const NEW: &[OpenFlags] = &[OpenFlags::CREAT, OpenFlags::EXCL];

const WITHOUT: &[SpliceFlags] = &[];

const ALL: Want = Bytes(Part(0, 1_048_576));

const EMPTY: Want = Fault(EAGAIN);

/// A full pipe of the greatest capacity, an empty one, and an empty file.
const ENDS: &[(Ask, Want)] = &[
    (Start, Pid(1)),
    (PipeNonblock(1), Fds(0, 1)),
    (PipeNonblock(1), Fds(2, 3)),
    (Open(1, F, Mode::Both, NEW), Fd(4)),
    (SetPipeSz(1, 0, 1_048_576), Size(1_048_576)),
    (SetPipeSz(1, 2, 1_048_576), Size(1_048_576)),
    (Write(1, 1, Part(0, 1_048_576)), Count(1_048_576)),
];

/// What they answer where no byte has gone over.
const NOTHING_WENT: &[(Ask, Want)] = &[
    (Read(1, 2, 9), EMPTY),
    (Lseek(1, 4, 0, End), Offset(0)),
    (Read(1, 0, 1_048_576), ALL),
    (Read(1, 0, 9), EMPTY),
];

/// A step with which all bytes go over.
#[derive(Clone, Copy)]
struct Sharing {
    /// What a failure calls it.
    name: &'static str,
    ask: Ask,
    /// So many segments of memory are new at most.
    most_new: u64,
    /// What the ends answer then.
    all_went: &'static [(Ask, Want)],
}

const SHARING: &[Sharing] = &[
    Sharing {
        name: "a_tee_of_a_full_pipe",
        ask: Tee(1, 0, 3, 1_048_576, WITHOUT),
        most_new: 3,
        all_went: &[(Read(1, 0, 1_048_576), ALL), (Read(1, 2, 1_048_576), ALL)],
    },
    Sharing {
        name: "a_splice_of_a_full_pipe",
        ask: Splice(1, (0, None), (3, None), 1_048_576, WITHOUT),
        most_new: 3,
        all_went: &[(Read(1, 0, 9), EMPTY), (Read(1, 2, 1_048_576), ALL)],
    },
    Sharing {
        name: "a_splice_of_a_full_pipe_to_a_file",
        ask: Splice(1, (0, None), (4, Some(0)), 1_048_576, WITHOUT),
        most_new: 0,
        all_went: &[(Read(1, 0, 9), EMPTY), (Read(1, 4, 1_048_577), ALL)],
    },
];

/// Compares what the ends answer, and the segments with those of before.
fn compare(bench: &mut Scarce, sharing: &Sharing, went: bool, before: u64) -> Result<(), Fail> {
    let (most_new, rows) = if went {
        (sharing.most_new, sharing.all_went)
    } else {
        (0, NOTHING_WENT)
    };
    if bench.segments() > before.saturating_add(most_new) {
        return Err(bench.fault(sharing.ask, "makes more segments"));
    }
    bench.all_answer(rows)
}

/// Makes the step, of which the `n`th request for memory is refused. Either it has its reply and all bytes went over, or it found no
/// memory and none did.
fn make(alloc: Global, heap: &Refusing<Global>, sharing: &Sharing, n: u64) -> Result<(), Fail> {
    let mut bench = Scarce::new(sharing.name, 1, alloc, heap)?;
    bench.all_answer(ENDS)?;
    let before = bench.segments();
    bench.refuse(n);
    let went = bench.makes(sharing.ask, Count(1_048_576))?;
    compare(&mut bench, sharing, went, before)?;
    bench.ends_empty(&[F])
}

/// Refuses each request of the step in turn, until it meets no refusal.
fn refuse_each(alloc: Global, sharing: &Sharing) -> Result<(), Fail> {
    let heap = Refusing::new(alloc);
    for n in 1..MOST_REQUESTS {
        make(alloc, &heap, sharing, n)?;
        if !heap.refused() {
            break;
        }
    }
    all_were_refused(&heap, sharing.name)
}

#[test]
fn a_full_pipe_goes_over_whole_or_not_at_all(rt: HostRuntime) -> Result<(), Fail> {
    for sharing in SHARING {
        refuse_each(rt.alloc(), sharing)?;
    }
    Ok(())
}

/// What a pipe of the greatest capacity holds.
const FULL: Data = Many(b'a', 1_048_576);

/// A full pipe of the greatest capacity, and an empty one.
const TWO_PIPES: &[(Ask, Want)] = &[
    (Start, Pid(1)),
    (Pipe(1), Fds(0, 1)),
    (Pipe(1), Fds(2, 3)),
    (SetPipeSz(1, 1, 1_048_576), Size(1_048_576)),
    (SetPipeSz(1, 3, 1_048_576), Size(1_048_576)),
    (Write(1, 1, FULL), Count(1_048_576)),
];

const COPY: Ask = Tee(1, 0, 3, 1_048_576, WITHOUT);

const BOTH_READ: &[(Ask, Want)] = &[
    (Read(1, 0, 1_048_576), Bytes(FULL)),
    (Read(1, 2, 1_048_576), Bytes(FULL)),
];

/// The bytes of the pipe stand in as many slots as there are places for, at most.
fn has_few_slots(bench: &Scarce, fd: i32) -> Result<(), Fail> {
    match bench.slots(1, fd) {
        Some(slots) if slots <= 512 => Ok(()),
        _ => Err(bench.fault(COPY, "leaves a pipe with more than 512 slots")),
    }
}

/// A copy of all bytes makes three segments at most. Each step that finds no memory is made again.
fn copy_all(bench: &mut Scarce) -> Result<(), Fail> {
    make_each(bench, TWO_PIPES)?;
    let before = bench.segments();
    make_one(bench, COPY, Count(1_048_576))?;
    if bench.segments() > before.saturating_add(3) {
        return Err(bench.fault(COPY, "makes more segments"));
    }
    has_few_slots(bench, 0)?;
    has_few_slots(bench, 2)?;
    make_each(bench, BOTH_READ)?;
    bench.ends_empty(&[])
}

/// Copies all bytes of a full pipe, where the `n`th request for memory is refused.
fn copy_with_refusal(alloc: Global, heap: &Refusing<Global>, n: u64) -> Result<(), Fail> {
    let mut bench = Scarce::new("a_copy_of_a_full_pipe", 1, alloc, heap)?;
    bench.refuse(n);
    copy_all(&mut bench)
}

#[test]
fn a_full_pipe_is_copied_at_last(rt: HostRuntime) -> Result<(), Fail> {
    let heap = Refusing::new(rt.alloc());
    for n in 1..MOST_REQUESTS {
        copy_with_refusal(rt.alloc(), &heap, n)?;
        if !heap.refused() {
            break;
        }
    }
    all_were_refused(&heap, "a_copy_of_a_full_pipe")
}
