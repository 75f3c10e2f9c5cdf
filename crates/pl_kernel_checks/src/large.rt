//! More bytes than stand well in a script: large writes, and files as large as any may be.
use pl_model::Errno::EFBIG;
use pl_model::Whence::{Cur, End, Set};
use pl_model::{Mode, OpenFlags, SpliceFlags};
use pl_testing::LIMITS;
use pl_testing::asked::Ask::{self, Close, Lseek, Open, Pipe, Read, Resume, Splice, Start, Write};
use pl_testing::asked::Data::{self, Many, Part, Text, TwoRuns};
use pl_testing::asked::Want::{
    self, Bytes, Count, Fault, Fd, Fds, NoCall, Offset, Parked, Pid, Unit,
};
use pl_testing::bench::Bench;
use pl_testing::sessions::{NEW_KERNEL, Session, each_answers};
use std::alloc::Global;
use std::test::Fail;

const F: Data = Text("f");

const G: Data = Text("g");

const NEW: &[OpenFlags] = &[OpenFlags::CREAT, OpenFlags::EXCL];

const WITHOUT: &[SpliceFlags] = &[];

/// A read at the end.
const NOTHING: Want = Bytes(Text(""));

const SESSIONS: &[Session] = &[
    // A write of 200,000 bytes is read in twenty parts, and goes on after each. After the first 65,536 bytes each turn takes as many as
    // were read, up to the fourteenth, which has room for the last 4,464.
    Session {
        name: "a_large_write_is_read_in_order",
        rows: &[
            (Start, Pid(1)),
            (Pipe(1), Fds(0, 1)),
            (Write(1, 1, Part(0, 200_000)), Parked(1)),
            (Read(1, 0, 10_000), Bytes(Part(0, 10_000))),
            (Resume(1), Parked(1)),
            (Read(1, 0, 10_000), Bytes(Part(10_000, 10_000))),
            (Resume(1), Parked(1)),
            (Read(1, 0, 10_000), Bytes(Part(20_000, 10_000))),
            (Resume(1), Parked(1)),
            (Read(1, 0, 10_000), Bytes(Part(30_000, 10_000))),
            (Resume(1), Parked(1)),
            (Read(1, 0, 10_000), Bytes(Part(40_000, 10_000))),
            (Resume(1), Parked(1)),
            (Read(1, 0, 10_000), Bytes(Part(50_000, 10_000))),
            (Resume(1), Parked(1)),
            (Read(1, 0, 10_000), Bytes(Part(60_000, 10_000))),
            (Resume(1), Parked(1)),
            (Read(1, 0, 10_000), Bytes(Part(70_000, 10_000))),
            (Resume(1), Parked(1)),
            (Read(1, 0, 10_000), Bytes(Part(80_000, 10_000))),
            (Resume(1), Parked(1)),
            (Read(1, 0, 10_000), Bytes(Part(90_000, 10_000))),
            (Resume(1), Parked(1)),
            (Read(1, 0, 10_000), Bytes(Part(100_000, 10_000))),
            (Resume(1), Parked(1)),
            (Read(1, 0, 10_000), Bytes(Part(110_000, 10_000))),
            (Resume(1), Parked(1)),
            (Read(1, 0, 10_000), Bytes(Part(120_000, 10_000))),
            (Resume(1), Parked(1)),
            (Read(1, 0, 10_000), Bytes(Part(130_000, 10_000))),
            (Resume(1), Count(200_000)),
            (Read(1, 0, 10_000), Bytes(Part(140_000, 10_000))),
            (Resume(1), NoCall),
            (Read(1, 0, 10_000), Bytes(Part(150_000, 10_000))),
            (Resume(1), NoCall),
            (Read(1, 0, 10_000), Bytes(Part(160_000, 10_000))),
            (Resume(1), NoCall),
            (Read(1, 0, 10_000), Bytes(Part(170_000, 10_000))),
            (Resume(1), NoCall),
            (Read(1, 0, 10_000), Bytes(Part(180_000, 10_000))),
            (Resume(1), NoCall),
            (Read(1, 0, 10_000), Bytes(Part(190_000, 10_000))),
            (Resume(1), NoCall),
            (Close(1, 1), Unit),
            (Read(1, 0, 1), NOTHING),
        ],
        ..NEW_KERNEL
    },
    // From file to file through a pipe, in pieces that begin and end anywhere.
    Session {
        name: "from_file_to_file",
        rows: &[
            (Start, Pid(1)),
            (Pipe(1), Fds(0, 1)),
            (Open(1, F, Mode::Both, NEW), Fd(2)),
            (Open(1, G, Mode::Both, NEW), Fd(3)),
            (Write(1, 2, Part(0, 100_000)), Count(100_000)),
            (Lseek(1, 2, 0, Set), Offset(0)),
            (
                Splice(1, (2, None), (1, None), 100_000, WITHOUT),
                Count(65_536),
            ),
            (
                Splice(1, (0, None), (3, None), 12_345, WITHOUT),
                Count(12_345),
            ),
            (
                Splice(1, (0, None), (3, None), 100_000, WITHOUT),
                Count(53_191),
            ),
            (
                Splice(1, (2, None), (1, None), 34_463, WITHOUT),
                Count(34_463),
            ),
            (Splice(1, (2, None), (1, None), 34_463, WITHOUT), Count(1)),
            (Splice(1, (2, None), (1, None), 34_463, WITHOUT), Count(0)),
            (
                Splice(1, (0, None), (3, None), 100_000, WITHOUT),
                Count(34_464),
            ),
            (Lseek(1, 3, 0, End), Offset(100_000)),
            (Lseek(1, 3, 0, Set), Offset(0)),
            (Read(1, 3, 200_000), Bytes(Part(0, 100_000))),
            (Read(1, 3, 9), NOTHING),
        ],
        names: &[F, G],
        ..NEW_KERNEL
    },
];

#[test]
fn each_large_session_answers(rt: HostRuntime) -> Result<(), Fail> {
    each_answers(rt.alloc(), LIMITS, SESSIONS)
}

const READ_ON: Ask = Read(1, 0, 1_000_000);

/// Sixteen pieces of 1,000,000 bytes go into a file whole, each of its own number, and of one more what is left up to the limit. There the
/// file takes no byte more. After the first each read takes the end of one piece and the beginning of the next.
const PIECES: Session = Session {
    name: "a_file_as_large_as_may_be",
    rows: &[
        (Start, Pid(1)),
        (Open(1, F, Mode::Both, NEW), Fd(0)),
        (Write(1, 0, Many(0, 1_000_000)), Count(1_000_000)),
        (Write(1, 0, Many(1, 1_000_000)), Count(1_000_000)),
        (Write(1, 0, Many(2, 1_000_000)), Count(1_000_000)),
        (Write(1, 0, Many(3, 1_000_000)), Count(1_000_000)),
        (Write(1, 0, Many(4, 1_000_000)), Count(1_000_000)),
        (Write(1, 0, Many(5, 1_000_000)), Count(1_000_000)),
        (Write(1, 0, Many(6, 1_000_000)), Count(1_000_000)),
        (Write(1, 0, Many(7, 1_000_000)), Count(1_000_000)),
        (Write(1, 0, Many(8, 1_000_000)), Count(1_000_000)),
        (Write(1, 0, Many(9, 1_000_000)), Count(1_000_000)),
        (Write(1, 0, Many(10, 1_000_000)), Count(1_000_000)),
        (Write(1, 0, Many(11, 1_000_000)), Count(1_000_000)),
        (Write(1, 0, Many(12, 1_000_000)), Count(1_000_000)),
        (Write(1, 0, Many(13, 1_000_000)), Count(1_000_000)),
        (Write(1, 0, Many(14, 1_000_000)), Count(1_000_000)),
        (Write(1, 0, Many(15, 1_000_000)), Count(1_000_000)),
        (Write(1, 0, Many(16, 1_000_000)), Count(777_216)),
        (Lseek(1, 0, 0, Cur), Offset(16_777_216)),
        (Write(1, 0, Text("a")), Fault(EFBIG)),
        (Lseek(1, 0, 0, End), Offset(16_777_216)),
        (Lseek(1, 0, 0, Set), Offset(0)),
        (Read(1, 0, 600_000), Bytes(Many(0, 600_000))),
        (READ_ON, Bytes(TwoRuns(0, 400_000, 1, 600_000))),
        (READ_ON, Bytes(TwoRuns(1, 400_000, 2, 600_000))),
        (READ_ON, Bytes(TwoRuns(2, 400_000, 3, 600_000))),
        (READ_ON, Bytes(TwoRuns(3, 400_000, 4, 600_000))),
        (READ_ON, Bytes(TwoRuns(4, 400_000, 5, 600_000))),
        (READ_ON, Bytes(TwoRuns(5, 400_000, 6, 600_000))),
        (READ_ON, Bytes(TwoRuns(6, 400_000, 7, 600_000))),
        (READ_ON, Bytes(TwoRuns(7, 400_000, 8, 600_000))),
        (READ_ON, Bytes(TwoRuns(8, 400_000, 9, 600_000))),
        (READ_ON, Bytes(TwoRuns(9, 400_000, 10, 600_000))),
        (READ_ON, Bytes(TwoRuns(10, 400_000, 11, 600_000))),
        (READ_ON, Bytes(TwoRuns(11, 400_000, 12, 600_000))),
        (READ_ON, Bytes(TwoRuns(12, 400_000, 13, 600_000))),
        (READ_ON, Bytes(TwoRuns(13, 400_000, 14, 600_000))),
        (READ_ON, Bytes(TwoRuns(14, 400_000, 15, 600_000))),
        (READ_ON, Bytes(TwoRuns(15, 400_000, 16, 600_000))),
        (Read(1, 0, 4_294_967_295), Bytes(Many(16, 177_216))),
        (Read(1, 0, 1), NOTHING),
    ],
    names: &[F],
    ..NEW_KERNEL
};

/// One write fills a file, and one read takes all of it.
const ONE_WRITE: Session = Session {
    name: "one_write_fills_a_file",
    rows: &[
        (Start, Pid(1)),
        (Open(1, F, Mode::Both, NEW), Fd(0)),
        (Write(1, 0, Many(b'a', 16_777_216)), Count(16_777_216)),
        (Read(1, 0, 1), NOTHING),
        (Lseek(1, 0, 0, Set), Offset(0)),
        (Read(1, 0, 4_294_967_295), Bytes(Many(b'a', 16_777_216))),
    ],
    names: &[F],
    ..NEW_KERNEL
};

/// Makes the session once: its bytes are so many that it takes a while.
fn is_answered(alloc: Global, session: &Session) -> Result<(), Fail> {
    let mut bench = Bench::new(session.name, alloc, alloc, LIMITS)?;
    bench.all_answer(session.rows)?;
    bench.ends_empty(session.names)
}

#[test]
fn a_file_as_large_as_may_be(rt: HostRuntime) -> Result<(), Fail> {
    is_answered(rt.alloc(), &PIECES)
}

#[test]
fn one_write_fills_a_file(rt: HostRuntime) -> Result<(), Fail> {
    is_answered(rt.alloc(), &ONE_WRITE)
}
