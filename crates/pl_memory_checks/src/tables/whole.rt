//! Many bytes that go over, and full tables.
use pl_model::Errno::{EAGAIN, EMFILE, ENFILE, ENOENT};
use pl_model::Whence::{Cur, End, Set};
use pl_model::{Mode, OpenFlags, SpliceFlags};
use pl_testing::asked::Ask::{
    Close, Dup, Fork, Lseek, Mkfifo, Open, Pipe, Read, Resume, SetPipeSz, Splice, Start, Tee,
    Unlink, Write,
};
use pl_testing::asked::Data::{self, Many, Part, Text};
use pl_testing::asked::Want::{Bytes, Count, Fault, Fd, Fds, Offset, Parked, Pid, Size, Unit};
use pl_testing::sessions::{NEW_KERNEL, Session};

const F: Data = Text("f");

const G: Data = Text("g");

const CREAT: &[OpenFlags] = &[OpenFlags::CREAT];

const NEW: &[OpenFlags] = &[OpenFlags::CREAT, OpenFlags::EXCL];

const WITHOUT: &[SpliceFlags] = &[];

const AT_ONCE: &[SpliceFlags] = &[SpliceFlags::NONBLOCK];

/// Each is refused every request for memory in turn.
const SESSIONS: &[Session] = &[
    // Many slices at once, in pieces that begin and end anywhere. One more piece goes into a pipe that has many already.
    Session {
        name: "between_pipes",
        rows: &[
            (Start, Pid(1)),
            (Pipe(1), Fds(0, 1)),
            (Pipe(1), Fds(2, 3)),
            (SetPipeSz(1, 2, 131_072), Size(131_072)),
            (Write(1, 1, Part(0, 60_000)), Count(60_000)),
            (Tee(1, 0, 3, 50_001, WITHOUT), Count(50_001)),
            (
                Splice(1, (0, None), (3, None), 4_097, WITHOUT),
                Count(4_097),
            ),
            (
                Splice(1, (0, None), (3, None), 60_000, WITHOUT),
                Count(55_903),
            ),
            (Read(1, 2, 50_001), Bytes(Part(0, 50_001))),
            (Tee(1, 2, 1, 60_000, WITHOUT), Count(60_000)),
            (Read(1, 2, 60_000), Bytes(Part(0, 60_000))),
            (Read(1, 0, 60_000), Bytes(Part(0, 60_000))),
        ],
        ..NEW_KERNEL
    },
    // From a file to a pipe and back, over what is there and past the end.
    Session {
        name: "between_files_and_pipes",
        rows: &[
            (Start, Pid(1)),
            (Pipe(1), Fds(0, 1)),
            (Open(1, F, Mode::Both, NEW), Fd(2)),
            (Open(1, G, Mode::Both, NEW), Fd(3)),
            (Write(1, 2, Part(0, 40_000)), Count(40_000)),
            (Lseek(1, 2, 0, Set), Offset(0)),
            (
                Splice(1, (2, None), (1, None), 30_000, WITHOUT),
                Count(30_000),
            ),
            (Lseek(1, 2, 0, Cur), Offset(30_000)),
            (
                Splice(1, (0, None), (3, Some(20_000)), 10_000, WITHOUT),
                Count(10_000),
            ),
            (
                Splice(1, (0, None), (3, None), 5_000, WITHOUT),
                Count(5_000),
            ),
            (
                Splice(1, (0, None), (3, Some(2_000)), 99_999, WITHOUT),
                Count(15_000),
            ),
            (Lseek(1, 3, 0, Cur), Offset(5_000)),
            (Lseek(1, 3, 0, End), Offset(30_000)),
            (Lseek(1, 3, 0, Set), Offset(0)),
            (Read(1, 3, 2_000), Bytes(Part(10_000, 2_000))),
            (Read(1, 3, 15_000), Bytes(Part(15_000, 15_000))),
            (Read(1, 3, 3_000), Bytes(Many(0, 3_000))),
            (Read(1, 3, 99_999), Bytes(Part(0, 10_000))),
            (
                Splice(1, (2, Some(39_999)), (1, None), 9, AT_ONCE),
                Count(1),
            ),
            (Read(1, 0, 9), Bytes(Part(39_999, 1))),
        ],
        names: &[F, G],
        ..NEW_KERNEL
    },
    // The process, the descriptors, the descriptions and the file for which there is no place, and an open that was met and for
    // which there is none, take no memory.
    Session {
        name: "full_tables",
        processes: 1_024,
        full_tables: 16,
        rows: &[
            (Start, Fault(EAGAIN)),
            (Fork(1), Fault(EAGAIN)),
            (Pipe(1), Fault(EMFILE)),
            (Dup(1, 0), Fault(EMFILE)),
            (Open(1, F, Mode::Both, CREAT), Fault(EMFILE)),
            (Pipe(17), Fault(ENFILE)),
            (Open(17, F, Mode::Both, CREAT), Fault(ENFILE)),
            (Unlink(17, F), Fault(ENOENT)),
            (Mkfifo(17, F), Unit),
            (Close(1, 0), Unit),
            (Close(1, 1), Unit),
            (Open(1, F, Mode::Read, &[]), Parked(1)),
            (Open(17, F, Mode::Write, &[]), Fd(0)),
            (Open(17, F, Mode::Read, &[]), Fault(ENFILE)),
            (Dup(1, 2), Fd(0)),
            (Dup(1, 2), Fd(1)),
            (Resume(1), Fault(EMFILE)),
        ],
        names: &[F],
        ..NEW_KERNEL
    },
];

/// The table, of which a proof of a test then need not see the rows.
pub(super) fn sessions() -> &'static [Session] {
    SESSIONS
}
