//! Files that have few bytes at most, written to and spliced to.
use pl_model::Errno::{EAGAIN, EBADF, EFBIG, EINVAL};
use pl_model::Whence::{Cur, End, Set};
use pl_model::{Limits, Mode, OpenFlags, SpliceFlags};
use pl_testing::asked::Ask::{Close, Lseek, Open, Pipe, Read, Resume, SetFl, Splice, Start, Write};
use pl_testing::asked::Data::{self, Many, Text};
use pl_testing::asked::Want::{self, Bytes, Count, Fault, Fd, Fds, Offset, Parked, Pid, Unit};
use pl_testing::sessions::{NEW_KERNEL, Session, each_answers};
use std::test::Fail;

/// A file has at most 5 bytes.
const FIVE_BYTES: Limits = Limits {
    file_max: 5,
    ..Limits::DEFAULT
};

/// Every file is empty.
const NO_BYTES: Limits = Limits {
    file_max: 0,
    ..Limits::DEFAULT
};

const F: Data = Text("f");

const PLAIN: &[OpenFlags] = &[];

const NEW: &[OpenFlags] = &[OpenFlags::CREAT, OpenFlags::EXCL];

const NEW_AND_APPEND: &[OpenFlags] = &[OpenFlags::CREAT, OpenFlags::EXCL, OpenFlags::APPEND];

const APPEND: &[OpenFlags] = &[OpenFlags::APPEND];

/// A splice as it is asked for mostly.
const WITHOUT: &[SpliceFlags] = &[];

/// One that is not to wait.
const AT_ONCE: &[SpliceFlags] = &[SpliceFlags::NONBLOCK];

/// A read at the end, or past it.
const NOTHING: Want = Bytes(Text(""));

/// The greatest offset.
const FARTHEST: u64 = 9_223_372_036_854_775_807;

/// The least offset that is too great.
const TOO_FAR: u64 = 9_223_372_036_854_775_808;

const OF_FIVE_BYTES: &[Session] = &[
    // A write that begins below the limit takes as many bytes as are left up to it. One that begins at it, or behind it, is too
    // big, and leaves the offset.
    Session {
        name: "writes_up_to_the_limit",
        rows: &[
            (Start, Pid(1)),
            (Open(1, F, Mode::Both, NEW), Fd(0)),
            (Write(1, 0, Text("abcdefg")), Count(5)),
            (Lseek(1, 0, 0, Cur), Offset(5)),
            (Write(1, 0, Text("h")), Fault(EFBIG)),
            (Write(1, 0, Many(b'h', 70_000)), Fault(EFBIG)),
            (Write(1, 0, Text("")), Count(0)),
            (Lseek(1, 0, 0, Cur), Offset(5)),
            (Lseek(1, 0, 3, Set), Offset(3)),
            (Write(1, 0, Text("XYZ")), Count(2)),
            (Lseek(1, 0, 0, Cur), Offset(5)),
            // A seek goes beyond it.
            (Lseek(1, 0, 6, Set), Offset(6)),
            (Write(1, 0, Text("h")), Fault(EFBIG)),
            (Write(1, 0, Text("")), Count(0)),
            (Read(1, 0, 9), NOTHING),
            (Lseek(1, 0, 0, Cur), Offset(6)),
            (Lseek(1, 0, 0, End), Offset(5)),
            (Lseek(1, 0, 0, Set), Offset(0)),
            (Read(1, 0, 9), Bytes(Text("abcXY"))),
        ],
        names: &[F],
        ..NEW_KERNEL
    },
    // A write that fits whole, and one behind the end, whose gap counts.
    Session {
        name: "a_gap_up_to_the_limit",
        rows: &[
            (Start, Pid(1)),
            (Open(1, F, Mode::Both, NEW), Fd(0)),
            (Lseek(1, 0, 5, Set), Offset(5)),
            (Write(1, 0, Text("a")), Fault(EFBIG)),
            // No gap was made.
            (Lseek(1, 0, 0, End), Offset(0)),
            (Lseek(1, 0, 4, Set), Offset(4)),
            (Write(1, 0, Text("ab")), Count(1)),
            (Lseek(1, 0, 0, Set), Offset(0)),
            (Read(1, 0, 9), Bytes(Text("\0\0\0\0a"))),
            (Lseek(1, 0, 0, Set), Offset(0)),
            (Write(1, 0, Text("bcdef")), Count(5)),
            (Lseek(1, 0, -5, End), Offset(0)),
            (Read(1, 0, 9), Bytes(Text("bcdef"))),
        ],
        names: &[F],
        ..NEW_KERNEL
    },
    // Under `APPEND` the end of the file counts, and not the offset.
    Session {
        name: "appending_up_to_the_limit",
        rows: &[
            (Start, Pid(1)),
            (Open(1, F, Mode::Both, NEW_AND_APPEND), Fd(0)),
            (Write(1, 0, Text("abc")), Count(3)),
            (Lseek(1, 0, 9, Set), Offset(9)),
            (Write(1, 0, Text("def")), Count(2)),
            (Lseek(1, 0, 0, Cur), Offset(5)),
            (Lseek(1, 0, 1, Set), Offset(1)),
            (Write(1, 0, Text("f")), Fault(EFBIG)),
            (Write(1, 0, Text("")), Count(0)),
            (Lseek(1, 0, 0, Cur), Offset(1)),
            (SetFl(1, 0, PLAIN), Unit),
            (Write(1, 0, Text("X")), Count(1)),
            (Lseek(1, 0, 0, Set), Offset(0)),
            (Read(1, 0, 9), Bytes(Text("aXcde"))),
        ],
        names: &[F],
        ..NEW_KERNEL
    },
    // That a file isn't open for writing comes first.
    Session {
        name: "not_for_writing",
        rows: &[
            (Start, Pid(1)),
            (Open(1, F, Mode::Read, NEW), Fd(0)),
            (Lseek(1, 0, 5, Set), Offset(5)),
            (Write(1, 0, Text("a")), Fault(EBADF)),
            (Write(1, 0, Text("")), Fault(EBADF)),
        ],
        names: &[F],
        ..NEW_KERNEL
    },
    // A file takes bytes up to its limit. Where it can take none the splice is too big, if the source has bytes to give; if it may
    // get some the splice waits, and if it is at its end, that decides.
    Session {
        name: "splices_up_to_the_limit",
        rows: &[
            (Start, Pid(1)),
            (Pipe(1), Fds(0, 1)),
            (Open(1, F, Mode::Both, NEW), Fd(2)),
            (
                Splice(1, (0, None), (2, Some(5)), 9, AT_ONCE),
                Fault(EAGAIN),
            ),
            (Splice(1, (0, None), (2, Some(5)), 9, WITHOUT), Parked(1)),
            (
                Splice(1, (0, None), (2, Some(FARTHEST)), 9, WITHOUT),
                Parked(2),
            ),
            (Splice(1, (0, None), (2, None), 9, WITHOUT), Parked(3)),
            (Write(1, 1, Text("abcdefghi")), Count(9)),
            (Resume(1), Fault(EFBIG)),
            (Resume(2), Fault(EFBIG)),
            (Resume(3), Count(5)),
            (Lseek(1, 2, 0, Cur), Offset(5)),
            (Splice(1, (0, None), (2, None), 9, WITHOUT), Fault(EFBIG)),
            (Splice(1, (0, None), (2, None), 1, AT_ONCE), Fault(EFBIG)),
            (Splice(1, (0, None), (2, Some(5)), 9, WITHOUT), Fault(EFBIG)),
            (Splice(1, (0, None), (2, Some(6)), 9, WITHOUT), Fault(EFBIG)),
            (
                Splice(1, (0, None), (2, Some(FARTHEST)), 9, WITHOUT),
                Fault(EFBIG),
            ),
            (Splice(1, (0, None), (2, Some(3)), 9, WITHOUT), Count(2)),
            (Splice(1, (0, None), (2, Some(1)), 1, WITHOUT), Count(1)),
            (Lseek(1, 2, 0, Cur), Offset(5)),
            (Lseek(1, 2, 0, Set), Offset(0)),
            (Read(1, 2, 9), Bytes(Text("ahcfg"))),
            (Read(1, 0, 9), Bytes(Text("i"))),
            (Splice(1, (0, None), (2, None), 9, AT_ONCE), Fault(EAGAIN)),
            (Close(1, 1), Unit),
            (Splice(1, (0, None), (2, None), 9, WITHOUT), Count(0)),
            (Splice(1, (0, None), (2, Some(5)), 9, WITHOUT), Count(0)),
            (Lseek(1, 2, 0, End), Offset(5)),
        ],
        names: &[F],
        ..NEW_KERNEL
    },
    // An offset that is too far, and a file that is appended to, are refused before that the file can take no more.
    Session {
        name: "splices_refused_before_the_limit",
        rows: &[
            (Start, Pid(1)),
            (Pipe(1), Fds(0, 1)),
            (Open(1, F, Mode::Both, NEW), Fd(2)),
            (Write(1, 2, Text("abcde")), Count(5)),
            (Write(1, 1, Text("f")), Count(1)),
            (
                Splice(1, (0, None), (2, Some(TOO_FAR)), 9, WITHOUT),
                Fault(EINVAL),
            ),
            (
                Splice(1, (0, None), (2, Some(u64::MAX)), 9, AT_ONCE),
                Fault(EINVAL),
            ),
            (SetFl(1, 2, APPEND), Unit),
            (Splice(1, (0, None), (2, None), 9, WITHOUT), Fault(EINVAL)),
            (
                Splice(1, (0, None), (2, Some(5)), 9, AT_ONCE),
                Fault(EINVAL),
            ),
            (SetFl(1, 2, PLAIN), Unit),
            (Splice(1, (0, None), (2, None), 9, WITHOUT), Fault(EFBIG)),
            (Read(1, 0, 9), Bytes(Text("f"))),
            (Lseek(1, 2, 0, End), Offset(5)),
        ],
        names: &[F],
        ..NEW_KERNEL
    },
    // A file that is past its limit in its offset alone gives nothing, and a gap up to the limit is filled.
    Session {
        name: "a_splice_to_a_gap_up_to_the_limit",
        rows: &[
            (Start, Pid(1)),
            (Pipe(1), Fds(0, 1)),
            (Open(1, F, Mode::Both, NEW), Fd(2)),
            (Write(1, 1, Text("ab")), Count(2)),
            (Lseek(1, 2, 4, Set), Offset(4)),
            (Splice(1, (0, None), (2, None), 9, WITHOUT), Count(1)),
            (Splice(1, (2, Some(5)), (1, None), 9, WITHOUT), Count(0)),
            (Read(1, 0, 9), Bytes(Text("b"))),
            (Splice(1, (2, Some(3)), (1, None), 9, WITHOUT), Count(2)),
            (Read(1, 0, 9), Bytes(Text("\0a"))),
        ],
        names: &[F],
        ..NEW_KERNEL
    },
];

const OF_NO_BYTES: &[Session] = &[
    Session {
        name: "no_write_begins_below_the_limit",
        rows: &[
            (Start, Pid(1)),
            (Open(1, F, Mode::Both, NEW), Fd(0)),
            (Write(1, 0, Text("a")), Fault(EFBIG)),
            (Write(1, 0, Text("")), Count(0)),
            (Read(1, 0, 9), NOTHING),
            (Lseek(1, 0, 1, End), Offset(1)),
            (Write(1, 0, Text("a")), Fault(EFBIG)),
            (Lseek(1, 0, 0, End), Offset(0)),
        ],
        names: &[F],
        ..NEW_KERNEL
    },
    Session {
        name: "no_splice_begins_below_the_limit",
        rows: &[
            (Start, Pid(1)),
            (Pipe(1), Fds(0, 1)),
            (Open(1, F, Mode::Both, NEW), Fd(2)),
            (Splice(1, (2, None), (1, None), 9, WITHOUT), Count(0)),
            (Splice(1, (0, None), (2, None), 9, WITHOUT), Parked(1)),
            (Write(1, 1, Text("a")), Count(1)),
            (Resume(1), Fault(EFBIG)),
            (Splice(1, (0, None), (2, Some(0)), 9, AT_ONCE), Fault(EFBIG)),
            (Read(1, 0, 9), Bytes(Text("a"))),
            (Close(1, 1), Unit),
            (Splice(1, (0, None), (2, None), 9, WITHOUT), Count(0)),
            (Read(1, 2, 9), NOTHING),
        ],
        names: &[F],
        ..NEW_KERNEL
    },
];

#[test]
fn each_session_of_small_files_answers(rt: HostRuntime) -> Result<(), Fail> {
    each_answers(rt.alloc(), FIVE_BYTES, OF_FIVE_BYTES)?;
    each_answers(rt.alloc(), NO_BYTES, OF_NO_BYTES)
}
