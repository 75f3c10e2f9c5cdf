//! Large writes, reads, forks and files.
use crate::steps::Steps;
use pl_model::Errno::{EBADF, EINTR, EINVAL, ENOENT};
use pl_model::Whence::{Cur, End, Set};
use pl_model::{Mode, OpenFlags};
use pl_testing::asked::Ask::{
    self, Close, Exit, Fork, Interrupt, Lseek, Open, Pipe, Read, Resume, Start, Unlink, Write,
};
use pl_testing::asked::Data::{self, Many, Text};
use pl_testing::asked::Want::{
    self, Bytes, Count, Fault, Fd, Fds, NoCall, NoProcess, Offset, Parked, Pid, Unit,
};

const NOT_OPEN: Want = Fault(EBADF);

const NO_SUCH_NAME: Want = Fault(ENOENT);

const INTERRUPTED: Want = Fault(EINTR);

const NOTHING: Want = Bytes(Text(""));

const A: Want = Bytes(Text("a"));

const F: Data = Text("f");

const G: Data = Text("g");

const CREAT: &[OpenFlags] = &[OpenFlags::CREAT];

const PLAIN: &[OpenFlags] = &[];

/// Each of them is refused memory in turn.
const CALLS: &[Steps] = &[
    // A write that finds no memory isn't parked, also where it is parked first and then wants memory for its bytes: the next
    // call gets its number. One that finds none as it is tried again stays parked, with what it took before.
    Steps {
        name: "a_large_write_is_taken_back",
        rows: &[
            (Start, Pid(1)),
            (Pipe(1), Fds(0, 1)),
            (Write(1, 1, Many(b'a', 70_000)), Parked(1)),
            (Read(1, 0, 5), Bytes(Text("aaaaa"))),
            (Resume(1), Parked(1)),
            (Interrupt(1), Count(65_541)),
        ],
        passed: &[
            (0, &[NoProcess, NoProcess, NoProcess, NoCall, NoCall]),
            (1, &[NOT_OPEN, NOT_OPEN, NoCall, NoCall]),
            (2, &[Parked(1), Parked(1), INTERRUPTED]),
            (3, &[Parked(1), Count(65_536)]),
            (4, &[Count(65_536)]),
        ],
        names: &[],
    },
    // A read that finds no memory takes no bytes, and stays parked where it was.
    Steps {
        name: "reads_take_nothing",
        rows: &[
            (Start, Pid(1)),
            (Pipe(1), Fds(0, 1)),
            (Read(1, 0, 3), Parked(1)),
            (Write(1, 1, Text("ab")), Count(2)),
            (Resume(1), Bytes(Text("ab"))),
            (Read(1, 0, 1), Parked(2)),
            (Interrupt(2), INTERRUPTED),
            (Interrupt(1), NoCall),
        ],
        passed: &[
            (
                0,
                &[
                    NoProcess, NoProcess, NoProcess, NoCall, NoProcess, NoCall, NoCall,
                ],
            ),
            (1, &[NOT_OPEN, NOT_OPEN, NoCall, NOT_OPEN, NoCall, NoCall]),
            (2, &[Count(2), NoCall, A, NoCall, NoCall]),
            (3, &[Parked(1), Parked(2), INTERRUPTED, INTERRUPTED]),
            (4, &[A, NoCall, INTERRUPTED]),
            // The second read that waits finds its place in the list of calls.
        ],
        names: &[],
    },
    // A fork that finds no memory leaves no process and no name behind: the next fork gets its pid, and the last writer is the
    // last still.
    Steps {
        name: "a_fork_leaves_nothing",
        rows: &[
            (Start, Pid(1)),
            (Pipe(1), Fds(0, 1)),
            (Fork(1), Pid(2)),
            (Write(2, 1, Text("a")), Count(1)),
            (Read(1, 0, 9), A),
            (Exit(2), Unit),
            (Fork(1), Pid(2)),
            (Close(1, 1), Unit),
            (Exit(2), Unit),
            (Read(1, 0, 9), NOTHING),
        ],
        passed: &[
            (
                0,
                &[
                    NoProcess, NoProcess, NoProcess, NoProcess, NoProcess, NoProcess, NoProcess,
                    NoProcess, NoProcess,
                ],
            ),
            (
                1,
                &[
                    Pid(2),
                    NOT_OPEN,
                    NOT_OPEN,
                    Unit,
                    Pid(2),
                    NOT_OPEN,
                    Unit,
                    NOT_OPEN,
                ],
            ),
            (
                2,
                &[NoProcess, Parked(1), NoProcess, Pid(2), Unit, Unit, NOTHING],
            ),
            (3, &[Parked(1), Unit, Pid(2), Unit, Unit, NOTHING]),
            (4, &[Unit, Pid(2), Unit, Unit, A]),
            (6, &[Unit, NoProcess, NOTHING]),
        ],
        names: &[],
    },
    // An open that finds no memory leaves no name and no descriptor behind, a write no bytes and no gap, and neither it nor a read
    // moves the offset.
    Steps {
        name: "an_open_leaves_no_name",
        rows: &[
            (Start, Pid(1)),
            (Open(1, F, Mode::Both, CREAT), Fd(0)),
            (Lseek(1, 0, 1, Set), Offset(1)),
            (Write(1, 0, Text("a")), Count(1)),
            (Lseek(1, 0, -1, End), Offset(1)),
            (Read(1, 0, 9), A),
            (Lseek(1, 0, 0, Cur), Offset(2)),
            (Open(1, G, Mode::Read, PLAIN), NO_SUCH_NAME),
            (Unlink(1, F), Unit),
            (Open(1, F, Mode::Read, PLAIN), NO_SUCH_NAME),
        ],
        passed: &[
            (
                0,
                &[
                    NoProcess, NoProcess, NoProcess, NoProcess, NoProcess, NoProcess, NoProcess,
                    NoProcess, NoProcess,
                ],
            ),
            (
                1,
                &[
                    NOT_OPEN,
                    NOT_OPEN,
                    NOT_OPEN,
                    NOT_OPEN,
                    NOT_OPEN,
                    NO_SUCH_NAME,
                    NO_SUCH_NAME,
                    NO_SUCH_NAME,
                ],
            ),
            // The file is empty: there is nothing 1 byte before its end, and the offset is 1 still.
            (
                3,
                &[
                    Fault(EINVAL),
                    NOTHING,
                    Offset(1),
                    NO_SUCH_NAME,
                    Unit,
                    NO_SUCH_NAME,
                ],
            ),
            (5, &[Offset(1), NO_SUCH_NAME, Unit, NO_SUCH_NAME]),
        ],
        names: &[],
    },
];

/// The table, of which a proof of a test then need not see the rows.
pub(super) fn calls() -> &'static [Steps] {
    CALLS
}
