//! Calls by a name. A call that is refused, and one that takes a name away, takes no memory, also where bytes go with the name; nor does
//! a poll of too many entries.
use pl_model::Errno::{EEXIST, EINVAL, ENAMETOOLONG, ENOENT, ENXIO};
use pl_model::{Mode, OpenFlags, PollMask};
use pl_testing::asked::Ask::{
    Close, Exit, Interrupt, Mkfifo, Open, PollNow, PollWait, Start, Unlink, Write,
};
use pl_testing::asked::Data::{self, Many, Text};
use pl_testing::asked::NEVER_GIVEN;
use pl_testing::asked::Want::{self, CallsSpent, Count, Fault, Fd, NoProcess, Parked, Pid, Unit};
use pl_testing::masks::IN;
use pl_testing::sessions::{NEW_KERNEL, Session};

const F: Data = Text("f");

const EMPTY: Data = Text("");

const TOO_LONG: Data = Many(b'a', 256);

const TWO_WORDS: Data = Text("a/b");

const THERE: Want = Fault(EEXIST);

const NOT_THERE: Want = Fault(ENOENT);

const PLAIN: &[OpenFlags] = &[];

const CREAT: &[OpenFlags] = &[OpenFlags::CREAT];

const NEW: &[OpenFlags] = &[OpenFlags::CREAT, OpenFlags::EXCL];

const NONBLOCK: &[OpenFlags] = &[OpenFlags::NONBLOCK];

/// One entry more than there may be.
const TOO_MANY: &[(i32, &[PollMask])] = &[(0, IN); 257];

/// Each is refused every request for memory in turn.
const SESSIONS: &[Session] = &[
    Session {
        name: "names_of_files",
        rows: &[
            (Open(1, F, Mode::Both, CREAT), NoProcess),
            (Unlink(1, F), NoProcess),
            (Start, Pid(1)),
            (Open(1, F, Mode::Both, PLAIN), NOT_THERE),
            (Open(1, EMPTY, Mode::Both, CREAT), NOT_THERE),
            (Open(1, TOO_LONG, Mode::Both, CREAT), Fault(ENAMETOOLONG)),
            (Open(1, TWO_WORDS, Mode::Both, CREAT), Fault(EINVAL)),
            (Unlink(1, F), NOT_THERE),
            (Open(1, F, Mode::Both, NEW), Fd(0)),
            (Open(1, F, Mode::Both, NEW), THERE),
            (Write(1, 0, Many(b'a', 10_000)), Count(10_000)),
            // a file that is open, and one that isn't
            (Unlink(1, F), Unit),
            (Open(1, F, Mode::Write, NEW), Fd(1)),
            (Write(1, 1, Many(b'b', 10_000)), Count(10_000)),
            (Close(1, 1), Unit),
            (Unlink(1, F), Unit),
            (Close(1, 0), Unit),
        ],
        ..NEW_KERNEL
    },
    Session {
        name: "names_of_fifos",
        rows: &[
            (Mkfifo(1, F), NoProcess),
            (Start, Pid(1)),
            (Mkfifo(1, EMPTY), NOT_THERE),
            (Mkfifo(1, TOO_LONG), Fault(ENAMETOOLONG)),
            (Mkfifo(1, TWO_WORDS), Fault(EINVAL)),
            (Mkfifo(1, F), Unit),
            (Mkfifo(1, F), THERE),
            (Open(2, F, Mode::Both, CREAT), NoProcess),
            (Open(1, F, Mode::Both, NEW), THERE),
            (Open(1, F, Mode::Write, NONBLOCK), Fault(ENXIO)),
            (Open(1, F, Mode::Both, PLAIN), Fd(0)),
            (Write(1, 0, Many(b'b', 70_000)), Parked(1)),
            // without its name, it goes with the call that keeps it
            (Unlink(1, F), Unit),
            (Unlink(1, F), NOT_THERE),
            (Open(1, F, Mode::Both, PLAIN), NOT_THERE),
            (Close(1, 0), Unit),
            (Interrupt(1), Count(65_536)),
            (Mkfifo(1, F), Unit),
            // and with the open that waits for it
            (Open(1, F, Mode::Write, PLAIN), Parked(2)),
            (Unlink(1, F), Unit),
            (Exit(1), Unit),
        ],
        ..NEW_KERNEL
    },
    Session {
        name: "opens_without_numbers",
        first_call: NEVER_GIVEN,
        rows: &[
            (Start, Pid(1)),
            (Mkfifo(1, F), Unit),
            (Open(1, F, Mode::Read, PLAIN), CallsSpent),
            (Open(1, F, Mode::Write, CREAT), CallsSpent),
            (PollNow(1, TOO_MANY), Fault(EINVAL)),
            (PollWait(1, TOO_MANY), Fault(EINVAL)),
        ],
        names: &[F],
        ..NEW_KERNEL
    },
];

/// The table, of which a proof of the test then need not see the rows.
pub(super) fn names() -> &'static [Session] {
    SESSIONS
}
