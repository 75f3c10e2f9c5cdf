//! FIFOs.
use crate::steps::Steps;
use pl_model::Errno::{EAGAIN, EBADF, ENOENT, ENXIO};
use pl_model::{Mode, OpenFlags};
use pl_testing::asked::Ask::{self, Close, Mkfifo, Open, Read, Resume, Start, Unlink, Write};
use pl_testing::asked::Data::{self, Text};
use pl_testing::asked::Want::{
    self, Bytes, Count, Fault, Fd, NoCall, NoProcess, Parked, Pid, Unit,
};

const NOT_OPEN: Want = Fault(EBADF);

const NO_SUCH_NAME: Want = Fault(ENOENT);

const EMPTY: Want = Fault(EAGAIN);

const NO_READER: Want = Fault(ENXIO);

const NOTHING: Want = Bytes(Text(""));

const F: Data = Text("f");

const PLAIN: &[OpenFlags] = &[];

const NONBLOCK: &[OpenFlags] = &[OpenFlags::NONBLOCK];

/// Each of them is refused memory in turn.
const FIFOS: &[Steps] = &[
    // A FIFO that finds no memory leaves no name, and an open of one takes no descriptor and is no end. Of the opens just the first
    // and the fifth want for memory: the list of descriptions grows as they come.
    Steps {
        name: "both_ends_of_a_fifo",
        rows: &[
            (Start, Pid(1)),
            (Mkfifo(1, F), Unit),
            (Open(1, F, Mode::Read, NONBLOCK), Fd(0)),
            (Open(1, F, Mode::Read, NONBLOCK), Fd(1)),
            (Open(1, F, Mode::Read, NONBLOCK), Fd(2)),
            (Open(1, F, Mode::Read, NONBLOCK), Fd(3)),
            (Open(1, F, Mode::Write, PLAIN), Fd(4)),
            (Write(1, 4, Text("ab")), Count(2)),
            (Read(1, 0, 9), Bytes(Text("ab"))),
            (Open(1, F, Mode::Read, PLAIN), Fd(5)),
            (Unlink(1, F), Unit),
        ],
        passed: &[
            (
                0,
                &[
                    NoProcess, NoProcess, NoProcess, NoProcess, NoProcess, NoProcess, NoProcess,
                    NoProcess, NoProcess, NoProcess,
                ],
            ),
            (
                1,
                &[
                    NO_SUCH_NAME,
                    NO_SUCH_NAME,
                    NO_SUCH_NAME,
                    NO_SUCH_NAME,
                    NO_SUCH_NAME,
                    NOT_OPEN,
                    NOT_OPEN,
                    NO_SUCH_NAME,
                    NO_SUCH_NAME,
                ],
            ),
            (
                2,
                &[Fd(0), Fd(1), Fd(2), Fd(3), NOT_OPEN, EMPTY, Fd(4), Unit],
            ),
            // The FIFO has no writer: it is at its end, and an open for reading waits.
            (6, &[NOT_OPEN, NOTHING, Parked(1), Unit]),
            (7, &[EMPTY, Fd(5), Unit]),
            (8, &[Fd(5), Unit]),
        ],
        names: &[],
    },
    // An open that finds no memory to wait takes no number, is no end, and is met by none.
    Steps {
        name: "an_open_that_waits",
        rows: &[
            (Start, Pid(1)),
            (Mkfifo(1, F), Unit),
            (Open(1, F, Mode::Read, PLAIN), Parked(1)),
            (Open(1, F, Mode::Write, NONBLOCK), Fd(0)),
            (Write(1, 0, Text("ab")), Count(2)),
            (Resume(1), Fd(1)),
            (Read(1, 1, 9), Bytes(Text("ab"))),
            (Close(1, 0), Unit),
            (Open(1, F, Mode::Read, PLAIN), Parked(2)),
        ],
        passed: &[
            (
                0,
                &[
                    NoProcess, NoProcess, NoProcess, NoProcess, NoCall, NoProcess, NoProcess,
                    NoProcess,
                ],
            ),
            (
                1,
                &[
                    NO_SUCH_NAME,
                    NO_SUCH_NAME,
                    NOT_OPEN,
                    NoCall,
                    NOT_OPEN,
                    NOT_OPEN,
                    NO_SUCH_NAME,
                ],
            ),
            (
                2,
                &[NO_READER, NOT_OPEN, NoCall, NOT_OPEN, NOT_OPEN, Parked(1)],
            ),
            // The first row of the process finds no memory, and the open that waits is not met.
            (3, &[NOT_OPEN, Parked(1), NOT_OPEN, NOT_OPEN, Parked(2)]),
            // Nothing was written, and the read waits for the writer.
            (4, &[Fd(1), Parked(2), Unit, Parked(3)]),
            (6, &[Unit, Parked(2)]),
            (8, &[]),
        ],
        names: &[F],
    },
    // An open that finds no memory meets nobody: who waited for it waits on.
    Steps {
        name: "an_open_that_meets",
        rows: &[
            (Start, Pid(1)),
            (Mkfifo(1, F), Unit),
            (Open(1, F, Mode::Read, PLAIN), Parked(1)),
            (Open(1, F, Mode::Read, PLAIN), Parked(2)),
            (Open(1, F, Mode::Read, PLAIN), Parked(3)),
            (Open(1, F, Mode::Read, PLAIN), Parked(4)),
            (Open(1, F, Mode::Write, PLAIN), Fd(0)),
            (Resume(4), Fd(1)),
            (Resume(1), Fd(2)),
        ],
        passed: &[
            (
                0,
                &[
                    NoProcess, NoProcess, NoProcess, NoProcess, NoProcess, NoProcess, NoCall,
                    NoCall,
                ],
            ),
            (
                1,
                &[
                    NO_SUCH_NAME,
                    NO_SUCH_NAME,
                    NO_SUCH_NAME,
                    NO_SUCH_NAME,
                    NO_SUCH_NAME,
                    NoCall,
                    NoCall,
                ],
            ),
            (2, &[Parked(1), Parked(2), Parked(3), Fd(0), NoCall, Fd(1)]),
            (3, &[Parked(2), Parked(3), Fd(0), NoCall, Fd(1)]),
            (4, &[Parked(3), Fd(0), NoCall, Fd(1)]),
            (5, &[Fd(0), NoCall, Fd(1)]),
            (6, &[Parked(4), Parked(1)]),
        ],
        names: &[F],
    },
];

/// The table, of which a proof of a test then need not see the rows.
pub(super) fn fifos() -> &'static [Steps] {
    FIFOS
}
