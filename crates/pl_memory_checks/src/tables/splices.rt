//! Splices and tees.
use crate::steps::Steps;
use pl_model::Errno::EBADF;
use pl_model::{Mode, OpenFlags};
use pl_testing::asked::Ask::{self, Open, Pipe, Read, Resume, Splice, Start, Tee, Write};
use pl_testing::asked::Data::Text;
use pl_testing::asked::Want::{self, Bytes, Count, Fault, Fd, Fds, NoCall, NoProcess, Parked, Pid};

const NOT_OPEN: Want = Fault(EBADF);

const AB: Want = Bytes(Text("ab"));

/// Each of them is refused memory in turn.
const SPLICES: &[Steps] = &[
    // What a tee or a splice didn't move is still in the source, and what the one moved the other finds.
    Steps {
        name: "between_pipes",
        rows: &[
            (Start, Pid(1)),
            (Pipe(1), Fds(0, 1)),
            (Pipe(1), Fds(2, 3)),
            (Write(1, 1, Text("ab")), Count(2)),
            (Tee(1, 0, 3, 9, &[]), Count(2)),
            (Splice(1, (0, None), (3, None), 9, &[]), Count(2)),
            (Read(1, 2, 9), Bytes(Text("abab"))),
        ],
        passed: &[
            (
                0,
                &[
                    NoProcess, NoProcess, NoProcess, NoProcess, NoProcess, NoProcess,
                ],
            ),
            (1, &[Fds(0, 1), Count(2), NOT_OPEN, NOT_OPEN, NOT_OPEN]),
            (2, &[Count(2), NOT_OPEN, NOT_OPEN, NOT_OPEN]),
            (3, &[Parked(1), Parked(2), Parked(3)]),
            (4, &[Count(2), AB]),
            (5, &[AB]),
            (6, &[]),
        ],
        names: &[],
    },
    Steps {
        name: "between_a_pipe_and_a_file",
        rows: &[
            (Start, Pid(1)),
            (Open(1, Text("f"), Mode::Both, &[OpenFlags::CREAT]), Fd(0)),
            (Pipe(1), Fds(1, 2)),
            (Write(1, 2, Text("ab")), Count(2)),
            (Splice(1, (1, None), (0, None), 9, &[]), Count(2)),
            (Splice(1, (0, Some(0)), (2, None), 9, &[]), Count(2)),
            (Read(1, 1, 9), AB),
        ],
        passed: &[
            (
                0,
                &[
                    NoProcess, NoProcess, NoProcess, NoProcess, NoProcess, NoProcess,
                ],
            ),
            (1, &[Fds(0, 1), NOT_OPEN, NOT_OPEN, NOT_OPEN, NOT_OPEN]),
            (2, &[NOT_OPEN, NOT_OPEN, NOT_OPEN, NOT_OPEN]),
            // The file is empty, and at its end.
            (3, &[Parked(1), Count(0), Parked(2)]),
            (4, &[Count(0), AB]),
            (5, &[Parked(1)]),
            (6, &[]),
        ],
        names: &[Text("f")],
    },
    // A splice or a tee that finds no memory to wait takes no number, and one that finds none as it is tried again stays parked.
    Steps {
        name: "a_splice_and_a_tee_that_wait",
        rows: &[
            (Start, Pid(1)),
            (Pipe(1), Fds(0, 1)),
            (Pipe(1), Fds(2, 3)),
            (Splice(1, (0, None), (3, None), 9, &[]), Parked(1)),
            (Tee(1, 0, 3, 9, &[]), Parked(2)),
            (Write(1, 1, Text("ab")), Count(2)),
            (Resume(2), Count(2)),
            (Resume(1), Count(2)),
            (Read(1, 2, 9), Bytes(Text("abab"))),
        ],
        passed: &[
            (
                0,
                &[
                    NoProcess, NoProcess, NoProcess, NoProcess, NoProcess, NoCall, NoCall,
                    NoProcess,
                ],
            ),
            (
                1,
                &[
                    Fds(0, 1),
                    NOT_OPEN,
                    NOT_OPEN,
                    Count(2),
                    NoCall,
                    NoCall,
                    NOT_OPEN,
                ],
            ),
            (2, &[NOT_OPEN, NOT_OPEN, Count(2), NoCall, NoCall, NOT_OPEN]),
            // The tee is the first call that waits, and then the splice is.
            (3, &[Parked(1), Count(2), NoCall, Count(2), AB]),
            (4, &[Count(2), NoCall, Count(2), AB]),
            (5, &[Parked(2), Parked(1), Parked(3)]),
            (6, &[Count(2), AB]),
            (7, &[AB]),
            (8, &[]),
        ],
        names: &[],
    },
];

/// The table, of which a proof of a test then need not see the rows.
pub(super) fn splices() -> &'static [Steps] {
    SPLICES
}
