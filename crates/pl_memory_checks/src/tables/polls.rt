//! Polls.
use crate::steps::Steps;
use pl_model::Errno::{EBADF, EINTR, EPIPE};
use pl_testing::asked::Ask::{Close, Interrupt, Pipe, PollNow, PollWait, Resume, Start, Write};
use pl_testing::asked::Data::Text;
use pl_testing::asked::Want::{
    self, Count, Fault, Fds, Masks, NoCall, NoProcess, Parked, Pid, Size, Unit,
};
use pl_testing::examples::POLL;
use pl_testing::masks::{EMPTY, ERR, IN, NVAL, OUT};

const NOT_OPEN: Want = Fault(EBADF);

/// Each of them is refused memory in turn.
const POLLS: &[Steps] = &[
    Steps {
        name: "poll",
        rows: &POLL,
        passed: &[
            (
                0,
                &[
                    NoProcess, NoProcess, NoProcess, NoCall, NoProcess, NoProcess, NoProcess,
                ],
            ),
            (
                1,
                &[
                    Masks(2, &[NVAL, NVAL, EMPTY]),
                    NOT_OPEN,
                    NoCall,
                    Masks(2, &[NVAL, EMPTY, NVAL]),
                    NOT_OPEN,
                    Masks(1, &[NVAL]),
                ],
            ),
            (
                2,
                &[
                    Count(1),
                    NoCall,
                    Masks(2, &[NVAL, EMPTY, OUT]),
                    Size(4_096),
                    Masks(0, &[EMPTY]),
                ],
            ),
            // The pipe is empty.
            (
                3,
                &[
                    Parked(1),
                    Masks(2, &[NVAL, EMPTY, OUT]),
                    Size(4_096),
                    Masks(1, &[OUT]),
                ],
            ),
            (
                4,
                &[
                    Masks(2, &[NVAL, EMPTY, OUT]),
                    Size(4_096),
                    Masks(0, &[EMPTY]),
                ],
            ),
            (5, &[Size(4_096), Masks(0, &[EMPTY])]),
            (7, &[]),
        ],
        names: &[],
    },
    // A poll that finds no memory keeps no end, and one that finds none as it is tried again stays parked and keeps its own.
    Steps {
        name: "a_poll_keeps_its_end",
        rows: &[
            (Start, Pid(1)),
            (Pipe(1), Fds(0, 1)),
            (PollWait(1, &[(0, IN)]), Parked(1)),
            (Close(1, 0), Unit),
            (Write(1, 1, Text("a")), Count(1)),
            (Resume(1), Masks(1, &[IN])),
            (PollNow(1, &[(0, IN), (1, EMPTY)]), Masks(2, &[NVAL, ERR])),
            (Interrupt(1), NoCall),
        ],
        passed: &[
            (
                0,
                &[
                    NoProcess, NoProcess, NoProcess, NoProcess, NoCall, NoProcess, NoCall,
                ],
            ),
            (
                1,
                &[
                    Masks(1, &[NVAL]),
                    NOT_OPEN,
                    NOT_OPEN,
                    NoCall,
                    Masks(2, &[NVAL, NVAL]),
                    NoCall,
                ],
            ),
            (
                2,
                &[Unit, Fault(EPIPE), NoCall, Masks(2, &[NVAL, ERR]), NoCall],
            ),
            (4, &[Parked(1), Masks(1, &[NVAL, EMPTY]), Fault(EINTR)]),
            (5, &[Masks(1, &[NVAL, EMPTY]), Fault(EINTR)]),
            (6, &[NoCall]),
        ],
        names: &[],
    },
];

/// The table, of which a proof of a test then need not see the rows.
pub(super) fn polls() -> &'static [Steps] {
    POLLS
}
