//! Capacities that are set.
use crate::steps::Steps;
use pl_model::Errno::{EBADF, EBUSY, EINTR};
use pl_testing::asked::Ask::{
    self, GetPipeSz, Interrupt, Pipe, Read, Resume, SetPipeSz, Start, Write,
};
use pl_testing::asked::Data::Many;
use pl_testing::asked::Want::{
    self, Bytes, Count, Fault, Fds, NoCall, NoProcess, Parked, Pid, Size,
};

const NOT_OPEN: Want = Fault(EBADF);

const BUSY: Want = Fault(EBUSY);

/// Each of them is refused memory in turn.
const CAPACITIES: &[Steps] = &[
    // A capacity takes no memory. What finds none are the write and its next try.
    Steps {
        name: "raised_under_a_write",
        rows: &[
            (Start, Pid(1)),
            (Pipe(1), Fds(0, 1)),
            (SetPipeSz(1, 1, 4_096), Size(4_096)),
            (Write(1, 1, Many(b'a', 10_000)), Parked(1)),
            (SetPipeSz(1, 0, 8_192), Size(8_192)),
            (GetPipeSz(1, 1), Size(8_192)),
            (Resume(1), Parked(1)),
            (SetPipeSz(1, 1, 4_096), BUSY),
            (Interrupt(1), Count(8_192)),
            (Read(1, 0, 9_000), Bytes(Many(b'a', 8_192))),
        ],
        passed: &[
            (
                0,
                &[
                    NoProcess, NoProcess, NoProcess, NoProcess, NoProcess, NoCall, NoProcess,
                    NoCall, NoProcess,
                ],
            ),
            (
                1,
                &[
                    NOT_OPEN, NOT_OPEN, NOT_OPEN, NOT_OPEN, NoCall, NOT_OPEN, NoCall, NOT_OPEN,
                ],
            ),
            (
                3,
                &[
                    Size(8_192),
                    Size(8_192),
                    NoCall,
                    Size(4_096),
                    NoCall,
                    Parked(1),
                ],
            ),
            (6, &[Size(4_096), Count(4_096), Bytes(Many(b'a', 4_096))]),
            (9, &[]),
        ],
        names: &[],
    },
    // So it is where the capacity becomes that of a new pipe again.
    Steps {
        name: "raised_and_lowered_again",
        rows: &[
            (Start, Pid(1)),
            (Pipe(1), Fds(0, 1)),
            (SetPipeSz(1, 0, 131_072), Size(131_072)),
            (Write(1, 1, Many(b'a', 100_000)), Count(100_000)),
            (SetPipeSz(1, 1, 65_536), BUSY),
            (Read(1, 0, 40_000), Bytes(Many(b'a', 40_000))),
            (SetPipeSz(1, 1, 65_536), Size(65_536)),
            // room for 5,536 bytes
            (Write(1, 1, Many(b'b', 5_537)), Parked(1)),
            (Interrupt(1), Count(5_536)),
        ],
        passed: &[
            (
                0,
                &[
                    NoProcess, NoProcess, NoProcess, NoProcess, NoProcess, NoProcess, NoProcess,
                    NoCall,
                ],
            ),
            (
                1,
                &[
                    NOT_OPEN, NOT_OPEN, NOT_OPEN, NOT_OPEN, NOT_OPEN, NOT_OPEN, NoCall,
                ],
            ),
            (
                3,
                &[
                    Size(65_536),
                    Parked(1),
                    Size(65_536),
                    Count(5_537),
                    Fault(EINTR),
                ],
            ),
            (5, &[BUSY, Count(5_537), NoCall]),
            (7, &[NoCall]),
        ],
        names: &[],
    },
];

/// The table, of which a proof of a test then need not see the rows.
pub(super) fn capacities() -> &'static [Steps] {
    CAPACITIES
}
