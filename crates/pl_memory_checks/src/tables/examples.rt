//! The worked examples of pipes and calls that wait.
use crate::steps::Steps;
use pl_model::Errno::{EAGAIN, EBADF, EINTR, EPIPE};
use pl_testing::asked::Data::{Many, Text, TwoRuns};
use pl_testing::asked::Want::{
    self, Bytes, Count, Fault, Fd, Masks, NoCall, NoProcess, Parked, Pid, Unit,
};
use pl_testing::examples::{
    A_PARKED_CALL_KEEPS_ITS_END, A_SMALL_WRITE_AT_ITS_BOUNDARY, A_WAITING_WRITER_IS_A_WRITER,
    AN_EXIT_DROPS_PARKED_CALLS, AN_INTERRUPTED_LARGE_WRITE, BYTES_BEFORE_END_OF_FILE,
    FLAGS_OF_SHARED_DESCRIPTIONS, INTERLEAVING_WITH_A_LARGE_WRITE, PARTIAL_AND_WHOLE_NOT_WAITING,
    THE_LAST_READER_LEAVES, THREE_NAMES_OF_ONE_WRITE_END,
};
use pl_testing::masks::{NVAL, OUT_ERR};

const NOT_OPEN: Want = Fault(EBADF);

const BROKEN: Want = Fault(EPIPE);

const WOULD_WAIT: Want = Fault(EAGAIN);

const INTERRUPTED: Want = Fault(EINTR);

const NOTHING: Want = Bytes(Text(""));

const A: Want = Bytes(Text("a"));

const B: Want = Bytes(Text("b"));

/// All that a pipe holds.
const FULL: Want = Bytes(Many(b'a', 65_536));

/// Bytes that go in and out. Each step is refused memory in turn.
const TRANSFERS: &[Steps] = &[
    Steps {
        name: "bytes_before_end_of_file",
        rows: &BYTES_BEFORE_END_OF_FILE,
        passed: &[
            (
                0,
                &[
                    NoProcess, NoProcess, NoProcess, NoProcess, NoProcess, NoProcess,
                ],
            ),
            (1, &[NOT_OPEN, NOT_OPEN, NOT_OPEN, NOT_OPEN, NOT_OPEN]),
            (2, &[Parked(1), Parked(2), Unit, NOTHING]),
            (3, &[Bytes(Text("hello")), Unit, NOTHING]),
            (4, &[Unit, Bytes(Text("lo"))]),
        ],
        names: &[],
    },
    Steps {
        name: "partial_and_whole_not_waiting",
        rows: &PARTIAL_AND_WHOLE_NOT_WAITING,
        passed: &[
            (
                0,
                &[
                    NoProcess, NoProcess, NoProcess, NoProcess, NoProcess, NoProcess,
                ],
            ),
            (1, &[NOT_OPEN, NOT_OPEN, NOT_OPEN, NOT_OPEN, NOT_OPEN]),
            (3, &[WOULD_WAIT, Count(65_536), WOULD_WAIT]),
            (4, &[WOULD_WAIT, WOULD_WAIT]),
            (5, &[Count(1)]),
        ],
        names: &[],
    },
    Steps {
        name: "a_small_write_at_its_boundary",
        rows: &A_SMALL_WRITE_AT_ITS_BOUNDARY,
        passed: &[
            (
                0,
                &[
                    NoProcess, NoProcess, NoProcess, NoProcess, NoCall, NoProcess, NoCall,
                    NoProcess, NoProcess, NoCall, NoCall,
                ],
            ),
            (
                1,
                &[
                    NOT_OPEN, NOT_OPEN, NOT_OPEN, NoCall, NOT_OPEN, NoCall, NOT_OPEN, NOT_OPEN,
                    NoCall, NoCall,
                ],
            ),
            // Without the 62,536 bytes there is room for all others.
            (
                2,
                &[
                    Count(4_000),
                    Bytes(Many(b'b', 999)),
                    NoCall,
                    B,
                    NoCall,
                    B,
                    Count(2),
                    NoCall,
                    NoCall,
                ],
            ),
            (
                3,
                &[
                    Bytes(Many(b'a', 999)),
                    NoCall,
                    A,
                    NoCall,
                    A,
                    Count(2),
                    NoCall,
                    NoCall,
                ],
            ),
            // The room is 3,001 bytes, then 3,002, which holds up no smaller write.
            (4, &[Parked(1), A, Parked(1), A, Count(2), NoCall, NoCall]),
            (6, &[Parked(1), A, Count(2), NoCall, NoCall]),
            (7, &[A, Count(2), NoCall, NoCall]),
            (8, &[Parked(2), INTERRUPTED, NoCall]),
        ],
        names: &[],
    },
    Steps {
        name: "an_interrupted_large_write",
        rows: &AN_INTERRUPTED_LARGE_WRITE,
        passed: &[
            (0, &[NoProcess, NoProcess, NoCall, NoCall]),
            (1, &[NOT_OPEN, NoCall, NoCall]),
            (2, &[NoCall, NoCall]),
        ],
        names: &[],
    },
    Steps {
        name: "interleaving_with_a_large_write",
        rows: &INTERLEAVING_WITH_A_LARGE_WRITE,
        passed: &[
            (
                0,
                &[
                    NoProcess, NoProcess, NoProcess, NoProcess, NoProcess, NoCall, NoProcess,
                    NoCall, NoProcess,
                ],
            ),
            (
                1,
                &[
                    Pid(2),
                    NOT_OPEN,
                    NOT_OPEN,
                    NOT_OPEN,
                    NoCall,
                    NOT_OPEN,
                    NoCall,
                    NOT_OPEN,
                ],
            ),
            // The large write gets the room that the other process doesn't take.
            (
                2,
                &[
                    Parked(1),
                    Bytes(Many(b'a', 1_000)),
                    NoProcess,
                    Parked(1),
                    FULL,
                    Count(70_000),
                    Bytes(Many(b'a', 3_464)),
                ],
            ),
            (
                3,
                &[
                    Parked(1),
                    Count(1_000),
                    Bytes(Many(b'b', 1_000)),
                    Parked(2),
                    NoCall,
                    Parked(3),
                ],
            ),
            // There is no room for the small write.
            (
                4,
                &[
                    Parked(2),
                    Parked(1),
                    FULL,
                    Count(70_000),
                    Bytes(Many(b'a', 4_464)),
                ],
            ),
            (
                5,
                &[Parked(1), FULL, Count(70_000), Bytes(Many(b'a', 3_464))],
            ),
            (7, &[Parked(1), Bytes(TwoRuns(b'a', 64_536, b'b', 1_000))]),
            (9, &[]),
        ],
        names: &[],
    },
];

/// The table, of which a proof of the test then need not see the rows.
pub(super) fn transfers() -> &'static [Steps] {
    TRANSFERS
}

/// Ends, and who keeps them. Each step is refused memory in turn.
const ENDS: &[Steps] = &[
    Steps {
        name: "the_last_reader_leaves",
        rows: &THE_LAST_READER_LEAVES,
        passed: &[
            (
                0,
                &[
                    NoProcess, NoProcess, NoProcess, NoCall, NoProcess, NoProcess, NoProcess,
                ],
            ),
            (
                1,
                &[
                    NOT_OPEN,
                    NOT_OPEN,
                    NoCall,
                    NOT_OPEN,
                    NOT_OPEN,
                    Masks(1, &[NVAL]),
                ],
            ),
            // There is room.
            (2, &[Unit, NoCall, BROKEN, Count(0), Masks(1, &[OUT_ERR])]),
            (7, &[]),
        ],
        names: &[],
    },
    // A call that finds no memory as it is tried again stays parked, and keeps its end.
    Steps {
        name: "a_parked_call_keeps_its_end",
        rows: &A_PARKED_CALL_KEEPS_ITS_END,
        passed: &[
            (
                0,
                &[
                    NoProcess, NoProcess, NoProcess, NoProcess, NoCall, NoProcess,
                ],
            ),
            (1, &[NOT_OPEN, NOT_OPEN, NOT_OPEN, NoCall, NOT_OPEN]),
            (2, &[Unit, BROKEN, NoCall, BROKEN]),
            (4, &[Parked(1), Count(1)]),
            (5, &[Count(1)]),
        ],
        names: &[],
    },
    Steps {
        name: "a_waiting_writer_is_a_writer",
        rows: &A_WAITING_WRITER_IS_A_WRITER,
        passed: &[
            (
                0,
                &[
                    NoProcess, NoProcess, NoProcess, NoProcess, NoProcess, NoCall, NoCall,
                    NoProcess,
                ],
            ),
            (
                1,
                &[
                    NOT_OPEN, NOT_OPEN, NOT_OPEN, NOT_OPEN, NoCall, NoCall, NOT_OPEN,
                ],
            ),
            (2, &[Unit, NOTHING, NOTHING, NoCall, NoCall, NOTHING]),
            // The next read takes one of the 65,536 bytes, and there is room for one more.
            (
                4,
                &[
                    Bytes(Text("a")),
                    Parked(1),
                    NoCall,
                    Bytes(Many(b'a', 65_536)),
                ],
            ),
            (7, &[Bytes(Many(b'a', 4_464))]),
            (8, &[]),
        ],
        names: &[],
    },
    Steps {
        name: "three_names_of_one_write_end",
        rows: &THREE_NAMES_OF_ONE_WRITE_END,
        passed: &[
            (
                0,
                &[
                    NoProcess, NoProcess, NoProcess, NoProcess, NoProcess, NoProcess, NoProcess,
                    NoCall,
                ],
            ),
            (
                1,
                &[Pid(2), NOT_OPEN, NOT_OPEN, NOT_OPEN, NOT_OPEN, Unit, NoCall],
            ),
            // Without the other process its own two names are all.
            (2, &[Fd(2), Unit, Unit, NOTHING, NoProcess, NoCall]),
            (6, &[Unit, NoCall]),
        ],
        names: &[],
    },
    Steps {
        name: "an_exit_drops_parked_calls",
        rows: &AN_EXIT_DROPS_PARKED_CALLS,
        passed: &[
            (
                0,
                &[NoProcess, NoProcess, NoProcess, NoCall, NoProcess, Pid(1)],
            ),
            (1, &[NOT_OPEN, Unit, NoCall, NoProcess, Pid(1)]),
            (2, &[Unit, NoCall, NoProcess, Pid(1)]),
            (6, &[]),
        ],
        names: &[],
    },
    // Only these two take memory: no call on descriptors or flags does.
    Steps {
        name: "flags_of_shared_descriptions",
        rows: &FLAGS_OF_SHARED_DESCRIPTIONS,
        passed: &[
            (
                0,
                &[
                    NoProcess, NoProcess, NoProcess, NoProcess, NoProcess, NoProcess, NoProcess,
                    NoProcess, NoProcess,
                ],
            ),
            (
                1,
                &[
                    NOT_OPEN, NOT_OPEN, NOT_OPEN, NOT_OPEN, NOT_OPEN, NOT_OPEN, NOT_OPEN, NOT_OPEN,
                ],
            ),
        ],
        names: &[],
    },
];

/// The other table.
pub(super) fn ends() -> &'static [Steps] {
    ENDS
}
