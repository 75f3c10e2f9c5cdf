//! The worked examples of shared bytes, files, names, FIFOs and capacities, and of a kernel without numbers.
use pl_model::Errno::ENOENT;
use pl_model::Mode;
use pl_testing::asked::Ask::Open;
use pl_testing::asked::Data::{self, Text};
use pl_testing::asked::NEVER_GIVEN;
use pl_testing::asked::Want::Fault;
use pl_testing::examples::{
    A_FIFO_WITH_NO_END_FORGETS, A_FILE_OF_TWO_PROCESSES, A_FILE_WITHOUT_ITS_NAME, A_SHARED_TAIL,
    A_SPLICE_TO_AN_OFFSET, AN_OPEN_THAT_WAS_MET_STAYS_MET, BYTES_OF_THEIR_MOMENT,
    CALL_NUMBERS_SPENT, NAMES_AND_FLAGS, SIZES_OF_A_PIPE, SPLICES_AND_TEES_REFUSED,
    SPLICES_OF_AN_EMPTY_PIPE, THE_END_OF_A_FILE,
};
use pl_testing::sessions::{NEW_KERNEL, Session};

const F: Data = Text("f");

const Q: Data = Text("q");

const X: Data = Text("x");

/// Each is refused every request for memory in turn.
const BYTES: &[Session] = &[
    Session {
        name: "a_shared_tail",
        rows: &A_SHARED_TAIL,
        ..NEW_KERNEL
    },
    Session {
        name: "bytes_of_their_moment",
        rows: &BYTES_OF_THEIR_MOMENT,
        files: &[(F, Some(Text("new")))],
        names: &[F],
        ..NEW_KERNEL
    },
    Session {
        name: "a_splice_to_an_offset",
        rows: &A_SPLICE_TO_AN_OFFSET,
        files: &[(F, Some(Text("\0\0\0\0\0\0\0\0\0\0ab")))],
        more: &SPLICES_OF_AN_EMPTY_PIPE,
        names: &[F],
        ..NEW_KERNEL
    },
    Session {
        name: "splices_and_tees_refused",
        rows: &SPLICES_AND_TEES_REFUSED,
        names: &[Text("a"), Text("b")],
        ..NEW_KERNEL
    },
    Session {
        name: "a_file_of_two_processes",
        rows: &A_FILE_OF_TWO_PROCESSES,
        files: &[(F, Some(Text("abc\0\0d")))],
        more: &A_FILE_WITHOUT_ITS_NAME,
        ..NEW_KERNEL
    },
];

/// The table, of which a proof of the test then need not see the rows.
pub(super) fn bytes() -> &'static [Session] {
    BYTES
}

/// Each is refused every request for memory in turn.
const ENDS: &[Session] = &[
    Session {
        name: "a_fifo_with_no_end_forgets",
        rows: &A_FIFO_WITH_NO_END_FORGETS,
        names: &[Q],
        ..NEW_KERNEL
    },
    Session {
        name: "an_open_that_was_met_stays_met",
        rows: &AN_OPEN_THAT_WAS_MET_STAYS_MET,
        names: &[Q],
        ..NEW_KERNEL
    },
    Session {
        name: "sizes_of_a_pipe",
        rows: &SIZES_OF_A_PIPE,
        ..NEW_KERNEL
    },
    Session {
        name: "call_numbers_spent",
        first_call: NEVER_GIVEN,
        rows: &CALL_NUMBERS_SPENT,
        ..NEW_KERNEL
    },
    Session {
        name: "names_and_flags",
        rows: &NAMES_AND_FLAGS,
        files: &[(X, Some(Text("")))],
        names: &[X],
        ..NEW_KERNEL
    },
];

/// The other table.
pub(super) fn ends() -> &'static [Session] {
    ENDS
}

/// A file of the most bytes. It makes more requests than are refused in turn.
pub(crate) const THE_LARGEST_FILE: Session = Session {
    name: "the_end_of_a_file",
    rows: &THE_END_OF_A_FILE,
    files: &[(F, None)],
    more: &[(Open(1, F, Mode::Read, &[]), Fault(ENOENT))],
    ..NEW_KERNEL
};
