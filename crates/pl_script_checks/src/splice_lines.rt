//! Lines that splice and tee, with what they ask, and sessions of them.
use pl_model::SpliceFlags;
use pl_testing::asked::Ask::{self, Splice, Tee};
use pl_testing::asked::NEVER_GIVEN;

pub(crate) const GOOD: &[(&str, Ask)] = &[
    (
        "1 splice 0 - 3 - 5",
        Splice(1, (0, None), (3, None), 5, &[]),
    ),
    (
        "1 splice 0 0 3 - 0",
        Splice(1, (0, Some(0)), (3, None), 0, &[]),
    ),
    (
        "1 splice 0 - 3 7 5",
        Splice(1, (0, None), (3, Some(7)), 5, &[]),
    ),
    (
        "4294967295 splice -1 18446744073709551615 2147483647 9223372036854775808 4294967295",
        Splice(
            u32::MAX,
            (-1, Some(u64::MAX)),
            (i32::MAX, Some(9_223_372_036_854_775_808)),
            u32::MAX,
            &[],
        ),
    ),
    (
        "0 splice -2147483648 00000000000000000010 -0 - 00000000000000000003",
        Splice(0, (i32::MIN, Some(10)), (0, None), 3, &[]),
    ),
    ("1 tee 0 3 5", Tee(1, 0, 3, 5, &[])),
    ("1 tee 0 0 0", Tee(1, 0, 0, 0, &[])),
    (
        "4294967295 tee -1 2147483647 4294967295",
        Tee(u32::MAX, -1, i32::MAX, u32::MAX, &[]),
    ),
    // blanks, and one carriage return at the end
    (
        "\t1  splice\t0 - 3  - 5 \r",
        Splice(1, (0, None), (3, None), 5, &[]),
    ),
    (" 1 tee\t0 3  5\r", Tee(1, 0, 3, 5, &[])),
    ("1 tee 0 3 5  move\r", Tee(1, 0, 3, 5, &[SpliceFlags::MOVE])),
];

/// Names of flags are joined by commas, in any order, and may be repeated.
pub(crate) const FLAGS: &[(&str, Ask)] = &[
    (
        "1 splice 0 - 3 - 5 move",
        Splice(1, (0, None), (3, None), 5, &[SpliceFlags::MOVE]),
    ),
    (
        "1 splice 0 - 3 - 5 nonblock",
        Splice(1, (0, None), (3, None), 5, &[SpliceFlags::NONBLOCK]),
    ),
    (
        "1 splice 0 - 3 - 5 more",
        Splice(1, (0, None), (3, None), 5, &[SpliceFlags::MORE]),
    ),
    (
        "1 splice 0 - 3 - 5 gift",
        Splice(1, (0, None), (3, None), 5, &[SpliceFlags::GIFT]),
    ),
    (
        "1 splice 0 1 3 2 5 gift,move,gift",
        Splice(
            1,
            (0, Some(1)),
            (3, Some(2)),
            5,
            &[SpliceFlags::MOVE, SpliceFlags::GIFT],
        ),
    ),
    (
        "1 tee 0 3 5 more,gift,nonblock,move",
        Tee(
            1,
            0,
            3,
            5,
            &[
                SpliceFlags::MOVE,
                SpliceFlags::NONBLOCK,
                SpliceFlags::MORE,
                SpliceFlags::GIFT,
            ],
        ),
    ),
    (
        "1 tee 0 3 5 nonblock,nonblock",
        Tee(1, 0, 3, 5, &[SpliceFlags::NONBLOCK]),
    ),
];

pub(crate) const BAD: &[&str] = &[
    // a word missing, and a word too many
    "1 splice",
    "1 splice 0",
    "1 splice 0 -",
    "1 splice 0 - 3",
    "1 splice 0 - 3 -",
    "1 splice 0 3 5",
    "1 splice 0 - 3 - 5 move more",
    "1 splice 0 - 3 - 5 move -",
    "1 tee",
    "1 tee 0",
    "1 tee 0 3",
    "1 tee 0 - 3 - 5",
    "1 tee 0 3 5 move more",
    // words that are near to a name
    "1 splic 0 - 3 - 5",
    "1 splices 0 - 3 - 5",
    "1 SPLICE 0 - 3 - 5",
    "1 tees 0 3 5",
    "1 Tee 0 3 5",
    "1 vmsplice 0 - 3 - 5",
    // no process
    "splice 0 - 3 - 5",
    "tee 0 3 5",
    "-1 tee 0 3 5",
    // numbers outside their range, and what is no number
    "1 splice 2147483648 - 3 - 5",
    "1 splice 0 - -2147483649 - 5",
    "1 splice - - 3 - 5",
    "1 splice 0 - - - 5",
    "1 splice 0 18446744073709551616 3 - 5",
    "1 splice 0 - 3 99999999999999999999 5",
    "1 splice 0 000000000000000000001 3 - 5",
    "1 splice 0 -1 3 - 5",
    "1 splice 0 -0 3 - 5",
    "1 splice 0 +1 3 - 5",
    "1 splice 0 -- 3 - 5",
    "1 splice 0 x 3 - 5",
    "1 splice 0 - 3 0x1 5",
    "1 splice 0 - 3 - 4294967296",
    "1 splice 0 - 3 - -1",
    "1 splice 0 - 3 - -",
    "1 splice 0 - 3 - move",
    "1 tee 2147483648 3 5",
    "1 tee 0 - 5",
    "1 tee 0 3 4294967296",
    "1 tee 0 3 -5",
    "1 tee 0 3 -",
    "1 tee 0 3 move",
    // flags: they are left out, not `-`, and those of an open are others
    "1 splice 0 - 3 - 5 -",
    "1 tee 0 3 5 -",
    "1 splice 0 - 3 - 5 MOVE",
    "1 splice 0 - 3 - 5 mov",
    "1 splice 0 - 3 - 5 moves",
    "1 splice 0 - 3 - 5 move,",
    "1 splice 0 - 3 - 5 ,move",
    "1 splice 0 - 3 - 5 move,,more",
    "1 splice 0 - 3 - 5 ,",
    "1 splice 0 - 3 - 5 move,-",
    "1 splice 0 - 3 - 5 move;more",
    "1 splice 0 - 3 - 5 2",
    "1 splice 0 - 3 - 5 append",
    "1 tee 0 3 5 nonblock,creat",
    // neither do they stand with an open, a pipe or a `setfl`
    "1 open f r move",
    "1 open f r nonblock,more",
    "1 setfl 0 gift",
    "1 pipe move",
    // a second carriage return
    "1 tee 0 3 5\r\r",
];

const A_SHARED_TAIL: &str = "\
start => pid 1
1 pipe => fds 0 1
1 pipe => fds 2 3
1 write 1 6162 => count 2
1 tee 0 3 2 => count 2
1 write 1 63 => count 1
1 write 3 64 => count 1
1 read 0 10 => data 616263
1 read 2 10 => data 616264
";

const BYTES_OF_THEIR_MOMENT: &str = "\
start => pid 1
1 open f rw creat => fd 0
1 write 0 6f6c64 => count 3
1 pipe => fds 1 2
1 splice 0 0 2 - 10 => count 3
1 lseek 0 0 set => offset 0
1 write 0 6e6577 => count 3
1 read 1 10 => data 6f6c64
file f => file 6e6577
";

const A_SPLICE_TO_AN_OFFSET: &str = "\
start => pid 1
1 pipe => fds 0 1
1 open f rw creat => fd 2
1 write 1 6162 => count 2
1 splice 0 - 2 10 5 => count 2
1 lseek 2 0 cur => offset 0
file f => file 000000000000000000006162
1 splice 0 0 2 - 5 => ESPIPE
1 splice 0 - 2 - 5 nonblock => EAGAIN
1 close 1 => ok
1 splice 0 - 2 - 5 => count 0
";

const SPLICES_AND_TEES_REFUSED: &str = "\
start => pid 1
1 pipe => fds 0 1
1 open a rw creat,append => fd 2
1 open b rw creat => fd 3
1 splice 0 - 1 - 5 => EINVAL
1 splice 2 - 3 - 5 => EINVAL
1 splice 0 - 2 - 5 => EINVAL
1 splice 99 - 98 - 0 => count 0
1 splice 99 - 1 - 5 => EBADF
1 tee 0 3 5 => EINVAL
1 tee 1 0 5 => EBADF
";

const SPLICES_THAT_WAIT: &str = "\
start => pid 1
1 pipe => fds 0 1
1 pipe => fds 2 3
1 splice 0 - 3 - 5 => parked 1
1 tee 0 3 5 move,gift => parked 2
1 tee 0 3 5 more,nonblock => EAGAIN
resume 1 => parked 1
1 write 1 616263 => count 3
resume 2 => count 3
resume 1 => count 3
resume 1 => no call
1 read 2 9 => data 616263616263
1 splice 0 - 3 - 5 => parked 3
interrupt 3 => EINTR
1 splice 0 - 3 - 5 => parked 4
1 close 2 => ok
resume 4 => EPIPE sigpipe
2 splice 0 - 3 - 5 => no process
";

const NO_NUMBER_IS_LEFT: &str = "\
start => pid 1
1 pipe => fds 0 1
1 pipe => fds 2 3
1 splice 0 - 3 - 5 => calls spent
1 tee 0 3 5 => calls spent
1 tee 0 3 0 => count 0
1 write 1 61 => count 1
1 splice 0 - 3 - 5 => count 1
";

/// The name of each session, the number of its first call, and its lines.
const SESSIONS: &[(&str, u64, &str)] = &[
    ("a_shared_tail", 1, A_SHARED_TAIL),
    ("bytes_of_their_moment", 1, BYTES_OF_THEIR_MOMENT),
    ("a_splice_to_an_offset", 1, A_SPLICE_TO_AN_OFFSET),
    ("splices_and_tees_refused", 1, SPLICES_AND_TEES_REFUSED),
    ("splices_that_wait", 1, SPLICES_THAT_WAIT),
    ("no_number_is_left", NEVER_GIVEN, NO_NUMBER_IS_LEFT),
];

/// The table, of which a proof of the test then need not see the rows.
pub(crate) fn sessions() -> &'static [(&'static str, u64, &'static str)] {
    SESSIONS
}
