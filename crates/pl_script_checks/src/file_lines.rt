//! Lines that open and unlink names and set offsets, with what they ask.
use pl_model::Whence::{Cur, End, Set};
use pl_model::{Mode, OpenFlags};
use pl_testing::asked::Ask::{self, Lseek, Open, Unlink};
use pl_testing::asked::Data::Text;

pub(crate) const GOOD: &[(&str, Ask)] = &[
    ("1 open f r", Open(1, Text("f"), Mode::Read, &[])),
    ("1 open - w", Open(1, Text(""), Mode::Write, &[])),
    (
        "4294967295 open ~ rw",
        Open(u32::MAX, Text("~"), Mode::Both, &[]),
    ),
    (
        "1 open a%2Fb rw excl,creat,excl",
        Open(
            1,
            Text("a/b"),
            Mode::Both,
            &[OpenFlags::CREAT, OpenFlags::EXCL],
        ),
    ),
    (
        "1 open %00 w append,nonblock,trunc",
        Open(
            1,
            Text("\0"),
            Mode::Write,
            &[OpenFlags::TRUNC, OpenFlags::APPEND, OpenFlags::NONBLOCK],
        ),
    ),
    ("1 lseek 0 0 set", Lseek(1, 0, 0, Set)),
    ("1 lseek 0 0 cur", Lseek(1, 0, 0, Cur)),
    ("1 lseek -1 -0 end", Lseek(1, -1, 0, End)),
    (
        "1 lseek 0 -9223372036854775808 set",
        Lseek(1, 0, i64::MIN, Set),
    ),
    (
        "1 lseek 0 9223372036854775807 end",
        Lseek(1, 0, i64::MAX, End),
    ),
    ("1 unlink f", Unlink(1, Text("f"))),
    ("1 unlink %2d", Unlink(1, Text("-"))),
    ("1 unlink -", Unlink(1, Text(""))),
    // blanks, and one carriage return at the end
    ("\t1 open  f r \r", Open(1, Text("f"), Mode::Read, &[])),
    ("1 lseek\t0 7 set\r", Lseek(1, 0, 7, Set)),
    (" 1 unlink f\r", Unlink(1, Text("f"))),
];

pub(crate) const BAD: &[&str] = &[
    // a word missing, and a word too many
    "1 open",
    "1 open f",
    "1 open f r creat excl",
    "1 open f r direct",
    "1 lseek",
    "1 lseek 0",
    "1 lseek 0 0",
    "1 lseek 0 0 set 0",
    "1 unlink",
    "1 unlink f f",
    // words that are near to a name
    "1 opens f r",
    "1 OPEN f r",
    "1 seek 0 0 set",
    "1 unlin f",
    // no process
    "open f r",
    "unlink f",
    // modes, and flags: those of an open are left out, not `-`
    "1 open f R",
    "1 open f wr",
    "1 open f creat",
    "1 open f r -",
    "1 open f r creat,",
    "1 open f r CREAT",
    "1 open f r rdonly",
    // where an offset is counted from
    "1 lseek 0 0 SET",
    "1 lseek 0 0 begin",
    "1 lseek 0 set 0",
    // numbers outside their range, and what is no number
    "1 lseek 0 9223372036854775808 set",
    "1 lseek 0 -9223372036854775809 set",
    "1 lseek 0 +1 set",
    "1 lseek 2147483648 0 set",
    "1 lseek 0 - set",
    // names
    "1 open % r",
    "1 open %2 r",
    "1 open %2g r",
    "1 unlink a%",
    "1 unlink %2",
    "1 unlink \u{7f}",
    // a second carriage return
    "1 unlink f\r\r",
];
