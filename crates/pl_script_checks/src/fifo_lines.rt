//! Lines that make FIFOs, with what they ask, and sessions of opens that wait.
use pl_testing::asked::Ask::{self, Mkfifo};
use pl_testing::asked::Data::Text;
use pl_testing::asked::NEVER_GIVEN;

pub(crate) const GOOD: &[(&str, Ask)] = &[
    ("1 mkfifo q", Mkfifo(1, Text("q"))),
    ("0 mkfifo mkfifo", Mkfifo(0, Text("mkfifo"))),
    ("4294967295 mkfifo -", Mkfifo(u32::MAX, Text(""))),
    // names: only that of one `-` is empty, and no name is refused here that a step may refuse
    ("1 mkfifo --", Mkfifo(1, Text("--"))),
    ("1 mkfifo %2d", Mkfifo(1, Text("-"))),
    ("1 mkfifo -%2D", Mkfifo(1, Text("--"))),
    ("1 mkfifo !#~", Mkfifo(1, Text("!#~"))),
    ("1 mkfifo a%2Fb/c", Mkfifo(1, Text("a/b/c"))),
    ("1 mkfifo %2fa%00", Mkfifo(1, Text("/a\0"))),
    ("1 mkfifo %20%25%7e", Mkfifo(1, Text(" %~"))),
    ("1 mkfifo %2520", Mkfifo(1, Text("%20"))),
    ("1 mkfifo Q", Mkfifo(1, Text("Q"))),
    // blanks, and one carriage return at the end
    ("\t1  mkfifo q \r", Mkfifo(1, Text("q"))),
    (" 1 mkfifo\tq\t", Mkfifo(1, Text("q"))),
    ("1\tmkfifo \t q\r", Mkfifo(1, Text("q"))),
    ("1 mkfifo -\r", Mkfifo(1, Text(""))),
];

pub(crate) const BAD: &[&str] = &[
    // a word missing, and a word too many
    "1 mkfifo",
    "1 mkfifo \r",
    "1 mkfifo q q",
    "1 mkfifo - -",
    "1 mkfifo q #",
    "1 mkfifo q nonblock",
    // words that are near to a name
    "1 mkfif q",
    "1 mkfifos q",
    "1 mknod q",
    "1 fifo q",
    "1 mkfifoq",
    // upper case
    "1 MKFIFO q",
    "1 Mkfifo q",
    // no process
    "mkfifo q",
    "mkfifo 1 q",
    "-1 mkfifo q",
    "-0 mkfifo q",
    "4294967296 mkfifo q",
    "000000000000000000001 mkfifo q",
    // names
    "1 mkfifo %",
    "1 mkfifo %2",
    "1 mkfifo %2g",
    "1 mkfifo %g2",
    "1 mkfifo q%",
    "1 mkfifo q%2",
    "1 mkfifo %%20",
    "1 mkfifo \u{7f}",
    "1 mkfifo q\u{1f}",
    "1 mkfifo \u{fc}",
    "1 mkfifo q\0",
    // a second carriage return
    "1 mkfifo q\r\r",
    "1 mkfifo q\r ",
];

const AN_OPEN_THAT_WAS_MET_STAYS_MET: &str = "\
start => pid 1
start => pid 2
1 mkfifo q => ok
2 open q w nonblock => ENXIO
1 open q r => parked 1
resume 1 => parked 1
2 open q w => fd 0
2 close 0 => ok
resume 1 => fd 0
1 poll now 0:in => masks 1 hup
1 read 0 10 => data -
";

const A_FIFO_WITH_NO_END_FORGETS: &str = "\
start => pid 1
1 mkfifo q => ok
1 mkfifo q => EEXIST
1 open q rw => fd 0
1 write 0 616263 => count 3
1 setsz 0 1 => size 4096
1 close 0 => ok
1 open q r nonblock => fd 0
1 poll now 0:in => masks 0 -
1 read 0 10 => data -
1 getsz 0 => size 65536
";

const OPENS_THAT_WAIT: &str = "\
start => pid 1
1 mkfifo p => ok
1 mkfifo q => ok
1 open q r => parked 1
1 open q r creat,append => parked 2
1 open p w => parked 3
1 open q r creat,excl => EEXIST
interrupt 3 => EINTR
interrupt 3 => no call
1 open p r => parked 4
1 fork => pid 2
2 open q w nonblock => fd 0
resume 2 => fd 0
1 getfl 0 => flags r append
resume 1 => fd 1
resume 4 => parked 4
2 write 0 6162 => count 2
1 read 1 1 => data 61
1 read 0 9 => data 62
1 lseek 0 0 set => ESPIPE
file q => no file
1 exit => ok
resume 4 => no call
2 open p w nonblock => ENXIO
2 write 0 63 => EPIPE sigpipe
";

const NO_NUMBER_IS_LEFT_FOR_AN_OPEN: &str = "\
start => pid 1
1 mkfifo q => ok
1 open q r => calls spent
1 open q w nonblock => ENXIO
1 open q w => calls spent
1 open q r nonblock => fd 0
1 open q w => fd 1
";

/// The name of each session, the number of its first call, and its lines.
const SESSIONS: &[(&str, u64, &str)] = &[
    (
        "an_open_that_was_met_stays_met",
        1,
        AN_OPEN_THAT_WAS_MET_STAYS_MET,
    ),
    ("a_fifo_with_no_end_forgets", 1, A_FIFO_WITH_NO_END_FORGETS),
    ("opens_that_wait", 1, OPENS_THAT_WAIT),
    (
        "no_number_is_left_for_an_open",
        NEVER_GIVEN,
        NO_NUMBER_IS_LEFT_FOR_AN_OPEN,
    ),
];

/// The table, of which a proof of the test then need not see the rows.
pub(crate) fn sessions() -> &'static [(&'static str, u64, &'static str)] {
    SESSIONS
}
