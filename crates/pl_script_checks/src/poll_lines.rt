//! Lines that poll, with what they ask, and sessions of polls.
use pl_model::PollMask;
use pl_testing::asked::Ask::{self, PollNow, PollWait};
use pl_testing::asked::NEVER_GIVEN;
use pl_testing::masks::{ALL, EMPTY, ERR, HUP, IN, IN_HUP, IN_OUT, NVAL, OUT};

/// Words, descriptors and numbers of entries.
pub(crate) const GOOD: &[(&str, Ask)] = &[
    ("1 poll now", PollNow(1, &[])),
    ("1 poll wait", PollWait(1, &[])),
    ("1 poll now 0:in", PollNow(1, &[(0, IN)])),
    ("1 poll wait 0:in", PollWait(1, &[(0, IN)])),
    ("1 poll now 0:- -1:in", PollNow(1, &[(0, EMPTY), (-1, IN)])),
    (
        "1 poll wait 3:in 2:out 1:err 0:hup -1:nval",
        PollWait(1, &[(3, IN), (2, OUT), (1, ERR), (0, HUP), (-1, NVAL)]),
    ),
    (
        "1 poll now 0:in 0:in 0:-",
        PollNow(1, &[(0, IN), (0, IN), (0, EMPTY)]),
    ),
    ("0 poll now 256:-", PollNow(0, &[(256, EMPTY)])),
    ("4294967295 poll now", PollNow(u32::MAX, &[])),
    (
        "1 poll now -2147483648:in 2147483647:out",
        PollNow(1, &[(i32::MIN, IN), (i32::MAX, OUT)]),
    ),
    (
        "1 poll now -0:in 00000000000000000007:- -00000000000000000007:-",
        PollNow(1, &[(0, IN), (7, EMPTY), (-7, EMPTY)]),
    ),
    // blanks, and one carriage return at the end
    (
        "\t1  poll\tnow \t 0:in\t1:out \r",
        PollNow(1, &[(0, IN), (1, OUT)]),
    ),
    ("1 poll wait\r", PollWait(1, &[])),
    ("1 poll wait 0:-\r", PollWait(1, &[(0, EMPTY)])),
];

const OUT_IN: &[PollMask] = &[PollMask::OUT, PollMask::IN];

/// Masks: names in any order, and repeated.
pub(crate) const MASKS: &[(&str, Ask)] = &[
    ("1 poll now 0:in,out", PollNow(1, &[(0, IN_OUT)])),
    ("1 poll now 0:out,in", PollNow(1, &[(0, OUT_IN)])),
    ("1 poll now 0:hup,in", PollNow(1, &[(0, IN_HUP)])),
    ("1 poll now 0:in,in,in", PollNow(1, &[(0, IN)])),
    (
        "1 poll wait 0:in,out,err,hup,nval 1:nval,hup,err,out,in",
        PollWait(1, &[(0, ALL), (1, ALL)]),
    ),
    (
        "1 poll wait 0:nval,nval,in,nval,hup,out,err,in",
        PollWait(1, &[(0, ALL)]),
    ),
];

pub(crate) const BAD: &[&str] = &[
    // a word missing
    "1 poll",
    "1 poll \r",
    "1 poll 0:in",
    "1 poll -",
    // words that are near to a name
    "1 pol now 0:in",
    "1 polls now 0:in",
    "1 ppoll now 0:in",
    "1 poll no 0:in",
    "1 poll nows 0:in",
    "1 poll waits 0:in",
    "1 poll later 0:in",
    "1 poll now wait 0:in",
    "1 poll now now",
    "1 poll wait wait",
    "1 pollnow 0:in",
    // upper case
    "1 POLL now 0:in",
    "1 poll NOW 0:in",
    "1 poll Wait 0:in",
    "1 poll now 0:IN",
    "1 poll now 0:in,Out",
    // no process
    "poll now 0:in",
    "poll 1 now 0:in",
    "-1 poll now 0:in",
    "-0 poll now",
    "4294967296 poll now",
    "000000000000000000001 poll now",
    // an entry without its descriptor, its colon or its mask, and one with more of them
    "1 poll now 0",
    "1 poll now in",
    "1 poll now 0:",
    "1 poll now :in",
    "1 poll now :",
    "1 poll now 0 in",
    "1 poll now 0 : in",
    "1 poll now 0: in",
    "1 poll now 0 :in",
    "1 poll now 0::in",
    "1 poll now 0:in:",
    "1 poll now 0:in:out",
    "1 poll now 0:1:in",
    "1 poll now 0;in",
    "1 poll now 0=in",
    "1 poll now 0:in 1",
    "1 poll now 0:in 1:",
    "1 poll now 0:in :in",
    "1 poll now 0:in 1:out #",
    "1 poll now 0:in -",
    // descriptors outside their range, and what is no number
    "1 poll now 2147483648:in",
    "1 poll now -2147483649:in",
    "1 poll now 0:in 2147483648:in",
    "1 poll now 000000000000000000001:in",
    "1 poll now -000000000000000000001:in",
    "1 poll now -:in",
    "1 poll now --1:in",
    "1 poll now +1:in",
    "1 poll now x:in",
    "1 poll now 0x1:in",
    "1 poll now 1-:in",
    // masks: one without names is `-` alone
    "1 poll now 0:in,",
    "1 poll now 0:,in",
    "1 poll now 0:in,,out",
    "1 poll now 0:,",
    "1 poll now 0:--",
    "1 poll now 0:in,-",
    "1 poll now 0:-,in",
    "1 poll now 0:-in",
    "1 poll now 0:in-",
    "1 poll now 0:in, out",
    "1 poll now 0:in;out",
    "1 poll now 0:in|out",
    "1 poll now 0:i",
    "1 poll now 0:inn",
    "1 poll now 0:pri",
    "1 poll now 0:rdhup",
    "1 poll now 0:pollin",
    "1 poll now 0:error",
    "1 poll now 0:nva",
    "1 poll now 0:1",
    "1 poll now 0:nonblock",
    // neither do they stand with an open, a pipe or a `setfl`
    "1 open f r in",
    "1 setfl 0 out",
    "1 pipe in",
    // a second carriage return
    "1 poll now\r\r",
    "1 poll now 0:in\r\r",
    "1 poll now 0:in\r ",
];

const POLL: &str = "\
start => pid 1
1 pipe => fds 0 1
1 poll wait 0:in 1:- -1:in => parked 1
1 write 1 61 => count 1
resume 1 => masks 1 in - -
1 poll now 9:in -1:in 1:in,out => masks 2 nval - out
1 setsz 1 4096 => size 4096
1 poll now 1:out => masks 0 -
";

/// A poll of 257 entries, in lines of 32 and a last one.
const LIMITS: &str = "\
start => pid 1
1 poll now \
0:- 0:- 0:- 0:- 0:- 0:- 0:- 0:- 0:- 0:- 0:- 0:- 0:- 0:- 0:- 0:- 0:- 0:- 0:- 0:- 0:- 0:- 0:- 0:- 0:- 0:- 0:- 0:- 0:- 0:- 0:- 0:- \
0:- 0:- 0:- 0:- 0:- 0:- 0:- 0:- 0:- 0:- 0:- 0:- 0:- 0:- 0:- 0:- 0:- 0:- 0:- 0:- 0:- 0:- 0:- 0:- 0:- 0:- 0:- 0:- 0:- 0:- 0:- 0:- \
0:- 0:- 0:- 0:- 0:- 0:- 0:- 0:- 0:- 0:- 0:- 0:- 0:- 0:- 0:- 0:- 0:- 0:- 0:- 0:- 0:- 0:- 0:- 0:- 0:- 0:- 0:- 0:- 0:- 0:- 0:- 0:- \
0:- 0:- 0:- 0:- 0:- 0:- 0:- 0:- 0:- 0:- 0:- 0:- 0:- 0:- 0:- 0:- 0:- 0:- 0:- 0:- 0:- 0:- 0:- 0:- 0:- 0:- 0:- 0:- 0:- 0:- 0:- 0:- \
0:- 0:- 0:- 0:- 0:- 0:- 0:- 0:- 0:- 0:- 0:- 0:- 0:- 0:- 0:- 0:- 0:- 0:- 0:- 0:- 0:- 0:- 0:- 0:- 0:- 0:- 0:- 0:- 0:- 0:- 0:- 0:- \
0:- 0:- 0:- 0:- 0:- 0:- 0:- 0:- 0:- 0:- 0:- 0:- 0:- 0:- 0:- 0:- 0:- 0:- 0:- 0:- 0:- 0:- 0:- 0:- 0:- 0:- 0:- 0:- 0:- 0:- 0:- 0:- \
0:- 0:- 0:- 0:- 0:- 0:- 0:- 0:- 0:- 0:- 0:- 0:- 0:- 0:- 0:- 0:- 0:- 0:- 0:- 0:- 0:- 0:- 0:- 0:- 0:- 0:- 0:- 0:- 0:- 0:- 0:- 0:- \
0:- 0:- 0:- 0:- 0:- 0:- 0:- 0:- 0:- 0:- 0:- 0:- 0:- 0:- 0:- 0:- 0:- 0:- 0:- 0:- 0:- 0:- 0:- 0:- 0:- 0:- 0:- 0:- 0:- 0:- 0:- 0:- \
0:- => EINVAL
";

const POLLS_THAT_WAIT: &str = "\
start => pid 1
1 pipe => fds 0 1
1 poll now => masks 0
1 poll wait => parked 1
1 poll wait 0:in,out 0:hup => parked 2
1 poll wait 1:out => masks 1 out
1 poll wait 0:in 2:in => masks 1 - nval
resume 2 => parked 2
1 close 0 => ok
1 poll now 0:in 1:- => masks 1 nval -
1 write 1 61 => count 1
resume 2 => masks 1 in -
resume 2 => no call
1 poll wait 1:in,out,err,hup,nval => masks 1 out,err
interrupt 1 => EINTR
1 pipe => fds 0 2
1 write 2 61 => count 1
1 close 2 => ok
1 poll wait 0:in 0:out 0:nval,in,hup => masks 3 in,hup hup in,hup
2 poll wait 0:in => no process
1 open f r creat => fd 2
1 poll now 2:nval,out,in 2:in 2:hup => masks 2 in,out in -
";

const NO_NUMBER_IS_LEFT_FOR_A_POLL: &str = "\
start => pid 1
1 pipe => fds 0 1
1 poll wait 0:in => calls spent
1 poll wait => calls spent
1 poll now 0:in => masks 0 -
1 poll wait 0:in 1:out => masks 1 - out
";

/// The name of each session, the number of its first call, and its lines.
const SESSIONS: &[(&str, u64, &str)] = &[
    ("poll", 1, POLL),
    ("limits", 1, LIMITS),
    ("polls_that_wait", 1, POLLS_THAT_WAIT),
    (
        "no_number_is_left_for_a_poll",
        NEVER_GIVEN,
        NO_NUMBER_IS_LEFT_FOR_A_POLL,
    ),
];

/// The table, of which a proof of the test then need not see the rows.
pub(crate) fn sessions() -> &'static [(&'static str, u64, &'static str)] {
    SESSIONS
}
