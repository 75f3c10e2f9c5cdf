//! Lines that tell and set capacities, with what they ask.
use pl_testing::asked::Ask::{self, GetPipeSz, SetPipeSz};

pub(crate) const GOOD: &[(&str, Ask)] = &[
    ("1 getsz 0", GetPipeSz(1, 0)),
    ("4294967295 getsz -1", GetPipeSz(u32::MAX, -1)),
    ("1 getsz 2147483647", GetPipeSz(1, i32::MAX)),
    ("1 getsz -2147483648", GetPipeSz(1, i32::MIN)),
    ("2 getsz -0", GetPipeSz(2, 0)),
    ("1 setsz 1 4096", SetPipeSz(1, 1, 4_096)),
    ("1 setsz 0 0", SetPipeSz(1, 0, 0)),
    ("1 setsz -1 1048577", SetPipeSz(1, -1, 1_048_577)),
    ("1 setsz 256 4294967295", SetPipeSz(1, 256, u32::MAX)),
    ("1 setsz 0 00000000000000005000", SetPipeSz(1, 0, 5_000)),
    // blanks, and one carriage return at the end
    ("\t1  getsz 0 \r", GetPipeSz(1, 0)),
    (" 1 setsz\t0  7\r", SetPipeSz(1, 0, 7)),
];

pub(crate) const BAD: &[&str] = &[
    // a word missing, and a word too many
    "1 getsz",
    "1 getsz 0 0",
    "1 setsz",
    "1 setsz 0",
    "1 setsz 0 1 1",
    // words that are near to a name
    "1 getsize 0",
    "1 GETSZ 0",
    "1 setpipesz 0 1",
    "1 Setsz 0 1",
    // no process
    "getsz 0",
    "setsz 0 1",
    "-1 getsz 0",
    // numbers outside their range, and what is no number
    "1 getsz 2147483648",
    "1 getsz -2147483649",
    "1 getsz -",
    "1 setsz 0 4294967296",
    "1 setsz 0 -1",
    "1 setsz 0 -0",
    "1 setsz 0 +1",
    "1 setsz 0 000000000000000005000",
    "1 setsz 0 0x1000",
    "1 setsz 0 -",
    "1 setsz 2147483648 1",
    // a second carriage return
    "1 getsz 0\r\r",
];
