//! What lines ask.
use crate::equal::is;
use crate::refused::{Asked, is_told, is_told_as_bad};
use crate::{fifo_lines, file_lines, poll_lines, shared_lines, size_lines, splice_lines};
use pl_model::Name;
use pl_script::{Line, Version, parse_line};
use pl_testing::asked::Ask::{
    self, Close, Interrupt, Pipe, PipeNonblock, Read, Resume, Start, Write,
};
use pl_testing::asked::Data::{Many, Text};
use std::alloc::Global;
use std::process::Abort;
use std::test::Fail;

const GOOD: &[(&str, Ask)] = &[
    ("start", Start),
    ("resume 0", Resume(0)),
    ("resume 18446744073709551615", Resume(u64::MAX)),
    ("resume 00000000000000000007", Resume(7)),
    ("interrupt 1", Interrupt(1)),
    ("interrupt 18446744073709551615", Interrupt(u64::MAX)),
    ("1 pipe", Pipe(1)),
    ("0 pipe", Pipe(0)),
    ("4294967295 pipe", Pipe(u32::MAX)),
    ("00000000000000000001 pipe", Pipe(1)),
    ("1 pipe nonblock", PipeNonblock(1)),
    ("1 read 0 3", Read(1, 0, 3)),
    ("1 read 0 0", Read(1, 0, 0)),
    ("1 read -1 4294967295", Read(1, -1, u32::MAX)),
    (
        "1 read 00000000000000000002 00000000000000000003",
        Read(1, 2, 3),
    ),
    ("1 write 1 -", Write(1, 1, Text(""))),
    ("1 write 1 616A", Write(1, 1, Text("aj"))),
    ("1 write 1 4a4B4c4D4e4F", Write(1, 1, Text("JKLMNO"))),
    ("1 write -1 00", Write(1, -1, Text("\0"))),
    ("1 write 1 3*61", Write(1, 1, Text("aaa"))),
    ("1 write 1 0*61", Write(1, 1, Text(""))),
    ("1 write 1 2*6A", Write(1, 1, Text("jj"))),
    (
        "1 write 1 00000000000000000003*61",
        Write(1, 1, Text("aaa")),
    ),
    ("1 write 1 16777216*61", Write(1, 1, Many(b'a', 16_777_216))),
    ("1 close 0", Close(1, 0)),
    ("1 close 256", Close(1, 256)),
    ("1 close 2147483647", Close(1, i32::MAX)),
    ("1 close -2147483648", Close(1, i32::MIN)),
    ("1 close -0", Close(1, 0)),
    ("1 close -00000000000000000001", Close(1, -1)),
    // blanks
    (" start", Start),
    ("\tstart \t", Start),
    ("  \t 1\tpipe  ", Pipe(1)),
    ("1 \t pipe\t\tnonblock", PipeNonblock(1)),
    ("\t1\t\tread  \t0 \t 3\t", Read(1, 0, 3)),
    // one carriage return at the end
    ("start\r", Start),
    ("start \r", Start),
    ("1 close 1\r", Close(1, 1)),
    ("1 write 1 -\t\r", Write(1, 1, Text(""))),
    ("1 pipe nonblock\r", PipeNonblock(1)),
];

/// Lines that ask for a file, and its name.
const FILES: &[(&str, &str)] = &[
    ("file f", "f"),
    ("file -", ""),
    ("file %2d", "-"),
    ("file --", "--"),
    ("file a%2Fb", "a/b"),
    ("file %2fa%00", "/a\0"),
    ("file ~!%7e", "~!~"),
    ("\tfile  file\r", "file"),
];

const ASK_NOTHING: &[&str] = &[
    "",
    " ",
    "\t",
    " \t  ",
    "\r",
    " \r",
    "#",
    "##",
    "# x",
    "#x",
    " # x",
    "\t#\r",
    "# start\r",
    "#\r\r",
    "# \u{fc}",
];

const BAD: &[&str] = &[
    // no step, and words that are no names
    "x",
    "1",
    "-",
    "\r\r",
    "1 pip",
    "1 pipes",
    "star",
    "starts",
    "1 start",
    "1 resume 1",
    "1 file f",
    "pipe",
    "read 0 1",
    "start#",
    "start # x",
    "1 # pipe",
    // a word missing, and a word too many
    "start 1",
    "resume",
    "resume 1 1",
    "interrupt",
    "interrupt 1 1",
    "1 pipe nonblock nonblock",
    "1 pipe direct",
    "1 pipe nonblock,direct",
    "1 pipe 1",
    "1 read",
    "1 read 0",
    "1 read 0 1 1",
    "1 write",
    "1 write 1",
    "1 write 1 61 61",
    "1 write 1 - -",
    "1 close",
    "1 close 0 0",
    "file",
    "file f f",
    // upper case
    "START",
    "Start",
    "RESUME 1",
    "Interrupt 1",
    "1 PIPE",
    "FILE f",
    "1 Read 0 1",
    "1 WRITE 1 61",
    "1 Close 0",
    "1 pipe NONBLOCK",
    // numbers of more than 20 digits
    "000000000000000000001 pipe",
    "resume 000000000000000000001",
    "interrupt 000000000000000000001",
    "1 read 000000000000000000001 1",
    "1 read -000000000000000000001 1",
    "1 read 0 000000000000000000001",
    "1 write 1 000000000000000000003*61",
    // numbers outside their range
    "4294967296 pipe",
    "99999999999999999999 pipe",
    "1 read 0 4294967296",
    "1 read 2147483648 1",
    "1 read -2147483649 1",
    "1 write 4294967296 61",
    "1 close 2147483648",
    "1 close -2147483649",
    "resume 18446744073709551616",
    "interrupt 18446744073709551616",
    "1 write 1 16777217*61",
    // signs, and what is no digit
    "-1 pipe",
    "+1 pipe",
    "-0 pipe",
    "resume -1",
    "resume +1",
    "interrupt -0",
    "1 read +0 1",
    "1 read 0 -1",
    "1 read 0 +1",
    "1 read - 1",
    "1 read --1 1",
    "1 close -",
    "1 close 1-",
    "1x pipe",
    "0x1 pipe",
    "1 read 0 1,000",
    "1 read a 1",
    "1 close \u{661}",
    // bytes
    "1 write 1 6",
    "1 write 1 616",
    "1 write 1 6g",
    "1 write 1 g6",
    "1 write 1 61*6",
    "1 write 1 *61",
    "1 write 1 3*",
    "1 write 1 *",
    "1 write 1 3*6",
    "1 write 1 3*6161",
    "1 write 1 3*-",
    "1 write 1 -3*61",
    "1 write 1 +3*61",
    "1 write 1 3*61*61",
    "1 write 1 --",
    "1 write 1 -61",
    "1 write 1 0x61",
    "1 write 1 6 1",
    // names
    "file %",
    "file %2",
    "file %2g",
    "file a%",
    "file \u{7f}",
    "file \u{fc}",
    // what is no blank
    "start\r\r",
    "start\r ",
    "\rstart",
    "1\rpipe",
    "1\u{b}pipe",
    "1\u{c}pipe",
    "1\u{a0}pipe",
    "start\0",
];

/// Whether the line asks for this.
fn asks(alloc: Global, text: &str, ask: Ask) -> Result<bool, Fail> {
    let asked = Line::Do(ask.step(alloc)?);
    Ok(parse_line(alloc, text.as_bytes()) == Ok(Some(asked)))
}

fn asks_for_file(alloc: Global, text: &str, name: &str) -> Result<bool, Fail> {
    let name = Name::from_vec(Vec::from_slice(alloc, name.as_bytes())?);
    Ok(parse_line(alloc, text.as_bytes()) == Ok(Some(Line::File(name))))
}

fn asks_nothing(alloc: Global, text: &str) -> bool {
    parse_line(alloc, text.as_bytes()) == Ok(None)
}

fn each_asks(rt: &impl Abort, alloc: Global, rows: &[(&str, Ask)]) -> Result<(), Fail> {
    for (text, ask) in rows {
        let is_asked = asks(alloc, text, *ask)?;
        is(rt, text, 0, is_asked, true);
        is_told(rt, alloc, Version::One, text, Asked::Asks)?;
    }
    Ok(())
}

fn each_is_bad(rt: &impl Abort, alloc: Global, texts: &[&str]) {
    for text in texts {
        is_told_as_bad(rt, alloc, Version::One, text);
    }
}

#[test]
fn good_lines(rt: HostRuntime) -> Result<(), Fail> {
    each_asks(&rt, rt.alloc(), GOOD)?;
    each_asks(&rt, rt.alloc(), shared_lines::GOOD)?;
    each_asks(&rt, rt.alloc(), shared_lines::FLAGS)?;
    each_asks(&rt, rt.alloc(), fifo_lines::GOOD)?;
    each_asks(&rt, rt.alloc(), file_lines::GOOD)?;
    each_asks(&rt, rt.alloc(), poll_lines::GOOD)?;
    each_asks(&rt, rt.alloc(), poll_lines::MASKS)?;
    each_asks(&rt, rt.alloc(), size_lines::GOOD)?;
    each_asks(&rt, rt.alloc(), splice_lines::GOOD)?;
    each_asks(&rt, rt.alloc(), splice_lines::FLAGS)
}

#[test]
fn lines_that_ask_for_a_file(rt: HostRuntime) -> Result<(), Fail> {
    for (text, name) in FILES {
        let is_asked = asks_for_file(rt.alloc(), text, name)?;
        is(&rt, text, 0, is_asked, true);
        is_told(&rt, rt.alloc(), Version::One, text, Asked::Asks)?;
    }
    Ok(())
}

#[test]
fn lines_that_ask_nothing(rt: HostRuntime) {
    for text in ASK_NOTHING {
        is(&rt, text, 0, asks_nothing(rt.alloc(), text), true);
    }
}

#[test]
fn bad_lines(rt: HostRuntime) {
    each_is_bad(&rt, rt.alloc(), BAD);
    each_is_bad(&rt, rt.alloc(), shared_lines::BAD);
    each_is_bad(&rt, rt.alloc(), fifo_lines::BAD);
    each_is_bad(&rt, rt.alloc(), file_lines::BAD);
    each_is_bad(&rt, rt.alloc(), poll_lines::BAD);
    each_is_bad(&rt, rt.alloc(), size_lines::BAD);
    each_is_bad(&rt, rt.alloc(), splice_lines::BAD);
}
