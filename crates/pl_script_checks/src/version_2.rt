//! Single lines, replies and files of version 2.
use super::equal::is;
use super::refused::{Asked, is_told, is_told_as_bad};
use pl_model::Outcome;
use pl_script::{Line, Version, parse_line_2, show_2};
use pl_testing::asked::Ask::{
    self, Dup, PacketPipe, PacketPipeNonblock, Pipe, PipeNonblock, Write,
};
use pl_testing::asked::Data::{Many, Text, TwoRuns};
use pl_testing::asked::Want::{self, Bytes, Fd};
use std::alloc::Global;
use std::test::Fail;

const GOOD: &[(&str, Ask)] = &[
    ("1 dup 0", Dup(1, 0)),
    ("1 pipe", Pipe(1)),
    ("1 pipe nonblock", PipeNonblock(1)),
    ("1 pipe direct", PacketPipe(1)),
    ("1 pipe direct,nonblock", PacketPipeNonblock(1)),
    ("1 pipe nonblock,direct,nonblock", PacketPipeNonblock(1)),
    ("1 write 1 -", Write(1, 1, Text(""))),
    ("1 write 1 616A", Write(1, 1, Text("aj"))),
    ("1 write 1 3*61+62", Write(1, 1, TwoRuns(b'a', 3, b'b', 1))),
    ("1 write 1 6162+63+2*64", Write(1, 1, Text("abcdd"))),
    ("1 write 1 0*61", Write(1, 1, Text(""))),
    ("1 write 1 0*61+62+0*63", Write(1, 1, Text("b"))),
    ("1 write 1 16777216*61", Write(1, 1, Many(b'a', 16_777_216))),
    (
        "1 write 1 8388608*61+8388608*62",
        Write(1, 1, TwoRuns(b'a', 8_388_608, b'b', 8_388_608)),
    ),
];

const BAD: &[&str] = &[
    "piperun 2",
    "1 pipe -",
    "1 pipe direct nonblock",
    "1 pipe direct,",
    "1 pipe append",
    "1 setfl 0 direct",
    "1 open f r direct",
    "1 write 1 61+",
    "1 write 1 +61",
    "1 write 1 61++62",
    "1 write 1 -+61",
    "1 write 1 61+-",
    "1 write 1 61 + 62",
    "1 write 1 6+1",
    "1 write 1 *61+62",
    "1 write 1 8388609*61+8388608*62",
    "1 write 1 16777216*61+62",
    "1 write 1 16777217*61+",
];

/// Whether the line asks for this.
fn asks(alloc: Global, text: &str, ask: Ask) -> Result<bool, Fail> {
    let asked = Line::Do(ask.step(alloc)?);
    Ok(parse_line_2(alloc, text.as_bytes()) == Ok(Some(asked)))
}

#[test]
fn good_lines(rt: HostRuntime) -> Result<(), Fail> {
    for (text, ask) in GOOD {
        let is_asked = asks(rt.alloc(), text, *ask)?;
        is(&rt, text, 0, is_asked, true);
        is_told(&rt, rt.alloc(), Version::Two, text, Asked::Asks)?;
    }
    Ok(())
}

#[test]
fn bad_lines(rt: HostRuntime) {
    for text in BAD {
        is_told_as_bad(&rt, rt.alloc(), Version::Two, text);
    }
}

/// Replies that have bytes are shown by runs, others as in version 1.
const REPLIES: &[(Want, &str)] = &[
    (Fd(2), "fd 2"),
    (Bytes(Text("")), "data -"),
    (Bytes(Text("aaa")), "data 616161"),
    (Bytes(Text("aaaa")), "data 4*61"),
    (Bytes(Text("aabcccc")), "data 616162+4*63"),
    (Bytes(Text("aaaabcccc")), "data 4*61+62+4*63"),
    (Bytes(Text("abababab")), "data 6162616261626162"),
    (Bytes(TwoRuns(0x0a, 4, 0xff, 5)), "data 4*0a+5*ff"),
    (Bytes(Many(0, 16_777_216)), "data 16777216*00"),
];

#[test]
fn each_reply_is_shown(rt: HostRuntime) -> Result<(), Fail> {
    for (want, text) in REPLIES {
        is_told(&rt, rt.alloc(), Version::Two, text, Asked::Shows(*want))?;
        is_told(&rt, rt.alloc(), Version::Two, text, Asked::Adds(*want))?;
    }
    let shown = show_2(rt.alloc(), &Outcome::NoMemory)?;
    is(&rt, "nomem", 0, shown.as_str() == "nomem", true);
    Ok(())
}

/// What a line says of a file that holds these bytes, or of none.
const FILES: &[(Option<&[u8]>, &str)] = &[
    (None, "no file"),
    (Some(b""), "file -"),
    (Some(b"\0\0\0\0\0"), "file 5*00"),
];

#[test]
fn each_file_is_shown(rt: HostRuntime) -> Result<(), Fail> {
    for (bytes, text) in FILES {
        is_told(
            &rt,
            rt.alloc(),
            Version::Two,
            text,
            Asked::ShowsFile(*bytes),
        )?;
        is_told(&rt, rt.alloc(), Version::Two, text, Asked::AddsFile(*bytes))?;
    }
    Ok(())
}
