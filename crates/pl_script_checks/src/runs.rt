//! Scripts and what they print.
use super::trickling::{Coming, Script, prints};
use pl_model::Totals;
use pl_script::ScriptFault;
use std::alloc::Allocator;
use std::process::Abort;
use std::test::Fail;

/// How a run ends: with so many lines and so many steps, or with a fault.
type End = Result<(u32, u32), ScriptFault>;

/// Scripts, what they print, and how their runs end.
const SMALL_SCRIPTS: &[(&str, &str, End)] = &[
    ("", "", Ok((0, 0))),
    ("start", "pid 1\n", Ok((1, 1))),
    ("start\n", "pid 1\n", Ok((1, 1))),
    ("start\n\n", "pid 1\n", Ok((2, 1))),
    ("start\n7 pipe\n", "pid 1\nno process\n", Ok((2, 2))),
    // the calls of a pipe, and two processes
    (
        "start\n1 pipe\n1 write 1 68656c6C6F\n1 read 0 3\n1 read 0 10\n1 close 1\n1 read 0 10\n",
        "pid 1\nfds 0 1\ncount 5\ndata 68656c\ndata 6c6f\nok\ndata -\n",
        Ok((7, 7)),
    ),
    (
        "start\nstart\n2 pipe\n2 close 0\n2 write 1 61\n1 close 0\n1 read 0 1\nresume 1\ninterrupt 1\n",
        "pid 1\npid 2\nfds 0 1\nok\nEPIPE sigpipe\nEBADF\nEBADF\nno call\nno call\n",
        Ok((9, 9)),
    ),
    // Comments and blank lines are lines, and no steps.
    ("\n", "", Ok((1, 0))),
    ("\n\n \t\n\r\n# start\n  # start\r\n#", "", Ok((7, 0))),
    (
        "# a comment\r\n\nstart\r\n \n1 pipe\r",
        "pid 1\nfds 0 1\n",
        Ok((5, 2)),
    ),
    // Nothing behind a bad line is run.
    ("1", "", Err(ScriptFault::BadLine(1))),
    (
        "start\n1 wrlte 1 61\nstart\n",
        "pid 1\n",
        Err(ScriptFault::BadLine(2)),
    ),
    (
        "start\n1 pipe\n1 write 1 616",
        "pid 1\nfds 0 1\n",
        Err(ScriptFault::BadLine(3)),
    ),
    (
        "# a comment\n\nstart\n\r\nstart now\n1 pipe\nstart now\n",
        "pid 1\n",
        Err(ScriptFault::BadLine(5)),
    ),
];

/// Names of scripts, how these begin that are filled up with bytes `#`, their lengths, what they print, and how their runs end.
const LONG_SCRIPTS: &[(&str, &str, usize, &str, End)] = &[
    ("the longest comment", "", 16_777_216, "", Ok((1, 0))),
    (
        "the longest script",
        "start\n",
        16_777_216,
        "pid 1\n",
        Ok((2, 1)),
    ),
    (
        "a comment too long",
        "",
        16_777_217,
        "",
        Err(ScriptFault::TooLong),
    ),
    (
        "a script too long",
        "start\n",
        16_777_217,
        "",
        Err(ScriptFault::TooLong),
    ),
];

fn totals_of(end: End) -> Result<Totals, ScriptFault> {
    let (lines, steps) = end?;
    Ok(Totals {
        lines,
        steps,
        nomem: 0,
    })
}

fn prints_so<A: Allocator + Copy>(
    rt: &impl Abort,
    alloc: A,
    name: &str,
    bytes: &[u8],
    output: &str,
    end: End,
) {
    let script = Script {
        name,
        first_call: 1,
        bytes,
        output,
        end: totals_of(end),
    };
    prints(rt, alloc, script, Coming::Whole);
}

#[test]
fn small_scripts(rt: HostRuntime) {
    for (script, output, end) in SMALL_SCRIPTS {
        prints_so(&rt, rt.alloc(), script, script.as_bytes(), output, *end);
    }
}

/// The bytes at the front, filled up with `#`.
fn filled<A: Allocator + Copy>(alloc: A, front: &str, len: usize) -> Result<Vec<u8, A>, Fail> {
    let mut script = Vec::from_slice(alloc, front.as_bytes())?;
    script.resize(len, b'#')?;
    Ok(script)
}

#[test]
fn the_longest_scripts(rt: HostRuntime) -> Result<(), Fail> {
    for (name, front, len, output, end) in LONG_SCRIPTS {
        let script = filled(rt.alloc(), front, *len)?;
        prints_so(&rt, rt.alloc(), name, script.as_slice(), output, *end);
    }
    Ok(())
}
