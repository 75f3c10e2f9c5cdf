//! Scripts that come, and output that goes, in pieces, and reads and writes that fail.
use super::equal::is;
use super::trickling::{Coming, Drip, Failure, Script, Trickle, prints, run_from};
use pl_model::Totals;
use pl_script::ScriptFault;
use std::alloc::Allocator;
use std::io::ErrorKind;
use std::process::Abort;
use std::test::Fail;

const SCRIPTS: &[Script<'static>] = &[GOOD, BAD];

/// A script of good lines alone.
const GOOD: Script<'static> = Script {
    name: "good lines",
    first_call: 1,
    bytes: b"start\n# a comment\n\n1 pipe\r\n\t1 write  1 68656c6c6f\n1 read 0 3\n1 close 1\n1 read 0 10",
    output: "pid 1\nfds 0 1\ncount 5\ndata 68656c\nok\ndata 6c6f\n",
    end: Ok(Totals {
        lines: 8,
        steps: 6,
        nomem: 0,
    }),
};

/// A script with a bad line.
const BAD: Script<'static> = Script {
    name: "a bad line",
    first_call: 1,
    bytes: b"start\n# a comment\n\n1 pipe\r\n1 wrlte 1 61\nstart\n",
    output: "pid 1\nfds 0 1\n",
    end: Err(ScriptFault::BadLine(5)),
};

const FAILURES: &[Failure] = &[
    Failure::Error(ErrorKind::BrokenPipe),
    Failure::Error(ErrorKind::Interrupted),
    Failure::Nothing,
];

/// How many bytes a read gives.
const PIECES: &[usize] = &[1, 2, 7];

fn come_in_pieces<A: Allocator + Copy>(rt: &impl Abort, alloc: A, script: Script<'_>) {
    for most in PIECES {
        prints(rt, alloc, script, Coming::InPieces(*most));
    }
}

fn come_cut_anywhere<A: Allocator + Copy>(rt: &impl Abort, alloc: A, script: Script<'_>) {
    for cut in 0..=script.bytes.len() {
        prints(rt, alloc, script, Coming::CutAt(cut));
    }
}

#[test]
fn a_script_in_pieces(rt: HostRuntime) {
    for script in SCRIPTS {
        come_in_pieces(&rt, rt.alloc(), *script);
        come_cut_anywhere(&rt, rt.alloc(), *script);
    }
}

const ERRORS: &[ErrorKind] = &[ErrorKind::BrokenPipe, ErrorKind::Interrupted];

/// The `n`th of reads of one byte fails, and nothing is run.
fn fail_the_read<A: Allocator + Copy>(
    rt: &impl Abort,
    alloc: A,
    script: Script<'_>,
    n: usize,
    kind: ErrorKind,
) {
    let mut reader = Trickle::failing(script.bytes, 1, n, Failure::Error(kind));
    let mut writer = Drip::new(alloc, usize::MAX);
    let end = run_from(alloc, script.first_call, &mut reader, &mut writer);
    let told = (end, writer.taken().is_empty(), reader.calls());
    let wanted = (Err(ScriptFault::Read), true, n);
    is(rt, "a read that fails", n, told, wanted);
}

fn fail_reads<A: Allocator + Copy>(rt: &impl Abort, alloc: A, script: Script<'_>) {
    // Each read gives one byte, and the last finds the end.
    for n in 1..script.bytes.len() + 2 {
        for kind in ERRORS {
            fail_the_read(rt, alloc, script, n, *kind);
        }
    }
}

/// A script of which not all was read isn't run.
#[test]
fn each_read_fails(rt: HostRuntime) {
    for script in SCRIPTS {
        fail_reads(&rt, rt.alloc(), *script);
    }
}

/// The `n`th of writes of so many bytes fails, and a front of the output was written.
fn fail_the_write<A: Allocator + Copy>(
    rt: &impl Abort,
    alloc: A,
    most: usize,
    script: Script<'_>,
    n: usize,
    failure: Failure,
) {
    let mut writer = Drip::failing(alloc, most, n, failure);
    let end = run_from(alloc, script.first_call, script.bytes, &mut writer);
    let is_front = script.output.as_bytes().starts_with(writer.taken());
    let told = (end, is_front, writer.calls());
    let wanted = (Err(ScriptFault::Write), true, n);
    is(rt, "a write that fails", n, told, wanted);
}

/// The number of writes of so many bytes, none of which fails.
fn count_writes<A: Allocator + Copy>(
    rt: &impl Abort,
    alloc: A,
    most: usize,
    script: Script<'_>,
) -> usize {
    let mut writer = Drip::new(alloc, most);
    let end = run_from(alloc, script.first_call, script.bytes, &mut writer);
    let is_whole = writer.taken() == script.output.as_bytes();
    is(
        rt,
        "writes of so many bytes",
        most,
        (end, is_whole),
        (script.end, true),
    );
    writer.calls()
}

/// Runs the script by a writer that takes so many bytes a call, and then for each way in which each of these writes may
/// fail. Answers the number of writes.
fn fail_each_write<A: Allocator + Copy>(
    rt: &impl Abort,
    alloc: A,
    most: usize,
    script: Script<'_>,
) -> usize {
    let writes = count_writes(rt, alloc, most, script);
    for n in 1..=writes {
        for failure in FAILURES {
            fail_the_write(rt, alloc, most, script, n, *failure);
        }
    }
    writes
}

#[test]
fn each_write_fails(rt: HostRuntime) {
    for script in SCRIPTS {
        let writes = fail_each_write(&rt, rt.alloc(), 1, *script);
        is(
            &rt,
            "the writes of one byte",
            0,
            writes,
            script.output.len(),
        );
    }
}

/// What the script of much output prints.
fn much_output<A: Allocator + Copy>(alloc: A) -> Result<String<A>, Fail> {
    let first = "61".repeat(alloc, 40_000)?;
    let second = "62".repeat(alloc, 40_000)?;
    Ok(format!(in alloc;
        "pid 1\nfds 0 1\ncount 40000\ndata {first}\ncount 40000\ndata {second}\n"
    )?)
}

/// An output that isn't held whole, and so is written in pieces.
#[test]
fn each_write_of_much_output_fails(rt: HostRuntime) -> Result<(), Fail> {
    let output = much_output(rt.alloc())?;
    let script = Script {
        name: "much output",
        first_call: 1,
        bytes: b"start\n1 pipe\n1 write 1 40000*61\n1 read 0 40000\n1 write 1 40000*62\n1 read 0 40000\n",
        output: output.as_str(),
        end: Ok(Totals {
            lines: 6,
            steps: 6,
            nomem: 0,
        }),
    };
    let writes = fail_each_write(&rt, rt.alloc(), usize::MAX, script);
    is(
        &rt,
        "the output is written at once",
        writes,
        writes > 1,
        true,
    );
    fail_each_write(&rt, rt.alloc(), 40_000, script);
    Ok(())
}
