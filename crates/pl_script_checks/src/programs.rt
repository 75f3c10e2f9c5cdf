//! The program between streams in memory.
use super::equal::is;
use super::trickling::{Coming, Drip, Script, prints};
use super::words::strings;
use pl_model::Totals;
use pl_run::{Fault, HELP, Terminal, end, live_from, run};
use pl_script::{MAX_READS, Reads, Writes};
use std::alloc::Global;
use std::fs::Files;
use std::io::{Read, Write};
use std::process::Abort;
use std::test::Fail;

/// A run of the program: the words of its command line, its input, and what it comes to.
struct Program {
    words: &'static [&'static str],
    input: &'static str,
    output: &'static str,
    /// The line of its fault.
    line: &'static str,
    status: u8,
}

const WAITS: &str = "start\n1 pipe\n1 read 0 1\n";

const PROGRAMS: &[Program] = &[
    Program {
        words: &[],
        input: "",
        output: "",
        line: "",
        status: 0,
    },
    Program {
        words: &[],
        input: WAITS,
        output: "pid 1\nfds 0 1\nparked 1\n",
        line: "",
        status: 0,
    },
    Program {
        words: &["--first-call", "7"],
        input: WAITS,
        output: "pid 1\nfds 0 1\nparked 7\n",
        line: "",
        status: 0,
    },
    Program {
        words: &["--first-call=18446744073709551615"],
        input: WAITS,
        output: "pid 1\nfds 0 1\ncalls spent\n",
        line: "",
        status: 0,
    },
    Program {
        words: &["--help"],
        input: "start\n",
        output: HELP,
        line: "",
        status: 0,
    },
    Program {
        words: &["--version"],
        input: "start\n",
        output: "piperun 0.8.0\n",
        line: "",
        status: 0,
    },
    // A call that would wait above the limit is refused, and a pipe gets no larger than its own.
    Program {
        words: &["--waiting-max", "0", "--capacity-max", "65536"],
        input: "start\n1 pipe\n1 read 0 1\n1 setsz 1 65537\n",
        output: "pid 1\nfds 0 1\nEAGAIN\nEPERM\n",
        line: "",
        status: 0,
    },
    // A name more than the limit has no room, and a file ends at its own.
    Program {
        words: &["--live", "--names-max", "1", "--file-max", "2"],
        input: "start\n1 open a w creat\n1 open b w creat\n1 write 0 616263\n1 write 0 64\n",
        output: "pid 1\nfd 0\nENOSPC\ncount 2\nEFBIG\n",
        line: "",
        status: 0,
    },
    // A process gets no descriptor from its limit on.
    Program {
        words: &["--descriptors-max", "2"],
        input: "start\n1 pipe\n1 dup 0\n1 dup2 0 2\n1 dupfd 0 2\n",
        output: "pid 1\nfds 0 1\nEMFILE\nEBADF\nEINVAL\n",
        line: "",
        status: 0,
    },
    // A limit that the record names goes before that of the command line.
    Program {
        words: &["--check", "--waiting-max", "0", "--capacity-max", "65536"],
        input: "# piperun --waiting-max 1\nstart\n1 pipe\n1 read 0 1\n# => parked 1\n1 setsz 1 65537\n# => EPERM\n",
        output: "2 replies as recorded\n",
        line: "",
        status: 0,
    },
    Program {
        words: &[],
        input: "start\n1 wrlte 1 61\nstart\n",
        output: "pid 1\n",
        line: "piperun: line 2: not a command\n",
        status: 3,
    },
    // What is wrong with the first bad line, by the number of the word.
    Program {
        words: &["--explain"],
        input: "1 write 4 abc",
        output: "",
        line: "piperun: line 1: not a command\nline 1, word 4: an odd number of digits\n",
        status: 3,
    },
    Program {
        words: &["--check", "--explain"],
        input: "piperun 2\nstart\n# => pid 1\n1 fork now\n",
        output: "",
        line: "piperun: line 4: not a command\nline 4, word 3: a word too many\n",
        status: 3,
    },
    // A header that names limits wrongly is a comment, of which no word is at fault.
    Program {
        words: &["--check", "--explain"],
        input: "# piperun --none\nstart\n",
        output: "",
        line: "piperun: line 1: not a command\n",
        status: 3,
    },
    Program {
        words: &["--first-call", "x"],
        input: "start\n",
        output: "",
        line: "piperun: bad command line\n",
        status: 2,
    },
    Program {
        words: &["a", "b"],
        input: "start\n",
        output: "",
        line: "piperun: bad command line\n",
        status: 2,
    },
    Program {
        words: &["--check"],
        input: "start\n# => pid 1\n1 pipe\n# => fds 0 1\n",
        output: "2 replies as recorded\n",
        line: "",
        status: 0,
    },
    Program {
        words: &["--check"],
        input: "start\n",
        output: "",
        line: "piperun: no reply is expected\n",
        status: 5,
    },
    Program {
        words: &["--check"],
        input: "start\n# => pid 2\n1 pipe\n# => fds 0 2\n",
        output: "line 2\nexpected pid 2\nanswered pid 1\n",
        line: "piperun: 2 of 2 replies differ\n",
        status: 5,
    },
    Program {
        words: &["--check", "--all"],
        input: "start\n# => pid 2\n1 pipe\n# => fds 0 2\n",
        output: "line 2\nexpected pid 2\nanswered pid 1\nline 4\nexpected fds 0 2\nanswered fds 0 1\n",
        line: "piperun: 2 of 2 replies differ\n",
        status: 5,
    },
    // The number of the first call is that of the record, and else that of the command line.
    Program {
        words: &["--check", "--first-call", "7"],
        input: "start\n1 pipe\n1 read 0 1\n# => parked 7\n1 read 0 1\n# => parked 8\n",
        output: "2 replies as recorded\n",
        line: "",
        status: 0,
    },
    Program {
        words: &["--check", "--first-call", "7"],
        input: "# piperun --first-call 5\nstart\n1 pipe\n1 read 0 1\n# => parked 5\n1 read 0 1\n# => parked 6\n",
        output: "2 replies as recorded\n",
        line: "",
        status: 0,
    },
    Program {
        words: &["--check"],
        input: "start\n# => pid 2\nstart now\n",
        output: "line 2\nexpected pid 2\nanswered pid 1\n",
        line: "piperun: line 3: not a command\n",
        status: 3,
    },
    // What only looks as if it expected a text is a bad line of a check, before all else.
    Program {
        words: &["--check", "--explain"],
        input: "start\n# => pid 2\n#=> pid 1\n",
        output: "",
        line: "piperun: line 3: not a command\n",
        status: 3,
    },
    // To a run these are comments.
    Program {
        words: &[],
        input: "# piperun --none\nstart\n# => pid 2\n#=> pid 2\n",
        output: "pid 1\n",
        line: "",
        status: 0,
    },
    Program {
        words: &["--all"],
        input: "start\n",
        output: "",
        line: "piperun: bad command line\n",
        status: 2,
    },
    // A live run, which answers a bad line so unless it is strict.
    Program {
        words: &["--live"],
        input: "start\nstrat\n1 pipe\n",
        output: "pid 1\nbad line\nfds 0 1\n",
        line: "piperun: line 2: not a command\npiperun: 1 bad lines\n",
        status: 3,
    },
    Program {
        words: &["--live", "--strict"],
        input: "start\nstrat\n1 pipe\n",
        output: "pid 1\n",
        line: "piperun: line 2: not a command\n",
        status: 3,
    },
    // It is told of each bad line, or of the one at which a strict run ends.
    Program {
        words: &["--live", "--explain"],
        input: "start\n1 fork now\n1 pipe\n1 write 1 abc\n",
        output: "pid 1\nbad line\nfds 0 1\nbad line\n",
        line: "piperun: line 2: not a command\nline 2, word 3: a word too many\npiperun: line 4: not a command\nline 4, word 4: an odd number of digits\npiperun: 2 bad lines\n",
        status: 3,
    },
    Program {
        words: &["--live", "--strict", "--explain"],
        input: "start\n1 fork now\n1 pipe\n",
        output: "pid 1\n",
        line: "piperun: line 2: not a command\nline 2, word 3: a word too many\n",
        status: 3,
    },
    Program {
        words: &["--live", "--strict", "--first-call", "7"],
        input: "piperun 2\nstart\n1 pipe\n1 write 1 5*00\n1 read 0 9\n1 read 0 9",
        output: "pid 1\nfds 0 1\ncount 5\ndata 5*00\nparked 7\n",
        line: "",
        status: 0,
    },
    Program {
        words: &["--strict"],
        input: "start\n",
        output: "",
        line: "piperun: bad command line\n",
        status: 2,
    },
    // No file has the empty path (POSIX.1-2017, Pathname Resolution).
    Program {
        words: &[""],
        input: "start\n",
        output: "",
        line: "piperun: cannot read\n",
        status: 1,
    },
];

/// Programs within limits on tables, apart from the others: a proof computes on the rows of a table all at once.
const WITHIN_OTHER_LIMITS: &[Program] = &[
    Program {
        words: &["--descriptors-max", "300"],
        input: "start\n1 pipe\n1 dupfd 0 299\n1 dup2 0 300\n1 dupfd 0 300\n",
        output: "pid 1\nfds 0 1\nfd 299\nEBADF\nEINVAL\n",
        line: "",
        status: 0,
    },
    // No description and no process above the limits is made.
    Program {
        words: &["--descriptions-max", "3", "--processes-max", "1"],
        input: "start\n1 pipe\n1 pipe\n1 open f w creat\n1 open f w\nstart\n1 fork\n",
        output: "pid 1\nfds 0 1\nENFILE\nfd 2\nENFILE\nEAGAIN\nEAGAIN\n",
        line: "",
        status: 0,
    },
];

/// Runs the program from the reader to the writer, of which a proof then need not see what they are. A live run tells bad lines to `told`.
fn run_between<R: Files + AllocGlobal, I: Read + Drop, O: Write + Drop, E: Write + Drop>(
    rt: &R,
    words: &[String],
    mut input: I,
    mut output: O,
    told: E,
) -> Result<(), Fault> {
    let mut source = Reads::new(&mut input, MAX_READS);
    let mut sink = Writes::new(&mut output);
    let Some(live) = run(rt, words, &mut source, &mut sink)? else {
        return Ok(());
    };
    let mut peer = Terminal::new(input, output, told, live.explain);
    live_from(
        rt.alloc(),
        live.limits,
        live.memory,
        live.strict,
        live.explain,
        &mut peer,
    )
}

/// Writes the line of a fault, and answers the status.
fn status_of_end(ended: Result<(), Fault>, told: &mut Drip) -> u8 {
    let mut writer = Writes::new(told);
    end(&mut writer, ended)
}

/// Whether the writer took this text.
fn took(writer: &Drip, text: &str) -> bool {
    writer.taken() == text.as_bytes()
}

/// Whether the program with these words prints this output, this line of a fault, and ends with this status.
fn is_as_expected<R: Files + AllocGlobal>(rt: &R, words: &[String], program: &Program) -> bool {
    let mut printed = Drip::new(rt.alloc(), usize::MAX);
    let mut told = Drip::new(rt.alloc(), usize::MAX);
    let ended = run_between(rt, words, program.input.as_bytes(), &mut printed, &mut told);
    let status = status_of_end(ended, &mut told);
    let is_printed = took(&printed, program.output);
    let is_told = took(&told, program.line);
    is_printed && is_told && status == program.status
}

/// Runs each of these programs.
fn are_as_expected<R: Files + AllocGlobal + Abort>(
    rt: &R,
    programs: &[Program],
) -> Result<(), Fail> {
    for program in programs {
        let words = strings(rt.alloc(), program.words)?;
        let is_so = is_as_expected(rt, words.as_slice(), program);
        is(rt, program.output, usize::from(program.status), is_so, true);
    }
    Ok(())
}

#[test]
fn the_program(rt: HostRuntime) -> Result<(), Fail> {
    are_as_expected(&rt, PROGRAMS)
}

#[test]
fn the_program_within_other_limits(rt: HostRuntime) -> Result<(), Fail> {
    are_as_expected(&rt, WITHIN_OTHER_LIMITS)
}

/// The script of the example in the help text, and what stands beside its lines.
fn example(alloc: Global) -> Result<(String, String), Fail> {
    let mut script = String::new(alloc);
    let mut output = String::new(alloc);
    if let Some((_, example)) = HELP.split_once("beside it:\n\n") {
        for line in example.lines() {
            let Some((call, reply)) = line.trim().split_once("  ") else {
                break;
            };
            script.push_str(call)?;
            script.push('\n')?;
            output.push_str(reply.trim())?;
            output.push('\n')?;
        }
    }
    Ok((script, output))
}

/// The help text says of its example what that prints.
#[test]
fn the_example_of_the_help_text(rt: HostRuntime) -> Result<(), Fail> {
    let (script, output) = example(rt.alloc())?;
    let script = Script {
        name: "the example",
        first_call: 1,
        bytes: script.as_bytes(),
        output: output.as_str(),
        end: Ok(Totals {
            lines: 5,
            steps: 5,
            nomem: 0,
        }),
    };
    prints(&rt, rt.alloc(), script, Coming::Whole);
    Ok(())
}
