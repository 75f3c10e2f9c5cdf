//! Records that are checked: what is told of them, and what is counted.
use super::equal::is;
use super::trickling::{Drip, Failure, Trickle};
use pl_run::LIMITS;
use pl_script::{Checked, MAX_READS, Reads, ScriptFault, Writes, check_script};
use std::alloc::Allocator;
use std::io::ErrorKind;
use std::process::Abort;

/// How a check ends: with so many texts compared, of which so many differ, or with a fault.
type End = Result<(u32, u32), ScriptFault>;

/// A record, what is told of it where the first difference is told, and where all are, and how its check ends.
struct Record {
    script: &'static str,
    first: &'static str,
    all: &'static str,
    end: End,
}

/// Each reply is told, as docs/RULES.md says it is shown.
const AS_RECORDED: &[(&str, u32)] = &[
    ("", 0),
    (
        "start\n# no text is expected\n## => pid 7\n# pid => 7\n# = > pid 7\n#-> pid 7\n",
        0,
    ),
    ("start\n# => pid 1\n", 1),
    ("start\n# => pid 1", 1),
    ("start\r\n# => pid 1\r\n", 1),
    // A text is compared again, and behind comments, until another line asks.
    (
        "start\n\n# a process\n# => pid 1\n# => pid 1\n1 pipe\n# => fds 0 1\n",
        3,
    ),
    (
        "start\n# => pid 1\n1 pipe\n# => fds 0 1\n1 write 1 68656c6c6f\n# => count 5\n1 read 0 3\n# => data 68656c\n7 exit\n# => no process\n",
        5,
    ),
    // Version 2 shows bytes by runs.
    (
        "piperun 2\nstart\n# => pid 1\n1 pipe direct\n# => fds 0 1\n1 write 1 6*61+6869\n# => count 8\n1 read 0 9\n# => data 6*61+6869\n",
        4,
    ),
    // A file isn't told by a step.
    (
        "start\n1 open f w creat\n1 write 0 6162\nfile f\n# => file 6162\nfile g\n# => no file\n",
        2,
    ),
];

const RECORDS: &[Record] = &[
    // Behind no reply a text stands against none.
    Record {
        script: "# => pid 1\nstart\n# => pid 1\n",
        first: "line 1\nexpected pid 1\nanswered \n",
        all: "line 1\nexpected pid 1\nanswered \n",
        end: Ok((2, 1)),
    },
    Record {
        script: "start\n# => pid 1\n1 pipe\n# => fds 0 2\n1 pipe\n# => fds 3 4\n1 close 0\n# => ok\n",
        first: "line 4\nexpected fds 0 2\nanswered fds 0 1\n",
        all: "line 4\nexpected fds 0 2\nanswered fds 0 1\nline 6\nexpected fds 3 4\nanswered fds 2 3\n",
        end: Ok((4, 2)),
    },
    // A blank more, a blank less and an empty text are other texts.
    Record {
        script: "start\n# =>  pid 1\n# => pid 1 \n# => \n",
        first: "line 2\nexpected  pid 1\nanswered pid 1\n",
        all: "line 2\nexpected  pid 1\nanswered pid 1\nline 3\nexpected pid 1 \nanswered pid 1\nline 4\nexpected \nanswered pid 1\n",
        end: Ok((3, 3)),
    },
    // The line that names the version counts.
    Record {
        script: "piperun 2\nstart\n1 pipe\n1 write 1 5*61\n1 read 0 5\n# => data 6161616161\n",
        first: "line 6\nexpected data 6161616161\nanswered data 5*61\n",
        all: "line 6\nexpected data 6161616161\nanswered data 5*61\n",
        end: Ok((1, 1)),
    },
    // Nothing behind a bad line is compared.
    Record {
        script: "start\n# => pid 2\n1 pip\n# => pid 3\n",
        first: "line 2\nexpected pid 2\nanswered pid 1\n",
        all: "line 2\nexpected pid 2\nanswered pid 1\n",
        end: Err(ScriptFault::BadLine(3)),
    },
    // A comment that only looks as if it expected a text is a bad line, and nothing is run.
    Record {
        script: "start\n# => pid 2\n#=> pid 1\n",
        first: "",
        all: "",
        end: Err(ScriptFault::BadLine(3)),
    },
    Record {
        script: "start\n# => pid 2\n#=>\n",
        first: "",
        all: "",
        end: Err(ScriptFault::BadLine(3)),
    },
    Record {
        script: "start\n# => pid 2\n#  => pid 1\n",
        first: "",
        all: "",
        end: Err(ScriptFault::BadLine(3)),
    },
    Record {
        script: "start\n# => pid 2\n # => pid 1\n",
        first: "",
        all: "",
        end: Err(ScriptFault::BadLine(3)),
    },
    Record {
        script: "start\n# => pid 2\n# =>pid 1\n",
        first: "",
        all: "",
        end: Err(ScriptFault::BadLine(3)),
    },
    Record {
        script: "start\n# => pid 2\n# =>\r\n",
        first: "",
        all: "",
        end: Err(ScriptFault::BadLine(3)),
    },
    Record {
        script: "start\n# => pid 2\n\t#\t=>\tpid 1\n",
        first: "",
        all: "",
        end: Err(ScriptFault::BadLine(3)),
    },
    Record {
        script: "piperun 2\n1 pip\n#=> pid 1\n# =>\n",
        first: "",
        all: "",
        end: Err(ScriptFault::BadLine(3)),
    },
    // A header that says what it can't comes first.
    Record {
        script: "# piperun --none\n#=> pid 1\n",
        first: "",
        all: "",
        end: Err(ScriptFault::BadLine(1)),
    },
    // The header sets the number of the first call, and other limits.
    Record {
        script: "piperun 2\n# piperun --first-call 7\nstart\n1 pipe\n1 read 0 1\n# => parked 7\n",
        first: "",
        all: "",
        end: Ok((1, 0)),
    },
    Record {
        script: "# piperun --first-call 7 --file-max 3 --names-max 1 --waiting-max 1 --capacity-max 65536\nstart\n1 pipe\n1 read 0 1\n# => parked 7\n1 open f w creat\n1 write 2 3*61\n# => count 3\n1 write 2 61\n# => EFBIG\n1 mkfifo q\n# => ENOSPC\n1 setsz 1 65537\n# => EPERM\n1 fork\n2 read 0 1\n# => EAGAIN\n",
        first: "",
        all: "",
        end: Ok((6, 0)),
    },
    Record {
        script: "# piperun --descriptors-max 2\nstart\n1 pipe\n1 dup 0\n# => EMFILE\n1 dup2 0 2\n# => EBADF\n1 dupfd 0 2\n# => EINVAL\n",
        first: "",
        all: "",
        end: Ok((3, 0)),
    },
    Record {
        script: "# piperun --descriptors-max 256\nstart\n1 pipe\n1 dupfd 0 255\n# => fd 255\n",
        first: "",
        all: "",
        end: Ok((1, 0)),
    },
    Record {
        script: "# piperun --descriptors-max 65536\nstart\n1 pipe\n1 dupfd 0 65535\n# => fd 65535\n1 dupfd 0 65535\n# => EMFILE\n",
        first: "",
        all: "",
        end: Ok((2, 0)),
    },
    Record {
        script: "# piperun --descriptions-max 3\nstart\n1 pipe\n1 pipe\n# => ENFILE\n1 open f w creat\n# => fd 2\n1 open f w\n# => ENFILE\n",
        first: "",
        all: "",
        end: Ok((3, 0)),
    },
    Record {
        script: "# piperun --descriptions-max 1048576 --processes-max 2\nstart\nstart\n# => pid 2\nstart\n# => EAGAIN\n1 fork\n# => EAGAIN\n",
        first: "",
        all: "",
        end: Ok((3, 0)),
    },
    Record {
        script: "# piperun --waiting-of-each 1\nstart\n1 pipe\n1 fork\n1 read 0 1\n# => parked 1\n1 read 0 1\n# => EAGAIN\n2 read 0 1\n# => parked 2\n",
        first: "",
        all: "",
        end: Ok((3, 0)),
    },
    // A header that stands elsewhere is a comment.
    Record {
        script: "start\n# piperun --first-call 7\n1 pipe\n1 read 0 1\n# => parked 1\n",
        first: "",
        all: "",
        end: Ok((1, 0)),
    },
    Record {
        script: "# piperun\nstart\n# => pid 1\n",
        first: "",
        all: "",
        end: Ok((1, 0)),
    },
    // What a header can't say is a bad line.
    Record {
        script: "# piperun --first-call\nstart\n",
        first: "",
        all: "",
        end: Err(ScriptFault::BadLine(1)),
    },
    Record {
        script: "piperun 2\n# piperun --file-max 16777217\nstart\n# => pid 2\n",
        first: "",
        all: "",
        end: Err(ScriptFault::BadLine(2)),
    },
    Record {
        script: "# piperun --capacity-max 1048577\n",
        first: "",
        all: "",
        end: Err(ScriptFault::BadLine(1)),
    },
    Record {
        script: "# piperun --descriptors-max 65537\n",
        first: "",
        all: "",
        end: Err(ScriptFault::BadLine(1)),
    },
    Record {
        script: "# piperun --descriptions-max 1048577\n",
        first: "",
        all: "",
        end: Err(ScriptFault::BadLine(1)),
    },
    Record {
        script: "# piperun --processes-max 65537\n",
        first: "",
        all: "",
        end: Err(ScriptFault::BadLine(1)),
    },
    Record {
        script: "# piperun --names-max 18446744073709551616\n",
        first: "",
        all: "",
        end: Err(ScriptFault::BadLine(1)),
    },
    Record {
        script: "# piperun --memory 7\n",
        first: "",
        all: "",
        end: Err(ScriptFault::BadLine(1)),
    },
];

fn checked_of(end: End) -> Result<Checked, ScriptFault> {
    let (compared, different) = end?;
    Ok(Checked {
        compared,
        different,
    })
}

/// Checks a record that comes in pieces of so many bytes.
fn check_from<A: Allocator + Copy>(
    alloc: A,
    all: bool,
    script: &str,
    most: usize,
    writer: &mut Drip<A>,
) -> Result<Checked, ScriptFault> {
    let mut source = Reads::new(Trickle::new(script.as_bytes(), most), MAX_READS);
    let mut sink = Writes::new(writer);
    check_script(alloc, &mut source, &mut sink, LIMITS, all)
}

fn tells<A: Allocator + Copy>(
    rt: &impl Abort,
    alloc: A,
    all: bool,
    script: &str,
    told: &str,
    end: End,
) {
    let mut writer = Drip::new(alloc, 7);
    let ended = check_from(alloc, all, script, 5, &mut writer);
    let is_told = writer.taken() == told.as_bytes();
    is(rt, script, 0, (ended, is_told), (checked_of(end), true));
}

#[test]
fn records_that_are_answered_so(rt: HostRuntime) {
    for (script, compared) in AS_RECORDED {
        tells(&rt, rt.alloc(), true, script, "", Ok((*compared, 0)));
        tells(&rt, rt.alloc(), false, script, "", Ok((*compared, 0)));
    }
}

#[test]
fn records_that_differ(rt: HostRuntime) {
    for record in RECORDS {
        tells(&rt, rt.alloc(), true, record.script, record.all, record.end);
        tells(
            &rt,
            rt.alloc(),
            false,
            record.script,
            record.first,
            record.end,
        );
    }
}

const DIFFERS: &str = "start\n# => pid 2\n";

const TOLD: &str = "line 2\nexpected pid 2\nanswered pid 1\n";

/// A writer that takes byte after byte fails at one of them: a front was told.
#[test]
fn what_is_told_cannot_be_written(rt: HostRuntime) {
    for n in 1..=TOLD.len() {
        let mut writer = Drip::failing(rt.alloc(), 1, n, Failure::Error(ErrorKind::BrokenPipe));
        let ended = check_from(rt.alloc(), false, DIFFERS, usize::MAX, &mut writer);
        let is_front = TOLD.as_bytes().starts_with(writer.taken());
        is(
            &rt,
            "told",
            n,
            (ended, is_front, writer.taken().len()),
            (Err(ScriptFault::Write), true, n - 1),
        );
    }
}
