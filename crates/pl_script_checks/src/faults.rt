//! The line and the status of each fault.
use super::equal::is;
use super::trickling::{Drip, Failure};
use pl_run::{Fault, status, write_fault};
use pl_script::{Explanation, Reason, ScriptFault, Writes};
use std::alloc::Allocator;
use std::io::ErrorKind;
use std::process::Abort;

const ODD_DIGITS: Explanation = Explanation {
    word: 4,
    reason: Reason::OddDigits,
};

const TOO_MANY: Explanation = Explanation {
    word: u64::MAX,
    reason: Reason::Surplus,
};

/// Each fault, its lines and its status.
const FAULTS: &[(Fault, &str, u8)] = &[
    (Fault::CannotRead, "piperun: cannot read\n", 1),
    (Fault::CannotWrite, "piperun: cannot write\n", 1),
    (Fault::CommandLine, "piperun: bad command line\n", 2),
    (
        Fault::BadLine(7, None),
        "piperun: line 7: not a command\n",
        3,
    ),
    (
        Fault::BadLine(2, None),
        "piperun: line 2: not a command\n",
        3,
    ),
    (
        Fault::BadLine(16_777_216, None),
        "piperun: line 16777216: not a command\n",
        3,
    ),
    (
        Fault::BadLine(2, Some(ODD_DIGITS)),
        "piperun: line 2: not a command\nline 2, word 4: an odd number of digits\n",
        3,
    ),
    (
        Fault::BadLine(7, Some(TOO_MANY)),
        "piperun: line 7: not a command\nline 7, word 18446744073709551615: a word too many\n",
        3,
    ),
    (
        Fault::TooLong,
        "piperun: script longer than 16777216 bytes\n",
        3,
    ),
    (Fault::BadLines(1), "piperun: 1 bad lines\n", 3),
    (
        Fault::BadLines(18_446_744_073_709_551_615),
        "piperun: 18446744073709551615 bad lines\n",
        3,
    ),
    (Fault::Endless, "piperun: input without end\n", 3),
    (Fault::NoMemory, "piperun: no memory\n", 4),
    (Fault::NothingExpected, "piperun: no reply is expected\n", 5),
    (Fault::Differs(2, 5), "piperun: 2 of 5 replies differ\n", 5),
];

/// Whether the writer took the line of the fault.
fn took_line<A: Allocator + Copy>(fault: &Fault, writer: &mut Drip<A>) -> bool {
    write_fault(&mut Writes::new(writer), fault)
}

/// The writer, which takes so many bytes a call, takes the whole line. Answers the number of writes.
fn writes_line<A: Allocator + Copy>(
    rt: &impl Abort,
    alloc: A,
    most: usize,
    fault: &Fault,
    line: &str,
) -> usize {
    let mut writer = Drip::new(alloc, most);
    let told = took_line(fault, &mut writer);
    let is_written = writer.taken() == line.as_bytes();
    is(rt, line, most, (told, is_written), (true, true));
    writer.calls()
}

#[test]
fn each_fault_has_a_line_and_a_status(rt: HostRuntime) {
    for (fault, line, number) in FAULTS {
        writes_line(&rt, rt.alloc(), usize::MAX, fault, line);
        is(&rt, line, 0, status(fault), *number);
    }
}

/// The faults of a script, and those of the program.
const ENDS: &[(ScriptFault, Fault)] = &[
    (ScriptFault::Read, Fault::CannotRead),
    (ScriptFault::Write, Fault::CannotWrite),
    (ScriptFault::TooLong, Fault::TooLong),
    (ScriptFault::BadLine(2), Fault::BadLine(2, None)),
    (ScriptFault::NoMemory, Fault::NoMemory),
];

#[test]
fn each_end_of_a_script_is_a_fault(rt: HostRuntime) {
    for (end, fault) in ENDS {
        is(&rt, "the end of a script", 0, Fault::from(*end), *fault);
    }
}

const FAILURES: &[Failure] = &[Failure::Error(ErrorKind::BrokenPipe), Failure::Nothing];

/// The `n`th of the writes of one byte fails.
fn fail_the_write<A: Allocator + Copy>(
    rt: &impl Abort,
    alloc: A,
    fault: &Fault,
    line: &str,
    n: usize,
    failure: Failure,
) {
    let mut writer = Drip::failing(alloc, 1, n, failure);
    let told = took_line(fault, &mut writer);
    let is_front = line.as_bytes().starts_with(writer.taken());
    is(rt, line, n, (told, is_front), (false, true));
}

fn fail_writes<A: Allocator + Copy>(rt: &impl Abort, alloc: A, fault: &Fault, line: &str) {
    let writes = writes_line(rt, alloc, 1, fault, line);
    for n in 1..=writes {
        for failure in FAILURES {
            fail_the_write(rt, alloc, fault, line, n, *failure);
        }
    }
}

/// A writer takes the whole line byte by byte, unless one of these writes fails.
#[test]
fn a_line_that_cannot_be_written(rt: HostRuntime) {
    for (fault, line, _) in FAULTS {
        fail_writes(&rt, rt.alloc(), fault, line);
    }
}
