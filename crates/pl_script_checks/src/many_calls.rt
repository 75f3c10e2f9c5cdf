//! Two hundred calls of one process wait, and it exits: its calls are gone with it (POSIX.1-2017, _exit).
use super::session::Session;
use std::alloc::Allocator;
use std::process::Abort;
use std::test::Fail;

const CALLS: u64 = 200;

/// Process 2 has an empty pipe, whose ends are 0 and 1, and a full one, whose ends are 2 and 3. Nobody writes to the FIFO.
const BEFORE: &str = "\
start => pid 1
start => pid 2
1 mkfifo q => ok
2 pipe => fds 0 1
2 pipe => fds 2 3
2 write 3 65536*61 => count 65536
";

/// A call of process 2 that waits, of eight kinds.
fn call_that_waits(number: u64) -> &'static str {
    match number % 8 {
        0 => "2 read 0 100",
        1 => "2 write 3 7a",
        2 => "2 write 3 70000*7a",
        3 => "2 splice 0 - 3 - 100",
        4 => "2 tee 0 3 100",
        5 => "2 poll wait 0:in 3:out",
        6 => "2 open q r",
        _ => "2 poll wait -1:in",
    }
}

/// Adds a line with a number behind it, and what that prints.
fn push_numbered<A: Allocator + Copy>(
    alloc: A,
    session: &mut Session<A>,
    asked: &str,
    number: u64,
    printed: &str,
) -> Result<(), Fail> {
    let asked = format!(in alloc; "{asked}{number}")?;
    session.push_row(asked.as_str(), printed)
}

/// Adds a line that parks a call of this number.
fn push_parked<A: Allocator + Copy>(
    alloc: A,
    session: &mut Session<A>,
    asked: &str,
    number: u64,
) -> Result<(), Fail> {
    let printed = format!(in alloc; "parked {number}")?;
    session.push_row(asked, printed.as_str())
}

/// No call waits under the numbers from the first on, and the one behind the two hundred.
fn push_no_calls<A: Allocator + Copy>(
    alloc: A,
    session: &mut Session<A>,
    first: u64,
) -> Result<(), Fail> {
    for number in first..first.saturating_add(CALLS + 1) {
        push_numbered(alloc, session, "resume ", number, "no call")?;
        push_numbered(alloc, session, "interrupt ", number, "no call")?;
    }
    Ok(())
}

/// The calls begin, and the process exits.
fn push_calls<A: Allocator + Copy>(
    alloc: A,
    session: &mut Session<A>,
    first: u64,
) -> Result<(), Fail> {
    for number in first..first.saturating_add(CALLS) {
        push_parked(alloc, session, call_that_waits(number), number)?;
    }
    session.push_row("2 exit", "ok")?;
    push_no_calls(alloc, session, first)?;
    session.push_row("1 open q w nonblock", "ENXIO")
}

/// Another process of the same pid has none of them, and its own call has the number behind theirs.
fn push_another<A: Allocator + Copy>(
    alloc: A,
    session: &mut Session<A>,
    first: u64,
) -> Result<(), Fail> {
    let next = first.saturating_add(CALLS);
    session.push_row("start", "pid 2")?;
    push_no_calls(alloc, session, first)?;
    session.push_row("2 pipe", "fds 0 1")?;
    push_parked(alloc, session, "2 read 0 9", next)?;
    session.push_row("2 write 1 61", "count 1")?;
    push_numbered(alloc, session, "resume ", next, "data 61")?;
    push_no_calls(alloc, session, first)
}

fn exits_with_many_calls<A: Allocator + Copy>(
    rt: &impl Abort,
    alloc: A,
    first: u64,
) -> Result<(), Fail> {
    let mut session = Session::of(alloc, BEFORE)?;
    push_calls(alloc, &mut session, first)?;
    push_another(alloc, &mut session, first)?;
    session.is_printed(rt, "two hundred calls", first);
    Ok(())
}

#[test]
fn an_exit_with_two_hundred_calls(rt: HostRuntime) -> Result<(), Fail> {
    for first in [1, 18_446_744_073_709_551_000] {
        exits_with_many_calls(&rt, rt.alloc(), first)?;
    }
    Ok(())
}
