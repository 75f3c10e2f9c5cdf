//! Single lines, outcomes and files, where each request for memory is refused in turn.
use crate::equal::is;
use pl_lines::{push_file_line, push_line, push_step};
use pl_model::Outcome;
use pl_refusing::{MOST_REQUESTS, Refusing};
use pl_script::{
    Line, LineFault, Version, parse_line, parse_line_2, show, show_2, show_file, show_file_2,
};
use pl_testing::asked::{Ask, Want};
use std::alloc::{AllocError, Allocator, Global};
use std::process::Abort;
use std::test::Fail;

/// What is asked of the text of a line, in a version of scripts.
#[derive(Clone, Copy)]
pub(crate) enum Asked<'a> {
    /// Whether it asks for a step or a file.
    Asks,
    /// Whether it is the text of the reply.
    Shows(Want),
    /// Whether it is the text of a file of these bytes, or of none.
    ShowsFile(Option<&'a [u8]>),
    /// Whether it is added to another as the line of the reply.
    Adds(Want),
    /// Whether it is added to another as that of such a file.
    AddsFile(Option<&'a [u8]>),
    /// Whether it is added to another as the line that says the step.
    Says(Ask),
}

/// What that comes to.
#[derive(Clone, Copy, Debug, PartialEq)]
enum Told {
    AsWanted,
    Otherwise,
    NoMemory,
}

fn told_if(is_wanted: bool) -> Told {
    if is_wanted {
        Told::AsWanted
    } else {
        Told::Otherwise
    }
}

fn parsed<A: Allocator + Copy>(
    alloc: A,
    version: Version,
    text: &str,
) -> Result<Option<Line<A>>, LineFault> {
    match version {
        Version::One => parse_line(alloc, text.as_bytes()),
        Version::Two => parse_line_2(alloc, text.as_bytes()),
    }
}

/// Whether the line asks for a step or a file.
fn asks<A: Allocator + Copy>(alloc: A, version: Version, text: &str) -> Told {
    match parsed(alloc, version, text) {
        Ok(asked) => told_if(asked.is_some()),
        Err(LineFault::Bad) => Told::Otherwise,
        Err(LineFault::NoMemory) => Told::NoMemory,
    }
}

/// Whether the text is shown.
fn is_shown<A: Allocator>(shown: Result<String<A>, AllocError>, text: &str) -> Told {
    match shown {
        Ok(shown) => told_if(shown.as_str() == text),
        Err(_) => Told::NoMemory,
    }
}

fn shows<A: Allocator + Copy>(
    alloc: A,
    version: Version,
    text: &str,
    outcome: &Outcome<A>,
) -> Told {
    let shown = match version {
        Version::One => show(alloc, outcome),
        Version::Two => show_2(alloc, outcome),
    };
    is_shown(shown, text)
}

fn shows_file<A: Allocator + Copy>(
    alloc: A,
    version: Version,
    text: &str,
    bytes: Option<&[u8]>,
) -> Told {
    let shown = match version {
        Version::One => show_file(alloc, bytes),
        Version::Two => show_file_2(alloc, bytes),
    };
    is_shown(shown, text)
}

/// The line that stands before one that is added.
const BEFORE: &str = "ok\n";

/// Whether the line of the text stands behind the one of before, or that one is as it was where there is no memory.
fn is_added(added: Result<(), AllocError>, lines: &str, text: &str) -> Told {
    if added.is_err() && lines == BEFORE {
        return Told::NoMemory;
    }
    match lines.strip_prefix(BEFORE) {
        Some(line) => told_if(added.is_ok() && line.strip_suffix('\n') == Some(text)),
        None => Told::Otherwise,
    }
}

fn adds<A: Allocator + Copy>(
    heap: &Refusing<Global>,
    alloc: A,
    version: Version,
    text: &str,
    want: Want,
    n: u64,
) -> Result<Told, Fail> {
    let outcome = want.outcome(alloc)?;
    let mut lines = String::from_str(alloc, BEFORE)?;
    heap.refuse(n);
    let added = push_line(version, &mut lines, &outcome);
    Ok(is_added(added, lines.as_str(), text))
}

fn adds_file<A: Allocator + Copy>(
    heap: &Refusing<Global>,
    alloc: A,
    version: Version,
    text: &str,
    bytes: Option<&[u8]>,
    n: u64,
) -> Result<Told, Fail> {
    let mut lines = String::from_str(alloc, BEFORE)?;
    heap.refuse(n);
    let added = push_file_line(version, &mut lines, bytes);
    Ok(is_added(added, lines.as_str(), text))
}

fn says<A: Allocator + Copy>(
    heap: &Refusing<Global>,
    alloc: A,
    text: &str,
    ask: Ask,
    n: u64,
) -> Result<Told, Fail> {
    let step = ask.step(alloc)?;
    let mut lines = String::from_str(alloc, BEFORE)?;
    heap.refuse(n);
    let added = push_step(&mut lines, &step);
    Ok(is_added(added, lines.as_str(), text))
}

/// What is told where the `n`th request for memory is refused.
fn tell<A: Allocator + Copy>(
    heap: &Refusing<Global>,
    alloc: A,
    version: Version,
    text: &str,
    asked: Asked<'_>,
    n: u64,
) -> Result<Told, Fail> {
    heap.refuse(0);
    match asked {
        Asked::Asks => {
            heap.refuse(n);
            Ok(asks(alloc, version, text))
        }
        Asked::Shows(want) => {
            let outcome = want.outcome(alloc)?;
            heap.refuse(n);
            Ok(shows(alloc, version, text, &outcome))
        }
        Asked::ShowsFile(bytes) => {
            heap.refuse(n);
            Ok(shows_file(alloc, version, text, bytes))
        }
        Asked::Adds(want) => adds(heap, alloc, version, text, want, n),
        Asked::AddsFile(bytes) => adds_file(heap, alloc, version, text, bytes, n),
        Asked::Says(ask) => says(heap, alloc, text, ask, n),
    }
}

/// What is told is what is wanted, and where each request for memory is refused in turn, there is none.
pub(crate) fn is_told(
    rt: &impl Abort,
    alloc: Global,
    version: Version,
    text: &str,
    asked: Asked<'_>,
) -> Result<(), Fail> {
    let heap = Refusing::new(alloc);
    for n in 1..MOST_REQUESTS {
        let told = tell(&heap, &heap, version, text, asked, n)?;
        let wanted = if heap.refused() {
            Told::NoMemory
        } else {
            Told::AsWanted
        };
        is(rt, text, n as usize, told, wanted);
        if !heap.refused() {
            break;
        }
    }
    is(rt, text, 0, heap.refused(), false);
    Ok(())
}

fn is_bad<A: Allocator + Copy>(alloc: A, version: Version, text: &str) -> bool {
    matches!(parsed(alloc, version, text), Err(LineFault::Bad))
}

/// The line is a bad one, also where the first request for memory is refused.
pub(crate) fn is_told_as_bad(rt: &impl Abort, alloc: Global, version: Version, text: &str) {
    let heap = Refusing::new(alloc);
    for n in 0..2u64 {
        heap.refuse(n);
        is(rt, text, n as usize, is_bad(&heap, version, text), true);
    }
}
