//! A reader and a writer that move few bytes a call, and that fail at a chosen call.
use crate::equal::is;
use pl_model::{Limits, Totals};
use pl_run::LIMITS;
use pl_script::{MAX_READS, Reads, ScriptFault, Writes, run_script};
use std::alloc::{Allocator, Global};
use std::io::{self, ErrorKind, Read, Write};
use std::process::Abort;

/// How a call fails.
#[derive(Clone, Copy)]
pub(crate) enum Failure {
    Error(ErrorKind),
    /// No byte is moved, and no error is told.
    Nothing,
}

/// The calls of a reader or a writer, numbered from 1.
#[derive(Clone, Copy)]
struct Calls {
    made: usize,
    /// The number of the call that fails; 0 for none.
    failing: usize,
    failure: Failure,
}

impl Calls {
    /// Counts one more call, and answers how it fails, if it does.
    fn count(&mut self) -> Option<Failure> {
        self.made = self.made.saturating_add(1);
        if self.made == self.failing {
            Some(self.failure)
        } else {
            None
        }
    }
}

/// A reader of bytes in memory.
#[derive(Drop)]
pub(crate) struct Trickle<'a> {
    rest: &'a [u8],
    /// The most bytes that a call gives.
    most: usize,
    calls: Calls,
}

impl<'a> Trickle<'a> {
    pub(crate) fn new(rest: &'a [u8], most: usize) -> Self {
        Trickle::failing(rest, most, 0, Failure::Nothing)
    }

    /// The reader whose `n`th call fails.
    pub(crate) fn failing(rest: &'a [u8], most: usize, n: usize, failure: Failure) -> Self {
        Trickle {
            rest,
            most,
            calls: Calls {
                made: 0,
                failing: n,
                failure,
            },
        }
    }

    /// The calls that were made, the failed one among them.
    pub(crate) fn calls(&self) -> usize {
        self.calls.made
    }
}

impl Read for Trickle<'_> {
    fn read(&mut self, buf: &mut [u8]) -> io::Result<usize> {
        match self.calls.count() {
            Some(Failure::Error(kind)) => return Err(io::Error::from(kind)),
            Some(Failure::Nothing) => return Ok(0),
            None => {}
        }
        let count = self.rest.len().min(buf.len()).min(self.most);
        let (front, rest) = self.rest.split_at(count);
        buf[..count].copy_from_slice(front);
        self.rest = rest;
        Ok(count)
    }
}

/// A writer that holds what it took.
#[derive(Drop)]
pub(crate) struct Drip<A: Allocator = Global> {
    taken: Vec<u8, A>,
    /// The most bytes that a call takes.
    most: usize,
    calls: Calls,
}

impl<A: Allocator> Drip<A> {
    pub(crate) fn new(alloc: A, most: usize) -> Self {
        Drip::failing(alloc, most, 0, Failure::Nothing)
    }

    /// The writer whose `n`th call fails.
    pub(crate) fn failing(alloc: A, most: usize, n: usize, failure: Failure) -> Self {
        Drip {
            taken: Vec::new(alloc),
            most,
            calls: Calls {
                made: 0,
                failing: n,
                failure,
            },
        }
    }

    pub(crate) fn taken(&self) -> &[u8] {
        self.taken.as_slice()
    }

    /// The calls that were made, the failed one among them.
    pub(crate) fn calls(&self) -> usize {
        self.calls.made
    }
}

impl<A: Allocator> Write for Drip<A> {
    fn write(&mut self, buf: &[u8]) -> io::Result<usize> {
        match self.calls.count() {
            Some(Failure::Error(kind)) => return Err(io::Error::from(kind)),
            Some(Failure::Nothing) => return Ok(0),
            None => {}
        }
        let count = buf.len().min(self.most);
        self.taken.extend_from_slice(&buf[..count])?;
        Ok(count)
    }

    fn flush(&mut self) -> io::Result<()> {
        Ok(())
    }
}

/// Runs the script that the reader gives, in memory of `alloc`, with calls numbered from `first_call`.
pub(crate) fn run_from<A: Allocator + Copy, B: Allocator, R: Read + Drop>(
    alloc: A,
    first_call: u64,
    reader: R,
    writer: &mut Drip<B>,
) -> Result<Totals, ScriptFault> {
    let mut source = Reads::new(reader, MAX_READS);
    let mut sink = Writes::new(writer);
    let limits = Limits {
        first_call,
        ..LIMITS
    };
    run_script(alloc, &mut source, &mut sink, limits)
}

/// A script, what it prints, and how its run ends.
#[derive(Clone, Copy)]
pub(crate) struct Script<'a> {
    pub(crate) name: &'a str,
    /// The number of its first call.
    pub(crate) first_call: u64,
    pub(crate) bytes: &'a [u8],
    pub(crate) output: &'a str,
    pub(crate) end: Result<Totals, ScriptFault>,
}

/// How a script comes.
#[derive(Clone, Copy)]
pub(crate) enum Coming {
    Whole,
    /// With so many bytes a read.
    InPieces(usize),
    /// From two readers, the first of so many bytes.
    CutAt(usize),
}

fn run_coming<A: Allocator + Copy>(
    alloc: A,
    first_call: u64,
    bytes: &[u8],
    coming: Coming,
    writer: &mut Drip<A>,
) -> Result<Totals, ScriptFault> {
    match coming {
        Coming::Whole => run_from(alloc, first_call, bytes, writer),
        Coming::InPieces(most) => run_from(alloc, first_call, Trickle::new(bytes, most), writer),
        Coming::CutAt(cut) => {
            let (front, back) = bytes.split_at(cut.min(bytes.len()));
            run_from(alloc, first_call, front.chain(back), writer)
        }
    }
}

/// The script prints its output and its run ends as it is to, where it comes so.
pub(crate) fn prints<A: Allocator + Copy>(
    rt: &impl Abort,
    alloc: A,
    script: Script<'_>,
    coming: Coming,
) {
    let mut writer = Drip::new(alloc, usize::MAX);
    let end = run_coming(alloc, script.first_call, script.bytes, coming, &mut writer);
    let is_printed = writer.taken() == script.output.as_bytes();
    let place = match coming {
        Coming::Whole => 0,
        Coming::InPieces(most) => most,
        Coming::CutAt(cut) => cut,
    };
    is(
        rt,
        script.name,
        place,
        (end, is_printed),
        (script.end, true),
    );
}
