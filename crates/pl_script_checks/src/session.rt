//! Scripts that are made line by line, with what each line prints.
use super::trickling::{Coming, Script, prints};
use pl_model::Totals;
use pl_script::ScriptFault;
use std::alloc::{Allocator, Global};
use std::process::Abort;
use std::test::Fail;

/// The digits of a byte, so many times.
fn repeated<A: Allocator + Copy>(alloc: A, byte: &str, times: &str) -> Result<String<A>, Fail> {
    let times = times.parse::<usize>()?;
    Ok(byte.repeat(alloc, times)?)
}

fn push_bytes<A: Allocator + Copy>(
    alloc: A,
    output: &mut String<A>,
    data: &str,
    byte: &str,
) -> Result<(), Fail> {
    let times = data.strip_prefix("data ").ok_or("no bytes")?;
    let digits = repeated(alloc, byte, times)?;
    output.push_str("data ")?;
    Ok(output.push_str(digits.as_str())?)
}

/// Adds what a line prints. The session writes `N*hh` for N times the byte hh, whose digits are all printed.
fn push_printed<A: Allocator + Copy>(
    alloc: A,
    output: &mut String<A>,
    printed: &str,
) -> Result<(), Fail> {
    match printed.split_once('*') {
        Some((data, byte)) => push_bytes(alloc, output, data, byte),
        None => Ok(output.push_str(printed)?),
    }
}

fn push_line_feed<A: Allocator>(text: &mut String<A>) -> Result<(), Fail> {
    Ok(text.push('\n')?)
}

/// A script, what it prints, and how many lines it has and steps it asks for.
#[derive(Drop)]
pub(crate) struct Session<A: Allocator = Global> {
    alloc: A,
    script: String<A>,
    output: String<A>,
    lines: u32,
    steps: u32,
}

impl<A: Allocator + Copy> Session<A> {
    pub(crate) fn new(alloc: A) -> Self {
        Session {
            alloc,
            script: String::new(alloc),
            output: String::new(alloc),
            lines: 0,
            steps: 0,
        }
    }

    /// Adds bytes to the script alone, as a bad line, or the front of one.
    pub(crate) fn push_bytes(&mut self, bytes: &str) -> Result<(), Fail> {
        Ok(self.script.push_str(bytes)?)
    }

    /// Adds a line that asks nothing.
    pub(crate) fn push_silent(&mut self, line: &str) -> Result<(), Fail> {
        self.script.push_str(line)?;
        self.lines = self.lines.saturating_add(1);
        push_line_feed(&mut self.script)
    }

    /// Adds a last line, without its line feed, and what it prints, which may be `data N*hh`.
    pub(crate) fn push_last(&mut self, asked: &str, printed: &str) -> Result<(), Fail> {
        self.script.push_str(asked)?;
        self.lines = self.lines.saturating_add(1);
        if !asked.starts_with("file ") {
            self.steps = self.steps.saturating_add(1);
        }
        push_printed(self.alloc, &mut self.output, printed)?;
        push_line_feed(&mut self.output)
    }

    /// Adds a line and what it prints, which may be `data N*hh`.
    pub(crate) fn push_row(&mut self, asked: &str, printed: &str) -> Result<(), Fail> {
        self.push_last(asked, printed)?;
        push_line_feed(&mut self.script)
    }

    /// Adds the lines of rows `LINE => ANSWER`.
    pub(crate) fn push_rows(&mut self, rows: &str) -> Result<(), Fail> {
        for row in rows.lines() {
            let (asked, printed) = row.split_once(" => ").ok_or("a line prints nothing")?;
            self.push_row(asked, printed)?;
        }
        Ok(())
    }

    /// The session of rows `LINE => ANSWER`.
    pub(crate) fn of(alloc: A, rows: &str) -> Result<Session<A>, Fail> {
        let mut session = Session::new(alloc);
        session.push_rows(rows)?;
        Ok(session)
    }

    /// It prints what it is to, and ends well.
    pub(crate) fn is_printed(&self, rt: &impl Abort, name: &str, first_call: u64) {
        let end = Ok(Totals {
            lines: self.lines,
            steps: self.steps,
            nomem: 0,
        });
        self.is_ended(rt, name, first_call, end);
    }

    /// It prints what it is to, and ends at a bad line behind those that were added.
    pub(crate) fn is_bad(&self, rt: &impl Abort, name: &str) {
        let end = Err(ScriptFault::BadLine(self.lines.saturating_add(1)));
        self.is_ended(rt, name, 1, end);
    }

    fn is_ended(
        &self,
        rt: &impl Abort,
        name: &str,
        first_call: u64,
        end: Result<Totals, ScriptFault>,
    ) {
        let script = Script {
            name,
            first_call,
            bytes: self.script.as_bytes(),
            output: self.output.as_str(),
            end,
        };
        prints(rt, self.alloc, script, Coming::Whole);
    }
}
