//! One script: `NAME.script`, what it prints, `NAME.out`, which is its output and the line of its fault, and, where its calls aren't
//! numbered from 1, the words that the program is given, `NAME.args`.

use crate::difference::first_line_apart;
use crate::expected::expanded;
use anyhow::{Context, Result};
use pl_model::Limits;
use pl_run::{Fault, LIMITS, write_fault};
use pl_script::{Reads, Writes, run_script};
use std::alloc::Global;
use std::fs;
use std::rt::Files;

/// The number of the words `--first-call N`, a word a line; `None` where they are others.
fn number_of(words: &str) -> Option<u64> {
    let mut lines = words.split_terminator('\n');
    let option = lines.next()?;
    let number = lines.next()?;
    if option != "--first-call" || lines.next().is_some() {
        return None;
    }
    number.parse().ok()
}

/// The number of the script's first call that waits.
fn first_call<R: Files + AllocGlobal>(rt: &R, name: &str) -> Result<u64> {
    let path = format!(in rt.alloc(); "{name}.args")?;
    if !fs::exists(rt, path.as_str())? {
        return Ok(LIMITS.first_call);
    }
    let words = fs::read_to_string(rt, path.as_str())?;
    number_of(words.as_str()).context("its words aren't `--first-call` and a number")
}

/// What a script prints; `None` where there is no memory for it.
fn printed(alloc: Global, script: &[u8], first_call: u64) -> Option<Vec<u8>> {
    let limits = Limits {
        first_call,
        ..LIMITS
    };
    let mut output = Vec::new(alloc);
    let mut reader = Reads::of_script(script);
    let mut writer = Writes::new(&mut output);
    let told = match run_script(alloc, &mut reader, &mut writer, limits) {
        Ok(_) => true,
        Err(fault) => write_fault(&mut writer, &Fault::from(fault)),
    };
    drop(writer);
    if told { Some(output) } else { None }
}

/// Whether a script is of version 2, so that it prints its bytes as pieces itself.
fn is_of_version_2(script: &[u8]) -> bool {
    script.starts_with(b"piperun 2\n".as_slice())
        || script.starts_with(b"piperun 2\r".as_slice())
        || script == b"piperun 2".as_slice()
}

/// What is to be printed by the script of this name.
fn wanted<R: Files + AllocGlobal>(rt: &R, name: &str, script: &[u8]) -> Result<String> {
    let path = format!(in rt.alloc(); "{name}.out")?;
    let text = fs::read_to_string(rt, path.as_str()).context("its output can't be read")?;
    if is_of_version_2(script) {
        return Ok(text);
    }
    expanded(rt.alloc(), text.as_str())
}

/// Runs the script of this name, and answers in which line, from 1 on, what it printed first differs from what it is to print, if it
/// does.
fn run<R: Files + AllocGlobal>(rt: &R, name: &str) -> Result<Option<u64>> {
    let first_call = first_call(rt, name)?;
    let path = format!(in rt.alloc(); "{name}.script")?;
    let script = fs::read(rt, path.as_str()).context("it can't be read")?;
    let wanted = wanted(rt, name, script.as_slice())?;
    let output = printed(rt.alloc(), script.as_slice(), first_call).context("no memory")?;
    Ok(first_line_apart(output.as_slice(), wanted.as_bytes()))
}

/// In which line, from 1 on, what the script of this name prints first differs from what it is to print; `None` where it doesn't.
///
/// # Errors
///
/// Where a file of it isn't there, or isn't as it should be, or there is no memory.
pub fn first_difference<R: Files + AllocGlobal>(rt: &R, name: &str) -> Result<Option<u64>> {
    run(rt, name).context(format_args!("the script `{name}`"))
}
