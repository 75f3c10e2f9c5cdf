//! Runs each script that the file `scripts` of the folder `data` lists, and says of which ones the output isn't what stands beside
//! them. The folder `examples` at the top of the repository is a link to `data`.
#![tactic(auto)]

mod difference;
mod example;
mod expected;

use anyhow::{Context, Result, ensure};
use example::first_difference;
use std::fs;
use std::process::ExitCode;

fn main(rt: HostRuntime) -> Result<ExitCode> {
    let list = fs::read_to_string(&rt, "scripts").context("the list `scripts` can't be read")?;
    let mut ran = 0u32;
    let mut differ = 0u32;
    for name in list.split_terminator('\n') {
        if let Some(line) = first_difference(&rt, name)? {
            println!(rt; "{name}: line {line} differs")?;
            differ = differ.saturating_add(1);
        }
        ran = ran.saturating_add(1);
    }
    ensure!(ran > 0, "the list `scripts` is empty");
    println!(rt; "{ran} ran, {differ} differ")?;
    Ok(if differ == 0 {
        ExitCode::SUCCESS
    } else {
        ExitCode::FAILURE
    })
}
