//! The words of the command line, and what they ask for.
ghost use Rattle.std.specs.Prelude.{◌≡◌, Ok, Err, if◌then◌else◌, IfOk, MatchResult, map, option_map, string_bytes, codes};
ghost use Rattle.clap.specs.Words.{with_rule, app_of, found_of, first_value, one_text, kind_of};
ghost use Rattle.pl_run.specs.declared.choice.Choice.TheVariants.{Run, Check, Live};
ghost use Rattle.pl_run.specs.declared.fault.Fault.TheVariants.{CommandLine, NoMemory};
ghost use Rattle.pl_run.specs.Words.{with_flags, with_table_limits, with_limits, with_live_flags, with_explain, with_numbers, valued_rule, piperun, are_at_odds, told_of, HoldsMatches, Refuses, Chooses};

use crate::fault::Fault;
use crate::limits::{limits_of, memory_of};
use crate::version::VERSION;
use clap::error::ErrorKind;
use clap::{Arg, ArgAction, ArgMatches, Command, Error};
use pl_model::Limits;
use std::alloc::{AllocError, Global};

/// What the words of the command line ask for.
#[derive(Debug, Drop)]
pub enum Choice {
    /// A run of a script.
    Run {
        /// Whether it tells what is wrong with a bad line.
        explain: bool,
        /// The number of the first call that waits, and the limits of the kernel.
        limits: Limits,
        /// The most bytes that the run may hold; without it there is no such limit.
        memory: Option<u64>,
        /// The file that the script is read from; without one it is standard input.
        file: Option<String>,
    },
    /// A check of a record.
    Check {
        /// Whether all differences are told, and not the first alone.
        all: bool,
        /// Whether it tells what is wrong with a bad line.
        explain: bool,
        /// The number of the first call that waits, and the limits of the kernel, where the record names no others.
        limits: Limits,
        /// The most bytes that the check may hold; without it there is no such limit.
        memory: Option<u64>,
        /// The file that the record is read from; without one it is standard input.
        file: Option<String>,
    },
    /// A live run.
    Live(LiveChoice),
    /// The help text.
    Help,
    /// The version.
    Version,
}

/// A live run that is asked for.
#[derive(Debug, Drop)]
pub struct LiveChoice {
    /// Whether it ends at its first bad line.
    pub strict: bool,
    /// Whether it tells what is wrong with bad lines.
    pub explain: bool,
    /// The number of the first call that waits, and the limits of the kernel.
    pub limits: Limits,
    /// The most bytes that the run may hold; without it there is no such limit.
    pub memory: Option<u64>,
    /// The file that the lines are read from; without one it is standard input.
    pub file: Option<String>,
}

/// The command with the options `--check` and `--all`, which have no value.
fn with_flags<'a>(alloc: Global, command: Command<'a>) -> Result<Command<'a>, AllocError>
    ensures { IfOk result (λ made. app_of made ≡ with_flags (app_of command.entry)) }
{
    let check = Arg::new(alloc, "check")
        .long("check")
        .action(ArgAction::SetTrue);
    let all = Arg::new(alloc, "all")
        .long("all")
        .action(ArgAction::SetTrue);
    command.arg(check)?.arg(all)
}

/// The command with the options `--live` and `--strict`, which have no value.
fn with_live_flags<'a>(alloc: Global, command: Command<'a>) -> Result<Command<'a>, AllocError>
    ensures { IfOk result (λ made. app_of made ≡ with_live_flags (app_of command.entry)) }
{
    let live = Arg::new(alloc, "live")
        .long("live")
        .action(ArgAction::SetTrue);
    let strict = Arg::new(alloc, "strict")
        .long("strict")
        .action(ArgAction::SetTrue);
    command.arg(live)?.arg(strict)
}

/// The command with the option `--explain`, which has no value.
fn with_explain<'a>(alloc: Global, command: Command<'a>) -> Result<Command<'a>, AllocError>
    ensures { IfOk result (λ made. app_of made ≡ with_explain (app_of command.entry)) }
{
    let explain = Arg::new(alloc, "explain")
        .long("explain")
        .action(ArgAction::SetTrue);
    command.arg(explain)
}

/// The command with the options `--first-call N` and `--memory BYTES`, and with its version.
fn with_numbers<'a>(alloc: Global) -> Result<Command<'a>, AllocError>
    ensures { IfOk result (λ made. app_of made ≡ with_numbers) }
{
    let first_call = Arg::new(alloc, "first-call").long("first-call");
    let memory = Arg::new(alloc, "memory").long("memory");
    let command = Command::new(alloc, "piperun")
        .no_binary_name(true)
        .version(VERSION);
    command.arg(first_call)?.arg(memory)
}

/// The command with an option of this name, which has a value.
fn with_option<'a>(
    alloc: Global,
    command: Command<'a>,
    name: &'static str,
) -> Result<Command<'a>, AllocError>
    ensures { IfOk result (λ made. app_of made ≡ with_rule (app_of command.entry) (valued_rule name.now)) }
{
    command.arg(Arg::new(alloc, name).long(name))
}

/// The command with the options `--descriptors-max N`, `--descriptions-max N` and `--processes-max N`.
fn with_table_limits<'a>(alloc: Global, command: Command<'a>) -> Result<Command<'a>, AllocError>
    ensures { IfOk result (λ made. app_of made ≡ with_table_limits (app_of command.entry)) }
{
    let command = with_option(alloc, command, "descriptors-max")?;
    let command = with_option(alloc, command, "descriptions-max")?;
    with_option(alloc, command, "processes-max")
}

/// The command with the options `--file-max N`, `--names-max N`, `--waiting-max N`, `--waiting-of-each N` and `--capacity-max N`, these, and
/// `--spare-max BYTES`.
fn with_limits<'a>(alloc: Global, command: Command<'a>) -> Result<Command<'a>, AllocError>
    ensures { IfOk result (λ made. app_of made ≡ with_limits (app_of command.entry)) }
{
    let command = with_option(alloc, command, "file-max")?;
    let command = with_option(alloc, command, "names-max")?;
    let command = with_option(alloc, command, "waiting-max")?;
    let command = with_option(alloc, command, "waiting-of-each")?;
    let command = with_option(alloc, command, "capacity-max")?;
    let command = with_table_limits(alloc, command)?;
    with_option(alloc, command, "spare-max")
}

/// The command `piperun [OPTION ..] [FILE]`, with all of these options.
fn command<'a>(alloc: Global) -> Result<Command<'a>, AllocError>
    ensures { IfOk result (λ made. app_of made ≡ piperun) }
{
    let file = Arg::new(alloc, "file");
    let command = with_limits(alloc, with_numbers(alloc)?)?;
    let command = with_flags(alloc, command)?;
    let command = with_live_flags(alloc, command)?;
    with_explain(alloc, command)?.arg(file)
}

/// What the options and FILE ask for.
fn chosen(
    check: bool,
    all: bool,
    live: bool,
    strict: bool,
    explain: bool,
    limits: Limits,
    memory: Option<u64>,
    file: Option<String>,
) -> Result<Choice, Fault>
    ensures { result ≡ (if are_at_odds check all live strict then Err CommandLine
        else if check then Ok (Check all explain limits memory file)
        else if live then Ok (Live (record { strict = strict; explain = explain; limits = limits; memory = memory; file = file }))
        else Ok (Run explain limits memory file)) }
{
    match (check, all, live, strict) {
        (true, all, false, false) => Ok(Choice::Check {
            all,
            explain,
            limits,
            memory,
            file,
        }),
        (false, false, true, strict) => Ok(Choice::Live(LiveChoice {
            strict,
            explain,
            limits,
            memory,
            file,
        })),
        (false, false, false, false) => Ok(Choice::Run {
            explain,
            limits,
            memory,
            file,
        }),
        _ => Err(Fault::CommandLine),
    }
}

/// FILE, by these words.
fn file_of(alloc: Global, matches: &ArgMatches) -> Result<Option<String>, Fault>
    ensures { MatchResult result (λ file. option_map string_bytes file ≡ first_value (found_of matches.now) (codes "file"))
        (λ fault. fault ≡ NoMemory) }
{
    match matches.get_str("file") {
        Some(path) => Ok(Some(String::from_str(alloc, path)?)),
        None => Ok(None),
    }
}

/// What the words that the command took ask for.
fn run_of(alloc: Global, matches: &ArgMatches) -> Result<Choice, Fault>
    ensures { HoldsMatches (told_of (one_text (found_of matches.now)) (first_value (found_of matches.now))) result }
{
    let memory = memory_of(matches)?;
    let limits = limits_of(matches, memory)?;
    let file = file_of(alloc, matches)?;
    let check = matches.get_flag("check");
    let all = matches.get_flag("all");
    let live = matches.get_flag("live");
    let strict = matches.get_flag("strict");
    let explain = matches.get_flag("explain");
    chosen(check, all, live, strict, explain, limits, memory, file)
}

/// What the words that the command didn't take ask for.
fn refusal(error: &Error) -> Result<Choice, Fault>
    ensures { Refuses (kind_of error.now) result }
{
    match error.kind() {
        ErrorKind::DisplayHelp => Ok(Choice::Help),
        ErrorKind::DisplayVersion => Ok(Choice::Version),
        ErrorKind::OutOfMemory => Err(Fault::NoMemory),
        _ => Err(Fault::CommandLine),
    }
}

/// What the words of the command line ask for, without the program's own name: `--help` or `-h` for the help text, `--version` or
/// `-V` for the version, else each option at most once, and at most one FILE. The options are `--check`, `--all` beside it, `--live`,
/// `--strict` beside that, `--explain`, and, each with a number below 2^64, `--first-call`, `--file-max`, `--names-max`, `--waiting-max`,
/// `--waiting-of-each`, `--capacity-max`, `--descriptors-max`, `--descriptions-max`, `--processes-max`, `--spare-max` and `--memory`. What
/// stands behind `--` is FILE, whatever it looks like.
///
/// # Errors
///
/// `CommandLine` where the command doesn't take the words, `--all` stands without `--check`, `--strict` without `--live`, both `--check`
/// and `--live` are there, or an option's value isn't a number, or above 16,777,216 of `--file-max`, 1,048,576 of `--capacity-max` or
/// `--descriptions-max`, or 65,536 of `--descriptors-max` or `--processes-max`;
/// `NoMemory` where there was none to read them.
pub fn words(alloc: Global, words: &[String]) -> Result<Choice, Fault>
    ensures { Chooses (map string_bytes words.now) result }
{
    match command(alloc)?.try_get_matches_from(words) {
        Ok(matches) => run_of(alloc, &matches),
        Err(error) => refusal(&error),
    }
}
