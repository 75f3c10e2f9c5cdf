//! What the words of the command line ask for.
use self::Asked::{
    Checks, ChecksExplained, ChecksFile, ChecksIn, Fails, Helps, LivesExplained, LivesIn, LivesOn,
    LivesOnFile, Runs, RunsExplained, RunsFile, RunsIn, RunsWithin, Tells,
};
use super::equal::is;
use pl_model::Limits;
use pl_run::{Choice, Fault, LIMITS, LiveChoice, words};
use std::alloc::Global;
use std::process::Abort;
use std::test::Fail;

/// What words ask for.
#[derive(Clone, Copy)]
enum Asked {
    /// A run of the input, with calls numbered from here.
    Runs(u64),
    /// The same of a file.
    RunsFile(u64, &'static str),
    /// A run of the input, with calls numbered from here, within so many bytes.
    RunsWithin(u64, u64),
    /// A run of the input within these limits.
    RunsIn(Limits),
    /// A check of the input that tells all or the first difference, with calls numbered from here.
    Checks(bool, u64),
    /// The same of a file.
    ChecksFile(bool, u64, &'static str),
    /// A check of the input that tells the first difference, within these limits.
    ChecksIn(Limits),
    /// A live run of the input that is strict or not, with calls numbered from here, and within so many bytes, if there is a limit.
    LivesOn(bool, u64, Option<u64>),
    /// The same of a file.
    LivesOnFile(bool, u64, &'static str),
    /// A live run of the input that isn't strict, within these limits.
    LivesIn(Limits),
    /// A run, a check of the first difference and a live run that isn't strict, of the input, each of which tells what is wrong with a bad
    /// line.
    RunsExplained,
    ChecksExplained,
    LivesExplained,
    Helps,
    /// The version.
    Tells,
    Fails(Fault),
}

const BAD: Asked = Fails(Fault::CommandLine);

const SHORT_FILES: Limits = Limits {
    file_max: 4_096,
    ..LIMITS
};

const ALL_SET: Limits = Limits {
    first_call: 7,
    file_max: 0,
    names_max: 3,
    waiting_max: 2,
    waiting_of_each: 1,
    capacity_max: 8_192,
    descriptors_max: 5,
    descriptions_max: 6,
    processes_max: 4,
    spare_max: 8_191,
};

const GREATEST_TABLES: Limits = Limits {
    descriptors_max: 65_536,
    descriptions_max: 1_048_576,
    processes_max: 65_536,
    ..LIMITS
};

const NOTHING_SPARE: Limits = Limits {
    spare_max: 0,
    ..LIMITS
};

const WORDS: &[(&[&str], Asked)] = &[
    (&[], Runs(1)),
    (&["s"], RunsFile(1, "s")),
    (&["--first-call", "7"], Runs(7)),
    (&["--first-call", "7", "s"], RunsFile(7, "s")),
    (&["s", "--first-call", "7"], RunsFile(7, "s")),
    (&["--first-call=7", "s"], RunsFile(7, "s")),
    (&["--help"], Helps),
    (&["-h"], Helps),
    (&["s", "--help"], Helps),
    // the range of N
    (&["--first-call", "0"], Runs(0)),
    (&["--first-call", "18446744073709551615"], Runs(u64::MAX)),
    (&["--first-call", "18446744073709551616"], BAD),
    (&["--first-call", "-1"], BAD),
    (&["--first-call=-1"], BAD),
    // no number, none at all, two of them
    (&["--first-call", "x"], BAD),
    (&["--first-call", "7x"], BAD),
    (&["--first-call", "0x7"], BAD),
    (&["--first-call", ""], BAD),
    (&["--first-call="], BAD),
    (&["--first-call"], BAD),
    (&["s", "--first-call"], BAD),
    (&["--first-call", "7", "--first-call", "7"], BAD),
    (&["--first-call=7", "--first-call=8"], BAD),
    // BYTES
    (&["--memory", "65536"], RunsWithin(1, 65_536)),
    (&["--memory=0"], RunsWithin(1, 0)),
    (&["--memory", "5", "--first-call", "7"], RunsWithin(7, 5)),
    (&["--first-call", "7", "--memory", "5"], RunsWithin(7, 5)),
    (
        &["--memory", "18446744073709551615"],
        RunsWithin(1, u64::MAX),
    ),
    (&["--memory", "18446744073709551616"], BAD),
    (&["--memory", "-1"], BAD),
    (&["--memory", "64k"], BAD),
    (&["--memory", ""], BAD),
    (&["--memory"], BAD),
    (&["--memory", "5", "--memory", "5"], BAD),
    (&["--memory", "5", "--first-call", "x"], BAD),
    (&["--memory", "x", "--first-call", "7"], BAD),
    (&["--memory", "5", "--help"], Helps),
    // checks
    (&["--check"], Checks(false, 1)),
    (&["--check", "s"], ChecksFile(false, 1, "s")),
    (&["s", "--check"], ChecksFile(false, 1, "s")),
    (&["--check", "--all"], Checks(true, 1)),
    (&["--all", "--first-call", "7", "--check"], Checks(true, 7)),
    (&["--all", "s", "--check"], ChecksFile(true, 1, "s")),
    (&["--all"], BAD),
    (&["--all", "s"], BAD),
    (&["--check", "--check"], BAD),
    (&["--check=true"], BAD),
    (&["--check", "--help"], Helps),
    // live runs
    (&["--live"], LivesOn(false, 1, None)),
    (&["--live", "s"], LivesOnFile(false, 1, "s")),
    (&["--live", "--strict"], LivesOn(true, 1, None)),
    (
        &["--strict", "--memory", "5", "--first-call", "7", "--live"],
        LivesOn(true, 7, Some(5)),
    ),
    (&["--strict", "s", "--live"], LivesOnFile(true, 1, "s")),
    (&["--strict"], BAD),
    (&["--strict", "s"], BAD),
    (&["--live", "--check"], BAD),
    (&["--live", "--all"], BAD),
    (&["--live", "--check", "--all"], BAD),
    (&["--strict", "--check"], BAD),
    (&["--live", "--live"], BAD),
    (&["--live", "--first-call", "x"], BAD),
    (&["--live", "--help"], Helps),
    // what is wrong with a bad line
    (&["--explain"], RunsExplained),
    (&["--explain", "--check"], ChecksExplained),
    (&["--live", "--explain"], LivesExplained),
    (&["--explain", "--explain"], BAD),
    (&["--explain=true"], BAD),
    (&["--explain", "--all"], BAD),
    (&["--explain", "--help"], Helps),
    // what isn't the option
    (&["--first-cal", "7"], BAD),
    (&["--First-call", "7"], BAD),
    (&["--first-calls", "7"], BAD),
    (&["-7"], BAD),
    // FILE
    (&["a", "b"], BAD),
    (&["-"], RunsFile(1, "-")),
    (&[""], RunsFile(1, "")),
    (&["help"], RunsFile(1, "help")),
    (&["--"], Runs(1)),
    (&["--", "s"], RunsFile(1, "s")),
    (&["--", "--help"], RunsFile(1, "--help")),
    (&["--first-call", "7", "--", "-x"], RunsFile(7, "-x")),
    (&["--", "a", "b"], BAD),
];

/// The same of the limits of the kernel and of the version.
const WORDS_OF_LIMITS: &[(&[&str], Asked)] = &[
    // the limits of the kernel, each in its range (RULES.md, "Records")
    (&["--file-max", "4096"], RunsIn(SHORT_FILES)),
    (&["--file-max=16777216"], Runs(1)),
    (&["--file-max", "16777217"], BAD),
    (&["--names-max", "18446744073709551615"], Runs(1)),
    (&["--names-max", "18446744073709551616"], BAD),
    (&["--waiting-max", "x"], BAD),
    (&["--waiting-of-each", "18446744073709551615"], Runs(1)),
    (&["--waiting-of-each"], BAD),
    (&["--capacity-max", "1048576"], Runs(1)),
    (&["--capacity-max", "1048577"], BAD),
    (&["--capacity-max"], BAD),
    (&["--descriptors-max", "256"], Runs(1)),
    (&["--descriptors-max", "65537"], BAD),
    (&["--descriptors-max", "4294967299"], BAD),
    (&["--descriptions-max", "4096"], Runs(1)),
    (&["--descriptions-max", "1048577"], BAD),
    (&["--descriptions-max", "-1"], BAD),
    (&["--processes-max", "1024"], Runs(1)),
    (&["--processes-max", "65537"], BAD),
    (&["--processes-max"], BAD),
    (&["--processes-max=4", "--processes-max=4"], BAD),
    (
        &[
            "--processes-max=65536",
            "--descriptions-max=1048576",
            "--descriptors-max=65536",
        ],
        RunsIn(GREATEST_TABLES),
    ),
    (&["--spare-max", "0"], RunsIn(NOTHING_SPARE)),
    (
        &["--spare-max", "0", "--memory", "65536"],
        RunsIn(NOTHING_SPARE),
    ),
    (&["--spare-max", "18446744073709551616"], BAD),
    (&["--file-max", "1", "--file-max", "1"], BAD),
    (
        &[
            "--spare-max=8191",
            "--processes-max=4",
            "--descriptions-max=6",
            "--descriptors-max=5",
            "--capacity-max=8192",
            "--waiting-of-each=1",
            "--waiting-max=2",
            "--names-max=3",
            "--file-max=0",
            "--first-call=7",
        ],
        RunsIn(ALL_SET),
    ),
    (&["--check", "--file-max", "4096"], ChecksIn(SHORT_FILES)),
    (&["--file-max", "4096", "--live"], LivesIn(SHORT_FILES)),
    // the version
    (&["--version"], Tells),
    (&["-V"], Tells),
    (&["s", "--version"], Tells),
    (&["--file-max", "x", "-V"], Tells),
    (&["-v"], BAD),
    (&["--version=1"], BAD),
];

/// The words as the command line gives them.
pub(crate) fn strings(alloc: Global, given: &[&str]) -> Result<Vec<String>, Fail> {
    let mut strings = Vec::new(alloc);
    for word in given {
        strings.push(String::from_str(alloc, word)?)?;
    }
    Ok(strings)
}

/// The limits where the number of the first call alone is set.
fn from_call(first_call: u64) -> Limits {
    Limits {
        first_call,
        ..LIMITS
    }
}

/// The same where the run may hold so many bytes.
fn from_call_within(first_call: u64, memory: u64) -> Limits {
    Limits {
        spare_max: (memory / 16).min(16_777_216),
        ..from_call(first_call)
    }
}

/// Whether this live run is asked for.
fn is_live(live: &LiveChoice, asked: Asked) -> bool {
    match asked {
        LivesOn(strict, n, memory) => {
            live.strict == strict
                && !live.explain
                && live.limits == from_call_within(n, memory.unwrap_or(u64::MAX))
                && live.memory == memory
                && live.file.is_none()
        }
        LivesOnFile(strict, n, name) => {
            live.strict == strict
                && live.limits == from_call(n)
                && live.memory.is_none()
                && live.file.as_deref() == Some(name)
        }
        LivesIn(limits) => !live.strict && live.limits == limits,
        LivesExplained => live.explain && !live.strict && live.limits == LIMITS,
        _ => false,
    }
}

fn is_so(choice: &Result<Choice, Fault>, asked: Asked) -> bool {
    match (choice, asked) {
        (
            Ok(
                Choice::Run {
                    explain,
                    limits,
                    memory,
                    file,
                },
            ),
            wanted,
        ) => match wanted {
            RunsExplained => *explain && *limits == LIMITS && file.is_none(),
            Runs(n) => {
                !*explain && *limits == from_call(n) && memory.is_none() && file.is_none()
            }
            RunsFile(n, name) => {
                *limits == from_call(n) && memory.is_none() && file.as_deref() == Some(name)
            }
            RunsWithin(n, most) => {
                *limits == from_call_within(n, most) && *memory == Some(most) && file.is_none()
            }
            RunsIn(wanted) => *limits == wanted,
            _ => false,
        },
        (
            Ok(
                Choice::Check {
                    all,
                    explain,
                    limits,
                    memory: None,
                    file,
                },
            ),
            wanted,
        ) => match wanted {
            ChecksExplained => *explain && !*all && *limits == LIMITS && file.is_none(),
            Checks(every, n) => {
                !*explain && *all == every && *limits == from_call(n) && file.is_none()
            }
            ChecksFile(every, n, name) => {
                *all == every && *limits == from_call(n) && file.as_deref() == Some(name)
            }
            ChecksIn(wanted) => !*all && *limits == wanted,
            _ => false,
        },
        (Ok(Choice::Live(live)), wanted) => is_live(live, wanted),
        (Ok(Choice::Help), Helps) => true,
        (Ok(Choice::Version), Tells) => true,
        (Err(fault), Fails(wanted)) => *fault == wanted,
        _ => false,
    }
}

/// Whether each row of a table is read as it says.
fn are_so<R: AllocGlobal + Abort>(rt: &R, rows: &[(&[&str], Asked)]) -> Result<(), Fail> {
    let mut row = 0usize;
    for (given, asked) in rows {
        let strings = strings(rt.alloc(), given)?;
        let choice = words(rt.alloc(), strings.as_slice());
        is(rt, "the words of a row", row, is_so(&choice, *asked), true);
        row = row.saturating_add(1);
    }
    Ok(())
}

#[test]
fn what_words_ask_for(rt: HostRuntime) -> Result<(), Fail> {
    are_so(&rt, WORDS)
}

#[test]
fn what_words_of_limits_ask_for(rt: HostRuntime) -> Result<(), Fail> {
    are_so(&rt, WORDS_OF_LIMITS)
}
