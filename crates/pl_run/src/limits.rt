//! The numbers that the options of the command line give.
ghost use Rattle.std.specs.Prelude.{◌≡◌, ◌≤◌, ◌^◌, ◌<◌, IfOk, MatchResult, codes};
ghost use Rattle.clap.specs.Words.{found_of, first_value, one_text};
ghost use Rattle.pl_run.specs.declared.fault.Fault.TheVariants.{CommandLine};
ghost use Rattle.pl_run.specs.Words.{IsLimit, IsNoLimit, AreTableLimits, AreNoTableLimits, AreLimits, AreNoLimits, IsMemory, IsNoNumber, told_of};

use crate::LIMITS;
use crate::fault::Fault;
use clap::ArgMatches;
use pl_model::Limits;
use pl_model::numbers::{MAX_DESCRIPTIONS, MAX_DESCRIPTORS, MAX_PROCESSES, NO_LIMIT};

/// The number that the option of this name gives, at most `most`, and `none` where the option isn't given.
fn limit_of(matches: &ArgMatches, name: &str, most: u64, none: u64) -> Result<u64, Fault>
    requires { none ≤ most }
    ensures said { MatchResult result (IsLimit most none (one_text (found_of matches.now) name.now))
        (λ fault. (fault ≡ CommandLine) × IsNoLimit most (one_text (found_of matches.now) name.now)) }
    ensures most { IfOk result (λ n. n ≤ most) }
{
    match matches.try_get_one::<u64>(name) {
        Ok(Some(n)) if n <= most => Ok(n),
        Ok(None) => Ok(none),
        _ => Err(Fault::CommandLine),
    }
}

/// The usual limits, with those on descriptors, descriptions and processes that the words give.
fn table_limits_of(matches: &ArgMatches) -> Result<Limits, Fault>
    ensures { MatchResult result (AreTableLimits (told_of (one_text (found_of matches.now)) (first_value (found_of matches.now))))
        (λ fault. (fault ≡ CommandLine) × AreNoTableLimits (told_of (one_text (found_of matches.now)) (first_value (found_of matches.now)))) }
{
    let descriptors_max = limit_of(
        matches,
        "descriptors-max",
        MAX_DESCRIPTORS as u64,
        u64::from(LIMITS.descriptors_max),
    )?;
    let descriptions_max = limit_of(
        matches,
        "descriptions-max",
        MAX_DESCRIPTIONS as u64,
        u64::from(LIMITS.descriptions_max),
    )?;
    let processes_max = limit_of(
        matches,
        "processes-max",
        MAX_PROCESSES as u64,
        u64::from(LIMITS.processes_max),
    )?;
    Ok(Limits {
        descriptors_max: descriptors_max as u32,
        descriptions_max: descriptions_max as u32,
        processes_max: processes_max as u32,
        ..LIMITS
    })
}

/// The number of the first call and the limits of the kernel, by the words that the command took; `memory` is the limit on memory that they
/// give.
pub(crate) fn limits_of(matches: &ArgMatches, memory: Option<u64>) -> Result<Limits, Fault>
    requires { IsMemory (one_text (found_of matches.now) (codes "memory")) memory }
    ensures { MatchResult result (AreLimits (told_of (one_text (found_of matches.now)) (first_value (found_of matches.now))))
        (λ fault. (fault ≡ CommandLine) × AreNoLimits (told_of (one_text (found_of matches.now)) (first_value (found_of matches.now)))) }
{
    let most_bytes = u64::from(LIMITS.file_max);
    let most_capacity = u64::from(LIMITS.capacity_max);
    let first_call = limit_of(matches, "first-call", u64::MAX, LIMITS.first_call)?;
    let file_max = limit_of(matches, "file-max", most_bytes, most_bytes)?;
    let names_max = limit_of(matches, "names-max", u64::MAX, LIMITS.names_max)?;
    let waiting_max = limit_of(matches, "waiting-max", u64::MAX, LIMITS.waiting_max)?;
    let waiting_of_each = limit_of(matches, "waiting-of-each", u64::MAX, LIMITS.waiting_of_each)?;
    let capacity_max = limit_of(matches, "capacity-max", most_capacity, most_capacity)?;
    let table_limits = table_limits_of(matches)?;
    let usual_spare = Limits::usual_spare(memory.unwrap_or(NO_LIMIT));
    let spare_max = limit_of(matches, "spare-max", u64::MAX, usual_spare)?;
    Ok(Limits {
        first_call,
        file_max: file_max as u32,
        names_max,
        waiting_max,
        waiting_of_each,
        capacity_max: capacity_max as u32,
        spare_max,
        ..table_limits
    })
}

/// The limit on memory, by these words.
pub(crate) fn memory_of(matches: &ArgMatches) -> Result<Option<u64>, Fault>
    ensures { MatchResult result (IsMemory (one_text (found_of matches.now) (codes "memory")))
        (λ fault. (fault ≡ CommandLine) × IsNoNumber (one_text (found_of matches.now) (codes "memory"))) }
{
    match matches.try_get_one::<u64>("memory") {
        Ok(memory) => Ok(memory),
        Err(_) => Err(Fault::CommandLine),
    }
}
