//! The limits that a record names.
ghost use Rattle.std.specs.Prelude.{◌≡◌, ◌≤◌, ◌+◌, Some, None, IfSome, IfOk, MatchResult, option_map, if◌then◌else◌, nat_le};
ghost use Rattle.pl_model.specs.Numbers.{most_file_bytes};
ghost use Rattle.pl_model.specs.Script.{lines, version_of, header_lines};
ghost use Rattle.pl_model.specs.Words.{words};
ghost use Rattle.pl_script.specs.Header.{with_limit, with_limits, header_words, limits_of_lines, limits_of_header};
ghost use Rattle.pl_script.specs.declared.fault.ScriptFault.TheVariants.{BadLine};

use crate::fault::ScriptFault;
use crate::running::header_lines;
use pl_lines::{next_line, split_version};
use pl_model::Limits;
use pl_model::numbers::{
    MAX_CAPACITY, MAX_DESCRIPTIONS, MAX_DESCRIPTORS, MAX_FILE_BYTES, MAX_PROCESSES,
};
use pl_words::{next_word, parse_u64, without_return};

/// The number, as one of 32 bits; `None` where it is above the most.
fn within(n: u64, most: u32) -> Option<u32>
    ensures { result ≡ (if nat_le n most then Some n else None) }
{
    if n <= u64::from(most) {
        Some(n as u32)
    } else {
        None
    }
}

/// The limits with the one that the option names set to this; `None` where no option has this name, or the number is out of its range.
#[tactic(auto, unfolding(crate::specs::Header::with_limit))]
fn with_limit(limits: Limits, option: &[u8], n: u64) -> Option<Limits>
    requires { limits.file_max ≤ most_file_bytes }
    ensures said { result ≡ with_limit limits option.now n }
    ensures most { IfSome result (λ set. set.file_max ≤ most_file_bytes) }
{
    let mut set = limits;
    if option == b"--first-call".as_slice() {
        set.first_call = n;
    } else if option == b"--file-max".as_slice() {
        set.file_max = within(n, MAX_FILE_BYTES)?;
    } else if option == b"--names-max".as_slice() {
        set.names_max = n;
    } else if option == b"--waiting-max".as_slice() {
        set.waiting_max = n;
    } else if option == b"--waiting-of-each".as_slice() {
        set.waiting_of_each = n;
    } else if option == b"--capacity-max".as_slice() {
        set.capacity_max = within(n, MAX_CAPACITY)?;
    } else if option == b"--descriptors-max".as_slice() {
        set.descriptors_max = within(n, MAX_DESCRIPTORS as u32)?;
    } else if option == b"--descriptions-max".as_slice() {
        set.descriptions_max = within(n, MAX_DESCRIPTIONS as u32)?;
    } else if option == b"--processes-max".as_slice() {
        set.processes_max = within(n, MAX_PROCESSES as u32)?;
    } else {
        return None;
    }
    Some(set)
}

/// The limits with those that the words set, each an option and its number; `None` where they say something else.
fn with_limits(limits: Limits, options: &[u8]) -> Option<Limits>
    requires { limits.file_max ≤ most_file_bytes }
    ensures said { result ≡ with_limits limits (words options.now) }
    ensures most { IfSome result (λ set. set.file_max ≤ most_file_bytes) }
{
    let mut set = limits;
    let mut left = options;
    while let Some((option, behind)) = next_word(left) {
        let (word, rest) = next_word(behind)?;
        let Ok(n) = parse_u64(word) else {
            return None;
        };
        set = with_limit(set, option, n)?;
        left = rest;
    }
    Some(set)
}

/// What stands behind `# piperun` in a line; `None` of any other line.
fn header_words(line: &[u8]) -> Option<&[u8]>
    ensures { option_map (λ rest. words rest.now) result ≡ header_words (words line.now) }
{
    let (hash, behind) = next_word(line)?;
    let (program, rest) = next_word(behind)?;
    if hash == b"#".as_slice() && program == b"piperun".as_slice() {
        Some(rest)
    } else {
        None
    }
}

/// The limits with those that the first of these lines sets, if it names any; `None` where it names them wrongly.
fn limits_of_lines(limits: Limits, body: &[u8]) -> Option<Limits>
    requires { limits.file_max ≤ most_file_bytes }
    ensures said { result ≡ limits_of_lines limits (lines body.now) }
    ensures most { IfSome result (λ set. set.file_max ≤ most_file_bytes) }
{
    if body.is_empty() {
        return Some(limits);
    }
    let (first, _) = next_line(body);
    match header_words(without_return(first)) {
        Some(options) => with_limits(limits, options),
        None => Some(limits),
    }
}

/// The limits of a record: those given, with those that its header sets. The header is a comment `# piperun OPTION NUMBER ..`, as the
/// first line, or behind the one that names the version. The options are `--first-call`, `--file-max` up to 16,777,216, `--names-max`,
/// `--waiting-max`, `--capacity-max` up to 1,048,576, `--descriptors-max` up to 65,536, `--descriptions-max` up to 1,048,576,
/// `--processes-max` up to 65,536 and `--waiting-of-each`. Every number is below 2^64, and of an option that stands twice the last counts.
///
/// # Errors
///
/// `BadLine` with the number of that line, exactly where it says something else behind `# piperun`.
pub fn header_limits(script: &[u8], limits: Limits) -> Result<Limits, ScriptFault>
    requires { limits.file_max ≤ most_file_bytes }
    ensures said { MatchResult result (λ set. limits_of_header limits script.now ≡ Some set)
        (λ fault. (limits_of_header limits script.now ≡ None) × (fault ≡ BadLine (header_lines (version_of script.now) + 1))) }
    ensures most { IfOk result (λ set. set.file_max ≤ most_file_bytes) }
{
    let (version, body) = split_version(script);
    match limits_of_lines(limits, body) {
        Some(set) => Ok(set),
        None => Err(ScriptFault::BadLine(header_lines(version) + 1)),
    }
}
