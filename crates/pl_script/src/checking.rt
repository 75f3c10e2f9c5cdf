//! A record, checked: its lines are run, and what they are answered is compared with what its comments expect.
ghost use Rattle.std.specs.Prelude.{◌≡◌, ◌+◌, ◌<◌, ◌≤◌, ◌++◌, ◌∷◌, ◌↔◌, ◌⊎◌, ℕ, List, [], length, true, false, string_bytes, IfSome, IsErrOf, MatchResult};
ghost use Rattle.std.specs.Io.KnownBytes.{Appends};
ghost use Rattle.pl_model.specs.declared.calls.Limits.{Limits};
ghost use Rattle.pl_model.specs.Numbered.{opening};
ghost use Rattle.pl_model.specs.Script.{version_of};
ghost use Rattle.pl_model.specs.Numbers.{most_file_bytes, most_script_bytes, most_reads};
ghost use Rattle.pl_state.specs.Makes.{Stands};
ghost use Rattle.pl_script.specs.Checked.{IsCheck, IsCheckedToEnd, counts_of};
ghost use Rattle.pl_script.specs.Explaining.{IsExplained};
ghost use Rattle.pl_script.specs.Header.{limits_of_header, IsCheckWithin};
ghost use Rattle.pl_script.specs.Comparing.{text_of, IsDone, IsChecking, IsStopped, Ends, with_counts};
ghost use Rattle.pl_script.specs.Running.{WritingEnds};

use crate::comparing::{Checked, compare, expected, text_of};
use crate::explaining::explain;
use crate::fault::ScriptFault;
use crate::header::header_limits;
use crate::misspelt::first_misspelt;
use crate::reading::read_script;
use crate::running::{WAITING, answer_line, header_lines, refusal_of_line};
use crate::streams::{Sink, Source};
use crate::writing::write_whole;
use pl_kernel::Kernel;
use pl_lines::{Explanation, LineFault, next_line, parse_line_of, push_line, split_version};
use pl_model::{Limits, Outcome, Version};
use std::alloc::Allocator;

/// Does what a line asks, and holds the line of its answer in the place of the last one; tells whether the line asks something. One
/// that asks nothing leaves the last answer. Where there is no memory, the step may have been made.
fn answer_if_asked<A: Allocator + Copy>(
    alloc: A,
    version: Version,
    kernel: &mut Kernel<A>,
    last: &mut String<A>,
    line: &[u8],
) -> Result<bool, LineFault>
    ensures { MatchResult result
        (λ asks. IsDone {A = A} version (Stands kernel.old) (Stands kernel.new) line.now asks (text_of (string_bytes last.old)) (text_of (string_bytes last.new)))
        (IsStopped A version line.now) }
{
    if let Some(refusal) = refusal_of_line(kernel, version, line) {
        last.clear();
        push_line(version, last, &Outcome::Replied(refusal))?;
        return Ok(true);
    }
    let Some(asked) = parse_line_of(alloc, version, line)? else {
        return Ok(false);
    };
    last.clear();
    answer_line(version, kernel, last, asked)?;
    Ok(true)
}

/// Checks the line of this number: answers it if it asks something, and else compares the text that it expects, if any, with the last
/// answer. Where it ends at this line, nothing is told of it, and it isn't counted.
fn check_line<A: Allocator + Copy>(
    alloc: A,
    version: Version,
    number: u32,
    all: bool,
    kernel: &mut Kernel<A>,
    last: &mut String<A>,
    out: &mut Vec<u8, A>,
    checked: &mut Checked,
    line: &[u8],
) -> Result<(), LineFault>
    requires few { checked.old.compared < most_script_bytes }
    requires fewer { checked.old.different ≤ checked.old.compared }
    ensures { (script front : List ℕ) (limits : Limits) (rest : List (List ℕ)) →
        version_of script ≡ version →
        IsChecking {A = A} all script limits (Stands kernel.old) (text_of (string_bytes last.old)) (front ++ out.old.items) checked.old number (line.now ∷ rest) →
        MatchResult result
        (λ _. IsChecking {A = A} all script limits (Stands kernel.new) (text_of (string_bytes last.new)) (front ++ out.new.items) checked.new (number + 1) rest)
        (Ends A version line.now checked.old checked.new out.old.items out.new.items) }
{
    let asks = answer_if_asked(alloc, version, kernel, last, line)?;
    if asks {
        return Ok(());
    }
    let Some(expects) = expected(line) else {
        return Ok(());
    };
    let answered = text_of(last.as_bytes());
    compare(all, number, expects, answered, out, checked)?;
    Ok(())
}

/// Checks the lines of a script on a kernel, a last answer and an output that are new, by the version that the first line names. Where
/// it ends at a line, for which there was no memory or which is bad, what is told of the lines before it was written.
fn check_each<A: Allocator + Copy, T: Sink>(
    alloc: A,
    all: bool,
    kernel: &mut Kernel<A>,
    last: &mut String<A>,
    out: &mut Vec<u8, A>,
    checked: &mut Checked,
    script: &[u8],
    writer: &mut T,
) -> Result<(), ScriptFault>
    requires stands { (limits : Limits) × Stands kernel.old (opening {A = A} limits) }
    requires nothing { string_bytes last.old ≡ [] }
    requires empty { out.old.items ≡ [] }
    requires none { checked.old ≡ counts_of [] }
    requires short { length script.now ≤ most_script_bytes }
    ensures run { (limits : Limits) → Stands kernel.old (opening {A = A} limits) →
        (written : List ℕ) × Appends (T.contents writer.old) (T.contents writer.new) written
        × IsCheck A all script.now limits (with_counts result checked.new) written }
    ensures ends { WritingEnds (T.has_stopped writer.old) (T.has_stopped writer.new) result }
{
    let (version, mut rest) = split_version(script);
    let mut number = header_lines(version) + 1;
    while !rest.is_empty() {
        let (line, after) = next_line(rest);
        if let Err(fault) = check_line(
            alloc, version, number, all, kernel, last, out, checked, line,
        ) {
            write_whole(writer, out.as_slice())?;
            return Err(match fault {
                LineFault::Bad => ScriptFault::BadLine(number),
                LineFault::NoMemory => ScriptFault::NoMemory,
            });
        }
        number += 1;
        rest = after;
        if out.len() >= WAITING {
            write_whole(writer, out.as_slice())?;
            out.clear();
        }
    }
    write_whole(writer, out.as_slice())?;
    Ok(())
}

/// Checks a script that was read, on a new kernel, and counts what it compares.
fn check_lines<A: Allocator + Copy, T: Sink>(
    alloc: A,
    all: bool,
    script: &[u8],
    writer: &mut T,
    limits: Limits,
    checked: &mut Checked,
) -> Result<(), ScriptFault>
    requires short { length script.now ≤ most_script_bytes }
    requires most { limits.file_max ≤ most_file_bytes }
    requires none { checked.old ≡ counts_of [] }
    ensures run { (written : List ℕ) × Appends (T.contents writer.old) (T.contents writer.new) written
        × IsCheck A all script.now limits (with_counts result checked.new) written }
    ensures ends { WritingEnds (T.has_stopped writer.old) (T.has_stopped writer.new) result }
{
    let mut kernel = Kernel::new(alloc, limits);
    let mut last = String::new(alloc);
    let mut out = Vec::new(alloc);
    check_each(
        alloc,
        all,
        &mut kernel,
        &mut last,
        &mut out,
        checked,
        script,
        writer,
    )
}

/// Checks a record that was read, on a new kernel, within the limits that it names. Where a line only looks as if it expected a text, it
/// runs nothing.
fn check_whole<A: Allocator + Copy, T: Sink>(
    alloc: A,
    all: bool,
    script: &[u8],
    writer: &mut T,
    limits: Limits,
) -> Result<Checked, ScriptFault>
    requires short { length script.now ≤ most_script_bytes }
    requires most { limits.file_max ≤ most_file_bytes }
    ensures run { (written : List ℕ) × Appends (T.contents writer.old) (T.contents writer.new) written
        × IsCheckWithin A all (limits_of_header limits script.now) script.now result written }
    ensures ends { WritingEnds (T.has_stopped writer.old) (T.has_stopped writer.new) result }
{
    let named = header_limits(script, limits)?;
    if let Some(number) = first_misspelt(script) {
        return Err(ScriptFault::BadLine(number));
    }
    let mut checked = Checked {
        compared: 0,
        different: 0,
    };
    check_lines(alloc, all, script, writer, named, &mut checked)?;
    Ok(checked)
}

/// Does what `check_script` does. Where it ends at a bad line, it also tells what is wrong with it, in `why`, if that is known; else what
/// `why` holds stays. Of a line that names limits wrongly, which is a comment, nothing is known.
///
/// # Errors
///
/// Those of `check_script`.
pub fn check_script_explained<A: Allocator + Copy, S: Source, T: Sink>(
    alloc: A,
    reader: &mut S,
    writer: &mut T,
    limits: Limits,
    all: bool,
    why: &mut Option<Explanation>,
) -> Result<Checked, ScriptFault>
    requires reads { most_reads ≤ S.reads_left reader.old }
    requires most { limits.file_max ≤ most_file_bytes }

    // Where the reader tells its bytes: what was written is what is told of the record, or as much of it as the fault says.
    ensures run { IfSome (S.remaining reader.old) (λ script.
        (written : List ℕ) × Appends (T.contents writer.old) (T.contents writer.new) written
        × IsCheckWithin A all (limits_of_header limits script) script result written) }
    ensures end { IsCheckedToEnd result (S.remaining reader.new) }
    ensures reads { S.reads_left reader.old ≤ S.reads_left reader.new + most_reads }

    // Where no read had failed, and the writer hadn't stopped, before.
    ensures read { S.has_failed reader.old ≡ false →
        (IsErrOf result ScriptFault.Read ↔ (S.has_failed reader.new ≡ true)) }
    ensures write { T.has_stopped writer.old ≡ false →
        (IsErrOf result ScriptFault.Write ↔ (T.has_stopped writer.new ≡ true)) }

    // Also where the writer doesn't tell what it holds.
    ensures untouched { IsErrOf result ScriptFault.Read ⊎ IsErrOf result ScriptFault.TooLong →
        writer.new ≡ writer.old }

    // Where the reader tells its bytes.
    ensures why { IfSome (S.remaining reader.old) (λ script. IsExplained script result why.old why.new) }
{
    let script = read_script(alloc, reader)?;
    let ended = check_whole(alloc, all, script.as_slice(), writer, limits);
    explain(script.as_slice(), &ended, why);
    ended
}

/// Reads a record to its end, runs its lines on a new kernel, and compares what they are answered with what its comments expect. A
/// comment `# => TEXT` expects that TEXT is what the last line before it that asks something is answered, as its version prints it. It
/// expects nothing else of a script: one without such comments differs nowhere.
///
/// For each difference, or for the first alone unless `all`, it writes three lines: `line N`, with the number of the comment, counted
/// from 1, `expected TEXT` and `answered TEXT`. Before the first line that asks something the text that was answered is empty. Answers
/// how many texts it compared, and how many differ, whether they were told or not.
///
/// The limits of the run are those given, with those that the record names (`header_limits`).
///
/// The reader is asked at most `MAX_READS` times. The record is held whole; what is written is not, and goes out in pieces of
/// 65,536 bytes or more. `limits.file_max` is at most 16,777,216.
///
/// # Errors
///
/// - `Read` exactly where a read failed; nothing was written.
/// - `TooLong` where the record has more than `MAX_SCRIPT_BYTES` bytes; nothing was written.
/// - `BadLine(n)` where line `n`, counted from 1, is the first bad one; what is told of the lines before it was written. A line that
///   names limits as `header_limits` can't read them is the first bad one. Else it is the first comment whose words begin with `#` and
///   `=>`, or with `#=>`, and that expects no text. In both cases nothing is run or written.
/// - `Write` exactly where a write failed or took no byte; a front of what is told was written.
/// - `NoMemory` where there was none to hold the record, and then nothing was written; or none for a line of it, its answer or a
///   difference, and then what is told of the lines before it was written. The step of that line may have been made. A step that finds
///   no memory is answered `nomem`, which is compared as any other text.
pub fn check_script<A: Allocator + Copy, S: Source, T: Sink>(
    alloc: A,
    reader: &mut S,
    writer: &mut T,
    limits: Limits,
    all: bool,
) -> Result<Checked, ScriptFault>
    requires reads { most_reads ≤ S.reads_left reader.old }
    requires most { limits.file_max ≤ most_file_bytes }

    // Where the reader tells its bytes: what was written is what is told of the record, or as much of it as the fault says.
    ensures run { IfSome (S.remaining reader.old) (λ script.
        (written : List ℕ) × Appends (T.contents writer.old) (T.contents writer.new) written
        × IsCheckWithin A all (limits_of_header limits script) script result written) }
    ensures end { IsCheckedToEnd result (S.remaining reader.new) }
    ensures reads { S.reads_left reader.old ≤ S.reads_left reader.new + most_reads }

    // Where no read had failed, and the writer hadn't stopped, before.
    ensures read { S.has_failed reader.old ≡ false →
        (IsErrOf result ScriptFault.Read ↔ (S.has_failed reader.new ≡ true)) }
    ensures write { T.has_stopped writer.old ≡ false →
        (IsErrOf result ScriptFault.Write ↔ (T.has_stopped writer.new ≡ true)) }

    // Also where the writer doesn't tell what it holds.
    ensures untouched { IsErrOf result ScriptFault.Read ⊎ IsErrOf result ScriptFault.TooLong →
        writer.new ≡ writer.old }
{
    let mut why = None;
    check_script_explained(alloc, reader, writer, limits, all, &mut why)
}
