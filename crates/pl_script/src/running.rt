//! Scripts, run line by line.
ghost use Rattle.std.specs.Prelude.{◌≡◌, ◌+◌, ◌<◌, ◌≤◌, ◌++◌, ◌∷◌, ◌↔◌, ◌⊎◌, ℕ, List, [], length, true, false, string_bytes, OnErr, IfOk, IfSome, IsErrOf, MatchResult};
ghost use Rattle.std.specs.Io.KnownBytes.{Appends};
ghost use Rattle.pl_model.specs.declared.calls.Limits.{Limits};
ghost use Rattle.pl_model.specs.Numbered.{opening};
ghost use Rattle.pl_model.specs.Script.{header_lines, version_of, is_step};
ghost use Rattle.pl_model.specs.Numbers.{most_file_bytes, most_script_bytes, most_reads};
ghost use Rattle.pl_state.specs.Makes.{Stands};
ghost use Rattle.pl_script.specs.Explaining.{IsExplained};
ghost use Rattle.pl_script.specs.LineByLine.{none_counted, IsAnswered, IsRefused, IsAt, Stops};
ghost use Rattle.pl_script.specs.Running.{IsRun, IsCountedRun, IsReadToEnd, WritingEnds};

use crate::explaining::explain;
use crate::fault::ScriptFault;
use crate::reading::read_script;
use crate::streams::{Sink, Source};
use crate::writing::write_whole;
use pl_kernel::{Kernel, NoMemory};
use pl_lines::{
    Explanation, LineFault, next_line, parse_line_of, push_file_line, push_line, repeated_write,
    split_version,
};
use pl_model::{Limits, Line, Name, Outcome, Reply, Step, Totals, Version};
use std::alloc::{AllocError, Allocator};

/// Output is written once so many bytes of it wait.
pub(crate) const WAITING: usize = 65_536;

/// Makes a step and adds the line of its reply; tells whether it found no memory.
fn answer_step<A: Allocator + Copy>(
    version: Version,
    kernel: &mut Kernel<A>,
    out: &mut String<A>,
    step: Step<A>,
) -> Result<bool, AllocError>
    ensures answered { IfOk result (λ mark.
        IsAnswered {A = A} version (Stands kernel.old) (Stands kernel.new) (Line.Do step) mark (string_bytes out.old) (string_bytes out.new)) }
    ensures unanswered { OnErr result (string_bytes out.new ≡ string_bytes out.old) }
{
    match kernel.step(step) {
        Ok(reply) => {
            push_line(version, out, &Outcome::Replied(reply))?;
            Ok(false)
        }
        Err(NoMemory) => {
            push_line(version, out, &Outcome::NoMemory)?;
            Ok(true)
        }
    }
}

/// Adds the line of what the file of a name holds; tells whether there was no memory to read it.
fn answer_file<A: Allocator + Copy>(
    version: Version,
    kernel: &Kernel<A>,
    out: &mut String<A>,
    name: &Name<A>,
) -> Result<bool, AllocError>
    ensures answered { IfOk result (λ mark.
        IsAnswered {A = A} version (Stands kernel.now) (Stands kernel.now) (Line.File name.now) mark (string_bytes out.old) (string_bytes out.new)) }
    ensures unanswered { OnErr result (string_bytes out.new ≡ string_bytes out.old) }
{
    match kernel.file_bytes(name) {
        Ok(Some(bytes)) => {
            push_file_line(version, out, Some(bytes.as_slice()))?;
            Ok(false)
        }
        Ok(None) => {
            push_file_line(version, out, None)?;
            Ok(false)
        }
        Err(NoMemory) => {
            push_line::<A>(version, out, &Outcome::NoMemory)?;
            Ok(true)
        }
    }
}

fn asks_a_step<A: Allocator>(asked: &Line<A>) -> bool
    ensures { result ≡ is_step asked.now }
{
    matches!(asked, Line::Do(_))
}

/// Does what a line asks and adds its line to the output; tells whether it found no memory. Where there is no memory for the
/// line, the step may have been made, and the output is as it was.
pub(crate) fn answer_line<A: Allocator + Copy>(
    version: Version,
    kernel: &mut Kernel<A>,
    out: &mut String<A>,
    asked: Line<A>,
) -> Result<bool, AllocError>
    ensures answered { IfOk result (λ mark.
        IsAnswered {A = A} version (Stands kernel.old) (Stands kernel.new) asked mark (string_bytes out.old) (string_bytes out.new)) }
    ensures unanswered { OnErr result (string_bytes out.new ≡ string_bytes out.old) }
{
    match asked {
        Line::Do(step) => answer_step(version, kernel, out, step),
        Line::File(name) => answer_file(version, kernel, out, &name),
    }
}

/// What a line is answered that writes a byte many times, where the kernel refuses the write and nothing changes. The bytes aren't
/// made: such a line costs what it is long, and not what it would write.
pub(crate) fn refusal_of_line<A: Allocator + Copy>(
    kernel: &Kernel<A>,
    version: Version,
    line: &[u8],
) -> Option<Reply<A>>
    ensures { IfSome result (λ reply. IsRefused {A = A} version (Stands kernel.now) line.now reply) }
{
    let write = repeated_write::<A>(version, line)?;
    kernel.refusal_of_write(write.pid, write.fd, write.count)
}

/// Runs one line: adds its line to the output, if it asks something, and counts it. A line that isn't run isn't counted, and
/// leaves the output as it was.
fn run_line<A: Allocator + Copy>(
    alloc: A,
    version: Version,
    kernel: &mut Kernel<A>,
    out: &mut String<A>,
    totals: &mut Totals,
    line: &[u8],
) -> Result<(), LineFault>
    requires lines { totals.old.lines < most_script_bytes }
    requires steps { totals.old.steps ≤ totals.old.lines }
    requires nomem { totals.old.nomem ≤ totals.old.lines }
    ensures { (script front : List ℕ) (limits : Limits) (rest : List (List ℕ)) →
        version_of script ≡ version →
        IsAt {A = A} script limits (Stands kernel.old) (front ++ string_bytes out.old) totals.old (line.now ∷ rest) →
        MatchResult result
        (λ _. IsAt {A = A} script limits (Stands kernel.new) (front ++ string_bytes out.new) totals.new rest)
        (Stops A version line.now totals.old totals.new (string_bytes out.old) (string_bytes out.new)) }
{
    if let Some(refusal) = refusal_of_line(kernel, version, line) {
        push_line(version, out, &Outcome::Replied(refusal))?;
        totals.lines += 1;
        totals.steps += 1;
        return Ok(());
    }
    let Some(asked) = parse_line_of(alloc, version, line)? else {
        totals.lines += 1;
        return Ok(());
    };
    let is_step = asks_a_step(&asked);
    let found_none = answer_line(version, kernel, out, asked)?;
    totals.lines += 1;
    totals.steps += u32::from(is_step);
    totals.nomem += u32::from(found_none);
    Ok(())
}

/// How many lines of a script name its version: they ask nothing, and count.
pub(crate) fn header_lines(version: Version) -> u32
    ensures exact { result ≡ header_lines version }
    ensures few { result ≤ 1 }
{
    match version {
        Version::One => 0,
        Version::Two => 1,
    }
}

/// Runs the lines of a script on a kernel and an output that are new, by the version that the first line names. It counts the lines
/// that were run, and the one that names the version. Where it ends at a line, for which there was no memory or which is bad, the output
/// of just the lines counted was written.
fn run_each<A: Allocator + Copy, T: Sink>(
    alloc: A,
    kernel: &mut Kernel<A>,
    out: &mut String<A>,
    totals: &mut Totals,
    script: &[u8],
    writer: &mut T,
) -> Result<(), ScriptFault>
    requires stands { (limits : Limits) × Stands kernel.old (opening {A = A} limits) }
    requires nothing { string_bytes out.old ≡ [] }
    requires none { totals.old ≡ none_counted }
    requires short { length script.now ≤ most_script_bytes }
    ensures run { (limits : Limits) → Stands kernel.old (opening {A = A} limits) →
        (written : List ℕ) × Appends (T.contents writer.old) (T.contents writer.new) written
        × IsCountedRun A script.now limits result totals.new written }
    ensures ends { WritingEnds (T.has_stopped writer.old) (T.has_stopped writer.new) result }
{
    let (version, mut rest) = split_version(script);
    totals.lines += header_lines(version);
    while !rest.is_empty() {
        let (line, after) = next_line(rest);
        if let Err(fault) = run_line(alloc, version, kernel, out, totals, line) {
            let answered = out.as_bytes();
            write_whole(writer, answered)?;
            return Err(match fault {
                LineFault::Bad => ScriptFault::BadLine(totals.lines + 1),
                LineFault::NoMemory => ScriptFault::NoMemory,
            });
        }
        rest = after;
        if out.len() >= WAITING {
            write_whole(writer, out.as_bytes())?;
            out.clear();
        }
    }
    write_whole(writer, out.as_bytes())?;
    Ok(())
}

/// Runs a script that was read, on a new kernel, and counts the lines that were run. Where it ends at a line, the output of
/// just the lines counted was written.
fn run_lines<A: Allocator + Copy, T: Sink>(
    alloc: A,
    script: &[u8],
    writer: &mut T,
    limits: Limits,
    totals: &mut Totals,
) -> Result<(), ScriptFault>
    requires short { length script.now ≤ most_script_bytes }
    requires most { limits.file_max ≤ most_file_bytes }
    requires none { totals.old ≡ none_counted }
    ensures run { (written : List ℕ) × Appends (T.contents writer.old) (T.contents writer.new) written
        × IsCountedRun A script.now limits result totals.new written }
    ensures ends { WritingEnds (T.has_stopped writer.old) (T.has_stopped writer.new) result }
{
    let mut kernel = Kernel::new(alloc, limits);
    let mut out = String::new(alloc);
    run_each(alloc, &mut kernel, &mut out, totals, script, writer)
}

/// Runs a script that was read, on a new kernel. Where it ends at a line, the output of just the lines before was written.
fn run_whole<A: Allocator + Copy, T: Sink>(
    alloc: A,
    script: &[u8],
    writer: &mut T,
    limits: Limits,
) -> Result<Totals, ScriptFault>
    requires short { length script.now ≤ most_script_bytes }
    requires most { limits.file_max ≤ most_file_bytes }
    ensures run { (written : List ℕ) × Appends (T.contents writer.old) (T.contents writer.new) written
        × IsRun A script.now limits result written }
    ensures ends { WritingEnds (T.has_stopped writer.old) (T.has_stopped writer.new) result }
{
    let mut totals = Totals {
        lines: 0,
        steps: 0,
        nomem: 0,
    };
    run_lines(alloc, script, writer, limits, &mut totals)?;
    Ok(totals)
}

/// Does what `run_script` does. Where it ends at a bad line, it also tells what is wrong with it, in `why`, if that is known; else what
/// `why` holds stays.
///
/// # Errors
///
/// Those of `run_script`.
pub fn run_script_explained<A: Allocator + Copy, S: Source, T: Sink>(
    alloc: A,
    reader: &mut S,
    writer: &mut T,
    limits: Limits,
    why: &mut Option<Explanation>,
) -> Result<Totals, ScriptFault>
    requires reads { most_reads ≤ S.reads_left reader.old }
    requires most { limits.file_max ≤ most_file_bytes }

    // Where the reader tells its bytes: what was written is the script's output, or as much of it as the fault says.
    ensures run { IfSome (S.remaining reader.old) (λ script.
        (written : List ℕ) × Appends (T.contents writer.old) (T.contents writer.new) written
        × IsRun A script limits result written) }
    ensures end { IsReadToEnd result (S.remaining reader.new) }
    ensures reads { S.reads_left reader.old ≤ S.reads_left reader.new + most_reads }

    // Where no read had failed, and the writer hadn't stopped, before.
    ensures read { S.has_failed reader.old ≡ false →
        (IsErrOf result ScriptFault.Read ↔ (S.has_failed reader.new ≡ true)) }
    ensures write { T.has_stopped writer.old ≡ false →
        (IsErrOf result ScriptFault.Write ↔ (T.has_stopped writer.new ≡ true)) }

    // Also where the writer doesn't tell what it holds.
    ensures untouched { IsErrOf result ScriptFault.Read ⊎ IsErrOf result ScriptFault.TooLong →
        writer.new ≡ writer.old }

    // Where the reader tells its bytes.
    ensures why { IfSome (S.remaining reader.old) (λ script. IsExplained script result why.old why.new) }
{
    let script = read_script(alloc, reader)?;
    let ran = run_whole(alloc, script.as_slice(), writer, limits);
    explain(script.as_slice(), &ran, why);
    ran
}

/// Reads a script to its end, runs it on a new kernel, and writes a line for each step and each line `file` before the first bad
/// one. Answers what it counted.
///
/// A script whose first line is `piperun 2` is of version 2: that line counts, and prints nothing. Every other script is of version 1.
///
/// The reader is asked at most `MAX_READS` times. The script is held whole; the output is not, and is written in pieces of
/// 65,536 bytes or more. `limits.file_max` is at most 16,777,216.
///
/// # Errors
///
/// - `Read` exactly where a read failed; nothing was written.
/// - `TooLong` where the script has more than `MAX_SCRIPT_BYTES` bytes; nothing was written.
/// - `BadLine(n)` where line `n`, counted from 1, is the first bad one; the output of the lines before it was written.
/// - `Write` exactly where a write failed or took no byte; a front of the output was written.
/// - `NoMemory` where there was none to hold the script, and then nothing was written; or none for a line of it or the line's
///   output, and then the output of the lines before it was written. The step of that line may have been made.
pub fn run_script<A: Allocator + Copy, S: Source, T: Sink>(
    alloc: A,
    reader: &mut S,
    writer: &mut T,
    limits: Limits,
) -> Result<Totals, ScriptFault>
    requires reads { most_reads ≤ S.reads_left reader.old }
    requires most { limits.file_max ≤ most_file_bytes }

    // Where the reader tells its bytes: what was written is the script's output, or as much of it as the fault says.
    ensures run { IfSome (S.remaining reader.old) (λ script.
        (written : List ℕ) × Appends (T.contents writer.old) (T.contents writer.new) written
        × IsRun A script limits result written) }
    ensures end { IsReadToEnd result (S.remaining reader.new) }
    ensures reads { S.reads_left reader.old ≤ S.reads_left reader.new + most_reads }

    // Where no read had failed, and the writer hadn't stopped, before.
    ensures read { S.has_failed reader.old ≡ false →
        (IsErrOf result ScriptFault.Read ↔ (S.has_failed reader.new ≡ true)) }
    ensures write { T.has_stopped writer.old ≡ false →
        (IsErrOf result ScriptFault.Write ↔ (T.has_stopped writer.new ≡ true)) }

    // Also where the writer doesn't tell what it holds.
    ensures untouched { IsErrOf result ScriptFault.Read ⊎ IsErrOf result ScriptFault.TooLong →
        writer.new ≡ writer.old }
{
    let mut why = None;
    run_script_explained(alloc, reader, writer, limits, &mut why)
}
