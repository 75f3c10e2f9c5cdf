//! The program: what the words of its command line ask for, from one stream to another, and its fault to a third.
ghost use Rattle.std.specs.Prelude.{◌≡◌, ◌<◌, ◌≤◌, ◌↔◌, ◌⊎◌, ℕ, List, Bool, Option, map, string_bytes, true, false, not, if◌then◌else◌, Ok, Some, None, OnOk, IfOk, IfSome, IfErr, IsErrOf};
ghost use Rattle.std.specs.Io.KnownBytes.{Appends};
ghost use Rattle.pl_model.specs.declared.calls.Limits.{Limits};
ghost use Rattle.pl_model.specs.Numbers.{most_reads, most_file_bytes};
ghost use Rattle.pl_script.specs.Streams.{WritesFront};
ghost use Rattle.pl_script.specs.Talk.{Talk, WasSaid};
ghost use Rattle.pl_run.specs.Fault.{status_of, line_of, explained_by, WritesLine};
ghost use Rattle.pl_run.specs.Program.{IsRunWithin, IsCheckedWithin, IsLiveWithin, IsLeft, as_done, line_of_same, version_line, ends_with};
ghost use Rattle.pl_run.specs.Words.{AskOfInput, AskForInput, AskForCheck, AskForLive, Chooses};
ghost use Rattle.pl_run.specs.declared.choice.Choice.TheVariants.{Live};
ghost use Rattle.pl_run.specs.declared.fault.Fault.TheVariants.{CannotRead, CannotWrite, CommandLine, NoMemory};

use crate::choice::{Choice, LiveChoice, words};
use crate::fault::{Fault, status, write_fault};
use crate::help::HELP;
use crate::terminal::Terminal;
use crate::version::VERSION;
use itoa::Buffer;
use pl_budget::Budget;
use pl_model::Limits;
use pl_script::{
    Explanation, Peer, Reads, ScriptFault, Sink, Source, Writes, check_script_explained,
    run_live_explained, run_script_explained, write_whole,
};
use std::alloc::Global;
use std::env::{self, Env};
use std::fs::{File, Files};
use std::io::{ErrorKind, Read, Write};

/// The fault, and what is wrong with a bad line if that is to be told.
fn explained(explain: bool, fault: Fault, why: Option<Explanation>) -> Fault
    ensures { result ≡ explained_by (if explain then why else None) fault }
{
    fault.explained_by(if explain { why } else { None })
}

/// Runs the script that the reader gives, within the limits and so many bytes of memory. All that the run holds counts: the script, the
/// kernel, and the output that isn't written yet. With `explain` the fault of a bad line tells what is wrong with it.
fn run_from<S: Source, T: Sink>(
    alloc: Global,
    explain: bool,
    limits: Limits,
    memory: Option<u64>,
    reader: &mut S,
    writer: &mut T,
) -> Result<(), Fault>
    requires reads { most_reads ≤ S.reads_left reader.old }
    requires most { limits.file_max ≤ most_file_bytes }
    ensures run { IfSome (S.remaining reader.old) (λ script.
        (written : List ℕ) × Appends (T.contents writer.old) (T.contents writer.new) written
        × IsRunWithin explain limits script result written) }
    ensures known { IsErrOf result CommandLine → ⊥ }
    ensures read { S.has_failed reader.old ≡ false →
        (IsErrOf result CannotRead ↔ (S.has_failed reader.new ≡ true)) }
    ensures write { T.has_stopped writer.old ≡ false →
        (IsErrOf result CannotWrite ↔ (T.has_stopped writer.new ≡ true)) }
{
    let budget = Budget::new(alloc, memory.unwrap_or(u64::MAX));
    let mut why = None;
    match run_script_explained(&budget, reader, writer, limits, &mut why) {
        Ok(_) => Ok(()),
        Err(fault) => Err(explained(explain, fault.into(), why)),
    }
}

/// Writes the line that of so many replies none differs, as far as the writer takes it.
fn write_same<T: Sink>(writer: &mut T, compared: u32) -> Result<(), ScriptFault>
    ensures front { WritesFront (T.contents writer.old) (T.contents writer.new) result (line_of_same compared) }
    ensures kept { OnOk result (T.has_stopped writer.new ≡ T.has_stopped writer.old) }
    ensures stopped { IfErr result (λ e. (e ≡ ScriptFault.Write) × (T.has_stopped writer.new ≡ true)) }
{
    write_whole(writer, Buffer::new().format(compared).as_bytes())?;
    write_whole(writer, b" replies as recorded\n")
}

/// Checks the record that the reader gives, within the limits, where its header names no others, and so many bytes of memory. Writes the
/// differences that are to be told, or the line that there is none. A script that expects no reply is a fault. With `explain` the fault of a bad line tells what is wrong with it.
fn check_from<S: Source, T: Sink>(
    alloc: Global,
    all: bool,
    explain: bool,
    limits: Limits,
    memory: Option<u64>,
    reader: &mut S,
    writer: &mut T,
) -> Result<(), Fault>
    requires reads { most_reads ≤ S.reads_left reader.old }
    requires most { limits.file_max ≤ most_file_bytes }
    ensures check { IfSome (S.remaining reader.old) (λ script.
        (written : List ℕ) × Appends (T.contents writer.old) (T.contents writer.new) written
        × IsCheckedWithin all explain limits script result written) }
    ensures known { IsErrOf result CommandLine → ⊥ }
    ensures read { S.has_failed reader.old ≡ false →
        (IsErrOf result CannotRead ↔ (S.has_failed reader.new ≡ true)) }
    ensures write { T.has_stopped writer.old ≡ false →
        (IsErrOf result CannotWrite ↔ (T.has_stopped writer.new ≡ true)) }
{
    let budget = Budget::new(alloc, memory.unwrap_or(u64::MAX));
    let mut why = None;
    let checked = match check_script_explained(&budget, reader, writer, limits, all, &mut why) {
        Ok(checked) => checked,
        Err(fault) => return Err(explained(explain, fault.into(), why)),
    };
    if checked.different > 0 {
        return Err(Fault::Differs(checked.different, checked.compared));
    }
    if checked.compared == 0 {
        return Err(Fault::NothingExpected);
    }
    write_same(writer, checked.compared)?;
    Ok(())
}

/// Runs the lines that the far end says as they come, within the limits and so many bytes of memory: the kernel, the line that is read, and
/// the answers that aren't written yet. A bad line is answered `bad line` and refused; a strict run ends there, behind the answers to the
/// lines before. `limits.file_max` is at most 16,777,216.
///
/// # Errors
///
/// Before each of them the answers to the lines before were written and flushed, if the fault isn't `CannotWrite`.
///
/// - `CannotRead` where a read failed.
/// - `CannotWrite` exactly where a write failed or took no byte, or a flush failed.
/// - `BadLine(n, why)` where the run is strict, and line `n`, counted from 1, is the first bad one. With `explain` it tells what is wrong
///   with it.
/// - `BadLines(n)` where the run isn't strict, came to the end of the lines, and refused `n` of them, which isn't 0.
/// - `Endless` where 2^47 reads all gave bytes.
/// - `NoMemory` where there was none for a line or its answer.
pub fn live_from<P: Peer>(
    alloc: Global,
    limits: Limits,
    memory: Option<u64>,
    strict: bool,
    explain: bool,
    peer: &mut P,
) -> Result<(), Fault>
    requires { limits.file_max ≤ most_file_bytes }
    ensures run { (t : Talk) × WasSaid (P.side peer.old) (P.side peer.new) t × IsLiveWithin strict explain limits result t }
    ensures known { IsErrOf result CommandLine → ⊥ }
    ensures read { P.cannot_read peer.old ≡ false → IsErrOf result CannotRead → P.cannot_read peer.new ≡ true }
    ensures write { P.cannot_write peer.old ≡ false →
        (IsErrOf result CannotWrite ↔ (P.cannot_write peer.new ≡ true)) }
{
    let budget = Budget::new(alloc, memory.unwrap_or(u64::MAX));
    let mut why = None;
    let counted = match run_live_explained(&budget, peer, limits, strict, &mut why) {
        Ok(counted) => counted,
        Err(fault) => return Err(explained(explain, fault.into(), why)),
    };
    if counted.bad > 0 {
        return Err(Fault::BadLines(counted.bad));
    }
    Ok(())
}

/// Opens the file of a script to be read.
fn open<R: Files>(rt: &R, path: &str) -> Result<R::File, Fault>
    ensures { IfErr result (λ fault. (fault ≡ CannotRead) ⊎ (fault ≡ NoMemory)) }
{
    File::open(rt, path).map_err(|error| match error.kind() {
        ErrorKind::OutOfMemory => Fault::NoMemory,
        _ => Fault::CannotRead,
    })
}

/// Writes the line of the version, as far as the writer takes it.
fn write_version<T: Sink>(writer: &mut T) -> Result<(), ScriptFault>
    ensures front { WritesFront (T.contents writer.old) (T.contents writer.new) result version_line }
    ensures kept { OnOk result (T.has_stopped writer.new ≡ T.has_stopped writer.old) }
    ensures stopped { IfErr result (λ e. (e ≡ ScriptFault.Write) × (T.has_stopped writer.new ≡ true)) }
{
    write_whole(writer, b"piperun ")?;
    write_whole(writer, VERSION.as_bytes())?;
    write_whole(writer, b"\n")
}

/// Does what the words ask for: runs the script of FILE, or of the input where there is no FILE, or checks it as a record, or writes the
/// help text or the version. If they ask for a live run, it does nothing, and answers the run that is left to do.
///
/// # Errors
///
/// Those of `words`, and then nothing was read or written; `CannotRead` where FILE can't be opened; `CannotWrite` where the
/// help text, the version, or the line that nothing differs can't be written; `Differs` where a check found that replies differ, and
/// `NothingExpected` where it found no expectation; else those of
/// `run_script` and of `check_script`.
pub fn run<R: Files + AllocGlobal, S: Source, T: Sink>(
    rt: &R,
    given: &[String],
    input: &mut S,
    output: &mut T,
) -> Result<Option<LiveChoice>, Fault>
    requires reads { most_reads ≤ S.reads_left input.old }

    // Where the words ask for a run of the script of the input, within these limits.
    ensures run { (explain : Bool) → (limits : Limits) → (bytes : Option ℕ) → AskForInput (map string_bytes given.now) explain limits bytes → IfSome (S.remaining input.old) (λ script.
        (written : List ℕ) × Appends (T.contents output.old) (T.contents output.new) written
        × IsRunWithin explain limits script (as_done result) written) }

    // Where they ask for a check of the record of the input.
    ensures check { (all explain : Bool) → (limits : Limits) → (bytes : Option ℕ) → AskForCheck (map string_bytes given.now) all explain limits bytes → IfSome (S.remaining input.old) (λ script.
        (written : List ℕ) × Appends (T.contents output.old) (T.contents output.new) written
        × IsCheckedWithin all explain limits script (as_done result) written) }

    // Where they ask for a live run of the input.
    ensures live { (strict explain : Bool) → (limits : Limits) → (bytes : Option ℕ) → AskForLive (map string_bytes given.now) strict explain limits bytes →
        IsLeft strict explain limits bytes result }

    // Where a live run is left to do.
    ensures left { IfOk result (λ left. IfSome left (λ asked.
        Chooses (map string_bytes given.now) (Ok (Live asked)) × (input.new ≡ input.old) × (output.new ≡ output.old))) }

    // Where they give no FILE.
    ensures read { (limits : Limits) → (bytes : Option ℕ) → AskOfInput (map string_bytes given.now) limits bytes → S.has_failed input.old ≡ false →
        (IsErrOf result CannotRead ↔ (S.has_failed input.new ≡ true)) }

    // Whatever they ask for.
    ensures words { IsErrOf result CommandLine → (input.new ≡ input.old) × (output.new ≡ output.old) }
    ensures write { T.has_stopped output.old ≡ false →
        (IsErrOf result CannotWrite ↔ (T.has_stopped output.new ≡ true)) }
{
    match words(rt.alloc(), given)? {
        Choice::Live(live) => Ok(Some(live)),
        Choice::Help => {
            write_whole(output, HELP.as_bytes())?;
            Ok(None)
        }
        Choice::Version => {
            write_version(output)?;
            Ok(None)
        }
        Choice::Run {
            explain,
            limits,
            memory,
            file: None,
        } => {
            run_from(rt.alloc(), explain, limits, memory, input, output)?;
            Ok(None)
        }
        Choice::Run {
            explain,
            limits,
            memory,
            file: Some(path),
        } => {
            let mut reader = Reads::of_script(open(rt, path.as_str())?);
            run_from(rt.alloc(), explain, limits, memory, &mut reader, output)?;
            Ok(None)
        }
        Choice::Check {
            all,
            explain,
            limits,
            memory,
            file: None,
        } => {
            check_from(rt.alloc(), all, explain, limits, memory, input, output)?;
            Ok(None)
        }
        Choice::Check {
            all,
            explain,
            limits,
            memory,
            file: Some(path),
        } => {
            let mut reader = Reads::of_script(open(rt, path.as_str())?);
            check_from(
                rt.alloc(),
                all,
                explain,
                limits,
                memory,
                &mut reader,
                output,
            )?;
            Ok(None)
        }
    }
}

/// The status to end with after a run that came to this: 0, or the fault's, whose line is written.
pub fn end<T: Sink>(errors: &mut T, ended: Result<(), Fault>) -> u8
    ensures status { result ≡ ends_with ended }
    ensures silent { OnOk ended (errors.new ≡ errors.old) }
    ensures line { T.has_stopped errors.old ≡ false → IfErr ended (λ fault.
        WritesLine (not (T.has_stopped errors.new)) (T.contents errors.old) (T.contents errors.new) (line_of fault)) }
{
    match ended {
        Ok(()) => 0,
        Err(fault) => {
            // Where the line can't be written, the status alone tells.
            let _told = write_fault(errors, &fault);
            status(&fault)
        }
    }
}

/// The words of the command line, without the program's own name.
fn given_words<R: Env + AllocGlobal>(rt: &R) -> Result<Vec<String>, Fault> {
    let args = match env::args(rt) {
        Ok(args) => args,
        Err(e) if e.kind() == ErrorKind::OutOfMemory => return Err(Fault::NoMemory),
        // A word that isn't text.
        Err(_) => return Err(Fault::CommandLine),
    };
    Ok(args.skip(1).collect(rt.alloc())?)
}

/// Does the live run that is left to do, over FILE or the input, the output and the errors.
fn run_left<R: Files + AllocGlobal, I: Read + Drop, O: Write + Drop, E: Write + Drop>(
    rt: &R,
    asked: LiveChoice,
    input: I,
    output: O,
    errors: E,
) -> Result<(), Fault>
    requires { asked.limits.file_max ≤ most_file_bytes }
{
    let LiveChoice {
        strict,
        explain,
        limits,
        memory,
        file,
    } = asked;
    let Some(path) = file else {
        let mut peer = Terminal::new(input, output, errors, explain);
        return live_from(rt.alloc(), limits, memory, strict, explain, &mut peer);
    };
    let mut peer = Terminal::new(open(rt, path.as_str())?, output, errors, explain);
    live_from(rt.alloc(), limits, memory, strict, explain, &mut peer)
}

/// Does what the words of the command line ask for.
fn run_words<R: Env + Files + AllocGlobal, I: Read + Drop, O: Write + Drop, E: Write + Drop>(
    rt: &R,
    mut input: I,
    mut output: O,
    errors: E,
) -> Result<(), Fault> {
    let given = given_words(rt)?;
    let mut reader = Reads::of_script(&mut input);
    let mut writer = Writes::new(&mut output);
    match run(rt, given.as_slice(), &mut reader, &mut writer)? {
        Some(live) => run_left(rt, live, input, output, errors),
        None => Ok(()),
    }
}

/// The whole program: does what the words of the command line ask for, and prints the output, or the line of its fault to
/// `errors`. Answers the status to end with.
pub fn run_program<R: Env + Files + AllocGlobal, I: Read + Drop, O: Write + Drop, E: Write + Drop>(
    rt: &R,
    input: I,
    output: O,
    mut errors: E,
) -> u8 {
    let ended = run_words(rt, input, output, &mut errors);
    end(&mut Writes::new(errors), ended)
}
