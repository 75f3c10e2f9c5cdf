//! The lines of a live run, one after another.
ghost use Rattle.std.specs.Prelude.{◌≡◌, ◌+◌, ◌<◌, ◌≤◌, ◌^◌, ◌&&◌, ◌==◌, ◌++◌, ◌∷◌, ℕ, List, [], length, true, false, not, string_bytes, OnOk, OnErr, IfOk, MatchResult};
ghost use Rattle.pl_model.specs.declared.calls.Limits.{Limits};
ghost use Rattle.pl_model.specs.Script.{names_version_2, version_of_lines};
ghost use Rattle.pl_model.specs.Numbered.{State, opening};
ghost use Rattle.pl_state.specs.Makes.{Stands};
ghost use Rattle.pl_model.specs.Numbers.{most_file_bytes};
ghost use Rattle.pl_script.specs.Live.{bad_answer, number_unless};
ghost use Rattle.pl_script.specs.LiveText.{IsRunLine, IsNotRun, with_answer};
ghost use Rattle.pl_script.specs.Explaining.{why_of_held};
ghost use Rattle.pl_script.specs.LiveSteps.{IsHeld, IsBehind, IsJudged, IsNewLive};

use crate::running::{answer_line, refusal_of_line};
use pl_kernel::Kernel;
use pl_lines::{Explanation, LineFault, explain_line, names_version_2, parse_line_of, push_line};
use pl_model::{Limits, Outcome, Version};
use std::alloc::{AllocError, Allocator};

/// The most bytes of a line of a live run, without its line feed: a longer one is bad.
pub const MAX_LINE_BYTES: usize = 33_554_500;

/// A live run between two lines, or amid one.
#[derive(Drop)]
pub(crate) struct Live<A: Allocator> {
    pub(crate) kernel: Kernel<A>,
    /// Answers that aren't written yet.
    pub(crate) out: String<A>,
    /// What was read of the next line. Of one that is too long, nothing.
    pub(crate) line: Vec<u8, A>,
    pub(crate) is_too_long: bool,
    /// The version that the first line names, and version 1 before it.
    pub(crate) version: Version,
    /// How many lines were read, and how many of them were bad.
    pub(crate) lines: u64,
    pub(crate) bad: u64,
    /// What is wrong with the last of these, if that is known.
    pub(crate) why: Option<Explanation>,
}

/// A live run before its first line. It takes no memory.
pub(crate) fn new_live<A: Allocator + Copy>(alloc: A, limits: Limits) -> Live<A>
    requires { limits.file_max ≤ most_file_bytes }
    ensures { IsNewLive limits result }
{
    Live {
        kernel: Kernel::new(alloc, limits),
        out: String::new(alloc),
        line: Vec::new(alloc),
        is_too_long: false,
        version: Version::One,
        lines: 0,
        bad: 0,
        why: None,
    }
}

/// Adds bytes to what is held of a line.
pub(crate) fn gather<A: Allocator>(
    line: &mut Vec<u8, A>,
    is_too_long: &mut bool,
    bytes: &[u8],
) -> Result<(), AllocError>
    ensures { (front : List ℕ) → IsHeld is_too_long.old line.old.items front →
        OnOk result (IsHeld is_too_long.new line.new.items (front ++ bytes.now)) }
{
    if *is_too_long {
        return Ok(());
    }
    if bytes.len() > MAX_LINE_BYTES || line.len() + bytes.len() > MAX_LINE_BYTES {
        line.clear();
        *is_too_long = true;
        return Ok(());
    }
    line.extend_from_slice(bytes)?;
    Ok(())
}

/// Whether no byte of a next line was read.
pub(crate) fn holds_none<A: Allocator>(live: &Live<A>) -> bool
    ensures { result ≡ (not live.now.is_too_long && (length live.now.line.items == 0)) }
{
    !live.is_too_long && live.line.as_slice().is_empty()
}

/// Runs one line: adds its line to the output, if it asks something.
fn answer<A: Allocator + Copy>(
    alloc: A,
    version: Version,
    kernel: &mut Kernel<A>,
    out: &mut String<A>,
    line: &[u8],
) -> Result<(), LineFault>
    ensures { MatchResult result
        (λ _. IsRunLine A version (Stands kernel.old) (Stands kernel.new) line.now (string_bytes out.old) (string_bytes out.new))
        (IsNotRun A version (Stands kernel.old) (Stands kernel.new) line.now (string_bytes out.old) (string_bytes out.new)) }
{
    if let Some(refusal) = refusal_of_line(kernel, version, line) {
        push_line(version, out, &Outcome::Replied(refusal))?;
        return Ok(());
    }
    let Some(asked) = parse_line_of(alloc, version, line)? else {
        return Ok(());
    };
    let _found_none = answer_line(version, kernel, out, asked)?;
    Ok(())
}

/// Adds the answer of a bad line. Where there is no memory for it, the output is as it was.
pub(crate) fn push_bad_answer<A: Allocator>(out: &mut String<A>) -> Result<(), AllocError>
    ensures done { OnOk result (string_bytes out.new ≡ string_bytes out.old ++ bad_answer) }
    ensures undone { OnErr result (string_bytes out.new ≡ string_bytes out.old) }
{
    out.push_str("bad line\n")
}

/// Whether the line that is held is the first and names version 2.
fn is_header<A: Allocator>(live: &Live<A>) -> bool
    ensures { result ≡ ((live.now.lines == 0) && names_version_2 live.now.line.items) }
{
    live.lines == 0 && names_version_2(live.line.as_slice())
}

/// Runs the whole line that is held, and tells whether it is good. Of a bad one it keeps what is wrong with it, and changes nothing else.
fn judge<A: Allocator + Copy>(alloc: A, live: &mut Live<A>) -> Result<bool, AllocError>
    ensures judged { (limits : Limits) (front refused : List ℕ) (ls : List (List ℕ)) (line : List ℕ) →
        IsBehind limits live.old (front ++ string_bytes live.old.out) refused ls line → MatchResult result
        (IsJudged limits live.new front ls line)
        (λ _. string_bytes live.new.out ≡ string_bytes live.old.out) }
    ensures silent { IfOk result (λ good. good ≡ false → string_bytes live.new.out ≡ string_bytes live.old.out) }
    ensures lines { live.new.lines ≡ live.old.lines }
    ensures bad { live.new.bad ≡ live.old.bad }
    ensures why { IfOk result (λ good. good ≡ false → live.new.why ≡ why_of_held live.new.version live.old.is_too_long live.old.line.items) }
{
    if live.is_too_long {
        live.why = None;
        return Ok(false);
    }
    if is_header(live) {
        live.version = Version::Two;
        return Ok(true);
    }
    let line = live.line.as_slice();
    match answer(alloc, live.version, &mut live.kernel, &mut live.out, line) {
        Ok(()) => Ok(true),
        Err(LineFault::Bad) => {
            live.why = explain_line(live.version, line);
            Ok(false)
        }
        Err(LineFault::NoMemory) => Err(AllocError),
    }
}

/// Runs the whole line that is held, counts it, and tells whether it is good. Then none is held. A bad line isn't answered yet. Where
/// there is no memory for the line, the output is as it was.
pub(crate) fn take_line<A: Allocator + Copy>(
    alloc: A,
    live: &mut Live<A>,
) -> Result<bool, AllocError>
    requires lines { live.old.lines + 1 < 2 ^ 64 }
    requires bad { live.old.bad ≤ live.old.lines }
    ensures taken { (limits : Limits) (front refused : List ℕ) (ls : List (List ℕ)) (line : List ℕ) →
        IsBehind limits live.old (front ++ string_bytes live.old.out) refused ls line → MatchResult result
        (λ good. IsBehind limits live.new (with_answer good (front ++ string_bytes live.new.out)) (refused ++ number_unless good live.new.lines []) (ls ++ line ∷ []) [])
        (λ _. string_bytes live.new.out ≡ string_bytes live.old.out) }
    ensures silent { IfOk result (λ good. good ≡ false → string_bytes live.new.out ≡ string_bytes live.old.out) }
    ensures lines { OnOk result (live.new.lines ≡ live.old.lines + 1) }
    ensures bad { OnOk result (live.new.bad ≤ live.new.lines) }
    ensures good { IfOk result (λ good. good ≡ true → live.new.bad ≡ live.old.bad) }
    ensures why { IfOk result (λ good. good ≡ false → live.new.why ≡ why_of_held live.new.version live.old.is_too_long live.old.line.items) }
{
    let is_good = judge(alloc, live)?;
    live.line.clear();
    live.is_too_long = false;
    live.lines += 1;
    if !is_good {
        live.bad += 1;
    }
    Ok(is_good)
}
