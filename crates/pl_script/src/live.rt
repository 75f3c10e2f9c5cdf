//! Live runs: lines are answered as they come, and no answer is held back while more input is waited for.
ghost use Rattle.std.specs.Prelude.{◌≡◌, ◌+◌, ◌<◌, ◌≤◌, ◌^◌, ◌++◌, ◌∷◌, ℕ, List, [], length, Bool, true, string_bytes, OnOk, IfErr};
ghost use Rattle.pl_model.specs.declared.calls.Limits.{Limits};
ghost use Rattle.pl_model.specs.Numbers.{most_file_bytes};
ghost use Rattle.pl_script.specs.Talk.{Talk, Side, WasSaid};
ghost use Rattle.pl_script.specs.Live.{IsLiveRun};
ghost use Rattle.pl_script.specs.Explaining.{IsWhyOf, HandsOutWhy, IsExplainedLive};
ghost use Rattle.pl_script.specs.LiveSteps.{IsAmid, IsUnderway, IsEnding, GoesOnOrEnds, WritingComesTo, ReadingComesTo, OtherFault, NoReadFault, ReadingEnds, is_unwritable};
ghost use Rattle.pl_script.specs.declared.peer.LiveFault.TheVariants.{Write};

use crate::live_lines::{Live, gather, holds_none, new_live, push_bad_answer, take_line};
use crate::peer::{LiveFault, LiveTotals, Peer};
use crate::reading::{CHUNK, zeros};
use crate::running::WAITING;
use crate::telling::tell;
use pl_lines::Explanation;
use pl_model::Limits;
use pl_words::place_of;
use std::alloc::Allocator;

/// The most reads of a live run.
pub const MAX_LIVE_READS: u64 = 140_737_488_355_328;

/// Tells all that waits.
fn tell_waiting<A: Allocator + Copy, P: Peer>(
    live: &mut Live<A>,
    peer: &mut P,
) -> Result<(), LiveFault>
    ensures run { (limits : Limits) (strict : Bool) (first : Side) (t : Talk) (pending : List ℕ) → WasSaid first (P.side peer.old) t →
        IsUnderway limits strict live.old t pending →
        GoesOnOrEnds A limits strict (string_bytes live.new.out) live.new.why result first (P.side peer.new) (λ now.
        IsUnderway limits strict live.new now pending × (now.told ≡ now.written) × (string_bytes live.new.out ≡ []) × (now.moments ≡ t.moments)) }
    ensures fault { IfErr result (λ e. e ≡ Write) }
    ensures read { P.cannot_read peer.new ≡ P.cannot_read peer.old }
    ensures write { WritingComesTo (P.cannot_write peer.old) (P.cannot_write peer.new) result }
    ensures lines { live.new.lines ≡ live.old.lines }
    ensures bad { live.new.bad ≡ live.old.bad }
{
    tell(peer, live.out.as_bytes())?;
    live.out.clear();
    Ok(())
}

/// Runs the whole line that is held. A bad one is answered `bad line`, and refused with what is wrong with it, or ends a strict run.
fn run_held<A: Allocator + Copy, P: Peer>(
    alloc: A,
    strict: bool,
    live: &mut Live<A>,
    peer: &mut P,
) -> Result<(), LiveFault>
    requires lines { live.old.lines + 1 < 2 ^ 64 }
    requires bad { live.old.bad ≤ live.old.lines }
    ensures run { (limits : Limits) (first : Side) (t : Talk) (ls : List (List ℕ)) (line : List ℕ) (others : List (List ℕ)) → WasSaid first (P.side peer.old) t →
        IsAmid limits strict live.old t ls line (line ∷ others) →
        GoesOnOrEnds A limits strict (string_bytes live.new.out) live.new.why result first (P.side peer.new) (λ now.
        IsAmid limits strict live.new now (ls ++ line ∷ []) [] others × (now.heard ≡ t.heard) × (now.is_over ≡ t.is_over) × (now.moments ≡ t.moments)) }
    ensures read { P.cannot_read peer.new ≡ P.cannot_read peer.old }
    ensures write { P.cannot_write peer.new ≡ P.cannot_write peer.old }
    ensures fault { OtherFault result }
    ensures lines { OnOk result (live.new.lines ≡ live.old.lines + 1) }
    ensures bad { OnOk result (live.new.bad ≤ live.new.lines) }
{
    let is_good = take_line(alloc, live)?;
    if is_good {
        return Ok(());
    }
    if strict {
        return Err(LiveFault::BadLine(live.lines));
    }
    push_bad_answer(&mut live.out)?;
    peer.refuse(live.lines, live.why);
    Ok(())
}

/// Takes in bytes that were read: runs the lines that they end, and holds the front of the next one.
fn take_in<A: Allocator + Copy, P: Peer>(
    alloc: A,
    strict: bool,
    live: &mut Live<A>,
    peer: &mut P,
    bytes: &[u8],
) -> Result<(), LiveFault>
    requires lines { live.old.lines + length bytes.now < 2 ^ 64 }
    requires bad { live.old.bad ≤ live.old.lines }
    ensures run { (limits : Limits) (first : Side) (t : Talk) → WasSaid first (P.side peer.old) t → IsUnderway limits strict live.old t bytes.now →
        GoesOnOrEnds A limits strict (string_bytes live.new.out) live.new.why result first (P.side peer.new) (λ now.
        IsUnderway limits strict live.new now [] × (now.moments ≡ t.moments)) }
    ensures read { P.cannot_read peer.new ≡ P.cannot_read peer.old }
    ensures write { WritingComesTo (P.cannot_write peer.old) (P.cannot_write peer.new) result }
    ensures fault { NoReadFault result }
    ensures lines { OnOk result (live.new.lines ≤ live.old.lines + length bytes.now) }
    ensures bad { OnOk result (live.new.bad ≤ live.new.lines) }
{
    let mut rest = bytes;
    while let Some(end) = place_of(b'\n', rest) {
        gather(&mut live.line, &mut live.is_too_long, rest.split_at(end).0)?;
        run_held(alloc, strict, live, peer)?;
        rest = rest.split_at(end + 1).1;
        if live.out.len() >= WAITING {
            tell_waiting(live, peer)?;
        }
    }
    gather(&mut live.line, &mut live.is_too_long, rest)?;
    Ok(())
}

/// Runs a last line that lacks its line feed, where there is one.
fn finish<A: Allocator + Copy, P: Peer>(
    alloc: A,
    strict: bool,
    live: &mut Live<A>,
    peer: &mut P,
) -> Result<LiveTotals, LiveFault>
    requires lines { live.old.lines + 1 < 2 ^ 64 }
    requires bad { live.old.bad ≤ live.old.lines }
    ensures run { (limits : Limits) (first : Side) (t : Talk) → WasSaid first (P.side peer.old) t → t.is_over ≡ true → IsUnderway limits strict live.old t [] →
        (now : Talk) × WasSaid first (P.side peer.new) now × IsEnding A limits strict (string_bytes live.new.out) now result
        × IsWhyOf now result live.new.why }
    ensures read { P.cannot_read peer.new ≡ P.cannot_read peer.old }
    ensures write { P.cannot_write peer.new ≡ P.cannot_write peer.old }
    ensures fault { OtherFault result }
{
    if holds_none(live) {
        return Ok(LiveTotals {
            lines: live.lines,
            bad: live.bad,
        });
    }
    run_held(alloc, strict, live, peer)?;
    Ok(LiveTotals {
        lines: live.lines,
        bad: live.bad,
    })
}

/// Reads to the end, and runs the lines as they come. What waits at the end isn't told yet.
fn converse<A: Allocator + Copy, P: Peer>(
    alloc: A,
    strict: bool,
    live: &mut Live<A>,
    peer: &mut P,
) -> Result<LiveTotals, LiveFault>
    requires lines { live.old.lines ≡ 0 }
    requires bad { live.old.bad ≡ 0 }
    ensures run { (limits : Limits) (first : Side) (t : Talk) → WasSaid first (P.side peer.old) t → t.moments ≡ [] → IsUnderway limits strict live.old t [] →
        (now : Talk) × WasSaid first (P.side peer.new) now × IsEnding A limits strict (string_bytes live.new.out) now result
        × IsWhyOf now result live.new.why }
    ensures read { ReadingComesTo (P.cannot_read peer.old) (P.cannot_read peer.new) result }
    ensures write { WritingComesTo (P.cannot_write peer.old) (P.cannot_write peer.new) result }
{
    let mut chunk = zeros(alloc, CHUNK)?;
    for _i in 0..MAX_LIVE_READS {
        tell_waiting(live, peer)?;
        let Ok(count) = peer.read(chunk.as_mut_slice()) else {
            return Err(LiveFault::Read);
        };
        if count == 0 {
            return finish(alloc, strict, live, peer);
        }
        take_in(alloc, strict, live, peer, &chunk[..count])?;
    }
    Err(LiveFault::TooLong)
}

/// Whether a write failed.
fn is_unwritable(ended: &Result<LiveTotals, LiveFault>) -> bool
    ensures { result ≡ is_unwritable ended.now }
{
    matches!(ended, Err(LiveFault::Write))
}

/// Hands out what was found to be wrong, where the run ended at a bad line. Else what was told stays.
fn hand_out(
    ended: &Result<LiveTotals, LiveFault>,
    found: Option<Explanation>,
    why: &mut Option<Explanation>,
)
    ensures { HandsOutWhy ended.now found why.old why.new }
{
    if let Err(LiveFault::BadLine(_)) = ended {
        *why = found;
    }
}

/// Does what `run_live` does. Where a strict run ends at a bad line, it also tells what is wrong with it, in `why`, or nothing of one that
/// is too long; else what `why` holds stays.
///
/// # Errors
///
/// Those of `run_live`.
pub fn run_live_explained<A: Allocator + Copy, P: Peer>(
    alloc: A,
    peer: &mut P,
    limits: Limits,
    strict: bool,
    why: &mut Option<Explanation>,
) -> Result<LiveTotals, LiveFault>
    requires most { limits.file_max ≤ most_file_bytes }

    // The talk is as for `run_live`, and tells why the line is bad at which the run ended, if it did.
    ensures run { (t : Talk) × WasSaid (P.side peer.old) (P.side peer.new) t × IsLiveRun A limits strict result t
        × IsExplainedLive t result why.old why.new }

    // Of failures, whatever is known.
    ensures read { ReadingEnds (P.cannot_read peer.old) (P.cannot_read peer.new) result }
    ensures write { WritingComesTo (P.cannot_write peer.old) (P.cannot_write peer.new) result }
{
    let mut live = new_live(alloc, limits);
    let ended = converse(alloc, strict, &mut live, peer);
    if is_unwritable(&ended) {
        return ended;
    }
    tell(peer, live.out.as_bytes())?;
    hand_out(&ended, live.why, why);
    ended
}

/// Runs the lines that the far end says, on a new kernel, and answers each as it comes: before each read all answers to the lines
/// that came are written and flushed, and also once 65,536 bytes of them wait. Answers what it counted.
///
/// The lines are those of a script, and the first may name version 2. A bad line changes nothing, and is answered `bad line` and
/// refused; a strict run ends there, behind the answers to the lines before. A line of more than `MAX_LINE_BYTES` bytes is bad, and isn't kept. The input may be as long as it likes:
/// the run holds one line of it, and 65,536 bytes. At the end a last line may lack its line feed. `limits.file_max` is at most
/// 16,777,216.
///
/// # Errors
///
/// Before each of them the answers to the lines before were written and flushed, if the fault isn't `Write`.
///
/// - `Read` where a read failed, and no write or flush after it.
/// - `Write` exactly where a write failed or took no byte, or a flush failed; a front of the answers was written.
/// - `BadLine(n)` where the run is strict, and line `n`, counted from 1, is the first bad one.
/// - `TooLong` where `MAX_LIVE_READS` reads, which are 2^47, all gave bytes.
/// - `NoMemory` where there was none for a line or its answer. The step of that line may have been made.
pub fn run_live<A: Allocator + Copy, P: Peer>(
    alloc: A,
    peer: &mut P,
    limits: Limits,
    strict: bool,
) -> Result<LiveTotals, LiveFault>
    requires most { limits.file_max ≤ most_file_bytes }

    // What was said and heard is a talk in which the run, whenever it listened, had answered all lines that it had heard.
    ensures run { (t : Talk) × WasSaid (P.side peer.old) (P.side peer.new) t × IsLiveRun A limits strict result t }

    // Of failures, whatever is known.
    ensures read { ReadingEnds (P.cannot_read peer.old) (P.cannot_read peer.new) result }
    ensures write { WritingComesTo (P.cannot_write peer.old) (P.cannot_write peer.new) result }
{
    let mut why = None;
    run_live_explained(alloc, peer, limits, strict, &mut why)
}
