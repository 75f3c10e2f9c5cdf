//! Answers, told to the far end as far as it takes them.
ghost use Rattle.std.specs.Prelude.{◌≡◌, IfErr, MatchResult};
ghost use Rattle.pl_script.specs.Talk.{Talk, Side, WasSaid, telling};
ghost use Rattle.pl_script.specs.LiveSteps.{WritesInFull, WritesInPart, WritingComesTo};
ghost use Rattle.pl_script.specs.declared.peer.LiveFault.TheVariants.{Write};

use crate::peer::{LiveFault, Peer};

/// Writes all the bytes.
fn write_each<P: Peer>(peer: &mut P, bytes: &[u8]) -> Result<(), LiveFault>
    ensures talk { (first : Side) (t : Talk) → WasSaid first (P.side peer.old) t → MatchResult result
        (λ _. WritesInFull first (P.side peer.new) t bytes.now)
        (WritesInPart first (P.side peer.new) t bytes.now) }
    ensures fault { IfErr result (λ e. e ≡ Write) }
    ensures read { P.cannot_read peer.new ≡ P.cannot_read peer.old }
    ensures write { WritingComesTo (P.cannot_write peer.old) (P.cannot_write peer.new) result }
{
    let mut rest = bytes;
    while !rest.is_empty() {
        let Ok(count) = peer.write(rest) else {
            return Err(LiveFault::Write);
        };
        if count == 0 {
            return Err(LiveFault::Write);
        }
        rest = rest.split_at(count).1;
    }
    Ok(())
}

/// Writes all the bytes, and flushes them with all that was written before.
pub(crate) fn tell<P: Peer>(peer: &mut P, bytes: &[u8]) -> Result<(), LiveFault>
    ensures talk { (first : Side) (t : Talk) → WasSaid first (P.side peer.old) t → MatchResult result
        (λ _. WasSaid first (P.side peer.new) (telling bytes.now t))
        (WritesInPart first (P.side peer.new) t bytes.now) }
    ensures fault { IfErr result (λ e. e ≡ Write) }
    ensures read { P.cannot_read peer.new ≡ P.cannot_read peer.old }
    ensures write { WritingComesTo (P.cannot_write peer.old) (P.cannot_write peer.new) result }
{
    write_each(peer, bytes)?;
    match peer.flush() {
        Ok(()) => Ok(()),
        Err(_) => Err(LiveFault::Write),
    }
}
