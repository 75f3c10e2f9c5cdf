//! A whole script, read before any of it is run.
ghost use Rattle.std.specs.Prelude.{◌≡◌, ◌+◌, ◌≤◌, length, vec_len, IfOk, IfErr, IfSome};
ghost use Rattle.std.specs.Io.KnownBytes.{IsAtEnd};
ghost use Rattle.pl_model.specs.Numbers.{most_script_bytes, most_reads};
ghost use Rattle.pl_script.specs.Streams.{WasNotRead};

use crate::fault::ScriptFault;
use crate::streams::Source;
use pl_model::numbers::{MAX_READS, MAX_SCRIPT_BYTES};
use std::alloc::{AllocError, Allocator};

/// How many bytes one read is asked for.
pub(crate) const CHUNK: usize = 65_536;

/// So many zeros. Here the number is a variable, so no proof writes them out.
pub(crate) fn zeros<A: Allocator + Copy>(alloc: A, len: usize) -> Result<Vec<u8, A>, AllocError>
    ensures { IfOk result (λ v. vec_len v ≡ len) }
{
    vec![in alloc; 0u8; len]
}

/// All that the reader gives, at most `MAX_SCRIPT_BYTES` bytes.
pub(crate) fn read_script<A: Allocator + Copy, S: Source>(
    alloc: A,
    reader: &mut S,
) -> Result<Vec<u8, A>, ScriptFault>
    requires { most_reads ≤ S.reads_left reader.old }
    ensures spends { S.reads_left reader.old ≤ S.reads_left reader.new + most_reads }
    ensures whole { IfOk result (λ script.
        IfSome (S.remaining reader.old) (λ bytes. script.items ≡ bytes)) }
    ensures end { IfOk result (λ _. IsAtEnd (S.remaining reader.new)) }
    ensures short { IfOk result (λ script. length script.items ≤ most_script_bytes) }
    ensures kept { IfOk result (λ _. S.has_failed reader.new ≡ S.has_failed reader.old) }
    ensures fault { IfErr result
        (WasNotRead (S.remaining reader.old) (S.has_failed reader.old) (S.has_failed reader.new)) }
{
    let mut script = Vec::new(alloc);
    let mut chunk = zeros(alloc, CHUNK)?;
    for _i in 0..MAX_READS {
        let Ok(count) = reader.read(chunk.as_mut_slice()) else {
            return Err(ScriptFault::Read);
        };
        if count == 0 {
            return Ok(script);
        }
        let grown = script.len() + count;
        if grown > MAX_SCRIPT_BYTES {
            return Err(ScriptFault::TooLong);
        }
        script.extend_from_slice(&chunk[..count])?;
    }
    unreachable!()
}
