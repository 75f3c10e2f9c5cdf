//! Output, written as far as the writer takes it.
ghost use Rattle.std.specs.Prelude.{◌≡◌, OnOk, IfErr, true};
ghost use Rattle.pl_script.specs.Streams.{WritesFront};
ghost use Rattle.pl_script.specs.declared.fault.ScriptFault.TheVariants.{Write};

use crate::fault::ScriptFault;
use crate::streams::Sink;

/// Writes all the bytes.
///
/// # Errors
///
/// `Write` exactly where a write failed or took no byte; a front of the bytes was written. No other.
pub fn write_whole<T: Sink>(writer: &mut T, bytes: &[u8]) -> Result<(), ScriptFault>
    ensures front { WritesFront (T.contents writer.old) (T.contents writer.new) result bytes.now }
    ensures kept { OnOk result (T.has_stopped writer.new ≡ T.has_stopped writer.old) }
    ensures stopped { IfErr result (λ e. (e ≡ Write) × (T.has_stopped writer.new ≡ true)) }
{
    let mut rest = bytes;
    while !rest.is_empty() {
        let Ok(count) = writer.write(rest) else {
            return Err(ScriptFault::Write);
        };
        if count == 0 {
            return Err(ScriptFault::Write);
        }
        rest = rest.split_at(count).1;
    }
    Ok(())
}
