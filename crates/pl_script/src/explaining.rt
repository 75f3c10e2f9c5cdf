//! Why a line of a script isn't a command.
ghost use Rattle.std.specs.Prelude.{◌≡◌};
ghost use Rattle.pl_script.specs.Explaining.{why_bad, IsExplained};

use crate::fault::ScriptFault;
use pl_lines::{Explanation, explain_line, next_line, split_version};

/// What is wrong with the line of this number, counted from 1; `None` where there is no such line, or it isn't bad.
pub(crate) fn explain_line_of(script: &[u8], number: u32) -> Option<Explanation>
    ensures { result ≡ why_bad script.now number }
{
    let (version, _) = split_version(script);
    let mut rest = script;
    let mut before = number.saturating_sub(1);
    while before > 0 && !rest.is_empty() {
        rest = next_line(rest).1;
        before -= 1;
    }
    if rest.is_empty() {
        return None;
    }
    explain_line(version, next_line(rest).0)
}

/// Tells why, where a run or a check of the script ended at a bad line. Else what was told stays.
pub(crate) fn explain<X>(
    script: &[u8],
    ended: &Result<X, ScriptFault>,
    why: &mut Option<Explanation>,
)
    ensures { IsExplained script.now ended.now why.old why.new }
{
    if let Err(ScriptFault::BadLine(number)) = ended {
        *why = explain_line_of(script, *number);
    }
}
