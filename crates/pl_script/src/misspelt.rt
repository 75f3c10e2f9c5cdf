//! Comments of a record that look as if they expected a text, and don't.
ghost use Rattle.std.specs.Prelude.{◌≡◌, ◌≤◌, length};
ghost use Rattle.pl_model.specs.Numbers.{most_script_bytes};
ghost use Rattle.pl_model.specs.Script.{lines};
ghost use Rattle.pl_model.specs.Words.{words};
ghost use Rattle.pl_script.specs.Misspelt.{looks_expecting, is_misspelt, first_misspelt};

use crate::comparing::expected;
use pl_lines::next_line;
use pl_words::next_word;

/// Whether the words of a line begin with `#` and `=>`, or with `#=>`.
fn looks_expecting(line: &[u8]) -> bool
    ensures { result ≡ looks_expecting (words line.now) }
{
    let Some((hash, behind)) = next_word(line) else {
        return false;
    };
    if hash.strip_prefix(b"#=>").is_some() {
        return true;
    }
    let Some((arrow, _)) = next_word(behind) else {
        return false;
    };
    hash == b"#".as_slice() && arrow.strip_prefix(b"=>").is_some()
}

/// Whether a line looks as if it expected a text, and expects none.
fn is_misspelt(line: &[u8]) -> bool
    ensures { result ≡ is_misspelt line.now }
{
    expected(line).is_none() && looks_expecting(line)
}

/// The number of the first line of a record that looks as if it expected a text, and doesn't, counted from 1.
pub(crate) fn first_misspelt(script: &[u8]) -> Option<u32>
    requires { length script.now ≤ most_script_bytes }
    ensures { result ≡ first_misspelt 1 (lines script.now) }
{
    let mut rest = script;
    let mut number = 1;
    while !rest.is_empty() {
        let (line, after) = next_line(rest);
        if is_misspelt(line) {
            return Some(number);
        }
        number += 1;
        rest = after;
    }
    None
}
