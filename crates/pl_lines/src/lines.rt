//! The lines of a script, and its version.
ghost use Rattle.std.specs.Prelude.{◌≡◌, ◌<◌, ◌∷◌, ◌+◌, length};
ghost use Rattle.pl_model.specs.Script.{lines, names_version_2, version_of, header_lines, body};

use pl_model::Version;
use pl_words::{place_of, without_return};

/// The first line, without its line feed, and what stands behind it.
#[tactic(auto, using(crate::proofs::LineLemmas::line_to_end))]
pub fn next_line(rest: &[u8]) -> (&[u8], &[u8])
    requires { 0 < length rest.now }
    ensures lines { lines rest.now ≡ result.0.now ∷ lines result.1.now }
    ensures shorter { length result.1.now < length rest.now }
{
    match place_of(b'\n', rest) {
        Some(end) => (rest.split_at(end).0, rest.split_at(end + 1).1),
        None => (rest, &[]),
    }
}

/// Whether this is the first line of a script of version 2, given without its line feed.
pub fn names_version_2(line: &[u8]) -> bool
    ensures { result ≡ names_version_2 line.now }
{
    without_return(line) == b"piperun 2".as_slice()
}

/// The version that the first line of a script names, and the script behind that line; where it names none, version 1 and the whole
/// script.
pub fn split_version(script: &[u8]) -> (Version, &[u8])
    ensures version { result.0 ≡ version_of script.now }
    ensures body { lines result.1.now ≡ body script.now }
    ensures count { length (lines script.now) ≡ header_lines result.0 + length (lines result.1.now) }
{
    if script.is_empty() {
        return (Version::One, script);
    }
    let (first, rest) = next_line(script);
    if names_version_2(first) {
        (Version::Two, rest)
    } else {
        (Version::One, script)
    }
}
