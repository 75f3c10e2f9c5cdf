//! What is wrong with a name.
ghost use Rattle.std.specs.Prelude.{◌≡◌};
ghost use Rattle.std.specs.List.{list_any};
ghost use Rattle.pl_model.specs.Begin.{is_never_in_name};
ghost use Rattle.pl_decisions.specs.Names.{fault_of_name};

use pl_model::Errno;
use pl_model::numbers::MAX_NAME_BYTES;

// Whether a slash or a NUL is in it, which no name has, as there are no directories.
fn has_separator(name: &[u8]) -> bool
    ensures { result ≡ list_any is_never_in_name name.now }
{
    name.iter().any(|byte| *byte == b'/' || *byte == 0)
}

/// What a name is refused for, if anything: `ENOENT` where it is empty, `ENAMETOOLONG` above 255 bytes, `EINVAL` where a slash or
/// a NUL is in it (POSIX.1-2017, open and unlink). The last is our own choice.
pub fn name_fault(name: &[u8]) -> Option<Errno>
    ensures { result ≡ fault_of_name name.now }
{
    if name.is_empty() {
        Some(Errno::ENOENT)
    } else if MAX_NAME_BYTES < name.len() {
        Some(Errno::ENAMETOOLONG)
    } else if has_separator(name) {
        Some(Errno::EINVAL)
    } else {
        None
    }
}
