//! What is left of a pipe as one of its ends is closed.
ghost use Rattle.std.specs.Prelude.{◌≡◌, ◌||◌, if◌then◌else◌, Some, None};
ghost use Rattle.pl_model.specs.Settle.{hangs};

/// Whether a pipe is hung once one of its ends is closed, from the ends that are left; `None` where it has none, and goes
/// (POSIX.1-2017, close; poll, POLLHUP).
pub fn hung_after_close(
    has_reader: bool,
    has_writer: bool,
    was_hung: bool,
    had_writer: bool,
) -> Option<bool>
    ensures { result ≡ (if has_reader || has_writer then Some (hangs has_reader has_writer (was_hung || had_writer)) else None) }
{
    if has_reader || has_writer {
        Some(has_reader && !has_writer && (was_hung || had_writer))
    } else {
        None
    }
}
