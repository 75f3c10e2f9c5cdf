//! What an open of a name is refused for.
ghost use Rattle.std.specs.Prelude.{◌≡◌};
ghost use Rattle.pl_model.specs.Fifo.{opens_at_once as machine_opens_at_once};
ghost use Rattle.pl_decisions.specs.Names.{fault_of_open};

use pl_model::{Errno, Mode};

/// What the flags of an open make of a name that stands for something, or for nothing: `EEXIST` where it is to be made and stands
/// for something, `ENOENT` where it isn't and stands for nothing (POSIX.1-2017, open, O_CREAT and O_EXCL). That `EXCL` has no
/// effect without `CREAT` is our own choice.
pub fn open_fault(is_there: bool, creates: bool, is_exclusive: bool) -> Option<Errno>
    ensures { result ≡ fault_of_open is_there creates is_exclusive }
{
    if is_there && creates && is_exclusive {
        Some(Errno::EEXIST)
    } else if !is_there && !creates {
        Some(Errno::ENOENT)
    } else {
        None
    }
}

/// Whether an open of a FIFO, which is open for reading and for writing as told, needs nobody else: one for writing needs a reader, one
/// for reading a writer, unless it has `NONBLOCK` (POSIX.1-2017, open, O_NONBLOCK), and one for both nobody (fifo(7)).
pub fn opens_at_once(mode: Mode, has_reader: bool, has_writer: bool, nonblocking: bool) -> bool
    ensures { result ≡ machine_opens_at_once mode has_reader has_writer nonblocking }
{
    match mode {
        Mode::Read => has_writer || nonblocking,
        Mode::Write => has_reader,
        Mode::Both => true,
    }
}
