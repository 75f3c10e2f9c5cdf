//! The far end of a live run, and what such a run comes to.
ghost use Rattle.std.specs.Prelude.{◌≡◌, ◌≤◌, ◌||◌, length, Bool, IfOk, is_err};
ghost use Rattle.pl_script.specs.Streams.{took_nothing};
ghost use Rattle.pl_script.specs.Talk.{Side, Hears, Takes, Flushes, Refuses};
ghost use Rattle.pl_script.specs.declared.peer.LiveFault.TheVariants.{NoMemory};

use pl_lines::Explanation;
use std::alloc::AllocError;
use std::io;
use thiserror::Error;

/// What a live run counted.
#[derive(Clone, Copy, Debug, PartialEq, Eq)]
pub struct LiveTotals {
    /// All lines that were read, also one that names the version, and bad ones.
    pub lines: u64,
    /// The bad lines among them.
    pub bad: u64,
}

/// Why a live run ended early.
#[derive(Clone, Copy, Debug, PartialEq, Eq, Error)]
pub enum LiveFault {
    /// A read failed. An interrupted read is one that failed.
    #[error("the input cannot be read")]
    Read,
    /// A write failed or took no byte, or a flush failed.
    #[error("the output cannot be written")]
    Write,
    /// A strict run came to a bad line: the one of this number, counted from 1.
    #[error("line {0} is not a line of a script")]
    BadLine(u64),
    /// The input gave bytes at each of `MAX_LIVE_READS` reads.
    #[error("the input has no end")]
    TooLong,
    /// There was no memory to hold a line, or for what it asks or prints. A step, or a line `file`, that finds none is no fault: it
    /// prints `nomem`.
    #[error("no memory")]
    NoMemory,
}

impl From<AllocError> for LiveFault {
    ghost from_gives = { λ _ e. e ≡ NoMemory };

    fn from(_e: AllocError) -> LiveFault {
        LiveFault::NoMemory
    }
}

/// Who asks the lines of a live run and waits for their answers.
pub trait Peer {
    // What is known of it.
    ghost side: { Self → Side };
    // Whether a read failed.
    ghost cannot_read: { Self → Bool };
    // Whether a write failed or took no byte, or a flush failed.
    ghost cannot_write: { Self → Bool };

    /// Fills the front of `buf`, and answers how many bytes it gave: none only at the end, or where `buf` has no room. It waits where
    /// there are none yet.
    ///
    /// # Errors
    ///
    /// Those of the reader. An interrupted read is one that failed; nothing is tried again.
    fn read(&mut self, buf: &mut [u8]) -> io::Result<usize>
        ensures bound { IfOk result (λ n. n ≤ length buf.new) }
        ensures side { Hears (side self.old) (side self.new) result buf.new }
        ensures read { cannot_read self.new ≡ (is_err result || cannot_read self.old) }
        ensures write { cannot_write self.new ≡ cannot_write self.old };

    /// Takes bytes from the front of `bytes`, and answers how many. They may be held back until the next flush.
    ///
    /// # Errors
    ///
    /// Those of the writer. An interrupted write is one that failed; nothing is tried again.
    fn write(&mut self, bytes: &[u8]) -> io::Result<usize>
        ensures bound { IfOk result (λ n. n ≤ length bytes.now) }
        ensures side { Takes (side self.old) (side self.new) result bytes.now }
        ensures read { cannot_read self.new ≡ cannot_read self.old }
        ensures write { cannot_write self.new ≡ (took_nothing result || cannot_write self.old) };

    /// Hands over all that was written.
    ///
    /// # Errors
    ///
    /// Those of the writer.
    fn flush(&mut self) -> io::Result<()>
        ensures side { Flushes (side self.old) (side self.new) result }
        ensures read { cannot_read self.new ≡ cannot_read self.old }
        ensures write { cannot_write self.new ≡ (is_err result || cannot_write self.old) };

    /// Is told that the line of this number, counted from 1, is a bad one, and was passed over; and what is wrong with it, or nothing of one
    /// that is too long.
    fn refuse(&mut self, number: u64, why: Option<Explanation>)
        ensures side { Refuses (side self.old) (side self.new) number }
        ensures read { cannot_read self.new ≡ cannot_read self.old }
        ensures write { cannot_write self.new ≡ cannot_write self.old };
}
