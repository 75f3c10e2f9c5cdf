//! What a script is read from, and what its output is written to.
ghost use Rattle.std.specs.Prelude.{◌≡◌, ◌+◌, ◌<◌, ◌≤◌, ◌||◌, ℕ, List, length, Option, Bool, IfOk, is_err, false};
ghost use Rattle.std.specs.Io.KnownBytes.{ReadConsumes, WriteAppends};
ghost use Rattle.pl_model.specs.Numbers.{most_reads};
ghost use Rattle.pl_script.specs.Streams.{took_nothing};

use pl_model::numbers::MAX_READS;
use std::io;

/// A reader that may be asked so many times, and that knows whether a read of it failed.
pub trait Source {
    // The bytes that it will give, where they are known.
    ghost remaining: { Self → Option (List ℕ) };
    // How many reads it may still be asked.
    ghost reads_left: { Self → ℕ };
    // Whether a read failed.
    ghost has_failed: { Self → Bool };

    /// Fills the front of `buf`, and answers how many bytes it gave: none only at the end, or where `buf` has no room.
    ///
    /// # Errors
    ///
    /// Those of the reader. An interrupted read is one that failed; nothing is tried again.
    fn read(&mut self, buf: &mut [u8]) -> io::Result<usize>
        requires { 0 < reads_left self.old }
        ensures bound { IfOk result (λ n. n ≤ length buf.new) }
        ensures bytes { ReadConsumes (remaining self.old) (remaining self.new) result buf.new }
        ensures spends { reads_left self.new + 1 ≡ reads_left self.old }
        ensures fails { has_failed self.new ≡ (is_err result || has_failed self.old) };
}

/// A writer that knows whether a write of it failed or took no byte.
pub trait Sink {
    // The bytes that it holds, where they are known.
    ghost contents: { Self → Option (List ℕ) };
    // Whether a write failed or took no byte.
    ghost has_stopped: { Self → Bool };

    /// Takes bytes from the front of `bytes`, and answers how many.
    ///
    /// # Errors
    ///
    /// Those of the writer. An interrupted write is one that failed; nothing is tried again.
    fn write(&mut self, bytes: &[u8]) -> io::Result<usize>
        ensures bound { IfOk result (λ n. n ≤ length bytes.now) }
        ensures bytes { WriteAppends (contents self.old) (contents self.new) result bytes.now }
        ensures stops { has_stopped self.new ≡ (took_nothing result || has_stopped self.old) };
}

/// Any reader as a `Source`.
#[derive(Drop)]
pub struct Reads<R> {
    reader: R,
    left: u32,
    failed: bool,
}

impl<R: io::Read> Reads<R> {
    /// The reader, to be asked at most `left` times.
    pub fn new(reader: R, left: u32) -> Self
        ensures left { ⟦<Reads<R> as Source>⟧.reads_left result ≡ left }
        ensures fresh { ⟦<Reads<R> as Source>⟧.has_failed result ≡ false }
        ensures bytes { ⟦<Reads<R> as Source>⟧.remaining result ≡ R.remaining reader }
    {
        Reads {
            reader,
            left,
            failed: false,
        }
    }

    /// The reader of a script, to be asked as often as a script may need: at most `MAX_READS` times.
    pub fn of_script(reader: R) -> Self
        ensures left { ⟦<Reads<R> as Source>⟧.reads_left result ≡ most_reads }
        ensures fresh { ⟦<Reads<R> as Source>⟧.has_failed result ≡ false }
        ensures bytes { ⟦<Reads<R> as Source>⟧.remaining result ≡ R.remaining reader }
    {
        Reads::new(reader, MAX_READS)
    }
}

impl<R: io::Read> Source for Reads<R> {
    ghost remaining = { λ s. R.remaining s.reader };

    ghost reads_left = { λ s. s.left };

    ghost has_failed = { λ s. s.failed };

    fn read(&mut self, buf: &mut [u8]) -> io::Result<usize> {
        self.left -= 1;
        let result = self.reader.read(buf);
        if result.is_err() {
            self.failed = true;
        }
        result
    }
}

/// Any writer as a `Sink`. It is never flushed here, so the owner of one that holds bytes back flushes it.
#[derive(Drop)]
pub struct Writes<W> {
    writer: W,
    stopped: bool,
}

impl<W: io::Write> Writes<W> {
    /// The writer, of which no write has failed yet.
    pub fn new(writer: W) -> Self
        ensures fresh { ⟦<Writes<W> as Sink>⟧.has_stopped result ≡ false }
        ensures bytes { ⟦<Writes<W> as Sink>⟧.contents result ≡ W.contents writer }
    {
        Writes {
            writer,
            stopped: false,
        }
    }
}

impl<W: io::Write> Sink for Writes<W> {
    ghost contents = { λ s. W.contents s.writer };

    ghost has_stopped = { λ s. s.stopped };

    fn write(&mut self, bytes: &[u8]) -> io::Result<usize> {
        let result = self.writer.write(bytes);
        match &result {
            Ok(n) => {
                if *n == 0 {
                    self.stopped = true;
                }
            }
            Err(_) => self.stopped = true,
        }
        result
    }
}
