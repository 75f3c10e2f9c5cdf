//! The far end of a live run that a program has: its input, its output and its errors.
ghost use Rattle.std.specs.Prelude.{◌≡◌, false, not, None, if◌then◌else◌};
ghost use Rattle.pl_script.specs.Talk.{Side};
ghost use Rattle.pl_run.specs.Fault.{line_of, WritesLine};
ghost use Rattle.pl_run.specs.declared.fault.Fault.TheVariants.{BadLine};

use crate::fault::{Fault, write_fault};
use pl_script::{Explanation, Peer, Sink, Writes};
use std::io::{self, Read, Write};

/// What is told of a bad line.
fn if_asked(explain: bool, why: Option<Explanation>) -> Option<Explanation>
    ensures { result ≡ (if explain then why else None) }
{
    if explain { why } else { None }
}

/// A far end that says what the input gives, is told on the output, and of its bad lines on the errors, with what is wrong with them or
/// without it.
#[derive(Drop)]
pub struct Terminal<I, O, E> {
    input: I,
    output: O,
    errors: Writes<E>,
    explain: bool,
    cannot_read: bool,
    cannot_write: bool,
}

impl<I: Read, O: Write, E: Write> Terminal<I, O, E> {
    /// These three, of which nothing has failed yet. With `explain` it tells what is wrong with bad lines.
    pub fn new(input: I, output: O, errors: E, explain: bool) -> Self
        ensures read { ⟦<Terminal<I, O, E> as Peer>⟧.cannot_read result ≡ false }
        ensures write { ⟦<Terminal<I, O, E> as Peer>⟧.cannot_write result ≡ false }
        ensures side { ⟦<Terminal<I, O, E> as Peer>⟧.side result ≡ record { talk = None; remaining = I.remaining input; contents = O.contents output } }
    {
        Terminal {
            input,
            output,
            errors: Writes::new(errors),
            explain,
            cannot_read: false,
            cannot_write: false,
        }
    }
}

impl<I: Read, O: Write, E: Write> Peer for Terminal<I, O, E> {
    // When these three were asked isn't kept.
    ghost side = { λ s. record { talk = None; remaining = I.remaining s.input; contents = O.contents s.output } };

    ghost cannot_read = { λ s. s.cannot_read };

    ghost cannot_write = { λ s. s.cannot_write };

    fn read(&mut self, buf: &mut [u8]) -> io::Result<usize> {
        let result = self.input.read(buf);
        if result.is_err() {
            self.cannot_read = true;
        }
        result
    }

    fn write(&mut self, bytes: &[u8]) -> io::Result<usize> {
        let result = self.output.write(bytes);
        match &result {
            Ok(n) => {
                if *n == 0 {
                    self.cannot_write = true;
                }
            }
            Err(_) => self.cannot_write = true,
        }
        result
    }

    fn flush(&mut self) -> io::Result<()> {
        let result = self.output.flush();
        if result.is_err() {
            self.cannot_write = true;
        }
        result
    }

    fn refuse(&mut self, number: u64, why: Option<Explanation>)
        // The line of the fault, and what is wrong with the line if that is to be told, is written to the errors, or the front that they take.
        ensures line { ⟦<Writes<E> as Sink>⟧.has_stopped self.old.errors ≡ false →
            WritesLine (not (⟦<Writes<E> as Sink>⟧.has_stopped self.new.errors))
            (⟦<Writes<E> as Sink>⟧.contents self.old.errors) (⟦<Writes<E> as Sink>⟧.contents self.new.errors) (line_of (BadLine number (if self.old.explain then why else None))) }
        ensures unwritten { O.contents self.new.output ≡ O.contents self.old.output }
        ensures unread { I.remaining self.new.input ≡ I.remaining self.old.input }
        ensures read { self.new.cannot_read ≡ self.old.cannot_read }
        ensures write { self.new.cannot_write ≡ self.old.cannot_write }
    {
        // Where the line can't be written, the count of bad lines at the end tells.
        let why = if_asked(self.explain, why);
        let _told = write_fault(&mut self.errors, &Fault::BadLine(number, why));
    }
}
