//! What can go wrong with a run, the line that says so, and the status that the program ends with.
ghost use Rattle.std.specs.Prelude.{◌≡◌, true, false, not, OnOk, OnErr};
ghost use Rattle.pl_script.specs.Streams.{WritesFront};
ghost use Rattle.pl_run.specs.Fault.{status_of, line_of, line_of_why, text_of_reason, fault_of, fault_of_live, nothing_more, explained_by, WritesLine};
ghost use Rattle.pl_run.specs.declared.fault.Fault.TheVariants.{NoMemory, Differs, BadLine, BadLines};

use itoa::Buffer;
use pl_script::{Explanation, LiveFault, Reason, ScriptFault, Sink, write_whole};
use std::alloc::AllocError;

/// What can go wrong with a run.
#[derive(Clone, Copy, Debug, PartialEq, Eq)]
pub enum Fault {
    /// The script can't be read, or its file not opened.
    CannotRead,
    /// The output can't be written.
    CannotWrite,
    /// The command line has words that the program doesn't know.
    CommandLine,
    /// The line of this number, from 1 on, isn't a command; and what is wrong with it, if that is told.
    BadLine(u64, Option<Explanation>),
    /// So many lines of a live run that came to its end aren't commands. Each was told before.
    BadLines(u64),
    /// The script has more than 16,777,216 bytes.
    TooLong,
    /// The input of a live run gave bytes at each of 2^47 reads.
    Endless,
    /// There was no memory for the run.
    NoMemory,
    /// A check came to the end of a script that expects no reply.
    NothingExpected,
    /// So many texts of a record differ from what was answered, of so many that were compared.
    Differs(u32, u32),
}

impl From<AllocError> for Fault {
    ghost from_gives = { λ _ made. made ≡ NoMemory };

    fn from(_error: AllocError) -> Fault {
        Fault::NoMemory
    }
}

impl From<ScriptFault> for Fault {
    ghost from_gives = { λ fault made. made ≡ fault_of nothing_more fault };

    fn from(fault: ScriptFault) -> Fault {
        match fault {
            ScriptFault::Read => Fault::CannotRead,
            ScriptFault::Write => Fault::CannotWrite,
            ScriptFault::TooLong => Fault::TooLong,
            ScriptFault::BadLine(number) => Fault::BadLine(u64::from(number), None),
            ScriptFault::NoMemory => Fault::NoMemory,
        }
    }
}

impl From<LiveFault> for Fault {
    ghost from_gives = { λ fault made. made ≡ fault_of_live nothing_more fault };

    fn from(fault: LiveFault) -> Fault {
        match fault {
            LiveFault::Read => Fault::CannotRead,
            LiveFault::Write => Fault::CannotWrite,
            LiveFault::BadLine(number) => Fault::BadLine(number, None),
            LiveFault::TooLong => Fault::Endless,
            LiveFault::NoMemory => Fault::NoMemory,
        }
    }
}

impl Fault {
    /// The same fault with what is told of a bad line.
    pub(crate) fn explained_by(self, why: Option<Explanation>) -> Fault
        ensures { result ≡ explained_by why self }
    {
        match self {
            Fault::BadLine(number, _) => Fault::BadLine(number, why),
            other => other,
        }
    }
}

/// The status that the program ends with: from 1 to 5, by the kind of fault.
pub fn status(fault: &Fault) -> u8
    ensures { result ≡ status_of fault.now }
{
    match fault {
        Fault::CannotRead | Fault::CannotWrite => 1,
        Fault::CommandLine => 2,
        Fault::BadLine(..) | Fault::BadLines(_) | Fault::TooLong | Fault::Endless => 3,
        Fault::NoMemory => 4,
        Fault::NothingExpected | Fault::Differs(..) => 5,
    }
}

/// Writes the line that tells how many texts of a record differ, as far as the writer takes it.
fn write_differs<T: Sink>(writer: &mut T, different: u32, compared: u32) -> Result<(), ScriptFault>
    ensures front { WritesFront (T.contents writer.old) (T.contents writer.new) result (line_of (Differs different compared)) }
    ensures kept { OnOk result (T.has_stopped writer.new ≡ T.has_stopped writer.old) }
    ensures stopped { OnErr result (T.has_stopped writer.new ≡ true) }
{
    write_whole(writer, b"piperun: ")?;
    write_whole(writer, Buffer::new().format(different).as_bytes())?;
    write_whole(writer, b" of ")?;
    write_whole(writer, Buffer::new().format(compared).as_bytes())?;
    write_whole(writer, b" replies differ\n")
}

/// Writes what is wrong with a word, as far as the writer takes it.
fn write_reason<T: Sink>(writer: &mut T, reason: &Reason) -> Result<(), ScriptFault>
    ensures front { WritesFront (T.contents writer.old) (T.contents writer.new) result (text_of_reason reason.now) }
    ensures kept { OnOk result (T.has_stopped writer.new ≡ T.has_stopped writer.old) }
    ensures stopped { OnErr result (T.has_stopped writer.new ≡ true) }
{
    let (first, second) = reason.text();
    write_whole(writer, first.as_bytes())?;
    write_whole(writer, second.as_bytes())?;
    write_whole(writer, b"\n")
}

/// Writes the line that tells what is wrong with the line of this number, if that is told, as far as the writer takes it.
fn write_why<T: Sink>(
    writer: &mut T,
    line: u64,
    why: &Option<Explanation>,
) -> Result<(), ScriptFault>
    ensures front { WritesFront (T.contents writer.old) (T.contents writer.new) result (line_of_why line why.now) }
    ensures kept { OnOk result (T.has_stopped writer.new ≡ T.has_stopped writer.old) }
    ensures stopped { OnErr result (T.has_stopped writer.new ≡ true) }
{
    let Some(why) = why else {
        return Ok(());
    };
    write_whole(writer, b"line ")?;
    write_whole(writer, Buffer::new().format(line).as_bytes())?;
    write_whole(writer, b", word ")?;
    write_whole(writer, Buffer::new().format(why.word).as_bytes())?;
    write_whole(writer, b": ")?;
    write_reason(writer, &why.reason)
}

/// Writes the line that names a bad line, and the one that tells what is wrong with it, if that is told, as far as the writer takes them.
fn write_bad_line<T: Sink>(
    writer: &mut T,
    number: u64,
    why: &Option<Explanation>,
) -> Result<(), ScriptFault>
    ensures front { WritesFront (T.contents writer.old) (T.contents writer.new) result (line_of (BadLine number why.now)) }
    ensures kept { OnOk result (T.has_stopped writer.new ≡ T.has_stopped writer.old) }
    ensures stopped { OnErr result (T.has_stopped writer.new ≡ true) }
{
    write_whole(writer, b"piperun: line ")?;
    write_whole(writer, Buffer::new().format(number).as_bytes())?;
    write_whole(writer, b": not a command\n")?;
    write_why(writer, number, why)
}

/// Writes the line that tells how many lines were bad, as far as the writer takes it.
fn write_bad_lines<T: Sink>(writer: &mut T, count: u64) -> Result<(), ScriptFault>
    ensures front { WritesFront (T.contents writer.old) (T.contents writer.new) result (line_of (BadLines count)) }
    ensures kept { OnOk result (T.has_stopped writer.new ≡ T.has_stopped writer.old) }
    ensures stopped { OnErr result (T.has_stopped writer.new ≡ true) }
{
    write_whole(writer, b"piperun: ")?;
    write_whole(writer, Buffer::new().format(count).as_bytes())?;
    write_whole(writer, b" bad lines\n")
}

/// Writes the line of the fault, and the one behind it that tells why a line is bad, as far as the writer takes them.
fn write_line<T: Sink>(writer: &mut T, fault: &Fault) -> Result<(), ScriptFault>
    ensures front { WritesFront (T.contents writer.old) (T.contents writer.new) result (line_of fault.now) }
    ensures kept { OnOk result (T.has_stopped writer.new ≡ T.has_stopped writer.old) }
    ensures stopped { OnErr result (T.has_stopped writer.new ≡ true) }
{
    match fault {
        Fault::CannotRead => write_whole(writer, b"piperun: cannot read\n"),
        Fault::CannotWrite => write_whole(writer, b"piperun: cannot write\n"),
        Fault::CommandLine => write_whole(writer, b"piperun: bad command line\n"),
        Fault::BadLine(number, why) => write_bad_line(writer, *number, why),
        Fault::BadLines(count) => write_bad_lines(writer, *count),
        Fault::TooLong => write_whole(writer, b"piperun: script longer than 16777216 bytes\n"),
        Fault::Endless => write_whole(writer, b"piperun: input without end\n"),
        Fault::NoMemory => write_whole(writer, b"piperun: no memory\n"),
        Fault::NothingExpected => write_whole(writer, b"piperun: no reply is expected\n"),
        Fault::Differs(different, compared) => write_differs(writer, *different, *compared),
    }
}

/// Writes the line of the fault, and behind it what is wrong with a bad line, if that is told. Answers whether the writer took all of it:
/// `false` exactly where a write failed or took no byte, if none had before. A front of it was written then. It takes no memory.
pub fn write_fault<T: Sink>(writer: &mut T, fault: &Fault) -> bool
    ensures line { WritesLine result (T.contents writer.old) (T.contents writer.new) (line_of fault.now) }
    ensures stops { T.has_stopped writer.old ≡ false → (T.has_stopped writer.new ≡ not result) }
{
    write_line(writer, fault).is_ok()
}
