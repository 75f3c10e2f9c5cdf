//! What lines ask.
ghost use Rattle.std.specs.Prelude.{◌≡◌, ◌≢◌, IfSome};
ghost use Rattle.pl_model.specs.Words.{words};
ghost use Rattle.pl_model.specs.Lines.{start_of, resume_of, interrupt_of, file_of, begin_of, words_line, is_comment, line};
ghost use Rattle.pl_model.specs.declared.script.Version.TheVariants.{One, Two};
ghost use Rattle.pl_words.specs.Parsed.{Gives, GivesTaking};
ghost use Rattle.pl_lines.specs.Parsed.{LineTakes, LineAskedTakes, WritesSoMany};

use crate::calls::parse_call;
use pl_model::{Line, Step, Version};
use pl_words::{
    LineFault, bytes_len, end, fd_and_word, may_repeat, next_word, only_u64, only_word, parse_name,
    parse_u32, without_return, word,
};
use std::alloc::Allocator;

#[tactic(auto, unfolding(pl_model::specs::Lines::start_of))]
fn start_line<A: Allocator + Copy>(rest: &[u8]) -> Result<Line<A>, LineFault>
    ensures { Gives result (start_of (words rest.now)) }
{
    end(rest)?;
    Ok(Line::Do(Step::Start))
}

#[tactic(auto, unfolding(pl_model::specs::Lines::resume_of))]
fn resume_line<A: Allocator + Copy>(rest: &[u8]) -> Result<Line<A>, LineFault>
    ensures { Gives result (resume_of (words rest.now)) }
{
    Ok(Line::Do(Step::Resume(only_u64(rest)?)))
}

#[tactic(auto, unfolding(pl_model::specs::Lines::interrupt_of))]
fn interrupt_line<A: Allocator + Copy>(rest: &[u8]) -> Result<Line<A>, LineFault>
    ensures { Gives result (interrupt_of (words rest.now)) }
{
    Ok(Line::Do(Step::Interrupt(only_u64(rest)?)))
}

/// What the file of a name holds.
#[tactic(auto, unfolding(pl_model::specs::Lines::file_of))]
fn file_line<A: Allocator + Copy>(alloc: A, rest: &[u8]) -> Result<Line<A>, LineFault>
    ensures { GivesTaking LineTakes result (file_of (words rest.now)) }
{
    Ok(Line::File(parse_name(alloc, only_word(rest)?)?))
}

#[tactic(auto, unfolding(pl_model::specs::Lines::begin_of))]
fn begin_line<A: Allocator + Copy>(
    alloc: A,
    version: Version,
    pid: &[u8],
    rest: &[u8],
) -> Result<Line<A>, LineFault>
    ensures { GivesTaking LineTakes result (begin_of version pid.now (words rest.now)) }
{
    let (name, rest) = word(rest)?;
    let pid = parse_u32(pid)?;
    Ok(Line::Do(Step::Begin(pid, parse_call(alloc, version, name, rest)?)))
}

/// What the words ask, the first of them and the rest.
#[tactic(auto, unfolding(pl_model::specs::Lines::words_line))]
fn words_line<A: Allocator + Copy>(
    alloc: A,
    version: Version,
    first: &[u8],
    rest: &[u8],
) -> Result<Line<A>, LineFault>
    ensures { GivesTaking LineTakes result (words_line version first.now (words rest.now)) }
{
    if first == b"start".as_slice() {
        start_line(rest)
    } else if first == b"resume".as_slice() {
        resume_line(rest)
    } else if first == b"interrupt".as_slice() {
        interrupt_line(rest)
    } else if first == b"file".as_slice() {
        file_line(alloc, rest)
    } else {
        begin_line(alloc, version, first, rest)
    }
}

pub(crate) fn is_comment(word: &[u8]) -> bool
    ensures { result ≡ is_comment word.now }
{
    !word.is_empty() && word[0] == b'#'
}

/// What a line of a script of this version asks, given without its line feed: a step, or, as `file NAME`, what the file of a name
/// holds; `None` where it asks nothing, as a blank line or a comment.
///
/// # Errors
///
/// `Bad` exactly where the version has no such line, whatever the memory. `NoMemory` only at a line that writes a byte or
/// more, has a name that isn't empty, or polls with entries, where there was no memory for these.
#[tactic(auto, unfolding(pl_model::specs::Lines::line, pl_model::specs::Lines::line_of_words))]
pub fn parse_line_of<A: Allocator + Copy>(
    alloc: A,
    version: Version,
    bytes: &[u8],
) -> Result<Option<Line<A>>, LineFault>
    ensures { GivesTaking LineAskedTakes result (line version bytes.now) }
{
    match next_word(without_return(bytes)) {
        None => Ok(None),
        Some((first, _)) if is_comment(first) => Ok(None),
        Some((first, rest)) => Ok(Some(words_line(alloc, version, first, rest)?)),
    }
}

/// What a line of a script of version 1 asks: `parse_line_of`.
///
/// # Errors
///
/// Those of `parse_line_of`.
pub fn parse_line<A: Allocator + Copy>(alloc: A, bytes: &[u8]) -> Result<Option<Line<A>>, LineFault>
    ensures { GivesTaking LineAskedTakes result (line One bytes.now) }
{
    parse_line_of(alloc, Version::One, bytes)
}

/// What a line of a script of version 2 asks: `parse_line_of`.
///
/// # Errors
///
/// Those of `parse_line_of`.
pub fn parse_line_2<A: Allocator + Copy>(
    alloc: A,
    bytes: &[u8],
) -> Result<Option<Line<A>>, LineFault>
    ensures { GivesTaking LineAskedTakes result (line Two bytes.now) }
{
    parse_line_of(alloc, Version::Two, bytes)
}

/// A write of a byte many times, as a line `P write FD N*hh` asks for it. Its bytes aren't made.
#[derive(Clone, Copy, Debug, PartialEq, Eq)]
pub struct RepeatedWrite {
    /// The process that writes.
    pub pid: u32,
    /// Its descriptor.
    pub fd: i32,
    /// How many bytes it writes, not 0.
    pub count: usize,
}

/// The write of a line in which a piece repeats a byte, for who wants to know whether the call is refused before its bytes are made.
/// `None` of any other line, good or bad. It takes no memory, and time for what the line is long, and not for what it writes.
pub fn repeated_write<A: Allocator>(version: Version, bytes: &[u8]) -> Option<RepeatedWrite>
    ensures some { IfSome result (λ write. write.count ≢ 0) }
    ensures said { IfSome result (λ write. WritesSoMany A version bytes.now write.pid write.fd write.count) }
{
    let line = without_return(bytes);
    if !may_repeat(version, line) {
        return None;
    }
    let (pid, rest) = next_word(line)?;
    let (name, rest) = next_word(rest)?;
    if name != b"write".as_slice() {
        return None;
    }
    let Ok((fd, written)) = fd_and_word(rest) else {
        return None;
    };
    let Ok(pid) = parse_u32(pid) else {
        return None;
    };
    let count = bytes_len(version, written)?;
    if count == 0 {
        return None;
    }
    Some(RepeatedWrite { pid, fd, count })
}
