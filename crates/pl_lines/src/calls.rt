//! The calls in lines.
ghost use Rattle.pl_model.specs.Words.{words, mode_of, whence_of, wait_of};
ghost use Rattle.pl_model.specs.Lines.{pipe_of, mkfifo_of, open_name_of, read_of, write_of, len_and_flags, splice_of, tee_of, poll_of, dup_of, dup2_of, dup_fd_of, close_of, lseek_of, get_fl_of, set_fl_of, get_pipe_sz_of, set_pipe_sz_of, unlink_of, fork_of, exit_of, call_of};
ghost use Rattle.pl_model.specs.declared.script.Version.TheVariants.{One, Two};
ghost use Rattle.pl_words.specs.Parsed.{Gives, GivesAs, GivesTaking};
ghost use Rattle.pl_lines.specs.Parsed.{CallTakes, first_side, later_call_of};

use bitflags::Flags;
use pl_model::{Call, Mode, OpenFlags, SpliceFlags, Version, Whence};
use pl_words::{
    LineFault, end, fd_and_word, next_word, only_i32, only_word, open_flags_if_any, parse_bytes,
    parse_entries, parse_flags_or_none, parse_i32, parse_i64, parse_name, parse_offset, parse_u32,
    pipe_flags_if_any, splice_flags_if_any, word,
};
use std::alloc::Allocator;

/// The pipe of version 1, which has one flag at most.
#[tactic(auto, unfolding(pl_model::specs::Lines::pipe_of))]
fn plain_pipe<A: Allocator + Copy>(rest: &[u8]) -> Result<Call<A>, LineFault>
    ensures { Gives result (pipe_of One (words rest.now)) }
{
    let nonblock = match next_word(rest) {
        None => false,
        Some((flag, rest)) => {
            end(rest)?;
            if flag != b"nonblock".as_slice() {
                return Err(LineFault::Bad);
            }
            true
        }
    };
    Ok(Call::Pipe {
        nonblock,
        direct: false,
    })
}

/// The pipe of version 2.
#[tactic(auto, unfolding(pl_model::specs::Lines::pipe_of))]
fn pipe_with_flags<A: Allocator + Copy>(rest: &[u8]) -> Result<Call<A>, LineFault>
    ensures { Gives result (pipe_of Two (words rest.now)) }
{
    let flags = pipe_flags_if_any(rest)?;
    Ok(Call::Pipe {
        nonblock: flags.contains(OpenFlags::NONBLOCK),
        direct: flags.contains(OpenFlags::DIRECT),
    })
}

fn pipe_call<A: Allocator + Copy>(version: Version, rest: &[u8]) -> Result<Call<A>, LineFault>
    ensures { Gives result (pipe_of version (words rest.now)) }
{
    match version {
        Version::One => plain_pipe(rest),
        Version::Two => pipe_with_flags(rest),
    }
}

#[tactic(auto, unfolding(pl_model::specs::Lines::mkfifo_of))]
fn mkfifo_call<A: Allocator + Copy>(alloc: A, rest: &[u8]) -> Result<Call<A>, LineFault>
    ensures { GivesTaking CallTakes result (mkfifo_of (words rest.now)) }
{
    Ok(Call::Mkfifo {
        name: parse_name(alloc, only_word(rest)?)?,
    })
}

/// What a file is opened for.
#[tactic(auto, unfolding(pl_model::specs::Words::mode_of))]
pub(crate) fn parse_mode(word: &[u8]) -> Result<Mode, LineFault>
    ensures { Gives result (mode_of word.now) }
{
    if word == b"r".as_slice() {
        Ok(Mode::Read)
    } else if word == b"w".as_slice() {
        Ok(Mode::Write)
    } else if word == b"rw".as_slice() {
        Ok(Mode::Both)
    } else {
        Err(LineFault::Bad)
    }
}

#[tactic(auto, unfolding(pl_model::specs::Lines::open_name_of))]
fn open_call<A: Allocator + Copy>(alloc: A, rest: &[u8]) -> Result<Call<A>, LineFault>
    ensures { GivesTaking CallTakes result (open_name_of (words rest.now)) }
{
    let (name, rest) = word(rest)?;
    let (mode, rest) = word(rest)?;
    let mode = parse_mode(mode)?;
    let flags = open_flags_if_any(rest)?;
    // What takes memory comes last, as a bad line is bad whatever the memory.
    Ok(Call::OpenName {
        name: parse_name(alloc, name)?,
        mode,
        flags,
    })
}

#[tactic(auto, unfolding(pl_model::specs::Lines::read_of))]
fn read_call<A: Allocator + Copy>(rest: &[u8]) -> Result<Call<A>, LineFault>
    ensures { Gives result (read_of (words rest.now)) }
{
    let (fd, n) = fd_and_word(rest)?;
    Ok(Call::Read {
        fd,
        n: parse_u32(n)?,
    })
}

#[tactic(auto, unfolding(pl_model::specs::Lines::write_of))]
fn write_call<A: Allocator + Copy>(
    alloc: A,
    version: Version,
    rest: &[u8],
) -> Result<Call<A>, LineFault>
    ensures { GivesTaking CallTakes result (write_of version (words rest.now)) }
{
    let (fd, bytes) = fd_and_word(rest)?;
    Ok(Call::Write {
        fd,
        bytes: parse_bytes(alloc, version, bytes)?,
    })
}

/// One side of a splice: a descriptor, and the offset that may be given for it; and what stands behind them.
fn first_side(rest: &[u8]) -> Result<(i32, Option<u64>, &[u8]), LineFault>
    ensures { GivesAs (λ p. (p.0, p.1, words p.2.now)) result (first_side (words rest.now)) }
{
    let (fd, rest) = word(rest)?;
    let (offset, rest) = word(rest)?;
    let fd = parse_i32(fd)?;
    Ok((fd, parse_offset(offset)?, rest))
}

/// How many bytes are to go over at most, and the flags.
#[tactic(auto, unfolding(pl_model::specs::Lines::len_and_flags))]
fn len_and_flags(rest: &[u8]) -> Result<(u32, SpliceFlags), LineFault>
    ensures { Gives result (len_and_flags (words rest.now)) }
{
    let (len, rest) = word(rest)?;
    let len = parse_u32(len)?;
    Ok((len, splice_flags_if_any(rest)?))
}

#[tactic(auto, unfolding(pl_model::specs::Lines::splice_of))]
fn splice_call<A: Allocator + Copy>(rest: &[u8]) -> Result<Call<A>, LineFault>
    ensures { Gives result (splice_of (words rest.now)) }
{
    let (from, from_offset, rest) = first_side(rest)?;
    let (to, to_offset, rest) = first_side(rest)?;
    let (len, flags) = len_and_flags(rest)?;
    Ok(Call::Splice {
        from,
        from_offset,
        to,
        to_offset,
        len,
        flags,
    })
}

#[tactic(auto, unfolding(pl_model::specs::Lines::tee_of))]
fn tee_call<A: Allocator + Copy>(rest: &[u8]) -> Result<Call<A>, LineFault>
    ensures { Gives result (tee_of (words rest.now)) }
{
    let (from, rest) = word(rest)?;
    let (to, rest) = word(rest)?;
    let from = parse_i32(from)?;
    let to = parse_i32(to)?;
    let (len, flags) = len_and_flags(rest)?;
    Ok(Call::Tee {
        from,
        to,
        len,
        flags,
    })
}

/// Whether a poll waits.
#[tactic(auto, unfolding(pl_model::specs::Words::wait_of))]
pub(crate) fn parse_wait(word: &[u8]) -> Result<bool, LineFault>
    ensures { Gives result (wait_of word.now) }
{
    if word == b"now".as_slice() {
        Ok(false)
    } else if word == b"wait".as_slice() {
        Ok(true)
    } else {
        Err(LineFault::Bad)
    }
}

#[tactic(auto, unfolding(pl_model::specs::Lines::poll_of))]
fn poll_call<A: Allocator + Copy>(alloc: A, rest: &[u8]) -> Result<Call<A>, LineFault>
    ensures { GivesTaking CallTakes result (poll_of (words rest.now)) }
{
    let (when, rest) = word(rest)?;
    let wait = parse_wait(when)?;
    Ok(Call::Poll {
        entries: parse_entries(alloc, rest)?,
        wait,
    })
}

#[tactic(auto, unfolding(pl_model::specs::Lines::dup_of))]
fn dup_call<A: Allocator + Copy>(rest: &[u8]) -> Result<Call<A>, LineFault>
    ensures { Gives result (dup_of (words rest.now)) }
{
    Ok(Call::Dup {
        fd: only_i32(rest)?,
    })
}

#[tactic(auto, unfolding(pl_model::specs::Lines::dup2_of))]
fn dup2_call<A: Allocator + Copy>(rest: &[u8]) -> Result<Call<A>, LineFault>
    ensures { Gives result (dup2_of (words rest.now)) }
{
    let (fd, target) = fd_and_word(rest)?;
    Ok(Call::Dup2 {
        fd,
        target: parse_i32(target)?,
    })
}

#[tactic(auto, unfolding(pl_model::specs::Lines::dup_fd_of))]
fn dup_fd_call<A: Allocator + Copy>(rest: &[u8]) -> Result<Call<A>, LineFault>
    ensures { Gives result (dup_fd_of (words rest.now)) }
{
    let (fd, least) = fd_and_word(rest)?;
    Ok(Call::DupFd {
        fd,
        least: parse_i32(least)?,
    })
}

#[tactic(auto, unfolding(pl_model::specs::Lines::close_of))]
fn close_call<A: Allocator + Copy>(rest: &[u8]) -> Result<Call<A>, LineFault>
    ensures { Gives result (close_of (words rest.now)) }
{
    Ok(Call::Close {
        fd: only_i32(rest)?,
    })
}

/// Where an offset is counted from.
#[tactic(auto, unfolding(pl_model::specs::Words::whence_of))]
pub(crate) fn parse_whence(word: &[u8]) -> Result<Whence, LineFault>
    ensures { Gives result (whence_of word.now) }
{
    if word == b"set".as_slice() {
        Ok(Whence::Set)
    } else if word == b"cur".as_slice() {
        Ok(Whence::Cur)
    } else if word == b"end".as_slice() {
        Ok(Whence::End)
    } else {
        Err(LineFault::Bad)
    }
}

#[tactic(auto, unfolding(pl_model::specs::Lines::lseek_of))]
fn lseek_call<A: Allocator + Copy>(rest: &[u8]) -> Result<Call<A>, LineFault>
    ensures { Gives result (lseek_of (words rest.now)) }
{
    let (fd, rest) = word(rest)?;
    let (offset, rest) = word(rest)?;
    let whence = only_word(rest)?;
    Ok(Call::Lseek {
        fd: parse_i32(fd)?,
        offset: parse_i64(offset)?,
        whence: parse_whence(whence)?,
    })
}

#[tactic(auto, unfolding(pl_model::specs::Lines::get_fl_of))]
fn get_fl_call<A: Allocator + Copy>(rest: &[u8]) -> Result<Call<A>, LineFault>
    ensures { Gives result (get_fl_of (words rest.now)) }
{
    Ok(Call::GetFl {
        fd: only_i32(rest)?,
    })
}

#[tactic(auto, unfolding(pl_model::specs::Lines::set_fl_of))]
fn set_fl_call<A: Allocator + Copy>(rest: &[u8]) -> Result<Call<A>, LineFault>
    ensures { Gives result (set_fl_of (words rest.now)) }
{
    let (fd, flags) = fd_and_word(rest)?;
    Ok(Call::SetFl {
        fd,
        flags: parse_flags_or_none(flags)?,
    })
}

#[tactic(auto, unfolding(pl_model::specs::Lines::get_pipe_sz_of))]
fn get_pipe_sz_call<A: Allocator + Copy>(rest: &[u8]) -> Result<Call<A>, LineFault>
    ensures { Gives result (get_pipe_sz_of (words rest.now)) }
{
    Ok(Call::GetPipeSz {
        fd: only_i32(rest)?,
    })
}

#[tactic(auto, unfolding(pl_model::specs::Lines::set_pipe_sz_of))]
fn set_pipe_sz_call<A: Allocator + Copy>(rest: &[u8]) -> Result<Call<A>, LineFault>
    ensures { Gives result (set_pipe_sz_of (words rest.now)) }
{
    let (fd, size) = fd_and_word(rest)?;
    Ok(Call::SetPipeSz {
        fd,
        size: parse_u32(size)?,
    })
}

#[tactic(auto, unfolding(pl_model::specs::Lines::unlink_of))]
fn unlink_call<A: Allocator + Copy>(alloc: A, rest: &[u8]) -> Result<Call<A>, LineFault>
    ensures { GivesTaking CallTakes result (unlink_of (words rest.now)) }
{
    Ok(Call::Unlink {
        name: parse_name(alloc, only_word(rest)?)?,
    })
}

#[tactic(auto, unfolding(pl_model::specs::Lines::fork_of))]
fn fork_call<A: Allocator + Copy>(rest: &[u8]) -> Result<Call<A>, LineFault>
    ensures { Gives result (fork_of (words rest.now)) }
{
    end(rest)?;
    Ok(Call::Fork)
}

#[tactic(auto, unfolding(pl_model::specs::Lines::exit_of))]
fn exit_call<A: Allocator + Copy>(rest: &[u8]) -> Result<Call<A>, LineFault>
    ensures { Gives result (exit_of (words rest.now)) }
{
    end(rest)?;
    Ok(Call::Exit)
}

/// The call of this name, of those from `dup` on.
#[tactic(auto, unfolding(crate::specs::Parsed::later_call_of))]
fn parse_later_call<A: Allocator + Copy>(
    alloc: A,
    name: &[u8],
    rest: &[u8],
) -> Result<Call<A>, LineFault>
    ensures { GivesTaking CallTakes result (later_call_of name.now (words rest.now)) }
{
    if name == b"dup".as_slice() {
        dup_call(rest)
    } else if name == b"dup2".as_slice() {
        dup2_call(rest)
    } else if name == b"dupfd".as_slice() {
        dup_fd_call(rest)
    } else if name == b"close".as_slice() {
        close_call(rest)
    } else if name == b"lseek".as_slice() {
        lseek_call(rest)
    } else if name == b"getfl".as_slice() {
        get_fl_call(rest)
    } else if name == b"setfl".as_slice() {
        set_fl_call(rest)
    } else if name == b"getsz".as_slice() {
        get_pipe_sz_call(rest)
    } else if name == b"setsz".as_slice() {
        set_pipe_sz_call(rest)
    } else if name == b"unlink".as_slice() {
        unlink_call(alloc, rest)
    } else if name == b"fork".as_slice() {
        fork_call(rest)
    } else if name == b"exit".as_slice() {
        exit_call(rest)
    } else {
        Err(LineFault::Bad)
    }
}

/// The call of this name, with the words behind it.
#[tactic(auto, unfolding(pl_model::specs::Lines::call_of, crate::specs::Parsed::later_call_of))]
pub(crate) fn parse_call<A: Allocator + Copy>(
    alloc: A,
    version: Version,
    name: &[u8],
    rest: &[u8],
) -> Result<Call<A>, LineFault>
    ensures { GivesTaking CallTakes result (call_of version name.now (words rest.now)) }
{
    if name == b"pipe".as_slice() {
        pipe_call(version, rest)
    } else if name == b"mkfifo".as_slice() {
        mkfifo_call(alloc, rest)
    } else if name == b"open".as_slice() {
        open_call(alloc, rest)
    } else if name == b"read".as_slice() {
        read_call(rest)
    } else if name == b"write".as_slice() {
        write_call(alloc, version, rest)
    } else if name == b"splice".as_slice() {
        splice_call(rest)
    } else if name == b"tee".as_slice() {
        tee_call(rest)
    } else if name == b"poll".as_slice() {
        poll_call(alloc, rest)
    } else {
        parse_later_call(alloc, name, rest)
    }
}
