//! Steps that are made on buffers and entries of the test's.
use crate::bench::moved;
use bitflags::Flags;
use pl_kernel::{Answered, Kernel, PollEntry, Resumed, reply_of_write};
use pl_model::{Bytes8, Call, MaskList, PollList, PollMask, Reply, Step};
use std::alloc::{Allocator, Global};
use std::test::Fail;

/// The length of the greatest buffer, in bytes. A read that asks for more, or is resumed and gives more, is made as a step.
const MOST: usize = 65_536;

/// What every byte of a buffer is before a read.
const UNREAD: u8 = 0xa5;

/// What an entry of a poll says was found before the poll is made.
const UNNOTED: u16 = 0xa5a5;

/// Whether no byte was read into any of these.
fn are_unread(bytes: &[u8]) -> bool {
    for byte in bytes {
        if *byte != UNREAD {
            return false;
        }
    }
    true
}

/// The reply that a read's answer and its buffer tell. It fails where bytes behind those that were read changed.
fn told(alloc: Global, reply: Answered<usize>, buffer: &[u8]) -> Result<Reply, Fail> {
    let count = match reply {
        Answered::Done(count) => count,
        _ => 0,
    };
    let (Some(read), Some(rest)) = (buffer.get(..count), buffer.get(count..)) else {
        return Err(Fail::from("a read answers more bytes than there are in its buffer"));
    };
    if !are_unread(rest) {
        return Err(Fail::from("a read changes bytes behind those that it answers"));
    }
    Ok(match reply {
        Answered::Done(_) => {
            let copy = Vec::from_slice(alloc, read)?;
            Reply::Bytes(Bytes8::from_vec(copy).ok_or("more bytes than a call moves")?)
        }
        _ => reply.undone(),
    })
}

/// The entries that ask what a poll does.
fn entries_of<A: Allocator>(alloc: Global, asked: &PollList<A>) -> Result<Vec<PollEntry>, Fail> {
    let mut entries = Vec::with_capacity(alloc, asked.as_slice().len())?;
    for (fd, events) in asked.as_slice() {
        entries.push(PollEntry {
            fd: *fd,
            events: events.bits() as u16,
            revents: UNNOTED,
        })?;
    }
    Ok(entries)
}

/// Whether nothing was noted in any entry.
fn are_unnoted(entries: &[PollEntry]) -> bool {
    for entry in entries {
        if entry.revents != UNNOTED {
            return false;
        }
    }
    true
}

/// The reply that a poll's answer and its entries tell. It fails where an entry changed and none was to be noted.
fn polled(alloc: Global, reply: Answered<u32>, entries: &[PollEntry]) -> Result<Reply, Fail> {
    if !matches!(reply, Answered::Done(_)) && !are_unnoted(entries) {
        return Err(Fail::from("a poll that isn't answered changes its entries"));
    }
    Ok(match reply {
        Answered::Done(ready) => {
            let mut masks = Vec::with_capacity(alloc, entries.len())?;
            for entry in entries {
                if entry.revents > 0xff {
                    return Err(Fail::from("a poll notes bits that no mask has"));
                }
                masks.push(PollMask::from_bits_retain(entry.revents as u8))?;
            }
            Reply::Masks {
                ready,
                masks: MaskList::from_vec(masks),
            }
        }
        _ => reply.undone(),
    })
}

/// Makes a write from a buffer, a read or the resumption of a call into one, and a poll of entries, of memory of `alloc`, and any other
/// step as it is. Answers the reply; `None` where the kernel finds no memory.
pub(crate) fn reply_on_buffers<A: Allocator + Copy>(
    alloc: Global,
    kernel: &mut Kernel<A>,
    step: Step<A>,
) -> Result<Option<Reply>, Fail> {
    match step {
        Step::Begin(pid, Call::Write { fd, bytes }) => {
            Ok(
                kernel
                    .write_from(pid, fd, bytes.as_slice())
                    .ok()
                    .map(|answered| reply_of_write(answered)),
            )
        }
        Step::Begin(pid, Call::Read { fd, n }) if n as usize <= MOST => {
            let mut buffer = Vec::from_elem(alloc, UNREAD, n as usize)?;
            match kernel.read_into(pid, fd, &mut buffer) {
                Ok(reply) => Ok(Some(told(alloc, reply, &buffer)?)),
                Err(_) => Ok(None),
            }
        }
        Step::Begin(pid, Call::Poll { entries, wait }) => {
            let mut noted = entries_of(alloc, &entries)?;
            match kernel.poll_into(pid, &mut noted, wait) {
                Ok(reply) => Ok(Some(polled(alloc, reply, &noted)?)),
                Err(_) => Ok(None),
            }
        }
        Step::Resume(number) => {
            let mut buffer = Vec::from_elem(alloc, UNREAD, MOST)?;
            match kernel.resume_into(number, &mut buffer) {
                Ok(Resumed::Read(reply)) => Ok(Some(told(alloc, reply, &buffer)?)),
                Ok(Resumed::Other(reply)) => all_moved(alloc, Some(reply)),
                Ok(Resumed::Short(_)) => all_moved(alloc, kernel.step(Step::Resume(number)).ok()),
                Err(_) => Ok(None),
            }
        }
        step => all_moved(alloc, kernel.step(step).ok()),
    }
}

/// The reply, if there is one, with its bytes in memory of `alloc`.
fn all_moved<A: Allocator>(alloc: Global, reply: Option<Reply<A>>) -> Result<Option<Reply>, Fail> {
    match reply {
        Some(reply) => Ok(Some(moved(alloc, reply)?)),
        None => Ok(None),
    }
}
