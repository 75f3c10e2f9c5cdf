//! What a poll finds.
ghost use Rattle.std.specs.Prelude.{◌≡◌};
ghost use Rattle.pl_model.specs.Poll.{bits_if, reader_bits, writer_bits, mask_of as machine_mask_of};

use bitflags::Flags;
use pl_model::numbers::PIPE_BUF;
use pl_model::{PollMask, Polled};

// The mask, where the test holds.
fn mask_if(holds: bool, mask: PollMask) -> PollMask
    ensures { result.0 ≡ bits_if holds mask.0 }
{
    if holds { mask } else { PollMask::empty() }
}

// What is found of an end that reads.
fn reader_mask(held: usize, hung: bool, asked: PollMask) -> PollMask
    ensures { result.0 ≡ reader_bits held hung asked.0 }
{
    let readable = asked.contains(PollMask::IN) && held > 0;
    mask_if(readable, PollMask::IN).union(mask_if(hung, PollMask::HUP))
}

// What is found of an end that writes.
fn writer_mask(room: usize, has_reader: bool, asked: PollMask) -> PollMask
    ensures { result.0 ≡ writer_bits room has_reader asked.0 }
{
    let writable = asked.contains(PollMask::OUT) && PIPE_BUF <= room;
    mask_if(writable, PollMask::OUT).union(mask_if(!has_reader, PollMask::ERR))
}

/// What a poll finds of an open file description of which `asked` is asked (POSIX.1-2017, poll). Of a regular file, `IN` and `OUT` where
/// asked. Of a pipe, by an end that reads, `IN` where asked and something is held, and `HUP` where the pipe is hung; by one that writes,
/// `OUT` where asked and there is room for 4,096 bytes, which is our own choice, and `ERR` where no reader is left. `HUP` and `ERR` come
/// unasked.
#[inline(always)]
pub fn mask_of(polled: Polled, asked: PollMask) -> PollMask
    ensures { result ≡ machine_mask_of polled asked }
{
    match polled {
        Polled::File => asked.intersection(PollMask::IN.union(PollMask::OUT)),
        Polled::Pipe {
            mode,
            held,
            room,
            has_reader,
            hung,
        } => {
            let read = mask_if(mode.reads(), reader_mask(held, hung, asked));
            read.union(mask_if(mode.writes(), writer_mask(room, has_reader, asked)))
        }
    }
}
