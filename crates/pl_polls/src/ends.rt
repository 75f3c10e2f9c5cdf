//! What a poll finds of an end of a pipe, whichever description has the end.
ghost use Rattle.std.specs.Prelude.{◌≡◌, IsSome};
ghost use Rattle.pl_model.specs.Poll.{mask_of as machine_mask, is_ready as is_mask_ready};
ghost use Rattle.pl_desc.specs.Rows.{at};
ghost use Rattle.pl_state.specs.Contents.{core_of};
ghost use Rattle.pl_polls.specs.Ends.{end_at};

use bitflags::Flags;
use pl_decisions::mask_of;
use pl_model::{Mode, Node, PollMask, Polled};
use pl_state::KernelState;
use std::alloc::Allocator;

/// Whether a poll finds something of a pipe, of which it asks this by a description of this mode (POSIX.1-2017, poll). It takes no memory.
pub fn end_is_ready<A: Allocator + Copy>(
    kernel: &KernelState<A>,
    pipe: usize,
    mode: Mode,
    asked: PollMask,
) -> bool
    requires { IsSome (at kernel.now.nodes.pipes pipe) }
    ensures { result ≡ is_mask_ready (machine_mask (end_at (core_of {A = A} kernel.now) pipe mode) asked) }
{
    // A proof learns here what holds of the kernel.
    let _ = &kernel.descs;
    let polled = Polled::Pipe {
        mode,
        held: kernel.nodes.held(pipe),
        room: kernel.nodes.room(pipe),
        has_reader: kernel.descs.readers(Node::Pipe(pipe)) > 0,
        hung: kernel.nodes.is_hung(pipe),
    };
    !mask_of(polled, asked).is_empty()
}
