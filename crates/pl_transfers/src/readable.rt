//! How many bytes a read gives, told before it is made. Nothing here takes memory.
ghost use Rattle.std.specs.Prelude.{◌≡◌, ◌≤◌, ℕ, min, IsSome, IfSome, IfNone};
ghost use Rattle.pl_model.specs.Numbers.{most_capacity};
ghost use Rattle.pl_model.specs.Begin.{open_for};
ghost use Rattle.pl_model.specs.Modes.{reads};
ghost use Rattle.pl_desc.specs.Rows.{at};
ghost use Rattle.pl_state.specs.Contents.{core_of, description_of, node_of, waiting_of};
ghost use Rattle.pl_state.specs.Parking.{ReadWaits};
ghost use Rattle.pl_transfers.specs.Again.{FindsAgain};
ghost use Rattle.pl_transfers.specs.Readable.{readable as machine_readable, readable_on, gives_again};

use crate::transfers::open_for;
use crate::waiting::{pipe_of, waiting_read};
use pl_decisions::place_in_file;
use pl_model::Node;
use pl_state::{Access, KernelState};
use std::alloc::Allocator;

// How many bytes are there to be read on a description (POSIX.1-2017, read).
fn readable<A: Allocator + Copy>(kernel: &KernelState<A>, key: usize) -> usize
    requires { IsSome (at kernel.now.opened key) }
    ensures { IfSome (at kernel.now.opened key) (λ o. result ≡ readable_on (core_of {A = A} kernel.now) (description_of o) (node_of o.node)) }
{
    match kernel.descs.node(key) {
        Node::Pipe(pipe) => kernel.nodes.front(pipe),
        Node::File(file) => {
            let place = place_in_file(kernel.descs.offset(key));
            kernel.nodes.file_len(file).saturating_sub(place)
        }
    }
}

/// How many bytes a read of at most `n` gives that a process begins on its descriptor: none where it is refused, or waits.
pub fn bytes_to_read<A: Allocator + Copy>(
    kernel: &KernelState<A>,
    pid: u32,
    fd: i32,
    n: u32,
) -> usize
    ensures { result ≡ min n (machine_readable (core_of {A = A} kernel.now) (open_for reads (core_of {A = A} kernel.now) pid fd)) }
{
    match open_for(kernel, pid, fd, Access::Reading) {
        Some(open) => (n as usize).min(readable(kernel, open.key)),
        None => 0,
    }
}

/// What the next try of a read that waits finds.
#[derive(Clone, Copy)]
pub struct ReadAgain {
    /// The key of the description.
    pub key: usize,
    /// The key of the pipe that it is open on.
    pub pipe: usize,
    /// How many bytes it asks for.
    pub n: u32,
    /// How many bytes it gives: none where it waits on, or comes to the end of file.
    pub count: usize,
}

/// What the next try of the parked call of a number finds, where it is a read.
#[inline(always)]
pub fn read_again<A: Allocator + Copy>(kernel: &KernelState<A>, number: u64) -> Option<ReadAgain>
    ensures some { IfSome result (FindsAgain kernel.now number) }
    ensures none { IfNone result ((key n : ℕ) → ¬ ReadWaits {A = A} kernel.now number key n) }
{
    // A proof learns here what holds of the kernel.
    let _ = &kernel.descs;
    let read = waiting_read(kernel, number)?;
    let pipe = pipe_of(kernel, read.key);
    Some(ReadAgain {
        key: read.key,
        pipe,
        n: read.n,
        count: (read.n as usize).min(kernel.nodes.front(pipe)),
    })
}

/// How many bytes the parked call of a number gives where it is tried again now: none where it waits on, or is no read, or isn't
/// there.
pub fn bytes_to_resume<A: Allocator + Copy>(kernel: &KernelState<A>, number: u64) -> usize
    ensures value { result ≡ gives_again {A = A} kernel.now number }
    ensures few { result ≤ most_capacity }
{
    // A proof learns here what holds of the kernel.
    let _ = &kernel.descs;
    match read_again(kernel, number) {
        Some(read) => read.count,
        None => 0,
    }
}
