//! Reads that wait, and are tried again. What such a step touches is noted before it, and the queues know afterwards what waits.
ghost use Rattle.std.specs.Prelude.{◌≡◌, ◌≤◌, length, drop};
ghost use Rattle.pl_state.specs.Contents.{core_of};
ghost use Rattle.pl_state.specs.Makes.{MakesAtKeys};
ghost use Rattle.pl_transfers.specs.ReadInto.{told, read_count};
ghost use Rattle.pl_transfers.specs.Again.{FindsAgain};
ghost use Rattle.pl_kernel.specs.Index.{Knows};

use crate::queue::waiting_read;
use crate::touch::{touch_again, touch_read_again};
use pl_model::Step;
use pl_state::{Answered, KernelState};
use pl_transfers::{ReadAgain, give_again};
use pl_waiters::Waiters;
use std::alloc::Allocator;

// Tries a parked read again that gives no bytes. Out of line, so that one that gives bytes stays short.
#[inline(never)]
fn resume_empty<A: Allocator + Copy>(
    kernel: &mut KernelState<A>,
    waiters: &mut Waiters<A>,
    number: u64,
    read: ReadAgain,
    into: &mut [u8],
) -> Answered<usize>
    requires found { FindsAgain kernel.old number read }
    requires none { read.count ≡ 0 }
    requires knows { Knows (core_of {A = A} kernel.old) waiters.old }
    ensures done { MakesAtKeys {A = A} kernel.old (Step.Resume number) (told result into.new) kernel.new }
    ensures within { read_count result ≤ length into.new }
    ensures rest { drop (read_count result) into.new ≡ drop (read_count result) into.old }
    ensures knows { Knows (core_of {A = A} kernel.new) waiters.new }
{
    // A proof learns here what holds of the kernel.
    let _ = &kernel.descs;
    touch_again(kernel, waiters, number);
    let reply = pl_transfers::resume_read_into(kernel, number, read.key, read.n, into);
    // The same once the step was made.
    let _ = &kernel.descs;
    reply
}

/// Tries a parked read again, into the caller's bytes, which are as many as it gives, or more.
#[inline(always)]
pub(crate) fn resume_read_into<A: Allocator + Copy>(
    kernel: &mut KernelState<A>,
    waiters: &mut Waiters<A>,
    number: u64,
    read: ReadAgain,
    into: &mut [u8],
) -> Answered<usize>
    requires found { FindsAgain kernel.old number read }
    requires room { read.count ≤ length into.old }
    requires knows { Knows (core_of {A = A} kernel.old) waiters.old }
    ensures done { MakesAtKeys {A = A} kernel.old (Step.Resume number) (told result into.new) kernel.new }
    ensures within { read_count result ≤ length into.new }
    ensures rest { drop (read_count result) into.new ≡ drop (read_count result) into.old }
    ensures knows { Knows (core_of {A = A} kernel.new) waiters.new }
{
    if read.count == 0 {
        return resume_empty(kernel, waiters, number, read, into);
    }
    // A proof learns here what holds of the kernel.
    let _ = &kernel.descs;
    touch_read_again(kernel, waiters, number, read);
    give_again(kernel, number, read, &mut into[..read.count]);
    // The same once the step was made.
    let _ = &kernel.descs;
    // It leaves its queue at once, where it would be found again as the pipe is asked.
    waiters.remove(&waiting_read(read.pipe, number));
    Answered::Done(read.count)
}
