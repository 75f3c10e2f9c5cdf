//! How long the list of a reply is, told before the step is made. Nothing here takes memory.
ghost use Rattle.std.specs.Prelude.{◌≡◌, ◌≤◌, true};
ghost use Rattle.pl_model.specs.Memory.{is_frugal};
ghost use Rattle.pl_state.specs.Contents.{core_of};
ghost use Rattle.pl_kernel.specs.Buffers.{gives};
ghost use Rattle.pl_kernel.specs.Sizes.{no_list, sizes_begun, TellsSizes};

use pl_model::{Call, Step};
use pl_polls::{masks_to_begin, masks_to_resume};
use pl_state::KernelState;
use pl_transfers::bytes_to_resume;
use std::alloc::Allocator;

/// How many bytes a reply has, or how many masks; none of both where it has no list.
#[derive(Clone, Copy)]
pub(crate) struct ReplySizes {
    pub bytes: usize,
    pub masks: usize,
}

// A reply without a list.
const NO_LIST: ReplySizes = ReplySizes { bytes: 0, masks: 0 };

/// How many bytes a read of at most `n` gives that the process of a pid begins: none where it is refused or waits.
pub(crate) fn bytes_to_read<A: Allocator + Copy>(
    kernel: &KernelState<A>,
    pid: u32,
    fd: i32,
    n: u32,
) -> usize
    ensures value { result ≡ gives {A = A} kernel.now pid fd n }
    ensures most { result ≤ n }
{
    if !kernel.descs.has(pid) {
        return 0;
    }
    pl_transfers::bytes_to_read(kernel, pid, fd, n)
}

// The sizes of the reply of a call that a process begins.
#[inline(always)]
fn sizes_to_begin<A: Allocator + Copy>(
    kernel: &KernelState<A>,
    pid: u32,
    call: &Call<A>,
) -> ReplySizes
    ensures { result ≡ sizes_begun (core_of {A = A} kernel.now) pid call.now }
{
    match call {
        Call::Read { fd, n } => ReplySizes {
            bytes: pl_transfers::bytes_to_read(kernel, pid, *fd, *n),
            masks: 0,
        },
        Call::Poll { entries, wait } => ReplySizes {
            bytes: 0,
            masks: masks_to_begin(kernel, pid, entries.as_slice(), *wait),
        },
        _ => NO_LIST,
    }
}

/// The sizes of the reply to a step.
// In place in its caller, as the step is: where the call is written there, the match falls away.
#[inline(always)]
pub(crate) fn reply_sizes<A: Allocator + Copy>(
    kernel: &KernelState<A>,
    step: &Step<A>,
) -> ReplySizes
    ensures value { TellsSizes {A = A} kernel.now step.now result }
    ensures frugal { is_frugal step.now ≡ true → result ≡ no_list }
{
    match step {
        Step::Begin(pid, call) => {
            if !kernel.descs.has(*pid) {
                return NO_LIST;
            }
            sizes_to_begin(kernel, *pid, call)
        }
        Step::Resume(number) => ReplySizes {
            bytes: bytes_to_resume(kernel, *number),
            masks: masks_to_resume(kernel, *number),
        },
        Step::Start => NO_LIST,
        Step::Interrupt(_) => NO_LIST,
    }
}
