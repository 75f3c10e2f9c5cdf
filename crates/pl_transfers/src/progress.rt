//! Whether a read or a write that waits can make progress. Nothing here takes memory.
ghost use Rattle.std.specs.Prelude.{◌≡◌};
ghost use Rattle.pl_model.specs.Waking.{can_progress};
ghost use Rattle.pl_state.specs.Contents.{core_of};
ghost use Rattle.pl_state.specs.Parking.{ReadWaits, WriteWaits};

use crate::transfers::{case_of_read, case_of_write};
use crate::waiting::pipe_of;
use pl_model::{ReadCase, WriteCase};
use pl_state::KernelState;
use std::alloc::Allocator;

/// Whether a read that waits can make progress: it gets bytes, or the end of file.
#[inline(always)]
pub fn read_can_progress<A: Allocator + Copy>(
    kernel: &KernelState<A>,
    number: u64,
    key: usize,
    n: u32,
) -> bool
    requires { ReadWaits kernel.now number key n }
    ensures { result ≡ can_progress (core_of {A = A} kernel.now) number }
{
    // A proof learns here what holds of the kernel.
    let _ = &kernel.descs;
    let pipe = pipe_of(kernel, key);
    match case_of_read(kernel, pipe, n) {
        ReadCase::Gives(_) => true,
        ReadCase::EndOfFile => true,
        ReadCase::Waits => false,
    }
}

/// Whether a write that waits can make progress: it ends, or more of its bytes go in.
pub fn write_can_progress<A: Allocator + Copy>(
    kernel: &KernelState<A>,
    number: u64,
    key: usize,
    length: usize,
    taken: u32,
) -> bool
    requires { WriteWaits kernel.now number key length taken }
    ensures { result ≡ can_progress (core_of {A = A} kernel.now) number }
{
    // A proof learns here what holds of the kernel.
    let _ = &kernel.descs;
    let pipe = pipe_of(kernel, key);
    match case_of_write(kernel, pipe, length, taken as usize, true) {
        WriteCase::Broken => true,
        WriteCase::CutShort => true,
        WriteCase::Ends { .. } => true,
        WriteCase::Waits { to, .. } => to != taken as usize,
    }
}
