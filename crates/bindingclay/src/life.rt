//! Kernels and processes.
ghost use Rattle.std.specs.Prelude.{◌≡◌, None, ◌≤◌, false};
ghost use Rattle.pl_model.specs.Numbers.{most_file_bytes};
ghost use Rattle.bindingclay.specs.Asked.{AreNone};
ghost use Rattle.std.specs.Ptr.{as_ptr};
ghost use Rattle.bindingclay.specs.Made.{Says, Wants};

use crate::handle::Handle;
use crate::layer::{Heap, Layer, Memory, address};
use crate::limits::{Asked, asked_by};
use pl_budget::Budget;
use pl_model::{Call, Step};
use pl_numbers::Answer;
use std::alloc::Global;

/// The version of these functions: 1,000,000 times the first number, 1,000 times the second, and the third.
const VERSION: u32 = 8_000;

/// Tells the version of these functions: 1,000,000 times the first number, 1,000 times the second, and the third.
#[unsafe(no_mangle)]
pub extern "C" fn bindingclay_version() -> u32
    ensures { result ≡ 8000 }
{
    VERSION
}

// Makes a kernel with no process, within what is asked, and writes the pointer of its handle to `kernel`.
fn open(alloc: Global, asked: &Asked, kernel: &mut *mut u8, budget: &mut *mut u8) -> bool
    requires file_max { asked.now.limits.file_max ≤ most_file_bytes }
    ensures unwritten { result ≡ false → kernel.new ≡ kernel.old }
{
    let Ok(made) = Box::new(alloc, Budget::new(alloc, asked.memory)) else {
        return false;
    };
    let heap: Heap = Box::leak(made);
    *budget = address(heap);
    match Box::new(alloc, Layer::new(heap, asked.limits)) {
        Ok(layer) => {
            *kernel = Box::into_raw(layer) as *mut u8;
            true
        }
        Err(_) => false,
    }
}

/// Makes a kernel with no process, within what the words of `limits` ask for, and writes the pointer of its handle to `kernel`. False where
/// there is no memory, and where the words ask for nothing that can be had. A pointer is written to `budget` once a block for the budget
/// was taken from `malloc`. Nothing here frees that block: C does, behind the kernel's end, or at once where the answer is false.
#[unsafe(no_mangle)]
pub extern "C" fn bindingclay_open_words(
    alloc: Global,
    limits: &[u64],
    kernel: &mut *mut u8,
    budget: &mut *mut u8,
) -> bool
    ensures limited { AreNone limits.now → result ≡ false }
    ensures unwritten { result ≡ false → kernel.new ≡ kernel.old }
{
    match asked_by(limits) {
        Some(asked) => open(alloc, &asked, kernel, budget),
        None => false,
    }
}

/// Frees the kernel, whose handle is of no use from then on, and writes the pointer of its budget's block to `budget`, for C to free.
#[unsafe(no_mangle)]
pub extern "C" fn bindingclay_end(handle: Handle, budget: &mut *mut u8)
    ensures { budget.new ≡ as_ptr handle.layer.heap }
{
    let layer = handle.into_box();
    *budget = layer.budget();
    drop(layer);
}

/// Tells what the kernel takes of its memory.
#[unsafe(no_mangle)]
pub extern "C" fn bindingclay_tell_memory(handle: Handle, memory: &mut Memory)
    ensures most { memory.new.most ≡ handle.layer.heap.now.counter.most }
    ensures spare { memory.new.spare ≤ handle.layer.kernel.limits.spare_max }
{
    *memory = handle.layer().memory();
}

/// Starts a process with no open descriptor: the value is its pid.
#[unsafe(no_mangle)]
pub extern "C" fn bindingclay_start(handle: Handle) -> Answer
    ensures says { Says handle.layer.kernel Step.Start result }
    ensures wants { handle.layer.recorder ≡ None → Wants handle.layer.kernel Step.Start result }
{
    handle.layer().start()
}

/// Starts a process whose descriptors name what those of this one do: the value is its pid (POSIX.1-2017, fork).
#[unsafe(no_mangle)]
pub extern "C" fn bindingclay_fork(handle: Handle, pid: u32) -> Answer
    ensures says { Says handle.layer.kernel (Step.Begin pid Call.Fork) result }
    ensures wants { handle.layer.recorder ≡ None → Wants handle.layer.kernel (Step.Begin pid Call.Fork) result }
{
    handle.step(Step::Begin(pid, Call::Fork))
}

/// Ends a process (POSIX.1-2017, _exit).
#[unsafe(no_mangle)]
pub extern "C" fn bindingclay_exit(handle: Handle, pid: u32) -> Answer
    ensures says { Says handle.layer.kernel (Step.Begin pid Call.Exit) result }
    ensures wants { handle.layer.recorder ≡ None → Wants handle.layer.kernel (Step.Begin pid Call.Exit) result }
{
    handle.step(Step::Begin(pid, Call::Exit))
}
