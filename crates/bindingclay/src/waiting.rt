//! Calls that wait.
ghost use Rattle.std.specs.Prelude.{◌≡◌, None, ◌<◌, length};
ghost use Rattle.pl_numbers.specs.Answers.{said, plain};
ghost use Rattle.pl_kernel.specs.Progress.{TellsProgress, OrWaitsInVain, ready_entries};
ghost use Rattle.bindingclay.specs.Heap.{InBudget};
ghost use Rattle.bindingclay.specs.Made.{Says, Moves, Wants, Resumed, unmoved, Gathers, IsFrugal, Notes, Owns, Takes, TellsNext};

use crate::handle::Handle;
use pl_kernel::PollEntry;
use pl_model::Step;
use pl_numbers::Answer;

/// Tries the parked call of a number again, where a read gives its bytes into the caller's. Where it would give more than
/// these, the answer says how many, and nothing changed. A poll that can get on isn't tried: the answer says how many entries it has. Of a
/// write that waits on it tells whether more of its bytes went in.
#[unsafe(no_mangle)]
pub extern "C" fn bindingclay_resume(handle: Handle, number: u64, into: &mut [u8]) -> Answer
    ensures says { Resumed handle.layer.kernel number result (λ reply. unmoved result ≡ said reply) }
    ensures moved { Moves handle.layer.kernel (Step.Resume number) result }
    ensures wants { handle.layer.recorder ≡ None → Wants handle.layer.kernel (Step.Resume number) result }
    ensures polls { 0 < ready_entries handle.layer.kernel number → (result ≡ plain (ready_entries handle.layer.kernel number) 7) × (into.new ≡ into.old) }
    ensures wider { ready_entries handle.layer.kernel number ≡ 0 → result.kind ≡ 7 → length into.old < result.value }
    ensures bytes { ready_entries handle.layer.kernel number ≡ 0 → Gathers handle.layer.kernel number into.old result into.new }
    ensures frugal { handle.layer.recorder ≡ None → IsFrugal handle.layer.kernel number result }
{
    handle.layer().resume(number, into)
}

/// Tries the parked call of a number again, where a poll notes in each entry what was found. Where the call is a read that
/// would give bytes, the answer says how many, and nothing changed.
#[unsafe(no_mangle)]
pub extern "C" fn bindingclay_resume_poll(
    handle: Handle,
    number: u64,
    entries: &mut [PollEntry],
) -> Answer
    ensures says { Resumed handle.layer.kernel number result (λ reply. unmoved result ≡ said reply) }
    ensures moved { Moves handle.layer.kernel (Step.Resume number) result }
    ensures wants { handle.layer.recorder ≡ None → Wants handle.layer.kernel (Step.Resume number) result }
    ensures entries { Notes handle.layer.kernel number entries.old result entries.new }
    ensures frugal { handle.layer.recorder ≡ None → IsFrugal handle.layer.kernel number result }
{
    handle.layer().resume_poll(number, entries)
}

/// Tells which process began the parked call of a number: the value is its pid.
#[unsafe(no_mangle)]
pub extern "C" fn bindingclay_owner(handle: Handle, number: u64) -> Answer
    ensures { Owns handle.layer.kernel number result }
{
    handle.layer().owner(number)
}

/// Tells how many bytes the parked call of a number has taken, as a write has that waits with some of its bytes in the pipe: the value is
/// how many.
#[unsafe(no_mangle)]
pub extern "C" fn bindingclay_taken(handle: Handle, number: u64) -> Answer
    ensures { Takes handle.layer.kernel number result }
{
    handle.layer().taken(number)
}

/// Tells whether the parked call of a number can get on: tried again now, it is answered, or takes more of its bytes. Where it can't, trying
/// it again answers that it waits on, and moves no byte.
#[unsafe(no_mangle)]
pub extern "C" fn bindingclay_can_progress(handle: Handle, number: u64) -> bool
    ensures value { TellsProgress {A = InBudget} handle.layer.kernel number result }
    ensures vain { OrWaitsInVain {A = InBudget} handle.layer.kernel number result }
{
    handle.layer().can_progress(number)
}

/// Tells the least number, `from` or above, of a parked call that can get on: the value is that number. If no call from there on can, the
/// answer is that there is no such call.
#[unsafe(no_mangle)]
pub extern "C" fn bindingclay_next_ready(handle: Handle, from: u64) -> Answer
    ensures { TellsNext handle.layer.kernel from result }
{
    handle.layer().next_ready(from)
}

/// Ends the parked call of a number, as a signal does (POSIX.1-2017, Interrupted functions: `EINTR`).
#[unsafe(no_mangle)]
pub extern "C" fn bindingclay_interrupt(handle: Handle, number: u64) -> Answer
    ensures says { Says handle.layer.kernel (Step.Interrupt number) result }
    ensures wants { handle.layer.recorder ≡ None → Wants handle.layer.kernel (Step.Interrupt number) result }
{
    handle.step(Step::Interrupt(number))
}
