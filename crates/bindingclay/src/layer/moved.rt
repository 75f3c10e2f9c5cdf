//! Whether a step took bytes of a call that waits on.
ghost use Rattle.std.specs.Prelude.{◌≡◌, ◌&&◌, false, nat_eq, nat_lt};
ghost use Rattle.pl_model.specs.Fates.{taken_by};
ghost use Rattle.pl_model.specs.Numbered.{State};
ghost use Rattle.pl_state.specs.Makes.{Stands};
ghost use Rattle.pl_numbers.specs.Answers.{parked};
ghost use Rattle.bindingclay.specs.Heap.{InBudget};

use super::Heap;
use pl_kernel::Kernel;
use pl_numbers::{Answer, kind};

/// How many bytes the parked call of a number has taken; 0 where no call is parked under it.
// Out of line: few steps ask it, and a write that doesn't wait stays short.
#[inline(never)]
pub(super) fn taken_so_far(kernel: &Kernel<Heap>, number: u64) -> u32
    ensures { (s : State InBudget) → Stands kernel.now s → result ≡ taken_by s.core number }
{
    kernel.taken(number).unwrap_or(0)
}

// The same answer of a call that waits on. Out of line, as few steps leave one.
#[inline(never)]
fn tell_waiting(kernel: &Kernel<Heap>, before: u32, answer: Answer) -> Answer
    ensures rest { result ≡ record answer { moved = result.moved } }
    ensures value { (s : State InBudget) → Stands kernel.now s → result.moved ≡ nat_lt before (taken_by s.core answer.value) }
{
    Answer {
        moved: before < taken_so_far(kernel, answer.value),
        ..answer
    }
}

/// The same answer, which tells too whether its step took bytes of a call that waits on. The kernel is as the step left it, and is asked only if
/// the call waits. `before` is how many bytes the call had taken before the step.
#[inline(always)]
pub(super) fn tell_moved(kernel: &Kernel<Heap>, before: u32, answer: Answer) -> Answer
    ensures rest { result ≡ record answer { moved = result.moved } }
    ensures value { (s : State InBudget) → Stands kernel.now s → result.moved ≡ (nat_eq answer.kind parked && nat_lt before (taken_by s.core answer.value)) }
    ensures others { (answer.kind ≡ parked → ⊥) → result.moved ≡ false }
{
    if answer.kind == kind::PARKED {
        return tell_waiting(kernel, before, answer);
    }
    Answer {
        moved: false,
        ..answer
    }
}
