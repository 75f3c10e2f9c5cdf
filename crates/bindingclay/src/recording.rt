//! Records of runs.
ghost use Rattle.std.specs.Prelude.{◌≡◌, ◌⊎◌, true, false};
ghost use Rattle.pl_model.specs.declared.replies.Errno.TheVariants.{EINVAL};
ghost use Rattle.pl_numbers.specs.Answers.{plain, faulty, no_memory};
ghost use Rattle.bindingclay.specs.Recorded.{HandsOut};

use crate::handle::Handle;
use pl_numbers::Answer;

/// Begins to record the steps of the kernel, or with `on` false ends that, and drops what wasn't handed out. `EINVAL` to begin once a process
/// was started or a recording begun: a record tells all steps of a run. While steps are recorded, any of them may find no memory.
#[unsafe(no_mangle)]
pub extern "C" fn bindingclay_record(handle: Handle, on: bool) -> Answer
    ensures refused { on ≡ true → handle.layer.is_fresh ≡ false → result ≡ faulty EINVAL }
    ensures tried { on ≡ true → handle.layer.is_fresh ≡ true → (result ≡ plain 0 0) ⊎ (result ≡ plain 0 no_memory) }
    ensures ended { on ≡ false → result ≡ plain 0 0 }
{
    if on {
        handle.layer().record()
    } else {
        handle.layer().end_record()
    }
}

/// Hands out the first bytes of the record that weren't handed out, as many as the caller's are: the value is how many. It is 0 only if
/// nothing is left, or the caller has no room. `EINVAL` if no recording goes on.
#[unsafe(no_mangle)]
pub extern "C" fn bindingclay_recorded(handle: Handle, into: &mut [u8]) -> Answer
    ensures { HandsOut handle.layer.recorder into.old result into.new }
{
    handle.layer().recorded(into)
}
