//! What descriptors are ready for.
ghost use Rattle.std.specs.Prelude.{◌≡◌, None};
ghost use Rattle.pl_model.specs.declared.calls.Call.{Call};
ghost use Rattle.pl_model.specs.declared.calls.Step.{Step};
ghost use Rattle.pl_kernel.specs.Buffers.{Parks};
ghost use Rattle.pl_polls.specs.Entries.{asked, entries_after};
ghost use Rattle.bindingclay.specs.Made.{Says, Replied};

use crate::handle::Handle;
use pl_kernel::PollEntry;
use pl_numbers::Answer;

/// Tells what each entry's descriptor is ready for, and with `wait` waits until one is ready for anything (POSIX.1-2017, poll): the value
/// is how many are. More than 256 entries are refused, whatever they are.
#[unsafe(no_mangle)]
pub extern "C" fn bindingclay_poll(
    handle: Handle,
    pid: u32,
    entries: &mut [PollEntry],
    wait: bool,
) -> Answer
    ensures says { Says handle.layer.kernel (Step.Begin pid (Call.Poll (asked entries.old) wait)) result }
    ensures entries { Replied handle.layer.kernel (Step.Begin pid (Call.Poll (asked entries.old) wait)) result (λ reply. entries.new ≡ entries_after entries.old reply) }
    ensures unmarked { result.kind ≡ 6 → entries.new ≡ entries.old }
    ensures wants { handle.layer.recorder ≡ None → result.kind ≡ 6 → Parks handle.layer.kernel (Step.Begin pid (Call.Poll (asked entries.old) wait)) }
{
    handle.layer().poll(pid, entries, wait)
}
