//! Files and FIFOs by name.
ghost use Rattle.std.specs.Prelude.{◌≡◌, take, MatchOption};
ghost use Rattle.bindingclay.specs.Heap.{InBudget};
ghost use Rattle.pl_model.specs.declared.replies.Errno.TheVariants.{EINVAL};
ghost use Rattle.pl_model.specs.State.{file_bytes};
ghost use Rattle.pl_model.specs.Numbered.{State};
ghost use Rattle.pl_state.specs.Makes.{Stands};
ghost use Rattle.pl_model.specs.declared.calls.Call.{Call};
ghost use Rattle.pl_model.specs.declared.calls.Step.{Step};
ghost use Rattle.pl_numbers.specs.Answers.{faulty};
ghost use Rattle.pl_numbers.specs.Flags.{mode_of_bits, open_flags_of_bits};
ghost use Rattle.bindingclay.specs.Made.{Says, Gives};

use crate::handle::Handle;
use pl_numbers::Answer;

/// Makes a FIFO (POSIX.1-2017, mkfifo).
#[unsafe(no_mangle)]
pub extern "C" fn bindingclay_mkfifo(handle: Handle, pid: u32, name: &[u8]) -> Answer
    ensures { Says handle.layer.kernel (Step.Begin pid (Call.Mkfifo (take 256 name.now))) result }
{
    handle.layer().mkfifo(pid, name)
}

/// Opens what a name stands for, with the mode and the flags that Linux's bits say (POSIX.1-2017, open): the value is the descriptor.
/// `EINVAL` before all else where both bits of the mode are set.
#[unsafe(no_mangle)]
pub extern "C" fn bindingclay_open_name(handle: Handle, pid: u32, name: &[u8], flags: u32) -> Answer
    ensures { MatchOption (mode_of_bits flags) (result ≡ faulty EINVAL)
        (λ mode. Says handle.layer.kernel (Step.Begin pid (Call.OpenName (take 256 name.now) mode (open_flags_of_bits flags))) result) }
{
    handle.layer().open_name(pid, name, flags)
}

/// Takes a name away (POSIX.1-2017, unlink).
#[unsafe(no_mangle)]
pub extern "C" fn bindingclay_unlink(handle: Handle, pid: u32, name: &[u8]) -> Answer
    ensures { Says handle.layer.kernel (Step.Begin pid (Call.Unlink (take 256 name.now))) result }
{
    handle.layer().unlink(pid, name)
}

/// Copies the bytes of the file of a name to the caller's: the value is how many. Where there is too little room, the answer says how
/// many they are; of what is no file it is `ENOENT`.
#[unsafe(no_mangle)]
pub extern "C" fn bindingclay_file_bytes(handle: Handle, name: &[u8], into: &mut [u8]) -> Answer
    ensures told { ((result.kind ≡ 6) → ⊥) → (s : State InBudget) → Stands handle.layer.kernel s → Gives (file_bytes s.core (take 256 name.now)) result into.old into.new }
    ensures untold { result.kind ≡ 6 → into.new ≡ into.old }
{
    handle.layer().file_bytes(name, into)
}
