//! Bytes, and how they move.
ghost use Rattle.std.specs.Prelude.{◌≡◌, None, ⊤, length, min, take, MatchOption};
ghost use Rattle.pl_model.specs.Numbers.{most_bytes};
ghost use Rattle.pl_model.specs.declared.replies.Errno.TheVariants.{EINVAL};
ghost use Rattle.pl_kernel.specs.Buffers.{Parks};
ghost use Rattle.pl_model.specs.declared.calls.Call.{Call};
ghost use Rattle.pl_model.specs.declared.calls.Step.{Step};
ghost use Rattle.pl_numbers.specs.Answers.{faulty};
ghost use Rattle.pl_numbers.specs.Flags.{splice_flags_of_bits};
ghost use Rattle.bindingclay.specs.Made.{Says, Moves, Wants, Replied, unmoved, bytes_after, offset_of};

use crate::handle::Handle;
use pl_numbers::Answer;

/// Reads into the caller's bytes, at most 16,777,216 (POSIX.1-2017, read): the value is how many; 0 is end of file.
#[unsafe(no_mangle)]
pub extern "C" fn bindingclay_read(handle: Handle, pid: u32, fd: i32, into: &mut [u8]) -> Answer
    ensures says { Says handle.layer.kernel (Step.Begin pid (Call.Read fd (min most_bytes (length into.old)))) result }
    ensures wants { handle.layer.recorder ≡ None → result.kind ≡ 6 → Parks handle.layer.kernel (Step.Begin pid (Call.Read fd (min most_bytes (length into.old)))) }
    ensures bytes { Replied handle.layer.kernel (Step.Begin pid (Call.Read fd (min most_bytes (length into.old)))) result (λ reply. into.new ≡ bytes_after into.old reply) }
    ensures unread { result.kind ≡ 6 → into.new ≡ into.old }
{
    handle.layer().read(pid, fd, into)
}

/// Writes the first of the caller's bytes, at most 16,777,216 (POSIX.1-2017, write): the value is how many. A call that is parked keeps a
/// copy of them all, and the answer tells whether some of them went in.
#[unsafe(no_mangle)]
pub extern "C" fn bindingclay_write(handle: Handle, pid: u32, fd: i32, bytes: &[u8]) -> Answer
    ensures says { Says handle.layer.kernel (Step.Begin pid (Call.Write fd (take most_bytes bytes.now))) (unmoved result) }
    ensures moved { Moves handle.layer.kernel (Step.Begin pid (Call.Write fd (take most_bytes bytes.now))) result }
    ensures wants { handle.layer.recorder ≡ None → Wants handle.layer.kernel (Step.Begin pid (Call.Write fd (take most_bytes bytes.now))) result }
{
    handle.layer().write(pid, fd, bytes)
}

/// Moves at most `len` bytes, at the offsets that are given or else at the files' own (splice(2)): the value is how many. `EINVAL` before
/// all else where another bit than those of the flags is set.
#[unsafe(no_mangle)]
pub extern "C" fn bindingclay_splice_at(
    handle: Handle,
    pid: u32,
    from: i32,
    has_from_offset: bool,
    from_offset: u64,
    to: i32,
    has_to_offset: bool,
    to_offset: u64,
    len: u32,
    flags: u32,
) -> Answer
    ensures says { MatchOption (splice_flags_of_bits flags) (result ≡ faulty EINVAL) (λ flags. Says handle.layer.kernel (Step.Begin pid (Call.Splice from (offset_of has_from_offset from_offset) to (offset_of has_to_offset to_offset) len flags)) result) }
    ensures wants { handle.layer.recorder ≡ None → MatchOption (splice_flags_of_bits flags) ⊤ (λ flags. Wants handle.layer.kernel (Step.Begin pid (Call.Splice from (offset_of has_from_offset from_offset) to (offset_of has_to_offset to_offset) len flags)) result) }
{
    handle.layer().splice(
        pid,
        from,
        has_from_offset,
        from_offset,
        to,
        has_to_offset,
        to_offset,
        len,
        flags,
    )
}

/// Copies at most `len` bytes from a pipe to another, and leaves them in the first (tee(2)): the value is how many. `EINVAL` before all
/// else where another bit than those of the flags is set.
#[unsafe(no_mangle)]
pub extern "C" fn bindingclay_tee(
    handle: Handle,
    pid: u32,
    from: i32,
    to: i32,
    len: u32,
    flags: u32,
) -> Answer
    ensures says { MatchOption (splice_flags_of_bits flags) (result ≡ faulty EINVAL) (λ flags. Says handle.layer.kernel (Step.Begin pid (Call.Tee from to len flags)) result) }
    ensures wants { handle.layer.recorder ≡ None → MatchOption (splice_flags_of_bits flags) ⊤ (λ flags. Wants handle.layer.kernel (Step.Begin pid (Call.Tee from to len flags)) result) }
{
    handle.layer().tee(pid, from, to, len, flags)
}
