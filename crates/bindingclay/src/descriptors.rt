//! Descriptors, and what they name.
ghost use Rattle.std.specs.Prelude.{◌≡◌, None, ⊤, MatchOption, false};
ghost use Rattle.pl_model.specs.declared.replies.Errno.TheVariants.{EINVAL};
ghost use Rattle.pl_numbers.specs.Answers.{faulty, ends_after};
ghost use Rattle.pl_numbers.specs.Flags.{open_flags_of_bits, pipe_flags_of_bits};
ghost use Rattle.pl_numbers.specs.Places.{whence_of_number};
ghost use Rattle.bindingclay.specs.Made.{Says, Wants, Replied};

use crate::handle::Handle;
use pl_model::{Call, Step};
use pl_numbers::{Answer, Ends, open_flags_of_bits};

/// Makes a pipe, and tells its ends (POSIX.1-2017, pipe; with `nonblock` pipe2(2), `O_NONBLOCK`).
#[unsafe(no_mangle)]
pub extern "C" fn bindingclay_pipe(
    handle: Handle,
    pid: u32,
    nonblock: bool,
    ends: &mut Ends,
) -> Answer
    ensures says { Says handle.layer.kernel (Step.Begin pid (Call.Pipe nonblock false)) result }
    ensures wants { handle.layer.recorder ≡ None → Wants handle.layer.kernel (Step.Begin pid (Call.Pipe nonblock false)) result }
    ensures ends { Replied handle.layer.kernel (Step.Begin pid (Call.Pipe nonblock false)) result (λ reply. ends.new ≡ ends_after ends.old reply) }
    ensures untold { result.kind ≡ 6 → ends.new ≡ ends.old }
{
    handle.layer().pipe(pid, nonblock, false, ends)
}

/// Makes a pipe as Linux's bits say, and tells its ends (pipe2(2), `O_NONBLOCK`, and `O_DIRECT` for a packet pipe). `EINVAL` before all
/// else where another bit is set.
#[unsafe(no_mangle)]
pub extern "C" fn bindingclay_pipe2(handle: Handle, pid: u32, flags: u32, ends: &mut Ends) -> Answer
    ensures says { MatchOption (pipe_flags_of_bits flags) (result ≡ faulty EINVAL) (λ flags. Says handle.layer.kernel (Step.Begin pid (Call.Pipe flags.nonblock flags.direct)) result) }
    ensures wants { handle.layer.recorder ≡ None → MatchOption (pipe_flags_of_bits flags) ⊤ (λ flags. Wants handle.layer.kernel (Step.Begin pid (Call.Pipe flags.nonblock flags.direct)) result) }
    ensures ends { MatchOption (pipe_flags_of_bits flags) (ends.new ≡ ends.old) (λ flags. Replied handle.layer.kernel (Step.Begin pid (Call.Pipe flags.nonblock flags.direct)) result (λ reply. ends.new ≡ ends_after ends.old reply)) }
    ensures untold { result.kind ≡ 6 → ends.new ≡ ends.old }
{
    handle.layer().pipe2(pid, flags, ends)
}

/// Names what a descriptor names by the least free one too: the value is this one (POSIX.1-2017, dup).
#[unsafe(no_mangle)]
pub extern "C" fn bindingclay_dup(handle: Handle, pid: u32, fd: i32) -> Answer
    ensures says { Says handle.layer.kernel (Step.Begin pid (Call.Dup fd)) result }
    ensures wants { handle.layer.recorder ≡ None → Wants handle.layer.kernel (Step.Begin pid (Call.Dup fd)) result }
{
    handle.step(Step::Begin(pid, Call::Dup { fd }))
}

/// Names what `fd` names by `target` too, which is closed first: the value is `target` (POSIX.1-2017, dup2).
#[unsafe(no_mangle)]
pub extern "C" fn bindingclay_dup2(handle: Handle, pid: u32, fd: i32, target: i32) -> Answer
    ensures says { Says handle.layer.kernel (Step.Begin pid (Call.Dup2 fd target)) result }
    ensures wants { handle.layer.recorder ≡ None → Wants handle.layer.kernel (Step.Begin pid (Call.Dup2 fd target)) result }
{
    handle.step(Step::Begin(pid, Call::Dup2 { fd, target }))
}

/// Names what `fd` names by the least free descriptor from `least` on too: the value is this one (POSIX.1-2017, fcntl, `F_DUPFD`).
#[unsafe(no_mangle)]
pub extern "C" fn bindingclay_dup_fd(handle: Handle, pid: u32, fd: i32, least: i32) -> Answer
    ensures says { Says handle.layer.kernel (Step.Begin pid (Call.DupFd fd least)) result }
    ensures wants { handle.layer.recorder ≡ None → Wants handle.layer.kernel (Step.Begin pid (Call.DupFd fd least)) result }
{
    handle.step(Step::Begin(pid, Call::DupFd { fd, least }))
}

/// Closes a descriptor (POSIX.1-2017, close).
#[unsafe(no_mangle)]
pub extern "C" fn bindingclay_close(handle: Handle, pid: u32, fd: i32) -> Answer
    ensures says { Says handle.layer.kernel (Step.Begin pid (Call.Close fd)) result }
    ensures wants { handle.layer.recorder ≡ None → Wants handle.layer.kernel (Step.Begin pid (Call.Close fd)) result }
{
    handle.step(Step::Begin(pid, Call::Close { fd }))
}

/// Tells the mode and the status flags, as Linux's bits (POSIX.1-2017, fcntl, `F_GETFL`).
#[unsafe(no_mangle)]
pub extern "C" fn bindingclay_get_fl(handle: Handle, pid: u32, fd: i32) -> Answer
    ensures says { Says handle.layer.kernel (Step.Begin pid (Call.GetFl fd)) result }
    ensures wants { handle.layer.recorder ≡ None → Wants handle.layer.kernel (Step.Begin pid (Call.GetFl fd)) result }
{
    handle.step(Step::Begin(pid, Call::GetFl { fd }))
}

/// Sets `O_APPEND` and `O_NONBLOCK` as they are in the bits, and ignores all others (POSIX.1-2017, fcntl, `F_SETFL`).
#[unsafe(no_mangle)]
pub extern "C" fn bindingclay_set_fl(handle: Handle, pid: u32, fd: i32, flags: u32) -> Answer
    ensures says { Says handle.layer.kernel (Step.Begin pid (Call.SetFl fd (open_flags_of_bits flags))) result }
    ensures wants { handle.layer.recorder ≡ None → Wants handle.layer.kernel (Step.Begin pid (Call.SetFl fd (open_flags_of_bits flags))) result }
{
    handle.step(Step::Begin(
        pid,
        Call::SetFl {
            fd,
            flags: open_flags_of_bits(flags),
        },
    ))
}

/// Tells how many bytes a pipe can hold (fcntl(2), `F_GETPIPE_SZ`).
#[unsafe(no_mangle)]
pub extern "C" fn bindingclay_get_pipe_sz(handle: Handle, pid: u32, fd: i32) -> Answer
    ensures says { Says handle.layer.kernel (Step.Begin pid (Call.GetPipeSz fd)) result }
    ensures wants { handle.layer.recorder ≡ None → Wants handle.layer.kernel (Step.Begin pid (Call.GetPipeSz fd)) result }
{
    handle.step(Step::Begin(pid, Call::GetPipeSz { fd }))
}

/// Sets how many bytes a pipe can hold, rounded up: the value is how many it can now (fcntl(2), `F_SETPIPE_SZ`).
#[unsafe(no_mangle)]
pub extern "C" fn bindingclay_set_pipe_sz(handle: Handle, pid: u32, fd: i32, size: u32) -> Answer
    ensures says { Says handle.layer.kernel (Step.Begin pid (Call.SetPipeSz fd size)) result }
    ensures wants { handle.layer.recorder ≡ None → Wants handle.layer.kernel (Step.Begin pid (Call.SetPipeSz fd size)) result }
{
    handle.step(Step::Begin(pid, Call::SetPipeSz { fd, size }))
}

/// Sets the offset of a regular file, counted as Linux's number says (POSIX.1-2017, lseek): the value is the new one. `EINVAL` before all
/// else where the number is none of `SEEK_SET`, `SEEK_CUR` and `SEEK_END`.
#[unsafe(no_mangle)]
pub extern "C" fn bindingclay_lseek(
    handle: Handle,
    pid: u32,
    fd: i32,
    offset: i64,
    whence: i32,
) -> Answer
    ensures says { MatchOption (whence_of_number whence) (result ≡ faulty EINVAL) (λ whence. Says handle.layer.kernel (Step.Begin pid (Call.Lseek fd offset whence)) result) }
    ensures wants { handle.layer.recorder ≡ None → MatchOption (whence_of_number whence) ⊤ (λ whence. Wants handle.layer.kernel (Step.Begin pid (Call.Lseek fd offset whence)) result) }
{
    handle.layer().lseek(pid, fd, offset, whence)
}
