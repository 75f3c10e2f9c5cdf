//! One step of the kernel, by the calls.
ghost use Rattle.std.specs.Prelude.{◌≡◌, ◌≢◌, ◌≤◌, ◌<◌, ◌^◌, ℕ, List, true, length, drop, IfOk, OnErr, IsOk, IfSome, IfNone};
ghost use Rattle.pl_model.specs.Numbers.{most_bytes};
ghost use Rattle.pl_model.specs.Memory.{is_frugal, is_frugal_call};
ghost use Rattle.pl_model.specs.Waking.{can_progress};
ghost use Rattle.pl_state.specs.Contents.{IsProcess, core_of};
ghost use Rattle.pl_state.specs.Makes.{MakesAtKeys, MayWantAtKeys, ParksAtKeys};
ghost use Rattle.pl_state.specs.Waits.{WaitsAs};
ghost use Rattle.pl_splices.specs.Shares.{SharesByStep};
ghost use Rattle.pl_transfers.specs.ReadInto.{told, read_count};
ghost use Rattle.pl_transfers.specs.Waits.{reply_of};
ghost use Rattle.pl_polls.specs.Entries.{asked, entries_after};
ghost use Rattle.pl_polls.specs.Into.{told as poll_told};

use pl_descriptors::{close, dup, dup_fd, dup2, exit, fork, get_fl, set_fl, start};
use pl_model::{Call, Reply, Step};
use pl_naming::{mkfifo, open_name, unlink};
use pl_polls::{PollEntry, poll, poll_can_progress, poll_into, resume_poll};
use pl_splices::{move_can_progress, resume_move, splice, tee};
use pl_state::{Answered, KernelState, NoMemory, WaitingCall, waiting_call};
use pl_transfers::{
    Written, get_pipe_sz, interrupt, lseek, pipe, read, read_can_progress, read_into,
    refused_write, resume_open, resume_read, resume_write, set_pipe_sz, write, write_can_progress,
    write_from,
};
use std::alloc::Allocator;

// In place in its caller: where the call is written there, as in `Call::Read { .. }`, the match falls away.
#[inline(always)]
fn begin<A: Allocator + Copy>(
    kernel: &mut KernelState<A>,
    pid: u32,
    call: Call<A>,
) -> Result<Reply<A>, NoMemory>
    requires { IsProcess kernel.old pid }
    ensures done { IfOk result (λ reply. MakesAtKeys kernel.old (Step.Begin pid call) reply kernel.new) }
    ensures shares { SharesByStep {A = A} kernel.old (Step.Begin pid call) kernel.new }
    ensures undone { OnErr result (kernel.new ≡ kernel.old) }
    ensures wanted { OnErr result (MayWantAtKeys {A = A} kernel.old (Step.Begin pid call)) }
    ensures frugal { is_frugal_call call ≡ true → IsOk result }
{
    match call {
        Call::Pipe { nonblock, direct } => pipe(kernel, pid, nonblock, direct),
        Call::Mkfifo { name } => mkfifo(kernel, pid, &name),
        Call::OpenName { name, mode, flags } => open_name(kernel, pid, name, mode, flags),
        Call::Read { fd, n } => read(kernel, pid, fd, n),
        Call::Write { fd, bytes } => write(kernel, pid, fd, bytes),
        Call::Splice {
            from,
            from_offset,
            to,
            to_offset,
            len,
            flags,
        } => splice(kernel, pid, from, from_offset, to, to_offset, len, flags),
        Call::Tee {
            from,
            to,
            len,
            flags,
        } => tee(kernel, pid, from, to, len, flags),
        Call::Poll { entries, wait } => poll(kernel, pid, entries, wait),
        Call::Dup { fd } => dup(kernel, pid, fd),
        Call::Dup2 { fd, target } => dup2(kernel, pid, fd, target),
        Call::DupFd { fd, least } => dup_fd(kernel, pid, fd, least),
        Call::Close { fd } => Ok(close(kernel, pid, fd)),
        Call::Lseek { fd, offset, whence } => Ok(lseek(kernel, pid, fd, offset, whence)),
        Call::GetFl { fd } => Ok(get_fl(kernel, pid, fd)),
        Call::SetFl { fd, flags } => Ok(set_fl(kernel, pid, fd, flags)),
        Call::GetPipeSz { fd } => Ok(get_pipe_sz(kernel, pid, fd)),
        Call::SetPipeSz { fd, size } => set_pipe_sz(kernel, pid, fd, size),
        Call::Unlink { name } => Ok(unlink(kernel, pid, &name)),
        Call::Fork => fork(kernel, pid),
        Call::Exit => Ok(exit(kernel, pid)),
    }
}

// Begins a write of the caller's bytes.
#[inline(always)]
pub(crate) fn begin_write_from<A: Allocator + Copy>(
    kernel: &mut KernelState<A>,
    pid: u32,
    fd: i32,
    bytes: &[u8],
) -> Result<Answered<Written>, NoMemory>
    requires { length bytes.now ≤ most_bytes }
    ensures done { IfOk result (λ reply. MakesAtKeys {A = A} kernel.old (Step.Begin pid (Call.Write fd bytes.now)) (reply_of reply) kernel.new) }
    ensures undone { OnErr result (kernel.new ≡ kernel.old) }
    ensures wanted { OnErr result (MayWantAtKeys {A = A} kernel.old (Step.Begin pid (Call.Write fd bytes.now))) }
{
    if !kernel.descs.has(pid) {
        return Ok(Answered::NoProcess);
    }
    write_from(kernel, pid, fd, bytes)
}

// What a write of so many bytes, not none, answers where it is refused.
pub(crate) fn refusal_of_write<A: Allocator + Copy>(
    kernel: &KernelState<A>,
    pid: u32,
    fd: i32,
    count: usize,
) -> Option<Reply<A>>
    requires { count ≢ 0 }
    ensures some { IfSome result (λ reply. (bytes : List ℕ) → length bytes ≡ count → MakesAtKeys {A = A} kernel.now (Step.Begin pid (Call.Write fd bytes)) reply kernel.now) }
    ensures none { IfNone result ((bytes : List ℕ) → length bytes ≡ count → MayWantAtKeys {A = A} kernel.now (Step.Begin pid (Call.Write fd bytes))) }
{
    if !kernel.descs.has(pid) {
        return Some(Reply::NoProcess);
    }
    refused_write(kernel, pid, fd, count)
}

// Begins a read into the caller's bytes.
#[inline(always)]
pub(crate) fn begin_read_into<A: Allocator + Copy>(
    kernel: &mut KernelState<A>,
    pid: u32,
    fd: i32,
    into: &mut [u8],
) -> Result<Answered<usize>, NoMemory>
    requires { length into.old < 2 ^ 32 }
    ensures done { IfOk result (λ reply. MakesAtKeys {A = A} kernel.old (Step.Begin pid (Call.Read fd (length into.old))) (told reply into.new) kernel.new) }
    ensures within { IfOk result (λ reply. read_count reply ≤ length into.new) }
    ensures rest { IfOk result (λ reply. drop (read_count reply) into.new ≡ drop (read_count reply) into.old) }
    ensures undone { OnErr result (kernel.new ≡ kernel.old) }
    ensures unread { OnErr result (into.new ≡ into.old) }
    ensures wanted { OnErr result (ParksAtKeys {A = A} kernel.old (Step.Begin pid (Call.Read fd (length into.old)))) }
{
    if !kernel.descs.has(pid) {
        return Ok(Answered::NoProcess);
    }
    read_into(kernel, pid, fd, into)
}

// Begins a poll of the caller's entries.
pub(crate) fn begin_poll_into<A: Allocator + Copy>(
    kernel: &mut KernelState<A>,
    pid: u32,
    entries: &mut [PollEntry],
    wait: bool,
) -> Result<Answered<u32>, NoMemory>
    ensures done { IfOk result (λ reply. MakesAtKeys {A = A} kernel.old (Step.Begin pid (Call.Poll (asked entries.old) wait)) (poll_told reply entries.new) kernel.new) }
    ensures noted { IfOk result (λ reply. entries.new ≡ entries_after {A = A} entries.old (poll_told reply entries.new)) }
    ensures undone { OnErr result (kernel.new ≡ kernel.old) }
    ensures unmarked { OnErr result (entries.new ≡ entries.old) }
    ensures wanted { OnErr result (ParksAtKeys {A = A} kernel.old (Step.Begin pid (Call.Poll (asked entries.old) wait))) }
{
    if !kernel.descs.has(pid) {
        return Ok(Answered::NoProcess);
    }
    poll_into(kernel, pid, entries, wait)
}

// Tries the parked call of a number again.
#[inline(never)]
pub(crate) fn try_again<A: Allocator + Copy>(
    kernel: &mut KernelState<A>,
    number: u64,
) -> Result<Reply<A>, NoMemory>
    ensures done { IfOk result (λ reply. MakesAtKeys kernel.old (Step.Resume number) reply kernel.new) }
    ensures shares { SharesByStep {A = A} kernel.old (Step.Resume number) kernel.new }
    ensures undone { OnErr result (kernel.new ≡ kernel.old) }
    ensures wanted { OnErr result (MayWantAtKeys {A = A} kernel.old (Step.Resume number)) }
{
    // A proof learns here what holds of the kernel.
    let _ = &kernel.descs;
    let Some(call) = waiting_call(kernel, number) else {
        return Ok(Reply::NoCall);
    };
    match call {
        WaitingCall::Read { key, n } => resume_read(kernel, number, key, n),
        WaitingCall::Write { key, length, taken } => {
            resume_write(kernel, number, key, length, taken)
        }
        WaitingCall::Open { key, pid, met } => resume_open(kernel, number, pid, key, met),
        WaitingCall::Move(waiting) => resume_move(kernel, number, waiting),
        WaitingCall::Poll => resume_poll(kernel, number),
    }
}

/// Whether the parked call of a number, which waits so, can make progress where it is tried again now.
#[inline(always)]
pub(crate) fn call_can_progress<A: Allocator + Copy>(
    kernel: &KernelState<A>,
    number: u64,
    call: WaitingCall,
) -> bool
    requires { WaitsAs kernel.now number call }
    ensures { result ≡ can_progress (core_of {A = A} kernel.now) number }
{
    // A proof learns here what holds of the kernel.
    let _ = &kernel.descs;
    match call {
        WaitingCall::Read { key, n } => read_can_progress(kernel, number, key, n),
        WaitingCall::Write { key, length, taken } => {
            write_can_progress(kernel, number, key, length, taken)
        }
        WaitingCall::Open { met, .. } => met,
        WaitingCall::Move(waiting) => move_can_progress(kernel, number, waiting),
        WaitingCall::Poll => poll_can_progress(kernel, number),
    }
}

/// Whether the parked call of a number can make progress where it is tried again now. Where there is no such call, the answer comes at once too.
pub(crate) fn can_progress<A: Allocator + Copy>(kernel: &KernelState<A>, number: u64) -> bool
    ensures { result ≡ can_progress (core_of {A = A} kernel.now) number }
{
    // A proof learns here what holds of the kernel.
    let _ = &kernel.descs;
    match waiting_call(kernel, number) {
        Some(call) => call_can_progress(kernel, number, call),
        None => true,
    }
}

#[inline(always)]
pub(crate) fn act<A: Allocator + Copy>(
    kernel: &mut KernelState<A>,
    step: Step<A>,
) -> Result<Reply<A>, NoMemory>
    ensures done { IfOk result (λ reply. MakesAtKeys kernel.old step reply kernel.new) }
    ensures shares { SharesByStep {A = A} kernel.old step kernel.new }
    ensures undone { OnErr result (kernel.new ≡ kernel.old) }
    ensures wanted { OnErr result (MayWantAtKeys {A = A} kernel.old step) }
    ensures frugal { is_frugal step ≡ true → IsOk result }
{
    match step {
        Step::Start => start(kernel),
        Step::Begin(pid, call) => {
            if !kernel.descs.has(pid) {
                return Ok(Reply::NoProcess);
            }
            begin(kernel, pid, call)
        }
        Step::Resume(number) => try_again(kernel, number),
        Step::Interrupt(number) => Ok(interrupt(kernel, number)),
    }
}
