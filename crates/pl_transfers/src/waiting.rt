//! Calls that wait: how they are parked, tried again, interrupted, and end.
ghost use Rattle.std.specs.Prelude.{◌≡◌, ◌≤◌, ◌<◌, ℕ, None, true, nat_eq, length, take, drop, IfOk, OnOk, OnErr, IsSome, IfSome, IfNone};
ghost use Rattle.pl_model.specs.Numbers.{last_call, most_bytes};
ghost use Rattle.pl_model.specs.Map.{get};
ghost use Rattle.pl_model.specs.Transfer.{room};
ghost use Rattle.pl_desc.specs.Rows.{at};
ghost use Rattle.pl_state.specs.Contents.{IsProcess, core_of};
ghost use Rattle.pl_state.specs.Opens.{OpenOn};
ghost use Rattle.pl_state.specs.Sound.{IsPipe, KeepsOne, MayKeep, MayWait, OnNode};
ghost use Rattle.pl_state.specs.Parking.{written, refusal_in, call_on, with_call, Adds, OpenWaits, ReadWaits, WriteWaits};
ghost use Rattle.pl_state.specs.Makes.{MakesAtKeys, MayWantAtKeys};
ghost use Rattle.pl_transfers.specs.Again.{FindsAgain};
ghost use Rattle.pl_transfers.specs.ReadInto.{read_count, told};
ghost use Rattle.pl_transfers.specs.Readable.{gives_again};

use crate::parking::park_call;
use crate::readable::ReadAgain;
use crate::transfers::{case_of_read, case_of_write, no_bytes};
use pl_model::{Bytes8, Call, Errno, Node, ReadCase, Reply, Step, WriteCase};
use pl_state::{Answered, KernelState, NoMemory, OpenEnd, end_call};
use std::alloc::Allocator;

/// The bytes of a write, and none of another call.
fn bytes_of<A: Allocator>(call: &Call<A>) -> &[u8]
    ensures value { result.now ≡ written call.now }
    ensures few { length result.now ≤ most_bytes }
{
    match call {
        Call::Write { bytes, .. } => bytes.as_slice(),
        _ => &[],
    }
}

/// Why a call that would wait doesn't, if it doesn't: `EAGAIN` where it may not, or as many calls of the process, or of all, wait as may; `CallsSpent` where no
/// number is left. This is tested before any memory is asked for.
#[inline(never)]
pub fn refusal_to_wait<A: Allocator + Copy>(
    kernel: &KernelState<A>,
    pid: u32,
    nonblock: bool,
) -> Option<Reply<A>>
    ensures { result ≡ refusal_in kernel.now pid nonblock }
{
    if kernel.refuses_to_wait(pid, nonblock) {
        return Some(Reply::Fault(Errno::EAGAIN));
    }
    if kernel.parked.spent() {
        return Some(Reply::CallsSpent);
    }
    None
}

// Parks a call that keeps the description of a key.
#[inline(never)]
pub(crate) fn park<A: Allocator + Copy>(
    kernel: &mut KernelState<A>,
    pid: u32,
    call: Call<A>,
    key: usize,
    taken: u32,
) -> Result<u64, NoMemory>
    requires process { IsProcess kernel.old pid }
    requires left { ¬ (kernel.old.calls.next ≡ last_call) }
    requires here { IsSome (at kernel.old.opened key) }
    requires pipe { OnNode (at kernel.old.opened) (call_on key pid call taken) key }
    requires one { KeepsOne call }
    requires may { MayWait call taken }
    ensures number { IfOk result (λ number. number ≡ kernel.old.calls.next) }
    ensures ok { OnOk result (kernel.new ≡ with_call kernel.old (call_on key pid call taken)) }
    ensures err { OnErr result (kernel.new ≡ kernel.old) }
{
    let number = park_call(&mut kernel.parked, pid, call, key, taken)?;
    kernel.descs.hold(key);
    Ok(number)
}

// Parks a read. The call is made here: reads that don't wait pay nothing for it.
#[inline(never)]
pub(crate) fn park_read<A: Allocator + Copy>(
    kernel: &mut KernelState<A>,
    pid: u32,
    fd: i32,
    n: u32,
    key: usize,
) -> Result<u64, NoMemory>
    requires process { IsProcess kernel.old pid }
    requires left { ¬ (kernel.old.calls.next ≡ last_call) }
    requires here { IsSome (at kernel.old.opened key) }
    requires pipe { OnNode {A = A} (at kernel.old.opened) (call_on key pid (Call.Read fd n) 0) key }
    ensures number { IfOk result (λ number. number ≡ kernel.old.calls.next) }
    ensures ok { OnOk result (kernel.new ≡ with_call kernel.old (call_on key pid (Call.Read fd n) 0)) }
    ensures err { OnErr result (kernel.new ≡ kernel.old) }
{
    park(kernel, pid, Call::Read { fd, n }, key, 0)
}

// Parks a write, and then adds the bytes of its first turn. Where these find no memory the call is taken back.
#[inline(never)]
pub(crate) fn park_write<A: Allocator + Copy>(
    kernel: &mut KernelState<A>,
    pid: u32,
    call: Call<A>,
    end: OpenEnd,
    taken: usize,
) -> Result<u64, NoMemory>
    requires process { IsProcess kernel.old pid }
    requires left { ¬ (kernel.old.calls.next ≡ last_call) }
    requires on { OpenOn kernel.old end.key (Node.Pipe end.pipe) }
    requires one { KeepsOne call }
    requires may { MayWait call taken }
    requires keeps { MayKeep (call_on end.key pid call taken) (Node.Pipe end.pipe) }
    requires taken { taken ≤ length (written call) }
    requires room { IfSome (at kernel.old.nodes.pipes end.pipe) (λ x. taken ≤ room x) }
    ensures number { IfOk result (λ number. number ≡ kernel.old.calls.next) }
    ensures ok { OnOk result (Adds (with_call kernel.old (call_on end.key pid call taken)) end.pipe (take taken (written call)) kernel.new) }
    ensures err { OnErr result (kernel.new ≡ kernel.old) }
{
    let number = park_call(&mut kernel.parked, pid, call, end.key, taken as u32)?;
    let call = kernel.parked.get(number).unwrap();
    let bytes = bytes_of(&call.call);
    match kernel.nodes.write_pipe(end.pipe, &bytes[..taken]) {
        Ok(()) => {
            kernel.descs.hold(end.key);
            Ok(number)
        }
        Err(pl_nodes::NoMemory) => {
            kernel.parked.unpark(number);
            Err(NoMemory)
        }
    }
}

// The pipe that a description is open on.
pub(crate) fn pipe_of<A: Allocator + Copy>(kernel: &KernelState<A>, key: usize) -> usize
    requires here { IsSome (at kernel.now.opened key) }
    requires pipe { IfSome (at kernel.now.opened key) (λ o. IsPipe o.node) }
    ensures { OpenOn kernel.now key (Node.Pipe result) }
{
    match kernel.descs.node(key) {
        Node::Pipe(pipe) => pipe,
        Node::File(_) => unreachable!(),
    }
}

/// Tries a parked read again. The reply is its bytes, none at the end of file, or its number where it waits on.
///
/// The only error is want of memory, which leaves all as it was, the call parked.
pub fn resume_read<A: Allocator + Copy>(
    kernel: &mut KernelState<A>,
    number: u64,
    key: usize,
    n: u32,
) -> Result<Reply<A>, NoMemory>
    requires { ReadWaits kernel.old number key n }
    ensures done { IfOk result (λ reply. MakesAtKeys kernel.old (Step.Resume number) reply kernel.new) }
    ensures undone { OnErr result (kernel.new ≡ kernel.old) }
    ensures wanted { OnErr result (MayWantAtKeys {A = A} kernel.old (Step.Resume number)) }
{
    let pipe = pipe_of(kernel, key);
    match case_of_read(kernel, pipe, n) {
        ReadCase::Gives(count) => {
            let bytes = kernel.nodes.read_pipe(pipe, count)?;
            end_call(kernel, number);
            Ok(Reply::Bytes(Bytes8::from_vec(bytes).unwrap()))
        }
        ReadCase::EndOfFile => {
            end_call(kernel, number);
            Ok(no_bytes(kernel.alloc))
        }
        ReadCase::Waits => Ok(Reply::Parked(number)),
    }
}

/// A read that waits.
#[derive(Clone, Copy)]
pub struct WaitingRead {
    /// The key of the description.
    pub key: usize,
    /// How many bytes it asks for.
    pub n: u32,
}

/// The parked call of a number, where it is a read.
#[inline(always)]
pub fn waiting_read<A: Allocator + Copy>(
    kernel: &KernelState<A>,
    number: u64,
) -> Option<WaitingRead>
    ensures some { IfSome result (λ read. ReadWaits kernel.now number read.key read.n) }
    ensures none { IfNone result ((key n : ℕ) → ¬ ReadWaits {A = A} kernel.now number key n) }
{
    let call = kernel.parked.get(number)?;
    let Call::Read { n, .. } = &call.call else {
        return None;
    };
    Some(WaitingRead {
        key: call.kept.as_slice()[0],
        n: *n,
    })
}

/// Tries a parked read again, into the caller's bytes, which are as many as it gives, or more. It takes no memory.
pub fn resume_read_into<A: Allocator + Copy>(
    kernel: &mut KernelState<A>,
    number: u64,
    key: usize,
    n: u32,
    into: &mut [u8],
) -> Answered<usize>
    requires waits { ReadWaits kernel.old number key n }
    requires room { gives_again {A = A} kernel.old number ≤ length into.old }
    ensures done { MakesAtKeys {A = A} kernel.old (Step.Resume number) (told result into.new) kernel.new }
    ensures within { read_count result ≤ length into.new }
    ensures rest { drop (read_count result) into.new ≡ drop (read_count result) into.old }
{
    let pipe = pipe_of(kernel, key);
    match case_of_read(kernel, pipe, n) {
        ReadCase::Gives(count) => {
            kernel.nodes.read_pipe_into(pipe, &mut into[..count]);
            end_call(kernel, number);
            Answered::Done(count)
        }
        ReadCase::EndOfFile => {
            end_call(kernel, number);
            Answered::Done(0)
        }
        ReadCase::Waits => Answered::Parked(number),
    }
}

/// Tries a parked read again that gives bytes, into as many of the caller's. It ends, and takes no memory.
#[inline(always)]
pub fn give_again<A: Allocator + Copy>(
    kernel: &mut KernelState<A>,
    number: u64,
    read: ReadAgain,
    into: &mut [u8],
)
    requires found { FindsAgain kernel.old number read }
    requires some { 0 < read.count }
    requires room { length into.old ≡ read.count }
    ensures done { MakesAtKeys {A = A} kernel.old (Step.Resume number) (Reply.Bytes into.new) kernel.new }
    ensures ended { get nat_eq (core_of kernel.new).parked number ≡ None }
{
    kernel.nodes.read_pipe_into(read.pipe, into);
    end_call(kernel, number);
}

/// Tries a parked write again. The reply is how many of its bytes went in, `EPIPE` where no reader is left and none did, or its number where it
/// waits on.
///
/// The only error is want of memory, which leaves all as it was, the call parked.
pub fn resume_write<A: Allocator + Copy>(
    kernel: &mut KernelState<A>,
    number: u64,
    key: usize,
    length: usize,
    taken: u32,
) -> Result<Reply<A>, NoMemory>
    requires { WriteWaits kernel.old number key length taken }
    ensures done { IfOk result (λ reply. MakesAtKeys kernel.old (Step.Resume number) reply kernel.new) }
    ensures undone { OnErr result (kernel.new ≡ kernel.old) }
    ensures wanted { OnErr result (MayWantAtKeys {A = A} kernel.old (Step.Resume number)) }
{
    let pipe = pipe_of(kernel, key);
    match case_of_write(kernel, pipe, length, taken as usize, true) {
        WriteCase::Broken => {
            end_call(kernel, number);
            Ok(Reply::Fault(Errno::EPIPE))
        }
        WriteCase::CutShort => {
            end_call(kernel, number);
            Ok(Reply::Count {
                n: taken,
                sigpipe: true,
            })
        }
        WriteCase::Ends { from, to } => {
            let call = kernel.parked.get(number).unwrap();
            kernel
                .nodes
                .write_pipe(pipe, &bytes_of(&call.call)[from..to])?;
            end_call(kernel, number);
            Ok(Reply::Count {
                n: to as u32,
                sigpipe: false,
            })
        }
        WriteCase::Waits { from, to } => {
            let call = kernel.parked.get(number).unwrap();
            kernel
                .nodes
                .write_pipe(pipe, &bytes_of(&call.call)[from..to])?;
            kernel.parked.set_taken(number, to as u32);
            Ok(Reply::Parked(number))
        }
    }
}

/// Tries a parked open again. Once it met its other end it gets the least free descriptor of its process (POSIX.1-2017, open), or `EMFILE`
/// where none is free. Else the reply is its number. The only error is want of memory, which leaves all as it was.
pub fn resume_open<A: Allocator + Copy>(
    kernel: &mut KernelState<A>,
    number: u64,
    pid: u32,
    key: usize,
    met: bool,
) -> Result<Reply<A>, NoMemory>
    requires { OpenWaits kernel.old number pid key met }
    ensures done { IfOk result (λ reply. MakesAtKeys kernel.old (Step.Resume number) reply kernel.new) }
    ensures undone { OnErr result (kernel.new ≡ kernel.old) }
    ensures wanted { OnErr result (MayWantAtKeys {A = A} kernel.old (Step.Resume number)) }
{
    // A proof learns here what holds of the kernel.
    let _ = &kernel.descs;
    if !met {
        return Ok(Reply::Parked(number));
    }
    let Some(fd) = kernel.descs.lowest(pid, 0) else {
        end_call(kernel, number);
        return Ok(Reply::Fault(Errno::EMFILE));
    };
    kernel.descs.reserve_row(pid, fd)?;
    // The hold of the call becomes that of the descriptor.
    kernel.parked.take(number);
    kernel.descs.install(pid, fd, key);
    Ok(Reply::Fd(fd as i32))
}

/// Ends the parked call of a number (POSIX.1-2017, read and write, EINTR). It takes no memory.
///
/// The reply is `EINTR`, or the count of what a write took, or `NoCall` where there is no such call.
pub fn interrupt<A: Allocator + Copy>(kernel: &mut KernelState<A>, number: u64) -> Reply<A>
    ensures { MakesAtKeys kernel.old (Step.Interrupt number) result kernel.new }
{
    let Some(call) = kernel.parked.get(number) else {
        return Reply::NoCall;
    };
    let taken = call.taken;
    end_call(kernel, number);
    if taken > 0 {
        Reply::Count {
            n: taken,
            sigpipe: false,
        }
    } else {
        Reply::Fault(Errno::EINTR)
    }
}
