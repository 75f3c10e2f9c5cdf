//! Reads: into a list of their own, or into the caller's bytes.
ghost use Rattle.std.specs.Prelude.{◌≡◌, ◌≢◌, ◌≤◌, ◌<◌, ◌^◌, [], length, drop, IfOk, OnErr};
ghost use Rattle.pl_model.specs.Modes.{reads};
ghost use Rattle.pl_state.specs.Contents.{IsProcess};
ghost use Rattle.pl_state.specs.Opens.{Opens, of_end};
ghost use Rattle.pl_state.specs.Makes.{MakesAtKeys, MayWantAtKeys, ParksAtKeys};
ghost use Rattle.pl_transfers.specs.ReadInto.{read_count, told, ReadTried};

use crate::files::{read_file, read_file_into};
use crate::transfers::{case_of_read, no_bytes, open_for};
use crate::waiting::park_read;
use pl_model::{Bytes8, Call, Errno, Node, ReadCase, Reply, Step};
use pl_state::{Access, Answered, KernelState, NoMemory, OpenEnd, OpenNode};
use std::alloc::Allocator;

/// What a read comes to before it moves any byte.
#[derive(Clone, Copy)]
pub(crate) enum ReadTry {
    /// It is answered, without bytes.
    Answered(Answered<usize>),
    /// It takes so many bytes out of a pipe.
    Takes { end: OpenEnd, count: usize },
    /// It reads a file, at the offset of a description.
    Reads { open: OpenNode, file: usize },
}

// The reply of a read that has no bytes.
#[inline(always)]
fn reply_of<A: Allocator>(alloc: A, answered: Answered<usize>) -> Reply<A>
    requires { read_count answered ≡ 0 }
    ensures { result ≡ told answered [] }
{
    match answered {
        Answered::Done(_) => no_bytes(alloc),
        _ => answered.undone(),
    }
}

// What a read of n bytes of what a descriptor names comes to; one that waits is parked.
#[inline(always)]
fn try_read<A: Allocator + Copy>(
    kernel: &mut KernelState<A>,
    pid: u32,
    fd: i32,
    n: u32,
) -> Result<ReadTry, NoMemory>
    requires { IsProcess kernel.old pid }
    ensures done { IfOk result (λ tried. ReadTried kernel.old pid fd n tried kernel.new) }
    ensures undone { OnErr result (kernel.new ≡ kernel.old) }
    ensures wanted { OnErr result (ParksAtKeys {A = A} kernel.old (Step.Begin pid (Call.Read fd n))) }
{
    // A proof learns here what holds of the kernel.
    let _ = &kernel.descs;
    let Some(open) = open_for(kernel, pid, fd, Access::Reading) else {
        return Ok(ReadTry::Answered(Answered::Fault(Errno::EBADF)));
    };
    if n == 0 {
        return Ok(ReadTry::Answered(Answered::Done(0)));
    }
    match open.node {
        Node::Pipe(pipe) => try_read_pipe(
            kernel,
            pid,
            fd,
            n,
            OpenEnd {
                key: open.key,
                pipe,
                nonblock: open.nonblock,
            },
        ),
        Node::File(file) => Ok(ReadTry::Reads { open, file }),
    }
}

// What a read of n bytes, not 0, of the end of a pipe that a descriptor names comes to.
#[inline(always)]
fn try_read_pipe<A: Allocator + Copy>(
    kernel: &mut KernelState<A>,
    pid: u32,
    fd: i32,
    n: u32,
    end: OpenEnd,
) -> Result<ReadTry, NoMemory>
    requires process { IsProcess kernel.old pid }
    requires opens { Opens kernel.old reads pid fd (of_end end) }
    requires some { n ≢ 0 }
    ensures done { IfOk result (λ tried. ReadTried kernel.old pid fd n tried kernel.new) }
    ensures undone { OnErr result (kernel.new ≡ kernel.old) }
    ensures wanted { OnErr result (ParksAtKeys {A = A} kernel.old (Step.Begin pid (Call.Read fd n))) }
{
    match case_of_read(kernel, end.pipe, n) {
        ReadCase::Gives(count) => Ok(ReadTry::Takes { end, count }),
        ReadCase::EndOfFile => Ok(ReadTry::Answered(Answered::Done(0))),
        ReadCase::Waits => {
            if kernel.refuses_to_wait(pid, end.nonblock) {
                return Ok(ReadTry::Answered(Answered::Fault(Errno::EAGAIN)));
            }
            if kernel.parked.spent() {
                return Ok(ReadTry::Answered(Answered::CallsSpent));
            }
            let number = park_read(kernel, pid, fd, n, end.key)?;
            Ok(ReadTry::Answered(Answered::Parked(number)))
        }
    }
}

/// Reads at most `n` bytes of what a descriptor names (POSIX.1-2017, read).
///
/// The reply is the bytes, none at the end of file, or a number under which the call waits, or `EBADF` where the descriptor isn't open for
/// reading, `EAGAIN` where the call would wait and may not, `CallsSpent` where no number is left; these and the only error, want of
/// memory, leave all as it was.
#[inline(always)]
pub fn read<A: Allocator + Copy>(
    kernel: &mut KernelState<A>,
    pid: u32,
    fd: i32,
    n: u32,
) -> Result<Reply<A>, NoMemory>
    requires { IsProcess kernel.old pid }
    ensures done { IfOk result (λ reply. MakesAtKeys kernel.old (Step.Begin pid (Call.Read fd n)) reply kernel.new) }
    ensures undone { OnErr result (kernel.new ≡ kernel.old) }
    ensures wanted { OnErr result (MayWantAtKeys {A = A} kernel.old (Step.Begin pid (Call.Read fd n))) }
{
    let tried = try_read(kernel, pid, fd, n)?;
    // A proof learns here what holds of the kernel.
    let _ = &kernel.descs;
    match tried {
        ReadTry::Answered(reply) => Ok(reply_of(kernel.alloc, reply)),
        ReadTry::Takes { end, count } => {
            let bytes = kernel.nodes.read_pipe(end.pipe, count)?;
            Ok(Reply::Bytes(Bytes8::from_vec(bytes).unwrap()))
        }
        ReadTry::Reads { open, file } => { Ok(Reply::Bytes(read_file(kernel, open.key, file, n)?)) }
    }
}

/// Reads as many bytes as the caller's are, into these, as `read` does into a list. It takes memory only where it is parked.
#[inline(always)]
pub fn read_into<A: Allocator + Copy>(
    kernel: &mut KernelState<A>,
    pid: u32,
    fd: i32,
    into: &mut [u8],
) -> Result<Answered<usize>, NoMemory>
    requires process { IsProcess kernel.old pid }
    requires few { length into.old < 2 ^ 32 }
    ensures done { IfOk result (λ reply. MakesAtKeys {A = A} kernel.old (Step.Begin pid (Call.Read fd (length into.old))) (told reply into.new) kernel.new) }
    ensures within { IfOk result (λ reply. read_count reply ≤ length into.new) }
    ensures rest { IfOk result (λ reply. drop (read_count reply) into.new ≡ drop (read_count reply) into.old) }
    ensures undone { OnErr result (kernel.new ≡ kernel.old) }
    ensures unread { OnErr result (into.new ≡ into.old) }
    ensures wanted { OnErr result (ParksAtKeys {A = A} kernel.old (Step.Begin pid (Call.Read fd (length into.old)))) }
{
    let tried = try_read(kernel, pid, fd, into.len() as u32)?;
    // A proof learns here what holds of the kernel.
    let _ = &kernel.descs;
    match tried {
        ReadTry::Answered(reply) => Ok(reply),
        ReadTry::Takes { end, count } => {
            kernel.nodes.read_pipe_into(end.pipe, &mut into[..count]);
            Ok(Answered::Done(count))
        }
        ReadTry::Reads { open, file } => {
            Ok(Answered::Done(read_file_into(kernel, open.key, file, into)))
        }
    }
}
