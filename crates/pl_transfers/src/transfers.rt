//! Writes, what a descriptor names, and how pipes are made.
ghost use Rattle.std.specs.Prelude.{◌≡◌, ◌≢◌, ◌≤◌, [], length, IfOk, OnErr, IsSome, IfSome, IfNone, None, Some};
ghost use Rattle.pl_model.specs.Packets.{front};
ghost use Rattle.pl_model.specs.Flags.{nonblock_if, write_end_flags};
ghost use Rattle.pl_model.specs.Modes.{writes};
ghost use Rattle.pl_model.specs.Numbers.{most_bytes};
ghost use Rattle.pl_model.specs.Transfer.{read_case, write_case, room};
ghost use Rattle.pl_model.specs.Begin.{open_for};
ghost use Rattle.pl_desc.specs.Rows.{at};
ghost use Rattle.pl_decisions.specs.Decided.{FitsRoom};
ghost use Rattle.pl_state.specs.Contents.{IsProcess, core_of, allows};
ghost use Rattle.pl_state.specs.Opens.{Opens, of_end};
ghost use Rattle.pl_state.specs.LastHold.{has_reader, has_writer};
ghost use Rattle.pl_state.specs.Makes.{MakesAtKeys, MayWantAtKeys};
ghost use Rattle.pl_transfers.specs.Waits.{reply_of, WriteTried, WaitsToWrite};

use crate::files::write_file;
use crate::waiting::park_write;
use bitflags::Flags;
use pl_model::{Bytes8, Call, Errno, Mode, Node, OpenFlags, ReadCase, Reply, Step, WriteCase};
use pl_nodes::WriteFault;
use pl_state::{Access, Answered, KernelState, NoMemory, OpenEnd, OpenNode, open_at};
use std::alloc::Allocator;

/// The read of no bytes, which is end of file.
pub(crate) fn no_bytes<A: Allocator>(alloc: A) -> Reply<A>
    ensures { result ≡ Reply.Bytes [] }
{
    Reply::Bytes(Bytes8::from_vec(Vec::new(alloc)).unwrap())
}

/// The status flags of the ends of a new pipe.
fn flags_of(nonblock: bool) -> OpenFlags
    ensures { result ≡ nonblock_if nonblock }
{
    if nonblock {
        OpenFlags::NONBLOCK
    } else {
        OpenFlags::empty()
    }
}

/// The status flags of the write end of a new pipe (pipe(2), O_DIRECT).
fn flags_of_writer(nonblock: bool, direct: bool) -> OpenFlags
    ensures { result ≡ write_end_flags nonblock direct }
{
    if direct {
        flags_of(nonblock).union(OpenFlags::DIRECT)
    } else {
        flags_of(nonblock)
    }
}

/// Makes a pipe, and opens its read end and its write end on the two least free descriptors (POSIX.1-2017, pipe; pipe(2)). With
/// `direct` it is a packet pipe.
///
/// The reply is the two, or `EMFILE` where fewer are free, or `ENFILE` where there may be fewer than two descriptions more. The only error
/// is want of memory. All of these leave all as it was.
pub fn pipe<A: Allocator + Copy>(
    kernel: &mut KernelState<A>,
    pid: u32,
    nonblock: bool,
    direct: bool,
) -> Result<Reply<A>, NoMemory>
    requires { IsProcess kernel.old pid }
    ensures done { IfOk result (λ reply. MakesAtKeys kernel.old (Step.Begin pid (Call.Pipe nonblock direct)) reply kernel.new) }
    ensures undone { OnErr result (kernel.new ≡ kernel.old) }
    ensures wanted { OnErr result (MayWantAtKeys {A = A} kernel.old (Step.Begin pid (Call.Pipe nonblock direct))) }
{
    let Some(first) = kernel.descs.lowest(pid, 0) else {
        return Ok(Reply::Fault(Errno::EMFILE));
    };
    let Some(second) = kernel.descs.lowest(pid, first + 1) else {
        return Ok(Reply::Fault(Errno::EMFILE));
    };
    if kernel.limits.descriptions() < kernel.descs.live() + 2 {
        return Ok(Reply::Fault(Errno::ENFILE));
    }
    let flags = flags_of(nonblock);
    let node = Node::Pipe(kernel.nodes.next_key());
    kernel.descs.reserve_at(pid, second, node, 2)?;
    kernel.nodes.make(direct)?;
    open_at(&mut kernel.descs, pid, first, node, Mode::Read, flags);
    let flags_of_writer = flags_of_writer(nonblock, direct);
    open_at(
        &mut kernel.descs,
        pid,
        second,
        node,
        Mode::Write,
        flags_of_writer,
    );
    Ok(Reply::Fds(first as i32, second as i32))
}

/// What a descriptor of a process names, where its mode allows the access (POSIX.1-2017, read and write, EBADF).
#[inline(always)]
pub fn open_for<A: Allocator + Copy>(
    kernel: &KernelState<A>,
    pid: u32,
    fd: i32,
    access: Access,
) -> Option<OpenNode>
    ensures some { IfSome result (Opens kernel.now (allows access) pid fd) }
    ensures none { IfNone result (open_for (allows access) (core_of {A = A} kernel.now) pid fd ≡ None) }
{
    let key = kernel.descs.find(pid, fd)?;
    if !access.is_allowed_by(kernel.descs.mode(key)) {
        return None;
    }
    Some(OpenNode {
        key,
        node: kernel.descs.node(key),
        nonblock: kernel.descs.flags(key).contains(OpenFlags::NONBLOCK),
    })
}

// What a read of n bytes, not 0, of a pipe comes to.
#[inline(always)]
pub(crate) fn case_of_read<A: Allocator + Copy>(
    kernel: &KernelState<A>,
    pipe: usize,
    n: u32,
) -> ReadCase
    requires { IsSome (at kernel.now.nodes.pipes pipe) }
    ensures case { IfSome (at kernel.now.nodes.pipes pipe) (λ x. result ≡ read_case n (front x) (has_writer kernel.now.opened pipe)) }
    ensures within { IfSome (at kernel.now.nodes.pipes pipe) (λ x. front x ≤ length x.bytes) }
{
    let front = kernel.nodes.front(pipe);
    // Whether something writes only matters where nothing is held.
    let has_writer = front == 0 && kernel.descs.writers(Node::Pipe(pipe)) > 0;
    pl_decisions::case_of_read(n as usize, front, has_writer)
}

// What a write of bytes, not none, of which some were taken before, to a pipe comes to.
#[inline(always)]
pub(crate) fn case_of_write<A: Allocator + Copy>(
    kernel: &KernelState<A>,
    pipe: usize,
    length: usize,
    taken: usize,
    may_wait: bool,
) -> WriteCase
    requires pipe { IsSome (at kernel.now.nodes.pipes pipe) }
    requires taken { taken ≤ length }
    ensures case { IfSome (at kernel.now.nodes.pipes pipe) (λ x. result ≡ write_case length taken (room x) (has_reader kernel.now.opened pipe) may_wait) }
    ensures fits { IfSome (at kernel.now.nodes.pipes pipe) (λ x. FitsRoom result length taken (room x)) }
{
    let room = kernel.nodes.room(pipe);
    let has_reader = kernel.descs.readers(Node::Pipe(pipe)) > 0;
    pl_decisions::case_of_write(length, taken, room, has_reader, may_wait)
}

/// What a write did.
#[derive(Clone, Copy, Debug, PartialEq, Eq)]
pub struct Written {
    /// How many bytes went in.
    pub n: u32,
    /// Whether the last reader left before all did.
    pub sigpipe: bool,
}

/// What a write comes to at its first try.
#[derive(Clone, Copy)]
pub(crate) enum WriteTry {
    /// It is answered.
    Answered(Answered<Written>),
    /// It is answered, as so many bytes went into a pipe: most are, so that this has a way of its own to the answer.
    Wrote(u32),
    /// It waits on the end of a pipe, into which so many bytes go first.
    Waits { end: OpenEnd, to: usize },
}

/// The reply that a write's answer tells.
#[inline(always)]
pub fn reply_of_write<A: Allocator>(answered: Answered<Written>) -> Reply<A>
    ensures { result ≡ reply_of answered }
{
    match answered {
        Answered::Done(Written { n, sigpipe }) => Reply::Count { n, sigpipe },
        _ => answered.undone(),
    }
}

/// Writes bytes to what a descriptor names (POSIX.1-2017, write; pipe(7), PIPE_BUF).
///
/// The reply is how many went in, or a number under which the call waits for the rest, or `EBADF` where the descriptor isn't open for
/// writing, `EPIPE` of a pipe without readers, `EFBIG` of a file with no room left, `EAGAIN` where the call would wait and may not,
/// `CallsSpent` where no number is left; these and the only error, want of memory, leave all as it was.
#[inline(always)]
pub fn write<A: Allocator + Copy>(
    kernel: &mut KernelState<A>,
    pid: u32,
    fd: i32,
    bytes: Bytes8<A>,
) -> Result<Reply<A>, NoMemory>
    requires { IsProcess kernel.old pid }
    ensures done { IfOk result (λ reply. MakesAtKeys kernel.old (Step.Begin pid (Call.Write fd bytes)) reply kernel.new) }
    ensures undone { OnErr result (kernel.new ≡ kernel.old) }
    ensures wanted { OnErr result (MayWantAtKeys {A = A} kernel.old (Step.Begin pid (Call.Write fd bytes))) }
{
    match try_write(kernel, pid, fd, bytes.as_slice())? {
        WriteTry::Answered(reply) => Ok(reply_of_write(reply)),
        WriteTry::Wrote(n) => Ok(Reply::Count { n, sigpipe: false }),
        WriteTry::Waits { end, to } => {
            let number = wait_to_write(kernel, pid, fd, bytes, end, to)?;
            Ok(Reply::Parked(number))
        }
    }
}

/// Writes the caller's bytes, as `write` does those of a call. One that waits keeps a copy of them, which is asked for behind all
/// refusals.
#[inline(always)]
pub fn write_from<A: Allocator + Copy>(
    kernel: &mut KernelState<A>,
    pid: u32,
    fd: i32,
    bytes: &[u8],
) -> Result<Answered<Written>, NoMemory>
    requires process { IsProcess kernel.old pid }
    requires few { length bytes.now ≤ most_bytes }
    ensures done { IfOk result (λ reply. MakesAtKeys {A = A} kernel.old (Step.Begin pid (Call.Write fd bytes.now)) (reply_of reply) kernel.new) }
    ensures undone { OnErr result (kernel.new ≡ kernel.old) }
    ensures wanted { OnErr result (MayWantAtKeys {A = A} kernel.old (Step.Begin pid (Call.Write fd bytes.now))) }
{
    match try_write(kernel, pid, fd, bytes)? {
        WriteTry::Answered(reply) => Ok(reply),
        WriteTry::Wrote(n) => Ok(Answered::Done(Written { n, sigpipe: false })),
        WriteTry::Waits { end, to } => {
            let number = wait_with_copy(kernel, pid, fd, bytes, end, to)?;
            Ok(Answered::Parked(number))
        }
    }
}

// What a write of bytes to what a descriptor names comes to.
#[inline(always)]
fn try_write<A: Allocator + Copy>(
    kernel: &mut KernelState<A>,
    pid: u32,
    fd: i32,
    bytes: &[u8],
) -> Result<WriteTry, NoMemory>
    requires process { IsProcess kernel.old pid }
    requires few { length bytes.now ≤ most_bytes }
    ensures done { IfOk result (λ tried. WriteTried kernel.old pid fd bytes.now tried kernel.new) }
    ensures undone { OnErr result (kernel.new ≡ kernel.old) }
    ensures wanted { OnErr result (MayWantAtKeys {A = A} kernel.old (Step.Begin pid (Call.Write fd bytes.now))) }
{
    // A proof learns here what holds of the kernel.
    let _ = &kernel.descs;
    let Some(open) = open_for(kernel, pid, fd, Access::Writing) else {
        return Ok(WriteTry::Answered(Answered::Fault(Errno::EBADF)));
    };
    if bytes.is_empty() {
        return Ok(WriteTry::Answered(Answered::Done(Written {
            n: 0,
            sigpipe: false,
        })));
    }
    match open.node {
        Node::Pipe(pipe) => try_write_pipe(
            kernel,
            pid,
            fd,
            bytes,
            OpenEnd {
                key: open.key,
                pipe,
                nonblock: open.nonblock,
            },
        ),
        Node::File(file) => match write_file(kernel, open.key, file, bytes) {
            Ok(count) => Ok(WriteTry::Answered(Answered::Done(Written {
                n: count as u32,
                sigpipe: false,
            }))),
            Err(WriteFault::TooBig) => Ok(WriteTry::Answered(Answered::Fault(Errno::EFBIG))),
            Err(WriteFault::NoMemory) => Err(NoMemory),
        },
    }
}

// What a write of bytes, not none, to the end of a pipe that a descriptor names comes to.
#[inline(always)]
fn try_write_pipe<A: Allocator + Copy>(
    kernel: &mut KernelState<A>,
    pid: u32,
    fd: i32,
    bytes: &[u8],
    end: OpenEnd,
) -> Result<WriteTry, NoMemory>
    requires process { IsProcess kernel.old pid }
    requires few { length bytes.now ≤ most_bytes }
    requires opens { Opens kernel.old writes pid fd (of_end end) }
    requires some { length bytes.now ≢ 0 }
    ensures done { IfOk result (λ tried. WriteTried kernel.old pid fd bytes.now tried kernel.new) }
    ensures undone { OnErr result (kernel.new ≡ kernel.old) }
    ensures wanted { OnErr result (MayWantAtKeys {A = A} kernel.old (Step.Begin pid (Call.Write fd bytes.now))) }
{
    match case_of_write(kernel, end.pipe, bytes.len(), 0, !end.nonblock) {
        WriteCase::Broken => Ok(WriteTry::Answered(Answered::Fault(Errno::EPIPE))),
        WriteCase::CutShort => Ok(WriteTry::Answered(Answered::Done(Written {
            n: 0,
            sigpipe: true,
        }))),
        WriteCase::Ends { from, to } => {
            kernel.nodes.write_pipe(end.pipe, &bytes[from..to])?;
            Ok(WriteTry::Wrote(to as u32))
        }
        WriteCase::Waits { to, .. } => {
            if kernel.refuses_to_wait(pid, end.nonblock) {
                return Ok(WriteTry::Answered(Answered::Fault(Errno::EAGAIN)));
            }
            if kernel.parked.spent() {
                return Ok(WriteTry::Answered(Answered::CallsSpent));
            }
            Ok(WriteTry::Waits { end, to })
        }
    }
}

// Parks a write, of which so many bytes go in first, and answers its number.
#[inline(never)]
fn wait_to_write<A: Allocator + Copy>(
    kernel: &mut KernelState<A>,
    pid: u32,
    fd: i32,
    bytes: Bytes8<A>,
    end: OpenEnd,
    to: usize,
) -> Result<u64, NoMemory>
    requires process { IsProcess kernel.old pid }
    requires waits { WaitsToWrite kernel.old pid fd bytes end to }
    ensures done { IfOk result (λ number. MakesAtKeys kernel.old (Step.Begin pid (Call.Write fd bytes)) (Reply.Parked number) kernel.new) }
    ensures undone { OnErr result (kernel.new ≡ kernel.old) }
    ensures wanted { OnErr result (MayWantAtKeys {A = A} kernel.old (Step.Begin pid (Call.Write fd bytes))) }
{
    // A proof learns here what holds of the kernel.
    let _ = &kernel.descs;
    park_write(kernel, pid, Call::Write { fd, bytes }, end, to)
}

// Parks a write of the caller's bytes, of which so many go in first, with a copy of them all, and answers its number.
#[inline(never)]
fn wait_with_copy<A: Allocator + Copy>(
    kernel: &mut KernelState<A>,
    pid: u32,
    fd: i32,
    bytes: &[u8],
    end: OpenEnd,
    to: usize,
) -> Result<u64, NoMemory>
    requires process { IsProcess kernel.old pid }
    requires few { length bytes.now ≤ most_bytes }
    requires waits { WaitsToWrite kernel.old pid fd bytes.now end to }
    ensures done { IfOk result (λ number. MakesAtKeys {A = A} kernel.old (Step.Begin pid (Call.Write fd bytes.now)) (Reply.Parked number) kernel.new) }
    ensures undone { OnErr result (kernel.new ≡ kernel.old) }
    ensures wanted { OnErr result (MayWantAtKeys {A = A} kernel.old (Step.Begin pid (Call.Write fd bytes.now))) }
{
    // A proof learns here what holds of the kernel.
    let _ = &kernel.descs;
    let copy = Vec::from_slice(kernel.alloc, bytes)?;
    wait_to_write(kernel, pid, fd, Bytes8::from_vec(copy).unwrap(), end, to)
}
