//! FIFOs: how a pipe gets a name, and how it is opened by it.
ghost use Rattle.std.specs.Prelude.{◌≡◌, ◌<◌, false, IfOk, OnErr, IsSome, Some, if◌then◌else◌};
ghost use Rattle.pl_model.specs.Flags.{status_flags};
ghost use Rattle.pl_model.specs.Fifo.{can_open as machine_can_open};
ghost use Rattle.pl_model.specs.Map.{change_at};
ghost use Rattle.pl_model.specs.Numbers.{last_call};
ghost use Rattle.pl_numbered.specs.Rising.{Rise};
ghost use Rattle.pl_desc.specs.Rows.{at};
ghost use Rattle.pl_desc.specs.Descs.{fresh, live_count};
ghost use Rattle.pl_nodes.specs.Nodes.{SameFiles};
ghost use Rattle.pl_state.specs.Contents.{IsProcess, core_of};
ghost use Rattle.pl_state.specs.Makes.{MakesAtKeys, MayWantAtKeys};
ghost use Rattle.pl_naming.specs.Openings.{MayOpen};
ghost use Rattle.pl_naming.specs.Waits.{Awaits, Waits, open_on};

use crate::naming::status_of;
use bitflags::Flags;
use pl_decisions::{name_fault, opens_at_once};
use pl_desc::Descs;
use pl_model::{Call, Errno, KeyList, Mode, Name, Node, OpenFlags, Reply, Step};
use pl_nodes::Nodes;
use pl_parked::{Parked, ParkedCall};
use pl_state::{Access, KernelState, NoMemory, open_at};
use std::alloc::Allocator;

/// Makes a FIFO: an empty pipe that the name stands for (POSIX.1-2017, mkfifo), for a process that is there.
///
/// The reply is `Unit`, or, in this order: `ENOENT` of an empty name, `ENAMETOOLONG` of one above 255 bytes, `EINVAL` of one with a slash
/// or a NUL; `EEXIST` where the name stands for something; `ENOSPC` where there are as many names as may be. The only error is want of
/// memory. All of these leave all as it was.
pub fn mkfifo<A: Allocator + Copy>(
    kernel: &mut KernelState<A>,
    pid: u32,
    name: &Name<A>,
) -> Result<Reply<A>, NoMemory>
    requires { IsProcess kernel.old pid }
    ensures done { IfOk result (λ reply. MakesAtKeys kernel.old (Step.Begin pid (Call.Mkfifo name.now)) reply kernel.new) }
    ensures undone { OnErr result (kernel.new ≡ kernel.old) }
    ensures wanted { OnErr result (MayWantAtKeys {A = A} kernel.old (Step.Begin pid (Call.Mkfifo name.now))) }
{
    // A proof learns here that nothing is left to settle.
    let _ = &kernel.nodes;
    let bytes = name.as_slice();
    if let Some(errno) = name_fault(bytes) {
        return Ok(Reply::Fault(errno));
    }
    if kernel.nodes.look_up(bytes).is_some() {
        return Ok(Reply::Fault(Errno::EEXIST));
    }
    if !kernel.can_name() {
        return Ok(Reply::Fault(Errno::ENOSPC));
    }
    let kept = Vec::from_slice(kernel.alloc, bytes)?;
    let Ok(_) = kernel.nodes.make_fifo(kept) else {
        return Err(NoMemory);
    };
    Ok(Reply::Unit)
}

// Whether a FIFO can be opened so, as it is.
fn can_open<A: Allocator + Copy>(
    kernel: &KernelState<A>,
    pipe: usize,
    mode: Mode,
    flags: OpenFlags,
) -> bool
    ensures { result ≡ machine_can_open (core_of {A = A} kernel.now) pipe mode flags }
{
    let node = Node::Pipe(pipe);
    let has_reader = 0 < kernel.descs.readers(node);
    let has_writer = 0 < kernel.descs.writers(node);
    opens_at_once(
        mode,
        has_reader,
        has_writer,
        flags.contains(OpenFlags::NONBLOCK),
    )
}

// A pipe that gets a write end is hung no more.
fn unhang_if<A: Allocator + Copy>(nodes: &mut Nodes<A>, pipe: usize, gets_writer: bool)
    requires { IsSome (at nodes.old.pipes pipe) }
    ensures pipes { at nodes.new.pipes ≡ change_at pipe (λ x. record x { hung = if gets_writer then false else x.hung }) (at nodes.old.pipes) }
    ensures files { SameFiles nodes.old nodes.new }
{
    if !gets_writer {
        return;
    }
    nodes.set_hung(pipe, false);
}

// An end of a FIFO, as it is opened.
#[derive(Clone, Copy)]
struct FifoEnd {
    pipe: usize,
    mode: Mode,
    flags: OpenFlags,
}

// Parks an open that waits for the other end of a FIFO, and opens its description, which the call alone holds and whose key is
// answered. The call is parked first, as it can be given its key without memory.
fn park_open<A: Allocator + Copy>(
    alloc: A,
    descs: &mut Descs<A>,
    parked: &mut Parked<A>,
    pid: u32,
    call: Call<A>,
    end: FifoEnd,
) -> Result<usize, NoMemory>
    requires left { ¬ (parked.old.next ≡ last_call) }
    requires rise { Rise 0 parked.old.next parked.old.calls }
    requires few { live_count descs.old.opened < descs.old.limits.descriptions }
    ensures ok { IfOk result (λ key. Awaits descs.old parked.old descs.new parked.new key (open_on key pid end.pipe call) (fresh (Node.Pipe end.pipe) end.mode (status_flags end.flags))) }
    ensures err { OnErr result ((descs.new ≡ record descs.old { room = descs.new.room }) × (parked.new ≡ parked.old)) }
{
    let node = Node::Pipe(end.pipe);
    descs.reserve(node, 1)?;
    let mut kept = Vec::with_capacity(alloc, 1)?;
    let Ok(number) = parked.park(ParkedCall {
        pid,
        call,
        kept: KeyList::from_vec(Vec::new(alloc)),
        fifo: Some(end.pipe),
        taken: 0,
        met: false,
    }) else {
        return Err(NoMemory);
    };
    let key = descs.open_reserved(node, end.mode, status_of(end.flags));
    kept.push_reserved(key);
    parked.set_kept(number, KeyList::from_vec(kept));
    Ok(key)
}

// Waits for the other end of a FIFO, with a description that the call alone holds, and meets the opens that wait for this end.
fn await_other_end<A: Allocator + Copy>(
    kernel: &mut KernelState<A>,
    pid: u32,
    name: Name<A>,
    end: FifoEnd,
) -> Result<Reply<A>, NoMemory>
    requires process { IsProcess kernel.old pid }
    requires waits { Waits kernel.old pid name end.pipe end.mode end.flags }
    requires there { IsSome (at kernel.old.nodes.pipes end.pipe) }
    ensures done { IfOk result (λ reply. MakesAtKeys kernel.old (Step.Begin pid (Call.OpenName name end.mode end.flags)) reply kernel.new) }
    ensures undone { OnErr result (kernel.new ≡ kernel.old) }
    ensures wanted { OnErr result (MayWantAtKeys {A = A} kernel.old (Step.Begin pid (Call.OpenName name end.mode end.flags))) }
{
    if !kernel.can_wait(pid) {
        return Ok(Reply::Fault(Errno::EAGAIN));
    }
    if kernel.parked.spent() {
        return Ok(Reply::CallsSpent);
    }
    let number = kernel.parked.next_number();
    let FifoEnd { mode, flags, .. } = end;
    let call = Call::OpenName { name, mode, flags };
    park_open(
        kernel.alloc,
        &mut kernel.descs,
        &mut kernel.parked,
        pid,
        call,
        end,
    )?;
    kernel.parked.mark_met(end.pipe, mode);
    let gets_writer = Access::Writing.is_allowed_by(mode);
    unhang_if(&mut kernel.nodes, end.pipe, gets_writer);
    Ok(Reply::Parked(number))
}

// Opens a FIFO, which is there, or waits for its other end.
pub(crate) fn open_fifo<A: Allocator + Copy>(
    kernel: &mut KernelState<A>,
    pid: u32,
    fd: usize,
    name: Name<A>,
    pipe: usize,
    mode: Mode,
    flags: OpenFlags,
) -> Result<Reply<A>, NoMemory>
    requires process { IsProcess kernel.old pid }
    requires may { MayOpen kernel.old pid name mode flags fd (Some (Node.Pipe pipe)) }
    requires there { IsSome (at kernel.old.nodes.pipes pipe) }
    ensures done { IfOk result (λ reply. MakesAtKeys kernel.old (Step.Begin pid (Call.OpenName name mode flags)) reply kernel.new) }
    ensures undone { OnErr result (kernel.new ≡ kernel.old) }
    ensures wanted { OnErr result (MayWantAtKeys {A = A} kernel.old (Step.Begin pid (Call.OpenName name mode flags))) }
{
    if !can_open(kernel, pipe, mode, flags) {
        if flags.contains(OpenFlags::NONBLOCK) {
            return Ok(Reply::Fault(Errno::ENXIO));
        }
        return await_other_end(kernel, pid, name, FifoEnd { pipe, mode, flags });
    }
    let node = Node::Pipe(pipe);
    kernel.descs.reserve_at(pid, fd, node, 1)?;
    kernel.parked.mark_met(pipe, mode);
    let gets_writer = Access::Writing.is_allowed_by(mode);
    unhang_if(&mut kernel.nodes, pipe, gets_writer);
    open_at(&mut kernel.descs, pid, fd, node, mode, status_of(flags));
    Ok(Reply::Fd(fd as i32))
}
