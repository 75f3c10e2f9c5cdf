//! Names: how what they stand for is opened, and how they are taken away.
ghost use Rattle.std.specs.Prelude.{◌≡◌, ◌<◌, ◌&&◌, ℕ, List, IfOk, OnErr, IsSome, Some, None, MatchResult, [], if◌then◌else◌};
ghost use Rattle.pl_model.specs.Map.{change_at};
ghost use Rattle.pl_nodes.specs.Nodes.{SamePipes};
ghost use Rattle.pl_model.specs.Flags.{has, trunc, status_flags};
ghost use Rattle.pl_model.specs.Modes.{writes};
ghost use Rattle.pl_model.specs.Tables.{descriptor_limit, description_limit};
ghost use Rattle.pl_desc.specs.Rows.{at, lowest_of};
ghost use Rattle.pl_desc.specs.Descs.{live_count};
ghost use Rattle.pl_state.specs.Contents.{IsProcess};
ghost use Rattle.pl_state.specs.Makes.{MakesAtKeys, MayWantAtKeys, Tells, HasFile};
ghost use Rattle.pl_naming.specs.Openings.{IsRefused, MayOpen};

use crate::fifos::open_fifo;
use bitflags::Flags;
use pl_decisions::{name_fault, open_fault};
use pl_model::{Bytes8, Call, Errno, Mode, Name, Node, OpenFlags, Reply, Step};
use pl_nodes::Nodes;
use pl_state::{Access, KernelState, NoMemory, leave_unnamed, open_at};
use std::alloc::Allocator;

/// The flags that a description keeps (POSIX.1-2017, fcntl, `F_SETFL`).
pub(crate) fn status_of(flags: OpenFlags) -> OpenFlags
    ensures { result ≡ status_flags flags }
{
    flags.intersection(OpenFlags::APPEND.union(OpenFlags::NONBLOCK))
}

/// Whether a file that is opened so loses its bytes (POSIX.1-2017, open, O_TRUNC). That one that isn't written keeps them is our own
/// choice.
fn does_truncate(mode: Mode, flags: OpenFlags) -> bool
    ensures { result ≡ (has flags.0 trunc && writes mode) }
{
    flags.contains(OpenFlags::TRUNC) && Access::Writing.is_allowed_by(mode)
}

// Empties a file, where it is to be.
fn empty_if<A: Allocator + Copy>(nodes: &mut Nodes<A>, file: usize, is_emptied: bool)
    requires { IsSome (at nodes.old.files file) }
    ensures files { at nodes.new.files ≡ change_at file (λ bytes. if is_emptied then [] else bytes) (at nodes.old.files) }
    ensures pipes { SamePipes nodes.old nodes.new }
{
    if !is_emptied {
        return;
    }
    nodes.empty_file(file);
}

/// Opens what a name stands for, or makes an empty file of it under `CREAT` (POSIX.1-2017, open), for a process that is there.
///
/// The reply is the least free descriptor, or, in this order: `ENOENT` of an empty name, `ENAMETOOLONG` of one above 255 bytes, `EINVAL` of
/// one with a slash or a NUL; `EEXIST` under `CREAT` and `EXCL` where the name stands for something; `ENOENT` without `CREAT` where it
/// stands for nothing; `EMFILE` where no descriptor is free; `ENFILE` where no description more may be; `ENOSPC` of a file that is to be
/// made, where there are as many names as may be. A FIFO without the other end that this open needs is waited for, and the reply is `Parked`; but
/// `ENXIO` of an open for writing with `NONBLOCK`, `EAGAIN` where as many calls wait as may, and `CallsSpent` where no number is left for
/// a call that waits (fifo(7)). The only error is want of memory. But for `Parked`, all of these leave all as it was.
pub fn open_name<A: Allocator + Copy>(
    kernel: &mut KernelState<A>,
    pid: u32,
    name: Name<A>,
    mode: Mode,
    flags: OpenFlags,
) -> Result<Reply<A>, NoMemory>
    requires { IsProcess kernel.old pid }
    ensures done { IfOk result (λ reply. MakesAtKeys kernel.old (Step.Begin pid (Call.OpenName name mode flags)) reply kernel.new) }
    ensures undone { OnErr result (kernel.new ≡ kernel.old) }
    ensures wanted { OnErr result (MayWantAtKeys {A = A} kernel.old (Step.Begin pid (Call.OpenName name mode flags))) }
{
    // A proof learns here that nothing is left to settle.
    let _ = &kernel.nodes;
    let bytes = name.as_slice();
    let (fd, found) = match checked_open(kernel, pid, bytes, flags) {
        Ok(checked) => checked,
        Err(errno) => return Ok(Reply::Fault(errno)),
    };
    let Some(node) = found else {
        return create_file(kernel, pid, fd, bytes, mode, flags);
    };
    match node {
        Node::File(file) => open_file(kernel, pid, fd, file, mode, flags),
        Node::Pipe(pipe) => open_fifo(kernel, pid, fd, name, pipe, mode, flags),
    }
}

// The descriptor that an open of a name gets, and what the name stands for, if anything; or what it is refused for.
fn checked_open<A: Allocator + Copy>(
    kernel: &KernelState<A>,
    pid: u32,
    name: &[u8],
    flags: OpenFlags,
) -> Result<(usize, Option<Node>), Errno>
    requires { IsProcess kernel.now pid }
    ensures { MatchResult result (λ checked. (mode : Mode) → MayOpen kernel.now pid name.now mode flags checked.0 checked.1) (λ errno. (mode : Mode) → IsRefused kernel.now pid name.now mode flags errno) }
{
    if let Some(errno) = name_fault(name) {
        return Err(errno);
    }
    let found = kernel.nodes.look_up(name);
    let creates = flags.contains(OpenFlags::CREAT);
    let is_exclusive = flags.contains(OpenFlags::EXCL);
    if let Some(errno) = open_fault(found.is_some(), creates, is_exclusive) {
        return Err(errno);
    }
    let Some(fd) = kernel.descs.lowest(pid, 0) else {
        return Err(Errno::EMFILE);
    };
    if kernel.limits.descriptions() <= kernel.descs.live() {
        return Err(Errno::ENFILE);
    }
    Ok((fd, found))
}

// Opens a file that is there.
fn open_file<A: Allocator + Copy>(
    kernel: &mut KernelState<A>,
    pid: u32,
    fd: usize,
    file: usize,
    mode: Mode,
    flags: OpenFlags,
) -> Result<Reply<A>, NoMemory>
    requires process { IsProcess kernel.old pid }
    requires lowest { lowest_of kernel.old.tables (descriptor_limit kernel.old.limits) pid 0 ≡ Some fd }
    requires few { live_count kernel.old.opened < description_limit kernel.old.limits }
    requires there { IsSome (at kernel.old.nodes.files file) }
    ensures done { IfOk result (λ reply. (name : List ℕ) → MayOpen kernel.old pid name mode flags fd (Some (Node.File file)) → MakesAtKeys kernel.old (Step.Begin pid (Call.OpenName name mode flags)) reply kernel.new) }
    ensures undone { OnErr result (kernel.new ≡ kernel.old) }
    ensures wanted { OnErr result ((name : List ℕ) → MayOpen kernel.old pid name mode flags fd (Some (Node.File file)) → MayWantAtKeys {A = A} kernel.old (Step.Begin pid (Call.OpenName name mode flags))) }
{
    let node = Node::File(file);
    kernel.descs.reserve_at(pid, fd, node, 1)?;
    empty_if(&mut kernel.nodes, file, does_truncate(mode, flags));
    open_at(&mut kernel.descs, pid, fd, node, mode, status_of(flags));
    Ok(Reply::Fd(fd as i32))
}

// Makes an empty file of a name that stands for nothing, and opens it, or answers `ENOSPC`.
fn create_file<A: Allocator + Copy>(
    kernel: &mut KernelState<A>,
    pid: u32,
    fd: usize,
    name: &[u8],
    mode: Mode,
    flags: OpenFlags,
) -> Result<Reply<A>, NoMemory>
    requires process { IsProcess kernel.old pid }
    requires may { MayOpen kernel.old pid name.now mode flags fd None }
    ensures done { IfOk result (λ reply. MakesAtKeys kernel.old (Step.Begin pid (Call.OpenName name.now mode flags)) reply kernel.new) }
    ensures undone { OnErr result (kernel.new ≡ kernel.old) }
    ensures wanted { OnErr result (MayWantAtKeys {A = A} kernel.old (Step.Begin pid (Call.OpenName name.now mode flags))) }
{
    if !kernel.can_name() {
        return Ok(Reply::Fault(Errno::ENOSPC));
    }
    let node = Node::File(kernel.nodes.next_key());
    let kept = Vec::from_slice(kernel.alloc, name)?;
    kernel.descs.reserve_at(pid, fd, node, 1)?;
    let Ok(_) = kernel.nodes.make_file(kept) else {
        return Err(NoMemory);
    };
    open_at(&mut kernel.descs, pid, fd, node, mode, status_of(flags));
    Ok(Reply::Fd(fd as i32))
}

/// Takes a name away; what it stood for stays as long as it is open (POSIX.1-2017, unlink). It takes no memory.
///
/// The reply is `Unit`, or what is wrong with the name, as `open_name` answers, or `ENOENT` where it stands for nothing; these leave all
/// as it was.
pub fn unlink<A: Allocator + Copy>(
    kernel: &mut KernelState<A>,
    pid: u32,
    name: &Name<A>,
) -> Reply<A>
    requires { IsProcess kernel.old pid }
    ensures { MakesAtKeys kernel.old (Step.Begin pid (Call.Unlink name.now)) result kernel.new }
{
    // A proof learns here that nothing is left to settle.
    let _ = &kernel.nodes;
    let bytes = name.as_slice();
    if let Some(errno) = name_fault(bytes) {
        return Reply::Fault(errno);
    }
    let Ok(node) = kernel.nodes.unlink(bytes) else {
        return Reply::Fault(Errno::ENOENT);
    };
    leave_unnamed(&kernel.descs, &mut kernel.nodes, node);
    Reply::Unit
}

/// The bytes of the file that a name stands for, all of them; `None` where it stands for nothing, or for what is no file (our own).
///
/// # Errors
///
/// `NoMemory` only where there is such a file, and no memory for its bytes.
pub fn file_bytes<A: Allocator + Copy>(
    kernel: &KernelState<A>,
    name: &Name<A>,
) -> Result<Option<Bytes8<A>>, NoMemory>
    ensures told { IfOk result (Tells {A = A} kernel.now name.now) }
    ensures wanted { OnErr result (HasFile {A = A} kernel.now name.now) }
{
    let nodes = &kernel.nodes;
    let Some(node) = nodes.look_up(name.as_slice()) else {
        return Ok(None);
    };
    let Node::File(file) = node else {
        return Ok(None);
    };
    let bytes = nodes.read_file(file, 0, nodes.file_len(file))?;
    Ok(Some(Bytes8::from_vec(bytes).unwrap()))
}
