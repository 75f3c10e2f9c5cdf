//! Calls on descriptors.
ghost use Rattle.std.specs.Prelude.{◌≡◌, ◌<◌, None, IsSome, IsOk, IfOk, OnOk, OnErr};
ghost use Rattle.pl_model.specs.Begin.{natural};
ghost use Rattle.pl_model.specs.Settle.{settle};
ghost use Rattle.pl_model.specs.Tables.{close_row, install, descriptor_limit};
ghost use Rattle.pl_desc.specs.Rows.{at, row_at, row_of, lowest_of};
ghost use Rattle.pl_state.specs.Contents.{IsProcess, core_of};
ghost use Rattle.pl_descriptors.specs.Duplicates.{Duplicates};
ghost use Rattle.pl_state.specs.Makes.{MakesAtKeys, MayWantAtKeys};

use bitflags::Flags;
use pl_desc::LEAST_ROWS;
use pl_model::{Call, Errno, OpenFlags, Reply, Step};
use pl_state::{KernelState, NoMemory, release};
use std::alloc::Allocator;

/// Closes a descriptor of a process that is there (POSIX.1-2017, close). It takes no memory.
///
/// The reply is `Unit`, or `EBADF` where the descriptor isn't open, which leaves all as it was.
#[inline(always)]
pub fn close<A: Allocator + Copy>(kernel: &mut KernelState<A>, pid: u32, fd: i32) -> Reply<A>
    requires { IsProcess kernel.old pid }
    ensures { MakesAtKeys kernel.old (Step.Begin pid (Call.Close fd)) result kernel.new }
{
    if kernel.descs.find(pid, fd).is_none() {
        return Reply::Fault(Errno::EBADF);
    }
    close_open(kernel, pid, fd);
    trim(kernel, pid, fd);
    Reply::Unit
}

/// Names what a descriptor names by the least free one too (POSIX.1-2017, dup).
///
/// The reply is the new descriptor, or `EBADF` where `fd` isn't open, or `EMFILE` where none is free; or an error, which is want of
/// memory. All of these leave all as it was.
#[inline(always)]
pub fn dup<A: Allocator + Copy>(
    kernel: &mut KernelState<A>,
    pid: u32,
    fd: i32,
) -> Result<Reply<A>, NoMemory>
    requires { IsProcess kernel.old pid }
    ensures done { IfOk result (λ reply. MakesAtKeys kernel.old (Step.Begin pid (Call.Dup fd)) reply kernel.new) }
    ensures undone { OnErr result (kernel.new ≡ kernel.old) }
    ensures wanted { OnErr result (MayWantAtKeys {A = A} kernel.old (Step.Begin pid (Call.Dup fd))) }
{
    let Some(key) = kernel.descs.find(pid, fd) else {
        return Ok(Reply::Fault(Errno::EBADF));
    };
    duplicate(kernel, pid, key, 0)
}

/// Names what a descriptor names by the target, in place of what that named, which is closed (POSIX.1-2017, dup2).
///
/// The reply is the target, or `EBADF` where `fd` isn't open, or the target is below 0 or no descriptor within the limit; or an error, which is
/// want of memory, and never where the target is open. All of these leave all as it was.
pub fn dup2<A: Allocator + Copy>(
    kernel: &mut KernelState<A>,
    pid: u32,
    fd: i32,
    target: i32,
) -> Result<Reply<A>, NoMemory>
    requires { IsProcess kernel.old pid }
    ensures done { IfOk result (λ reply. MakesAtKeys kernel.old (Step.Begin pid (Call.Dup2 fd target)) reply kernel.new) }
    ensures undone { OnErr result (kernel.new ≡ kernel.old) }
    ensures wanted { OnErr result (MayWantAtKeys {A = A} kernel.old (Step.Begin pid (Call.Dup2 fd target))) }
    ensures frugal { IsSome (row_of kernel.old.tables pid target) → IsOk result }
{
    let most = kernel.limits.descriptors();
    let Some(key) = kernel.descs.find(pid, fd) else {
        return Ok(Reply::Fault(Errno::EBADF));
    };
    if target < 0 || most <= target as usize {
        return Ok(Reply::Fault(Errno::EBADF));
    }
    let Some(other) = kernel.descs.find(pid, target) else {
        assign(kernel, pid, target as usize, key)?;
        return Ok(Reply::Fd(target));
    };
    if other != key {
        replace(kernel, pid, target as usize, key);
    }
    Ok(Reply::Fd(target))
}

/// Names what a descriptor names by the least free one from `least` on (POSIX.1-2017, fcntl, F_DUPFD).
///
/// The reply is the new descriptor, or `EBADF` where `fd` isn't open, `EINVAL` where `least` is below 0 or no descriptor within the limit, or
/// `EMFILE` where none is free; or an error, which is want of memory. All of these leave all as it was.
pub fn dup_fd<A: Allocator + Copy>(
    kernel: &mut KernelState<A>,
    pid: u32,
    fd: i32,
    least: i32,
) -> Result<Reply<A>, NoMemory>
    requires { IsProcess kernel.old pid }
    ensures done { IfOk result (λ reply. MakesAtKeys kernel.old (Step.Begin pid (Call.DupFd fd least)) reply kernel.new) }
    ensures undone { OnErr result (kernel.new ≡ kernel.old) }
    ensures wanted { OnErr result (MayWantAtKeys {A = A} kernel.old (Step.Begin pid (Call.DupFd fd least))) }
{
    let most = kernel.limits.descriptors();
    let Some(key) = kernel.descs.find(pid, fd) else {
        return Ok(Reply::Fault(Errno::EBADF));
    };
    if least < 0 || most <= least as usize {
        return Ok(Reply::Fault(Errno::EINVAL));
    }
    duplicate(kernel, pid, key, least as usize)
}

/// The mode and the status flags of what a descriptor names (POSIX.1-2017, fcntl, F_GETFL), or `EBADF` where it isn't open. It takes no
/// memory.
pub fn get_fl<A: Allocator + Copy>(kernel: &KernelState<A>, pid: u32, fd: i32) -> Reply<A>
    requires { IsProcess kernel.now pid }
    ensures { MakesAtKeys kernel.now (Step.Begin pid (Call.GetFl fd)) result kernel.now }
{
    let Some(key) = kernel.descs.find(pid, fd) else {
        return Reply::Fault(Errno::EBADF);
    };
    Reply::Flags {
        mode: kernel.descs.mode(key),
        flags: kernel.descs.flags(key),
    }
}

/// Sets `APPEND` and `NONBLOCK` of what a descriptor names as they are in `flags` (POSIX.1-2017, fcntl, F_SETFL). It takes no memory.
///
/// The reply is `Unit`, or `EBADF` where the descriptor isn't open, which leaves all as it was.
pub fn set_fl<A: Allocator + Copy>(
    kernel: &mut KernelState<A>,
    pid: u32,
    fd: i32,
    flags: OpenFlags,
) -> Reply<A>
    requires { IsProcess kernel.old pid }
    ensures { MakesAtKeys kernel.old (Step.Begin pid (Call.SetFl fd flags)) result kernel.new }
{
    let Some(key) = kernel.descs.find(pid, fd) else {
        return Reply::Fault(Errno::EBADF);
    };
    let status = OpenFlags::APPEND.union(OpenFlags::NONBLOCK);
    let asked = flags.intersection(status);
    let kept = kernel.descs.flags(key).intersection(OpenFlags::DIRECT);
    let set = asked.union(kept);
    kernel.descs.set_flags(key, set);
    Reply::Unit
}

// Closes an open descriptor.
#[inline(always)]
pub(crate) fn close_open<A: Allocator + Copy>(kernel: &mut KernelState<A>, pid: u32, fd: i32)
    requires process { IsProcess kernel.old pid }
    requires here { IsSome (row_of kernel.old.tables pid fd) }
    ensures { core_of kernel.new ≡ settle (core_of kernel.old) (close_row (core_of kernel.old) pid (natural fd)) }
{
    let key = kernel.descs.remove(pid, fd).unwrap();
    release(&mut kernel.descs, &mut kernel.nodes, key);
}

// Gives back rows of a process after it closed a descriptor, where most aren't in use any more. Processes see nothing of it.
#[inline(always)]
fn trim<A: Allocator + Copy>(kernel: &mut KernelState<A>, pid: u32, fd: i32)
    requires { IsProcess kernel.old pid }
    ensures { kernel.new ≡ kernel.old }
{
    // The first rows are never given back.
    if fd >= LEAST_ROWS as i32 {
        kernel.descs.trim_rows(pid);
    }
}

// Lets a free descriptor name a description that is open. The only error is want of memory, which leaves all as it was.
#[inline(always)]
fn assign<A: Allocator + Copy>(
    kernel: &mut KernelState<A>,
    pid: u32,
    fd: usize,
    key: usize,
) -> Result<(), NoMemory>
    requires process { IsProcess kernel.old pid }
    requires place { fd < descriptor_limit kernel.old.limits }
    requires free { row_at kernel.old.tables pid fd ≡ None }
    requires here { IsSome (at kernel.old.opened key) }
    ensures named { OnOk result (core_of kernel.new ≡ install (core_of kernel.old) pid fd key) }
    ensures settled { OnOk result (settle (core_of kernel.old) (core_of kernel.new) ≡ core_of kernel.new) }
    ensures undone { OnErr result (kernel.new ≡ kernel.old) }
{
    kernel.descs.reserve_row(pid, fd)?;
    kernel.descs.hold(key);
    kernel.descs.install(pid, fd, key);
    Ok(())
}

// Lets an open descriptor name another description, in place of its own, which is closed there.
fn replace<A: Allocator + Copy>(kernel: &mut KernelState<A>, pid: u32, fd: usize, key: usize)
    requires process { IsProcess kernel.old pid }
    requires place { fd < descriptor_limit kernel.old.limits }
    requires open { IsSome (row_at kernel.old.tables pid fd) }
    requires here { IsSome (at kernel.old.opened key) }
    ensures { core_of kernel.new ≡ settle (core_of kernel.old) (install (core_of kernel.old) pid fd key) }
{
    kernel.descs.hold(key);
    let named = kernel.descs.replace(pid, fd, key);
    release(&mut kernel.descs, &mut kernel.nodes, named);
}

// Lets the least free descriptor from `least` on name a description that is open. The only error is want of memory, which leaves all as it
// was.
#[inline(always)]
fn duplicate<A: Allocator + Copy>(
    kernel: &mut KernelState<A>,
    pid: u32,
    key: usize,
    least: usize,
) -> Result<Reply<A>, NoMemory>
    requires process { IsProcess kernel.old pid }
    requires here { IsSome (at kernel.old.opened key) }
    ensures done { IfOk result (λ reply. Duplicates kernel.old pid key (lowest_of kernel.old.tables (descriptor_limit kernel.old.limits) pid least) reply kernel.new) }
    ensures undone { OnErr result (kernel.new ≡ kernel.old) }
    ensures wanted { OnErr result (IsSome (lowest_of kernel.old.tables (descriptor_limit kernel.old.limits) pid least)) }
{
    let Some(free) = kernel.descs.lowest(pid, least) else {
        return Ok(Reply::Fault(Errno::EMFILE));
    };
    assign(kernel, pid, free, key)?;
    Ok(Reply::Fd(free as i32))
}
