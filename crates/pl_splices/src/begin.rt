//! How a splice and a tee begin.
ghost use Rattle.std.specs.Prelude.{◌≡◌, ◌≢◌, ◌+◌, ◌&&◌, false, not, [], ◌∷◌, ◌++◌, IfOk, OnOk, OnErr, IsSome};
ghost use Rattle.pl_model.specs.Numbers.{last_call};
ghost use Rattle.pl_model.specs.Step.{begin as machine_begin};
ghost use Rattle.pl_model.specs.Trial.{tried};
ghost use Rattle.pl_desc.specs.Rows.{at};
ghost use Rattle.pl_decisions.specs.Moves.{is_pipe};
ghost use Rattle.pl_state.specs.Contents.{IsProcess, core_of};
ghost use Rattle.pl_state.specs.Sound.{IsWaiting, KeepsNodes};
ghost use Rattle.pl_state.specs.Parking.{with_call};
ghost use Rattle.pl_state.specs.Makes.{MakesAtKeys, MayWantAtKeys};
ghost use Rattle.pl_splices.specs.Moves.{Goes, IsMove, call_between};
ghost use Rattle.pl_splices.specs.Shares.{SharesBetween, SharesByStep};

use crate::moving::try_move;
use crate::sides::Side;
use bitflags::Flags;
use pl_decisions::{SpliceSide, splice_fault, tee_fault};
use pl_model::{Call, Errno, KeyList, Node, OpenFlags, Reply, SpliceFlags, Step};
use pl_parked::ParkedCall;
use pl_state::{Access, KernelState, NoMemory, OpenNode, park};
use pl_transfers::{open_for, refusal_to_wait};
use std::alloc::Allocator;

// A pipe whose description doesn't wait (POSIX.1-2017, read and write, O_NONBLOCK).
fn is_nonblocking_pipe(found: OpenNode) -> bool
    ensures { result ≡ (is_pipe found.node && found.nonblock) }
{
    matches!(found.node, Node::Pipe(_)) && found.nonblock
}

// Parks a call that keeps the descriptions of two keys.
fn park_between<A: Allocator + Copy>(
    kernel: &mut KernelState<A>,
    pid: u32,
    call: Call<A>,
    from: usize,
    to: usize,
) -> Result<u64, NoMemory>
    requires process { IsProcess kernel.old pid }
    requires left { ¬ (kernel.old.calls.next ≡ last_call) }
    requires source { IsSome (at kernel.old.opened from) }
    requires target { IsSome (at kernel.old.opened to) }
    requires nodes { KeepsNodes (at kernel.old.opened) (call_between from to pid call) }
    requires waits { IsWaiting A (call_between from to pid call) }
    ensures number { IfOk result (λ number. number ≡ kernel.old.calls.next) }
    ensures ok { OnOk result (kernel.new ≡ with_call kernel.old (call_between from to pid call)) }
    ensures err { OnErr result (kernel.new ≡ kernel.old) }
{
    let mut kept = Vec::with_capacity(kernel.alloc, 2)?;
    kept.push_reserved(from);
    kept.push_reserved(to);
    park(
        kernel,
        ParkedCall {
            pid,
            call,
            kept: KeyList::from_vec(kept),
            fifo: None,
            taken: 0,
            met: false,
        },
    )
}

// The first try of a splice or a tee whose checks are passed.
#[inline(always)]
fn begin_move<A: Allocator + Copy>(
    kernel: &mut KernelState<A>,
    pid: u32,
    call: Call<A>,
    from: Side,
    to: Side,
    len: u32,
    is_tee: bool,
    nonblock: bool,
) -> Result<Reply<A>, NoMemory>
    requires process { IsProcess kernel.old pid }
    requires goes { Goes kernel.old from to is_tee }
    requires some { len ≢ 0 }
    requires asks { IsMove call from to len is_tee }
    requires begins { machine_begin (core_of kernel.old) pid call ≡ tried (core_of kernel.old) (from.key ∷ to.key ∷ []) false (not nonblock) }
    ensures done { IfOk result (λ reply. MakesAtKeys kernel.old (Step.Begin pid call) reply kernel.new) }
    ensures shares { SharesBetween kernel.old from to kernel.new }
    ensures undone { OnErr result (kernel.new ≡ kernel.old) }
    ensures wanted { OnErr result (MayWantAtKeys {A = A} kernel.old (Step.Begin pid call)) }
{
    // A proof learns here what holds of the kernel.
    let _ = &kernel.descs;
    if let Some(reply) = try_move(kernel, from, to, len, is_tee)? {
        return Ok(reply);
    }
    if let Some(refusal) = refusal_to_wait(kernel, pid, nonblock) {
        return Ok(refusal);
    }
    let number = park_between(kernel, pid, call, from.key, to.key)?;
    Ok(Reply::Parked(number))
}

/// Moves at most `len` bytes from what one descriptor names to what another does, of which one at least is a pipe (splice(2)). A file
/// gives or takes them at the offset that is given for it, or else at its own, which advances.
///
/// The reply is how many went over, or a number under which the call waits, or, in this order: 0 where `len` is 0; `EBADF` where `from`
/// isn't open for reading, or `to` for writing; `ESPIPE` of an offset for a pipe; `EINVAL` of an offset above 9,223,372,036,854,775,807,
/// of two files, of the same pipe, and of a file with `APPEND` to write to; `EPIPE` of a pipe without readers to write to; 0 at the end
/// of input; where the call would wait, `EAGAIN` where it may not, and `CallsSpent` where no number is left; `EFBIG` of a file with no
/// room left. These and the only error, want of memory, leave all as it was.
pub fn splice<A: Allocator + Copy>(
    kernel: &mut KernelState<A>,
    pid: u32,
    from: i32,
    from_offset: Option<u64>,
    to: i32,
    to_offset: Option<u64>,
    len: u32,
    flags: SpliceFlags,
) -> Result<Reply<A>, NoMemory>
    requires { IsProcess kernel.old pid }
    ensures done { IfOk result (λ reply. MakesAtKeys kernel.old (Step.Begin pid (Call.Splice from from_offset to to_offset len flags)) reply kernel.new) }
    ensures shares { SharesByStep {A = A} kernel.old (Step.Begin pid (Call.Splice from from_offset to to_offset len flags)) kernel.new }
    ensures undone { OnErr result (kernel.new ≡ kernel.old) }
    ensures wanted { OnErr result (MayWantAtKeys {A = A} kernel.old (Step.Begin pid (Call.Splice from from_offset to to_offset len flags))) }
{
    // A proof learns here what holds of the kernel.
    let _ = &kernel.descs;
    if len == 0 {
        return Ok(Reply::Count {
            n: 0,
            sigpipe: false,
        });
    }
    let Some(source) = open_for(kernel, pid, from, Access::Reading) else {
        return Ok(Reply::Fault(Errno::EBADF));
    };
    let Some(target) = open_for(kernel, pid, to, Access::Writing) else {
        return Ok(Reply::Fault(Errno::EBADF));
    };
    let appends = kernel.descs.flags(target.key).contains(OpenFlags::APPEND);
    let from_side = SpliceSide {
        node: source.node,
        given: from_offset,
    };
    let to_side = SpliceSide {
        node: target.node,
        given: to_offset,
    };
    if let Some(errno) = splice_fault(from_side, to_side, appends) {
        return Ok(Reply::Fault(errno));
    }
    let nonblock = flags.contains(SpliceFlags::NONBLOCK)
        || (is_nonblocking_pipe(source) || is_nonblocking_pipe(target));
    begin_move(
        kernel,
        pid,
        Call::Splice {
            from,
            from_offset,
            to,
            to_offset,
            len,
            flags,
        },
        Side {
            key: source.key,
            node: source.node,
            given: from_offset,
        },
        Side {
            key: target.key,
            node: target.node,
            given: to_offset,
        },
        len,
        false,
        nonblock,
    )
}

/// Copies at most `len` bytes from a pipe to another, and leaves them in the first (tee(2)).
///
/// The reply is how many were copied, 0 at the end of input, or a number under which the call waits, or, in this order: 0 where `len` is
/// 0; `EBADF` where `from` isn't open for reading, or `to` for writing; `EINVAL` of what is no pipe, and of the same pipe; `EPIPE` of a
/// pipe without readers to write to; `EAGAIN` where the call would wait and may not; `CallsSpent` where no number is left. These and the
/// only error, want of memory, leave all as it was.
pub fn tee<A: Allocator + Copy>(
    kernel: &mut KernelState<A>,
    pid: u32,
    from: i32,
    to: i32,
    len: u32,
    flags: SpliceFlags,
) -> Result<Reply<A>, NoMemory>
    requires { IsProcess kernel.old pid }
    ensures done { IfOk result (λ reply. MakesAtKeys kernel.old (Step.Begin pid (Call.Tee from to len flags)) reply kernel.new) }
    ensures shares { SharesByStep {A = A} kernel.old (Step.Begin pid (Call.Tee from to len flags)) kernel.new }
    ensures undone { OnErr result (kernel.new ≡ kernel.old) }
    ensures wanted { OnErr result (MayWantAtKeys {A = A} kernel.old (Step.Begin pid (Call.Tee from to len flags))) }
{
    // A proof learns here what holds of the kernel.
    let _ = &kernel.descs;
    if len == 0 {
        return Ok(Reply::Count {
            n: 0,
            sigpipe: false,
        });
    }
    let Some(source) = open_for(kernel, pid, from, Access::Reading) else {
        return Ok(Reply::Fault(Errno::EBADF));
    };
    let Some(target) = open_for(kernel, pid, to, Access::Writing) else {
        return Ok(Reply::Fault(Errno::EBADF));
    };
    if let Some(errno) = tee_fault(source.node, target.node) {
        return Ok(Reply::Fault(errno));
    }
    let nonblock = flags.contains(SpliceFlags::NONBLOCK)
        || (is_nonblocking_pipe(source) || is_nonblocking_pipe(target));
    begin_move(
        kernel,
        pid,
        Call::Tee {
            from,
            to,
            len,
            flags,
        },
        Side {
            key: source.key,
            node: source.node,
            given: None,
        },
        Side {
            key: target.key,
            node: target.node,
            given: None,
        },
        len,
        true,
        nonblock,
    )
}
