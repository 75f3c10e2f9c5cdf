//! Writes that are refused, told by the number of their bytes: who makes these need not do so first. Nothing here takes memory.
ghost use Rattle.std.specs.Prelude.{◌≡◌, ◌≢◌, ℕ, List, length, IfSome, IfNone};
ghost use Rattle.pl_model.specs.Modes.{writes};
ghost use Rattle.pl_state.specs.Contents.{IsProcess};
ghost use Rattle.pl_state.specs.Makes.{MakesAtKeys, MayWantAtKeys};
ghost use Rattle.pl_state.specs.Opens.{Opens, of_end};

use crate::files::is_full;
use crate::transfers::{case_of_write, open_for};
use crate::waiting::refusal_to_wait;
use pl_model::{Call, Errno, Node, Reply, Step, WriteCase};
use pl_state::{Access, KernelState, OpenEnd};
use std::alloc::Allocator;

/// What a write of so many bytes, not none, answers where it is refused: `EBADF` where the descriptor isn't open for writing, `EPIPE`
/// of a pipe without readers, `EFBIG` of a file with no room left, `EAGAIN` where the call would wait and may not, `CallsSpent` where
/// no number is left. `None` exactly where it isn't refused.
pub fn refused_write<A: Allocator + Copy>(
    kernel: &KernelState<A>,
    pid: u32,
    fd: i32,
    count: usize,
) -> Option<Reply<A>>
    requires process { IsProcess kernel.now pid }
    requires some { count ≢ 0 }
    ensures some { IfSome result (λ reply. (bytes : List ℕ) → length bytes ≡ count → MakesAtKeys {A = A} kernel.now (Step.Begin pid (Call.Write fd bytes)) reply kernel.now) }
    ensures none { IfNone result ((bytes : List ℕ) → length bytes ≡ count → MayWantAtKeys {A = A} kernel.now (Step.Begin pid (Call.Write fd bytes))) }
{
    // A proof learns here what holds of the kernel.
    let _ = &kernel.descs;
    let Some(open) = open_for(kernel, pid, fd, Access::Writing) else {
        return Some(Reply::Fault(Errno::EBADF));
    };
    match open.node {
        Node::Pipe(pipe) => refused_by_pipe(
            kernel,
            pid,
            fd,
            count,
            OpenEnd {
                key: open.key,
                pipe,
                nonblock: open.nonblock,
            },
        ),
        Node::File(file) => {
            if is_full(kernel, open.key, file) {
                Some(Reply::Fault(Errno::EFBIG))
            } else {
                None
            }
        }
    }
}

// The same of a write to the end of a pipe that a descriptor names.
fn refused_by_pipe<A: Allocator + Copy>(
    kernel: &KernelState<A>,
    pid: u32,
    fd: i32,
    count: usize,
    end: OpenEnd,
) -> Option<Reply<A>>
    requires process { IsProcess kernel.now pid }
    requires some { count ≢ 0 }
    requires opens { Opens kernel.now writes pid fd (of_end end) }
    ensures some { IfSome result (λ reply. (bytes : List ℕ) → length bytes ≡ count → MakesAtKeys {A = A} kernel.now (Step.Begin pid (Call.Write fd bytes)) reply kernel.now) }
    ensures none { IfNone result ((bytes : List ℕ) → length bytes ≡ count → MayWantAtKeys {A = A} kernel.now (Step.Begin pid (Call.Write fd bytes))) }
{
    // A proof learns here what holds of the kernel.
    let _ = &kernel.descs;
    match case_of_write(kernel, end.pipe, count, 0, !end.nonblock) {
        WriteCase::Broken => Some(Reply::Fault(Errno::EPIPE)),
        // No write of which nothing was taken is cut short.
        WriteCase::CutShort => None,
        WriteCase::Ends { .. } => None,
        WriteCase::Waits { .. } => refusal_to_wait(kernel, pid, end.nonblock),
    }
}
