//! One try of a splice or a tee.
ghost use Rattle.std.specs.Prelude.{◌≡◌, ◌≢◌, ◌≤◌, IfOk, OnOk, OnErr, IfSome, None, length, unwrap_or, ◌-◌, false};
ghost use Rattle.pl_model.specs.Transfer.{room};
ghost use Rattle.pl_desc.specs.Rows.{at};
ghost use Rattle.pl_nodes.specs.Moving.{SharesSlots, AddsNone};
ghost use Rattle.pl_state.specs.Opens.{OpenOn};
ghost use Rattle.pl_splices.specs.Sides.{either_is_packets};
ghost use Rattle.pl_splices.specs.Moves.{Goes, Fits, GoesOver, Tries, WouldMove};
ghost use Rattle.pl_splices.specs.Shares.{SharesBetween, place_in};

use crate::sides::{Side, advance, either_is_packet, source_of, start_of, target_of};
use pl_decisions::case_of_move;
use pl_model::{Errno, MoveCase, Node, Reply};
use pl_state::{KernelState, NoMemory};
use std::alloc::Allocator;

// Bytes go from a pipe to another, or are copied.
fn pipe_to_pipe<A: Allocator + Copy>(
    kernel: &mut KernelState<A>,
    from: Side,
    to: Side,
    source: usize,
    target: usize,
    count: usize,
    is_tee: bool,
) -> Result<(), NoMemory>
    requires source { OpenOn kernel.old from.key (Node.Pipe source) }
    requires target { OpenOn kernel.old to.key (Node.Pipe target) }
    requires apart { source ≢ target }
    requires held { IfSome (at kernel.old.nodes.pipes source) (λ x. count ≤ length x.bytes) }
    requires room { IfSome (at kernel.old.nodes.pipes target) (λ x. count ≤ room x) }
    requires from_bytes { IfSome (at kernel.old.nodes.pipes source) (λ x. x.packets ≡ None) }
    requires to_bytes { IfSome (at kernel.old.nodes.pipes target) (λ x. x.packets ≡ None) }
    ensures done { OnOk result (GoesOver kernel.old from to is_tee count kernel.new) }
    ensures shares { OnOk result (SharesSlots kernel.old.nodes.memory kernel.new.nodes.memory source target) }
    ensures undone { OnErr result (kernel.new ≡ kernel.old) }
{
    // A proof learns here what holds of the kernel.
    let _ = &kernel.descs;
    if is_tee {
        kernel.nodes.copy_pipe_pipe(source, target, count)?;
    } else {
        kernel.nodes.move_pipe_pipe(source, target, count)?;
    }
    Ok(())
}

// Bytes of a file go to a pipe, from where the side begins; they stay in the file.
fn file_to_pipe<A: Allocator + Copy>(
    kernel: &mut KernelState<A>,
    from: Side,
    to: Side,
    source: usize,
    target: usize,
    count: usize,
) -> Result<(), NoMemory>
    requires source { OpenOn kernel.old from.key (Node.File source) }
    requires target { OpenOn kernel.old to.key (Node.Pipe target) }
    requires some { 1 ≤ count }
    requires left { IfSome (at kernel.old.opened from.key) (λ o. IfSome (at kernel.old.nodes.files source) (λ bytes. count ≤ length bytes - unwrap_or from.given o.offset)) }
    requires room { IfSome (at kernel.old.nodes.pipes target) (λ x. count ≤ room x) }
    requires to_bytes { IfSome (at kernel.old.nodes.pipes target) (λ x. x.packets ≡ None) }
    ensures done { OnOk result (GoesOver kernel.old from to false count kernel.new) }
    ensures undone { OnErr result (kernel.new ≡ kernel.old) }
{
    let start = start_of(kernel, from);
    // A proof learns here that no file is so long that its offsets don't fit.
    let _len = kernel.nodes.file_len(source);
    kernel.nodes.move_file_pipe(source, start, target, count)?;
    advance(&mut kernel.descs, from, (start + count) as u64);
    Ok(())
}

// Bytes of a pipe go into a file, from where the side begins.
fn pipe_to_file<A: Allocator + Copy>(
    kernel: &mut KernelState<A>,
    from: Side,
    to: Side,
    source: usize,
    target: usize,
    count: usize,
) -> Result<(), NoMemory>
    requires source { OpenOn kernel.old from.key (Node.Pipe source) }
    requires target { OpenOn kernel.old to.key (Node.File target) }
    requires some { 1 ≤ count }
    requires held { IfSome (at kernel.old.nodes.pipes source) (λ x. count ≤ length x.bytes) }
    requires room { IfSome (at kernel.old.opened to.key) (λ o. count ≤ kernel.old.limits.file_max - unwrap_or to.given o.offset) }
    requires from_bytes { IfSome (at kernel.old.nodes.pipes source) (λ x. x.packets ≡ None) }
    ensures done { OnOk result (GoesOver kernel.old from to false count kernel.new) }
    ensures shares { OnOk result (IfSome (at kernel.old.nodes.files target) (λ bytes. place_in (at kernel.old.opened to.key) to.given ≤ length bytes) → AddsNone kernel.old.nodes.memory kernel.new.nodes.memory) }
    ensures undone { OnErr result (kernel.new ≡ kernel.old) }
{
    let start = start_of(kernel, to);
    let Ok(_moved) = kernel.nodes.move_pipe_file(source, target, start, count) else {
        return Err(NoMemory);
    };
    advance(&mut kernel.descs, to, (start + count) as u64);
    Ok(())
}

// Moves, or copies, so many bytes, which are there and for which there is room. The target grows before the source loses any.
fn move_bytes<A: Allocator + Copy>(
    kernel: &mut KernelState<A>,
    from: Side,
    to: Side,
    count: usize,
    is_tee: bool,
) -> Result<(), NoMemory>
    requires goes { Goes kernel.old from to is_tee }
    requires some { 1 ≤ count }
    requires fits { Fits kernel.old from to count }
    requires bytes { either_is_packets {A = A} kernel.old from.node to.node ≡ false }
    ensures done { OnOk result (GoesOver kernel.old from to is_tee count kernel.new) }
    ensures shares { SharesBetween kernel.old from to kernel.new }
    ensures undone { OnErr result (kernel.new ≡ kernel.old) }
{
    match (from.node, to.node) {
        (Node::Pipe(source), Node::Pipe(target)) => {
            pipe_to_pipe(kernel, from, to, source, target, count, is_tee)
        }
        (Node::File(source), Node::Pipe(target)) => {
            file_to_pipe(kernel, from, to, source, target, count)
        }
        (Node::Pipe(source), Node::File(target)) => {
            pipe_to_file(kernel, from, to, source, target, count)
        }
        (Node::File(_), Node::File(_)) => unreachable!(),
    }
}

/// Tries to move, or to copy, at most `len` bytes, `len` not 0: the reply, or `None` where the call waits, and nothing changes. The only
/// error is want of memory, which leaves all as it was.
#[inline(always)]
pub(crate) fn try_move<A: Allocator + Copy>(
    kernel: &mut KernelState<A>,
    from: Side,
    to: Side,
    len: u32,
    is_tee: bool,
) -> Result<Option<Reply<A>>, NoMemory>
    requires goes { Goes kernel.old from to is_tee }
    requires some { len ≢ 0 }
    ensures done { IfOk result (λ reply. Tries kernel.old from to len is_tee reply kernel.new) }
    ensures shares { SharesBetween kernel.old from to kernel.new }
    ensures undone { OnErr result (kernel.new ≡ kernel.old) }
    ensures wanted { OnErr result (WouldMove {A = A} kernel.old from to len is_tee) }
{
    if either_is_packet(kernel, from, to) {
        return Ok(Some(Reply::Fault(Errno::EINVAL)));
    }
    let source = source_of(kernel, from);
    let target = target_of(kernel, to);
    match case_of_move(source, target, len as usize) {
        MoveCase::Broken => Ok(Some(Reply::Fault(Errno::EPIPE))),
        MoveCase::EndOfInput => Ok(Some(Reply::Count {
            n: 0,
            sigpipe: false,
        })),
        MoveCase::Waits => Ok(None),
        MoveCase::TooBig => Ok(Some(Reply::Fault(Errno::EFBIG))),
        MoveCase::Moves(count) => {
            move_bytes(kernel, from, to, count, is_tee)?;
            Ok(Some(Reply::Count {
                n: count as u32,
                sigpipe: false,
            }))
        }
    }
}
