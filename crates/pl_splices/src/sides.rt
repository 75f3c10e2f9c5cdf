//! The two sides of a splice or a tee.
ghost use Rattle.std.specs.Prelude.{◌≡◌, ◌-◌, is_some, unwrap_or, IfSome, IsSome, Some, if◌then◌else◌};
ghost use Rattle.pl_model.specs.Map.{change_at};
ghost use Rattle.pl_model.specs.Splice.{source_of as machine_source, target_of as machine_target, is_packet_pipe};
ghost use Rattle.pl_desc.specs.Rows.{at};
ghost use Rattle.pl_desc.specs.Descs.{IsTidy};
ghost use Rattle.pl_state.specs.Contents.{core_of, node_of};
ghost use Rattle.pl_state.specs.Opens.{OpenOn};
ghost use Rattle.pl_splices.specs.Sides.{side_of, either_is_packets};

use pl_decisions::place_in_file;
use pl_desc::Descs;
use pl_model::{Node, Source, Target};
use pl_state::KernelState;
use std::alloc::Allocator;

/// A description, what it is on, and the offset that the call gives for it.
#[derive(Clone, Copy)]
pub(crate) struct Side {
    /// The key of the description.
    pub(crate) key: usize,
    /// What it is on.
    pub(crate) node: Node,
    /// The offset that was given, if any.
    pub(crate) given: Option<u64>,
}

// Where a side that is a file begins: at the offset that was given, or at the description's own (splice(2)).
#[inline(always)]
pub(crate) fn start_of<A: Allocator + Copy>(kernel: &KernelState<A>, side: Side) -> usize
    requires { IsSome (at kernel.now.opened side.key) }
    ensures { IfSome (at kernel.now.opened side.key) (λ o. result ≡ unwrap_or side.given o.offset) }
{
    place_in_file(match side.given {
        Some(offset) => offset,
        None => kernel.descs.offset(side.key),
    })
}

// What a side has to give.
#[inline(always)]
pub(crate) fn source_of<A: Allocator + Copy>(kernel: &KernelState<A>, side: Side) -> Source
    requires { OpenOn kernel.now side.key side.node }
    ensures { IfSome (at kernel.now.opened side.key) (λ o. result ≡ machine_source (core_of {A = A} kernel.now) (side_of side o) (node_of side.node)) }
{
    match side.node {
        Node::Pipe(pipe) => Source::Pipe {
            held: kernel.nodes.held(pipe),
            has_writer: kernel.descs.writers(side.node) > 0,
        },
        Node::File(file) => {
            let start = start_of(kernel, side);
            Source::File {
                left: kernel.nodes.file_len(file).saturating_sub(start),
            }
        }
    }
}

// Whether a side is a packet pipe (pipe(2), O_DIRECT).
#[inline(always)]
fn is_packet<A: Allocator + Copy>(kernel: &KernelState<A>, side: Side) -> bool
    requires { OpenOn kernel.now side.key side.node }
    ensures { result ≡ is_packet_pipe (core_of {A = A} kernel.now) (node_of side.node) }
{
    match side.node {
        Node::Pipe(pipe) => kernel.nodes.is_packet(pipe),
        Node::File(_) => false,
    }
}

// Whether a side of the two is a packet pipe.
#[inline(always)]
pub(crate) fn either_is_packet<A: Allocator + Copy>(
    kernel: &KernelState<A>,
    from: Side,
    to: Side,
) -> bool
    requires from { OpenOn kernel.now from.key from.node }
    requires to { OpenOn kernel.now to.key to.node }
    ensures { result ≡ either_is_packets {A = A} kernel.now from.node to.node }
{
    if is_packet(kernel, from) {
        true
    } else {
        is_packet(kernel, to)
    }
}

// What a side has room for.
#[inline(always)]
pub(crate) fn target_of<A: Allocator + Copy>(kernel: &KernelState<A>, side: Side) -> Target
    requires { OpenOn kernel.now side.key side.node }
    ensures { IfSome (at kernel.now.opened side.key) (λ o. result ≡ machine_target (core_of {A = A} kernel.now) (side_of side o) (node_of side.node)) }
{
    match side.node {
        Node::Pipe(pipe) => Target::Pipe {
            room: kernel.nodes.room(pipe),
            has_reader: kernel.descs.readers(side.node) > 0,
        },
        Node::File(_) => {
            let start = start_of(kernel, side);
            Target::File {
                room: (kernel.limits.file_max as usize).saturating_sub(start),
            }
        }
    }
}

// Leaves the description's own offset behind the bytes, where none was given (splice(2)).
pub(crate) fn advance<A: Allocator + Copy>(descs: &mut Descs<A>, side: Side, offset: u64)
    requires here { IsSome (at descs.old.opened side.key) }
    requires tidy { IsTidy descs.old }
    ensures opened { at descs.new.opened ≡ (if is_some side.given then at descs.old.opened else change_at side.key (λ x. record x { offset = offset }) (at descs.old.opened)) }
    ensures rest { descs.new ≡ record descs.old { opened = descs.new.opened } }
    ensures tidy { IsTidy descs.new }
{
    if side.given.is_none() {
        descs.set_offset(side.key, offset);
    }
}
