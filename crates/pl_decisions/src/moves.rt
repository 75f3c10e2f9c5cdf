//! What a splice or a tee comes to, and what it is refused for.
ghost use Rattle.std.specs.Prelude.{◌≡◌, ◌≢◌};
ghost use Rattle.pl_model.specs.Begin.{is_too_far as machine_is_too_far};
ghost use Rattle.pl_model.specs.Splice.{move_case};
ghost use Rattle.pl_decisions.specs.Moves.{FitsBoth, fault_of_splice, fault_of_tee, is_pipe as node_is_pipe, is_same_pipe as node_is_same_pipe};

use pl_model::numbers::MAX_OFFSET;
use pl_model::{Errno, MoveCase, Node, Source, Target};

/// What a splice or a tee of at most `len` bytes, not 0, comes to: `Broken`, for `EPIPE`, where nobody can read from the pipe that it
/// goes to; `EndOfInput` where nothing more can come from the source; `Waits` where nothing is held yet, or a pipe has no room yet;
/// `TooBig`, for `EFBIG`, where the file that it goes to is as long as it may be; else `Moves`, with as many bytes as `len`, the source
/// and the room allow (splice(2), tee(2)). That the first of these that holds decides is our own choice.
pub fn case_of_move(source: Source, target: Target, len: usize) -> MoveCase
    requires some { len ≢ 0 }
    ensures case { result ≡ move_case source target len }
    ensures fits { FitsBoth result source target len }
{
    let room = match target {
        Target::Pipe {
            has_reader: false,
            ..
        } => return MoveCase::Broken,
        Target::Pipe { room, .. } | Target::File { room } => room,
    };
    let had = match source {
        Source::Pipe {
            held: 0,
            has_writer: true,
        } => return MoveCase::Waits,
        Source::Pipe { held, .. } => held,
        Source::File { left } => left,
    };
    if had == 0 {
        return MoveCase::EndOfInput;
    }
    if room == 0 {
        return match target {
            Target::Pipe { .. } => MoveCase::Waits,
            Target::File { .. } => MoveCase::TooBig,
        };
    }
    MoveCase::Moves(len.min(had.min(room)))
}

/// One side of a splice, once its descriptor was found.
#[derive(Clone, Copy)]
pub struct SpliceSide {
    /// What its description is open on.
    pub node: Node,
    /// The offset that the call gives for it, if any.
    pub given: Option<u64>,
}

fn is_pipe(node: Node) -> bool
    ensures { result ≡ node_is_pipe node }
{
    matches!(node, Node::Pipe(_))
}

fn is_same_pipe(node: Node, other: Node) -> bool
    ensures { result ≡ node_is_same_pipe node other }
{
    match (node, other) {
        (Node::Pipe(key), Node::Pipe(other_key)) => key == other_key,
        _ => false,
    }
}

fn is_too_far(given: Option<u64>) -> bool
    ensures { result ≡ machine_is_too_far given }
{
    match given {
        Some(offset) => MAX_OFFSET < offset,
        None => false,
    }
}

/// What a splice is refused for, if anything, once both descriptors were found; `appends` says whether the description that the bytes go
/// to has `APPEND`. `ESPIPE` where an offset is given for a pipe, and `EINVAL` where one is above 9,223,372,036,854,775,807, where
/// neither side is a pipe, where both are the same pipe, and where the bytes go to a file with `APPEND` (splice(2)).
pub fn splice_fault(from: SpliceSide, to: SpliceSide, appends: bool) -> Option<Errno>
    ensures { result ≡ fault_of_splice from to appends }
{
    let from_pipe = is_pipe(from.node);
    let to_pipe = is_pipe(to.node);
    if (from_pipe && from.given.is_some()) || (to_pipe && to.given.is_some()) {
        Some(Errno::ESPIPE)
    } else if is_too_far(from.given) || is_too_far(to.given) {
        Some(Errno::EINVAL)
    } else if !from_pipe && !to_pipe {
        Some(Errno::EINVAL)
    } else if is_same_pipe(from.node, to.node) {
        Some(Errno::EINVAL)
    } else if !to_pipe && appends {
        Some(Errno::EINVAL)
    } else {
        None
    }
}

/// What a tee is refused for, if anything, once both descriptors were found: `EINVAL` where a side is no pipe, and where both are the
/// same pipe (tee(2)).
pub fn tee_fault(from: Node, to: Node) -> Option<Errno>
    ensures { result ≡ fault_of_tee from to }
{
    if !(is_pipe(from) && is_pipe(to)) {
        Some(Errno::EINVAL)
    } else if is_same_pipe(from, to) {
        Some(Errno::EINVAL)
    } else {
        None
    }
}
