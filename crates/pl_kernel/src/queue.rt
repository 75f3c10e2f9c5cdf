//! In which queues of its nodes a call waits.
ghost use Rattle.std.specs.Prelude.{◌≡◌, ◌≤◌, ◌<◌, ◌-◌, true};
ghost use Rattle.pl_model.specs.Flags.{has, poll_in, poll_out};
ghost use Rattle.pl_model.specs.Poll.{is_ready, mask_of};
ghost use Rattle.pl_model.specs.declared.cases.Polled.TheVariants.{File as PolledFile};
ghost use Rattle.pl_state.specs.Contents.{node_of};
ghost use Rattle.pl_waiters.specs.Queue.{waiter};
ghost use Rattle.pl_kernel.specs.Queues.{reads, queue_of as queue_of_call, queue_of_len, queue_of_end, queue_of_entry as queue_of_node, to_pipe, from_pipe, queue_at_source, queue_at_target, answers_to, is_polls, mode_of, rest_of, asks_in, asks_out, found_of_file};

use bitflags::Flags;
use pl_model::numbers::PIPE_BUF;
use pl_model::{Call, Mode, Node, PollMask};
use pl_waiters::Waiter;
use std::alloc::Allocator;

/// The queue of the reads.
const READS: u64 = 0;
/// The queue of the writes above `PIPE_BUF`.
const LARGE_WRITES: u64 = 1;
/// The queue in which each call is asked by itself.
pub(crate) const OTHERS: u64 = 2;
/// The queue of the splices from a pipe to a file.
const TO_FILES: u64 = 3;
/// The first queue of the polls: there is one for each kind of end, with each choice of what is asked of it.
pub(crate) const POLLS: u64 = 16;
/// The first queue after those.
const AFTER_POLLS: u64 = 32;
/// Of the polls the first kind is of files in which nothing is found that is asked, and the next one of other files. Then come four for each
/// mode of an end of a pipe.
const OF_FILES_READY: u64 = 1;

const OF_READERS: u64 = 4;

const OF_WRITERS: u64 = 8;

const OF_BOTH: u64 = 12;
/// What such a kind asks of the end: whether it can be read, and whether it can be written to.
const TO_READ: u64 = 1;

const TO_WRITE: u64 = 2;
/// The queue of the writes of no bytes. That of the writes of so many follows it by as many.
const WRITES: u64 = 64;
/// The last one of these, of the writes of `PIPE_BUF` bytes.
const LAST_WRITES: u64 = 4160;
/// The queue of the splices and tees to the pipe of key 0. That of those to another pipe follows it by the other's key.
const TO_PIPES: u64 = 4_294_967_296;
/// The same of those from a pipe.
const FROM_PIPES: u64 = 8_589_934_592;

// The queue of the writes of so many bytes.
fn queue_of_write(len: usize) -> u64
    ensures { result ≡ queue_of_len len }
{
    if len <= PIPE_BUF {
        len as u64 + WRITES
    } else {
        LARGE_WRITES
    }
}

/// The queue in which a call waits that is no poll, no splice and no tee.
pub(crate) fn queue_of<A: Allocator + Copy>(call: &Call<A>) -> u64
    ensures { result ≡ queue_of_call call.now }
{
    match call {
        Call::Read { .. } => READS,
        Call::Write { bytes, .. } => queue_of_write(bytes.as_slice().len()),
        _ => OTHERS,
    }
}

/// A read that waits at a pipe.
pub(crate) fn waiting_read(pipe: usize, number: u64) -> Waiter
    ensures { result ≡ waiter pipe reads number }
{
    Waiter {
        node: pipe,
        queue: READS,
        number,
    }
}

// Whether a poll finds something of a regular file, of which it asks this.
fn finds_of_file(asked: PollMask) -> bool
    ensures { result ≡ is_ready (mask_of PolledFile asked) }
{
    !asked
        .intersection(PollMask::IN.union(PollMask::OUT))
        .is_empty()
}

// The queue of the polls that ask this of an end of a pipe.
fn queue_of_polls(mode: Mode, asked: PollMask) -> u64
    ensures { result ≡ queue_of_end mode asked }
{
    let kind = match mode {
        Mode::Read => OF_READERS,
        Mode::Write => OF_WRITERS,
        Mode::Both => OF_BOTH,
    };
    let read = if asked.contains(PollMask::IN) {
        TO_READ
    } else {
        0
    };
    let write = if asked.contains(PollMask::OUT) {
        TO_WRITE
    } else {
        0
    };
    POLLS + (kind + (read + write))
}

/// The queue in which a poll waits that asks this of a node by a description of this mode.
pub(crate) fn queue_of_entry(node: Node, mode: Mode, asked: PollMask) -> u64
    ensures { result ≡ queue_of_node (node_of node) mode asked }
{
    match node {
        Node::Pipe(_) => queue_of_polls(mode, asked),
        Node::File(_) if finds_of_file(asked) => POLLS + OF_FILES_READY,
        Node::File(_) => POLLS,
    }
}

// The queue of the splices and tees to a pipe.
fn queue_to(pipe: usize) -> u64
    ensures { result ≡ to_pipe pipe }
{
    if (pipe as u64) < TO_PIPES {
        TO_PIPES + pipe as u64
    } else {
        OTHERS
    }
}

// The same of those from a pipe.
fn queue_from(pipe: usize) -> u64
    ensures { result ≡ from_pipe pipe }
{
    if (pipe as u64) < TO_PIPES {
        FROM_PIPES + pipe as u64
    } else {
        OTHERS
    }
}

/// The queue in which a splice or a tee waits at the node that it takes from.
pub(crate) fn queue_of_source(from: Node, to: Node) -> u64
    ensures { result ≡ queue_at_source (node_of from) (node_of to) }
{
    match (from, to) {
        (Node::Pipe(_), Node::Pipe(to)) => queue_to(to),
        (Node::Pipe(_), Node::File(_)) => TO_FILES,
        (Node::File(_), _) => OTHERS,
    }
}

/// The queue in which a splice or a tee waits at the node that it gives to.
pub(crate) fn queue_of_target(from: Node, to: Node) -> u64
    ensures { result ≡ queue_at_target (node_of from) (node_of to) }
{
    match (from, to) {
        (Node::Pipe(from), Node::Pipe(_)) => queue_from(from),
        _ => OTHERS,
    }
}

/// Whether the calls of a queue are polls.
pub(crate) fn is_of_polls(queue: u64) -> bool
    ensures { result ≡ is_polls queue }
{
    POLLS <= queue && queue < AFTER_POLLS
}

/// The last one of the queues for whose calls one answers that waits in this queue, and can't make progress: a write that is too large leaves no
/// room for a larger one.
pub(crate) fn last_answered(queue: u64) -> u64
    ensures { result ≡ answers_to queue }
{
    if WRITES <= queue && queue <= LAST_WRITES {
        LAST_WRITES
    } else {
        queue
    }
}

/// Of the polls of a file, whether they find something; none of those of a pipe.
pub(crate) fn found_of_file(kind: u64) -> Option<bool>
    ensures { result ≡ found_of_file kind }
{
    if kind < OF_READERS {
        Some(kind == OF_FILES_READY)
    } else {
        None
    }
}

/// By which mode the polls of a kind ask something of a pipe.
pub(crate) fn mode_of(kind: u64) -> Mode
    ensures { result ≡ mode_of kind }
{
    if kind < OF_WRITERS {
        Mode::Read
    } else if kind < OF_BOTH {
        Mode::Write
    } else {
        Mode::Both
    }
}

/// What the polls of a kind ask of it.
pub(crate) fn asked_by(kind: u64) -> PollMask
    requires { 4 ≤ kind }
    ensures read { has result.0 poll_in ≡ asks_in (rest_of kind) }
    ensures write { has result.0 poll_out ≡ asks_out (rest_of kind) }
{
    let rest = if kind < OF_WRITERS {
        kind - OF_READERS
    } else if kind < OF_BOTH {
        kind - OF_WRITERS
    } else {
        kind - OF_BOTH
    };
    match rest {
        0 => PollMask::empty(),
        TO_READ => PollMask::IN,
        TO_WRITE => PollMask::OUT,
        _ => PollMask::IN.union(PollMask::OUT),
    }
}
