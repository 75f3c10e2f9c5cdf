//! What is told of pipes and files. Nothing here takes memory.
ghost use Rattle.std.specs.Prelude.{◌≡◌, IsSome, IfSome, option_map, if◌then◌else◌};
ghost use Rattle.pl_model.specs.Keys.{PipeNode, FileNode};
ghost use Rattle.pl_desc.specs.Rows.{at};
ghost use Rattle.pl_state.specs.Contents.{core_of, node_of, IsThere};
ghost use Rattle.pl_kernel.specs.ToldNodes.{OfFd, OfName, node_at, facts_at, facts_named, TellsHeld};

use pl_model::Node;
use pl_state::KernelState;
use std::alloc::Allocator;

/// What a descriptor or a name can stand for.
#[derive(Clone, Copy, Debug, PartialEq, Eq)]
pub enum NodeKind {
    /// A pipe that is a byte queue, with a name or without.
    Pipe,
    /// A packet pipe (pipe(2), O_DIRECT).
    PacketPipe,
    /// A regular file.
    File,
}

/// What is told of a pipe or a file.
#[derive(Clone, Copy, Debug, PartialEq, Eq)]
pub struct NodeFacts {
    /// What it is.
    pub kind: NodeKind,
    /// How many bytes a pipe holds, at most 1,048,576, or how many a file has, at most 16,777,216 (POSIX.1-2017, fstat, `st_size`).
    pub size: u32,
    /// Its key among the pipes or among the files. No other of these has it as long as this one lives (POSIX.1-2017, fstat, `st_ino`).
    pub key: u64,
}

// What a pipe is.
fn kind_of_pipe(is_packet: bool) -> NodeKind
    ensures { result ≡ (if is_packet then NodeKind.PacketPipe else NodeKind.Pipe) }
{
    if is_packet {
        NodeKind::PacketPipe
    } else {
        NodeKind::Pipe
    }
}

// What is told of a pipe.
fn pipe_facts<A: Allocator + Copy>(kernel: &KernelState<A>, pipe: usize) -> NodeFacts
    requires { IsSome (at kernel.now.nodes.pipes pipe) }
    ensures { result ≡ facts_at (core_of {A = A} kernel.now) (PipeNode pipe) }
{
    NodeFacts {
        kind: kind_of_pipe(kernel.nodes.is_packet(pipe)),
        size: kernel.nodes.held(pipe) as u32,
        key: pipe as u64,
    }
}

// What is told of a file.
fn file_facts<A: Allocator + Copy>(kernel: &KernelState<A>, file: usize) -> NodeFacts
    requires { IsSome (at kernel.now.nodes.files file) }
    ensures { result ≡ facts_at (core_of {A = A} kernel.now) (FileNode file) }
{
    NodeFacts {
        kind: NodeKind::File,
        size: kernel.nodes.file_len(file) as u32,
        key: file as u64,
    }
}

// What is told of a pipe or a file.
fn facts_of<A: Allocator + Copy>(kernel: &KernelState<A>, node: Node) -> NodeFacts
    requires { IsThere kernel.now.nodes node }
    ensures { result ≡ facts_at (core_of {A = A} kernel.now) (node_of node) }
{
    match node {
        Node::Pipe(pipe) => pipe_facts(kernel, pipe),
        Node::File(file) => file_facts(kernel, file),
    }
}

/// What a descriptor of a process is open on.
pub(crate) fn node_of_fd<A: Allocator + Copy>(
    kernel: &KernelState<A>,
    pid: u32,
    fd: i32,
) -> Option<Node>
    ensures value { option_map node_of result ≡ node_at (core_of {A = A} kernel.now) (OfFd pid fd) }
    ensures there { IfSome result (IsThere kernel.now.nodes) }
{
    let key = kernel.descs.find(pid, fd)?;
    Some(kernel.descs.node(key))
}

/// What a name stands for.
pub(crate) fn node_of_name<A: Allocator + Copy>(
    kernel: &KernelState<A>,
    name: &[u8],
) -> Option<Node>
    ensures value { option_map node_of result ≡ node_at (core_of {A = A} kernel.now) (OfName name.now) }
    ensures there { IfSome result (IsThere kernel.now.nodes) }
{
    kernel.nodes.look_up(name)
}

/// How many bytes the pipe holds that a descriptor of a process is open on, by either end (pipe(7), FIONREAD). `None` where there is no
/// such process, or its descriptor isn't open on a pipe.
pub fn held<A: Allocator + Copy>(kernel: &KernelState<A>, pid: u32, fd: i32) -> Option<u32>
    ensures { TellsHeld {A = A} kernel.now pid fd result }
{
    let node = node_of_fd(kernel, pid, fd)?;
    match node {
        Node::Pipe(pipe) => Some(kernel.nodes.held(pipe) as u32),
        Node::File(_) => None,
    }
}

/// What is told of what a descriptor of a process is open on. `None` where there is no such process, or its descriptor isn't open.
pub fn fd_facts<A: Allocator + Copy>(
    kernel: &KernelState<A>,
    pid: u32,
    fd: i32,
) -> Option<NodeFacts>
    ensures { result ≡ facts_named {A = A} kernel.now (OfFd pid fd) }
{
    let node = node_of_fd(kernel, pid, fd)?;
    Some(facts_of(kernel, node))
}

/// What is told of what a name stands for. `None` where it stands for nothing.
pub fn name_facts<A: Allocator + Copy>(kernel: &KernelState<A>, name: &[u8]) -> Option<NodeFacts>
    ensures { result ≡ facts_named {A = A} kernel.now (OfName name.now) }
{
    let node = node_of_name(kernel, name)?;
    Some(facts_of(kernel, node))
}
