//! What stands under a key.
ghost use Rattle.std.specs.Prelude.{◌≡◌, Some, option_map};
ghost use Rattle.std.specs.Borrow.{sem};
ghost use Rattle.pl_nodes.specs.Contents.{as_pipe, as_file, with_named};
ghost use Rattle.pl_nodes.specs.Lent.{lends_pipe, lends_file};
ghost use Rattle.pl_nodes.specs.NodesView.{named_as};

use crate::queue::Queue;
use pl_file::File;
use pl_model::Node;
use std::alloc::Allocator;

/// A pipe: its queue, whether it is hung, and whether a name stands for it.
#[derive(Drop)]
pub(crate) struct PipeNode<A: Allocator> {
    pub(crate) queue: Queue<A>,
    pub(crate) hung: bool,
    pub(crate) named: bool,
}

/// A regular file: its bytes, and whether a name stands for it.
#[derive(Drop)]
pub(crate) struct FileNode<A: Allocator> {
    pub(crate) file: File<A>,
    pub(crate) named: bool,
}

/// A pipe, or a regular file.
#[derive(Drop)]
pub(crate) enum Content<A: Allocator> {
    Pipe(PipeNode<A>),
    File(FileNode<A>),
}

impl<A: Allocator> Content<A> {
    /// The pipe, where it is one.
    pub(crate) fn as_pipe_mut(&mut self) -> Option<&mut PipeNode<A>>
        ensures* writes_back { sem 𝓛 (lends_pipe A.row A.Allocator self.entry result) }
        ensures value { option_map (λ p. p.now) result ≡ as_pipe self.old }
    {
        if let Content::Pipe(node) = self {
            Some(node)
        } else {
            None
        }
    }

    /// The file, where it is one.
    pub(crate) fn as_file_mut(&mut self) -> Option<&mut FileNode<A>>
        ensures* writes_back { sem 𝓛 (lends_file A.row A.Allocator self.entry result) }
        ensures value { option_map (λ f. f.now) result ≡ as_file self.old }
    {
        if let Content::File(node) = self {
            Some(node)
        } else {
            None
        }
    }

    /// Whether a name stands for it as a node of this kind.
    pub(crate) fn is_named_as(&self, node: Node) -> bool
        ensures { result ≡ named_as node (Some self.now) }
    {
        match (self, node) {
            (Content::Pipe(pipe), Node::Pipe(_)) => pipe.named,
            (Content::File(file), Node::File(_)) => file.named,
            _ => false,
        }
    }

    /// Says whether a name stands for it.
    pub(crate) fn set_named(&mut self, named: bool)
        ensures { self.new ≡ with_named named self.old }
    {
        match self {
            Content::Pipe(node) => node.named = named,
            Content::File(node) => node.named = named,
        }
    }
}
