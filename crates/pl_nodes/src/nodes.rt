//! Pipes and regular files under keys, over one store of segments, and their names.
ghost use Rattle.std.specs.Prelude.{ℕ, ◌≡◌, ◌≤◌, [], None};
ghost use Rattle.pl_model.specs.Numbers.{most_file_bytes};
ghost use Rattle.pl_segments.specs.Segments.{at};
ghost use Rattle.pl_nodes.specs.Nodes.{NamesBelow, segments_named};

use crate::content::Content;
use crate::upper::Upper;
use pl_model::Node;
use pl_segments::Store;
use slab::Slab;
use std::alloc::{Allocator, Global};
use std::collections::BTreeMap;
use std::marker::Model;

mod fifos;
mod files;
mod moves;
mod names;
mod packets;
mod pipes;

/// The limits of pipes and files.
#[derive(Clone, Copy, Debug, PartialEq, Eq)]
pub struct NodeLimits {
    /// The most bytes of a file, at most 16,777,216.
    pub file_max: usize,
    /// The most segments that are kept for further bytes though no slot names them.
    pub spare_max: usize,
}

/// Pipes and regular files, by key, and what the names stand for. Contracts see the list of each, the slots in which their
/// bytes stand, the key that the next pipe or file gets, how many segments hold all bytes, and the limits.
#[derive(Drop)]
pub struct Nodes<A: Allocator = Global> {
    alloc: A,
    store: Store<A>,
    contents: Slab<Content<A>, A>,
    upper: Upper,
    names: BTreeMap<Vec<u8, A>, Node, A>,
    limits: NodeLimits,
}

impl<A: Allocator> Model for Nodes<A> {
    ghost use Rattle.pl_nodes.specs.NodesView.{view_of, IsSound};
    ghost use Rattle.pl_nodes.specs.Nodes.{Nodes as Flat};

    ghost Value = { Flat };

    ghost view = { view_of };

    ghost invariant = { IsSound };
}

impl<A: Allocator + Copy> Nodes<A> {
    /// No pipes, no files and no names, within these limits. It takes no memory.
    pub fn new(alloc: A, limits: NodeLimits) -> Nodes<A>
        requires { limits.file_max ≤ most_file_bytes }
        ensures pipes { result.pipes ≡ [] }
        ensures files { result.files ≡ [] }
        ensures names { result.names ≡ [] }
        ensures segments { result.segments ≡ 0 }
        ensures limits { result.limits ≡ limits }
    {
        Nodes {
            alloc,
            store: Store::new(alloc),
            contents: Slab::new(alloc),
            upper: Upper::new(),
            names: BTreeMap::new(alloc),
            limits,
        }
    }

    /// The key that the next pipe or file gets.
    pub fn next_key(&self) -> usize
        ensures { result ≡ self.now.next }
    {
        self.contents.vacant_key()
    }

    /// How many segments hold the bytes of the pipes and files: those that some slot names, and no other, so that none is lost.
    pub fn segments(&self) -> usize
        ensures value { result ≡ self.now.segments }
        ensures named { (n : ℕ) → NamesBelow n self.now.slots → result ≡ segments_named self.now.slots n }
        ensures none { ((key : ℕ) → at self.now.pipes key ≡ None) → ((key : ℕ) → at self.now.files key ≡ None) → result ≡ 0 }
    {
        self.store.in_use()
    }

    /// How many segments are kept for further bytes, with 4,096 bytes of memory each, though no slot names them. After each call they are no more
    /// than the limit.
    pub fn spare(&self) -> usize
        ensures { result ≤ self.now.limits.spare_max }
    {
        self.store.spare()
    }

    /// Gives back the memory that is kept for further bytes. It takes no memory.
    pub fn give_back(&mut self)
        ensures { self.new ≡ self.old }
    {
        self.store.trim(0);
    }
}
