//! How many descriptions on each node read, and how many write.
ghost use Rattle.std.specs.Prelude.{◌≡◌, ◌+◌, ◌-◌, ◌<◌, ◌≤◌, ◌^◌, length, IsOk, OnOk};
ghost use Rattle.pl_model.specs.Modes.{reads, writes};
ghost use Rattle.pl_desc.specs.Ends.{ends_in, one_if, raised, lowered};

use pl_model::{Mode, NoMemory, Node};
use std::alloc::Allocator;

/// The descriptions on one node that read, and those that write. One that does both is in both counts.
#[derive(Clone, Copy)]
pub(crate) struct Ends {
    pub(crate) readers: usize,
    pub(crate) writers: usize,
}

/// A node that nothing is open on.
const NONE: Ends = Ends {
    readers: 0,
    writers: 0,
};

impl Ends {
    /// The counts with a description of the mode more.
    fn raised(self, mode: Mode) -> Ends
        requires readers { self.readers < 2 ^ 63 }
        requires writers { self.writers < 2 ^ 63 }
        ensures { result ≡ raised mode self }
    {
        Ends {
            readers: self.readers + usize::from(mode.reads()),
            writers: self.writers + usize::from(mode.writes()),
        }
    }

    /// The counts with a description of the mode less.
    fn lowered(self, mode: Mode) -> Ends
        requires readers { one_if (reads mode) ≤ self.readers }
        requires writers { one_if (writes mode) ≤ self.writers }
        ensures { result ≡ lowered mode self }
    {
        Ends {
            readers: self.readers - usize::from(mode.reads()),
            writers: self.writers - usize::from(mode.writes()),
        }
    }
}

/// The counts of each pipe and of each file, by key.
#[derive(Drop)]
pub(crate) struct Counts<A: Allocator> {
    pub(crate) pipes: Vec<Ends, A>,
    pub(crate) files: Vec<Ends, A>,
}

// The counts at a key, which are none past the list.
fn ends_of<A: Allocator>(list: &Vec<Ends, A>, key: usize) -> Ends
    ensures { result ≡ ends_in list.now.items key }
{
    if key < list.len() { list[key] } else { NONE }
}

// Makes a place for the counts at a key.
fn reserve_in<A: Allocator>(list: &mut Vec<Ends, A>, key: usize) -> Result<(), NoMemory>
    ensures ok { OnOk result (key < length list.new.items) }
    ensures grows { length list.old.items ≤ length list.new.items }
    ensures kept { ends_in list.new.items ≡ ends_in list.old.items }
    ensures had_room { key < length list.old.items → (IsOk result × (list.new.items ≡ list.old.items)) }
{
    if key < list.len() {
        return Ok(());
    }
    if key == usize::MAX {
        return Err(NoMemory);
    }
    list.resize(key + 1, NONE)?;
    Ok(())
}

impl<A: Allocator + Copy> Counts<A> {
    ghost use Rattle.std.specs.Prelude.{[]};
    ghost use Rattle.pl_desc.specs.Ends.{ends_at, change_ends, HasCounts};

    /// Nothing is open. It takes no memory.
    pub(crate) fn new(alloc: A) -> Counts<A>
        ensures pipes { result.pipes.items ≡ [] }
        ensures files { result.files.items ≡ [] }
    {
        Counts {
            pipes: Vec::new(alloc),
            files: Vec::new(alloc),
        }
    }

    /// The counts of a node.
    pub(crate) fn at(&self, node: Node) -> Ends
        ensures { result ≡ ends_at self.now node }
    {
        match node {
            Node::Pipe(key) => ends_of(&self.pipes, key),
            Node::File(key) => ends_of(&self.files, key),
        }
    }

    /// Makes a place for the counts of a node.
    pub(crate) fn reserve(&mut self, node: Node) -> Result<(), NoMemory>
        ensures ok { OnOk result (HasCounts self.new node) }
        ensures pipes { length self.old.pipes.items ≤ length self.new.pipes.items }
        ensures files { length self.old.files.items ≤ length self.new.files.items }
        ensures kept { ends_at self.new ≡ ends_at self.old }
        ensures had_room { HasCounts self.old node → IsOk result }
    {
        match node {
            Node::Pipe(key) => reserve_in(&mut self.pipes, key),
            Node::File(key) => reserve_in(&mut self.files, key),
        }
    }

    /// A description of the mode is opened on a node that has a place. It takes no memory.
    pub(crate) fn add(&mut self, node: Node, mode: Mode)
        requires place { HasCounts self.old node }
        requires readers { (ends_at self.old node).readers < 2 ^ 63 }
        requires writers { (ends_at self.old node).writers < 2 ^ 63 }
        ensures counts { ends_at self.new ≡ change_ends node (raised mode) (ends_at self.old) }
        ensures pipes { length self.new.pipes.items ≡ length self.old.pipes.items }
        ensures files { length self.new.files.items ≡ length self.old.files.items }
    {
        match node {
            Node::Pipe(key) => self.pipes[key] = self.pipes[key].raised(mode),
            Node::File(key) => self.files[key] = self.files[key].raised(mode),
        }
    }

    /// A description of the mode, which was open on a node, is gone. It takes no memory.
    pub(crate) fn remove(&mut self, node: Node, mode: Mode)
        requires place { HasCounts self.old node }
        requires readers { one_if (reads mode) ≤ (ends_at self.old node).readers }
        requires writers { one_if (writes mode) ≤ (ends_at self.old node).writers }
        ensures counts { ends_at self.new ≡ change_ends node (lowered mode) (ends_at self.old) }
        ensures pipes { length self.new.pipes.items ≡ length self.old.pipes.items }
        ensures files { length self.new.files.items ≡ length self.old.files.items }
    {
        match node {
            Node::Pipe(key) => self.pipes[key] = self.pipes[key].lowered(mode),
            Node::File(key) => self.files[key] = self.files[key].lowered(mode),
        }
    }
}
