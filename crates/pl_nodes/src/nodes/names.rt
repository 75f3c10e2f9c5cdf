//! Names of what is under a key, looked up by their bytes.
ghost use Rattle.std.specs.Prelude.{◌≡◌, ◌↔◌, ℕ, [], IfOk, OnErr, IsErr, IsSome, IfSome, Some, None, Err, true, nat_eq, length};
ghost use Rattle.std.specs.Ordering.{nat_cmp};
ghost use Rattle.std.specs.Cmp.Lexicographic.{slice_cmp, pointwise};
ghost use Rattle.pl_model.specs.Map.{set_at, get, without, put_in_order};
ghost use Rattle.pl_model.specs.Nodes.{has_name};
ghost use Rattle.pl_segments.specs.Segments.{at};
ghost use Rattle.pl_segments.specs.Sharing.{slots_at};

use super::Nodes;
use crate::content::{Content, FileNode};
use crate::fault::{MakeFault, NoSuchName};
use pl_file::File;
use pl_model::Node;
use std::alloc::Allocator;

impl<A: Allocator + Copy> Nodes<A> {
    /// Makes an empty file of this name, and answers its key. It has no slots, and all others keep theirs. An error leaves all as it
    /// was, and the name is dropped.
    ///
    /// # Errors
    ///
    /// - `Exists` exactly where the name stands for something, whether or not there is memory (POSIX.1-2017, open, O_EXCL).
    /// - `NoMemory` where it doesn't, and there is no memory for the file or its name.
    pub fn make_file(&mut self, name: Vec<u8, A>) -> Result<usize, MakeFault>
        ensures vacant { IfOk result (λ key. (at self.old.pipes key ≡ None) × (at self.old.files key ≡ None)) }
        ensures key { IfOk result (λ key. key ≡ self.old.next) }
        ensures ok { IfOk result (λ key. at self.new.files ≡ set_at nat_eq (at self.old.files) key (Some [])) }
        ensures names { IfOk result (λ key. self.new.names ≡ put_in_order (slice_cmp nat_cmp) self.old.names name.items (Node.File key)) }
        ensures exists { (result ≡ Err MakeFault.Exists) ↔ IsSome (get (pointwise nat_eq) self.old.names name.items) }
        ensures pipes { at self.new.pipes ≡ at self.old.pipes }
        ensures slots { (key : ℕ) → slots_at self.new.slots key ≡ slots_at self.old.slots key }
        ensures segments { self.new.segments ≡ self.old.segments }
        ensures limits { self.new.limits ≡ self.old.limits }
        ensures unchanged { OnErr result (self.new ≡ self.old) }
    {
        if self.names.contains_key(&name) {
            return Err(MakeFault::Exists);
        }
        // What takes memory comes before what changes anything.
        let Ok(()) = self.contents.reserve(1) else {
            return Err(MakeFault::NoMemory);
        };
        let key = self.contents.vacant_key();
        let Ok(_previous) = self.names.insert(name, Node::File(key)) else {
            return Err(MakeFault::NoMemory);
        };
        self.upper.comes(&self.contents);
        Ok(
            self.contents.insert_reserved(Content::File(FileNode {
                file: File::new(self.alloc),
                named: true,
            })),
        )
    }

    /// What a name stands for, if anything.
    pub fn look_up(&self, name: &[u8]) -> Option<Node>
        ensures { result ≡ get (pointwise nat_eq) self.now.names name.now }
    {
        self.names.get(name).copied()
    }

    /// How many names there are.
    pub fn name_count(&self) -> usize
        ensures { result ≡ length self.now.names }
    {
        self.names.len()
    }

    /// Whether a name stands for a pipe or a file, however many names there are. Of what isn't there no name does, and of a packet
    /// pipe neither.
    pub fn has_name(&self, node: Node) -> bool
        ensures value { result ≡ has_name self.now.names node }
        ensures bytes { (key : ℕ) → node ≡ Node.Pipe key → result ≡ true → IfSome (at self.now.pipes key) (λ x. x.packets ≡ None) }
    {
        match self.contents.get(node.key()) {
            Some(content) => content.is_named_as(node),
            None => false,
        }
    }

    /// Takes a name away, and answers what it stood for, which stays, with its bytes, until it is discarded (POSIX.1-2017,
    /// unlink). It takes no memory.
    ///
    /// # Errors
    ///
    /// - `NoSuchName` exactly where the name stands for nothing, and then all is as it was.
    pub fn unlink(&mut self, name: &[u8]) -> Result<Node, NoSuchName>
        ensures node { IfOk result (λ node. get (pointwise nat_eq) self.old.names name.now ≡ Some node) }
        ensures names { self.new.names ≡ without (pointwise nat_eq) self.old.names name.now }
        ensures missing { IsErr result ↔ (get (pointwise nat_eq) self.old.names name.now ≡ None) }
        ensures rest { self.new ≡ record self.old { names = self.new.names } }
        ensures unchanged { OnErr result (self.new ≡ self.old) }
    {
        let Some(node) = self.names.remove(name) else {
            return Err(NoSuchName);
        };
        self.contents[node.key()].set_named(false);
        Ok(node)
    }
}
