//! FIFOs: pipes with a name.
ghost use Rattle.std.specs.Prelude.{◌≡◌, ◌↔◌, ℕ, IfOk, OnErr, IsSome, Some, None, Err, nat_eq};
ghost use Rattle.std.specs.Ordering.{nat_cmp};
ghost use Rattle.std.specs.Cmp.Lexicographic.{slice_cmp, pointwise};
ghost use Rattle.pl_model.specs.State.{empty_pipe};
ghost use Rattle.pl_model.specs.Map.{set_at, get, put_in_order};
ghost use Rattle.pl_segments.specs.Segments.{at};
ghost use Rattle.pl_segments.specs.Sharing.{slots_at};

use super::Nodes;
use crate::content::{Content, PipeNode};
use crate::fault::MakeFault;
use crate::queue::Queue;
use pl_model::Node;
use pl_model::numbers::FIRST_CAPACITY;
use pl_ring::Ring;
use std::alloc::Allocator;

impl<A: Allocator + Copy> Nodes<A> {
    /// Makes an empty pipe of this name, of 65,536 bytes of capacity, and answers its key (POSIX.1-2017, mkfifo). It has no slots, and
    /// all others keep theirs. An error leaves all as it was, and the name is dropped.
    ///
    /// # Errors
    ///
    /// - `Exists` exactly where the name stands for something, whether or not there is memory.
    /// - `NoMemory` where it doesn't, and there is no memory for the pipe or its name.
    pub fn make_fifo(&mut self, name: Vec<u8, A>) -> Result<usize, MakeFault>
        ensures vacant { IfOk result (λ key. (at self.old.pipes key ≡ None) × (at self.old.files key ≡ None)) }
        ensures key { IfOk result (λ key. key ≡ self.old.next) }
        ensures ok { IfOk result (λ key. at self.new.pipes ≡ set_at nat_eq (at self.old.pipes) key (Some empty_pipe)) }
        ensures names { IfOk result (λ key. self.new.names ≡ put_in_order (slice_cmp nat_cmp) self.old.names name.items (Node.Pipe key)) }
        ensures exists { (result ≡ Err MakeFault.Exists) ↔ IsSome (get (pointwise nat_eq) self.old.names name.items) }
        ensures files { at self.new.files ≡ at self.old.files }
        ensures slots { (key : ℕ) → slots_at self.new.slots key ≡ slots_at self.old.slots key }
        ensures segments { self.new.segments ≡ self.old.segments }
        ensures limits { self.new.limits ≡ self.old.limits }
        ensures unchanged { OnErr result (self.new ≡ self.old) }
    {
        if self.names.contains_key(&name) {
            return Err(MakeFault::Exists);
        }
        // What takes memory comes before what changes anything.
        let Ok(()) = self.contents.reserve(1) else {
            return Err(MakeFault::NoMemory);
        };
        let Ok(ring) = Ring::new(self.alloc, FIRST_CAPACITY) else {
            return Err(MakeFault::NoMemory);
        };
        let key = self.contents.vacant_key();
        let Ok(_previous) = self.names.insert(name, Node::Pipe(key)) else {
            return Err(MakeFault::NoMemory);
        };
        self.upper.comes(&self.contents);
        Ok(
            self.contents.insert_reserved(Content::Pipe(PipeNode {
                queue: Queue::Bytes(ring),
                hung: false,
                named: true,
            })),
        )
    }
}
