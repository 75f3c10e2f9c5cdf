//! Pipes.
ghost use Rattle.std.specs.Prelude.{◌≡◌, ◌↔◌, ◌+◌, ◌-◌, ◌*◌, ◌/◌, ◌<◌, ◌≤◌, ◌++◌, ℕ, false, [], length, take, drop, IfOk, OnErr, OnOk, IsSome, IfSome, Some, None, Err, nat_eq, option_and_then};
ghost use Rattle.pl_model.specs.Numbers.{most_capacity};
ghost use Rattle.pl_model.specs.Capacity.{IsPipeCapacity};
ghost use Rattle.pl_model.specs.State.{empty_pipe};
ghost use Rattle.pl_model.specs.Packets.{used, front, spent, lose, gain};
ghost use Rattle.pl_model.specs.Transfer.{room};
ghost use Rattle.pl_model.specs.Map.{set_at, change_at};
ghost use Rattle.pl_model.specs.Nodes.{has_name};
ghost use Rattle.pl_segments.specs.Segments.{segment_size, at};
ghost use Rattle.pl_segments.specs.Sharing.{slots_at};
ghost use Rattle.pl_nodes.specs.Contents.{as_pipe};
ghost use Rattle.pl_nodes.specs.declared.content.Content.TheVariants as content;
ghost use Rattle.pl_nodes.specs.Nodes.{SameFiles, Shrinks, memory_of};

use super::Nodes;
use crate::content::{Content, PipeNode};
use crate::queue::Queue;
use pl_model::numbers::FIRST_CAPACITY;
use pl_model::{NoMemory, Node};
use pl_ring::{CapacityFault, Ring};
use slab::Slab;
use std::alloc::Allocator;

// The pipe of bytes under a key, if there is one.
#[inline(always)]
fn byte_pipe_at<A: Allocator + Copy>(
    contents: &Slab<Content<A>, A>,
    key: usize,
) -> Option<&PipeNode<A>>
    ensures { IfSome result (λ node. at contents.now.slots key ≡ Some (content.Pipe node.now)) }
{
    match contents.get(key) {
        Some(Content::Pipe(node)) if !node.queue.is_packet() => Some(node),
        _ => None,
    }
}

// The pipe under a key, where there is one.
#[inline(always)]
fn pipe_at<A: Allocator + Copy>(contents: &Slab<Content<A>, A>, key: usize) -> &PipeNode<A>
    requires { IsSome (option_and_then as_pipe (at contents.now.slots key)) }
    ensures { at contents.now.slots key ≡ Some (content.Pipe result.now) }
{
    // Most pipes are of bytes, and one comparison finds them.
    if let Some(node) = byte_pipe_at(contents, key) {
        return node;
    }
    let Content::Pipe(node) = &contents[key] else {
        unreachable!()
    };
    node
}

impl<A: Allocator + Copy> Nodes<A> {
    /// Makes an empty pipe of 65,536 bytes of capacity (pipe(7), Pipe capacity), and answers its key. It has no slots, and all others
    /// keep theirs. An error leaves all as it was.
    pub fn make_pipe(&mut self) -> Result<usize, NoMemory>
        ensures vacant { IfOk result (λ key. (at self.old.pipes key ≡ None) × (at self.old.files key ≡ None)) }
        ensures key { IfOk result (λ key. key ≡ self.old.next) }
        ensures ok { IfOk result (λ key. at self.new.pipes ≡ set_at nat_eq (at self.old.pipes) key (Some empty_pipe)) }
        ensures files { at self.new.files ≡ at self.old.files }
        ensures names { self.new.names ≡ self.old.names }
        ensures limits { self.new.limits ≡ self.old.limits }
        ensures slots { (key : ℕ) → slots_at self.new.slots key ≡ slots_at self.old.slots key }
        ensures segments { self.new.segments ≡ self.old.segments }
        ensures unchanged { OnErr result (self.new ≡ self.old) }
    {
        self.contents.reserve(1)?;
        let ring = Ring::new(self.alloc, FIRST_CAPACITY)?;
        self.upper.comes(&self.contents);
        Ok(
            self.contents.insert_reserved(Content::Pipe(PipeNode {
                queue: Queue::Bytes(ring),
                hung: false,
                named: false,
            })),
        )
    }

    /// How many bytes a pipe holds.
    #[inline(always)]
    pub fn held(&self, key: usize) -> usize
        requires { IsSome (at self.now.pipes key) }
        ensures value { IfSome (at self.now.pipes key) (λ x. result ≡ length x.bytes) }
        ensures few { result ≤ most_capacity }
    {
        pipe_at(&self.contents, key).queue.len()
    }

    /// How many bytes of a pipe the next read can get.
    #[inline(always)]
    pub fn front(&self, key: usize) -> usize
        requires { IsSome (at self.now.pipes key) }
        ensures value { IfSome (at self.now.pipes key) (λ x. result ≡ front x) }
        ensures within { IfSome (at self.now.pipes key) (λ x. result ≤ length x.bytes) }
        ensures few { result ≤ most_capacity }
    {
        pipe_at(&self.contents, key).queue.front()
    }

    /// How many bytes a pipe can hold.
    pub fn capacity(&self, key: usize) -> usize
        requires { IsSome (at self.now.pipes key) }
        ensures value { IfSome (at self.now.pipes key) (λ x. result ≡ x.capacity) }
        ensures most { result ≤ most_capacity }
    {
        pipe_at(&self.contents, key).queue.capacity()
    }

    /// How much of its capacity a pipe takes: as many bytes as it holds, or 4,096 for each packet.
    pub fn used(&self, key: usize) -> usize
        requires { IsSome (at self.now.pipes key) }
        ensures value { IfSome (at self.now.pipes key) (λ x. result ≡ used x) }
        ensures few { result ≤ most_capacity }
    {
        pipe_at(&self.contents, key).queue.used()
    }

    /// How many more bytes a pipe can hold.
    #[inline(always)]
    pub fn room(&self, key: usize) -> usize
        requires { IsSome (at self.now.pipes key) }
        ensures value { IfSome (at self.now.pipes key) (λ x. result ≡ room x) }
        ensures few { result ≤ most_capacity }
    {
        pipe_at(&self.contents, key).queue.room()
    }

    /// Whether a pipe is hung.
    pub fn is_hung(&self, key: usize) -> bool
        requires { IsSome (at self.now.pipes key) }
        ensures { IfSome (at self.now.pipes key) (λ x. result ≡ x.hung) }
    {
        matches!(&self.contents[key], Content::Pipe(node) if node.hung)
    }

    /// In how many slices the bytes of a pipe stand.
    pub fn slots(&self, key: usize) -> usize
        requires { IsSome (at self.now.pipes key) }
        ensures value { result ≡ length (slots_at self.now.slots key) }
        ensures bound { IfSome (at self.now.pipes key) (λ x. result ≤ 2 * x.capacity / segment_size) }
    {
        pipe_at(&self.contents, key).queue.slots()
    }

    /// Takes bytes out of a pipe, of which a read can get so many. An error leaves all as it was.
    #[inline(always)]
    pub fn read_pipe(&mut self, key: usize, count: usize) -> Result<Vec<u8, A>, NoMemory>
        requires here { IsSome (at self.old.pipes key) }
        requires held { IfSome (at self.old.pipes key) (λ x. count ≤ front x) }
        ensures bytes { IfOk result (λ bytes. IfSome (at self.old.pipes key) (λ x. bytes.items ≡ take count x.bytes)) }
        ensures few { IfOk result (λ bytes. length bytes.items ≤ most_capacity) }
        ensures ok { OnOk result (at self.new.pipes ≡ change_at key (λ x. lose (spent x count) x) (at self.old.pipes)) }
        ensures files { SameFiles self.old self.new }
        ensures unchanged { OnErr result (self.new ≡ self.old) }
    {
        let Some(node) = self.contents[key].as_pipe_mut() else {
            unreachable!()
        };
        // A proof learns here that a pipe holds few bytes.
        let _held = node.queue.len();
        let bytes = node.queue.pop(self.alloc, &mut self.store, count)?;
        // And here that it has few slots.
        let _slots = node.queue.slots();
        self.store.trim(self.limits.spare_max);
        Ok(bytes)
    }

    /// Takes bytes out of a pipe, of which a read can get so many, into a list. It takes no memory.
    #[inline(always)]
    pub fn read_pipe_into(&mut self, key: usize, into: &mut [u8])
        requires here { IsSome (at self.old.pipes key) }
        requires held { IfSome (at self.old.pipes key) (λ x. length into.old ≤ front x) }
        ensures bytes { IfSome (at self.old.pipes key) (λ x. into.new ≡ take (length into.old) x.bytes) }
        ensures within { IfSome (at self.old.pipes key) (λ x. length into.old ≤ length x.bytes) }
        ensures ok { at self.new.pipes ≡ change_at key (λ x. lose (spent x (length into.old)) x) (at self.old.pipes) }
        ensures files { SameFiles self.old self.new }
    {
        let Some(node) = self.contents[key].as_pipe_mut() else {
            unreachable!()
        };
        node.queue.pop_into(&mut self.store, into);
        // A proof learns here that a pipe has few slots.
        let _slots = node.queue.slots();
        self.store.trim(self.limits.spare_max);
    }

    /// Adds bytes at the end of a pipe that has room for them. An error leaves all as it was.
    #[inline(always)]
    pub fn write_pipe(&mut self, key: usize, bytes: &[u8]) -> Result<(), NoMemory>
        requires here { IsSome (at self.old.pipes key) }
        requires room { IfSome (at self.old.pipes key) (λ x. length bytes.now ≤ room x) }
        ensures ok { OnOk result (at self.new.pipes ≡ change_at key (gain bytes.now) (at self.old.pipes)) }
        ensures files { SameFiles self.old self.new }
        ensures unchanged { OnErr result (self.new ≡ self.old) }
    {
        let Some(node) = self.contents[key].as_pipe_mut() else {
            unreachable!()
        };
        node.queue.push(&mut self.store, bytes)?;
        // A proof learns here that a pipe has few slots.
        let _slots = node.queue.slots();
        self.store.trim(self.limits.spare_max);
        Ok(())
    }

    /// Sets how many bytes a pipe can hold: a power of two, from 4,096 to 1,048,576 (fcntl(2), F_SETPIPE_SZ). All slots and
    /// segments stay as they are. An error leaves all as it was.
    ///
    /// # Errors
    ///
    /// - `Busy` exactly where the pipe takes more of its capacity, whether or not there is memory.
    /// - `NoMemory` where it takes no more, and there is no memory for a pipe of that capacity.
    pub fn set_capacity(&mut self, key: usize, capacity: usize) -> Result<(), CapacityFault>
        requires here { IsSome (at self.old.pipes key) }
        requires capacity { IsPipeCapacity capacity }
        ensures ok { OnOk result (at self.new.pipes ≡ change_at key (λ x. record x { capacity = capacity }) (at self.old.pipes)) }
        ensures busy { (result ≡ Err CapacityFault.Busy) ↔ IfSome (at self.old.pipes key) (λ x. capacity < used x) }
        ensures files { SameFiles self.old self.new }
        ensures memory { memory_of self.new ≡ memory_of self.old }
        ensures unchanged { OnErr result (self.new ≡ self.old) }
    {
        let Some(node) = self.contents[key].as_pipe_mut() else {
            unreachable!()
        };
        node.queue.set_capacity(capacity)
    }

    /// Makes a byte queue what a new pipe is: empty, of 65,536 bytes of capacity, and not hung. So is a FIFO left by its last end, since
    /// it keeps nothing for the next (POSIX.1-2017, close). It takes no memory, and no slot and no segment comes.
    pub fn reset_pipe(&mut self, key: usize)
        requires here { IsSome (at self.old.pipes key) }
        requires bytes { IfSome (at self.old.pipes key) (λ x. x.packets ≡ None) }
        ensures ok { at self.new.pipes ≡ change_at key (λ x. empty_pipe) (at self.old.pipes) }
        ensures files { SameFiles self.old self.new }
        ensures shrinks { Shrinks (memory_of self.old) (memory_of self.new) }
    {
        let Some(node) = self.contents[key].as_pipe_mut() else {
            unreachable!()
        };
        node.queue.reset(&mut self.store);
        node.hung = false;
        // A proof learns here that a segment that is there is held.
        let _segments = self.store.in_use();
        self.store.trim(self.limits.spare_max);
    }

    /// Lets a pipe go that has no name, with its bytes. It takes no memory, and no slot and no segment comes.
    pub fn discard_pipe(&mut self, key: usize)
        requires here { IsSome (at self.old.pipes key) }
        requires unnamed { has_name self.old.names (Node.Pipe key) ≡ false }
        ensures ok { at self.new.pipes ≡ set_at nat_eq (at self.old.pipes) key None }
        ensures files { at self.new.files ≡ at self.old.files }
        ensures names { self.new.names ≡ self.old.names }
        ensures limits { self.new.limits ≡ self.old.limits }
        ensures shrinks { Shrinks (memory_of self.old) (memory_of self.new) }
    {
        let Content::Pipe(gone) = self.contents.remove(key) else {
            unreachable!()
        };
        gone.queue.let_go(&mut self.store);
        self.upper.went(&mut self.contents, key);
        // A proof learns here that a segment that is there is held.
        let _segments = self.store.in_use();
        self.store.trim(self.limits.spare_max);
    }

    /// Says whether a pipe is hung. It takes no memory, and all slots and segments stay as they are.
    pub fn set_hung(&mut self, key: usize, hung: bool)
        requires { IsSome (at self.old.pipes key) }
        ensures ok { at self.new.pipes ≡ change_at key (λ x. record x { hung = hung }) (at self.old.pipes) }
        ensures files { SameFiles self.old self.new }
        ensures memory { memory_of self.new ≡ memory_of self.old }
    {
        let Some(node) = self.contents[key].as_pipe_mut() else {
            unreachable!()
        };
        node.hung = hung;
    }
}
