//! Packet pipes.
ghost use Rattle.std.specs.Prelude.{◌≡◌, ◌-◌, ◌/◌, ◌≤◌, ℕ, length, min, take, IfOk, OnErr, OnOk, IsSome, IfSome, Some, None, is_some, nat_eq};
ghost use Rattle.pl_model.specs.Numbers.{pipe_buf, most_capacity};
ghost use Rattle.pl_model.specs.State.{empty_packet_pipe, pipe_made};
ghost use Rattle.pl_model.specs.Packets.{front, lose, gain};
ghost use Rattle.pl_model.specs.Transfer.{room};
ghost use Rattle.pl_model.specs.Map.{set_at, change_at};
ghost use Rattle.pl_segments.specs.Segments.{at};
ghost use Rattle.pl_segments.specs.Sharing.{slots_at};
ghost use Rattle.pl_nodes.specs.Nodes.{SameFiles};

use super::Nodes;
use crate::content::{Content, PipeNode};
use crate::queue::Queue;
use pl_model::NoMemory;
use pl_model::numbers::{FIRST_CAPACITY, PIPE_BUF};
use pl_packets::PacketRing;
use std::alloc::Allocator;

impl<A: Allocator + Copy> Nodes<A> {
    /// Makes an empty packet pipe of 65,536 bytes of capacity (pipe(2), `O_DIRECT`), and answers its key. It has no slots, and all
    /// others keep theirs. No name stands for it. An error leaves all as it was.
    pub fn make_packet_pipe(&mut self) -> Result<usize, NoMemory>
        ensures vacant { IfOk result (λ key. (at self.old.pipes key ≡ None) × (at self.old.files key ≡ None)) }
        ensures key { IfOk result (λ key. key ≡ self.old.next) }
        ensures ok { IfOk result (λ key. at self.new.pipes ≡ set_at nat_eq (at self.old.pipes) key (Some empty_packet_pipe)) }
        ensures files { at self.new.files ≡ at self.old.files }
        ensures names { self.new.names ≡ self.old.names }
        ensures limits { self.new.limits ≡ self.old.limits }
        ensures slots { (key : ℕ) → slots_at self.new.slots key ≡ slots_at self.old.slots key }
        ensures segments { self.new.segments ≡ self.old.segments }
        ensures unchanged { OnErr result (self.new ≡ self.old) }
    {
        self.contents.reserve(1)?;
        let ring = PacketRing::new(self.alloc, FIRST_CAPACITY)?;
        self.upper.comes(&self.contents);
        Ok(
            self.contents.insert_reserved(Content::Pipe(PipeNode {
                queue: Queue::Packets(ring),
                hung: false,
                named: false,
            })),
        )
    }

    /// Makes an empty pipe, a packet pipe (pipe(2), `O_DIRECT`) or a byte queue, of 65,536 bytes of capacity, and answers its key. It has
    /// no slots, and all others keep theirs. An error leaves all as it was.
    pub fn make(&mut self, packets: bool) -> Result<usize, NoMemory>
        ensures vacant { IfOk result (λ key. (at self.old.pipes key ≡ None) × (at self.old.files key ≡ None)) }
        ensures key { IfOk result (λ key. key ≡ self.old.next) }
        ensures ok { IfOk result (λ key. at self.new.pipes ≡ set_at nat_eq (at self.old.pipes) key (Some (pipe_made packets))) }
        ensures files { at self.new.files ≡ at self.old.files }
        ensures names { self.new.names ≡ self.old.names }
        ensures limits { self.new.limits ≡ self.old.limits }
        ensures slots { (key : ℕ) → slots_at self.new.slots key ≡ slots_at self.old.slots key }
        ensures segments { self.new.segments ≡ self.old.segments }
        ensures unchanged { OnErr result (self.new ≡ self.old) }
    {
        if packets {
            self.make_packet_pipe()
        } else {
            self.make_pipe()
        }
    }

    /// Whether a pipe is a packet pipe.
    pub fn is_packet(&self, key: usize) -> bool
        requires { IsSome (at self.now.pipes key) }
        ensures { IfSome (at self.now.pipes key) (λ x. result ≡ is_some x.packets) }
    {
        let Content::Pipe(node) = &self.contents[key] else {
            unreachable!()
        };
        node.queue.is_packet()
    }

    /// How many more packets a packet pipe can hold.
    pub fn places(&self, key: usize) -> usize
        requires here { IsSome (at self.now.pipes key) }
        requires packets { IfSome (at self.now.pipes key) (λ x. IsSome x.packets) }
        ensures { IfSome (at self.now.pipes key) (λ x. IfSome x.packets (λ lengths. result ≡ x.capacity / pipe_buf - length lengths)) }
    {
        self.room(key) / PIPE_BUF
    }

    /// Adds the packets of bytes at the end of a packet pipe that has room for them: 4,096 bytes each, and a last one of those that are
    /// left. An error leaves all as it was.
    pub fn write_packets(&mut self, key: usize, bytes: &[u8]) -> Result<(), NoMemory>
        requires here { IsSome (at self.old.pipes key) }
        requires packets { IfSome (at self.old.pipes key) (λ x. IsSome x.packets) }
        requires room { IfSome (at self.old.pipes key) (λ x. length bytes.now ≤ room x) }
        ensures ok { OnOk result (at self.new.pipes ≡ change_at key (gain bytes.now) (at self.old.pipes)) }
        ensures files { SameFiles self.old self.new }
        ensures unchanged { OnErr result (self.new ≡ self.old) }
    {
        self.write_pipe(key, bytes)
    }

    /// Takes the first packet of a packet pipe, which is there, and answers at most `count` of its bytes. The others go. An error
    /// leaves all as it was.
    pub fn read_packet(&mut self, key: usize, count: usize) -> Result<Vec<u8, A>, NoMemory>
        requires here { IsSome (at self.old.pipes key) }
        requires packets { IfSome (at self.old.pipes key) (λ x. IsSome x.packets) }
        requires some { IfSome (at self.old.pipes key) (λ x. IfSome x.packets (λ lengths. 1 ≤ length lengths)) }
        ensures bytes { IfOk result (λ bytes. IfSome (at self.old.pipes key) (λ x. bytes.items ≡ take (min count (front x)) x.bytes)) }
        ensures few { IfOk result (λ bytes. length bytes.items ≤ most_capacity) }
        ensures ok { OnOk result (at self.new.pipes ≡ change_at key (λ x. lose (front x) x) (at self.old.pipes)) }
        ensures files { SameFiles self.old self.new }
        ensures unchanged { OnErr result (self.new ≡ self.old) }
    {
        let count = count.min(self.front(key));
        self.read_pipe(key, count)
    }
}
