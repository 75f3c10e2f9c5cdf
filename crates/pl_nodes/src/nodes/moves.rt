//! Bytes that go from one pipe or file to another, or are copied, by sharing the segments in which they stand.
ghost use Rattle.std.specs.Prelude.{◌≡◌, ◌≢◌, ◌↔◌, ◌+◌, ◌≤◌, [], length, take, slice_set, IfOk, OnErr, OnOk, IsSome, IfSome, Err};
ghost use Rattle.pl_model.specs.Packets.{lose, gain};
ghost use Rattle.pl_model.specs.Transfer.{room};
ghost use Rattle.pl_model.specs.Map.{change_at};
ghost use Rattle.pl_segments.specs.Segments.{at};
ghost use Rattle.pl_segments.specs.Slots.{drop_bytes};
ghost use Rattle.pl_segments.specs.Sharing.{slots_at};
ghost use Rattle.pl_file.specs.File.{written, fitting};
ghost use Rattle.pl_nodes.specs.Nodes.{memory_of, SameFiles, SamePipes, bytes_of, part_of};
ghost use Rattle.pl_nodes.specs.Moving.{IsBytePipe, HoldsBytes, HasRoom, SharesSlots, AddsNone};

use super::Nodes;
use crate::content::Content;
use pl_file::WriteFault;
use pl_model::NoMemory;
use pl_model::numbers::MAX_CAPACITY;
use pl_ring::Ring;
use std::alloc::Allocator;

impl<A: Allocator + Copy> Nodes<A> {
    /// Copies the first `count` bytes of a pipe to the end of another, which has room for them; the first keeps them (tee(2)). At
    /// most three segments are made, and but for three slots at most the other pipe then has slots that it had or that lie
    /// within those of the first. `NoMemory` where there is no memory for that; an error leaves all as it was.
    pub fn copy_pipe_pipe(&mut self, from: usize, to: usize, count: usize) -> Result<(), NoMemory>
        requires from { HoldsBytes (at self.old.pipes from) count }
        requires to { HasRoom (at self.old.pipes to) count }
        requires other { from ≢ to }
        ensures ok { OnOk result (at self.new.pipes ≡ change_at to (gain (take count (bytes_of (at self.old.pipes from)))) (at self.old.pipes)) }
        ensures files { SameFiles self.old self.new }
        ensures shares { OnOk result (SharesSlots (memory_of self.old) (memory_of self.new) from to) }
        ensures unchanged { OnErr result (self.new ≡ self.old) }
    {
        // A proof learns here that there are fewer files and pipes than a segment can have holders.
        let _most = self.contents.capacity();
        let Content::Pipe(source) = &self.contents[from] else {
            unreachable!()
        };
        let slices = source.queue.front_slices(count)?;
        let Some(target) = self.contents[to].as_pipe_mut() else {
            unreachable!()
        };
        // And here that the pipe holds no more than its capacity.
        let _held = target.queue.len();
        target
            .queue
            .push_front_slices(&mut self.store, &slices, count)?;
        // And here that it has few slots.
        let _slots = target.queue.slots();
        self.store.trim(self.limits.spare_max);
        Ok(())
    }

    /// Moves the first `count` bytes of a pipe to the end of another, which has room for them (splice(2)). At most three segments
    /// are made, and but for three slots at most the other pipe then has slots that it had or that lie within those that the
    /// first had. `NoMemory` where there is no memory for that; an error leaves all as it was.
    pub fn move_pipe_pipe(&mut self, from: usize, to: usize, count: usize) -> Result<(), NoMemory>
        requires from { HoldsBytes (at self.old.pipes from) count }
        requires to { HasRoom (at self.old.pipes to) count }
        requires other { from ≢ to }
        ensures ok { OnOk result (at self.new.pipes ≡ change_at to (gain (take count (bytes_of (at self.old.pipes from)))) (change_at from (lose count) (at self.old.pipes))) }
        ensures files { SameFiles self.old self.new }
        ensures shares { OnOk result (SharesSlots (memory_of self.old) (memory_of self.new) from to) }
        ensures unchanged { OnErr result (self.new ≡ self.old) }
    {
        if self.held(from) == count && self.slots(to) == 0 {
            return self.hand_over(from, to);
        }
        self.move_front(from, to, count)
    }

    // Moves the first bytes of a pipe to another. Meanwhile the ring of the first one stands by itself, and the pipe has a bare one, since only one
    // pipe can be borrowed at a time. An error leaves all as it was.
    fn move_front(&mut self, from: usize, to: usize, count: usize) -> Result<(), NoMemory>
        requires from { HoldsBytes (at self.old.pipes from) count }
        requires to { HasRoom (at self.old.pipes to) count }
        requires other { from ≢ to }
        ensures ok { OnOk result (at self.new.pipes ≡ change_at to (gain (take count (bytes_of (at self.old.pipes from)))) (change_at from (lose count) (at self.old.pipes))) }
        ensures files { SameFiles self.old self.new }
        ensures shares { OnOk result (SharesSlots (memory_of self.old) (memory_of self.new) from to) }
        ensures unchanged { OnErr result (self.new ≡ self.old) }
    {
        // A proof learns here that there are fewer files and pipes than a segment can have holders.
        let _most = self.contents.capacity();
        let mut ring = Ring::bare(self.alloc)?;
        let Some(source) = self.contents[from].as_pipe_mut() else {
            unreachable!()
        };
        // And here that no capacity is greater.
        let _held = source.queue.len();
        source.queue.exchange(&mut ring);
        let Some(target) = self.contents[to].as_pipe_mut() else {
            unreachable!()
        };
        let _held = target.queue.len();
        let moved = target.queue.take_front(&mut self.store, &mut ring, count);
        // And here that each pipe has few slots.
        let _few = target.queue.slots();
        let Some(source) = self.contents[from].as_pipe_mut() else {
            unreachable!()
        };
        source.queue.exchange(&mut ring);
        let _few = source.queue.slots();
        self.store.trim(self.limits.spare_max);
        moved
    }

    // Moves all that a pipe holds to one that holds nothing: the other gets the ring in which the bytes stand, and the first one that is new. An
    // error leaves all as it was.
    fn hand_over(&mut self, from: usize, to: usize) -> Result<(), NoMemory>
        requires from { IsBytePipe (at self.old.pipes from) }
        requires to { IsBytePipe (at self.old.pipes to) }
        requires other { from ≢ to }
        requires empty { slots_at self.old.slots to ≡ [] }
        requires room { IfSome (at self.old.pipes to) (λ x. length (bytes_of (at self.old.pipes from)) ≤ x.capacity) }
        ensures ok { OnOk result (at self.new.pipes ≡ change_at to (gain (bytes_of (at self.old.pipes from))) (change_at from (lose (length (bytes_of (at self.old.pipes from)))) (at self.old.pipes))) }
        ensures files { SameFiles self.old self.new }
        ensures segments { self.new.segments ≡ self.old.segments }
        ensures slots { OnOk result (slots_at self.new.slots to ≡ slots_at self.old.slots from) }
        ensures unchanged { OnErr result (self.new ≡ self.old) }
    {
        let mut ring = Ring::new(self.alloc, MAX_CAPACITY as usize)?;
        let Some(source) = self.contents[from].as_pipe_mut() else {
            unreachable!()
        };
        // A proof learns here that no capacity is greater.
        let _held = source.queue.len();
        source.queue.exchange(&mut ring);
        let Some(target) = self.contents[to].as_pipe_mut() else {
            unreachable!()
        };
        target.queue.exchange(&mut ring);
        Ok(())
    }

    /// Copies at most `count` bytes of a file, from a place on and none past its end, to the end of a pipe that has room for
    /// `count` (splice(2), off_in). `NoMemory` where there is no memory for that; an error leaves all as it was.
    pub fn move_file_pipe(
        &mut self,
        from: usize,
        place: usize,
        to: usize,
        count: usize,
    ) -> Result<(), NoMemory>
        requires from { IsSome (at self.old.files from) }
        requires to { HasRoom (at self.old.pipes to) count }
        ensures ok { OnOk result (at self.new.pipes ≡ change_at to (gain (part_of place count (at self.old.files from))) (at self.old.pipes)) }
        ensures files { SameFiles self.old self.new }
        ensures unchanged { OnErr result (self.new ≡ self.old) }
    {
        // A proof learns from these counts what it learns in `copy_pipe_pipe`.
        let _most = self.contents.capacity();
        let Content::File(file) = &self.contents[from] else {
            unreachable!()
        };
        let slices = file.file.slices_at(place, count)?;
        let Some(pipe) = self.contents[to].as_pipe_mut() else {
            unreachable!()
        };
        let _held = pipe.queue.len();
        pipe.queue.push_slices(&mut self.store, &slices)?;
        let _slots = pipe.queue.slots();
        self.store.trim(self.limits.spare_max);
        Ok(())
    }

    /// Moves the first `count` bytes of a pipe into a file at a place, as many of them as stand below the greatest length of a file,
    /// and answers how many; what lies between the end of the file and the place reads as zeros (splice(2), off_out;
    /// POSIX.1-2017, write and lseek). Where the place isn't past the end no segment is made. An error leaves all as it was.
    ///
    /// # Errors
    ///
    /// - `TooBig` exactly where there are bytes, and the place is at the greatest length or past it.
    /// - `NoMemory` where it isn't, and there is no memory.
    pub fn move_pipe_file(
        &mut self,
        from: usize,
        to: usize,
        place: usize,
        count: usize,
    ) -> Result<usize, WriteFault>
        requires from { HoldsBytes (at self.old.pipes from) count }
        requires to { IsSome (at self.old.files to) }
        ensures count { IfOk result (λ moved. moved ≡ fitting count place self.old.limits.file_max) }
        ensures big { (result ≡ Err WriteFault.TooBig) ↔ ((1 ≤ count) × (self.old.limits.file_max ≤ place)) }
        ensures pipes { OnOk result (at self.new.pipes ≡ change_at from (lose (fitting count place self.old.limits.file_max)) (at self.old.pipes)) }
        ensures files { OnOk result (at self.new.files ≡ change_at to (written place (take (fitting count place self.old.limits.file_max) (bytes_of (at self.old.pipes from)))) (at self.old.files)) }
        ensures names { self.new.names ≡ self.old.names }
        ensures limits { self.new.limits ≡ self.old.limits }
        ensures none_added { OnOk result (IfSome (at self.old.files to) (λ bytes. place ≤ length bytes) → AddsNone (memory_of self.old) (memory_of self.new)) }
        ensures unchanged { OnErr result (self.new ≡ self.old) }
    {
        if count == 0 {
            return Ok(0);
        }
        // Before any memory is asked for.
        if self.limits.file_max <= place {
            return Err(WriteFault::TooBig);
        }
        let moved = count.min(self.limits.file_max - place);
        let Ok(()) = self.put_front(from, to, place, moved) else {
            return Err(WriteFault::NoMemory);
        };
        self.drop_front(from, moved);
        Ok(moved)
    }

    // Writes the first bytes of a pipe into a file at a place, and leaves them in the pipe. An error leaves all as it was.
    fn put_front(
        &mut self,
        from: usize,
        to: usize,
        place: usize,
        count: usize,
    ) -> Result<(), NoMemory>
        requires from { HoldsBytes (at self.old.pipes from) count }
        requires to { IsSome (at self.old.files to) }
        requires some { 1 ≤ count }
        requires fits { place + count ≤ self.old.limits.file_max }
        ensures ok { OnOk result (at self.new.files ≡ change_at to (written place (take count (bytes_of (at self.old.pipes from)))) (at self.old.files)) }
        ensures pipes { SamePipes self.old self.new }
        ensures none_added { OnOk result (IfSome (at self.old.files to) (λ bytes. place ≤ length bytes) → AddsNone (memory_of self.old) (memory_of self.new)) }
        ensures unchanged { OnErr result (self.new ≡ self.old) }
    {
        // A proof learns here that there are fewer files and pipes than a segment can have holders.
        let _most = self.contents.capacity();
        let Content::Pipe(pipe) = &self.contents[from] else {
            unreachable!()
        };
        let slices = pipe.queue.front_slices(count)?;
        let Some(file) = self.contents[to].as_file_mut() else {
            unreachable!()
        };
        let Ok(_moved) = file
            .file
            .put_slices_at(&mut self.store, place, &slices, self.limits.file_max)
        else {
            return Err(NoMemory);
        };
        // And here that the file has no more slots than it may have bytes.
        let _end = file.file.len();
        self.store.trim(self.limits.spare_max);
        Ok(())
    }

    // Lets the first bytes of a pipe go. It takes no memory.
    fn drop_front(&mut self, key: usize, count: usize)
        requires { HoldsBytes (at self.old.pipes key) count }
        ensures ok { at self.new.pipes ≡ change_at key (lose count) (at self.old.pipes) }
        ensures files { SameFiles self.old self.new }
        ensures slots { self.new.slots ≡ slice_set self.old.slots key (drop_bytes count (slots_at self.old.slots key)) }
        ensures segments { self.new.segments ≤ self.old.segments }
    {
        let Some(node) = self.contents[key].as_pipe_mut() else {
            unreachable!()
        };
        node.queue.drop_front(&mut self.store, count);
        // A proof learns here that the pipe has few slots, and that a segment that is there is held.
        let _slots = node.queue.slots();
        let _segments = self.store.in_use();
        self.store.trim(self.limits.spare_max);
    }
}
