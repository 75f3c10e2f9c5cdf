//! Regular files.
ghost use Rattle.std.specs.Prelude.{◌≡◌, ◌↔◌, ◌-◌, ◌≤◌, false, [], length, take, drop, IfOk, OnErr, OnOk, IsSome, IfSome, Some, None, Err, nat_eq};
ghost use Rattle.pl_model.specs.Numbers.{most_file_bytes};
ghost use Rattle.pl_model.specs.Map.{set_at, change_at};
ghost use Rattle.pl_model.specs.Nodes.{has_name};
ghost use Rattle.pl_segments.specs.Segments.{segment_at, at};
ghost use Rattle.pl_segments.specs.Turns.{Holds, Turns};
ghost use Rattle.pl_file.specs.File.{written, fitting};
ghost use Rattle.pl_nodes.specs.Nodes.{SamePipes, Shrinks, memory_of};

use super::Nodes;
use crate::content::Content;
use pl_file::{File, WriteFault};
use pl_model::{NoMemory, Node};
use pl_segments::Store;
use std::alloc::Allocator;

// Lets the slots of a file go that nobody needs any more. It takes no memory.
fn let_go<A: Allocator + Copy>(store: &mut Store<A>, file: File<A>)
    requires { Holds (segment_at store.old) file }
    ensures turns { Turns (segment_at store.old) file (segment_at store.new) [] }
{
    let mut file = file;
    file.truncate(store);
}

impl<A: Allocator + Copy> Nodes<A> {
    /// How many bytes a file has.
    pub fn file_len(&self, key: usize) -> usize
        requires { IsSome (at self.now.files key) }
        ensures value { IfSome (at self.now.files key) (λ bytes. result ≡ length bytes) }
        ensures few { result ≤ most_file_bytes }
    {
        let Content::File(node) = &self.contents[key] else {
            unreachable!()
        };
        node.file.len()
    }

    /// At most `count` bytes of a file from a place on, none past its end (POSIX.1-2017, read).
    pub fn read_file(&self, key: usize, place: usize, count: usize) -> Result<Vec<u8, A>, NoMemory>
        requires { IsSome (at self.now.files key) }
        ensures { IfOk result (λ read. IfSome (at self.now.files key) (λ bytes. read.items ≡ take count (drop place bytes))) }
    {
        let Content::File(node) = &self.contents[key] else {
            unreachable!()
        };
        node.file.read_at(&self.store, place, count)
    }

    /// Copies the bytes of a file from a place on into a list, as many as there are and it has places for, and answers how many; the
    /// places behind them stay as they were (POSIX.1-2017, read). It takes no memory.
    pub fn read_file_into(&self, key: usize, place: usize, into: &mut [u8]) -> usize
        requires { IsSome (at self.now.files key) }
        ensures bytes { IfSome (at self.now.files key) (λ bytes. take result into.new ≡ take (length into.old) (drop place bytes)) }
        ensures most { result ≤ length into.new }
        ensures len { length into.new ≡ length into.old }
        ensures rest { drop result into.new ≡ drop result into.old }
        ensures few { result ≤ most_file_bytes }
    {
        let Content::File(node) = &self.contents[key] else {
            unreachable!()
        };
        let count = node.file.len().saturating_sub(place).min(into.len());
        node.file.read_into(&self.store, place, &mut into[..count]);
        count
    }

    /// Writes as many bytes at a place as stand below the greatest length of a file, and answers how many; what lies between the end
    /// of the file and the place reads as zeros (POSIX.1-2017, write and lseek). It is `TooBig` where there are bytes and none of
    /// them fits. An error leaves all as it was.
    pub fn write_file(
        &mut self,
        key: usize,
        place: usize,
        bytes: &[u8],
    ) -> Result<usize, WriteFault>
        requires { IsSome (at self.old.files key) }
        ensures count { IfOk result (λ count. count ≡ fitting (length bytes.now) place self.old.limits.file_max) }
        ensures big { (result ≡ Err WriteFault.TooBig) ↔ ((1 ≤ length bytes.now) × (self.old.limits.file_max ≤ place)) }
        ensures ok { OnOk result (at self.new.files ≡ change_at key (written place (take (self.old.limits.file_max - place) bytes.now)) (at self.old.files)) }
        ensures pipes { SamePipes self.old self.new }
        ensures unchanged { OnErr result (self.new ≡ self.old) }
    {
        // A proof learns here that there are fewer files and pipes than a segment can have holders.
        let _most = self.contents.capacity();
        let Some(node) = self.contents[key].as_file_mut() else {
            unreachable!()
        };
        let written = node
            .file
            .write_at(&mut self.store, place, bytes, self.limits.file_max)?;
        // And here that the file has no more slots than it may have bytes.
        let _len = node.file.len();
        self.store.trim(self.limits.spare_max);
        Ok(written)
    }

    /// Empties a file (POSIX.1-2017, open, O_TRUNC). It takes no memory, and no slot and no segment comes.
    pub fn empty_file(&mut self, key: usize)
        requires { IsSome (at self.old.files key) }
        ensures ok { at self.new.files ≡ change_at key (λ bytes. []) (at self.old.files) }
        ensures pipes { SamePipes self.old self.new }
        ensures shrinks { Shrinks (memory_of self.old) (memory_of self.new) }
    {
        let Some(node) = self.contents[key].as_file_mut() else {
            unreachable!()
        };
        node.file.truncate(&mut self.store);
        self.store.trim(self.limits.spare_max);
    }

    /// Lets a file go that has no name, with its bytes. It takes no memory, and no slot and no segment comes.
    pub fn discard_file(&mut self, key: usize)
        requires here { IsSome (at self.old.files key) }
        requires unnamed { has_name self.old.names (Node.File key) ≡ false }
        ensures ok { at self.new.files ≡ set_at nat_eq (at self.old.files) key None }
        ensures pipes { at self.new.pipes ≡ at self.old.pipes }
        ensures names { self.new.names ≡ self.old.names }
        ensures limits { self.new.limits ≡ self.old.limits }
        ensures shrinks { Shrinks (memory_of self.old) (memory_of self.new) }
    {
        let Content::File(gone) = self.contents.remove(key) else {
            unreachable!()
        };
        let_go(&mut self.store, gone.file);
        self.upper.went(&mut self.contents, key);
        // A proof learns here that a segment that is there is held.
        let _segments = self.store.in_use();
        self.store.trim(self.limits.spare_max);
    }
}
