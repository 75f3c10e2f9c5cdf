//! What a description is open on and for, its flags and its offset.
ghost use Rattle.std.specs.Prelude.{◌≡◌, IsSome, Some, option_map};
ghost use Rattle.pl_model.specs.Map.{change_at};
ghost use Rattle.pl_model.specs.Modes.{reads, writes};
ghost use Rattle.pl_desc.specs.Rows.{at};
ghost use Rattle.pl_desc.specs.Descs.{ends_on, live_count, IsTidy};

use super::Descs;
use pl_model::{Mode, Node, OpenFlags};
use std::alloc::Allocator;

impl<A: Allocator + Copy> Descs<A> {
    /// What a description is open on.
    pub fn node(&self, key: usize) -> Node
        requires { IsSome (at self.now.opened key) }
        ensures { option_map (λ o. o.node) (at self.now.opened key) ≡ Some result }
    {
        self.descriptions[key].node
    }

    /// What a description is open for.
    pub fn mode(&self, key: usize) -> Mode
        requires { IsSome (at self.now.opened key) }
        ensures { option_map (λ o. o.mode) (at self.now.opened key) ≡ Some result }
    {
        self.descriptions[key].mode
    }

    /// The status flags of a description.
    pub fn flags(&self, key: usize) -> OpenFlags
        requires { IsSome (at self.now.opened key) }
        ensures { option_map (λ o. o.flags) (at self.now.opened key) ≡ Some result }
    {
        self.descriptions[key].flags
    }

    /// The offset of a description, in bytes.
    pub fn offset(&self, key: usize) -> u64
        requires { IsSome (at self.now.opened key) }
        ensures { option_map (λ o. o.offset) (at self.now.opened key) ≡ Some result }
    {
        self.descriptions[key].offset
    }

    /// Sets the status flags of a description, which all descriptors that name it share (POSIX.1-2017, fcntl). It takes no
    /// memory.
    pub fn set_flags(&mut self, key: usize, flags: OpenFlags)
        requires { IsSome (at self.old.opened key) }
        ensures opened { at self.new.opened ≡ change_at key (λ o. record o { flags = flags }) (at self.old.opened) }
        ensures live { live_count self.new.opened ≡ live_count self.old.opened }
        ensures readers { ends_on reads self.new.opened ≡ ends_on reads self.old.opened }
        ensures writers { ends_on writes self.new.opened ≡ ends_on writes self.old.opened }
        ensures rest { self.new ≡ record self.old { opened = self.new.opened } }
        ensures tidy { IsTidy self.new }
    {
        let description = &mut self.descriptions[key];
        description.flags = flags;
    }

    /// Sets the offset of a description, in bytes, which all descriptors that name it share (POSIX.1-2017, lseek). It takes
    /// no memory.
    pub fn set_offset(&mut self, key: usize, offset: u64)
        requires { IsSome (at self.old.opened key) }
        ensures opened { at self.new.opened ≡ change_at key (λ o. record o { offset = offset }) (at self.old.opened) }
        ensures live { live_count self.new.opened ≡ live_count self.old.opened }
        ensures readers { ends_on reads self.new.opened ≡ ends_on reads self.old.opened }
        ensures writers { ends_on writes self.new.opened ≡ ends_on writes self.old.opened }
        ensures rest { self.new ≡ record self.old { opened = self.new.opened } }
        ensures tidy { IsTidy self.new }
    {
        let description = &mut self.descriptions[key];
        description.offset = offset;
    }
}
