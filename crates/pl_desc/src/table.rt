//! The table of descriptors of one process.
ghost use Rattle.std.specs.Prelude.{◌≡◌, ℕ, ◌-◌, ◌<◌, ◌≤◌, length, IfOk, IsOk, IsSome, OnOk, Some, None, replicate, slice_set, is_none};
ghost use Rattle.pl_model.specs.Numbers.{most_descriptors, first_from};
ghost use Rattle.pl_desc.specs.Rows.{at, row_in, next_open, open_in, no_key};

use crate::rows::{grow, trim};
use pl_masks::Masks;
use pl_model::NoMemory;
use std::alloc::Allocator;
use std::marker::Model;

/// What stands in the row of a free descriptor: no key, since a key is below the length of a list.
pub(crate) const FREE: usize = usize::MAX;

/// The keys that the descriptors of a process name: a row for each descriptor below some number; all others are free. Contracts see what each
/// descriptor names, and how many have a row.
#[derive(Drop)]
pub struct Table<A: Allocator> {
    keys: Vec<usize, A>,
    free: Masks<A>,
    /// How many descriptors there may be.
    most: usize,
    /// How many are open.
    in_use: usize,
    /// How many were closed since the rows were last looked through for such as can be given back.
    closed: usize,
}

impl<A: Allocator> Model for Table<A> {
    ghost use Rattle.pl_desc.specs.Rows.{Tabled};

    ghost Value = { Tabled };

    ghost use Rattle.pl_desc.specs.TableView.{view_of, IsTable};

    ghost view = { view_of };

    ghost invariant = { λ t. IsTable t.keys.items t.most t.in_use t.free };
}

impl<A: Allocator + Copy> Table<A> {
    /// A table of so many descriptors (at most 65,536), none of which is open or has a row. It takes no memory.
    pub(crate) fn new(alloc: A, most: usize) -> Table<A>
        requires { most ≤ most_descriptors }
        ensures { result ≡ record { names = replicate most None; rows = 0 } }
    {
        Table {
            keys: Vec::new(alloc),
            free: Masks::new(alloc),
            most,
            in_use: 0,
            closed: 0,
        }
    }

    /// A table whose descriptors name the same keys.
    pub(crate) fn copy(&self, alloc: A) -> Result<Table<A>, NoMemory>
        ensures { IfOk result (λ table. table ≡ self.now) }
    {
        let keys = Vec::from_slice(alloc, &self.keys)?;
        let free = self.free.copy(alloc)?;
        Ok(Table {
            keys,
            free,
            most: self.most,
            in_use: self.in_use,
            closed: 0,
        })
    }
}

impl<A: Allocator> Table<A> {
    /// The key that a descriptor names, if it is open (POSIX.1-2017, File Descriptor).
    #[inline(always)]
    pub fn find(&self, fd: i32) -> Option<usize>
        ensures { result ≡ row_in self.now.names fd }
    {
        // One comparison finds all that aren't open: without its sign a negative one is above all places.
        let key = *self.keys.get(fd.cast_unsigned() as usize)?;
        if key == FREE { None } else { Some(key) }
    }

    /// Makes a row for a descriptor, where there is none.
    ///
    /// # Errors
    ///
    /// `NoMemory` where there is neither a row nor memory for it.
    #[inline(always)]
    pub(crate) fn reserve(&mut self, fd: usize) -> Result<(), NoMemory>
        requires { fd < length self.old.names }
        ensures row { OnOk result (fd < self.new.rows) }
        ensures more { self.old.rows ≤ self.new.rows }
        ensures same { self.new.names ≡ self.old.names }
        ensures frugal { fd < self.old.rows → IsOk result }
    {
        if fd < self.keys.len() {
            return Ok(());
        }
        grow(&mut self.keys, &mut self.free, fd, self.most)
    }

    /// Gives back rows after a descriptor was closed, where three quarters of the rows or more stand past the last open one. It takes no
    /// memory. The rows are looked through once in as many closes as a quarter of them, so that a close costs a few rows.
    pub(crate) fn trim(&mut self)
        ensures { self.new.names ≡ self.old.names }
    {
        self.closed = self.closed.saturating_add(1);
        if self.closed < self.keys.len() / 4 {
            return;
        }
        self.closed = 0;
        trim(&mut self.keys, &mut self.free);
    }

    /// Lets a free descriptor that has a row name a key.
    #[inline(always)]
    pub(crate) fn put(&mut self, fd: usize, key: usize)
        requires row { fd < self.old.rows }
        requires free { at self.old.names fd ≡ None }
        requires key { key < no_key }
        ensures { self.new ≡ record self.old { names = slice_set self.old.names fd (Some key) } }
    {
        self.keys[fd] = key;
        self.free.remove(fd);
        self.in_use += 1;
    }

    /// Lets an open descriptor name another key, and answers the one that it named.
    pub(crate) fn replace(&mut self, fd: usize, key: usize) -> usize
        requires open { IsSome (at self.old.names fd) }
        requires key { key < no_key }
        ensures named { at self.old.names fd ≡ Some result }
        ensures names { self.new ≡ record self.old { names = slice_set self.old.names fd (Some key) } }
    {
        let named = self.keys[fd];
        self.keys[fd] = key;
        named
    }

    /// Lets an open descriptor name nothing.
    #[inline(always)]
    pub(crate) fn clear(&mut self, fd: usize)
        requires { IsSome (at self.old.names fd) }
        ensures { self.new ≡ record self.old { names = slice_set self.old.names fd None } }
    {
        self.keys[fd] = FREE;
        self.free.insert(fd);
        self.in_use -= 1;
    }

    /// The least free descriptor, from `least` on (POSIX.1-2017, File Descriptor Allocation).
    #[inline(always)]
    pub(crate) fn lowest(&self, least: usize) -> Option<usize>
        ensures { result ≡ first_from (λ fd. is_none (at self.now.names fd)) (length self.now.names - least) least }
    {
        // All without a row are free.
        let free = (self.free.next(least)).unwrap_or(least.max(self.keys.len()));
        if free < self.most { Some(free) } else { None }
    }

    /// How many descriptors are open.
    pub fn open_count(&self) -> usize
        ensures { result ≡ open_in self.now.names }
    {
        self.in_use
    }

    /// The least open descriptor, from `least` on, with the key that it names.
    pub(crate) fn next_open(&self, least: usize) -> Option<(usize, usize)>
        ensures { result ≡ next_open self.now.names least }
    {
        let mut fd = least;
        while fd < self.keys.len() {
            let key = self.keys[fd];
            if key != FREE {
                return Some((fd, key));
            }
            fd += 1;
        }
        None
    }
}
