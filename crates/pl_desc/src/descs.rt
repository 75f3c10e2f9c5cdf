//! The descriptions that are open, and the processes whose descriptors name them.
mod described;

ghost use Rattle.std.specs.Prelude.{◌≡◌, ℕ, ◌+◌, ◌-◌, ◌<◌, ◌≤◌, ◌^◌, ◌↔◌, [], length, IsTrue, IsOk, IfOk, OnErr, OnOk, IsSome, IfSome, OnSome, IfNone, Some, None, true, false, nat_eq, option_map, option_and_then, if◌then◌else◌};
ghost use Rattle.std.specs.Option.{option_copied};
ghost use Rattle.pl_model.specs.Map.{set_at};
ghost use Rattle.pl_model.specs.Modes.{reads, writes};
ghost use Rattle.pl_desc.specs.Rows.{at, table_of, rows_of, rows_at, is_pid, row_at, row_of, lowest_of, next_open, free_pid, with_row, without_row, without_taken, with_rows_of, count_at, change_count, one_more, one_less, more_if};
ghost use Rattle.pl_desc.specs.Descs.{ends_on, live_count, AreLimits, HasRoom, IsNoLess, IsTidy, holders, last_hold, fresh, released};

use crate::description::{Description, hold_all};
use crate::ends::Counts;
use crate::fault::StartFault;
use crate::limits::DescLimits;
use crate::released::Released;
use crate::table::Table;
use crate::tables::ProcessTables;
use pl_model::{Mode, NoMemory, Node, OpenFlags};
use slab::Slab;
use std::alloc::{Allocator, Global};
use std::marker::Model;

/// The descriptions that are open, and the processes whose descriptors name them (POSIX.1-2017, Open File Description,
/// File Descriptor). A process has a row for each descriptor below some number, with the description that it names, if any. A description is
/// held by each row that names it, and by loose holds, which the caller counts as its own; it is open as long as it is held.
#[derive(Drop)]
pub struct Descs<A: Allocator = Global> {
    alloc: A,
    limits: DescLimits,
    tables: ProcessTables<A>,
    descriptions: Slab<Description, A>,
    counts: Counts<A>,
}

impl<A: Allocator> Model for Descs<A> {
    ghost use Rattle.pl_desc.specs.Descs.{Descs as Described};

    ghost Value = { Described };

    ghost use Rattle.pl_desc.specs.DescsView.{view_of};
    ghost use Rattle.pl_desc.specs.Slots.{IsSound};
    ghost use Rattle.pl_desc.specs.Ends.{ends_at};

    ghost view = { view_of };

    ghost invariant = { λ k. IsSound k.limits k.tables.tables k.descriptions.slots (ends_at k.counts) };
}

impl<A: Allocator + Copy> Descs<A> {
    /// No processes, and nothing open. It takes no memory.
    pub fn new(alloc: A, limits: DescLimits) -> Descs<A>
        requires { AreLimits limits }
        ensures value { result ≡ record { tables = []; opened = []; loose = []; room = record { descriptions = 0; pipes = 0; files = 0; rows = [] }; limits = limits } }
        ensures tidy { IsTidy result }
    {
        Descs {
            alloc,
            limits,
            tables: ProcessTables::new(alloc),
            descriptions: Slab::new(alloc),
            counts: Counts::new(alloc),
        }
    }

    /// Whether there is such a process.
    pub fn has(&self, pid: u32) -> bool
        ensures value { result ≡ is_pid self.now.tables pid }
        ensures tidy { IsTidy self.now }
    {
        // A proof learns here what holds of all of it.
        let _ = &self.tables;
        self.table(pid).is_some()
    }

    /// Starts a process with no open descriptor, under the least free pid, and answers the pid. An error leaves all as it was.
    ///
    /// # Errors
    ///
    /// - `Eagain` exactly where no pid is free, since there are as many processes as there may be (POSIX.1-2017, fork). It takes no memory.
    /// - `NoMemory` where a pid is free, and there is no memory for one process more.
    pub fn start(&mut self) -> Result<u32, StartFault>
        ensures pid { IfOk result (λ pid. free_pid self.old.tables self.old.limits.processes ≡ Some pid) }
        ensures pids { IfOk result (λ pid. is_pid self.new.tables ≡ set_at nat_eq (is_pid self.old.tables) pid true) }
        ensures rows { OnOk result (row_at self.new.tables ≡ row_at self.old.tables) }
        ensures rest { self.new ≡ record self.old { tables = self.new.tables; room = self.new.room } }
        ensures room { IsNoLess self.old.room self.new.room 0 }
        ensures full { (result ≡ Err StartFault.Eagain) ↔ (free_pid self.old.tables self.old.limits.processes ≡ None) }
        ensures tidy { OnOk result (IsTidy self.new) }
        ensures unchanged { OnErr result (self.new ≡ self.old) }
    {
        let Some(pid) = self.tables.free_pid(self.limits.processes) else {
            return Err(StartFault::Eagain);
        };
        if self.tables.reserve(pid).is_err() {
            return Err(StartFault::NoMemory);
        }
        let table = Table::new(self.alloc, self.limits.descriptors);
        self.tables.add(pid, table);
        Ok(pid)
    }

    /// Starts a process whose descriptors name the same descriptions as those of a process that is there (POSIX.1-2017,
    /// fork), under the least free pid, and answers the pid. Each description has fewer than 2^100 loose holds.
    /// An error leaves all as it was.
    ///
    /// # Errors
    ///
    /// - `Eagain` exactly where no pid is free, since there are as many processes as there may be. It takes no memory.
    /// - `NoMemory` where a pid is free, and there is no memory for one process more.
    pub fn copy_table(&mut self, pid: u32) -> Result<u32, StartFault>
        requires process { IsTrue (is_pid self.old.tables pid) }
        requires few { (key : ℕ) → count_at self.old.loose key < 2 ^ 100 }
        ensures pid { IfOk result (λ other. free_pid self.old.tables self.old.limits.processes ≡ Some other) }
        ensures pids { IfOk result (λ other. is_pid self.new.tables ≡ set_at nat_eq (is_pid self.old.tables) other true) }
        ensures rows { IfOk result (λ other. row_at self.new.tables ≡ with_rows_of (row_at self.old.tables) pid other) }
        ensures rest { self.new ≡ record self.old { tables = self.new.tables; room = self.new.room } }
        ensures room { IsNoLess self.old.room self.new.room 0 }
        ensures full { (result ≡ Err StartFault.Eagain) ↔ (free_pid self.old.tables self.old.limits.processes ≡ None) }
        ensures tidy { OnOk result (IsTidy self.new) }
        ensures unchanged { OnErr result (self.new ≡ self.old) }
    {
        let Some(other) = self.tables.free_pid(self.limits.processes) else {
            return Err(StartFault::Eagain);
        };
        let Ok(table) = self.copied(pid) else {
            return Err(StartFault::NoMemory);
        };
        if self.tables.reserve(other).is_err() {
            return Err(StartFault::NoMemory);
        }
        hold_all(&mut self.descriptions, &table);
        self.tables.add(other, table);
        Ok(other)
    }

    /// Ends a process, which has no open descriptor. Its pid is free. It takes no memory.
    pub fn end(&mut self, pid: u32)
        requires process { IsTrue (is_pid self.old.tables pid) }
        requires closed { (fd : ℕ) → row_at self.old.tables pid fd ≡ None }
        ensures pids { is_pid self.new.tables ≡ set_at nat_eq (is_pid self.old.tables) pid false }
        ensures rows { row_at self.new.tables ≡ row_at self.old.tables }
        ensures rest { self.new ≡ record self.old { tables = self.new.tables; room = self.new.room } }
        ensures tidy { IsTidy self.new }
    {
        self.tables.remove(pid);
        self.tables.trim();
    }

    /// Closes the least open descriptor of a process, from `least` on, and answers it with the key that it named, of which the caller has a
    /// loose hold. `None` says that none is open there, and changes nothing. It takes no memory.
    pub fn take_fd(&mut self, pid: u32, least: usize) -> Option<(usize, usize)>
        requires { IsTrue (is_pid self.old.tables pid) }
        ensures taken { result ≡ next_open (rows_of self.old.tables pid) least }
        ensures rows { row_at self.new.tables ≡ without_taken (row_at self.old.tables) pid result }
        ensures pids { is_pid self.new.tables ≡ is_pid self.old.tables }
        ensures loose { count_at self.new.loose ≡ more_if (option_map (λ t. t.1) result) (count_at self.old.loose) }
        ensures holders { holders self.new ≡ holders self.old }
        ensures rest { self.new ≡ record self.old { tables = self.new.tables; loose = self.new.loose } }
        ensures tidy { IsTidy self.new }
        ensures closed { IfNone result ((fd : ℕ) → least ≤ fd → row_at self.old.tables pid fd ≡ None) }
        ensures none { IfNone result (self.new ≡ self.old) }
    {
        let (fd, key) = self.next_open(pid, least)?;
        self.tables.clear(pid, fd);
        Some((fd, key))
    }

    /// The least open descriptor of a process, from `least` on, with the key that it names.
    pub fn next_open(&self, pid: u32, least: usize) -> Option<(usize, usize)>
        ensures { result ≡ next_open (rows_of self.now.tables pid) least }
    {
        self.table(pid)?.next_open(least)
    }

    /// The table of descriptors of a process, for a caller that looks several up.
    #[inline(always)]
    pub fn table(&self, pid: u32) -> Option<&Table<A>>
        ensures { option_map (λ table. table.names) (option_copied result) ≡ table_of self.now.tables pid }
    {
        self.tables.get(pid)
    }

    /// The key that a descriptor of a process names, if it is open (POSIX.1-2017, File Descriptor). Where there is none, a
    /// call on the descriptor is `EBADF`.
    #[inline(always)]
    pub fn find(&self, pid: u32, fd: i32) -> Option<usize>
        ensures { result ≡ row_of self.now.tables pid fd }
    {
        self.table(pid)?.find(fd)
    }

    /// The least free descriptor of a process, from `least` on, within the limit (POSIX.1-2017, File Descriptor Allocation; getrlimit,
    /// RLIMIT_NOFILE). Where there is none, a call that opens one is `EMFILE`.
    #[inline(always)]
    pub fn lowest(&self, pid: u32, least: usize) -> Option<usize>
        requires { IsTrue (is_pid self.now.tables pid) }
        ensures { result ≡ lowest_of self.now.tables self.now.limits.descriptors pid least }
    {
        self.tables.get(pid)?.lowest(least)
    }

    /// Makes a row for a descriptor of a process, which is within the limit, so that opening it takes no memory. Nothing else changes.
    ///
    /// # Errors
    ///
    /// `NoMemory` where there is neither a row nor memory for it.
    #[inline(always)]
    pub fn reserve_row(&mut self, pid: u32, fd: usize) -> Result<(), NoMemory>
        requires process { IsTrue (is_pid self.old.tables pid) }
        requires place { fd < self.old.limits.descriptors }
        ensures row { OnOk result (fd < rows_at self.new.room.rows pid) }
        ensures grows { IsNoLess self.old.room self.new.room 0 }
        ensures kept { self.new ≡ record self.old { room = self.new.room } }
        ensures succeeds { fd < rows_at self.old.room.rows pid → IsOk result }
    {
        self.tables.reserve_row(pid, fd)
    }

    /// Makes room for `count` more descriptions on a node, and a row for a descriptor of a process, which is within the limit, so that opening them
    /// there takes no memory. Nothing else changes.
    ///
    /// # Errors
    ///
    /// `NoMemory` where there is neither room nor memory for it.
    pub fn reserve_at(
        &mut self,
        pid: u32,
        fd: usize,
        node: Node,
        count: usize,
    ) -> Result<(), NoMemory>
        requires process { IsTrue (is_pid self.old.tables pid) }
        requires place { fd < self.old.limits.descriptors }
        ensures room { OnOk result (HasRoom self.new.room node count) }
        ensures row { OnOk result (fd < rows_at self.new.room.rows pid) }
        ensures kept { self.new ≡ record self.old { room = self.new.room } }
    {
        self.reserve_row(pid, fd)?;
        self.reserve(node, count)
    }

    /// Gives back rows of a process after it closed a descriptor, where most of them aren't in use any more. Nothing else changes. It takes no
    /// memory.
    #[inline(always)]
    pub fn trim_rows(&mut self, pid: u32)
        requires { IsTrue (is_pid self.old.tables pid) }
        ensures { self.new ≡ record self.old { room = self.new.room } }
    {
        self.tables.trim_rows(pid);
    }

    /// Lets a free descriptor of a process, which has a row, name a description, by a loose hold that the caller gives up. It takes no
    /// memory.
    #[inline(always)]
    pub fn install(&mut self, pid: u32, fd: usize, key: usize)
        requires process { IsTrue (is_pid self.old.tables pid) }
        requires place { fd < self.old.limits.descriptors }
        requires row { fd < rows_at self.old.room.rows pid }
        requires free { row_at self.old.tables pid fd ≡ None }
        requires held { 0 < count_at self.old.loose key }
        ensures rows { row_at self.new.tables ≡ with_row (row_at self.old.tables) pid fd (Some key) }
        ensures pids { is_pid self.new.tables ≡ is_pid self.old.tables }
        ensures loose { count_at self.new.loose ≡ change_count key one_less (count_at self.old.loose) }
        ensures holders { holders self.new ≡ holders self.old }
        ensures rest { self.new ≡ record self.old { tables = self.new.tables; loose = self.new.loose } }
        ensures tidy { IsTidy self.new }
    {
        // A key has a slot, so it isn't the number that stands at a free place.
        let capacity = self.descriptions.capacity();
        prove!(key < capacity);
        self.tables.put(pid, fd, key);
    }

    /// Closes a descriptor of a process (POSIX.1-2017, close), and answers the key that it named, of which the caller has a
    /// loose hold. `None` is `EBADF`, and changes nothing. It takes no memory.
    #[inline(always)]
    pub fn remove(&mut self, pid: u32, fd: i32) -> Option<usize>
        ensures key { result ≡ row_of self.old.tables pid fd }
        ensures rows { OnSome result (row_at self.new.tables ≡ without_row (row_at self.old.tables) pid fd) }
        ensures pids { is_pid self.new.tables ≡ is_pid self.old.tables }
        ensures loose { count_at self.new.loose ≡ more_if result (count_at self.old.loose) }
        ensures holders { holders self.new ≡ holders self.old }
        ensures rest { self.new ≡ record self.old { tables = self.new.tables; loose = self.new.loose } }
        ensures tidy { OnSome result (IsTidy self.new) }
        ensures none { IfNone result (self.new ≡ self.old) }
    {
        let key = self.find(pid, fd)?;
        self.tables.clear(pid, fd as usize);
        Some(key)
    }

    /// Lets an open descriptor of a process name another description, by a loose hold that the caller gives up (POSIX.1-2017, dup2), and answers
    /// the key that it named, of which the caller has a loose hold. It takes no memory.
    pub fn replace(&mut self, pid: u32, fd: usize, key: usize) -> usize
        requires process { IsTrue (is_pid self.old.tables pid) }
        requires place { fd < self.old.limits.descriptors }
        requires open { IsSome (row_at self.old.tables pid fd) }
        requires held { 0 < count_at self.old.loose key }
        ensures key { row_at self.old.tables pid fd ≡ Some result }
        ensures rows { row_at self.new.tables ≡ with_row (row_at self.old.tables) pid fd (Some key) }
        ensures pids { is_pid self.new.tables ≡ is_pid self.old.tables }
        ensures loose { count_at self.new.loose ≡ change_count result one_more (change_count key one_less (count_at self.old.loose)) }
        ensures holders { holders self.new ≡ holders self.old }
        ensures rest { self.new ≡ record self.old { tables = self.new.tables; loose = self.new.loose } }
        ensures tidy { IsTidy self.new }
    {
        // A key has a slot, so it isn't the number that stands in the row of a free descriptor.
        let capacity = self.descriptions.capacity();
        prove!(key < capacity);
        self.tables.replace(pid, fd, key)
    }

    /// Makes room for `count` more descriptions on a node, so that opening them takes no memory. Nothing else changes.
    pub fn reserve(&mut self, node: Node, count: usize) -> Result<(), NoMemory>
        ensures room { OnOk result (HasRoom self.new.room node count) }
        ensures grows { IsNoLess self.old.room self.new.room 0 }
        ensures kept { self.new ≡ record self.old { room = self.new.room } }
        ensures succeeds { HasRoom self.old.room node count → IsOk result }
    {
        // No more descriptions are there than fit, so that room for none more needs no memory.
        let capacity = self.descriptions.capacity();
        let live = self.descriptions.len();
        prove!(live <= capacity);
        self.counts.reserve(node)?;
        self.descriptions.reserve(count)?;
        Ok(())
    }

    /// Opens a description on a node (POSIX.1-2017, open), at offset 0, where there is room for it and fewer than there may be, and answers its
    /// key, of which the caller has a loose hold. It takes no memory.
    #[inline(always)]
    pub fn open_reserved(&mut self, node: Node, mode: Mode, flags: OpenFlags) -> usize
        requires room { HasRoom self.old.room node 1 }
        requires few { live_count self.old.opened < self.old.limits.descriptions }
        ensures vacant { at self.old.opened result ≡ None }
        ensures opened { at self.new.opened ≡ set_at nat_eq (at self.old.opened) result (Some (fresh node mode flags)) }
        ensures loose { count_at self.new.loose ≡ change_count result one_more (count_at self.old.loose) }
        ensures live { live_count self.new.opened ≡ live_count self.old.opened + 1 }
        ensures rest { self.new ≡ record self.old { opened = self.new.opened; loose = self.new.loose; room = self.new.room } }
        ensures room { IsNoLess self.old.room self.new.room 1 }
        ensures tidy { IsTidy self.new }
    {
        let key = self.descriptions.insert_reserved(Description {
            node,
            mode,
            flags,
            offset: 0,
            holders: 1,
        });
        self.counts.add(node, mode);
        key
    }

    /// Adds a loose hold of a description, which has fewer than 2^100 of them. It takes no memory.
    pub fn hold(&mut self, key: usize)
        requires here { IsSome (at self.old.opened key) }
        requires few { count_at self.old.loose key < 2 ^ 100 }
        ensures loose { count_at self.new.loose ≡ change_count key one_more (count_at self.old.loose) }
        ensures rest { self.new ≡ record self.old { loose = self.new.loose } }
        ensures tidy { IsTidy self.new }
    {
        let held = &mut self.descriptions[key];
        held.holders += 1;
    }

    /// Gives up a loose hold of a description, which is gone where that was its last holder (POSIX.1-2017, close). It takes
    /// no memory.
    pub fn release(&mut self, key: usize) -> Released
        requires { 0 < count_at self.old.loose key }
        ensures value { option_map (released (last_hold self.old key) self.new.opened) (at self.old.opened key) ≡ Some result }
        ensures opened { at self.new.opened ≡ (if last_hold self.old key then set_at nat_eq (at self.old.opened) key None else at self.old.opened) }
        ensures loose { count_at self.new.loose ≡ change_count key one_less (count_at self.old.loose) }
        ensures live { live_count self.new.opened + (if last_hold self.old key then 1 else 0) ≡ live_count self.old.opened }
        ensures rest { self.new ≡ record self.old { opened = self.new.opened; loose = self.new.loose; room = self.new.room } }
        ensures room { IsNoLess self.old.room self.new.room 0 }
        ensures tidy { IsTidy self.new }
    {
        let description = self.descriptions[key];
        if 1 < description.holders {
            let held = &mut self.descriptions[key];
            held.holders -= 1;
            return Released::Still;
        }
        let _gone = self.descriptions.try_remove(key);
        self.counts.remove(description.node, description.mode);
        let left = self.counts.at(description.node);
        Released::Gone {
            node: description.node,
            mode: description.mode,
            readers: left.readers,
            writers: left.writers,
        }
    }

    /// How many descriptions are open.
    pub fn live(&self) -> usize
        ensures value { result ≡ live_count self.now.opened }
        ensures tidy { IsTidy self.now }
    {
        self.descriptions.len()
    }

    /// How many descriptions on a node are open for reading.
    pub fn readers(&self, node: Node) -> usize
        ensures { result ≡ ends_on reads self.now.opened node }
    {
        self.counts.at(node).readers
    }

    /// How many descriptions on a node are open for writing.
    pub fn writers(&self, node: Node) -> usize
        ensures { result ≡ ends_on writes self.now.opened node }
    {
        self.counts.at(node).writers
    }

    // A table whose descriptors name the same keys as those of a process.
    fn copied(&self, pid: u32) -> Result<Table<A>, NoMemory>
        requires { IsTrue (is_pid self.now.tables pid) }
        ensures { IfOk result (λ table. table.names ≡ rows_of self.now.tables pid) }
    {
        let Some(table) = self.table(pid) else {
            unreachable!()
        };
        table.copy(self.alloc)
    }
}
