//! The tables of the processes.
ghost use Rattle.std.specs.Prelude.{◌≡◌, ℕ, ◌+◌, ◌-◌, ◌<◌, ◌≤◌, length, nat_lt, if◌then◌else◌, [], IsOk, OnOk, OnErr, IfSome, IsSome, IsTrue, Some, None, false, slice_set, option_map};
ghost use Rattle.std.specs.Option.{option_copied};
ghost use Rattle.pl_model.specs.Numbers.{most_processes};
ghost use Rattle.pl_desc.specs.Rows.{at, row_at, no_key, is_pid, rows_of, rows_at, table_of, with_table, naming, free_pid};

use crate::table::Table;
use pl_masks::Masks;
use pl_model::NoMemory;
use std::alloc::Allocator;
use std::marker::Model;

/// The tables of the processes 1, 2 and so on, with none where there is no such process, and which places have none. Contracts see the list
/// of the tables.
#[derive(Drop)]
pub(crate) struct ProcessTables<A: Allocator> {
    list: Vec<Option<Table<A>>, A>,
    vacant: Masks<A>,
}

impl<A: Allocator> Model for ProcessTables<A> {
    ghost use Rattle.pl_desc.specs.TablesView.{Processes};

    ghost Value = { Processes };

    ghost use Rattle.pl_desc.specs.TablesView.{view_of};
    ghost use Rattle.pl_desc.specs.Vacant.{AreVacant};

    ghost view = { view_of };

    ghost invariant = { λ t. AreVacant t.list.items t.vacant };
}

impl<A: Allocator + Copy> ProcessTables<A> {
    /// No processes. It takes no memory.
    pub(crate) fn new(alloc: A) -> Self
        ensures { result ≡ record { tables = []; rows = [] } }
    {
        ProcessTables {
            list: Vec::new(alloc),
            vacant: Masks::new(alloc),
        }
    }
}

impl<A: Allocator> ProcessTables<A> {
    /// The table of a process.
    #[inline(always)]
    pub(crate) fn get(&self, pid: u32) -> Option<&Table<A>>
        ensures { option_map (λ table. table.names) (option_copied result) ≡ table_of self.now.tables pid }
    {
        table_in(&self.list, pid)
    }

    /// The least free pid, where there may be so many processes (at most 65,536). Where there is one, its table has a place, or the next one.
    pub(crate) fn free_pid(&self, most: usize) -> Option<u32>
        requires { most ≤ most_processes }
        ensures value { result ≡ free_pid self.now.tables most }
        ensures next { IfSome result (λ pid. (0 < pid) × (pid ≤ length self.now.tables + 1)) }
    {
        let place = self.vacant.next(0).unwrap_or(self.list.len());
        if place < most {
            Some(place as u32 + 1)
        } else {
            None
        }
    }

    /// Makes a place for the table of a process, which may be the next one past the last.
    pub(crate) fn reserve(&mut self, pid: u32) -> Result<(), NoMemory>
        requires low { 0 < pid }
        requires next { pid ≤ length self.old.tables + 1 }
        requires few { pid ≤ most_processes }
        ensures place { OnOk result (pid ≤ length self.new.tables) }
        ensures pids { length self.new.tables ≤ length self.old.tables + 1 }
        ensures high { pid ≤ length self.old.tables → length self.new.tables ≡ length self.old.tables }
        ensures tables { table_of self.new.tables ≡ table_of self.old.tables }
        ensures names { naming self.new.tables ≡ naming self.old.tables }
        ensures rows { (q : ℕ) → rows_at self.old.rows q ≤ rows_at self.new.rows q }
        ensures unchanged { OnErr result (self.new ≡ self.old) }
    {
        let place = self.list.len();
        if pid as usize <= place {
            return Ok(());
        }
        self.vacant.reserve(place + 1)?;
        if self.list.try_reserve(1).is_err() {
            return Err(NoMemory);
        }
        self.list.push_reserved(None);
        self.vacant.insert(place);
        Ok(())
    }

    /// A process of a pid that has a place starts with a table. It takes no memory.
    pub(crate) fn add(&mut self, pid: u32, table: Table<A>)
        requires low { 0 < pid }
        requires place { pid ≤ length self.old.tables }
        requires free { is_pid self.old.tables pid ≡ false }
        ensures tables { self.new.tables ≡ with_table self.old.tables pid (Some table.names) }
        ensures rows { (q : ℕ) → rows_at self.old.rows q ≤ rows_at self.new.rows q }
    {
        let place = pid as usize - 1;
        self.list[place] = Some(table);
        self.vacant.remove(place);
    }

    /// A process ends. It takes no memory.
    pub(crate) fn remove(&mut self, pid: u32)
        requires { IsTrue (is_pid self.old.tables pid) }
        ensures { self.new.tables ≡ with_table self.old.tables pid None }
    {
        let place = pid as usize - 1;
        self.list[place] = None;
        self.vacant.insert(place);
    }

    /// Gives back the places past that of the last process. It takes no memory.
    pub(crate) fn trim(&mut self)
        ensures fewer { length self.new.tables ≤ length self.old.tables }
        ensures tables { table_of self.new.tables ≡ table_of self.old.tables }
        ensures names { naming self.new.tables ≡ naming self.old.tables }
    {
        let mut kept = self.list.len();
        while 0 < kept && self.list[kept - 1].is_none() {
            kept -= 1;
            self.list.truncate(kept);
            self.vacant.remove(kept);
        }
        if kept < self.list.capacity() / 4 {
            self.list.shrink_to_fit();
            self.vacant.shrink(kept);
        }
    }

    /// Makes a row for a descriptor of a process, where there is none.
    ///
    /// # Errors
    ///
    /// `NoMemory` where there is neither a row nor memory for it.
    #[inline(always)]
    pub(crate) fn reserve_row(&mut self, pid: u32, fd: usize) -> Result<(), NoMemory>
        requires process { IsTrue (is_pid self.old.tables pid) }
        requires place { fd < length (rows_of self.old.tables pid) }
        ensures row { OnOk result (fd < rows_at self.new.rows pid) }
        ensures more { (q : ℕ) → rows_at self.old.rows q ≤ rows_at self.new.rows q }
        ensures tables { self.new.tables ≡ self.old.tables }
        ensures frugal { fd < rows_at self.old.rows pid → IsOk result }
    {
        let place = &mut self.list[pid as usize - 1];
        match place {
            Some(table) => table.reserve(fd),
            None => Ok(()),
        }
    }

    /// Gives back rows of a process after it closed a descriptor, where most of them aren't in use any more. It takes no memory.
    pub(crate) fn trim_rows(&mut self, pid: u32)
        requires { IsTrue (is_pid self.old.tables pid) }
        ensures { self.new.tables ≡ self.old.tables }
    {
        let place = &mut self.list[pid as usize - 1];
        if let Some(table) = place {
            table.trim();
        }
    }

    /// Lets a free descriptor of a process, which has a row, name a key.
    #[inline(always)]
    pub(crate) fn put(&mut self, pid: u32, fd: usize, key: usize)
        requires process { IsTrue (is_pid self.old.tables pid) }
        requires row { fd < rows_at self.old.rows pid }
        requires free { row_at self.old.tables pid fd ≡ None }
        requires key { key < no_key }
        ensures { self.new ≡ record self.old { tables = with_table self.old.tables pid (Some (slice_set (rows_of self.old.tables pid) fd (Some key))) } }
    {
        let place = &mut self.list[pid as usize - 1];
        if let Some(table) = place {
            table.put(fd, key);
        }
    }

    /// Lets an open descriptor of a process name another key, and answers the one that it named.
    pub(crate) fn replace(&mut self, pid: u32, fd: usize, key: usize) -> usize
        requires process { IsTrue (is_pid self.old.tables pid) }
        requires open { IsSome (row_at self.old.tables pid fd) }
        requires key { key < no_key }
        ensures named { row_at self.old.tables pid fd ≡ Some result }
        ensures tables { self.new ≡ record self.old { tables = with_table self.old.tables pid (Some (slice_set (rows_of self.old.tables pid) fd (Some key))) } }
    {
        let place = &mut self.list[pid as usize - 1];
        let Some(table) = place else { unreachable!() };
        table.replace(fd, key)
    }

    /// Lets an open descriptor of a process name nothing.
    #[inline(always)]
    pub(crate) fn clear(&mut self, pid: u32, fd: usize)
        requires process { IsTrue (is_pid self.old.tables pid) }
        requires open { IsSome (row_at self.old.tables pid fd) }
        ensures { self.new ≡ record self.old { tables = with_table self.old.tables pid (Some (slice_set (rows_of self.old.tables pid) fd None)) } }
    {
        let place = &mut self.list[pid as usize - 1];
        if let Some(table) = place {
            table.clear(fd);
        }
    }
}

// The table of a process, of the list of them.
#[inline(always)]
fn table_in<A: Allocator>(list: &[Option<Table<A>>], pid: u32) -> Option<&Table<A>>
    ensures { option_copied result ≡ (if nat_lt 0 pid then at list.now (pid - 1) else None) }
{
    // That of pid 0 has no place, as there are fewer.
    list.get((pid as usize).wrapping_sub(1))?.as_ref()
}
