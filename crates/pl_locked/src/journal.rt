//! The journal of a layer.
ghost use Rattle.std.specs.Prelude.{◌≡◌, ◌≢◌, ◌≤◌, ◌↔◌, [], ◌++◌, length, IfSome, IfNone, slice_get, option_copied, string_bytes, IfOk, OnOk, OnErr, IsTrue};
ghost use Rattle.std.specs.List.{list_all};
ghost use Rattle.pl_model.specs.Numbers.{most_file_bytes};
ghost use Rattle.pl_model.specs.History.{IsLegal};
ghost use Rattle.pl_model.specs.Said.{is_sayable};
ghost use Rattle.pl_recording.specs.Record.{made_in, recorded};
ghost use Rattle.pl_locked.specs.Journals.{Replays};

use crate::numbering::are_numbered;
use crate::same::is_same;
use pl_kernel::{Kernel, NoMemory};
use pl_lines::is_sayable;
use pl_model::{Entry, Limits};
use pl_recording::push_record;
use std::alloc::{AllocError, Allocator, Global};
use std::marker::Model;

/// Steps of a layer, in the order in which they were made, each with its caller and its reply. Contracts see it as the list of its
/// entries.
#[derive(Drop, Debug)]
pub struct Journal<A: Allocator = Global> {
    entries: Vec<Entry<A>, A>,
}

impl<A: Allocator> Model for Journal<A> {
    ghost use Rattle.std.specs.Prelude.{List};
    ghost use Rattle.pl_model.specs.declared.history.Entry.{Entry};

    ghost Value = { List (Entry A) };

    ghost view = { λ j. j.entries.items };
}

/// Entries of a layer's journal that were handed out together. The parts in the order of `first`, with the one from `Locked::close` behind
/// them, are the journal.
#[derive(Drop, Debug)]
pub struct JournalPart<A: Allocator = Global> {
    /// How many entries stand before these: so many were handed out earlier.
    pub first: u64,
    pub journal: Journal<A>,
}

impl<A: Allocator> JournalPart<A> {
    /// The whole journal, if nothing was handed out before.
    pub fn into_whole(self) -> Option<Journal<A>>
        ensures some { IfSome result (λ journal. (self.first ≡ 0) × (journal ≡ self.journal)) }
        ensures none { IfNone result (self.first ≢ 0) }
    {
        if self.first == 0 {
            Some(self.journal)
        } else {
            None
        }
    }
}

impl<A: Allocator> Journal<A> {
    /// The journal of these entries, whose memory it keeps. They may be any: whether they are what happened `replay` tells. It takes
    /// no memory.
    pub fn from_vec(entries: Vec<Entry<A>, A>) -> Journal<A>
        ensures { result ≡ entries.items }
    {
        Journal { entries }
    }

    /// How many entries there are.
    pub fn len(&self) -> usize
        ensures { result ≡ length self.now }
    {
        self.entries.len()
    }

    /// The step of this place, counted from 0.
    pub fn get(&self, place: usize) -> Option<&Entry<A>>
        ensures { option_copied result ≡ slice_get self.now place }
    {
        self.entries.get(place)
    }

    /// Whether a line of a script says each step: it doesn't say one with flags that have no name.
    pub fn is_sayable(&self) -> bool
        ensures { result ≡ list_all (λ e. is_sayable e.step) self.now }
    {
        self.entries.iter().all(|entry| is_sayable(&entry.step))
    }
}

impl<A: Allocator + Copy> Journal<A> {
    /// Moves the entries of another journal behind these, so that the other has none.
    ///
    /// # Errors
    ///
    /// `AllocError` if there is no memory for it. Both are as they were.
    pub fn append(&mut self, other: &mut Journal<A>) -> Result<(), AllocError>
        ensures done { OnOk result ((self.new ≡ self.old ++ other.old) × (other.new ≡ [])) }
        ensures undone { OnErr result ((self.new ≡ self.old) × (other.new ≡ other.old)) }
    {
        self.entries.append(&mut other.entries)
    }

    /// Whether this is what happened on some kernel within these limits: a new one, on which the same steps are made in the same order,
    /// answers just what stands here, and each entry has as its number how many of the same caller stand before it. A part that was
    /// handed out after the first one doesn't begin on a new kernel, so ask it of the whole journal.
    ///
    /// # Errors
    ///
    /// `NoMemory` where there is none for that kernel, for a copy of a step, or to count in.
    pub fn replay(&self, alloc: A, limits: Limits) -> Result<bool, NoMemory>
        requires { limits.file_max ≤ most_file_bytes }
        ensures { IfOk result (λ same. IsTrue same ↔ IsLegal {A = A} limits self.now) }
    {
        let entries = self.entries.as_slice();
        let numbered = are_numbered(alloc, entries)?;
        let replayed = replays(alloc, limits, entries)?;
        Ok(numbered && replayed)
    }

    /// Adds the journal as a script, which asks for each step and has its reply in a comment. It names these limits, within which the kernel
    /// was made. The law `pl_recording::journals` says that the script prints just these replies as it is run, if the journal is what happened
    /// and `is_sayable` holds of it.
    ///
    /// # Errors
    ///
    /// `AllocError` if there is no memory for it. The text is as it was. Only the text takes memory, and so `alloc` gives none.
    pub fn push_script(
        &self,
        alloc: A,
        limits: Limits,
        text: &mut String<A>,
    ) -> Result<(), AllocError>
        ensures done { OnOk result (string_bytes text.new ≡ string_bytes text.old ++ recorded limits (made_in self.now)) }
        ensures undone { OnErr result (string_bytes text.new ≡ string_bytes text.old) }
    {
        push_record(text, limits, &self.entries)
    }
}

// Whether the entries have the replies of a new kernel.
fn replays<A: Allocator + Copy>(
    alloc: A,
    limits: Limits,
    entries: &[Entry<A>],
) -> Result<bool, NoMemory>
    requires { limits.file_max ≤ most_file_bytes }
    ensures { IfOk result (λ same. IsTrue same ↔ Replays {A = A} limits entries.now) }
{
    let mut kernel = Kernel::new(alloc, limits);
    for entry in entries {
        let step = entry.step.copy(alloc)?;
        let reply = kernel.step(step)?;
        if !is_same(&reply, &entry.reply) {
            return Ok(false);
        }
    }
    Ok(true)
}
