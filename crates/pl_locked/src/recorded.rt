//! A kernel whose every step is kept.
ghost use Rattle.std.specs.Prelude.{◌≡◌, ◌<◌, ◌≤◌, ◌^◌, [], ◌∷◌, ◌++◌, length, true, false, nat_eq, IfOk, OnErr};
ghost use Rattle.pl_locked.specs.Views.{IsRest};
ghost use mathlib.Core.List.{IsPrefix};
ghost use Rattle.pl_model.specs.Numbers.{most_file_bytes};
ghost use Rattle.pl_model.specs.History.{entry, of, IsLegal, state_of_history};
ghost use Rattle.pl_state.specs.Makes.{Stands};
ghost use Rattle.pl_model.specs.declared.calls.Call.TheVariants.{Exit};
ghost use Rattle.pl_model.specs.Map.{get};
ghost use Rattle.pl_model.specs.Waking.{can_progress};
ghost use Rattle.pl_kernel.specs.ToldCalls.{AreAlike};
ghost use Rattle.pl_locked.specs.Waking.{is_of_parked};
ghost use Rattle.pl_locked.specs.Journals.{KeepsItsNumber};

use crate::journal::{Journal, JournalPart};
use crate::log::Log;
use crate::made::make;
use pl_history::{Eye, Layer, Word};
use pl_kernel::{Kernel, NoMemory};
use pl_model::{Entry, Limits, Reply, Step};
use std::alloc::{Allocator, Global};
use std::marker::Model;
use std::mem;

/// A kernel, and the journal of all steps that were made on it. Contracts see all entries, and how many of them were handed out: they
/// are legal, the kernel stands for the state that they lead to, and the recorder of the history word has seen just them.
#[derive(Drop)]
pub(crate) struct Recorded<N: Layer, A: Allocator = Global> {
    alloc: A,
    kernel: Kernel<A>,
    /// How many entries were handed out.
    first: u64,
    /// The entries behind them.
    rest: Vec<Entry<A>, A>,
    recorder: Eye<N, A>,
}

impl<N: Layer, A: Allocator> Model for Recorded<N, A> {
    ghost use Rattle.std.specs.Prelude.{◌≡◌, ◌≤◌, ◌^◌, length, true};
    ghost use Rattle.pl_model.specs.History.{IsLegal, state_of_history};
    ghost use Rattle.pl_state.specs.Makes.{Stands};
    ghost use Rattle.pl_locked.specs.Views.{Kept, IsRest};

    ghost Value = { Kept A };

    ghost view = { λ r. record { journal = r.recorder.seen; first = r.first } };

    ghost invariant = { λ r. IsLegal N.limits r.recorder.seen × Stands r.kernel (state_of_history N.limits r.recorder.seen) × (r.recorder.recorder ≡ true) × IsRest r.first r.recorder.seen r.rest.items × (length r.recorder.seen ≤ 2 ^ 62) };
}

impl<N: Layer, A: Allocator + Copy> Recorded<N, A> {
    /// A new kernel within the limits, on which no step was made. It takes no memory.
    pub(crate) fn new(alloc: A, limits: Limits, recorder: Eye<N, A>) -> Recorded<N, A>
        requires limits { limits ≡ N.limits }
        requires file_max { limits.file_max ≤ most_file_bytes }
        requires recorder { (recorder.recorder ≡ true) × (recorder.seen ≡ []) }
        ensures { result ≡ record { journal = []; first = 0 } }
    {
        Recorded {
            alloc,
            kernel: Kernel::new(alloc, limits),
            first: 0,
            rest: Vec::new(alloc),
            recorder,
        }
    }

    /// How many steps were made.
    pub(crate) fn len(&self) -> u64
        ensures { result ≡ length self.now.journal }
    {
        self.first + self.rest.len() as u64
    }

    /// Lets an eye see the whole journal, which begins with what it had seen.
    pub(crate) fn show(&mut self, word: &Word<N, A>, eye: &mut Eye<N, A>)
        requires { eye.old.recorder ≡ false }
        ensures same { self.new ≡ self.old }
        ensures recorder { eye.new.recorder ≡ false }
        ensures seen { eye.new.seen ≡ self.old.journal }
        ensures earlier { IsPrefix eye.old.seen self.old.journal }
        ensures legal { IsLegal N.limits self.old.journal }
    {
        word.meet(&mut self.recorder, eye);
        word.follow(eye, &mut self.recorder);
    }

    /// Shows that the journal begins with what an eye has seen, which ends.
    pub(crate) fn take_in(&mut self, word: &Word<N, A>, eye: Eye<N, A>)
        ensures same { self.new ≡ self.old }
        ensures earlier { IsPrefix eye.seen self.old.journal }
    {
        word.take_in(&mut self.recorder, eye);
    }

    /// Makes a step of a caller, who made as many before it as `number` says, and notes it in what the caller made and has seen too.
    #[inline(always)]
    pub(crate) fn step(
        &mut self,
        word: &Word<N, A>,
        made: &mut Log<A>,
        eye: &mut Eye<N, A>,
        caller: u32,
        number: u64,
        step: Step<A>,
    ) -> Result<Reply<A>, NoMemory>
        requires number { number ≡ length (of caller self.old.journal) }
        requires few { length self.old.journal < 2 ^ 62 }
        requires eye { eye.old.recorder ≡ false }
        ensures kept { IfOk result (λ reply. self.new.journal ≡ self.old.journal ++ entry caller number step reply ∷ []) }
        ensures first { IfOk result (λ reply. self.new.first ≡ self.old.first) }
        ensures made { IfOk result (λ reply. made.new ≡ made.old ++ entry caller number step reply ∷ []) }
        ensures seen { IfOk result (λ reply. eye.new.seen ≡ self.new.journal) }
        ensures eye { IfOk result (λ reply. eye.new.recorder ≡ false) }
        ensures legal { IfOk result (λ reply. IsLegal N.limits self.new.journal) }
        ensures number { IfOk result (KeepsItsNumber step) }
        ensures unmade { OnErr result ((self.new ≡ self.old) × (made.new ≡ made.old) × (eye.new ≡ eye.old)) }
    {
        self.rest.reserve(1)?;
        let (entry, reply) = make(&mut self.kernel, self.alloc, caller, number, step)?;
        let count = self.first + self.rest.len() as u64;
        word.add(&mut self.recorder, count, &entry);
        word.follow(eye, &mut self.recorder);
        made.push(&entry);
        self.rest.push_reserved(entry);
        Ok(reply)
    }

    /// Whether the parked call of a number can get on.
    pub(crate) fn can_progress(&self, call: u64) -> bool
        ensures { result ≡ can_progress (state_of_history {A = A} N.limits self.now.journal).core call }
    {
        self.kernel.can_progress(call)
    }

    /// Whether the parked calls of two numbers are reads of the same description. `false` promises nothing.
    pub(crate) fn are_alike(&self, call: u64, other: u64) -> bool
        ensures { result ≡ true → AreAlike (state_of_history {A = A} N.limits self.now.journal).core call other }
    {
        self.kernel.are_alike(call, other)
    }

    /// Whether the parked call of a number is of a process, which would end it.
    pub(crate) fn is_of_process(&self, call: u64, pid: u32) -> bool
        ensures { result ≡ is_of_parked (state_of_history {A = A} N.limits self.now.journal) (Step.Begin pid Exit) call (get nat_eq (state_of_history {A = A} N.limits self.now.journal).core.parked call) }
    {
        match self.kernel.call_facts(call) {
            Some(facts) => facts.pid == pid,
            None => false,
        }
    }

    /// Hands out the entries that weren't handed out yet. It takes no memory, and keeps none of theirs.
    pub(crate) fn hand_out(&mut self) -> JournalPart<A>
        ensures first { result.first ≡ self.old.first }
        ensures part { IsRest result.first self.old.journal result.journal }
        ensures kept { self.new ≡ record self.old { first = length self.old.journal } }
    {
        let first = self.first;
        self.first = first + self.rest.len() as u64;
        let rest = mem::replace(&mut self.rest, Vec::new(self.alloc));
        JournalPart {
            first,
            journal: Journal::from_vec(rest),
        }
    }

    /// The entries that weren't handed out, and the kernel.
    pub(crate) fn into_parts(self) -> (JournalPart<A>, Kernel<A>)
        ensures first { result.0.first ≡ self.first }
        ensures part { IsRest result.0.first self.journal result.0.journal }
        ensures legal { IsLegal N.limits self.journal }
        ensures kernel { Stands result.1 (state_of_history {A = A} N.limits self.journal) }
    {
        let Recorded {
            alloc: _,
            kernel,
            first,
            rest,
            recorder: _,
        } = self;
        let part = JournalPart {
            first,
            journal: Journal::from_vec(rest),
        };
        (part, kernel)
    }
}
