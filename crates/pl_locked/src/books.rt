//! The journal of a layer, and the ledgers by which its entries are counted.
ghost use Rattle.std.specs.Prelude.{◌≡◌, ℕ, ◌<◌, ◌≤◌, ◌^◌, [], ◌∷◌, ◌++◌, ◌↔◌, nat_le, length, replicate, IfOk, OnErr, IsErrOf};
ghost use Rattle.pl_model.specs.History.{entry, of, state_of_history};
ghost use Rattle.pl_locked.specs.Views.{Ends, Full, Gains, HasCaller, IsHanded, Shown};
ghost use Rattle.pl_locked.specs.Journals.{Owes, KeepsItsNumber};
ghost use Rattle.pl_locked.specs.Waking.{can_end, is_of_parked};
ghost use Rattle.pl_model.specs.Map.{get};
ghost use Rattle.std.specs.Prelude.{nat_eq, true};
ghost use Rattle.pl_model.specs.declared.calls.Call.TheVariants.{Exit};
ghost use Rattle.pl_kernel.specs.ToldCalls.{AreAlike};

use crate::caller::{Caller, gather};
use crate::fault::StepFault;
use crate::journal::JournalPart;
use crate::recorded::Recorded;
use pl_history::{Handing, Layer, Word};
use pl_kernel::Kernel;
use pl_model::{Reply, Step};
use std::alloc::{Allocator, Global};
use std::marker::Model;
use std::sync::ledger::{Book, Share};

/// A kernel with its journal, and two ledgers: of the entries that callers made, and of those that they were handed. Contracts see the
/// journal, and how many of its entries were handed out.
#[derive(Drop)]
pub(crate) struct Books<N: Layer, A: Allocator = Global> {
    recorded: Recorded<N, A>,
    /// How many steps each caller made, by its number.
    counts: Vec<u64, A>,
    book: Book<N>,
    /// The parts of the ledger that no caller has.
    rest: Share<N>,
    /// The same of the ledger of what was handed out.
    handed: Book<Handing<N>>,
    spare: Share<Handing<N>>,
    /// How many steps are made at most.
    most: u64,
}

impl<N: Layer, A: Allocator> Model for Books<N, A> {
    ghost use Rattle.std.specs.Prelude.{◌≡◌, ◌≤◌, ◌^◌, length};
    ghost use Rattle.pl_locked.specs.Views.{Kept};
    ghost use Rattle.pl_locked.specs.Journals.{Tallies, Owes};

    ghost Value = { Kept A };

    ghost view = { λ d. record { journal = d.recorded.journal; first = d.recorded.first } };

    ghost invariant = { λ d. Tallies N.callers N.max_steps d.recorded.journal d.counts.items × Owes N.callers (length d.recorded.journal) d.book.total d.rest.parts d.rest.amount × (d.most ≡ N.max_steps) × (N.parts ≡ 64) × (N.max_steps ≤ 2 ^ 62) × Owes N.callers d.recorded.first d.handed.total d.spare.parts d.spare.amount };
}

impl<N: Layer, A: Allocator + Copy> Books<N, A> {
    /// The books of a new layer: no step was made.
    pub(crate) fn new(
        recorded: Recorded<N, A>,
        counts: Vec<u64, A>,
        book: Book<N>,
        rest: Share<N>,
        handed: Book<Handing<N>>,
        spare: Share<Handing<N>>,
        most: u64,
    ) -> Books<N, A>
        requires recorded { recorded ≡ record { journal = []; first = 0 } }
        requires counts { counts.items ≡ replicate N.callers 0 }
        requires shares { Owes N.callers 0 book.total rest.parts rest.amount }
        requires spare { Owes N.callers 0 handed.total spare.parts spare.amount }
        requires most { (most ≡ N.max_steps) × (N.parts ≡ 64) × (most ≤ 2 ^ 62) }
        ensures { result ≡ record { journal = []; first = 0 } }
    {
        Books {
            recorded,
            counts,
            book,
            rest,
            handed,
            spare,
            most,
        }
    }

    /// How many steps were made.
    pub(crate) fn len(&self) -> u64
        ensures { result ≡ length self.now.journal }
    {
        self.recorded.len()
    }

    // Whether there are as many steps as are made at most.
    fn is_full(&self) -> bool
        ensures { result ≡ nat_le N.max_steps (length self.now.journal) }
    {
        self.most <= self.recorded.len()
    }

    /// Whether the parked call of a number can end: it can get on, or no more step is made.
    pub(crate) fn can_end(&self, call: u64) -> bool
        ensures { result ≡ can_end {A = A} N.limits N.max_steps self.now.journal call }
    {
        self.is_full() || self.recorded.can_progress(call)
    }

    /// Whether the parked calls of two numbers are reads of the same description. `false` promises nothing.
    pub(crate) fn are_alike(&self, call: u64, other: u64) -> bool
        ensures { result ≡ true → AreAlike (state_of_history {A = A} N.limits self.now.journal).core call other }
    {
        self.recorded.are_alike(call, other)
    }

    /// Whether the parked call of a number is of a process, which would end it.
    pub(crate) fn is_of_process(&self, call: u64, pid: u32) -> bool
        ensures { result ≡ is_of_parked (state_of_history {A = A} N.limits self.now.journal) (Step.Begin pid Exit) call (get nat_eq (state_of_history {A = A} N.limits self.now.journal).core.parked call) }
    {
        self.recorded.is_of_process(call, pid)
    }

    /// Lets a caller see the whole journal.
    fn show(&mut self, word: &Word<N, A>, me: &mut Caller<N, A>)
        ensures same { self.new ≡ self.old }
        ensures seen { me.new ≡ record me.old { seen = self.old.journal } }
        ensures shown { Shown N.limits N.max_steps me.old me.new }
    {
        self.recorded.show(word, &mut me.eye);
    }

    /// Makes one step of a caller, who has then seen the whole journal. The journal is tried for room first, and all memory is taken
    /// before anything changes.
    #[inline(always)]
    pub(crate) fn step(
        &mut self,
        word: &Word<N, A>,
        me: &mut Caller<N, A>,
        step: Step<A>,
    ) -> Result<Reply<A>, StepFault>
        ensures journal { IfOk result (λ reply. self.new.journal ≡ self.old.journal ++ entry me.old.number (length (of me.old.number self.old.journal)) step reply ∷ []) }
        ensures made { IfOk result (λ reply. Gains N.limits N.max_steps me.old me.new step reply) }
        ensures full { IsErrOf result StepFault.JournalFull ↔ (length self.old.journal ≡ N.max_steps) }
        ensures shown { IfOk result (λ reply. me.new.seen ≡ self.new.journal) }
        ensures seen { IsErrOf result StepFault.JournalFull → Full N.max_steps me.new }
        ensures wanted { IsErrOf result StepFault.NoMemory → ¬ Full N.max_steps me.new }
        ensures unmade { OnErr result ((self.new ≡ self.old) × Shown N.limits N.max_steps me.old me.new) }
        ensures number { IfOk result (KeepsItsNumber step) }
        ensures first { self.new.first ≡ self.old.first }
        ensures glances { me.new.glances ≡ me.old.glances }
    {
        self.show(word, me);
        if self.recorded.len() >= self.most {
            return Err(StepFault::JournalFull);
        }
        let place = me.number as usize;
        let number = self.counts[place];
        let reply = self
            .recorded
            .step(word, &mut me.made, &mut me.eye, me.number, number, step)?;
        self.book.add(&mut me.share, 1);
        self.counts[place] = number + 1;
        Ok(reply)
    }

    /// Hands out the entries that weren't handed out yet, to a caller who has then seen the whole journal. It takes no memory.
    pub(crate) fn hand_out(&mut self, word: &Word<N, A>, me: &mut Caller<N, A>) -> JournalPart<A>
        ensures first { result.first ≡ self.old.first }
        ensures kept { self.new ≡ record self.old { first = length self.old.journal } }
        ensures seen { me.new.seen ≡ self.old.journal }
        ensures handed { IsHanded N.limits N.max_steps me.old me.new result.first result.journal }
    {
        self.show(word, me);
        self.handed.audit(&mut me.handed);
        let part = self.recorded.hand_out();
        self.handed.add(&mut me.handed, part.journal.len() as u64);
        part
    }

    /// What wasn't handed out of the journal, and the kernel, where all callers are here. It takes no memory.
    pub(crate) fn finish(
        self,
        word: &Word<N, A>,
        callers: Vec<Caller<N, A>, A>,
    ) -> (JournalPart<A>, Kernel<A>)
        requires { (k : ℕ) → k < N.callers → HasCaller callers.items k }
        ensures first { result.0.first ≡ self.first }
        ensures ends { Ends N.limits callers.items result.0.first result.0.journal result.1 }
    {
        let Books {
            mut recorded,
            counts: _,
            mut book,
            rest,
            mut handed,
            spare,
            most: _,
        } = self;
        let mut all = rest;
        let mut out = spare;
        gather(callers, &mut all, &mut out, word, &mut recorded);
        book.audit(&mut all);
        handed.audit(&mut out);
        recorded.into_parts()
    }
}
