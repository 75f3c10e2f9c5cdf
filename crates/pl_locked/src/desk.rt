//! What lies under the lock.
ghost use Rattle.std.specs.Prelude.{◌≡◌, ℕ, ◌<◌, [], ◌∷◌, ◌++◌, ◌⊎◌, ◌↔◌, length, true, replicate, IfOk, OnErr, IsErrOf};
ghost use Rattle.pl_model.specs.History.{entry, of};
ghost use Rattle.pl_locked.specs.Views.{Ends, Full, Gains, HasCaller, IsHanded, Shown};
ghost use Rattle.pl_locked.specs.Journals.{KeepsItsNumber};
ghost use Rattle.pl_locked.specs.declared.waiting.Waiting.TheVariants.{Nothing as Idle, Awake as Looking, Asleep as Alone, Together as WithOthers};
ghost use Rattle.pl_locked.specs.Waking.{can_end, Looks, Noted};

use crate::books::Books;
use crate::caller::Caller;
use crate::fault::StepFault;
use crate::journal::JournalPart;
use crate::wait_queue::WaitQueue;
use crate::waiting::{Looked, Waiting};
use pl_history::{Layer, Word};
use pl_kernel::Kernel;
use pl_model::{Reply, Step};
use std::alloc::{Allocator, Global};
use std::marker::Model;

/// What lies under the lock of a layer. Contracts see the journal, how many of its entries were handed out, and for which calls the callers
/// wait. Whenever the lock is free, nobody sleeps in vain (`AreServed`): each function that changes what a call waits for, or who waits,
/// wakes who is to be woken then, and returns that caller's place, which is to be notified.
#[derive(Drop)]
pub(crate) struct Desk<N: Layer, A: Allocator = Global> {
    books: Books<N, A>,
    queue: WaitQueue<A>,
}

impl<N: Layer, A: Allocator> Model for Desk<N, A> {
    ghost use Rattle.std.specs.Prelude.{◌≡◌, length, true};
    ghost use Rattle.pl_locked.specs.Views.{Held};
    ghost use Rattle.pl_model.specs.History.{state_of_history};
    ghost use Rattle.pl_locked.specs.Waking.{can_end, AreServed, SleepAlike};

    ghost Value = { Held A };

    ghost view = { λ d. record { journal = d.books.journal; first = d.books.first; waiting = d.queue.waiting } };

    ghost invariant = { λ d. (length d.queue.waiting ≡ N.callers) × (d.queue.alike ≡ true → SleepAlike (state_of_history N.limits d.books.journal) d.queue.waiting) × AreServed (can_end N.limits N.max_steps d.books.journal) d.queue.waiting };
}

impl<N: Layer, A: Allocator + Copy> Desk<N, A> {
    /// The desk of a new layer: no step was made, and nobody waits.
    pub(crate) fn new(books: Books<N, A>, queue: WaitQueue<A>) -> Desk<N, A>
        requires books { books ≡ record { journal = []; first = 0 } }
        requires queue { queue ≡ record { waiting = replicate N.callers Idle; alike = true } }
        ensures { result ≡ record { journal = []; first = 0; waiting = replicate N.callers Idle } }
    {
        Desk { books, queue }
    }

    /// How many steps were made.
    pub(crate) fn len(&self) -> u64
        ensures { result ≡ length self.now.journal }
    {
        self.books.len()
    }

    /// Makes one step of a caller, who is awake and waits for nothing then, and has seen the whole journal. Also where the step is refused
    /// it wakes who is to be woken: whom an earlier step woke may be the caller that gives up now. The journal is tried for room first, and
    /// all memory is taken before anything changes.
    #[inline(always)]
    pub(crate) fn step(
        &mut self,
        word: &Word<N, A>,
        me: &mut Caller<N, A>,
        step: Step<A>,
    ) -> (Result<Reply<A>, StepFault>, Option<usize>)
        ensures journal { IfOk result.0 (λ reply. self.new.journal ≡ self.old.journal ++ entry me.old.number (length (of me.old.number self.old.journal)) step reply ∷ []) }
        ensures made { IfOk result.0 (λ reply. Gains N.limits N.max_steps me.old me.new step reply) }
        ensures full { IsErrOf result.0 StepFault.JournalFull ↔ (length self.old.journal ≡ N.max_steps) }
        ensures shown { IfOk result.0 (λ reply. me.new.seen ≡ self.new.journal) }
        ensures seen { IsErrOf result.0 StepFault.JournalFull → Full N.max_steps me.new }
        ensures wanted { IsErrOf result.0 StepFault.NoMemory → ¬ Full N.max_steps me.new }
        ensures unmade { OnErr result.0 ((self.new.journal ≡ self.old.journal) × Shown N.limits N.max_steps me.old me.new) }
        ensures number { IfOk result.0 (KeepsItsNumber step) }
        ensures same { (self.new.first ≡ self.old.first) × (me.new.glances ≡ me.old.glances) }
        ensures woken { Noted N.callers (can_end {A = A} N.limits N.max_steps self.new.journal) me.old.number Idle self.old.waiting self.new.waiting result.1 }
    {
        let ends = self.queue.is_of_together(&self.books, &step);
        let made = self.books.step(word, me, step);
        if ends {
            self.queue.part();
        }
        self.queue.leave(me.number());
        let whom = self.queue.wake(&self.books);
        (made, whom)
    }

    /// Whether the call of a caller that looks can end. Where it can't, it is noted that the caller is awake for it.
    pub(crate) fn look(&mut self, caller: u32, call: u64) -> Looked
        requires { caller < N.callers }
        ensures looks { Looks N.callers (can_end {A = A} N.limits N.max_steps self.old.journal) caller call (Looking call) self.old.waiting self.new.waiting result }
        ensures same { (self.new.journal ≡ self.old.journal) × (self.new.first ≡ self.old.first) }
    {
        if self.books.can_end(call) {
            return Looked::Ends;
        }
        if self.queue.note_of(caller).is_awake_for(call) {
            return Looked::Waits(None);
        }
        self.queue.note(caller, Waiting::Awake(call));
        Looked::Waits(self.queue.wake(&self.books))
    }

    /// The same of a caller that sleeps where its call can't end: together with others whose calls get on just where this one does, if it
    /// is known that there are some.
    pub(crate) fn fall_asleep(&mut self, caller: u32, call: u64) -> Looked
        requires { caller < N.callers }
        ensures looks { Looks N.callers (can_end {A = A} N.limits N.max_steps self.old.journal) caller call (Alone call) self.old.waiting self.new.waiting result ⊎ Looks N.callers (can_end {A = A} N.limits N.max_steps self.old.journal) caller call (WithOthers call) self.old.waiting self.new.waiting result }
        ensures same { (self.new.journal ≡ self.old.journal) × (self.new.first ≡ self.old.first) }
    {
        if self.books.can_end(call) {
            return Looked::Ends;
        }
        if self.queue.note_of(caller).sleeps_for(call) {
            return Looked::Waits(None);
        }
        let asleep = if self.queue.joins(&self.books, call) {
            Waiting::Together(call)
        } else {
            Waiting::Asleep(call)
        };
        self.queue.note(caller, asleep);
        Looked::Waits(self.queue.wake(&self.books))
    }

    /// Hands out the entries that weren't handed out yet, to a caller who has then seen the whole journal. It takes no memory.
    pub(crate) fn hand_out(&mut self, word: &Word<N, A>, me: &mut Caller<N, A>) -> JournalPart<A>
        ensures first { result.first ≡ self.old.first }
        ensures kept { self.new ≡ record self.old { first = length self.old.journal } }
        ensures seen { me.new.seen ≡ self.old.journal }
        ensures handed { IsHanded N.limits N.max_steps me.old me.new result.first result.journal }
    {
        self.books.hand_out(word, me)
    }

    /// What wasn't handed out of the journal, and the kernel, where all callers are here. It takes no memory.
    pub(crate) fn finish(
        self,
        word: &Word<N, A>,
        callers: Vec<Caller<N, A>, A>,
    ) -> (JournalPart<A>, Kernel<A>)
        requires { (k : ℕ) → k < N.callers → HasCaller callers.items k }
        ensures first { result.0.first ≡ self.first }
        ensures ends { Ends N.limits callers.items result.0.first result.0.journal result.1 }
    {
        let Desk { books, queue: _ } = self;
        books.finish(word, callers)
    }
}
