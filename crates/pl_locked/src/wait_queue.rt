//! Which callers wait, and whom to wake.
ghost use Rattle.std.specs.Prelude.{◌≡◌, ◌<◌, false, true, get_or, length, replicate, slice_set, IfOk, IfSome};
ghost use Rattle.std.specs.List.{list_any, position};
ghost use Rattle.pl_model.specs.History.{state_of_history};
ghost use Rattle.pl_model.specs.Touching.{is_exit};
ghost use Rattle.pl_locked.specs.declared.waiting.Waiting.TheVariants.{Nothing as Idle};
ghost use Rattle.pl_locked.specs.Waking.{waits, can_end, is_together, is_together_for, first_together, is_helped_awake, is_helped_asleep, is_helped_but, AreStuck, SleepAlike, SleepAlikeWith, is_of_together, to_wake, woken};

use crate::books::Books;
use crate::waiting::Waiting;
use pl_history::Layer;
use pl_kernel::NoMemory;
use pl_model::{Call, Step};
use std::alloc::{Allocator, Global};
use std::marker::Model;

// Whether a call ends its process.
#[inline(always)]
fn is_exit<A: Allocator>(call: &Call<A>) -> bool
    ensures { result ≡ is_exit call.now }
{
    match call {
        Call::Exit => true,
        _ => false,
    }
}

// For which calls so many callers wait at first: for none.
fn no_calls<A: Allocator + Copy>(alloc: A, callers: u32) -> Result<Vec<Waiting, A>, NoMemory>
    ensures { IfOk result (λ calls. calls.items ≡ replicate callers Idle) }
{
    let mut calls = Vec::with_capacity(alloc, callers as usize)?;
    for _ in 0..callers {
        calls.push_reserved(Waiting::Nothing);
    }
    Ok(calls)
}

/// What is noted of the callers that wait. Its functions are given the journal by which the calls are judged.
#[derive(Drop)]
pub(crate) struct WaitQueue<A: Allocator = Global> {
    /// For which call each caller waits, by the caller's number.
    waiting: Vec<Waiting, A>,
    /// Whether no caller waits. It may be `false` for one step longer.
    idle: bool,
    /// Whether all that sleep together wait for reads of one description, of which it is enough to ask one.
    alike: bool,
}

impl<A: Allocator> Model for WaitQueue<A> {
    ghost use Rattle.std.specs.Prelude.{◌≡◌, true, false};
    ghost use Rattle.std.specs.List.{list_any};
    ghost use Rattle.pl_locked.specs.Waking.{Notes, waits};

    ghost Value = { Notes };

    ghost view = { λ s. record { waiting = s.waiting.items; alike = s.alike } };

    ghost invariant = { λ s. s.idle ≡ true → list_any waits s.waiting.items ≡ false };
}

impl<A: Allocator + Copy> WaitQueue<A> {
    /// So many callers, of which none waits.
    ///
    /// # Errors
    ///
    /// `NoMemory` where there is none for their notes.
    pub(crate) fn new(alloc: A, callers: u32) -> Result<WaitQueue<A>, NoMemory>
        ensures { IfOk result (λ queue. queue ≡ record { waiting = replicate callers Idle; alike = true }) }
    {
        let waiting = no_calls(alloc, callers)?;
        Ok(WaitQueue {
            waiting,
            idle: true,
            alike: true,
        })
    }

    /// What is noted of a caller.
    pub(crate) fn note_of(&self, caller: u32) -> Waiting
        requires { caller < length self.now.waiting }
        ensures { result ≡ get_or self.now.waiting caller Idle }
    {
        self.waiting[caller as usize]
    }

    /// Notes that a caller waits for no call.
    pub(crate) fn leave(&mut self, caller: u32)
        requires { caller < length self.old.waiting }
        ensures { self.new ≡ record self.old { waiting = slice_set self.old.waiting caller Idle } }
    {
        self.waiting[caller as usize] = Waiting::Nothing;
    }

    /// Notes for which call a caller waits.
    pub(crate) fn note(&mut self, caller: u32, waiting: Waiting)
        requires { caller < length self.old.waiting }
        ensures { self.new ≡ record self.old { waiting = slice_set self.old.waiting caller waiting } }
    {
        self.idle = false;
        self.waiting[caller as usize] = waiting;
    }

    /// Forgets that those that sleep together are alike.
    pub(crate) fn part(&mut self)
        ensures { self.new ≡ record self.old { alike = false } }
    {
        self.alike = false;
    }

    /// Wakes the first caller that sleeps though its call can end, and returns who that is. It is nobody while the call of a caller that
    /// is awake can end: that one looks itself, and its step wakes the next.
    #[inline(always)]
    pub(crate) fn wake<N: Layer>(&mut self, books: &Books<N, A>) -> Option<usize>
        requires alike { self.old.alike ≡ true → SleepAlike (state_of_history {A = A} N.limits books.now.journal) self.old.waiting }
        ensures whom { result ≡ to_wake (can_end {A = A} N.limits N.max_steps books.now.journal) self.old.waiting }
        ensures woken { self.new ≡ record self.old { waiting = woken result self.old.waiting } }
        ensures within { IfSome result (λ place. place < length self.old.waiting) }
    {
        if self.idle {
            return None;
        }
        self.wake_one(books)
    }

    // The same where some caller may wait. Out of line, since in most steps none does.
    #[inline(never)]
    fn wake_one<N: Layer>(&mut self, books: &Books<N, A>) -> Option<usize>
        requires alike { self.old.alike ≡ true → SleepAlike (state_of_history {A = A} N.limits books.now.journal) self.old.waiting }
        ensures whom { result ≡ to_wake (can_end {A = A} N.limits N.max_steps books.now.journal) self.old.waiting }
        ensures woken { self.new ≡ record self.old { waiting = woken result self.old.waiting } }
        ensures within { IfSome result (λ place. place < length self.old.waiting) }
    {
        match self.whom(books) {
            Some(place) => {
                let waiting = self.waiting[place].awake();
                self.waiting[place] = waiting;
                Some(place)
            }
            None => {
                self.idle = !self.has_waiting();
                None
            }
        }
    }

    // Whom to wake.
    fn whom<N: Layer>(&self, books: &Books<N, A>) -> Option<usize>
        requires alike { self.now.alike ≡ true → SleepAlike (state_of_history {A = A} N.limits books.now.journal) self.now.waiting }
        ensures whom { result ≡ to_wake (can_end {A = A} N.limits N.max_steps books.now.journal) self.now.waiting }
        ensures within { IfSome result (λ place. place < length self.now.waiting) }
    {
        if self.helps_one_awake(books) {
            return None;
        }
        self.first_but(books, self.are_stuck(books))
    }

    // Whether some caller waits.
    fn has_waiting(&self) -> bool
        ensures { result ≡ list_any waits self.now.waiting }
    {
        self.waiting.iter().any(|waiting| waiting.waits())
    }

    // Whether some caller waits awake for a call that can end.
    fn helps_one_awake<N: Layer>(&self, books: &Books<N, A>) -> bool
        ensures { result ≡ list_any (is_helped_awake (can_end {A = A} N.limits N.max_steps books.now.journal)) self.now.waiting }
    {
        self.waiting
            .iter()
            .any(|waiting| is_helped_awake(waiting, books))
    }

    // The first caller that sleeps though its call can end. It may be known that the calls of those who sleep together can't.
    fn first_but<N: Layer>(&self, books: &Books<N, A>, stuck: bool) -> Option<usize>
        ensures first { result ≡ position (is_helped_but (can_end {A = A} N.limits N.max_steps books.now.journal) stuck) self.now.waiting }
        ensures within { IfSome result (λ place. place < length self.now.waiting) }
    {
        self.waiting
            .iter()
            .position(|waiting| is_helped_but(waiting, books, stuck))
    }

    // Whether it is known that none can end of the calls for which callers sleep together.
    fn are_stuck<N: Layer>(&self, books: &Books<N, A>) -> bool
        requires { self.now.alike ≡ true → SleepAlike (state_of_history {A = A} N.limits books.now.journal) self.now.waiting }
        ensures { result ≡ true → AreStuck (can_end {A = A} N.limits N.max_steps books.now.journal) self.now.waiting }
    {
        match self.first_together() {
            Some(call) => self.alike && !books.can_end(call),
            None => false,
        }
    }

    /// Whether a call gets on just where those do for which callers sleep together. If nobody sleeps so, it becomes the first.
    pub(crate) fn joins<N: Layer>(&mut self, books: &Books<N, A>, call: u64) -> bool
        requires { self.old.alike ≡ true → SleepAlike (state_of_history {A = A} N.limits books.now.journal) self.old.waiting }
        ensures joins { result ≡ true → SleepAlikeWith (state_of_history {A = A} N.limits books.now.journal) call self.old.waiting }
        ensures alike { self.new.alike ≡ true → SleepAlike (state_of_history {A = A} N.limits books.now.journal) self.old.waiting }
        ensures same { self.new.waiting ≡ self.old.waiting }
    {
        match self.first_together() {
            Some(other) => self.alike && books.are_alike(other, call),
            None => {
                self.alike = true;
                books.are_alike(call, call)
            }
        }
    }

    // The first caller that sleeps together with others.
    fn place_together(&self) -> Option<usize>
        ensures place { result ≡ position is_together self.now.waiting }
        ensures within { IfSome result (λ place. place < length self.now.waiting) }
    {
        self.waiting
            .iter()
            .position(|waiting| waiting.is_together())
    }

    // Its call.
    fn first_together(&self) -> Option<u64>
        ensures { result ≡ first_together self.now.waiting }
    {
        let place = self.place_together()?;
        self.waiting[place].call_together()
    }

    /// Whether a step is of a call for which a caller sleeps together with others: then these are no more alike.
    #[inline(always)]
    pub(crate) fn is_of_together<N: Layer>(&self, books: &Books<N, A>, step: &Step<A>) -> bool
        ensures { result ≡ false → list_any (is_of_together (state_of_history {A = A} N.limits books.now.journal) step.now) self.now.waiting ≡ false }
    {
        match step {
            Step::Start => false,
            Step::Begin(pid, call) => is_exit(call) && self.sleep_together_of(books, *pid),
            Step::Resume(call) => self.sleep_together_for(*call),
            Step::Interrupt(call) => self.sleep_together_for(*call),
        }
    }

    // Whether a caller sleeps together with others for a call of a process.
    #[inline(never)]
    fn sleep_together_of<N: Layer>(&self, books: &Books<N, A>, pid: u32) -> bool
        ensures { result ≡ list_any (is_of_together (state_of_history {A = A} N.limits books.now.journal) (Step.Begin pid Call.Exit)) self.now.waiting }
    {
        self.waiting
            .iter()
            .any(|waiting| is_of_process(waiting, books, pid))
    }

    // Whether one does so for the call of a number.
    fn sleep_together_for(&self, call: u64) -> bool
        ensures { result ≡ list_any (is_together_for call) self.now.waiting }
    {
        self.waiting
            .iter()
            .any(|waiting| waiting.is_together_for(call))
    }
}

// Whether a caller waits awake for a call that can end.
fn is_helped_awake<N: Layer, A: Allocator + Copy>(waiting: &Waiting, books: &Books<N, A>) -> bool
    ensures { result ≡ is_helped_awake (can_end {A = A} N.limits N.max_steps books.now.journal) waiting.now }
{
    match waiting {
        Waiting::Awake(call) => books.can_end(*call),
        _ => false,
    }
}

// Whether a caller sleeps until a call can end that now can. It may be known that those for which callers sleep together can't.
fn is_helped_but<N: Layer, A: Allocator + Copy>(
    waiting: &Waiting,
    books: &Books<N, A>,
    stuck: bool,
) -> bool
    ensures { result ≡ is_helped_but (can_end {A = A} N.limits N.max_steps books.now.journal) stuck waiting.now }
{
    match waiting {
        Waiting::Asleep(call) => books.can_end(*call),
        Waiting::Together(call) => !stuck && books.can_end(*call),
        _ => false,
    }
}

// Whether a caller sleeps together with others for a call of a process.
fn is_of_process<N: Layer, A: Allocator + Copy>(
    waiting: &Waiting,
    books: &Books<N, A>,
    pid: u32,
) -> bool
    ensures { result ≡ is_of_together (state_of_history {A = A} N.limits books.now.journal) (Step.Begin pid Call.Exit) waiting.now }
{
    match waiting {
        Waiting::Together(call) => books.is_of_process(*call, pid),
        _ => false,
    }
}
