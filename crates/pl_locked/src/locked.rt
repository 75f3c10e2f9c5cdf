//! The layer: one lock, and the steps of its callers.
ghost use Rattle.std.specs.Prelude.{◌≡◌, ℕ, ◌<◌, ◌≤◌, ◌^◌, length, IfOk, IfErr, OnOk, OnErr, IsErrOf, ◌+◌, ◌↔◌, ◌⊎◌, IfSome};
ghost use Rattle.pl_model.specs.Numbers.{most_file_bytes};
ghost use Rattle.std.specs.Sync.Mutex.{mutex_guard_value};
ghost use Rattle.pl_locked.specs.Views.{Ends, Full, Gains, IsBehind, IsHanded, Sees, Shown, newcomers, HasCaller, IsLeastMissing};
ghost use Rattle.pl_locked.specs.Journals.{KeepsItsNumber};

mod calls;

use crate::books::Books;
use crate::caller::{Caller, deal, missing};
use crate::desk::Desk;
use crate::fault::{OpenFault, StepFault};
use crate::ground::Ground;
use crate::journal::JournalPart;
use crate::recorded::Recorded;
use crate::wait_queue::WaitQueue;
use pl_history::{Handing, Layer, Word};
use pl_kernel::{Kernel, NoMemory};
use pl_model::{Limits, Reply, Step};
use std::alloc::{Allocator, Global};
use std::hint;
use std::marker::PhantomData;
use std::sync::{Condvar, Mutex, MutexGuard, Wait};
use std::time::Duration;

/// How often a caller tries to lock the desk before it sleeps.
const TRIES: u32 = 16;

/// How often it spins between two tries, or until there is a new step: for one to three microseconds.
const SPINS: u32 = 64;

/// How many new steps it finds, one soon after another, before it knows that others make step after step.
const BUSY: u32 = 16;

/// For how many microseconds it then leaves the lock to them.
const AWAY: u64 = 50;

// Lets a moment pass. No caller yields: where other programs run too, a yield gives them the processor for milliseconds.
fn pause() {
    for _ in 0..SPINS {
        hint::spin_loop();
    }
}

/// A caller of the layer was not handed in: all that was is handed back.
#[derive(Drop)]
pub struct CallerMissing<N: Layer, A: Allocator = Global> {
    /// The least number that none of the callers has.
    pub number: u32,
    /// The layer, with the journal that it had. No clause can name what lies under its lock, but what `close` says holds of it too: with
    /// all callers there its journal has as many entries as they made, and begins with what each has seen. That is all of them for the
    /// caller who made the last step.
    pub locked: Locked<N, A>,
    pub callers: Vec<Caller<N, A>, A>,
}

// What so many callers wait at.
fn turns_of<A: Allocator + Copy>(alloc: A, callers: u32) -> Result<Vec<Condvar, A>, NoMemory>
    ensures { IfOk result (λ turns. length turns.items ≡ callers) }
{
    let mut turns = Vec::with_capacity(alloc, callers as usize)?;
    for _ in 0..callers {
        turns.push_reserved(Condvar::new());
    }
    Ok(turns)
}

/// How many callers there are, and what each waits at, by its number.
#[derive(Drop)]
struct Turns<N: Layer, A: Allocator = Global> {
    count: u32,
    each: Vec<Condvar, A>,
    layer: PhantomData<N>,
    ghost known: { (count ≡ N.callers) × (length each.items ≡ N.callers) },
}

/// A kernel under one lock, with a journal of its steps. Threads share it by reference, each with a `Caller` of its own.
#[derive(Drop)]
pub struct Locked<N: Layer, A: Allocator = Global> {
    desk: Mutex<Desk<N, A>>,
    turns: Turns<N, A>,
    /// Where callers are that leave the lock to others.
    away: Condvar,
    word: Word<N, A>,
}

impl<N: Layer, A: Allocator + Copy> Locked<N, A> {
    /// A layer over a new kernel within the limits, with so many callers, which makes at most `max_steps` steps.
    ///
    /// # Errors
    ///
    /// `BadCallers` exactly where there are none, or more than 64; else `NoMemory`.
    pub fn open(
        alloc: A,
        ground: Ground<A>,
        limits: Limits,
        callers: u32,
        max_steps: u64,
    ) -> Result<(Locked<N, A>, Vec<Caller<N, A>, A>), OpenFault>
        requires ground { (ground.name ≡ N.name) × (ground.parts ≡ N.parts) × (ground.table ≡ N.table) }
        requires limits { limits ≡ N.limits }
        requires file_max { limits.file_max ≤ most_file_bytes }
        requires callers { callers ≡ N.callers }
        requires steps { (max_steps ≡ N.max_steps) × (max_steps ≤ 2 ^ 62) }
        ensures callers { IfOk result (λ opened. opened.1.items ≡ newcomers {A = A} callers) }
        ensures bad { IsErrOf result OpenFault.BadCallers ↔ ((callers ≡ 0) ⊎ (64 < callers)) }
    {
        if callers == 0 || callers > 64 {
            return Err(OpenFault::BadCallers);
        }
        let opened = Locked::furnished(alloc, ground, limits, callers, max_steps)?;
        Ok(opened)
    }

    // The layer of a number of callers that is right.
    fn furnished(
        alloc: A,
        ground: Ground<A>,
        limits: Limits,
        callers: u32,
        max_steps: u64,
    ) -> Result<(Locked<N, A>, Vec<Caller<N, A>, A>), NoMemory>
        requires ground { (ground.name ≡ N.name) × (ground.parts ≡ N.parts) × (ground.table ≡ N.table) }
        requires limits { limits ≡ N.limits }
        requires file_max { limits.file_max ≤ most_file_bytes }
        requires callers { callers ≡ N.callers }
        requires few { callers ≤ 64 }
        requires steps { (max_steps ≡ N.max_steps) × (max_steps ≤ 2 ^ 62) }
        ensures { IfOk result (λ opened. opened.1.items ≡ newcomers {A = A} callers) }
    {
        let Ground {
            blank,
            handing,
            history,
            seat,
        } = ground;
        let (word, mut recorder) = Word::<N, A>::named(history, seat);
        let (book, mut rest) = blank.open::<N>();
        let (handed, mut spare) = handing.open::<Handing<N>>();
        let counts = Vec::from_elem(alloc, 0, callers as usize)?;
        let queue = WaitQueue::new(alloc, callers)?;
        let turns = turns_of(alloc, callers)?;
        let tokens = deal(alloc, callers, &mut rest, &mut spare, &word, &mut recorder)?;
        let recorded = Recorded::new(alloc, limits, recorder);
        let books = Books::new(recorded, counts, book, rest, handed, spare, max_steps);
        let desk = Desk::new(books, queue);
        Ok((Locked::over(callers, desk, turns, word), tokens))
    }

    fn over(count: u32, desk: Desk<N, A>, turns: Vec<Condvar, A>, word: Word<N, A>) -> Locked<N, A>
        requires count { count ≡ N.callers }
        requires turns { length turns.items ≡ N.callers }
    {
        let turns = Turns {
            count,
            each: turns,
            layer: PhantomData,
        };
        Locked {
            desk: Mutex::new(desk),
            turns,
            away: Condvar::new(),
            word,
        }
    }

    /// Ends the layer, and gives what wasn't handed out of its journal, and its kernel. The callers are handed in, in any order. It takes no
    /// memory.
    ///
    /// # Errors
    ///
    /// `CallerMissing` where one of them isn't there: it hands all back.
    pub fn close(
        self,
        callers: Vec<Caller<N, A>, A>,
    ) -> Result<(JournalPart<A>, Kernel<A>), CallerMissing<N, A>>
        ensures ends { IfOk result (λ closed. Ends N.limits callers.items closed.0.first closed.0.journal closed.1) }
        ensures here { OnOk result ((k : ℕ) → k < N.callers → HasCaller callers.items k) }
        ensures missing { IfErr result (λ fault. IsLeastMissing N.callers callers.items fault.number × (fault.callers.items ≡ callers.items)) }
    {
        match missing(callers.as_slice(), self.turns.count) {
            Some(number) => Err(CallerMissing {
                number,
                locked: self,
                callers,
            }),
            None => {
                let Locked {
                    desk,
                    turns: _,
                    away: _,
                    word,
                } = self;
                Ok(desk.into_inner().finish(&word, callers))
            }
        }
    }

    /// Hands out the entries of the journal that weren't handed out yet, in their order. The caller has then seen the whole journal. The layer
    /// keeps none of these entries, and goes on: so its memory hangs on what isn't handed out, however long it lives. Any caller may ask; the
    /// part tells how many entries were handed out before it. It waits for the lock, and takes no memory.
    pub fn hand_out<R: Wait>(&self, rt: &R, me: &mut Caller<N, A>) -> JournalPart<A>
        ensures { IsHanded N.limits N.max_steps me.old me.new result.first result.journal }
    {
        self.part_of(self.lock(rt, me), me)
    }

    // What the desk hands out.
    fn part_of(&self, mut desk: MutexGuard<'_, Desk<N, A>>, me: &mut Caller<N, A>) -> JournalPart<A>
        ensures first { result.first ≡ (mutex_guard_value desk.entry).first }
        ensures handed { IsHanded N.limits N.max_steps me.old me.new result.first result.journal }
    {
        desk.hand_out(&self.word, me)
    }

    /// How many steps there are now; the caller has then seen them. It is one atomic load: it waits for nobody, and takes no memory.
    pub fn glance(&self, me: &mut Caller<N, A>) -> u64
        ensures length { result ≡ length me.new.seen }
        ensures seen { Sees me.old me.new }
        ensures counted { me.new.glances ≡ me.old.glances + 1 }
    {
        me.glances.up();
        self.word.look(&mut me.eye)
    }

    // How many steps there are now.
    fn steps(&self, me: &mut Caller<N, A>) -> u64
        ensures { me.new ≡ me.old }
    {
        let mut eye = self.word.copy(&mut me.eye);
        self.word.look(&mut eye)
    }

    // Spins until there are other steps than so many, for a moment at most, and tells how many there are.
    fn spin(&self, me: &mut Caller<N, A>, seen: u64) -> u64
        ensures { me.new ≡ me.old }
    {
        for _ in 0..SPINS {
            let steps = self.steps(me);
            if steps != seen {
                return steps;
            }
            hint::spin_loop();
        }
        seen
    }

    // Whether others make step after step: it finds new ones each time that it spins.
    fn is_busy(&self, me: &mut Caller<N, A>) -> bool
        ensures { me.new ≡ me.old }
    {
        let mut seen = self.steps(me);
        for _ in 0..BUSY {
            let steps = self.spin(me, seen);
            if steps == seen {
                return false;
            }
            seen = steps;
        }
        true
    }

    // Leaves the lock to others for a short time, where they make step after step. If the lock changed hands at each step, what steps use
    // would go from one processor to another, which costs more than the steps.
    fn give_way<R: Wait>(&self, rt: &R, me: &mut Caller<N, A>)
        ensures { me.new ≡ me.old }
    {
        if self.is_busy(me) {
            let seen = self.away.notifications();
            self.away.sleep(rt, seen, Duration::from_micros(AWAY));
        }
    }

    // Lets those go on that left the lock to a caller, if its call waits: it makes no step now.
    fn recall(&self, reply: &Reply<A>) {
        if matches!(reply, Reply::Parked(_)) {
            self.away.notify_all();
        }
    }

    // Locks the desk.
    #[inline(always)]
    fn lock<R: Wait>(&self, rt: &R, me: &mut Caller<N, A>) -> MutexGuard<'_, Desk<N, A>>
        ensures { me.new ≡ me.old }
    {
        match self.desk.try_lock() {
            Some(desk) => desk,
            None => self.lock_later(rt, me),
        }
    }

    // Locks the desk, which was locked. It tries a few times before it sleeps: a step under the lock takes less time than to sleep and to be
    // woken.
    #[inline(never)]
    fn lock_later<R: Wait>(&self, rt: &R, me: &mut Caller<N, A>) -> MutexGuard<'_, Desk<N, A>>
        ensures { me.new ≡ me.old }
    {
        for _ in 0..TRIES {
            self.give_way(rt, me);
            if let Some(desk) = self.desk.try_lock() {
                return desk;
            }
        }
        self.desk.lock(rt)
    }

    // The same for a caller that is about to sleep, which leaves the lock to nobody.
    fn lock_at_once<R: Wait>(&self, rt: &R) -> MutexGuard<'_, Desk<N, A>> {
        for _ in 0..TRIES {
            if let Some(desk) = self.desk.try_lock() {
                return desk;
            }
            pause();
        }
        self.desk.lock(rt)
    }

    // Notifies a caller that was woken on the desk.
    fn notify(&self, sleeper: Option<usize>)
        requires { IfSome sleeper (λ caller. caller < N.callers) }
    {
        if let Some(caller) = sleeper {
            self.turns.each[caller].notify_one();
        }
    }

    // One step on the desk, which is unlocked then: the reply, and how many steps there are. It notifies whom it woke behind the lock, so
    // that nobody wakes to a lock that is held.
    #[inline(always)]
    fn make(
        &self,
        mut desk: MutexGuard<'_, Desk<N, A>>,
        me: &mut Caller<N, A>,
        step: Step<A>,
    ) -> Result<(Reply<A>, u64), StepFault>
        ensures made { IfOk result (λ r. Gains N.limits N.max_steps me.old me.new step r.0) }
        ensures behind { IfOk result (λ r. IsBehind (mutex_guard_value desk.entry).journal me.new) }
        ensures steps { IfOk result (λ r. r.1 ≡ length me.new.seen) }
        ensures number { IfOk result (λ r. KeepsItsNumber step r.0) }
        ensures full { IsErrOf result StepFault.JournalFull → Full N.max_steps me.new }
        ensures wanted { IsErrOf result StepFault.NoMemory → ¬ Full N.max_steps me.new }
        ensures unmade { OnErr result (Shown N.limits N.max_steps me.old me.new) }
        ensures glances { me.new.glances ≡ me.old.glances }
    {
        let (made, sleeper) = desk.step(&self.word, me, step);
        let steps = desk.len();
        drop(desk);
        self.notify(sleeper);
        match made {
            Ok(reply) => {
                self.recall(&reply);
                Ok((reply, steps))
            }
            Err(fault) => Err(fault),
        }
    }

    // One step under the lock.
    #[inline(always)]
    fn step<R: Wait>(
        &self,
        rt: &R,
        me: &mut Caller<N, A>,
        step: Step<A>,
    ) -> Result<(Reply<A>, u64), StepFault>
        ensures made { IfOk result (λ r. Gains N.limits N.max_steps me.old me.new step r.0) }
        ensures steps { IfOk result (λ r. r.1 ≡ length me.new.seen) }
        ensures number { IfOk result (λ r. KeepsItsNumber step r.0) }
        ensures full { IsErrOf result StepFault.JournalFull → Full N.max_steps me.new }
        ensures wanted { IsErrOf result StepFault.NoMemory → ¬ Full N.max_steps me.new }
        ensures unmade { OnErr result (Shown N.limits N.max_steps me.old me.new) }
        ensures glances { me.new.glances ≡ me.old.glances }
    {
        self.make(self.lock(rt, me), me, step)
    }

    /// Makes one step under the lock. The caller has then seen all that had happened, and what it made last.
    ///
    /// # Errors
    ///
    /// `JournalFull` where the journal has as many steps as it takes; else `NoMemory`. Neither changes the journal or the kernel.
    pub fn attempt<R: Wait>(
        &self,
        rt: &R,
        me: &mut Caller<N, A>,
        step: Step<A>,
    ) -> Result<Reply<A>, StepFault>
        ensures made { IfOk result (λ reply. Gains N.limits N.max_steps me.old me.new step reply) }
        ensures full { IsErrOf result StepFault.JournalFull → Full N.max_steps me.new }
        ensures wanted { IsErrOf result StepFault.NoMemory → ¬ Full N.max_steps me.new }
        ensures unmade { OnErr result (Shown N.limits N.max_steps me.old me.new) }
    {
        match self.step(rt, me, step) {
            Ok((reply, _)) => Ok(reply),
            Err(fault) => Err(fault),
        }
    }
}
