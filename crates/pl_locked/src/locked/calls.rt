//! Whole calls: begun, and tried again until they are answered.
ghost use Rattle.std.specs.Prelude.{◌≡◌, ℕ, ◌<◌, not, length, Ok, None, IfOk, IfErr, IfSome, OnErr, IsErrOf};
ghost use Rattle.std.specs.Sync.Mutex.{mutex_guard_value};
ghost use Rattle.pl_model.specs.declared.replies.Reply.TheVariants.{Parked};
ghost use Rattle.pl_locked.specs.Views.{Called, CalledIn, CouldEnd, Failed, Full, Glanced, NoneInVain, Sees, Shown, Turned, UsesTurns};
ghost use Rattle.pl_locked.specs.Waking.{can_end};

use super::Locked;
use crate::caller::Caller;
use crate::desk::Desk;
use crate::fault::{CallFault, StepFault};
use crate::waiting::Looked;
use pl_history::Layer;
use pl_model::{Call, Reply, Step};
use std::alloc::Allocator;
use std::hint;
use std::sync::{MutexGuard, Wait};

/// How often a caller looks, each time that there are new steps, before it sleeps.
const LOOKS: u32 = 32;

/// How often it glances before it sleeps if there are none: for four to twelve microseconds. A partner on another processor mostly answers
/// meanwhile.
const GLANCES: u32 = 256;

impl<N: Layer, A: Allocator + Copy> Locked<N, A> {
    /// Begins a call of a process. Where it is parked it waits, without the lock, until the call can get on, and tries it again, until it is
    /// answered. So no try is in vain. It looks a few times before it sleeps. Where another caller interrupts the call or ends its process, the answer is `NoCall`.
    ///
    /// # Errors
    ///
    /// As of `attempt`, at any of its steps: the call may stay parked, under the number that is told. Nobody sleeps on at a journal that is
    /// full: each call that waits then ends with `JournalFull`, one after another.
    pub fn call<R: Wait>(
        &self,
        rt: &R,
        me: &mut Caller<N, A>,
        pid: u32,
        call: Call<A>,
    ) -> Result<Reply<A>, CallFault>
        ensures made { IfOk result (λ reply. Called N.limits N.max_steps me.old me.new pid call reply) }
        ensures full { IfErr result (λ fault. fault.cause ≡ StepFault.JournalFull → Full N.max_steps me.new) }
        ensures wanted { IfErr result (λ fault. fault.cause ≡ StepFault.NoMemory → ¬ Full N.max_steps me.new) }
        ensures fault { IfErr result (λ fault. Failed N.limits N.max_steps me.old me.new pid call fault.parked) }
        ensures helped { NoneInVain N.limits me.old me.new }
    {
        let (reply, _) = match self.step(rt, me, Step::Begin(pid, call)) {
            Ok(begun) => begun,
            Err(cause) => {
                return Err(CallFault {
                    cause,
                    parked: None,
                });
            }
        };
        let Reply::Parked(number) = reply else {
            return Ok(reply);
        };
        'turns: for _ in rt.forever() {
            match self.turn(rt, me, number) {
                Ok(None) => {}
                Ok(Some(reply)) => return Ok(reply),
                Err(cause) => {
                    return Err(CallFault {
                        cause,
                        parked: Some(number),
                    });
                }
            }
        }
        unreachable!()
    }

    // Waits until the call can end, and tries it again.
    fn turn<R: Wait>(
        &self,
        rt: &R,
        me: &mut Caller<N, A>,
        number: u64,
    ) -> Result<Option<Reply<A>>, StepFault>
        ensures made { IfOk result (λ answer. Turned N.limits N.max_steps me.old me.new number answer) }
        ensures full { IsErrOf result StepFault.JournalFull → Full N.max_steps me.new }
        ensures wanted { IsErrOf result StepFault.NoMemory → ¬ Full N.max_steps me.new }
        ensures unmade { OnErr result (Shown N.limits N.max_steps me.old me.new) }
        ensures helped { NoneInVain N.limits me.old me.new }
    {
        let desk = match self.look(rt, me, number) {
            Some(desk) => desk,
            None => self.sleep(rt, me, number),
        };
        match self.make(desk, me, Step::Resume(number)) {
            Ok((Reply::Parked(_), _)) => Ok(None),
            Ok((reply, _)) => Ok(Some(reply)),
            Err(fault) => Err(fault),
        }
    }

    // Glances a few times, until there are more steps than so many. It answers how many there are.
    fn watch(&self, me: &mut Caller<N, A>, seen: u64) -> u64
        ensures { Sees me.old me.new }
    {
        for _ in 0..GLANCES {
            let steps = self.glance(me);
            if steps > seen {
                return steps;
            }
            hint::spin_loop();
        }
        seen
    }

    // Looks for a short time whether the call can end. Where it can, the desk is locked: a partner that answers soon then costs no sleep.
    fn look<'a, R: Wait>(
        &'a self,
        rt: &R,
        me: &mut Caller<N, A>,
        number: u64,
    ) -> Option<MutexGuard<'a, Desk<N, A>>>
        ensures sees { Sees me.old me.new }
        ensures helped { IfSome result (λ desk. CouldEnd {A = A} N.limits N.max_steps (mutex_guard_value desk).journal number) }
    {
        let mut seen = 0;
        for _ in 0..LOOKS {
            // Without a new step the call can't have got on.
            let steps = self.watch(me, seen);
            if steps <= seen {
                return None;
            }
            // At its first look it finds the steps from before it waited.
            if seen > 0 {
                self.give_way(rt, me);
            }
            if let Some(mut desk) = self.desk.try_lock() {
                match desk.look(me.number(), number) {
                    Looked::Ends => return Some(desk),
                    Looked::Waits(sleeper) => {
                        drop(desk);
                        self.notify(sleeper);
                        seen = steps;
                    }
                }
            }
        }
        None
    }

    // Sleeps until the call can end. The desk is locked then.
    fn sleep<'a, R: Wait>(
        &'a self,
        rt: &R,
        me: &Caller<N, A>,
        number: u64,
    ) -> MutexGuard<'a, Desk<N, A>>
        ensures { CouldEnd {A = A} N.limits N.max_steps (mutex_guard_value result).journal number }
    {
        let caller = me.number();
        self.turns.each[caller as usize].wait_while(
            rt,
            self.lock_at_once(rt),
            |desk| self.sleeps_on(desk, caller, number),
        )
    }

    // Whether a caller sleeps on, as its call can't end.
    fn sleeps_on(&self, desk: &mut Desk<N, A>, caller: u32, call: u64) -> bool
        requires { caller < N.callers }
        ensures { result ≡ not (can_end {A = A} N.limits N.max_steps desk.new.journal call) }
    {
        match desk.fall_asleep(caller, call) {
            Looked::Ends => false,
            Looked::Waits(sleeper) => {
                self.notify(sleeper);
                true
            }
        }
    }

    /// Begins a call of a process, and then takes at most so many turns: a turn is a glance, and exactly where there are more steps than
    /// after the caller's last one it tries the call again. It waits for the lock alone. The answer is `Parked` only where all turns were
    /// taken: the call waits on.
    ///
    /// # Errors
    ///
    /// As of `call`.
    pub fn call_turns<R: Wait>(
        &self,
        rt: &R,
        me: &mut Caller<N, A>,
        pid: u32,
        call: Call<A>,
        turns: u32,
    ) -> Result<Reply<A>, CallFault>
        ensures made { IfOk result (λ reply. CalledIn turns N.limits N.max_steps me.old me.new pid call reply) }
        ensures turns { (c : ℕ) → result ≡ Ok (Parked c) → UsesTurns turns N.limits N.max_steps pid call c me.old me.new }
        ensures full { IfErr result (λ fault. fault.cause ≡ StepFault.JournalFull → Full N.max_steps me.new) }
        ensures wanted { IfErr result (λ fault. fault.cause ≡ StepFault.NoMemory → ¬ Full N.max_steps me.new) }
        ensures fault { IfErr result (λ fault. Failed N.limits N.max_steps me.old me.new pid call fault.parked) }
    {
        let (reply, mut seen) = match self.step(rt, me, Step::Begin(pid, call)) {
            Ok(begun) => begun,
            Err(cause) => {
                return Err(CallFault {
                    cause,
                    parked: None,
                });
            }
        };
        let Reply::Parked(number) = reply else {
            return Ok(reply);
        };
        for turn in 0..turns {
            match self.glance_turn(rt, me, number, &mut seen) {
                Ok(None) => {}
                Ok(Some(reply)) => return Ok(reply),
                Err(cause) => {
                    return Err(CallFault {
                        cause,
                        parked: Some(number),
                    });
                }
            }
        }
        Ok(Reply::Parked(number))
    }

    // One glance, and where there are more steps than were seen at the last try the call is tried again.
    fn glance_turn<R: Wait>(
        &self,
        rt: &R,
        me: &mut Caller<N, A>,
        number: u64,
        seen: &mut u64,
    ) -> Result<Option<Reply<A>>, StepFault>
        requires { seen.old ≡ length me.old.seen }
        ensures made { IfOk result (λ answer. Glanced N.limits N.max_steps me.old me.new number answer) }
        ensures seen { IfOk result (λ answer. answer ≡ None → seen.new ≡ length me.new.seen) }
        ensures full { IsErrOf result StepFault.JournalFull → Full N.max_steps me.new }
        ensures wanted { IsErrOf result StepFault.NoMemory → ¬ Full N.max_steps me.new }
        ensures unmade { OnErr result (Shown N.limits N.max_steps me.old me.new) }
    {
        if self.glance(me) <= *seen {
            return Ok(None);
        }
        match self.step(rt, me, Step::Resume(number)) {
            Ok((Reply::Parked(_), now)) => {
                *seen = now;
                Ok(None)
            }
            Ok((reply, _)) => Ok(Some(reply)),
            Err(fault) => Err(fault),
        }
    }
}
