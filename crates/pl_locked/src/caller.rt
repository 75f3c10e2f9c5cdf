//! The callers of a layer, and their tokens.
ghost use Rattle.std.specs.Prelude.{◌≡◌, ℕ, ◌+◌, ◌<◌, ◌≤◌, ◌==◌, [], length, true, false, IfOk, MatchOption};
ghost use Rattle.std.specs.List.{list_any, All};
ghost use mathlib.Core.List.{IsPrefix};
ghost use Rattle.pl_model.specs.History.{of};
ghost use Rattle.pl_locked.specs.Views.{newcomer, newcomers, HasCaller, IsLeastMissing, IsSub, total_handed, total_made};

use crate::count::Count;
use crate::log::Log;
use crate::recorded::Recorded;
use pl_history::{Eye, Handing, Layer, Word};
use pl_kernel::NoMemory;
use std::alloc::{Allocator, Global};
use std::marker::Model;
use std::sync::ledger::Share;

/// One caller of a layer: a thread makes its steps by this token. Contracts see the caller's number, the history that it has seen, the
/// entries that it made, in order, how many entries it was handed, and how often it glanced.
#[derive(Drop)]
pub struct Caller<N: Layer, A: Allocator = Global> {
    pub(crate) number: u32,
    pub(crate) share: Share<N>,
    pub(crate) made: Log<A>,
    pub(crate) handed: Share<Handing<N>>,
    pub(crate) eye: Eye<N, A>,
    pub(crate) glances: Count,
}

impl<N: Layer, A: Allocator> Model for Caller<N, A> {
    ghost use Rattle.std.specs.Prelude.{◌≡◌, ◌<◌, length, false};
    ghost use Rattle.pl_model.specs.History.{of};
    ghost use Rattle.pl_locked.specs.Views.{CallerView, IsSub};

    ghost Value = { CallerView A };

    ghost view = { λ c. record { number = c.number; seen = c.eye.seen; made = c.made; handed = c.handed.amount; glances = c.glances } };

    ghost invariant = { λ c. (c.number < N.callers) × (c.share.parts ≡ 1) × (c.share.amount ≡ length c.made) × (c.eye.recorder ≡ false) × IsSub c.made (of c.number c.eye.seen) × (c.handed.parts ≡ 1) };
}

impl<N: Layer, A: Allocator> Caller<N, A> {
    /// The number of the caller: from 0 on, below the number of callers of its layer.
    pub fn number(&self) -> u32
        ensures same { result ≡ self.now.number }
        ensures known { result < N.callers }
    {
        self.number
    }

    fn new(number: u32, share: Share<N>, handed: Share<Handing<N>>, eye: Eye<N, A>) -> Caller<N, A>
        requires number { number < N.callers }
        requires share { (share.parts ≡ 1) × (share.amount ≡ 0) }
        requires handed { (handed.parts ≡ 1) × (handed.amount ≡ 0) }
        requires eye { (eye.recorder ≡ false) × (eye.seen ≡ []) }
        ensures { result ≡ newcomer {A = A} number }
    {
        Caller {
            number,
            share,
            made: Log::new(),
            handed,
            eye,
            glances: Count::new(),
        }
    }

    fn into_parts(self) -> (Share<N>, Share<Handing<N>>, Eye<N, A>)
        ensures share { (result.0.parts ≡ 1) × (result.0.amount ≡ length self.made) }
        ensures handed { (result.1.parts ≡ 1) × (result.1.amount ≡ self.handed) }
        ensures eye { result.2.seen ≡ self.seen }
        ensures own { IsSub self.made (of self.number self.seen) }
    {
        let Caller {
            number: _,
            share,
            made: _,
            handed,
            eye,
            glances: _,
        } = self;
        (share, handed, eye)
    }
}

/// The callers from 0 on, each with one part of both shares, and nothing seen or made, or handed.
pub(crate) fn deal<N: Layer, A: Allocator + Copy>(
    alloc: A,
    count: u32,
    rest: &mut Share<N>,
    spare: &mut Share<Handing<N>>,
    word: &Word<N, A>,
    recorder: &mut Eye<N, A>,
) -> Result<Vec<Caller<N, A>, A>, NoMemory>
    requires count { count ≡ N.callers }
    requires parts { count ≤ rest.old.parts }
    requires amount { rest.old.amount ≡ 0 }
    requires spare { (count ≤ spare.old.parts) × (spare.old.amount ≡ 0) }
    requires recorder { recorder.old.seen ≡ [] }
    ensures callers { IfOk result (λ callers. callers.items ≡ newcomers {A = A} count) }
    ensures parts { IfOk result (λ callers. rest.new.parts + count ≡ rest.old.parts) }
    ensures amount { IfOk result (λ callers. rest.new.amount ≡ 0) }
    ensures spare { IfOk result (λ callers. (spare.new.parts + count ≡ spare.old.parts) × (spare.new.amount ≡ 0)) }
    ensures same { IfOk result (λ callers. recorder.new ≡ recorder.old) }
{
    let mut callers = Vec::with_capacity(alloc, count as usize)?;
    for number in 0..count {
        let share = rest.split_off(1, 0);
        let handed = spare.split_off(1, 0);
        let eye = word.copy(recorder);
        callers.push_reserved(Caller::new(number, share, handed, eye));
    }
    Ok(callers)
}

/// Whether the caller of this number is among these.
fn is_among<N: Layer, A: Allocator>(callers: &[Caller<N, A>], number: u32) -> bool
    ensures { result ≡ list_any (λ c. c.number == number) callers.now }
{
    callers.iter().any(|caller| caller.number() == number)
}

/// The least number below the count that none of these has.
pub(crate) fn missing<N: Layer, A: Allocator>(callers: &[Caller<N, A>], count: u32) -> Option<u32>
    requires { count ≡ N.callers }
    ensures { MatchOption result ((k : ℕ) → k < N.callers → HasCaller callers.now k) (λ number. IsLeastMissing N.callers callers.now number) }
{
    for number in 0..count {
        if !is_among(callers, number) {
            return Some(number);
        }
    }
    None
}

/// Puts the shares of all these callers into one of each ledger, and shows that the journal begins with what each has seen.
pub(crate) fn gather<N: Layer, A: Allocator + Copy>(
    mut callers: Vec<Caller<N, A>, A>,
    all: &mut Share<N>,
    out: &mut Share<Handing<N>>,
    word: &Word<N, A>,
    recorded: &mut Recorded<N, A>,
)
    requires { all.old.parts ≤ N.parts }
    ensures parts { all.new.parts ≡ all.old.parts + length callers.items }
    ensures amount { all.new.amount ≡ all.old.amount + total_made callers.items }
    ensures bound { all.new.parts ≤ N.parts }
    ensures handed { (out.new.parts ≡ out.old.parts + length callers.items) × (out.new.amount ≡ out.old.amount + total_handed callers.items) }
    ensures recorded { recorded.new ≡ recorded.old }
    ensures each { All (λ c. IsPrefix c.seen recorded.old.journal × IsSub c.made (of c.number recorded.old.journal)) callers.items }
{
    while let Some(caller) = callers.pop() {
        let (share, handed, eye) = caller.into_parts();
        all.merge(share);
        out.merge(handed);
        recorded.take_in(word, eye);
    }
}
