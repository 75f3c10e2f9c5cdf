//! The history word of a layer, and the eyes on it.
ghost use Rattle.std.specs.Prelude.{◌≡◌, ◌+◌, ◌<◌, ◌^◌, [], ◌∷◌, ◌++◌, length, true, false, IfOk};
ghost use mathlib.Core.List.{IsPrefix};

use crate::layer::Layer;
use crate::rule::{Adding, Copying, Following, Law, Looking, Telling, View};
use atomic_table::{Seat, Table};
use pl_model::Entry;
use std::alloc::{AllocError, Allocator, Global};
use std::marker::{Model, PhantomData};

/// A history word that no layer has yet.
pub type History<A> = Table<Entry<A>, View<A>, (), Law, A>;

/// What has seen a part of such a history.
pub type HistorySeat<A> = Seat<Entry<A>, View<A>>;

/// A new word, which is 0, and the recorder's seat.
pub fn history<A: Allocator>(alloc: A) -> Result<(History<A>, HistorySeat<A>), AllocError>
    ensures table { IfOk result (λ r. (r.0.shared.table_id.words ≡ 1) × (r.1.table_id ≡ r.0.shared.table_id)) }
    ensures seat { IfOk result (λ r. (r.1.me.0.recorder ≡ true) × (r.1.me.0.seen ≡ []) × (r.1.me.1 ≡ [])) }
{
    History::of_words(alloc, &[0], &())
}

/// The history word of a layer: how many entries its journal has, which any thread may read.
#[derive(Drop)]
pub struct Word<N: Layer, A: Allocator = Global> {
    table: History<A>,
    layer: PhantomData<N>,
}

impl<N: Layer, A: Allocator> Model for Word<N, A> {
    ghost use Rattle.std.specs.Prelude.{◌≡◌};

    ghost Value = { Unit {0} };

    ghost view = { λ _. tt };

    ghost invariant = { λ w. (w.table.shared.table_id ≡ N.table.word) × (N.table.word.words ≡ 1) };
}

/// What one has seen of the history of a layer. Contracts see whether it is the recorder's, which has seen all of it, and what was
/// seen.
#[derive(Drop)]
pub struct Eye<N: Layer, A: Allocator = Global> {
    seat: HistorySeat<A>,
    layer: PhantomData<N>,
}

impl<N: Layer, A: Allocator> Model for Eye<N, A> {
    ghost use Rattle.std.specs.Prelude.{◌≡◌, []};
    ghost use Rattle.pl_history.specs.Sights.{Sight};

    ghost Value = { Sight A };

    ghost view = { λ e. record { recorder = e.seat.me.0.recorder; seen = e.seat.me.0.seen } };

    ghost invariant = { λ e. (e.seat.table_id ≡ N.table.word) × (e.seat.me.1 ≡ []) };
}

impl<N: Layer, A: Allocator> Word<N, A> {
    /// The word of a layer, and the recorder's eye. It takes no memory, and neither does anything else here.
    pub fn named(table: History<A>, seat: HistorySeat<A>) -> (Word<N, A>, Eye<N, A>)
        requires table { (table.shared.table_id ≡ N.table.word) × (N.table.word.words ≡ 1) }
        requires seat { (seat.table_id ≡ N.table.word) × (seat.me.1 ≡ []) }
        ensures recorder { result.1.recorder ≡ seat.me.0.recorder }
        ensures seen { result.1.seen ≡ seat.me.0.seen }
    {
        (
            Word {
                table,
                layer: PhantomData,
            },
            Eye {
                seat,
                layer: PhantomData,
            },
        )
    }

    /// How long the history is now, which the eye has then seen. It is one atomic load.
    pub fn look(&self, eye: &mut Eye<N, A>) -> u64
        ensures length { result ≡ length eye.new.seen }
        ensures earlier { IsPrefix eye.old.seen eye.new.seen }
        ensures same { eye.new.recorder ≡ eye.old.recorder }
    {
        self.table.shared.load::<Looking>(&mut eye.seat, 0)
    }

    /// Shows that what another has seen begins what the recorder has.
    pub fn meet(&self, recorder: &mut Eye<N, A>, other: &mut Eye<N, A>)
        requires { recorder.old.recorder ≡ true }
        ensures begins { IsPrefix other.old.seen recorder.old.seen }
        ensures recorder { recorder.new ≡ recorder.old }
        ensures other { other.new ≡ other.old }
    {
        let copy = self.table.shared.split_seat::<Copying>(&mut other.seat);
        self.table
            .shared
            .join_seat::<Telling>(&mut recorder.seat, copy);
        self.table.shared.load::<Looking>(&mut recorder.seat, 0);
    }

    /// Shows the same of an eye that ends.
    pub fn take_in(&self, recorder: &mut Eye<N, A>, other: Eye<N, A>)
        requires { recorder.old.recorder ≡ true }
        ensures begins { IsPrefix other.seen recorder.old.seen }
        ensures same { recorder.new ≡ recorder.old }
    {
        let Eye { seat, layer: _ } = other;
        self.table
            .shared
            .join_seat::<Telling>(&mut recorder.seat, seat);
        self.table.shared.load::<Looking>(&mut recorder.seat, 0);
    }

    /// A new eye that has seen what another has.
    pub fn copy(&self, eye: &mut Eye<N, A>) -> Eye<N, A>
        ensures recorder { result.recorder ≡ false }
        ensures seen { result.seen ≡ eye.old.seen }
        ensures same { eye.new ≡ eye.old }
    {
        Eye {
            seat: self.table.shared.split_seat::<Copying>(&mut eye.seat),
            layer: PhantomData,
        }
    }

    /// Lets an eye see what the recorder has.
    pub fn follow(&self, eye: &mut Eye<N, A>, recorder: &mut Eye<N, A>)
        requires { eye.old.recorder ≡ false }
        ensures recorder { eye.new.recorder ≡ false }
        ensures seen { eye.new.seen ≡ recorder.old.seen }
        ensures same { recorder.new ≡ recorder.old }
    {
        let Eye { seat, layer: _ } = self.copy(recorder);
        self.table
            .shared
            .join_seat::<Following>(&mut eye.seat, seat);
    }

    /// Adds an entry to the history, of which the recorder has seen `count`, fewer than 2^62.
    pub fn add(&self, recorder: &mut Eye<N, A>, count: u64, entry: &Entry<A>)
        requires recorder { recorder.old.recorder ≡ true }
        requires count { count ≡ length recorder.old.seen }
        requires few { count < 2 ^ 62 }
        ensures recorder { recorder.new.recorder ≡ true }
        ensures seen { recorder.new.seen ≡ recorder.old.seen ++ entry.now ∷ [] }
    {
        self.table
            .shared
            .compare_exchange_with::<Adding>(&mut recorder.seat, 0, count, count + 1, entry);
    }
}
