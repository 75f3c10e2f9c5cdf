//! What a layer is made on.
ghost use Rattle.std.specs.Prelude.{◌≡◌, IfOk};

use pl_history::{History, HistorySeat, history};
use pl_kernel::NoMemory;
use std::alloc::{Allocator, Global};
use std::marker::Model;
use std::sync::ledger::Blank;

/// What a layer is made on, while no type names it. Contracts see which ledger it has, into how many parts that is cut, which history
/// word, and which second ledger.
#[derive(Drop)]
pub struct Ground<A: Allocator = Global> {
    pub(crate) blank: Blank,
    pub(crate) handing: Blank,
    pub(crate) history: History<A>,
    pub(crate) seat: HistorySeat<A>,
}

impl<A: Allocator> Model for Ground<A> {
    ghost use Rattle.std.specs.Prelude.{◌≡◌, [], true};
    ghost use Rattle.pl_locked.specs.Views.{GroundId};

    ghost Value = { GroundId };

    ghost view = { λ g. record { name = g.blank.name; parts = g.blank.parts; table = record { word = g.history.shared.table_id; handed = g.handing.name } } };

    ghost invariant = { λ g. (g.blank.parts ≡ 64) × (g.handing.parts ≡ 64) × (g.history.shared.table_id.words ≡ 1) × (g.seat.table_id ≡ g.history.shared.table_id) × (g.seat.me.0.recorder ≡ true) × (g.seat.me.0.seen ≡ []) × (g.seat.me.1 ≡ []) };
}

impl<A: Allocator> Ground<A> {
    /// The ground of a new layer.
    ///
    /// # Errors
    ///
    /// `NoMemory` where there is none for its history word.
    pub fn new(alloc: A) -> Result<Ground<A>, NoMemory>
        ensures { IfOk result (λ ground. ground.parts ≡ 64) }
    {
        let (history, seat) = history(alloc)?;
        Ok(Ground {
            blank: Blank::new(64),
            handing: Blank::new(64),
            history,
            seat,
        })
    }
}
