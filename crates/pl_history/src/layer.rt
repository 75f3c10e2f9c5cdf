//! Which layer something belongs to.
use std::marker::{Brand, PhantomData};
use std::sync::ledger::Ledger;

/// Names one layer: the ground that it is made on, the limits of its kernel, how many callers it has, and how many steps its
/// journal takes. Use a layer in a function over `N: Layer`, and call that with `Brand` for `N`; the proof of the call says what
/// `Brand` stands for there.
pub trait Layer: Ledger {
    ghost use Rattle.std.specs.Prelude.{ℕ};
    ghost use Rattle.pl_model.specs.declared.calls.Limits.{Limits};
    ghost use Rattle.pl_history.specs.Sights.{Tables};

    ghost table: { Tables };

    ghost limits: { Limits };

    ghost callers: { ℕ };

    ghost max_steps: { ℕ };
}

impl Layer for Brand {
    ghost use Rattle.std.specs.Prelude.{[]};

    ghost table = { record { word = record { words = 1; slots = 0; views_name = 0; atom = 0; block = 0; offset = 0; slot_names = [] }; handed = 0 } };

    ghost limits = { record { first_call = 0; file_max = 0; names_max = 0; waiting_max = 0; waiting_of_each = 0; capacity_max = 0; descriptors_max = 0; descriptions_max = 0; processes_max = 0; spare_max = 0 } };

    ghost callers = { 0 };

    ghost max_steps = { 0 };
}

/// Names the second ledger of a layer, which counts the entries of the journal that each caller was handed. No value of it is made.
pub struct Handing<N: Layer> {
    layer: PhantomData<N>,
}

impl<N: Layer> Ledger for Handing<N> {
    ghost name = { N.table.handed };

    ghost parts = { 64 };
}
