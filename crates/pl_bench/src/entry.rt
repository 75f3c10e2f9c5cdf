//! What an entry of the journal takes of memory.
ghost use Rattle.std.specs.Prelude.{◌≡◌, ◌≤◌, ◌^◌};
ghost use Rattle.pl_model.specs.Numbers.{most_file_bytes};

use crate::job::{Job, begin, work};
use pl_budget::Budget;
use pl_locked::{Ground, Layer, Locked};
use pl_model::Limits;
use std::sync::Wait;

/// How many bytes the layer takes for each of the entries that so many pairs leave; nothing where something fails.
pub(crate) fn entry_bytes<'b, N: Layer, R: Wait>(
    rt: &R,
    budget: &'b Budget,
    ground: Ground<&'b Budget>,
    limits: Limits,
    max_steps: u64,
    rounds: u32,
) -> Option<u64>
    requires ground { (ground.name ≡ N.name) × (ground.parts ≡ N.parts) × (ground.table ≡ N.table) }
    requires limits { limits ≡ N.limits }
    requires file_max { limits.file_max ≤ most_file_bytes }
    requires callers { 1 ≡ N.callers }
    requires steps { (max_steps ≡ N.max_steps) × (max_steps ≤ 2 ^ 62) }
{
    let (locked, mut callers) = Locked::<N, &'b Budget>::open(
        budget, ground, limits, 1, max_steps,
    ).ok()?;
    let me = callers.first_mut()?;
    if !begin(rt, &locked, me) {
        return None;
    }
    let before = budget.account().held;
    if !work(rt, budget, &locked, me, Job::Alone, rounds) {
        return None;
    }
    let taken = budget.account().held.saturating_sub(before);
    taken.checked_div(u64::from(rounds) * 2)
}
