//! A row of numbers in which each of the first half is the lesser of two others.
ghost use Rattle.std.specs.Prelude.{◌≡◌, ◌≢◌, ◌≤◌, ◌<◌, ◌*◌, ◌/◌, ℕ, length};
ghost use Rattle.pl_least.specs.None.{none};
ghost use Rattle.pl_least.specs.Tournament.{entry, IsLesser, IsTournament};

/// Makes a row such a one again, of which one entry changed.
pub(crate) fn mend(entries: &mut [u64], places: usize, changed: usize)
    requires halves { length entries.old ≡ 2 * places }
    requires within { changed < 2 * places }
    requires lesser { (k : ℕ) → 1 ≤ k → k < places → k ≢ changed / 2 → IsLesser entries.old k }
    ensures mended { IsTournament entries.new places }
    ensures same { (place : ℕ) → places ≤ place → entry entries.new place ≡ entry entries.old place }
{
    let mut at = changed / 2;
    while at > 0 {
        entries[at] = entries[2 * at].min(entries[2 * at + 1]);
        at /= 2;
    }
}

/// Where the least number of the second half stands, as it stands in each half.
pub(crate) fn least_of(entries: &[u64], places: usize) -> usize
    requires some { 0 < places }
    requires kept { IsTournament entries.now places }
    ensures second { places ≤ result }
    ensures within { result < 2 * places }
    ensures least { (other : ℕ) → places ≤ other → other < 2 * places → entry entries.now result ≤ entry entries.now other }
    ensures most { (other : ℕ) → entry entries.now other ≤ none }
{
    let mut at = 1;
    while at < places {
        at = if entries[2 * at] == entries[at] {
            2 * at
        } else {
            2 * at + 1
        };
    }
    at
}
