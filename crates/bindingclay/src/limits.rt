//! Limits as C hands them in: words, of which the later ones may be left out.
ghost use Rattle.std.specs.Prelude.{◌≡◌, ◌≤◌, ◌<◌, get_or, IfSome, MatchOption};
ghost use Rattle.pl_model.specs.Numbers.{most_file_bytes, most_capacity, most_descriptors, most_descriptions, most_processes};
ghost use Rattle.bindingclay.specs.Asked.{asked_by, AreNone};

use pl_model::Limits;
use pl_model::numbers::{
    MAX_CAPACITY, MAX_DESCRIPTIONS, MAX_DESCRIPTORS, MAX_FILE_BYTES, MAX_PROCESSES, NO_LIMIT,
};

/// The words of `bindingclay_limits`, whose sixth one holds two fields.
const WORDS: usize = 11;

/// One and the greatest number of 32 bits: how many times the upper half of a word counts.
const HALF: u64 = 4_294_967_296;

/// What a kernel is to be made with.
#[derive(Clone, Copy)]
pub struct Asked {
    pub limits: Limits,
    /// The most bytes that it may hold.
    pub memory: u64,
}

// A word, or what stands for it where it is left out.
fn word(words: &[u64], place: usize, default: u64) -> u64
    ensures { result ≡ get_or words.now place default }
{
    words.get(place).copied().unwrap_or(default)
}

// The same of a number that is at most this; nothing where it is above it.
fn word_within(words: &[u64], place: usize, default: u32, most: u32) -> Option<u32>
    ensures { MatchOption result (most < get_or words.now place default)
        (λ n. (n ≡ get_or words.now place default) × (n ≤ most)) }
{
    let number = word(words, place, u64::from(default));
    if number > u64::from(most) {
        return None;
    }
    Some(number as u32)
}

/// What the words ask for; nothing where there are none of them, or more than are known, or a pipe or a file might have more
/// bytes than any may, or there might be more descriptors in a process, more descriptions or more processes than there may be.
pub fn asked_by(words: &[u64]) -> Option<Asked>
    ensures asked { MatchOption result (AreNone words.now) (λ asked. (asked ≡ asked_by words.now) × (AreNone words.now → ⊥)) }
    ensures most { IfSome result (λ asked. (asked.limits.file_max ≤ most_file_bytes) × (asked.limits.capacity_max ≤ most_capacity)
        × (asked.limits.descriptors_max ≤ most_descriptors) × (asked.limits.descriptions_max ≤ most_descriptions) × (asked.limits.processes_max ≤ most_processes)) }
{
    if words.is_empty() || words.len() > WORDS {
        return None;
    }
    let sizes = word(words, 5, MAX_FILE_BYTES as u64 * HALF + MAX_CAPACITY as u64);
    let capacity_max = (sizes % HALF) as u32;
    let file_max = (sizes / HALF) as u32;
    let usual = Limits::DEFAULT;
    let descriptors_max = word_within(words, 6, usual.descriptors_max, MAX_DESCRIPTORS as u32)?;
    let descriptions_max = word_within(words, 8, usual.descriptions_max, MAX_DESCRIPTIONS as u32)?;
    let processes_max = word_within(words, 9, usual.processes_max, MAX_PROCESSES as u32)?;
    let memory = word(words, 2, NO_LIMIT);
    let spare_max = match word(words, 7, NO_LIMIT) {
        NO_LIMIT => Limits::usual_spare(memory),
        spare_max => spare_max,
    };
    if capacity_max > MAX_CAPACITY || file_max > MAX_FILE_BYTES {
        return None;
    }
    Some(Asked {
        limits: Limits {
            first_call: word(words, 1, 1),
            file_max,
            names_max: word(words, 3, NO_LIMIT),
            waiting_max: word(words, 4, NO_LIMIT),
            waiting_of_each: word(words, 10, NO_LIMIT),
            capacity_max,
            descriptors_max,
            descriptions_max,
            processes_max,
            spare_max,
        },
        memory,
    })
}
