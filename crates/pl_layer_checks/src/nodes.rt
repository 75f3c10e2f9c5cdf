//! Pipes, a file, names, and bytes that go between them over one store of segments, with memory and without.
mod files;
mod moves;
mod names;
mod pipes;

use crate::ends::{Answer, Ends, FILE_MAX, Operation, Told, weight};
use crate::equal::is;
use Answer::{Busy, Done, Weight};
use Operation::{Fill, Hold, Read, ReadFile, Turn, Unlink, Write};
use pl_refusing::Refusing;
use std::alloc::{Allocator, Global};
use std::process::Abort;

/// What is wanted to be told after an operation. What isn't named may be anything.
#[derive(Clone, Copy)]
enum Wanted {
    Any,
    /// What was told before it.
    Same,
    /// Of the first pipe, whose capacity is that of a new one, how many bytes it holds, in how many slots, and whether it is hung;
    /// how many segments there are.
    Pipe(usize, usize, bool, usize),
    /// The capacity of the first pipe, how many bytes it holds, and in how many slots.
    Capacity(usize, usize, usize),
    /// The first pipe holds so many bytes, and no more.
    Full(usize),
    /// How many bytes the file has, where the first pipe holds four.
    File(usize),
    /// How many bytes each pipe holds, and in how many slots; how many the file has; how many segments there are.
    All((usize, usize), (usize, usize), usize, usize),
}

/// An operation, what it answers, and what is told after it.
type Row = (Operation, Answer, Wanted);

/// All that is wanted: what isn't named is what is told.
fn complete(before: Told, told: Told, want: Wanted) -> Told {
    match want {
        Wanted::Any => told,
        Wanted::Same => before,
        Wanted::Pipe(held, slots, is_hung, segments) => Told {
            capacity: 65_536,
            room: 65_536usize.saturating_sub(held),
            is_hung,
            first: (held, slots),
            segments,
            ..told
        },
        Wanted::Capacity(capacity, held, slots) => Told {
            capacity,
            first: (held, slots),
            ..told
        },
        Wanted::Full(capacity) => Told {
            capacity,
            room: 0,
            first: (capacity, told.first.1),
            ..told
        },
        Wanted::File(file) => Told {
            first: (4, told.first.1),
            file,
            ..told
        },
        Wanted::All(first, second, file, segments) => Told {
            first,
            second,
            file,
            segments,
            ..told
        },
    }
}

/// Does an operation, and again where it is refused, which leaves all as it was. Answers how often it was refused.
fn insist<A: Allocator + Copy>(rt: &impl Abort, name: &str, ends: &mut Ends<A>, row: Row) -> u32 {
    let (operation, answer, want) = row;
    let before = ends.tell();
    let mut refusals = 0;
    let mut answered = ends.make(operation);
    if answered == Answer::NoMemory {
        is(rt, name, ends.tell(), before);
        refusals = 1;
        answered = ends.make(operation);
    }
    let told = ends.tell();
    is(rt, name, answered, answer);
    is(rt, name, told, complete(before, told, want));
    refusals
}

/// Does all, in turn. Answers how many operations were refused.
fn insist_on_all<A: Allocator + Copy>(
    rt: &impl Abort,
    name: &str,
    ends: &mut Ends<A>,
    rows: &[Row],
) -> u32 {
    let mut refusals = 0u32;
    for row in rows {
        refusals = refusals.wrapping_add(insist(rt, name, ends, *row));
    }
    refusals
}

/// Each power of two that may be a capacity, and the weight of so many bytes `a`.
const CAPACITIES: &[(usize, u32)] = &[
    (4_096, 754_847_744),
    (8_192, 1_509_695_488),
    (16_384, 3_019_390_976),
    (32_768, 1_743_814_656),
    (65_536, 3_487_629_312),
    (131_072, 2_680_291_328),
    (262_144, 1_065_615_360),
    (524_288, 2_131_230_720),
    (1_048_576, 4_262_461_440),
];

/// A pipe that holds a byte more than so many is busy, but where no pipe holds more; with just so many it keeps them.
fn lower<A: Allocator + Copy>(
    rt: &impl Abort,
    name: &str,
    ends: &mut Ends<A>,
    capacity: usize,
    weight: u32,
) {
    let filled = [
        (Hold(1_048_576), Done, Wanted::Capacity(1_048_576, 0, 0)),
        (Fill(b'a', capacity), Done, Wanted::Any),
    ];
    insist_on_all(rt, name, ends, &filled);
    if capacity < 1_048_576 {
        let busy = [
            (Fill(b'a', 1), Done, Wanted::Any),
            (Hold(capacity), Busy, Wanted::Same),
            (Read(1), Weight(97), Wanted::Any),
        ];
        insist_on_all(rt, name, ends, &busy);
    }
    let full = [
        (Hold(capacity), Done, Wanted::Full(capacity)),
        (Fill(b'a', 1), Done, Wanted::Full(capacity)),
        (Read(capacity), Weight(weight), Wanted::Any),
    ];
    insist_on_all(rt, name, ends, &full);
}

/// What the first pipe, the second and the file hold, which are empty and without a name then.
fn drain<A: Allocator + Copy>(
    rt: &impl Abort,
    name: &str,
    ends: &mut Ends<A>,
    texts: (&str, &str, &str),
) {
    let (first, second, file) = texts;
    let rows = [
        (Read(65_536), Weight(weight(first.as_bytes())), Wanted::Any),
        (Turn, Done, Wanted::Any),
        (Read(65_536), Weight(weight(second.as_bytes())), Wanted::Any),
        (
            ReadFile(0, FILE_MAX),
            Weight(weight(file.as_bytes())),
            Wanted::Any,
        ),
        (Unlink("file"), Done, Wanted::Same),
    ];
    insist_on_all(rt, name, ends, &rows);
}

/// What is tried on new pipes and a new file.
#[derive(Clone, Copy)]
enum Trial {
    Rows(&'static [Row]),
    Capacities,
    /// After so many rows these texts are what the first pipe, the second and the file hold.
    Contents(&'static [Row], usize, (&'static str, &'static str, &'static str)),
}

/// What is tried, with its name; how many requests for memory it doesn't make at the most, each of which is refused in turn; and
/// how many segments are left once the first pipe and the file have gone that have no name.
const TRIALS: &[(&str, Trial, u64, usize)] = &[
    ("pipes", Trial::Rows(pipes::ROWS), 150, 0),
    ("a file beside a pipe", Trial::Rows(files::ROWS), 60, 0),
    ("names", Trial::Rows(names::ROWS), 40, 0),
    ("moves", Trial::Rows(moves::ROWS), 80, 3),
    ("capacities", Trial::Capacities, 1, 0),
    (
        "contents",
        Trial::Contents(moves::ROWS, 4, ("abc", "", "")),
        1,
        0,
    ),
    (
        "contents",
        Trial::Contents(moves::ROWS, 5, ("abc", "ab", "")),
        1,
        0,
    ),
    (
        "contents",
        Trial::Contents(moves::ROWS, 6, ("bc", "aba", "")),
        1,
        0,
    ),
    (
        "contents",
        Trial::Contents(moves::ROWS, 7, ("bc", "a", "ab")),
        1,
        0,
    ),
    (
        "contents",
        Trial::Contents(moves::ROWS, 8, ("bcb", "a", "ab")),
        1,
        0,
    ),
    (
        "contents",
        Trial::Contents(moves::ROWS, 9, ("bcb", "a", "abz")),
        1,
        0,
    ),
    (
        "contents",
        Trial::Contents(moves::ROWS, 12, ("", "a", "abz")),
        1,
        0,
    ),
    // a pipe goes with its bytes, and a FIFO that has no name
    (
        "a pipe",
        Trial::Rows(&[
            (Write(b"abc"), Done, Wanted::Any),
            (Turn, Done, Wanted::Any),
            (Write(b"d"), Done, Wanted::Any),
        ]),
        1,
        1,
    ),
    (
        "a FIFO",
        Trial::Rows(&[
            (Write(b"abc"), Done, Wanted::Any),
            (Turn, Done, Wanted::Any),
            (Write(b"d"), Done, Wanted::Any),
            (Turn, Done, Wanted::Any),
            (Unlink("fifo"), Done, Wanted::Same),
        ]),
        1,
        1,
    ),
];

/// Its rows are read here alone.
fn trials() -> &'static [(&'static str, Trial, u64, usize)] {
    TRIALS
}

fn tries<A: Allocator + Copy>(
    rt: &impl Abort,
    name: &str,
    ends: &mut Ends<A>,
    trial: Trial,
) -> u32 {
    match trial {
        Trial::Rows(rows) => insist_on_all(rt, name, ends, rows),
        Trial::Capacities => {
            for (capacity, weight) in CAPACITIES {
                lower(rt, name, ends, *capacity, *weight);
            }
            0
        }
        Trial::Contents(rows, count, texts) => {
            insist_on_all(rt, name, ends, &rows[..count.min(rows.len())]);
            drain(rt, name, ends, texts);
            0
        }
    }
}

/// Tries it on new ones, and answers how many operations were refused, and how many segments are left; `None` where it is refused to
/// make them. They stand here alone, so that the end of them is proved once.
fn on_new<A: Allocator + Copy>(
    rt: &impl Abort,
    name: &str,
    alloc: A,
    trial: Trial,
) -> Option<(u32, usize)> {
    let Ok(mut ends) = Ends::new(alloc) else {
        return None;
    };
    let refusals = tries(rt, name, &mut ends, trial);
    Some((refusals, ends.discard()))
}

/// Tries it where each request for memory is refused in turn, below a number of which none is.
fn meets(rt: &impl Abort, alloc: Global, name: &str, trial: Trial, requests: u64, left: usize) {
    let heap = Refusing::new(alloc);
    for chosen in 0..requests {
        heap.refuse(chosen);
        let told = match on_new(rt, name, &heap, trial) {
            Some(told) => Some(told),
            None => match on_new(rt, name, &heap, trial) {
                Some((refusals, left)) => Some((refusals.wrapping_add(1), left)),
                None => None,
            },
        };
        is(rt, name, told, Some((heap.refused() as u32, left)));
    }
    is(rt, name, heap.refused(), false);
}

#[test]
fn pipes_a_file_and_names_over_one_store(rt: HostRuntime) {
    for (name, trial, requests, left) in trials() {
        meets(&rt, rt.alloc(), name, *trial, *requests, *left);
    }
}
