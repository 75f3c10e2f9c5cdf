//! In how many segments and slots bytes stand that pipes and files share.
use pl_model::{Limits, Mode, OpenFlags, SpliceFlags};
use pl_testing::asked::Ask::{self, Close, Open, Pipe, Read, SetPipeSz, Splice, Start, Tee, Write};
use pl_testing::asked::Data::{self, Part, Text};
use pl_testing::asked::Want::{self, Bytes, Count, Fd, Fds, Pid, Size, Unit};
use pl_testing::bench::Bench;
use std::alloc::Global;
use std::test::Fail;

/// 256 segments are kept.
const LIMITS: Limits = Limits {
    spare_max: 1_048_576,
    ..Limits::DEFAULT
};

const F: Data = Text("f");

const NEW: &[OpenFlags] = &[OpenFlags::CREAT, OpenFlags::EXCL];

const WITHOUT: &[SpliceFlags] = &[];

/// What is to be seen of a kernel's memory after a step.
#[derive(Clone, Copy)]
enum Seen {
    /// So many segments.
    Segments(u64),
    /// So many segments that are kept for further bytes.
    Spare(u64),
    /// At most so many segments more than before the step.
    MoreSegments(u64),
    /// The pipe of a descriptor of a process has so many slots; `None` where that isn't open on a pipe.
    Slots(u32, i32, Option<u32>),
    /// The pipe of a descriptor of a process has at most so many slots.
    MostSlots(u32, i32, u32),
}

/// Steps on a kernel, and what is to be seen after each.
struct Course {
    name: &'static str,
    rows: &'static [(Ask, Want, &'static [Seen])],
    /// The names of the files that are there at the end.
    names: &'static [Data],
}

const COURSES: &[Course] = &[
    // The first pipe goes on in the segment that a copy shares with it, and the second, whose bytes don't end it any more, in another.
    Course {
        name: "a_shared_tail",
        rows: &[
            (Start, Pid(1), &[]),
            (Pipe(1), Fds(0, 1), &[]),
            (Pipe(1), Fds(2, 3), &[]),
            (Write(1, 1, Text("ab")), Count(2), &[Seen::Segments(1)]),
            (Tee(1, 0, 3, 2, WITHOUT), Count(2), &[Seen::Segments(1)]),
            (Write(1, 1, Text("c")), Count(1), &[Seen::Segments(1)]),
            (Write(1, 3, Text("d")), Count(1), &[Seen::Segments(2)]),
            (Read(1, 0, 9), Bytes(Text("abc")), &[]),
            (
                Read(1, 2, 9),
                Bytes(Text("abd")),
                // two that were held, and one that the last write reserved and didn't use
                &[Seen::Segments(0), Seen::Spare(3)],
            ),
        ],
        names: &[],
    },
    // Bytes that go from a pipe to the beginning of a file, and then over its end, make no segment.
    Course {
        name: "a_splice_to_a_file",
        rows: &[
            (Start, Pid(1), &[]),
            (Pipe(1), Fds(0, 1), &[]),
            (Open(1, F, Mode::Both, NEW), Fd(2), &[]),
            (Write(1, 1, Part(0, 10_000)), Count(10_000), &[]),
            (
                Splice(1, (0, None), (2, None), 6_000, WITHOUT),
                Count(6_000),
                &[Seen::MoreSegments(0)],
            ),
            (
                Splice(1, (0, None), (2, Some(5_000)), 4_000, WITHOUT),
                Count(4_000),
                &[Seen::MoreSegments(0)],
            ),
        ],
        names: &[F],
    },
    // A copy of a full pipe of the greatest capacity shares its bytes: at most three segments are new. There are at most two slots for
    // each 4,096 bytes of a capacity.
    Course {
        name: "a_copy_of_a_full_pipe",
        rows: &[
            (Start, Pid(1), &[]),
            (Pipe(1), Fds(0, 1), &[]),
            (Pipe(1), Fds(2, 3), &[]),
            (SetPipeSz(1, 0, 1_048_576), Size(1_048_576), &[]),
            (SetPipeSz(1, 2, 1_048_576), Size(1_048_576), &[]),
            (Write(1, 1, Part(0, 1_048_576)), Count(1_048_576), &[]),
            (
                Tee(1, 0, 3, 1_048_576, WITHOUT),
                Count(1_048_576),
                &[
                    Seen::MoreSegments(3),
                    Seen::MostSlots(1, 0, 512),
                    Seen::MostSlots(1, 2, 512),
                ],
            ),
            (Read(1, 0, 1_048_576), Bytes(Part(0, 1_048_576)), &[]),
            (
                Read(1, 2, 1_048_576),
                Bytes(Part(0, 1_048_576)),
                &[Seen::Segments(0), Seen::Spare(256)],
            ),
        ],
        names: &[],
    },
    // Slots are told of pipes, and of nothing else.
    Course {
        name: "slots",
        rows: &[
            (
                Start,
                Pid(1),
                &[Seen::Slots(1, 0, None), Seen::Slots(0, 0, None)],
            ),
            (
                Pipe(1),
                Fds(0, 1),
                &[
                    Seen::Slots(1, 0, Some(0)),
                    Seen::Slots(1, 1, Some(0)),
                    Seen::Slots(1, 2, None),
                    Seen::Slots(2, 0, None),
                ],
            ),
            (
                Open(1, F, Mode::Both, NEW),
                Fd(2),
                &[
                    Seen::Slots(1, 2, None),
                    Seen::Slots(1, -1, None),
                    Seen::Slots(1, 256, None),
                ],
            ),
            (
                Write(1, 1, Text("a")),
                Count(1),
                &[
                    Seen::Slots(1, 0, Some(1)),
                    Seen::Slots(1, 1, Some(1)),
                    Seen::Slots(1, 2, None),
                ],
            ),
            (
                Read(1, 0, 1),
                Bytes(Text("a")),
                &[Seen::Slots(1, 0, Some(0)), Seen::Slots(1, 1, Some(0))],
            ),
            (
                Close(1, 0),
                Unit,
                &[Seen::Slots(1, 0, None), Seen::Slots(1, 1, Some(0))],
            ),
        ],
        names: &[F],
    },
];

/// Fails where something else is seen after the step that was asked last. Before it there were so many segments.
fn is_seen(bench: &Bench, ask: Ask, before: u64, seen: Seen) -> Result<(), Fail> {
    match seen {
        Seen::Segments(count) => bench.has_segments(ask, count),
        Seen::Spare(count) if bench.spare() == count => Ok(()),
        Seen::Spare(_) => Err(bench.fault(ask, "keeps another number of segments")),
        Seen::MoreSegments(most) if bench.segments() <= before.saturating_add(most) => Ok(()),
        Seen::MoreSegments(_) => Err(bench.fault(ask, "leaves too many segments")),
        Seen::Slots(pid, fd, slots) => bench.has_slots(ask, pid, fd, slots),
        Seen::MostSlots(pid, fd, most) => match bench.slots(pid, fd) {
            Some(slots) if slots <= most => Ok(()),
            _ => Err(bench.fault(ask, "leaves too many slots")),
        },
    }
}

fn go_through(bench: &mut Bench, course: &Course) -> Result<(), Fail> {
    for (ask, want, seen) in course.rows {
        let before = bench.segments();
        bench.answers(*ask, *want)?;
        for seen in *seen {
            is_seen(bench, *ask, before, *seen)?;
        }
    }
    bench.ends_empty(course.names)
}

fn course_is_seen(alloc: Global, course: &Course) -> Result<(), Fail> {
    let mut bench = Bench::new(course.name, alloc, alloc, LIMITS)?;
    go_through(&mut bench, course)
}

#[test]
fn segments_and_slots_are_few(rt: HostRuntime) -> Result<(), Fail> {
    for course in COURSES {
        course_is_seen(rt.alloc(), course)?;
    }
    Ok(())
}
