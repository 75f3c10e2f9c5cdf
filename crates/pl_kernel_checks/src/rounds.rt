//! Bytes that go there and back between two pipes, a hundred times.
use pl_model::SpliceFlags;
use pl_testing::LIMITS;
use pl_testing::asked::Ask::{self, Pipe, Read, Splice, Start, Tee, Write};
use pl_testing::asked::Data::Part;
use pl_testing::asked::Want::{self, Bytes, Count, Fds, Pid};
use pl_testing::bench::Bench;
use std::test::Fail;

const WITHOUT: &[SpliceFlags] = &[];

/// The first pipe has 10,000 bytes, in two pieces.
const TWO_PIPES: &[(Ask, Want)] = &[
    (Start, Pid(1)),
    (Pipe(1), Fds(0, 1)),
    (Pipe(1), Fds(2, 3)),
    (Write(1, 1, Part(0, 6_000)), Count(6_000)),
    (Write(1, 1, Part(6_000, 4_000)), Count(4_000)),
];

/// Each pipe is copied to the other, and read empty.
const TEES: &[(Ask, Want)] = &[
    (Tee(1, 0, 3, 20_000, WITHOUT), Count(10_000)),
    (Read(1, 0, 20_000), Bytes(Part(0, 10_000))),
    (Tee(1, 2, 1, 7_001, WITHOUT), Count(7_001)),
    (Read(1, 2, 7_001), Bytes(Part(0, 7_001))),
    (
        Splice(1, (2, None), (1, None), 20_000, WITHOUT),
        Count(2_999),
    ),
];

/// All bytes of each go to the other.
const SPLICES: &[(Ask, Want)] = &[
    (
        Splice(1, (0, None), (3, None), 3_333, WITHOUT),
        Count(3_333),
    ),
    (
        Splice(1, (0, None), (3, None), 20_000, WITHOUT),
        Count(6_667),
    ),
    (
        Splice(1, (2, None), (1, None), 20_000, WITHOUT),
        Count(10_000),
    ),
];

const ALL_OF_THEM: &[(Ask, Want)] = &[(Read(1, 0, 20_000), Bytes(Part(0, 10_000)))];

fn go_round(bench: &mut Bench) -> Result<(), Fail> {
    bench.all_answer(TWO_PIPES)?;
    for _round in 0..100u8 {
        bench.all_answer(TEES)?;
        bench.all_answer(SPLICES)?;
    }
    bench.all_answer(ALL_OF_THEM)?;
    bench.ends_empty(&[])
}

#[test]
fn a_hundred_rounds(rt: HostRuntime) -> Result<(), Fail> {
    let mut bench = Bench::new("a_hundred_rounds", rt.alloc(), rt.alloc(), LIMITS)?;
    go_round(&mut bench)
}
