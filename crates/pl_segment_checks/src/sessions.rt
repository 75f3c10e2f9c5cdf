//! Sessions of two rings and a file.
use crate::fault::Fault;
use crate::operation::Operation::{
    Copy, EndsWith, Holds, InUse, Pop, Push, PushThese, Put, Read, Reset, SetCapacity, Skip, Take,
    Tee, Truncate, Turn, Write, WriteThese,
};
use crate::operation::{MOST, Operation, Session};
use crate::watched::Watched;
use std::alloc::{Allocator, Global};
use std::marker;
use std::test::Fail;

pub(crate) const SESSIONS: &[Session] = &[
    Session {
        name: "a_front_is_copied",
        capacities: (4_096, 4_096),
        most: 0,
        operations: &[
            Push(2),
            Pop(1),
            Tee(1),
            SetCapacity(8_192),
            Push(5_000),
            SetCapacity(4_096),
            Skip(905),
            SetCapacity(4_096),
            Turn,
            Pop(1),
        ],
    },
    // The list of the right ring names a segment several times, and its short slots become one.
    Session {
        name: "one_segment_several_times",
        capacities: (8_192, 16_384),
        most: 0,
        operations: &[
            Push(1_000),
            Tee(1_000),
            Tee(1_000),
            Tee(1),
            Tee(999),
            Tee(1_000),
            Reset,
            Turn,
            Pop(1_500),
            Tee(2_500),
            Skip(2_500),
            Turn,
            Pop(2_500),
        ],
    },
    // After a copy of all, both rings end in the middle of one segment, and both go on.
    Session {
        name: "both_push_behind_one_tail",
        capacities: (65_536, 65_536),
        most: 0,
        operations: &[
            Push(100),
            Tee(100),
            Push(10),
            Turn,
            Push(20),
            Turn,
            Push(4_000),
            Turn,
            Push(4_000),
            Pop(4_110),
            Turn,
            Pop(100),
            Tee(4_000),
            Push(1),
            Turn,
            Push(1),
            Pop(11),
            Pop(4_000),
            Turn,
            Pop(4_011),
        ],
    },
    Session {
        name: "segments_and_one_byte_more",
        capacities: (1_048_576, 65_536),
        most: 0,
        operations: &[
            Push(4_095),
            Push(1),
            Push(4_097),
            Push(63),
            Tee(4_096),
            Tee(4_097),
            Skip(4_095),
            Tee(4_161),
            Turn,
            Pop(8_193),
            SetCapacity(4_096),
            SetCapacity(8_192),
            Push(4_031),
            Turn,
            Reset,
            Push(65_536),
            SetCapacity(1_048_576),
            Push(1),
            Turn,
            Reset,
        ],
    },
    // What went with a pop isn't copied, and the pushed byte that stays is read from both rings.
    Session {
        name: "a_byte_in_both_rings",
        capacities: (4_096, 4_096),
        most: 0,
        operations: &[
            PushThese(b"ab"),
            Pop(1),
            Tee(1),
            Holds(b"b"),
            Turn,
            Holds(b"b"),
        ],
    },
    // A gap of two bytes, which reads as zeros, and a byte copied into it.
    Session {
        name: "a_byte_in_a_gap",
        capacities: (4_096, 4_096),
        most: MOST,
        operations: &[
            WriteThese(2, b"a"),
            EndsWith(0, &[0, 0, 0x61]),
            WriteThese(16_777_216, b"a"),
            EndsWith(0, &[0, 0, 0x61]),
            Copy(2, 1, 0),
            EndsWith(0, &[0x61, 0, 0x61]),
            Truncate,
            InUse(0, 0),
        ],
    },
    // A gap, bytes over others, a copy of bytes, more bytes behind the last one, and a copy behind a gap.
    Session {
        name: "a_file_of_gaps_and_copies",
        capacities: (4_096, 4_096),
        most: MOST,
        operations: &[
            Write(5_000, 3),
            Write(3_000, 1_500),
            Copy(4_000, 1_003, 100),
            Write(5_003, 63),
            Write(5_066, 5_000),
            Copy(2_900, 4_096, 12_000),
            Truncate,
            Write(0, 1),
        ],
    },
    // Of what would pass the greatest length only the first bytes go in, and none where the place is there already.
    Session {
        name: "a_file_that_is_full",
        capacities: (65_536, 4_096),
        most: 10_000,
        operations: &[
            Write(9_000, 1_000),
            Write(9_999, 2),
            Write(10_000, 1),
            Write(10_000, 0),
            Copy(0, 5_000, 6_000),
            Copy(0, 5_000, 10_001),
            Push(4_097),
            Put(4_097, 9_999),
            Put(4_097, 10_000),
            Put(0, 10_000),
            Read(9_990, 100),
            Read(10_000, 1),
        ],
    },
    // A ring goes on reading the bytes of a file that were put into it, whatever becomes of the file.
    Session {
        name: "a_file_goes_and_a_ring_keeps_its_bytes",
        capacities: (65_536, 65_536),
        most: MOST,
        operations: &[
            WriteThese(0, b"abc"),
            Take(0, 2),
            Write(0, 10_000),
            Holds(b"ab"),
            Take(1_000, 9_000),
            Write(1_000, 4_096),
            Tee(5_000),
            Truncate,
            InUse(1, 6),
            Pop(63),
            Write(0, 4_096),
            Pop(4_096),
            Turn,
            Pop(5_000),
            Turn,
            Skip(4_843),
            Holds(b""),
            Truncate,
            InUse(0, 0),
        ],
    },
    // Bytes go from ring to file and back, by way of a gap, and are written over in each.
    Session {
        name: "bytes_go_round",
        capacities: (65_536, 65_536),
        most: MOST,
        operations: &[
            Push(4_095),
            Put(4_095, 4_097),
            Take(0, 8_192),
            Push(1),
            Put(12_288, 1),
            Tee(12_000),
            Write(63, 1),
            Turn,
            Put(63, 0),
            Take(4_096, 4_097),
            Copy(1, 8_192, 4_095),
            Pop(4_097),
            Reset,
            Truncate,
            Turn,
            Skip(12_288),
            InUse(0, 0),
        ],
    },
];

/// Makes the operations, and sees that all is as the lists say after each. It answers how many went well.
fn steps<A: Allocator + marker::Copy>(
    watched: &mut Watched<A>,
    operations: &[Operation],
) -> (usize, Option<Fault>) {
    for row in 0..operations.len() {
        if let Err(fault) = watched.step(operations[row]) {
            return (row, Some(fault));
        }
    }
    (operations.len(), None)
}

/// Makes the operations of a session in `memory`, and answers how many went well, and why the next one didn't.
fn goes<A: Allocator + marker::Copy>(
    alloc: Global,
    memory: A,
    session: &Session,
) -> (usize, Option<Fault>) {
    match Watched::new(alloc, memory, session.capacities, session.most) {
        Ok(mut watched) => steps(&mut watched, session.operations),
        Err(fault) => (0, Some(fault)),
    }
}

/// Each session goes as the lists say.
pub(crate) fn all_go(alloc: Global, sessions: &[Session]) -> Result<(), Fail> {
    for session in sessions {
        if let (row, Some(fault)) = goes(alloc, alloc, session) {
            let name = session.name;
            return Err(Fail::new(format_args!("{fault:?} at row {row} of {name}")));
        }
    }
    Ok(())
}

#[test]
fn rings_and_files_are_lists_of_bytes(rt: HostRuntime) -> Result<(), Fail> {
    all_go(rt.alloc(), SESSIONS)
}
