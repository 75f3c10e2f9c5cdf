//! Operations of many steps, where there is memory.
use crate::fault::Fault;
use crate::one_store::OneStore;
use crate::operation::Operation::{Backwards, Drain, Fill, InUse, IsFull, Tee, Truncate, Turn};
use crate::operation::{MOST, Session};
use crate::sessions::all_go;
use std::alloc::{Allocator, Global};
use std::test::Fail;

/// A ring is filled, copied whole, and both are drained one after the other.
const OF_RINGS: &[Session] = &[
    Session {
        name: "a_small_ring_byte_by_byte",
        capacities: (4_096, 4_096),
        most: 0,
        operations: &[
            Fill(1, 1),
            IsFull,
            InUse(1, 2),
            Tee(4_096),
            Drain(1_000),
            Turn,
            IsFull,
            Drain(4_095),
            InUse(0, 0),
        ],
    },
    Session {
        name: "a_small_ring_by_two_sizes",
        capacities: (4_096, 4_096),
        most: 0,
        operations: &[
            Fill(1, 4_096),
            IsFull,
            InUse(1, 2),
            Tee(4_096),
            Drain(1_000),
            Turn,
            IsFull,
            Drain(4_095),
            InUse(0, 0),
        ],
    },
    Session {
        name: "a_large_ring_byte_by_byte",
        capacities: (1_048_576, 1_048_576),
        most: 0,
        operations: &[
            Fill(1, 1),
            IsFull,
            InUse(256, 512),
            Tee(1_048_576),
            Drain(1_000),
            Turn,
            IsFull,
            Drain(4_095),
            InUse(0, 0),
        ],
    },
    Session {
        name: "a_large_ring_by_two_sizes",
        capacities: (1_048_576, 1_048_576),
        most: 0,
        operations: &[
            Fill(1, 4_096),
            IsFull,
            InUse(256, 512),
            Tee(1_048_576),
            Drain(1_000),
            Turn,
            IsFull,
            Drain(4_095),
            InUse(0, 0),
        ],
    },
];

#[test]
fn rings_are_filled_and_drained(rt: HostRuntime) -> Result<(), Fail> {
    all_go(rt.alloc(), OF_RINGS)
}

const OF_A_FILE: &[Session] = &[Session {
    name: "bytes_from_the_last_to_the_first",
    capacities: (4_096, 4_096),
    most: MOST,
    operations: &[Backwards(5_000), InUse(1, 6), Truncate, InUse(0, 0)],
}];

#[test]
fn a_file_is_written_backwards(rt: HostRuntime) -> Result<(), Fail> {
    all_go(rt.alloc(), OF_A_FILE)
}

const A: &[u8] = &[0x61];

const ZERO_AND_A: &[u8] = &[0, 0x61];

/// Writes the last byte that a file may have, and answers how long it is, and how many segments it has.
fn write_last<A: Allocator + Copy>(file: &mut OneStore<A>) -> Result<(usize, usize), Fault> {
    if !matches!(file.write(16_777_215, A, MOST), Ok(1)) {
        return Err(Fault::OtherSizes);
    }
    file.read(16_777_214, 10, ZERO_AND_A)?;
    Ok((file.file_len(), file.in_use()))
}

/// Writes it to a new file.
fn write_last_of_new<A: Allocator + Copy>(alloc: A) -> Result<(usize, usize), Fault> {
    let mut file = OneStore::new(alloc, 4_096, 4_096)?;
    write_last(&mut file)
}

/// The gap is one segment of zeros, and what stays of it at its ends.
#[test]
fn a_gap_takes_few_segments(rt: HostRuntime) -> Result<(), Fail> {
    let (len, in_use) = write_last_of_new(rt.alloc())?;
    assert!(rt;
        len == 16_777_216 && in_use <= 4,
        "{len} bytes in {in_use} segments"
    );
    Ok(())
}
