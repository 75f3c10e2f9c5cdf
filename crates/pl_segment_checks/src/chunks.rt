//! A file whose slots stand in many chunks.
use crate::drawn::{Drawing, all_drawn};
use crate::operation::Operation::{Copy, HasSlots, InUse, Read, Repeat, Scatter, Truncate, Write};
use crate::operation::{MOST, Operation, Session};
use crate::sessions::all_go;
use crate::without::all_refused;
use std::test::Fail;

/// 6,000 slots of a byte each, in forty chunks: some are cut off, some become one, and all but a few go.
const OF_CHUNKS: &[Session] = &[Session {
    name: "slots_of_a_byte",
    capacities: (4_096, 4_096),
    most: MOST,
    operations: &[
        Write(0, 6_000),
        Scatter(3_000),
        InUse(2, 2),
        HasSlots(6_000),
        Read(2_000, 3),
        Write(2_000, 1),
        Write(0, 1),
        Write(5_999, 1),
        Write(6_000, 1),
        Copy(0, 1_000, 3_000),
        Copy(300, 1_000, 0),
        Copy(7, 1, 3_191),
        Write(1_000, 2_000),
        Copy(700, 5_000, 500),
        Write(1, 5_900),
        InUse(1, 8),
        Truncate,
        InUse(0, 0),
    ],
}];

#[test]
fn a_file_of_many_chunks(rt: HostRuntime) -> Result<(), Fail> {
    all_go(rt.alloc(), OF_CHUNKS)
}

const DRAWN: &[Drawing] = &[Drawing {
    name: "chunks",
    capacities: (4_096, 4_096),
    most: 3_000,
    first: &[Write(0, 2_900), Scatter(1_400)],
    rows: ROWS,
    made: 300,
    then: InUse(0, MOST),
}];

const ROWS: &[Operation] = &[
    Write(3_000, 1),
    Write(3_000, 63),
    Write(3_000, 1_000),
    Copy(3_000, 1, 3_000),
    Copy(3_000, 1, 3_000),
    Copy(3_000, 63, 3_000),
    Copy(3_000, 300, 3_000),
    Copy(3_000, 1_000, 3_000),
];

#[test]
fn many_operations_of_chunks(rt: HostRuntime) -> Result<(), Fail> {
    all_drawn(rt.alloc(), DRAWN)
}

/// Where a chunk is cut off, and where several chunks are put at once, each request for memory is refused in turn.
const REFUSED: &[Session] = &[Session {
    name: "chunks_cut_off",
    capacities: (4_096, 4_096),
    most: MOST,
    operations: &[
        Write(0, 8),
        Scatter(4),
        Copy(0, 8, 8),
        Copy(0, 16, 16),
        Copy(0, 32, 32),
        Copy(0, 64, 64),
        Copy(0, 128, 128),
        Copy(3, 2, 100),
        Copy(0, 250, 250),
        Copy(1, 480, 10),
        Write(100, 1),
        Write(50, 400),
        Write(700, 1),
    ],
}];

#[test]
fn a_want_of_memory_changes_no_chunk(rt: HostRuntime) -> Result<(), Fail> {
    all_refused(rt.alloc(), REFUSED)
}

/// Slices of one segment that are put one before the other are one slot.
const ADJACENT: &[Session] = &[Session {
    name: "slices_one_by_one",
    capacities: (4_096, 4_096),
    most: MOST,
    operations: &[
        Write(0, 8_000),
        Repeat(4_000),
        HasSlots(2),
        InUse(1, 1),
        Truncate,
        InUse(0, 0),
    ],
}];

#[test]
fn adjacent_slices_are_one_slot(rt: HostRuntime) -> Result<(), Fail> {
    all_go(rt.alloc(), ADJACENT)
}
