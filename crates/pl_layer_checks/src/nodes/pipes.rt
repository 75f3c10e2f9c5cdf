//! A FIFO and a pipe, and their capacities.
use super::{Row, Wanted};
use crate::ends::Answer::{Busy, Done, Weight};
use crate::ends::Operation::{Fill, Hang, Hold, Read, Reset, Turn, Write};

pub(super) const ROWS: &[Row] = &[
    (Write(b"abc"), Done, Wanted::Pipe(3, 1, false, 1)),
    (Turn, Done, Wanted::Pipe(0, 0, false, 1)),
    (Write(b"de"), Done, Wanted::Pipe(2, 1, false, 2)),
    (Hang(true), Done, Wanted::Pipe(2, 1, true, 2)),
    (Turn, Done, Wanted::Pipe(3, 1, false, 2)),
    // "ab"
    (Read(2), Weight(25_027), Wanted::Pipe(1, 1, false, 2)),
    // into the segment of the byte that is left
    (Write(b"f"), Done, Wanted::Pipe(2, 1, false, 2)),
    // "cf"
    (Read(9), Weight(25_545), Wanted::Pipe(0, 0, false, 1)),
    (Fill(b'a', 5_000), Done, Wanted::Pipe(5_000, 2, false, 3)),
    (Turn, Done, Wanted::Pipe(2, 1, true, 3)),
    // "d"
    (Read(1), Weight(100), Wanted::Pipe(1, 1, true, 3)),
    (Hang(false), Done, Wanted::Pipe(1, 1, false, 3)),
    (Turn, Done, Wanted::Pipe(5_000, 2, false, 3)),
    (
        Read(5_000),
        Weight(2_807_317_128),
        Wanted::Pipe(0, 0, false, 1),
    ),
    // a full pipe: 16 segments, beside that of the other pipe
    (
        Fill(b'b', 70_000),
        Done,
        Wanted::Pipe(65_536, 16, false, 17),
    ),
    (Write(b"c"), Done, Wanted::Pipe(65_536, 16, false, 17)),
    (
        Read(65_536),
        Weight(3_479_306_240),
        Wanted::Pipe(0, 0, false, 1),
    ),
    (Turn, Done, Wanted::Pipe(1, 1, false, 1)),
    // "e"
    (Read(1), Weight(101), Wanted::Pipe(0, 0, false, 0)),
    (Write(b"gh"), Done, Wanted::Pipe(2, 1, false, 1)),
    (Hang(true), Done, Wanted::Pipe(2, 1, true, 1)),
    (Reset, Done, Wanted::Pipe(0, 0, false, 0)),
    // capacities
    (Hold(65_536), Done, Wanted::Capacity(65_536, 0, 0)),
    (Hold(4_096), Done, Wanted::Capacity(4_096, 0, 0)),
    (Fill(b'a', 5_000), Done, Wanted::Capacity(4_096, 4_096, 1)),
    (Hold(8_192), Done, Wanted::Capacity(8_192, 4_096, 1)),
    (Fill(b'a', 1), Done, Wanted::Capacity(8_192, 4_097, 2)),
    (Hold(4_096), Busy, Wanted::Capacity(8_192, 4_097, 2)),
    (Read(1), Weight(97), Wanted::Capacity(8_192, 4_096, 2)),
    (Hold(4_096), Done, Wanted::Capacity(4_096, 4_096, 2)),
    (Fill(b'a', 1), Done, Wanted::Capacity(4_096, 4_096, 2)),
    (Hold(65_536), Done, Wanted::Capacity(65_536, 4_096, 2)),
    (
        Read(4_095),
        Weight(2_676_846_751),
        Wanted::Capacity(65_536, 1, 1),
    ),
    (Hold(1_048_576), Done, Wanted::Capacity(1_048_576, 1, 1)),
    (Hold(4_096), Done, Wanted::Capacity(4_096, 1, 1)),
];
