//! Bytes that go between two pipes and a file.
use super::{Row, Wanted};
use crate::ends::Answer::{Count, Done, Exists, NoSuchName, TooBig, Weight};
use crate::ends::Operation::{
    Copy, FromFile, Hold, MakeFifo, Move, Read, ReadFile, ToFile, Turn, Unlink, Write, WriteFile,
};

pub(super) const ROWS: &[Row] = &[
    // a FIFO isn't made where there is a file
    (MakeFifo("file"), Exists, Wanted::All((0, 0), (0, 0), 0, 0)),
    (MakeFifo("g"), Done, Wanted::All((0, 0), (0, 0), 0, 0)),
    (Unlink("h"), NoSuchName, Wanted::All((0, 0), (0, 0), 0, 0)),
    (Write(b"abc"), Done, Wanted::All((3, 1), (0, 0), 0, 1)),
    // "ab" to the second pipe, then "a": no byte is copied
    (Copy(2), Done, Wanted::All((3, 1), (2, 1), 0, 1)),
    (Move(1), Done, Wanted::All((2, 1), (3, 2), 0, 1)),
    (ToFile(0, 2), Count(2), Wanted::All((2, 1), (1, 1), 2, 1)),
    // "b"
    (FromFile(1, 1), Done, Wanted::All((3, 2), (1, 1), 2, 1)),
    (
        WriteFile(2, b"z"),
        Count(1),
        Wanted::All((3, 2), (1, 1), 3, 2),
    ),
    // "abz"
    (
        ReadFile(0, 9),
        Weight(6_432_061),
        Wanted::All((3, 2), (1, 1), 3, 2),
    ),
    // "bcb"
    (
        Read(3),
        Weight(6_498_343),
        Wanted::All((0, 0), (1, 1), 3, 2),
    ),
    (Hold(4_096), Done, Wanted::All((0, 0), (1, 1), 3, 2)),
    // none past the end of the file
    (FromFile(3, 9), Done, Wanted::All((0, 0), (1, 1), 3, 2)),
    // "z"
    (FromFile(2, 9), Done, Wanted::All((1, 1), (1, 1), 3, 2)),
    // none that fits, and none at all
    (ToFile(10_000, 1), TooBig, Wanted::All((1, 1), (1, 1), 3, 2)),
    (
        ToFile(10_000, 0),
        Count(0),
        Wanted::All((1, 1), (1, 1), 3, 2),
    ),
    (Move(1), Done, Wanted::All((0, 0), (2, 2), 3, 2)),
    // "a" fits, and "z" stays; the zeros of the gap are one segment
    (
        ToFile(9_999, 2),
        Count(1),
        Wanted::All((0, 0), (1, 1), 10_000, 3),
    ),
    // "\0a"
    (
        ReadFile(9_998, 9),
        Weight(97),
        Wanted::All((0, 0), (1, 1), 10_000, 3),
    ),
    (Turn, Done, Wanted::All((1, 1), (0, 0), 10_000, 3)),
    // "z"
    (Read(9), Weight(122), Wanted::All((0, 0), (0, 0), 10_000, 3)),
];
