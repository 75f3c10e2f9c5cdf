//! A file beside a pipe that holds bytes.
use super::{Row, Wanted};
use crate::ends::Answer::{Count, Done, TooBig, Weight};
use crate::ends::Operation::{EmptyFile, FillFile, Read, ReadFile, Unlink, Write, WriteFile};

pub(super) const ROWS: &[Row] = &[
    (Write(b"pipe"), Done, Wanted::Pipe(4, 1, false, 1)),
    (ReadFile(0, 9), Weight(0), Wanted::File(0)),
    (WriteFile(0, b"abc"), Count(3), Wanted::File(3)),
    // "abc", and none past the end
    (ReadFile(0, 9), Weight(6_432_038), Wanted::File(3)),
    (WriteFile(1, b"Z"), Count(1), Wanted::File(3)),
    // "aZc"
    (ReadFile(0, 9), Weight(6_429_982), Wanted::File(3)),
    // a gap reads as zeros: "c\0\0e"
    (WriteFile(5, b"e"), Count(1), Wanted::File(6)),
    (ReadFile(2, 9), Weight(1_680_484_808), Wanted::File(6)),
    (WriteFile(9, b""), Count(0), Wanted::File(6)),
    // as many as fit, and none where none fits
    (WriteFile(9_999, b"xy"), Count(1), Wanted::File(10_000)),
    (WriteFile(10_000, b"z"), TooBig, Wanted::File(10_000)),
    (WriteFile(10_000, b""), Count(0), Wanted::File(10_000)),
    // "\0x"
    (ReadFile(9_998, 9), Weight(120), Wanted::File(10_000)),
    (ReadFile(10_000, 1), Weight(0), Wanted::File(10_000)),
    (EmptyFile, Done, Wanted::File(0)),
    (
        FillFile(0, b'a', 20_000),
        Count(10_000),
        Wanted::File(10_000),
    ),
    (WriteFile(4_096, b"b"), Count(1), Wanted::File(10_000)),
    // "aba"
    (ReadFile(4_095, 3), Weight(6_432_036), Wanted::File(10_000)),
    // The pipe holds "pipe" still.
    (Read(9), Weight(1_908_118_446), Wanted::Any),
    (Unlink("file"), Done, Wanted::Same),
];
