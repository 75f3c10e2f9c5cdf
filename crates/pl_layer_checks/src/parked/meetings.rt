//! Opens of FIFOs that wait, and the opens that they meet.
use super::Answer::{self, Done, Number};
use super::Ask::{Get, MarkMet, NextNumber, Park};
use super::are_answered;
use super::calls::Bench;
use super::calls::Kind::{self, Open, Read, Write};
use pl_model::Mode;
use std::alloc::Allocator;
use std::process::Abort;

/// The calls that are parked from number 1 on, the opens that come in turn, and the numbers that are met then.
pub(super) type Meeting = (&'static [Kind], &'static [(usize, Mode)], &'static [u64]);

pub(super) const MEETINGS: &[Meeting] = &[
    // An open for writing meets both readers that wait.
    (
        &[Open(7, Mode::Read, false), Open(7, Mode::Read, false)],
        &[(7, Mode::Write)],
        &[1, 2],
    ),
    // One for reading meets no other reader, and one for writing no other writer.
    (&[Open(7, Mode::Read, false)], &[(7, Mode::Read)], &[]),
    (&[Open(7, Mode::Write, false)], &[(7, Mode::Write)], &[]),
    // One for both meets readers and writers, and lacks no end itself.
    (
        &[
            Open(7, Mode::Read, false),
            Open(7, Mode::Write, false),
            Open(7, Mode::Both, false),
        ],
        &[(7, Mode::Both)],
        &[1, 2],
    ),
    // Opens of two FIFOs don't meet, whatever is between.
    (
        &[
            Open(7, Mode::Read, false),
            Open(0, Mode::Read, false),
            Open(7, Mode::Write, false),
            Open(8, Mode::Read, false),
        ],
        &[(7, Mode::Write)],
        &[1],
    ),
    (
        &[Open(7, Mode::Read, false)],
        &[(6, Mode::Both), (8, Mode::Both)],
        &[],
    ),
    // What was met stays met.
    (
        &[Open(7, Mode::Read, false), Open(7, Mode::Write, false)],
        &[
            (7, Mode::Write),
            (7, Mode::Write),
            (7, Mode::Read),
            (9, Mode::Both),
        ],
        &[1, 2],
    ),
    // Other calls stay as they were.
    (
        &[
            Read(10),
            Open(0, Mode::Read, false),
            Write(1),
            Open(0, Mode::Write, false),
        ],
        &[(0, Mode::Both)],
        &[2, 4],
    ),
    (&[], &[(0, Mode::Both)], &[]),
];

pub(super) fn meet<A: Allocator + Copy>(
    rt: &impl Abort,
    bench: &mut Bench<'_, A>,
    meeting: Meeting,
) {
    let (kinds, opens, met) = meeting;
    let mut next = 1u64;
    for kind in kinds {
        are_answered(rt, bench, &[(Park(1, *kind), Number(next))]);
        next = next.saturating_add(1);
    }
    for (pipe, mode) in opens {
        are_answered(rt, bench, &[(MarkMet(*pipe, *mode), Done)]);
    }
    let mut number = 1u64;
    for kind in kinds {
        let kind = if met.contains(&number) {
            kind.met()
        } else {
            *kind
        };
        are_answered(rt, bench, &[(Get(number), Answer::Call(1, kind))]);
        number = number.saturating_add(1);
    }
    are_answered(rt, bench, &[(NextNumber, Number(next))]);
}
