//! Calls that end in any order.
use super::Answer::{self, Nothing, Number};
use super::Ask::{Get, NextOf, Park, Take, TakeBack};
use super::are_answered;
use super::calls::Bench;
use super::calls::Kind::Read;
use std::alloc::Allocator;
use std::process::Abort;

/// The calls of the tests that take them: each is a read that has its number as its bytes, and one of three pids.
pub(super) const CALLS: u32 = 12;

pub(super) fn pid_of(number: u32) -> u32 {
    number % 3 + 1
}

/// The calls 1 to 12 are parked.
pub(super) fn park_all<A: Allocator + Copy>(rt: &impl Abort, bench: &mut Bench<'_, A>) {
    for number in 1..CALLS + 1 {
        let park = Park(pid_of(number), Read(number));
        are_answered(rt, bench, &[(park, Number(u64::from(number)))]);
    }
}

/// A bit for each number of a call that is there.
#[derive(Clone, Copy)]
struct Left(u32);

impl Left {
    /// The calls 1 to 12.
    const ALL: Left = Left(0b1_1111_1111_1110);

    fn has(self, number: u32) -> bool {
        self.0 & 1u32.wrapping_shl(number) != 0
    }

    fn with(self, number: u32) -> Left {
        Left(self.0 | 1u32.wrapping_shl(number))
    }

    fn without(self, number: u32) -> Left {
        Left(self.0 & !1u32.wrapping_shl(number))
    }

    /// The least number, from one on, that is one of the process.
    fn least_of(self, pid: u32, from: u32) -> Answer {
        for number in from..CALLS + 2 {
            if self.has(number) && pid_of(number) == pid {
                return Number(u64::from(number));
            }
        }
        Nothing
    }
}

/// Just the calls of these numbers are there, each under its own.
fn are_left<A: Allocator + Copy>(rt: &impl Abort, bench: &mut Bench<'_, A>, left: Left) {
    for number in 0..CALLS + 2 {
        let want = if left.has(number) {
            Answer::Call(pid_of(number), Read(number))
        } else {
            Nothing
        };
        are_answered(rt, bench, &[(Get(u64::from(number)), want)]);
    }
}

/// The calls of each process are just those of the numbers, which stand in order.
fn are_of_their_process<A: Allocator + Copy>(
    rt: &impl Abort,
    bench: &mut Bench<'_, A>,
    left: Left,
) {
    for pid in 0..5u32 {
        for from in 0..CALLS + 2 {
            let want = left.least_of(pid, from);
            are_answered(rt, bench, &[(NextOf(pid, u64::from(from)), want)]);
        }
    }
}

/// Orders in which the calls are taken: from the front, from the back, and scattered. In each, the calls that are left move
/// together twice and more.
pub(super) const ORDERS: &[&[u32]] = &[
    &[1, 2, 3, 4, 5, 6, 7, 8, 9, 10, 11, 12],
    &[12, 11, 10, 9, 8, 7, 6, 5, 4, 3, 2, 1],
    &[7, 2, 12, 9, 4, 1, 10, 6, 3, 11, 8, 5],
];

/// The calls are taken in the order, each once, and just the others are left. Answers which.
fn take_all<A: Allocator + Copy>(rt: &impl Abort, bench: &mut Bench<'_, A>, order: &[u32]) -> Left {
    let mut left = Left::ALL;
    for number in order {
        let take = Take(u64::from(*number));
        let call = Answer::Call(pid_of(*number), Read(*number));
        are_answered(rt, bench, &[(take, call), (take, Nothing)]);
        left = left.without(*number);
        are_left(rt, bench, left);
        are_of_their_process(rt, bench, left);
    }
    left
}

/// All calls are taken in the order, and the next one gets the next number.
pub(super) fn are_all_taken<A: Allocator + Copy>(
    rt: &impl Abort,
    bench: &mut Bench<'_, A>,
    order: &[u32],
) {
    park_all(rt, bench);
    take_all(rt, bench, order);
    are_left(rt, bench, Left(0));
    are_answered(rt, bench, &[(Park(1, Read(13)), Number(13))]);
}

/// Calls that end before the last one is taken back: the two before it, and enough that the others move together.
pub(super) const ENDED: &[&[u32]] = &[&[12, 11], &[1, 2, 3, 4, 5, 6, 7, 8]];

/// A call is taken back after these ended: the others are there still, and the next one gets its number.
pub(super) fn is_taken_back_after<A: Allocator + Copy>(
    rt: &impl Abort,
    bench: &mut Bench<'_, A>,
    ended: &[u32],
) {
    park_all(rt, bench);
    let left = take_all(rt, bench, ended);
    let back = (TakeBack(2, Read(20)), Answer::Call(2, Read(20)));
    are_answered(rt, bench, &[back]);
    are_left(rt, bench, left);
    are_of_their_process(rt, bench, left);
    are_answered(rt, bench, &[(Park(2, Read(13)), Number(13))]);
    are_of_their_process(rt, bench, left.with(13));
}
