//! Steps that look like chance.
use crate::acts::{attempt, glance};
use crate::asked::Ask;
use crate::came::Came;
use pl_locked::{Caller, Layer, Locked};
use std::alloc::Allocator;
use std::sync::Wait;

/// The next of a row of numbers below 2,147,483,648 that looks like chance.
fn next(x: u32) -> u32 {
    ((u64::from(x) * 1_103_515_245 + 12_345) % 2_147_483_648) as u32
}

/// The step of a number: a write of more bytes than it may write at once in one piece, a large read, a resumption, an interrupt, a
/// fork, the end of another process, an open of the FIFO, or a close.
fn ask(x: u32) -> Ask {
    match x / 65_536 % 8 {
        0 => Ask::WriteMany,
        1 => Ask::Read(3_000),
        2 => Ask::Resume(u64::from(x % 16)),
        3 => Ask::Interrupt(u64::from(x % 16)),
        4 => Ask::Fork,
        5 => Ask::Exit(2 + x % 8),
        6 => Ask::Open,
        _ => Ask::Close((x % 8) as i32),
    }
}

/// The caller makes so many steps, and glances after each; three others make as many, and three were made before. It comes to
/// something else than `Unit` where a step isn't made, and where a glance tells of fewer steps than the one before and the step
/// after it, or of too many.
pub(crate) fn storm<N: Layer, R: Wait, A: Allocator + Copy>(
    rt: &R,
    alloc: A,
    locked: &Locked<N, A>,
    me: &mut Caller<N, A>,
    steps: u32,
) -> Came {
    let all = u64::from(steps) * 4 + 3;
    let mut x = me.number().wrapping_add(1);
    let mut seen = 0;
    for _time in 0..steps {
        x = next(x);
        let is_made = attempt(rt, alloc, locked, me, ask(x)).is_made();
        let now = glance(locked, me);
        if !is_made || now <= seen || now > all {
            return Came::Other;
        }
        seen = now;
    }
    Came::Unit
}
