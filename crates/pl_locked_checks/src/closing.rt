//! How many callers a layer may have, and one that is closed while a caller is missing.
ghost use Rattle.std.specs.Prelude.{◌≡◌, ◌≤◌};
ghost use Rattle.pl_model.specs.Numbers.{most_file_bytes};

use crate::acts::attempt;
use crate::asked::Ask;
use crate::came::Came;
use pl_locked::{Caller, CallerMissing, Ground, Layer, Locked, OpenFault};
use pl_model::Limits;
use pl_testing::LIMITS;
use std::alloc::Global;
use std::marker::Brand;
use std::sync::Wait;
use std::test::Fail;

/// What opening a layer, one step, and closing it without its last caller and then with it, comes to.
#[derive(Clone, Copy, PartialEq)]
enum Opened {
    /// The layer is opened. The number of the caller that is missing, how many callers are handed back then, and how many steps the
    /// layer that is handed back has.
    Closed(u32, usize, usize),
    BadCallers,
    /// Anything else.
    Other,
}

/// Whether the callers are numbered from 0 on.
fn are_numbered<N: Layer>(callers: &[Caller<N>]) -> bool {
    for (place, caller) in callers.iter().enumerate() {
        if caller.number() as usize != place {
            return false;
        }
    }
    true
}

/// Takes the last of these, and puts it behind those.
fn move_last<N: Layer>(from: &mut Vec<Caller<N>>, to: &mut Vec<Caller<N>>) -> bool {
    match from.pop() {
        Some(last) => to.push(last).is_ok(),
        None => false,
    }
}

/// The first caller makes the layer's only step.
fn starts<N: Layer, R: Wait>(
    rt: &R,
    alloc: Global,
    locked: &Locked<N>,
    callers: &mut [Caller<N>],
) -> bool {
    match callers.first_mut() {
        Some(me) => attempt(rt, alloc, locked, me, Ask::Start) == Came::Pid(1),
        None => false,
    }
}

/// Closes the layer with the caller that was missing.
fn close_whole<N: Layer>(missing: CallerMissing<N>, last: &mut Vec<Caller<N>>) -> Opened {
    let CallerMissing {
        number,
        locked,
        mut callers,
    } = missing;
    let handed_back = callers.len();
    let is_whole = move_last(last, &mut callers);
    match locked.close(callers) {
        Ok((part, _)) if is_whole => { Opened::Closed(number, handed_back, part.journal.len()) }
        _ => Opened::Other,
    }
}

/// Makes a step, and closes the layer without its last caller, and then with it.
fn close_twice<N: Layer, R: Wait>(
    rt: &R,
    alloc: Global,
    locked: Locked<N>,
    mut callers: Vec<Caller<N>>,
) -> Opened {
    let mut last = Vec::new(alloc);
    let is_right = are_numbered(callers.as_slice())
        && starts(rt, alloc, &locked, callers.as_mut_slice())
        && move_last(&mut callers, &mut last);
    match locked.close(callers) {
        Err(missing) if is_right => close_whole(missing, &mut last),
        _ => Opened::Other,
    }
}

fn open<N: Layer, R: Wait>(
    rt: &R,
    alloc: Global,
    ground: Ground,
    limits: Limits,
    callers: u32,
    max_steps: u32,
) -> Opened
    requires ground { (ground.name ≡ N.name) × (ground.parts ≡ N.parts) × (ground.table ≡ N.table) }
    requires limits { limits ≡ N.limits }
    requires file_max { limits.file_max ≤ most_file_bytes }
    requires callers { callers ≡ N.callers }
    requires steps { max_steps ≡ N.max_steps }
{
    match Locked::<N>::open(alloc, ground, limits, callers, u64::from(max_steps)) {
        Ok((locked, callers)) => close_twice(rt, alloc, locked, callers),
        Err(OpenFault::BadCallers) => Opened::BadCallers,
        Err(OpenFault::NoMemory) => Opened::Other,
    }
}

/// What a layer of so many callers comes to.
fn try_with<R: Wait>(rt: &R, alloc: Global, callers: u32) -> Opened {
    match Ground::new(alloc) {
        Ok(ground) => open::<Brand, R>(rt, alloc, ground, LIMITS, callers, 1),
        Err(_) => Opened::Other,
    }
}

#[test]
fn from_1_to_64_callers(rt: HostRuntime) -> Result<(), Fail> {
    for callers in [0, 65] {
        assert!(rt;
            try_with(&rt, rt.alloc(), callers) == Opened::BadCallers,
            "{callers} callers"
        );
    }
    for last in [0, 1, 63u8] {
        let closed = Opened::Closed(u32::from(last), usize::from(last), 1);
        assert!(rt;
            try_with(&rt, rt.alloc(), u32::from(last) + 1) == closed,
            "{last} callers, and one"
        );
    }
    Ok(())
}
