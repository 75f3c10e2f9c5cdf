//! Sessions of a ring of packets.
use crate::kept::{Fault, Kept};
use pl_refusing::{MOST_REQUESTS, Refusing};
use std::alloc::{Allocator, Global};
use std::test::Fail;

/// What is done to a ring, or what is wanted of it. Bytes that are pushed count from 0 in each push, below 251 and again.
#[derive(Clone, Copy)]
enum Operation {
    /// So many bytes are pushed.
    Push(usize),
    /// A packet is taken by a read of so many bytes, which gives bytes that count from the second number on, as many as the third says.
    Pop(usize, u8, usize),
    /// A packet is taken into a list of so many bytes, which count from the second number on.
    PopInto(usize, u8),
    /// The ring is to have so many places.
    SetCapacity(usize),
    /// The operation isn't made, as it doesn't fit.
    Unfit(&'static Operation),
    /// It isn't made, as more packets are held.
    Busy(&'static Operation),
    /// All packets go.
    Clear,
    /// There are so many packets, and so many more fit; they have so many bytes, in as many segments as packets.
    Counts(usize, usize, usize),
}

use Operation::{Busy, Clear, Counts, Pop, PopInto, Push, SetCapacity, Unfit};

/// A packet has 4,096 bytes at most, takes a place whatever it has, and is never one with another. A read takes one whole: what it
/// doesn't give is gone.
const SESSION: &[Operation] = &[
    Counts(0, 2, 0),
    Push(0),
    Counts(0, 2, 0),
    Unfit(&Pop(1, 0, 0)),
    Push(5_000),
    Counts(2, 0, 5_000),
    Unfit(&Push(1)),
    Busy(&SetCapacity(1)),
    Pop(9, 0, 9),
    Counts(1, 1, 904),
    SetCapacity(1),
    Counts(1, 0, 904),
    Pop(9_000, 80, 904),
    Counts(0, 1, 0),
    SetCapacity(4),
    Push(4_096),
    Push(1),
    Push(4_097),
    Counts(4, 0, 8_194),
    PopInto(4_096, 0),
    Unfit(&PopInto(2, 0)),
    PopInto(0, 0),
    Counts(2, 2, 4_097),
    Pop(4_096, 0, 4_096),
    Push(8_192),
    Unfit(&Push(4_097)),
    Counts(3, 1, 8_193),
    Pop(1, 80, 1),
    Busy(&SetCapacity(1)),
    SetCapacity(2),
    Clear,
    Counts(0, 2, 0),
];

/// The most packets of a ring.
const FULL: &[Operation] = &[
    SetCapacity(256),
    Push(1_048_575),
    Counts(256, 0, 1_048_575),
    Busy(&SetCapacity(255)),
    Clear,
    Counts(0, 256, 0),
];

/// Whether bytes count from a first one on.
fn count_from(bytes: &[u8], first: u8, len: usize) -> Result<(), Fault> {
    let mut wanted = first;
    for byte in bytes {
        if *byte != wanted {
            return Err(Fault::Other);
        }
        wanted = if wanted == 250 {
            0
        } else {
            wanted.wrapping_add(1)
        };
    }
    if bytes.len() == len {
        Ok(())
    } else {
        Err(Fault::Other)
    }
}

/// So many bytes that count from 0 on.
fn counting(alloc: Global, len: usize) -> Result<Vec<u8>, Fault> {
    let mut bytes = vec![in alloc; 0u8; len]?;
    for i in 0..bytes.len() {
        bytes[i] = (i % 251) as u8;
    }
    Ok(bytes)
}

/// Makes an operation. What it reads is as it should be.
fn make<A: Allocator + Copy>(
    alloc: Global,
    kept: &mut Kept<A>,
    operation: Operation,
) -> Result<(), Fault> {
    match operation {
        Push(len) => kept.push(counting(alloc, len)?.as_slice()),
        Pop(count, first, len) => count_from(kept.pop(count)?.as_slice(), first, len),
        PopInto(len, first) => {
            let mut into = vec![in alloc; 255u8; len]?;
            kept.pop_into(into.as_mut_slice())?;
            count_from(into.as_slice(), first, len)
        }
        SetCapacity(places) => kept.set_capacity(places),
        Clear => {
            kept.clear();
            Ok(())
        }
        Counts(slots, places, bytes) if kept.counts() == (slots, places, bytes, slots) => Ok(()),
        _ => Err(Fault::Other),
    }
}

/// Makes an operation, or one that isn't to be made and changes nothing.
fn go<A: Allocator + Copy>(
    alloc: Global,
    kept: &mut Kept<A>,
    operation: Operation,
) -> Result<(), Fault> {
    let (refused, wanted) = match operation {
        Unfit(refused) => (*refused, Fault::Unfit),
        Busy(refused) => (*refused, Fault::Busy),
        made => return make(alloc, kept, made),
    };
    let before = kept.counts();
    match make(alloc, kept, refused) {
        Err(fault) if fault == wanted && kept.counts() == before => Ok(()),
        _ => Err(Fault::Other),
    }
}

/// Makes a session where the `n`th request for memory is refused. It tells whether one was: then the call changed nothing, and is made
/// again.
fn session_without(
    alloc: Global,
    heap: &Refusing<Global>,
    session: &[Operation],
    n: u64,
) -> Result<bool, Fault> {
    heap.refuse(0);
    let mut kept = Kept::new(heap)?;
    heap.refuse(n);
    let mut was_refused = false;
    for operation in session {
        let before = kept.counts();
        match go(alloc, &mut kept, *operation) {
            Err(Fault::NoMemory) if heap.refused() && kept.counts() == before => {
                heap.refuse(0);
                was_refused = true;
                go(alloc, &mut kept, *operation)?;
            }
            made => made?,
        }
    }
    Ok(was_refused)
}

#[test]
fn packets_are_taken_whole(rt: HostRuntime) -> Result<(), Fail> {
    let heap = Refusing::new(rt.alloc());
    for session in [SESSION, FULL] {
        let made = session_without(rt.alloc(), &heap, session, 0);
        if made != Ok(false) {
            return Err(Fail::new(format_args!("{made:?}")));
        }
    }
    Ok(())
}

#[test]
fn each_request_is_refused_in_turn(rt: HostRuntime) -> Result<(), Fail> {
    let heap = Refusing::new(rt.alloc());
    for n in 1..MOST_REQUESTS {
        match session_without(rt.alloc(), &heap, SESSION, n) {
            Ok(true) => {}
            Ok(false) if 10 < n => return Ok(()),
            made => return Err(Fail::new(format_args!("{made:?} at request {n}"))),
        }
    }
    Err(Fail::new("there is no end of requests"))
}
