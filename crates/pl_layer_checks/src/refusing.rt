//! The allocator that refuses a chosen request.
use crate::equal::is;
use pl_refusing::Refusing;
use std::alloc::{Allocator, Global};
use std::process::Abort;

/// A request for memory is made. Answers whether it is refused, how many were made, and whether one was refused.
fn made(heap: &Refusing<Global>) -> (bool, u64, bool) {
    let is_refused = Vec::<u8, _>::with_capacity(heap, 8).is_err();
    (is_refused, heap.requests(), heap.refused())
}

#[test]
fn one_request_is_refused(rt: HostRuntime) {
    let heap = Refusing::new(rt.alloc());
    for chosen in 0..5u64 {
        heap.refuse(chosen);
        is(&rt, "refused before any request", heap.refused(), false);
        for number in 1..5u64 {
            let was_refused = chosen != 0 && chosen <= number;
            let wanted = (number == chosen, number, was_refused);
            is(&rt, "a request", made(&heap), wanted);
        }
    }
}

/// Two bytes fill a vector that has room for them, so that the third asks for memory.
fn push<A: Allocator>(rt: &impl Abort, heap: &Refusing<Global>, bytes: &mut Vec<u8, A>) {
    is(rt, "pushed", bytes.push(1).is_ok(), true);
    is(rt, "pushed", bytes.push(2).is_ok(), true);
    is(rt, "requests", heap.requests(), 1);

    heap.refuse(1);
    is(
        rt,
        "a full vector has to grow",
        bytes.push(3).is_err(),
        true,
    );
    is(rt, "refused", heap.refused(), true);
    is(rt, "bytes", bytes.as_slice(), [1, 2].as_slice());

    is(rt, "pushed", bytes.push(3).is_ok(), true);
    is(rt, "bytes", bytes.as_slice(), [1, 2, 3].as_slice());
    is(rt, "requests", heap.requests(), 2);
}

#[test]
fn a_refused_push_is_made_again(rt: HostRuntime) {
    let heap = Refusing::new(rt.alloc());
    let made = Vec::with_capacity(&heap, 2);
    is(&rt, "made", made.is_ok(), true);
    if let Ok(mut bytes) = made {
        push(&rt, &heap, &mut bytes);
    }
}
