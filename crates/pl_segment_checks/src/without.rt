//! Sessions of two rings and a file where each request for memory is refused in turn.
use crate::fault::Fault;
use crate::operation::{Operation, Session};
use crate::sessions::SESSIONS;
use crate::watched::Watched;
use pl_refusing::{MOST_REQUESTS, Refusing};
use std::alloc::{Allocator, Global};
use std::test::Fail;

/// Where an operation found memory, no request was refused, but one by which a write copies slots together; and one that is to take none
/// made none since there were so many. It answers whether one was refused.
fn made(heap: &Refusing<Global>, operation: Operation, requests: u64) -> Result<bool, Fault> {
    let refused = heap.refused();
    if refused && !operation.is_write() || operation.takes_none() && heap.requests() != requests {
        return Err(Fault::OtherRequests);
    }
    if refused {
        heap.refuse(0);
    }
    Ok(refused)
}

/// Where an operation found no memory all is as it was, with as many segments, and the operation can be made again.
fn once_more<A: Allocator + Copy>(
    watched: &mut Watched<A>,
    operation: Operation,
    in_use: usize,
) -> Result<bool, Fault> {
    watched.check()?;
    watched.in_use_within(in_use, in_use)?;
    watched.make(operation)?;
    Ok(true)
}

/// Makes the operation in memory where a request may be refused, and answers whether it was.
fn make_again<A: Allocator + Copy>(
    heap: &Refusing<Global>,
    watched: &mut Watched<A>,
    operation: Operation,
) -> Result<bool, Fault> {
    let in_use = watched.in_use();
    let requests = heap.requests();
    match watched.make(operation) {
        Ok(()) => made(heap, operation, requests),
        Err(Fault::NoMemory) if heap.refused() => {
            heap.refuse(0);
            once_more(watched, operation, in_use)
        }
        Err(fault) => Err(fault),
    }
}

/// Makes the operations, and answers whether a request for memory was refused.
fn make_each<A: Allocator + Copy>(
    heap: &Refusing<Global>,
    watched: &mut Watched<A>,
    operations: &[Operation],
) -> Result<bool, Fault> {
    let mut was_refused = false;
    for operation in operations {
        if make_again(heap, watched, *operation)? {
            was_refused = true;
        }
    }
    heap.refuse(0);
    watched.check()?;
    Ok(was_refused)
}

/// Makes two rings and a file in `memory`, and the operations of a session, where a request may be refused. It answers whether one was
/// as the operations were made, and finds no memory where one was before.
fn make_session<A: Allocator + Copy>(
    alloc: Global,
    memory: A,
    heap: &Refusing<Global>,
    session: &Session,
) -> Result<bool, Fault> {
    let mut watched = Watched::new(alloc, memory, session.capacities, session.most)?;
    make_each(heap, &mut watched, session.operations)
}

/// Makes a session where the `n`th request for memory is refused, and answers whether one was. Rings that find no memory can be made
/// once there is some.
fn refuse_one(
    alloc: Global,
    heap: &Refusing<Global>,
    session: &Session,
    n: u64,
) -> Result<bool, Fault> {
    heap.refuse(n);
    let made = make_session(alloc, heap, heap, session);
    if matches!(made, Err(Fault::NoMemory)) && heap.refused() {
        heap.refuse(0);
        make_session(alloc, heap, heap, session)?;
        return Ok(true);
    }
    made
}

/// Refuses each request for memory of the session in turn, until none is refused. It answers how many there were.
fn refuse_each(alloc: Global, heap: &Refusing<Global>, session: &Session) -> Result<u64, Fault> {
    for n in 1..MOST_REQUESTS {
        if !refuse_one(alloc, heap, session, n)? {
            return Ok(n - 1);
        }
    }
    Err(Fault::OtherRequests)
}

/// In each session each request for memory is refused in turn.
pub(crate) fn all_refused(alloc: Global, sessions: &[Session]) -> Result<(), Fail> {
    let heap = Refusing::new(alloc);
    for session in sessions {
        let refused = refuse_each(alloc, &heap, session);
        if !matches!(refused, Ok(1..)) {
            let name = session.name;
            return Err(Fail::new(format_args!("{refused:?} requests of {name}")));
        }
    }
    Ok(())
}

#[test]
fn a_want_of_memory_changes_nothing(rt: HostRuntime) -> Result<(), Fail> {
    all_refused(rt.alloc(), SESSIONS)
}
