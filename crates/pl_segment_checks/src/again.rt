//! A ring that is filled again.
use crate::fault::Fault;
use crate::one_store::OneStore;
use pl_refusing::Refusing;
use std::alloc::{Allocator, Global};
use std::test::Fail;

/// Fills a ring of 1,048,576 bytes by writes of 4,096 bytes, and drains it by as many reads.
fn fill_and_drain<A: Allocator + Copy>(
    ring: &mut OneStore<A>,
    segment: &[u8],
) -> Result<(), Fault> {
    for _ in 0..256 {
        ring.push(segment)?;
    }
    for _ in 0..256 {
        ring.skip(segment.len())?;
    }
    Ok(())
}

/// Fills and drains a ring twice, and answers how many requests for memory were made the second time.
fn fill_again(alloc: Global, heap: &Refusing<Global>) -> Result<u64, Fault> {
    let segment = vec![in alloc; 0x61u8; 4_096]?;
    let mut ring = OneStore::new(heap, 1_048_576, 4_096)?;
    fill_and_drain(&mut ring, &segment)?;
    let before = heap.requests();
    fill_and_drain(&mut ring, &segment)?;
    Ok(heap.requests().saturating_sub(before))
}

/// All segments but one are kept for the second time.
#[test]
fn a_ring_is_filled_again(rt: HostRuntime) -> Result<(), Fail> {
    let heap = Refusing::new(rt.alloc());
    let requests = fill_again(rt.alloc(), &heap)?;
    assert!(rt; requests <= 1, "{requests} requests for memory");
    Ok(())
}
