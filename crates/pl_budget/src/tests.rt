//! What a budget counts, and what it refuses: no clause can name what its counter holds.
use crate::{Account, Budget};
use std::alloc::{AllocError, Allocator};
use std::process::Abort;
use std::test::Fail;

/// It fails where the account isn't this one.
fn is<B: Allocator>(rt: &impl Abort, what: &str, budget: &Budget<B>, held: u64, peak: u64) {
    let most = budget.account().most;
    assert_eq!(rt; budget.account(), Account { held, peak, most }, "{what}");
    assert_eq!(rt;
        budget.account().spare(),
        most.saturating_sub(held),
        "{what}"
    );
}

#[test]
fn a_list_counts_while_it_stands(rt: HostRuntime) -> Result<(), Fail> {
    let budget = Budget::new(rt.alloc(), 100);
    is(&rt, "at first", &budget, 0, 0);
    let mut list = Vec::with_capacity(&budget, 10)?;
    list.push(1u64)?;
    is(&rt, "ten words", &budget, 80, 80);
    drop(list);
    is(&rt, "given back", &budget, 0, 80);
    Ok(())
}

#[test]
fn the_last_byte_and_one_more(rt: HostRuntime) -> Result<(), Fail> {
    let budget = Budget::new(rt.alloc(), 100);
    let first: Vec<u8, _> = Vec::with_capacity(&budget, 60)?;
    let second: Vec<u8, _> = Vec::with_capacity(&budget, 40)?;
    is(&rt, "all", &budget, 100, 100);
    let third: Result<Vec<u8, _>, AllocError> = Vec::with_capacity(&budget, 1);
    assert_eq!(&rt; third.is_err(), true, "one more");
    is(&rt, "nothing changed", &budget, 100, 100);
    drop(second);
    let third: Result<Vec<u8, _>, AllocError> = Vec::with_capacity(&budget, 41);
    assert_eq!(&rt; third.is_err(), true, "one more than the spare ones");
    is(&rt, "the first", &budget, 60, 100);
    drop(first);
    is(&rt, "given back", &budget, 0, 100);
    Ok(())
}

#[test]
fn a_list_that_grows_and_shrinks_counts_once(rt: HostRuntime) -> Result<(), Fail> {
    let budget = Budget::new(rt.alloc(), 100);
    let mut list: Vec<u8, _> = Vec::with_capacity(&budget, 40)?;
    list.push(7)?;
    list.reserve_exact(99)?;
    is(&rt, "grown", &budget, 100, 100);
    assert_eq!(&rt; list.reserve_exact(100).is_err(), true, "one more");
    is(&rt, "nothing changed", &budget, 100, 100);
    assert_eq!(&rt; list.as_slice() == [7].as_slice(), true, "the bytes");
    list.shrink_to_fit();
    is(&rt, "shrunk", &budget, 1, 100);
    drop(list);
    is(&rt, "given back", &budget, 0, 100);
    Ok(())
}

#[test]
fn a_budget_within_a_budget_gives_back_what_was_refused(rt: HostRuntime) -> Result<(), Fail> {
    let outer = Budget::new(rt.alloc(), 50);
    let inner = Budget::new(&outer, 100);
    let mut list: Vec<u8, _> = Vec::with_capacity(&inner, 30)?;
    assert_eq!(&rt;
        list.reserve_exact(51).is_err(),
        true,
        "grown past the outer one"
    );
    let more: Result<Vec<u8, _>, AllocError> = Vec::with_capacity(&inner, 21);
    assert_eq!(&rt; more.is_err(), true, "past the outer one");
    is(&rt, "the outer one", &outer, 30, 30);
    is(&rt, "the inner one", &inner, 30, 51);
    list.reserve_exact(50)?;
    is(&rt, "the outer one grown", &outer, 50, 50);
    drop(list);
    is(&rt, "the outer one given back", &outer, 0, 50);
    is(&rt, "the inner one given back", &inner, 0, 51);
    Ok(())
}

#[test]
fn a_budget_of_nothing_refuses_a_byte(rt: HostRuntime) -> Result<(), Fail> {
    let budget = Budget::new(rt.alloc(), 0);
    let byte: Result<Vec<u8, _>, AllocError> = Vec::with_capacity(&budget, 1);
    assert_eq!(&rt; byte.is_err(), true, "a byte");
    let none: Vec<u8, _> = Vec::new(&budget);
    assert_eq!(&rt; none.is_empty(), true, "no byte");
    is(&rt, "nothing", &budget, 0, 0);
    Ok(())
}
