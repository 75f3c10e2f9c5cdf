//! A step that finds no memory is passed over, and what is asked behind it goes on as if that step had not been asked.
use crate::scarce::Scarce;
use crate::steps::Steps;
use crate::tables::tables;
use pl_model::Reply;
use pl_refusing::{MOST_REQUESTS, Refusing, all_were_refused};
use pl_testing::asked::Want;
use std::alloc::Global;
use std::test::Fail;

/// How steps are made.
#[derive(Clone, Copy)]
enum Way {
    OneByOne,
    /// As one run, of which the first request is for what it answers, and all others are those of its steps.
    Run,
}

/// Makes the steps one by one, and answers the place of the one that finds no memory; past the last where none does.
fn make_each(bench: &mut Scarce, steps: &Steps) -> Result<usize, Fail> {
    let mut passed = steps.rows.len();
    for (place, (ask, _)) in steps.rows.iter().enumerate() {
        let want = steps.want(place, passed)?;
        if !bench.makes(*ask, want)? {
            passed = place;
        }
    }
    Ok(passed)
}

/// Whether the reply is what is wanted.
fn is_wanted(alloc: Global, reply: &Reply, want: Want) -> Result<bool, Fail> {
    Ok(*reply == want.reply(alloc)?)
}

/// Compares the replies to a run of the steps with what is wanted, and answers the place of the step that found no memory; past the
/// last where none did.
fn compare(alloc: Global, steps: &Steps, replies: &[Option<Reply>]) -> Result<usize, Fail> {
    let count = steps.rows.len();
    let mut passed = count;
    for (place, reply) in replies.iter().enumerate() {
        let is_right = match reply {
            Some(reply) => is_wanted(alloc, reply, steps.want(place, passed)?)?,
            None => passed == count,
        };
        if !is_right {
            return Err(steps.fault(place, "comes to something else in a run"));
        }
        if reply.is_none() {
            passed = place;
        }
    }
    if replies.len() != count {
        return Err(steps.fault(replies.len(), "has no reply in a run"));
    }
    Ok(passed)
}

/// Makes the steps as one run, and answers the place of the one that finds no memory; past the last where none does.
fn make_run(alloc: Global, bench: &mut Scarce, steps: &Steps) -> Result<usize, Fail> {
    match bench.run(steps.rows)? {
        Some(replies) => compare(alloc, steps, &replies),
        None => Err(Fail::new(format_args!("a run of {} finds no memory", steps.name))),
    }
}

/// Makes the steps, where the `n`th request of theirs is refused, and answers the place of the one that finds no memory.
fn pass_over(
    alloc: Global,
    heap: &Refusing<Global>,
    steps: &Steps,
    way: Way,
    n: u64,
) -> Result<usize, Fail> {
    let mut bench = Scarce::new(steps.name, 1, alloc, heap)?;
    match way {
        Way::OneByOne => {
            bench.refuse(n);
            make_each(&mut bench, steps)
        }
        Way::Run => {
            bench.refuse(n.saturating_add(1));
            make_run(alloc, &mut bench, steps)
        }
    }
}

/// Refuses each request of the steps in turn. Each of those that take memory is passed over, in order, and no other.
fn refuse_each(alloc: Global, steps: &Steps, way: Way) -> Result<(), Fail> {
    let heap = Refusing::new(alloc);
    let mut met = 0usize;
    for n in 1..MOST_REQUESTS {
        let passed = pass_over(alloc, &heap, steps, way, n)?;
        let is_whole = passed == steps.rows.len();
        if is_whole == heap.refused() {
            return Err(steps.fault(passed, "finds memory, or none, against what is refused"));
        }
        if is_whole {
            break;
        }
        met = steps.met(met, passed)?;
    }
    steps.are_all_met(met)?;
    all_were_refused(&heap, steps.name)
}

/// Refuses the first request of a run, which is for what it answers. None of its steps is made then.
fn refuse_first(bench: &mut Scarce, steps: &Steps) -> Result<(), Fail> {
    bench.refuse(1);
    match bench.run(steps.rows)? {
        Some(_) => Err(Fail::new(format_args!("a run of {} finds memory", steps.name))),
        None => bench.all_answer(steps.rows),
    }
}

/// Refuses a run of the steps as a whole.
fn refuse_run(alloc: Global, steps: &Steps) -> Result<(), Fail> {
    let heap = Refusing::new(alloc);
    let mut bench = Scarce::new(steps.name, 1, alloc, &heap)?;
    refuse_first(&mut bench, steps)
}

/// Refuses each request of the steps of the table in turn.
fn refuse_all(alloc: Global, table: &[Steps], way: Way) -> Result<(), Fail> {
    for steps in table {
        refuse_each(alloc, steps, way)?;
    }
    Ok(())
}

/// Refuses a run of each of the steps of the table as a whole.
fn refuse_runs(alloc: Global, table: &[Steps]) -> Result<(), Fail> {
    for steps in table {
        refuse_run(alloc, steps)?;
    }
    Ok(())
}

#[test]
fn each_step_is_passed_over(rt: HostRuntime) -> Result<(), Fail> {
    for table in tables() {
        refuse_all(rt.alloc(), table, Way::OneByOne)?;
    }
    Ok(())
}

#[test]
fn each_step_of_a_run_is_passed_over(rt: HostRuntime) -> Result<(), Fail> {
    for table in tables() {
        refuse_runs(rt.alloc(), table)?;
        refuse_all(rt.alloc(), table, Way::Run)?;
    }
    Ok(())
}
