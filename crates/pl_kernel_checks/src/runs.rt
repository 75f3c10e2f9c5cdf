//! Steps that are made as one run.
use pl_model::Reply;
use pl_testing::LIMITS;
use pl_testing::asked::Ask::{self, Pipe, PollNow, Read, Start, Write};
use pl_testing::asked::Data::Text;
use pl_testing::asked::Want::{self, Bytes, Count, Fds, Masks, Pid};
use pl_testing::asked::steps_of;
use pl_testing::bench::Bench;
use pl_testing::examples::INTERLEAVING_WITH_A_LARGE_WRITE;
use pl_testing::masks::IN;
use std::alloc::Global;
use std::test::Fail;

const ROWS: &[(Ask, Want)] = &[
    (Start, Pid(1)),
    (Pipe(1), Fds(0, 1)),
    (Write(1, 1, Text("ab")), Count(2)),
    (PollNow(1, &[(0, IN)]), Masks(1, &[IN])),
    (Read(1, 0, 9), Bytes(Text("ab"))),
];

/// Copies of what a run of the rows is to come to.
fn copied_replies(alloc: Global, rows: &[(Ask, Want)]) -> Result<Vec<Option<Reply>>, Fail> {
    let mut replies = Vec::new(alloc);
    for (_, want) in rows {
        let reply = want.reply(alloc)?;
        replies.push(reply.copy(alloc).ok())?;
    }
    Ok(replies)
}

/// Whether a run of the rows answers each step.
fn is_answered(alloc: Global, bench: &mut Bench, rows: &[(Ask, Want)]) -> Result<bool, Fail> {
    let wanted = copied_replies(alloc, rows)?;
    let replies = bench.run(steps_of(alloc, rows)?)?;
    Ok(replies == Some(wanted))
}

fn all_is_answered(alloc: Global, rows: &[(Ask, Want)]) -> Result<bool, Fail> {
    let mut bench = Bench::new("a run", alloc, alloc, LIMITS)?;
    let answered = is_answered(alloc, &mut bench, rows)?;
    bench.ends_empty(&[])?;
    Ok(answered)
}

#[test]
fn a_run_answers_each_step(rt: HostRuntime) -> Result<(), Fail> {
    assert!(rt; all_is_answered(rt.alloc(), ROWS)?);
    Ok(())
}

/// The length of the first front of the session of which a run doesn't answer each step.
fn first_wrong_front(alloc: Global) -> Result<Option<usize>, Fail> {
    let session = INTERLEAVING_WITH_A_LARGE_WRITE.as_slice();
    for len in 0..=session.len() {
        if !all_is_answered(alloc, &session[..len])? {
            return Ok(Some(len));
        }
    }
    Ok(None)
}

/// A session may end behind each of its steps.
#[test]
fn a_run_of_each_front_answers_each_step(rt: HostRuntime) -> Result<(), Fail> {
    let wrong = first_wrong_front(rt.alloc())?;
    assert_eq!(rt; wrong, None);
    Ok(())
}
