//! A step that finds no memory changes nothing, and can be made again.
use crate::scarce::Scarce;
use crate::steps::Steps;
use crate::tables::{sessions, tables};
use pl_refusing::{MOST_REQUESTS, Refusing, all_were_refused};
use pl_testing::asked::{Ask, Data, Want};
use pl_testing::sessions::Session;
use std::alloc::Global;
use std::test::Fail;

/// Makes the step. Where it finds no memory, it is made again at once, and then has its reply.
pub(crate) fn make_one(bench: &mut Scarce, ask: Ask, want: Want) -> Result<(), Fail> {
    if bench.makes(ask, want)? || bench.makes(ask, want)? {
        Ok(())
    } else {
        Err(bench.fault(ask, "finds no memory again"))
    }
}

/// Makes the steps, each again where it finds no memory.
pub(crate) fn make_each(bench: &mut Scarce, rows: &[(Ask, Want)]) -> Result<(), Fail> {
    for (ask, want) in rows {
        make_one(bench, *ask, *want)?;
    }
    Ok(())
}

/// Asks for the bytes of the files, and again for those for which there is no memory.
fn look_at_each(bench: &mut Scarce, files: &[(Data, Option<Data>)]) -> Result<(), Fail> {
    for (name, want) in files {
        if !bench.file_has(*name, *want)? && !bench.file_has(*name, *want)? {
            return Err(bench.file_fault("finds no memory again"));
        }
    }
    Ok(())
}

/// Makes the session, and again what finds no memory. At its end nothing is left.
pub(crate) fn make_all(bench: &mut Scarce, session: &Session) -> Result<(), Fail> {
    make_each(bench, session.rows)?;
    look_at_each(bench, session.files)?;
    make_each(bench, session.more)?;
    bench.ends_empty(session.names)
}

/// Makes the session, where the `n`th request for memory is refused.
fn make(alloc: Global, heap: &Refusing<Global>, session: &Session, n: u64) -> Result<(), Fail> {
    let mut bench = Scarce::new(session.name, session.first_call, alloc, heap)?;
    bench.prepare(session.processes, session.full_tables)?;
    bench.refuse(n);
    make_all(&mut bench, session)
}

/// Refuses each request of the session in turn, until it meets no refusal.
fn refuse_each(alloc: Global, session: &Session) -> Result<(), Fail> {
    let heap = Refusing::new(alloc);
    for n in 1..MOST_REQUESTS {
        make(alloc, &heap, session, n)?;
        if !heap.refused() {
            break;
        }
    }
    all_were_refused(&heap, session.name)
}

/// Refuses each request of the sessions in turn.
fn refuse_sessions(alloc: Global, sessions: &[Session]) -> Result<(), Fail> {
    for session in sessions {
        refuse_each(alloc, session)?;
    }
    Ok(())
}

/// Refuses each request of the steps of the table in turn.
fn refuse_table(alloc: Global, table: &[Steps]) -> Result<(), Fail> {
    for steps in table {
        refuse_each(alloc, &steps.session())?;
    }
    Ok(())
}

#[test]
fn each_step_is_made_again(rt: HostRuntime) -> Result<(), Fail> {
    for table in tables() {
        refuse_table(rt.alloc(), table)?;
    }
    for table in sessions() {
        refuse_sessions(rt.alloc(), table)?;
    }
    Ok(())
}
