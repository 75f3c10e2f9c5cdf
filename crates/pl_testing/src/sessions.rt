//! Tables of sessions: each is made on a kernel of its own.
use crate::asked::{Ask, Data, Want};
use crate::bench::Bench;
use pl_model::Limits;
use std::alloc::Global;
use std::test::Fail;

/// What is asked of a new kernel, and what it is to answer.
#[derive(Clone, Copy)]
pub struct Session {
    /// What a failure calls the session.
    pub name: &'static str,
    /// The number of the first call that waits.
    pub first_call: u64,
    /// So many processes start before the first row, at most 1,024.
    pub processes: u32,
    /// The first so many of these fill their tables before the first row.
    pub full_tables: u32,
    /// At least one step, with what it comes to.
    pub rows: &'static [(Ask, Want)],
    /// The files that are asked for behind those, each with its bytes; `None` where there is no such file.
    pub files: &'static [(Data, Option<Data>)],
    /// Steps behind those.
    pub more: &'static [(Ask, Want)],
    /// The names of the files that are there at the end.
    pub names: &'static [Data],
}

/// A session of a kernel without processes, whose calls are numbered from 1: it lacks its name and its rows.
pub const NEW_KERNEL: Session = Session {
    name: "",
    first_call: 1,
    processes: 0,
    full_tables: 0,
    rows: &[],
    files: &[],
    more: &[],
    names: &[],
};

/// Makes each session on a kernel of its own, within the limits but for its first call, and once more on one whose writes come from
/// buffers, and whose reads go into such. It fails at the first row that isn't answered as it says, whose number it tells with its
/// session, at a session whose bytes outlive its processes and names or that has no rows, and where there is no memory for the bytes
/// of a row.
pub fn each_answers(alloc: Global, limits: Limits, sessions: &[Session]) -> Result<(), Fail> {
    for session in sessions {
        session_answers(alloc, limits, session, false)?;
        session_answers(alloc, limits, session, true)?;
    }
    Ok(())
}

/// Makes all of the session, ends its processes, and takes its names away.
fn make(bench: &mut Bench, session: &Session) -> Result<(), Fail> {
    bench.prepare(session.processes, session.full_tables)?;
    bench.all_answer(session.rows)?;
    bench.files_have(session.files)?;
    bench.all_answer(session.more)?;
    bench.ends_empty(session.names)
}

fn session_answers(
    alloc: Global,
    limits: Limits,
    session: &Session,
    on_buffers: bool,
) -> Result<(), Fail> {
    if session.rows.is_empty() {
        return Err(Fail::from("a session has no rows"));
    }
    let limits = Limits {
        first_call: session.first_call,
        ..limits
    };
    let mut bench = Bench::new(session.name, alloc, alloc, limits)?;
    if on_buffers {
        bench.use_buffers();
    }
    make(&mut bench, session)
}
