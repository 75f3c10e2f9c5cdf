//! Want of memory in examples that make many steps: a full table, as many descriptions and processes as there may be, and a file of the most
//! bytes.
use crate::made_again::{make_all, make_one};
use crate::scarce::Scarce;
use crate::tables::THE_LARGEST_FILE;
use pl_model::Errno::{EAGAIN, EBADF, EINVAL, EMFILE, ENFILE};
use pl_model::{Mode, OpenFlags};
use pl_refusing::{Refusing, all_were_refused};
use pl_testing::asked::Ask::{Close, Dup, Dup2, DupFd, Fork, Open, Pipe, Start};
use pl_testing::asked::Data::{self, Text};
use pl_testing::asked::Want::{Fault, Fd, Fds, Pid, Unit};
use pl_testing::sessions::{NEW_KERNEL, Session};
use std::alloc::Global;
use std::test::Fail;

/// So many of the requests of an example are refused in turn, at most.
const MOST_REFUSED: u64 = 200;

/// What is made before the rows of a session, and again where it finds no memory.
#[derive(Clone, Copy)]
enum Filling {
    Nothing,
    /// A process has a pipe, and so many names of its read end that one descriptor is free.
    Table,
    /// Sixteen processes have 128 pipes each, and one more process has nothing.
    Descriptions,
    /// There are 1,024 processes.
    Processes,
}

fn fill_a_table(bench: &mut Scarce) -> Result<(), Fail> {
    make_one(bench, Start, Pid(1))?;
    make_one(bench, Pipe(1), Fds(0, 1))?;
    for fd in 2..255 {
        make_one(bench, Dup(1, 0), Fd(fd))?;
    }
    Ok(())
}

/// A process starts, and has 128 pipes.
fn start_with_pipes(bench: &mut Scarce, pid: u32) -> Result<(), Fail> {
    make_one(bench, Start, Pid(pid))?;
    for i in 0..128u8 {
        let first = 2 * i32::from(i);
        make_one(bench, Pipe(pid), Fds(first, first + 1))?;
    }
    Ok(())
}

fn open_all_descriptions(bench: &mut Scarce) -> Result<(), Fail> {
    for pid in 1..17 {
        start_with_pipes(bench, pid)?;
    }
    make_one(bench, Start, Pid(17))
}

fn start_all_processes(bench: &mut Scarce) -> Result<(), Fail> {
    for pid in 1..1_025 {
        make_one(bench, Start, Pid(pid))?;
    }
    Ok(())
}

fn fill(bench: &mut Scarce, filling: Filling) -> Result<(), Fail> {
    match filling {
        Filling::Nothing => Ok(()),
        Filling::Table => fill_a_table(bench),
        Filling::Descriptions => open_all_descriptions(bench),
        Filling::Processes => start_all_processes(bench),
    }
}

const F: Data = Text("f");

const CREAT: &[OpenFlags] = &[OpenFlags::CREAT];

const EXAMPLES: &[(Filling, Session)] = &[
    (
        Filling::Table,
        Session {
            name: "a_full_table",
            rows: &[
                (Pipe(1), Fault(EMFILE)),
                (Dup(1, 0), Fd(255)),
                (Dup(1, 0), Fault(EMFILE)),
                (Close(1, 7), Unit),
                (DupFd(1, 0, 256), Fault(EINVAL)),
                (Dup2(1, 0, 256), Fault(EBADF)),
                (Dup2(1, 0, 0), Fd(0)),
                (DupFd(1, 0, 5), Fd(7)),
            ],
            ..NEW_KERNEL
        },
    ),
    (
        Filling::Descriptions,
        Session {
            name: "all_descriptions",
            rows: &[
                (Pipe(17), Fault(ENFILE)),
                (Open(17, F, Mode::Read, CREAT), Fault(ENFILE)),
            ],
            files: &[(F, None)],
            ..NEW_KERNEL
        },
    ),
    (
        Filling::Processes,
        Session {
            name: "all_processes",
            rows: &[(Start, Fault(EAGAIN)), (Fork(1), Fault(EAGAIN))],
            ..NEW_KERNEL
        },
    ),
    (Filling::Nothing, THE_LARGEST_FILE),
];

/// Makes the example, where the `n`th request for memory is refused.
fn make(
    alloc: Global,
    heap: &Refusing<Global>,
    filling: Filling,
    session: &Session,
    n: u64,
) -> Result<(), Fail> {
    let mut bench = Scarce::new(session.name, session.first_call, alloc, heap)?;
    bench.refuse(n);
    fill(&mut bench, filling)?;
    make_all(&mut bench, session)
}

/// Refuses each request of the example in turn, until it meets no refusal, or so many were refused.
fn refuse_each(alloc: Global, filling: Filling, session: &Session) -> Result<(), Fail> {
    let heap = Refusing::new(alloc);
    for n in 1..=MOST_REFUSED {
        make(alloc, &heap, filling, session, n)?;
        if !heap.refused() {
            return all_were_refused(&heap, session.name);
        }
    }
    Ok(())
}

#[test]
fn many_steps_are_made_again(rt: HostRuntime) -> Result<(), Fail> {
    for (filling, session) in EXAMPLES {
        refuse_each(rt.alloc(), *filling, session)?;
    }
    Ok(())
}
