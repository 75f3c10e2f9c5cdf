//! Which calls that wait are told to be alike: reads of the same description, whoever began them (POSIX.1-2017, fork, dup).
use pl_kernel::{Kernel, NoMemory};
use pl_model::{Call, PollList, Step};
use pl_testing::LIMITS;
use std::alloc::Allocator;
use std::test::Fail;

/// The numbers of two calls, and whether they are alike. Call 1 reads the first pipe, call 2 reads it by a copy of the descriptor, and call
/// 3 in a child. Call 4 reads the second pipe, and call 5 polls nothing. No call 6 waits.
const TOLD: &[(u64, u64, bool)] = &[
    (1, 1, true),
    (1, 2, true),
    (3, 1, true),
    (2, 3, true),
    (1, 4, false),
    (4, 4, true),
    (1, 5, false),
    (5, 5, false),
    (1, 6, false),
    (6, 6, false),
];

fn begin<A: Allocator + Copy>(
    kernel: &mut Kernel<A>,
    pid: u32,
    call: Call<A>,
) -> Result<(), NoMemory> {
    kernel.step(Step::Begin(pid, call))?;
    Ok(())
}

fn make_pipe<A: Allocator + Copy>(kernel: &mut Kernel<A>) -> Result<(), NoMemory> {
    let pipe = Call::Pipe {
        nonblock: false,
        direct: false,
    };
    begin(kernel, 1, pipe)
}

/// Process 1 has a pipe with the ends 0 and 1, one with the ends 2 and 3, and 4 as a copy of 0. Process 2 is its child.
fn make_pipes<A: Allocator + Copy>(kernel: &mut Kernel<A>) -> Result<(), NoMemory> {
    kernel.step(Step::Start)?;
    make_pipe(kernel)?;
    make_pipe(kernel)?;
    begin(kernel, 1, Call::Dup { fd: 0 })?;
    begin(kernel, 1, Call::Fork)
}

/// The five calls begin to wait.
fn wait_all<A: Allocator + Copy>(alloc: A, kernel: &mut Kernel<A>) -> Result<(), NoMemory> {
    begin(kernel, 1, Call::Read { fd: 0, n: 1 })?;
    begin(kernel, 1, Call::Read { fd: 4, n: 9 })?;
    begin(kernel, 2, Call::Read { fd: 0, n: 1 })?;
    begin(kernel, 1, Call::Read { fd: 2, n: 1 })?;
    let entries = PollList::from_vec(Vec::new(alloc));
    begin(
        kernel,
        1,
        Call::Poll {
            entries,
            wait: true,
        },
    )
}

/// The first two numbers of which something else is told.
fn first_wrong<A: Allocator + Copy>(kernel: &Kernel<A>) -> Option<(u64, u64)> {
    for (number, other, alike) in TOLD {
        if kernel.are_alike(*number, *other) != *alike {
            return Some((*number, *other));
        }
    }
    None
}

fn wrong_of_new<A: Allocator + Copy>(
    alloc: A,
    kernel: &mut Kernel<A>,
) -> Result<Option<(u64, u64)>, NoMemory> {
    make_pipes(kernel)?;
    wait_all(alloc, kernel)?;
    Ok(first_wrong(kernel))
}

#[test]
fn reads_of_one_description_are_alike(rt: HostRuntime) -> Result<(), Fail> {
    let mut kernel = Kernel::new(rt.alloc(), LIMITS);
    let wrong = wrong_of_new(rt.alloc(), &mut kernel);
    drop(kernel);
    assert_eq!(rt; wrong, Ok(None));
    Ok(())
}
