//! A step that is made on a kernel, and kept.
ghost use Rattle.std.specs.Prelude.{◌≡◌, IfOk, OnErr};
ghost use Rattle.pl_model.specs.History.{entry};
ghost use Rattle.pl_state.specs.Makes.{Makes};

use pl_kernel::{Kernel, NoMemory, reply_of_write};
use pl_model::{Call, Entry, Reply, Step};
use std::alloc::Allocator;

// Makes a read: its step is copied by what it says. Out of line, so that a write goes past it.
#[inline(never)]
fn make_read<A: Allocator + Copy>(
    kernel: &mut Kernel<A>,
    caller: u32,
    number: u64,
    pid: u32,
    fd: i32,
    n: u32,
) -> Result<(Entry<A>, Reply<A>), NoMemory>
    ensures made { IfOk result (λ made. Makes {A = A} kernel.old (Step.Begin pid (Call.Read fd n)) made.1 kernel.new) }
    ensures entry { IfOk result (λ made. made.0 ≡ entry caller number (Step.Begin pid (Call.Read fd n)) made.1) }
    ensures unmade { OnErr result (kernel.new ≡ kernel.old) }
{
    let (reply, told) = kernel.step_pair(Step::Begin(pid, Call::Read { fd, n }))?;
    let entry = Entry {
        caller,
        number,
        step: Step::Begin(pid, Call::Read { fd, n }),
        reply: told,
    };
    Ok((entry, reply))
}

// Makes any step. A copy of it is kept, which is made before. Out of line, so that a write or a read goes past it.
#[inline(never)]
fn make_other<A: Allocator + Copy>(
    kernel: &mut Kernel<A>,
    alloc: A,
    caller: u32,
    number: u64,
    step: Step<A>,
) -> Result<(Entry<A>, Reply<A>), NoMemory>
    ensures made { IfOk result (λ made. Makes {A = A} kernel.old step made.1 kernel.new) }
    ensures entry { IfOk result (λ made. made.0 ≡ entry caller number step made.1) }
    ensures unmade { OnErr result (kernel.new ≡ kernel.old) }
{
    let kept = step.copy(alloc)?;
    let (reply, told) = kernel.step_pair(step)?;
    let entry = Entry {
        caller,
        number,
        step: kept,
        reply: told,
    };
    Ok((entry, reply))
}

/// Makes a step of a caller, who made as many before it as `number` says: its entry for the journal, and its reply once more. A write is kept
/// as it came, since the kernel takes its bytes from there.
#[inline(always)]
pub(crate) fn make<A: Allocator + Copy>(
    kernel: &mut Kernel<A>,
    alloc: A,
    caller: u32,
    number: u64,
    step: Step<A>,
) -> Result<(Entry<A>, Reply<A>), NoMemory>
    ensures made { IfOk result (λ made. Makes {A = A} kernel.old step made.1 kernel.new) }
    ensures entry { IfOk result (λ made. made.0 ≡ entry caller number step made.1) }
    ensures unmade { OnErr result (kernel.new ≡ kernel.old) }
{
    match step {
        Step::Begin(pid, Call::Write { fd, bytes }) => {
            let reply = kernel.write_from(pid, fd, bytes.as_slice())?;
            let entry = Entry {
                caller,
                number,
                step: Step::Begin(pid, Call::Write { fd, bytes }),
                reply: reply_of_write(reply),
            };
            Ok((entry, reply_of_write(reply)))
        }
        Step::Begin(pid, Call::Read { fd, n }) => make_read(kernel, caller, number, pid, fd, n),
        step => make_other(kernel, alloc, caller, number, step),
    }
}
