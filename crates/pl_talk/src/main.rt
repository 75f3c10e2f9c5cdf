//! Two threads that talk through a pipe: one writes, and the other waits for what it reads.
#![tactic(auto)]

ghost use Rattle.std.specs.Prelude.{◌≡◌, ◌≤◌, ◌^◌};
ghost use Rattle.pl_model.specs.Numbers.{most_file_bytes};

use pl_locked::{Caller, Ground, Layer, Locked};
use pl_model::{Bytes8, Call, Limits, Reply, Step};
use std::alloc::Global;
use std::io;
use std::marker::Brand;
use std::process::ExitCode;
use std::sync::Wait;
use std::thread::{Threads, join};

/// The limits of the layer: those where nobody chooses.
const LIMITS: Limits = Limits::DEFAULT;

/// What one caller's call of process 1 answers, if it is answered; and the caller.
fn call<N: Layer, R: Wait>(
    rt: &R,
    locked: &Locked<N>,
    mut me: Caller<N>,
    call: Call,
) -> (Option<Reply>, Caller<N>) {
    (locked.call(rt, &mut me, 1, call).ok(), me)
}

/// What the reader reads of what the writer writes, on a pipe that the writer makes. Both callers are among the others again then.
fn read_and_write<N: Layer + Send + Sync, R: Threads + Wait + Sync>(
    rt: &R,
    alloc: Global,
    locked: &Locked<N>,
    callers: &mut Vec<Caller<N>>,
) -> Option<Reply> {
    let mut writer = callers.pop()?;
    let reader = callers.pop()?;
    locked.attempt(rt, &mut writer, Step::Start).ok()?; // Pid(1)
    let pipe = Step::Begin(
        1,
        Call::Pipe {
            nonblock: false,
            direct: false,
        },
    );
    locked.attempt(rt, &mut writer, pipe).ok()?; // Fds(0, 1)

    let bytes = Bytes8::from_vec(Vec::from_slice(alloc, b"hello").ok()?)?;
    let (read, written) = at_once(rt, locked, reader, writer, bytes);
    callers.push(read.1).ok()?;
    callers.push(written.1).ok()?;
    read.0
}

// A read in one thread, and a write in another.
fn at_once<N: Layer + Send + Sync, R: Threads + Wait + Sync>(
    rt: &R,
    locked: &Locked<N>,
    reader: Caller<N>,
    writer: Caller<N>,
    bytes: Bytes8,
) -> ((Option<Reply>, Caller<N>), (Option<Reply>, Caller<N>)) {
    join(
        rt,
        move || call(rt, locked, reader, Call::Read { fd: 0, n: 5 }),
        move || call(rt, locked, writer, Call::Write { fd: 1, bytes }),
    )
}

/// What the reader read, and whether the journal of all that happened replays.
fn talk<N: Layer + Send + Sync, R: Threads + Wait + Sync>(
    rt: &R,
    alloc: Global,
    ground: Ground,
    limits: Limits,
    count: u32,
    max_steps: u64,
) -> Option<(Reply, bool)>
    requires ground { (ground.name ≡ N.name) × (ground.parts ≡ N.parts) × (ground.table ≡ N.table) }
    requires limits { limits ≡ N.limits }
    requires file_max { limits.file_max ≤ most_file_bytes }
    requires callers { count ≡ N.callers }
    requires steps { (max_steps ≡ N.max_steps) × (max_steps ≤ 2 ^ 62) }
{
    let (locked, mut callers) = Locked::<N>::open(alloc, ground, limits, count, max_steps).ok()?;
    let read = read_and_write(rt, alloc, &locked, &mut callers);
    let (part, _kernel) = locked.close(callers).ok()?;
    let journal = part.into_whole()?;
    Some((read?, journal.replay(alloc, limits).ok()?))
}

fn main(rt: HostRuntime) -> io::Result<ExitCode> {
    let Ok(ground) = Ground::new(rt.alloc()) else {
        return Ok(ExitCode::FAILURE);
    };
    let Some((reply, replays)) = talk::<Brand, _>(&rt, rt.alloc(), ground, LIMITS, 2, 100) else {
        return Ok(ExitCode::FAILURE);
    };
    println!(rt; "the reader got {reply:?}")?;
    println!(rt; "the journal replays: {replays}")?;
    Ok(ExitCode::SUCCESS)
}
