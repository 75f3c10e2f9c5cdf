//! Copies of steps and replies, where each request for memory is refused in turn.
use pl_model::{Call, Mode, OpenFlags, Reply, Step};
use pl_refusing::{MOST_REQUESTS, Refusing};
use pl_testing::asked::Ask::{self, Mkfifo, Open, PollWait, Read, Start, Unlink, Write};
use pl_testing::asked::Data::{Part, Text};
use pl_testing::asked::Want::{self, Bytes, Fd, Masks};
use pl_testing::masks::{EMPTY, IN, OUT};
use std::alloc::{Allocator, Global};
use std::test::Fail;

/// What is copied.
#[derive(Clone, Copy)]
enum Value {
    Step(Ask),
    Reply(Want),
}

/// Each with whether it owns memory, so that its copy takes some.
const VALUES: &[(Value, bool)] = &[
    (Value::Step(Start), false),
    (Value::Step(Read(1, 0, 9)), false),
    (Value::Step(Write(1, 1, Text("a"))), true),
    (Value::Step(Write(1, 1, Part(0, 10_000))), true),
    (Value::Step(Mkfifo(1, Text("f"))), true),
    (
        Value::Step(Open(1, Text("f"), Mode::Both, &[OpenFlags::CREAT])),
        true,
    ),
    (Value::Step(Unlink(1, Text("f"))), true),
    (Value::Step(PollWait(1, &[(0, IN), (1, OUT)])), true),
    (Value::Reply(Fd(2)), false),
    (Value::Reply(Bytes(Text("a"))), true),
    (Value::Reply(Bytes(Part(0, 10_000))), true),
    (Value::Reply(Masks(1, &[IN, EMPTY])), true),
];

/// What a copy comes to.
#[derive(Clone, Copy, PartialEq)]
enum Copied {
    Same,
    Other,
    NoMemory,
}

/// Whether both are the same read, or the same call of those that own memory.
fn is_same_call<A: Allocator>(one: &Call<A>, other: &Call<A>) -> bool {
    match (one, other) {
        (Call::Read { fd: a, n: i }, Call::Read { fd: b, n: j }) => a == b && i == j,
        (Call::Write { fd: a, bytes: v }, Call::Write { fd: b, bytes: w }) => a == b && v == w,
        (Call::Mkfifo { name: v }, Call::Mkfifo { name: w })
        | (Call::Unlink { name: v }, Call::Unlink { name: w }) => v == w,
        (
            Call::OpenName {
                name: v,
                mode: a,
                flags: i,
            },
            Call::OpenName {
                name: w,
                mode: b,
                flags: j,
            },
        ) => v == w && a == b && i == j,
        (
            Call::Poll {
                entries: v,
                wait: a,
            },
            Call::Poll {
                entries: w,
                wait: b,
            },
        ) => v == w && a == b,
        _ => false,
    }
}

fn is_same_step<A: Allocator>(one: &Step<A>, other: &Step<A>) -> bool {
    match (one, other) {
        (Step::Start, Step::Start) => true,
        (Step::Begin(a, v), Step::Begin(b, w)) => a == b && is_same_call(v, w),
        _ => false,
    }
}

/// Whether both are the same descriptor, or the same reply of those that own memory.
fn is_same_reply<A: Allocator>(one: &Reply<A>, other: &Reply<A>) -> bool {
    match (one, other) {
        (Reply::Fd(a), Reply::Fd(b)) => a == b,
        (Reply::Bytes(v), Reply::Bytes(w)) => v == w,
        (Reply::Masks { ready: a, masks: v }, Reply::Masks { ready: b, masks: w }) => {
            a == b && v == w
        }
        _ => false,
    }
}

/// Copies the step, where the `n`th request of the copy is refused. What is copied stays as it was.
fn copy_step<A: Allocator + Copy>(
    heap: &Refusing<Global>,
    alloc: A,
    ask: Ask,
    n: u64,
) -> Result<Copied, Fail> {
    heap.refuse(0);
    let (step, same) = (ask.step(alloc)?, ask.step(alloc)?);
    heap.refuse(n);
    let copied = match step.copy(alloc) {
        Ok(copy) if is_same_step(&copy, &same) => Copied::Same,
        Ok(_) => Copied::Other,
        Err(_) => Copied::NoMemory,
    };
    let is_kept = is_same_step(&step, &same);
    Ok(if is_kept { copied } else { Copied::Other })
}

/// Copies the reply, where the `n`th request of the copy is refused. What is copied stays as it was.
fn copy_reply<A: Allocator + Copy>(
    heap: &Refusing<Global>,
    alloc: A,
    want: Want,
    n: u64,
) -> Result<Copied, Fail> {
    heap.refuse(0);
    let (reply, same) = (want.reply(alloc)?, want.reply(alloc)?);
    heap.refuse(n);
    let copied = match reply.copy(alloc) {
        Ok(copy) if is_same_reply(&copy, &same) => Copied::Same,
        Ok(_) => Copied::Other,
        Err(_) => Copied::NoMemory,
    };
    let is_kept = is_same_reply(&reply, &same);
    Ok(if is_kept { copied } else { Copied::Other })
}

fn copy(heap: &Refusing<Global>, value: Value, n: u64) -> Result<Copied, Fail> {
    match value {
        Value::Step(ask) => copy_step(heap, heap, ask, n),
        Value::Reply(want) => copy_reply(heap, heap, want, n),
    }
}

/// Refuses each request of the copy in turn, and answers whether it makes any. It fails where a copy finds memory, or none, against
/// what is refused, where it is another value, and where what is copied changes.
fn refuse_each(alloc: Global, value: Value) -> Result<bool, Fail> {
    let heap = Refusing::new(alloc);
    for n in 1..MOST_REQUESTS {
        let copied = copy(&heap, value, n)?;
        if !heap.refused() {
            return if copied == Copied::Same {
                Ok(heap.requests() != 0)
            } else {
                Err(Fail::from("a copy isn't the same"))
            };
        }
        if copied != Copied::NoMemory {
            return Err(Fail::from("a copy finds memory, or what is copied changes"));
        }
    }
    Err(Fail::from("a copy always makes more requests"))
}

#[test]
fn copies_are_the_same_or_find_no_memory(rt: HostRuntime) -> Result<(), Fail> {
    for (value, owns_memory) in VALUES {
        if refuse_each(rt.alloc(), *value)? != *owns_memory {
            return Err(Fail::from("a copy takes memory, or none, against what it owns"));
        }
    }
    Ok(())
}
