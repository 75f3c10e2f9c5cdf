//! Records of steps with their replies.
use super::equal::is;
use pl_model::{Errno, Limits};
use pl_recording::{push_entry, push_header};
use pl_refusing::{MOST_REQUESTS, Refusing};
use pl_testing::asked::Ask::{self, Pipe, Read, Start, Write};
use pl_testing::asked::Data::Text;
use pl_testing::asked::Want::{self, Bytes, Count, Fault, Fds, Pid};
use std::alloc::{Allocator, Global};
use std::test::Fail;

const LIMITS: Limits = Limits {
    first_call: 7,
    file_max: 4_096,
    names_max: 3,
    waiting_max: 2,
    capacity_max: 65_536,
    descriptors_max: 32,
    spare_max: 0,
    ..Limits::DEFAULT
};

const MADE: &[(Ask, Want)] = &[
    (Start, Pid(1)),
    (Pipe(1), Fds(0, 1)),
    (Write(1, 1, Text("aaaab")), Count(5)),
    (Read(1, 0, 9), Bytes(Text("aaaab"))),
    (Read(1, 2, 9), Fault(Errno::EBADF)),
];

const RECORD: &str = "piperun 2
# piperun --first-call 7 --file-max 4096 --names-max 3 --waiting-max 2 --capacity-max 65536 --descriptors-max 32
start
# => pid 1
1 pipe
# => fds 0 1
1 write 1 4*61+62
# => count 5
1 read 0 9
# => data 4*61+62
1 read 2 9
# => EBADF
";

/// Adds a step and its reply.
fn add(alloc: Global, text: &mut String<Global>, ask: Ask, want: Want) -> Result<(), Fail> {
    push_entry(text, &ask.step(alloc)?, &want.reply(alloc)?)?;
    Ok(())
}

#[test]
fn a_record_has_each_step_and_its_reply(rt: HostRuntime) -> Result<(), Fail> {
    let mut text = String::new(rt.alloc());
    push_header(&mut text, LIMITS)?;
    for (ask, want) in MADE {
        add(rt.alloc(), &mut text, *ask, *want)?;
    }
    is(&rt, "record", 0, text.as_str() == RECORD, true);
    Ok(())
}

/// The limits on descriptions and on processes, and the header within them.
const HEADERS: &[(u32, u32, &str)] = &[
    (
        4_095,
        1_024,
        "piperun 2
# piperun --first-call 7 --file-max 4096 --names-max 3 --waiting-max 2 --capacity-max 65536 --descriptors-max 32 --descriptions-max 4095
",
    ),
    (
        4_096,
        1_025,
        "piperun 2
# piperun --first-call 7 --file-max 4096 --names-max 3 --waiting-max 2 --capacity-max 65536 --descriptors-max 32 --processes-max 1025
",
    ),
    (
        1_048_576,
        0,
        "piperun 2
# piperun --first-call 7 --file-max 4096 --names-max 3 --waiting-max 2 --capacity-max 65536 --descriptors-max 32 --descriptions-max 1048576 --processes-max 0
",
    ),
];

#[test]
fn a_header_names_what_is_not_usual(rt: HostRuntime) -> Result<(), Fail> {
    for (i, (descriptions_max, processes_max, header)) in HEADERS.iter().enumerate() {
        let limits = Limits {
            descriptions_max: *descriptions_max,
            processes_max: *processes_max,
            ..LIMITS
        };
        let mut text = String::new(rt.alloc());
        push_header(&mut text, limits)?;
        is(&rt, "header", i, text.as_str() == *header, true);
    }
    Ok(())
}

const BEFORE: &str = "piperun 2\n";

const BEHIND: &str = "piperun 2\n1 write 1 4*61+62\n# => count 5\n";

/// Whether an entry is added, or nothing where the `n`th request for memory is refused.
fn adds_all_or_nothing<A: Allocator + Copy>(
    heap: &Refusing<Global>,
    alloc: A,
    n: u64,
) -> Result<bool, Fail> {
    heap.refuse(0);
    let step = Write(1, 1, Text("aaaab")).step(alloc)?;
    let reply = Count(5).reply(alloc)?;
    let mut text = String::from_str(alloc, BEFORE)?;
    heap.refuse(n);
    let added = push_entry(&mut text, &step, &reply);
    let wanted = if added.is_ok() { BEHIND } else { BEFORE };
    Ok(added.is_err() == heap.refused() && text.as_str() == wanted)
}

#[test]
fn an_entry_is_whole_or_absent(rt: HostRuntime) -> Result<(), Fail> {
    let heap = Refusing::new(rt.alloc());
    for n in 1..MOST_REQUESTS {
        let is_wanted = adds_all_or_nothing(&heap, &heap, n)?;
        is(&rt, "entry", n as usize, is_wanted, true);
        if !heap.refused() {
            break;
        }
    }
    is(&rt, "entry", 0, heap.refused(), false);
    Ok(())
}
