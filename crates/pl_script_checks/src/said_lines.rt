//! The lines that say steps.
use super::equal::is;
use super::refused::{Asked, is_told};
use pl_lines::{is_sayable, push_read, push_write};
use pl_model::{Mode, OpenFlags, PollMask, SpliceFlags, Whence};
use pl_script::Version;
use pl_testing::asked::Ask::{
    self, Close, Dup, Dup2, DupFd, Exit, Fork, GetFl, GetPipeSz, Interrupt, Lseek, Mkfifo, Open,
    PacketPipe, PacketPipeNonblock, Pipe, PipeNonblock, PollNow, PollWait, Read, Resume, SetFl,
    SetPipeSz, Splice, Start, Tee, Unlink, Write,
};
use pl_testing::asked::Data::{Many, Text, TwoRuns};
use std::alloc::Global;
use std::test::Fail;

const SAID: &[(Ask, &str)] = &[
    (Start, "start"),
    (Resume(0), "resume 0"),
    (Resume(u64::MAX), "resume 18446744073709551615"),
    (Interrupt(7), "interrupt 7"),
    (Pipe(1), "1 pipe"),
    (PipeNonblock(1), "1 pipe nonblock"),
    (PacketPipe(1), "1 pipe direct"),
    (
        PacketPipeNonblock(u32::MAX),
        "4294967295 pipe nonblock,direct",
    ),
    (Read(1, 0, 3), "1 read 0 3"),
    (Read(0, i32::MIN, u32::MAX), "0 read -2147483648 4294967295"),
    (Write(1, 1, Text("")), "1 write 1 -"),
    (Write(1, 1, Text("abc")), "1 write 1 616263"),
    (
        Write(1, -1, TwoRuns(0xff, 4, 0, 3)),
        "1 write -1 4*ff+000000",
    ),
    (Write(1, 1, Many(b'a', 16_777_216)), "1 write 1 16777216*61"),
    (
        Splice(1, (0, None), (3, None), 5, &[]),
        "1 splice 0 - 3 - 5",
    ),
    (
        Splice(1, (0, Some(0)), (3, None), 5, &[SpliceFlags::MOVE]),
        "1 splice 0 0 3 - 5 move",
    ),
    (
        Splice(
            1,
            (0, None),
            (3, Some(u64::MAX)),
            u32::MAX,
            &[
                SpliceFlags::GIFT,
                SpliceFlags::MORE,
                SpliceFlags::NONBLOCK,
                SpliceFlags::MOVE,
            ],
        ),
        "1 splice 0 - 3 18446744073709551615 4294967295 move,nonblock,more,gift",
    ),
    (Tee(1, 0, 3, 5, &[]), "1 tee 0 3 5"),
    (
        Tee(1, 0, 3, 5, &[SpliceFlags::NONBLOCK]),
        "1 tee 0 3 5 nonblock",
    ),
    (PollNow(1, &[]), "1 poll now"),
    (
        PollWait(
            1,
            &[
                (0, &[PollMask::IN]),
                (-1, &[]),
                (i32::MAX, &[PollMask::NVAL, PollMask::HUP, PollMask::OUT]),
            ],
        ),
        "1 poll wait 0:in -1:- 2147483647:out,hup,nval",
    ),
    (Dup(1, 0), "1 dup 0"),
    (Dup2(1, 0, 7), "1 dup2 0 7"),
    (DupFd(1, 0, -7), "1 dupfd 0 -7"),
    (Close(1, i32::MAX), "1 close 2147483647"),
    (
        Lseek(1, 0, i64::MIN, Whence::Cur),
        "1 lseek 0 -9223372036854775808 cur",
    ),
    (Lseek(1, 0, 0, Whence::Set), "1 lseek 0 0 set"),
    (
        Lseek(1, 0, i64::MAX, Whence::End),
        "1 lseek 0 9223372036854775807 end",
    ),
    (GetFl(1, 0), "1 getfl 0"),
    (SetFl(1, 0, &[]), "1 setfl 0 -"),
    (
        SetFl(1, 0, &[OpenFlags::NONBLOCK, OpenFlags::CREAT]),
        "1 setfl 0 creat,nonblock",
    ),
    (GetPipeSz(1, 0), "1 getsz 0"),
    (SetPipeSz(1, 0, 4_096), "1 setsz 0 4096"),
    (Fork(1), "1 fork"),
    (Exit(1), "1 exit"),
    // names
    (Mkfifo(1, Text("f")), "1 mkfifo f"),
    (Unlink(1, Text("")), "1 unlink -"),
    (Unlink(1, Text("-")), "1 unlink %2d"),
    (Unlink(1, Text("--")), "1 unlink --"),
    (Unlink(1, Text("a b%\n")), "1 unlink a%20b%25%0a"),
    (Unlink(1, Text("!#~\u{7f}\0")), "1 unlink !#~%7f%00"),
    (Unlink(1, Many(0xff, 2)), "1 unlink %ff%ff"),
    (Open(1, Text("f"), Mode::Read, &[]), "1 open f r"),
    (
        Open(1, Text("-"), Mode::Both, &[OpenFlags::NONBLOCK]),
        "1 open %2d rw nonblock",
    ),
    (
        Open(
            1,
            Text("f"),
            Mode::Write,
            &[
                OpenFlags::APPEND,
                OpenFlags::TRUNC,
                OpenFlags::EXCL,
                OpenFlags::CREAT,
            ],
        ),
        "1 open f w creat,excl,trunc,append",
    ),
];

#[test]
fn each_step_is_said(rt: HostRuntime) -> Result<(), Fail> {
    for (ask, text) in SAID {
        is_told(&rt, rt.alloc(), Version::Two, text, Asked::Says(*ask))?;
        is_told(&rt, rt.alloc(), Version::Two, text, Asked::Asks)?;
    }
    Ok(())
}

/// Whether the step that it asks for is sayable.
fn is_said(alloc: Global, ask: Ask) -> Result<bool, Fail> {
    Ok(is_sayable(&ask.step(alloc)?))
}

/// No line of version 2 has these flags.
const UNSAID: &[Ask] = &[
    SetFl(1, 0, &[OpenFlags::DIRECT]),
    Open(
        1,
        Text("f"),
        Mode::Read,
        &[OpenFlags::APPEND, OpenFlags::DIRECT],
    ),
];

#[test]
fn steps_are_sayable(rt: HostRuntime) -> Result<(), Fail> {
    for (ask, text) in SAID {
        is(&rt, text, 0, is_said(rt.alloc(), *ask)?, true);
    }
    for (place, ask) in UNSAID.iter().enumerate() {
        is(&rt, "unsaid", place, is_said(rt.alloc(), *ask)?, false);
    }
    Ok(())
}

#[test]
fn bytes_and_sizes_are_said(rt: HostRuntime) -> Result<(), Fail> {
    let mut text = String::new(rt.alloc());
    push_write(&mut text, 1, -1, b"aaaa!".as_slice())?;
    push_read(&mut text, u32::MAX, 0, 7)?;
    let wanted = "1 write -1 4*61+21\n4294967295 read 0 7\n";
    is(&rt, wanted, 0, text.as_str() == wanted, true);
    Ok(())
}
