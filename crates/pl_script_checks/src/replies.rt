//! The text of each reply.
use super::equal::is;
use super::refused::{Asked, is_told};
use pl_model::{Errno, Mode, OpenFlags, Outcome, PollMask};
use pl_script::{Version, show};
use pl_testing::asked::Data::{Text, TwoRuns};
use pl_testing::asked::Want::{
    self, Bytes, CallsSpent, Count, CountSigpipe, Fault, Fd, Fds, Flags, Masks, NoCall, NoProcess,
    Offset, Parked, Pid, Size, Unit,
};
use pl_testing::masks::{
    ALL, EMPTY, ERR, ERR_HUP_NVAL, HUP, IN, IN_HUP, IN_OUT, NVAL, OUT, OUT_ERR,
};
use std::test::Fail;

const REPLIES: &[(Want, &str)] = &[
    (Pid(1), "pid 1"),
    (Pid(1_024), "pid 1024"),
    (Fd(0), "fd 0"),
    (Fd(2), "fd 2"),
    (Fd(255), "fd 255"),
    (Fds(0, 1), "fds 0 1"),
    (Fds(7, 200), "fds 7 200"),
    (Count(0), "count 0"),
    (Count(16_777_216), "count 16777216"),
    (CountSigpipe(5), "count 5 sigpipe"),
    (Offset(0), "offset 0"),
    (
        Offset(9_223_372_036_854_775_807),
        "offset 9223372036854775807",
    ),
    (Size(4_096), "size 4096"),
    (Size(1_048_576), "size 1048576"),
    (Unit, "ok"),
    (Parked(7), "parked 7"),
    (Parked(u64::MAX), "parked 18446744073709551615"),
    (NoProcess, "no process"),
    (NoCall, "no call"),
    (CallsSpent, "calls spent"),
    // bytes, as digits
    (Bytes(Text("")), "data -"),
    (Bytes(TwoRuns(0x0a, 1, 0xff, 1)), "data 0aff"),
    (Bytes(Text("hello")), "data 68656c6c6f"),
    // flags, in order
    (Flags(Mode::Read, &[OpenFlags::APPEND]), "flags r append"),
    (
        Flags(Mode::Write, &[OpenFlags::NONBLOCK]),
        "flags w nonblock",
    ),
    (Flags(Mode::Both, &[OpenFlags::APPEND]), "flags rw append"),
    (
        Flags(Mode::Read, &[OpenFlags::APPEND, OpenFlags::NONBLOCK]),
        "flags r append,nonblock",
    ),
    (
        Flags(Mode::Both, &[OpenFlags::NONBLOCK, OpenFlags::APPEND]),
        "flags rw append,nonblock",
    ),
    (Flags(Mode::Write, &[]), "flags w -"),
    (Flags(Mode::Write, &[OpenFlags::DIRECT]), "flags w direct"),
    (
        Flags(Mode::Write, &[OpenFlags::DIRECT, OpenFlags::APPEND]),
        "flags w append,direct",
    ),
    (
        Flags(Mode::Write, &[OpenFlags::DIRECT, OpenFlags::NONBLOCK]),
        "flags w nonblock,direct",
    ),
    (
        Flags(
            Mode::Both,
            &[OpenFlags::DIRECT, OpenFlags::NONBLOCK, OpenFlags::APPEND],
        ),
        "flags rw append,nonblock,direct",
    ),
    // masks, with how many aren't empty, and the names of each in order
    (Masks(0, &[]), "masks 0"),
    (Masks(0, &[EMPTY]), "masks 0 -"),
    (Masks(256, &[IN]), "masks 256 in"),
    (
        Masks(5, &[NVAL, HUP, ERR, OUT, IN]),
        "masks 5 nval hup err out in",
    ),
    (
        Masks(3, &[IN_OUT, EMPTY, OUT_ERR, EMPTY, IN_HUP]),
        "masks 3 in,out - out,err - in,hup",
    ),
    (Masks(1, &[ERR_HUP_NVAL]), "masks 1 err,hup,nval"),
    (
        Masks(2, &[ALL, &[PollMask::NVAL, PollMask::OUT, PollMask::HUP]]),
        "masks 2 in,out,err,hup,nval out,hup,nval",
    ),
    // errors, by name
    (Fault(Errno::EAGAIN), "EAGAIN"),
    (Fault(Errno::EBADF), "EBADF"),
    (Fault(Errno::EBUSY), "EBUSY"),
    (Fault(Errno::EEXIST), "EEXIST"),
    (Fault(Errno::EFBIG), "EFBIG"),
    (Fault(Errno::EINTR), "EINTR"),
    (Fault(Errno::EINVAL), "EINVAL"),
    (Fault(Errno::EMFILE), "EMFILE"),
    (Fault(Errno::ENAMETOOLONG), "ENAMETOOLONG"),
    (Fault(Errno::ENFILE), "ENFILE"),
    (Fault(Errno::ENOENT), "ENOENT"),
    (Fault(Errno::ENXIO), "ENXIO"),
    (Fault(Errno::EOVERFLOW), "EOVERFLOW"),
    (Fault(Errno::EPERM), "EPERM"),
    (Fault(Errno::EPIPE), "EPIPE sigpipe"),
    (Fault(Errno::ESPIPE), "ESPIPE"),
];

#[test]
fn each_reply_is_shown(rt: HostRuntime) -> Result<(), Fail> {
    for (want, text) in REPLIES {
        is_told(&rt, rt.alloc(), Version::One, text, Asked::Shows(*want))?;
        is_told(&rt, rt.alloc(), Version::One, text, Asked::Adds(*want))?;
    }
    let shown = show(rt.alloc(), &Outcome::NoMemory)?;
    is(&rt, "nomem", 0, shown.as_str() == "nomem", true);
    Ok(())
}

/// What a line says of a file that holds these bytes, or of none.
const FILES: &[(Option<&[u8]>, &str)] = &[
    (None, "no file"),
    (Some(b""), "file -"),
    (Some(b"\n"), "file 0a"),
    (Some(b"hello"), "file 68656c6c6f"),
];

#[test]
fn each_file_is_shown(rt: HostRuntime) -> Result<(), Fail> {
    for (bytes, text) in FILES {
        is_told(
            &rt,
            rt.alloc(),
            Version::One,
            text,
            Asked::ShowsFile(*bytes),
        )?;
        is_told(&rt, rt.alloc(), Version::One, text, Asked::AddsFile(*bytes))?;
    }
    Ok(())
}
