//! Splices and tees, as tables of steps with the replies that are wanted.
use crate::asked::Ask::{self, Close, Lseek, Open, Pipe, Read, Splice, Start, Tee, Write};
use crate::asked::Data::Text;
use crate::asked::Want::{self, Bytes, Count, Fault, Fd, Fds, Offset, Pid, Unit};
use pl_model::Whence::{Cur, Set};
use pl_model::{Errno, Mode, OpenFlags, SpliceFlags};

const CREAT: &[OpenFlags] = &[OpenFlags::CREAT];

const NO_FLAGS: &[SpliceFlags] = &[];

/// What goes into a pipe, and into its copy, behind the bytes that they share.
pub const A_SHARED_TAIL: [(Ask, Want); 9] = [
    (Start, Pid(1)),
    (Pipe(1), Fds(0, 1)),
    (Pipe(1), Fds(2, 3)),
    (Write(1, 1, Text("ab")), Count(2)),
    (Tee(1, 0, 3, 2, NO_FLAGS), Count(2)),
    (Write(1, 1, Text("c")), Count(1)),
    (Write(1, 3, Text("d")), Count(1)),
    (Read(1, 0, 10), Bytes(Text("abc"))),
    (Read(1, 2, 10), Bytes(Text("abd"))),
];

/// A later write to the file doesn't change what was spliced from it. The file is left, with the bytes "new".
pub const BYTES_OF_THEIR_MOMENT: [(Ask, Want); 8] = [
    (Start, Pid(1)),
    (Open(1, Text("f"), Mode::Both, CREAT), Fd(0)),
    (Write(1, 0, Text("old")), Count(3)),
    (Pipe(1), Fds(1, 2)),
    (Splice(1, (0, Some(0)), (2, None), 10, NO_FLAGS), Count(3)),
    (Lseek(1, 0, 0, Set), Offset(0)),
    (Write(1, 0, Text("new")), Count(3)),
    (Read(1, 1, 10), Bytes(Text("old"))),
];

/// A splice to an offset that is given leaves the file's own. The file is left, with ten zeros before the bytes "ab".
pub const A_SPLICE_TO_AN_OFFSET: [(Ask, Want); 6] = [
    (Start, Pid(1)),
    (Pipe(1), Fds(0, 1)),
    (Open(1, Text("f"), Mode::Both, CREAT), Fd(2)),
    (Write(1, 1, Text("ab")), Count(2)),
    (Splice(1, (0, None), (2, Some(10)), 5, NO_FLAGS), Count(2)),
    (Lseek(1, 2, 0, Cur), Offset(0)),
];

/// Splices of the pipe then, which is empty: at an offset, without a wait, and at its end.
pub const SPLICES_OF_AN_EMPTY_PIPE: [(Ask, Want); 4] = [
    (
        Splice(1, (0, Some(0)), (2, None), 5, NO_FLAGS),
        Fault(Errno::ESPIPE),
    ),
    (
        Splice(1, (0, None), (2, None), 5, &[SpliceFlags::NONBLOCK]),
        Fault(Errno::EAGAIN),
    ),
    (Close(1, 1), Unit),
    (Splice(1, (0, None), (2, None), 5, NO_FLAGS), Count(0)),
];

/// Splices and tees that are refused, and one of no bytes, which isn't. The names are left.
pub const SPLICES_AND_TEES_REFUSED: [(Ask, Want); 11] = [
    (Start, Pid(1)),
    (Pipe(1), Fds(0, 1)),
    (
        Open(
            1,
            Text("a"),
            Mode::Both,
            &[OpenFlags::CREAT, OpenFlags::APPEND],
        ),
        Fd(2),
    ),
    (Open(1, Text("b"), Mode::Both, CREAT), Fd(3)),
    (
        Splice(1, (0, None), (1, None), 5, NO_FLAGS),
        Fault(Errno::EINVAL),
    ),
    (
        Splice(1, (2, None), (3, None), 5, NO_FLAGS),
        Fault(Errno::EINVAL),
    ),
    (
        Splice(1, (0, None), (2, None), 5, NO_FLAGS),
        Fault(Errno::EINVAL),
    ),
    (Splice(1, (99, None), (98, None), 0, NO_FLAGS), Count(0)),
    (
        Splice(1, (99, None), (1, None), 5, NO_FLAGS),
        Fault(Errno::EBADF),
    ),
    (Tee(1, 0, 3, 5, NO_FLAGS), Fault(Errno::EINVAL)),
    (Tee(1, 1, 0, 5, NO_FLAGS), Fault(Errno::EBADF)),
];
