//! The worked examples that several crates of tests make: tables of steps with the replies that are wanted.
mod splices;

use crate::asked::Ask::{
    self, Close, Dup, Dup2, Exit, Fork, GetFl, GetPipeSz, Interrupt, Lseek, Mkfifo, Open,
    PacketPipe, PacketPipeNonblock, Pipe, PipeNonblock, PollNow, PollWait, Read, Resume, SetFl,
    SetPipeSz, Splice, Start, Tee, Unlink, Write,
};
use crate::asked::Data::{Many, Text, TwoRuns};
use crate::asked::Want::{
    self, Bytes, CallsSpent, Count, CountSigpipe, Fault, Fd, Fds, Flags, Masks, NoCall, NoProcess,
    Offset, Parked, Pid, Size, Unit,
};
use crate::masks::{EMPTY, ERR, HUP, IN, IN_OUT, NVAL, OUT};
use pl_model::Whence::{Cur, End, Set};
use pl_model::{Errno, Mode, OpenFlags};
pub use splices::{
    A_SHARED_TAIL, A_SPLICE_TO_AN_OFFSET, BYTES_OF_THEIR_MOMENT, SPLICES_AND_TEES_REFUSED,
    SPLICES_OF_AN_EMPTY_PIPE,
};

/// What was written is read, and then the file ends.
pub const BYTES_BEFORE_END_OF_FILE: [(Ask, Want); 7] = [
    (Start, Pid(1)),
    (Pipe(1), Fds(0, 1)),
    (Write(1, 1, Text("hello")), Count(5)),
    (Read(1, 0, 3), Bytes(Text("hel"))),
    (Read(1, 0, 10), Bytes(Text("lo"))),
    (Close(1, 1), Unit),
    (Read(1, 0, 10), Bytes(Text(""))),
];

/// A large write that may not wait goes in as far as there is room, and a small one whole or not at all.
pub const PARTIAL_AND_WHOLE_NOT_WAITING: [(Ask, Want); 7] = [
    (Start, Pid(1)),
    (PipeNonblock(1), Fds(0, 1)),
    (Read(1, 0, 1), Fault(Errno::EAGAIN)),
    (Write(1, 1, Many(b'a', 70_000)), Count(65_536)),
    (Read(1, 0, 5_000), Bytes(Many(b'a', 5_000))),
    (Write(1, 1, Many(b'b', 70_000)), Count(5_000)),
    (Write(1, 1, Text("c")), Fault(Errno::EAGAIN)),
];

/// A write of at most 4,096 bytes waits until there is room for all of it.
pub const A_SMALL_WRITE_AT_ITS_BOUNDARY: [(Ask, Want); 12] = [
    (Start, Pid(1)),
    (Pipe(1), Fds(0, 1)),
    (Write(1, 1, Many(b'a', 62_536)), Count(62_536)),
    // room for 3,000 bytes, then for 3,999, and then for 4,000
    (Write(1, 1, Many(b'b', 4_000)), Parked(1)),
    (Read(1, 0, 999), Bytes(Many(b'a', 999))),
    (Resume(1), Parked(1)),
    (Read(1, 0, 1), Bytes(Text("a"))),
    (Resume(1), Count(4_000)),
    (Read(1, 0, 1), Bytes(Text("a"))),
    (Write(1, 1, Text("cc")), Parked(2)),
    (Interrupt(2), Fault(Errno::EINTR)),
    (Resume(2), NoCall),
];

/// A write that took bytes answers their count where it is interrupted.
pub const AN_INTERRUPTED_LARGE_WRITE: [(Ask, Want); 5] = [
    (Start, Pid(1)),
    (Pipe(1), Fds(0, 1)),
    (Write(1, 1, Many(b'a', 70_000)), Parked(1)),
    (Interrupt(1), Count(65_536)),
    (Interrupt(1), NoCall),
];

/// A write that took bytes answers their count where nobody can read the rest.
pub const THE_LAST_READER_LEAVES: [(Ask, Want); 8] = [
    (Start, Pid(1)),
    (Pipe(1), Fds(0, 1)),
    (Write(1, 1, Many(b'a', 70_000)), Parked(1)),
    (Close(1, 0), Unit),
    (Resume(1), CountSigpipe(65_536)),
    (Write(1, 1, Text("b")), Fault(Errno::EPIPE)),
    (Write(1, 1, Text("")), Count(0)),
    (PollNow(1, &[(1, OUT)]), Masks(1, &[ERR])),
];

/// A read end that only a waiting read keeps is a reader, until the read is answered.
pub const A_PARKED_CALL_KEEPS_ITS_END: [(Ask, Want); 7] = [
    (Start, Pid(1)),
    (Pipe(1), Fds(0, 1)),
    (Read(1, 0, 1), Parked(1)),
    (Close(1, 0), Unit),
    (Write(1, 1, Text("a")), Count(1)),
    (Resume(1), Bytes(Text("a"))),
    (Write(1, 1, Text("b")), Fault(Errno::EPIPE)),
];

/// A write end that only a waiting write keeps is a writer, until the write has gone in.
pub const A_WAITING_WRITER_IS_A_WRITER: [(Ask, Want); 9] = [
    (Start, Pid(1)),
    (Pipe(1), Fds(0, 1)),
    (Write(1, 1, Many(b'a', 70_000)), Parked(1)),
    (Close(1, 1), Unit),
    (Read(1, 0, 70_000), Bytes(Many(b'a', 65_536))),
    // The pipe is empty, and not at its end.
    (Read(1, 0, 1), Parked(2)),
    (Resume(1), Count(70_000)),
    (Resume(2), Bytes(Text("a"))),
    (Read(1, 0, 70_000), Bytes(Many(b'a', 4_463))),
];

/// Both flags that `SetFl` sets.
const APPEND_AND_NONBLOCK: &[OpenFlags] = &[OpenFlags::APPEND, OpenFlags::NONBLOCK];

/// The flags of a description are those of each descriptor that names it, and of no other.
pub const FLAGS_OF_SHARED_DESCRIPTIONS: [(Ask, Want); 10] = [
    (Start, Pid(1)),
    (Pipe(1), Fds(0, 1)),
    (Dup(1, 0), Fd(2)),
    (SetFl(1, 2, APPEND_AND_NONBLOCK), Unit),
    (GetFl(1, 0), Flags(Mode::Read, APPEND_AND_NONBLOCK)),
    (GetFl(1, 1), Flags(Mode::Write, &[])),
    (Read(1, 0, 1), Fault(Errno::EAGAIN)),
    (Dup2(1, 1, 0), Fd(0)),
    (GetFl(1, 0), Flags(Mode::Write, &[])),
    (Read(1, 2, 1), Fault(Errno::EAGAIN)),
];

/// What another process writes goes in between the turns of a large write.
pub const INTERLEAVING_WITH_A_LARGE_WRITE: [(Ask, Want); 10] = [
    (Start, Pid(1)),
    (Pipe(1), Fds(0, 1)),
    (Fork(1), Pid(2)),
    (Write(1, 1, Many(b'a', 70_000)), Parked(1)),
    (Read(1, 0, 1_000), Bytes(Many(b'a', 1_000))),
    (Write(2, 1, Many(b'b', 1_000)), Count(1_000)),
    (Resume(1), Parked(1)),
    (
        Read(1, 0, 65_536),
        Bytes(TwoRuns(b'a', 64_536, b'b', 1_000)),
    ),
    (Resume(1), Count(70_000)),
    (Read(1, 0, 65_536), Bytes(Many(b'a', 4_464))),
];

/// A write end is a writer as long as a descriptor of any process names it.
pub const THREE_NAMES_OF_ONE_WRITE_END: [(Ask, Want); 9] = [
    (Start, Pid(1)),
    (Pipe(1), Fds(0, 1)),
    (Fork(1), Pid(2)),
    (Dup(1, 1), Fd(2)),
    (Close(1, 1), Unit),
    (Close(1, 2), Unit),
    (Read(1, 0, 1), Parked(1)),
    (Exit(2), Unit),
    (Resume(1), Bytes(Text(""))),
];

/// The calls of a process end with it, and its pid is free.
pub const AN_EXIT_DROPS_PARKED_CALLS: [(Ask, Want); 7] = [
    (Start, Pid(1)),
    (Pipe(1), Fds(0, 1)),
    (Read(1, 0, 1), Parked(1)),
    (Exit(1), Unit),
    (Resume(1), NoCall),
    (Close(1, 0), NoProcess),
    (Start, Pid(1)),
];

/// A FIFO whose last end closed is empty, has its first capacity, and isn't hung. The name is left.
pub const A_FIFO_WITH_NO_END_FORGETS: [(Ask, Want); 11] = [
    (Start, Pid(1)),
    (Mkfifo(1, Text("q")), Unit),
    (Mkfifo(1, Text("q")), Fault(Errno::EEXIST)),
    (Open(1, Text("q"), Mode::Both, &[]), Fd(0)),
    (Write(1, 0, Text("abc")), Count(3)),
    (SetPipeSz(1, 0, 1), Size(4_096)),
    (Close(1, 0), Unit),
    (Open(1, Text("q"), Mode::Read, NONBLOCK), Fd(0)),
    (PollNow(1, &[(0, IN)]), Masks(0, &[EMPTY])),
    (Read(1, 0, 10), Bytes(Text(""))),
    (GetPipeSz(1, 0), Size(65_536)),
];

/// An open that was met stays met, though the other end is closed again, and its FIFO is hung. The name is left.
pub const AN_OPEN_THAT_WAS_MET_STAYS_MET: [(Ask, Want); 11] = [
    (Start, Pid(1)),
    (Start, Pid(2)),
    (Mkfifo(1, Text("q")), Unit),
    (
        Open(2, Text("q"), Mode::Write, NONBLOCK),
        Fault(Errno::ENXIO),
    ),
    (Open(1, Text("q"), Mode::Read, &[]), Parked(1)),
    (Resume(1), Parked(1)),
    (Open(2, Text("q"), Mode::Write, &[]), Fd(0)),
    (Close(2, 0), Unit),
    (Resume(1), Fd(0)),
    (PollNow(1, &[(0, IN)]), Masks(1, &[HUP])),
    (Read(1, 0, 10), Bytes(Text(""))),
];

/// Where no number is left, a call that would wait is refused, and one that doesn't wait is answered. The first call has the number
/// that no call gets.
pub const CALL_NUMBERS_SPENT: [(Ask, Want); 5] = [
    (Start, Pid(1)),
    (Pipe(1), Fds(0, 1)),
    (Read(1, 0, 1), CallsSpent),
    (Write(1, 1, Many(b'a', 70_000)), CallsSpent),
    (PollNow(1, &[(0, IN)]), Masks(0, &[EMPTY])),
];

/// A poll waits until one of its masks isn't empty, and tells of each entry.
pub const POLL: [(Ask, Want); 8] = [
    (Start, Pid(1)),
    (Pipe(1), Fds(0, 1)),
    (PollWait(1, &[(0, IN), (1, EMPTY), (-1, IN)]), Parked(1)),
    (Write(1, 1, Text("a")), Count(1)),
    (Resume(1), Masks(1, &[IN, EMPTY, EMPTY])),
    (
        PollNow(1, &[(9, IN), (-1, IN), (1, IN_OUT)]),
        Masks(2, &[NVAL, EMPTY, OUT]),
    ),
    (SetPipeSz(1, 1, 4_096), Size(4_096)),
    (PollNow(1, &[(1, OUT)]), Masks(0, &[EMPTY])),
];

/// Two processes share the offset of a file, and its status flags: a write at the end, and one behind it. The file is left, with the bytes
/// "abc", two zeros and "d".
pub const A_FILE_OF_TWO_PROCESSES: [(Ask, Want); 10] = [
    (Start, Pid(1)),
    (
        Open(
            1,
            Text("f"),
            Mode::Both,
            &[OpenFlags::CREAT, OpenFlags::APPEND],
        ),
        Fd(0),
    ),
    (Fork(1), Pid(2)),
    (Write(1, 0, Text("ab")), Count(2)),
    (Lseek(2, 0, 0, Cur), Offset(2)),
    (Lseek(2, 0, 0, Set), Offset(0)),
    (Write(1, 0, Text("c")), Count(1)),
    (Lseek(1, 0, 5, Set), Offset(5)),
    (SetFl(1, 0, &[]), Unit),
    (Write(2, 0, Text("d")), Count(1)),
];

/// Without its name they read it still.
pub const A_FILE_WITHOUT_ITS_NAME: [(Ask, Want); 5] = [
    (Read(1, 0, 4), Bytes(Text(""))),
    (Unlink(1, Text("f")), Unit),
    (Open(1, Text("f"), Mode::Read, &[]), Fault(Errno::ENOENT)),
    (Lseek(1, 0, 0, Set), Offset(0)),
    (Read(2, 0, 2), Bytes(Text("ab"))),
];

/// A file takes bytes up to its limit, and an offset is at least 0 and at most the greatest. The name is gone.
pub const THE_END_OF_A_FILE: [(Ask, Want); 10] = [
    (Start, Pid(1)),
    (Open(1, Text("f"), Mode::Both, &[OpenFlags::CREAT]), Fd(0)),
    (Lseek(1, 0, 16_777_214, Set), Offset(16_777_214)),
    (Write(1, 0, Text("abc")), Count(2)),
    (Write(1, 0, Text("a")), Fault(Errno::EFBIG)),
    (Write(1, 0, Text("")), Count(0)),
    (Lseek(1, 0, -1, Set), Fault(Errno::EINVAL)),
    (Lseek(1, 0, i64::MAX, End), Fault(Errno::EOVERFLOW)),
    (Unlink(1, Text("f")), Unit),
    (Lseek(1, 0, 0, End), Offset(16_777_216)),
];

const NEW: &[OpenFlags] = &[OpenFlags::CREAT, OpenFlags::EXCL];

const NONBLOCK: &[OpenFlags] = &[OpenFlags::NONBLOCK];

const TRUNC: &[OpenFlags] = &[OpenFlags::TRUNC];

/// Which names are refused, which flags a description keeps, and what an open empties. The file is left, without bytes.
pub const NAMES_AND_FLAGS: [(Ask, Want); 14] = [
    (Start, Pid(1)),
    (Open(1, Text(""), Mode::Read, &[]), Fault(Errno::ENOENT)),
    (Mkfifo(1, Text("a/b")), Fault(Errno::EINVAL)),
    (Mkfifo(1, Many(b'a', 256)), Fault(Errno::ENAMETOOLONG)),
    (Open(1, Text("x"), Mode::Write, NEW), Fd(0)),
    (Open(1, Text("x"), Mode::Write, NEW), Fault(Errno::EEXIST)),
    (Read(1, 0, 1), Fault(Errno::EBADF)),
    (GetFl(1, 0), Flags(Mode::Write, &[])),
    (
        SetFl(
            1,
            0,
            &[OpenFlags::APPEND, OpenFlags::NONBLOCK, OpenFlags::TRUNC],
        ),
        Unit,
    ),
    (GetFl(1, 0), Flags(Mode::Write, APPEND_AND_NONBLOCK)),
    (Write(1, 0, Text("ab")), Count(2)),
    (Open(1, Text("x"), Mode::Read, TRUNC), Fd(1)),
    (Read(1, 1, 9), Bytes(Text("ab"))),
    (Open(1, Text("x"), Mode::Both, TRUNC), Fd(2)),
];

/// A size is rounded up to a power of two; one above the greatest is refused, and so is one that is less than what is held.
pub const SIZES_OF_A_PIPE: [(Ask, Want); 8] = [
    (Start, Pid(1)),
    (Pipe(1), Fds(0, 1)),
    (SetPipeSz(1, 1, 1), Size(4_096)),
    (SetPipeSz(1, 1, 65_537), Size(131_072)),
    (SetPipeSz(1, 1, 1_048_577), Fault(Errno::EPERM)),
    (Write(1, 1, Many(b'a', 5_000)), Count(5_000)),
    (SetPipeSz(1, 1, 4_096), Fault(Errno::EBUSY)),
    (SetPipeSz(1, 1, 5_000), Size(8_192)),
];

/// A read takes one packet, and what it doesn't give of it is discarded. A large write is cut into packets, and goes on where one is read.
pub const PACKETS_READ_ONE_BY_ONE: [(Ask, Want); 14] = [
    (Start, Pid(1)),
    (PacketPipe(1), Fds(0, 1)),
    (Write(1, 1, Text("abc")), Count(3)),
    (Write(1, 1, Text("de")), Count(2)),
    (Read(1, 0, 2), Bytes(Text("ab"))),
    (Read(1, 0, 10), Bytes(Text("de"))),
    (Write(1, 1, Many(b'a', 5_000)), Count(5_000)),
    (Read(1, 0, 9_000), Bytes(Many(b'a', 4_096))),
    (Read(1, 0, 9_000), Bytes(Many(b'a', 904))),
    (SetPipeSz(1, 1, 4_096), Size(4_096)),
    (Write(1, 1, Many(b'b', 5_000)), Parked(1)),
    (Read(1, 0, 1), Bytes(Text("b"))),
    (Resume(1), Count(5_000)),
    (Read(1, 0, 9_000), Bytes(Many(b'b', 904))),
];

const DIRECT: &[OpenFlags] = &[OpenFlags::DIRECT];

/// Sixteen packets fill a new packet pipe, and a read of one byte leaves a place. Of the flags of the write end only `DIRECT` stays, which
/// the read end doesn't have.
pub const A_PACKET_PIPE_AT_ITS_LIMITS: [(Ask, Want); 15] = [
    (Start, Pid(1)),
    (PacketPipeNonblock(1), Fds(0, 1)),
    (Write(1, 1, Many(b'a', 70_000)), Count(65_536)),
    (Write(1, 1, Text("b")), Fault(Errno::EAGAIN)),
    (PollNow(1, &[(1, OUT)]), Masks(0, &[EMPTY])),
    (Read(1, 0, 1), Bytes(Text("a"))),
    (PollNow(1, &[(1, OUT)]), Masks(1, &[OUT])),
    (Write(1, 1, Many(b'b', 8_192)), Count(4_096)),
    (SetPipeSz(1, 1, 4_096), Fault(Errno::EBUSY)),
    (Pipe(1), Fds(2, 3)),
    (Tee(1, 0, 3, 1, &[]), Fault(Errno::EINVAL)),
    (
        Splice(1, (0, None), (3, None), 1, &[]),
        Fault(Errno::EINVAL),
    ),
    (SetFl(1, 1, &[]), Unit),
    (GetFl(1, 1), Flags(Mode::Write, DIRECT)),
    (GetFl(1, 0), Flags(Mode::Read, &[OpenFlags::NONBLOCK])),
];

/// A packet of as many bytes as any has.
const WHOLE_A: (Ask, Want) = (Read(1, 0, 4_096), Bytes(Many(b'a', 4_096)));

/// The packets that are held then, and a write of two of them, which makes no third.
pub const A_PACKET_PIPE_IS_READ_EMPTY: [(Ask, Want); 22] = [
    WHOLE_A,
    WHOLE_A,
    WHOLE_A,
    WHOLE_A,
    WHOLE_A,
    WHOLE_A,
    WHOLE_A,
    WHOLE_A,
    WHOLE_A,
    WHOLE_A,
    WHOLE_A,
    WHOLE_A,
    WHOLE_A,
    WHOLE_A,
    WHOLE_A,
    (Read(1, 0, 4_096), Bytes(Many(b'b', 4_096))),
    (Write(1, 1, Many(b'c', 8_192)), Count(8_192)),
    (Read(1, 0, 9_000), Bytes(Many(b'c', 4_096))),
    (Read(1, 0, 9_000), Bytes(Many(b'c', 4_096))),
    (Read(1, 0, 9_000), Fault(Errno::EAGAIN)),
    (Close(1, 1), Unit),
    (Read(1, 0, 9_000), Bytes(Text(""))),
];
