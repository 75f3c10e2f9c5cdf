//! The ends of packet pipes (pipe(2), O_DIRECT): who keeps them, what polls find at them, their flags, and what is refused of them.
use pl_model::Errno::{EBADF, EINVAL, EMFILE, EPIPE, ESPIPE};
use pl_model::{Mode, OpenFlags, SpliceFlags};
use pl_testing::LIMITS;
use pl_testing::asked::Ask::{
    Close, Dup, Exit, Fork, GetFl, Mkfifo, Open, PacketPipe, PacketPipeNonblock, Pipe, PollNow,
    PollWait, Read, Resume, SetFl, SetPipeSz, Splice, Start, Tee, Write,
};
use pl_testing::asked::Data::{self, Many, Text};
use pl_testing::asked::Want::{
    self, Bytes, Count, CountSigpipe, Fault, Fd, Fds, Flags, Masks, NoProcess, Parked, Pid, Size,
    Unit,
};
use pl_testing::masks::{EMPTY, HUP, IN, IN_HUP, OUT, OUT_ERR};
use pl_testing::sessions::{NEW_KERNEL, Session, each_answers};
use std::test::Fail;

const F: Data = Text("f");

/// A read at the end.
const NOTHING: Want = Bytes(Text(""));

const NONE: &[OpenFlags] = &[];

const APPEND: &[OpenFlags] = &[OpenFlags::APPEND];

const DIRECT: &[OpenFlags] = &[OpenFlags::DIRECT];

const APPEND_AND_DIRECT: &[OpenFlags] = &[OpenFlags::APPEND, OpenFlags::DIRECT];

const NONBLOCK_AND_DIRECT: &[OpenFlags] = &[OpenFlags::NONBLOCK, OpenFlags::DIRECT];

/// A file that is made, and appended to.
const NEW_AND_APPEND: &[OpenFlags] = &[OpenFlags::CREAT, OpenFlags::APPEND];

/// A splice as it is asked for mostly.
const WITHOUT: &[SpliceFlags] = &[];

/// One that is not to wait.
const AT_ONCE: &[SpliceFlags] = &[SpliceFlags::NONBLOCK];

/// The least offset that is too great.
const TOO_FAR: u64 = 9_223_372_036_854_775_808;

const ENDS: &[Session] = &[
    // Packets stay where their writers leave, by close and by exit, and the pipe ends behind the last of them.
    Session {
        name: "packets_outlive_their_writers",
        rows: &[
            (Start, Pid(1)),
            (PacketPipe(1), Fds(0, 1)),
            (Write(1, 1, Text("ab")), Count(2)),
            (Fork(1), Pid(2)),
            (Dup(1, 1), Fd(2)),
            (Close(1, 1), Unit),
            (Write(1, 2, Text("c")), Count(1)),
            (Close(1, 2), Unit),
            (Write(2, 1, Text("d")), Count(1)),
            (PollNow(1, &[(0, IN)]), Masks(1, &[IN])),
            (Exit(2), Unit),
            (PollNow(1, &[(0, IN)]), Masks(1, &[IN_HUP])),
            (Read(1, 0, 1), Bytes(Text("a"))),
            (Read(1, 0, 9), Bytes(Text("c"))),
            (Read(1, 0, 9), Bytes(Text("d"))),
            (Read(1, 0, 9), NOTHING),
            (PollNow(1, &[(0, IN)]), Masks(1, &[HUP])),
        ],
        ..NEW_KERNEL
    },
    // Packets that are held are nobody's where the last reader leaves.
    Session {
        name: "packets_that_nobody_reads",
        rows: &[
            (Start, Pid(1)),
            (PacketPipe(1), Fds(0, 1)),
            (Write(1, 1, Text("ab")), Count(2)),
            (Fork(1), Pid(2)),
            (Dup(1, 0), Fd(2)),
            (Close(1, 0), Unit),
            (Close(1, 2), Unit),
            (Write(1, 1, Text("c")), Count(1)),
            (Exit(2), Unit),
            (Write(1, 1, Text("d")), Fault(EPIPE)),
            (Write(1, 1, Many(b'd', 9_000)), Fault(EPIPE)),
            (Write(1, 1, Text("")), Count(0)),
            (PollNow(1, &[(1, OUT)]), Masks(1, &[OUT_ERR])),
        ],
        ..NEW_KERNEL
    },
    // A write that waits answers the bytes of the packets that it made, or that nobody reads.
    Session {
        name: "a_write_of_packets_is_cut_short",
        rows: &[
            (Start, Pid(1)),
            (PacketPipe(1), Fds(0, 1)),
            (SetPipeSz(1, 1, 4_096), Size(4_096)),
            (Write(1, 1, Many(b'a', 5_000)), Parked(1)),
            (Write(1, 1, Text("b")), Parked(2)),
            (Close(1, 0), Unit),
            (Resume(1), CountSigpipe(4_096)),
            (Resume(2), Fault(EPIPE)),
        ],
        ..NEW_KERNEL
    },
];

/// The table, of which a proof of the test then need not see the rows; so it is with those below.
fn ends() -> &'static [Session] {
    ENDS
}

const POLLS: &[Session] = &[
    // A packet is ready to be read, and a free place to be written to.
    Session {
        name: "polls_of_a_packet_pipe",
        rows: &[
            (Start, Pid(1)),
            (PacketPipe(1), Fds(0, 1)),
            (SetPipeSz(1, 1, 4_096), Size(4_096)),
            (PollWait(1, &[(0, IN)]), Parked(1)),
            (PollNow(1, &[(0, IN), (1, OUT)]), Masks(1, &[EMPTY, OUT])),
            (Write(1, 1, Text("")), Count(0)),
            (Resume(1), Parked(1)),
            (Write(1, 1, Text("ab")), Count(2)),
            (Resume(1), Masks(1, &[IN])),
            (PollNow(1, &[(0, IN), (1, OUT)]), Masks(1, &[IN, EMPTY])),
            (PollWait(1, &[(1, OUT)]), Parked(2)),
            (Resume(2), Parked(2)),
            (Read(1, 0, 1), Bytes(Text("a"))),
            (Resume(2), Masks(1, &[OUT])),
            (PollNow(1, &[(0, IN), (1, OUT)]), Masks(1, &[EMPTY, OUT])),
        ],
        ..NEW_KERNEL
    },
    // Only the write end of a packet pipe has the flag, and no call sets or clears it.
    Session {
        name: "flags_of_a_packet_pipe",
        rows: &[
            (Start, Pid(1)),
            (PacketPipe(1), Fds(0, 1)),
            (PacketPipeNonblock(1), Fds(2, 3)),
            (Pipe(1), Fds(4, 5)),
            (GetFl(1, 0), Flags(Mode::Read, NONE)),
            (GetFl(1, 1), Flags(Mode::Write, DIRECT)),
            (GetFl(1, 2), Flags(Mode::Read, &[OpenFlags::NONBLOCK])),
            (GetFl(1, 3), Flags(Mode::Write, NONBLOCK_AND_DIRECT)),
            (SetFl(1, 0, DIRECT), Unit),
            (GetFl(1, 0), Flags(Mode::Read, NONE)),
            (SetFl(1, 1, APPEND), Unit),
            (GetFl(1, 1), Flags(Mode::Write, APPEND_AND_DIRECT)),
            (SetFl(1, 3, NONE), Unit),
            (GetFl(1, 3), Flags(Mode::Write, DIRECT)),
            (SetFl(1, 5, APPEND_AND_DIRECT), Unit),
            (GetFl(1, 5), Flags(Mode::Write, APPEND)),
        ],
        ..NEW_KERNEL
    },
    // An open drops the flag, so that a FIFO joins what is written.
    Session {
        name: "no_fifo_is_a_packet_pipe",
        rows: &[
            (Start, Pid(1)),
            (Mkfifo(1, F), Unit),
            (Open(1, F, Mode::Both, DIRECT), Fd(0)),
            (GetFl(1, 0), Flags(Mode::Both, NONE)),
            (Write(1, 0, Text("a")), Count(1)),
            (Write(1, 0, Text("b")), Count(1)),
            (Read(1, 0, 9), Bytes(Text("ab"))),
        ],
        names: &[F],
        ..NEW_KERNEL
    },
];

fn polls_and_flags() -> &'static [Session] {
    POLLS
}

const REFUSALS: &[Session] = &[
    // No splice is from a packet pipe or to one, and no tee, whatever else is wrong; a descriptor that isn't open for it and an offset of
    // a pipe are refused before. The packet stays whole.
    Session {
        name: "splices_and_tees_of_packet_pipes",
        rows: &[
            (Start, Pid(1)),
            (PacketPipe(1), Fds(0, 1)),
            (Pipe(1), Fds(2, 3)),
            (Open(1, F, Mode::Both, NEW_AND_APPEND), Fd(4)),
            (Write(1, 1, Text("ab")), Count(2)),
            (Write(1, 3, Text("c")), Count(1)),
            (Splice(1, (0, None), (3, None), 0, WITHOUT), Count(0)),
            (Splice(1, (1, None), (3, None), 5, WITHOUT), Fault(EBADF)),
            (Splice(1, (2, None), (0, None), 5, WITHOUT), Fault(EBADF)),
            (
                Splice(1, (0, Some(0)), (3, None), 5, WITHOUT),
                Fault(ESPIPE),
            ),
            (
                Splice(1, (2, None), (1, Some(0)), 5, WITHOUT),
                Fault(ESPIPE),
            ),
            (
                Splice(1, (0, None), (4, Some(TOO_FAR)), 5, WITHOUT),
                Fault(EINVAL),
            ),
            (Splice(1, (0, None), (1, None), 5, WITHOUT), Fault(EINVAL)),
            (Splice(1, (0, None), (3, None), 5, WITHOUT), Fault(EINVAL)),
            (Splice(1, (0, None), (3, None), 5, AT_ONCE), Fault(EINVAL)),
            (Splice(1, (2, None), (1, None), 5, WITHOUT), Fault(EINVAL)),
            (Splice(1, (0, None), (4, None), 5, WITHOUT), Fault(EINVAL)),
            (
                Splice(1, (4, Some(0)), (1, None), 5, WITHOUT),
                Fault(EINVAL),
            ),
            // to a file that is appended to, from a pipe that may be spliced
            (Splice(1, (2, None), (4, None), 5, WITHOUT), Fault(EINVAL)),
            (SetFl(1, 4, NONE), Unit),
            (Splice(1, (0, None), (4, None), 5, WITHOUT), Fault(EINVAL)),
            (Splice(1, (2, None), (4, None), 5, WITHOUT), Count(1)),
        ],
        more: &[
            (Tee(1, 0, 3, 0, WITHOUT), Count(0)),
            (Tee(1, 1, 3, 5, WITHOUT), Fault(EBADF)),
            (Tee(1, 2, 0, 5, WITHOUT), Fault(EBADF)),
            (Tee(1, 0, 4, 5, WITHOUT), Fault(EINVAL)),
            (Tee(1, 0, 1, 5, WITHOUT), Fault(EINVAL)),
            (Tee(1, 0, 3, 5, WITHOUT), Fault(EINVAL)),
            (Tee(1, 2, 1, 5, AT_ONCE), Fault(EINVAL)),
            (Read(1, 0, 9), Bytes(Text("ab"))),
        ],
        names: &[F],
        ..NEW_KERNEL
    },
    Session {
        name: "a_packet_pipe_takes_two_descriptors",
        processes: 1,
        full_tables: 1,
        rows: &[
            (PacketPipe(1), Fault(EMFILE)),
            (Close(1, 0), Unit),
            (PacketPipeNonblock(1), Fault(EMFILE)),
            (Close(1, 7), Unit),
            (PacketPipe(1), Fds(0, 7)),
            (Write(1, 7, Text("ab")), Count(2)),
            (Read(1, 0, 1), Bytes(Text("a"))),
            (PacketPipe(2), NoProcess),
        ],
        ..NEW_KERNEL
    },
];

fn refusals() -> &'static [Session] {
    REFUSALS
}

#[test]
fn each_session_of_packet_ends_answers(rt: HostRuntime) -> Result<(), Fail> {
    for sessions in [ends(), polls_and_flags(), refusals()] {
        each_answers(rt.alloc(), LIMITS, sessions)?;
    }
    Ok(())
}
