//! Packets (pipe(2), O_DIRECT): how a write is cut into them, how a read takes one, how many a pipe has places for, and calls that wait.
use pl_model::Errno::{EAGAIN, EBUSY, EINTR, EPERM};
use pl_testing::LIMITS;
use pl_testing::asked::Ask::{
    self, Close, Fork, GetPipeSz, Interrupt, PacketPipe, PacketPipeNonblock, Read, Resume,
    SetPipeSz, Start, Write,
};
use pl_testing::asked::Data::{Many, Part, Text, TwoRuns};
use pl_testing::asked::Want::{self, Bytes, Count, Fault, Fds, NoCall, Parked, Pid, Size, Unit};
use pl_testing::examples::{
    A_PACKET_PIPE_AT_ITS_LIMITS, A_PACKET_PIPE_IS_READ_EMPTY, PACKETS_READ_ONE_BY_ONE,
};
use pl_testing::sessions::{NEW_KERNEL, Session, each_answers};
use std::test::Fail;

/// A read of no bytes, or at the end.
const NOTHING: Want = Bytes(Text(""));

/// A read of more bytes than any packet has.
const READ_ALL: Ask = Read(1, 0, 9_000);

/// A write for which there is no place, at the second end.
const IS_FULL: (Ask, Want) = (Write(1, 1, Text("z")), Fault(EAGAIN));

/// More than any pipe can hold, to be written.
const WRITE_MOST: Ask = Write(1, 1, Many(b'a', 1_048_577));

const EXAMPLES: &[Session] = &[
    Session {
        name: "packets_read_one_by_one",
        rows: &PACKETS_READ_ONE_BY_ONE,
        ..NEW_KERNEL
    },
    Session {
        name: "a_packet_pipe_at_its_limits",
        rows: &A_PACKET_PIPE_AT_ITS_LIMITS,
        more: &A_PACKET_PIPE_IS_READ_EMPTY,
        ..NEW_KERNEL
    },
];

const LENGTHS: &[Session] = &[
    // No packet is empty, and none has more than 4,096 bytes.
    Session {
        name: "packets_of_each_length",
        rows: &[
            (Start, Pid(1)),
            (PacketPipeNonblock(1), Fds(0, 1)),
            (Write(1, 1, Text("")), Count(0)),
            (READ_ALL, Fault(EAGAIN)),
            (Write(1, 1, Text("a")), Count(1)),
            (Write(1, 1, Many(b'b', 4_095)), Count(4_095)),
            (Write(1, 1, Many(b'c', 4_096)), Count(4_096)),
            (Write(1, 1, Many(b'd', 4_097)), Count(4_097)),
            (Write(1, 1, Many(b'e', 8_192)), Count(8_192)),
            (Write(1, 1, Text("")), Count(0)),
            (Read(1, 0, 0), NOTHING),
            (READ_ALL, Bytes(Text("a"))),
            (READ_ALL, Bytes(Many(b'b', 4_095))),
            (READ_ALL, Bytes(Many(b'c', 4_096))),
            (READ_ALL, Bytes(Many(b'd', 4_096))),
            (READ_ALL, Bytes(Text("d"))),
            (READ_ALL, Bytes(Many(b'e', 4_096))),
            (READ_ALL, Bytes(Many(b'e', 4_096))),
            (READ_ALL, Fault(EAGAIN)),
            (Close(1, 1), Unit),
            (READ_ALL, NOTHING),
        ],
        ..NEW_KERNEL
    },
    // What a read doesn't give of its packet is gone.
    Session {
        name: "a_read_of_less_than_a_packet",
        rows: &[
            (Start, Pid(1)),
            (PacketPipe(1), Fds(0, 1)),
            (Write(1, 1, Many(b'a', 4_095)), Count(4_095)),
            (Write(1, 1, TwoRuns(b'b', 4_096, b'c', 1)), Count(4_097)),
            (Write(1, 1, Many(b'd', 8_192)), Count(8_192)),
            (Read(1, 0, 4_094), Bytes(Many(b'a', 4_094))),
            (Read(1, 0, 1), Bytes(Text("b"))),
            (Read(1, 0, 9), Bytes(Text("c"))),
            (Read(1, 0, 4_095), Bytes(Many(b'd', 4_095))),
            (Read(1, 0, 4_097), Bytes(Many(b'd', 4_096))),
            (Close(1, 1), Unit),
            (Read(1, 0, 9), NOTHING),
        ],
        ..NEW_KERNEL
    },
];

/// The table, of which a proof of the test then need not see the rows; so it is with those below.
fn lengths() -> &'static [Session] {
    LENGTHS
}

const CAPACITIES: &[Session] = &[
    // There are places for as many packets as 4,096 goes into the capacity.
    Session {
        name: "a_full_packet_pipe_of_each_capacity",
        rows: &[
            (Start, Pid(1)),
            (PacketPipeNonblock(1), Fds(0, 1)),
            (SetPipeSz(1, 1, 1), Size(4_096)),
            (WRITE_MOST, Count(4_096)),
            IS_FULL,
            (SetPipeSz(1, 0, 8_192), Size(8_192)),
            (WRITE_MOST, Count(4_096)),
            IS_FULL,
            (SetPipeSz(1, 1, 16_384), Size(16_384)),
            (WRITE_MOST, Count(8_192)),
            IS_FULL,
            (SetPipeSz(1, 0, 32_768), Size(32_768)),
            (WRITE_MOST, Count(16_384)),
            IS_FULL,
            (SetPipeSz(1, 1, 65_536), Size(65_536)),
            (WRITE_MOST, Count(32_768)),
            IS_FULL,
            (SetPipeSz(1, 0, 131_072), Size(131_072)),
            (WRITE_MOST, Count(65_536)),
            IS_FULL,
            (SetPipeSz(1, 1, 262_144), Size(262_144)),
            (WRITE_MOST, Count(131_072)),
            IS_FULL,
            (SetPipeSz(1, 0, 524_288), Size(524_288)),
            (WRITE_MOST, Count(262_144)),
            IS_FULL,
            (SetPipeSz(1, 1, 1_048_576), Size(1_048_576)),
            (WRITE_MOST, Count(524_288)),
            IS_FULL,
        ],
        // A capacity above the greatest is refused before one that is too small.
        more: &[
            (SetPipeSz(1, 1, 1_048_577), Fault(EPERM)),
            (SetPipeSz(1, 1, 524_288), Fault(EBUSY)),
            (Write(1, 1, Text("")), Count(0)),
            (Read(1, 0, 1), Bytes(Text("a"))),
            (SetPipeSz(1, 1, 524_288), Fault(EBUSY)),
            (Write(1, 1, Many(b'b', 5_000)), Count(4_096)),
            IS_FULL,
        ],
        ..NEW_KERNEL
    },
];

fn capacities() -> &'static [Session] {
    CAPACITIES
}

const PLACES: &[Session] = &[
    // Small packets take places as large ones do.
    Session {
        name: "packets_of_one_byte_fill_a_pipe",
        rows: &[
            (Start, Pid(1)),
            (PacketPipeNonblock(1), Fds(0, 1)),
            (SetPipeSz(1, 1, 8_192), Size(8_192)),
            (Write(1, 1, Text("a")), Count(1)),
            (Write(1, 1, Text("b")), Count(1)),
            IS_FULL,
            (WRITE_MOST, Fault(EAGAIN)),
            (Read(1, 0, 9), Bytes(Text("a"))),
            (Write(1, 1, Many(b'c', 5_000)), Count(4_096)),
            IS_FULL,
            (Read(1, 0, 9), Bytes(Text("b"))),
            (READ_ALL, Bytes(Many(b'c', 4_096))),
            (READ_ALL, Fault(EAGAIN)),
        ],
        ..NEW_KERNEL
    },
    // A capacity is too small where it has fewer places than there are packets, however few bytes they have.
    Session {
        name: "fewer_places_than_packets",
        rows: &[
            (Start, Pid(1)),
            (PacketPipe(1), Fds(0, 1)),
            (Write(1, 1, Text("a")), Count(1)),
            (Write(1, 1, Text("b")), Count(1)),
            (Write(1, 1, Text("c")), Count(1)),
            (SetPipeSz(1, 0, 8_192), Fault(EBUSY)),
            (GetPipeSz(1, 1), Size(65_536)),
            (SetPipeSz(1, 0, 8_193), Size(16_384)),
            (Read(1, 0, 9), Bytes(Text("a"))),
            (SetPipeSz(1, 1, 0), Fault(EBUSY)),
            (SetPipeSz(1, 1, 8_192), Size(8_192)),
            (Read(1, 0, 9), Bytes(Text("b"))),
            (SetPipeSz(1, 1, 0), Size(4_096)),
            (GetPipeSz(1, 0), Size(4_096)),
            (Read(1, 0, 9), Bytes(Text("c"))),
        ],
        ..NEW_KERNEL
    },
];

fn places() -> &'static [Session] {
    PLACES
}

const WAITING: &[Session] = &[
    // A write of four packets of 4,096 bytes and one of 3,616. A try takes as many as there are places, and reads of other lengths leave
    // the places as they are.
    Session {
        name: "a_write_goes_on_packet_by_packet",
        rows: &[
            (Start, Pid(1)),
            (PacketPipe(1), Fds(0, 1)),
            (SetPipeSz(1, 1, 8_192), Size(8_192)),
            (Write(1, 1, Part(0, 20_000)), Parked(1)),
            (Read(1, 0, 100), Bytes(Part(0, 100))),
            (Resume(1), Parked(1)),
            (Resume(1), Parked(1)),
            (Read(1, 0, 5_000), Bytes(Part(4_096, 4_096))),
            (Read(1, 0, 1), Bytes(Part(8_192, 1))),
            (Resume(1), Count(20_000)),
            (Read(1, 0, 4_095), Bytes(Part(12_288, 4_095))),
            (Resume(1), NoCall),
            (Read(1, 0, 4_096), Bytes(Part(16_384, 3_616))),
            (Close(1, 1), Unit),
            (Read(1, 0, 1), NOTHING),
        ],
        ..NEW_KERNEL
    },
    // A large write that is interrupted made whole packets; one that made none answers so, as a small one does.
    Session {
        name: "interrupted_writes_of_packets",
        rows: &[
            (Start, Pid(1)),
            (PacketPipe(1), Fds(0, 1)),
            (SetPipeSz(1, 1, 8_192), Size(8_192)),
            (Write(1, 1, Text("a")), Count(1)),
            (Write(1, 1, Many(b'b', 9_000)), Parked(1)),
            (Read(1, 0, 9), Bytes(Text("a"))),
            (Resume(1), Parked(1)),
            (Interrupt(1), Count(8_192)),
            (Interrupt(1), NoCall),
            (Write(1, 1, Many(b'c', 5_000)), Parked(2)),
            (Interrupt(2), Fault(EINTR)),
            (Write(1, 1, Text("d")), Parked(3)),
            (Read(1, 0, 1), Bytes(Text("b"))),
            (Interrupt(3), Fault(EINTR)),
            (Write(1, 1, Text("e")), Count(1)),
            (Write(1, 1, Text("f")), Parked(4)),
            (READ_ALL, Bytes(Many(b'b', 4_096))),
            (Resume(4), Count(1)),
            (READ_ALL, Bytes(Text("e"))),
            (READ_ALL, Bytes(Text("f"))),
        ],
        ..NEW_KERNEL
    },
];

fn waiting() -> &'static [Session] {
    WAITING
}

const IN_TURN: &[Session] = &[
    // A packet of another process may come between those of a large write.
    Session {
        name: "packets_of_two_writers",
        rows: &[
            (Start, Pid(1)),
            (PacketPipe(1), Fds(0, 1)),
            (Fork(1), Pid(2)),
            (SetPipeSz(2, 0, 4_096), Size(4_096)),
            (Write(1, 1, Many(b'a', 9_000)), Parked(1)),
            (Read(2, 0, 9), Bytes(Many(b'a', 9))),
            (Write(2, 1, Text("b")), Count(1)),
            (Resume(1), Parked(1)),
            (READ_ALL, Bytes(Text("b"))),
            (Resume(1), Parked(1)),
            (READ_ALL, Bytes(Many(b'a', 4_096))),
            (Resume(1), Count(9_000)),
            (READ_ALL, Bytes(Many(b'a', 808))),
        ],
        ..NEW_KERNEL
    },
    // Each read that waits gets a packet of its own.
    Session {
        name: "reads_that_wait_for_packets",
        rows: &[
            (Start, Pid(1)),
            (PacketPipe(1), Fds(0, 1)),
            (Read(1, 0, 2), Parked(1)),
            (READ_ALL, Parked(2)),
            (Write(1, 1, Text("abc")), Count(3)),
            (Resume(2), Bytes(Text("abc"))),
            (Resume(1), Parked(1)),
            (Write(1, 1, Many(b'd', 4_097)), Count(4_097)),
            (Resume(1), Bytes(Text("dd"))),
            (READ_ALL, Bytes(Text("d"))),
            (READ_ALL, Parked(3)),
            (Write(1, 1, Text("")), Count(0)),
            (Resume(3), Parked(3)),
            (Interrupt(3), Fault(EINTR)),
        ],
        ..NEW_KERNEL
    },
];

fn in_turn() -> &'static [Session] {
    IN_TURN
}

#[test]
fn each_example_of_packets_answers(rt: HostRuntime) -> Result<(), Fail> {
    each_answers(rt.alloc(), LIMITS, EXAMPLES)
}

#[test]
fn each_session_of_packets_answers(rt: HostRuntime) -> Result<(), Fail> {
    for sessions in [lengths(), capacities(), places(), waiting(), in_turn()] {
        each_answers(rt.alloc(), LIMITS, sessions)?;
    }
    Ok(())
}
