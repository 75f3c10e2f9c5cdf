//! Packet pipes (pipe(2), O_DIRECT).
use crate::steps::Steps;
use pl_model::Errno::{EAGAIN, EBADF};
use pl_testing::asked::Ask::{PacketPipeNonblock, Read, SetPipeSz, Start, Write};
use pl_testing::asked::Data::{Many, Text};
use pl_testing::asked::Want::{
    self, Bytes, Count, Fault, Fds, NoCall, NoProcess, Parked, Pid, Size,
};
use pl_testing::examples::{
    A_PACKET_PIPE_AT_ITS_LIMITS, A_PACKET_PIPE_IS_READ_EMPTY, PACKETS_READ_ONE_BY_ONE,
};
use pl_testing::sessions::{NEW_KERNEL, Session};

const NOT_OPEN: Want = Fault(EBADF);

const A: Want = Bytes(Text("a"));

const B: Want = Bytes(Text("b"));

const DE: Want = Bytes(Text("de"));

const WHOLE_A: Want = Bytes(Many(b'a', 4_096));

const WHOLE_B: Want = Bytes(Many(b'b', 4_096));

const REST_OF_A: Want = Bytes(Many(b'a', 904));

const REST_OF_B: Want = Bytes(Many(b'b', 904));

/// Each of them is refused memory in turn.
const PACKETS: &[Steps] = &[
    // A packet that is read leaves its segment for another, so that the large write and the parked one take no memory for theirs.
    Steps {
        name: "packets_read_one_by_one",
        rows: &PACKETS_READ_ONE_BY_ONE,
        passed: &[
            (
                0,
                &[
                    NoProcess, NoProcess, NoProcess, NoProcess, NoProcess, NoProcess, NoProcess,
                    NoProcess, NoProcess, NoProcess, NoProcess, NoCall, NoProcess,
                ],
            ),
            (
                1,
                &[
                    NOT_OPEN, NOT_OPEN, NOT_OPEN, NOT_OPEN, NOT_OPEN, NOT_OPEN, NOT_OPEN, NOT_OPEN,
                    NOT_OPEN, NOT_OPEN, NoCall, NOT_OPEN,
                ],
            ),
            // The second read finds no packet.
            (
                2,
                &[
                    Count(2),
                    DE,
                    Parked(1),
                    Count(5_000),
                    WHOLE_A,
                    REST_OF_A,
                    Size(4_096),
                    Parked(2),
                    B,
                    Parked(1),
                    Parked(3),
                ],
            ),
            (
                3,
                &[
                    Bytes(Text("ab")),
                    Parked(1),
                    Count(5_000),
                    WHOLE_A,
                    REST_OF_A,
                    Size(4_096),
                    Parked(2),
                    B,
                    Parked(1),
                    Parked(3),
                ],
            ),
            // A read that finds no memory takes no packet, and those behind it are a packet late.
            (
                4,
                &[
                    Bytes(Text("abc")),
                    Count(5_000),
                    DE,
                    WHOLE_A,
                    Size(4_096),
                    Parked(1),
                    A,
                    Parked(1),
                    WHOLE_B,
                ],
            ),
            (
                5,
                &[
                    Count(5_000),
                    DE,
                    WHOLE_A,
                    Size(4_096),
                    Parked(1),
                    A,
                    Parked(1),
                    WHOLE_B,
                ],
            ),
            (7, &[WHOLE_A, Size(4_096), Parked(1), A, Parked(1), WHOLE_B]),
            (8, &[Size(4_096), Parked(1), A, Parked(1), WHOLE_B]),
            // There is a place for each packet of the write.
            (9, &[Count(5_000), B, NoCall, REST_OF_B]),
            // The read takes the number.
            (10, &[Parked(1), Parked(1), Parked(2)]),
            (11, &[Parked(1), WHOLE_B]),
            (13, &[]),
        ],
        names: &[],
    },
    // A write takes as many packets as there are places, or none, and so it is with a capacity.
    Steps {
        name: "places_for_packets",
        rows: &[
            (Start, Pid(1)),
            (PacketPipeNonblock(1), Fds(0, 1)),
            (SetPipeSz(1, 1, 4_096), Size(4_096)),
            (Write(1, 1, Text("a")), Count(1)),
            (SetPipeSz(1, 0, 8_192), Size(8_192)),
            (Write(1, 1, Many(b'b', 8_192)), Count(4_096)),
            (Read(1, 0, 9), A),
            (Read(1, 0, 4_096), WHOLE_B),
        ],
        passed: &[
            (
                0,
                &[
                    NoProcess, NoProcess, NoProcess, NoProcess, NoProcess, NoProcess, NoProcess,
                ],
            ),
            (
                1,
                &[NOT_OPEN, NOT_OPEN, NOT_OPEN, NOT_OPEN, NOT_OPEN, NOT_OPEN],
            ),
            (2, &[Count(1), Size(8_192), Count(4_096), A, WHOLE_B]),
            (
                3,
                &[Size(8_192), Count(8_192), Bytes(Many(b'b', 9)), WHOLE_B],
            ),
            (4, &[Fault(EAGAIN), A, Fault(EAGAIN)]),
            (5, &[A, Fault(EAGAIN)]),
            (6, &[A]),
            (7, &[]),
        ],
        names: &[],
    },
];

/// The table, of which a proof of a test then need not see the rows.
pub(super) fn packets() -> &'static [Steps] {
    PACKETS
}

/// Each is refused every request for memory in turn.
const SESSIONS: &[Session] = &[Session {
    name: "a_packet_pipe_at_its_limits",
    rows: &A_PACKET_PIPE_AT_ITS_LIMITS,
    more: &A_PACKET_PIPE_IS_READ_EMPTY,
    ..NEW_KERNEL
}];

/// The other table.
pub(super) fn sessions() -> &'static [Session] {
    SESSIONS
}
