//! Sessions: scripts of calls that wait and of descriptors that share, line by line with what each prints.
use super::session::Session;
use crate::{fifo_lines, poll_lines, splice_lines};
use pl_testing::asked::NEVER_GIVEN;
use std::alloc::Allocator;
use std::process::Abort;
use std::test::Fail;

const PARTIAL_AND_WHOLE_NOT_WAITING: &str = "\
start => pid 1
1 pipe nonblock => fds 0 1
1 read 0 1 => EAGAIN
1 write 1 70000*61 => count 65536
1 read 0 5000 => data 5000*61
1 write 1 70000*62 => count 5000
1 write 1 63 => EAGAIN
";

const A_SMALL_WRITE_AT_ITS_BOUNDARY: &str = "\
start => pid 1
1 pipe => fds 0 1
1 write 1 62536*61 => count 62536
1 write 1 4000*62 => parked 1
1 read 0 999 => data 999*61
resume 1 => parked 1
1 read 0 1 => data 61
resume 1 => count 4000
1 read 0 1 => data 61
1 write 1 6363 => parked 2
interrupt 2 => EINTR
resume 2 => no call
";

const THE_LAST_READER_LEAVES: &str = "\
start => pid 1
1 pipe => fds 0 1
1 write 1 70000*61 => parked 1
1 close 0 => ok
resume 1 => count 65536 sigpipe
1 write 1 62 => EPIPE sigpipe
1 write 1 - => count 0
1 poll now 1:out => masks 1 err
";

const INTERRUPTED_LARGE_WRITES: &str = "\
start => pid 1
1 pipe => fds 0 1
1 write 1 70000*61 => parked 1
interrupt 1 => count 65536
interrupt 1 => no call
1 read 0 65536 => data 65536*61
1 write 1 70000*62 => parked 2
1 read 0 65536 => data 65536*62
resume 2 => count 70000
1 write 1 70000*63 => parked 3
interrupt 3 => count 61072
1 read 0 4464 => data 4464*62
1 read 0 65536 => data 61072*63
";

const A_PARKED_CALL_KEEPS_ITS_END: &str = "\
start => pid 1
1 pipe => fds 0 1
1 read 0 1 => parked 1
1 close 0 => ok
1 write 1 61 => count 1
resume 1 => data 61
1 write 1 62 => EPIPE sigpipe
";

const TWO_PROCESSES: &str = "\
start => pid 1
start => pid 2
1 pipe => fds 0 1
2 pipe => fds 0 1
1 read 0 5 => parked 1
2 read 0 5 => parked 2
1 write 1 61 => count 1
2 write 1 6262 => count 2
resume 2 => data 6262
resume 1 => data 61
2 read 0 5 => parked 3
2 close 1 => ok
resume 3 => data -
1 read 0 5 => parked 4
interrupt 4 => EINTR
";

const NO_NUMBER_IS_LEFT: &str = "\
start => pid 1
1 pipe => fds 0 1
1 read 0 1 => calls spent
1 write 1 70000*61 => calls spent
1 poll now 0:in => masks 0 -
1 write 1 62 => count 1
1 read 0 70000 => data 62
resume 18446744073709551615 => no call
interrupt 18446744073709551615 => no call
";

const THE_LAST_NUMBERS: &str = "\
start => pid 1
1 pipe => fds 0 1
1 read 0 1 => parked 18446744073709551613
1 read 0 2 => parked 18446744073709551614
1 write 1 70000*61 => calls spent
resume 18446744073709551613 => parked 18446744073709551613
interrupt 18446744073709551613 => EINTR
1 read 0 1 => calls spent
1 write 1 626262 => count 3
resume 18446744073709551614 => data 6262
resume 18446744073709551614 => no call
1 read 0 9 => data 62
1 read 0 9 => calls spent
1 close 1 => ok
1 read 0 9 => data -
";

const FLAGS_OF_SHARED_DESCRIPTIONS: &str = "\
start => pid 1
1 pipe => fds 0 1
1 dup 0 => fd 2
1 setfl 2 append,nonblock => ok
1 getfl 0 => flags r append,nonblock
1 getfl 1 => flags w -
1 read 0 1 => EAGAIN
1 dup2 1 0 => fd 0
1 getfl 0 => flags w -
1 read 2 1 => EAGAIN
";

pub(crate) const INTERLEAVING_WITH_A_LARGE_WRITE: &str = "\
start => pid 1
1 pipe => fds 0 1
1 fork => pid 2
1 write 1 70000*61 => parked 1
1 read 0 1000 => data 1000*61
2 write 1 1000*62 => count 1000
resume 1 => parked 1
1 read 0 64536 => data 64536*61
1 read 0 1000 => data 1000*62
resume 1 => count 70000
1 read 0 65536 => data 4464*61
";

const THREE_NAMES_OF_ONE_WRITE_END: &str = "\
start => pid 1
1 pipe => fds 0 1
1 fork => pid 2
1 dup 1 => fd 2
1 close 1 => ok
1 close 2 => ok
1 read 0 1 => parked 1
2 exit => ok
resume 1 => data -
";

const AN_EXIT_DROPS_PARKED_CALLS: &str = "\
start => pid 1
1 pipe => fds 0 1
1 read 0 1 => parked 1
1 exit => ok
resume 1 => no call
1 close 0 => no process
start => pid 1
";

const OUTSIDE_THE_TABLE: &str = "\
start => pid 1
1 pipe => fds 0 1
1 dup -1 => EBADF
1 dup2 0 256 => EBADF
1 dup2 0 -1 => EBADF
1 dupfd 0 256 => EINVAL
1 dupfd 0 -1 => EINVAL
1 dupfd 0 255 => fd 255
1 dupfd 0 255 => EMFILE
1 getfl 2147483647 => EBADF
1 setfl -2147483648 - => EBADF
1 dup2 1 1 => fd 1
1 dup -0 => fd 2
";

const A_SHARED_OFFSET: &str = "\
start => pid 1
1 open f rw creat,append => fd 0
1 fork => pid 2
1 write 0 6162 => count 2
2 lseek 0 0 cur => offset 2
2 lseek 0 0 set => offset 0
1 write 0 63 => count 1
1 lseek 0 5 set => offset 5
1 setfl 0 - => ok
2 write 0 64 => count 1
file f => file 616263000064
1 read 0 4 => data -
1 unlink f => ok
file f => no file
1 lseek 0 0 set => offset 0
2 read 0 2 => data 6162
";

const THE_END_OF_A_FILE: &str = "\
start => pid 1
1 open f rw creat => fd 0
1 lseek 0 16777214 set => offset 16777214
1 write 0 616263 => count 2
1 write 0 61 => EFBIG
1 write 0 - => count 0
1 lseek 0 -1 set => EINVAL
1 lseek 0 9223372036854775807 end => EOVERFLOW
1 unlink f => ok
1 lseek 0 0 end => offset 16777216
file f => no file
1 open f r => ENOENT
";

const NAMES_AND_FLAGS: &str = "\
start => pid 1
1 open - r => ENOENT
1 mkfifo a%2fb => EINVAL
1 mkfifo aaaaaaaaaaaaaaaaaaaaaaaaaaaaaaaaaaaaaaaaaaaaaaaaaaaaaaaaaaaaaaaaaaaaaaaaaaaaaaaaaaaaaaaaaaaaaaaaaaaaaaaaaaaaaaaaaaaaaaaaaaaaaaaa\
aaaaaaaaaaaaaaaaaaaaaaaaaaaaaaaaaaaaaaaaaaaaaaaaaaaaaaaaaaaaaaaaaaaaaaaaaaaaaaaaaaaaaaaaaaaaaaaaaaaaaaaaaaaaaaaaaaaaaaaaaaaaaaaa => ENAMETOOLONG
1 open x w creat,excl => fd 0
1 open x w creat,excl => EEXIST
1 read 0 1 => EBADF
1 getfl 0 => flags w -
1 setfl 0 append,nonblock,trunc => ok
1 getfl 0 => flags w append,nonblock
1 write 0 6162 => count 2
1 open x r trunc => fd 1
1 read 1 9 => data 6162
1 open x rw trunc => fd 2
file x => file -
file - => no file
file %00 => no file
";

const SIZES_OF_A_PIPE: &str = "\
start => pid 1
1 pipe => fds 0 1
1 setsz 1 1 => size 4096
1 setsz 1 65537 => size 131072
1 setsz 1 1048577 => EPERM
1 write 1 5000*61 => count 5000
1 setsz 1 4096 => EBUSY
1 setsz 1 5000 => size 8192
";

const RAISED_UNDER_A_WRITE: &str = "\
start => pid 1
1 pipe => fds 0 1
1 getsz 0 => size 65536
1 setsz 1 4096 => size 4096
1 write 1 10000*61 => parked 1
1 setsz 0 8192 => size 8192
resume 1 => parked 1
1 setsz 1 16384 => size 16384
resume 1 => count 10000
1 getsz 0 => size 16384
1 getsz 2 => EBADF
2 getsz 0 => no process
1 read 0 20000 => data 10000*61
";

/// The name of each session, the number of its first call, and its lines.
const SESSIONS: &[(&str, u64, &str)] = &[
    (
        "partial_and_whole_not_waiting",
        1,
        PARTIAL_AND_WHOLE_NOT_WAITING,
    ),
    (
        "a_small_write_at_its_boundary",
        1,
        A_SMALL_WRITE_AT_ITS_BOUNDARY,
    ),
    ("the_last_reader_leaves", 1, THE_LAST_READER_LEAVES),
    ("interrupted_large_writes", 1, INTERRUPTED_LARGE_WRITES),
    (
        "a_parked_call_keeps_its_end",
        1,
        A_PARKED_CALL_KEEPS_ITS_END,
    ),
    ("two_processes", 1, TWO_PROCESSES),
    ("no_number_is_left", NEVER_GIVEN, NO_NUMBER_IS_LEFT),
    (
        "the_last_numbers",
        18_446_744_073_709_551_613,
        THE_LAST_NUMBERS,
    ),
    (
        "flags_of_shared_descriptions",
        1,
        FLAGS_OF_SHARED_DESCRIPTIONS,
    ),
    (
        "interleaving_with_a_large_write",
        1,
        INTERLEAVING_WITH_A_LARGE_WRITE,
    ),
    (
        "three_names_of_one_write_end",
        1,
        THREE_NAMES_OF_ONE_WRITE_END,
    ),
    ("an_exit_drops_parked_calls", 1, AN_EXIT_DROPS_PARKED_CALLS),
    ("outside_the_table", 1, OUTSIDE_THE_TABLE),
    ("a_shared_offset", 1, A_SHARED_OFFSET),
    ("the_end_of_a_file", 1, THE_END_OF_A_FILE),
    ("names_and_flags", 1, NAMES_AND_FLAGS),
    ("sizes_of_a_pipe", 1, SIZES_OF_A_PIPE),
    ("raised_under_a_write", 1, RAISED_UNDER_A_WRITE),
];

fn is_session_printed<A: Allocator + Copy>(
    rt: &impl Abort,
    alloc: A,
    row: (&str, u64, &str),
) -> Result<(), Fail> {
    let (name, first_call, lines) = row;
    let session = Session::of(alloc, lines)?;
    session.is_printed(rt, name, first_call);
    Ok(())
}

/// The table, of which a proof of the test then need not see the rows.
fn sessions() -> &'static [(&'static str, u64, &'static str)] {
    SESSIONS
}

#[test]
fn each_session_is_printed(rt: HostRuntime) -> Result<(), Fail> {
    for row in sessions() {
        is_session_printed(&rt, rt.alloc(), *row)?;
    }
    for row in fifo_lines::sessions() {
        is_session_printed(&rt, rt.alloc(), *row)?;
    }
    for row in poll_lines::sessions() {
        is_session_printed(&rt, rt.alloc(), *row)?;
    }
    for row in splice_lines::sessions() {
        is_session_printed(&rt, rt.alloc(), *row)?;
    }
    Ok(())
}
