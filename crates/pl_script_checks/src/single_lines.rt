//! Single lines, each by itself behind the first lines of a script: what it prints, or that it is a bad one (docs/RULES.md).
use super::session::Session;
use std::alloc::Allocator;
use std::process::Abort;
use std::test::Fail;

/// Lines of version 1, each with what it prints behind `start` and `1 pipe`, or `bad`.
const ROWS: &str = "\
start => pid 2
resume 1 => no call
interrupt 1 => no call
resume 18446744073709551615 => no call
resume 18446744073709551616 => bad
interrupt 00000000000000000007 => no call
interrupt 18446744073709551616 => bad
resume -1 => bad
file f => no file
file - => no file
file => bad
1 pipe => fds 2 3
1 pipe nonblock => fds 2 3
1 pipe nonblock,nonblock => bad
1 pipe - => bad
7 pipe => no process
4294967295 pipe => no process
4294967296 pipe => bad
1 mkfifo f => ok
1 mkfifo - => ENOENT
1 mkfifo %2d => ok
1 mkfifo !~ => ok
1 mkfifo a%2Fb => EINVAL
1 mkfifo => bad
1 unlink f => ENOENT
1 open f r => ENOENT
1 open f w creat => fd 2
1 open f rw nonblock,append,trunc,excl,creat,creat => fd 2
1 open %00 r => EINVAL
1 open % r => bad
1 open %2 r => bad
1 open %2g r => bad
1 open \u{80} r => bad
1 open f R => bad
1 open f r - => bad
1 open f r creat, => bad
1 read 0 0 => data -
1 read 0 1 => parked 1
1 read 0 4294967295 => parked 1
1 read 0 4294967296 => bad
1 read 0 +1 => bad
-1 read 0 1 => bad
1 write 1 - => count 0
1 write 1 616A => count 2
1 write 1 0*61 => count 0
1 write 1 3*6a => count 3
1 write 0 16777216*61 => EBADF
1 write 1 16777217*61 => bad
1 write 1 616 => bad
1 write 1 61*6 => bad
1 write 1 6g => bad
1 write 1 => bad
1 splice 0 - 1 - 0 => count 0
1 splice 0 - 1 - 1 => EINVAL
1 splice 0 18446744073709551615 1 - 1 move,nonblock,more,gift => ESPIPE
1 splice 0 18446744073709551616 1 - 1 => bad
1 splice 0 -0 1 - 1 => bad
1 splice 0 - 1 - 1 append => bad
1 splice 0 - 1 1 => bad
1 tee 0 1 0 => count 0
1 tee 0 1 1 gift => EINVAL
1 tee 0 1 1 - => bad
1 tee 0 1 4294967296 => bad
1 poll now => masks 0
1 poll wait => parked 1
1 poll now 0:in 1:out,in -1:hup => masks 1 - out -
1 poll wait 9:- => masks 1 nval
1 poll now 0: => bad
1 poll now 0:in, => bad
1 poll now 0:pri => bad
1 poll later => bad
1 dup 0 => fd 2
00000000000000000001 dup 0 => fd 2
000000000000000000001 dup 0 => bad
1 dup -0\r => fd 2
1 dup -0\r\r => bad
1 dup -1 => EBADF
1 dup 2147483648 => bad
1 dup 0 0 => bad
1 dup => bad
1 DUP 0 => bad
1 dup2 0 5 => fd 5
1 dup2 0 => bad
1 dupfd 0 9 => fd 9
1 dupfd 0 -1 => EINVAL
1 dupfd 0 -2147483649 => bad
1 close 0 => ok
1 close -2147483648 => EBADF
1 lseek 0 -9223372036854775808 set => ESPIPE
1 lseek 0 9223372036854775807 cur => ESPIPE
1 lseek 0 -0 end => ESPIPE
1 lseek 0 9223372036854775808 set => bad
1 lseek 0 0 begin => bad
1 getfl 0 => flags r -
1 setfl 0 - => ok
1 setfl 0 trunc,nonblock,excl,append,creat => ok
1 setfl 0 => bad
1 setfl 0 -,append => bad
1 getsz 0 => size 65536
1 setsz 0 4097 => size 8192
1 setsz 0 -1 => bad
1 fork => pid 2
1 exit => ok
exit => bad
\t 1 \t exit \r => ok
1 exit # => bad
";

/// Lines of version 2. What is the same in version 1 is above.
const ROWS_2: &str = "\
piperun 2 => bad
start => pid 2
file f => no file
1 getfl 0 => flags r -
1 pipe => fds 2 3
1 pipe nonblock => fds 2 3
1 pipe direct => fds 2 3
1 pipe nonblock,direct => fds 2 3
1 pipe direct,nonblock => fds 2 3
1 pipe nonblock,nonblock => fds 2 3
1 pipe direct,nonblock,direct\r => fds 2 3
1 pipe - => bad
1 pipe -,direct => bad
1 pipe direct, => bad
1 pipe ,direct => bad
1 pipe direct,,nonblock => bad
1 pipe direct nonblock => bad
1 pipe append => bad
1 pipe DIRECT => bad
7 pipe direct => no process
1 setfl 0 direct => bad
1 setfl 0 nonblock => ok
1 open f rw creat,direct => bad
1 write 1 - => count 0
1 write 1 616A => count 2
1 write 1 0*61 => count 0
1 write 1 3*6a => count 3
1 write 1 61+62 => count 2
1 write 1 3*61+62+5*00 => count 9
1 write 1 0*61+62 => count 1
1 write 1 61+0*62 => count 1
1 write 1 0*61+0*62 => count 0
1 write 1 61+00000000000000000003*62 => count 4
1 write 1 61+000000000000000000003*62 => bad
1 write 1 61+ => bad
1 write 1 +61 => bad
1 write 1 + => bad
1 write 1 61++62 => bad
1 write 1 -+61 => bad
1 write 1 61+- => bad
1 write 1 61+6 => bad
1 write 1 61+6g => bad
1 write 1 6+162 => bad
1 write 1 3*61*62 => bad
1 write 1 3*6162+63 => bad
1 write 1 61+5*6 => bad
1 write 1 61+*62 => bad
1 write 1 61+-5*62 => bad
1 write 1 61 + 62 => bad
1 write 1 61,62 => bad
1 write 1 8388608*61+8388608*62 => parked 1
1 write 0 8388608*61+8388608*62 => EBADF
1 write 0 8388609*61+8388608*62 => bad
1 write 1 8388609*61+8388608*62 => bad
1 write 0 16777216*61 => EBADF
1 write 0 16777216*61+0*62 => EBADF
1 write 0 16777216*61+62 => bad
1 write 1 61+16777217*62 => bad
1 write 0 61+18446744073709551616*62 => bad
1 read 0 1 => parked 1
1 read 0 1+1 => bad
";

/// What stands before each line.
const FRONT: &str = "\
start => pid 1
1 pipe => fds 0 1
";

/// A script of the front and the line, which has another first line in version 2.
fn is_row_printed<A: Allocator + Copy>(
    rt: &impl Abort,
    alloc: A,
    header: Option<&str>,
    row: &str,
) -> Result<(), Fail> {
    let (asked, printed) = row.split_once(" => ").ok_or("a line prints nothing")?;
    let mut session = Session::new(alloc);
    if let Some(header) = header {
        session.push_silent(header)?;
    }
    session.push_rows(FRONT)?;
    if printed == "bad" {
        session.push_bytes(asked)?;
        session.is_bad(rt, row);
    } else {
        session.push_row(asked, printed)?;
        session.is_printed(rt, row, 1);
    }
    Ok(())
}

#[test]
fn each_line_by_itself(rt: HostRuntime) -> Result<(), Fail> {
    for row in ROWS.lines() {
        is_row_printed(&rt, rt.alloc(), None, row)?;
    }
    for row in ROWS_2.lines() {
        is_row_printed(&rt, rt.alloc(), Some("piperun 2"), row)?;
    }
    Ok(())
}
