//! Steps whose bytes are still to be made.
use bitflags::Flags;
use pl_model::{Bytes8, Call, Mode, Name, OpenFlags, Step};
use std::alloc::Allocator;

/// A step: a start, a resumption or an interrupt, the end of a process, or a call of process 1.
#[derive(Clone, Copy)]
pub(crate) enum Ask {
    Start,
    Resume(u64),
    Interrupt(u64),
    /// The process ends.
    Exit(u32),
    Pipe,
    /// It makes the FIFO, opens it for reading, or takes its name away.
    Mkfifo,
    Open,
    Unlink,
    /// It reads at most so many bytes from descriptor 0.
    Read(u32),
    /// It reads a byte from descriptor 2, which reads from another pipe.
    ReadOther,
    /// It writes the text to descriptor 1.
    Write(&'static str),
    /// It writes more bytes there than it may write at once in one piece.
    WriteMany,
    /// It writes so many `a` there.
    WriteLong(usize),
    /// It writes `b` to descriptor 3, which writes to the other pipe.
    WriteOther,
    Close(i32),
    Fork,
}

/// The name of the FIFO.
fn fifo<A: Allocator>(alloc: A) -> Option<Name<A>> {
    Some(Name::from_vec(Vec::from_slice(alloc, b"q").ok()?))
}

fn text<A: Allocator>(alloc: A, text: &str) -> Option<Bytes8<A>> {
    Bytes8::from_vec(Vec::from_slice(alloc, text.as_bytes()).ok()?)
}

fn many<A: Allocator>(alloc: A) -> Option<Bytes8<A>> {
    Bytes8::from_vec(Vec::from_elem(alloc, 7, 5_000).ok()?)
}

/// The call that is asked of process 1; `Fork` for all else. `None` where there is no memory.
fn call_of<A: Allocator>(alloc: A, ask: Ask) -> Option<Call<A>> {
    Some(match ask {
        Ask::Pipe => Call::Pipe {
            nonblock: false,
            direct: false,
        },
        Ask::Mkfifo => Call::Mkfifo { name: fifo(alloc)? },
        Ask::Open => Call::OpenName {
            name: fifo(alloc)?,
            mode: Mode::Read,
            flags: OpenFlags::empty(),
        },
        Ask::Unlink => Call::Unlink { name: fifo(alloc)? },
        Ask::Read(n) => Call::Read { fd: 0, n },
        Ask::ReadOther => Call::Read { fd: 2, n: 1 },
        Ask::Write(bytes) => Call::Write {
            fd: 1,
            bytes: text(alloc, bytes)?,
        },
        Ask::WriteMany => Call::Write {
            fd: 1,
            bytes: many(alloc)?,
        },
        Ask::WriteLong(count) => Call::Write {
            fd: 1,
            bytes: Bytes8::from_vec(Vec::from_elem(alloc, b'a', count).ok()?)?,
        },
        Ask::WriteOther => Call::Write {
            fd: 3,
            bytes: text(alloc, "b")?,
        },
        Ask::Close(fd) => Call::Close { fd },
        _ => Call::Fork,
    })
}

/// The step that is asked. `None` where there is no memory.
pub(crate) fn step_of<A: Allocator>(alloc: A, ask: Ask) -> Option<Step<A>> {
    Some(match ask {
        Ask::Start => Step::Start,
        Ask::Resume(number) => Step::Resume(number),
        Ask::Interrupt(number) => Step::Interrupt(number),
        Ask::Exit(pid) => Step::Begin(pid, Call::Exit),
        _ => Step::Begin(1, call_of(alloc, ask)?),
    })
}
