//! What a read or a write of a pipe comes to, and what a splice or a tee does, as the rows of three tables; what a poll looks at.
use crate::calls::Mode;

/// What a read of a pipe comes to (POSIX.1-2017, read).
#[derive(Clone, Copy, Debug, PartialEq, Eq)]
pub enum ReadCase {
    /// The first so many bytes leave the pipe.
    Gives(usize),
    /// Nothing is held and no writer is left.
    EndOfFile,
    /// Nothing is held yet.
    Waits,
}

/// What a write to a pipe comes to (POSIX.1-2017, write; pipe(7), PIPE_BUF). A range is one of the bytes to write.
#[derive(Clone, Copy, Debug, PartialEq, Eq)]
pub enum WriteCase {
    /// No reader is left and nothing was taken: `EPIPE`.
    Broken,
    /// No reader is left: the answer is the count of what was taken, with the mark `sigpipe`.
    CutShort,
    /// The bytes of the range go in, and the answer is the count `to`.
    Ends { from: usize, to: usize },
    /// The bytes of the range go in, none where it is empty, and the write waits with `to` bytes taken.
    Waits { from: usize, to: usize },
}

/// What a splice or a tee takes its bytes from (splice(2)).
#[derive(Clone, Copy, Debug, PartialEq, Eq)]
pub enum Source {
    /// A pipe that holds so many bytes.
    Pipe { held: usize, has_writer: bool },
    /// A regular file that has so many bytes from the offset on.
    File { left: usize },
}

/// What its bytes go to.
#[derive(Clone, Copy, Debug, PartialEq, Eq)]
pub enum Target {
    /// A pipe with room for so many bytes.
    Pipe { room: usize, has_reader: bool },
    /// A regular file that may have so many bytes from the offset on.
    File { room: usize },
}

/// What a splice or a tee comes to (splice(2), tee(2)).
#[derive(Clone, Copy, Debug, PartialEq, Eq)]
pub enum MoveCase {
    /// The pipe that it goes to has no reader: `EPIPE`.
    Broken,
    /// Nothing more can come from the source: the answer is 0.
    EndOfInput,
    /// Nothing is held yet, or there is no room yet.
    Waits,
    /// The file that it goes to is as long as it may be: `EFBIG`.
    TooBig,
    /// The first so many bytes go over.
    Moves(usize),
}

/// What a poll looks at of an open file description (POSIX.1-2017, poll).
#[derive(Clone, Copy, Debug, PartialEq, Eq)]
pub enum Polled {
    /// A regular file, for reading or writing.
    File,
    /// A pipe, by an end of this mode: it holds so many bytes and has room for so many. It is hung once its last writer left
    /// while a reader stayed.
    Pipe {
        mode: Mode,
        held: usize,
        room: usize,
        has_reader: bool,
        hung: bool,
    },
}
