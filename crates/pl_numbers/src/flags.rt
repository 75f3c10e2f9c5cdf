//! The bits of flags.
ghost use Rattle.std.specs.Prelude.{◌≡◌, ◌≤◌};
ghost use Rattle.pl_model.specs.Poll.{bits_if};
ghost use Rattle.pl_model.specs.Flags.{has};
ghost use Rattle.pl_numbers.specs.Flags.{mode_of_bits, open_flags_of_bits, splice_flags_of_bits, pipe_flags_of_bits, status_bits};

use bitflags::Flags;
use pl_model::{Mode, OpenFlags, SpliceFlags};

/// The access modes and flags of an open, of a pipe, and of `F_GETFL` and `F_SETFL` (Linux, fcntl.h).
const O_ACCMODE: u32 = 0o3;

const O_CREAT: u32 = 0o100;

const O_EXCL: u32 = 0o200;

const O_TRUNC: u32 = 0o1000;

const O_APPEND: u32 = 0o2000;

const O_NONBLOCK: u32 = 0o4000;

const O_DIRECT: u32 = 0o40000;

/// The bits of all flags of splice and tee (Linux, fcntl.h).
const SPLICE_F_ALL: u32 = 0o17;

/// What a file is opened for, by the two lowest bits; `None` where both are set (POSIX.1-2017, open, `O_RDONLY`, `O_WRONLY`,
/// `O_RDWR`).
pub fn mode_of_bits(bits: u32) -> Option<Mode>
    ensures { result ≡ mode_of_bits bits }
{
    match bits & O_ACCMODE {
        0 => Some(Mode::Read),
        1 => Some(Mode::Write),
        2 => Some(Mode::Both),
        _ => None,
    }
}

// The flag, where its bits on Linux are set.
fn flag_if(bits: u32, linux: u32, flag: OpenFlags) -> OpenFlags
    ensures { result.0 ≡ bits_if (has bits linux) flag.0 }
{
    if bits & linux == linux {
        flag
    } else {
        OpenFlags::empty()
    }
}

/// The flags that these bits set; all other bits are ignored, `O_DIRECT` too (POSIX.1-2017, open and fcntl, `F_SETFL`).
pub fn open_flags_of_bits(bits: u32) -> OpenFlags
    ensures { result ≡ open_flags_of_bits bits }
{
    flag_if(bits, O_CREAT, OpenFlags::CREAT)
        .union(flag_if(bits, O_EXCL, OpenFlags::EXCL))
        .union(flag_if(bits, O_TRUNC, OpenFlags::TRUNC))
        .union(flag_if(bits, O_APPEND, OpenFlags::APPEND))
        .union(flag_if(bits, O_NONBLOCK, OpenFlags::NONBLOCK))
}

/// The flags of a splice or a tee; `None` where another bit is set (splice(2), `EINVAL`).
pub fn splice_flags_of_bits(bits: u32) -> Option<SpliceFlags>
    ensures { result ≡ splice_flags_of_bits bits }
{
    if bits <= SPLICE_F_ALL {
        Some(SpliceFlags::from_bits_retain(bits as u8))
    } else {
        None
    }
}

/// How a pipe is made (pipe2(2)).
#[derive(Clone, Copy, Debug, PartialEq, Eq)]
pub struct PipeFlags {
    /// No call on either end waits.
    pub nonblock: bool,
    /// It is a packet pipe.
    pub direct: bool,
}

/// The flags of a pipe; `None` where another bit is set (pipe2(2), `EINVAL`).
pub fn pipe_flags_of_bits(bits: u32) -> Option<PipeFlags>
    ensures { result ≡ pipe_flags_of_bits bits }
{
    let nonblock = bits & O_NONBLOCK == O_NONBLOCK;
    let direct = bits & O_DIRECT == O_DIRECT;
    if bits == bits_where(nonblock, O_NONBLOCK) + bits_where(direct, O_DIRECT) {
        Some(PipeFlags { nonblock, direct })
    } else {
        None
    }
}

// The bits, where the test holds.
fn bits_where(holds: bool, bits: u32) -> u32
    ensures value { result ≡ bits_if holds bits }
    ensures few { result ≤ bits }
{
    if holds { bits } else { 0 }
}

/// The bits of a mode and of the flags `APPEND`, `NONBLOCK` and `DIRECT` (POSIX.1-2017, fcntl, `F_GETFL`; pipe(2)).
pub fn status_bits(mode: Mode, flags: OpenFlags) -> u32
    ensures { result ≡ status_bits mode flags }
{
    let access = match mode {
        Mode::Read => 0,
        Mode::Write => 1,
        Mode::Both => 2,
    };
    let append = bits_where(flags.contains(OpenFlags::APPEND), O_APPEND);
    let nonblock = bits_where(flags.contains(OpenFlags::NONBLOCK), O_NONBLOCK);
    let direct = bits_where(flags.contains(OpenFlags::DIRECT), O_DIRECT);
    access + append + nonblock + direct
}
