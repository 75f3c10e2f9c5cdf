//! Flags, each set of them a number whose bits are the flags that are set.
ghost use Rattle.std.specs.Prelude.{⊤, [], ◌∷◌, codes};

use bitflags::{Flag, Flags, bitflag_items};

/// How a file is opened, and the status flags of an open file description (POSIX.1-2017, open). `DIRECT` is that of the write end of a
/// packet pipe (pipe(2), O_DIRECT). The bits are our own.
#[derive(Clone, Copy, Debug, PartialEq, Eq)]
pub struct OpenFlags(u8);

bitflag_items! {
    impl OpenFlags: u8 {
        const CREAT = 1;
        const EXCL = 2;
        const TRUNC = 4;
        const APPEND = 8;
        const NONBLOCK = 16;
        const DIRECT = 32;
    }
}

impl Flags for OpenFlags {
    type Bits = u8;

    ghost exact = { ⊤ };

    ghost table = { (codes "CREAT", 1) ∷ (codes "EXCL", 2) ∷ (codes "TRUNC", 4) ∷ (codes "APPEND", 8) ∷ (codes "NONBLOCK", 16) ∷ (codes "DIRECT", 32) ∷ [] };

    ghost set_of = { λ f. f.0 };

    fn flags<'a>() -> &'a [Flag<OpenFlags>] {
        OpenFlags::FLAGS
    }

    fn bits(&self) -> u8 {
        self.0
    }

    fn from_bits_retain(bits: u8) -> OpenFlags {
        OpenFlags(bits)
    }
}

/// How bytes are spliced (splice(2)). Only `NONBLOCK` has an effect. The bits are our own.
#[derive(Clone, Copy, Debug, PartialEq, Eq)]
pub struct SpliceFlags(u8);

bitflag_items! {
    impl SpliceFlags: u8 {
        const MOVE = 1;
        const NONBLOCK = 2;
        const MORE = 4;
        const GIFT = 8;
    }
}

impl Flags for SpliceFlags {
    type Bits = u8;

    ghost exact = { ⊤ };

    ghost table = { (codes "MOVE", 1) ∷ (codes "NONBLOCK", 2) ∷ (codes "MORE", 4) ∷ (codes "GIFT", 8) ∷ [] };

    ghost set_of = { λ f. f.0 };

    fn flags<'a>() -> &'a [Flag<SpliceFlags>] {
        SpliceFlags::FLAGS
    }

    fn bits(&self) -> u8 {
        self.0
    }

    fn from_bits_retain(bits: u8) -> SpliceFlags {
        SpliceFlags(bits)
    }
}

/// What a poll asks of a descriptor, and what it finds (POSIX.1-2017, poll). The bits are those of Linux.
#[derive(Clone, Copy, Debug, PartialEq, Eq)]
pub struct PollMask(u8);

bitflag_items! {
    impl PollMask: u8 {
        const IN = 1;
        const OUT = 4;
        const ERR = 8;
        const HUP = 16;
        const NVAL = 32;
    }
}

impl Flags for PollMask {
    type Bits = u8;

    ghost exact = { ⊤ };

    ghost table = { (codes "IN", 1) ∷ (codes "OUT", 4) ∷ (codes "ERR", 8) ∷ (codes "HUP", 16) ∷ (codes "NVAL", 32) ∷ [] };

    ghost set_of = { λ f. f.0 };

    fn flags<'a>() -> &'a [Flag<PollMask>] {
        PollMask::FLAGS
    }

    fn bits(&self) -> u8 {
        self.0
    }

    fn from_bits_retain(bits: u8) -> PollMask {
        PollMask(bits)
    }
}
