//! What is done to two rings and a file over one store.

/// The greatest length that a file may have.
pub(crate) const MOST: usize = 16_777_216;

/// What is done to the left ring and to the file, or what is wanted of them.
#[derive(Clone, Copy)]
pub(crate) enum Operation {
    /// So many bytes are added to the ring.
    Push(usize),
    /// These bytes are added to the ring.
    PushThese(&'static [u8]),
    /// So many of the first bytes are added to the right ring.
    Tee(usize),
    /// So many of the first bytes go over to the right ring.
    Pass(usize),
    /// So many of the first bytes are taken.
    Pop(usize),
    /// So many of the first bytes go.
    Skip(usize),
    /// The ring is as a new pipe's.
    Reset,
    /// The ring may hold so many bytes.
    SetCapacity(usize),
    /// The rings change places.
    Turn,
    /// At a place of the file so many bytes are written.
    Write(usize, usize),
    /// At a place of the file these bytes are written.
    WriteThese(usize, &'static [u8]),
    /// From a place of the file on at most so many bytes are read.
    Read(usize, usize),
    /// From a place on so many bytes of the file, as far as there are, are put at another place, as slices.
    Copy(usize, usize, usize),
    /// From a place on so many bytes of the file, as far as there are, are added to the ring, as slices.
    Take(usize, usize),
    /// So many of the first bytes of the ring are put at a place of the file, as slices.
    Put(usize, usize),
    /// The file has no bytes any more.
    Truncate,
    /// Bytes of these two sizes in turn are added to the ring, until it is full.
    Fill(usize, usize),
    /// The ring's bytes are taken, so many at a time.
    Drain(usize),
    /// So many bytes are written to the file one by one, from the last place to the first.
    Backwards(usize),
    /// At so many even places of the file, from the first on, the byte behind it is put, as a slice, so that each byte up to there is a
    /// slot.
    Scatter(usize),
    /// Each of so many first bytes of the file is put so many places behind, as a slice, from the last to the first.
    Repeat(usize),
    /// The ring holds these bytes.
    Holds(&'static [u8]),
    /// The ring is full.
    IsFull,
    /// From a place on the file has these bytes, and then its end.
    EndsWith(usize, &'static [u8]),
    /// The file has so many slots.
    HasSlots(usize),
    /// The store holds at least and at most so many segments.
    InUse(usize, usize),
    /// The store holds at most three segments more than one for each 2,048 bytes of the file.
    IsDense,
}

impl Operation {
    /// Whether it writes bytes to the file.
    pub(crate) fn is_write(self) -> bool {
        matches!(
            self,
            Operation::Write(_, _) | Operation::WriteThese(_, _) | Operation::Backwards(_)
        )
    }

    /// Whether it takes no memory.
    pub(crate) fn takes_none(self) -> bool {
        matches!(
            self,
            Operation::Skip(_) | Operation::Reset | Operation::Turn | Operation::Truncate
        )
    }
}

/// Operations on two new rings of these capacities and a file of no bytes, which may have `most` bytes.
#[derive(Clone, Copy)]
pub(crate) struct Session {
    /// What a failure calls the session.
    pub(crate) name: &'static str,
    /// How many bytes the rings may hold.
    pub(crate) capacities: (usize, usize),
    /// How many bytes the file may have.
    pub(crate) most: usize,
    pub(crate) operations: &'static [Operation],
}
