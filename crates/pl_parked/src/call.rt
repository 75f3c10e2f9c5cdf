//! A call that waits.
ghost use Rattle.std.specs.Prelude.{◌≡◌};
ghost use Rattle.pl_parked.specs.Waiting.{reads_alone, opens_to_read, waiting_open};

use crate::opens::WaitingOpen;
use pl_model::{Call, KeyList, Mode};
use std::alloc::{Allocator, Global};

/// A call that waits.
#[derive(Drop, Debug, PartialEq)]
pub struct ParkedCall<A: Allocator = Global> {
    /// The process that began it.
    pub pid: u32,
    /// What the process asked for.
    pub call: Call<A>,
    /// The keys of the descriptions that it found open, in the order in which its try reads them.
    pub kept: KeyList<A>,
    /// The key of the pipe that the open of a FIFO waits on; `None` for every other call.
    pub fifo: Option<usize>,
    /// The bytes that a write took so far; 0 for every other call.
    pub taken: u32,
    /// Whether the open of a FIFO met its other end; `false` for every other call.
    pub met: bool,
}

// Whether an open of a mode that lacks an end reads or writes.
fn reads_alone(mode: Mode) -> Option<bool>
    ensures { result ≡ reads_alone mode }
{
    match mode {
        Mode::Read => Some(true),
        Mode::Write => Some(false),
        Mode::Both => None,
    }
}

impl<A: Allocator> ParkedCall<A> {
    /// How it is listed under this number, if it is an open that waits and wasn't met.
    pub(crate) fn waiting_open(&self, number: u64) -> Option<WaitingOpen>
        ensures { result ≡ waiting_open number self.now }
    {
        if self.met {
            return None;
        }
        let reads = self.opens_to_read()?;
        let pipe = self.fifo?;
        Some(WaitingOpen {
            pipe,
            reads,
            number,
        })
    }

    // Whether an open that lacks an end reads or writes, if it is one.
    fn opens_to_read(&self) -> Option<bool>
        ensures { result ≡ opens_to_read self.now.call }
    {
        match &self.call {
            Call::OpenName { mode, .. } => reads_alone(*mode),
            _ => None,
        }
    }
}
