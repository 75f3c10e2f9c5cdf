//! How a record is handed out.
use crate::recorder::{KEPT, Recorder};
use std::alloc::{AllocError, Allocator};
use std::mem;

/// The most bytes of room that are kept for further lines once a text was handed out.
const MOST_KEPT: usize = 65_536;

impl<A: Allocator + Copy> Recorder<A> {
    ghost use Rattle.std.specs.Prelude.{◌≡◌, ◌≤◌, ◌⊎◌, ◌++◌, [], IfOk, IsOk, OnOk, OnErr, length, take, drop, string_bytes};
    ghost use Rattle.pl_recorder.specs.Unread.{unread, HasTurned, IsTold};

    // Begins to hand out the text that was written since; if there is none, the comment that the last step still lacks.
    fn turn(&mut self) -> Result<(), AllocError>
        requires { self.old.read ≡ length (string_bytes self.old.reading) }
        ensures unread { unread self.new ≡ unread self.old }
        ensures done { OnOk result (HasTurned self.new) }
        ensures frugal { IsTold self.old → IsOk result }
    {
        self.cancel();
        if self.text.len() == 0 {
            self.settle()?;
        }
        mem::swap(&mut self.reading, &mut self.text);
        self.text.clear();
        if self.text.capacity() > MOST_KEPT {
            self.text.shrink_to(KEPT);
        }
        self.read = 0;
        Ok(())
    }

    /// Hands out the first bytes of what is recorded and wasn't handed out, at most as many as the caller's are: so many of them are written. It
    /// is 0 only if nothing is left, or the caller has no room.
    ///
    /// # Errors
    ///
    /// `AllocError` if nothing is left but the comment of the last step, for which no room was taken, and there is no memory for it. All stays as it
    /// was.
    pub fn read(&mut self, into: &mut [u8]) -> Result<usize, AllocError>
        ensures within { IfOk result (λ count. count ≤ length into.old) }
        ensures bytes { IfOk result (λ count. into.new ≡ take count (unread self.old) ++ drop count into.old) }
        ensures rest { IfOk result (λ count. unread self.new ≡ drop count (unread self.old)) }
        ensures some { IfOk result (λ count. count ≡ 0 → (length into.old ≡ 0) ⊎ (unread self.old ≡ [])) }
        ensures same { OnErr result (unread self.new ≡ unread self.old) }
        ensures unwritten { OnErr result (into.new ≡ into.old) }
        ensures frugal { IsTold self.old → IsOk result }
    {
        if self.read == self.reading.len() {
            self.turn()?;
        }
        let left = &self.reading.as_bytes()[self.read..];
        let count = left.len().min(into.len());
        into[..count].copy_from_slice(&left[..count]);
        self.read += count;
        Ok(count)
    }
}
