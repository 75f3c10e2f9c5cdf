//! Calls that take a name.
ghost use Rattle.std.specs.Prelude.{◌≡◌, take, IfOk, MatchOption, Some};
ghost use Rattle.pl_model.specs.declared.replies.Errno.TheVariants.{EINVAL};
ghost use Rattle.pl_model.specs.State.{file_bytes};
ghost use Rattle.pl_model.specs.Numbered.{State};
ghost use Rattle.pl_state.specs.Makes.{Stands};
ghost use Rattle.bindingclay.specs.Heap.{InBudget};
ghost use Rattle.pl_numbers.specs.Answers.{faulty};
ghost use Rattle.pl_numbers.specs.Flags.{mode_of_bits, open_flags_of_bits};
ghost use Rattle.bindingclay.specs.Made.{Makes, Gives};
ghost use Rattle.bindingclay.specs.Opened.{StaysAsOpened};
ghost use Rattle.bindingclay.specs.Recorded.{Records};

use super::{Heap, Layer, no_memory};
use pl_kernel::NoMemory;
use pl_model::{Call, Errno, Name, Step};
use pl_numbers::{Answer, kind, mode_of_bits, open_flags_of_bits};

/// More bytes than a name may have (POSIX.1-2017, limits.h, `NAME_MAX` is 255): those behind them aren't looked at.
const TOO_LONG: usize = 256;

// Copies bytes to the caller's, or tells how many they are where there is too little room.
fn give(bytes: &[u8], into: &mut [u8]) -> Answer
    ensures { Gives (Some bytes.now) result into.old into.new }
{
    let count = bytes.len();
    if into.len() < count {
        return Answer::of_kind(kind::SHORT, count as u64);
    }
    into[..count].copy_from_slice(bytes);
    Answer::done(count as u64)
}

impl Layer {
    // The name of the caller's bytes.
    fn name(&self, bytes: &[u8]) -> Result<Name<Heap>, NoMemory>
        ensures { IfOk result (λ name. name ≡ take 256 bytes.now) }
    {
        let count = TOO_LONG.min(bytes.len());
        Ok(Name::from_vec(Vec::from_slice(self.heap, &bytes[..count])?))
    }

    /// Makes a FIFO.
    pub fn mkfifo(&mut self, pid: u32, name: &[u8]) -> Answer
        ensures makes { Makes self.old.kernel (Step.Begin pid (Call.Mkfifo (take 256 name.now))) result self.new.kernel }
        ensures records { Records self.old.kernel self.old.recorder (Step.Begin pid (Call.Mkfifo (take 256 name.now))) result self.new.recorder }
        ensures opened { StaysAsOpened self.old self.new }
    {
        match self.name(name) {
            Ok(name) => self.step(Step::Begin(pid, Call::Mkfifo { name })),
            Err(NoMemory) => no_memory(),
        }
    }

    /// Opens what a name stands for, or where the bits say no mode does nothing (POSIX.1-2017, open, `EINVAL`).
    pub fn open_name(&mut self, pid: u32, name: &[u8], bits: u32) -> Answer
        ensures makes { MatchOption (mode_of_bits bits)
            ((result ≡ faulty EINVAL) × (self.new.kernel ≡ self.old.kernel))
            (λ mode. Makes self.old.kernel (Step.Begin pid (Call.OpenName (take 256 name.now) mode (open_flags_of_bits bits))) result self.new.kernel) }
        ensures records { MatchOption (mode_of_bits bits) (self.new.recorder ≡ self.old.recorder)
            (λ mode. Records self.old.kernel self.old.recorder (Step.Begin pid (Call.OpenName (take 256 name.now) mode (open_flags_of_bits bits))) result self.new.recorder) }
        ensures opened { StaysAsOpened self.old self.new }
    {
        let Some(mode) = mode_of_bits(bits) else {
            return Answer::fault(Errno::EINVAL);
        };
        let flags = open_flags_of_bits(bits);
        match self.name(name) {
            Ok(name) => self.step(Step::Begin(pid, Call::OpenName { name, mode, flags })),
            Err(NoMemory) => no_memory(),
        }
    }

    /// Takes a name away.
    pub fn unlink(&mut self, pid: u32, name: &[u8]) -> Answer
        ensures makes { Makes self.old.kernel (Step.Begin pid (Call.Unlink (take 256 name.now))) result self.new.kernel }
        ensures records { Records self.old.kernel self.old.recorder (Step.Begin pid (Call.Unlink (take 256 name.now))) result self.new.recorder }
        ensures opened { StaysAsOpened self.old self.new }
    {
        match self.name(name) {
            Ok(name) => self.step(Step::Begin(pid, Call::Unlink { name })),
            Err(NoMemory) => no_memory(),
        }
    }

    /// Copies the bytes of the file of a name to the caller's. Where there is too little room for them, the answer says how many they
    /// are; of what is no file it is `ENOENT`.
    pub fn file_bytes(&self, name: &[u8], into: &mut [u8]) -> Answer
        ensures told { ((result.kind ≡ 6) → ⊥) → (s : State InBudget) → Stands self.now.kernel s → Gives (file_bytes s.core (take 256 name.now)) result into.old into.new }
        ensures untold { result.kind ≡ 6 → into.new ≡ into.old }
    {
        let Ok(name) = self.name(name) else {
            return no_memory();
        };
        match self.kernel.file_bytes(&name) {
            Ok(Some(bytes)) => give(bytes.as_slice(), into),
            Ok(None) => Answer::fault(Errno::ENOENT),
            Err(NoMemory) => no_memory(),
        }
    }
}
