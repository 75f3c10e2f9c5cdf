//! Parked calls, tried again.
ghost use Rattle.std.specs.Prelude.{◌≡◌, ⊤, None, Ok, length};
ghost use Rattle.pl_kernel.specs.Progress.{TellsProgress, OrWaitsInVain};
ghost use Rattle.bindingclay.specs.Heap.{InBudget};
ghost use Rattle.bindingclay.specs.Made.{Gathers, Moves, Notes, Owns, Resumes, Takes, TellsNext, TriesAgain, Wants, number_answer, resumed_answer, resumed_entries, IsFrugal};
ghost use Rattle.bindingclay.specs.Opened.{StaysAsOpened};
ghost use Rattle.bindingclay.specs.Recorded.{RecordsTry};

use super::moved::{taken_so_far, tell_moved};
use super::transfers::answer_of_read;
use super::{Heap, Layer, no_memory, recorded};
use pl_kernel::{NoMemory, Resumed};
use pl_model::Step;
use pl_numbers::{Answer, answer_of, kind};
use pl_polls::{PollEntry, mark_entries};

// The answer of a call that was tried again.
pub(super) fn answer_of_resumed(resumed: &Result<Resumed<Heap>, NoMemory>) -> Answer
    ensures { result ≡ resumed_answer resumed.now }
{
    match resumed {
        Ok(Resumed::Read(reply)) => answer_of_read(*reply),
        Ok(Resumed::Short(wanted)) => Answer::of_kind(kind::SHORT, *wanted as u64),
        Ok(Resumed::Other(reply)) => answer_of(reply),
        Err(NoMemory) => no_memory(),
    }
}

// The answer of a read that was tried again.
#[inline(always)]
fn answer_of_read_again(resumed: &Resumed<Heap>) -> Answer
    ensures { result ≡ resumed_answer {E = ⊤} (Ok resumed.now) }
{
    match resumed {
        Resumed::Read(reply) => answer_of_read(*reply),
        Resumed::Short(wanted) => Answer::of_kind(kind::SHORT, *wanted as u64),
        Resumed::Other(reply) => answer_of(reply),
    }
}

// Notes in each entry what a poll that was tried again found of it.
pub(super) fn mark_resumed(resumed: &Result<Resumed<Heap>, NoMemory>, entries: &mut [PollEntry])
    ensures { entries.new ≡ resumed_entries entries.old resumed.now }
{
    if let Ok(Resumed::Other(reply)) = resumed {
        mark_entries(reply, entries);
    }
}

// The answer of a question about a parked call: the number that was told, if there is such a call.
fn answer_of_number(told: Option<u32>) -> Answer
    ensures { result ≡ number_answer told }
{
    match told {
        Some(number) => Answer::done(number as u64),
        None => Answer::of_kind(kind::NO_CALL, 0),
    }
}

// The answer that tells the number of a call, if there is one.
fn answer_of_call(told: Option<u64>) -> Answer
    ensures { result ≡ number_answer told }
{
    let Some(number) = told else {
        return Answer::of_kind(kind::NO_CALL, 0);
    };
    Answer::done(number)
}

impl Layer {
    /// Tells which process began the parked call of a number: the value is its pid.
    pub fn owner(&self, number: u64) -> Answer
        ensures { Owns self.now.kernel number result }
    {
        answer_of_number(self.kernel.owner(number))
    }

    /// Tells how many bytes the parked call of a number has taken, as a write has that waits with some of its bytes in the pipe.
    pub fn taken(&self, number: u64) -> Answer
        ensures { Takes self.now.kernel number result }
    {
        answer_of_number(self.kernel.taken(number))
    }

    /// Tells whether the parked call of a number can get on: tried again now, it is answered, or takes more of its bytes.
    pub fn can_progress(&self, number: u64) -> bool
        ensures value { TellsProgress {A = InBudget} self.now.kernel number result }
        ensures vain { OrWaitsInVain {A = InBudget} self.now.kernel number result }
    {
        self.kernel.can_progress(number)
    }

    /// Tells the least number, `from` or above, of a parked call that can get on: the value is that number.
    pub fn next_ready(&mut self, from: u64) -> Answer
        ensures tells { TellsNext self.old.kernel from result }
        ensures same { self.new.kernel ≡ self.old.kernel }
        ensures unrecorded { self.new.recorder ≡ self.old.recorder }
        ensures opened { StaysAsOpened self.old self.new }
    {
        answer_of_call(self.kernel.next_ready(from))
    }

    /// Tries the parked call of a number again; a read gives its bytes into the caller's. Where it would give more bytes than
    /// these, the answer says how many, and nothing changed. So it says of a poll that can get on how many entries it has: bytes have no
    /// room for what it found.
    pub fn resume(&mut self, number: u64, into: &mut [u8]) -> Answer
        ensures tries { TriesAgain self.old.kernel number into.old result into.new self.new.kernel }
        ensures moved { Moves self.old.kernel (Step.Resume number) result }
        ensures wants { self.old.recorder ≡ None → Wants self.old.kernel (Step.Resume number) result }
        ensures frugal { self.old.recorder ≡ None → IsFrugal self.old.kernel number result }
        ensures records { RecordsTry self.old.kernel self.old.recorder number result self.new.recorder }
        ensures opened { StaysAsOpened self.old self.new }
    {
        if self.recorder.is_some() {
            return self.resume_any(number, into);
        }
        let Some(resumed) = self.kernel.resume_read(number, into) else {
            return self.resume_any(number, into);
        };
        tell_moved(&self.kernel, 0, answer_of_read_again(&resumed))
    }

    // The same of any call, and while steps are recorded. Out of line, so that a read that isn't recorded stays short.
    #[inline(never)]
    fn resume_any(&mut self, number: u64, into: &mut [u8]) -> Answer
        ensures tries { TriesAgain self.old.kernel number into.old result into.new self.new.kernel }
        ensures moved { Moves self.old.kernel (Step.Resume number) result }
        ensures wants { self.old.recorder ≡ None → Wants self.old.kernel (Step.Resume number) result }
        ensures frugal { self.old.recorder ≡ None → IsFrugal self.old.kernel number result }
        ensures records { RecordsTry self.old.kernel self.old.recorder number result self.new.recorder }
        ensures opened { StaysAsOpened self.old self.new }
    {
        let entries = self.kernel.ready_entries(number);
        if entries > 0 {
            return Answer::of_kind(kind::SHORT, entries as u64);
        }
        self.gather(number, into)
    }

    // Tries the parked call of a number again; a read gives its bytes into the caller's, if they fit.
    fn gather(&mut self, number: u64, into: &mut [u8]) -> Answer
        ensures made { Resumes self.old.kernel number (length into.old) result self.new.kernel }
        ensures moved { Moves self.old.kernel (Step.Resume number) result }
        ensures wants { self.old.recorder ≡ None → Wants self.old.kernel (Step.Resume number) result }
        ensures bytes { Gathers self.old.kernel number into.old result into.new }
        ensures frugal { self.old.recorder ≡ None → IsFrugal self.old.kernel number result }
        ensures records { RecordsTry self.old.kernel self.old.recorder number result self.new.recorder }
        ensures opened { StaysAsOpened self.old self.new }
    {
        if let Some(recorder) = &mut self.recorder {
            return recorded::gather(&mut self.kernel, recorder, self.heap, number, into);
        }
        let before = taken_so_far(&self.kernel, number);
        let resumed = self.kernel.resume_into(number, into);
        tell_moved(&self.kernel, before, answer_of_resumed(&resumed))
    }

    /// Tries the parked call of a number again; a poll notes in each entry what was found. Where the call is a read
    /// that would give bytes, the answer says how many, and nothing changed.
    pub fn resume_poll(&mut self, number: u64, entries: &mut [PollEntry]) -> Answer
        ensures made { Resumes self.old.kernel number 0 result self.new.kernel }
        ensures moved { Moves self.old.kernel (Step.Resume number) result }
        ensures wants { self.old.recorder ≡ None → Wants self.old.kernel (Step.Resume number) result }
        ensures entries { Notes self.old.kernel number entries.old result entries.new }
        ensures frugal { self.old.recorder ≡ None → IsFrugal self.old.kernel number result }
        ensures records { RecordsTry self.old.kernel self.old.recorder number result self.new.recorder }
        ensures opened { StaysAsOpened self.old self.new }
    {
        if let Some(recorder) = &mut self.recorder {
            return recorded::resume_poll(&mut self.kernel, recorder, self.heap, number, entries);
        }
        let before = taken_so_far(&self.kernel, number);
        let resumed = self.kernel.resume_into(number, &mut []);
        mark_resumed(&resumed, entries);
        tell_moved(&self.kernel, before, answer_of_resumed(&resumed))
    }
}
