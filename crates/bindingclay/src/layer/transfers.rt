//! Bytes from and into the caller's memory.
ghost use Rattle.std.specs.Prelude.{◌≡◌, ◌≤◌, ◌<◌, ◌^◌, ◌&&◌, ⊤, List, None, false, length, nat_eq, nat_lt, take, min, MatchOption};
ghost use Rattle.pl_model.specs.Numbers.{most_bytes};
ghost use Rattle.pl_model.specs.declared.replies.Errno.TheVariants.{EINVAL};
ghost use Rattle.bindingclay.specs.Heap.{InBudget};
ghost use Rattle.pl_transfers.specs.Waits.{reply_of};
ghost use Rattle.pl_kernel.specs.Buffers.{Parks};
ghost use Rattle.pl_model.specs.Fates.{taken_by};
ghost use Rattle.pl_model.specs.Numbered.{State};
ghost use Rattle.pl_model.specs.declared.replies.Reply.{Reply};
ghost use Rattle.pl_state.specs.Answered.{told, IsDone};
ghost use Rattle.pl_state.specs.Makes.{Stands};
ghost use Rattle.pl_numbers.specs.Answers.{said, faulty, parked};
ghost use Rattle.pl_numbers.specs.Flags.{splice_flags_of_bits};
ghost use Rattle.pl_polls.specs.declared.entries.PollEntry.{PollEntry as Entry};
ghost use Rattle.pl_polls.specs.Entries.{asked, entries_after};
ghost use Rattle.pl_polls.specs.Into.{told as poll_told};
ghost use Rattle.bindingclay.specs.Made.{Makes, Moves, Wants, Replied, unmoved, bytes_after, read_answer, offset_of};
ghost use Rattle.bindingclay.specs.Opened.{StaysAsOpened};
ghost use Rattle.bindingclay.specs.Recorded.{Records};

use super::moved::tell_moved;
use super::{Heap, Layer, no_memory, recorded};
use pl_kernel::{Answered, Kernel, NoMemory, PollEntry, Written};
use pl_model::{Call, Errno, Step};
use pl_numbers::{Answer, answer_of, splice_flags_of_bits};

/// The most bytes that one read or write moves: a longer one is cut to them.
const MOST_BYTES: usize = 16_777_216;

// The offset that a splice is given, if any.
fn offset_of(given: bool, offset: u64) -> Option<u64>
    ensures { result ≡ offset_of given offset }
{
    if given { Some(offset) } else { None }
}

// The first of the caller's bytes, of which there are more than one write moves. Out of line, as hardly any write has so many.
#[inline(never)]
fn cut(bytes: &[u8]) -> &[u8]
    requires { most_bytes ≤ length bytes.now }
    ensures { result.now ≡ take most_bytes bytes.now }
{
    &bytes[..MOST_BYTES]
}

// The first of the caller's bytes, as many as one write moves.
#[inline(always)]
fn within(bytes: &[u8]) -> &[u8]
    ensures { result.now ≡ take most_bytes bytes.now }
{
    if bytes.len() > MOST_BYTES {
        return cut(bytes);
    }
    bytes
}

// The answer of a call that isn't done.
fn answer_of_undone<T: Copy>(answered: Answered<T>) -> Answer
    requires { ¬ IsDone answered }
    ensures { (reply_of : T → Reply InBudget) → result ≡ said (told reply_of answered) }
{
    answer_of::<Heap>(&answered.undone())
}

/// The answer of a read into the caller's bytes.
#[inline(always)]
pub(crate) fn answer_of_read(answered: Answered<usize>) -> Answer
    ensures { result ≡ read_answer answered }
{
    match answered {
        Answered::Done(count) => Answer::done(count as u64),
        _ => answer_of_undone(answered),
    }
}

// The answer of a write of the caller's bytes.
fn answer_of_write(answered: Answered<Written>) -> Answer
    ensures { result ≡ said {A = InBudget} (reply_of answered) }
{
    match answered {
        Answered::Done(Written { n, sigpipe }) => Answer {
            sigpipe,
            ..Answer::done(n as u64)
        },
        _ => answer_of_undone(answered),
    }
}

// The answer of a write that may wait. Out of line, so that one of which all went in stays short.
#[inline(never)]
fn answer_of_other_write(kernel: &Kernel<Heap>, reply: Answered<Written>) -> Answer
    ensures rest { result ≡ record (said {A = InBudget} (reply_of reply)) { moved = result.moved } }
    ensures value { (s : State InBudget) → Stands kernel.now s → result.moved ≡ (nat_eq (said {A = InBudget} (reply_of reply)).kind parked && nat_lt 0 (taken_by s.core (said {A = InBudget} (reply_of reply)).value)) }
    ensures others { ((said {A = InBudget} (reply_of reply)).kind ≡ parked → ⊥) → result.moved ≡ false }
{
    match reply {
        Answered::Parked(_) => tell_moved(kernel, 0, answer_of_write(reply)),
        _ => answer_of_write(reply),
    }
}

// The answer of a write, which tells too whether bytes of it went in where it waits. The kernel is as the write left it.
#[inline(always)]
pub(super) fn answer_of_written(kernel: &Kernel<Heap>, reply: Answered<Written>) -> Answer
    ensures rest { result ≡ record (said {A = InBudget} (reply_of reply)) { moved = result.moved } }
    ensures value { (s : State InBudget) → Stands kernel.now s → result.moved ≡ (nat_eq (said {A = InBudget} (reply_of reply)).kind parked && nat_lt 0 (taken_by s.core (said {A = InBudget} (reply_of reply)).value)) }
    ensures others { ((said {A = InBudget} (reply_of reply)).kind ≡ parked → ⊥) → result.moved ≡ false }
{
    match reply {
        Answered::Done(Written { n, sigpipe }) if !sigpipe => Answer::done(n as u64),
        _ => answer_of_other_write(kernel, reply),
    }
}

// The answer of a poll of the caller's entries.
fn answer_of_poll(answered: Answered<u32>) -> Answer
    ensures { (entries : List Entry) → result ≡ said {A = InBudget} (poll_told answered entries) }
{
    match answered {
        Answered::Done(ready) => Answer::done(ready as u64),
        _ => answer_of_undone(answered),
    }
}

impl Layer {
    // Reads as many bytes as the caller's are.
    #[inline(always)]
    fn read_all(&mut self, pid: u32, fd: i32, into: &mut [u8]) -> Answer
        requires { length into.old < 2 ^ 32 }
        ensures makes { Makes self.old.kernel (Step.Begin pid (Call.Read fd (length into.old))) result self.new.kernel }
        ensures bytes { Replied self.old.kernel (Step.Begin pid (Call.Read fd (length into.old))) result (λ reply. into.new ≡ bytes_after into.old reply) }
        ensures unread { result.kind ≡ 6 → into.new ≡ into.old }
        ensures wants { result.kind ≡ 6 → Parks self.old.kernel (Step.Begin pid (Call.Read fd (length into.old))) }
        ensures same { self.new.recorder ≡ self.old.recorder }
        ensures opened { StaysAsOpened self.old self.new }
    {
        match self.kernel.read_into(pid, fd, into) {
            Ok(reply) => answer_of_read(reply),
            Err(NoMemory) => no_memory(),
        }
    }

    // Reads as many bytes as the caller's are, and records it where there is a recorder.
    #[inline(always)]
    fn read_bytes(&mut self, pid: u32, fd: i32, into: &mut [u8]) -> Answer
        requires { length into.old ≤ most_bytes }
        ensures makes { Makes self.old.kernel (Step.Begin pid (Call.Read fd (length into.old))) result self.new.kernel }
        ensures bytes { Replied self.old.kernel (Step.Begin pid (Call.Read fd (length into.old))) result (λ reply. into.new ≡ bytes_after into.old reply) }
        ensures unread { result.kind ≡ 6 → into.new ≡ into.old }
        ensures wants { self.old.recorder ≡ None → result.kind ≡ 6 → Parks self.old.kernel (Step.Begin pid (Call.Read fd (length into.old))) }
        ensures records { Records self.old.kernel self.old.recorder (Step.Begin pid (Call.Read fd (length into.old))) result self.new.recorder }
        ensures opened { StaysAsOpened self.old self.new }
    {
        if let Some(recorder) = &mut self.recorder {
            return recorded::read(&mut self.kernel, recorder, self.heap, pid, fd, into);
        }
        self.read_all(pid, fd, into)
    }

    /// Reads into the caller's bytes, at most 16,777,216.
    pub fn read(&mut self, pid: u32, fd: i32, into: &mut [u8]) -> Answer
        ensures makes { Makes self.old.kernel (Step.Begin pid (Call.Read fd (min most_bytes (length into.old)))) result self.new.kernel }
        ensures bytes { Replied self.old.kernel (Step.Begin pid (Call.Read fd (min most_bytes (length into.old)))) result (λ reply. into.new ≡ bytes_after into.old reply) }
        ensures unread { result.kind ≡ 6 → into.new ≡ into.old }
        ensures wants { self.old.recorder ≡ None → result.kind ≡ 6 → Parks self.old.kernel (Step.Begin pid (Call.Read fd (min most_bytes (length into.old)))) }
        ensures records { Records self.old.kernel self.old.recorder (Step.Begin pid (Call.Read fd (min most_bytes (length into.old)))) result self.new.recorder }
        ensures opened { StaysAsOpened self.old self.new }
    {
        let count = MOST_BYTES.min(into.len());
        self.read_bytes(pid, fd, &mut into[..count])
    }

    // Writes the caller's bytes.
    #[inline(always)]
    fn write_all(&mut self, pid: u32, fd: i32, bytes: &[u8]) -> Answer
        requires { length bytes.now ≤ most_bytes }
        ensures makes { Makes self.old.kernel (Step.Begin pid (Call.Write fd bytes.now)) (unmoved result) self.new.kernel }
        ensures moved { Moves self.old.kernel (Step.Begin pid (Call.Write fd bytes.now)) result }
        ensures wants { Wants self.old.kernel (Step.Begin pid (Call.Write fd bytes.now)) result }
        ensures same { self.new.recorder ≡ self.old.recorder }
        ensures opened { StaysAsOpened self.old self.new }
    {
        match self.kernel.write_from(pid, fd, bytes) {
            Ok(reply) => answer_of_written(&self.kernel, reply),
            Err(NoMemory) => no_memory(),
        }
    }

    // Writes the caller's bytes, and records it where there is a recorder.
    #[inline(always)]
    fn write_bytes(&mut self, pid: u32, fd: i32, bytes: &[u8]) -> Answer
        requires { length bytes.now ≤ most_bytes }
        ensures makes { Makes self.old.kernel (Step.Begin pid (Call.Write fd bytes.now)) (unmoved result) self.new.kernel }
        ensures moved { Moves self.old.kernel (Step.Begin pid (Call.Write fd bytes.now)) result }
        ensures wants { self.old.recorder ≡ None → Wants self.old.kernel (Step.Begin pid (Call.Write fd bytes.now)) result }
        ensures records { Records self.old.kernel self.old.recorder (Step.Begin pid (Call.Write fd bytes.now)) (unmoved result) self.new.recorder }
        ensures opened { StaysAsOpened self.old self.new }
    {
        if let Some(recorder) = &mut self.recorder {
            return recorded::write(&mut self.kernel, recorder, pid, fd, bytes);
        }
        self.write_all(pid, fd, bytes)
    }

    /// Writes the first of the caller's bytes, at most 16,777,216.
    pub fn write(&mut self, pid: u32, fd: i32, bytes: &[u8]) -> Answer
        ensures makes { Makes self.old.kernel (Step.Begin pid (Call.Write fd (take most_bytes bytes.now))) (unmoved result) self.new.kernel }
        ensures moved { Moves self.old.kernel (Step.Begin pid (Call.Write fd (take most_bytes bytes.now))) result }
        ensures wants { self.old.recorder ≡ None → Wants self.old.kernel (Step.Begin pid (Call.Write fd (take most_bytes bytes.now))) result }
        ensures records { Records self.old.kernel self.old.recorder (Step.Begin pid (Call.Write fd (take most_bytes bytes.now))) (unmoved result) self.new.recorder }
        ensures opened { StaysAsOpened self.old self.new }
    {
        self.write_bytes(pid, fd, within(bytes))
    }

    /// Moves bytes, or with another bit than those of the flags does nothing (splice(2), `EINVAL`).
    pub fn splice(
        &mut self,
        pid: u32,
        from: i32,
        has_from_offset: bool,
        from_offset: u64,
        to: i32,
        has_to_offset: bool,
        to_offset: u64,
        len: u32,
        flags: u32,
    ) -> Answer
        ensures makes { MatchOption (splice_flags_of_bits flags)
            ((result ≡ faulty EINVAL) × (self.new.kernel ≡ self.old.kernel))
            (λ flags. Makes self.old.kernel (Step.Begin pid (Call.Splice from (offset_of has_from_offset from_offset) to (offset_of has_to_offset to_offset) len flags)) result self.new.kernel) }
        ensures wants { self.old.recorder ≡ None → MatchOption (splice_flags_of_bits flags) ⊤ (λ flags. Wants self.old.kernel (Step.Begin pid (Call.Splice from (offset_of has_from_offset from_offset) to (offset_of has_to_offset to_offset) len flags)) result) }
        ensures records { MatchOption (splice_flags_of_bits flags) (self.new.recorder ≡ self.old.recorder) (λ flags. Records self.old.kernel self.old.recorder (Step.Begin pid (Call.Splice from (offset_of has_from_offset from_offset) to (offset_of has_to_offset to_offset) len flags)) result self.new.recorder) }
        ensures opened { StaysAsOpened self.old self.new }
    {
        let Some(flags) = splice_flags_of_bits(flags) else {
            return Answer::fault(Errno::EINVAL);
        };
        self.step(Step::Begin(
            pid,
            Call::Splice {
                from,
                from_offset: offset_of(has_from_offset, from_offset),
                to,
                to_offset: offset_of(has_to_offset, to_offset),
                len,
                flags,
            },
        ))
    }

    /// Copies bytes, or with another bit than those of the flags does nothing (tee(2), `EINVAL`).
    pub fn tee(&mut self, pid: u32, from: i32, to: i32, len: u32, flags: u32) -> Answer
        ensures makes { MatchOption (splice_flags_of_bits flags)
            ((result ≡ faulty EINVAL) × (self.new.kernel ≡ self.old.kernel))
            (λ flags. Makes self.old.kernel (Step.Begin pid (Call.Tee from to len flags)) result self.new.kernel) }
        ensures wants { self.old.recorder ≡ None → MatchOption (splice_flags_of_bits flags) ⊤ (λ flags. Wants self.old.kernel (Step.Begin pid (Call.Tee from to len flags)) result) }
        ensures records { MatchOption (splice_flags_of_bits flags) (self.new.recorder ≡ self.old.recorder) (λ flags. Records self.old.kernel self.old.recorder (Step.Begin pid (Call.Tee from to len flags)) result self.new.recorder) }
        ensures opened { StaysAsOpened self.old self.new }
    {
        let Some(flags) = splice_flags_of_bits(flags) else {
            return Answer::fault(Errno::EINVAL);
        };
        self.step(Step::Begin(
            pid,
            Call::Tee {
                from,
                to,
                len,
                flags,
            },
        ))
    }

    /// Polls the entries, and notes in each what was found.
    pub fn poll(&mut self, pid: u32, entries: &mut [PollEntry], wait: bool) -> Answer
        ensures makes { Makes self.old.kernel (Step.Begin pid (Call.Poll (asked entries.old) wait)) result self.new.kernel }
        ensures entries { Replied self.old.kernel (Step.Begin pid (Call.Poll (asked entries.old) wait)) result (λ reply. entries.new ≡ entries_after entries.old reply) }
        ensures unmarked { result.kind ≡ 6 → entries.new ≡ entries.old }
        ensures wants { self.old.recorder ≡ None → result.kind ≡ 6 → Parks self.old.kernel (Step.Begin pid (Call.Poll (asked entries.old) wait)) }
        ensures records { Records self.old.kernel self.old.recorder (Step.Begin pid (Call.Poll (asked entries.old) wait)) result self.new.recorder }
        ensures opened { StaysAsOpened self.old self.new }
    {
        if let Some(recorder) = &mut self.recorder {
            return recorded::poll(&mut self.kernel, recorder, self.heap, pid, entries, wait);
        }
        match self.kernel.poll_into(pid, entries, wait) {
            Ok(reply) => answer_of_poll(reply),
            Err(NoMemory) => no_memory(),
        }
    }
}
