//! Steps that are recorded. The line of a step is written before it is made. If the step finds no memory, its line is taken away.
//!
//! Each function is out of line, so that a step that isn't recorded stays short.
ghost use Rattle.std.specs.Prelude.{◌≡◌, ◌≤◌, [], length, vec_capacity, IfOk};
ghost use Rattle.pl_model.specs.Numbers.{most_bytes};
ghost use Rattle.pl_model.specs.declared.calls.Call.{Call as CallOf};
ghost use Rattle.pl_model.specs.declared.calls.Step.{Step as StepOf};
ghost use Rattle.pl_numbers.specs.Answers.{ends_after};
ghost use Rattle.pl_polls.specs.Entries.{asked, entries_after};
ghost use Rattle.pl_recorder.specs.Unread.{unread, line_of};
ghost use Rattle.pl_transfers.specs.ReadInto.{told, read_count};
ghost use Rattle.pl_kernel.specs.Buffers.{resumed_count};
ghost use Rattle.bindingclay.specs.Heap.{InBudget};
ghost use Rattle.bindingclay.specs.Made.{Gathers, Makes, Moves, Notes, Replied, Resumes, unmoved, bytes_after};
ghost use Rattle.bindingclay.specs.Recorded.{IsRecorded, IsTryRecorded, Fits, EndsBy};

use super::moved::{taken_so_far, tell_moved};
use super::transfers::{answer_of_read, answer_of_written};
use super::waiting::{answer_of_resumed, mark_resumed};
use super::{Heap, no_memory};
use pl_kernel::{Answered, Kernel, NoMemory, PollEntry, Resumed, reply_of_write};
use pl_model::{Bytes8, Call, Reply, Step};
use pl_numbers::{Answer, Ends, answer_of, tell_ends};
use pl_polls::{asked_of, mark_entries};
use pl_recorder::{Most, Recorder};

// The bytes, in room that was taken for them.
fn bytes_in(mut room: Vec<u8, Heap>, bytes: &[u8]) -> Bytes8<Heap>
    requires empty { room.items ≡ [] }
    requires fits { length bytes.now ≤ vec_capacity room }
    requires few { length bytes.now ≤ most_bytes }
    ensures { result ≡ bytes.now }
{
    room.extend_from_slice(bytes).unwrap();
    Bytes8::from_vec(room).unwrap()
}

// What the reply of a poll of so many entries has at most. Nobody has memory for more than can be told.
fn most_polled(entries: usize) -> Most {
    Most::Masks(entries.min(u32::MAX as usize) as u32)
}

// The reply of a read into the caller's bytes, with room for those that it read.
fn reply_of_read(answered: Answered<usize>, room: Vec<u8, Heap>, read: &[u8]) -> Reply<Heap>
    requires within { read_count answered ≤ length read.now }
    requires fits { Fits room (read_count answered) }
    ensures { result ≡ told answered read.now }
{
    match answered {
        Answered::Done(count) => Reply::Bytes(bytes_in(room, &read[..count])),
        _ => answered.undone(),
    }
}

/// Makes one step, and answers what it replied.
#[inline(never)]
pub(super) fn step(
    kernel: &mut Kernel<Heap>,
    recorder: &mut Recorder<Heap>,
    step: Step<Heap>,
) -> Answer
    ensures makes { Makes kernel.old step.entry result kernel.new }
    ensures records { IsRecorded kernel.old (unread recorder.old) step.entry result (unread recorder.new) }
{
    if recorder.begin(&step, Most::Plain).is_err() {
        return no_memory();
    }
    match kernel.step(step) {
        Ok(reply) => {
            let answer = answer_of(&reply);
            recorder.end(reply);
            answer
        }
        Err(NoMemory) => {
            recorder.cancel();
            no_memory()
        }
    }
}

/// Makes a pipe, and tells its ends.
#[inline(never)]
pub(super) fn pipe(
    kernel: &mut Kernel<Heap>,
    recorder: &mut Recorder<Heap>,
    pid: u32,
    nonblock: bool,
    direct: bool,
    ends: &mut Ends,
) -> Answer
    ensures makes { Makes kernel.old (StepOf.Begin pid (CallOf.Pipe nonblock direct)) result kernel.new }
    ensures ends { Replied kernel.old (StepOf.Begin pid (CallOf.Pipe nonblock direct)) result (λ reply. ends.new ≡ ends_after ends.old reply) }
    ensures untold { result.kind ≡ 6 → ends.new ≡ ends.old }
    ensures records { IsRecorded kernel.old (unread recorder.old) (StepOf.Begin pid (CallOf.Pipe nonblock direct)) result (unread recorder.new) }
{
    let step = Step::Begin(pid, Call::Pipe { nonblock, direct });
    if recorder.begin(&step, Most::Plain).is_err() {
        return no_memory();
    }
    match kernel.step(step) {
        Ok(reply) => {
            tell_ends(&reply, ends);
            let answer = answer_of(&reply);
            recorder.end(reply);
            answer
        }
        Err(NoMemory) => {
            recorder.cancel();
            no_memory()
        }
    }
}

/// Reads as many bytes as the caller's are. Room for a copy of those that it gives is taken before.
#[inline(never)]
pub(super) fn read(
    kernel: &mut Kernel<Heap>,
    recorder: &mut Recorder<Heap>,
    heap: Heap,
    pid: u32,
    fd: i32,
    into: &mut [u8],
) -> Answer
    requires { length into.old ≤ most_bytes }
    ensures makes { Makes kernel.old (StepOf.Begin pid (CallOf.Read fd (length into.old))) result kernel.new }
    ensures bytes { Replied kernel.old (StepOf.Begin pid (CallOf.Read fd (length into.old))) result (λ reply. into.new ≡ bytes_after into.old reply) }
    ensures unread { result.kind ≡ 6 → into.new ≡ into.old }
    ensures records { IsRecorded kernel.old (unread recorder.old) (StepOf.Begin pid (CallOf.Read fd (length into.old))) result (unread recorder.new) }
{
    let n = into.len() as u32;
    let count = kernel.bytes_to_read(pid, fd, n);
    let Ok(room) = Vec::with_capacity(heap, count) else {
        return no_memory();
    };
    let step = Step::Begin(pid, Call::Read { fd, n });
    if recorder.begin(&step, Most::Bytes(count as u32)).is_err() {
        return no_memory();
    }
    match kernel.read_into(pid, fd, into) {
        Ok(reply) => {
            let answer = answer_of_read(reply);
            recorder.end(reply_of_read(reply, room, into));
            answer
        }
        Err(NoMemory) => {
            recorder.cancel();
            no_memory()
        }
    }
}

/// Writes the caller's bytes.
#[inline(never)]
pub(super) fn write(
    kernel: &mut Kernel<Heap>,
    recorder: &mut Recorder<Heap>,
    pid: u32,
    fd: i32,
    bytes: &[u8],
) -> Answer
    requires { length bytes.now ≤ most_bytes }
    ensures makes { Makes kernel.old (StepOf.Begin pid (CallOf.Write fd bytes.now)) (unmoved result) kernel.new }
    ensures moved { Moves kernel.old (StepOf.Begin pid (CallOf.Write fd bytes.now)) result }
    ensures records { IsRecorded kernel.old (unread recorder.old) (StepOf.Begin pid (CallOf.Write fd bytes.now)) (unmoved result) (unread recorder.new) }
{
    if recorder.begin_write(pid, fd, bytes).is_err() {
        return no_memory();
    }
    match kernel.write_from(pid, fd, bytes) {
        Ok(reply) => {
            recorder.end(reply_of_write(reply));
            answer_of_written(kernel, reply)
        }
        Err(NoMemory) => {
            recorder.cancel();
            no_memory()
        }
    }
}

/// Polls the entries, and notes in each what was found.
#[inline(never)]
pub(super) fn poll(
    kernel: &mut Kernel<Heap>,
    recorder: &mut Recorder<Heap>,
    heap: Heap,
    pid: u32,
    entries: &mut [PollEntry],
    wait: bool,
) -> Answer
    ensures makes { Makes kernel.old (StepOf.Begin pid (CallOf.Poll (asked entries.old) wait)) result kernel.new }
    ensures entries { Replied kernel.old (StepOf.Begin pid (CallOf.Poll (asked entries.old) wait)) result (λ reply. entries.new ≡ entries_after entries.old reply) }
    ensures unmarked { result.kind ≡ 6 → entries.new ≡ entries.old }
    ensures records { IsRecorded kernel.old (unread recorder.old) (StepOf.Begin pid (CallOf.Poll (asked entries.old) wait)) result (unread recorder.new) }
{
    let Ok(asked) = asked_of(heap, entries) else {
        return no_memory();
    };
    let step = Step::Begin(
        pid,
        Call::Poll {
            entries: asked,
            wait,
        },
    );
    if recorder.begin(&step, most_polled(entries.len())).is_err() {
        return no_memory();
    }
    match kernel.step(step) {
        Ok(reply) => {
            mark_entries(&reply, entries);
            let answer = answer_of(&reply);
            recorder.end(reply);
            answer
        }
        Err(NoMemory) => {
            recorder.cancel();
            no_memory()
        }
    }
}

// What a parked call came to that was tried again is recorded; if it wasn't tried, or found no memory, its line is taken away.
fn end_try(
    recorder: &mut Recorder<Heap>,
    resumed: Result<Resumed<Heap>, NoMemory>,
    room: Vec<u8, Heap>,
    read: &[u8],
)
    requires within { IfOk resumed (λ r. resumed_count r ≤ length read.now) }
    requires fits { IfOk resumed (λ r. Fits room (resumed_count r)) }
    ensures { EndsBy resumed.entry read.now (unread recorder.old) (line_of recorder.old) (unread recorder.new) }
{
    match resumed {
        Ok(Resumed::Read(reply)) => recorder.end(reply_of_read(reply, room, read)),
        Ok(Resumed::Other(reply)) => recorder.end(reply),
        Ok(Resumed::Short(_)) | Err(NoMemory) => recorder.cancel(),
    }
}

/// Tries the parked call of a number again; a read gives its bytes into the caller's, if they fit.
#[inline(never)]
pub(super) fn gather(
    kernel: &mut Kernel<Heap>,
    recorder: &mut Recorder<Heap>,
    heap: Heap,
    number: u64,
    into: &mut [u8],
) -> Answer
    ensures made { Resumes kernel.old number (length into.old) result kernel.new }
    ensures moved { Moves kernel.old (StepOf.Resume number) result }
    ensures bytes { Gathers kernel.old number into.old result into.new }
    ensures records { IsTryRecorded kernel.old (unread recorder.old) number result (unread recorder.new) }
{
    let count = kernel.bytes_to_resume(number).min(into.len());
    let Ok(room) = Vec::with_capacity(heap, count) else {
        return no_memory();
    };
    let most = Most::Bytes(count as u32);
    if recorder.begin(&Step::Resume(number), most).is_err() {
        return no_memory();
    }
    let before = taken_so_far(kernel, number);
    let resumed = kernel.resume_into(number, into);
    let answer = tell_moved(kernel, before, answer_of_resumed(&resumed));
    end_try(recorder, resumed, room, into);
    answer
}

/// Tries the parked call of a number again; a poll notes in each entry what was found.
#[inline(never)]
pub(super) fn resume_poll(
    kernel: &mut Kernel<Heap>,
    recorder: &mut Recorder<Heap>,
    heap: Heap,
    number: u64,
    entries: &mut [PollEntry],
) -> Answer
    ensures made { Resumes kernel.old number 0 result kernel.new }
    ensures moved { Moves kernel.old (StepOf.Resume number) result }
    ensures entries { Notes kernel.old number entries.old result entries.new }
    ensures records { IsTryRecorded kernel.old (unread recorder.old) number result (unread recorder.new) }
{
    let most = most_polled(kernel.ready_entries(number));
    if recorder.begin(&Step::Resume(number), most).is_err() {
        return no_memory();
    }
    let before = taken_so_far(kernel, number);
    let resumed = kernel.resume_into(number, &mut []);
    mark_resumed(&resumed, entries);
    let answer = tell_moved(kernel, before, answer_of_resumed(&resumed));
    end_try(recorder, resumed, Vec::new(heap), &[]);
    answer
}
