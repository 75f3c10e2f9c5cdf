//! What lies behind a handle: a kernel in the memory of `malloc`, within a budget.
mod facts;
mod memory;
mod moved;
mod names;
mod recorded;
mod recording;
mod transfers;
mod waiting;

ghost use Rattle.std.specs.Prelude.{◌≡◌, ◌≤◌, ⊤, true, None, MatchOption};
ghost use Rattle.bindingclay.specs.Heap.{InBudget};
ghost use Rattle.pl_model.specs.Numbers.{most_file_bytes};
ghost use Rattle.pl_model.specs.Numbered.{opening};
ghost use Rattle.pl_state.specs.Makes.{Stands};
ghost use Rattle.pl_model.specs.declared.replies.Errno.TheVariants.{EINVAL};
ghost use Rattle.pl_numbers.specs.Answers.{plain, faulty, ends_after};
ghost use Rattle.pl_numbers.specs.Flags.{pipe_flags_of_bits};
ghost use Rattle.pl_numbers.specs.Places.{whence_of_number};
ghost use Rattle.bindingclay.specs.Made.{Makes, Wants, Replied};
ghost use Rattle.bindingclay.specs.Opened.{StaysAsOpened};
ghost use Rattle.bindingclay.specs.Recorded.{Records};

pub use facts::{SegmentUse, ToldCall, ToldNode, ToldProcess};
pub use memory::{Memory, address};
use pl_budget::Budget;
use pl_kernel::{Kernel, NoMemory};
use pl_model::{Call, Errno, Limits, Step};
use pl_numbers::{Answer, Ends, answer_of, kind, pipe_flags_of_bits, tell_ends, whence_of_number};
use pl_recorder::Recorder;
use std::alloc::Global;

/// What a kernel and the lists for its calls are made in: a budget, which stays where it is as long as the kernel does.
pub type Heap = &'static Budget<Global>;

/// A kernel, the memory that lists for its calls are made in, and the record of its steps.
#[derive(Drop)]
pub struct Layer {
    kernel: Kernel<Heap>,
    heap: Heap,
    /// The limits of the kernel.
    limits: Limits,
    /// No process was started, and no recording begun.
    is_fresh: bool,
    /// The record, while steps are recorded.
    recorder: Option<Recorder<Heap>>,
}

/// The answer where no memory was found: nothing changed.
pub(crate) fn no_memory() -> Answer
    ensures { result ≡ plain 0 6 }
{
    Answer::of_kind(kind::NO_MEMORY, 0)
}

impl Layer {
    /// A kernel with no process. `limits.file_max` is at most 16,777,216.
    pub fn new(heap: Heap, limits: Limits) -> Layer
        requires { limits.file_max ≤ most_file_bytes }
        ensures stands { Stands result.kernel (opening {A = InBudget} limits) }
        ensures fresh { (result.is_fresh ≡ true) × (result.limits ≡ limits) }
        ensures unrecorded { result.recorder ≡ None }
    {
        Layer {
            kernel: Kernel::new(heap, limits),
            heap,
            limits,
            is_fresh: true,
            recorder: None,
        }
    }

    // Makes one step, and answers what it replied. No recording goes on.
    #[inline(always)]
    fn answer_step(&mut self, step: Step<Heap>) -> Answer
        ensures makes { Makes self.old.kernel step.entry result self.new.kernel }
        ensures wants { Wants self.old.kernel step.entry result }
        ensures same { self.new.recorder ≡ self.old.recorder }
        ensures opened { StaysAsOpened self.old self.new }
    {
        match self.kernel.step(step) {
            Ok(reply) => answer_of(&reply),
            Err(NoMemory) => no_memory(),
        }
    }

    /// Makes one step, and answers what it replied.
    #[inline(always)]
    pub fn step(&mut self, step: Step<Heap>) -> Answer
        ensures makes { Makes self.old.kernel step.entry result self.new.kernel }
        ensures wants { self.old.recorder ≡ None → Wants self.old.kernel step.entry result }
        ensures records { Records self.old.kernel self.old.recorder step.entry result self.new.recorder }
        ensures opened { StaysAsOpened self.old self.new }
    {
        if let Some(recorder) = &mut self.recorder {
            return recorded::step(&mut self.kernel, recorder, step);
        }
        self.answer_step(step)
    }

    /// Makes a pipe, with `direct` a packet pipe, and tells its ends.
    pub fn pipe(&mut self, pid: u32, nonblock: bool, direct: bool, ends: &mut Ends) -> Answer
        ensures makes { Makes self.old.kernel (Step.Begin pid (Call.Pipe nonblock direct)) result self.new.kernel }
        ensures wants { self.old.recorder ≡ None → Wants self.old.kernel (Step.Begin pid (Call.Pipe nonblock direct)) result }
        ensures records { Records self.old.kernel self.old.recorder (Step.Begin pid (Call.Pipe nonblock direct)) result self.new.recorder }
        ensures ends { Replied self.old.kernel (Step.Begin pid (Call.Pipe nonblock direct)) result (λ reply. ends.new ≡ ends_after ends.old reply) }
        ensures untold { result.kind ≡ 6 → ends.new ≡ ends.old }
        ensures opened { StaysAsOpened self.old self.new }
    {
        if let Some(recorder) = &mut self.recorder {
            return recorded::pipe(&mut self.kernel, recorder, pid, nonblock, direct, ends);
        }
        match self
            .kernel
            .step(Step::Begin(pid, Call::Pipe { nonblock, direct }))
        {
            Ok(reply) => {
                tell_ends(&reply, ends);
                answer_of(&reply)
            }
            Err(NoMemory) => no_memory(),
        }
    }

    /// Makes a pipe as the bits say, and tells its ends, or with another bit than those of the flags does nothing (pipe2(2), `EINVAL`).
    pub fn pipe2(&mut self, pid: u32, bits: u32, ends: &mut Ends) -> Answer
        ensures makes { MatchOption (pipe_flags_of_bits bits)
            ((result ≡ faulty EINVAL) × (self.new.kernel ≡ self.old.kernel))
            (λ flags. Makes self.old.kernel (Step.Begin pid (Call.Pipe flags.nonblock flags.direct)) result self.new.kernel) }
        ensures wants { self.old.recorder ≡ None → MatchOption (pipe_flags_of_bits bits) ⊤ (λ flags. Wants self.old.kernel (Step.Begin pid (Call.Pipe flags.nonblock flags.direct)) result) }
        ensures records { MatchOption (pipe_flags_of_bits bits) (self.new.recorder ≡ self.old.recorder)
            (λ flags. Records self.old.kernel self.old.recorder (Step.Begin pid (Call.Pipe flags.nonblock flags.direct)) result self.new.recorder) }
        ensures ends { MatchOption (pipe_flags_of_bits bits) (ends.new ≡ ends.old)
            (λ flags. Replied self.old.kernel (Step.Begin pid (Call.Pipe flags.nonblock flags.direct)) result (λ reply. ends.new ≡ ends_after ends.old reply)) }
        ensures untold { result.kind ≡ 6 → ends.new ≡ ends.old }
        ensures opened { StaysAsOpened self.old self.new }
    {
        let Some(flags) = pipe_flags_of_bits(bits) else {
            return Answer::fault(Errno::EINVAL);
        };
        self.pipe(pid, flags.nonblock, flags.direct, ends)
    }

    /// Sets the offset of a file, or where the number says no place does nothing (POSIX.1-2017, lseek, `EINVAL`).
    pub fn lseek(&mut self, pid: u32, fd: i32, offset: i64, whence: i32) -> Answer
        ensures makes { MatchOption (whence_of_number whence)
            ((result ≡ faulty EINVAL) × (self.new.kernel ≡ self.old.kernel))
            (λ whence. Makes self.old.kernel (Step.Begin pid (Call.Lseek fd offset whence)) result self.new.kernel) }
        ensures wants { self.old.recorder ≡ None → MatchOption (whence_of_number whence) ⊤ (λ whence. Wants self.old.kernel (Step.Begin pid (Call.Lseek fd offset whence)) result) }
        ensures records { MatchOption (whence_of_number whence) (self.new.recorder ≡ self.old.recorder)
            (λ whence. Records self.old.kernel self.old.recorder (Step.Begin pid (Call.Lseek fd offset whence)) result self.new.recorder) }
        ensures opened { StaysAsOpened self.old self.new }
    {
        let Some(whence) = whence_of_number(whence) else {
            return Answer::fault(Errno::EINVAL);
        };
        self.step(Step::Begin(pid, Call::Lseek { fd, offset, whence }))
    }
}
