//! When steps are recorded, and how the record is handed out.
ghost use Rattle.std.specs.Prelude.{◌≡◌, ◌⊎◌, ⊤, MatchOption, None, false, true};
ghost use Rattle.pl_model.specs.declared.calls.Step.{Step as StepOf};
ghost use Rattle.pl_model.specs.declared.replies.Errno.TheVariants.{EINVAL};
ghost use Rattle.pl_numbers.specs.Answers.{plain, faulty, no_memory};
ghost use Rattle.pl_recording.specs.Record.{header};
ghost use Rattle.pl_recorder.specs.Unread.{unread};
ghost use Rattle.bindingclay.specs.Made.{Makes, Wants};
ghost use Rattle.bindingclay.specs.Opened.{StaysAsOpened};
ghost use Rattle.bindingclay.specs.Recorded.{Records, HandsOut, HasHandedOut};

use super::{Layer, no_memory};
use pl_model::{Errno, Step};
use pl_numbers::Answer;
use pl_recorder::Recorder;

impl Layer {
    /// Starts a process. From then on no recording can begin.
    pub fn start(&mut self) -> Answer
        ensures makes { Makes self.old.kernel StepOf.Start result self.new.kernel }
        ensures wants { self.old.recorder ≡ None → Wants self.old.kernel StepOf.Start result }
        ensures records { Records self.old.kernel self.old.recorder StepOf.Start result self.new.recorder }
        ensures stale { self.new.is_fresh ≡ false }
        ensures opened { (self.new.limits ≡ self.old.limits) × (self.new.heap ≡ self.old.heap) }
    {
        let answer = self.step(Step::Start);
        self.is_fresh = false;
        answer
    }

    /// Begins to record the steps. `EINVAL` once a process was started or a recording begun: a record has to tell all steps.
    pub fn record(&mut self) -> Answer
        ensures refused { self.old.is_fresh ≡ false → result ≡ faulty EINVAL }
        ensures tried { self.old.is_fresh ≡ true → (result ≡ plain 0 0) ⊎ (result ≡ plain 0 no_memory) }
        ensures begun { result ≡ plain 0 0 → MatchOption self.new.recorder ⊥ (λ recorder. unread recorder ≡ header self.old.limits) }
        ensures stale { result ≡ plain 0 0 → self.new.is_fresh ≡ false }
        ensures unbegun { (result ≡ plain 0 0 → ⊥) → self.new ≡ self.old }
        ensures same { self.new.kernel ≡ self.old.kernel }
        ensures opened { (self.new.limits ≡ self.old.limits) × (self.new.heap ≡ self.old.heap) }
    {
        if !self.is_fresh {
            return Answer::fault(Errno::EINVAL);
        }
        let Ok(recorder) = Recorder::new(self.heap, self.limits) else {
            return no_memory();
        };
        self.recorder = Some(recorder);
        self.is_fresh = false;
        Answer::done(0)
    }

    /// Ends the recording, and drops what wasn't handed out.
    pub fn end_record(&mut self) -> Answer
        ensures done { result ≡ plain 0 0 }
        ensures ended { self.new.recorder ≡ None }
        ensures same { self.new.kernel ≡ self.old.kernel }
        ensures opened { StaysAsOpened self.old self.new }
    {
        self.recorder = None;
        Answer::done(0)
    }

    /// Hands out the first bytes of the record that weren't handed out, as many as the caller's are: the value is how many. `EINVAL` if no
    /// recording goes on.
    pub fn recorded(&mut self, into: &mut [u8]) -> Answer
        ensures hands { HandsOut self.old.recorder into.old result into.new }
        ensures rest { HasHandedOut self.old.recorder result self.new.recorder }
        ensures same { self.new.kernel ≡ self.old.kernel }
        ensures opened { StaysAsOpened self.old self.new }
    {
        let Some(recorder) = &mut self.recorder else {
            return Answer::fault(Errno::EINVAL);
        };
        match recorder.read(into) {
            Ok(count) => Answer::done(count as u64),
            Err(_) => no_memory(),
        }
    }
}
