//! How steps are recorded.
ghost use Rattle.std.specs.Prelude.{◌≡◌, ◌≤◌, ◌<◌, ◌^◌, string_bytes};
ghost use Rattle.pl_recorder.specs.Kept.{IsKept, kept};
ghost use Rattle.pl_recorder.specs.Room.{room_of, is_end, is_end_call, left_by};

use pl_lines::{push_step, push_write};
use pl_model::{Call, Limits, Reply, Step};
use pl_recording::{push_header, push_reply_comment};
use std::alloc::{AllocError, Allocator, Global};

/// The bytes of room that only the lines of Close, Exit and Interrupt may fill: those of 64 such steps, or more.
pub(crate) const KEPT: usize = 4_096;

/// What the reply of a step that isn't made yet has at most.
#[derive(Clone, Copy)]
pub enum Most {
    /// No list.
    Plain,
    /// So many bytes.
    Bytes(u32),
    /// So many masks.
    Masks(u32),
}

impl Most {
    // The room for the comment of such a reply. The longest without a list is one of flags, of 37 bytes.
    fn room(self) -> usize
        ensures value { result ≡ room_of self }
        ensures few { result < 2 ^ 40 }
    {
        match self {
            Most::Plain => 64,
            Most::Bytes(count) => 64 + 2 * count as usize,
            Most::Masks(count) => 64 + 20 * count as usize,
        }
    }
}

// Whether a call ends a descriptor or a process.
fn is_end_call<A: Allocator>(call: &Call<A>) -> bool
    ensures { result ≡ is_end_call call.now }
{
    match call {
        Call::Close { .. } => true,
        Call::Exit => true,
        _ => false,
    }
}

// Whether a step ends something, so that its lines may fill all of the room: a descriptor, a process or a call that waits.
fn is_end<A: Allocator>(step: &Step<A>) -> bool
    ensures { result ≡ is_end step.now }
{
    match step {
        Step::Interrupt(_) => true,
        Step::Begin(_, call) => is_end_call(call),
        _ => false,
    }
}

// What a step leaves of the room to the lines of those that end something.
fn left_by<A: Allocator>(step: &Step<A>) -> usize
    ensures value { result ≡ left_by step.now }
    ensures few { result ≤ kept }
{
    if is_end(step) { 0 } else { KEPT }
}

/// The record of a run that goes on.
#[derive(Drop)]
pub struct Recorder<A: Allocator = Global> {
    /// The text that is handed out now.
    pub(crate) reading: String<A>,
    /// How many bytes of it were handed out.
    pub(crate) read: usize,
    /// The text behind it.
    pub(crate) text: String<A>,
    /// Where in `text` the line begins of a step that isn't made yet.
    pub(crate) line: Option<usize>,
    /// The reply of the last step, if no memory was found for its comment.
    pub(crate) last: Option<Reply<A>>,
    ghost kept: { IsKept read (string_bytes reading) line (string_bytes text) last },
}

impl<A: Allocator + Copy> Recorder<A> {
    ghost use Rattle.std.specs.Prelude.{◌≡◌, ◌+◌, ◌++◌, ⊤, IfOk, IsOk, OnOk, OnErr, MatchOption, None, Some, string_bytes};
    ghost use Rattle.pl_model.specs.Said.{said_step};
    ghost use Rattle.pl_model.specs.declared.calls.Call.{Call};
    ghost use Rattle.pl_model.specs.declared.calls.Step.{Step as StepOf};
    ghost use Rattle.pl_recording.specs.Record.{ended, header, comment_text};
    ghost use Rattle.pl_recorder.specs.Kept.{kept};
    ghost use Rattle.pl_recorder.specs.declared.recorder.Most.TheVariants.{Plain};
    ghost use Rattle.pl_recorder.specs.Room.{left_by, room_of};
    ghost use Rattle.pl_recorder.specs.Unread.{unread, line_of, HasRoom, IsSettled, IsTold};

    /// A recorder that has written the lines in front of a record: the version of scripts, and the limits of the run.
    ///
    /// # Errors
    ///
    /// `AllocError` if there is no memory for these lines.
    pub fn new(alloc: A, limits: Limits) -> Result<Self, AllocError>
        ensures header { IfOk result (λ recorder. unread recorder ≡ header limits) }
        ensures told { IfOk result (λ recorder. IsTold recorder × (recorder.line ≡ None)) }
    {
        let reading = String::with_capacity(alloc, KEPT)?;
        let mut text = String::with_capacity(alloc, KEPT)?;
        push_header(&mut text, limits)?;
        Ok(Recorder {
            reading,
            read: 0,
            text,
            line: None,
            last: None,
        })
    }

    /// Writes the line of a step that is to be made, and takes room behind it for the comment of a reply that has at most this. It is part of the
    /// record once `end` is told the reply. Of the room, 4,096 bytes are left to the lines of Close, Exit and Interrupt.
    ///
    /// # Errors
    ///
    /// `AllocError` if there is no room for all this and no memory to take it, or none for the comment of the step before.
    pub fn begin(&mut self, step: &Step<A>, most: Most) -> Result<(), AllocError>
        ensures unread { unread self.new ≡ unread self.old }
        ensures line { OnOk result (line_of self.new ≡ Some (ended (said_step step.now))) }
        ensures none { OnErr result (line_of self.new ≡ None) }
        ensures told { OnOk result (IsTold self.new) }
        ensures room { OnOk result (HasRoom self.new (left_by step.now + room_of most)) }
    {
        let start = self.settle()?;
        // It is text before and behind the line: so a character ends where the line begins.
        let _ = self.text.as_str();
        push_step(&mut self.text, step)?;
        let _ = self.text.as_str();
        self.line = Some(start);
        self.take_room(left_by(step) + most.room())
    }

    /// Does what `begin` does, of a write of these bytes, without a step that owns them.
    ///
    /// # Errors
    ///
    /// `AllocError`, as of `begin`.
    pub fn begin_write(&mut self, pid: u32, fd: i32, bytes: &[u8]) -> Result<(), AllocError>
        ensures unread { unread self.new ≡ unread self.old }
        ensures line { OnOk result (line_of self.new ≡ Some (ended (said_step {A = A} (StepOf.Begin pid (Call.Write fd bytes.now))))) }
        ensures none { OnErr result (line_of self.new ≡ None) }
        ensures told { OnOk result (IsTold self.new) }
        ensures room { OnOk result (HasRoom self.new (kept + room_of Plain)) }
    {
        let start = self.settle()?;
        // It is text before and behind the line: so a character ends where the line begins.
        let _ = self.text.as_str();
        push_write(&mut self.text, pid, fd, bytes)?;
        let _ = self.text.as_str();
        self.line = Some(start);
        self.take_room(KEPT + Most::Plain.room())
    }

    // Takes room behind the line of the step that is to be made; if there is none, the line is taken away.
    fn take_room(&mut self, room: usize) -> Result<(), AllocError>
        ensures unread { unread self.new ≡ unread self.old }
        ensures line { OnOk result (line_of self.new ≡ line_of self.old) }
        ensures none { OnErr result (line_of self.new ≡ None) }
        ensures room { OnOk result (HasRoom self.new room) }
        ensures last { self.new.last ≡ self.old.last }
    {
        if self.text.reserve(room).is_err() {
            self.cancel();
            return Err(AllocError);
        }
        Ok(())
    }

    /// Adds the step whose line was written to the record, with its reply. Without such a line nothing changes. If the reply has no more than was said
    /// as the line was written, its comment finds its room, and takes no memory.
    pub fn end(&mut self, reply: Reply<A>)
        ensures made { MatchOption (line_of self.old) ⊤ (λ line. unread self.new ≡ unread self.old ++ (line ++ ended (comment_text reply))) }
        ensures none { line_of self.new ≡ None }
        ensures nothing { line_of self.old ≡ None → unread self.new ≡ unread self.old }
    {
        if self.line.take().is_some() {
            self.last = Some(reply);
            let _written = self.settle();
        }
    }

    /// Takes away the line of a step that wasn't made. It takes no memory.
    pub fn cancel(&mut self)
        ensures unread { unread self.new ≡ unread self.old }
        ensures none { self.new.line ≡ None }
        ensures last { self.new.last ≡ self.old.last }
        ensures reading { string_bytes self.new.reading ≡ string_bytes self.old.reading }
        ensures read { self.new.read ≡ self.old.read }
    {
        if let Some(start) = self.line.take() {
            self.text.truncate(start);
        }
    }

    // Takes away a line whose step wasn't made, and writes the comment that the last step still lacks; the length of the text then.
    pub(crate) fn settle(&mut self) -> Result<usize, AllocError>
        ensures unread { unread self.new ≡ unread self.old }
        ensures none { self.new.line ≡ None }
        ensures settled { IfOk result (IsSettled self.new) }
        ensures frugal { IsTold self.old → IsOk result }
        ensures reading { string_bytes self.new.reading ≡ string_bytes self.old.reading }
        ensures read { self.new.read ≡ self.old.read }
    {
        self.cancel();
        if let Some(reply) = &self.last {
            push_reply_comment(&mut self.text, reply)?;
            self.last = None;
        }
        Ok(self.text.len())
    }
}
