//! The lines of steps, as a record has them.
ghost use Rattle.std.specs.Prelude.{◌≡◌, ◌≤◌, [], ◌∷◌, ◌++◌, length, true, OnOk, OnErr, Some, string_bytes, codes};
ghost use Rattle.std.specs.Fmt.{decimal};
ghost use Rattle.pl_model.specs.declared.calls.Call.TheVariants as call;
ghost use Rattle.pl_model.specs.declared.calls.Step.TheVariants as step;
ghost use Rattle.pl_model.specs.declared.script.Line.TheVariants as asked;
ghost use Rattle.pl_model.specs.declared.script.Version.TheVariants.{Two};
ghost use Rattle.pl_model.specs.Numbers.{most_bytes};
ghost use Rattle.pl_model.specs.Lines.{line};
ghost use Rattle.pl_model.specs.Said.{call_words, said_step, is_sayable};
ghost use Rattle.pl_lines.specs.Pushed.{Pushes};
ghost use Rattle.pl_lines.specs.Blanks.{behind_blank};

use crate::said_words::{
    push_entries, push_fd, push_fd_and_size, push_len_and_flags, push_name, push_open_flags,
    push_open_names, push_place, push_side, push_two_fds, wait_text, whence_text,
};
use crate::sayable::{bytes_fit, numbers_fit};
use crate::text::{keep_if_pushed, mode_text, push_bytes, push_number, push_two};
use pl_model::{Call, Mode, OpenFlags, PollMask, SpliceFlags, Step, Version, Whence};
use std::alloc::{AllocError, Allocator};

fn push_pipe<A: Allocator + Copy>(
    text: &mut String<A>,
    nonblock: bool,
    direct: bool,
) -> Result<(), AllocError>
    ensures { Pushes result (string_bytes text.old) (string_bytes text.new) (behind_blank (call_words {A = A} (call.Pipe nonblock direct))) }
{
    match (nonblock, direct) {
        (false, false) => text.push_str(" pipe"),
        (true, false) => text.push_str(" pipe nonblock"),
        (false, true) => text.push_str(" pipe direct"),
        (true, true) => text.push_str(" pipe nonblock,direct"),
    }
}

fn push_open<A: Allocator + Copy>(
    text: &mut String<A>,
    name: &[u8],
    mode: Mode,
    flags: OpenFlags,
) -> Result<(), AllocError>
    ensures { Pushes result (string_bytes text.old) (string_bytes text.new) (behind_blank (call_words {A = A} (call.OpenName name.now mode flags))) }
{
    push_name(text, " open ", name)?;
    push_two(text, " ", mode_text(mode))?;
    push_open_flags(text, flags)
}

fn push_write_call<A: Allocator + Copy>(
    text: &mut String<A>,
    fd: i32,
    bytes: &[u8],
) -> Result<(), AllocError>
    ensures { Pushes result (string_bytes text.old) (string_bytes text.new) (behind_blank (call_words {A = A} (call.Write fd bytes.now))) }
{
    push_fd(text, " write ", fd)?;
    push_bytes(Version::Two, text, " ", bytes)
}

fn push_splice<A: Allocator + Copy>(
    text: &mut String<A>,
    from: i32,
    from_offset: Option<u64>,
    to: i32,
    to_offset: Option<u64>,
    len: u32,
    flags: SpliceFlags,
) -> Result<(), AllocError>
    ensures { Pushes result (string_bytes text.old) (string_bytes text.new) (behind_blank (call_words {A = A} (call.Splice from from_offset to to_offset len flags))) }
{
    push_side(text, " splice ", from, from_offset)?;
    push_side(text, " ", to, to_offset)?;
    push_len_and_flags(text, len, flags)
}

fn push_tee<A: Allocator + Copy>(
    text: &mut String<A>,
    from: i32,
    to: i32,
    len: u32,
    flags: SpliceFlags,
) -> Result<(), AllocError>
    ensures { Pushes result (string_bytes text.old) (string_bytes text.new) (behind_blank (call_words {A = A} (call.Tee from to len flags))) }
{
    push_two_fds(text, " tee ", from, to)?;
    push_len_and_flags(text, len, flags)
}

fn push_poll<A: Allocator + Copy>(
    text: &mut String<A>,
    entries: &[(i32, PollMask)],
    wait: bool,
) -> Result<(), AllocError>
    ensures { Pushes result (string_bytes text.old) (string_bytes text.new) (behind_blank (call_words {A = A} (call.Poll entries.now wait))) }
{
    push_two(text, " poll ", wait_text(wait))?;
    push_entries(text, entries)
}

fn push_lseek<A: Allocator + Copy>(
    text: &mut String<A>,
    fd: i32,
    offset: i64,
    whence: Whence,
) -> Result<(), AllocError>
    ensures { Pushes result (string_bytes text.old) (string_bytes text.new) (behind_blank (call_words {A = A} (call.Lseek fd offset whence))) }
{
    push_fd(text, " lseek ", fd)?;
    push_place(text, " ", offset)?;
    push_two(text, " ", whence_text(whence))
}

fn push_set_fl<A: Allocator + Copy>(
    text: &mut String<A>,
    fd: i32,
    flags: OpenFlags,
) -> Result<(), AllocError>
    ensures { Pushes result (string_bytes text.old) (string_bytes text.new) (behind_blank (call_words {A = A} (call.SetFl fd flags))) }
{
    push_fd(text, " setfl ", fd)?;
    push_open_names(text, flags)
}

/// Adds a call behind a blank.
fn push_call<A: Allocator + Copy>(text: &mut String<A>, call: &Call<A>) -> Result<(), AllocError>
    ensures { Pushes result (string_bytes text.old) (string_bytes text.new) (behind_blank (call_words call.now)) }
{
    match call {
        Call::Pipe { nonblock, direct } => push_pipe(text, *nonblock, *direct),
        Call::Mkfifo { name } => push_name(text, " mkfifo ", name.as_slice()),
        Call::OpenName { name, mode, flags } => push_open(text, name.as_slice(), *mode, *flags),
        Call::Read { fd, n } => push_fd_and_size(text, " read ", *fd, *n),
        Call::Write { fd, bytes } => push_write_call(text, *fd, bytes.as_slice()),
        Call::Splice {
            from,
            from_offset,
            to,
            to_offset,
            len,
            flags,
        } => push_splice(text, *from, *from_offset, *to, *to_offset, *len, *flags),
        Call::Tee {
            from,
            to,
            len,
            flags,
        } => push_tee(text, *from, *to, *len, *flags),
        Call::Poll { entries, wait } => push_poll(text, entries.as_slice(), *wait),
        Call::Dup { fd } => push_fd(text, " dup ", *fd),
        Call::Dup2 { fd, target } => push_two_fds(text, " dup2 ", *fd, *target),
        Call::DupFd { fd, least } => push_two_fds(text, " dupfd ", *fd, *least),
        Call::Close { fd } => push_fd(text, " close ", *fd),
        Call::Lseek { fd, offset, whence } => push_lseek(text, *fd, *offset, *whence),
        Call::GetFl { fd } => push_fd(text, " getfl ", *fd),
        Call::SetFl { fd, flags } => push_set_fl(text, *fd, *flags),
        Call::GetPipeSz { fd } => push_fd(text, " getsz ", *fd),
        Call::SetPipeSz { fd, size } => push_fd_and_size(text, " setsz ", *fd, *size),
        Call::Unlink { name } => push_name(text, " unlink ", name.as_slice()),
        Call::Fork => text.push_str(" fork"),
        Call::Exit => text.push_str(" exit"),
    }
}

/// Adds a call behind the process that begins it.
fn push_begin<A: Allocator + Copy>(
    text: &mut String<A>,
    pid: u32,
    call: &Call<A>,
) -> Result<(), AllocError>
    ensures { Pushes result (string_bytes text.old) (string_bytes text.new) (said_step (step.Begin pid call.now)) }
{
    push_number(text, "", pid)?;
    push_call(text, call)
}

/// Adds the text of a step.
fn push_step_text<A: Allocator + Copy>(
    text: &mut String<A>,
    step: &Step<A>,
) -> Result<(), AllocError>
    ensures { Pushes result (string_bytes text.old) (string_bytes text.new) (said_step step.now) }
{
    match step {
        Step::Start => text.push_str("start"),
        Step::Begin(pid, call) => push_begin(text, *pid, call),
        Step::Resume(call) => push_number(text, "resume ", *call),
        Step::Interrupt(call) => push_number(text, "interrupt ", *call),
    }
}

/// Adds the line of a step, or a front of it where there is no memory for it.
fn push_front_of_step<A: Allocator + Copy>(
    text: &mut String<A>,
    step: &Step<A>,
) -> Result<(), AllocError>
    ensures { Pushes result (string_bytes text.old) (string_bytes text.new) (said_step step.now ++ 10 ∷ []) }
{
    push_step_text(text, step)?;
    text.push_str("\n")
}

/// Adds the line of a write, or a front of it where there is no memory for it.
fn push_front_of_write<A: Allocator + Copy>(
    text: &mut String<A>,
    pid: u32,
    fd: i32,
    bytes: &[u8],
) -> Result<(), AllocError>
    ensures { Pushes result (string_bytes text.old) (string_bytes text.new) (said_step {A = A} (step.Begin pid (call.Write fd bytes.now)) ++ 10 ∷ []) }
{
    push_number(text, "", pid)?;
    push_write_call(text, fd, bytes)?;
    text.push_str("\n")
}

/// Adds the line of a step: its text and a line feed. In a script of version 2 it asks for that very step, if it is sayable. Where there is
/// no memory for it, which is the only error, the text is as it was.
pub fn push_step<A: Allocator + Copy>(
    text: &mut String<A>,
    step: &Step<A>,
) -> Result<(), AllocError>
    ensures done { OnOk result (string_bytes text.new ≡ string_bytes text.old ++ (said_step step.now ++ 10 ∷ [])) }
    ensures reads_back { is_sayable step.now ≡ true → line Two (said_step step.now) ≡ Some (Some (asked.Do step.now)) }
    ensures undone { OnErr result (string_bytes text.new ≡ string_bytes text.old) }
{
    numbers_fit(step);
    let len = text.as_str().len();
    let pushed = push_front_of_step(text, step);
    // It is text still, and was whole at the length of before: a character ends there.
    let _ = text.as_str();
    keep_if_pushed(text, len, pushed)
}

/// Adds the line of a write of these bytes by the process of this pid, as `push_step` does. In a script it asks for that write, if the bytes
/// are at most 16,777,216. Where there is no memory for it, which is the only error, the text is as it was.
pub fn push_write<A: Allocator + Copy>(
    text: &mut String<A>,
    pid: u32,
    fd: i32,
    bytes: &[u8],
) -> Result<(), AllocError>
    ensures done { OnOk result (string_bytes text.new ≡ string_bytes text.old ++ (said_step {A = A} (step.Begin pid (call.Write fd bytes.now)) ++ 10 ∷ [])) }
    ensures reads_back { length bytes.now ≤ most_bytes → line {A = A} Two (said_step {A = A} (step.Begin pid (call.Write fd bytes.now))) ≡ Some (Some (asked.Do (step.Begin pid (call.Write fd bytes.now)))) }
    ensures undone { OnErr result (string_bytes text.new ≡ string_bytes text.old) }
{
    bytes_fit(bytes);
    let len = text.as_str().len();
    let pushed = push_front_of_write(text, pid, fd, bytes);
    // As in `push_step`.
    let _ = text.as_str();
    keep_if_pushed(text, len, pushed)
}

/// Adds the line of a read of at most `count` bytes by the process of this pid, as `push_step` does. In a script it asks for that read. Where
/// there is no memory for it, which is the only error, the text is as it was.
pub fn push_read<A: Allocator + Copy>(
    text: &mut String<A>,
    pid: u32,
    fd: i32,
    count: u32,
) -> Result<(), AllocError>
    ensures done { OnOk result (string_bytes text.new ≡ string_bytes text.old ++ (said_step {A = A} (step.Begin pid (call.Read fd count)) ++ 10 ∷ [])) }
    ensures reads_back { line {A = A} Two (said_step {A = A} (step.Begin pid (call.Read fd count))) ≡ Some (Some (asked.Do (step.Begin pid (call.Read fd count)))) }
    ensures undone { OnErr result (string_bytes text.new ≡ string_bytes text.old) }
{
    // Such a step owns no memory.
    let step: Step<A> = Step::Begin(pid, Call::Read { fd, n: count });
    push_step(text, &step)
}
