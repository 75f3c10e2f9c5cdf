//! Records: scripts of version 2 that ask for each step that was made, and tell the reply of each in a comment behind it.
//!
//! `push_header` gives the lines in front of a record, and `push_entry` those of a step with its reply; `push_reply_comment` gives the
//! comment alone, and `push_record` the record of a journal. What a record is, is defined in `specs/Record.antt`. `replaying` and `journals`
//! are the laws that a record prints the replies that it has in its comments, as it is run: `specs/Replay.antt`.
#![tactic(auto)]

ghost use Rattle.std.specs.Prelude.{◌≡◌, ◌++◌, OnOk, OnErr, string_bytes};
ghost use Rattle.std.specs.List.{flat_map};
ghost use Rattle.pl_lines.specs.Pushed.{Pushes};
ghost use Rattle.pl_recording.specs.Record.{ended, told_unless, unusual_text, limits_text, header, comment_text, entry_text, made_in, recorded};
ghost use Rattle.pl_recording.specs.Replay.{RecordsReplay, JournalsReplay};

use pl_lines::{keep_if_pushed, push_number, push_reply_2, push_step};
use pl_model::numbers::{NO_LIMIT, USUAL_DESCRIPTIONS, USUAL_PROCESSES};
use pl_model::{Entry, Limits, Reply, Step};
use std::alloc::{AllocError, Allocator};

/// A record of a run, run again within the limits that it tells, prints the replies that it has in its comments, line by line.
pub fn replaying<A: Allocator>()
    ensures { RecordsReplay A }
{}

/// The record of a journal that some run gave does so, if lines can say its steps.
pub fn journals<A: Allocator>()
    ensures { JournalsReplay A }
{}

/// Adds a limit behind its name, or nothing where it is the usual one.
fn push_unless<A: Allocator + Copy>(
    text: &mut String<A>,
    name: &str,
    usual: u64,
    limit: u64,
) -> Result<(), AllocError>
    ensures { Pushes result (string_bytes text.old) (string_bytes text.new) (told_unless usual limit name.now) }
{
    if limit == usual {
        return Ok(());
    }
    push_number(text, name, limit)
}

/// Adds the limits on descriptions, on processes and on the waiting calls of each, of which it tells those that aren't the usual ones.
fn push_unusual<A: Allocator + Copy>(text: &mut String<A>, limits: Limits) -> Result<(), AllocError>
    ensures { Pushes result (string_bytes text.old) (string_bytes text.new) (unusual_text limits) }
{
    push_unless(
        text,
        " --descriptions-max ",
        USUAL_DESCRIPTIONS as u64,
        limits.descriptions_max as u64,
    )?;
    push_unless(
        text,
        " --processes-max ",
        USUAL_PROCESSES as u64,
        limits.processes_max as u64,
    )?;
    push_unless(
        text,
        " --waiting-of-each ",
        NO_LIMIT,
        limits.waiting_of_each,
    )
}

/// Adds the comment that tells the limits.
fn push_limits<A: Allocator + Copy>(text: &mut String<A>, limits: Limits) -> Result<(), AllocError>
    ensures { Pushes result (string_bytes text.old) (string_bytes text.new) (limits_text limits) }
{
    push_number(text, "# piperun --first-call ", limits.first_call)?;
    push_number(text, " --file-max ", limits.file_max)?;
    push_number(text, " --names-max ", limits.names_max)?;
    push_number(text, " --waiting-max ", limits.waiting_max)?;
    push_number(text, " --capacity-max ", limits.capacity_max)?;
    push_number(text, " --descriptors-max ", limits.descriptors_max)?;
    push_unusual(text, limits)
}

/// Adds the lines in front of a record, or a front of them where there is no memory for them.
fn push_front_of_header<A: Allocator + Copy>(
    text: &mut String<A>,
    limits: Limits,
) -> Result<(), AllocError>
    ensures { Pushes result (string_bytes text.old) (string_bytes text.new) (header limits) }
{
    text.push_str("piperun 2\n")?;
    push_limits(text, limits)?;
    text.push_str("\n")
}

/// Adds the comment behind a step, or a front of it where there is no memory for it.
fn push_front_of_comment<A: Allocator + Copy>(
    text: &mut String<A>,
    reply: &Reply<A>,
) -> Result<(), AllocError>
    ensures { Pushes result (string_bytes text.old) (string_bytes text.new) (ended (comment_text reply.now)) }
{
    text.push_str("# => ")?;
    push_reply_2(text, reply)
}

/// Adds the lines in front of a record: the version of scripts, and the limits within which its steps are made, as options of `piperun`.
/// Where there is no memory for them, which is the only error, the text is as it was.
pub fn push_header<A: Allocator + Copy>(
    text: &mut String<A>,
    limits: Limits,
) -> Result<(), AllocError>
    ensures done { OnOk result (string_bytes text.new ≡ string_bytes text.old ++ header limits) }
    ensures undone { OnErr result (string_bytes text.new ≡ string_bytes text.old) }
{
    let len = text.as_str().len();
    let pushed = push_front_of_header(text, limits);
    // It is text still, and was whole at the length of before: a character ends there.
    let _ = text.as_str();
    keep_if_pushed(text, len, pushed)
}

/// Adds the comment behind a step, which tells its reply: `# => ` and the text of the reply in version 2, and a line feed. Where there is no
/// memory for it, which is the only error, the text is as it was.
pub fn push_reply_comment<A: Allocator + Copy>(
    text: &mut String<A>,
    reply: &Reply<A>,
) -> Result<(), AllocError>
    ensures done { OnOk result (string_bytes text.new ≡ string_bytes text.old ++ ended (comment_text reply.now)) }
    ensures undone { OnErr result (string_bytes text.new ≡ string_bytes text.old) }
{
    let len = text.as_str().len();
    let pushed = push_front_of_comment(text, reply);
    // As in `push_header`.
    let _ = text.as_str();
    keep_if_pushed(text, len, pushed)
}

/// Adds the line of a step, or nothing, and then the comment of its reply, or a front of it.
fn push_front_of_entry<A: Allocator + Copy>(
    text: &mut String<A>,
    step: &Step<A>,
    reply: &Reply<A>,
) -> Result<(), AllocError>
    ensures { Pushes result (string_bytes text.old) (string_bytes text.new) (entry_text (step.now, reply.now)) }
{
    push_step(text, step)?;
    push_front_of_comment(text, reply)
}

/// Adds the lines of a step that was made, with the reply that it got: the line that says it, and the comment. Where there is no memory for
/// both, which is the only error, the text is as it was.
pub fn push_entry<A: Allocator + Copy>(
    text: &mut String<A>,
    step: &Step<A>,
    reply: &Reply<A>,
) -> Result<(), AllocError>
    ensures done { OnOk result (string_bytes text.new ≡ string_bytes text.old ++ entry_text (step.now, reply.now)) }
    ensures undone { OnErr result (string_bytes text.new ≡ string_bytes text.old) }
{
    let len = text.as_str().len();
    let pushed = push_front_of_entry(text, step, reply);
    // As in `push_header`.
    let _ = text.as_str();
    keep_if_pushed(text, len, pushed)
}

/// Adds the lines of entries, or a front of them where there is no memory for them.
fn push_entries<A: Allocator + Copy>(
    text: &mut String<A>,
    entries: &[Entry<A>],
) -> Result<(), AllocError>
    ensures { Pushes result (string_bytes text.old) (string_bytes text.new) (flat_map entry_text (made_in entries.now)) }
{
    for entry in entries {
        push_front_of_entry(text, &entry.step, &entry.reply)?;
    }
    Ok(())
}

/// Adds the record of entries, or a front of it where there is no memory for it.
fn push_front_of_record<A: Allocator + Copy>(
    text: &mut String<A>,
    limits: Limits,
    entries: &[Entry<A>],
) -> Result<(), AllocError>
    ensures { Pushes result (string_bytes text.old) (string_bytes text.new) (recorded limits (made_in entries.now)) }
{
    push_front_of_header(text, limits)?;
    push_entries(text, entries)
}

/// Adds the record of a journal: the lines in front, and those of each entry. Where there is no memory for it, which is the only error, the text
/// is as it was.
pub fn push_record<A: Allocator + Copy>(
    text: &mut String<A>,
    limits: Limits,
    entries: &[Entry<A>],
) -> Result<(), AllocError>
    ensures done { OnOk result (string_bytes text.new ≡ string_bytes text.old ++ recorded limits (made_in entries.now)) }
    ensures undone { OnErr result (string_bytes text.new ≡ string_bytes text.old) }
{
    let len = text.as_str().len();
    let pushed = push_front_of_record(text, limits, entries);
    // As in `push_header`.
    let _ = text.as_str();
    keep_if_pushed(text, len, pushed)
}
