//! The text of replies and of files.
ghost use Rattle.std.specs.Prelude.{◌≡◌, [], ◌∷◌, ◌++◌, OnOk, OnErr, IfOk, codes, string_bytes, take, map, option_copied};
ghost use Rattle.std.specs.List.{filter, flat_map};
ghost use Rattle.std.specs.Fmt.{decimal, signed_decimal};
ghost use Rattle.std.specs.String.Boundary.{IsSplitPoint};
ghost use Rattle.pl_model.specs.Flags.{has};
ghost use Rattle.pl_model.specs.Shown.{hex_text, bytes_text, file_text, errno_text, mode_text, flags_text, names_text, mask_text, reply_text, outcome_text};
ghost use Rattle.pl_model.specs.declared.script.Version.TheVariants.{One, Two};
ghost use Rattle.pl_lines.specs.Pushed.{Pushes, next_name};

use crate::digits::push_digits;
use crate::runs::push_runs;
use bitflags::Flags;
use itoa::{Buffer, Integer};
use pl_model::{Errno, Mode, OpenFlags, Outcome, PollMask, Reply, Version};
use std::alloc::{AllocError, Allocator};

/// Adds one text behind another.
pub(crate) fn push_two<A: Allocator + Copy>(
    text: &mut String<A>,
    first: &str,
    second: &str,
) -> Result<(), AllocError>
    ensures { Pushes result (string_bytes text.old) (string_bytes text.new) (first.now ++ second.now) }
{
    text.push_str(first)?;
    text.push_str(second)
}

/// Adds a number behind its name, or a front of them where there is no memory for them, which is the only error.
pub fn push_number<A: Allocator + Copy, I: Integer>(
    text: &mut String<A>,
    name: &str,
    number: I,
) -> Result<(), AllocError>
    ensures { Pushes result (string_bytes text.old) (string_bytes text.new) (name.now ++ I.text number) }
{
    push_two(text, name, Buffer::new().format(number))
}

/// Adds the bytes behind their name, as digits, or by runs in version 2; `-` for none.
pub(crate) fn push_bytes<A: Allocator + Copy>(
    version: Version,
    text: &mut String<A>,
    name: &str,
    bytes: &[u8],
) -> Result<(), AllocError>
    ensures { Pushes result (string_bytes text.old) (string_bytes text.new) (name.now ++ bytes_text version bytes.now) }
{
    text.push_str(name)?;
    if bytes.is_empty() {
        return text.push_str("-");
    }
    match version {
        Version::One => push_digits(text, bytes),
        Version::Two => push_runs(text, bytes),
    }
}

fn errno_text(errno: Errno) -> &'static str
    ensures { result.now ≡ errno_text errno }
{
    match errno {
        Errno::EAGAIN => "EAGAIN",
        Errno::EBADF => "EBADF",
        Errno::EBUSY => "EBUSY",
        Errno::EEXIST => "EEXIST",
        Errno::EFBIG => "EFBIG",
        Errno::EINTR => "EINTR",
        Errno::EINVAL => "EINVAL",
        Errno::EMFILE => "EMFILE",
        Errno::ENAMETOOLONG => "ENAMETOOLONG",
        Errno::ENFILE => "ENFILE",
        Errno::ENOENT => "ENOENT",
        Errno::ENOSPC => "ENOSPC",
        Errno::ENXIO => "ENXIO",
        Errno::EOVERFLOW => "EOVERFLOW",
        Errno::EPERM => "EPERM",
        Errno::EPIPE => "EPIPE sigpipe",
        Errno::ESPIPE => "ESPIPE",
    }
}

pub(crate) fn mode_text(mode: Mode) -> &'static str
    ensures { result.now ≡ mode_text mode }
{
    match mode {
        Mode::Read => "r",
        Mode::Write => "w",
        Mode::Both => "rw",
    }
}

fn push_fds<A: Allocator + Copy>(
    text: &mut String<A>,
    reader: i32,
    writer: i32,
) -> Result<(), AllocError>
    ensures { Pushes result (string_bytes text.old) (string_bytes text.new)
        (codes "fds " ++ (signed_decimal reader ++ (codes " " ++ signed_decimal writer))) }
{
    push_number(text, "fds ", reader)?;
    push_number(text, " ", writer)
}

fn push_broken_count<A: Allocator + Copy>(text: &mut String<A>, n: u32) -> Result<(), AllocError>
    ensures { Pushes result (string_bytes text.old) (string_bytes text.new) (codes "count " ++ (decimal n ++ codes " sigpipe")) }
{
    push_number(text, "count ", n)?;
    text.push_str(" sigpipe")
}

/// Adds a name, behind a comma where another stands before it.
fn push_name<A: Allocator + Copy>(
    text: &mut String<A>,
    others: bool,
    name: &str,
) -> Result<(), AllocError>
    ensures { Pushes result (string_bytes text.old) (string_bytes text.new) (next_name others name.now) }
{
    if others {
        push_two(text, ",", name)
    } else {
        text.push_str(name)
    }
}

/// Adds the names of what the set has of these, joined by commas, or `-` for none.
pub(crate) fn push_names<A: Allocator + Copy, F: Flags + Copy>(
    text: &mut String<A>,
    set: F,
    names: &[(F, &str)],
) -> Result<(), AllocError>
    requires { F.exact }
    ensures { Pushes result (string_bytes text.old) (string_bytes text.new) (names_text (map (λ n. n.1.now) (filter (λ n. has (F.set_of set) (F.set_of n.0)) names.now))) }
{
    let mut others = false;
    for (flag, name) in names {
        if set.contains(*flag) {
            push_name(text, others, name)?;
            others = true;
        }
    }
    if others { Ok(()) } else { text.push_str("-") }
}

/// The status flags that a description may have, in the order in which they are shown.
const STATUS_NAMES: &[(OpenFlags, &str)] = &[
    (OpenFlags::APPEND, "append"),
    (OpenFlags::NONBLOCK, "nonblock"),
    (OpenFlags::DIRECT, "direct"),
];

/// Adds the status flags that are set, behind a blank.
#[tactic(auto, unfolding(pl_model::specs::Shown::flags_text))]
fn push_status<A: Allocator + Copy>(
    text: &mut String<A>,
    flags: OpenFlags,
) -> Result<(), AllocError>
    ensures { Pushes result (string_bytes text.old) (string_bytes text.new) (codes " " ++ flags_text flags) }
{
    text.push_str(" ")?;
    push_names(text, flags, STATUS_NAMES)
}

fn push_flags<A: Allocator + Copy>(
    text: &mut String<A>,
    mode: Mode,
    flags: OpenFlags,
) -> Result<(), AllocError>
    ensures { Pushes result (string_bytes text.old) (string_bytes text.new)
        (codes "flags " ++ (mode_text mode ++ (codes " " ++ flags_text flags))) }
{
    push_two(text, "flags ", mode_text(mode))?;
    push_status(text, flags)
}

/// What a mask may have, in the order in which it is shown.
const MASK_NAMES: &[(PollMask, &str)] = &[
    (PollMask::IN, "in"),
    (PollMask::OUT, "out"),
    (PollMask::ERR, "err"),
    (PollMask::HUP, "hup"),
    (PollMask::NVAL, "nval"),
];

#[tactic(auto, unfolding(pl_model::specs::Shown::mask_text))]
pub(crate) fn push_mask<A: Allocator + Copy>(
    text: &mut String<A>,
    mask: PollMask,
) -> Result<(), AllocError>
    ensures { Pushes result (string_bytes text.old) (string_bytes text.new) (mask_text mask) }
{
    push_names(text, mask, MASK_NAMES)
}

/// Adds each of the masks, behind a blank.
fn push_each_mask<A: Allocator + Copy>(
    text: &mut String<A>,
    masks: &[PollMask],
) -> Result<(), AllocError>
    ensures { Pushes result (string_bytes text.old) (string_bytes text.new) (flat_map (λ mask. codes " " ++ mask_text mask) masks.now) }
{
    for mask in masks {
        text.push_str(" ")?;
        push_mask(text, *mask)?;
    }
    Ok(())
}

fn push_masks<A: Allocator + Copy>(
    text: &mut String<A>,
    ready: u32,
    masks: &[PollMask],
) -> Result<(), AllocError>
    ensures { Pushes result (string_bytes text.old) (string_bytes text.new)
        (codes "masks " ++ (decimal ready ++ flat_map (λ mask. codes " " ++ mask_text mask) masks.now)) }
{
    push_number(text, "masks ", ready)?;
    push_each_mask(text, masks)
}

fn push_reply<A: Allocator + Copy>(
    version: Version,
    text: &mut String<A>,
    reply: &Reply<A>,
) -> Result<(), AllocError>
    ensures { Pushes result (string_bytes text.old) (string_bytes text.new) (reply_text version reply.now) }
{
    match reply {
        Reply::Pid(pid) => push_number(text, "pid ", *pid),
        Reply::Fd(fd) => push_number(text, "fd ", *fd),
        Reply::Fds(reader, writer) => push_fds(text, *reader, *writer),
        Reply::Count { n, sigpipe: false } => push_number(text, "count ", *n),
        Reply::Count { n, sigpipe: true } => push_broken_count(text, *n),
        Reply::Bytes(bytes) => push_bytes(version, text, "data ", bytes.as_slice()),
        Reply::Offset(offset) => push_number(text, "offset ", *offset),
        Reply::Flags { mode, flags } => push_flags(text, *mode, *flags),
        Reply::Size(size) => push_number(text, "size ", *size),
        Reply::Masks { ready, masks } => push_masks(text, *ready, masks.as_slice()),
        Reply::Unit => text.push_str("ok"),
        Reply::Fault(errno) => text.push_str(errno_text(*errno)),
        Reply::Parked(call) => push_number(text, "parked ", *call),
        Reply::NoProcess => text.push_str("no process"),
        Reply::NoCall => text.push_str("no call"),
        Reply::CallsSpent => text.push_str("calls spent"),
    }
}

/// Adds the text of an outcome.
#[tactic(auto, unfolding(pl_model::specs::Shown::outcome_text))]
fn push_outcome<A: Allocator + Copy>(
    version: Version,
    text: &mut String<A>,
    outcome: &Outcome<A>,
) -> Result<(), AllocError>
    ensures { Pushes result (string_bytes text.old) (string_bytes text.new) (outcome_text version outcome.now) }
{
    match outcome {
        Outcome::Replied(reply) => push_reply(version, text, reply),
        Outcome::NoMemory => text.push_str("nomem"),
    }
}

/// Adds the bytes of a file, or that there is no such file.
#[tactic(auto, unfolding(pl_model::specs::Shown::file_text))]
fn push_file<A: Allocator + Copy>(
    version: Version,
    text: &mut String<A>,
    bytes: Option<&[u8]>,
) -> Result<(), AllocError>
    ensures { Pushes result (string_bytes text.old) (string_bytes text.new) (file_text version (option_copied bytes.entry)) }
{
    match bytes {
        Some(bytes) => push_bytes(version, text, "file ", bytes),
        None => text.push_str("no file"),
    }
}

/// Adds the text of a reply in a script of version 2, and a line feed behind it, or a front of them where there is no memory for them,
/// which is the only error.
pub fn push_reply_2<A: Allocator + Copy>(
    text: &mut String<A>,
    reply: &Reply<A>,
) -> Result<(), AllocError>
    ensures { Pushes result (string_bytes text.old) (string_bytes text.new) (reply_text Two reply.now ++ 10 ∷ []) }
{
    push_reply(Version::Two, text, reply)?;
    text.push_str("\n")
}

/// Adds the line of an outcome, or a front of it where there is no memory for it.
fn push_front_of_line<A: Allocator + Copy>(
    version: Version,
    text: &mut String<A>,
    outcome: &Outcome<A>,
) -> Result<(), AllocError>
    ensures { Pushes result (string_bytes text.old) (string_bytes text.new) (outcome_text version outcome.now ++ 10 ∷ []) }
{
    push_outcome(version, text, outcome)?;
    text.push_str("\n")
}

/// Adds the line of a file's bytes, or a front of it where there is no memory for it.
fn push_front_of_file_line<A: Allocator + Copy>(
    version: Version,
    text: &mut String<A>,
    bytes: Option<&[u8]>,
) -> Result<(), AllocError>
    ensures { Pushes result (string_bytes text.old) (string_bytes text.new) (file_text version (option_copied bytes.entry) ++ 10 ∷ []) }
{
    push_file(version, text, bytes)?;
    text.push_str("\n")
}

/// Cuts the text to the length of before, if what was to stand behind it found no memory. It answers what was pushed, and takes no memory.
pub fn keep_if_pushed<A: Allocator>(
    text: &mut String<A>,
    len: usize,
    pushed: Result<(), AllocError>,
) -> Result<(), AllocError>
    requires { IsSplitPoint (string_bytes text.old) len }
    ensures same { result ≡ pushed }
    ensures done { OnOk result (string_bytes text.new ≡ string_bytes text.old) }
    ensures undone { OnErr result (string_bytes text.new ≡ take len (string_bytes text.old)) }
{
    if pushed.is_err() {
        text.truncate(len);
    }
    pushed
}

/// Adds the line of an outcome: its text and a line feed. Where there is no memory for it, which is the only error, the text is
/// as it was.
pub fn push_line<A: Allocator + Copy>(
    version: Version,
    text: &mut String<A>,
    outcome: &Outcome<A>,
) -> Result<(), AllocError>
    ensures done { OnOk result (string_bytes text.new ≡ string_bytes text.old ++ (outcome_text version outcome.now ++ 10 ∷ [])) }
    ensures undone { OnErr result (string_bytes text.new ≡ string_bytes text.old) }
{
    let len = text.as_str().len();
    let pushed = push_front_of_line(version, text, outcome);
    // It is text still, and was whole at the length of before: a character ends there.
    let _ = text.as_str();
    keep_if_pushed(text, len, pushed)
}

/// Adds the line of a file's bytes, or that there is no such file: its text and a line feed. Where there is no memory for it,
/// which is the only error, the text is as it was.
pub fn push_file_line<A: Allocator + Copy>(
    version: Version,
    text: &mut String<A>,
    bytes: Option<&[u8]>,
) -> Result<(), AllocError>
    ensures done { OnOk result (string_bytes text.new ≡ string_bytes text.old ++ (file_text version (option_copied bytes.entry) ++ 10 ∷ [])) }
    ensures undone { OnErr result (string_bytes text.new ≡ string_bytes text.old) }
{
    let len = text.as_str().len();
    let pushed = push_front_of_file_line(version, text, bytes);
    // As in `push_line`.
    let _ = text.as_str();
    keep_if_pushed(text, len, pushed)
}

/// The text of an outcome in a script of this version, without the line feed that ends its line. The only error is want of memory.
fn show_by<A: Allocator + Copy>(
    alloc: A,
    version: Version,
    outcome: &Outcome<A>,
) -> Result<String<A>, AllocError>
    ensures { IfOk result (λ text. string_bytes text ≡ outcome_text version outcome.now) }
{
    let mut text = String::new(alloc);
    push_outcome(version, &mut text, outcome)?;
    Ok(text)
}

/// The text of an outcome in a script of version 1, without the line feed that ends its line. The only error is want of memory.
pub fn show<A: Allocator + Copy>(alloc: A, outcome: &Outcome<A>) -> Result<String<A>, AllocError>
    ensures { IfOk result (λ text. string_bytes text ≡ outcome_text One outcome.now) }
{
    show_by(alloc, Version::One, outcome)
}

/// The text of an outcome in a script of version 2, without the line feed that ends its line. The only error is want of memory.
pub fn show_2<A: Allocator + Copy>(alloc: A, outcome: &Outcome<A>) -> Result<String<A>, AllocError>
    ensures { IfOk result (λ text. string_bytes text ≡ outcome_text Two outcome.now) }
{
    show_by(alloc, Version::Two, outcome)
}

/// The text of a file's bytes in a script of this version, or that there is no such file, without the line feed that ends its line.
/// The only error is want of memory.
fn show_file_by<A: Allocator + Copy>(
    alloc: A,
    version: Version,
    bytes: Option<&[u8]>,
) -> Result<String<A>, AllocError>
    ensures { IfOk result (λ text. string_bytes text ≡ file_text version (option_copied bytes.entry)) }
{
    let mut text = String::new(alloc);
    push_file(version, &mut text, bytes)?;
    Ok(text)
}

/// The text of a file's bytes in a script of version 1, or that there is no such file, without the line feed that ends its line. The
/// only error is want of memory.
pub fn show_file<A: Allocator + Copy>(
    alloc: A,
    bytes: Option<&[u8]>,
) -> Result<String<A>, AllocError>
    ensures { IfOk result (λ text. string_bytes text ≡ file_text One (option_copied bytes.entry)) }
{
    show_file_by(alloc, Version::One, bytes)
}

/// The text of a file's bytes in a script of version 2, or that there is no such file, without the line feed that ends its line. The
/// only error is want of memory.
pub fn show_file_2<A: Allocator + Copy>(
    alloc: A,
    bytes: Option<&[u8]>,
) -> Result<String<A>, AllocError>
    ensures { IfOk result (λ text. string_bytes text ≡ file_text Two (option_copied bytes.entry)) }
{
    show_file_by(alloc, Version::Two, bytes)
}
