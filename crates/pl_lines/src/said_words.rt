//! The words of a line that says a step, each kind of them behind what stands before it.
ghost use Rattle.std.specs.Prelude.{◌≡◌, [], ◌∷◌, ◌++◌, codes, string_bytes, map};
ghost use Rattle.std.specs.List.{flat_map};
ghost use Rattle.std.specs.Fmt.{decimal, signed_decimal};
ghost use Rattle.pl_model.specs.Flags.{open_names, splice_names};
ghost use Rattle.pl_model.specs.Shown.{names_within};
ghost use Rattle.pl_model.specs.Said.{said_byte, said_name, said_offset, said_whence, said_wait, said_entry, said_flags};
ghost use Rattle.pl_lines.specs.Pushed.{Pushes};
ghost use Rattle.pl_lines.specs.Blanks.{behind_blank};

use crate::digits::push_byte;
use crate::text::{push_mask, push_names, push_number};
use bitflags::Flags;
use pl_model::{OpenFlags, PollMask, SpliceFlags, Whence};
use pl_words::is_plain;
use std::alloc::{AllocError, Allocator};

/// Adds a byte of a name: itself, or `%` and its digits.
fn push_name_byte<A: Allocator + Copy>(text: &mut String<A>, byte: u8) -> Result<(), AllocError>
    ensures { Pushes result (string_bytes text.old) (string_bytes text.new) (said_byte byte) }
{
    if is_plain(byte) {
        text.push(char::from(byte))
    } else {
        text.push_str("%")?;
        push_byte(text, byte)
    }
}

/// Adds the bytes of a name, one by one.
fn push_name_bytes<A: Allocator + Copy>(text: &mut String<A>, name: &[u8]) -> Result<(), AllocError>
    ensures { Pushes result (string_bytes text.old) (string_bytes text.new) (flat_map said_byte name.now) }
{
    for byte in name {
        push_name_byte(text, *byte)?;
    }
    Ok(())
}

/// Adds the word of a name.
fn push_name_word<A: Allocator + Copy>(text: &mut String<A>, name: &[u8]) -> Result<(), AllocError>
    ensures { Pushes result (string_bytes text.old) (string_bytes text.new) (said_name name.now) }
{
    if name.is_empty() {
        text.push_str("-")
    } else if name == b"-".as_slice() {
        text.push_str("%2d")
    } else {
        push_name_bytes(text, name)
    }
}

/// Adds a name behind a text.
pub(crate) fn push_name<A: Allocator + Copy>(
    text: &mut String<A>,
    before: &str,
    name: &[u8],
) -> Result<(), AllocError>
    ensures { Pushes result (string_bytes text.old) (string_bytes text.new) (before.now ++ said_name name.now) }
{
    text.push_str(before)?;
    push_name_word(text, name)
}

/// Adds a descriptor behind a text.
pub(crate) fn push_fd<A: Allocator + Copy>(
    text: &mut String<A>,
    before: &str,
    fd: i32,
) -> Result<(), AllocError>
    ensures { Pushes result (string_bytes text.old) (string_bytes text.new) (before.now ++ signed_decimal fd) }
{
    push_number(text, before, fd)
}

/// Adds a place to seek to behind a text.
pub(crate) fn push_place<A: Allocator + Copy>(
    text: &mut String<A>,
    before: &str,
    place: i64,
) -> Result<(), AllocError>
    ensures { Pushes result (string_bytes text.old) (string_bytes text.new) (before.now ++ signed_decimal place) }
{
    push_number(text, before, place)
}

/// Adds two descriptors behind a text.
pub(crate) fn push_two_fds<A: Allocator + Copy>(
    text: &mut String<A>,
    before: &str,
    first: i32,
    second: i32,
) -> Result<(), AllocError>
    ensures { Pushes result (string_bytes text.old) (string_bytes text.new) (before.now ++ (signed_decimal first ++ (codes " " ++ signed_decimal second))) }
{
    push_fd(text, before, first)?;
    push_fd(text, " ", second)
}

/// Adds a descriptor and a size behind a text.
pub(crate) fn push_fd_and_size<A: Allocator + Copy>(
    text: &mut String<A>,
    before: &str,
    fd: i32,
    size: u32,
) -> Result<(), AllocError>
    ensures { Pushes result (string_bytes text.old) (string_bytes text.new) (before.now ++ (signed_decimal fd ++ (codes " " ++ decimal size))) }
{
    push_fd(text, before, fd)?;
    push_number(text, " ", size)
}

/// Adds an offset behind a blank, or `-` for none.
fn push_offset<A: Allocator + Copy>(
    text: &mut String<A>,
    offset: Option<u64>,
) -> Result<(), AllocError>
    ensures { Pushes result (string_bytes text.old) (string_bytes text.new) (codes " " ++ said_offset offset) }
{
    match offset {
        None => text.push_str(" -"),
        Some(offset) => push_number(text, " ", offset),
    }
}

/// Adds one side of a splice behind a text: a descriptor, and the offset that is given for it.
pub(crate) fn push_side<A: Allocator + Copy>(
    text: &mut String<A>,
    before: &str,
    fd: i32,
    offset: Option<u64>,
) -> Result<(), AllocError>
    ensures { Pushes result (string_bytes text.old) (string_bytes text.new) (before.now ++ (signed_decimal fd ++ (codes " " ++ said_offset offset))) }
{
    push_fd(text, before, fd)?;
    push_offset(text, offset)
}

/// The word that says where an offset is counted from.
pub(crate) fn whence_text(whence: Whence) -> &'static str
    ensures { result.now ≡ said_whence whence }
{
    match whence {
        Whence::Set => "set",
        Whence::Cur => "cur",
        Whence::End => "end",
    }
}

/// The word that says whether a poll waits.
pub(crate) fn wait_text(wait: bool) -> &'static str
    ensures { result.now ≡ said_wait wait }
{
    if wait { "wait" } else { "now" }
}

/// What a line may name of the flags of an open, in the order of their bits.
const OPEN_NAMES: &[(OpenFlags, &str)] = &[
    (OpenFlags::CREAT, "creat"),
    (OpenFlags::EXCL, "excl"),
    (OpenFlags::TRUNC, "trunc"),
    (OpenFlags::APPEND, "append"),
    (OpenFlags::NONBLOCK, "nonblock"),
];

/// What a line may name of the flags of a splice, in the order of their bits.
const SPLICE_NAMES: &[(SpliceFlags, &str)] = &[
    (SpliceFlags::MOVE, "move"),
    (SpliceFlags::NONBLOCK, "nonblock"),
    (SpliceFlags::MORE, "more"),
    (SpliceFlags::GIFT, "gift"),
];

/// Adds the names of flags of an open behind a blank, or `-` for none.
pub(crate) fn push_open_names<A: Allocator + Copy>(
    text: &mut String<A>,
    flags: OpenFlags,
) -> Result<(), AllocError>
    ensures { Pushes result (string_bytes text.old) (string_bytes text.new) (codes " " ++ names_within flags.0 open_names) }
{
    text.push_str(" ")?;
    push_names(text, flags, OPEN_NAMES)
}

/// Adds the names of flags of a splice behind a blank, or `-` for none.
fn push_splice_names<A: Allocator + Copy>(
    text: &mut String<A>,
    flags: SpliceFlags,
) -> Result<(), AllocError>
    ensures { Pushes result (string_bytes text.old) (string_bytes text.new) (codes " " ++ names_within flags.0 splice_names) }
{
    text.push_str(" ")?;
    push_names(text, flags, SPLICE_NAMES)
}

/// Adds the flags of an open behind a blank, and nothing if there are none.
pub(crate) fn push_open_flags<A: Allocator + Copy>(
    text: &mut String<A>,
    flags: OpenFlags,
) -> Result<(), AllocError>
    ensures { Pushes result (string_bytes text.old) (string_bytes text.new) (behind_blank (said_flags flags.0 open_names)) }
{
    if flags.is_empty() {
        Ok(())
    } else {
        push_open_names(text, flags)
    }
}

/// Adds the flags of a splice behind a blank, and nothing if there are none.
fn push_splice_flags<A: Allocator + Copy>(
    text: &mut String<A>,
    flags: SpliceFlags,
) -> Result<(), AllocError>
    ensures { Pushes result (string_bytes text.old) (string_bytes text.new) (behind_blank (said_flags flags.0 splice_names)) }
{
    if flags.is_empty() {
        Ok(())
    } else {
        push_splice_names(text, flags)
    }
}

/// Adds how many bytes are spliced, and the flags, behind a blank.
pub(crate) fn push_len_and_flags<A: Allocator + Copy>(
    text: &mut String<A>,
    len: u32,
    flags: SpliceFlags,
) -> Result<(), AllocError>
    ensures { Pushes result (string_bytes text.old) (string_bytes text.new) (behind_blank (decimal len ∷ said_flags flags.0 splice_names)) }
{
    push_number(text, " ", len)?;
    push_splice_flags(text, flags)
}

/// Adds what a poll asks of a descriptor, behind a blank.
fn push_entry<A: Allocator + Copy>(
    text: &mut String<A>,
    fd: i32,
    mask: PollMask,
) -> Result<(), AllocError>
    ensures { Pushes result (string_bytes text.old) (string_bytes text.new) (codes " " ++ said_entry (fd, mask)) }
{
    push_fd(text, " ", fd)?;
    text.push_str(":")?;
    push_mask(text, mask)
}

/// Adds all that a poll asks, each entry behind a blank.
pub(crate) fn push_entries<A: Allocator + Copy>(
    text: &mut String<A>,
    entries: &[(i32, PollMask)],
) -> Result<(), AllocError>
    ensures { Pushes result (string_bytes text.old) (string_bytes text.new) (behind_blank (map said_entry entries.now)) }
{
    for entry in entries {
        push_entry(text, entry.0, entry.1)?;
    }
    Ok(())
}
