//! A line that expects a text, compared with what was answered.
ghost use Rattle.std.specs.Prelude.{◌≡◌, ◌<◌, ◌≤◌, ◌++◌, OnOk, OnErr, option_map};
ghost use Rattle.pl_lines.specs.Pushed.{Pushes};
ghost use Rattle.pl_model.specs.Numbers.{most_script_bytes};
ghost use Rattle.pl_script.specs.Checked.{expected, difference_text};
ghost use Rattle.pl_script.specs.Comparing.{Tallies, text_of};

use itoa::Buffer;
use pl_words::without_return;
use std::alloc::{AllocError, Allocator};

/// What a check of a record counted.
#[derive(Clone, Copy, Debug, PartialEq, Eq)]
pub struct Checked {
    /// The lines that expect a text.
    pub compared: u32,
    /// Those of them at which another text was answered.
    pub different: u32,
}

/// The text that a line expects: that of a comment `# => TEXT`, without a carriage return at its end.
pub(crate) fn expected(line: &[u8]) -> Option<&[u8]>
    ensures { option_map (λ text. text.now) result ≡ expected line.now }
{
    match line.strip_prefix(b"# => ") {
        Some(text) => Some(without_return(text)),
        None => None,
    }
}

/// Adds two pieces.
fn push_two<A: Allocator + Copy>(
    out: &mut Vec<u8, A>,
    first: &[u8],
    second: &[u8],
) -> Result<(), AllocError>
    ensures { Pushes result out.old.items out.new.items (first.now ++ second.now) }
{
    out.extend_from_slice(first)?;
    out.extend_from_slice(second)?;
    Ok(())
}

/// Adds the lines of a difference, or a front of them where there is no memory for them.
fn push_front_of_difference<A: Allocator + Copy>(
    out: &mut Vec<u8, A>,
    number: u32,
    expects: &[u8],
    answered: &[u8],
) -> Result<(), AllocError>
    ensures { Pushes result out.old.items out.new.items
        (difference_text (record { number = number; expects = expects.now; answered = answered.now })) }
{
    push_two(out, b"line ", Buffer::new().format(number).as_bytes())?;
    push_two(out, b"\nexpected ", expects)?;
    push_two(out, b"\nanswered ", answered)?;
    out.extend_from_slice(b"\n")?;
    Ok(())
}

/// Adds the lines of a difference. Where there is no memory for them, the output is as it was.
fn push_difference<A: Allocator + Copy>(
    out: &mut Vec<u8, A>,
    number: u32,
    expects: &[u8],
    answered: &[u8],
) -> Result<(), AllocError>
    ensures done { OnOk result (out.new.items ≡ out.old.items ++
        difference_text (record { number = number; expects = expects.now; answered = answered.now })) }
    ensures undone { OnErr result (out.new.items ≡ out.old.items) }
{
    let len = out.len();
    let pushed = push_front_of_difference(out, number, expects, answered);
    if pushed.is_err() {
        out.truncate(len);
    }
    pushed
}

/// The text of a line that was printed: all before its line feed; none where nothing was printed.
pub(crate) fn text_of(printed: &[u8]) -> &[u8]
    ensures { result.now ≡ text_of printed.now }
{
    printed.split_at(printed.len().saturating_sub(1)).0
}

/// Compares the text that the line of this number expects with the text that was answered. It counts what it compares, and adds the
/// lines of a difference if all are told, or if it is the first. Where there is no memory for them, nothing changed.
pub(crate) fn compare<A: Allocator + Copy>(
    all: bool,
    number: u32,
    expects: &[u8],
    answered: &[u8],
    out: &mut Vec<u8, A>,
    checked: &mut Checked,
) -> Result<(), AllocError>
    requires few { checked.old.compared < most_script_bytes }
    requires fewer { checked.old.different ≤ checked.old.compared }
    ensures done { OnOk result (Tallies all (record { number = number; expects = expects.now; answered = answered.now })
        out.old.items out.new.items checked.old checked.new) }
    ensures undone { OnErr result ((out.new.items ≡ out.old.items) × (checked.new ≡ checked.old)) }
{
    if expects == answered {
        checked.compared += 1;
        return Ok(());
    }
    if all || checked.different == 0 {
        push_difference(out, number, expects, answered)?;
    }
    checked.compared += 1;
    checked.different += 1;
    Ok(())
}
