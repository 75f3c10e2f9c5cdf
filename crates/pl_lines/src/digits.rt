//! Bytes as digits.
ghost use Rattle.std.specs.Prelude.{◌≡◌, [], ◌∷◌, ◌<◌, ◌≤◌, ◌*◌, length, slice_index, string_bytes};
ghost use Rattle.pl_model.specs.Shown.{hex_text, lower_digits};
ghost use Rattle.pl_lines.specs.Pushed.{Pushes};

use std::alloc::{AllocError, Allocator};

/// The most bytes whose digits are made at once.
const FEW: usize = 64;

/// Adds a byte as two digits, in lower case.
pub(crate) fn push_byte<A: Allocator + Copy>(
    text: &mut String<A>,
    byte: u8,
) -> Result<(), AllocError>
    ensures { Pushes result (string_bytes text.old) (string_bytes text.new) (hex_text (byte ∷ [])) }
{
    let digits = b"0123456789abcdef".as_slice();
    text.push(char::from(digits[usize::from(byte / 16)]))?;
    text.push(char::from(digits[usize::from(byte % 16)]))
}

/// The digit of a value, in lower case. Without a table, as many are made at once of this.
#[inline(always)]
fn digit(value: u8) -> u8
    requires { value < 16 }
    ensures { result ≡ slice_index lower_digits value }
{
    b'0' + value + if value < 10 { 0 } else { b'a' - 10 - b'0' }
}

/// Writes the digits of at most 64 bytes to a list that is twice as long.
#[inline(always)]
fn write_digits(bytes: &[u8], digits: &mut [u8])
    requires few { length bytes.now ≤ 64 }
    requires twice { length digits.old ≡ 2 * length bytes.now }
    ensures { digits.new ≡ hex_text bytes.now }
{
    // Those of all bytes in a row, as so many are made at once.
    let mut high = [0; FEW];
    let mut low = [0; FEW];
    for i in 0..bytes.len() {
        high[i] = digit(bytes[i] / 16);
        low[i] = digit(bytes[i] % 16);
    }
    for i in 0..bytes.len() {
        digits[2 * i] = high[i];
        digits[2 * i + 1] = low[i];
    }
}

/// Adds at most 64 bytes as digits, all at once.
#[inline(always)]
fn push_few<A: Allocator + Copy>(text: &mut String<A>, bytes: &[u8]) -> Result<(), AllocError>
    requires { length bytes.now ≤ 64 }
    ensures { Pushes result (string_bytes text.old) (string_bytes text.new) (hex_text bytes.now) }
{
    let mut digits = [0; 2 * FEW];
    let digits = &mut digits[..2 * bytes.len()];
    write_digits(bytes, digits);
    // Digits are text, so nothing looks through them again.
    text.push_str(unsafe { str::from_utf8_unchecked(digits) })
}

/// Adds the bytes as hexadecimal digits, in lower case. It takes no memory but that of the text.
pub(crate) fn push_digits<A: Allocator + Copy>(
    text: &mut String<A>,
    bytes: &[u8],
) -> Result<(), AllocError>
    ensures { Pushes result (string_bytes text.old) (string_bytes text.new) (hex_text bytes.now) }
{
    text.reserve(2 * bytes.len())?;
    let mut rest = bytes;
    while rest.len() >= FEW {
        let (few, behind) = rest.split_at(FEW);
        push_few(text, few)?;
        rest = behind;
    }
    push_few(text, rest)
}
