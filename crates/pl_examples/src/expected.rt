//! What a script of version 1 is to print. In its file the bytes of a line `data` or `file` may be given as pieces joined by `+`, each an
//! even number of hexadecimal digits, or `N*hh`, N times the byte hh.

use anyhow::{Context, Result};
use pl_model::numbers::MAX_BYTES;
use std::alloc::Global;

/// Whether these are the digits of a byte or more.
fn are_digits(word: &str) -> bool {
    !word.is_empty() && word.len() % 2 == 0 && word.bytes().all(|c| c.is_ascii_hexdigit())
}

/// How many times a piece gives which digits; `None` where it is malformed.
fn parts_of(piece: &str) -> Option<(usize, &str)> {
    let Some((times, byte)) = piece.split_once('*') else {
        return if are_digits(piece) {
            Some((1, piece))
        } else {
            None
        };
    };
    let times = times.parse::<usize>().ok()?;
    if times <= MAX_BYTES && byte.len() == 2 && are_digits(byte) {
        Some((times, byte))
    } else {
        None
    }
}

/// Adds the digits of pieces.
fn push_pieces(text: &mut String, pieces: &str) -> Result<()> {
    for piece in pieces.split('+') {
        let (times, digits) = parts_of(piece).context("a malformed piece")?;
        for _ in 0..times {
            text.push_str(digits)?;
        }
    }
    Ok(())
}

/// Adds a line, without a line feed.
fn push_line(text: &mut String, line: &str) -> Result<()> {
    match line.split_once(' ') {
        Some((word, pieces)) if (word == "data" || word == "file") && pieces != "-" => {
            text.push_str(word)?;
            text.push_str(" ")?;
            push_pieces(text, pieces)
        }
        _ => Ok(text.push_str(line)?),
    }
}

/// The text with the digits of all bytes written out.
///
/// # Errors
///
/// Where a piece is malformed, or there is no memory.
pub fn expanded(alloc: Global, text: &str) -> Result<String> {
    let mut all = String::new(alloc);
    for line in text.split_inclusive('\n') {
        match line.strip_suffix('\n') {
            Some(content) => {
                push_line(&mut all, content)?;
                all.push_str("\n")?;
            }
            None => push_line(&mut all, line)?,
        }
    }
    Ok(all)
}
