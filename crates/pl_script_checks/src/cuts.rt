//! A script that is cut behind each of its bytes: it prints what the whole lines do, and then what the front of a line does that is left.
use super::session::Session;
use super::sessions::INTERLEAVING_WITH_A_LARGE_WRITE;
use std::alloc::Allocator;
use std::process::Abort;
use std::test::Fail;

/// A number that is cut is a smaller one, so that a read gives fewer of the bytes `data N*hh`.
fn said_of_read<A: Allocator + Copy>(
    alloc: A,
    number: &str,
    printed: &str,
) -> Result<String<A>, Fail> {
    let (data, byte) = printed.split_once('*').ok_or("no bytes")?;
    let most = data
        .strip_prefix("data ")
        .ok_or("no bytes")?
        .parse::<u32>()?;
    let count = number.parse::<u32>()?.min(most);
    Ok(format!(in alloc; "data {count}*{byte}")?)
}

/// Of a write of `N*hh` that is cut before the `*` each two digits of N are a byte.
fn said_of_write<A: Allocator + Copy>(alloc: A, word: &str) -> Result<Option<String<A>>, Fail> {
    if word.is_empty() || word.len() % 2 != 0 || word.contains('*') {
        return Ok(None);
    }
    let count = word.len() / 2;
    Ok(Some(format!(in alloc; "count {count}")?))
}

/// What the front of a line prints, which isn't all of it; `None` where it is a bad line.
fn said_of_front<A: Allocator + Copy>(
    alloc: A,
    front: &str,
    printed: &str,
) -> Result<Option<String<A>>, Fail> {
    if let Some(number) = front.strip_prefix("1 read 0 ") {
        if number.is_empty() {
            return Ok(None);
        }
        return Ok(Some(said_of_read(alloc, number, printed)?));
    }
    for writes in ["1 write 1 ", "2 write 1 "] {
        if let Some(word) = front.strip_prefix(writes) {
            return said_of_write(alloc, word);
        }
    }
    Ok(None)
}

/// The rows before, and so many bytes of the line of the row behind them.
fn is_cut_printed<A: Allocator + Copy>(
    rt: &impl Abort,
    alloc: A,
    before: &str,
    row: &str,
    len: usize,
) -> Result<(), Fail> {
    let (asked, printed) = row.split_once(" => ").ok_or("a line prints nothing")?;
    let mut session = Session::of(alloc, before)?;
    let front = asked.get(..len).ok_or("a line has fewer bytes")?;
    if front.len() == asked.len() {
        session.push_last(asked, printed)?;
    } else if let Some(said) = said_of_front(alloc, front, printed)? {
        session.push_last(front, said.as_str())?;
    } else if !front.is_empty() {
        session.push_bytes(front)?;
        session.is_bad(rt, row);
        return Ok(());
    }
    session.is_printed(rt, row, 1);
    Ok(())
}

/// How many bytes the line of a row has.
fn len_asked(row: &str) -> usize {
    match row.split_once(" => ") {
        Some((asked, _)) => asked.len(),
        None => 0,
    }
}

/// Each front of the line of the row that stands behind these rows.
fn is_each_cut_printed<A: Allocator + Copy>(
    rt: &impl Abort,
    alloc: A,
    before: &str,
    row: &str,
) -> Result<(), Fail> {
    for len in 0..=len_asked(row) {
        is_cut_printed(rt, alloc, before, row, len)?;
    }
    Ok(())
}

#[test]
fn a_script_that_is_cut(rt: HostRuntime) -> Result<(), Fail> {
    let rows = INTERLEAVING_WITH_A_LARGE_WRITE;
    let mut before = 0;
    for row in rows.lines() {
        let rows_before = rows.get(..before).ok_or("the rows are fewer")?;
        is_each_cut_printed(&rt, rt.alloc(), rows_before, row)?;
        before = before.saturating_add(row.len()).saturating_add(1);
    }
    Ok(())
}
