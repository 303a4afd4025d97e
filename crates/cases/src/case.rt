//! Cases in the text of a file.

use bstr::ByteSlice;
use plan_types::text::PlSmallStr;
use std::alloc::{AllocError, Global};

/// A case: what it shows, the words and the input of a run, and how that is to end.
#[derive(Drop)]
pub(crate) struct Case<'a> {
    /// The first comment line.
    pub(crate) shows: &'a [u8],
    pub(crate) words: Vec<PlSmallStr>,
    pub(crate) input: &'a [u8],
    pub(crate) status: u8,
    pub(crate) text: &'a [u8],
}

/// What stands at the front of a text.
#[derive(Drop)]
pub(crate) enum Found<'a> {
    /// A case, and the text behind it.
    Case(Case<'a>, &'a [u8]),
    /// Blank lines at most.
    End,
    /// Something else.
    Malformed,
}

/// Reads the case at the front of a text.
pub(crate) fn next_case(alloc: Global, text: &[u8]) -> Result<Found<'_>, AllocError> {
    let text = without_blank_lines(text);
    if text.is_empty() {
        return Ok(Found::End);
    }
    let Some((asked, answered)) = text.split_once_str(b"\n---- ") else {
        return Ok(Found::Malformed);
    };
    let (shows, _asked) = split_line(asked);
    let (line, input) = split_line(without_comments(asked));
    if !shows.starts_with_str(b"#") {
        return Ok(Found::Malformed);
    }
    let Some(words) = words_of(alloc, line)? else {
        return Ok(Found::Malformed);
    };
    let (number, answered) = split_line(answered);
    let Some(status) = number_of(number) else {
        return Ok(Found::Malformed);
    };
    let (text, after) = split_text(answered);
    let case = Case {
        shows,
        words,
        input,
        status,
        text,
    };
    Ok(Found::Case(case, after))
}

// The text behind its blank lines.
fn without_blank_lines(text: &[u8]) -> &[u8] {
    let mut rest = text;
    for _ in 0..text.len() {
        match rest {
            [b'\n', after @ ..] => rest = after,
            _ => break,
        }
    }
    rest
}

// The first line, and what stands behind it.
fn split_line(text: &[u8]) -> (&[u8], &[u8]) {
    match text.split_once_str(b"\n") {
        Some((line, rest)) => (line, rest),
        None => (text, &text[text.len()..]),
    }
}

// The text behind the lines at the front that begin with `#`.
fn without_comments(text: &[u8]) -> &[u8] {
    let mut rest = text;
    for _ in 0..text.len() {
        match rest {
            [b'#', ..] => {
                let (_line, after) = split_line(rest);
                rest = after;
            }
            _ => break,
        }
    }
    rest
}

// The words of a line: behind `$`, each behind one space.
fn words_of(alloc: Global, line: &[u8]) -> Result<Option<Vec<PlSmallStr>>, AllocError> {
    let [b'$', listed @ ..] = line else {
        return Ok(None);
    };
    let mut words = Vec::new(alloc);
    for (number, word) in listed.split_str(b" ").enumerate() {
        let Ok(word) = std::str::from_utf8(word) else {
            return Ok(None);
        };
        if number == 0 {
            if !word.is_empty() {
                return Ok(None);
            }
            continue;
        }
        let Ok(word) = PlSmallStr::new(alloc, word) else {
            return Err(AllocError);
        };
        words.push(word)?;
    }
    Ok(Some(words))
}

fn number_of(line: &[u8]) -> Option<u8> {
    let text = std::str::from_utf8(line).ok()?;
    text.parse::<u8>().ok()
}

// The lines up to a blank one or the end, and what stands behind them.
fn split_text(text: &[u8]) -> (&[u8], &[u8]) {
    if text.starts_with_str(b"\n") {
        return (&text[..0], text);
    }
    match text.find(b"\n\n") {
        Some(end) => text.split_at(end + 1),
        None => (text, &text[text.len()..]),
    }
}
