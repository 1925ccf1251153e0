//! Tables of rows: what stands in them.
use crate::texts::{push_escaped, push_lines, push_whole};
use crate::troubles::Trouble;
use std::alloc::{AllocError, Global};

/// A part of a row: the word at the head of a line, what stands behind it, and the text of the lines below.
#[derive(Drop)]
pub(crate) struct Part<'a> {
    pub(crate) word: &'a str,
    pub(crate) rest: &'a str,
    pub(crate) text: Vec<u8>,
}

fn new_part<'a>(alloc: Global, line: &'a str) -> Part<'a> {
    let (word, rest) = line.split_once(' ').unwrap_or((line, ""));
    Part {
        word,
        rest,
        text: Vec::new(alloc),
    }
}

// A line of a part's text, behind its four blanks.
fn push_text(alloc: Global, part: &mut Part<'_>, line: &str) -> Result<(), AllocError> {
    match (part.rest, part.word) {
        ("exactly", _) => push_escaped(&mut part.text, line),
        (_, "sql") => push_whole(&mut part.text, line),
        _ => push_lines(alloc, &mut part.text, line),
    }
}

// Whether statements go on with those of the part before: they are one text, for which a store is opened once.
fn ends_in_sql(parts: &[Part<'_>]) -> bool {
    match parts.last() {
        Some(part) => part.word == "sql" && part.rest.is_empty(),
        None => false,
    }
}

fn push_line<'a>(
    alloc: Global,
    parts: &mut Vec<Part<'a>>,
    line: &'a str,
) -> Result<(), AllocError> {
    if line.is_empty() || line.starts_with('#') {
        return Ok(());
    }
    let Some(line) = line.strip_prefix("    ") else {
        if line == "sql" && ends_in_sql(parts) {
            return Ok(());
        }
        return Ok(parts.push(new_part(alloc, line))?);
    };
    match parts.last_mut() {
        Some(part) => push_text(alloc, part, line),
        None => Ok(()),
    }
}

fn push_parts<'a>(
    alloc: Global,
    parts: &mut Vec<Part<'a>>,
    text: &'a str,
) -> Result<(), AllocError> {
    for line in text.split('\n') {
        push_line(alloc, parts, line)?;
    }
    Ok(())
}

fn push_beginnings<'a>(
    alloc: Global,
    parts: &mut Vec<Part<'a>>,
    head: &'a str,
    names: &str,
) -> Result<(), Trouble> {
    for name in names.split(' ') {
        let text = beginning(head, name).ok_or(Trouble::Said("no such beginning"))?;
        push_parts(alloc, parts, text)?;
    }
    Ok(())
}

// What stands below the line `beginning NAME`.
fn beginning<'a>(head: &'a str, name: &str) -> Option<&'a str> {
    for text in head.split("\nbeginning ") {
        if let Some((first, text)) = text.split_once('\n') {
            if first == name {
                return Some(text);
            }
        }
    }
    None
}

/// The parts of a row's text, with those of beginnings in the place of `after NAME NAME`. The head of the table, in front of its
/// rows, has the beginnings.
pub(crate) fn parts_of<'a>(
    alloc: Global,
    head: &'a str,
    text: &'a str,
) -> Result<Vec<Part<'a>>, Trouble> {
    let mut parts = Vec::new(alloc);
    for line in text.split('\n') {
        match line.strip_prefix("after ") {
            Some(names) => push_beginnings(alloc, &mut parts, head, names)?,
            None => push_line(alloc, &mut parts, line)?,
        }
    }
    Ok(parts)
}

/// Whether a row may have such a part.
pub(crate) fn is_known(word: &str) -> bool {
    matches!(
        word,
        "lease"
            | "max_nodes"
            | "max_bytes"
            | "max_locks"
            | "steps"
            | "sql"
            | "edits"
            | "cut"
            | "byte"
            | "instead"
            | "prints"
            | "says"
            | "status"
            | "rows"
            | "found"
            | "inspected"
            | "adopt"
    ) || is_way(word)
}

/// Whether a part says how its row is run.
pub(crate) fn is_way(word: &str) -> bool {
    matches!(
        word,
        "over" | "reads" | "room" | "refuses" | "crashes" | "cuts" | "stops"
    )
}

// Whether a row that is run in this way has to give what such a part says.
fn is_wanted(way: &str, word: &str) -> bool {
    match way {
        "cuts" | "stops" => word == way,
        "traced" | "untraced" => matches!(word, "says" | "status"),
        _ => matches!(
            word,
            "prints" | "says" | "status" | "rows" | "found" | "inspected" | "adopt"
        ),
    }
}

/// What a row that is run in this way has to give.
pub(crate) fn wanted(alloc: Global, way: &str, parts: &[Part<'_>]) -> Result<Vec<u8>, AllocError> {
    let mut wanted = Vec::new(alloc);
    for part in parts {
        if is_wanted(way, part.word) {
            push_wanted(alloc, &mut wanted, part)?;
        }
    }
    Ok(wanted)
}

fn push_wanted(alloc: Global, wanted: &mut Vec<u8>, part: &Part<'_>) -> Result<(), AllocError> {
    match part.word {
        "prints" | "rows" => {}
        word => {
            let line = format!(in alloc; "{word} {}\n", part.rest)?;
            wanted.extend_from_slice(line.as_bytes())?;
        }
    }
    wanted.extend_from_slice(part.text.as_slice())
}

/// The text of all parts of a word.
pub(crate) fn text_under(
    alloc: Global,
    parts: &[Part<'_>],
    word: &str,
) -> Result<Vec<u8>, AllocError> {
    let mut text = Vec::new(alloc);
    for part in parts {
        if part.word == word {
            text.extend_from_slice(part.text.as_slice())?;
        }
    }
    Ok(text)
}
