//! What is said of a line that is no step.
use crate::grammar::{Astray, where_astray};
use crate::lines::{KEPT_LENGTH, LineReader};
use crate::texts::BAD_LINE;
use std::alloc::Global;
use std::io::{self, Read, Write};
use std::str;

/// How many bytes of a word are shown.
const SHOWN_LENGTH: usize = 60;

/// The most lines of a script.
const LINE_COUNT_LIMIT: u64 = 1_000_000;

/// Tells why the line that was begun last is no step, after which nothing is done. Where these words can't be written, the status
/// still tells.
pub(crate) fn tell_bad<R: Read + Drop>(
    alloc: Global,
    errors: &mut impl Write,
    number: u64,
    lines: &LineReader<'_, R>,
) {
    match lines.failure() {
        Some(error) => {
            let _ = writeln!(errors, "cellctl: line {number} can't be read: {error}");
        }
        None => tell_read(alloc, errors, number, lines.line()),
    }
    let _ = writeln!(errors, "  status 1: {BAD_LINE}");
}

// Of a line that was read.
fn tell_read(alloc: Global, errors: &mut impl Write, number: u64, line: &[u8]) {
    if line.len() >= KEPT_LENGTH {
        let _ = writeln!(
            errors,
            "cellctl: line {number} is longer than 1048576 bytes"
        );
        return;
    }
    if number > LINE_COUNT_LIMIT {
        let _ = writeln!(
            errors,
            "cellctl: line {number} is one too many: a script has 1000000"
        );
        return;
    }
    tell_astray(alloc, errors, number, line);
}

/// Tells where a line leaves the grammar. Where these words can't be written, or it isn't UTF-8, less is said.
pub(crate) fn tell_astray(alloc: Global, errors: &mut impl Write, number: u64, line: &[u8]) {
    let Ok(text) = str::from_utf8(line) else {
        let _ = writeln!(errors, "cellctl: line {number} isn't UTF-8");
        return;
    };
    if let Some(found) = where_astray(alloc, text) {
        let _ = write_place(errors, number, &found);
        let _ = write_nearest(errors, &found);
    }
}

fn write_place(errors: &mut impl Write, number: u64, found: &Astray<'_>) -> io::Result<()> {
    let column = found.column;
    let wanted = found.wanted;
    match found.word {
        None => writeln!(
            errors,
            "cellctl: line {number}, column {column}: the line ends, where there has to be {wanted}"
        ),
        Some("") => writeln!(
            errors,
            "cellctl: line {number}, column {column}: a space too many, where there has to be {wanted}"
        ),
        Some(word) => {
            let word = shown(word);
            writeln!(
                errors,
                "cellctl: line {number}, column {column}: {word:?} stands where there has to be {wanted}"
            )
        }
    }
}

fn write_nearest(errors: &mut impl Write, found: &Astray<'_>) -> io::Result<()> {
    match found.nearest {
        Some(nearest) => writeln!(errors, "  the nearest word is {nearest}"),
        None => Ok(()),
    }
}

// The beginning of a word.
fn shown(word: &str) -> &str {
    if word.len() <= SHOWN_LENGTH {
        return word;
    }
    word.get(..SHOWN_LENGTH).unwrap_or_default()
}
