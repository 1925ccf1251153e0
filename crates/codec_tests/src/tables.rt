//! Tables of rows, as lines of a text.
use crate::stops::Stop;
use std::alloc::{AllocError, Global};
use std::str;

/// A line: its first word, and what stands behind the space.
#[derive(Clone, Copy)]
pub(crate) struct Line<'a> {
    pub(crate) key: &'a str,
    pub(crate) value: &'a str,
}

impl Line<'_> {
    /// The number that stands there; 0 where there is none.
    pub(crate) fn number(self) -> u64 {
        self.value.parse::<u64>().unwrap_or(0)
    }
}

/// What stands behind a line that begins something: a table, a row, or what is done before one.
#[derive(Clone, Copy)]
pub(crate) struct Part<'l, 'a> {
    /// What stands in the line that begins it.
    pub(crate) name: &'a str,
    pub(crate) lines: &'l [Line<'a>],
}

/// The lines of a text that say something.
pub(crate) fn lines_of<'a>(alloc: Global, text: &'a str) -> Result<Vec<Line<'a>>, AllocError> {
    let mut lines = Vec::new(alloc);
    for line in text.split('\n') {
        if !line.is_empty() && !line.starts_with('#') {
            let (key, value) = line.split_once(' ').unwrap_or((line, ""));
            lines.push(Line { key, value })?;
        }
    }
    Ok(lines)
}

// How many lines there are before the next one of this word, or of a table.
fn count_before(lines: &[Line<'_>], word: &str) -> usize {
    let mut count = 0usize;
    let mut is_more = true;
    for line in lines {
        is_more = is_more && line.key != word && line.key != "table";
        if is_more {
            count = count.saturating_add(1);
        }
    }
    count
}

/// The parts that begin with a line of this word. Each ends before the next one, or before the next table.
pub(crate) fn parts<'l, 'a>(
    alloc: Global,
    lines: &'l [Line<'a>],
    word: &str,
) -> Result<Vec<Part<'l, 'a>>, AllocError> {
    let mut parts = Vec::new(alloc);
    for place in 0..lines.len() {
        if let Some([head, rest @ ..]) = lines.get(place..) {
            if head.key == word {
                let count = count_before(rest, word);
                parts.push(Part {
                    name: head.value,
                    lines: rest.get(..count).unwrap_or(rest),
                })?;
            }
        }
    }
    Ok(parts)
}

/// Puts bytes in hexadecimal, in any number of words, behind others. A word `N*BYTES` stands for these bytes N times.
pub(crate) fn put_digits(alloc: Global, bytes: &mut Vec<u8>, digits: &str) -> Result<(), Stop> {
    for word in digits.split(' ') {
        match word.split_once('*') {
            Some((count, some)) => put_times(alloc, bytes, count.parse().unwrap_or(0), some)?,
            None => put_times(alloc, bytes, 1, word)?,
        }
    }
    Ok(())
}

fn put_times(alloc: Global, bytes: &mut Vec<u8>, count: u64, digits: &str) -> Result<(), Stop> {
    let Ok(some) = hex::decode(alloc, digits) else {
        return Err(Stop::Bad("not bytes in hexadecimal"));
    };
    for _ in 0..count {
        bytes.extend_from_slice(some.as_slice())?;
    }
    Ok(())
}

impl<'l, 'a> Part<'l, 'a> {
    /// What stands in its first line of this word; nothing where there is none.
    pub(crate) fn value(self, word: &str) -> &'a str {
        for line in self.lines {
            if line.key == word {
                return line.value;
            }
        }
        ""
    }

    /// The number that stands there; 0 where there is none.
    pub(crate) fn number(self, word: &str) -> u64 {
        self.value(word).parse::<u64>().unwrap_or(0)
    }

    /// All that stands in its lines of this word.
    pub(crate) fn values(self, alloc: Global, word: &str) -> Result<Vec<&'a str>, AllocError> {
        let mut values = Vec::new(alloc);
        for line in self.lines {
            if line.key == word {
                values.push(line.value)?;
            }
        }
        Ok(values)
    }

    /// The same as one text, each behind a semicolon.
    pub(crate) fn joined(self, alloc: Global, word: &str) -> Result<String, AllocError> {
        let mut text = String::new(alloc);
        for line in self.lines {
            if line.key == word {
                text.push_str("; ")?;
                text.push_str(line.value)?;
            }
        }
        Ok(text)
    }

    /// The bytes that stand in its lines of this word, in hexadecimal, in any number of words.
    pub(crate) fn bytes(self, alloc: Global, word: &str) -> Result<Vec<u8>, Stop> {
        let mut bytes = Vec::new(alloc);
        for line in self.lines {
            if line.key == word {
                put_digits(alloc, &mut bytes, line.value)?;
            }
        }
        Ok(bytes)
    }

    /// The text that stands in its lines `text`, with a line feed between two; without any, that of the bytes of its lines
    /// `bytes`; without these, its name.
    pub(crate) fn text(self, alloc: Global) -> Result<String, Stop> {
        let lines = self.values(alloc, "text")?;
        let bytes = self.bytes(alloc, "bytes")?;
        let mut text = String::new(alloc);
        for (place, line) in lines.iter().enumerate() {
            if place > 0 {
                text.push_str("\n")?;
            }
            text.push_str(line)?;
        }
        if lines.is_empty() {
            text.push_str(str::from_utf8(bytes.as_slice()).unwrap_or(""))?;
        }
        if lines.is_empty() && bytes.is_empty() {
            text.push_str(self.name)?;
        }
        Ok(text)
    }

    /// Its own parts.
    pub(crate) fn parts(self, alloc: Global, word: &str) -> Result<Vec<Part<'l, 'a>>, AllocError> {
        parts(alloc, self.lines, word)
    }
}
