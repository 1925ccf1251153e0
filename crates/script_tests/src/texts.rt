//! The texts of tables.
use scripts::number;
use std::alloc::{AllocError, Global};

// A part of a line behind a brace: `N}` is a number that counts up from N, and `}` an end of a line.
fn push_counted(alloc: Global, text: &mut Vec<u8>, part: &str, at: u64) -> Result<(), AllocError> {
    let Some((from, rest)) = part.split_once('}') else {
        return text.extend_from_slice(part.as_bytes());
    };
    match number(from) {
        Some(from) => {
            let count = from.saturating_add(at);
            text.extend_from_slice(format!(in alloc; "{count}")?.as_bytes())?;
        }
        None => text.push(b'\n')?,
    }
    text.extend_from_slice(rest.as_bytes())
}

fn push_line(alloc: Global, text: &mut Vec<u8>, line: &str, at: u64) -> Result<(), AllocError> {
    for part in line.split('{') {
        push_counted(alloc, text, part, at)?;
    }
    Ok(text.push(b'\n')?)
}

// How often a line stands there, and the line: `N times LINE` is that line so often.
fn times(line: &str) -> (u64, &str) {
    match line.split_once(" times ") {
        Some((count, rest)) => match number(count) {
            Some(count) => (count, rest),
            None => (1, line),
        },
        None => (1, line),
    }
}

fn push_times(alloc: Global, text: &mut Vec<u8>, line: &str) -> Result<(), AllocError> {
    let (count, line) = times(line);
    for at in 0..count {
        push_line(alloc, text, line, at)?;
    }
    Ok(())
}

/// Lines, with `; ` between them. In a line that stands there many times `{M}` counts up from M, and `{}` is an end of a line.
pub(crate) fn push_lines(alloc: Global, text: &mut Vec<u8>, lines: &str) -> Result<(), AllocError> {
    for line in lines.split("; ") {
        push_times(alloc, text, line)?;
    }
    Ok(())
}

fn digit(word: &str) -> Option<u8> {
    u8::from_str_radix(word, 16).ok()
}

// What stands behind a backslash: `n` is an end of a line, and `xHH` a byte.
fn push_escape(text: &mut Vec<u8>, part: &str) -> Result<(), AllocError> {
    let (byte, rest) = match part.strip_prefix('x') {
        Some(rest) => {
            let word = rest.get(..2).unwrap_or("");
            (digit(word).unwrap_or(b'?'), rest.get(2..).unwrap_or(""))
        }
        None => (b'\n', part.strip_prefix('n').unwrap_or("?")),
    };
    text.push(byte)?;
    text.extend_from_slice(rest.as_bytes())
}

fn push_exact(text: &mut Vec<u8>, line: &str) -> Result<(), AllocError> {
    let mut is_escaped = false;
    for part in line.split('\\') {
        if is_escaped {
            push_escape(text, part)?;
        } else {
            text.extend_from_slice(part.as_bytes())?;
        }
        is_escaped = true;
    }
    Ok(())
}

/// A line as it is.
pub(crate) fn push_whole(text: &mut Vec<u8>, line: &str) -> Result<(), AllocError> {
    text.extend_from_slice(line.as_bytes())?;
    Ok(text.push(b'\n')?)
}

/// The bytes of a line, with none between it and the next: `\n` is an end of a line, `\xHH` a byte, `N times LINE` the bytes of that
/// line so often.
pub(crate) fn push_escaped(text: &mut Vec<u8>, line: &str) -> Result<(), AllocError> {
    let (count, line) = times(line);
    for _ in 0..count {
        push_exact(text, line)?;
    }
    Ok(())
}

/// Where two texts differ first: the number of the line, counted from 1, and both lines; none where they are the same.
pub(crate) fn difference<'a>(
    wanted: &'a [u8],
    given: &'a [u8],
) -> Option<(u64, &'a [u8], &'a [u8])> {
    let mut number = 1u64;
    let mut wanted = wanted;
    let mut given = given;
    for _ in 0..u64::MAX {
        if wanted == given {
            return None;
        }
        let (left, left_rest) = cut(wanted);
        let (right, right_rest) = cut(given);
        if left != right {
            return Some((number, left, right));
        }
        wanted = left_rest;
        given = right_rest;
        number = number.saturating_add(1);
    }
    None
}

// A text's first line, with its end, and the rest.
fn cut(text: &[u8]) -> (&[u8], &[u8]) {
    for (place, byte) in text.iter().enumerate() {
        if *byte == b'\n' {
            let end = place.saturating_add(1);
            return (
                text.get(..end).unwrap_or(text),
                text.get(end..).unwrap_or(&[]),
            );
        }
    }
    (text, &[])
}

/// The first number among words.
pub(crate) fn first_number(words: &str) -> Option<u64> {
    for word in words.split(' ') {
        if let Some(number) = number(word) {
            return Some(number);
        }
    }
    None
}
