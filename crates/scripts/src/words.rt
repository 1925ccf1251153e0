//! The words of a step.
ghost use Rattle.std.specs.Prelude.{◌≡◌, ◌≢◌, ℕ, ◌^◌, ◌<◌, IfSome, IfNone, decimal, false};
ghost use Rattle.tags_cell.specs.Masks.{is_no_events};
ghost use Rattle.tags_cell.specs.Modes.{Rights};
ghost use Rattle.tags_cell.specs.declared.masks.Events.{Events};
ghost use Rattle.scripts.specs.Words.{letters_of, HasRight, event_letters, IsWritten, IsFilled, IsContent, FindsBytes};

use collections::Bytes;
use hex::FromHexError;
use std::alloc::{AllocError, Global};
use tags_cell::{Events, Mode};

/// The most bytes of a content that is written as a byte and how often it stands.
const FILL_LIMIT: u64 = 300_000;

/// A number: decimal, without leading zeros, at most 2^64-1.
pub fn number(word: &str) -> Option<u64>
    ensures some { IfSome result (λ n. decimal n ≡ word.now) }
    ensures none { IfNone result ((n : ℕ) → n < 2 ^ 64 → decimal n ≢ word.now) }
{
    // `parse` takes these too.
    if word.starts_with('+') {
        return None;
    }
    if word.starts_with('0') && word != "0" {
        return None;
    }
    word.parse::<u64>().ok()
}

/// A mode: some of the letters `rwc` in this order, at least one.
pub fn mode(word: &str) -> Option<Mode>
    ensures some { IfSome result (λ mode. (letters_of mode ≡ word.now) × HasRight mode) }
    ensures none { IfNone result ((rights : Rights) → HasRight rights → letters_of rights ≢ word.now) }
{
    match word {
        "r" => Mode::new(true, false, false),
        "w" => Mode::new(false, true, false),
        "c" => Mode::new(false, false, true),
        "rw" => Mode::new(true, true, false),
        "rc" => Mode::new(true, false, true),
        "wc" => Mode::new(false, true, true),
        "rwc" => Mode::new(true, true, true),
        _ => None,
    }
}

/// Events: some of the letters `mdlx` in this order, at least one.
pub fn events(word: &str) -> Option<Events>
    ensures some { IfSome result (λ events. (event_letters events ≡ word.now) × (is_no_events events ≡ false)) }
    ensures none { IfNone result ((events : Events) → is_no_events events ≡ false → event_letters events ≢ word.now) }
{
    match word {
        "m" => Some(chosen(true, false, false, false)),
        "d" => Some(chosen(false, true, false, false)),
        "md" => Some(chosen(true, true, false, false)),
        "l" => Some(chosen(false, false, true, false)),
        "ml" => Some(chosen(true, false, true, false)),
        "dl" => Some(chosen(false, true, true, false)),
        "mdl" => Some(chosen(true, true, true, false)),
        "x" => Some(chosen(false, false, false, true)),
        "mx" => Some(chosen(true, false, false, true)),
        "dx" => Some(chosen(false, true, false, true)),
        "mdx" => Some(chosen(true, true, false, true)),
        "lx" => Some(chosen(false, false, true, true)),
        "mlx" => Some(chosen(true, false, true, true)),
        "dlx" => Some(chosen(false, true, true, true)),
        "mdlx" => Some(chosen(true, true, true, true)),
        _ => None,
    }
}

fn chosen(contents: bool, children: bool, lock: bool, conflict: bool) -> Events
    ensures { result ≡ record { contents = contents; children = children; lock = lock; conflict = conflict } }
{
    Events {
        contents,
        children,
        lock,
        conflict,
    }
}

/// A content: `-` for an empty one, `fill:` with a count, a colon and a byte for so many times this byte, else bytes,
/// at least one. A byte is two lower case hexadecimal digits.
pub fn content(alloc: Global, word: &str) -> Result<Option<Bytes>, AllocError>
    ensures { FindsBytes (IsContent word.now) result }
{
    if word == "-" {
        return Ok(Some(Bytes::copy_of(alloc, b"")?));
    }
    match word.strip_prefix("fill:") {
        Some(rest) => filled(alloc, rest),
        None => written(alloc, word),
    }
}

// A count, a colon and a byte.
fn filled(alloc: Global, word: &str) -> Result<Option<Bytes>, AllocError>
    ensures { FindsBytes (IsFilled word.now) result }
{
    let Some((digits, byte)) = word.split_once(':') else {
        return Ok(None);
    };
    let Some(count) = number(digits) else {
        return Ok(None);
    };
    if count > FILL_LIMIT {
        return Ok(None);
    }
    let Some(byte) = written(alloc, byte)? else {
        return Ok(None);
    };
    let byte = byte.as_slice();
    if byte.len() != 1 {
        return Ok(None);
    }
    let bytes = vec![in alloc; byte[0]; count as usize]?;
    Ok(Some(Bytes::from_vec(bytes)?))
}

// Bytes, at least one. `decode` takes upper case digits too, so the text of the bytes has to be the word again.
pub(crate) fn written(alloc: Global, word: &str) -> Result<Option<Bytes>, AllocError>
    ensures { FindsBytes (IsWritten word.now) result }
{
    let bytes = match hex::decode(alloc, word) {
        Ok(bytes) => bytes,
        Err(fault) => match fault {
            FromHexError::OutOfMemory => return Err(AllocError),
            _ => return Ok(None),
        },
    };
    if bytes.is_empty() {
        return Ok(None);
    }
    let text = hex::encode(alloc, bytes.as_slice())?;
    if text.as_str() != word {
        return Ok(None);
    }
    Ok(Some(Bytes::from_vec(bytes)?))
}
