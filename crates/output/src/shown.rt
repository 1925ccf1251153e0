//! Texts that are written to a stream.
ghost use Rattle.std.specs.Prelude.{◌∷◌, [], ◌++◌, drop, IfSome, IfOk, OnOk, OnErr};
ghost use Rattle.std.specs.Io.KnownBytes.{Appends};
ghost use Rattle.output.specs.Fronts.{AppendsFront, IsPart};

use crate::windows::window_at;
use crate::writes::{Unwritten, write_whole};
use std::fmt::Display;
use std::io::Write;

/// Writes the text of a value and LF behind it, and doesn't flush them. Where they can't be written, a front of them is. It takes no
/// memory: a text of more than 4,096 bytes is formed once more for each 4,096 of them.
pub fn write_line<W: Write, D: Display>(writer: &mut W, value: &D) -> Result<(), Unwritten>
    ensures all { OnOk result (IfSome (D.output value.now) (λ text. Appends (W.contents writer.old) (W.contents writer.new) (text ++ (10 ∷ [])))) }
    ensures front { OnErr result (IfSome (D.output value.now) (λ text. AppendsFront (W.contents writer.old) (W.contents writer.new) (text ++ (10 ∷ [])))) }
{
    write_shown(writer, value)?;
    write_whole(writer, b"\n")
}

fn write_shown<W: Write, D: Display>(writer: &mut W, value: &D) -> Result<(), Unwritten>
    ensures all { OnOk result (IfSome (D.output value.now) (Appends (W.contents writer.old) (W.contents writer.new))) }
    ensures front { OnErr result (IfSome (D.output value.now) (AppendsFront (W.contents writer.old) (W.contents writer.new))) }
{
    let mut at: usize = 0;
    for _turn in 0..u64::MAX {
        let count = write_part(writer, value, at)?;
        if count == 0 {
            return Ok(());
        }
        let Some(next) = at.checked_add(count) else {
            return Err(Unwritten);
        };
        at = next;
    }
    Err(Unwritten)
}

// Writes a part of it, behind so many bytes, and answers how many it wrote: none where none are left.
fn write_part<W: Write, D: Display>(
    writer: &mut W,
    value: &D,
    at: usize,
) -> Result<usize, Unwritten>
    ensures part { IfOk result (λ count. IfSome (D.output value.now) (IsPart (W.contents writer.old) (W.contents writer.new) at count)) }
    ensures front { OnErr result (IfSome (D.output value.now) (λ text. AppendsFront (W.contents writer.old) (W.contents writer.new) (drop at text))) }
{
    let Ok(window) = window_at(value, at) else {
        return Err(Unwritten);
    };
    let bytes = window.bytes();
    write_whole(writer, bytes)?;
    Ok(bytes.len())
}
