//! Bytes that are written to a stream.
ghost use Rattle.std.specs.Prelude.{◌≤◌, length, take, IfOk, OnOk, OnErr};
ghost use Rattle.std.specs.Io.KnownBytes.{Appends, Keeps};
ghost use Rattle.output.specs.Fronts.{AppendsFront};

use std::io::{ErrorKind, Write};

/// What was to be written can't be.
#[derive(Clone, Copy, Debug)]
pub struct Unwritten;

/// Writes all of these bytes, and flushes them. Where they can't be written, a front of them is.
pub fn write_bytes<W: Write>(writer: &mut W, bytes: &[u8]) -> Result<(), Unwritten>
    ensures all { OnOk result (Appends (W.contents writer.old) (W.contents writer.new) bytes.now) }
    ensures front { OnErr result (AppendsFront (W.contents writer.old) (W.contents writer.new) bytes.now) }
{
    write_whole(writer, bytes)?;
    match writer.flush() {
        Ok(()) => Ok(()),
        Err(_) => Err(Unwritten),
    }
}

/// Writes all of these bytes, and doesn't flush them. Where they can't be written, a front of them is.
pub(crate) fn write_whole<W: Write>(writer: &mut W, bytes: &[u8]) -> Result<(), Unwritten>
    ensures all { OnOk result (Appends (W.contents writer.old) (W.contents writer.new) bytes.now) }
    ensures front { OnErr result (AppendsFront (W.contents writer.old) (W.contents writer.new) bytes.now) }
{
    let mut at = 0;
    for _turn in 0..u64::MAX {
        if at >= bytes.len() {
            return Ok(());
        }
        match write_some(writer, &bytes[at..]) {
            Ok(count) => at += count,
            Err(stop) => return Err(stop),
        }
    }
    Err(Unwritten)
}

// One write, again where a signal interrupts it. It is refused where it writes nothing.
fn write_some<W: Write>(writer: &mut W, bytes: &[u8]) -> Result<usize, Unwritten>
    ensures bound { IfOk result (λ count. count ≤ length bytes.now) }
    ensures bytes { IfOk result (λ count. Appends (W.contents writer.old) (W.contents writer.new) (take count bytes.now)) }
    ensures none { OnErr result (Keeps (W.contents writer.old) (W.contents writer.new)) }
{
    for _turn in 0..u64::MAX {
        match writer.write(bytes) {
            Ok(0) => return Err(Unwritten),
            Ok(count) => return Ok(count),
            Err(error) => {
                if error.kind() != ErrorKind::Interrupted {
                    return Err(Unwritten);
                }
            }
        }
    }
    Err(Unwritten)
}
