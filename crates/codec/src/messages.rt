//! Whole messages as bytes.
ghost use Rattle.std.specs.Prelude.{◌≡◌, Ok, IfOk};
ghost use Rattle.collections.specs.Results.{Gives};
ghost use Rattle.codec.specs.Forms.{Form, short_of, begin_at, written, read_whole};
ghost use Rattle.codec.specs.Requests.{request};
ghost use Rattle.codec.specs.Outs.{out_message, out_written};
ghost use Rattle.codec.specs.Lines.{line};

use crate::faults::WireFault;
use crate::inputs::Input;
use crate::lines::{put_line_body, read_line_body};
use crate::outputs::put_byte;
use crate::outs::{has_bytes, put_out_body, read_out_body};
use crate::requests::{put_request_body, read_request_body};
use collections::Bytes;
use node_core::Line;
use std::alloc::Global;
use tags_cell::{Out, Request};

/// The version of this format, the first byte of each message. It rises with each change of what stands after it.
pub const VERSION: u8 = 2;

// All bytes of a message are fewer.
const LENGTH_END: usize = 0x1_0000_0000;

/// The bytes of what a client sends. Refused is a message of 2^32 bytes or more.
pub fn write_request(alloc: Global, message: &Request) -> Result<Bytes, WireFault>
    ensures bytes { Gives WireFault.NoMemory result (written request message.now) }
    ensures back { IfOk result (λ bytes. read_whole request bytes ≡ Ok message.now) }
{
    let mut out = Vec::new(alloc);
    put_byte(&mut out, VERSION)?;
    put_request_body(&mut out, message)?;
    whole(out)
}

/// What a client sent, of all of these bytes; or what is wrong with them, the first from the left. It takes memory for
/// what stands there, whatever a count or a length in the bytes says.
pub fn read_request(alloc: Global, bytes: &[u8]) -> Result<Request, WireFault>
    ensures message { Gives WireFault.NoMemory result (read_whole request bytes.now) }
    ensures back { IfOk result (λ message. written request message ≡ Ok bytes.now) }
{
    let mut input = begin(bytes)?;
    let message = read_request_body(alloc, &mut input)?;
    if !input.is_empty() {
        return Err(WireFault::Extra);
    }
    Ok(message)
}

/// The bytes of what a master sends. Refused are a view of a file with children, and a message of 2^32 bytes or more.
pub fn write_out(alloc: Global, message: &Out) -> Result<Bytes, WireFault>
    ensures bytes { Gives WireFault.NoMemory result (out_written message.now) }
    ensures back { IfOk result (λ bytes. read_whole out_message bytes ≡ Ok message.now) }
{
    if !has_bytes(message) {
        return Err(WireFault::BadNumber);
    }
    let mut out = Vec::new(alloc);
    put_byte(&mut out, VERSION)?;
    put_out_body(&mut out, message)?;
    whole(out)
}

/// What a master sent, of all of these bytes; or what is wrong with them, the first from the left. It takes memory for
/// what stands there, whatever a count or a length in the bytes says.
pub fn read_out(alloc: Global, bytes: &[u8]) -> Result<Out, WireFault>
    ensures message { Gives WireFault.NoMemory result (read_whole out_message bytes.now) }
    ensures back { IfOk result (λ message. out_written message ≡ Ok bytes.now) }
{
    let mut fields = begin(bytes)?;
    let message = read_out_body(alloc, &mut fields)?;
    if !fields.is_empty() {
        return Err(WireFault::Extra);
    }
    Ok(message)
}

/// The bytes of a line. Refused is a line of 2^32 bytes or more.
pub fn write_line(alloc: Global, printed: &Line) -> Result<Bytes, WireFault>
    ensures bytes { Gives WireFault.NoMemory result (written line printed.now) }
    ensures back { IfOk result (λ bytes. read_whole line bytes ≡ Ok printed.now) }
{
    let mut out = Vec::new(alloc);
    put_byte(&mut out, VERSION)?;
    put_line_body(&mut out, printed)?;
    whole(out)
}

/// The line of all of these bytes; or what is wrong with them, the first from the left. It takes memory for what stands there,
/// whatever a count or a length in the bytes says.
pub fn read_line(alloc: Global, bytes: &[u8]) -> Result<Line, WireFault>
    ensures line { Gives WireFault.NoMemory result (read_whole line bytes.now) }
    ensures back { IfOk result (λ printed. written line printed ≡ Ok bytes.now) }
{
    let mut input = begin(bytes)?;
    let printed = read_line_body(alloc, &mut input)?;
    if !input.is_empty() {
        return Err(WireFault::Extra);
    }
    Ok(printed)
}

// All bytes of a message, if they aren't too many.
fn whole(out: Vec<u8>) -> Result<Bytes, WireFault>
    ensures { Gives WireFault.NoMemory result (short_of out.items) }
{
    if out.len() >= LENGTH_END {
        return Err(WireFault::TooLong);
    }
    Ok(Bytes::from_vec(out)?)
}

// What stands after the version.
fn begin(bytes: &[u8]) -> Result<Input, WireFault>
    ensures { Gives WireFault.NoMemory result (begin_at bytes.now) }
{
    if bytes.len() >= LENGTH_END {
        return Err(WireFault::TooLong);
    }
    match bytes {
        [] => Err(WireFault::Cut),
        [VERSION, rest @ ..] => Ok(Input::new(rest)),
        [_, ..] => Err(WireFault::BadVersion),
    }
}
