//! What a holder is shown of the last step, as bytes.
ghost use Rattle.std.specs.Prelude.{◌≡◌, ◌++◌, ◌∷◌, [], Ok, OnOk, IfOk};
ghost use Rattle.std.specs.Option.{option_copied, option_map};
ghost use Rattle.collections.specs.Results.{Gives};
ghost use Rattle.client_exports.specs.Shows.{message_bytes, lines_bytes, answer_content, seen_content, line_content, content_in, last_content};

use crate::held::HeldClient;
use codec::{WireFault, write_request};
use collections::Bytes;
use node_core::{Answer, Line, View};
use std::alloc::{AllocError, Global};
use tags_cell::Request;

impl HeldClient {
    /// The bytes of the message that the last step gave to be sent; none where it gave none. Refused is a message of 2^32 bytes
    /// or more.
    pub fn message(&self) -> Result<Bytes, WireFault>
        ensures { Gives WireFault.NoMemory result (message_bytes self.now.request) }
    {
        message_bytes(self.alloc, self.request.as_ref())
    }

    /// The bytes of the outstanding call's message, to be sent again; none where no call is outstanding.
    pub fn again(&self) -> Result<Bytes, WireFault>
        ensures { Gives WireFault.NoMemory result (message_bytes (option_map (λ call. call.request) self.now.client.outstanding)) }
    {
        message_bytes(self.alloc, self.client.get().again())
    }

    /// The lines that the last step printed, each with an LF after it. Refused for want of memory alone.
    pub fn lines(&self) -> Result<Bytes, WireFault>
        ensures { Gives WireFault.NoMemory result (Ok (lines_bytes self.now.lines)) }
    {
        let bytes = lines_bytes(self.alloc, self.lines.as_slice())?;
        Ok(Bytes::from_vec(bytes)?)
    }

    /// The whole content of the view that the last line shows; empty where it shows none. Copies nothing.
    pub fn content(&self) -> &[u8]
        ensures { result.now ≡ last_content self.now.lines }
    {
        match self.lines.as_slice().last() {
            Some(line) => line_content(line),
            None => &[],
        }
    }
}

fn message_bytes(alloc: Global, message: Option<&Request>) -> Result<Bytes, WireFault>
    ensures { Gives WireFault.NoMemory result (message_bytes (option_copied message.entry)) }
{
    match message {
        Some(message) => write_request(alloc, message),
        None => Ok(Bytes::copy_of(alloc, &[])?),
    }
}

fn lines_bytes(alloc: Global, lines: &[Line]) -> Result<Vec<u8>, AllocError>
    ensures { IfOk result (λ bytes. bytes.items ≡ lines_bytes lines.now) }
{
    let mut out = Vec::new(alloc);
    for line in lines {
        put_line(alloc, &mut out, line)?;
    }
    Ok(out)
}

fn put_line(alloc: Global, out: &mut Vec<u8>, line: &Line) -> Result<(), AllocError>
    ensures { OnOk result (out.new.items ≡ out.old.items ++ lines_bytes (line.now ∷ [])) }
{
    let text = format!(in alloc; "{line}\n")?;
    out.extend_from_slice(text.as_str().as_bytes())
}

fn line_content(line: &Line) -> &[u8]
    ensures { result.now ≡ line_content line.now }
{
    match line {
        Line::Served(_, _, seen) => seen_content(seen),
        Line::Done(_, _, answer) => answer_content(answer),
        _ => &[],
    }
}

pub(crate) fn seen_content(seen: &Option<View>) -> &[u8]
    ensures { result.now ≡ seen_content seen.now }
{
    match seen {
        Some(view) => view.node.content.as_slice(),
        None => &[],
    }
}

fn answer_content(answer: &Answer) -> &[u8]
    ensures { result.now ≡ answer_content answer.now }
{
    match answer {
        Answer::Viewed(view) => view.node.content.as_slice(),
        _ => &[],
    }
}
