//! What a master sends.
ghost use Rattle.std.specs.Prelude.{◌≡◌, true, OnOk};
ghost use Rattle.codec.specs.Forms.{Reads, Appends, Form};
ghost use Rattle.codec.specs.Outs.{started, reply, refused, out_message, out_behind, has_view, has_bytes};

use crate::beats::{put_alive, read_alive};
use crate::faults::WireFault;
use crate::inputs::Input;
use crate::kinds::{OUT_KINDS, OutKind};
use crate::numbers::{
    put_client, put_message, put_optional_word, read_client, read_message, read_optional_word,
};
use crate::outputs::{put_byte, put_word};
use crate::refusals::{put_fault, read_fault};
use crate::results::{has_view, put_result, read_result};
use std::alloc::{AllocError, Global};
use tags_cell::{Out, Refused, Reply, Started};

#[tactic(auto, unfolding(crate::specs::Outs::started))]
fn read_started(input: &mut Input) -> Result<Started, WireFault>
    ensures { Reads (λ x. x) result input.new (started.read input.old) }
{
    Ok(Started {
        client: read_client(input)?,
        epoch: input.word()?,
        number: read_message(input)?,
        span: input.word()?,
    })
}

#[tactic(auto, unfolding(crate::specs::Outs::started))]
fn put_started(out: &mut Vec<u8>, message: &Started) -> Result<(), AllocError>
    ensures { OnOk result (Appends started message.now out.old.items out.new.items) }
{
    put_client(out, message.client)?;
    put_word(out, message.epoch)?;
    put_message(out, message.number)?;
    put_word(out, message.span)
}

#[tactic(auto, unfolding(crate::specs::Outs::reply))]
fn read_reply(alloc: Global, input: &mut Input) -> Result<Reply, WireFault>
    ensures { Reads (λ x. x) result input.new (reply.read input.old) }
{
    Ok(Reply {
        client: read_client(input)?,
        epoch: input.word()?,
        number: read_message(input)?,
        stamp: read_optional_word(input)?,
        result: read_result(alloc, input)?,
    })
}

#[tactic(auto, unfolding(crate::specs::Outs::reply))]
fn put_reply(out: &mut Vec<u8>, message: &Reply) -> Result<(), AllocError>
    requires { has_view message.now.result ≡ true }
    ensures { OnOk result (Appends reply message.now out.old.items out.new.items) }
{
    put_client(out, message.client)?;
    put_word(out, message.epoch)?;
    put_message(out, message.number)?;
    put_optional_word(out, message.stamp)?;
    put_result(out, &message.result)
}

#[tactic(auto, unfolding(crate::specs::Outs::refused))]
fn read_refused(input: &mut Input) -> Result<Refused, WireFault>
    ensures { Reads (λ x. x) result input.new (refused.read input.old) }
{
    Ok(Refused {
        client: read_client(input)?,
        epoch: input.word()?,
        number: read_message(input)?,
        fault: read_fault(input)?,
    })
}

#[tactic(auto, unfolding(crate::specs::Outs::refused))]
fn put_refused(out: &mut Vec<u8>, message: &Refused) -> Result<(), AllocError>
    ensures { OnOk result (Appends refused message.now out.old.items out.new.items) }
{
    put_client(out, message.client)?;
    put_word(out, message.epoch)?;
    put_message(out, message.number)?;
    put_fault(out, &message.fault)
}

#[tactic(auto, unfolding(crate::specs::Outs::out_message))]
pub(crate) fn read_out_body(alloc: Global, input: &mut Input) -> Result<Out, WireFault>
    ensures { Reads (λ x. x) result input.new (out_message.read input.old) }
{
    let kind = input.choice(&OUT_KINDS)?;
    read_out_of(alloc, input, kind)
}

fn read_out_of(alloc: Global, input: &mut Input, kind: OutKind) -> Result<Out, WireFault>
    ensures { Reads (λ x. x) result input.new (out_behind kind input.old) }
{
    Ok(match kind {
        OutKind::Started => Out::Started(read_started(input)?),
        OutKind::Alive => Out::Alive(read_alive(alloc, input)?),
        OutKind::Reply => Out::Reply(read_reply(alloc, input)?),
        OutKind::Refused => Out::Refused(read_refused(input)?),
    })
}

// Whether it has bytes.
pub(crate) fn has_bytes(message: &Out) -> bool
    ensures { result ≡ has_bytes message.now }
{
    match message {
        Out::Reply(reply) => has_view(&reply.result),
        _ => true,
    }
}

#[tactic(auto, unfolding(crate::specs::Outs::out_message))]
pub(crate) fn put_out_body(out: &mut Vec<u8>, message: &Out) -> Result<(), AllocError>
    requires { has_bytes message.now ≡ true }
    ensures { OnOk result (Appends out_message message.now out.old.items out.new.items) }
{
    match message {
        Out::Started(started) => {
            put_byte(out, 0)?;
            put_started(out, started)
        }
        Out::Alive(alive) => {
            put_byte(out, 1)?;
            put_alive(out, alive)
        }
        Out::Reply(reply) => {
            put_byte(out, 2)?;
            put_reply(out, reply)
        }
        Out::Refused(refused) => {
            put_byte(out, 3)?;
            put_refused(out, refused)
        }
    }
}
