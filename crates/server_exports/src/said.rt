//! A master's message, by its parts.
ghost use Rattle.std.specs.Prelude.{◌≡◌, []};
ghost use Rattle.codec.specs.Forms.{Form, read_whole};
ghost use Rattle.codec.specs.Outs.{out_message};
ghost use Rattle.server_exports.specs.Codes.{Tells};
ghost use Rattle.server_exports.specs.Said.{said_parts, said_name, result_fault, brings};

use crate::codes::fault_code;
use codec::read_out;
use std::alloc::Global;
use tags_cell::{Alive, CallResult, Out};

/// A master's message, in plain numbers; what doesn't belong to its kind is 0. In C a struct.
#[repr(C)]
#[derive(Clone, Copy)]
pub struct Said {
    /// 1 a Started, 2 an Alive, 3 a Reply, 4 a Refused.
    pub what: u32,
    /// The number of the refusal; of a Reply 0 where its result is none.
    pub fault: u32,
    pub client: u64,
    pub epoch: u64,
    /// That of the client's message that it answers.
    pub number: u64,
    /// For how long there is a lease, in milliseconds.
    pub span: u64,
    /// 1 where it comes with invalidations or events, which the next Beat acknowledges.
    pub brings: u64,
}

// A message by its parts, of its bytes; or what is wrong with them.
pub(crate) fn tell_said(alloc: Global, message: &[u8], out: &mut Said) -> u32
    ensures { Tells said_parts said_name (read_whole out_message message.now) out.old out.new [] [] result }
{
    match read_out(alloc, message) {
        Ok(message) => {
            *out = said_parts(&message);
            drop(message);
            0
        }
        Err(fault) => fault_code(fault),
    }
}

pub(crate) fn said_parts(message: &Out) -> Said
    ensures { result ≡ said_parts message.now }
{
    match message {
        Out::Started(started) => Said {
            what: 1,
            fault: 0,
            client: started.client.get(),
            epoch: started.epoch,
            number: started.number.get(),
            span: started.span,
            brings: 0,
        },
        Out::Alive(alive) => Said {
            what: 2,
            fault: 0,
            client: alive.client.get(),
            epoch: alive.epoch,
            number: alive.number.get(),
            span: alive.span,
            brings: brings(alive),
        },
        Out::Reply(reply) => Said {
            what: 3,
            fault: result_fault(&reply.result),
            client: reply.client.get(),
            epoch: reply.epoch,
            number: reply.number.get(),
            span: 0,
            brings: 0,
        },
        Out::Refused(refused) => Said {
            what: 4,
            fault: refused.fault.number() as u32,
            client: refused.client.get(),
            epoch: refused.epoch,
            number: refused.number.get(),
            span: 0,
            brings: 0,
        },
    }
}

// The number of the refusal, 0 where it is none.
fn result_fault(given: &CallResult) -> u32
    ensures { result ≡ result_fault given.now }
{
    match given {
        CallResult::Refused(fault) => fault.number() as u32,
        _ => 0,
    }
}

// Whether it comes with invalidations or events.
fn brings(alive: &Alive) -> u64
    ensures { result ≡ brings alive.now }
{
    if alive.invalidations.is_empty() && alive.events.is_empty() {
        return 0;
    }
    1
}
