//! What is answered to a message.
ghost use Rattle.hosting.specs.Serving.{Answers};

use crate::settling::{Settled, settle};
use node_core::Fault;
use over_core::{Cell, Taken};
use rows_cell::Records;
use std::alloc::Global;
use tags_cell::Request;

/// What is answered to a message: it is refused, and nothing is changed; or it is taken, and what it begins is done by
/// sweeps.
#[derive(Drop)]
pub enum Answered {
    Refused(Fault),
    Taken(Taken, Settled),
}

/// A message comes at a moment, in milliseconds: one step by it, and sweeps until one is quiet. All that is sent is
/// committed before.
pub fn answer<R: Records>(
    alloc: Global,
    cell: &mut Cell<R>,
    now: u64,
    request: &Request,
) -> Answered
    ensures { Answers now request.now cell.old result cell.new }
{
    match cell.take(now, request) {
        Ok(taken) => Answered::Taken(taken, settle(alloc, cell, now)),
        Err(fault) => Answered::Refused(fault),
    }
}
