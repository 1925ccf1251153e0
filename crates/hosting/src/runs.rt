//! What is answered to messages, one after the other.
ghost use Rattle.std.specs.Prelude.{◌≡◌, IfOk, OnErr};
ghost use Rattle.hosting.specs.Runs.{Serves};

use crate::answers::{Answered, answer};
use collections::Items;
use over_core::Cell;
use rows_cell::Records;
use std::alloc::{AllocError, Global};
use tags_cell::Request;

/// A message with the moment at which it comes, in milliseconds.
#[derive(Drop)]
pub struct TimedRequest {
    pub now: u64,
    pub request: Request,
}

/// What is answered to messages that come one after the other. Room for the answers is made first; where there is none,
/// nothing is changed.
pub fn serve<R: Records>(
    alloc: Global,
    cell: &mut Cell<R>,
    asked: &[TimedRequest],
) -> Result<Items<Answered>, AllocError>
    ensures served { IfOk result (λ answers. Serves cell.old asked.now answers cell.new) }
    ensures err { OnErr result (cell.new ≡ cell.old) }
{
    let mut answers = Vec::with_capacity(alloc, asked.len())?;
    for message in asked {
        answers.push_reserved(answer(alloc, cell, message.now, &message.request));
    }
    Ok(Items::from_vec(answers))
}
