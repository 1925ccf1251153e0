//! What becomes of a client's call that has no reply yet, if there is one.
ghost use Rattle.std.specs.Prelude.{◌≡◌, ◌++◌, IfOk};
ghost use Rattle.client_core.specs.Opens.{absent};
ghost use Rattle.client_core.specs.Targets.{opening_of, sequencer_of, dropped, unknown_lines};

use crate::parts::handles::is_plain;
use crate::parts::lines::pushed;
use crate::parts::targets::{Outstanding, Target};
use cache_core::Shared;
use collections::{Bytes, Items};
use names_cell::Name;
use node_core::{Answer, Fault, Line, View};
use std::alloc::AllocError;

/// The sequencer under which the outstanding call was sent.
pub fn sent_sequencer(outstanding: &Option<Outstanding>) -> Result<Option<Bytes>, AllocError>
    ensures { IfOk result (λ sequencer. sequencer ≡ sequencer_of outstanding.now) }
{
    let Some(call) = outstanding else {
        return Ok(None);
    };
    match call.sequencer() {
        Some(sequencer) => Ok(Some(sequencer.clone()?)),
        None => Ok(None),
    }
}

/// The reply that is still to come to a call on the handle will be dropped.
pub fn drop_reply(outstanding: &mut Option<Outstanding>, number: u64)
    ensures { outstanding.new ≡ dropped number outstanding.old }
{
    if let Some(call) = outstanding {
        if call.target.is_on(number) {
            call.target = Target::Dropped;
        }
    }
}

/// That a plain Open found no node.
pub fn absence_taught(
    outstanding: &Option<Outstanding>,
) -> Result<Option<(Name, Option<Shared<View>>)>, AllocError>
    ensures { IfOk result (λ taught. taught ≡ absent (opening_of outstanding.now)) }
{
    let Some(call) = outstanding else {
        return Ok(None);
    };
    match call.opening() {
        Some(opening) if is_plain(opening) => Ok(Some((opening.name.clone()?, None))),
        Some(_) | None => Ok(None),
    }
}

/// These lines, and after them that nobody knows what became of the outstanding call. One whose reply is dropped was told
/// of before.
pub fn with_unknown(
    lines: Items<Line>,
    client: u64,
    outstanding: &Option<Outstanding>,
) -> Result<Items<Line>, AllocError>
    ensures { IfOk result (λ more. more ≡ lines ++ unknown_lines client outstanding.now) }
{
    let Some(call) = outstanding else {
        return Ok(lines);
    };
    if call.target == Target::Dropped {
        return Ok(lines);
    }
    let answer = Answer::Refused(Fault::Unknown);
    let number = call.request.number().get();
    pushed(lines, Line::Done(client, number, answer))
}
