//! What is answered to a message, and to the time, where changes are held back.
ghost use Rattle.std.specs.Prelude.{◌≡◌, false};
ghost use Rattle.hosting.specs.Held.{ground, seen};
ghost use Rattle.hosting.specs.Parted.{PartsAnswer, PartsSweeps};
ghost use Rattle.hosting.specs.Serving.{Answers, EndsIn, is_shut, Settles};

use crate::answers::Answered;
use crate::holds::Group;
use crate::settling::{End, Round, SWEEP_LIMIT, Settled, ended_in, no_beats};
use rows_cell::Records;
use std::alloc::Global;
use tags_cell::Request;

/// A message comes at a moment, as `answer` does it.
pub(crate) fn answer_held<R: Records>(
    alloc: Global,
    group: &mut Group<R>,
    now: u64,
    request: &Request,
) -> Answered
    ensures answers { Answers now request.now (seen group.old) result (seen group.new) }
    ensures store { ground group.new ≡ ground group.old }
    ensures parted { PartsAnswer now request.now group.old group.new }
{
    match group.take(now, request) {
        Ok(taken) => Answered::Taken(taken, settle_held(alloc, group, now)),
        Err(fault) => Answered::Refused(fault),
    }
}

/// Sweeps at a moment, as `settle` does it.
pub(crate) fn settle_held<R: Records>(alloc: Global, group: &mut Group<R>, now: u64) -> Settled
    ensures settles { Settles now (seen group.old) result (seen group.new) }
    ensures store { ground group.new ≡ ground group.old }
    ensures parted { PartsSweeps now group.old group.new }
{
    let round = sweep_on(alloc, group, now);
    Settled {
        round,
        beats: no_beats(alloc),
    }
}

// No store is asked, so none refuses.
fn sweep_on<R: Records>(alloc: Global, group: &mut Group<R>, now: u64) -> Round
    ensures ends { EndsIn now (seen group.old) result.sweeps result.end (seen group.new) }
    ensures open { is_shut result.end ≡ false }
    ensures store { ground group.new ≡ ground group.old }
    ensures parted { PartsSweeps now group.old group.new }
{
    let mut sweeps = Vec::new(alloc);
    for _done in 0..SWEEP_LIMIT {
        match group.sweep_with_room(now, &mut sweeps) {
            Ok(swept) => {
                let quiet = swept.quiet;
                sweeps.push_reserved(swept);
                if quiet {
                    return ended_in(sweeps, End::Quiet);
                }
            }
            Err(fault) => return ended_in(sweeps, End::Refused(fault)),
        }
    }
    group.note_more();
    ended_in(sweeps, End::Unfinished)
}
