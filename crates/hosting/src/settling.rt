//! Sweeps until one is quiet, and Beats where the store refuses.
ghost use Rattle.std.specs.Prelude.{◌≡◌, []};
ghost use Rattle.hosting.specs.Serving.{EndsIn, EndsBeats, is_shut, BeatsBehind, Settles};

use collections::Items;
use node_core::Fault;
use over_core::{Cell, Swept};
use rows_cell::Records;
use std::alloc::Global;

/// The most sweeps of one frame, and the most answers to Beats where the store refuses. What is left to do then is done by the frames after
/// it: so a frame takes no longer than these, also where thousands of Beats are due at once.
pub const SWEEP_LIMIT: u64 = 64;

/// How sweeps, or answers to Beats, came to an end.
#[derive(Clone, Copy)]
pub enum End {
    /// The last one found nothing to do.
    Quiet,
    /// The next one was refused.
    Refused(Fault),
    /// There were `SWEEP_LIMIT` of them.
    Unfinished,
}

/// What sweeps, or answers to Beats, printed and sent, one after the other, and how they came to an end.
#[derive(Drop)]
pub struct Round {
    pub sweeps: Items<Swept>,
    pub end: End,
}

/// What sweeps did, all of which is committed; and the answers to Beats after a sweep that the store refused.
#[derive(Drop)]
pub struct Settled {
    pub round: Round,
    pub beats: Round,
}

/// Sweeps at a moment, in milliseconds, until one is quiet or is refused, `SWEEP_LIMIT` at most. What was committed before a refusal is told. Where
/// the store refused what a sweep was to commit, that stays to be done, and the Beats that are due are answered all the same:
/// so sessions live while nothing can be committed.
pub fn settle<R: Records>(alloc: Global, cell: &mut Cell<R>, now: u64) -> Settled
    ensures { Settles now cell.old result cell.new }
{
    let round = sweep_on(alloc, cell, now);
    let beats = beats_behind(alloc, cell, now, round.end);
    Settled { round, beats }
}

fn sweep_on<R: Records>(alloc: Global, cell: &mut Cell<R>, now: u64) -> Round
    ensures { EndsIn now cell.old result.sweeps result.end cell.new }
{
    let mut sweeps = Vec::new(alloc);
    for _done in 0..SWEEP_LIMIT {
        match cell.sweep_with_room(now, &mut sweeps) {
            Ok(swept) => {
                let quiet = swept.quiet;
                sweeps.push_reserved(swept);
                if quiet {
                    return ended_in(sweeps, End::Quiet);
                }
            }
            Err(fault) => return ended_in(sweeps, End::Refused(fault)),
        }
    }
    ended_in(sweeps, End::Unfinished)
}

// Where the store refused, the Beats that are due are answered.
fn beats_behind<R: Records>(alloc: Global, cell: &mut Cell<R>, now: u64, end: End) -> Round
    ensures { BeatsBehind now (is_shut end) cell.old result cell.new }
{
    if is_shut(end) {
        answer_beats(alloc, cell, now)
    } else {
        no_beats(alloc)
    }
}

fn is_shut(end: End) -> bool
    ensures { result ≡ is_shut end }
{
    matches!(end, End::Refused(Fault::StoreRefused))
}

fn answer_beats<R: Records>(alloc: Global, cell: &mut Cell<R>, now: u64) -> Round
    ensures { EndsBeats now cell.old result.sweeps result.end cell.new }
{
    let mut beats = Vec::new(alloc);
    for _done in 0..SWEEP_LIMIT {
        match cell.beats_with_room(now, &mut beats) {
            Ok(swept) => {
                let quiet = swept.quiet;
                beats.push_reserved(swept);
                if quiet {
                    return ended_in(beats, End::Quiet);
                }
            }
            Err(fault) => return ended_in(beats, End::Refused(fault)),
        }
    }
    ended_in(beats, End::Unfinished)
}

pub(crate) fn no_beats(alloc: Global) -> Round
    ensures { result ≡ record { sweeps = []; end = End.Quiet } }
{
    Round {
        sweeps: Items::new(alloc),
        end: End::Quiet,
    }
}

pub(crate) fn ended_in(sweeps: Vec<Swept>, end: End) -> Round
    ensures { result ≡ record { sweeps = sweeps.items; end = end } }
{
    Round {
        sweeps: Items::from_vec(sweeps),
        end,
    }
}
