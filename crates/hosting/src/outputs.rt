//! The bytes of what is told.
ghost use Rattle.std.specs.Prelude.{◌∷◌, ◌++◌, [], map, OnOk, IfOk};
ghost use Rattle.hosting.specs.Replies.{line_told, out_told, refusal_told, bad_told, mark_told, step_told, sweeps_told, end_told, round_told, settled_told, answered_told, recovery_told, delay_told, delays_told, standing_told, reply_told, all_told, AreBlocks, Puts};

use crate::answers::Answered;
use crate::seats::FrameReply;
use crate::settling::{End, Round, Settled};
use crate::standing::{Delay, MasterCounts, MasterStanding, Recovery};
use crate::stops::StreamStop;
use crate::tellings::{
    MasterFrame, write_awaited, write_bad, write_counts, write_end, write_line, write_message,
    write_recovers, write_touches, write_waits,
};
use codec::WireFault;
use names_cell::Name;
use node_core::{Fault, Line};
use over_core::Swept;
use std::alloc::Global;
use tags_cell::Out;

/// The bytes of all that is told of a frame, and of the mark after it with the next deadline, in milliseconds.
pub fn write_reply(
    alloc: Global,
    reply: &FrameReply,
    deadline: Option<u64>,
) -> Result<Vec<u8>, StreamStop>
    ensures { IfOk result (λ bytes. AreBlocks (all_told reply.now deadline) bytes.items) }
{
    let mut out = Vec::new(alloc);
    put_reply(alloc, &mut out, reply)?;
    put_mark(alloc, &mut out, deadline)?;
    Ok(out)
}

fn put_mark(alloc: Global, out: &mut Vec<u8>, deadline: Option<u64>) -> Result<(), StreamStop>
    ensures { OnOk result (Puts (mark_told deadline) out.old.items out.new.items) }
{
    let block = write_end(alloc, deadline)?;
    Ok(out.extend_from_slice(block.as_slice())?)
}

fn put_reply(alloc: Global, out: &mut Vec<u8>, reply: &FrameReply) -> Result<(), StreamStop>
    ensures { OnOk result (Puts (reply_told reply.now) out.old.items out.new.items) }
{
    match reply {
        FrameReply::Bad(fault) => put_bad(alloc, out, *fault),
        FrameReply::Refused(fault) => put_refusal(alloc, out, *fault),
        FrameReply::Came(epoch, settled) => put_arrival(alloc, out, *epoch, settled),
        FrameReply::Answered(answered) => put_answered(alloc, out, answered),
        FrameReply::Swept(settled) => put_settled(alloc, out, settled),
        FrameReply::Gone => put_own_line(alloc, out, Line::Down),
        FrameReply::Stands(standing) => put_standing(alloc, out, standing),
    }
}

fn put_bad(alloc: Global, out: &mut Vec<u8>, fault: WireFault) -> Result<(), StreamStop>
    ensures { OnOk result (Puts (bad_told fault) out.old.items out.new.items) }
{
    let block = write_bad(alloc, fault)?;
    Ok(out.extend_from_slice(block.as_slice())?)
}

fn put_refusal(alloc: Global, out: &mut Vec<u8>, fault: Fault) -> Result<(), StreamStop>
    ensures { OnOk result (Puts (refusal_told fault) out.old.items out.new.items) }
{
    put_own_line(alloc, out, Line::Refused(fault))
}

fn put_own_line(alloc: Global, out: &mut Vec<u8>, line: Line) -> Result<(), StreamStop>
    ensures { OnOk result (Puts (line_told line ∷ []) out.old.items out.new.items) }
{
    let put = put_line(alloc, out, &line);
    drop(line);
    put
}

// A master came up, and swept.
fn put_arrival(
    alloc: Global,
    out: &mut Vec<u8>,
    epoch: u64,
    settled: &Settled,
) -> Result<(), StreamStop>
    ensures { OnOk result (Puts (line_told (Line.Up epoch) ∷ settled_told settled.now) out.old.items out.new.items) }
{
    put_own_line(alloc, out, Line::Up(epoch))?;
    put_settled(alloc, out, settled)
}

fn put_answered(alloc: Global, out: &mut Vec<u8>, answered: &Answered) -> Result<(), StreamStop>
    ensures { OnOk result (Puts (answered_told answered.now) out.old.items out.new.items) }
{
    match answered {
        Answered::Refused(fault) => put_refusal(alloc, out, *fault),
        Answered::Taken(taken, settled) => {
            put_step(alloc, out, taken.lines.as_slice(), taken.outs.as_slice())?;
            put_settled(alloc, out, settled)
        }
    }
}

fn put_settled(alloc: Global, out: &mut Vec<u8>, settled: &Settled) -> Result<(), StreamStop>
    ensures { OnOk result (Puts (settled_told settled.now) out.old.items out.new.items) }
{
    put_round(alloc, out, &settled.round)?;
    put_round(alloc, out, &settled.beats)
}

fn put_round(alloc: Global, out: &mut Vec<u8>, round: &Round) -> Result<(), StreamStop>
    ensures { OnOk result (Puts (round_told round.now) out.old.items out.new.items) }
{
    put_sweeps(alloc, out, round.sweeps.as_slice())?;
    put_end(alloc, out, round.end)
}

fn put_end(alloc: Global, out: &mut Vec<u8>, end: End) -> Result<(), StreamStop>
    ensures { OnOk result (Puts (end_told end) out.old.items out.new.items) }
{
    match end {
        End::Quiet | End::Unfinished => Ok(()),
        End::Refused(fault) => put_refusal(alloc, out, fault),
    }
}

fn put_sweeps(alloc: Global, out: &mut Vec<u8>, sweeps: &[Swept]) -> Result<(), StreamStop>
    ensures { OnOk result (Puts (sweeps_told sweeps.now) out.old.items out.new.items) }
{
    for swept in sweeps {
        put_step(alloc, out, swept.lines.as_slice(), swept.outs.as_slice())?;
    }
    Ok(())
}

// The lines of a step, and then its messages.
fn put_step(
    alloc: Global,
    out: &mut Vec<u8>,
    lines: &[Line],
    outs: &[Out],
) -> Result<(), StreamStop>
    ensures { OnOk result (Puts (step_told lines.now outs.now) out.old.items out.new.items) }
{
    put_lines(alloc, out, lines)?;
    put_outs(alloc, out, outs)
}

fn put_lines(alloc: Global, out: &mut Vec<u8>, lines: &[Line]) -> Result<(), StreamStop>
    ensures { OnOk result (Puts (map line_told lines.now) out.old.items out.new.items) }
{
    for line in lines {
        put_line(alloc, out, line)?;
    }
    Ok(())
}

fn put_outs(alloc: Global, out: &mut Vec<u8>, outs: &[Out]) -> Result<(), StreamStop>
    ensures { OnOk result (Puts (map out_told outs.now) out.old.items out.new.items) }
{
    for message in outs {
        put_out(alloc, out, message)?;
    }
    Ok(())
}

fn put_line(alloc: Global, out: &mut Vec<u8>, line: &Line) -> Result<(), StreamStop>
    ensures { OnOk result (Puts (line_told line.now ∷ []) out.old.items out.new.items) }
{
    let block = write_line(alloc, line)?;
    Ok(out.extend_from_slice(block.as_slice())?)
}

fn put_out(alloc: Global, out: &mut Vec<u8>, message: &Out) -> Result<(), StreamStop>
    ensures { OnOk result (Puts (out_told message.now ∷ []) out.old.items out.new.items) }
{
    let block = write_message(alloc, message)?;
    Ok(out.extend_from_slice(block.as_slice())?)
}

fn put_standing(
    alloc: Global,
    out: &mut Vec<u8>,
    standing: &MasterStanding,
) -> Result<(), StreamStop>
    ensures { OnOk result (Puts (standing_told standing.now) out.old.items out.new.items) }
{
    put_counts(alloc, out, standing.counts)?;
    put_recovery(alloc, out, &standing.recovery)?;
    put_delays(alloc, out, standing.longest.as_slice())
}

fn put_counts(alloc: Global, out: &mut Vec<u8>, counts: MasterCounts) -> Result<(), StreamStop>
    ensures { OnOk result (Puts (MasterFrame.Counts counts ∷ []) out.old.items out.new.items) }
{
    let block = write_counts(alloc, counts)?;
    Ok(out.extend_from_slice(block.as_slice())?)
}

fn put_recovery(
    alloc: Global,
    out: &mut Vec<u8>,
    recovery: &Option<Recovery>,
) -> Result<(), StreamStop>
    ensures { OnOk result (Puts (recovery_told recovery.now) out.old.items out.new.items) }
{
    match recovery {
        None => Ok(()),
        Some(recovery) => {
            put_until(alloc, out, recovery.until)?;
            put_awaited(alloc, out, recovery.awaited.as_slice())
        }
    }
}

fn put_until(alloc: Global, out: &mut Vec<u8>, until: u64) -> Result<(), StreamStop>
    ensures { OnOk result (Puts (MasterFrame.Recovers until ∷ []) out.old.items out.new.items) }
{
    let block = write_recovers(alloc, until)?;
    Ok(out.extend_from_slice(block.as_slice())?)
}

fn put_delays(alloc: Global, out: &mut Vec<u8>, delays: &[Delay]) -> Result<(), StreamStop>
    ensures { OnOk result (Puts (delays_told delays.now) out.old.items out.new.items) }
{
    for delay in delays {
        put_delay(alloc, out, delay)?;
    }
    Ok(())
}

fn put_delay(alloc: Global, out: &mut Vec<u8>, delay: &Delay) -> Result<(), StreamStop>
    ensures { OnOk result (Puts (delay_told delay.now) out.old.items out.new.items) }
{
    put_number(alloc, out, delay.number)?;
    put_names(alloc, out, delay.touched.as_slice())?;
    put_awaited(alloc, out, delay.awaited.as_slice())
}

fn put_number(alloc: Global, out: &mut Vec<u8>, number: u64) -> Result<(), StreamStop>
    ensures { OnOk result (Puts (MasterFrame.Waits number ∷ []) out.old.items out.new.items) }
{
    let block = write_waits(alloc, number)?;
    Ok(out.extend_from_slice(block.as_slice())?)
}

fn put_names(alloc: Global, out: &mut Vec<u8>, names: &[Name]) -> Result<(), StreamStop>
    ensures { OnOk result (Puts (map MasterFrame.Touches names.now) out.old.items out.new.items) }
{
    for name in names {
        put_name(alloc, out, name)?;
    }
    Ok(())
}

fn put_name(alloc: Global, out: &mut Vec<u8>, name: &Name) -> Result<(), StreamStop>
    ensures { OnOk result (Puts (MasterFrame.Touches name.now ∷ []) out.old.items out.new.items) }
{
    let block = write_touches(alloc, name.as_str().as_bytes())?;
    Ok(out.extend_from_slice(block.as_slice())?)
}

fn put_awaited(alloc: Global, out: &mut Vec<u8>, clients: &[u64]) -> Result<(), StreamStop>
    ensures { OnOk result (Puts (map MasterFrame.Awaited clients.now) out.old.items out.new.items) }
{
    for client in clients {
        put_client(alloc, out, *client)?;
    }
    Ok(())
}

fn put_client(alloc: Global, out: &mut Vec<u8>, client: u64) -> Result<(), StreamStop>
    ensures { OnOk result (Puts (MasterFrame.Awaited client ∷ []) out.old.items out.new.items) }
{
    let block = write_awaited(alloc, client)?;
    Ok(out.extend_from_slice(block.as_slice())?)
}
