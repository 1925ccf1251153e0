//! Who is told of a lock, and what is printed of it.
ghost use Rattle.std.specs.Prelude.{◌≡◌, Some, None, map, IfOk};
ghost use Rattle.master_state.specs.Replies.{kept_puts, sent, reply_to, replies_to, turn_replies, locked_line, locked_lines, puts_of, line_if};

use crate::masters::Master;
use crate::updates::{KeptPut, LockPut};
use collections::Items;
use lock_core::{Claim, Lock, Turn};
use master_parts::{Taken, answered_by};
use node_core::{Fault, Line};
use std::alloc::{AllocError, Global};
use tags_cell::{CallResult, ClientNumber, Out, Reply};

/// What is kept, printed and sent.
#[derive(Drop)]
pub struct StepReply {
    pub kept: Items<KeptPut>,
    pub taken: Taken,
}

/// The replies are kept and sent, beside these lines.
pub fn told_by(
    alloc: Global,
    lines: Items<Line>,
    replies: Items<Reply>,
) -> Result<StepReply, AllocError>
    ensures { IfOk result (λ told. told ≡ record { kept = kept_puts replies; taken = record { lines = lines; outs = sent replies } }) }
{
    let outs = sent(alloc, replies.as_slice())?;
    let kept = kept_puts(alloc, replies)?;
    Ok(StepReply {
        kept,
        taken: Taken { lines, outs },
    })
}

// ---- replies

// They are kept.
fn kept_puts(alloc: Global, replies: Items<Reply>) -> Result<Items<KeptPut>, AllocError>
    ensures { IfOk result (λ puts. puts ≡ kept_puts replies) }
{
    let mut puts = Items::new(alloc);
    for reply in replies.into_vec() {
        puts.push(KeptPut {
            client: reply.client,
            kept: answered_by(reply),
        })?;
    }
    Ok(puts)
}

// They are sent.
fn sent(alloc: Global, replies: &[Reply]) -> Result<Items<Out>, AllocError>
    ensures { IfOk result (λ outs. outs ≡ sent replies.now) }
{
    let mut outs = Items::new(alloc);
    for reply in replies {
        outs.push(Out::Reply(reply.clone()?))?;
    }
    Ok(outs)
}

/// To each of these, in order.
pub fn replies_to(
    master: &Master,
    answer: &CallResult,
    claims: &[Claim],
) -> Result<Items<Reply>, AllocError>
    ensures { IfOk result (λ replies. replies ≡ replies_to master.now answer.now claims.now) }
{
    let mut replies = Items::new(master.alloc());
    for claim in claims {
        replies.append(reply_to(master, answer, claim.owner.client)?)?;
    }
    Ok(replies)
}

// The answer to the call of a client that waits for a lock, unless it gave that one up by another call.
fn reply_to(master: &Master, answer: &CallResult, client: u64) -> Result<Items<Reply>, AllocError>
    ensures { IfOk result (λ replies. replies ≡ reply_to master.now answer.now client) }
{
    let mut replies = Items::new(master.alloc());
    let Some(client) = ClientNumber::new(client) else {
        return Ok(replies);
    };
    if master.has_call(client) {
        return Ok(replies);
    }
    let Some(session) = master.sessions().get(client.get()) else {
        return Ok(replies);
    };
    if let Some(kept) = &session.kept {
        replies.push(master.reply_of(client, kept.number, answer.clone()?))?;
    }
    Ok(replies)
}

/// Who got the lock is told so, and who can't get it any more.
pub fn turn_replies(master: &Master, turn: &Turn) -> Result<Items<Reply>, AllocError>
    ensures { IfOk result (λ replies. replies ≡ turn_replies master.now turn.now) }
{
    let exhausted = CallResult::Refused(Fault::Exhausted);
    let mut replies = replies_to(master, &CallResult::Done, turn.granted.as_slice())?;
    replies.append(replies_to(master, &exhausted, turn.exhausted.as_slice())?)?;
    Ok(replies)
}

// ---- lines

/// Who got a lock.
pub fn locked_line(instance: u64, generation: u64, claim: Claim) -> Line
    ensures { result ≡ locked_line instance generation claim }
{
    Line::Locked(claim.owner.client, instance, claim.hold.mode, generation)
}

/// Each that got the lock, in order.
pub fn locked_lines(alloc: Global, instance: u64, turn: &Turn) -> Result<Items<Line>, AllocError>
    ensures { IfOk result (λ printed. printed ≡ locked_lines instance turn.now) }
{
    let generation = turn.lock.generation();
    let mut printed = Items::new(alloc);
    for claim in turn.granted.as_slice() {
        printed.push(locked_line(instance, generation, *claim))?;
    }
    Ok(printed)
}

/// A line where this holds.
pub fn line_if(alloc: Global, holds: bool, line: Line) -> Result<Items<Line>, AllocError>
    ensures { IfOk result (λ printed. printed ≡ line_if holds line) }
{
    let mut printed = Items::new(alloc);
    if holds {
        printed.push(line)?;
    }
    Ok(printed)
}

// ---- what becomes of a lock

/// What becomes of the lock of an instance, where its node is there.
pub fn puts_of(master: &Master, instance: u64, lock: Lock) -> Result<Items<LockPut>, AllocError>
    ensures { IfOk result (λ puts. puts ≡ puts_of master.now instance lock) }
{
    let mut puts = Items::new(master.alloc());
    if let Some(name) = master.tables.nodes().name_of(instance) {
        puts.push(LockPut {
            name: name.clone()?,
            instance,
            lock,
        })?;
    }
    Ok(puts)
}
