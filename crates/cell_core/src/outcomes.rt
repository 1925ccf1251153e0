//! What is printed and sent of an effect, and which locks it changes.
ghost use Rattle.std.specs.Prelude.{◌≡◌, ◌++◌, Some, None, IfOk};
ghost use Rattle.cell_core.specs.Outcomes.{leave_lines, locking_lines, locking_replies, left_put, locking_puts, lock_ended, put_listing, applied_lines, own_replies, effect_replies};

use crate::effects::{Effect, Leave, Locking};
use collections::Items;
use lock_core::Turn;
use master_state::{
    Change, LockPut, Master, line_if, locked_line, locked_lines, replies_to, turn_replies,
};
use node_core::{Fault, Line, Listing, Mod};
use std::alloc::{AllocError, Global};
use tags_cell::{CallResult, ClientNumber, MessageNumber, Reply};

/// The replies to those that waited for the lock.
pub fn locking_replies(master: &Master, locking: &Locking) -> Result<Items<Reply>, AllocError>
    ensures { IfOk result (λ replies. replies ≡ locking_replies master.now locking.now) }
{
    match locking {
        Locking::Leaves(leave) => turn_replies(master, &leave.turn),
        Locking::Goes(_, waiters) => {
            let stale = CallResult::Refused(Fault::StaleInstance);
            replies_to(master, &stale, waiters.as_slice())
        }
        _ => Ok(Items::new(master.alloc())),
    }
}

// What is printed of a lock.
fn locking_lines(alloc: Global, client: u64, locking: &Locking) -> Result<Items<Line>, AllocError>
    ensures { IfOk result (λ printed. printed ≡ locking_lines client locking.now) }
{
    match locking {
        Locking::Takes(put, claim) => {
            let mut printed = Items::new(alloc);
            printed.push(locked_line(put.instance, put.lock.generation(), *claim))?;
            Ok(printed)
        }
        Locking::Leaves(leave) => leave_lines(alloc, client, leave),
        _ => Ok(Items::new(alloc)),
    }
}

fn leave_lines(alloc: Global, client: u64, leave: &Leave) -> Result<Items<Line>, AllocError>
    ensures { IfOk result (λ printed. printed ≡ leave_lines client leave.now) }
{
    let mut printed = line_if(alloc, leave.held, Line::Freed(client, leave.instance))?;
    printed.append(locked_lines(alloc, leave.instance, &leave.turn)?)?;
    Ok(printed)
}

/// The replies to a call, the caller's first.
pub fn effect_replies(
    master: &Master,
    client: ClientNumber,
    number: MessageNumber,
    effect: &Effect,
) -> Result<Items<Reply>, AllocError>
    ensures { IfOk result (λ replies. replies ≡ effect_replies master.now client number effect.now) }
{
    let mut replies = own_replies(master, client, number, &effect.answer)?;
    replies.append(locking_replies(master, &effect.locking)?)?;
    Ok(replies)
}

// A call that waits for a lock has no reply yet.
fn own_replies(
    master: &Master,
    client: ClientNumber,
    number: MessageNumber,
    answer: &Option<CallResult>,
) -> Result<Items<Reply>, AllocError>
    ensures { IfOk result (λ replies. replies ≡ own_replies master.now client number answer.now) }
{
    let mut replies = Items::new(master.alloc());
    if let Some(answer) = answer {
        replies.push(master.reply_of(client, number, answer.clone()?))?;
    }
    Ok(replies)
}

/// What is printed of a change or a lock.
pub fn effect_lines(
    master: &Master,
    client: u64,
    number: u64,
    effect: &Effect,
) -> Result<Items<Line>, AllocError>
    ensures { IfOk result (λ printed. printed ≡ applied_lines master.now.nodes client number effect.now.change ++ locking_lines client effect.now.locking) }
{
    let mut printed = applied_lines(master, client, number, &effect.change)?;
    printed.append(locking_lines(master.alloc(), client, &effect.locking)?)?;
    Ok(printed)
}

/// The instance whose lock goes with its node.
pub fn lock_ended(locking: &Locking) -> Option<u64>
    ensures { result ≡ lock_ended locking.now }
{
    match locking {
        Locking::Goes(instance, _) => Some(*instance),
        _ => None,
    }
}

/// The locks that change.
pub fn locking_puts(alloc: Global, locking: Locking) -> Result<Items<LockPut>, AllocError>
    ensures { IfOk result (λ puts. puts ≡ locking_puts locking) }
{
    let mut puts = Items::new(alloc);
    match locking {
        Locking::Nothing => {}
        Locking::Takes(put, _claim) => puts.push(put)?,
        Locking::Waits(put) => puts.push(put)?,
        Locking::Leaves(leave) => puts.push(left_put(leave))?,
        Locking::Goes(_instance, _waiters) => {}
    }
    Ok(puts)
}

fn left_put(leave: Leave) -> LockPut
    ensures { result ≡ left_put leave }
{
    let Leave {
        name,
        instance,
        held: _held,
        turn,
    } = leave;
    let Turn {
        lock,
        granted: _granted,
        exhausted: _exhausted,
    } = turn;
    LockPut {
        name,
        instance,
        lock,
    }
}

// The line of a change of the map, if there is one.
fn applied_lines(
    master: &Master,
    client: u64,
    number: u64,
    change: &Option<Change>,
) -> Result<Items<Line>, AllocError>
    ensures { IfOk result (λ printed. printed ≡ applied_lines master.now.nodes client number change.now) }
{
    let mut printed = Items::new(master.alloc());
    if let Some(applied) = change {
        printed.push(applied_line(master, client, number, &applied.change)?)?;
    }
    Ok(printed)
}

fn applied_line(master: &Master, client: u64, number: u64, change: &Mod) -> Result<Line, AllocError>
    ensures { IfOk result (λ line. line ≡ Line.Applied client number change.now (put_listing master.now.nodes change.now)) }
{
    let listed = put_listing(master, change)?;
    Ok(Line::Applied(client, number, change.clone()?, listed))
}

// What is listed of a directory that is put.
fn put_listing(master: &Master, change: &Mod) -> Result<Listing, AllocError>
    ensures { IfOk result (λ listed. listed ≡ put_listing master.now.nodes change.now) }
{
    match change {
        Mod::Put(name, node) => master.map().listing(name, node.kind),
        Mod::Gone(_) => Ok(Listing::new()),
    }
}
