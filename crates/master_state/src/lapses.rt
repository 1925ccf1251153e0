//! What becomes of the locks of a session that ends.
ghost use Rattle.std.specs.Prelude.{◌≡◌, ◌++◌, map, not, IfOk};
ghost use Rattle.node_core.specs.declared.lines.Line.TheVariants as lines;
ghost use Rattle.lock_core.specs.Turns.{is_nobody};
ghost use Rattle.master_state.specs.Replies.{line_if, locked_lines};
ghost use Rattle.master_state.specs.Lapses.{lapse_lines, lapses_lines, lapses_replies, lapses_puts, parting_lines};
ghost use Rattle.master_state.specs.Partings.{right_line};

use crate::masters::Master;
use crate::partings::{ending_by, lock_line, right_line};
use crate::replies::{line_if, locked_lines, puts_of, turn_replies};
use crate::updates::LockPut;
use collections::Items;
use lock_core::{Lapse, Parting, Turn};
use node_core::Line;
use std::alloc::{AllocError, Global};
use tags_cell::Reply;

/// What is printed of a session that ends.
pub fn parting_lines(
    master: &Master,
    parting: Parting,
    client: u64,
    ended: &[Lapse],
) -> Result<Items<Line>, AllocError>
    ensures { IfOk result (λ printed. printed ≡ parting_lines parting master.now client ended.now) }
{
    let rights = master.rights().ending(client, ending_by(parting))?;
    let mut printed = rights_lines(master.alloc(), parting, rights.as_slice())?;
    printed.append(lapses_lines(master.alloc(), parting, client, ended)?)?;
    printed.push(Line::Ended(client))?;
    Ok(printed)
}

// The rights of these numbers have ended with it.
fn rights_lines(alloc: Global, parting: Parting, numbers: &[u64]) -> Result<Items<Line>, AllocError>
    ensures { IfOk result (λ printed. printed ≡ map (right_line parting) numbers.now) }
{
    let mut printed = Items::new(alloc);
    for number in numbers {
        printed.push(right_line(parting, *number))?;
    }
    Ok(printed)
}

fn lapses_lines(
    alloc: Global,
    parting: Parting,
    client: u64,
    ended: &[Lapse],
) -> Result<Items<Line>, AllocError>
    ensures { IfOk result (λ printed. printed ≡ lapses_lines parting client ended.now) }
{
    let mut printed = Items::new(alloc);
    for lapse in ended {
        printed.append(lapse_lines(alloc, parting, client, lapse)?)?;
    }
    Ok(printed)
}

// What the session held, a lock that is open again at once, and who got it.
fn lapse_lines(
    alloc: Global,
    parting: Parting,
    client: u64,
    lapse: &Lapse,
) -> Result<Items<Line>, AllocError>
    ensures { IfOk result (λ printed. printed ≡ lapse_lines parting client lapse.now) }
{
    lines_behind(alloc, lock_line(parting, client, lapse.instance), lapse)
}

// The same, with the line of what it held.
fn lines_behind(alloc: Global, held: Line, lapse: &Lapse) -> Result<Items<Line>, AllocError>
    ensures { IfOk result (λ printed. printed ≡ line_if (not (is_nobody lapse.now.ended)) held ++ line_if lapse.now.reopens (lines.Reopened lapse.now.instance) ++ locked_lines lapse.now.instance lapse.now.turn) }
{
    let holds = !lapse.ended.as_slice().is_empty();
    let mut printed = line_if(alloc, holds, held)?;
    printed.append(line_if(alloc, lapse.reopens, Line::Reopened(lapse.instance))?)?;
    printed.append(locked_lines(alloc, lapse.instance, &lapse.turn)?)?;
    Ok(printed)
}

/// The session's own waiters aren't told.
pub fn lapses_replies(master: &Master, ended: &[Lapse]) -> Result<Items<Reply>, AllocError>
    ensures { IfOk result (λ replies. replies ≡ lapses_replies master.now ended.now) }
{
    let mut replies = Items::new(master.alloc());
    for lapse in ended {
        replies.append(turn_replies(master, &lapse.turn)?)?;
    }
    Ok(replies)
}

pub fn lapses_puts(master: &Master, ended: Items<Lapse>) -> Result<Items<LockPut>, AllocError>
    ensures { IfOk result (λ puts. puts ≡ lapses_puts master.now ended) }
{
    let mut puts = Items::new(master.alloc());
    for lapse in ended.into_vec() {
        let Lapse { instance, turn, .. } = lapse;
        let Turn { lock, .. } = turn;
        puts.append(puts_of(master, instance, lock)?)?;
    }
    Ok(puts)
}
