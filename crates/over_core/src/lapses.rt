//! What is planned for the locks of a session that ends, and for one that is open again.
ghost use Rattle.std.specs.Prelude.{◌≡◌, [], ◌∷◌, ◌++◌, IfOk};
ghost use Rattle.master_state.specs.Replies.{kept_puts, sent, locked_lines};
ghost use Rattle.master_state.specs.Lapses.{lapses_replies, lapses_puts, parting_lines, lapses_of};
ghost use Rattle.master_state.specs.Lookups.{reply_of};
ghost use Rattle.tags_cell.specs.declared.messages.outs.CallResult.TheVariants as results;
ghost use Rattle.over_core.specs.Plans.{parting_plan, plan_expiry, plan_leave, plan_reopen};
ghost use Rattle.node_core.specs.declared.lines.Line.TheVariants as lines;

use crate::plans::Plan;
use collections::Items;
use lock_core::{Parting, Turn};
use master_state::{
    LockPut, Master, SessionUpdate, StepReply, lapses_puts, lapses_replies, locked_lines,
    parting_lines, puts_of, told_by, turn_replies,
};
use names_cell::Principal;
use node_core::Line;
use std::alloc::AllocError;
use tags_cell::{CallResult, ClientNumber, MessageNumber, Reply};

// What is told of a step, and the locks that change by it.
struct LapseParts {
    told: StepReply,
    locks: Items<LockPut>,
}

// The session is put as ended, and lets its locks go.
pub(crate) fn plan_expiry(master: &Master, client: u64) -> Result<Plan, AllocError>
    ensures { IfOk result (λ plan. plan ≡ plan_expiry master.now client) }
{
    let Some(session) = master.sessions().get(client) else {
        return Ok(Plan::of(master.alloc(), None, master.nothing()));
    };
    let principal = session.principal.clone()?;
    let own = Items::new(master.alloc());
    parting_plan(Parting::Expiry, master, client, principal, own)
}

// The client ends its session, and is answered so.
pub(crate) fn plan_leave(
    master: &Master,
    client: ClientNumber,
    number: MessageNumber,
) -> Result<Plan, AllocError>
    ensures { IfOk result (λ plan. plan ≡ plan_leave master.now client number) }
{
    let Some(session) = master.sessions().get(client.get()) else {
        return Ok(Plan::of(master.alloc(), None, master.nothing()));
    };
    let own = left_reply(master, client, number)?;
    match session.principal.clone() {
        Ok(principal) => parting_plan(Parting::Leave, master, client.get(), principal, own),
        Err(error) => {
            drop(own);
            Err(error)
        }
    }
}

fn left_reply(
    master: &Master,
    client: ClientNumber,
    number: MessageNumber,
) -> Result<Items<Reply>, AllocError>
    ensures { IfOk result (λ own. own ≡ reply_of master.now client number results.Done ∷ []) }
{
    let mut own = Items::new(master.alloc());
    own.push(master.reply_of(client, number, CallResult::Done))?;
    Ok(own)
}

// Each right that ends with the session is printed, then what becomes of its locks, and then its end. Its client is answered
// first, where it has asked for that.
fn parting_plan(
    parting: Parting,
    master: &Master,
    client: u64,
    principal: Principal,
    own: Items<Reply>,
) -> Result<Plan, AllocError>
    ensures { IfOk result (λ plan. plan ≡ parting_plan parting master.now client principal (lapses_of parting master.now client) own) }
{
    match parting_parts(parting, master, client, own) {
        Ok(parts) => {
            let LapseParts { told, locks } = parts;
            let session = Some(SessionUpdate::Ends(client, principal, parting));
            Ok(Plan::telling(session, told, locks))
        }
        Err(error) => {
            drop(principal);
            Err(error)
        }
    }
}

fn parting_parts(
    parting: Parting,
    master: &Master,
    client: u64,
    own: Items<Reply>,
) -> Result<LapseParts, AllocError>
    ensures told { IfOk result (λ parts. parts.told ≡ record {
      kept = kept_puts (own ++ lapses_replies master.now (lapses_of parting master.now client));
      taken = record {
        lines = parting_lines parting master.now client (lapses_of parting master.now client);
        outs = sent (own ++ lapses_replies master.now (lapses_of parting master.now client));
      };
    }) }
    ensures locks { IfOk result (λ parts. parts.locks ≡ lapses_puts master.now (lapses_of parting master.now client)) }
{
    let mut replies = own;
    let ended = master.locks().lapse(parting, client, master.clock())?;
    replies.append(lapses_replies(master, ended.as_slice())?)?;
    let lines = parting_lines(master, parting, client, ended.as_slice())?;
    let locks = lapses_puts(master, ended)?;
    let told = told_by(master.alloc(), lines, replies)?;
    Ok(LapseParts { told, locks })
}

// The lock of an instance is open again.
pub(crate) fn plan_reopen(master: &Master, instance: u64) -> Result<Plan, AllocError>
    ensures { IfOk result (λ plan. plan ≡ plan_reopen master.now instance) }
{
    let turn = master.locks().reopen(instance)?;
    let lines = reopen_lines(master, instance, &turn)?;
    let replies = turn_replies(master, &turn)?;
    let Turn { lock, .. } = turn;
    let locks = puts_of(master, instance, lock)?;
    let told = told_by(master.alloc(), lines, replies)?;
    Ok(Plan::telling(None, told, locks))
}

fn reopen_lines(master: &Master, instance: u64, turn: &Turn) -> Result<Items<Line>, AllocError>
    ensures { IfOk result (λ printed. printed ≡ lines.Reopened instance ∷ locked_lines instance turn.now) }
{
    let mut printed = Items::new(master.alloc());
    printed.push(Line::Reopened(instance))?;
    printed.append(locked_lines(master.alloc(), instance, turn)?)?;
    Ok(printed)
}
