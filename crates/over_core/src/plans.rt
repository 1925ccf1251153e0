//! What is planned for an action.
ghost use Rattle.std.specs.Prelude.{◌≡◌, [], ◌∷◌, Some, None, map, IfOk};
ghost use Rattle.node_core.specs.declared.lines.Line.TheVariants as lines;
ghost use Rattle.over_core.specs.declared.actions.Action.TheVariants as actions;
ghost use Rattle.master_state.specs.NameSpace.{name_space};
ghost use Rattle.cell_core.specs.Effect.{gone_by_itself};
ghost use Rattle.over_core.specs.Plans.{no_update, started_out, alive_out, plan_session, plan_start, plan_effect, plan_call, plan_live, plan_asked, plan_work, plan_tidied, plan_task, invalidation_of, plan_answer, plan_of};
ghost use Rattle.cell_core.specs.Outcomes.{lock_ended, locking_puts};

use crate::actions::Action;
use crate::lapses::{plan_expiry, plan_leave, plan_reopen};
use cell_core::{
    Effect, MemoryMaster, contested_by, effect_lines, effect_of, effect_replies, gone_by_itself,
    lock_ended, locking_puts, locking_replies,
};
use collections::{Bytes, Items, Table};
use master_parts::{Orphan, Taken, Task, WaitingRequest, Work, is_leave};
use master_state::{LockPut, Master, SessionUpdate, StepReply, Update, told_by};
use names_cell::{Name, Principal};
use node_core::{Fault, Line};
use session_core::Offer;
use std::alloc::{AllocError, Global};
use tags_cell::{Alive, Call, ClientNumber, Invalidation, MessageNumber, Out, Started};

/// What is done for an action. It is made before anything changes.
#[derive(Drop)]
pub struct Plan {
    pub update: Update,
    /// What is printed and sent once the update is done.
    pub taken: Taken,
    /// The instance of a held lock that the call asks for.
    pub contested: Option<u64>,
}

impl Plan {
    // What is told, and the locks that change.
    pub(crate) fn telling(
        session: Option<SessionUpdate>,
        told: StepReply,
        locks: Items<LockPut>,
    ) -> Plan
        ensures { result ≡ record { update = record no_update { session = session; kept = told.kept; locks = locks }; taken = told.taken; contested = None } }
    {
        let StepReply { kept, taken } = told;
        Plan {
            update: Update {
                session,
                retires: None,
                kept,
                note: None,
                change: None,
                locks,
                ends_lock: None,
                recovers: false,
                leaves: None,
            },
            taken,
            contested: None,
        }
    }

    // What becomes of a session, if anything.
    pub(crate) fn of(alloc: Global, session: Option<SessionUpdate>, taken: Taken) -> Plan
        ensures { result ≡ record { update = record no_update { session = session }; taken = taken; contested = None } }
    {
        Plan {
            update: Update {
                session,
                retires: None,
                kept: Items::new(alloc),
                note: None,
                change: None,
                locks: Items::new(alloc),
                ends_lock: None,
                recovers: false,
                leaves: None,
            },
            taken,
            contested: None,
        }
    }
}

/// What is done for an action, as the master stands now.
pub fn plan_of(cell: &MemoryMaster, action: &Action) -> Result<Plan, AllocError>
    ensures { IfOk result (λ plan. plan ≡ plan_of cell.now action.now) }
{
    let master = cell.master();
    match action {
        Action::Recover => plan_recovery(master),
        Action::Expire(client) => plan_expiry(master, *client),
        Action::Apply(number) => plan_apply(cell, *number),
        Action::Reopen(instance) => plan_reopen(master, *instance),
        Action::Answer(client) => plan_answer(master, *client),
        Action::Tidy(_) | Action::Quiet => Ok(Plan::of(master.alloc(), None, master.nothing())),
    }
}

fn plan_recovery(master: &Master) -> Result<Plan, AllocError>
    ensures { IfOk result (λ plan. plan ≡ plan_of master.now actions.Recover) }
{
    let taken = printed(master, Line::Recovered)?;
    let mut plan = Plan::of(master.alloc(), None, taken);
    plan.update.recovers = true;
    Ok(plan)
}

// What is done for the change of a number, which then leaves the gate.
fn plan_apply(cell: &MemoryMaster, number: u64) -> Result<Plan, AllocError>
    ensures { IfOk result (λ plan. plan ≡ plan_of cell.now (actions.Apply number)) }
{
    let master = cell.master();
    let Some(task) = master.task(number) else {
        return Ok(Plan::of(master.alloc(), None, master.nothing()));
    };
    let mut plan = plan_task(cell, task)?;
    plan.update.leaves = Some(number);
    Ok(plan)
}

// What a client asked for, or what the cell does by itself.
fn plan_task(cell: &MemoryMaster, task: &Task) -> Result<Plan, AllocError>
    ensures { IfOk result (λ plan. plan ≡ plan_task cell.now task.now) }
{
    match task {
        Task::Asked(asked) => plan_work(cell.master(), asked),
        Task::Tidies(idle) => plan_tidied(cell, idle),
    }
}

fn plan_work(master: &Master, asked: &WaitingRequest) -> Result<Plan, AllocError>
    ensures { IfOk result (λ plan. plan ≡ plan_work master.now asked.now.client asked.now.number asked.now.work) }
{
    let client = asked.client;
    let number = asked.number;
    match &asked.work {
        Work::Starts(principal, received) => {
            plan_start(master, client, number, principal, *received)
        }
        Work::Calls(call, sequencer) => plan_call(master, client, number, call, sequencer),
    }
}

// ---- ephemeral nodes

// An ephemeral node goes, unless somebody holds it open again.
fn plan_tidied(cell: &MemoryMaster, idle: &Orphan) -> Result<Plan, AllocError>
    ensures { IfOk result (λ plan. plan ≡ plan_tidied cell.now idle.now) }
{
    let master = cell.master();
    if !cell.is_still_idle(idle)? {
        return Ok(Plan::of(master.alloc(), None, master.nothing()));
    }
    plan_gone(master, idle)
}

fn plan_gone(master: &Master, idle: &Orphan) -> Result<Plan, AllocError>
    ensures { IfOk result (λ plan. plan ≡ plan_effect master.now 0 0 (gone_by_itself (name_space master.now) idle.now)) }
{
    let effect = gone_by_itself(master, idle)?;
    match unasked_told(master, &effect) {
        Ok(told) => effect_plan(master.alloc(), effect, told),
        Err(error) => {
            drop(effect);
            Err(error)
        }
    }
}

// What is kept, printed and sent where nobody asked: no client has the number 0.
fn unasked_told(master: &Master, effect: &Effect) -> Result<StepReply, AllocError>
    requires { effect.now.answer ≡ None }
    ensures kept { IfOk result (λ told. told.kept ≡ (plan_effect master.now 0 0 effect.now).update.kept) }
    ensures taken { IfOk result (λ told. told.taken ≡ (plan_effect master.now 0 0 effect.now).taken) }
{
    let lines = effect_lines(master, 0, 0, effect)?;
    let replies = locking_replies(master, &effect.locking)?;
    told_by(master.alloc(), lines, replies)
}

// ---- Starts

fn plan_start(
    master: &Master,
    client: ClientNumber,
    number: MessageNumber,
    principal: &Principal,
    received: u64,
) -> Result<Plan, AllocError>
    ensures { IfOk result (λ plan. plan ≡ plan_start master.now client number principal.now received) }
{
    if master.may_start(client, principal) {
        return plan_session(master, client, number, principal, received);
    }
    let taken = master.turned_away(client, number, Fault::NoSession)?;
    Ok(Plan::of(master.alloc(), None, taken))
}

fn plan_session(
    master: &Master,
    client: ClientNumber,
    number: MessageNumber,
    principal: &Principal,
    received: u64,
) -> Result<Plan, AllocError>
    ensures { IfOk result (λ plan. plan ≡ plan_session master.now client number principal.now received) }
{
    if master.is_live(client) {
        let taken = started_out(master, client, number, received)?;
        return Ok(Plan::of(master.alloc(), Some(SessionUpdate::Prolongs(client)), taken));
    }
    let taken = started(master, client, number, received)?;
    let principal = principal.clone()?;
    let mut plan = Plan::of(
        master.alloc(),
        Some(SessionUpdate::Begins(client, principal)),
        taken,
    );
    plan.update.retires = master.retiring();
    Ok(plan)
}

// The client's new session is printed too.
fn started(
    master: &Master,
    client: ClientNumber,
    number: MessageNumber,
    received: u64,
) -> Result<Taken, AllocError>
    ensures { IfOk result (λ taken. taken ≡ record { lines = lines.Started client ∷ []; outs = started_out master.now client number received ∷ [] }) }
{
    let mut taken = started_out(master, client, number, received)?;
    taken.lines.push(Line::Started(client.get()))?;
    Ok(taken)
}

fn started_out(
    master: &Master,
    client: ClientNumber,
    number: MessageNumber,
    received: u64,
) -> Result<Taken, AllocError>
    ensures { IfOk result (λ taken. taken ≡ record { lines = []; outs = started_out master.now client number received ∷ [] }) }
{
    let span = master.sessions().start_span(received, master.clock());
    master.sent(Out::Started(Started {
        client,
        epoch: master.epoch(),
        number,
        span,
    }))
}

// ---- calls

// A call of a session that has ended changes nothing, and sends nothing.
fn plan_call(
    master: &Master,
    client: ClientNumber,
    number: MessageNumber,
    call: &Call,
    sequencer: &Option<Bytes>,
) -> Result<Plan, AllocError>
    ensures { IfOk result (λ plan. plan ≡ plan_call master.now client number call.now sequencer.now) }
{
    if !master.is_live(client) {
        return Ok(Plan::of(master.alloc(), None, master.nothing()));
    }
    plan_live(master, client, number, call, sequencer)
}

// The client ends its session, or its call is done.
fn plan_live(
    master: &Master,
    client: ClientNumber,
    number: MessageNumber,
    call: &Call,
    sequencer: &Option<Bytes>,
) -> Result<Plan, AllocError>
    ensures { IfOk result (λ plan. plan ≡ plan_live master.now client number call.now sequencer.now) }
{
    if is_leave(call) {
        return plan_leave(master, client, number);
    }
    let effect = effect_of(master, client, number, call, sequencer)?;
    plan_asked(master, client, number, call, effect)
}

// Who holds a lock that the call asks for is told of that.
fn plan_asked(
    master: &Master,
    client: ClientNumber,
    number: MessageNumber,
    call: &Call,
    effect: Effect,
) -> Result<Plan, AllocError>
    ensures { IfOk result (λ plan. plan ≡ plan_asked master.now client number call.now effect) }
{
    match contested_by(master, client, call, &effect) {
        Ok(contested) => contesting(master, client, number, effect, contested),
        Err(error) => {
            drop(effect);
            Err(error)
        }
    }
}

fn contesting(
    master: &Master,
    client: ClientNumber,
    number: MessageNumber,
    effect: Effect,
    contested: Option<u64>,
) -> Result<Plan, AllocError>
    ensures { IfOk result (λ plan. plan ≡ record (plan_effect master.now client number effect) { contested = contested }) }
{
    let mut plan = plan_effect(master, client, number, effect)?;
    plan.contested = contested;
    Ok(plan)
}

fn plan_effect(
    master: &Master,
    client: ClientNumber,
    number: MessageNumber,
    effect: Effect,
) -> Result<Plan, AllocError>
    ensures { IfOk result (λ plan. plan ≡ plan_effect master.now client number effect) }
{
    match effect_told(master, client, number, &effect) {
        Ok(told) => effect_plan(master.alloc(), effect, told),
        Err(error) => {
            drop(effect);
            Err(error)
        }
    }
}

// What is kept, printed and sent of a call.
fn effect_told(
    master: &Master,
    client: ClientNumber,
    number: MessageNumber,
    effect: &Effect,
) -> Result<StepReply, AllocError>
    ensures kept { IfOk result (λ told. told.kept ≡ (plan_effect master.now client number effect.now).update.kept) }
    ensures taken { IfOk result (λ told. told.taken ≡ (plan_effect master.now client number effect.now).taken) }
{
    let lines = effect_lines(master, client.get(), number.get(), effect)?;
    let replies = effect_replies(master, client, number, effect)?;
    told_by(master.alloc(), lines, replies)
}

// What it changes.
fn effect_plan(alloc: Global, effect: Effect, told: StepReply) -> Result<Plan, AllocError>
    ensures { IfOk result (λ plan. plan ≡ record {
      update =
          record no_update {
            kept = told.kept;
            note = effect.note;
            change = effect.change;
            locks = locking_puts effect.locking;
            ends_lock = lock_ended effect.locking;
          };
      taken = told.taken;
      contested = None;
    }) }
{
    let Effect {
        note,
        change,
        locking,
        answer,
    } = effect;
    drop(answer);
    let ends_lock = lock_ended(&locking);
    let locks = locking_puts(alloc, locking)?;
    let StepReply { kept, taken } = told;
    Ok(Plan {
        update: Update {
            session: None,
            retires: None,
            kept,
            note,
            change,
            locks,
            ends_lock,
            recovers: false,
            leaves: None,
        },
        taken,
        contested: None,
    })
}

// ---- Beats

fn plan_answer(master: &Master, client: ClientNumber) -> Result<Plan, AllocError>
    ensures { IfOk result (λ plan. plan ≡ plan_answer master.now client) }
{
    let Some(offer) = master.sessions().offer(client, master.clock()) else {
        return Ok(Plan::of(master.alloc(), None, master.nothing()));
    };
    let taken = alive_out(master, client, offer)?;
    Ok(Plan::of(master.alloc(), Some(SessionUpdate::Answers(client)), taken))
}

fn alive_out(master: &Master, client: ClientNumber, offer: Offer) -> Result<Taken, AllocError>
    ensures { IfOk result (λ taken. taken ≡ record { lines = []; outs = alive_out master.now client offer ∷ [] }) }
{
    let Offer { number, span } = offer;
    let unacked = master.rights().unacked(client.get())?;
    let invalidations = invalidations_of(master.alloc(), &unacked)?;
    master.sent(Out::Alive(Alive {
        client,
        epoch: master.epoch(),
        number,
        span,
        invalidations,
        events: master.sessions().unacked(client.get())?,
    }))
}

// The invalidations of these numbers and names, as they are sent.
fn invalidations_of(
    alloc: Global,
    unacked: &Table<u64, Name>,
) -> Result<Items<Invalidation>, AllocError>
    ensures { IfOk result (λ invalidations. invalidations ≡ map invalidation_of unacked.now) }
{
    let mut invalidations = Items::new(alloc);
    for (number, name) in unacked.as_map() {
        let name = name.clone()?;
        invalidations.push(Invalidation {
            number: *number,
            name,
        })?;
    }
    Ok(invalidations)
}

// One line, and no message.
fn printed(master: &Master, line: Line) -> Result<Taken, AllocError>
    ensures { IfOk result (λ taken. taken ≡ record { lines = line ∷ []; outs = [] }) }
{
    let mut taken = master.nothing();
    taken.lines.push(line)?;
    Ok(taken)
}
