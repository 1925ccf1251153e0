//! What a change does when its turn comes.
ghost use Rattle.std.specs.Prelude.{◌≡◌, Some, None, IfOk};
ghost use Rattle.master_state.specs.NameSpace.{name_space, caller};
ghost use Rattle.cell_core.specs.Effect.{answered, refused, changes_to, opened_effect, effect, effect_on, create_tested, create_here, open_effect};

use crate::creates::create_effect;
use crate::locks::close_at;
use crate::writes::change_on;
use collections::{Bytes, Items};
use lock_core::{Claim, Turn};
use master_parts::{HandleNote, OpenNote, bytes_of, create_fault};
use master_state::{Change, LockPut, Master};
use names_cell::Name;
use node_core::{Fault, Mod};
use std::alloc::AllocError;
use tags_cell::{Call, CallResult, ClientNumber, Create, Handle, MessageNumber, Open};

/// What becomes of a lock that the caller left.
#[derive(Drop)]
pub struct Leave {
    /// The name of its node.
    pub name: Name,
    pub instance: u64,
    /// Whether the caller held it.
    pub held: bool,
    pub turn: Turn,
}

/// What a call does to a lock.
#[derive(Drop)]
pub enum Locking {
    Nothing,
    /// The caller holds it.
    Takes(LockPut, Claim),
    /// The caller waits for it.
    Waits(LockPut),
    /// The caller let it go, or waits for it no longer.
    Leaves(Leave),
    /// The lock of this instance goes with its node; these waited for it.
    Goes(u64, Items<Claim>),
}

/// What a call does.
#[derive(Drop)]
pub struct Effect {
    /// What is noted of a handle.
    pub note: Option<HandleNote>,
    /// None where the call is refused, or there is nothing to change.
    pub change: Option<Change>,
    pub locking: Locking,
    /// None where the call waits for a lock.
    pub answer: Option<CallResult>,
}

impl Effect {
    // An answer that changes nothing.
    pub(crate) fn answered(answer: CallResult) -> Effect
        ensures { result ≡ answered answer }
    {
        Effect {
            note: None,
            change: None,
            locking: Locking::Nothing,
            answer: Some(answer),
        }
    }

    pub(crate) fn refused(fault: Fault) -> Effect
        ensures { result ≡ refused fault }
    {
        Effect::answered(CallResult::Refused(fault))
    }

    pub(crate) fn changes_to(change: Mod, next_instance: u64, answer: CallResult) -> Effect
        ensures { result ≡ changes_to change next_instance answer }
    {
        Effect {
            note: None,
            change: Some(Change {
                change,
                next_instance,
            }),
            locking: Locking::Nothing,
            answer: Some(answer),
        }
    }
}

/// What a call does as the master stands now, by the tests that are made when its turn comes.
#[tactic(auto, unfolding(crate::specs::Effect::effect))]
pub fn effect_of(
    master: &Master,
    client: ClientNumber,
    number: MessageNumber,
    call: &Call,
    sequencer: &Option<Bytes>,
) -> Result<Effect, AllocError>
    ensures { IfOk result (λ done. done ≡ effect (name_space master.now) (caller master.now client) master.now.clock number call.now sequencer.now) }
{
    match call {
        Call::Open(opening) => open_effect(master, client, number, opening, sequencer),
        _ => match master.handle_in(client, bytes_of(call))? {
            None => Ok(Effect::refused(Fault::BadHandle)),
            Some(handle) => effect_on(master, &handle, call, sequencer),
        },
    }
}

// What would be answered at once is answered now too: so its sequencer is tested again.
fn effect_on(
    master: &Master,
    handle: &Handle,
    call: &Call,
    sequencer: &Option<Bytes>,
) -> Result<Effect, AllocError>
    ensures { IfOk result (λ done. done ≡ effect_on (name_space master.now) master.now.clock handle.now call.now sequencer.now) }
{
    match call {
        Call::Close(_) => close_at(master, handle),
        _ => match master.answer_on(handle, call, sequencer)? {
            Some(answer) => Ok(Effect::answered(answer)),
            None => change_on(master, handle, call),
        },
    }
}

fn open_effect(
    master: &Master,
    client: ClientNumber,
    number: MessageNumber,
    opening: &Open,
    sequencer: &Option<Bytes>,
) -> Result<Effect, AllocError>
    ensures { IfOk result (λ done. done ≡ open_effect (name_space master.now) (caller master.now client) number opening.now sequencer.now opening.now.create) }
{
    match &opening.create {
        None => {
            let opened = master.plain_open(client, number, opening)?;
            opened_effect(master, opened)
        }
        Some(create) => create_here(master, client, number, opening, create, sequencer),
    }
}

// The tests of a create that comes are made again.
fn create_here(
    master: &Master,
    client: ClientNumber,
    number: MessageNumber,
    opening: &Open,
    create: &Create,
    sequencer: &Option<Bytes>,
) -> Result<Effect, AllocError>
    ensures { IfOk result (λ done. done ≡ create_here (name_space master.now) (caller master.now client) number opening.now create.now sequencer.now) }
{
    if !master.is_of_cell(&opening.name) {
        return Ok(Effect::refused(Fault::OtherCell));
    }
    match master.sequencer_fault(sequencer)? {
        Some(fault) => Ok(Effect::refused(fault)),
        None => create_tested(master, client, number, opening, create),
    }
}

// Its content and its lock-delay are tested again.
fn create_tested(
    master: &Master,
    client: ClientNumber,
    number: MessageNumber,
    opening: &Open,
    create: &Create,
) -> Result<Effect, AllocError>
    ensures { IfOk result (λ done. done ≡ create_tested (name_space master.now) (caller master.now client) number opening.now create.now) }
{
    match create_fault(opening, &create.node) {
        Some(answer) => Ok(Effect::answered(answer)),
        None => create_effect(master, client, number, opening, create),
    }
}

// What an Open that changes nothing does.
pub(crate) fn opened_effect(
    master: &Master,
    opened: Result<Handle, Fault>,
) -> Result<Effect, AllocError>
    ensures { IfOk result (λ done. done ≡ opened_effect (name_space master.now) opened) }
{
    let (note, answer) = master.opened(opened)?;
    Ok(Effect {
        note: any_note(note),
        change: None,
        locking: Locking::Nothing,
        answer: Some(answer),
    })
}

// The note of a handle that is open, among notes of any kind.
pub(crate) fn any_note(note: Option<OpenNote>) -> Option<HandleNote>
    ensures { result ≡ note }
{
    match note {
        None => None,
        Some(note) => Some(note.any()),
    }
}
