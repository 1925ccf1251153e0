//! The tests of a new call.
ghost use Rattle.std.specs.Prelude.{◌≡◌, Some, None, IfOk};
ghost use Rattle.std.specs.Option.{option_and_then};
ghost use Rattle.tags_cell.specs.Handles.{read_handle};
ghost use Rattle.cell_core.specs.Step.{admission_for, admission_of_open, open_admission, handle_admission, check_admission, leave_admission, answering, shown_note, touched_by, viewed_name, told_by_open};
ghost use Rattle.master_state.specs.NameSpace.{name_space};
ghost use Rattle.master_state.specs.Lookups.{sequencer_fault, is_of_cell};
ghost use Rattle.master_parts.specs.Calls.{bytes_of};

use crate::asking::TouchedNames;
use collections::Bytes;
use master_parts::{HandleKey, OpenHandle, OpenNote, bytes_of, create_fault};
use master_state::Master;
use names_cell::Name;
use node_core::Fault;
use std::alloc::AllocError;
use tags_cell::{Call, CallMessage, CallResult, ClientNumber, Handle, MessageNumber, Open};

/// What the tests of a new call give. It is made before anything changes.
#[derive(Drop)]
pub(crate) struct Admission {
    /// What is noted of a handle first.
    pub note: Option<OpenNote>,
    /// The names whose view the call may change, where it waits.
    pub touched: Option<TouchedNames>,
    /// The name of which the answer tells what it shows: the view of its node, or that there is none.
    pub told: Option<Name>,
    /// What is answered at once; None where the call waits for its turn.
    pub answer: Option<CallResult>,
}

impl Admission {
    // A call that changes nothing, notes nothing, and tells of no name.
    fn answering(answer: CallResult) -> Admission
        ensures { result ≡ answering answer }
    {
        Admission {
            note: None,
            touched: None,
            told: None,
            answer: Some(answer),
        }
    }

    // A client that ends its session waits for its turn.
    fn leaving() -> Admission
        ensures { result ≡ leave_admission }
    {
        Admission {
            note: None,
            touched: None,
            told: None,
            answer: None,
        }
    }

    fn refused(fault: Fault) -> Admission
        ensures { result ≡ answering (CallResult.Refused fault) }
    {
        Admission::answering(CallResult::Refused(fault))
    }
}

pub(crate) fn admission_for(master: &Master, message: &CallMessage) -> Result<Admission, AllocError>
    ensures { IfOk result (λ admission. admission ≡ admission_for master.now message.now) }
{
    let client = message.client;
    let number = message.number;
    let sequencer = &message.sequencer;
    match &message.call {
        Call::Open(opening) => open_admission(master, client, number, opening, sequencer),
        Call::CheckSequencer(bytes) => check_admission(master, bytes, sequencer),
        Call::Leave => Ok(Admission::leaving()),
        call => match master.shown_handle(client, bytes_of(call))? {
            None => Ok(Admission::refused(Fault::BadHandle)),
            Some(handle) => handle_admission(master, &handle, call, sequencer),
        },
    }
}

// A handle that is shown is noted also where the call is refused.
fn handle_admission(
    master: &Master,
    handle: &Handle,
    call: &Call,
    sequencer: &Option<Bytes>,
) -> Result<Admission, AllocError>
    requires { read_handle master.now.secret (bytes_of call.now) ≡ Some handle.now }
    ensures { IfOk result (λ admission. admission ≡ handle_admission master.now call.now sequencer.now (Some handle.now)) }
{
    let answer = master.answer_on(handle, call, sequencer)?;
    Ok(Admission {
        note: shown_note(master, handle, bytes_of(call))?,
        touched: touched_by(handle, call)?,
        told: viewed_name(&handle.name, &answer)?,
        answer,
    })
}

// The sequencer that it asks about is tested after the one that it stands under.
fn check_admission(
    master: &Master,
    bytes: &Bytes,
    sequencer: &Option<Bytes>,
) -> Result<Admission, AllocError>
    ensures { IfOk result (λ admission. admission ≡ check_admission master.now bytes.now (sequencer_fault (name_space master.now) sequencer.now)) }
{
    match master.sequencer_fault(sequencer)? {
        Some(fault) => Ok(Admission::refused(fault)),
        None => Ok(Admission::answering(master.check_answer(bytes)?)),
    }
}

// It is open from then on, where nothing is noted of it yet.
fn shown_note(
    master: &Master,
    handle: &Handle,
    bytes: &[u8],
) -> Result<Option<OpenNote>, AllocError>
    requires { read_handle master.now.secret bytes.now ≡ Some handle.now }
    ensures { IfOk result (λ note. note ≡ shown_note master.now handle.now bytes.now) }
{
    if master.handles().get(&HandleKey::of(handle)).is_some() {
        return Ok(None);
    }
    let noted = OpenHandle::shown(master.alloc, handle, bytes, &master.secret)?;
    Ok(Some(noted.note()))
}

fn open_admission(
    master: &Master,
    client: ClientNumber,
    number: MessageNumber,
    opening: &Open,
    sequencer: &Option<Bytes>,
) -> Result<Admission, AllocError>
    ensures { IfOk result (λ admission. admission ≡ open_admission master.now client number opening.now sequencer.now) }
{
    if !master.is_of_cell(&opening.name) {
        return Ok(Admission::refused(Fault::OtherCell));
    }
    match master.sequencer_fault(sequencer)? {
        Some(fault) => Ok(Admission::refused(fault)),
        None => admission_of_open(master, client, number, opening),
    }
}

fn admission_of_open(
    master: &Master,
    client: ClientNumber,
    number: MessageNumber,
    opening: &Open,
) -> Result<Admission, AllocError>
    ensures { IfOk result (λ admission. admission ≡ admission_of_open master.now client number opening.now opening.now.create) }
{
    match &opening.create {
        None => plain_admission(master, client, number, opening),
        Some(create) => Ok(Admission {
            note: None,
            touched: Some(TouchedNames::WithParent(opening.name.clone()?)),
            told: None,
            answer: create_fault(opening, &create.node),
        }),
    }
}

fn plain_admission(
    master: &Master,
    client: ClientNumber,
    number: MessageNumber,
    opening: &Open,
) -> Result<Admission, AllocError>
    ensures { IfOk result (λ admission. admission ≡ admission_of_open master.now client number opening.now None) }
{
    let opened = master.plain_open(client, number, opening)?;
    let told = told_by_open(&opening.name, &opened)?;
    let (note, answer) = master.opened(opened)?;
    Ok(Admission {
        note,
        touched: None,
        told,
        answer: Some(answer),
    })
}

// What a call on a handle's node touches.
fn touched_by(handle: &Handle, call: &Call) -> Result<Option<TouchedNames>, AllocError>
    ensures { IfOk result (λ touched. touched ≡ touched_by handle.now call.now) }
{
    match call {
        Call::Set { .. } | Call::SetAcl { .. } => Ok(Some(TouchedNames::Alone(
            handle.name.clone()?,
        ))),
        Call::Delete(_) => Ok(Some(TouchedNames::WithParent(handle.name.clone()?))),
        Call::Open(_) | Call::Close(_) | Call::Read(_) | Call::Stat(_) | Call::List(_) => Ok(None),
        Call::Acquire { .. } | Call::TryAcquire { .. } | Call::Release(_) => Ok(None),
        Call::GetSequencer(_) | Call::SetSequencer(_) | Call::CheckSequencer(_) => Ok(None),
        Call::Leave => Ok(None),
    }
}

// A read, and a ReadDir, tell what their node's name shows.
fn viewed_name(name: &Name, answer: &Option<CallResult>) -> Result<Option<Name>, AllocError>
    ensures { IfOk result (λ told. told ≡ option_and_then (viewed_name name.now) answer.now) }
{
    match answer {
        Some(CallResult::Viewed(_) | CallResult::Listed(_)) => Ok(Some(name.clone()?)),
        _ => Ok(None),
    }
}

// An Open that finds nothing tells that.
fn told_by_open(name: &Name, opened: &Result<Handle, Fault>) -> Result<Option<Name>, AllocError>
    ensures { IfOk result (λ told. told ≡ told_by_open name.now opened.now) }
{
    match opened {
        Err(Fault::NotFound) => Ok(Some(name.clone()?)),
        _ => Ok(None),
    }
}
