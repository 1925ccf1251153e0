//! What a master does with a message.
ghost use Rattle.std.specs.Prelude.{◌≡◌, ◌≢◌, true, false, Some, None, Ok, Err, IfOk, IfErr, OnOk, OnErr};
ghost use Rattle.cell_core.specs.Step.{take_step, take_at, start_step, beat_step, call_step, is_older, leaves_beside, kept_step, ended_step, new_call, admit_step, telling, granting, is_cachable, with_right, waits, with_call, recorded, queued, replied, task_of};
ghost use Rattle.master_state.specs.Updates.{with_note};
ghost use Rattle.master_state.specs.Lookups.{kept_of, is_full, is_spent, nothing};
ghost use Rattle.session_core.specs.Session.{kept_answer};
ghost use Rattle.gate_core.specs.Gate.{push_answer};
ghost use Rattle.cell_core.specs.Ephemerals.{is_ok};

use crate::admissions::{Admission, admission_for};
use crate::answers::{Answers, Thrice};
use crate::asking::{TouchedNames, ask};
use crate::cells::MemoryMaster;
use collections::Items;
use gate_core::Pending;
use lease_core::MOMENT_LIMIT;
use master_parts::{
    HandleKey, HandleState, OpenNote, Taken, Task, WaitingRequest, Work, answered_by, is_leave,
};
use master_state::{Master, settle_note};
use names_cell::Name;
use node_core::Fault;
use rights_core::Ending;
use session_core::LastCall;
use std::alloc::AllocError;
use tags_cell::{
    Beat, CallMessage, CallResult, ClientNumber, MessageNumber, Reply, Request, Start,
};

impl MemoryMaster {
    /// One step by a request that came. A moment, in milliseconds, that is earlier than the last one counts as that;
    /// one of 2^53 or more is refused as Exhausted, and so is every request once 2^63-1 changes have waited, as many
    /// rights were granted, or a session has as many events. Nothing is committed.
    pub fn take(&mut self, now: u64, request: &Request) -> Result<Taken, Fault>
        ensures ok { IfOk result (λ taken. take_step self.old now request.now ≡ Ok (self.new, taken)) }
        ensures fault { IfErr result (λ e. e ≢ Fault.NoMemory → take_step self.old now request.now ≡ Err e) }
        ensures err { OnErr result (self.new ≡ self.old) }
    {
        self.take_as::<Taken>(now, request)
    }

    /// The same step, its answer three times. All memory is taken before the step has an effect.
    pub fn take_thrice(&mut self, now: u64, request: &Request) -> Result<Thrice, Fault>
        ensures ok { IfOk result (λ taken. take_step self.old now request.now ≡ Ok (self.new, taken)) }
        ensures fault { IfErr result (λ e. e ≢ Fault.NoMemory → take_step self.old now request.now ≡ Err e) }
        ensures err { OnErr result (self.new ≡ self.old) }
    {
        self.take_as::<Thrice>(now, request)
    }

    // The same step, its answer as often as it is wanted.
    #[tactic(auto, unfolding(crate::specs::Step::take_step))]
    fn take_as<A: Answers>(&mut self, now: u64, request: &Request) -> Result<A, Fault>
        ensures ok { IfOk result (λ taken. take_step self.old now request.now ≡ Ok (self.new, A.answer taken)) }
        ensures fault { IfErr result (λ e. e ≢ Fault.NoMemory → take_step self.old now request.now ≡ Err e) }
        ensures err { OnErr result (self.new ≡ self.old) }
    {
        let master = &mut self.master;
        if now >= MOMENT_LIMIT || master.is_spent() {
            return Err(Fault::Exhausted);
        }
        let before = master.note_moment(now);
        match take_at(master, request) {
            Ok(taken) => Ok(taken),
            Err(_) => {
                master.restore_moment(before);
                Err(Fault::NoMemory)
            }
        }
    }
}

fn take_at<A: Answers>(master: &mut Master, request: &Request) -> Result<A, AllocError>
    requires { is_spent master.old ≡ false }
    ensures ok { IfOk result (λ taken. take_at master.old request.now ≡ (master.new, A.answer taken)) }
    ensures err { OnErr result (master.new ≡ master.old) }
{
    match request {
        Request::Start(start) => take_start(master, start),
        Request::Beat(beat) => take_beat(master, beat),
        Request::Call(message) => take_call(master, message),
    }
}

fn take_start<A: Answers>(master: &mut Master, start: &Start) -> Result<A, AllocError>
    requires { is_spent master.old ≡ false }
    ensures ok { IfOk result (λ taken. start_step master.old start.now ≡ (master.new, A.answer taken)) }
    ensures err { OnErr result (master.new ≡ master.old) }
{
    if !master.may_start(start.client, &start.principal) {
        return A::of(master.refusal(start.client, start.number, Fault::NoSession)?);
    }
    if master.recovering {
        return A::of(master.turned_away(start.client, start.number, Fault::Recovering)?);
    }
    if master.is_full() {
        return A::of(master.turned_away(start.client, start.number, Fault::Busy)?);
    }
    let work = Work::Starts(start.principal.clone()?, master.clock);
    let asked = WaitingRequest {
        client: start.client,
        number: start.number,
        work,
    };
    queue_answered(master, Items::new(master.alloc), Task::Asked(asked))
}

// It acknowledges, which ends rights, and waits for its answer.
fn take_beat<A: Answers>(master: &mut Master, beat: &Beat) -> Result<A, AllocError>
    ensures ok { IfOk result (λ taken. beat_step master.old beat.now ≡ (master.new, A.answer taken)) }
    ensures err { OnErr result (master.new ≡ master.old) }
{
    if beat.epoch != master.epoch {
        let present = master.epoch;
        return A::of(master.refusal(beat.client, beat.number, Fault::OldEpoch(present))?);
    }
    let lines = master.acked_lines(beat)?;
    let answers = A::of(Taken {
        lines,
        outs: Items::new(master.alloc),
    })?;
    match master.tables.beat(beat, master.clock) {
        Ok(()) => {
            let ending = Ending::Acknowledgement(beat.invalidations);
            master.tables.end(beat.client.get(), ending);
            Ok(answers)
        }
        Err(fault) => {
            drop(answers);
            A::of(master.refusal(beat.client, beat.number, fault)?)
        }
    }
}

fn take_call<A: Answers>(master: &mut Master, message: &CallMessage) -> Result<A, AllocError>
    requires { is_spent master.old ≡ false }
    ensures ok { IfOk result (λ taken. call_step master.old message.now ≡ (master.new, A.answer taken)) }
    ensures err { OnErr result (master.new ≡ master.old) }
{
    let client = message.client;
    let number = message.number;
    if message.epoch != master.epoch {
        let present = master.epoch;
        return A::of(master.refusal(client, number, Fault::OldEpoch(present))?);
    }
    if !master.is_live(client) {
        return A::of(of_ended(master, message)?);
    }
    if master.is_full() || !leaves_beside(master, message) {
        return by_kept(master, message);
    }
    wait(master, message, None)
}

// Whether the client ends its session while its last call waits for a lock.
fn leaves_beside(master: &Master, message: &CallMessage) -> bool
    ensures { result ≡ leaves_beside master.now message.now }
{
    if !is_leave(&message.call) {
        return false;
    }
    if !is_older(master, message) {
        return false;
    }
    !master.recovering && !master.has_call(message.client)
}

// Whether the last call of the client waits, and is older than this one.
fn is_older(master: &Master, message: &CallMessage) -> bool
    ensures { result ≡ is_older message.now.number (kept_of master.now message.now.client) }
{
    let Some(session) = master.sessions().get(message.client.get()) else {
        return false;
    };
    match &session.kept {
        None => false,
        Some(kept) => kept.reply.is_none() && kept.number < message.number,
    }
}

// A session that has ended answers the call again by which its client ended it, and nothing else.
fn of_ended(master: &Master, message: &CallMessage) -> Result<Taken, AllocError>
    ensures { IfOk result (λ taken. ended_step master.now message.now (kept_answer (kept_of master.now message.now.client) message.now.number) ≡ (master.now, taken)) }
{
    let client = message.client;
    let number = message.number;
    match master.sessions().kept(client, number) {
        Ok(Some(kept)) => left_before(master, message, kept),
        Ok(None) => master.refusal(client, number, Fault::NoSession),
        Err(_) => master.refusal(client, number, Fault::NoSession),
    }
}

// Where the last call is that one, and was answered.
fn left_before(
    master: &Master,
    message: &CallMessage,
    kept: &LastCall<Reply>,
) -> Result<Taken, AllocError>
    ensures { IfOk result (λ taken. ended_step master.now message.now (Ok (Some kept.now)) ≡ (master.now, taken)) }
{
    if is_leave(&message.call) && kept.reply.is_some() {
        return master.repeated(kept);
    }
    master.refusal(message.client, message.number, Fault::NoSession)
}

// By the last call of the client.
fn by_kept<A: Answers>(master: &mut Master, message: &CallMessage) -> Result<A, AllocError>
    requires { is_spent master.old ≡ false }
    ensures ok { IfOk result (λ taken. kept_step master.old message.now (kept_answer (kept_of master.old message.now.client) message.now.number) ≡ (master.new, A.answer taken)) }
    ensures err { OnErr result (master.new ≡ master.old) }
{
    let client = message.client;
    let number = message.number;
    match master.sessions().kept(client, number) {
        Err(fault) => A::of(master.refusal(client, number, fault)?),
        Ok(Some(kept)) => A::of(master.repeated(kept)?),
        Ok(None) => new_call(master, message),
    }
}

// A call that is neither repeated nor too early. During recovery each is refused, and that is recorded.
fn new_call<A: Answers>(master: &mut Master, message: &CallMessage) -> Result<A, AllocError>
    requires { is_spent master.old ≡ false }
    ensures ok { IfOk result (λ taken. new_call master.old message.now ≡ (master.new, A.answer taken)) }
    ensures err { OnErr result (master.new ≡ master.old) }
{
    let client = message.client;
    let number = message.number;
    if master.recovering {
        let refused = CallResult::Refused(Fault::Recovering);
        return reply(master, client, number, refused);
    }
    let Admission {
        note,
        touched,
        told,
        answer,
    } = admission_for(master, message)?;
    match note {
        None => admit(master, message, touched, told, answer),
        Some(note) => admit_noted(master, note, message, touched, told, answer),
    }
}

// The call's handle is open from now on.
fn admit_noted<A: Answers>(
    master: &mut Master,
    note: OpenNote,
    message: &CallMessage,
    touched: Option<TouchedNames>,
    told: Option<Name>,
    answer: Option<CallResult>,
) -> Result<A, AllocError>
    requires { is_spent master.old ≡ false }
    ensures ok { IfOk result (λ taken. admit_step (with_note master.old (Some note)) message.now touched told answer ≡ (master.new, A.answer taken)) }
    ensures err { OnErr result (master.new ≡ master.old) }
{
    let (key, state) = note.parts();
    admit_known(master, key, state, message, touched, told, answer)
}

// What is noted of it is taken back where memory is refused.
fn admit_known<A: Answers>(
    master: &mut Master,
    key: HandleKey,
    state: HandleState,
    message: &CallMessage,
    touched: Option<TouchedNames>,
    told: Option<Name>,
    answer: Option<CallResult>,
) -> Result<A, AllocError>
    requires { is_spent master.old ≡ false }
    ensures ok { IfOk result (λ taken. admit_step (with_note master.old (Some (record { key = key; state = Some state }))) message.now touched told answer ≡ (master.new, A.answer taken)) }
    ensures err { OnErr result (master.new ≡ master.old) }
{
    let former = master.tables.put_handle(key, state)?;
    match admit(master, message, touched, told, answer) {
        Ok(taken) => {
            settle_note(master, &key, former);
            Ok(taken)
        }
        Err(error) => {
            master.tables.restore_handle(&key, former);
            Err(error)
        }
    }
}

// A call that is answered at once, or waits where there is room.
fn admit<A: Answers>(
    master: &mut Master,
    message: &CallMessage,
    touched: Option<TouchedNames>,
    told: Option<Name>,
    answer: Option<CallResult>,
) -> Result<A, AllocError>
    requires { is_spent master.old ≡ false }
    ensures ok { IfOk result (λ taken. admit_step master.old message.now touched told answer ≡ (master.new, A.answer taken)) }
    ensures err { OnErr result (master.new ≡ master.old) }
{
    match answer {
        Some(result) => answer_telling(master, message.client, message.number, result, told),
        None => {
            if master.is_full() {
                let busy = CallResult::Refused(Fault::Busy);
                reply(master, message.client, message.number, busy)
            } else {
                wait(master, message, touched)
            }
        }
    }
}

// An answer, by the name of which it tells what it shows.
fn answer_telling<A: Answers>(
    master: &mut Master,
    client: ClientNumber,
    number: MessageNumber,
    answer: CallResult,
    told: Option<Name>,
) -> Result<A, AllocError>
    requires { is_spent master.old ≡ false }
    ensures ok { IfOk result (λ taken. telling master.old client number answer told ≡ (master.new, A.answer taken)) }
    ensures err { OnErr result (master.new ≡ master.old) }
{
    let Some(name) = told else {
        return reply(master, client, number, answer);
    };
    if master.gate().cachable(master.rights(), client.get(), &name) {
        grant(master, client, number, answer, &name)
    } else {
        reply(master, client, number, answer)
    }
}

// Grants the client the right to keep its answer.
fn grant<A: Answers>(
    master: &mut Master,
    client: ClientNumber,
    number: MessageNumber,
    answer: CallResult,
    name: &Name,
) -> Result<A, AllocError>
    requires cachable { is_cachable master.old client name.now ≡ true }
    requires more { is_spent master.old ≡ false }
    ensures ok { IfOk result (λ taken. granting master.old client number answer name.now ≡ (master.new, A.answer taken)) }
    ensures err { OnErr result (master.new ≡ master.old) }
{
    let reply = master.stamped_reply(client, number, answer);
    let Taken { lines: _, outs } = master.sends(&reply)?;
    let lines = master.granted_lines(client, name)?;
    let answers = A::of(Taken { lines, outs })?;
    match hold(master, client, name) {
        Ok(()) => {
            master.tables.keep(client, answered_by(reply));
            Ok(answers)
        }
        Err(error) => {
            drop(answers);
            drop(reply);
            Err(error)
        }
    }
}

// From here on the client holds the name.
fn hold(master: &mut Master, client: ClientNumber, name: &Name) -> Result<(), AllocError>
    requires cachable { is_cachable master.old client name.now ≡ true }
    requires more { is_spent master.old ≡ false }
    ensures ok { OnOk result (master.new ≡ with_right master.old client name.now) }
    ensures err { OnErr result (master.new ≡ master.old) }
{
    match master.tables.grant(client.get(), name) {
        Ok(_) => Ok(()),
        Err(_) => Err(AllocError),
    }
}

// Queues a call, and keeps that it waits; who holds a name that it touches is asked for it.
fn wait<A: Answers>(
    master: &mut Master,
    message: &CallMessage,
    touched: Option<TouchedNames>,
) -> Result<A, AllocError>
    requires room { is_full master.old ≡ false }
    requires more { is_spent master.old ≡ false }
    ensures ok { IfOk result (λ taken. waits master.old message.now touched ≡ (master.new, A.answer taken)) }
    ensures err { OnErr result (master.new ≡ master.old) }
{
    let answers = A::of(master.nothing())?;
    match wait_quietly(master, message, touched) {
        Ok(()) => Ok(answers),
        Err(error) => {
            drop(answers);
            Err(error)
        }
    }
}

// The same, and nothing is printed or sent.
fn wait_quietly(
    master: &mut Master,
    message: &CallMessage,
    touched: Option<TouchedNames>,
) -> Result<(), AllocError>
    requires room { is_full master.old ≡ false }
    requires more { is_spent master.old ≡ false }
    ensures ok { OnOk result (waits master.old message.now touched ≡ (master.new, nothing)) }
    ensures err { OnErr result (master.new ≡ master.old) }
{
    let Some(touched) = touched else {
        return queue_call(master, message, Items::new(master.alloc));
    };
    let names = touched.names(master.alloc)?;
    match queue_touching(master, message, &touched) {
        Ok(()) => {
            ask(master, names);
            Ok(())
        }
        Err(error) => {
            drop(names);
            Err(error)
        }
    }
}

fn queue_touching(
    master: &mut Master,
    message: &CallMessage,
    touched: &TouchedNames,
) -> Result<(), AllocError>
    requires room { is_full master.old ≡ false }
    requires more { is_spent master.old ≡ false }
    ensures ok { OnOk result (master.new ≡ with_call master.old message.now (Some touched.now)) }
    ensures err { OnErr result (master.new ≡ master.old) }
{
    let names = touched.names(master.alloc)?;
    queue_call(master, message, names)
}

// A call stands after all others, and is the last one of its client.
fn queue_call(
    master: &mut Master,
    message: &CallMessage,
    touched: Items<Name>,
) -> Result<(), AllocError>
    requires room { is_full master.old ≡ false }
    requires more { is_spent master.old ≡ false }
    ensures ok { OnOk result (master.new ≡ queued (recorded master.old message.now.client (record { number = message.now.number; reply = None })) touched (Task.Asked (task_of message.now))) }
    ensures err { OnErr result (master.new ≡ master.old) }
{
    let client = message.client;
    let number = message.number;
    let work = work_of(message)?;
    let asked = WaitingRequest {
        client,
        number,
        work,
    };
    queue(master, touched, Task::Asked(asked))?;
    let kept = LastCall {
        number,
        reply: None,
    };
    master.tables.keep(client, kept);
    Ok(())
}

// What waits stands after all others.
pub(crate) fn queue(master: &mut Master, touched: Items<Name>, task: Task) -> Result<(), AllocError>
    requires { is_ok (push_answer master.old.gate) ≡ true }
    ensures ok { OnOk result (master.new ≡ queued master.old touched task) }
    ensures err { OnErr result (master.new ≡ master.old) }
{
    match master.tables.push(Pending {
        touched,
        body: task,
    }) {
        Ok(_) => Ok(()),
        Err(_) => Err(AllocError),
    }
}

// The same, and nothing is printed or sent.
fn queue_answered<A: Answers>(
    master: &mut Master,
    touched: Items<Name>,
    task: Task,
) -> Result<A, AllocError>
    requires { is_ok (push_answer master.old.gate) ≡ true }
    ensures queued { OnOk result (master.new ≡ queued master.old touched task) }
    ensures answer { IfOk result (λ taken. A.answer taken ≡ nothing) }
    ensures err { OnErr result (master.new ≡ master.old) }
{
    let answers = A::of(master.nothing())?;
    match queue(master, touched, task) {
        Ok(()) => Ok(answers),
        Err(error) => {
            drop(answers);
            Err(error)
        }
    }
}

// Records a reply that no client may keep in its cache, and sends it.
fn reply<A: Answers>(
    master: &mut Master,
    client: ClientNumber,
    number: MessageNumber,
    answer: CallResult,
) -> Result<A, AllocError>
    ensures ok { IfOk result (λ taken. replied master.old client number answer ≡ (master.new, A.answer taken)) }
    ensures err { OnErr result (master.new ≡ master.old) }
{
    let reply = master.reply_of(client, number, answer);
    let answers = A::of(master.sends(&reply)?)?;
    master.tables.keep(client, answered_by(reply));
    Ok(answers)
}

// What waits of a call: also the sequencer that it carries.
fn work_of(message: &CallMessage) -> Result<Work, AllocError>
    ensures { IfOk result (λ work. work ≡ Work.Calls message.now.call message.now.sequencer) }
{
    let call = message.call.clone()?;
    match &message.sequencer {
        None => Ok(Work::Calls(call, None)),
        Some(sequencer) => Ok(Work::Calls(call, Some(sequencer.clone()?))),
    }
}
