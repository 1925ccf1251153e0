//! What is done for what a client is asked for.
ghost use Rattle.std.specs.Prelude.{◌≡◌, Some, IfOk};
ghost use Rattle.std.specs.Option.{option_copied};
ghost use Rattle.collections.specs.Results.{Gives};
ghost use Rattle.client_core.specs.Handles.{handle_of, usable_handle};
ghost use Rattle.client_core.specs.Asks.{plan_of, send_plan, may_leave, leave_plan, open_plan, close_plan, node_plan, sequencer_plan};

use crate::client::Client;
use crate::parts::{Ask, ClientHandle, NodeCall, Target, usable_handle};
use collections::Bytes;
use node_core::{Answer, Fault, Line};
use tags_cell::{Call, Open};

/// What a client does next.
#[derive(Drop)]
pub enum AskPlan {
    /// It sends a call, under the sequencer of these bytes if there is one.
    Send(Call, Option<Bytes>, Target),
    /// It poisons this handle of this number.
    Poison(u64, ClientHandle),
    /// It answers this, and prints this line.
    Serve(Line, Answer),
    /// It prints this line, and gives this handle the next number.
    Share(Line, ClientHandle),
    /// It closes this number by itself.
    Release(u64),
}

impl Client {
    // What is done now, before anything changes.
    pub(crate) fn plan(&self, moment: u64, asked: &Ask) -> Result<AskPlan, Fault>
        ensures { Gives Fault.NoMemory result (plan_of self.now moment asked.now) }
    {
        match asked {
            Ask::Open(opening) => self.open_plan(moment, opening),
            Ask::Close(number) => self.close_plan(*number),
            Ask::Poison(number) => Ok(AskPlan::Poison(
                *number,
                usable_handle(&self.handles, *number)?,
            )),
            Ask::Node(number, call) => self.node_plan(moment, *number, call),
            Ask::SetSequencer(number, sequencer) => self.sequencer_plan(*number, sequencer),
            Ask::CheckSequencer(bytes) => {
                self.send_plan(Call::CheckSequencer(bytes.clone()?), None, Target::Checking)
            }
            Ask::Leave => self.leave_plan(),
        }
    }

    // One call at a time.
    fn send_plan(
        &self,
        call: Call,
        sequencer: Option<Bytes>,
        target: Target,
    ) -> Result<AskPlan, Fault>
        ensures { result ≡ send_plan self.now call sequencer target }
    {
        if self.outstanding.is_some() {
            drop(call);
            drop(sequencer);
            return Err(Fault::CallOutstanding);
        }
        Ok(AskPlan::Send(call, sequencer, target))
    }

    // The end of its session waits for no call but the one that asks for it.
    pub(crate) fn may_leave(&self) -> bool
        ensures { result ≡ may_leave self.now }
    {
        self.outstanding.is_none() || !self.leaving
    }

    fn leave_plan(&self) -> Result<AskPlan, Fault>
        ensures { result ≡ leave_plan self.now }
    {
        if !self.may_leave() {
            return Err(Fault::CallOutstanding);
        }
        Ok(AskPlan::Send(Call::Leave, None, Target::Leaving))
    }

    fn open_plan(&self, moment: u64, opening: &Open) -> Result<AskPlan, Fault>
        ensures { Gives Fault.NoMemory result (open_plan self.now moment opening.now) }
    {
        if let Some(plan) = self.open_served(moment, opening)? {
            return Ok(plan);
        }
        self.send_plan(Call::Open(opening.clone()?), None, Target::NewHandle)
    }

    fn close_plan(&self, number: u64) -> Result<AskPlan, Fault>
        ensures { Gives Fault.NoMemory result (close_plan self.now number (handle_of self.now.handles number)) }
    {
        let Some(handle) = self.handles.get(&number) else {
            return Err(Fault::BadHandle);
        };
        if handle.shared {
            return Ok(AskPlan::Release(number));
        }
        self.send_plan(
            Call::Close(handle.bytes.clone()?),
            None,
            Target::Closing(number),
        )
    }

    fn node_plan(&self, moment: u64, number: u64, call: &NodeCall) -> Result<AskPlan, Fault>
        ensures { Gives Fault.NoMemory result (node_plan self.now moment number call.now (usable_handle (handle_of self.now.handles number))) }
    {
        let handle = usable_handle(&self.handles, number)?;
        if let Some(plan) = self.read_served(moment, &handle, call)? {
            return Ok(plan);
        }
        let call = call.on(handle.bytes)?;
        self.send_plan(call, handle.sequencer, Target::Handle(number))
    }

    fn sequencer_plan(&self, number: u64, sequencer: &Bytes) -> Result<AskPlan, Fault>
        ensures { Gives Fault.NoMemory result (sequencer_plan self.now number sequencer.now (usable_handle (handle_of self.now.handles number))) }
    {
        let handle = usable_handle(&self.handles, number)?;
        let sequencer = sequencer.clone()?;
        let call = Call::SetSequencer(handle.bytes);
        self.send_plan(call, Some(sequencer), Target::Sequencing(number))
    }
}
