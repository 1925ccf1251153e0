//! What a master sends, and the tests of who may call.
ghost use Rattle.std.specs.Prelude.{◌≡◌, [], ◌∷◌, map, Some, IfOk};
ghost use Rattle.rights_core.specs.Rights.{numbers_ending, grant_answer};
ghost use Rattle.master_state.specs.CallsWaiting.{is_by, is_call, has_call};
ghost use Rattle.master_state.specs.Lookups.{refusal, turned_away, reply_of, stamped_reply, issued_to, sends, repeated, granted_lines, acknowledgement, may_start, has_ended, going, retiring, is_live, is_full, is_spent};

use crate::masters::Master;
use collections::Items;
use gate_core::PENDING_LIMIT;
use master_parts::{Taken, Task, Work};
use names_cell::{Name, Principal};
use node_core::{Fault, Line, NUMBER_LIMIT};
use rights_core::{Ending, Grant};
use session_core::LastCall;
use std::alloc::AllocError;
use tags_cell::{Beat, CallResult, ClientNumber, MessageNumber, Out, Refused, Reply};

impl Master {
    /// What is sent and printed, and not recorded.
    pub fn refusal(
        &self,
        client: ClientNumber,
        number: MessageNumber,
        fault: Fault,
    ) -> Result<Taken, AllocError>
        ensures { IfOk result (λ taken. taken ≡ refusal self.now client number fault) }
    {
        let mut taken = self.turned_away(client, number, fault)?;
        taken.lines.push(Line::Refused(fault))?;
        Ok(taken)
    }

    /// What is sent, and neither printed nor recorded.
    pub fn turned_away(
        &self,
        client: ClientNumber,
        number: MessageNumber,
        fault: Fault,
    ) -> Result<Taken, AllocError>
        ensures { IfOk result (λ taken. taken ≡ turned_away self.now client number fault) }
    {
        let epoch = self.epoch;
        self.sent(Out::Refused(Refused {
            client,
            epoch,
            number,
            fault,
        }))
    }

    /// The reply to a call: an answer that no client may keep in its cache.
    pub fn reply_of(&self, client: ClientNumber, number: MessageNumber, answer: CallResult) -> Reply
        ensures { result ≡ reply_of self.now client number answer }
    {
        Reply {
            client,
            epoch: self.epoch,
            number,
            stamp: None,
            result: answer,
        }
    }

    /// The reply to a call, whose client may keep the answer in its cache unless it has processed an invalidation that is
    /// issued later.
    pub fn stamped_reply(
        &self,
        client: ClientNumber,
        number: MessageNumber,
        answer: CallResult,
    ) -> Reply
        ensures { result ≡ stamped_reply self.now client number answer }
    {
        Reply {
            client,
            epoch: self.epoch,
            number,
            stamp: Some(self.issued_to(client)),
            result: answer,
        }
    }

    // How many invalidations were issued to a client's session.
    fn issued_to(&self, client: ClientNumber) -> u64
        ensures { result ≡ issued_to self.now client }
    {
        match self.sessions().get(client.get()) {
            None => 0,
            Some(session) => session.invalidations.issued,
        }
    }

    /// The line of a right that is granted; none of one that the client holds already.
    pub fn granted_lines(
        &self,
        client: ClientNumber,
        name: &Name,
    ) -> Result<Items<Line>, AllocError>
        ensures { IfOk result (λ lines. lines ≡ granted_lines client name.now (grant_answer client name.now self.now.rights)) }
    {
        let mut lines = Items::new(self.alloc);
        if let Ok(Grant::Granted(number)) = self.rights().answer(client.get(), name) {
            lines.push(Line::Granted(number, client.get(), name.clone()?))?;
        }
        Ok(lines)
    }

    /// A line of each right that a Beat ends.
    pub fn acked_lines(&self, beat: &Beat) -> Result<Items<Line>, AllocError>
        ensures { IfOk result (λ lines. lines ≡ map Line.Acked (numbers_ending beat.now.client (acknowledgement beat.now) self.now.rights)) }
    {
        let ending = Ending::Acknowledgement(beat.invalidations);
        let numbers = self.rights().ending(beat.client.get(), ending)?;
        let mut lines = Items::new(self.alloc);
        for number in numbers.as_slice() {
            lines.push(Line::Acked(*number))?;
        }
        Ok(lines)
    }

    /// What is sent of a reply.
    pub fn sends(&self, reply: &Reply) -> Result<Taken, AllocError>
        ensures { IfOk result (λ taken. taken ≡ sends reply.now) }
    {
        self.sent(Out::Reply(reply.clone()?))
    }

    /// The reply to the last call again, or nothing while it waits.
    pub fn repeated(&self, kept: &LastCall<Reply>) -> Result<Taken, AllocError>
        ensures { IfOk result (λ taken. taken ≡ repeated kept.now) }
    {
        match &kept.reply {
            Some(reply) => self.sends(reply),
            None => Ok(self.nothing()),
        }
    }

    /// One message, and no line.
    pub fn sent(&self, out: Out) -> Result<Taken, AllocError>
        ensures { IfOk result (λ taken. taken ≡ record { lines = []; outs = out ∷ [] }) }
    {
        let mut taken = self.nothing();
        taken.outs.push(out)?;
        Ok(taken)
    }

    pub fn nothing(&self) -> Taken
        ensures lines { result.lines ≡ [] }
        ensures outs { result.outs ≡ [] }
    {
        Taken {
            lines: Items::new(self.alloc),
            outs: Items::new(self.alloc),
        }
    }

    pub fn may_start(&self, client: ClientNumber, principal: &Principal) -> bool
        ensures { result ≡ may_start self.now client principal.now }
    {
        match self.sessions().get(client.get()) {
            None => client.get() >= self.ended_below,
            Some(session) => session.live && session.principal == *principal,
        }
    }

    /// The client of whose session nothing is known any more once another begins: the first to end of those that are known,
    /// where they are too many. Takes no memory, and looks at each change that waits.
    pub fn retiring(&self) -> Option<ClientNumber>
        ensures { result ≡ retiring self.now }
    {
        match self.departed.first_due() {
            None => None,
            Some(client) => self.going(client),
        }
    }

    // It, where nothing waits for it any more.
    fn going(&self, client: u64) -> Option<ClientNumber>
        ensures { result ≡ going self.now (Some client) }
    {
        let client = ClientNumber::new(client)?;
        if !self.has_ended(client) || self.has_call(client) {
            return None;
        }
        Some(client)
    }

    fn has_ended(&self, client: ClientNumber) -> bool
        ensures { result ≡ has_ended self.now client }
    {
        match self.sessions().get(client.get()) {
            None => false,
            Some(session) => !session.live,
        }
    }

    pub fn is_live(&self, client: ClientNumber) -> bool
        ensures { result ≡ is_live self.now client }
    {
        self.sessions().is_live(client.get())
    }

    pub fn is_full(&self) -> bool
        ensures { result ≡ is_full self.now }
    {
        self.gate().len() >= PENDING_LIMIT
    }

    /// Whether a call of the client waits for its turn. Takes no memory, and looks at each change that waits.
    pub fn has_call(&self, client: ClientNumber) -> bool
        ensures { result ≡ has_call client self.now.gate.waiting }
    {
        self.gate()
            .changes()
            .as_map()
            .values()
            .any(|waiting| is_call_by(client, &waiting.change.body))
    }

    /// Whether a count is at its end: of the changes that ever waited, of the rights that were ever granted, or of a
    /// session's events.
    pub fn is_spent(&self) -> bool
        ensures { result ≡ is_spent self.now }
    {
        self.gate().pushed() >= NUMBER_LIMIT
            || self.rights().totals().issued >= NUMBER_LIMIT
            || self.sessions().has_spent_events()
    }
}

fn is_call_by(client: ClientNumber, task: &Task) -> bool
    ensures { result ≡ is_by is_call client task.now }
{
    match task {
        Task::Asked(asked) => is_call(&asked.work) && asked.client == client,
        Task::Tidies(_) => false,
    }
}

fn is_call(work: &Work) -> bool
    ensures { result ≡ is_call work.now }
{
    match work {
        Work::Starts(_, _) => false,
        Work::Calls(_, _) => true,
    }
}
