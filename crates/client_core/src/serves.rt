//! What a client answers out of its cache (Burrows 2006, section 2.7).
ghost use Rattle.std.specs.Prelude.{◌≡◌, IfOk, Some, None};
ghost use Rattle.client_core.specs.declared.plans.AskPlan.TheVariants as plans;
ghost use Rattle.node_core.specs.declared.lines.Line.TheVariants as lines;
ghost use Rattle.client_core.specs.Serves.{read_served, cached_served, open_served, entry_served, handle_shared};

use crate::client::Client;
use crate::parts::{ClientHandle, NodeCall, is_plain, only_reads, served_line};
use crate::plans::AskPlan;
use cache_core::Shared;
use names_cell::Name;
use node_core::{Answer, Fault, Line, Right, View};
use std::alloc::AllocError;
use tags_cell::Open;

impl Client {
    // A read or a ReadDir of this handle, where what is cached under its name answers it. None where the handle has a
    // sequencer.
    pub(crate) fn read_served(
        &self,
        moment: u64,
        handle: &ClientHandle,
        call: &NodeCall,
    ) -> Result<Option<AskPlan>, AllocError>
        ensures { IfOk result (λ plan. plan ≡ read_served self.now moment handle.now call.now) }
    {
        if !handle.mode.has(Right::Read) || handle.sequencer.is_some() {
            return Ok(None);
        }
        match self.cache.look(&handle.name, moment) {
            Some(entry) => self.cached_served(handle, call, entry),
            None => Ok(None),
        }
    }

    fn cached_served(
        &self,
        handle: &ClientHandle,
        call: &NodeCall,
        entry: &Option<Shared<View>>,
    ) -> Result<Option<AskPlan>, AllocError>
        ensures { IfOk result (λ plan. plan ≡ cached_served self.now handle.now call.now (Some entry.now)) }
    {
        match handle.cached_answer(call, entry)? {
            Some(answer) => Ok(Some(self.serving(&handle.name, entry, answer)?)),
            None => Ok(None),
        }
    }

    // This answer, with the line of what is cached.
    fn serving(
        &self,
        name: &Name,
        entry: &Option<Shared<View>>,
        answer: Answer,
    ) -> Result<AskPlan, AllocError>
        ensures { IfOk result (λ plan. plan ≡ plans.Serve (lines.Served self.now.number name.now entry.now) answer) }
    {
        match served_line(self.number.get(), name, entry) {
            Ok(line) => Ok(AskPlan::Serve(line, answer)),
            Err(_) => {
                drop(answer);
                Err(AllocError)
            }
        }
    }

    // A plain Open of a name under which absence is cached, or a view of a node to which a handle is kept.
    pub(crate) fn open_served(
        &self,
        moment: u64,
        opening: &Open,
    ) -> Result<Option<AskPlan>, AllocError>
        ensures { IfOk result (λ plan. plan ≡ open_served self.now moment opening.now) }
    {
        if !is_plain(opening) {
            return Ok(None);
        }
        match self.cache.look(&opening.name, moment) {
            Some(entry) => self.entry_served(opening, entry),
            None => Ok(None),
        }
    }

    fn entry_served(
        &self,
        opening: &Open,
        entry: &Option<Shared<View>>,
    ) -> Result<Option<AskPlan>, AllocError>
        ensures { IfOk result (λ plan. plan ≡ entry_served self.now opening.now (Some entry.now)) }
    {
        match entry {
            None => Ok(Some(self.serving(&opening.name, entry, Answer::Refused(Fault::NotFound))?)),
            Some(view) => self.handle_shared(opening, view.get(), entry),
        }
    }

    // The oldest handle that is kept on the instance of the view, where the Open is to read alone, without a lock-delay.
    fn handle_shared(
        &self,
        opening: &Open,
        view: &View,
        entry: &Option<Shared<View>>,
    ) -> Result<Option<AskPlan>, AllocError>
        requires { entry.now ≡ Some view.now }
        ensures { IfOk result (λ plan. plan ≡ handle_shared self.now opening.now view.now) }
    {
        if !only_reads(opening) {
            return Ok(None);
        }
        match self.kept.kept_for(&opening.name, view.node.instance) {
            Some(handle) => {
                let shared = ClientHandle::of(handle, opening, true)?;
                Ok(Some(self.sharing(&opening.name, entry, shared)?))
            }
            None => Ok(None),
        }
    }

    // This handle, with the line of what is cached.
    fn sharing(
        &self,
        name: &Name,
        entry: &Option<Shared<View>>,
        shared: ClientHandle,
    ) -> Result<AskPlan, AllocError>
        ensures { IfOk result (λ plan. plan ≡ plans.Share (lines.Served self.now.number name.now entry.now) shared) }
    {
        match served_line(self.number.get(), name, entry) {
            Ok(line) => Ok(AskPlan::Share(line, shared)),
            Err(_) => {
                drop(shared);
                Err(AllocError)
            }
        }
    }
}
