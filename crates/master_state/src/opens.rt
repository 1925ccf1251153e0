//! What an Open of a present node gives.
ghost use Rattle.std.specs.Prelude.{◌≡◌, Ok, IfOk};
ghost use Rattle.master_state.specs.NameSpace.{name_space, caller};
ghost use Rattle.master_state.specs.Lookups.{is_of_cell, new_handle, open_present, plain_open, opened_answer, opened_note};

use crate::masters::Master;
use master_parts::{OpenHandle, OpenNote, delay_of};
use names_cell::Name;
use node_core::{Fault, Node};
use std::alloc::AllocError;
use tags_cell::{CallResult, ClientNumber, Handle, MessageNumber, NewHandle, Open, Ordinal};

impl Master {
    /// Whether the name is one of the cell.
    pub fn is_of_cell(&self, name: &Name) -> bool
        ensures { result ≡ is_of_cell (name_space self.now) name.now }
    {
        name.in_cell(self.name.as_str())
    }

    /// A handle of a node: its lock-delay has to be within its limit, and its numbers ones that a handle can carry.
    pub fn new_handle(
        &self,
        client: ClientNumber,
        number: MessageNumber,
        opening: &Open,
        node: &Node,
    ) -> Result<Result<Handle, Fault>, AllocError>
        ensures { IfOk result (λ opened. opened ≡ new_handle (name_space self.now) (caller self.now client) number opening.now node.now) }
    {
        let Some(delay) = delay_of(opening.delay) else {
            return Ok(Err(Fault::DelayTooLong));
        };
        let (Some(epoch), Some(instance)) = (Ordinal::new(self.epoch), Ordinal::new(node.instance))
        else {
            return Ok(Err(Fault::Exhausted));
        };
        Ok(Ok(Handle {
            epoch,
            client: Ordinal::from(client),
            number: Ordinal::from(number),
            instance,
            mode: opening.mode,
            life: node.life,
            events: opening.events,
            delay,
            name: opening.name.clone()?,
        }))
    }

    /// An Open of a present node: the rights of the mode are looked up on the node itself.
    pub fn open_present(
        &self,
        client: ClientNumber,
        number: MessageNumber,
        opening: &Open,
        node: &Node,
    ) -> Result<Result<Handle, Fault>, AllocError>
        ensures { IfOk result (λ opened. opened ≡ open_present (name_space self.now) (caller self.now client) number opening.now node.now) }
    {
        match self.missing_right(client, opening.mode, node)? {
            Some(right) => Ok(Err(Fault::Denied(right))),
            None => self.new_handle(client, number, opening, node),
        }
    }

    /// An Open that makes nothing.
    pub fn plain_open(
        &self,
        client: ClientNumber,
        number: MessageNumber,
        opening: &Open,
    ) -> Result<Result<Handle, Fault>, AllocError>
        ensures { IfOk result (λ opened. opened ≡ plain_open (name_space self.now) (caller self.now client) number opening.now) }
    {
        match self.map().get(&opening.name) {
            None => Ok(Err(Fault::NotFound)),
            Some(node) => self.open_present(client, number, opening, node),
        }
    }

    /// What is noted of the handle that an Open gives, if it gives one, and its answer.
    pub fn opened(
        &self,
        opened: Result<Handle, Fault>,
    ) -> Result<(Option<OpenNote>, CallResult), AllocError>
        ensures note { IfOk result (λ told. told.0 ≡ opened_note (name_space self.now) opened) }
        ensures answer { IfOk result (λ told. told.1 ≡ opened_answer (name_space self.now) opened) }
    {
        match opened {
            Ok(handle) => self.given(handle),
            Err(fault) => Ok((None, CallResult::Refused(fault))),
        }
    }

    // A new handle is open. Its check digits are made here.
    fn given(&self, handle: Handle) -> Result<(Option<OpenNote>, CallResult), AllocError>
        ensures note { IfOk result (λ told. told.0 ≡ opened_note (name_space self.now) (Ok handle)) }
        ensures answer { IfOk result (λ told. told.1 ≡ opened_answer (name_space self.now) (Ok handle)) }
    {
        let instance = handle.instance;
        let life = handle.life;
        let noted = OpenHandle::new(self.alloc, handle, &self.secret)?;
        let bytes = noted.bytes().clone()?;
        let answer = CallResult::Opened(NewHandle {
            bytes,
            instance,
            life,
        });
        Ok((Some(noted.note()), answer))
    }
}
