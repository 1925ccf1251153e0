//! What a master answers to a call at once.
ghost use Rattle.std.specs.Prelude.{◌≡◌, Some, None, IfOk};
ghost use Rattle.master_state.specs.NameSpace.{name_space};
ghost use Rattle.master_state.specs.Lookups.{answer_on, answer_under, answer_on_node, sequencer_fault, list_answer, stat_of};
ghost use Rattle.node_core.specs.Nodes.{view_of};
ghost use Rattle.master_parts.specs.Calls.{needing};

use crate::masters::Master;
use collections::Bytes;
use master_parts::{denied, denied_without, set_answer};
use node_core::{Fault, Kind, Node, Right, Stat};
use std::alloc::AllocError;
use tags_cell::{Call, CallResult, Handle};

impl Master {
    /// What is answered at once, or None where the call waits for its turn.
    pub fn answer_on(
        &self,
        handle: &Handle,
        call: &Call,
        sequencer: &Option<Bytes>,
    ) -> Result<Option<CallResult>, AllocError>
        ensures { IfOk result (λ answer. answer ≡ answer_on (name_space self.now) handle.now call.now sequencer.now) }
    {
        match call {
            Call::Close(_) => Ok(None),
            _ => match self.node_of(handle) {
                None => Ok(Some(CallResult::Refused(Fault::StaleInstance))),
                Some(node) => self.answer_under(handle, call, node, sequencer),
            },
        }
    }

    // Its sequencer is tested first.
    fn answer_under(
        &self,
        handle: &Handle,
        call: &Call,
        node: &Node,
        sequencer: &Option<Bytes>,
    ) -> Result<Option<CallResult>, AllocError>
        ensures { IfOk result (λ answer. answer ≡ answer_under (name_space self.now) handle.now call.now node.now (sequencer_fault (name_space self.now) sequencer.now)) }
    {
        match self.sequencer_fault(sequencer)? {
            Some(fault) => Ok(Some(CallResult::Refused(fault))),
            None => self.answer_on_node(handle, call, node),
        }
    }

    fn answer_on_node(
        &self,
        handle: &Handle,
        call: &Call,
        node: &Node,
    ) -> Result<Option<CallResult>, AllocError>
        ensures { IfOk result (λ answer. answer ≡ answer_on_node (name_space self.now) handle.now call.now node.now) }
    {
        match call {
            Call::Read(_) => Ok(Some(self.read_answer(handle, node)?)),
            Call::Stat(_) => Ok(Some(CallResult::Stated(self.stat_of(node)?))),
            Call::List(_) => Ok(Some(self.list_answer(handle, node)?)),
            Call::Set { content, .. } => Ok(set_answer(handle, node.kind, content)),
            Call::SetAcl { .. } => Ok(denied_without(handle, Right::Change)),
            Call::Delete(_) | Call::Acquire { .. } | Call::TryAcquire { .. } => {
                Ok(denied_without(handle, Right::Write))
            }
            Call::Release(_) => Ok(self.release_answer(handle)),
            Call::GetSequencer(_) => Ok(Some(self.sequencer_answer(handle)?)),
            Call::SetSequencer(_) => Ok(Some(CallResult::Done)),
            Call::Open(_) | Call::Close(_) | Call::CheckSequencer(_) | Call::Leave => Ok(None),
        }
    }

    fn read_answer(&self, handle: &Handle, node: &Node) -> Result<CallResult, AllocError>
        ensures { IfOk result (λ answer. Some answer ≡ needing handle.now Right.Read (Some (CallResult.Viewed (view_of self.now.nodes handle.now.name node.now)))) }
    {
        if !handle.mode.has(Right::Read) {
            return Ok(denied(Right::Read));
        }
        Ok(CallResult::Viewed(self.map().view_of(&handle.name, node)?))
    }

    // Only a directory is listed.
    fn list_answer(&self, handle: &Handle, node: &Node) -> Result<CallResult, AllocError>
        ensures { IfOk result (λ answer. Some answer ≡ needing handle.now Right.Read (Some (list_answer (view_of self.now.nodes handle.now.name node.now) node.now.kind))) }
    {
        if !handle.mode.has(Right::Read) {
            return Ok(denied(Right::Read));
        }
        match node.kind {
            Kind::Directory => Ok(CallResult::Listed(self.map().view_of(&handle.name, node)?)),
            Kind::File => Ok(CallResult::Refused(Fault::WrongKind(Kind::File))),
        }
    }

    fn stat_of(&self, node: &Node) -> Result<Stat, AllocError>
        ensures { IfOk result (λ stat. stat ≡ stat_of (name_space self.now) node.now) }
    {
        Ok(Stat {
            kind: node.kind,
            instance: node.instance,
            content_generation: node.content_generation,
            acl_generation: node.acl_generation,
            lock_generation: self.locks.generation(node.instance),
            read: node.read.clone()?,
            write: node.write.clone()?,
            change: node.change.clone()?,
            life: node.life,
            length: node.content.len() as u64,
        })
    }
}
