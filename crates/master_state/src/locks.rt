//! What a master answers by the locks of its nodes.
ghost use Rattle.std.specs.Prelude.{◌≡◌, Some, None, IfOk};
ghost use Rattle.tags_cell.specs.Sequencers.{read_sequencer};
ghost use Rattle.master_state.specs.NameSpace.{name_space};
ghost use Rattle.master_state.specs.Lookups.{instance_at, sequencer_test, sequencer_fault, check_answer, release_fault, sequencer_answer, holds_lock};
ghost use Rattle.master_parts.specs.Calls.{needing};

use crate::masters::Master;
use collections::Bytes;
use master_parts::owner_of;
use names_cell::Name;
use node_core::{Fault, Right};
use std::alloc::AllocError;
use tags_cell::{CallResult, Handle, Sequencer, SequencerFault};

impl Master {
    /// Why a call that carries these bytes of a sequencer isn't done. Without any it stands under none.
    pub fn sequencer_fault(&self, sequencer: &Option<Bytes>) -> Result<Option<Fault>, AllocError>
        ensures { IfOk result (λ fault. fault ≡ sequencer_fault (name_space self.now) sequencer.now) }
    {
        match sequencer {
            None => Ok(None),
            Some(bytes) => self.bytes_fault(bytes),
        }
    }

    fn bytes_fault(&self, bytes: &Bytes) -> Result<Option<Fault>, AllocError>
        ensures { IfOk result (λ fault. fault ≡ sequencer_test (name_space self.now) (read_sequencer bytes.now)) }
    {
        match Sequencer::read(self.alloc, bytes.as_slice()) {
            Ok(sequencer) => Ok(self.sequencer_test(&sequencer)),
            Err(SequencerFault::BadSequencer) => Ok(Some(Fault::BadSequencer)),
            Err(SequencerFault::NoMemory) => Err(AllocError),
        }
    }

    fn sequencer_test(&self, sequencer: &Sequencer) -> Option<Fault>
        ensures { result ≡ sequencer_test (name_space self.now) (Some sequencer.now) }
    {
        match self
            .locks
            .check(sequencer, self.instance_at(&sequencer.name))
        {
            Ok(()) => None,
            Err(fault) => Some(fault),
        }
    }

    // The instance that stands at a name now.
    fn instance_at(&self, name: &Name) -> Option<u64>
        ensures { result ≡ instance_at (name_space self.now) name.now }
    {
        let node = self.map().get(name)?;
        Some(node.instance)
    }

    pub fn check_answer(&self, bytes: &Bytes) -> Result<CallResult, AllocError>
        ensures { IfOk result (λ answer. answer ≡ check_answer (name_space self.now) bytes.now) }
    {
        match self.bytes_fault(bytes)? {
            Some(fault) => Ok(CallResult::Refused(fault)),
            None => Ok(CallResult::Done),
        }
    }

    /// Why a Release is refused at once.
    pub fn release_answer(&self, handle: &Handle) -> Option<CallResult>
        ensures { result ≡ needing handle.now Right.Write (release_fault (name_space self.now) handle.now) }
    {
        if !handle.mode.has(Right::Write) {
            return Some(CallResult::Refused(Fault::Denied(Right::Write)));
        }
        if self.holds_lock(handle) {
            None
        } else {
            Some(CallResult::Refused(Fault::NotHolder))
        }
    }

    /// Whether a handle holds the lock of its node.
    pub fn holds_lock(&self, handle: &Handle) -> bool
        ensures { result ≡ holds_lock (name_space self.now) handle.now }
    {
        match self.locks.get(handle.instance.get()) {
            Some(lock) => lock.holders().get(&owner_of(handle)).is_some(),
            None => false,
        }
    }

    pub fn sequencer_answer(&self, handle: &Handle) -> Result<CallResult, AllocError>
        ensures { IfOk result (λ answer. answer ≡ sequencer_answer (name_space self.now) handle.now) }
    {
        let owner = owner_of(handle);
        match self.locks.sequencer(handle.instance, &handle.name, owner) {
            Ok(sequencer) => Ok(CallResult::Sequencer(sequencer.write(self.alloc)?)),
            Err(Fault::NoMemory) => Err(AllocError),
            Err(fault) => Ok(CallResult::Refused(fault)),
        }
    }
}
