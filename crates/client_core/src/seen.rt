//! A client is looked at.
ghost use Rattle.std.specs.Prelude.{◌≡◌};
ghost use Rattle.std.specs.Option.{option_copied};

use crate::client::Client;
use crate::parts::{ClientHandle, ClientStanding, Outstanding};
use cache_core::{Cache, KeptHandles, SessionTrust};
use collections::Table;
use tags_cell::NewHandle;

/// All that a client is, but for its number and its principal, to be looked at.
#[derive(Clone, Copy)]
pub struct ClientFields<'a> {
    /// The moment that it noted last, in milliseconds.
    pub clock: u64,
    /// The number of its newest Start or Beat, 0 before the first.
    pub beats: u64,
    /// The moment that it noted when it sent that one.
    pub sent: u64,
    pub session: ClientStanding,
    /// The epoch of the master that gave it its session, 0 before.
    pub epoch: u64,
    /// The number of the last invalidation that it has processed in its epoch.
    pub processed: u64,
    /// The number of the last event that it has processed in its epoch.
    pub heard: u64,
    pub cache: &'a Cache,
    pub standing: SessionTrust,
    /// The number of its newest call, 0 before the first.
    pub calls: u64,
    /// The call that has no reply yet.
    pub outstanding: Option<&'a Outstanding>,
    /// Its open handles by its own numbers for them.
    pub handles: &'a Table<u64, ClientHandle>,
    /// The handles that its Opens share, as the master gave them.
    pub kept: &'a KeptHandles<NewHandle>,
    /// The newest of its handle numbers, 0 before the first.
    pub opened: u64,
}

impl Client {
    /// How it stands, as it was noted last. Takes no memory.
    pub fn seen(&self) -> ClientFields<'_>
        ensures clock { result.clock ≡ self.now.clock }
        ensures beats { result.beats ≡ self.now.beats }
        ensures sent { result.sent ≡ self.now.sent }
        ensures session { result.session ≡ self.now.session }
        ensures epoch { result.epoch ≡ self.now.epoch }
        ensures processed { result.processed ≡ self.now.processed }
        ensures heard { result.heard ≡ self.now.heard }
        ensures cache { result.cache.now ≡ self.now.cache }
        ensures standing { result.standing ≡ self.now.standing }
        ensures calls { result.calls ≡ self.now.calls }
        ensures outstanding { option_copied result.outstanding ≡ self.now.outstanding }
        ensures handles { result.handles.now ≡ self.now.handles }
        ensures kept { result.kept.now ≡ self.now.kept }
        ensures opened { result.opened ≡ self.now.opened }
    {
        ClientFields {
            clock: self.clock,
            beats: self.beats,
            sent: self.sent,
            session: self.session,
            epoch: self.epoch,
            processed: self.processed,
            heard: self.heard,
            cache: &self.cache,
            standing: self.standing,
            calls: self.calls,
            outstanding: self.outstanding.as_ref(),
            handles: &self.handles,
            kept: &self.kept,
            opened: self.opened,
        }
    }
}
