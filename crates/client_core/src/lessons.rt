//! What a reply teaches a client of a name (Burrows 2006, section 2.7).
ghost use Rattle.std.specs.Prelude.{◌≡◌, Some, IfOk};
ghost use Rattle.client_core.specs.Handles.{handle_of};
ghost use Rattle.client_core.specs.Lessons.{is_fresh, may_install, viewed, view_taught, absence_taught, taught, lesson};

use crate::client::Client;
use crate::parts::{Target, absence_taught, standing_by};
use cache_core::{SessionTrust, Shared};
use names_cell::Name;
use node_core::{Fault, View};
use std::alloc::AllocError;
use tags_cell::{CallResult, Reply};

impl Client {
    // The answer of a read, of a ReadDir or of a plain Open, where the cache takes it.
    pub(crate) fn lesson(
        &self,
        moment: u64,
        reply: &Reply,
        target: Target,
    ) -> Result<Option<(Name, Option<Shared<View>>)>, AllocError>
        ensures { IfOk result (λ taught. taught ≡ lesson self.now moment reply.now target) }
    {
        if !self.may_install(moment, reply.stamp) {
            return Ok(None);
        }
        match &reply.result {
            CallResult::Viewed(view) => self.view_taught(view, target),
            CallResult::Listed(view) => self.view_taught(view, target),
            CallResult::Refused(Fault::NotFound) => absence_taught(&self.outstanding),
            _ => Ok(None),
        }
    }

    // Whether the master lets it be cached, the cache is enabled, its lease runs, and no invalidation was processed since
    // that may be of the name.
    fn may_install(&self, moment: u64, stamp: Option<u64>) -> bool
        ensures { result ≡ may_install self.now moment stamp }
    {
        if !self.cache.is_enabled()
            || standing_by(self.standing, &self.cache, moment) != SessionTrust::Safe
        {
            return false;
        }
        match stamp {
            Some(stamp) => self.processed <= stamp,
            None => false,
        }
    }

    // What a read or a ReadDir on a handle found.
    fn view_taught(
        &self,
        view: &View,
        target: Target,
    ) -> Result<Option<(Name, Option<Shared<View>>)>, AllocError>
        ensures { IfOk result (λ taught. taught ≡ view_taught self.now view.now target) }
    {
        let Target::Handle(number) = target else {
            return Ok(None);
        };
        let Some(handle) = self.handles.get(&number) else {
            return Ok(None);
        };
        let name = handle.name.clone()?;
        Ok(Some((name, Some(self.shared(view)?))))
    }

    // A copy of it, for caches to share.
    fn shared(&self, view: &View) -> Result<Shared<View>, AllocError>
        ensures { IfOk result (λ shared. shared ≡ view.now) }
    {
        Ok(Shared::new(self.alloc, view.clone()?)?)
    }
}
