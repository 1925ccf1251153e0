//! All sessions of a master.
ghost use Rattle.std.specs.Prelude.{◌≡◌, ◌≤◌, [], IfOk, OnOk, OnErr};
ghost use Rattle.std.specs.Option.{option_copied};
ghost use Rattle.lease_core.specs.Lease.{IsMoment, least_lease, longest_lease};
ghost use Rattle.session_core.specs.Session.{session_until, recovered_session};

use crate::bounds::Bounds;
use crate::records::{Session, Tally};
use event_core::{BoxedEvent, EventQueue};
use lease_core::RECOVERY_TIMEOUT;
use names_cell::Principal;
use node_core::Event;
use std::alloc::{AllocError, Global};
use std::collections::BTreeMap;
use std::marker::Model;

/// All sessions of a master, by the numbers of their clients, with the master's lease in milliseconds. `K` is what it
/// keeps of a call's answer. To a contract, a lease and the list of the sessions in order of the numbers. Memory is
/// taken where a session is added, and nowhere else.
#[derive(Drop)]
pub struct Sessions<K> {
    pub(crate) alloc: Global,
    pub(crate) lease: u64,
    pub(crate) map: BTreeMap<u64, Session<K>>,
    pub(crate) bounds: Bounds,
    // A client that wasn't heard from when one was last looked for. Nothing hangs on it but how long a walk is.
    pub(crate) unheard: u64,
}

impl<K> Model for Sessions<K> {
    ghost use Rattle.std.specs.Prelude.{◌≤◌};
    ghost use Rattle.lease_core.specs.Lease.{least_lease, longest_lease};
    ghost use Rattle.session_core.specs.Sessions.{SessionTable};
    ghost use Rattle.session_core.specs.Quiet.{AreNoted, HaveAtMost};

    ghost Value = { SessionTable K };

    ghost view = { λ s. record { lease = s.lease; sessions = s.map.entries } };

    ghost invariant = { λ s. (least_lease ≤ s.lease) × (s.lease ≤ longest_lease) × AreNoted K s.lease s.bounds.ends s.bounds.answers s.map.entries × HaveAtMost K s.bounds.most_events s.map.entries };
}

impl<K> Sessions<K> {
    ghost use Rattle.session_core.specs.Sessions.{session_of, is_live, with_new};

    /// No sessions. The lease is in milliseconds.
    pub fn new(alloc: Global, lease: u64) -> Sessions<K>
        requires { (least_lease ≤ lease) × (lease ≤ longest_lease) }
        ensures { result ≡ record { lease = lease; sessions = [] } }
    {
        Sessions {
            alloc,
            lease,
            map: BTreeMap::new(alloc),
            bounds: Bounds::none(alloc),
            unheard: 0,
        }
    }

    /// How long an answer lets a session live, in milliseconds.
    pub fn lease(&self) -> u64
        ensures value { result ≡ self.now.lease }
        ensures range { (least_lease ≤ result) × (result ≤ longest_lease) }
    {
        self.lease
    }

    /// A client's session, also one that has ended. Takes no memory.
    pub fn get(&self, client: u64) -> Option<&Session<K>>
        ensures { option_copied result ≡ session_of self.now client }
    {
        self.map.get(&client)
    }

    /// The sessions in order of their clients' numbers, for loops and chains.
    pub fn as_map(&self) -> &BTreeMap<u64, Session<K>>
        ensures { result.now.entries ≡ self.now.sessions }
    {
        &self.map
    }

    /// Whether a client has a session that hasn't ended. Takes no memory.
    pub fn is_live(&self, client: u64) -> bool
        ensures { result ≡ is_live self.now client }
    {
        match self.map.get(&client) {
            None => false,
            Some(session) => session.live,
        }
    }
}

impl<K> Sessions<K> {
    ghost use Rattle.session_core.specs.Sessions.{all_heard};

    /// Whether each live session has acknowledged its first event, by which a new master tells of itself. Takes no
    /// memory.
    pub fn all_heard(&self) -> bool
        ensures { result ≡ all_heard self.now }
    {
        if self.is_unheard(self.unheard) {
            return false;
        }
        self.map.iter().all(|(_, session)| session.has_heard())
    }
}

impl<K: Drop> Sessions<K> {
    ghost use Rattle.session_core.specs.Sessions.{with_new};

    /// A new master, come up at `now`, takes over a session of the rows. The first event of a live one tells that it is
    /// up.
    pub fn recover(
        &mut self,
        client: u64,
        principal: Principal,
        live: bool,
        now: u64,
    ) -> Result<(), AllocError>
        requires { IsMoment now }
        ensures ok { OnOk result (self.new ≡ with_new self.old client (recovered_session principal live now)) }
        ensures err { OnErr result (self.new ≡ self.old) }
    {
        let session = recovered_session(self.alloc, principal, live, now)?;
        let moments = session.moments(self.lease);
        let events = session.event_count();
        drop(self.map.insert(client, session)?);
        self.bounds.add(client, moments, events);
        Ok(())
    }
}

// A session as a new master finds it in the rows.
fn recovered_session<K>(
    alloc: Global,
    principal: Principal,
    live: bool,
    now: u64,
) -> Result<Session<K>, AllocError>
    requires { IsMoment now }
    ensures { IfOk result (λ session. session ≡ recovered_session principal live now) }
{
    let told = BoxedEvent::new(alloc, Event::FailOver)?;
    let mut session = session_until(alloc, principal, live, now + RECOVERY_TIMEOUT)?;
    if let Some(events) = &mut session.events {
        events.push(told);
    }
    session.taken_over = true;
    Ok(session)
}

// A session of which this master knows no Beat and no call.
pub(crate) fn session_until<K>(
    alloc: Global,
    principal: Principal,
    live: bool,
    timeout: u64,
) -> Result<Session<K>, AllocError>
    ensures { IfOk result (λ session. session ≡ session_until principal live timeout) }
{
    let events = if live {
        Some(EventQueue::new(alloc)?)
    } else {
        None
    };
    Ok(Session {
        principal,
        live,
        timeout,
        lease_end: timeout,
        newest_beat: 0,
        invalidations: Tally {
            issued: 0,
            acknowledged: 0,
        },
        events,
        taken_over: false,
        parked: None,
        mark: None,
        kept: None,
    })
}
