//! The clients of a world.
ghost use Rattle.std.specs.Prelude.{◌≡◌, ◌+◌, ◌<◌, ◌^◌, [], false, Some, None, IfSome, OnErr, IsNone, OnOk, is_some, nat_le};
ghost use Rattle.std.specs.List.{list_all, list_any};
ghost use Rattle.std.specs.Map.{lookup};
ghost use Rattle.std.specs.BTreeMap.{is_at, insert_entry};
ghost use Rattle.std.specs.Ordering.{nat_cmp};
ghost use Rattle.client_core.specs.Asks.{ask_step};
ghost use Rattle.client_core.specs.Beats.{beat_step};
ghost use Rattle.client_core.specs.Gives.{give_step};
ghost use Rattle.world_steps.specs.declared.members.WorldClient.{WorldClient as WorldClientState};
ghost use Rattle.lease_core.specs.Lease.{moment_limit};
ghost use Rattle.world_steps.specs.Members.{new_member, each_member, at_up, is_least, is_fair, moved_beside, moved_alone, Answers, own_step, clock_then};

use crate::steps::Ticks;
use client_core::{Ask, AskOutcome, Beaten, Client, Given};
use lease_core::MOMENT_LIMIT;
use names_cell::Principal;
use node_core::Fault;
use std::alloc::{AllocError, Global};
use std::collections::BTreeMap;
use std::marker::Model;
use tags_cell::{ClientNumber, Out};

/// A client with its own clock.
#[derive(Drop)]
pub struct WorldClient {
    pub client: Client,
    /// Its own clock, in milliseconds.
    pub clock: u64,
    /// The master's clock where 16 times that was least ahead of 17 times the client's, since the master came up: the
    /// client's least lead.
    pub least_now: u64,
    /// The client's clock at that point.
    pub least_clock: u64,
    /// The client's clock when the master came up.
    pub clock_when_up: u64,
}

impl WorldClient {
    // Where its clock is then. No sum of two of 64 bits overflows.
    fn clock_then(&self, ticks: &Ticks, number: u64) -> u128
        ensures is { result ≡ clock_then ticks.now number self.now }
        ensures bound { result < 2 ^ 65 }
    {
        self.clock as u128 + own_step(ticks, number) as u128
    }

    // The same, where it isn't past the end of moments.
    fn moment_then(&self, ticks: &Ticks, number: u64) -> u64
        ensures { nat_le moment_limit (clock_then ticks.now number self.now) ≡ false → result ≡ clock_then ticks.now number self.now }
    {
        self.clock.saturating_add(own_step(ticks, number))
    }

    // Whether the clocks are fair then; the master's is told as it stands.
    fn stays_fair(&self, ticks: &Ticks, number: u64, now: u64) -> bool
        ensures { result ≡ is_fair (now + ticks.now.master) (clock_then ticks.now number self.now) self.now }
    {
        let then = now as u128 + ticks.master as u128;
        let clock = self.clock_then(ticks, number);
        16 * then + 17 * self.least_clock as u128 <= 16 * self.least_now as u128 + 17 * clock + 17
    }

    fn goes_past_end(&self, ticks: &Ticks, number: u64) -> bool
        ensures { result ≡ nat_le moment_limit (clock_then ticks.now number self.now) }
    {
        MOMENT_LIMIT as u128 <= self.clock_then(ticks, number)
    }

    // A master comes up.
    fn come_up(&mut self, now: u64)
        ensures { self.new ≡ at_up now self.old }
    {
        self.least_now = now;
        self.least_clock = self.clock;
        self.clock_when_up = self.clock;
    }

    // Its clock moves beside a master's, which is there then.
    fn move_beside(&mut self, ticks: &Ticks, number: u64, now: u64)
        ensures { nat_le moment_limit (clock_then ticks.now number self.old) ≡ false → self.new ≡ moved_beside now (clock_then ticks.now number self.old) self.old }
    {
        let clock = self.moment_then(ticks, number);
        let is_least = self.is_least(now, clock);
        self.clock = clock;
        if is_least {
            self.least_now = now;
            self.least_clock = clock;
        }
    }

    // Its clock moves while no master is up.
    fn move_alone(&mut self, ticks: &Ticks, number: u64)
        ensures { nat_le moment_limit (clock_then ticks.now number self.old) ≡ false → self.new ≡ moved_alone (clock_then ticks.now number self.old) self.old }
    {
        self.clock = self.moment_then(ticks, number);
    }

    // Whether the client's lead is the least there.
    fn is_least(&self, now: u64, clock: u64) -> bool
        ensures { result ≡ is_least now clock self.now }
    {
        16 * now as u128 + 17 * self.least_clock as u128
            <= 16 * self.least_now as u128 + 17 * clock as u128
    }
}

// By how much a client's clock moves.
fn own_step(ticks: &Ticks, number: u64) -> u64
    ensures { result ≡ own_step ticks.now number }
{
    for entry in ticks.own.as_slice() {
        if number == entry.0 {
            return entry.1;
        }
    }
    ticks.clients
}

/// The clients of a world, by their numbers.
#[derive(Drop)]
pub struct WorldClients {
    alloc: Global,
    clients: BTreeMap<u64, WorldClient>,
}

impl Model for WorldClients {
    ghost use Rattle.world_steps.specs.Members.{Clients};

    ghost Value = { Clients };

    ghost view = { λ s. s.clients.entries };
}

impl WorldClients {
    /// No client yet. Takes no memory.
    pub fn new(alloc: Global) -> WorldClients
        ensures { result ≡ [] }
    {
        WorldClients {
            alloc,
            clients: BTreeMap::new(alloc),
        }
    }

    /// Whether a client joined under the number.
    pub fn is_taken(&self, number: ClientNumber) -> bool
        ensures { result ≡ is_some (lookup (is_at (nat_cmp number)) self.now) }
    {
        self.clients.contains_key(&number.get())
    }

    /// A new client under a number, where the master's clock stands there.
    pub fn join(
        &mut self,
        number: ClientNumber,
        principal: &Principal,
        now: u64,
    ) -> Result<(), AllocError>
        ensures ok { OnOk result (self.new ≡ insert_entry nat_cmp self.old number (new_member number principal.now now)) }
        ensures err { OnErr result (self.new ≡ self.old) }
    {
        let client = Client::new(self.alloc, number, principal.clone()?);
        let member = WorldClient {
            client,
            clock: 0,
            least_now: now,
            least_clock: 0,
            clock_when_up: 0,
        };
        drop(self.clients.insert(number.get(), member)?);
        Ok(())
    }

    /// It is asked for a call. None where nobody has joined under the number.
    pub fn ask(&mut self, number: u64, ask: &Ask) -> Option<Result<AskOutcome, Fault>>
        ensures none { IsNone result → lookup (is_at (nat_cmp number)) self.old ≡ None }
        ensures stay { IsNone result → self.new ≡ self.old }
        ensures some { IfSome result (λ r. (member : WorldClientState) × (lookup (is_at (nat_cmp number)) self.old ≡ Some member) × Answers self.old self.new number member r (ask_step member.client member.clock ask.now)) }
    {
        let Some(member) = self.clients.get_mut(&number) else {
            return None;
        };
        Some(member.client.ask(member.clock, ask))
    }

    /// What keeps its session. None where nobody has joined under the number.
    pub fn beat(&mut self, number: u64) -> Option<Result<Beaten, Fault>>
        ensures none { IsNone result → lookup (is_at (nat_cmp number)) self.old ≡ None }
        ensures stay { IsNone result → self.new ≡ self.old }
        ensures some { IfSome result (λ r. (member : WorldClientState) × (lookup (is_at (nat_cmp number)) self.old ≡ Some member) × Answers self.old self.new number member r (beat_step member.client member.clock)) }
    {
        let Some(member) = self.clients.get_mut(&number) else {
            return None;
        };
        Some(member.client.beat(member.clock))
    }

    /// A message comes to it. None where nobody has joined under the number.
    pub fn give(&mut self, number: ClientNumber, out: &Out) -> Option<Result<Given, Fault>>
        ensures none { IsNone result → lookup (is_at (nat_cmp number)) self.old ≡ None }
        ensures stay { IsNone result → self.new ≡ self.old }
        ensures some { IfSome result (λ r. (member : WorldClientState) × (lookup (is_at (nat_cmp number)) self.old ≡ Some member) × Answers self.old self.new number member r (give_step member.client member.clock out.now)) }
    {
        let Some(member) = self.clients.get_mut(&number.get()) else {
            return None;
        };
        Some(member.client.give(member.clock, out))
    }

    /// A master comes up.
    pub fn come_up(&mut self, now: u64)
        ensures { self.new ≡ each_member (λ number. at_up now) self.old }
    {
        self.clients.retain(|_, member| {
            member.come_up(now);
            true
        });
    }

    /// Whether each step of its own is of a client that has joined.
    pub fn are_joined(&self, own: &[(u64, u64)]) -> bool
        ensures { result ≡ list_all (λ entry. is_some (lookup (is_at (nat_cmp entry.0)) self.now)) own.now }
    {
        own.iter().all(|entry| self.clients.contains_key(&entry.0))
    }

    /// Whether the clocks are fair then; the master's is told as it stands.
    pub fn stay_fair(&self, ticks: &Ticks, now: u64) -> bool
        ensures { result ≡ list_all (λ entry. is_fair (now + ticks.now.master) (clock_then ticks.now entry.0 entry.1) entry.1) self.now }
    {
        self.clients
            .iter()
            .all(|(number, member)| member.stays_fair(ticks, *number, now))
    }

    /// Whether a clock goes past the end of moments.
    pub fn any_goes_past_end(&self, ticks: &Ticks) -> bool
        ensures { result ≡ list_any (λ entry. nat_le moment_limit (clock_then ticks.now entry.0 entry.1)) self.now }
    {
        self.clients
            .iter()
            .any(|(number, member)| member.goes_past_end(ticks, *number))
    }

    /// The clocks move beside a master's, which is there then.
    pub fn move_beside(&mut self, ticks: &Ticks, now: u64)
        ensures { list_any (λ entry. nat_le moment_limit (clock_then ticks.now entry.0 entry.1)) self.old ≡ false
            → self.new ≡ each_member (λ number member. moved_beside now (clock_then ticks.now number member) member) self.old }
    {
        self.clients.retain(|number, member| {
            member.move_beside(ticks, *number, now);
            true
        });
    }

    /// The clocks move while no master is up.
    pub fn move_alone(&mut self, ticks: &Ticks)
        ensures { list_any (λ entry. nat_le moment_limit (clock_then ticks.now entry.0 entry.1)) self.old ≡ false
            → self.new ≡ each_member (λ number member. moved_alone (clock_then ticks.now number member) member) self.old }
    {
        self.clients.retain(|number, member| {
            member.move_alone(ticks, *number);
            true
        });
    }
}
