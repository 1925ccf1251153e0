//! A client that is known to serve nothing once it has asked for the end of its session.
ghost use Rattle.std.specs.Prelude.{◌≡◌};
ghost use Rattle.client_core.specs.State.{new_client, IsOff, Does};
ghost use Rattle.client_core.specs.Asks.{ask_step};
ghost use Rattle.client_core.specs.Beats.{beat_step};
ghost use Rattle.client_core.specs.Gives.{give_step};

use client_core::{Ask, AskOutcome, Beaten, Client, Given};
use names_cell::Principal;
use node_core::Fault;
use std::alloc::Global;
use std::marker::Model;
use tags_cell::{ClientNumber, Out};

// A client from its beginning on. It does what the client does, and no step leaves the cache of one that ends its session on.
#[derive(Drop)]
pub(crate) struct Orderly {
    client: Client,
}

impl Model for Orderly {
    ghost use Rattle.client_core.specs.State.{ClientState, IsOff};

    ghost Value = { ClientState };

    ghost view = { λ o. o.client };

    ghost invariant = { λ o. IsOff o.client };
}

impl Orderly {
    // One that has done nothing yet. Takes no memory.
    pub(crate) fn new(alloc: Global, number: ClientNumber, principal: Principal) -> Orderly
        ensures { result ≡ new_client number principal }
    {
        Orderly {
            client: Client::new(alloc, number, principal),
        }
    }

    pub(crate) fn beat(&mut self, now: u64) -> Result<Beaten, Fault>
        ensures { Does self.old self.new result (beat_step self.old now) }
    {
        self.client.beat(now)
    }

    pub(crate) fn ask(&mut self, now: u64, asked: &Ask) -> Result<AskOutcome, Fault>
        ensures { Does self.old self.new result (ask_step self.old now asked.now) }
    {
        self.client.ask(now, asked)
    }

    pub(crate) fn give(&mut self, now: u64, out: &Out) -> Result<Given, Fault>
        ensures { Does self.old self.new result (give_step self.old now out.now) }
    {
        self.client.give(now, out)
    }

    // The client, lent.
    pub(crate) fn get(&self) -> &Client
        ensures same { result.now ≡ self.now }
        ensures off { IsOff self.now }
    {
        &self.client
    }
}
