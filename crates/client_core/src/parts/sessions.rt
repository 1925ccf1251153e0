//! How a client stands with its master.
ghost use Rattle.std.specs.Prelude.{◌≡◌};
ghost use Rattle.client_core.specs.Sessions.{session_fault};
ghost use Rattle.client_core.specs.Sessions.{session_after, session_without};

use cache_core::SessionTrust;
use node_core::Fault;

/// How a client stands with its master (Burrows 2006, section 2.7).
#[derive(Clone, Copy, Debug, PartialEq, Eq)]
pub enum ClientStanding {
    /// It has had no session yet.
    Unstarted,
    Live,
    /// It had one, and has lost it.
    Lost,
    /// It never had one, and was told that it gets none.
    TurnedAway,
}

impl ClientStanding {
    /// Why no call may be made; None in a session that the client may rely on.
    pub fn fault(self, standing: SessionTrust) -> Option<Fault>
        ensures { result ≡ session_fault self standing }
    {
        match (self, standing) {
            (ClientStanding::Live, SessionTrust::Safe) => None,
            (ClientStanding::Live, SessionTrust::Jeopardy(_)) => Some(Fault::InJeopardy),
            (ClientStanding::Live, SessionTrust::Lost) | (ClientStanding::Lost, _) => Some(
                Fault::SessionExpired,
            ),
            (ClientStanding::Unstarted | ClientStanding::TurnedAway, _) => Some(Fault::NoSession),
        }
    }

    /// What a refusal of this epoch makes of it, in the client's present epoch; None where it stays.
    pub fn after(self, present: u64, epoch: u64, fault: Fault) -> Option<ClientStanding>
        ensures { result ≡ session_after self present epoch fault }
    {
        match fault {
            Fault::NoSession => self.ended_in(present, epoch),
            _ => None,
        }
    }

    // What it becomes where a master of this epoch knows no session of the client.
    fn ended_in(self, present: u64, epoch: u64) -> Option<ClientStanding>
        ensures { result ≡ session_without self present epoch }
    {
        match self {
            ClientStanding::Unstarted => Some(ClientStanding::TurnedAway),
            ClientStanding::Live if present <= epoch => Some(ClientStanding::Lost),
            ClientStanding::Live | ClientStanding::Lost | ClientStanding::TurnedAway => None,
        }
    }
}
