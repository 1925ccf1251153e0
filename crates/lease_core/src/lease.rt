//! A lease as the client counts it.
ghost use Rattle.std.specs.Prelude.{◌≡◌, ◌↔◌, IsTrue};
ghost use Rattle.std.specs.Option.{SomeIff};
ghost use Rattle.lease_core.specs.Lease.{IsMoment, IsUnexpired, is_unexpired, IsBetter, is_better};

use std::marker::Model;

/// Every moment and every span of the cell is below this many milliseconds, so that no sum of theirs overflows.
pub const MOMENT_LIMIT: u64 = 1 << 53;

/// The right to rely on a session for a span of time: when the client sent the request that the master answered, by the client's
/// clock, and how long the master promised the session from then on (Gray and Cheriton 1989, section 2; Burrows 2006, section 2.8).
/// Both are milliseconds below 2^53.
///
/// The client counts from the sending, which is before the master received the request. So where clocks are fair the master's promise
/// ends no earlier than the client's count of it. A lease of span 0 is never unexpired.
#[derive(Clone, Copy, Debug, PartialEq, Eq)]
pub struct Lease {
    sent: u64,
    span: u64,
}

impl Model for Lease {
    ghost use Rattle.lease_core.specs.Lease.{IsMoment, LeaseTerms};

    ghost Value = { LeaseTerms };

    ghost view = { λ lease. record { sent = lease.sent; span = lease.span } };

    ghost invariant = { λ lease. IsMoment lease.sent × IsMoment lease.span };

    ghost inverse = { λ terms. record { sent = terms.sent; span = terms.span } };
}

impl Lease {
    /// The lease of a request sent at `sent` and answered with `span`. None where either isn't below 2^53.
    pub fn new(sent: u64, span: u64) -> Option<Lease>
        ensures { SomeIff result (IsMoment sent × IsMoment span) (record { sent = sent; span = span }) }
    {
        if sent < MOMENT_LIMIT && span < MOMENT_LIMIT {
            Some(Lease { sent, span })
        } else {
            None
        }
    }

    /// When the request was sent, in milliseconds by the client's clock.
    pub fn sent(self) -> u64
        ensures value { result ≡ self.sent }
        ensures moment { IsMoment result }
    {
        self.sent
    }

    /// How long the lease runs from the sending on, in milliseconds by the master's clock.
    pub fn span(self) -> u64
        ensures value { result ≡ self.span }
        ensures moment { IsMoment result }
    {
        self.span
    }

    /// Whether the lease still runs when the client's clock stands at `now`, which may be any number of milliseconds.
    ///
    /// The master's clock may gain one part in sixteen on the client's, and a millisecond more since both count whole ones. So a lease
    /// of 12,000 ms runs for 11,293 ms by the client's clock, and at 11,294 it has ended.
    pub fn unexpired(self, now: u64) -> bool
        ensures fact { IsTrue result ↔ IsUnexpired self.sent self.span now }
        ensures test { result ≡ is_unexpired self.sent self.span now }
    {
        let elapsed = now.saturating_sub(self.sent);
        // From there on the lease has ended whatever its span, and the products below stay within 2^58.
        elapsed < MOMENT_LIMIT && 17 * (elapsed + 1) < 16 * self.span
    }

    /// Whether this lease ends later than the other by the client's clock; of two that end together neither is better. The sums stay within
    /// 2^59.
    pub fn better(self, other: Lease) -> bool
        ensures fact { IsTrue result ↔ IsBetter self other }
        ensures test { result ≡ is_better self other }
    {
        17 * self.sent + 16 * self.span > 17 * other.sent + 16 * other.span
    }
}
