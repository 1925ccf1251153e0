//! The four ledgers of a watch: rights issued, acknowledged and expired, and calls.
ghost use Rattle.std.specs.Prelude.{◌≡◌};

use std::sync::ledger::{Blank, Book, Ledger, Share};

/// Shares of the four ledgers.
#[derive(Drop)]
pub struct Shares<I: Ledger, A: Ledger, E: Ledger, C: Ledger> {
    pub(crate) issued: Share<I>,
    pub(crate) acknowledged: Share<A>,
    pub(crate) expired: Share<E>,
    pub(crate) calls: Share<C>,
}

/// The books of the four ledgers.
#[derive(Drop)]
pub struct Books<I: Ledger, A: Ledger, E: Ledger, C: Ledger> {
    pub issued: Book<I>,
    pub acknowledged: Book<A>,
    pub expired: Book<E>,
    pub calls: Book<C>,
}

/// Four new ledgers, which no type stands for yet.
#[derive(Drop)]
pub struct Blanks {
    pub issued: Blank,
    pub acknowledged: Blank,
    pub expired: Blank,
    pub calls: Blank,
}

impl Blanks {
    /// Four ledgers with this many parts each: one for each pass.
    pub fn new(parts: u64) -> Blanks
        ensures { (result.issued.parts ≡ parts) × (result.acknowledged.parts ≡ parts) × (result.expired.parts ≡ parts) × (result.calls.parts ≡ parts) }
    {
        Blanks {
            issued: Blank::new(parts),
            acknowledged: Blank::new(parts),
            expired: Blank::new(parts),
            calls: Blank::new(parts),
        }
    }

    /// The books, and one share of each with all parts.
    pub(crate) fn open<I: Ledger, A: Ledger, E: Ledger, C: Ledger>(
        self,
    ) -> (Books<I, A, E, C>, Shares<I, A, E, C>)
        requires issued { (self.issued.name ≡ I.name) × (self.issued.parts ≡ I.parts) }
        requires acknowledged { (self.acknowledged.name ≡ A.name) × (self.acknowledged.parts ≡ A.parts) }
        requires expired { (self.expired.name ≡ E.name) × (self.expired.parts ≡ E.parts) }
        requires calls { (self.calls.name ≡ C.name) × (self.calls.parts ≡ C.parts) }
        ensures books { (result.0.issued.total ≡ 0) × (result.0.acknowledged.total ≡ 0) × (result.0.expired.total ≡ 0) × (result.0.calls.total ≡ 0) }
        ensures parts { (result.1.issued.parts ≡ I.parts) × (result.1.acknowledged.parts ≡ A.parts) × (result.1.expired.parts ≡ E.parts) × (result.1.calls.parts ≡ C.parts) }
        ensures amounts { (result.1.issued.amount ≡ 0) × (result.1.acknowledged.amount ≡ 0) × (result.1.expired.amount ≡ 0) × (result.1.calls.amount ≡ 0) }
    {
        let Blanks {
            issued,
            acknowledged,
            expired,
            calls,
        } = self;
        let (issued_book, issued) = issued.open::<I>();
        let (acknowledged_book, acknowledged) = acknowledged.open::<A>();
        let (expired_book, expired) = expired.open::<E>();
        let (calls_book, calls) = calls.open::<C>();
        let books = Books {
            issued: issued_book,
            acknowledged: acknowledged_book,
            expired: expired_book,
            calls: calls_book,
        };
        let shares = Shares {
            issued,
            acknowledged,
            expired,
            calls,
        };
        (books, shares)
    }
}
