//! What a group changes, in pieces that the store takes.
ghost use Rattle.std.specs.Prelude.{◌≡◌, ◌≢◌, ◌++◌, [], true, Some, OnOk, OnErr, IfErr, length};
ghost use Rattle.rows_cell.specs.Rows.{changed_rows};
ghost use Rattle.rows_cell.specs.Sound.{sound};
ghost use Rattle.rows_cell.specs.Stores.{IsCommitted, IsRefused};
ghost use Rattle.hosting.specs.Pieces.{AreSound, CommitsEach, IsCutShort, all_pieces, begun, bytes_left, content_bytes, held_with, no_pieces, room_beside};

use collections::Items;
use node_core::Fault;
use rows_cell::{Edit, MasterTerms, Records};
use std::alloc::{AllocError, Global};
use std::marker::Model;
use std::mem;

/// What one edit counts, in bytes, beside the content that it writes.
const EDIT_BYTES: u64 = 2048;

/// The most that is committed as one change of the store: so many edits, and so many bytes, of which each edit counts 2,048
/// beside the content that it writes. What one sweep changes is never parted.
#[derive(Clone, Copy)]
pub struct GroupLimits {
    pub edits: u64,
    pub bytes: u64,
}

impl GroupLimits {
    /// None: all that a group changes is one change of the store.
    pub fn none() -> GroupLimits
        ensures { result ≡ record { edits = 18446744073709551615; bytes = 18446744073709551615 } }
    {
        GroupLimits {
            edits: u64::MAX,
            bytes: u64::MAX,
        }
    }
}

/// How groups are served: by a master of these terms, and these limits for one change of the store.
#[derive(Clone, Copy)]
pub struct GroupTerms {
    pub master: MasterTerms,
    pub limits: GroupLimits,
}

/// What sweeps changed, in pieces, each for a commit of its own.
#[derive(Drop)]
pub(crate) struct Pieces {
    limits: GroupLimits,
    full: Vec<Items<Edit>>,
    last: Items<Edit>,
    // How many bytes the last one may still take.
    left: u64,
}

impl Model for Pieces {
    ghost use Rattle.std.specs.Prelude.{◌≡◌, ◌-◌};
    ghost use Rattle.hosting.specs.Pieces.{HeldPieces, total_weight};

    ghost Value = { HeldPieces };

    ghost view = { λ p. record { limits = p.limits; full = p.full.items; last = p.last } };

    ghost invariant = { λ p. p.left ≡ p.limits.bytes - total_weight p.last };
}

impl Pieces {
    pub(crate) fn new(alloc: Global, limits: GroupLimits) -> Pieces
        ensures { result ≡ no_pieces limits }
    {
        Pieces {
            limits,
            full: Vec::new(alloc),
            last: Items::new(alloc),
            left: limits.bytes,
        }
    }

    /// What one sweep changes goes into the last piece, where that stays within the limits, and else begins another.
    pub(crate) fn hold(&mut self, edits: Items<Edit>) -> Result<(), AllocError>
        ensures ok { OnOk result (self.new ≡ held_with self.old edits) }
        ensures err { OnErr result (self.new ≡ self.old) }
    {
        if edits.is_empty() {
            return Ok(());
        }
        match self.room_beside(edits.as_slice()) {
            Some(left) => self.put_beside(edits, left),
            None => self.begin(edits),
        }
    }

    /// Whether a piece is full.
    pub(crate) fn is_parted(&self) -> bool {
        !self.full.is_empty()
    }

    // How many bytes are left after these edits, where they fit into the last piece.
    fn room_beside(&self, edits: &[Edit]) -> Option<u64>
        requires { edits.now ≢ [] }
        ensures { result ≡ room_beside self.now edits.now }
    {
        let more = edits.len() as u64;
        if more > self.limits.edits || self.last.len() as u64 > self.limits.edits - more {
            return None;
        }
        bytes_left(self.left, edits)
    }

    fn put_beside(&mut self, edits: Items<Edit>, left: u64) -> Result<(), AllocError>
        requires { room_beside self.old edits ≡ Some left }
        ensures ok { OnOk result (self.new ≡ record self.old { last = self.old.last ++ edits }) }
        ensures err { OnErr result (self.new ≡ self.old) }
    {
        self.last.append(edits)?;
        self.left = left;
        Ok(())
    }

    // The last piece is full.
    fn begin(&mut self, edits: Items<Edit>) -> Result<(), AllocError>
        ensures ok { OnOk result (self.new ≡ begun self.old edits) }
        ensures err { OnErr result (self.new ≡ self.old) }
    {
        self.full.reserve(1)?;
        self.left = bytes_left(self.limits.bytes, edits.as_slice()).unwrap_or(0);
        let last = mem::replace(&mut self.last, edits);
        if !last.is_empty() {
            self.full.push_reserved(last);
        }
        Ok(())
    }

    /// Commits the pieces, one after the other. Where the store refuses one, those before it stand.
    pub(crate) fn commit<R: Records>(self, records: &mut R) -> Result<(), Fault>
        requires { AreSound (R.store records.old).cell (R.store records.old).rows (all_pieces self) }
        ensures ok { OnOk result (CommitsEach (all_pieces self) (R.store records.old) (R.store records.new)) }
        ensures err { IfErr result (λ e. IsCutShort e (all_pieces self) (R.store records.old) (R.store records.new)) }
    {
        let Pieces { full, last, .. } = self;
        match commit_each(records, full.as_slice()) {
            Ok(()) => commit_one(records, &last),
            Err(fault) => Err(fault),
        }
    }
}

fn commit_each<R: Records>(records: &mut R, pieces: &[Items<Edit>]) -> Result<(), Fault>
    requires { AreSound (R.store records.old).cell (R.store records.old).rows pieces.now }
    ensures ok { OnOk result (CommitsEach pieces.now (R.store records.old) (R.store records.new)) }
    ensures err { IfErr result (λ e. IsCutShort e pieces.now (R.store records.old) (R.store records.new)) }
{
    for piece in pieces {
        match commit_one(records, piece) {
            Ok(()) => {}
            Err(fault) => return Err(fault),
        }
    }
    Ok(())
}

fn commit_one<R: Records>(records: &mut R, piece: &Items<Edit>) -> Result<(), Fault>
    requires { sound (R.store records.old).cell (changed_rows (R.store records.old).rows piece.now) ≡ true }
    ensures ok { OnOk result (IsCommitted piece.now (R.store records.old) (R.store records.new)) }
    ensures err { IfErr result (λ e. IsRefused e piece.now (R.store records.old) (R.store records.new)) }
{
    match records.commit(piece) {
        Ok(()) => Ok(()),
        Err(fault) => Err(fault.into()),
    }
}

// How many bytes are left after edits, where they fit.
fn bytes_left(room: u64, edits: &[Edit]) -> Option<u64>
    ensures { result ≡ bytes_left room edits.now }
{
    let mut left = room;
    for edit in edits {
        left = left
            .checked_sub(EDIT_BYTES)?
            .checked_sub(content_bytes(edit))?;
    }
    Some(left)
}

fn content_bytes(edit: &Edit) -> u64
    ensures { result ≡ content_bytes edit.now }
{
    match edit {
        Edit::PutNode(_, node) => node.content.len() as u64,
        _ => 0,
    }
}
