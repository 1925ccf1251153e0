//! Settings of a cell.
ghost use Rattle.std.specs.Prelude.{◌≡◌, ◌≤◌, Ok, IfOk, length, true};
ghost use Rattle.collections.specs.Results.{Gives};
ghost use Rattle.names_cell.specs.Text.{is_component};
ghost use Rattle.rows_cell.specs.Settings.{settled_or, base_of, standard, no_limits, terms_of};

use collections::{Bytes, Secret};
use names_cell::{Component, Principal};
use node_core::CONTENT_LIMIT;
use std::alloc::{AllocError, Global};
use std::marker::Model;
use thiserror::Error;

/// Why settings are turned away.
#[derive(Clone, Copy, Debug, PartialEq, Eq, Error)]
pub enum SettingsFault {
    #[error("out of memory")]
    NoMemory,
    #[error("the lease is not within 1,000 to 60,000 ms")]
    BadLease,
    #[error("the principals fill more than 262,144 bytes")]
    TooManyPrincipals,
}

impl From<AllocError> for SettingsFault {
    ghost use Rattle.std.specs.Prelude.{◌≡◌};
    ghost use Rattle.rows_cell.specs.declared.settings.SettingsFault.TheVariants.{NoMemory};

    ghost from_gives = { λ _ e. e ≡ NoMemory };

    fn from(_e: AllocError) -> SettingsFault {
        SettingsFault::NoMemory
    }
}

/// What a cell holds at most; None where there is no limit. Calls that would go beyond one are refused. Where more is there when
/// the limit is set, that stays, and doesn't grow. How much a principal wrote is no limit here, because no row says who wrote a
/// content.
#[derive(Clone, Copy, Debug)]
pub struct Limits {
    /// Nodes.
    pub max_nodes: Option<u64>,
    /// Bytes of all contents.
    pub max_bytes: Option<u64>,
    /// Locks that one session holds or waits for.
    pub max_locks: Option<u64>,
}

impl Limits {
    pub fn none() -> Limits
        ensures { result ≡ no_limits }
    {
        Limits {
            max_nodes: None,
            max_bytes: None,
            max_locks: None,
        }
    }
}

/// What a master goes by: its lease, in milliseconds, and what the cell holds at most.
#[derive(Clone, Copy, Debug)]
pub struct MasterTerms {
    pub lease: u64,
    pub limits: Limits,
}

/// What a cell is set to: its name, its lease, the principals of the ACL `base` in a new store, the secret of a new
/// store, and what it holds at most.
#[derive(Debug, Drop)]
pub struct Settings {
    cell: Component,
    lease: u64,
    base: Bytes,
    secret: Secret,
    limits: Limits,
}

impl Model for Settings {
    ghost use Rattle.std.specs.Prelude.{◌≤◌, length};
    ghost use Rattle.rows_cell.specs.Settings.{Settled};

    ghost Value = { Settled };

    ghost view = { λ s. record { cell = s.cell; lease = s.lease; base = s.base; secret = s.secret; limits = s.limits } };

    ghost invariant = { λ s. (1000 ≤ s.lease) × (s.lease ≤ 60000) × (length s.base ≤ 262144) };
}

impl Settings {
    /// Takes settings, the lease in milliseconds.
    pub fn new(
        alloc: Global,
        cell: Component,
        lease: u64,
        principals: &[Principal],
        secret: Secret,
        limits: Limits,
    ) -> Result<Settings, SettingsFault>
        ensures { Gives SettingsFault.NoMemory result (settled_or cell lease (base_of principals.now) secret limits) }
    {
        if lease < 1000 || lease > 60_000 {
            return Err(SettingsFault::BadLease);
        }
        let base = base_of(alloc, principals)?;
        if base.len() > CONTENT_LIMIT {
            return Err(SettingsFault::TooManyPrincipals);
        }
        Ok(Settings {
            cell,
            lease,
            base,
            secret,
            limits,
        })
    }

    /// The cell `c` with a lease of 12,000 ms, the principals `ann` and `bob`, a secret of zeros and no limits.
    pub fn standard(alloc: Global) -> Result<Settings, SettingsFault>
        ensures { Gives SettingsFault.NoMemory result (Ok standard) }
    {
        let cell = component(alloc, "c")?;
        let ann = principal(alloc, "ann")?;
        let bob = principal(alloc, "bob")?;
        let secret = Secret::new([0; 32]);
        Settings::new(alloc, cell, 12_000, &[ann, bob], secret, Limits::none())
    }

    pub fn cell(&self) -> &Component
        ensures { result.now ≡ self.now.cell }
    {
        &self.cell
    }

    /// In milliseconds.
    pub fn lease(&self) -> u64
        ensures lease { result ≡ self.now.lease }
        ensures range { (1000 ≤ result) × (result ≤ 60000) }
    {
        self.lease
    }

    /// What the ACL `base` holds in a new store.
    pub fn base(&self) -> &Bytes
        ensures base { result.now ≡ self.now.base }
        ensures fits { length self.now.base ≤ 262144 }
    {
        &self.base
    }

    pub fn secret(&self) -> &Secret
        ensures { result.now ≡ self.now.secret }
    {
        &self.secret
    }

    /// What a master of the cell goes by.
    pub fn terms(&self) -> MasterTerms
        ensures terms { result ≡ terms_of self.now }
        ensures range { (1000 ≤ result.lease) × (result.lease ≤ 60000) }
    {
        MasterTerms {
            lease: self.lease,
            limits: self.limits,
        }
    }
}

// A line for each principal.
fn base_of(alloc: Global, principals: &[Principal]) -> Result<Bytes, AllocError>
    ensures { IfOk result (λ base. base ≡ base_of principals.now) }
{
    let mut text = Vec::new(alloc);
    for principal in principals {
        text.extend_from_slice(principal.as_str().as_bytes())?;
        text.push(b'\n')?;
    }
    Bytes::from_vec(text)
}

/// A text that is known to be a component. Refused where memory is wanting alone.
pub fn component(alloc: Global, text: &str) -> Result<Component, AllocError>
    requires { is_component text.now ≡ true }
    ensures { IfOk result (λ c. c ≡ text.now) }
{
    Component::parse(alloc, text).map_err(|_| AllocError)
}

// A text that is a principal.
fn principal(alloc: Global, text: &str) -> Result<Principal, AllocError>
    requires { is_component text.now ≡ true }
    ensures { IfOk result (λ p. p ≡ text.now) }
{
    Principal::parse(alloc, text).map_err(|_| AllocError)
}
