//! Reading settings.
ghost use Rattle.std.specs.Prelude.{◌≡◌, [], ◌∷◌, ◌≤◌, ◌⊎◌, ◌<◌, true, codes, nat_lt, length, IfOk, IfErr, IfSome, option_map, string_bytes};
ghost use Rattle.collections.specs.Results.{Gives};
ghost use Rattle.toml.specs.Errors.{IsMemory};
ghost use Rattle.toml.specs.Parse.{parse_document};
ghost use Rattle.toml.specs.View.{table_view};
ghost use Rattle.names_cell.specs.Text.{is_component};
ghost use Rattle.node_core.specs.Limits.{content_limit};
ghost use Rattle.rows_cell.specs.Settings.{base_of};
ghost use Rattle.scripts.specs.Said.{is_key, unknown_key, cell_said, lease_said, principals_said, secret_said, limits_said, Says, IsFault, IsUnread, AreSaid};

use crate::faults::TextFault;
use crate::limits::limits_in;
use crate::values::{cell_in, lease_in, principals_in, secret_in};
use collections::{Items, Secret};
use names_cell::{Component, Principal};
use rows_cell::{Limits, Settings, SettingsFault};
use std::alloc::{AllocError, Global};
use toml::{Table, de};

/// Reads settings from a text in TOML. A key that isn't there has the value of the standard settings. Faults are found
/// in this order: what is no TOML, an unknown key (the first in the order of keys), and then the values of `cell`,
/// `lease`, `principals`, `secret` and `limits`.
pub fn read_settings(alloc: Global, text: &str) -> Result<Settings, TextFault>
    ensures ok { IfOk result (λ settings. AreSaid text.now settings) }
    ensures err { IfErr result (λ fault. IsUnread text.now fault) }
{
    match toml::table_from_str(alloc, text) {
        Ok(table) => settings_of(alloc, &table),
        Err(error) => Err(unread(error)),
    }
}

fn settings_of(alloc: Global, table: &Table) -> Result<Settings, TextFault>
    ensures ok { IfOk result (λ settings. Says (table_view table.now) settings) }
    ensures err { IfErr result (λ fault. IsFault (table_view table.now) fault) }
{
    if let Some(key) = unknown_key(alloc, table)? {
        return Err(TextFault::UnknownKey(key));
    }
    let Some(cell) = cell_at(alloc, table)? else {
        return Err(TextFault::WrongCell);
    };
    let Some(lease) = lease_at(table) else {
        return Err(TextFault::WrongLease);
    };
    let Some(principals) = principals_at(alloc, table)? else {
        return Err(TextFault::WrongPrincipals);
    };
    let Some(secret) = secret_at(alloc, table)? else {
        return Err(TextFault::WrongSecret);
    };
    let Some(limits) = limits_at(table) else {
        return Err(TextFault::WrongLimits);
    };
    made(alloc, cell, lease, principals.as_slice(), secret, limits)
}

fn made(
    alloc: Global,
    cell: Component,
    lease: u64,
    principals: &[Principal],
    secret: Secret,
    limits: Limits,
) -> Result<Settings, TextFault>
    requires { (1000 ≤ lease) × (lease ≤ 60000) }
    ensures ok { IfOk result (λ s. (s.cell ≡ cell) × (s.lease ≡ lease) × (s.base ≡ base_of principals.now) × (s.secret ≡ secret) × (s.limits ≡ limits)) }
    ensures err { IfErr result (λ e. (e ≡ TextFault.NoMemory) ⊎ ((e ≡ TextFault.WrongPrincipals) × (nat_lt content_limit (length (base_of principals.now)) ≡ true))) }
{
    match Settings::new(alloc, cell, lease, principals, secret, limits) {
        Ok(settings) => Ok(settings),
        Err(SettingsFault::NoMemory) => Err(TextFault::NoMemory),
        Err(SettingsFault::BadLease) => Err(TextFault::WrongLease),
        Err(SettingsFault::TooManyPrincipals) => Err(TextFault::WrongPrincipals),
    }
}

fn is_key(key: &str) -> bool
    ensures { result ≡ is_key key.now }
{
    key == "cell" || key == "lease" || key == "principals" || key == "secret" || key == "limits"
}

#[tactic(auto, using(crate::proofs::Gathered::key_left, crate::proofs::Gathered::key_stop))]
fn unknown_key(alloc: Global, table: &Table) -> Result<Option<String>, AllocError>
    ensures { IfOk result (λ key. option_map (λ k. string_bytes k) key ≡ unknown_key (table_view table.now)) }
{
    for (key, _value) in table {
        if !is_key(key.as_str()) {
            return Ok(Some(String::from_str(alloc, key.as_str())?));
        }
    }
    Ok(None)
}

fn cell_at(alloc: Global, table: &Table) -> Result<Option<Component>, AllocError>
    ensures { IfOk result (λ cell. cell ≡ cell_said (table_view table.now)) }
{
    match table.get("cell") {
        Some(value) => cell_in(alloc, value),
        None => Ok(Some(component(alloc, "c")?)),
    }
}

fn lease_at(table: &Table) -> Option<u64>
    ensures said { result ≡ lease_said (table_view table.now) }
    ensures range { IfSome result (λ lease. (1000 ≤ lease) × (lease ≤ 60000)) }
{
    match table.get("lease") {
        Some(value) => lease_in(value),
        None => Some(12_000),
    }
}

fn principals_at(alloc: Global, table: &Table) -> Result<Option<Items<Principal>>, AllocError>
    ensures { IfOk result (λ principals. principals ≡ principals_said (table_view table.now)) }
{
    match table.get("principals") {
        Some(value) => principals_in(alloc, value),
        None => Ok(Some(standard_principals(alloc)?)),
    }
}

fn secret_at(alloc: Global, table: &Table) -> Result<Option<Secret>, AllocError>
    ensures { IfOk result (λ secret. secret ≡ secret_said (table_view table.now)) }
{
    match table.get("secret") {
        Some(value) => secret_in(alloc, value),
        None => Ok(Some(Secret::new([0; 32]))),
    }
}

fn limits_at(table: &Table) -> Option<Limits>
    ensures { result ≡ limits_said (table_view table.now) }
{
    match table.get("limits") {
        Some(value) => limits_in(value),
        None => Some(Limits::none()),
    }
}

fn standard_principals(alloc: Global) -> Result<Items<Principal>, AllocError>
    ensures { IfOk result (λ principals. principals ≡ codes "ann" ∷ codes "bob" ∷ []) }
{
    let mut principals = Items::new(alloc);
    principals.push(principal(alloc, "ann")?)?;
    principals.push(principal(alloc, "bob")?)?;
    Ok(principals)
}

fn unread(error: de::Error) -> TextFault
    ensures { (IsMemory error → result ≡ TextFault.NoMemory) × ((IsMemory error → ⊥) → result ≡ TextFault.NotToml error) }
{
    if error.is_memory() {
        TextFault::NoMemory
    } else {
        TextFault::NotToml(error)
    }
}

// A text that is a component.
fn component(alloc: Global, text: &str) -> Result<Component, AllocError>
    requires { is_component text.now ≡ true }
    ensures { IfOk result (λ c. c ≡ text.now) }
{
    Component::parse(alloc, text).map_err(|_| AllocError)
}

// A text that is a principal.
fn principal(alloc: Global, text: &str) -> Result<Principal, AllocError>
    requires { is_component text.now ≡ true }
    ensures { IfOk result (λ p. p ≡ text.now) }
{
    Principal::parse(alloc, text).map_err(|_| AllocError)
}
