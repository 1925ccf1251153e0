//! What the values of a table say.
ghost use Rattle.std.specs.Prelude.{◌≡◌, ◌≤◌, Some, IfOk, IfSome};
ghost use Rattle.toml.specs.View.{view, items_view};
ghost use Rattle.scripts.specs.Said.{text_of, component_in, lease_of, lease_in, principals_of, principals_in, secret_of, secret_in};

use collections::{Items, Secret};
use hex::FromHexError;
use names_cell::{Component, NameFault, Principal};
use std::alloc::{AllocError, Global};
use toml::Value;

/// A component.
pub(crate) fn cell_in(alloc: Global, value: &Value) -> Result<Option<Component>, AllocError>
    ensures { IfOk result (λ cell. cell ≡ component_in (view value.now)) }
{
    match value.as_str() {
        Some(text) => component_of(alloc, text),
        None => Ok(None),
    }
}

fn component_of(alloc: Global, text: &str) -> Result<Option<Component>, AllocError>
    ensures { IfOk result (λ cell. cell ≡ text_of (Some text.now)) }
{
    match Component::parse(alloc, text) {
        Ok(component) => Ok(Some(component)),
        Err(NameFault::NoMemory) => Err(AllocError),
        Err(_) => Ok(None),
    }
}

/// A whole number of milliseconds, 1,000 to 60,000.
pub(crate) fn lease_in(value: &Value) -> Option<u64>
    ensures said { result ≡ lease_in (view value.now) }
    ensures range { IfSome result (λ lease. (1000 ≤ lease) × (lease ≤ 60000)) }
{
    match value.as_integer() {
        Some(number) => lease_of(number),
        None => None,
    }
}

fn lease_of(number: i64) -> Option<u64>
    ensures said { result ≡ lease_of (Some number) }
    ensures range { IfSome result (λ lease. (1000 ≤ lease) × (lease ≤ 60000)) }
{
    if number < 1000 || number > 60_000 {
        return None;
    }
    Some(number.unsigned_abs())
}

fn principal_of(alloc: Global, text: &str) -> Result<Option<Principal>, AllocError>
    ensures { IfOk result (λ principal. principal ≡ text_of (Some text.now)) }
{
    match Principal::parse(alloc, text) {
        Ok(principal) => Ok(Some(principal)),
        Err(NameFault::NoMemory) => Err(AllocError),
        Err(_) => Ok(None),
    }
}

fn principal_in(alloc: Global, value: &Value) -> Result<Option<Principal>, AllocError>
    ensures { IfOk result (λ principal. principal ≡ component_in (view value.now)) }
{
    match value.as_str() {
        Some(text) => principal_of(alloc, text),
        None => Ok(None),
    }
}

/// An array of principals.
pub(crate) fn principals_in(
    alloc: Global,
    value: &Value,
) -> Result<Option<Items<Principal>>, AllocError>
    ensures { IfOk result (λ principals. principals ≡ principals_in (view value.now)) }
{
    match value.as_array() {
        Some(values) => principals_of(alloc, values.as_slice()),
        None => Ok(None),
    }
}

#[tactic(auto, using(crate::proofs::Gathered::gather_start, crate::proofs::Gathered::gather_more, crate::proofs::Gathered::gather_stop, crate::proofs::Gathered::gather_done))]
fn principals_of(alloc: Global, values: &[Value]) -> Result<Option<Items<Principal>>, AllocError>
    ensures { IfOk result (λ principals. principals ≡ principals_of (items_view values.now)) }
{
    let mut principals = Items::new(alloc);
    for value in values {
        let Some(principal) = principal_in(alloc, value)? else {
            return Ok(None);
        };
        principals.push(principal)?;
    }
    Ok(Some(principals))
}

/// 64 hexadecimal digits in lower case.
pub(crate) fn secret_in(alloc: Global, value: &Value) -> Result<Option<Secret>, AllocError>
    ensures { IfOk result (λ secret. secret ≡ secret_in (view value.now)) }
{
    match value.as_str() {
        Some(text) => secret_of(alloc, text),
        None => Ok(None),
    }
}

// `decode` takes upper case digits too, so the text of the bytes has to be this one again.
fn secret_of(alloc: Global, text: &str) -> Result<Option<Secret>, AllocError>
    ensures { IfOk result (λ secret. secret ≡ secret_of (Some text.now)) }
{
    let bytes = match hex::decode(alloc, text) {
        Ok(bytes) => bytes,
        Err(FromHexError::OutOfMemory) => return Err(AllocError),
        Err(_) => return Ok(None),
    };
    if bytes.len() != 32 {
        return Ok(None);
    }
    let again = hex::encode(alloc, bytes.as_slice())?;
    if again.as_str() != text {
        return Ok(None);
    }
    let mut secret = [0; 32];
    secret.copy_from_slice(bytes.as_slice());
    Ok(Some(Secret::new(secret)))
}
