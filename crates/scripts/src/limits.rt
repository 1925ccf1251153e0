//! The limits that settings name.
ghost use Rattle.std.specs.Prelude.{◌≡◌, Some, codes, option_map};
ghost use Rattle.toml.specs.View.{view, table_view};
ghost use Rattle.scripts.specs.Said.{is_limit, are_limits, count_of, count_in, limit_said, limits_of, limits_in};

use rows_cell::Limits;
use toml::{Table, Value};

/// A table of limits, each a whole number, 0 or more; what has no key has no limit.
pub(crate) fn limits_in(value: &Value) -> Option<Limits>
    ensures { result ≡ limits_in (view value.now) }
{
    match value.as_table() {
        Some(table) => limits_of(table),
        None => None,
    }
}

fn limits_of(table: &Table) -> Option<Limits>
    ensures { result ≡ limits_of (Some (table_view table.now)) }
{
    if !are_limits(table) {
        return None;
    }
    let max_nodes = limit_at(table, "max_nodes")?;
    let max_bytes = limit_at(table, "max_bytes")?;
    let max_locks = limit_at(table, "max_locks")?;
    Some(Limits {
        max_nodes,
        max_bytes,
        max_locks,
    })
}

fn is_limit(key: &str) -> bool
    ensures { result ≡ is_limit key.now }
{
    key == "max_nodes" || key == "max_bytes" || key == "max_locks"
}

#[tactic(auto, using(crate::proofs::Gathered::limit_left, crate::proofs::Gathered::limit_stop))]
fn are_limits(table: &Table) -> bool
    ensures { result ≡ are_limits (table_view table.now) }
{
    for (key, _value) in table {
        if !is_limit(key.as_str()) {
            return false;
        }
    }
    true
}

fn limit_at(table: &Table, key: &str) -> Option<Option<u64>>
    ensures { result ≡ limit_said key.now (table_view table.now) }
{
    match table.get(key) {
        Some(value) => count_in(value),
        None => Some(None),
    }
}

fn count_in(value: &Value) -> Option<Option<u64>>
    ensures { result ≡ count_in (view value.now) }
{
    match value.as_integer() {
        Some(number) => count_of(number),
        None => None,
    }
}

fn count_of(number: i64) -> Option<Option<u64>>
    ensures { result ≡ option_map Some (count_of (Some number)) }
{
    if number < 0 {
        return None;
    }
    Some(Some(number.unsigned_abs()))
}
