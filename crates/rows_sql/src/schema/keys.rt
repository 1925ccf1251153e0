//! Keys, references and indexes.
ghost use Rattle.std.specs.Prelude.{◌≡◌, ◌==◌, length, IfOk};
ghost use Rattle.rows_sql.specs.Fields.{is_key_of, has_key, is_plain, has_orders, is_to_node, is_over, is_index, index_at, is_by_child, has_by_child, is_bare, is_only_name};

use sqlite_items::Items;
use sqlite_schema::code::Terms;
use sqlite_schema::schema::{Action, Index, Reference, Table};
use sqlite_value::keys::Order;
use sqlite_value::value::Bytes;
use std::alloc::{AllocError, Global};

pub(crate) fn is_key_of(number: usize, key: Option<usize>) -> bool
    ensures { result ≡ is_key_of number key }
{
    match key {
        Some(other) => other == number,
        None => false,
    }
}

/// Whether a UNIQUE is over these places.
pub(crate) fn has_key(keys: &Items<Items<usize>>, at: usize, places: &[usize]) -> bool
    ensures { result ≡ has_key keys.now at places.now }
{
    match keys.get(at) {
        Some(key) => key.as_slice() == places,
        None => false,
    }
}

fn is_plain(orders: &Items<Order>, at: usize) -> bool
    ensures { result ≡ is_plain orders.now at }
{
    match orders.get(at) {
        Some(order) => order.digits == 0,
        None => false,
    }
}

/// Whether there are so many orders, one or two, each rising by bytes.
pub(crate) fn has_orders(orders: &Items<Order>, count: usize) -> bool
    ensures { result ≡ has_orders orders.now count }
{
    if orders.len() != count {
        return false;
    }
    if !is_plain(orders, 0) {
        return false;
    }
    if count == 1 {
        return true;
    }
    is_plain(orders, 1)
}

fn is_only_name(names: &Items<Bytes>, name: &[u8]) -> bool
    ensures { result ≡ is_only_name name.now names.now }
{
    if names.len() != 1 {
        return false;
    }
    match names.get(0) {
        Some(only) => only.as_slice() == name,
        None => false,
    }
}

/// Whether it is the reference of one column to a column of the nodes, by which a row goes with its node.
pub(crate) fn is_to_node(reference: &Reference, column: usize, name: &[u8]) -> bool
    ensures { result ≡ is_to_node column name.now reference.now }
{
    if reference.columns.as_slice() != [column].as_slice() {
        return false;
    }
    if reference.parent.as_slice() != b"nodes".as_slice() {
        return false;
    }
    if !is_only_name(&reference.parent_columns, name) {
        return false;
    }
    if !matches!(reference.on_delete, Action::Cascade) {
        return false;
    }
    if !matches!(reference.on_update, Action::NoAction) {
        return false;
    }
    !reference.is_deferred
}

fn has_no_terms(alloc: Global, terms: &Terms) -> Result<bool, AllocError>
    ensures { IfOk result (λ none. none ≡ (length terms.now == 0)) }
{
    let lent = terms.lend(alloc)?;
    Ok(lent.roots.len() == 0)
}

/// Whether it has no check, no computed default, no moment, and no number that only rises.
pub(crate) fn is_bare(alloc: Global, table: &Table) -> Result<bool, AllocError>
    ensures { IfOk result (λ bare. bare ≡ is_bare table.now) }
{
    if !has_no_terms(alloc, &table.checks)? {
        return Ok(false);
    }
    if table.computed.len() != 0 {
        return Ok(false);
    }
    if table.stamps.places.len() != 0 {
        return Ok(false);
    }
    if !has_no_terms(alloc, &table.stamps.terms)? {
        return Ok(false);
    }
    if table.stamps.formats.len() != 0 {
        return Ok(false);
    }
    Ok(!table.is_counted)
}

fn is_over(index: &Index, name: &[u8], tree: u32, table: u32, places: &[usize]) -> bool
    ensures { result ≡ is_over name.now tree table places.now index.now }
{
    if index.name.as_slice() != name {
        return false;
    }
    if index.tree != tree {
        return false;
    }
    if index.table != table {
        return false;
    }
    if index.columns.as_slice() != places {
        return false;
    }
    index.order.digits == 0
}

fn is_index(index: &Index, name: &[u8], tree: u32, table: u32, places: &[usize]) -> bool
    ensures { result ≡ is_index name.now tree table places.now index.now }
{
    if !is_over(index, name, tree, table, places) {
        return false;
    }
    index.is_unique
}

fn is_by_child(index: &Index) -> bool
    ensures { result ≡ is_by_child index.now }
{
    if !is_over(index, b"children_by_child", 9, 7, &[2]) {
        return false;
    }
    !index.is_unique
}

/// Whether the last index is that of the children by their own names.
pub(crate) fn has_by_child(indexes: &Items<Index>) -> bool
    ensures { result ≡ has_by_child indexes.now }
{
    match indexes.get(4) {
        Some(index) => is_by_child(index),
        None => false,
    }
}

/// Whether the index at a place is that of a UNIQUE.
pub(crate) fn index_at(
    indexes: &Items<Index>,
    at: usize,
    name: &[u8],
    tree: u32,
    table: u32,
    places: &[usize],
) -> bool
    ensures { result ≡ index_at indexes.now at name.now tree table places.now }
{
    match indexes.get(at) {
        Some(index) => is_index(index, name, tree, table, places),
        None => false,
    }
}
