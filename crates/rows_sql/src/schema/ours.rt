//! Whether a schema is that of a store, field by field.
ghost use Rattle.std.specs.Prelude.{◌≡◌, ◌↔◌, IsTrue, IfOk};
ghost use Rattle.rows_sql.specs.OurSchema.{the_schema, second_schema, unindexed_schema, first_schema};
ghost use Rattle.rows_sql.specs.Fields.{is_meta, is_nodes, is_sessions, is_locks, is_children, is_bound, has_key_indexes, has_four_indexes, has_indexes, has_four, has_fifth, is_the_children, has_the_children, is_first, is_unindexed, is_second, is_ours};
ghost use Rattle.rows_sql.specs.Versions.{number_of, IsVersionOf};

use crate::schema::columns::{
    has_child_columns, has_lock_columns, has_meta_columns, has_node_columns, has_session_columns,
};
use crate::schema::keys::{
    has_by_child, has_key, has_orders, index_at, is_bare, is_key_of, is_to_node,
};
use sqlite_items::Items;
use sqlite_schema::schema::{Index, Schema, Table, View};
use std::alloc::{AllocError, Global};

/// The version of a store's schema. A store of the first has four tables; one of the second a fifth, of the children, which
/// may lack the index of these by their own names; one of now has the four, and a view of the children.
#[derive(Clone, Copy, Debug, PartialEq, Eq)]
pub enum Version {
    First,
    Unindexed,
    Second,
    Third,
}

impl Version {
    /// The number that the row of the cell has: how the rows are read, for which an index is nothing.
    pub fn number(self) -> i64
        ensures { result ≡ number_of self }
    {
        match self {
            Version::First => 1,
            Version::Unindexed => 2,
            Version::Second => 2,
            Version::Third => 3,
        }
    }
}

fn is_meta(alloc: Global, table: &Table) -> Result<bool, AllocError>
    ensures { IfOk result (λ ours. ours ≡ is_meta table.now) }
{
    if table.name.as_slice() != b"meta".as_slice() {
        return Ok(false);
    }
    if table.tree != 0 {
        return Ok(false);
    }
    if !has_meta_columns(&table.columns) {
        return Ok(false);
    }
    if !is_key_of(0, table.key) {
        return Ok(false);
    }
    if table.primary.as_slice() != [0usize].as_slice() {
        return Ok(false);
    }
    if table.uniques.len() != 0 {
        return Ok(false);
    }
    if table.orders.len() != 0 {
        return Ok(false);
    }
    if table.references.len() != 0 {
        return Ok(false);
    }
    is_bare(alloc, table)
}

fn is_nodes(alloc: Global, table: &Table) -> Result<bool, AllocError>
    ensures { IfOk result (λ ours. ours ≡ is_nodes table.now) }
{
    if table.name.as_slice() != b"nodes".as_slice() {
        return Ok(false);
    }
    if table.tree != 1 {
        return Ok(false);
    }
    if !has_node_columns(&table.columns) {
        return Ok(false);
    }
    if table.key.is_some() {
        return Ok(false);
    }
    if table.primary.as_slice() != [1usize].as_slice() {
        return Ok(false);
    }
    if table.uniques.len() != 2 {
        return Ok(false);
    }
    if !has_key(&table.uniques, 0, &[1]) {
        return Ok(false);
    }
    if !has_key(&table.uniques, 1, &[2]) {
        return Ok(false);
    }
    if !has_orders(&table.orders, 2) {
        return Ok(false);
    }
    if table.references.len() != 0 {
        return Ok(false);
    }
    is_bare(alloc, table)
}

fn is_sessions(alloc: Global, table: &Table) -> Result<bool, AllocError>
    ensures { IfOk result (λ ours. ours ≡ is_sessions table.now) }
{
    if table.name.as_slice() != b"sessions".as_slice() {
        return Ok(false);
    }
    if table.tree != 4 {
        return Ok(false);
    }
    if !has_session_columns(&table.columns) {
        return Ok(false);
    }
    if !is_key_of(0, table.key) {
        return Ok(false);
    }
    if table.primary.as_slice() != [0usize].as_slice() {
        return Ok(false);
    }
    if table.uniques.len() != 0 {
        return Ok(false);
    }
    if table.orders.len() != 0 {
        return Ok(false);
    }
    if table.references.len() != 0 {
        return Ok(false);
    }
    is_bare(alloc, table)
}

fn is_locks(alloc: Global, table: &Table) -> Result<bool, AllocError>
    ensures { IfOk result (λ ours. ours ≡ is_locks table.now) }
{
    if table.name.as_slice() != b"locks".as_slice() {
        return Ok(false);
    }
    if table.tree != 5 {
        return Ok(false);
    }
    if !has_lock_columns(&table.columns) {
        return Ok(false);
    }
    if table.key.is_some() {
        return Ok(false);
    }
    if table.primary.as_slice() != [1usize, 2, 3].as_slice() {
        return Ok(false);
    }
    if table.uniques.len() != 1 {
        return Ok(false);
    }
    if !has_key(&table.uniques, 0, &[1, 2, 3]) {
        return Ok(false);
    }
    if !has_orders(&table.orders, 1) {
        return Ok(false);
    }
    if !is_bound(table, 1, b"instance") {
        return Ok(false);
    }
    is_bare(alloc, table)
}

fn is_children(alloc: Global, table: &Table) -> Result<bool, AllocError>
    ensures { IfOk result (λ ours. ours ≡ is_children table.now) }
{
    if table.name.as_slice() != b"children".as_slice() {
        return Ok(false);
    }
    if table.tree != 7 {
        return Ok(false);
    }
    if !has_child_columns(&table.columns) {
        return Ok(false);
    }
    if table.key.is_some() {
        return Ok(false);
    }
    if table.primary.as_slice() != [1usize, 2].as_slice() {
        return Ok(false);
    }
    if table.uniques.len() != 1 {
        return Ok(false);
    }
    if !has_key(&table.uniques, 0, &[1, 2]) {
        return Ok(false);
    }
    if !has_orders(&table.orders, 1) {
        return Ok(false);
    }
    if !is_bound(table, 2, b"name") {
        return Ok(false);
    }
    is_bare(alloc, table)
}

// Whether its one reference is that of a column to a column of the nodes.
fn is_bound(table: &Table, column: usize, name: &[u8]) -> bool
    ensures { result ≡ is_bound column name.now table.now }
{
    if table.references.len() != 1 {
        return false;
    }
    match table.references.get(0) {
        Some(reference) => is_to_node(reference, column, name),
        None => false,
    }
}

// Whether the first three are those of the keys of nodes and locks.
fn has_key_indexes(indexes: &Items<Index>) -> bool
    ensures { result ≡ has_key_indexes indexes.now }
{
    if !index_at(indexes, 0, b"sqlite_autoindex_nodes_1", 2, 1, &[1]) {
        return false;
    }
    if !index_at(indexes, 1, b"sqlite_autoindex_nodes_2", 3, 1, &[2]) {
        return false;
    }
    index_at(indexes, 2, b"sqlite_autoindex_locks_1", 6, 5, &[1, 2, 3])
}

// Whether the first four are those of the keys, with that of the children.
fn has_four_indexes(indexes: &Items<Index>) -> bool
    ensures { result ≡ has_four_indexes indexes.now }
{
    if !has_key_indexes(indexes) {
        return false;
    }
    index_at(indexes, 3, b"sqlite_autoindex_children_1", 8, 7, &[1, 2])
}

// Whether there are just those and that of the children by their own names.
fn has_indexes(indexes: &Items<Index>) -> bool
    ensures { result ≡ has_indexes indexes.now }
{
    if indexes.len() != 5 {
        return false;
    }
    if !has_four_indexes(indexes) {
        return false;
    }
    has_by_child(indexes)
}

// Whether the first four tables are those of each version.
fn has_four(alloc: Global, tables: &Items<Table>) -> Result<bool, AllocError>
    ensures { IfOk result (λ has. has ≡ has_four tables.now) }
{
    let Some(meta) = tables.get(0) else {
        return Ok(false);
    };
    if !is_meta(alloc, meta)? {
        return Ok(false);
    }
    let Some(nodes) = tables.get(1) else {
        return Ok(false);
    };
    if !is_nodes(alloc, nodes)? {
        return Ok(false);
    }
    let Some(sessions) = tables.get(2) else {
        return Ok(false);
    };
    if !is_sessions(alloc, sessions)? {
        return Ok(false);
    }
    let Some(locks) = tables.get(3) else {
        return Ok(false);
    };
    is_locks(alloc, locks)
}

// Whether the fifth table is that of the children.
fn has_fifth(alloc: Global, tables: &Items<Table>) -> Result<bool, AllocError>
    ensures { IfOk result (λ has. has ≡ has_fifth tables.now) }
{
    match tables.get(4) {
        Some(children) => is_children(alloc, children),
        None => Ok(false),
    }
}

fn is_the_children(view: &View) -> bool
    ensures { result ≡ is_the_children view.now }
{
    if view.name.as_slice() != b"children".as_slice() {
        return false;
    }
    if view.tree != 7 {
        return false;
    }
    if view.sql.as_slice()
        != b"CREATE VIEW children (parent, child) AS SELECT p.name, c.name FROM nodes AS p, nodes AS c WHERE c.name > p.name || '/' AND c.name < p.name || '0' AND length(c.name) - length(replace(c.name, '/', '')) = length(p.name) - length(replace(p.name, '/', '')) + 1".as_slice()
    {
        return false;
    }
    if view.foreign.is_some() {
        return false;
    }
    if view.binds {
        return false;
    }
    !view.is_bound
}

// Whether there is just the view of the children.
fn has_the_children(views: &Items<View>) -> bool
    ensures { result ≡ has_the_children views.now }
{
    if views.len() != 1 {
        return false;
    }
    match views.get(0) {
        Some(view) => is_the_children(view),
        None => false,
    }
}

fn has_ours(alloc: Global, schema: &Schema) -> Result<bool, AllocError>
    ensures { IfOk result (λ ours. ours ≡ is_ours schema.now) }
{
    if !has_the_children(&schema.views) {
        return Ok(false);
    }
    if schema.indexes.len() != 3 {
        return Ok(false);
    }
    if !has_key_indexes(&schema.indexes) {
        return Ok(false);
    }
    if schema.tables.len() != 4 {
        return Ok(false);
    }
    has_four(alloc, &schema.tables)
}

fn has_all(alloc: Global, schema: &Schema) -> Result<bool, AllocError>
    ensures { IfOk result (λ second. second ≡ is_second schema.now) }
{
    if schema.views.len() != 0 {
        return Ok(false);
    }
    if !has_indexes(&schema.indexes) {
        return Ok(false);
    }
    if schema.tables.len() != 5 {
        return Ok(false);
    }
    if !has_four(alloc, &schema.tables)? {
        return Ok(false);
    }
    has_fifth(alloc, &schema.tables)
}

fn has_all_but_one(alloc: Global, schema: &Schema) -> Result<bool, AllocError>
    ensures { IfOk result (λ unindexed. unindexed ≡ is_unindexed schema.now) }
{
    if schema.views.len() != 0 {
        return Ok(false);
    }
    if schema.indexes.len() != 4 {
        return Ok(false);
    }
    if !has_four_indexes(&schema.indexes) {
        return Ok(false);
    }
    if schema.tables.len() != 5 {
        return Ok(false);
    }
    if !has_four(alloc, &schema.tables)? {
        return Ok(false);
    }
    has_fifth(alloc, &schema.tables)
}

fn has_first(alloc: Global, schema: &Schema) -> Result<bool, AllocError>
    ensures { IfOk result (λ first. first ≡ is_first schema.now) }
{
    if schema.views.len() != 0 {
        return Ok(false);
    }
    if schema.indexes.len() != 3 {
        return Ok(false);
    }
    if !has_key_indexes(&schema.indexes) {
        return Ok(false);
    }
    if schema.tables.len() != 4 {
        return Ok(false);
    }
    has_four(alloc, &schema.tables)
}

/// Whether a schema is that of a cell's store: the four tables with just these columns, keys and references, their
/// indexes, the view of the children, and nothing beside them. It is refused for want of memory alone, since the checks of a
/// table are lent as a copy.
pub fn is_ours(alloc: Global, schema: &Schema) -> Result<bool, AllocError>
    ensures { IfOk result (λ ours. IsTrue ours ↔ (schema.now ≡ the_schema)) }
{
    has_ours(alloc, schema)
}

// Whether a schema is that of a store of the second version: five tables and their indexes. Refused as `is_ours` is.
fn is_second(alloc: Global, schema: &Schema) -> Result<bool, AllocError>
    ensures { IfOk result (λ second. IsTrue second ↔ (schema.now ≡ second_schema)) }
{
    has_all(alloc, schema)
}

// Whether a schema is that of a store of the second version that lacks the last index alone. Refused as `is_ours` is.
fn is_unindexed(alloc: Global, schema: &Schema) -> Result<bool, AllocError>
    ensures { IfOk result (λ unindexed. IsTrue unindexed ↔ (schema.now ≡ unindexed_schema)) }
{
    has_all_but_one(alloc, schema)
}

/// Whether a schema is that of a store of the first version: the four tables alone. Refused as `is_ours` is.
pub fn is_first(alloc: Global, schema: &Schema) -> Result<bool, AllocError>
    ensures { IfOk result (λ first. IsTrue first ↔ (schema.now ≡ first_schema)) }
{
    has_first(alloc, schema)
}

/// Of which version of a cell's store a schema is, if it is that of one. Refused as `is_ours` is.
pub fn version_of(alloc: Global, schema: &Schema) -> Result<Option<Version>, AllocError>
    ensures { IfOk result (λ version. IsVersionOf schema.now version) }
{
    if is_ours(alloc, schema)? {
        return Ok(Some(Version::Third));
    }
    if is_second(alloc, schema)? {
        return Ok(Some(Version::Second));
    }
    if is_unindexed(alloc, schema)? {
        return Ok(Some(Version::Unindexed));
    }
    if is_first(alloc, schema)? {
        return Ok(Some(Version::First));
    }
    Ok(None)
}
