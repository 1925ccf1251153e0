//! The columns of the tables.
ghost use Rattle.std.specs.Prelude.{◌≡◌};
ghost use Rattle.rows_sql.specs.Fields.{is_needed, needed_at, has_meta_columns, has_node_numbers, has_node_texts, has_node_columns, has_session_columns, has_lock_columns, has_child_columns, same_kind};

use sqlite_items::Items;
use sqlite_schema::schema::{Column, Kind};
use sqlite_value::keys::Collation;
use sqlite_value::value::Value;

fn is_needed(column: &Column, name: &[u8], kind: Kind) -> bool
    ensures { result ≡ is_needed name.now kind column.now }
{
    if column.name.as_slice() != name {
        return false;
    }
    if !same_kind(column.kind, kind) {
        return false;
    }
    if !column.is_strict {
        return false;
    }
    if !column.not_null {
        return false;
    }
    if !matches!(column.default, Value::Null) {
        return false;
    }
    matches!(column.collation, Collation::Binary)
}

fn needed_at(columns: &Items<Column>, at: usize, name: &[u8], kind: Kind) -> bool
    ensures { result ≡ needed_at columns.now at name.now kind }
{
    match columns.get(at) {
        Some(column) => is_needed(column, name, kind),
        None => false,
    }
}

fn same_kind(a: Kind, b: Kind) -> bool
    ensures { result ≡ same_kind a b }
{
    match (a, b) {
        (Kind::Integer, Kind::Integer) => true,
        (Kind::Text, Kind::Text) => true,
        (Kind::Blob, Kind::Blob) => true,
        _ => false,
    }
}

pub(crate) fn has_meta_columns(columns: &Items<Column>) -> bool
    ensures { result ≡ has_meta_columns columns.now }
{
    if columns.len() != 6 {
        return false;
    }
    if !needed_at(columns, 0, b"id", Kind::Integer) {
        return false;
    }
    if !needed_at(columns, 1, b"version", Kind::Integer) {
        return false;
    }
    if !needed_at(columns, 2, b"cell", Kind::Text) {
        return false;
    }
    if !needed_at(columns, 3, b"secret", Kind::Blob) {
        return false;
    }
    if !needed_at(columns, 4, b"epoch", Kind::Integer) {
        return false;
    }
    needed_at(columns, 5, b"next_instance", Kind::Integer)
}

fn has_node_numbers(columns: &Items<Column>) -> bool
    ensures { result ≡ has_node_numbers columns.now }
{
    if !needed_at(columns, 1, b"instance", Kind::Integer) {
        return false;
    }
    if !needed_at(columns, 2, b"kind", Kind::Integer) {
        return false;
    }
    if !needed_at(columns, 3, b"life", Kind::Integer) {
        return false;
    }
    if !needed_at(columns, 4, b"content_gen", Kind::Integer) {
        return false;
    }
    if !needed_at(columns, 5, b"acl_gen", Kind::Integer) {
        return false;
    }
    needed_at(columns, 6, b"lock_gen", Kind::Integer)
}

fn has_node_texts(columns: &Items<Column>) -> bool
    ensures { result ≡ has_node_texts columns.now }
{
    if !needed_at(columns, 0, b"name", Kind::Text) {
        return false;
    }
    if !needed_at(columns, 7, b"acl_read", Kind::Text) {
        return false;
    }
    if !needed_at(columns, 8, b"acl_write", Kind::Text) {
        return false;
    }
    if !needed_at(columns, 9, b"acl_change", Kind::Text) {
        return false;
    }
    needed_at(columns, 10, b"content", Kind::Blob)
}

pub(crate) fn has_node_columns(columns: &Items<Column>) -> bool
    ensures { result ≡ has_node_columns columns.now }
{
    if columns.len() != 11 {
        return false;
    }
    if !has_node_numbers(columns) {
        return false;
    }
    has_node_texts(columns)
}

pub(crate) fn has_session_columns(columns: &Items<Column>) -> bool
    ensures { result ≡ has_session_columns columns.now }
{
    if columns.len() != 3 {
        return false;
    }
    if !needed_at(columns, 0, b"client", Kind::Integer) {
        return false;
    }
    if !needed_at(columns, 1, b"principal", Kind::Text) {
        return false;
    }
    needed_at(columns, 2, b"live", Kind::Integer)
}

pub(crate) fn has_lock_columns(columns: &Items<Column>) -> bool
    ensures { result ≡ has_lock_columns columns.now }
{
    if columns.len() != 5 {
        return false;
    }
    if !needed_at(columns, 0, b"instance", Kind::Integer) {
        return false;
    }
    if !needed_at(columns, 1, b"client", Kind::Integer) {
        return false;
    }
    if !needed_at(columns, 2, b"handle", Kind::Integer) {
        return false;
    }
    if !needed_at(columns, 3, b"mode", Kind::Integer) {
        return false;
    }
    needed_at(columns, 4, b"delay", Kind::Integer)
}

pub(crate) fn has_child_columns(columns: &Items<Column>) -> bool
    ensures { result ≡ has_child_columns columns.now }
{
    if columns.len() != 2 {
        return false;
    }
    if !needed_at(columns, 0, b"parent", Kind::Text) {
        return false;
    }
    needed_at(columns, 1, b"child", Kind::Text)
}
