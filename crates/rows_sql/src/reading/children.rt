//! The children of directories, as the nodes make them.
ghost use Rattle.std.specs.Prelude.{◌≡◌, ◌↔◌, IsTrue, IfOk, OnOk, OnErr};
ghost use Rattle.names_cell.specs.Text.{parent_of};
ghost use Rattle.rows_sql.specs.Children.{children_of, children_for, put_under};

use crate::schema::Version;
use collections::Table;
use names_cell::Name;
use rows_cell::StoredNode;
use std::alloc::{AllocError, Global};

/// The fifth list of a cell's rows: the names of all nodes but the root, each with that of its parent. One pass over the
/// nodes.
pub fn children_of(
    alloc: Global,
    nodes: &Table<Name, StoredNode>,
) -> Result<Table<Name, Name>, AllocError>
    ensures { IfOk result (λ children. children ≡ children_of nodes.now) }
{
    let stored = nodes.as_map();
    let _count = stored.len();
    let mut children = Table::new(alloc);
    for (name, _node) in stored {
        put_under(&mut children, name)?;
    }
    Ok(children)
}

// Puts a name under its parent, where it has one.
fn put_under(children: &mut Table<Name, Name>, name: &Name) -> Result<(), AllocError>
    ensures { OnOk result (children.new ≡ put_under name.now (parent_of name.now) children.old) }
{
    let Some(parent) = name.parent()? else {
        return Ok(());
    };
    children.put(name.clone()?, parent)?;
    Ok(())
}

/// What the fifth table of a store of this version has to say: none in the first and in one of now, which have no such table.
pub(crate) fn children_for(
    alloc: Global,
    version: Version,
    nodes: &Table<Name, StoredNode>,
) -> Result<Table<Name, Name>, AllocError>
    ensures { IfOk result (λ children. children ≡ children_for version nodes.now) }
{
    match version {
        Version::First => Ok(Table::new(alloc)),
        Version::Third => Ok(Table::new(alloc)),
        Version::Unindexed | Version::Second => children_of(alloc, nodes),
    }
}

/// Whether two tables are the same.
pub(crate) fn are_same(a: &Table<Name, Name>, b: &Table<Name, Name>) -> bool
    ensures { IsTrue result ↔ (a.now ≡ b.now) }
{
    a.as_map() == b.as_map()
}
