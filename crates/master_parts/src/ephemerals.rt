//! The ephemeral nodes that are to go by themselves.
ghost use Rattle.std.specs.Prelude.{◌≡◌, find, IfOk};
ghost use Rattle.std.specs.Option.{option_map};
ghost use Rattle.master_parts.specs.Ephemerals.{is_left, tidies, goes, idle_of, idle_at, first_idle};

use crate::nodes::is_ephemeral;
use crate::pending::{Orphan, Task};
use crate::tables::Tables;
use collections::Table;
use names_cell::Name;
use node_core::Node;
use std::alloc::AllocError;

// The first of these names whose node is to go.
pub(crate) fn first_among(
    tables: &Tables,
    names: &Table<Name, ()>,
) -> Result<Option<Orphan>, AllocError>
    ensures { IfOk result (λ idle. idle ≡ first_idle tables.now names.now) }
{
    for (name, _) in names.as_map() {
        if let Some(idle) = idle_at(tables, name)? {
            return Ok(Some(idle));
        }
    }
    Ok(None)
}

pub(crate) fn first_of_all(tables: &Tables) -> Result<Option<Orphan>, AllocError>
    ensures { IfOk result (λ idle. idle ≡ option_map idle_of (find (goes tables.now) tables.now.nodes)) }
{
    for (name, node) in tables.nodes().map().as_map() {
        if goes(tables, name, node)? {
            return Ok(Some(idle_of(name, node)?));
        }
    }
    Ok(None)
}

// The node of a name, where it is to go.
pub(crate) fn idle_at(tables: &Tables, name: &Name) -> Result<Option<Orphan>, AllocError>
    ensures { IfOk result (λ idle. idle ≡ idle_at tables.now name.now) }
{
    let Some(node) = tables.nodes().map().get(name) else {
        return Ok(None);
    };
    if goes(tables, name, node)? {
        Ok(Some(idle_of(name, node)?))
    } else {
        Ok(None)
    }
}

fn goes(tables: &Tables, name: &Name, node: &Node) -> Result<bool, AllocError>
    ensures { IfOk result (λ goes_so. goes_so ≡ goes tables.now (name.now, node.now)) }
{
    if is_left(tables, name, node)? {
        Ok(!tables.has_its_turn(node.instance))
    } else {
        Ok(false)
    }
}

// Whether it is an ephemeral node that nobody holds open.
pub(crate) fn is_left(tables: &Tables, name: &Name, node: &Node) -> Result<bool, AllocError>
    ensures { IfOk result (λ left. left ≡ is_left tables.now name.now node.now) }
{
    if !is_ephemeral(node.life) {
        return Ok(false);
    }
    if tables.is_held_open(node.instance) {
        return Ok(false);
    }
    Ok(!tables.must_stay(name)?)
}

pub(crate) fn tidies(instance: u64, task: &Task) -> bool
    ensures { result ≡ tidies instance task.now }
{
    match task {
        Task::Asked(_) => false,
        Task::Tidies(idle) => idle.instance == instance,
    }
}

fn idle_of(name: &Name, node: &Node) -> Result<Orphan, AllocError>
    ensures { IfOk result (λ idle. idle ≡ idle_of (name.now, node.now)) }
{
    Ok(Orphan {
        name: name.clone()?,
        instance: node.instance,
    })
}
