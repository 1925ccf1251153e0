//! Rows in memory.
ghost use Rattle.std.specs.Prelude.{◌≡◌, ◌++◌, true, IfOk, OnOk, codes};
ghost use Rattle.std.specs.BTreeMap.{insert_entry};
ghost use Rattle.std.specs.Cmp.Lexicographic.{slice_cmp};
ghost use Rattle.std.specs.Ordering.{nat_cmp};
ghost use Rattle.names_cell.specs.Text.{root_of};
ghost use Rattle.rows_cell.specs.Opening.{opening, opening_node};
ghost use Rattle.rows_cell.specs.Sound.{sound};

use crate::records::{Records, StoreFault};
use crate::settings::{Settings, component};
use crate::tables::{Edit, Rows, StoredNode};
use collections::{Bytes, Items, Table};
use names_cell::{Component, Name};
use node_core::{Kind, Life, Node};
use std::alloc::{AllocError, Global};

/// Rows in memory, which no crash outlives. No call is refused but for want of memory.
#[derive(Drop)]
pub struct ListRecords {
    alloc: Global,
    rows: Rows,
    ghost sound_rows: { sound rows.cell rows ≡ true },
}

impl ListRecords {
    /// The rows of a new store: the root, the directory of the ACLs, and the ACL `base` with the settings' principals.
    pub fn new(alloc: Global, settings: &Settings) -> Result<ListRecords, AllocError>
        ensures { IfOk result (λ records. records.rows ≡ opening settings.now) }
    {
        let _cell = settings.cell().as_str();
        let _base = settings.base();
        let rows = opening(alloc, settings)?;
        Ok(ListRecords { alloc, rows })
    }
}

impl Records for ListRecords {
    ghost use Rattle.std.specs.Prelude.{◌∷◌, []};

    ghost store = { λ s. record { cell = s.rows.cell; rows = s.rows; may_leave = s.rows ∷ []; refusals = 0; doubt = 0 } };

    fn load(&mut self) -> Result<Rows, StoreFault> {
        Ok(self.rows.clone()?)
    }

    fn commit(&mut self, change: &Items<Edit>) -> Result<(), StoreFault> {
        self.rows.change(self.alloc, change.as_slice())?;
        Ok(())
    }
}

fn opening(alloc: Global, settings: &Settings) -> Result<Rows, AllocError>
    ensures { IfOk result (λ rows. rows ≡ opening settings.now) }
{
    let base = component(alloc, "base")?;
    Ok(Rows {
        cell: settings.cell().clone()?,
        secret: settings.secret().clone()?,
        epoch: 0,
        next_instance: 4,
        nodes: opening_nodes(alloc, settings, &base)?,
        sessions: Table::new(alloc),
        ended_below: 0,
        locks: Table::new(alloc),
    })
}

fn opening_nodes(
    alloc: Global,
    settings: &Settings,
    base: &Component,
) -> Result<Table<Name, StoredNode>, AllocError>
    requires { base.now ≡ codes "base" }
    ensures { IfOk result (λ nodes. nodes ≡ (opening settings.now).nodes) }
{
    let (root, directory, file) = opening_names(alloc, settings.cell(), base)?;
    let mut nodes = Table::new(alloc);
    let nothing = Bytes::copy_of(alloc, &[])?;
    put_opening(&mut nodes, root, Kind::Directory, 1, base, nothing)?;
    let nothing = Bytes::copy_of(alloc, &[])?;
    put_opening(&mut nodes, directory, Kind::Directory, 2, base, nothing)?;
    let content = settings.base().clone()?;
    put_opening(&mut nodes, file, Kind::File, 3, base, content)?;
    Ok(nodes)
}

// Puts a new node under one ACL.
fn put_opening(
    nodes: &mut Table<Name, StoredNode>,
    name: Name,
    kind: Kind,
    instance: u64,
    acl: &Component,
    content: Bytes,
) -> Result<(), AllocError>
    ensures { OnOk result (nodes.new ≡ insert_entry (slice_cmp nat_cmp) nodes.old name (opening_node kind instance acl.now content)) }
{
    nodes.put(name, opening_node(kind, instance, acl, content)?)?;
    Ok(())
}

// The root, the directory of the ACLs, and the file of the ACL `base`.
fn opening_names(
    alloc: Global,
    cell: &Component,
    base: &Component,
) -> Result<(Name, Name, Name), AllocError>
    requires { base.now ≡ codes "base" }
    ensures root { IfOk result (λ names. names.0 ≡ root_of cell.now) }
    ensures directory { IfOk result (λ names. names.1 ≡ root_of cell.now ++ codes "/acl") }
    ensures file { IfOk result (λ names. names.2 ≡ root_of cell.now ++ codes "/acl/base") }
{
    let _cell = cell.as_str();
    let root = Name::root(alloc, cell)?;
    let file = root.acl_file(base)?;
    let directory = file.parent()?.unwrap();
    Ok((root, directory, file))
}

// A new node under one ACL.
fn opening_node(
    kind: Kind,
    instance: u64,
    acl: &Component,
    content: Bytes,
) -> Result<StoredNode, AllocError>
    ensures { IfOk result (λ node. node ≡ opening_node kind instance acl.now content) }
{
    let content_generation = match kind {
        Kind::File => 1,
        Kind::Directory => 0,
    };
    Ok(StoredNode {
        node: Node {
            kind,
            instance,
            content_generation,
            acl_generation: 1,
            read: acl.clone()?,
            write: acl.clone()?,
            change: acl.clone()?,
            life: Life::Permanent,
            content,
        },
        lock_generation: 0,
    })
}
