//! The rows of a new store, and each public call once on its happy path.
use collections::Secret;
use names_cell::{Component, Name, Principal};
use node_core::{Listing, View};
use rows_cell::{Limits, ListRecords, Records, Rows, Settings, SettingsFault, StoredNode};
use std::alloc::Global;
use std::test::Fail;

// What the standard settings hold, each with its name.
fn standard_rows(settings: &Settings) -> [(&'static str, bool); 4] {
    [
        ("cell", settings.cell().as_str() == "c"),
        ("lease", settings.lease() == 12_000),
        (
            "base",
            settings.base().as_slice() == b"ann\nbob\n".as_slice(),
        ),
        ("secret", settings.secret().as_bytes() == [0; 32].as_slice()),
    ]
}

#[test]
fn standard_settings(rt: HostRuntime) -> Result<(), Fail> {
    let settings = Settings::standard(rt.alloc())?;
    let rows = standard_rows(&settings);
    drop(settings);
    for (name, is_so) in rows {
        assert!(rt; is_so, "at {name}");
    }
    Ok(())
}

// A lease, how many principals, and why there are no such settings.
const LIMITS: &[(u64, usize, Option<SettingsFault>)] = &[
    (999, 0, Some(SettingsFault::BadLease)),
    (1_000, 0, None),
    (60_000, 0, None),
    (60_001, 0, Some(SettingsFault::BadLease)),
    (12_000, 131_073, Some(SettingsFault::TooManyPrincipals)),
];

fn principals(alloc: Global, count: usize) -> Result<Vec<Principal>, Fail> {
    let mut names = Vec::new(alloc);
    for _ in 0..count {
        names.push(Principal::parse(alloc, "a")?)?;
    }
    Ok(names)
}

fn refusal_of(
    alloc: Global,
    lease: u64,
    principals: &[Principal],
) -> Result<Option<SettingsFault>, Fail> {
    let cell = Component::parse(alloc, "c")?;
    let secret = Secret::new([0; 32]);
    Ok(Settings::new(alloc, cell, lease, principals, secret, Limits::none()).err())
}

fn refusal(alloc: Global, lease: u64, count: usize) -> Result<Option<SettingsFault>, Fail> {
    let principals = principals(alloc, count)?;
    refusal_of(alloc, lease, principals.as_slice())
}

#[test]
fn settings_at_their_limits(rt: HostRuntime) -> Result<(), Fail> {
    for (lease, count, want) in LIMITS {
        let is_so = refusal(rt.alloc(), *lease, *count)? == *want;
        assert!(rt; is_so, "at {lease} and {count}");
    }
    Ok(())
}

// The rows of a new store of the standard settings.
fn new_rows(alloc: Global) -> Result<Rows, Fail> {
    let settings = Settings::standard(alloc)?;
    let mut records = ListRecords::new(alloc, &settings)?;
    Ok(records.load()?)
}

// A name with its node, as it is printed without children.
fn node_text(alloc: Global, name: &Name, stored: &StoredNode) -> Result<String, Fail> {
    let view = View {
        node: stored.node.clone()?,
        children: Listing::new(),
    };
    let text = format!(in alloc; "{name} {view};");
    drop(view);
    Ok(text?)
}

fn nodes_of(alloc: Global, rows: &Rows) -> Result<String, Fail> {
    let mut shown = String::new(alloc);
    for (name, stored) in rows.nodes.as_map() {
        shown.push_str(node_text(alloc, name, stored)?.as_str())?;
    }
    Ok(shown)
}

const NODES: &str =
    "/ls/c dir 1 0 1 base base base permanent 0;/ls/c/acl dir 2 0 1 base base base permanent 0;/ls/c/acl/base file 3 1 1 base base base permanent 8 616e6e0a626f620a;";

fn has_its_nodes(alloc: Global, rows: &Rows) -> Result<bool, Fail> {
    let shown = nodes_of(alloc, rows)?;
    Ok(shown.as_str() == NODES)
}

// What the rows of a new store hold beside their nodes, each with its name.
fn new_facts(rows: &Rows) -> [(&'static str, bool); 3] {
    [
        ("epoch", rows.epoch == 0),
        ("next instance", rows.next_instance == 4),
        ("cell's name", rows.cell.as_str() == "c"),
    ]
}

#[test]
fn rows_of_a_new_store(rt: HostRuntime) -> Result<(), Fail> {
    let rows = new_rows(rt.alloc())?;
    let facts = new_facts(&rows);
    let nodes = has_its_nodes(rt.alloc(), &rows);
    drop(rows);
    for (name, is_so) in facts {
        assert!(rt; is_so, "at {name}");
    }
    assert!(rt; nodes?, "at the nodes");
    Ok(())
}
