//! How names are related, and their parts.
use names_cell::{AclList, Component, Name, Principal};
use std::alloc::Global;
use std::test::Fail;

#[derive(Clone, Copy)]
enum Relation {
    ChildOf,
    Before,
    Equal,
    RootOfCell,
    // The ACL file lists the principal.
    Lists,
}

const RELATIONS: &[(Relation, &str, &str, bool)] = &[
    (Relation::ChildOf, "/ls/c/d/f", "/ls/c/d", true),
    (Relation::ChildOf, "/ls/c/d", "/ls/c/d/f", false),
    (Relation::Before, "/ls/c/d", "/ls/c/d/f", true),
    (Relation::Before, "/ls/c/d/f", "/ls/c/d", false),
    (Relation::Equal, "/ls/c", "/ls/c", true),
    (Relation::Equal, "/ls/c", "/ls/d", false),
    (Relation::RootOfCell, "/ls/c", "/ls/c/d/f", true),
    (Relation::RootOfCell, "/ls/d", "/ls/c/d/f", false),
    (Relation::RootOfCell, "/ls/c/d", "/ls/c/d/f", false),
    (Relation::Lists, "ann\nbob\n", "bob", true),
    (Relation::Lists, "ann\nbob", "bob", true),
    (Relation::Lists, "bob", "bob", true),
    (Relation::Lists, "ann\n", "bob", false),
    (Relation::Lists, "bobby\nbo\n", "bob", false),
    (Relation::Lists, "", "bob", false),
];

fn stand_so(relation: Relation, one: &Name, other: &Name) -> bool {
    match relation {
        Relation::ChildOf => one.is_child_of(other),
        Relation::Before => one < other,
        Relation::Equal => one == other,
        Relation::RootOfCell => one.is_root() && other.in_cell(one.last()),
        Relation::Lists => false,
    }
}

fn names_relate(alloc: Global, relation: Relation, one: &str, other: &str) -> Result<bool, Fail> {
    let one = Name::parse(alloc, one)?;
    let other = Name::parse(alloc, other)?;
    Ok(stand_so(relation, &one, &other))
}

fn lists(alloc: Global, content: &str, principal: &str) -> Result<bool, Fail> {
    let list = AclList::read(content.as_bytes())?;
    let principal = Principal::parse(alloc, principal)?;
    Ok(list.lists(&principal))
}

fn relates(alloc: Global, relation: Relation, one: &str, other: &str) -> Result<bool, Fail> {
    match relation {
        Relation::Lists => lists(alloc, one, other),
        _ => names_relate(alloc, relation, one, other),
    }
}

#[test]
fn relations(rt: HostRuntime) -> Result<(), Fail> {
    for (relation, one, other, want) in RELATIONS {
        let is_so = relates(rt.alloc(), *relation, one, other)? == *want;
        assert!(rt; is_so, "at {one:?} and {other:?}");
    }
    Ok(())
}

#[derive(Clone, Copy)]
enum Part {
    Parent,
    Last,
    LastComponent,
    Root,
    AclFile,
}

const PARTS: &[(Part, &str, &str)] = &[
    (Part::Parent, "/ls/c/d/f", "/ls/c/d"),
    (Part::Parent, "/ls/c", "none"),
    (Part::Last, "/ls/c/d/f", "f"),
    (Part::Last, "/ls/c", "c"),
    (Part::LastComponent, "/ls/c", "c"),
    (Part::Root, "/ls/d/c", "/ls/c"),
    (Part::AclFile, "/ls/c", "/ls/c/acl/base"),
];

fn parent_of(alloc: Global, name: &Name) -> Result<String, Fail> {
    match name.parent()? {
        Some(parent) => Ok(format!(in alloc; "{parent}")?),
        None => Ok("none".to_string(alloc)?),
    }
}

fn last_of(alloc: Global, name: &Name) -> Result<String, Fail> {
    let last = name.last_component()?;
    Ok(last.as_str().to_string(alloc)?)
}

// The root of the cell whose name is the last component.
fn root_by(alloc: Global, name: &Name) -> Result<String, Fail> {
    let cell = name.last_component()?;
    let root = Name::root(alloc, &cell)?;
    Ok(root.as_str().to_string(alloc)?)
}

fn acl_file_of(alloc: Global, name: &Name) -> Result<String, Fail> {
    let acl = Component::parse(alloc, "base")?;
    let file = name.acl_file(&acl)?;
    Ok(format!(in alloc; "{file}")?)
}

fn part_of(alloc: Global, part: Part, name: &Name) -> Result<String, Fail> {
    match part {
        Part::Parent => parent_of(alloc, name),
        Part::Last => Ok(name.last().to_string(alloc)?),
        Part::LastComponent => last_of(alloc, name),
        Part::Root => root_by(alloc, name),
        Part::AclFile => acl_file_of(alloc, name),
    }
}

fn part_is(alloc: Global, part: Part, name: &str, want: &str) -> Result<bool, Fail> {
    let name = Name::parse(alloc, name)?;
    let found = part_of(alloc, part, &name)?;
    Ok(found.as_str() == want)
}

#[test]
fn parts(rt: HostRuntime) -> Result<(), Fail> {
    for (part, name, want) in PARTS {
        assert!(rt; part_is(rt.alloc(), *part, name, want)?, "{want} of {name}");
    }
    Ok(())
}
