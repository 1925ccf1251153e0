//! Who may do what.
ghost use Rattle.std.specs.Prelude.{◌≡◌, IfOk};
ghost use Rattle.node_core.specs.Access.{lists, permitted};

use crate::kinds::{Kind, Right};
use crate::maps::Map;
use crate::nodes::Node;
use names_cell::{AclList, Principal};
use std::alloc::AllocError;

/// Whether the principal has the right to this node: the ACL that it names for the right is a file
/// of the map's cell, `/ls/`, the cell, `/acl/` and the ACL's name. A missing file, a directory and a file that is not
/// well formed permit nobody (Burrows 2006, section 2.3).
pub fn permitted(
    map: &Map,
    principal: &Principal,
    node: &Node,
    right: Right,
) -> Result<bool, AllocError>
    ensures { IfOk result (λ allowed. allowed ≡ permitted map.now principal.now node.now right) }
{
    let Some(first) = map.first() else {
        return Ok(false);
    };
    let file = first.acl_file(node.acl(right))?;
    Ok(match map.get(&file) {
        Some(found) => lists(found, principal),
        None => false,
    })
}

// Whether the node is an ACL file that lists the principal.
fn lists(node: &Node, principal: &Principal) -> bool
    ensures { result ≡ lists principal.now node.now }
{
    if node.kind != Kind::File {
        return false;
    }
    match AclList::read(node.content.as_slice()) {
        Ok(list) => list.lists(principal),
        Err(_) => false,
    }
}
