//! What an Open that may make a node does when its turn comes.
ghost use Rattle.std.specs.Prelude.{◌≡◌, ◌<◌, ◌+◌, ◌-◌, ◌^◌, None, Ok, IfOk};
ghost use Rattle.node_core.specs.declared.views.Mod.TheVariants.{Put};
ghost use Rattle.master_state.specs.NameSpace.{name_space, caller};
ghost use Rattle.cell_core.specs.Effect.{create_effect, create_over, create_new, create_in, create_permitted, create_numbered, create_made, create_put, new_node, kind_of, first_generation, content_of, acls_of};
ghost use Rattle.master_state.specs.Lookups.{may};

use crate::effects::{Effect, Locking, any_note, opened_effect};
use crate::room::new_node_fault;
use collections::Bytes;
use master_state::{Change, Master};
use names_cell::Name;
use node_core::{Fault, Kind, Mod, NUMBER_LIMIT, Node, Right};
use std::alloc::{AllocError, Global};
use tags_cell::{
    AclNames, ClientNumber, Create, Disposition, Handle, MessageNumber, NewNode, Open,
};

pub(crate) fn create_effect(
    master: &Master,
    client: ClientNumber,
    number: MessageNumber,
    opening: &Open,
    create: &Create,
) -> Result<Effect, AllocError>
    ensures { IfOk result (λ done. done ≡ create_effect (name_space master.now) (caller master.now client) number opening.now create.now) }
{
    match master.map().get(&opening.name) {
        None => create_new(master, client, number, opening, create),
        Some(node) => create_over(master, client, number, opening, create.disposition, node),
    }
}

// A node of the name is there: it is opened where it may be.
fn create_over(
    master: &Master,
    client: ClientNumber,
    number: MessageNumber,
    opening: &Open,
    disposition: Disposition,
    node: &Node,
) -> Result<Effect, AllocError>
    ensures { IfOk result (λ done. done ≡ create_over (name_space master.now) (caller master.now client) number opening.now disposition node.now) }
{
    match disposition {
        Disposition::Must => Ok(Effect::refused(Fault::Exists)),
        Disposition::May => {
            let opened = master.open_present(client, number, opening, node)?;
            opened_effect(master, opened)
        }
    }
}

fn create_new(
    master: &Master,
    client: ClientNumber,
    number: MessageNumber,
    opening: &Open,
    create: &Create,
) -> Result<Effect, AllocError>
    ensures { IfOk result (λ done. done ≡ create_new (name_space master.now) (caller master.now client) number opening.now create.now) }
{
    let Some(parent) = opening.name.parent()? else {
        return Ok(Effect::refused(Fault::NotFound));
    };
    match master.map().get(&parent) {
        None => Ok(Effect::refused(Fault::NotFound)),
        Some(above) => create_in(master, client, number, opening, create, above),
    }
}

// A node is added by clients that may write the directory above.
fn may_add(master: &Master, client: ClientNumber, above: &Node) -> Result<bool, AllocError>
    ensures { IfOk result (λ allowed. allowed ≡ may (name_space master.now) (caller master.now client) above.now Right.Write) }
{
    master.may(client, above, Right::Write)
}

// Write on the directory above comes first.
fn create_in(
    master: &Master,
    client: ClientNumber,
    number: MessageNumber,
    opening: &Open,
    create: &Create,
    above: &Node,
) -> Result<Effect, AllocError>
    ensures { IfOk result (λ done. done ≡ create_in (name_space master.now) (caller master.now client) number opening.now create.now above.now above.now.kind) }
{
    match above.kind {
        Kind::File => Ok(Effect::refused(Fault::WrongKind(Kind::File))),
        Kind::Directory => {
            if !may_add(master, client, above)? {
                return Ok(Effect::refused(Fault::Denied(Right::Write)));
            }
            let node = new_node(master, above, create)?;
            create_permitted(master, client, number, opening, node)
        }
    }
}

// The rights of the mode, on the ACLs of the new node.
fn create_permitted(
    master: &Master,
    client: ClientNumber,
    number: MessageNumber,
    opening: &Open,
    node: Node,
) -> Result<Effect, AllocError>
    ensures { IfOk result (λ done. done ≡ create_permitted (name_space master.now) (caller master.now client) number opening.now node) }
{
    if let Some(right) = master.missing_right(client, opening.mode, &node)? {
        return Ok(Effect::refused(Fault::Denied(right)));
    }
    create_numbered(master, client, number, opening, node)
}

fn create_numbered(
    master: &Master,
    client: ClientNumber,
    number: MessageNumber,
    opening: &Open,
    node: Node,
) -> Result<Effect, AllocError>
    ensures { IfOk result (λ done. done ≡ create_numbered (name_space master.now) (caller master.now client) number opening.now node) }
{
    if master.next_instance() >= NUMBER_LIMIT {
        return Ok(Effect::refused(Fault::Exhausted));
    }
    match master.new_handle(client, number, opening, &node)? {
        Ok(handle) => create_made(master, opening, node, handle),
        Err(fault) => Ok(Effect::refused(fault)),
    }
}

fn create_made(
    master: &Master,
    opening: &Open,
    node: Node,
    handle: Handle,
) -> Result<Effect, AllocError>
    requires { master.now.next_instance < 2 ^ 63 - 1 }
    ensures { IfOk result (λ done. done ≡ create_made (name_space master.now) opening.now node (Ok handle)) }
{
    match new_node_fault(master, &node) {
        Some(fault) => Ok(Effect::refused(fault)),
        None => create_put(master, opening, node, handle),
    }
}

// The new node is put, and its handle is open.
fn create_put(
    master: &Master,
    opening: &Open,
    node: Node,
    handle: Handle,
) -> Result<Effect, AllocError>
    requires { master.now.next_instance < 2 ^ 63 - 1 }
    ensures { IfOk result (λ done. done ≡ create_put (name_space master.now) opening.now node handle) }
{
    let name = opening.name.clone()?;
    let change = made_change(master, name, node);
    let (note, answer) = master.opened(Ok(handle))?;
    Ok(Effect {
        note: any_note(note),
        locking: Locking::Nothing,
        answer: Some(answer),
        change: Some(change),
    })
}

// The new node's instance is given but once.
fn made_change(master: &Master, name: Name, node: Node) -> Change
    requires { master.now.next_instance < 2 ^ 63 - 1 }
    ensures { result ≡ record { change = Put name node; next_instance = master.now.next_instance + 1 } }
{
    Change {
        change: Mod::Put(name, node),
        next_instance: master.next_instance() + 1,
    }
}

// A new node under a directory.
fn new_node(master: &Master, above: &Node, create: &Create) -> Result<Node, AllocError>
    ensures { IfOk result (λ node. node ≡ new_node master.now.next_instance create.now.node create.now.life (acls_of above.now create.now.acls)) }
{
    let AclNames {
        read,
        write,
        change,
    } = acls_of(above, &create.acls)?;
    Ok(Node {
        kind: kind_of(&create.node),
        instance: master.next_instance(),
        content_generation: first_generation(&create.node),
        acl_generation: 1,
        read,
        write,
        change,
        life: create.life,
        content: content_of(master.alloc(), &create.node)?,
    })
}

// The names that are given, or those of the parent.
fn acls_of(above: &Node, acls: &Option<AclNames>) -> Result<AclNames, AllocError>
    ensures { IfOk result (λ names. names ≡ acls_of above.now acls.now) }
{
    match acls {
        Some(acls) => acls.clone(),
        None => parent_acls(above),
    }
}

fn parent_acls(above: &Node) -> Result<AclNames, AllocError>
    ensures { IfOk result (λ names. names ≡ acls_of above.now None) }
{
    Ok(AclNames {
        read: above.read.clone()?,
        write: above.write.clone()?,
        change: above.change.clone()?,
    })
}

fn kind_of(node: &NewNode) -> Kind
    ensures { result ≡ kind_of node.now }
{
    match node {
        NewNode::File(_) => Kind::File,
        NewNode::Directory => Kind::Directory,
    }
}

// 1 for a new file, 0 for a directory.
fn first_generation(node: &NewNode) -> u64
    ensures { result ≡ first_generation node.now }
{
    match node {
        NewNode::File(_) => 1,
        NewNode::Directory => 0,
    }
}

fn content_of(alloc: Global, node: &NewNode) -> Result<Bytes, AllocError>
    ensures { IfOk result (λ content. content ≡ content_of node.now) }
{
    match node {
        NewNode::File(content) => content.clone(),
        NewNode::Directory => Bytes::copy_of(alloc, &[]),
    }
}
