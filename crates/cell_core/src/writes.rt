//! What a write does when its turn comes.
ghost use Rattle.std.specs.Prelude.{◌≡◌, ◌<◌, ◌-◌, ◌^◌, None, IfOk};
ghost use Rattle.master_state.specs.NameSpace.{name_space};
ghost use Rattle.cell_core.specs.Effect.{changes_to, put_at, content_fault, delete_at, change_at, change_on, generation_fits, with_content, with_acls};

use crate::effects::Effect;
use crate::locks::{acquire_at, deleted, release_at, try_at};
use crate::room::content_fault;
use collections::Bytes;
use master_state::Master;
use node_core::{Fault, Mod, NUMBER_LIMIT, Node};
use std::alloc::AllocError;
use tags_cell::{AclNames, Call, CallResult, Handle};

pub(crate) fn change_on(master: &Master, handle: &Handle, call: &Call) -> Result<Effect, AllocError>
    ensures { IfOk result (λ done. done ≡ change_on (name_space master.now) master.now.clock handle.now call.now) }
{
    match master.node_of(handle) {
        None => Ok(Effect::refused(Fault::StaleInstance)),
        Some(node) => change_at(master, handle, call, node),
    }
}

fn change_at(
    master: &Master,
    handle: &Handle,
    call: &Call,
    node: &Node,
) -> Result<Effect, AllocError>
    ensures { IfOk result (λ done. done ≡ change_at (name_space master.now) master.now.clock handle.now call.now node.now) }
{
    match call {
        Call::Set {
            content,
            generation,
            ..
        } => set_at(master, handle, node, content, *generation),
        Call::SetAcl {
            acls,
            generation,
            ..
        } => set_acl_at(master, handle, node, acls, *generation),
        Call::Delete(_) => delete_at(master, handle),
        Call::Acquire { mode, .. } => acquire_at(master, handle, *mode),
        Call::TryAcquire { mode, .. } => try_at(master, handle, *mode),
        Call::Release(_) => release_at(master, handle),
        Call::Open(_) | Call::Close(_) | Call::Read(_) | Call::Stat(_) | Call::List(_) => {
            Ok(Effect::refused(Fault::BadHandle))
        }
        Call::GetSequencer(_) | Call::SetSequencer(_) | Call::CheckSequencer(_) | Call::Leave => {
            Ok(Effect::refused(Fault::BadHandle))
        }
    }
}

fn set_at(
    master: &Master,
    handle: &Handle,
    node: &Node,
    content: &Bytes,
    generation: Option<u64>,
) -> Result<Effect, AllocError>
    ensures { IfOk result (λ done. done ≡ put_at (name_space master.now) handle.now node.now.content_generation generation (content_fault (name_space master.now) node.now content.now) (with_content node.now content.now)) }
{
    let present = node.content_generation;
    if !generation_fits(generation, present) {
        return Ok(Effect::refused(Fault::WrongGeneration(present)));
    }
    if present >= NUMBER_LIMIT {
        return Ok(Effect::refused(Fault::Exhausted));
    }
    match content_fault(master, node, content) {
        Some(fault) => Ok(Effect::refused(fault)),
        None => put(master, handle, with_content(node, content)?),
    }
}

fn set_acl_at(
    master: &Master,
    handle: &Handle,
    node: &Node,
    acls: &AclNames,
    generation: Option<u64>,
) -> Result<Effect, AllocError>
    ensures { IfOk result (λ done. done ≡ put_at (name_space master.now) handle.now node.now.acl_generation generation None (with_acls node.now acls.now)) }
{
    let present = node.acl_generation;
    if !generation_fits(generation, present) {
        return Ok(Effect::refused(Fault::WrongGeneration(present)));
    }
    if present >= NUMBER_LIMIT {
        return Ok(Effect::refused(Fault::Exhausted));
    }
    put(master, handle, with_acls(node, acls)?)
}

// The root and a directory with children stay.
fn delete_at(master: &Master, handle: &Handle) -> Result<Effect, AllocError>
    ensures { IfOk result (λ done. done ≡ delete_at (name_space master.now) handle.now) }
{
    if master.map().has_children(&handle.name)? || handle.name.is_root() {
        return Ok(Effect::refused(Fault::NotEmpty));
    }
    deleted(master, handle)
}

// This node is put at the handle's name.
fn put(master: &Master, handle: &Handle, node: Node) -> Result<Effect, AllocError>
    ensures { IfOk result (λ done. done ≡ changes_to (Mod.Put handle.now.name node) master.now.next_instance CallResult.Done) }
{
    let change = Mod::Put(handle.name.clone()?, node);
    Ok(Effect::changes_to(change, master.next_instance(), CallResult::Done))
}

// The generation that a call names, if it names one, has to be the present one.
fn generation_fits(generation: Option<u64>, present: u64) -> bool
    ensures { result ≡ generation_fits generation present }
{
    match generation {
        None => true,
        Some(wanted) => wanted == present,
    }
}

fn with_content(node: &Node, content: &Bytes) -> Result<Node, AllocError>
    requires { node.now.content_generation < 2 ^ 63 - 1 }
    ensures { IfOk result (λ new. new ≡ with_content node.now content.now) }
{
    Ok(Node {
        kind: node.kind,
        instance: node.instance,
        content_generation: node.content_generation + 1,
        acl_generation: node.acl_generation,
        read: node.read.clone()?,
        write: node.write.clone()?,
        change: node.change.clone()?,
        life: node.life,
        content: content.clone()?,
    })
}

fn with_acls(node: &Node, acls: &AclNames) -> Result<Node, AllocError>
    requires { node.now.acl_generation < 2 ^ 63 - 1 }
    ensures { IfOk result (λ new. new ≡ with_acls node.now acls.now) }
{
    Ok(Node {
        kind: node.kind,
        instance: node.instance,
        content_generation: node.content_generation,
        acl_generation: node.acl_generation + 1,
        read: acls.read.clone()?,
        write: acls.write.clone()?,
        change: acls.change.clone()?,
        life: node.life,
        content: node.content.clone()?,
    })
}
