//! Of what a step gives notice.
ghost use Rattle.std.specs.Prelude.{◌≡◌, IfOk};
ghost use Rattle.std.specs.Option.{option_map, option_and_then};
ghost use Rattle.names_cell.specs.Text.{parent_of};
ghost use Rattle.node_core.specs.Nodes.{get_node};
ghost use Rattle.cell_core.specs.ChangeNotices.{above, put_notices, gone_notices, mod_notices, change_notices, lock_notices, locks_notices, is_held, shown_instance, contested_by, contest_notices};

use crate::effects::Effect;
use collections::Items;
use master_parts::Notice;
use master_state::{Change, LockPut, Master};
use names_cell::Name;
use node_core::{Fault, Mod, Node};
use std::alloc::{AllocError, Global};
use tags_cell::{Call, CallResult, ClientNumber};

// ---- a change of the map

/// Of a change of the map.
pub fn change_notices(master: &Master, change: &Option<Change>) -> Result<Items<Notice>, AllocError>
    ensures { IfOk result (λ notices. notices ≡ change_notices master.now change.now) }
{
    match change {
        Some(change) => mod_notices(master, &change.change),
        None => Ok(Items::new(master.alloc())),
    }
}

fn mod_notices(master: &Master, change: &Mod) -> Result<Items<Notice>, AllocError>
    ensures { IfOk result (λ notices. notices ≡ mod_notices master.now change.now) }
{
    match change {
        Mod::Put(name, node) => put_notices(master, name, node),
        Mod::Gone(name) => gone_notices(master, name),
    }
}

// A new child, or another content. Of other ACLs nobody is told.
fn put_notices(master: &Master, name: &Name, node: &Node) -> Result<Items<Notice>, AllocError>
    ensures { IfOk result (λ notices. notices ≡ put_notices master.now name.now node.now (get_node master.now.nodes name.now)) }
{
    let Some(former) = master.map().get(name) else {
        return added_above(master, name);
    };
    if former.content_generation == node.content_generation {
        return Ok(Items::new(master.alloc()));
    }
    let mut notices = Items::new(master.alloc());
    notices.push(Notice::Contents(node.instance, node.content_generation))?;
    notices.append(modified_above(master, name)?)?;
    Ok(notices)
}

// A node that goes.
fn gone_notices(master: &Master, name: &Name) -> Result<Items<Notice>, AllocError>
    ensures { IfOk result (λ notices. notices ≡ gone_notices master.now name.now (get_node master.now.nodes name.now)) }
{
    let mut notices = Items::new(master.alloc());
    if let Some(former) = master.map().get(name) {
        notices.push(Notice::Invalid(former.instance))?;
        notices.append(removed_above(master, name)?)?;
    }
    Ok(notices)
}

// The instance of the directory above a name, where it is there.
fn directory_above(master: &Master, name: &Name) -> Result<Option<u64>, AllocError>
    ensures { IfOk result (λ found. found ≡ option_map (λ directory. directory.instance) (option_and_then (get_node master.now.nodes) (parent_of name.now))) }
{
    let Some(parent) = name.parent()? else {
        return Ok(None);
    };
    match master.map().get(&parent) {
        Some(directory) => Ok(Some(directory.instance)),
        None => Ok(None),
    }
}

// The directory is told of its new child.
fn added_above(master: &Master, name: &Name) -> Result<Items<Notice>, AllocError>
    ensures { IfOk result (λ notices. notices ≡ above master.now name.now (λ directory. Notice.ChildAdded directory name.now)) }
{
    let mut notices = Items::new(master.alloc());
    if let Some(directory) = directory_above(master, name)? {
        notices.push(Notice::ChildAdded(directory, name.clone()?))?;
    }
    Ok(notices)
}

// The directory is told of other content of its child.
fn modified_above(master: &Master, name: &Name) -> Result<Items<Notice>, AllocError>
    ensures { IfOk result (λ notices. notices ≡ above master.now name.now (λ directory. Notice.ChildModified directory name.now)) }
{
    let mut notices = Items::new(master.alloc());
    if let Some(directory) = directory_above(master, name)? {
        notices.push(Notice::ChildModified(directory, name.clone()?))?;
    }
    Ok(notices)
}

// The directory is told that its child is gone.
fn removed_above(master: &Master, name: &Name) -> Result<Items<Notice>, AllocError>
    ensures { IfOk result (λ notices. notices ≡ above master.now name.now (λ directory. Notice.ChildRemoved directory name.now)) }
{
    let mut notices = Items::new(master.alloc());
    if let Some(directory) = directory_above(master, name)? {
        notices.push(Notice::ChildRemoved(directory, name.clone()?))?;
    }
    Ok(notices)
}

// ---- locks

/// Of locks that change.
pub fn locks_notices(master: &Master, puts: &[LockPut]) -> Result<Items<Notice>, AllocError>
    ensures { IfOk result (λ notices. notices ≡ locks_notices master.now.locks puts.now) }
{
    let mut notices = Items::new(master.alloc());
    for put in puts {
        notices.append(lock_notices(master, put)?)?;
    }
    Ok(notices)
}

// Its generation rises where it goes from free to held.
fn lock_notices(master: &Master, put: &LockPut) -> Result<Items<Notice>, AllocError>
    ensures { IfOk result (λ notices. notices ≡ lock_notices master.now.locks put.now) }
{
    let mut notices = Items::new(master.alloc());
    if put.lock.generation() != master.locks().generation(put.instance) {
        notices.push(Notice::Locked(put.instance))?;
    }
    Ok(notices)
}

/// The instance whose lock a call asks for while it is held: it begins to wait, or is refused for that.
pub fn contested_by(
    master: &Master,
    client: ClientNumber,
    call: &Call,
    effect: &Effect,
) -> Result<Option<u64>, AllocError>
    ensures { IfOk result (λ contested. contested ≡ contested_by master.now call.now effect.now) }
{
    match call {
        Call::Acquire { handle, .. } if effect.answer.is_none() => {
            shown_instance(master, client, handle.as_slice())
        }
        Call::TryAcquire { handle, .. } if is_held(&effect.answer) => {
            shown_instance(master, client, handle.as_slice())
        }
        _ => Ok(None),
    }
}

fn is_held(answer: &Option<CallResult>) -> bool
    ensures { result ≡ is_held answer.now }
{
    matches!(answer, Some(CallResult::Refused(Fault::Held(_))))
}

// The instance of the handle whose bytes these are.
fn shown_instance(
    master: &Master,
    client: ClientNumber,
    bytes: &[u8],
) -> Result<Option<u64>, AllocError>
    ensures { IfOk result (λ instance. instance ≡ shown_instance master.now bytes.now) }
{
    match master.handle_in(client, bytes)? {
        Some(handle) => Ok(Some(handle.instance.get())),
        None => Ok(None),
    }
}

/// Of a held lock that a call asks for.
pub fn contest_notices(alloc: Global, contested: Option<u64>) -> Result<Items<Notice>, AllocError>
    ensures { IfOk result (λ notices. notices ≡ contest_notices contested) }
{
    let mut notices = Items::new(alloc);
    if let Some(instance) = contested {
        notices.push(Notice::Conflict(instance))?;
    }
    Ok(notices)
}
