//! Whether the limits of the cell leave room for what a call adds.
ghost use Rattle.std.specs.Prelude.{◌≡◌, IfOk};
ghost use Rattle.master_state.specs.NameSpace.{name_space};
ghost use Rattle.cell_core.specs.Effect.{new_node_fault, content_fault, lock_fault};

use collections::Bytes;
use master_state::Master;
use node_core::{Fault, Node, room_fault};
use std::alloc::AllocError;

// One node more, and then the bytes of its content.
pub(crate) fn new_node_fault(master: &Master, node: &Node) -> Option<Fault>
    ensures { result ≡ new_node_fault (name_space master.now) node.now }
{
    let limits = master.limits();
    let map = master.map();
    match room_fault(limits.max_nodes, Some(map.len() as u64), 1) {
        Some(fault) => Some(fault),
        None => room_fault(
            limits.max_bytes,
            map.content_bytes(),
            node.content.len() as u64,
        ),
    }
}

// The bytes by which a node's content grows.
pub(crate) fn content_fault(master: &Master, node: &Node, content: &Bytes) -> Option<Fault>
    ensures { result ≡ content_fault (name_space master.now) node.now content.now }
{
    let growth = content.len().saturating_sub(node.content.len());
    room_fault(
        master.limits().max_bytes,
        master.map().content_bytes(),
        growth as u64,
    )
}

// One lock more that the client holds or waits for. Without a limit none is counted.
pub(crate) fn lock_fault(master: &Master, client: u64) -> Result<Option<Fault>, AllocError>
    ensures { IfOk result (λ fault. fault ≡ lock_fault (name_space master.now) client) }
{
    let Some(limit) = master.limits().max_locks else {
        return Ok(None);
    };
    let held = master.locks().claim_count(client)?;
    Ok(room_fault(Some(limit), held, 1))
}
