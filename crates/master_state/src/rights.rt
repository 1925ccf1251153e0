//! Which rights a client has.
ghost use Rattle.std.specs.Prelude.{◌≡◌, IfOk};
ghost use Rattle.master_state.specs.NameSpace.{name_space, caller};
ghost use Rattle.master_state.specs.Lookups.{may, lacks, missing_right};

use crate::masters::Master;
use node_core::{Node, Right, permitted};
use std::alloc::AllocError;
use tags_cell::{ClientNumber, Mode};

impl Master {
    /// Whether the client's principal is permitted the right to this node.
    pub fn may(&self, client: ClientNumber, node: &Node, right: Right) -> Result<bool, AllocError>
        ensures { IfOk result (λ allowed. allowed ≡ may (name_space self.now) (caller self.now client) node.now right) }
    {
        match self.sessions().get(client.get()) {
            None => Ok(false),
            Some(session) => permitted(self.map(), &session.principal, node, right),
        }
    }

    fn lacks(
        &self,
        client: ClientNumber,
        mode: Mode,
        node: &Node,
        right: Right,
    ) -> Result<bool, AllocError>
        ensures { IfOk result (λ lacking. lacking ≡ lacks (name_space self.now) (caller self.now client) mode node.now right) }
    {
        if !mode.has(right) {
            return Ok(false);
        }
        Ok(!self.may(client, node, right)?)
    }

    /// The first right of the mode that isn't permitted.
    pub fn missing_right(
        &self,
        client: ClientNumber,
        mode: Mode,
        node: &Node,
    ) -> Result<Option<Right>, AllocError>
        ensures { IfOk result (λ missing. missing ≡ missing_right (name_space self.now) (caller self.now client) mode node.now) }
    {
        if self.lacks(client, mode, node, Right::Read)? {
            return Ok(Some(Right::Read));
        }
        if self.lacks(client, mode, node, Right::Write)? {
            return Ok(Some(Right::Write));
        }
        if self.lacks(client, mode, node, Right::Change)? {
            return Ok(Some(Right::Change));
        }
        Ok(None)
    }
}
