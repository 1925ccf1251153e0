//! Nodes.
ghost use Rattle.std.specs.Prelude.{◌≡◌};
ghost use Rattle.node_core.specs.Access.{acl_for};

use crate::kinds::{Kind, Life, Right};
use collections::{Bytes, Same};
use names_cell::Component;
use std::alloc::AllocError;

/// What stands at a name (Burrows 2006, section 2.3). The lock's generation isn't among it.
#[derive(Drop)]
pub struct Node {
    pub kind: Kind,
    /// Greater than that of any earlier node of the same name.
    pub instance: u64,
    /// 1 for a new file, one more at each write; 0 for a directory.
    pub content_generation: u64,
    /// 1 for a new node, one more at each change of its ACL names.
    pub acl_generation: u64,
    /// The ACL whose members may read.
    pub read: Component,
    /// The ACL whose members may write.
    pub write: Component,
    /// The ACL whose members may change the three names.
    pub change: Component,
    pub life: Life,
    /// What a file holds; empty for a directory.
    pub content: Bytes,
}

impl Node {
    /// The ACL that the node names for a right.
    pub fn acl(&self, right: Right) -> &Component
        ensures { result.now ≡ acl_for self.now right }
    {
        match right {
            Right::Read => &self.read,
            Right::Write => &self.write,
            Right::Change => &self.change,
        }
    }
}

impl Clone for Node {
    ghost is_clone = { λ s t. t ≡ s };

    fn clone(&self) -> Result<Node, AllocError> {
        Ok(Node {
            kind: self.kind,
            instance: self.instance,
            content_generation: self.content_generation,
            acl_generation: self.acl_generation,
            read: self.read.clone()?,
            write: self.write.clone()?,
            change: self.change.clone()?,
            life: self.life,
            content: self.content.clone()?,
        })
    }
}

impl Same for Node {
    ghost exact = { λ x y h. h };
}
