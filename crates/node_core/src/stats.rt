//! What GetStat tells.
ghost use Rattle.std.specs.Prelude.{◌≡◌, Some};
ghost use Rattle.node_core.specs.Texts.{stat_text};

use crate::kinds::{Kind, Life};
use crate::texts::{AclNamesText, Header};
use collections::Same;
use names_cell::Component;
use std::alloc::AllocError;
use std::fmt;

/// What GetStat tells of a node: no content but its length, and the lock's generation (Burrows 2006, section 2.3).
#[derive(Drop)]
pub struct Stat {
    pub kind: Kind,
    pub instance: u64,
    pub content_generation: u64,
    pub acl_generation: u64,
    /// 0 for a new node, one more each time that the lock goes from free to held.
    pub lock_generation: u64,
    pub read: Component,
    pub write: Component,
    pub change: Component,
    pub life: Life,
    /// The number of bytes of a file; 0 for a directory.
    pub length: u64,
}

impl Clone for Stat {
    ghost is_clone = { λ s t. t ≡ s };

    fn clone(&self) -> Result<Stat, AllocError> {
        Ok(Stat {
            kind: self.kind,
            instance: self.instance,
            content_generation: self.content_generation,
            acl_generation: self.acl_generation,
            lock_generation: self.lock_generation,
            read: self.read.clone()?,
            write: self.write.clone()?,
            change: self.change.clone()?,
            life: self.life,
            length: self.length,
        })
    }
}

impl Same for Stat {
    ghost exact = { λ x y h. h };
}

impl fmt::Display for Stat {
    ghost output = { λ x. Some (stat_text x) };

    fn fmt<W: fmt::Write>(&self, f: &mut fmt::Formatter<W>) -> fmt::Result {
        let header = Header::of_stat(self);
        let lock = self.lock_generation;
        let acls = AclNamesText::of_stat(self);
        let life = self.life;
        let length = self.length;
        write!(f, "{header} {lock} {acls} {life} {length}")
    }
}
