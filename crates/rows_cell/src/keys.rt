//! The key of a lock's row.
use collections::Same;

/// The key of a lock's row: the node's instance, and who holds it, by client and handle number. Of a lapsed lock
/// client and handle are 0. Ordered by instance, then client, then handle.
#[derive(Clone, Copy, Debug, PartialEq, Eq, PartialOrd, Ord)]
pub struct LockKey {
    pub instance: u64,
    pub client: u64,
    pub handle: u64,
}

impl Same for LockKey {
    ghost exact = { λ x y h. h };
}
