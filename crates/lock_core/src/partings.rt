//! How a client's session ends.

/// How a client's session ends.
#[derive(Clone, Copy)]
pub enum Parting {
    /// Its timeout has come: a lock that nobody holds any longer stays closed for its lock-delay (Burrows 2006, section
    /// 2.4).
    Expiry,
    /// Its client has ended it: its locks are free at once.
    Leave,
}
