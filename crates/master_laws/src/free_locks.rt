//! What a lock that nobody holds waits for.
ghost use Rattle.master_laws.specs.FreeLocks.{AwaitedLocksAreHeld};

/// Where a sweep is quiet a lock that somebody waits for is held, by a client whose session is live and ends later; or it is
/// closed for its delay, which ends later, at most 60,000 ms after the last moment that the master was told.
pub fn awaited_locks_are_held()
    ensures { AwaitedLocksAreHeld }
{}
