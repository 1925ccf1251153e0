//! Who holds up a change, and until when.
ghost use Rattle.master_laws.specs.Waits.{EachIsHeldUp, SessionsEndInTime, SilentSessionsEnd, SilentClientsHoldNothing, RecoveryIsHeldUp, RecoveriesEnd, RightsComeBack, ChangesGoOn, AChangeWaits};

/// Where a sweep is quiet each change that waits is held up by a client: it may keep in its cache what the change touches,
/// was asked for it by an invalidation that it hasn't acknowledged, and its session is live, and ends later.
pub fn each_is_held_up()
    ensures { EachIsHeldUp }
{}

/// A session ends at most 60,002 ms after the last moment that the master was told.
pub fn sessions_end_in_time()
    ensures { SessionsEndInTime }
{}

/// A session of which nothing is heard after a quiet sweep ends at its timeout; where a Beat of it waited for its answer,
/// at most a lease later.
pub fn silent_sessions_end()
    ensures { SilentSessionsEnd }
{}

/// So a client of which nothing is heard for 60,002 ms and a lease holds no right where a sweep is quiet, and no change
/// waits for it.
pub fn silent_clients_hold_nothing()
    ensures { SilentClientsHoldNothing }
{}

/// Where a sweep is quiet a recovery that goes on is held up by a client: it hasn't acknowledged that a new master is up,
/// and its session is live, and ends later.
pub fn recovery_is_held_up()
    ensures { RecoveryIsHeldUp }
{}

/// Whatever clients send, at the first quiet sweep three leases and 108,002 ms after the master's coming up the recovery is
/// over.
pub fn recoveries_end()
    ensures { RecoveriesEnd }
{}

/// Whatever a client sends, but no Start, where a sweep is quiet it holds no right any more that it was asked for six leases
/// and 96,000 ms before, or, for a lease below 6,001 ms, four leases and 108,002 ms before.
pub fn rights_come_back()
    ensures { RightsComeBack }
{}

/// So a change that has waited for that long isn't held up by the client any more where a sweep is quiet.
pub fn changes_go_on()
    ensures { ChangesGoOn }
{}

/// An instance: a master that came up over a new store, in which a change waits for a client until 12,000 ms, when the client's
/// session ends.
pub fn a_change_waits()
    ensures { AChangeWaits }
{}
