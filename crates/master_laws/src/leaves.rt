//! How a client ends its session.
ghost use Rattle.master_laws.specs.Leaves.{LeaveWaitsBeside, LeaveEndsSession};

/// A Leave that comes while its client's last call waits for a lock is taken, if no recovery goes on and there is room: it
/// waits for its turn, and is the client's last call from then on.
pub fn leave_waits_beside()
    ensures { LeaveWaitsBeside }
{}

/// When a Leave has its turn, in a master that is kept beside its rows, as each is, the session of its client is over,
/// which neither holds a lock nor waits for one any more, and it is answered so.
pub fn leave_ends_session()
    ensures { LeaveEndsSession }
{}
