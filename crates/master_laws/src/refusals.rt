//! What a refused call changes.
ghost use Rattle.master_laws.specs.Refused.{TurnedAwayChangesNothing, RefusedCallChangesNothing, RefusalGrantsAbsenceAlone, RefusedApplicationChangesNothing};

/// A message that is turned away leaves the master as it was, but for the moment.
pub fn turned_away_changes_nothing()
    ensures { TurnedAwayChangesNothing }
{}

/// A new call that is refused, and by which no right is granted, prints nothing, and changes nothing but what is kept of
/// it: its reply, and that a handle which it showed, and of which nothing was known, is open.
pub fn refused_call_changes_nothing()
    ensures { RefusedCallChangesNothing }
{}

/// The only right that a refused call may grant is that of an Open that is refused as NotFound: to keep in a cache that
/// there is no such node.
pub fn refusal_grants_absence_alone()
    ensures { RefusalGrantsAbsenceAlone }
{}

/// A call that is refused when its turn comes commits and prints nothing, and changes nothing but that its reply is kept
/// and it has left the gate; who holds the lock that it asked for in vain may be told of that by an event.
pub fn refused_application_changes_nothing()
    ensures { RefusedApplicationChangesNothing }
{}
