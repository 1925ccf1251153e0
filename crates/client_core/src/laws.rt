//! What holds of every client, whatever it is asked for and given.
ghost use Rattle.client_core.specs.Laws.{HandleNumbersRise, SharedNumbersRise, HandleNumbersStay, RepeatedReplyIsDropped, RefusedCallChangesNothing, SafeNoteSetsTheClock};

/// The number of a handle that a master gave is above all that were given out before it.
pub fn handle_numbers_rise()
    ensures { HandleNumbersRise }
{}

/// So is that of a handle that is shared.
pub fn shared_numbers_rise()
    ensures { SharedNumbersRise }
{}

/// No step takes a handle number back, so that none is given out twice.
pub fn handle_numbers_stay()
    ensures { HandleNumbersStay }
{}

/// A reply that comes again changes nothing but what the noting of the time does.
pub fn repeated_reply_is_dropped()
    ensures { RepeatedReplyIsDropped }
{}

/// A call that the client refuses by itself changes nothing but what the noting of the time does.
pub fn refused_call_changes_nothing()
    ensures { RefusedCallChangesNothing }
{}

/// Where a client may rely on its session its lease runs, and to note the time changes its clock alone.
pub fn safe_note_sets_the_clock()
    ensures { SafeNoteSetsTheClock }
{}
