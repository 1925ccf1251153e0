//! What a closed handle is still good for.
ghost use Rattle.master_laws.specs.Closed.{CloseCloses, CloseClosesForGood, ClosedHandleIsRefused, ClosedHandleStaysClosed, ClosedForGoodByMessages, ClosedForGoodBySweeps, ClosedForGoodForever};

/// When a Close has its turn its handle is closed, and it is answered so.
pub fn close_closes()
    ensures { CloseCloses }
{}

/// A new call that shows a handle that was closed in this epoch is refused as BadHandle, and changes nothing but what is
/// kept of the call.
pub fn closed_handle_is_refused()
    ensures { ClosedHandleIsRefused }
{}

/// A handle that was closed stays closed by each message but the Open of its own client under its own number.
pub fn closed_handle_stays_closed()
    ensures { ClosedHandleStaysClosed }
{}

/// A handle is closed for good where it was closed, and no Open of its client under its number waits. Once its Close had
/// its turn, in a master that is kept beside its rows, as each is, a handle is closed for good.
pub fn close_closes_for_good()
    ensures { CloseClosesForGood }
{}

/// A handle that is closed for good stays so by each message but the Open of its own client under its own number.
pub fn closed_for_good_by_messages()
    ensures { ClosedForGoodByMessages }
{}

/// A handle that is closed for good stays so by each sweep.
pub fn closed_for_good_by_sweeps()
    ensures { ClosedForGoodBySweeps }
{}

/// A handle that is closed for good is so after every list of messages, sweeps and answered Beats, of which none is the
/// Open of its own client under its own number.
pub fn closed_for_good_forever()
    ensures { ClosedForGoodForever }
{}
