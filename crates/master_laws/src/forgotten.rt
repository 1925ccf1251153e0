//! What becomes of clients of which nothing is known any more.
ghost use Rattle.master_laws.specs.Forgotten.{ForgottenForever, EndedGoAlone};

/// A client number below the mark that has no session gets none after any list of messages, sweeps and answered Beats, and
/// stays below the mark.
pub fn forgotten_stay_forgotten()
    ensures { ForgottenForever }
{}

/// Nothing is known any more of a client alone whose session has ended, and of which no call waits for its turn.
pub fn who_goes_has_ended()
    ensures { EndedGoAlone }
{}
