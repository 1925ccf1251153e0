//! What follows from the definitions.
ghost use Rattle.mastership.specs.Ends.{EndsBeforeTheirs};
ghost use Rattle.mastership.specs.Register.{NothingEarlier};
ghost use Rattle.mastership.specs.Numbers.{GivenOnce};

/// While the server counts itself master, the other side still keeps its mastership, whose clock gains at most one part in sixteen.
pub fn ends_before_theirs()
    ensures { EndsBeforeTheirs }
{}

/// Once a keeper has written in its own name, nothing that was sent earlier is done any more.
pub fn nothing_earlier_is_done()
    ensures { NothingEarlier }
{}

/// Of numbers that are taken by compare and swap each is given once.
pub fn a_number_is_given_once()
    ensures { GivenOnce }
{}
