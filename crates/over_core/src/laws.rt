//! What the words of deadlines mean, and what the limits of a cell leave of a master.
ghost use Rattle.over_core.specs.Deadlines.{QuietTellsOfSweeps};
ghost use Rattle.over_core.specs.Within.{MastersStayWithin};

/// A moment is quiet exactly if a sweep at it finds nothing to do.
pub fn quiet_tells_of_sweeps()
    ensures { QuietTellsOfSweeps }
{}

/// A master that is within the limits of its cell stays so, whatever it takes, sweeps or answers; and where it is above one, it
/// doesn't grow.
pub fn masters_stay_within()
    ensures { MastersStayWithin }
{}
