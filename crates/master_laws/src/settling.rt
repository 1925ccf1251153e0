//! What a master has to do by itself, and that it comes to an end.
ghost use Rattle.master_laws.specs.Settling.{SweepsLeaveLess, SweepsAreCounted, SettlingEnds};

/// Each sweep that isn't quiet leaves less to do: of what clients asked for, or no more of that and less of what the cell
/// does of its own accord.
pub fn sweeps_leave_less()
    ensures { SweepsLeaveLess }
{}

/// So at one moment at most as many sweeps aren't quiet as `sweeps_left` says, by what stands in the master's tables.
pub fn sweeps_are_counted()
    ensures { SweepsAreCounted }
{}

/// So sweeps at one moment come to a quiet one, where none is refused.
pub fn settling_ends()
    ensures { SettlingEnds }
{}
