//! What follows from the definitions.
ghost use Rattle.cell_core.specs.Names.{QueuesWhatItTouches};
ghost use Rattle.cell_core.specs.Room.{LimitsOnlyRefuse, LimitsHold};

/// A call that waits for its turn is in the way of rights on the name whose view it may change, and of no other
/// (Burrows 2006, section 2.7).
pub fn queues_what_it_touches()
    ensures { QueuesWhatItTouches }
{}

/// A limit of the cell refuses a call for which it leaves no room, and changes nothing else: a call that adds nothing to
/// what the limit counts is done as if there were none.
pub fn limits_only_refuse()
    ensures { LimitsOnlyRefuse }
{}

/// A cell that is within its limits stays so, whatever is called; where it is above one, it doesn't grow.
pub fn limits_hold()
    ensures { LimitsHold }
{}
