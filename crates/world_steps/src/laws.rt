//! What holds of the clocks over a master's life, for every client.
ghost use Rattle.world_steps.specs.Lives.{FairTicksAreTaken, TakenTicksAreFair};

/// A tick to which the clocks move fairly from each point of the master's life is never refused as unfair.
pub fn fair_ticks_are_taken()
    ensures { FairTicksAreTaken }
{}

/// One that isn't refused as unfair moves them fairly from each of these points.
pub fn taken_ticks_are_fair()
    ensures { TakenTicksAreFair }
{}
