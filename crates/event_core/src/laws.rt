//! What follows from the definitions.
ghost use Rattle.event_core.specs.Laws.{QueuedGetsNext, GreaterNumbersWait, MissedIsTold};

/// An event for a queue that isn't full gets the next number, and all others keep theirs.
pub fn queued_gets_next()
    ensures { QueuedGetsNext }
{}

/// Behind an acknowledgement just the events with greater numbers wait, under the numbers that they had.
pub fn greater_numbers_wait()
    ensures { GreaterNumbersWait }
{}

/// As soon as an event can be added one is queued for those that were missed.
pub fn missed_is_told()
    ensures { MissedIsTold }
{}
