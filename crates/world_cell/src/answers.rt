//! What holds of every client of a world, whatever it is asked.
ghost use Rattle.world_cell.specs.Shown.{AnswersAreShown};

/// What a client answers out of its cache is what the `served` line shows that it prints then.
pub fn answers_are_shown()
    ensures { AnswersAreShown }
{}
