//! The sequencer that a holder of a lock gets.
ghost use Rattle.master_laws.specs.Sequencers.{SequencersShowTheRows};

/// A new GetSequencer that is answered with a sequencer shows what the rows hold: that the handle holds its node's lock in
/// the sequencer's mode, and that the lock has the sequencer's generation.
pub fn sequencers_show_the_rows()
    ensures { SequencersShowTheRows }
{}
