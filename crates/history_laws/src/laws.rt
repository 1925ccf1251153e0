//! Parts that run apart are a world.
ghost use Rattle.history_laws.specs.Laws.{HistoriesAreRuns, HistoriesHold, PrefixesArePoints, CachesShowTheRows, CachesAnswerTheRows};
ghost use Rattle.history_laws.specs.Hosted.{FramesAreDeeds, GroupsAreDeeds, BytesCarryMessages, TrailsAreDeeds};
ghost use Rattle.history_laws.specs.Lost.{LostGroupsAreEnds, UnheardAreAsUntold};
ghost use Rattle.history_laws.specs.Kept.{ViewsAnswerTheRows};
ghost use Rattle.history_laws.specs.Crashes.{RefusedRowsMayStand, CrashedHistoriesAreRuns, CrashedHistoriesHold, CachesShowWhatCrashesLeave, CachesAnswerWhatCrashesLeave};
ghost use Rattle.history_laws.specs.RefusedFrames.{FramesAreStoredDeeds};
ghost use Rattle.history_laws.specs.KeptCrashes.{ViewsAnswerWhatCrashesLeave};
ghost use Rattle.history_laws.specs.Example.{TwoProgramsArePossible, NothingComesOfNobody};

/// What a master and clients do that run apart, with messages that are lost, late or repeated, masters that go without a word
/// and others that come up over the rows, is what one world does in some run, with the same lines, messages and rows.
pub fn histories_are_runs()
    ensures { HistoriesAreRuns }
{}

/// So all that holds of the runs of a world holds of them.
pub fn histories_hold()
    ensures { HistoriesHold }
{}

/// Each point of a history is a point of that run, so all of this holds from there on of what the parts hold then.
pub fn prefixes_are_points()
    ensures { PrefixesArePoints }
{}

/// Whatever a client serves from its cache is what the master's rows hold of that name at that moment.
pub fn caches_show_the_rows()
    ensures { CachesShowTheRows }
{}

/// A history of two clients and two masters, with a message that is lost, one that comes twice, and one that comes late, can be.
pub fn two_programs_are_possible()
    ensures { TwoProgramsArePossible }
{}

/// One in which a part takes a message that nobody told can't.
pub fn nothing_comes_of_nobody()
    ensures { NothingComesOfNobody }
{}

/// A master that a program hosts behind a stream of frames is such a part: what it does by a frame are deeds of the master, at the
/// moment that the frame says, and they print and tell just what the frame is answered.
pub fn frames_are_deeds()
    ensures { FramesAreDeeds }
{}

/// What a hosted master does by the frames of a group are its deeds too: each frame is done over changes that are held back, all are
/// committed together, and only then it is told of them.
pub fn groups_are_deeds()
    ensures { GroupsAreDeeds }
{}

/// A group of frames of which the store refused a piece is an end of its master, of which nobody was told: whichever rows the next master
/// finds, those that stand or those that a crash may leave, are as a step of this one left them, after which it was gone.
pub fn lost_groups_are_ends()
    ensures { LostGroupsAreEnds }
{}

/// Messages of which nobody hears are as messages that weren't told: each history that goes on without them goes on with them, by the same
/// deeds at the same clocks, and with the same lines.
pub fn unheard_are_as_untold()
    ensures { UnheardAreAsUntold }
{}

/// Where messages travel as bytes, whoever reads the bytes of one takes the message that was told.
pub fn bytes_carry_messages()
    ensures { BytesCarryMessages }
{}

/// Whatever the cache of a client would answer, at any moment by the client's clock and without a step, is what the rows hold then: so
/// a hit in another language, or by a viewer, is.
pub fn caches_answer_the_rows()
    ensures { CachesAnswerTheRows }
{}

/// A master that threads share is such a part: each entry of its trail is a deed, also where a thread comes with an earlier moment than
/// the one before.
pub fn trails_are_deeds()
    ensures { TrailsAreDeeds }
{}

/// Whatever the view of a client's cache that was published last would answer, at any moment by the client's clock, is what the rows hold
/// then, also while its keeper is late: a keeper hands out no message of a client, not even one that it sent before, until what viewers
/// see is what that client has.
pub fn views_answer_the_rows()
    ensures { ViewsAnswerTheRows }
{}

/// Whatever a master would commit by a sweep, its store may refuse: the master stays up and goes on, and a crash may leave those rows
/// all the same.
pub fn refused_rows_may_stand()
    ensures { RefusedRowsMayStand }
{}

/// Histories over a store that may refuse what it is to commit, with crashes between them, each of which leaves some of the rows that the
/// store may leave, are what a world does in runs with such crashes between them.
pub fn crashed_histories_are_runs()
    ensures { CrashedHistoriesAreRuns }
{}

/// So all that holds of the runs of a world holds after each crash, whichever rows it left: also those of a commit that was refused, of a
/// master that went on to serve.
pub fn crashed_histories_hold()
    ensures { CrashedHistoriesHold }
{}

/// Whatever a client serves from its cache is what the rows hold of that name at that moment, whatever the store refused, and whichever rows
/// crashes left.
pub fn caches_show_what_crashes_leave()
    ensures { CachesShowWhatCrashesLeave }
{}

/// And so is whatever its cache would answer at any moment by the client's clock.
pub fn caches_answer_what_crashes_leave()
    ensures { CachesAnswerWhatCrashesLeave }
{}

/// What a hosted master does by a frame by itself are deeds over its store, also where the store refuses the commit, and the master stays:
/// after it the parts' store is the host's, with all rows that a crash may leave then.
pub fn frames_are_stored_deeds()
    ensures { FramesAreStoredDeeds }
{}

/// Whatever the view of a client's cache that was published last would answer is what the rows hold then, also after crashes that left rows
/// of a refused commit, and while its keeper is late.
pub fn views_answer_what_crashes_leave()
    ensures { ViewsAnswerWhatCrashesLeave }
{}
