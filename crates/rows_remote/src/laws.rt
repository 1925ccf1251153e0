//! What holds of the bytes of what is asked and answered, for all of it and all bytes.
ghost use Rattle.rows_remote.specs.Laws.{WrittenAskedIsRead, ReadAskedWasWritten, EditsStandBehind, WrittenAnswerIsRead, ReadAnswerWasWritten, RowsStandBehind};

/// What is asked is read as it was written.
pub fn written_asked_is_read()
    ensures { WrittenAskedIsRead }
{}

/// What is read of what is asked is what would be written.
pub fn read_asked_was_written()
    ensures { ReadAskedWasWritten }
{}

/// After the first fourteen bytes of a commit stand its edits: they are read one by one, each where the one before it ends.
pub fn edits_stand_behind()
    ensures { EditsStandBehind }
{}

/// What is answered is read as it was written.
pub fn written_answer_is_read()
    ensures { WrittenAnswerIsRead }
{}

/// What is read of an answer is what would be written.
pub fn read_answer_was_written()
    ensures { ReadAnswerWasWritten }
{}

/// An answer that tells rows is what stands in front of them, and then the bytes of each.
pub fn rows_stand_behind()
    ensures { RowsStandBehind }
{}
