//! What holds of the bytes of frames.
ghost use Rattle.codec.specs.Laws.{format};
ghost use Rattle.hosting.specs.Laws.{WrittenFrameIsRead, ReadFrameWasWritten, WrittenToldIsRead, ReadToldWasWritten, FramedIsNext, ToldIsNext, FramesAreOf, CarriedIsRead};

/// What was written to a master is read as it was.
pub fn written_frame_is_read()
    ensures { WrittenFrameIsRead }
{}

/// What is read of a frame to a master is what would be written.
pub fn read_frame_was_written()
    ensures { ReadFrameWasWritten }
{}

/// What a master wrote is read as it was.
pub fn written_told_is_read()
    ensures { WrittenToldIsRead }
{}

/// What is read of a frame of a master is what would be written.
pub fn read_told_was_written()
    ensures { ReadToldWasWritten }
{}

/// What was written at the front of a stream is what stands there next.
pub fn framed_is_next()
    ensures { FramedIsNext }
{}

/// Whatever a master tells is what stands there next, of any size: no answer is above the limit of answers.
pub fn told_is_next()
    ensures { ToldIsNext }
{}

/// Frames have the version of the messages that they carry, and what begins with another byte is read as of another
/// version.
pub fn frames_are_of_format()
    ensures { FramesAreOf format }
{}

/// Of a message whose bytes were carried as they came, a master reads what it would read of these bytes alone; what is wrong
/// with them it tells by the same reason.
pub fn carried_is_read()
    ensures { CarriedIsRead }
{}
