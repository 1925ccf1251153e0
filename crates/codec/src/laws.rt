//! What holds of the bytes of messages, for every message and all bytes.
ghost use Rattle.codec.specs.Laws.{WrittenRequestIsRead, ReadRequestWasWritten, WrittenOutIsRead, ReadOutWasWritten, WrittenLineIsRead, ReadLineWasWritten, format, BytesAreOf};

/// What a client wrote is read as it was.
pub fn written_request_is_read()
    ensures { WrittenRequestIsRead }
{}

/// What is read of a client is what would be written: no two messages have the same bytes, and no message two forms.
pub fn read_request_was_written()
    ensures { ReadRequestWasWritten }
{}

/// What a master wrote is read as it was.
pub fn written_out_is_read()
    ensures { WrittenOutIsRead }
{}

/// What is read of a master is what would be written: no two messages have the same bytes, and no message two forms.
pub fn read_out_was_written()
    ensures { ReadOutWasWritten }
{}

/// A line is read as it was written.
pub fn written_line_is_read()
    ensures { WrittenLineIsRead }
{}

/// A line that is read is what would be written: no two lines have the same bytes, and no line two forms.
pub fn read_line_was_written()
    ensures { ReadLineWasWritten }
{}

/// The version and the layout are one constant's: what is written begins with the version of the format that it is laid
/// out by, and what begins with another byte is read as of another version.
pub fn bytes_are_of_format()
    ensures { BytesAreOf format }
{}
