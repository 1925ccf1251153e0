//! The script as it is read: a line at a time, and the one that was begun last.
ghost use Rattle.std.specs.Prelude.{◌≡◌, ◌≤◌, [], length, IfOk};
ghost use Rattle.std.specs.Io.{ReadsAtMost};
ghost use Rattle.std.specs.Io.Buffered.{reader_remaining};
ghost use Rattle.std.specs.Io.KnownBytes.{ReadConsumes};

use std::alloc::Global;
use std::cell::Cell;
use std::io::{self, BufRead, BufReader, Read};

/// How many bytes are asked for at once.
const READ_SIZE: usize = 0x1_0000;

/// So many bytes of a line are kept: as many as a line may have, and one more.
pub(crate) const KEPT_LENGTH: usize = 1_048_577;

/// A reader that gives no byte after the end of a line at once. So whoever reads lines has read all that it gave when it
/// asks for the next one, and the line that was begun last is the one that is done.
#[derive(Drop)]
pub(crate) struct LineReader<'a, R: Read + Drop> {
    reader: BufReader<R>,
    line: Vec<u8>,
    number: &'a Cell<u64>,
    is_ended: bool,
    failure: Option<io::Error>,
}

impl<'a, R: Read + Drop> LineReader<'a, R> {
    /// Nothing is read yet. The number of the line that was begun last is noted there, from 1.
    pub(crate) fn new(
        alloc: Global,
        reader: R,
        number: &'a Cell<u64>,
    ) -> io::Result<LineReader<'a, R>>
        ensures { IfOk result (λ lines. reader_remaining R.remaining lines.reader ≡ R.remaining reader) }
    {
        Ok(LineReader {
            reader: BufReader::with_capacity(alloc, READ_SIZE, reader)?,
            line: Vec::new(alloc),
            number,
            is_ended: true,
            failure: None,
        })
    }

    /// The line that was begun last, without its LF.
    pub(crate) fn line(&self) -> &[u8] {
        match self.line.as_slice() {
            [line @ .., b'\n'] => line,
            line => line,
        }
    }

    /// Why it couldn't be read, where that is so.
    pub(crate) fn failure(&self) -> Option<io::Error> {
        self.failure
    }

    // Where a line is at its end, the next one begins.
    fn begin(&mut self)
        ensures { self.new.reader ≡ self.old.reader }
    {
        if self.is_ended {
            self.line.clear();
            self.is_ended = false;
            self.number.set(self.number.get().saturating_add(1));
        }
    }

    // Keeps what was given of the line.
    fn keep(&mut self, bytes: &[u8])
        ensures { self.new.reader ≡ self.old.reader }
    {
        if let [.., last] = bytes {
            self.is_ended = *last == b'\n';
        }
        let room = KEPT_LENGTH.saturating_sub(self.line.len());
        let count = room.min(bytes.len());
        // Where there is no memory for it, less is said of it.
        let _ = self.line.extend_from_slice(&bytes[..count]);
    }

    // Gives bytes of one line: of those that were asked for before, and else the first one that comes.
    fn give(&mut self, buf: &mut [u8]) -> io::Result<usize>
        ensures bound { ReadsAtMost result buf.new }
        ensures bytes { ReadConsumes (reader_remaining R.remaining self.old.reader) (reader_remaining R.remaining self.new.reader) result buf.new }
    {
        let count = piece_length(self.reader.buffer()).max(1);
        let room = count.min(buf.len());
        self.reader.read(&mut buf[..room])
    }
}

impl<R: Read + Drop> Read for LineReader<'_, R> {
    ghost remaining = { λ lines. reader_remaining R.remaining lines.reader };

    fn read(&mut self, buf: &mut [u8]) -> io::Result<usize> {
        self.begin();
        match self.give(buf) {
            Ok(count) => {
                self.failure = None;
                self.keep(&buf[..count]);
                Ok(count)
            }
            Err(error) => {
                self.failure = Some(error);
                Err(error)
            }
        }
    }
}

// How many bytes there are up to and with the first LF.
fn piece_length(bytes: &[u8]) -> usize
    ensures { result ≤ length bytes.now }
{
    for place in 0..bytes.len() {
        if bytes[place] == b'\n' {
            return place + 1;
        }
    }
    bytes.len()
}
