//! The lines of a script.
ghost use Rattle.std.specs.Prelude.{◌≡◌, ◌⊎◌, ◌+◌, ◌<◌, ◌≤◌, [], IsErr, IfOk, IfErr};
ghost use Rattle.std.specs.Io.{ReadsAtMost};
ghost use Rattle.std.specs.Io.KnownBytes.{ReadConsumes};
ghost use Rattle.std.specs.Io.BufRead.{strip_last};
ghost use Rattle.scripts.specs.Texts.{Advances, Fills};
ghost use Rattle.scripts.specs.Ran.{StopsReading};

use crate::stops::ScriptStop;
use std::alloc::Global;
use std::io;
use std::io::{BufRead, BufReader, ErrorKind, Read};
use std::marker::Model;

/// The most lines of a script.
pub(crate) const LINE_COUNT_LIMIT: u64 = 1_000_000;

/// The most bytes of a line, without its LF.
const LINE_LENGTH_LIMIT: usize = 1_048_576;

/// The most reads of a script: 2^30.
const READ_LIMIT: u64 = 0x4000_0000;

/// How many bytes are asked for at once.
const READ_SIZE: usize = 0x1_0000;

/// A reader that is read at most so many times more; the next read fails.
#[derive(Drop)]
pub struct Counted<R> {
    reader: R,
    left: u64,
}

impl<R> Counted<R> {
    /// This reader, and how often it may be read.
    pub fn new(reader: R, left: u64) -> Counted<R>
        ensures reader { result.reader ≡ reader }
        ensures left { result.left ≡ left }
    {
        Counted { reader, left }
    }
}

impl<R: Read> Read for Counted<R> {
    ghost remaining = { λ counted. R.remaining counted.reader };

    // Each read counts, also one that fails. With none left, the reader isn't read.
    fn read(&mut self, buf: &mut [u8]) -> io::Result<usize>
        ensures bound { ReadsAtMost result buf.new }
        ensures bytes { ReadConsumes (R.remaining self.old.reader) (R.remaining self.new.reader) result buf.new }
        ensures spent { self.old.left ≡ 0 → (IsErr result × (self.new ≡ self.old)) }
        ensures left { 0 < self.old.left → self.new.left + 1 ≡ self.old.left }
    {
        if self.left == 0 {
            return Err(io::Error::other("too many reads"));
        }
        self.left -= 1;
        self.reader.read(buf)
    }
}

/// A reader that is read until it gave so many bytes more; the next read fails.
#[derive(Drop)]
struct Rationed<R> {
    reader: R,
    left: usize,
}

impl<R> Rationed<R> {
    fn allow(&mut self, left: usize)
        ensures reader { self.new.reader ≡ self.old.reader }
    {
        self.left = left;
    }
}

impl<R: Read> Read for Rationed<R> {
    ghost remaining = { λ rationed. R.remaining rationed.reader };

    fn read(&mut self, buf: &mut [u8]) -> io::Result<usize> {
        if self.left == 0 {
            return Err(io::Error::other("too many bytes"));
        }
        let count = self.reader.read(buf)?;
        self.left = self.left.saturating_sub(count);
        Ok(count)
    }
}

/// The lines of a script, one after another, in a buffer of one line.
#[derive(Drop)]
pub(crate) struct ScriptLines<R: Read + Drop> {
    reader: BufReader<Rationed<Counted<R>>>,
    line: Vec<u8>,
    number: u64,
}

impl<R: Read + Drop> Model for ScriptLines<R> {
    ghost use Rattle.std.specs.Io.Buffered.{reader_remaining};
    ghost use Rattle.scripts.specs.Texts.{Reading};

    ghost Value = { Reading };

    ghost view = { λ l. record { rest = reader_remaining (λ rationed. R.remaining rationed.reader.reader) l.reader; line = l.line.items; number = l.number } };
}

impl<R: Read + Drop> ScriptLines<R> {
    pub(crate) fn new(alloc: Global, reader: R) -> Result<ScriptLines<R>, ScriptStop>
        ensures new { IfOk result (λ lines. lines ≡ record { rest = R.remaining reader; line = []; number = 0 }) }
        ensures only { IfErr result (λ stop. stop ≡ ScriptStop.NoMemory) }
    {
        let rationed = Rationed {
            reader: Counted::new(reader, READ_LIMIT),
            left: 0,
        };
        match BufReader::with_capacity(alloc, READ_SIZE, rationed) {
            Ok(reader) => Ok(ScriptLines {
                reader,
                line: Vec::new(alloc),
                number: 0,
            }),
            Err(_) => Err(ScriptStop::NoMemory),
        }
    }

    /// Whether more input has to be read before the next line is whole.
    pub(crate) fn is_used_up(&self) -> bool {
        !self.reader.buffer().contains(&b'\n')
    }

    /// Goes on to the next line; false where there is none. A line that is too long, too many or can't be read is no
    /// step.
    pub(crate) fn advance(&mut self) -> Result<bool, ScriptStop>
        ensures advances { IfOk result (λ is_there. Advances is_there self.old self.new) }
        ensures stopped { IfErr result (λ stop. self.old.number ≤ 1000000 → StopsReading self.old.rest self.old.number stop) }
    {
        self.number = self.number.saturating_add(1);
        if self.fill()? == 0 {
            return Ok(false);
        }
        cut(&mut self.line);
        if self.number > LINE_COUNT_LIMIT {
            return Err(ScriptStop::BadStep(self.number));
        }
        if self.line.len() > LINE_LENGTH_LIMIT {
            return Err(ScriptStop::BadStep(self.number));
        }
        Ok(true)
    }

    /// The line that was read last, without its LF.
    pub(crate) fn line(&self) -> &[u8]
        ensures { result.now ≡ self.now.line }
    {
        self.line.as_slice()
    }

    /// Its number, counted from 1.
    pub(crate) fn number(&self) -> u64
        ensures { result ≡ self.now.number }
    {
        self.number
    }

    // Reads up to and with the next LF, and little more than a line may have.
    fn fill(&mut self) -> Result<usize, ScriptStop>
        ensures filled { IfOk result (λ count. Fills count self.old self.new) }
        ensures only { IfErr result (λ stop. (stop ≡ ScriptStop.NoMemory) ⊎ (stop ≡ ScriptStop.Unread self.old.number)) }
    {
        self.line.clear();
        self.reader.get_mut().allow(LINE_LENGTH_LIMIT + 1);
        match self.reader.read_until(b'\n', &mut self.line) {
            Ok(count) => Ok(count),
            Err(error) if error.kind() == ErrorKind::OutOfMemory => Err(ScriptStop::NoMemory),
            Err(_) => Err(ScriptStop::Unread(self.number)),
        }
    }
}

// Takes the LF away that ends a line, if one does.
fn cut(line: &mut Vec<u8>)
    ensures { line.new.items ≡ strip_last 10 line.old.items }
{
    let len = line.len();
    if len > 0 && line[len - 1] == b'\n' {
        line.truncate(len - 1);
    }
}
