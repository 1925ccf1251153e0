//! The output of a script as it is written: which lines of the script were refused, and why it couldn't be written.
use std::cell::Cell;
use std::io::{self, Write};

/// How many bytes of a line of the output are looked at: a refusal of a step has fewer.
const LOOK_LENGTH: usize = 64;

/// What a refusal of a step begins with.
const REFUSED: &[u8] = b"refused ";

/// A refusal for the rows of the store, and what is said of it.
const DAMAGED: (&[u8], &[u8]) = (
    b"refused 16 ",
    b"  cellctl check FILE says what is wrong with the store\n",
);

// The line of the output that is being written, as far as it is looked at.
#[derive(Drop)]
struct Look<'a, E: Write + Drop> {
    errors: E,
    // The line of the script that is being done.
    at: &'a Cell<u64>,
    bytes: [u8; LOOK_LENGTH],
    count: usize,
}

impl<E: Write + Drop> Look<'_, E> {
    fn see(&mut self, bytes: &[u8]) {
        for byte in bytes {
            self.see_byte(*byte);
        }
    }

    fn see_byte(&mut self, byte: u8) {
        if byte == b'\n' {
            self.end();
            self.count = 0;
            return;
        }
        if self.count < LOOK_LENGTH {
            self.bytes[self.count] = byte;
            self.count += 1;
        }
    }

    // Tells of a refusal, with the line of the script. Where these words can't be written, the script goes on.
    fn end(&mut self) {
        let count = self.count.min(LOOK_LENGTH);
        let line = &self.bytes[..count];
        if line.starts_with(REFUSED) {
            let number = self.at.get();
            let _ = write!(&mut self.errors, "line {number}: ");
            let _ = self.errors.write_all(line);
            let _ = self.errors.write_all(b"\n");
        }
        let (damaged, hint) = DAMAGED;
        if line.starts_with(damaged) {
            let _ = self.errors.write_all(hint);
        }
    }
}

/// A writer that tells of each refusal that it writes, with the line of the script that is being done, and keeps why it
/// couldn't be written.
#[derive(Drop)]
pub(crate) struct Output<'a, W: Write + Drop, E: Write + Drop> {
    writer: W,
    look: Look<'a, E>,
    failure: Option<io::Error>,
}

impl<'a, W: Write + Drop, E: Write + Drop> Output<'a, W, E> {
    /// Refusals go to `errors`.
    pub(crate) fn new(writer: W, errors: E, at: &'a Cell<u64>) -> Output<'a, W, E> {
        Output {
            writer,
            look: Look {
                errors,
                at,
                bytes: [0; LOOK_LENGTH],
                count: 0,
            },
            failure: None,
        }
    }

    /// Why it couldn't be written last, where that is so.
    pub(crate) fn failure(&self) -> Option<io::Error> {
        self.failure
    }
}

impl<W: Write + Drop, E: Write + Drop> Write for Output<'_, W, E> {
    ghost contents = { λ output. W.contents output.writer };

    fn write(&mut self, buf: &[u8]) -> io::Result<usize> {
        match self.writer.write(buf) {
            Ok(count) => {
                self.failure = None;
                self.look.see(&buf[..count]);
                Ok(count)
            }
            Err(error) => {
                self.failure = Some(error);
                Err(error)
            }
        }
    }

    fn flush(&mut self) -> io::Result<()> {
        match self.writer.flush() {
            Ok(()) => Ok(()),
            Err(error) => {
                self.failure = Some(error);
                Err(error)
            }
        }
    }
}
