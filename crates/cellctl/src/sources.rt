//! Where the steps of a script come from: a file, the standard input, or somebody at a terminal.
use crate::bad_lines::tell_astray;
use crate::help::SCRIPTS;
use crate::texts::GREETING;
use scripts::{Parsed, read_line};
use std::alloc::Global;
use std::fs::File;
use std::io::{self, BufRead, BufReader, IsTerminal, Read, Stderr, Stdin, Write};

/// How many bytes are asked for at once.
const READ_SIZE: usize = 0x1_0000;

/// What stands for a line that is no step, at a terminal: a comment.
const NOTHING: &[u8] = b"#\n";

/// Where the steps come from.
#[derive(Drop)]
pub(crate) enum Source {
    File(File),
    Input(Stdin),
    Terminal(Terminal),
}

impl Source {
    /// The standard input, which may be a terminal.
    pub(crate) fn input(alloc: Global, input: Stdin, errors: Stderr) -> io::Result<Source> {
        if input.is_terminal() {
            return Ok(Source::Terminal(Terminal::new(alloc, input, errors)?));
        }
        Ok(Source::Input(input))
    }
}

impl Read for Source {
    fn read(&mut self, buf: &mut [u8]) -> io::Result<usize> {
        match self {
            Source::File(file) => file.read(buf),
            Source::Input(input) => input.read(buf),
            Source::Terminal(terminal) => terminal.read(buf),
        }
    }
}

/// Somebody at a terminal: each line is asked for by a prompt, `help` is answered, and a line that is no step is told of and
/// stands for nothing, so that it can be written again.
#[derive(Drop)]
pub(crate) struct Terminal {
    alloc: Global,
    reader: BufReader<Stdin>,
    errors: Stderr,
    line: Vec<u8>,
    given: usize,
    number: u64,
}

impl Terminal {
    fn new(alloc: Global, input: Stdin, errors: Stderr) -> io::Result<Terminal> {
        let mut terminal = Terminal {
            alloc,
            reader: BufReader::with_capacity(alloc, READ_SIZE, input)?,
            errors,
            line: Vec::new(alloc),
            given: 0,
            number: 0,
        };
        let _ = writeln!(&mut terminal.errors, "{GREETING}");
        Ok(terminal)
    }

    // The next line, with its end; none at the end of the input.
    fn next(&mut self) -> io::Result<()> {
        let _ = write!(&mut self.errors, "> ");
        self.line.clear();
        self.given = 0;
        self.number = self.number.saturating_add(1);
        self.reader.read_until(b'\n', &mut self.line)?;
        if self.is_for_us() {
            self.line.clear();
            self.line.extend_from_slice(NOTHING)?;
        }
        Ok(())
    }

    // Whether the line is no step: it asks for help, or it is told what is wrong with it.
    fn is_for_us(&mut self) -> bool {
        let line = match self.line.as_slice() {
            [line @ .., b'\n'] => line,
            line => line,
        };
        if line == b"help".as_slice() {
            let _ = writeln!(&mut self.errors, "{SCRIPTS}");
            return true;
        }
        match read_line(self.alloc, line) {
            Ok(Parsed::Bad) => {
                tell_astray(self.alloc, &mut self.errors, self.number, line);
                true
            }
            _ => false,
        }
    }
}

impl Read for Terminal {
    fn read(&mut self, buf: &mut [u8]) -> io::Result<usize> {
        if self.given >= self.line.len() {
            self.next()?;
        }
        let from = self.given.min(self.line.len());
        let mut left = &self.line[from..];
        let count = left.read(buf)?;
        self.given = from.saturating_add(count);
        Ok(count)
    }
}
