//! Inputs that come byte by byte or fail, and outputs that fail or are flushed.
use std::io::{self, Read, Write};

/// Gives a byte a read, and behind the last one ends or fails.
#[derive(Drop)]
pub(crate) struct Trickle<'a> {
    pub(crate) left: &'a [u8],
    pub(crate) fails: bool,
}

impl<'a> Read for Trickle<'a> {
    fn read(&mut self, buf: &mut [u8]) -> io::Result<usize> {
        match (self.left.split_first(), buf.first_mut()) {
            (Some((byte, rest)), Some(place)) => {
                *place = *byte;
                self.left = rest;
                Ok(1)
            }
            _ if self.fails => Err(io::Error::other("nothing is left")),
            _ => Ok(0),
        }
    }
}

/// Takes so many bytes, and fails at the next. With marks a bar stands wherever it was flushed.
#[derive(Drop)]
pub(crate) struct Narrow {
    pub(crate) text: Vec<u8>,
    pub(crate) room: usize,
    pub(crate) is_marked: bool,
}

impl Write for Narrow {
    fn write(&mut self, buf: &[u8]) -> io::Result<usize> {
        let count = self.room.min(buf.len());
        match buf.get(..count) {
            Some(head) if count > 0 => {
                self.room = self.room.saturating_sub(count);
                self.text.write(head)
            }
            _ => Err(io::Error::other("shut")),
        }
    }

    fn flush(&mut self) -> io::Result<()> {
        if self.is_marked {
            self.text.write_all(b"|")
        } else {
            Ok(())
        }
    }
}
