//! What is told of a frame is flushed before more is read.
use crate::frames::{new_seat, terms};
use crate::stops::Stop;
use hosting::serve_on;
use std::alloc::Global;
use std::cell::Cell;
use std::io::{self, Read, Write};

// How many bytes were written and not flushed yet, how many were flushed, and whether more was read before they were.
#[derive(Drop)]
struct Watched {
    waiting: Cell<u64>,
    flushed: Cell<u64>,
    early: Cell<bool>,
}

#[derive(Drop)]
struct Source<'a> {
    left: &'a [u8],
    watched: &'a Watched,
}

impl<'a> Read for Source<'a> {
    fn read(&mut self, buf: &mut [u8]) -> io::Result<usize> {
        if self.watched.waiting.get() > 0 {
            self.watched.early.set(true);
        }
        self.left.read(buf)
    }
}

#[derive(Drop)]
struct Sink<'a> {
    watched: &'a Watched,
}

impl<'a> Write for Sink<'a> {
    fn write(&mut self, buf: &[u8]) -> io::Result<usize> {
        let waiting = self.watched.waiting.get();
        self.watched
            .waiting
            .set(waiting.saturating_add(buf.len() as u64));
        Ok(buf.len())
    }

    fn flush(&mut self) -> io::Result<()> {
        let flushed = self.watched.flushed.get();
        let waiting = self.watched.waiting.replace(0);
        self.watched.flushed.set(flushed.saturating_add(waiting));
        Ok(())
    }
}

/// How many bytes are told of the frames of a stream, and whether each was flushed before more was read.
pub(crate) fn flushed(alloc: Global, sent: &[u8]) -> Result<String, Stop> {
    let watched = Watched {
        waiting: Cell::new(0),
        flushed: Cell::new(0),
        early: Cell::new(false),
    };
    let mut source = Source {
        left: sent,
        watched: &watched,
    };
    let mut sink = Sink { watched: &watched };
    let (seat, ended) = serve_on(alloc, terms(), new_seat(alloc)?, &mut source, &mut sink);
    drop(seat);
    let count = watched.flushed.get();
    if ended.is_ok() && !watched.early.get() && watched.waiting.get() == 0 {
        Ok(format!(in alloc; "{count} flushed before more is read")?)
    } else {
        Ok(format!(in alloc; "{count} flushed, and not before more is read")?)
    }
}
