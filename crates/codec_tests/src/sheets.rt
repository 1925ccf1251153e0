//! What is written as bytes: a message, or a whole state, in parts with names, so that two states are compared and the parts
//! that differ are named.
use codec::{WireFault, read_out, read_request};
use std::alloc::{AllocError, Global};
use std::fmt::{Debug, Display};
use world_steps::Message;

// A part of a state: what it is, of which client, and where its bytes begin.
#[derive(Clone, Copy)]
struct Part {
    name: &'static str,
    whose: u64,
    start: usize,
}

/// The message whose bytes these are, to the master or to a client.
pub(crate) fn message_of(
    alloc: Global,
    is_to_master: bool,
    bytes: &[u8],
) -> Result<Message, WireFault> {
    if is_to_master {
        Ok(Message::ToMaster(read_request(alloc, bytes)?))
    } else {
        Ok(Message::ToClient(read_out(alloc, bytes)?))
    }
}

/// All that was written.
#[derive(Drop)]
pub(crate) struct Sheet {
    pub(crate) alloc: Global,
    bytes: Vec<u8>,
    parts: Vec<Part>,
    /// Whether something found no room, or can't be seen.
    pub(crate) is_short: bool,
}

impl Sheet {
    pub(crate) fn new(alloc: Global) -> Sheet {
        Sheet {
            alloc,
            bytes: Vec::new(alloc),
            parts: Vec::new(alloc),
            is_short: false,
        }
    }

    pub(crate) fn clear(&mut self) {
        self.bytes.clear();
        self.parts.clear();
        self.is_short = false;
    }

    /// What is written next is of this part.
    pub(crate) fn begin(&mut self, name: &'static str, whose: u64) {
        let start = self.bytes.len();
        if self.parts.push(Part { name, whose, start }).is_err() {
            self.is_short = true;
        }
    }

    /// These bytes and nothing else.
    pub(crate) fn bytes(&mut self, bytes: &[u8]) {
        if self.bytes.extend_from_slice(bytes).is_err() {
            self.is_short = true;
        }
    }

    pub(crate) fn word(&mut self, number: u64) {
        self.bytes(&number.to_be_bytes());
    }

    /// How many there are of something, in four bytes.
    pub(crate) fn count(&mut self, count: usize) {
        let bytes = (count as u64).to_be_bytes();
        self.bytes(&bytes[4..]);
    }

    /// How many bytes these are, and the bytes.
    pub(crate) fn block(&mut self, bytes: &[u8]) {
        self.count(bytes.len());
        self.bytes(bytes);
    }

    /// A block of this byte.
    pub(crate) fn fill(&mut self, byte: u8, count: usize) {
        self.count(count);
        let end = self.bytes.len().saturating_add(count);
        if self.bytes.resize(end, byte).is_err() {
            self.is_short = true;
        }
    }

    /// A block of these bytes: cut at a place, one longer, with one that is another, or right.
    pub(crate) fn spoilt(&mut self, right: &[u8], how: u64, place: usize) {
        let head = right.get(..place).unwrap_or(right);
        let tail = right.get(place..).unwrap_or(&[]);
        match (how, tail) {
            (0, _) => self.block(head),
            (1, _) => {
                self.count(right.len().saturating_add(1));
                self.bytes(right);
                self.bytes(&[0]);
            }
            (2, [byte, rest @ ..]) => {
                self.count(right.len());
                self.bytes(head);
                self.bytes(&[*byte ^ 1]);
                self.bytes(rest);
            }
            _ => self.block(right),
        }
    }

    /// As it is printed.
    pub(crate) fn shown(&mut self, value: &impl Display) {
        match format!(in self.alloc; "{value}") {
            Ok(text) => self.block(text.as_str().as_bytes()),
            Err(_) => self.is_short = true,
        }
    }

    /// As it is told to those who look for faults.
    pub(crate) fn told(&mut self, value: &impl Debug) {
        match format!(in self.alloc; "{value:?}") {
            Ok(text) => self.block(text.as_str().as_bytes()),
            Err(_) => self.is_short = true,
        }
    }

    /// All that was written.
    pub(crate) fn as_slice(&self) -> &[u8] {
        self.bytes.as_slice()
    }

    fn part(&self, place: usize) -> Option<(&'static str, u64, &[u8])> {
        let part = self.parts.get(place)?;
        let end = match self.parts.get(place.saturating_add(1)) {
            Some(next) => next.start,
            None => self.bytes.len(),
        };
        Some((part.name, part.whose, self.bytes.get(part.start..end)?))
    }

    /// The parts that differ, each with whose it is, behind a semicolon.
    pub(crate) fn changes(&self, other: &Sheet) -> Result<String, AllocError> {
        let mut text = String::new(self.alloc);
        for place in 0..self.parts.len() {
            let part = self.part(place);
            if part != other.part(place) {
                let (name, whose, _) = part.unwrap_or(("", 0, &[]));
                write!(text, "; {name} {whose}")?;
            }
        }
        if self.is_short || other.is_short || self.parts.len() != other.parts.len() {
            text.push_str("; other parts")?;
        }
        Ok(text)
    }
}
