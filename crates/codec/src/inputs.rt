//! Bytes that are read from the front.
ghost use Rattle.std.specs.Prelude.{◌≡◌, ◌==◌, List, ℕ, length, take, drop, Ok, Err, nat_lt, if◌then◌else◌};
ghost use Rattle.codec.specs.Forms.{Reads, next_at, Form, number, byte_at, choice_at};
ghost use Rattle.codec.specs.Fields.{word, block};

use crate::faults::WireFault;
use byteorder::{BigEndian, ByteOrder};
use std::marker::Model;

// Whether something that may be missing is there.
pub(crate) const FLAGS: [bool; 2] = [false, true];

// What is left to read. To a contract, the list of its bytes.
#[derive(Drop)]
pub(crate) struct Input<'a> {
    rest: &'a [u8],
}

impl<'a> Model for Input<'a> {
    ghost use Rattle.std.specs.Prelude.{List, ℕ};

    ghost Value = { List ℕ };

    ghost view = { λ input. input.rest.now };
}

impl<'a> Input<'a> {
    pub(crate) fn new(bytes: &'a [u8]) -> Input<'a>
        ensures { result ≡ bytes.now }
    {
        Input { rest: bytes }
    }

    pub(crate) fn is_empty(&self) -> bool
        ensures { result ≡ (length self.now == 0) }
    {
        self.rest.is_empty()
    }

    // So many bytes from the front.
    pub(crate) fn next(&mut self, count: usize) -> Result<&'a [u8], WireFault>
        ensures { Reads (λ front. front.now) result self.new (next_at count self.old) }
    {
        if self.rest.len() < count {
            return Err(WireFault::Cut);
        }
        let (front, back) = self.rest.split_at(count);
        self.rest = back;
        Ok(front)
    }

    #[tactic(auto, unfolding(crate::specs::Fields::word))]
    pub(crate) fn word(&mut self) -> Result<u64, WireFault>
        ensures { Reads (λ x. x) result self.new (word.read self.old) }
    {
        let front = self.next(8)?;
        Ok(BigEndian::read_u64(front))
    }

    // A number of bytes in four, and the bytes.
    #[tactic(auto, unfolding(crate::specs::Fields::block))]
    pub(crate) fn block(&mut self) -> Result<&'a [u8], WireFault>
        ensures { Reads (λ front. front.now) result self.new (block.read self.old) }
    {
        let count = self.count()?;
        self.next(count as usize)
    }

    // How many there are of something, in four bytes.
    pub(crate) fn count(&mut self) -> Result<u32, WireFault>
        ensures { Reads (λ x. x) result self.new ((number 4).read self.old) }
    {
        let front = self.next(4)?;
        Ok(BigEndian::read_u32(front))
    }

    pub(crate) fn byte(&mut self) -> Result<u8, WireFault>
        ensures { Reads (λ x. x) result self.new (byte_at self.old) }
    {
        let [byte, rest @ ..] = self.rest else {
            return Err(WireFault::Cut);
        };
        self.rest = rest;
        Ok(*byte)
    }

    // One of the choices, by its place.
    pub(crate) fn choice<T: Copy>(&mut self, all: &[T]) -> Result<T, WireFault>
        ensures { Reads (λ x. x) result self.new (choice_at all.now self.old) }
    {
        let [place, rest @ ..] = self.rest else {
            return Err(WireFault::Cut);
        };
        let Some(found) = all.get(usize::from(*place)) else {
            return Err(WireFault::BadKind);
        };
        self.rest = rest;
        Ok(*found)
    }
}
