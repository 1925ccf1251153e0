//! Bytes that are read from the front.
ghost use Rattle.std.specs.Prelude.{◌≡◌, ◌==◌, List, ℕ, length, take, drop, Ok, Err, nat_lt, if◌then◌else◌};
ghost use Rattle.collections.specs.Results.{Gives};
ghost use Rattle.codec.specs.Forms.{begin_at, Reads, next_at, Form, number, choice_at};
ghost use Rattle.codec.specs.Fields.{word, block};

use byteorder::{BigEndian, ByteOrder};
use codec::{VERSION, WireFault};
use std::marker::Model;

// Whether something that may be missing is there.
pub(crate) const FLAGS: [bool; 2] = [false, true];

// What is left to read. To a contract, the list of its bytes.
#[derive(Drop)]
pub(crate) struct AnswerInput<'a> {
    rest: &'a [u8],
}

impl<'a> Model for AnswerInput<'a> {
    ghost use Rattle.std.specs.Prelude.{List, ℕ};

    ghost Value = { List ℕ };

    ghost view = { λ input. input.rest.now };
}

impl<'a> AnswerInput<'a> {
    pub(crate) fn new(bytes: &'a [u8]) -> AnswerInput<'a>
        ensures { result ≡ bytes.now }
    {
        AnswerInput { rest: bytes }
    }

    pub(crate) fn is_empty(&self) -> bool
        ensures { result ≡ (length self.now == 0) }
    {
        self.rest.is_empty()
    }

    // How many bytes are left.
    pub(crate) fn len(&self) -> usize
        ensures { result ≡ length self.now }
    {
        self.rest.len()
    }

    // So many bytes from the front.
    pub(crate) fn next(&mut self, count: usize) -> Result<&'a [u8], WireFault>
        ensures { Reads (λ front. front.now) result self.new (next_at count self.old) }
    {
        if self.rest.len() < count {
            return Err(WireFault::Cut);
        }
        let (front, back) = self.rest.split_at(count);
        self.rest = back;
        Ok(front)
    }

    #[tactic(auto, unfolding(codec::specs::Fields::word))]
    pub(crate) fn word(&mut self) -> Result<u64, WireFault>
        ensures { Reads (λ x. x) result self.new (word.read self.old) }
    {
        let front = self.next(8)?;
        Ok(BigEndian::read_u64(front))
    }

    // A number of bytes in four, and the bytes.
    #[tactic(auto, unfolding(codec::specs::Fields::block))]
    pub(crate) fn block(&mut self) -> Result<&'a [u8], WireFault>
        ensures { Reads (λ front. front.now) result self.new (block.read self.old) }
    {
        let count = self.count()?;
        self.next(count as usize)
    }

    // How many there are of something, in four bytes.
    pub(crate) fn count(&mut self) -> Result<u32, WireFault>
        ensures { Reads (λ x. x) result self.new ((number 4).read self.old) }
    {
        let front = self.next(4)?;
        Ok(BigEndian::read_u32(front))
    }

    // One of the choices, by its place.
    pub(crate) fn choice<T: Copy>(&mut self, all: &[T]) -> Result<T, WireFault>
        ensures { Reads (λ x. x) result self.new (choice_at all.now self.old) }
    {
        let [place, rest @ ..] = self.rest else {
            return Err(WireFault::Cut);
        };
        let Some(found) = all.get(usize::from(*place)) else {
            return Err(WireFault::BadKind);
        };
        self.rest = rest;
        Ok(*found)
    }
}

// All bytes of a frame are fewer.
pub(crate) const LENGTH_END: usize = 0x1_0000_0000;

// What stands after the version.
pub(crate) fn begin(bytes: &[u8]) -> Result<AnswerInput, WireFault>
    ensures { Gives WireFault.NoMemory result (begin_at bytes.now) }
{
    if bytes.len() >= LENGTH_END {
        return Err(WireFault::TooLong);
    }
    match bytes {
        [] => Err(WireFault::Cut),
        [VERSION, rest @ ..] => Ok(AnswerInput::new(rest)),
        [_, ..] => Err(WireFault::BadVersion),
    }
}
