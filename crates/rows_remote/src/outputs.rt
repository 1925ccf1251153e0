//! Bytes that are written at the end.
ghost use Rattle.std.specs.Prelude.{◌≡◌, ◌++◌, ◌∷◌, [], OnOk};
ghost use Rattle.collections.specs.Results.{Gives};
ghost use Rattle.byteorder.specs.Endian.{big_bytes};
ghost use Rattle.codec.specs.Forms.{Appends, Form, short_of};
ghost use Rattle.codec.specs.Fields.{word, block};
ghost use Rattle.rows_remote.specs.Frames.{framed_bytes};

use crate::inputs::LENGTH_END;
use byteorder::{BigEndian, ByteOrder};
use codec::WireFault;
use collections::Bytes;
use std::alloc::{AllocError, Global};

// Any number, in eight bytes.
#[tactic(auto, unfolding(codec::specs::Fields::word))]
pub(crate) fn put_word(out: &mut Vec<u8>, number: u64) -> Result<(), AllocError>
    ensures { OnOk result (Appends word number out.old.items out.new.items) }
{
    let mut bytes = [0; 8];
    BigEndian::write_u64(&mut bytes, number);
    out.extend_from_slice(&bytes)
}

// How many there are of something: the last four bytes of the number.
pub(crate) fn put_count(out: &mut Vec<u8>, count: usize) -> Result<(), AllocError>
    ensures { OnOk result (out.new.items ≡ out.old.items ++ big_bytes 4 count) }
{
    let mut bytes = [0; 8];
    BigEndian::write_u64(&mut bytes, count as u64);
    out.extend_from_slice(&bytes[4..])
}

pub(crate) fn put_byte(out: &mut Vec<u8>, byte: u8) -> Result<(), AllocError>
    ensures { OnOk result (out.new.items ≡ out.old.items ++ byte ∷ []) }
{
    Ok(out.push(byte)?)
}

// A number of bytes in four, and the bytes.
#[tactic(auto, unfolding(codec::specs::Fields::block))]
pub(crate) fn put_block(out: &mut Vec<u8>, bytes: &[u8]) -> Result<(), AllocError>
    ensures { OnOk result (Appends block bytes.now out.old.items out.new.items) }
{
    put_count(out, bytes.len())?;
    out.extend_from_slice(bytes)
}

// All bytes of a message, if they aren't too many.
pub(crate) fn whole(out: Vec<u8>) -> Result<Bytes, WireFault>
    ensures { Gives WireFault.NoMemory result (short_of out.items) }
{
    if out.len() >= LENGTH_END {
        return Err(WireFault::TooLong);
    }
    Ok(Bytes::from_vec(out)?)
}

// These bytes, with their number in front, if they aren't too many.
#[tactic(auto, unfolding(codec::specs::Fields::block))]
pub(crate) fn in_front(alloc: Global, bytes: Vec<u8>) -> Result<Bytes, WireFault>
    ensures { Gives WireFault.NoMemory result (framed_bytes bytes.items) }
{
    let block = whole(bytes)?;
    let mut out = Vec::new(alloc);
    put_block(&mut out, block.as_slice())?;
    Ok(Bytes::from_vec(out)?)
}
