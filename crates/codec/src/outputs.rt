//! Bytes that are written at the end.
ghost use Rattle.std.specs.Prelude.{◌≡◌, ◌++◌, ◌∷◌, [], OnOk};
ghost use Rattle.byteorder.specs.Endian.{big_bytes};
ghost use Rattle.codec.specs.Forms.{Appends, Form};
ghost use Rattle.codec.specs.Fields.{word, block};

use byteorder::{BigEndian, ByteOrder};
use std::alloc::AllocError;

// Any number, in eight bytes.
#[tactic(auto, unfolding(crate::specs::Fields::word))]
pub(crate) fn put_word(out: &mut Vec<u8>, number: u64) -> Result<(), AllocError>
    ensures { OnOk result (Appends word number out.old.items out.new.items) }
{
    let mut bytes = [0; 8];
    BigEndian::write_u64(&mut bytes, number);
    out.extend_from_slice(&bytes)
}

// How many there are of something: the last four bytes of the number.
pub(crate) fn put_count(out: &mut Vec<u8>, count: usize) -> Result<(), AllocError>
    ensures { OnOk result (out.new.items ≡ out.old.items ++ big_bytes 4 count) }
{
    let mut bytes = [0; 8];
    BigEndian::write_u64(&mut bytes, count as u64);
    out.extend_from_slice(&bytes[4..])
}

pub(crate) fn put_byte(out: &mut Vec<u8>, byte: u8) -> Result<(), AllocError>
    ensures { OnOk result (out.new.items ≡ out.old.items ++ byte ∷ []) }
{
    Ok(out.push(byte)?)
}

// A number of bytes in four, and the bytes.
#[tactic(auto, unfolding(crate::specs::Fields::block))]
pub(crate) fn put_block(out: &mut Vec<u8>, bytes: &[u8]) -> Result<(), AllocError>
    ensures { OnOk result (Appends block bytes.now out.old.items out.new.items) }
{
    put_count(out, bytes.len())?;
    out.extend_from_slice(bytes)
}
