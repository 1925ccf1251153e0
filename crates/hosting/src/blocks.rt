//! Blocks of bytes, each with its number of bytes in front.
ghost use Rattle.std.specs.Prelude.{◌≡◌, ◌++◌, ◌∷◌};
ghost use Rattle.byteorder.specs.Endian.{big_bytes};
ghost use Rattle.collections.specs.Results.{Gives};
ghost use Rattle.hosting.specs.Blocks.{framed_by};

use byteorder::{BigEndian, ByteOrder};
use codec::{VERSION, WireFault};
use collections::Bytes;
use std::alloc::Global;

/// The most bytes of a block that a master reads, without their number in front.
pub const BLOCK_LIMIT: usize = 0x10_0000;

/// The most bytes of a block that is told, without their number in front: as many as that number can say. Who reads what a
/// master tells takes memory for what came, not for what the number says.
pub const ANSWER_LIMIT: u64 = 0xffff_ffff;

// All bytes after the number in front are fewer.
pub(crate) const LENGTH_END: usize = 0x1_0000_0000;

// A number in eight bytes.
pub(crate) fn bytes_of(number: u64) -> [u8; 8]
    ensures { result ≡ big_bytes 8 number }
{
    let mut bytes = [0; 8];
    BigEndian::write_u64(&mut bytes, number);
    bytes
}

// The version, a kind and fields, with their number in front.
pub(crate) fn write_framed(
    alloc: Global,
    kind: u8,
    front: &[u8],
    back: &[u8],
) -> Result<Bytes, WireFault>
    ensures { Gives WireFault.NoMemory result (framed_by (kind ∷ (front.now ++ back.now))) }
{
    let count = front.len().saturating_add(back.len()).saturating_add(2);
    if count >= LENGTH_END {
        return Err(WireFault::TooLong);
    }
    let mut out = Vec::with_capacity(alloc, count + 4)?;
    let mut head = [0; 4];
    BigEndian::write_u32(&mut head, count as u32);
    out.extend_from_slice(&head)?;
    out.extend_from_slice(&[VERSION, kind])?;
    out.extend_from_slice(front)?;
    out.extend_from_slice(back)?;
    Ok(Bytes::from_vec(out)?)
}
