//! Rooms that a program gives for bytes.
ghost use Rattle.server_exports.specs.Codes.{Fills, Puts};

use crate::codes::fault_code;
use codec::WireFault;
use collections::Bytes;

// Copies the bytes to the front of the room, where they fit.
pub(crate) fn fill(bytes: &[u8], room: &mut [u8])
    ensures { Fills bytes.now room.old room.new }
{
    let length = bytes.len();
    if length <= room.len() {
        room[..length].copy_from_slice(bytes);
    }
}

// The same, and tells in `length` how many they are; or why there are none, and then both are as they were.
pub(crate) fn put(bytes: Result<Bytes, WireFault>, room: &mut [u8], length: &mut usize) -> u32
    ensures { Puts bytes room.old room.new length.old length.new result }
{
    match bytes {
        Ok(bytes) => {
            fill(bytes.as_slice(), room);
            *length = bytes.len();
            drop(bytes);
            0
        }
        Err(fault) => fault_code(fault),
    }
}
