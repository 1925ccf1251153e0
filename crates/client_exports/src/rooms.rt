//! Rooms that a program gives for bytes.
ghost use Rattle.std.specs.Prelude.{◌≡◌};
ghost use Rattle.std.specs.Option.{option_copied};
ghost use Rattle.client_exports.specs.Answers.{Fills, Writes};
ghost use Rattle.client_exports.specs.Hits.{Hits};

use crate::statuses::Status;
use codec::WireFault;
use collections::Bytes;

// Copies the bytes to the front of the room, where they fit, and tells how many they are.
pub(crate) fn fill(bytes: &[u8], room: &mut [u8]) -> usize
    ensures { Fills bytes.now room.old room.new result }
{
    let length = bytes.len();
    if length <= room.len() {
        room[..length].copy_from_slice(bytes);
    }
    length
}

// The same, and tells in `length` how many they are; or why there are none, and then both are as they were.
pub(crate) fn put(bytes: Result<Bytes, WireFault>, room: &mut [u8], length: &mut usize) -> u32
    ensures { Writes bytes room.old room.new length.old length.new result }
{
    match bytes {
        Ok(bytes) => {
            *length = fill(bytes.as_slice(), room);
            drop(bytes);
            Status::Done.code()
        }
        Err(fault) => Status::Bad(fault).code(),
    }
}

// The same of a content that there may be; where there is none, both are as they were.
pub(crate) fn put_hit(content: Option<&[u8]>, room: &mut [u8], length: &mut usize) -> u32
    ensures { Hits (option_copied content.entry) room.old room.new length.old length.new result }
{
    match content {
        Some(content) => {
            *length = fill(content, room);
            Status::Served.code()
        }
        None => Status::Done.code(),
    }
}
