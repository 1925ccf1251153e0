//! What a master tells the program that started it.
ghost use Rattle.std.specs.Prelude.{◌≡◌, ◌∷◌, ◌++◌, IfOk, Ok};
ghost use Rattle.collections.specs.Results.{Gives};
ghost use Rattle.tags_cell.specs.Messages.{out_client};
ghost use Rattle.codec.specs.Forms.{Form};
ghost use Rattle.hosting.specs.Blocks.{framed};
ghost use Rattle.hosting.specs.Told.{told, out_framed};

use crate::blocks::{bytes_of, write_framed};
use crate::frames::write_word;
use crate::kinds::place_of;
use crate::standing::MasterCounts;
use byteorder::{BigEndian, ByteOrder};
use codec::{WireFault, write_out};
use collections::Bytes;
use node_core::Line;
use std::alloc::Global;
use tags_cell::{ClientNumber, Out};

/// What a master tells the program that started it.
#[derive(Drop)]
pub enum MasterFrame {
    /// A line that is printed.
    Line(Line),
    /// A message, and the client that it goes to.
    Message(ClientNumber, Out),
    /// What was sent is no frame.
    Bad(WireFault),
    /// All of a frame is answered. With the earliest moment, in milliseconds, at which there is something to do; none where
    /// there isn't at any.
    End(Option<u64>),
    /// How much a master has that is asked how it stands.
    Counts(MasterCounts),
    /// It recovers; by this moment, in milliseconds, the last session that it waits for has ended, unless one is heard from
    /// meanwhile. After this stand the clients that it waits for.
    Recovers(u64),
    /// One of the changes that have waited longest, by its number. After this stand the names that it may change, and the
    /// clients that it waits for.
    Waits(u64),
    /// A name that the change before it may change.
    Touches(Bytes),
    /// The number of a client that the recovery or the change before it waits for.
    Awaited(u64),
}

/// The bytes of a line, with their number in front. Refused is a frame of 2^32 bytes or more.
pub fn write_line(alloc: Global, printed: &Line) -> Result<Bytes, WireFault>
    ensures { Gives WireFault.NoMemory result (framed told (MasterFrame.Line printed.now)) }
{
    match codec::write_line(alloc, printed) {
        Ok(bytes) => write_framed(alloc, 0, bytes.as_slice(), &[]),
        Err(fault) => Err(fault),
    }
}

/// The bytes of a name that a change may change, with their number in front. Refused is a frame of 2^32 bytes or more.
#[tactic(auto, unfolding(codec::specs::Fields::block, crate::specs::Told::told))]
pub fn write_touches(alloc: Global, name: &[u8]) -> Result<Bytes, WireFault>
    ensures { Gives WireFault.NoMemory result (framed told (MasterFrame.Touches name.now)) }
{
    let mut count = [0; 8];
    BigEndian::write_u64(&mut count, name.len() as u64);
    write_framed(alloc, 7, &count[4..], name)
}

/// The bytes of a message to its client, with their number in front. Refused are a view of a file with children, and a frame
/// of 2^32 bytes or more.
pub fn write_message(alloc: Global, message: &Out) -> Result<Bytes, WireFault>
    ensures bytes { Gives WireFault.NoMemory result (out_framed message.now) }
    ensures frame { IfOk result (λ bytes. framed told (MasterFrame.Message (out_client message.now) message.now) ≡ Ok bytes) }
{
    let client = bytes_of(message.client().get());
    match write_out(alloc, message) {
        Ok(bytes) => write_framed(alloc, 1, &client, bytes.as_slice()),
        Err(fault) => Err(fault),
    }
}

/// The bytes by which it is told that a frame is none, with their number in front.
#[tactic(auto, unfolding(crate::specs::Told::told))]
pub fn write_bad(alloc: Global, fault: WireFault) -> Result<Bytes, WireFault>
    ensures { Gives WireFault.NoMemory result (framed told (MasterFrame.Bad fault)) }
{
    write_framed(alloc, 2, &[place_of(fault)], &[])
}

/// The bytes of the mark after all that is told of a frame, with their number in front. It says the earliest moment, in
/// milliseconds, at which there is something to do, if there is one.
#[tactic(auto, unfolding(codec::specs::Fields::word, codec::specs::Fields::optional_word, crate::specs::Told::told))]
pub fn write_end(alloc: Global, deadline: Option<u64>) -> Result<Bytes, WireFault>
    ensures { Gives WireFault.NoMemory result (framed told (MasterFrame.End deadline)) }
{
    match deadline {
        Some(moment) => write_framed(alloc, 3, &[1], &bytes_of(moment)),
        None => write_framed(alloc, 3, &[0], &[]),
    }
}

/// The bytes of what a master has, with their number in front.
pub fn write_counts(alloc: Global, counts: MasterCounts) -> Result<Bytes, WireFault>
    ensures { Gives WireFault.NoMemory result (framed told (MasterFrame.Counts counts)) }
{
    let mut words = Vec::with_capacity(alloc, 40)?;
    words.extend_from_slice(&bytes_of(counts.epoch))?;
    words.extend_from_slice(&bytes_of(counts.sessions))?;
    words.extend_from_slice(&bytes_of(counts.nodes))?;
    words.extend_from_slice(&bytes_of(counts.rights))?;
    words.extend_from_slice(&bytes_of(counts.changes))?;
    write_framed(alloc, 4, words.as_slice(), &[])
}

/// The bytes by which it is told that a master recovers, and until when at the latest.
#[tactic(auto, unfolding(crate::specs::Told::told))]
pub fn write_recovers(alloc: Global, until: u64) -> Result<Bytes, WireFault>
    ensures { Gives WireFault.NoMemory result (framed told (MasterFrame.Recovers until)) }
{
    write_word(alloc, 5, until)
}

/// The bytes by which it is told that the change of a number waits.
#[tactic(auto, unfolding(crate::specs::Told::told))]
pub fn write_waits(alloc: Global, number: u64) -> Result<Bytes, WireFault>
    ensures { Gives WireFault.NoMemory result (framed told (MasterFrame.Waits number)) }
{
    write_word(alloc, 6, number)
}

/// The bytes by which it is told that a client is waited for.
#[tactic(auto, unfolding(crate::specs::Told::told))]
pub fn write_awaited(alloc: Global, client: u64) -> Result<Bytes, WireFault>
    ensures { Gives WireFault.NoMemory result (framed told (MasterFrame.Awaited client)) }
{
    write_word(alloc, 8, client)
}
