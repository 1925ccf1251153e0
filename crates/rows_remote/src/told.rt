//! The bytes of what is answered.
ghost use Rattle.std.specs.Prelude.{◌≡◌, ◌+◌, ◌++◌, nat_lt, OnOk};
ghost use Rattle.collections.specs.Results.{Gives};
ghost use Rattle.codec.specs.Forms.{Appends, Form, length_end};
ghost use Rattle.rows_remote.specs.Forms.{stored, named, own, row};
ghost use Rattle.rows_remote.specs.declared.frames.KeeperAnswer.TheVariants as answers;
ghost use Rattle.rows_remote.specs.Frames.{answer, framed, row_written, front_before, rows_front};

use crate::frames::{Own, Row};
use crate::holders::{put_keyed, put_numbered};
use crate::inputs::LENGTH_END;
use crate::nodes::put_node;
use crate::outputs::{in_front, put_block, put_byte, put_count, put_word, whole};
use crate::texts::{put_component, put_name};
use codec::{VERSION, WireFault};
use collections::Bytes;
use names_cell::Name;
use rows_cell::StoredNode;
use std::alloc::{AllocError, Global};

/// The bytes by which it is answered that the edits stand.
pub fn write_kept(alloc: Global) -> Result<Bytes, WireFault>
    ensures { Gives WireFault.NoMemory result (framed answer answers.Kept) }
{
    let mut out = Vec::new(alloc);
    put_byte(&mut out, VERSION)?;
    put_kept(&mut out)?;
    in_front(alloc, out)
}

#[tactic(auto, unfolding(crate::specs::Frames::answer))]
fn put_kept(out: &mut Vec<u8>) -> Result<(), AllocError>
    ensures { OnOk result (Appends answer answers.Kept out.old.items out.new.items) }
{
    put_byte(out, 1)
}

/// The bytes by which it is answered that they don't.
pub fn write_refused(alloc: Global) -> Result<Bytes, WireFault>
    ensures { Gives WireFault.NoMemory result (framed answer answers.Refused) }
{
    let mut out = Vec::new(alloc);
    put_byte(&mut out, VERSION)?;
    put_refused(&mut out)?;
    in_front(alloc, out)
}

#[tactic(auto, unfolding(crate::specs::Frames::answer))]
fn put_refused(out: &mut Vec<u8>) -> Result<(), AllocError>
    ensures { OnOk result (Appends answer answers.Refused out.old.items out.new.items) }
{
    put_byte(out, 2)
}

/// The bytes of a row, as it stands among those that are told. Refused are 2^32 bytes or more.
pub fn write_row(alloc: Global, told: &Row) -> Result<Bytes, WireFault>
    ensures { Gives WireFault.NoMemory result (row_written told.now) }
{
    let mut out = Vec::new(alloc);
    put_row(&mut out, told)?;
    whole(out)
}

#[tactic(auto, unfolding(crate::specs::Forms::row))]
fn put_row(out: &mut Vec<u8>, told: &Row) -> Result<(), AllocError>
    ensures { OnOk result (Appends row told.now out.old.items out.new.items) }
{
    match told {
        Row::Node(name, stands) => {
            put_byte(out, 0)?;
            put_named(out, name, stands)
        }
        Row::Session(client, stands) => {
            put_byte(out, 1)?;
            put_numbered(out, *client, stands)
        }
        Row::Lock(key, stands) => {
            put_byte(out, 2)?;
            put_keyed(out, *key, *stands)
        }
    }
}

#[tactic(auto, unfolding(crate::specs::Forms::named))]
fn put_named(out: &mut Vec<u8>, name: &Name, stands: &StoredNode) -> Result<(), AllocError>
    ensures { OnOk result (Appends named (name.now, stands.now) out.old.items out.new.items) }
{
    put_name(out, name)?;
    put_stored(out, stands)
}

#[tactic(auto, unfolding(crate::specs::Forms::stored))]
fn put_stored(out: &mut Vec<u8>, stands: &StoredNode) -> Result<(), AllocError>
    ensures { OnOk result (Appends stored stands.now out.old.items out.new.items) }
{
    put_node(out, &stands.node)?;
    put_word(out, stands.lock_generation)
}

/// What stands in front of rows that are told: so many rows, which have so many bytes together. Refused are answers of 2^32 bytes or
/// more.
pub fn write_front(alloc: Global, told: &Own, count: usize, size: usize) -> Result<Bytes, WireFault>
    ensures { Gives WireFault.NoMemory result (rows_front told.now count size) }
{
    let mut out = Vec::new(alloc);
    put_front(&mut out, told, count)?;
    if !is_short(out.len(), size) {
        return Err(WireFault::TooLong);
    }
    let mut all = Vec::new(alloc);
    put_count(&mut all, out.len() + size)?;
    all.extend_from_slice(out.as_slice())?;
    Ok(Bytes::from_vec(all)?)
}

// Whether bytes in front and so many after are few enough.
fn is_short(front: usize, size: usize) -> bool
    ensures { result ≡ nat_lt (front + size) length_end }
{
    size < LENGTH_END && front < LENGTH_END - size
}

fn put_front(out: &mut Vec<u8>, told: &Own, count: usize) -> Result<(), AllocError>
    ensures { OnOk result (out.new.items ≡ out.old.items ++ front_before told.now count) }
{
    put_byte(out, VERSION)?;
    put_byte(out, 0)?;
    put_own(out, told)?;
    put_count(out, count)
}

#[tactic(auto, unfolding(crate::specs::Forms::own, crate::specs::Forms::secret))]
fn put_own(out: &mut Vec<u8>, told: &Own) -> Result<(), AllocError>
    ensures { OnOk result (Appends own told.now out.old.items out.new.items) }
{
    put_word(out, told.number)?;
    put_component(out, &told.cell)?;
    put_block(out, told.secret.as_bytes())?;
    put_word(out, told.epoch)?;
    put_word(out, told.next_instance)?;
    put_word(out, told.ended_below)
}
