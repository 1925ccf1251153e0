//! Rows that are told.
ghost use Rattle.std.specs.Prelude.{◌≡◌, OnOk, IfOk};
ghost use Rattle.codec.specs.Forms.{Reads, Form, read_all};
ghost use Rattle.rows_remote.specs.Forms.{stored, secret, row, row_behind, all_of_rows, whole};
ghost use Rattle.rows_remote.specs.Keeping.{with_row, with_rows, told_rows};

use crate::frames::{Row, Whole};
use crate::holders::{read_lock_key, read_lock_row, read_session};
use crate::inputs::AnswerInput;
use crate::kinds::{ROW_KINDS, RowKind};
use crate::nodes::read_node;
use crate::texts::{read_component, read_name};
use codec::WireFault;
use collections::{Items, Secret, Table};
use rows_cell::{Rows, StoredNode};
use std::alloc::{AllocError, Global};

#[tactic(auto, unfolding(crate::specs::Forms::stored))]
fn read_stored(alloc: Global, input: &mut AnswerInput) -> Result<StoredNode, WireFault>
    ensures { Reads (λ x. x) result input.new (stored.read input.old) }
{
    Ok(StoredNode {
        node: read_node(alloc, input)?,
        lock_generation: input.word()?,
    })
}

// 32 bytes.
#[tactic(auto, unfolding(crate::specs::Forms::secret))]
fn read_secret(input: &mut AnswerInput) -> Result<Secret, WireFault>
    ensures { Reads (λ x. x) result input.new (secret.read input.old) }
{
    let bytes = input.block()?;
    if bytes.len() != 32 {
        return Err(WireFault::BadNumber);
    }
    let mut own = [0; 32];
    own.copy_from_slice(bytes);
    Ok(Secret::new(own))
}

#[tactic(auto, unfolding(crate::specs::Forms::row))]
fn read_row(alloc: Global, input: &mut AnswerInput) -> Result<Row, WireFault>
    ensures { Reads (λ x. x) result input.new (row.read input.old) }
{
    let kind = input.choice(&ROW_KINDS)?;
    read_row_of(alloc, input, kind)
}

#[tactic(auto, unfolding(crate::specs::Forms::named, crate::specs::Forms::numbered, crate::specs::Forms::keyed))]
fn read_row_of(alloc: Global, input: &mut AnswerInput, kind: RowKind) -> Result<Row, WireFault>
    ensures { Reads (λ x. x) result input.new (row_behind kind input.old) }
{
    Ok(match kind {
        RowKind::Node => Row::Node(read_name(alloc, input)?, read_stored(alloc, input)?),
        RowKind::Session => Row::Session(input.word()?, read_session(alloc, input)?),
        RowKind::Lock => Row::Lock(read_lock_key(input)?, read_lock_row(input)?),
    })
}

#[tactic(auto, unfolding(crate::specs::Forms::all_of_rows))]
fn read_rows(alloc: Global, input: &mut AnswerInput) -> Result<Items<Row>, WireFault>
    ensures { Reads (λ x. x) result input.new (all_of_rows.read input.old) }
{
    let count = input.count()?;
    rows_in(alloc, input, count)
}

// So many of them. It takes memory for those that stand there, and none for a count that is too high.
fn rows_in(alloc: Global, input: &mut AnswerInput, count: u32) -> Result<Items<Row>, WireFault>
    ensures { Reads (λ x. x) result input.new (read_all row.read count input.old) }
{
    let mut items = Vec::new(alloc);
    for _ in 0..count {
        let item = read_row(alloc, input)?;
        items.push(item)?;
    }
    Ok(Items::from_vec(items))
}

#[tactic(auto, unfolding(crate::specs::Forms::whole))]
pub(crate) fn read_all_rows(alloc: Global, input: &mut AnswerInput) -> Result<Whole, WireFault>
    ensures { Reads (λ x. x) result input.new (whole.read input.old) }
{
    Ok(Whole {
        number: input.word()?,
        cell: read_component(alloc, input)?,
        secret: read_secret(input)?,
        epoch: input.word()?,
        next_instance: input.word()?,
        ended_below: input.word()?,
        rows: read_rows(alloc, input)?,
    })
}

// The number of the last commit, and the rows that are told.
pub(crate) fn rows_of(alloc: Global, whole: Whole) -> Result<(u64, Rows), AllocError>
    ensures { IfOk result (λ told. told ≡ (whole.number, told_rows whole)) }
{
    let Whole {
        number,
        cell,
        secret,
        epoch,
        next_instance,
        ended_below,
        rows: others,
    } = whole;
    let mut rows = Rows {
        cell,
        secret,
        epoch,
        next_instance,
        nodes: Table::new(alloc),
        sessions: Table::new(alloc),
        ended_below,
        locks: Table::new(alloc),
    };
    put_all(&mut rows, others)?;
    Ok((number, rows))
}

fn put_all(rows: &mut Rows, others: Items<Row>) -> Result<(), AllocError>
    ensures { OnOk result (rows.new ≡ with_rows rows.old others) }
{
    for row in others.into_vec() {
        put_row(rows, row)?;
    }
    Ok(())
}

fn put_row(rows: &mut Rows, row: Row) -> Result<(), AllocError>
    ensures { OnOk result (rows.new ≡ with_row rows.old row) }
{
    match row {
        Row::Node(name, stands) => {
            rows.nodes.put(name, stands)?;
        }
        Row::Session(client, stands) => {
            rows.sessions.put(client, stands)?;
        }
        Row::Lock(key, stands) => {
            rows.locks.put(key, stands)?;
        }
    }
    Ok(())
}
