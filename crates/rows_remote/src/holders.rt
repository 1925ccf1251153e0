//! Sessions and locks as bytes.
ghost use Rattle.std.specs.Prelude.{OnOk};
ghost use Rattle.codec.specs.Forms.{Appends, Form, Reads};
ghost use Rattle.rows_remote.specs.Forms.{session, lock_key, lock_state, lock_row, numbered, keyed};

use crate::inputs::{AnswerInput, FLAGS};
use crate::kinds::LOCK_STATES;
use crate::outputs::{put_byte, put_word};
use crate::texts::{put_principal, read_principal};
use codec::WireFault;
use rows_cell::{LockKey, LockRow, LockState, SessionRow};
use std::alloc::{AllocError, Global};

#[tactic(auto, unfolding(crate::specs::Forms::session))]
pub(crate) fn read_session(alloc: Global, input: &mut AnswerInput) -> Result<SessionRow, WireFault>
    ensures { Reads (λ x. x) result input.new (session.read input.old) }
{
    Ok(SessionRow {
        principal: read_principal(alloc, input)?,
        live: input.choice(&FLAGS)?,
    })
}

#[tactic(auto, unfolding(crate::specs::Forms::session))]
fn put_session(out: &mut Vec<u8>, stands: &SessionRow) -> Result<(), AllocError>
    ensures { OnOk result (Appends session stands.now out.old.items out.new.items) }
{
    put_principal(out, &stands.principal)?;
    if stands.live {
        put_byte(out, 1)
    } else {
        put_byte(out, 0)
    }
}

#[tactic(auto, unfolding(crate::specs::Forms::numbered))]
pub(crate) fn put_numbered(
    out: &mut Vec<u8>,
    client: u64,
    stands: &SessionRow,
) -> Result<(), AllocError>
    ensures { OnOk result (Appends numbered (client, stands.now) out.old.items out.new.items) }
{
    put_word(out, client)?;
    put_session(out, stands)
}

#[tactic(auto, unfolding(crate::specs::Forms::lock_key))]
pub(crate) fn read_lock_key(input: &mut AnswerInput) -> Result<LockKey, WireFault>
    ensures { Reads (λ x. x) result input.new (lock_key.read input.old) }
{
    Ok(LockKey {
        instance: input.word()?,
        client: input.word()?,
        handle: input.word()?,
    })
}

#[tactic(auto, unfolding(crate::specs::Forms::lock_key))]
pub(crate) fn put_lock_key(out: &mut Vec<u8>, key: LockKey) -> Result<(), AllocError>
    ensures { OnOk result (Appends lock_key key out.old.items out.new.items) }
{
    put_word(out, key.instance)?;
    put_word(out, key.client)?;
    put_word(out, key.handle)
}

#[tactic(auto, unfolding(crate::specs::Forms::lock_state))]
fn read_lock_state(input: &mut AnswerInput) -> Result<LockState, WireFault>
    ensures { Reads (λ x. x) result input.new (lock_state.read input.old) }
{
    input.choice(&LOCK_STATES)
}

#[tactic(auto, unfolding(crate::specs::Forms::lock_state))]
fn put_lock_state(out: &mut Vec<u8>, state: LockState) -> Result<(), AllocError>
    ensures { OnOk result (Appends lock_state state out.old.items out.new.items) }
{
    match state {
        LockState::Lapsed => put_byte(out, 0),
        LockState::Exclusive => put_byte(out, 1),
        LockState::Shared => put_byte(out, 2),
    }
}

#[tactic(auto, unfolding(crate::specs::Forms::lock_row))]
pub(crate) fn read_lock_row(input: &mut AnswerInput) -> Result<LockRow, WireFault>
    ensures { Reads (λ x. x) result input.new (lock_row.read input.old) }
{
    Ok(LockRow {
        state: read_lock_state(input)?,
        delay: input.word()?,
    })
}

#[tactic(auto, unfolding(crate::specs::Forms::lock_row))]
fn put_lock_row(out: &mut Vec<u8>, row: LockRow) -> Result<(), AllocError>
    ensures { OnOk result (Appends lock_row row out.old.items out.new.items) }
{
    put_lock_state(out, row.state)?;
    put_word(out, row.delay)
}

#[tactic(auto, unfolding(crate::specs::Forms::keyed))]
pub(crate) fn put_keyed(out: &mut Vec<u8>, key: LockKey, row: LockRow) -> Result<(), AllocError>
    ensures { OnOk result (Appends keyed (key, row) out.old.items out.new.items) }
{
    put_lock_key(out, key)?;
    put_lock_row(out, row)
}
