//! Small choices, each as a byte.
ghost use Rattle.std.specs.Prelude.{OnOk};
ghost use Rattle.codec.specs.Forms.{Reads, Appends, Form};
ghost use Rattle.codec.specs.Fields.{kind, life, right, lock_mode, disposition, mode, events};

use crate::faults::WireFault;
use crate::inputs::Input;
use crate::outputs::put_byte;
use node_core::{Kind, Life, LockMode, Right};
use std::alloc::AllocError;
use tags_cell::{Disposition, Events, Mode};

const KINDS: [Kind; 2] = [Kind::File, Kind::Directory];

#[tactic(auto, unfolding(crate::specs::Fields::kind))]
pub(crate) fn read_kind(input: &mut Input) -> Result<Kind, WireFault>
    ensures { Reads (λ x. x) result input.new (kind.read input.old) }
{
    input.choice(&KINDS)
}

#[tactic(auto, unfolding(crate::specs::Fields::kind))]
pub(crate) fn put_kind(out: &mut Vec<u8>, chosen: Kind) -> Result<(), AllocError>
    ensures { OnOk result (Appends kind chosen out.old.items out.new.items) }
{
    match chosen {
        Kind::File => put_byte(out, 0),
        Kind::Directory => put_byte(out, 1),
    }
}

const LIVES: [Life; 2] = [Life::Permanent, Life::Ephemeral];

#[tactic(auto, unfolding(crate::specs::Fields::life))]
pub(crate) fn read_life(input: &mut Input) -> Result<Life, WireFault>
    ensures { Reads (λ x. x) result input.new (life.read input.old) }
{
    input.choice(&LIVES)
}

#[tactic(auto, unfolding(crate::specs::Fields::life))]
pub(crate) fn put_life(out: &mut Vec<u8>, chosen: Life) -> Result<(), AllocError>
    ensures { OnOk result (Appends life chosen out.old.items out.new.items) }
{
    match chosen {
        Life::Permanent => put_byte(out, 0),
        Life::Ephemeral => put_byte(out, 1),
    }
}

const RIGHTS: [Right; 3] = [Right::Read, Right::Write, Right::Change];

#[tactic(auto, unfolding(crate::specs::Fields::right))]
pub(crate) fn read_right(input: &mut Input) -> Result<Right, WireFault>
    ensures { Reads (λ x. x) result input.new (right.read input.old) }
{
    input.choice(&RIGHTS)
}

#[tactic(auto, unfolding(crate::specs::Fields::right))]
pub(crate) fn put_right(out: &mut Vec<u8>, chosen: Right) -> Result<(), AllocError>
    ensures { OnOk result (Appends right chosen out.old.items out.new.items) }
{
    match chosen {
        Right::Read => put_byte(out, 0),
        Right::Write => put_byte(out, 1),
        Right::Change => put_byte(out, 2),
    }
}

const LOCK_MODES: [LockMode; 2] = [LockMode::Exclusive, LockMode::Shared];

#[tactic(auto, unfolding(crate::specs::Fields::lock_mode))]
pub(crate) fn read_lock_mode(input: &mut Input) -> Result<LockMode, WireFault>
    ensures { Reads (λ x. x) result input.new (lock_mode.read input.old) }
{
    input.choice(&LOCK_MODES)
}

#[tactic(auto, unfolding(crate::specs::Fields::lock_mode))]
pub(crate) fn put_lock_mode(out: &mut Vec<u8>, chosen: LockMode) -> Result<(), AllocError>
    ensures { OnOk result (Appends lock_mode chosen out.old.items out.new.items) }
{
    match chosen {
        LockMode::Exclusive => put_byte(out, 0),
        LockMode::Shared => put_byte(out, 1),
    }
}

const DISPOSITIONS: [Disposition; 2] = [Disposition::May, Disposition::Must];

#[tactic(auto, unfolding(crate::specs::Fields::disposition))]
pub(crate) fn read_disposition(input: &mut Input) -> Result<Disposition, WireFault>
    ensures { Reads (λ x. x) result input.new (disposition.read input.old) }
{
    input.choice(&DISPOSITIONS)
}

#[tactic(auto, unfolding(crate::specs::Fields::disposition))]
pub(crate) fn put_disposition(out: &mut Vec<u8>, chosen: Disposition) -> Result<(), AllocError>
    ensures { OnOk result (Appends disposition chosen out.old.items out.new.items) }
{
    match chosen {
        Disposition::May => put_byte(out, 0),
        Disposition::Must => put_byte(out, 1),
    }
}

#[tactic(auto, unfolding(crate::specs::Fields::mode))]
pub(crate) fn read_mode(input: &mut Input) -> Result<Mode, WireFault>
    ensures { Reads (λ x. x) result input.new (mode.read input.old) }
{
    Mode::from_bits(input.byte()?).ok_or(WireFault::BadNumber)
}

#[tactic(auto, unfolding(crate::specs::Fields::mode))]
pub(crate) fn put_mode(out: &mut Vec<u8>, rights: Mode) -> Result<(), AllocError>
    ensures { OnOk result (Appends mode rights out.old.items out.new.items) }
{
    put_byte(out, rights.bits())
}

#[tactic(auto, unfolding(crate::specs::Fields::events))]
pub(crate) fn read_events(input: &mut Input) -> Result<Events, WireFault>
    ensures { Reads (λ x. x) result input.new (events.read input.old) }
{
    Events::from_bits(input.byte()?).ok_or(WireFault::BadNumber)
}

#[tactic(auto, unfolding(crate::specs::Fields::events))]
pub(crate) fn put_events(out: &mut Vec<u8>, wanted: Events) -> Result<(), AllocError>
    ensures { OnOk result (Appends events wanted out.old.items out.new.items) }
{
    put_byte(out, wanted.bits())
}
