//! A master's refusals: a byte that is one below the number, and the argument.
ghost use Rattle.std.specs.Prelude.{◌≡◌, ◌++◌, OnOk};
ghost use Rattle.codec.specs.Forms.{Reads, Appends, Form};
ghost use Rattle.codec.specs.Faults.{fault, fault_behind, fault_place, argument_bytes, has_argument};

use crate::choices::{put_kind, put_lock_mode, put_right, read_kind, read_lock_mode, read_right};
use crate::faults::WireFault;
use crate::inputs::Input;
use crate::outputs::{put_byte, put_word};
use node_core::{Fault, Kind, LockMode, Right};
use std::alloc::AllocError;

// In the order of their numbers, with any argument.
const FAULTS: [Fault; 43] = [
    Fault::NoMemory,
    Fault::BadName,
    Fault::OtherCell,
    Fault::BadPrincipal,
    Fault::BadAcl,
    Fault::NotFound,
    Fault::Exists,
    Fault::WrongKind(Kind::File),
    Fault::NotEmpty,
    Fault::Denied(Right::Read),
    Fault::WrongGeneration(0),
    Fault::TooLarge,
    Fault::Exhausted,
    Fault::StaleInstance,
    Fault::StoreRefused,
    Fault::StoreDamaged,
    Fault::BadHandle,
    Fault::BadSequencer,
    Fault::NoSession,
    Fault::BadAck(0),
    Fault::Repeat,
    Fault::Busy,
    Fault::Held(LockMode::Exclusive),
    Fault::Delayed(0),
    Fault::NotHolder,
    Fault::SequencerStale,
    Fault::DelayTooLong,
    Fault::OldEpoch(0),
    Fault::Recovering,
    Fault::InJeopardy,
    Fault::SessionExpired,
    Fault::Poisoned,
    Fault::CallOutstanding,
    Fault::Unknown,
    Fault::ProtocolFault,
    Fault::UnfairClock,
    Fault::NoSuchMessage,
    Fault::MasterDown,
    Fault::MasterUp,
    Fault::WatchFull,
    Fault::PassMissing(0),
    Fault::ReceiptApart(0),
    Fault::NoRoom(0),
];

#[tactic(auto, unfolding(crate::specs::Faults::fault))]
pub(crate) fn read_fault(input: &mut Input) -> Result<Fault, WireFault>
    ensures { Reads (λ x. x) result input.new (fault.read input.old) }
{
    let kind = input.choice(&FAULTS)?;
    read_argument(input, kind)
}

// The refusal of this kind, with the argument that stands there.
fn read_argument(input: &mut Input, kind: Fault) -> Result<Fault, WireFault>
    ensures { Reads (λ x. x) result input.new (fault_behind kind input.old) }
{
    Ok(match kind {
        Fault::WrongKind(_) => Fault::WrongKind(read_kind(input)?),
        Fault::Denied(_) => Fault::Denied(read_right(input)?),
        Fault::WrongGeneration(_) => Fault::WrongGeneration(input.word()?),
        Fault::BadAck(_) => Fault::BadAck(input.word()?),
        Fault::Held(_) => Fault::Held(read_lock_mode(input)?),
        Fault::Delayed(_) => Fault::Delayed(input.word()?),
        Fault::OldEpoch(_) => Fault::OldEpoch(input.word()?),
        Fault::PassMissing(_) => Fault::PassMissing(input.word()?),
        Fault::ReceiptApart(_) => Fault::ReceiptApart(input.word()?),
        Fault::NoRoom(_) => Fault::NoRoom(input.word()?),
        plain => plain,
    })
}

#[tactic(auto, unfolding(crate::specs::Faults::fault))]
pub(crate) fn put_fault(out: &mut Vec<u8>, refusal: &Fault) -> Result<(), AllocError>
    ensures { OnOk result (Appends fault refusal.now out.old.items out.new.items) }
{
    put_byte(out, place(refusal))?;
    put_argument(out, refusal)
}

// One below its number.
fn place(refusal: &Fault) -> u8
    ensures { result ≡ fault_place refusal.now }
{
    (refusal.number() - 1) as u8
}

fn put_argument(out: &mut Vec<u8>, refusal: &Fault) -> Result<(), AllocError>
    ensures { OnOk result (has_argument refusal.now × (out.new.items ≡ out.old.items ++ argument_bytes refusal.now)) }
{
    match refusal {
        Fault::WrongKind(x) => put_kind(out, *x),
        Fault::Denied(x) => put_right(out, *x),
        Fault::WrongGeneration(x) => put_word(out, *x),
        Fault::BadAck(x) => put_word(out, *x),
        Fault::Held(x) => put_lock_mode(out, *x),
        Fault::Delayed(x) => put_word(out, *x),
        Fault::OldEpoch(x) => put_word(out, *x),
        Fault::PassMissing(x) => put_word(out, *x),
        Fault::ReceiptApart(x) => put_word(out, *x),
        Fault::NoRoom(x) => put_word(out, *x),
        _ => Ok(()),
    }
}
