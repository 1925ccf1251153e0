//! Refusals, as they are printed.
ghost use Rattle.std.specs.Prelude.{◌≡◌, Some};
ghost use Rattle.std.specs.Fmt.{DisplaysOnOk};
ghost use Rattle.node_core.specs.Refusals.{fault_number, fault_name, fault_text, argument_text, node_fault, name_fault};

use crate::faults::NodeFault;
use crate::kinds::{Kind, LockMode, Right};
use crate::texts::write_number;
use collections::Same;
use names_cell::NameFault;
use std::alloc::{AllocError, AllocFailed};
use std::error::Error;
use std::fmt;

/// A refusal: it is printed by its number and its name, and where it has an argument, by this.
#[derive(Clone, Copy, PartialEq, Eq)]
pub enum Fault {
    /// A growth was refused.
    NoMemory,
    /// Not a name.
    BadName,
    /// A name of another cell.
    OtherCell,
    /// Not a principal.
    BadPrincipal,
    /// Not an ACL file's content.
    BadAcl,
    /// No such node, or no such parent at a create.
    NotFound,
    /// The node was to be made anew, and is there already.
    Exists,
    /// The other kind is needed; this one is present.
    WrongKind(Kind),
    /// A directory with children, or the root, is not deleted.
    NotEmpty,
    /// The first missing right; at a create that to write the parent comes first.
    Denied(Right),
    /// The named generation is not the present one, which this is.
    WrongGeneration(u64),
    /// A content above 262,144 bytes.
    TooLarge,
    /// A number or a moment at its end.
    Exhausted,
    /// The instance was deleted.
    StaleInstance,
    /// The store refused.
    StoreRefused,
    /// The store's rows break its rules.
    StoreDamaged,
    /// Not a handle's bytes, another client's handle, or a closed one; at the client, no open handle of that number.
    BadHandle,
    /// Not a sequencer's bytes.
    BadSequencer,
    /// No live session; in a script also a client that has not joined.
    NoSession,
    /// More was acknowledged than was issued, which is this count.
    BadAck(u64),
    /// An older or a repeated number.
    Repeat,
    /// 4,096 changes are pending.
    Busy,
    /// The lock is held in this mode; where nobody holds it and others wait, the mode of the first who waits.
    Held(LockMode),
    /// The lock-delay runs for this many milliseconds more.
    Delayed(u64),
    /// The handle holds no lock.
    NotHolder,
    /// The sequencer is not valid.
    SequencerStale,
    /// A lock-delay above 60,000 milliseconds.
    DelayTooLong,
    /// Of another epoch than the present one, which this is.
    OldEpoch(u64),
    /// The new master is still in recovery.
    Recovering,
    /// The client's lease has ended.
    InJeopardy,
    /// The client's session is lost.
    SessionExpired,
    /// The handle is poisoned.
    Poisoned,
    /// The client has a call outstanding.
    CallOutstanding,
    /// A fail-over lost the outcome.
    Unknown,
    /// A message that no master sends.
    ProtocolFault,
    /// A clock step beyond what fair clocks do.
    UnfairClock,
    /// No message of that number, or one of the other direction.
    NoSuchMessage,
    /// No master is up.
    MasterDown,
    /// A master is up.
    MasterUp,
    /// The trail has 1,000,000 events.
    WatchFull,
    /// The pass of this number is missing.
    PassMissing(u64),
    /// The receipt of this place, counted from 1, isn't the trail's.
    ReceiptApart(u64),
    /// A limit of the cell, which this is, leaves no room.
    NoRoom(u64),
}

impl Same for Fault {
    ghost exact = { λ x y h. h };
}

impl Error for Fault {}

impl Fault {
    /// The number, from 1 to 43.
    pub fn number(&self) -> u64
        ensures { result ≡ fault_number self.now }
    {
        match self {
            Fault::NoMemory => 1,
            Fault::BadName => 2,
            Fault::OtherCell => 3,
            Fault::BadPrincipal => 4,
            Fault::BadAcl => 5,
            Fault::NotFound => 6,
            Fault::Exists => 7,
            Fault::WrongKind(_) => 8,
            Fault::NotEmpty => 9,
            Fault::Denied(_) => 10,
            Fault::WrongGeneration(_) => 11,
            Fault::TooLarge => 12,
            Fault::Exhausted => 13,
            Fault::StaleInstance => 14,
            Fault::StoreRefused => 15,
            Fault::StoreDamaged => 16,
            Fault::BadHandle => 17,
            Fault::BadSequencer => 18,
            Fault::NoSession => 19,
            Fault::BadAck(_) => 20,
            Fault::Repeat => 21,
            Fault::Busy => 22,
            Fault::Held(_) => 23,
            Fault::Delayed(_) => 24,
            Fault::NotHolder => 25,
            Fault::SequencerStale => 26,
            Fault::DelayTooLong => 27,
            Fault::OldEpoch(_) => 28,
            Fault::Recovering => 29,
            Fault::InJeopardy => 30,
            Fault::SessionExpired => 31,
            Fault::Poisoned => 32,
            Fault::CallOutstanding => 33,
            Fault::Unknown => 34,
            Fault::ProtocolFault => 35,
            Fault::UnfairClock => 36,
            Fault::NoSuchMessage => 37,
            Fault::MasterDown => 38,
            Fault::MasterUp => 39,
            Fault::WatchFull => 40,
            Fault::PassMissing(_) => 41,
            Fault::ReceiptApart(_) => 42,
            Fault::NoRoom(_) => 43,
        }
    }

    /// The name, as it is printed.
    pub fn name(&self) -> &'static str
        ensures { result.now ≡ fault_name self.now }
    {
        match self {
            Fault::NoMemory => "NoMemory",
            Fault::BadName => "BadName",
            Fault::OtherCell => "OtherCell",
            Fault::BadPrincipal => "BadPrincipal",
            Fault::BadAcl => "BadAcl",
            Fault::NotFound => "NotFound",
            Fault::Exists => "Exists",
            Fault::WrongKind(_) => "WrongKind",
            Fault::NotEmpty => "NotEmpty",
            Fault::Denied(_) => "Denied",
            Fault::WrongGeneration(_) => "WrongGeneration",
            Fault::TooLarge => "TooLarge",
            Fault::Exhausted => "Exhausted",
            Fault::StaleInstance => "StaleInstance",
            Fault::StoreRefused => "StoreRefused",
            Fault::StoreDamaged => "StoreDamaged",
            Fault::BadHandle => "BadHandle",
            Fault::BadSequencer => "BadSequencer",
            Fault::NoSession => "NoSession",
            Fault::BadAck(_) => "BadAck",
            Fault::Repeat => "Repeat",
            Fault::Busy => "Busy",
            Fault::Held(_) => "Held",
            Fault::Delayed(_) => "Delayed",
            Fault::NotHolder => "NotHolder",
            Fault::SequencerStale => "SequencerStale",
            Fault::DelayTooLong => "DelayTooLong",
            Fault::OldEpoch(_) => "OldEpoch",
            Fault::Recovering => "Recovering",
            Fault::InJeopardy => "InJeopardy",
            Fault::SessionExpired => "SessionExpired",
            Fault::Poisoned => "Poisoned",
            Fault::CallOutstanding => "CallOutstanding",
            Fault::Unknown => "Unknown",
            Fault::ProtocolFault => "ProtocolFault",
            Fault::UnfairClock => "UnfairClock",
            Fault::NoSuchMessage => "NoSuchMessage",
            Fault::MasterDown => "MasterDown",
            Fault::MasterUp => "MasterUp",
            Fault::WatchFull => "WatchFull",
            Fault::PassMissing(_) => "PassMissing",
            Fault::ReceiptApart(_) => "ReceiptApart",
            Fault::NoRoom(_) => "NoRoom",
        }
    }

    // The argument behind a space, where there is one.
    fn write_argument<W: fmt::Write>(&self, f: &mut fmt::Formatter<W>) -> fmt::Result
        ensures { DisplaysOnOk W.write_str_gives f.old result (Some (argument_text self.now)) f.new }
    {
        match self {
            Fault::WrongKind(present) => write!(f, " {present}"),
            Fault::Denied(missing) => write!(f, " {missing}"),
            Fault::WrongGeneration(present) => write_number(f, " ", *present),
            Fault::BadAck(issued) => write_number(f, " ", *issued),
            Fault::Held(mode) => write!(f, " {mode}"),
            Fault::Delayed(left) => write_number(f, " ", *left),
            Fault::OldEpoch(present) => write_number(f, " ", *present),
            Fault::PassMissing(pass) => write_number(f, " ", *pass),
            Fault::ReceiptApart(place) => write_number(f, " ", *place),
            Fault::NoRoom(limit) => write_number(f, " ", *limit),
            _ => Ok(()),
        }
    }
}

impl fmt::Display for Fault {
    ghost output = { λ x. Some (fault_text x) };

    fn fmt<W: fmt::Write>(&self, f: &mut fmt::Formatter<W>) -> fmt::Result {
        let number = self.number();
        let name = self.name();
        write!(f, "{number} {name}")?;
        self.write_argument(f)
    }
}

// As it is printed.
impl fmt::Debug for Fault {
    fn fmt<W: fmt::Write>(&self, f: &mut fmt::Formatter<W>) -> fmt::Result {
        write!(f, "{self}")
    }
}

impl From<AllocError> for Fault {
    ghost use Rattle.std.specs.Prelude.{◌≡◌};
    ghost use Rattle.node_core.specs.declared.refusals.Fault.TheVariants.{NoMemory};

    ghost from_gives = { λ _ e. e ≡ NoMemory };

    fn from(_e: AllocError) -> Fault {
        Fault::NoMemory
    }
}

impl<T: Drop> From<AllocFailed<T>> for Fault {
    ghost use Rattle.std.specs.Prelude.{◌≡◌};
    ghost use Rattle.node_core.specs.declared.refusals.Fault.TheVariants.{NoMemory};

    ghost from_gives = { λ _ e. e ≡ NoMemory };

    fn from(_e: AllocFailed<T>) -> Fault {
        Fault::NoMemory
    }
}

impl From<NodeFault> for Fault {
    ghost from_gives = { λ x e. e ≡ node_fault x };

    fn from(fault: NodeFault) -> Fault {
        match fault {
            NodeFault::NoMemory => Fault::NoMemory,
            NodeFault::NotFound => Fault::NotFound,
            NodeFault::WrongKind(present) => Fault::WrongKind(present),
            NodeFault::NotEmpty => Fault::NotEmpty,
            NodeFault::TooLarge => Fault::TooLarge,
            NodeFault::Exhausted => Fault::Exhausted,
            NodeFault::StaleInstance => Fault::StaleInstance,
        }
    }
}

impl From<NameFault> for Fault {
    ghost from_gives = { λ x e. e ≡ name_fault x };

    fn from(fault: NameFault) -> Fault {
        match fault {
            NameFault::NoMemory => Fault::NoMemory,
            NameFault::BadName => Fault::BadName,
            NameFault::BadPrincipal => Fault::BadPrincipal,
            NameFault::BadAcl => Fault::BadAcl,
        }
    }
}
