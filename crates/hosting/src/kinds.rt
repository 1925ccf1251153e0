//! Of which kind a frame is: the byte after its version.
ghost use Rattle.std.specs.Prelude.{◌≡◌};
ghost use Rattle.hosting.specs.Told.{fault_place};

use codec::WireFault;

/// Of which kind a frame is that a master is sent.
#[derive(Clone, Copy)]
pub enum FrameKind {
    Up,
    Message,
    Tick,
    Down,
    State,
}

pub(crate) const FRAME_KINDS: [FrameKind; 5] = [
    FrameKind::Up,
    FrameKind::Message,
    FrameKind::Tick,
    FrameKind::Down,
    FrameKind::State,
];

/// Of which kind a frame is that a master sends.
#[derive(Clone, Copy)]
pub enum ToldKind {
    Line,
    Message,
    Bad,
    End,
    Counts,
    Recovers,
    Waits,
    Touches,
    Awaited,
}

pub(crate) const TOLD_KINDS: [ToldKind; 9] = [
    ToldKind::Line,
    ToldKind::Message,
    ToldKind::Bad,
    ToldKind::End,
    ToldKind::Counts,
    ToldKind::Recovers,
    ToldKind::Waits,
    ToldKind::Touches,
    ToldKind::Awaited,
];

// What may be wrong with a frame, each at its place.
pub(crate) const WIRE_FAULTS: [WireFault; 8] = [
    WireFault::NoMemory,
    WireFault::TooLong,
    WireFault::Cut,
    WireFault::Extra,
    WireFault::BadVersion,
    WireFault::BadKind,
    WireFault::BadNumber,
    WireFault::BadText,
];

// Whether something that may be missing is there.
pub(crate) const FLAGS: [bool; 2] = [false, true];

// The place of a fault among all of them.
pub(crate) fn place_of(fault: WireFault) -> u8
    ensures { result ≡ fault_place fault }
{
    match fault {
        WireFault::NoMemory => 0,
        WireFault::TooLong => 1,
        WireFault::Cut => 2,
        WireFault::Extra => 3,
        WireFault::BadVersion => 4,
        WireFault::BadKind => 5,
        WireFault::BadNumber => 6,
        WireFault::BadText => 7,
    }
}
