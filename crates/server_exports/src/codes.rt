//! The numbers by which a program in another language is told what is wrong.
ghost use Rattle.std.specs.Prelude.{◌≡◌};
ghost use Rattle.server_exports.specs.Codes.{fault_code};

use codec::WireFault;

// One above the byte by which a master tells it.
pub(crate) fn fault_code(fault: WireFault) -> u32
    ensures { result ≡ fault_code fault }
{
    match fault {
        WireFault::NoMemory => 1,
        WireFault::TooLong => 2,
        WireFault::Cut => 3,
        WireFault::Extra => 4,
        WireFault::BadVersion => 5,
        WireFault::BadKind => 6,
        WireFault::BadNumber => 7,
        WireFault::BadText => 8,
    }
}
