//! Whether a commit stands whose answer got lost.
ghost use Rattle.mastership.specs.Keepers.{Settles};

/// The commit stands.
pub const STANDS: u32 = 1;
/// It doesn't, and never will.
pub const IS_OFF: u32 = 2;
/// It doesn't, and still may.
pub const IS_OPEN: u32 = 3;
/// Another keeper has written.
pub const IS_OVER: u32 = 4;

pub(crate) fn settled(
    keeper: u64,
    turn: u64,
    over: u64,
    read_keeper: u64,
    read_turn: u64,
    read_revision: u64,
) -> u32
    ensures { Settles keeper turn over read_keeper read_turn read_revision result }
{
    if read_keeper == keeper && read_turn == turn {
        STANDS
    } else if read_keeper == keeper && read_turn > turn && read_turn - turn == 1 {
        IS_OFF
    } else if read_revision == over {
        IS_OPEN
    } else {
        IS_OVER
    }
}
