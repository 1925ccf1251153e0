//! What a sweep prints and sends.
ghost use Rattle.std.specs.Prelude.{◌≡◌};

use collections::Items;
use master_parts::Taken;
use node_core::Line;
use tags_cell::Out;

/// What a sweep prints and sends, and whether it found nothing to do.
#[derive(Drop)]
pub struct Swept {
    pub lines: Items<Line>,
    pub outs: Items<Out>,
    pub quiet: bool,
}

impl Swept {
    /// Of what was taken, its lines and what is sent.
    pub fn of(taken: Taken, quiet: bool) -> Swept
        ensures { result ≡ record { lines = taken.lines; outs = taken.outs; quiet = quiet } }
    {
        let Taken { lines, outs } = taken;
        Swept { lines, outs, quiet }
    }
}
