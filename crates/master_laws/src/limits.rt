//! What the limits of a cell leave of it.
ghost use Rattle.master_laws.specs.Limits.{CellsStayWithin};

/// Whatever steps a master made since it came up: of nodes, of bytes of contents, and of locks that a client holds or waits
/// for, there are no more than the limits of the cell allow, or no more than when it came up.
pub fn cells_stay_within()
    ensures { CellsStayWithin }
{}
