//! What a store keeps that is carried over.
ghost use Rattle.rows_sql.specs.Adopting.{CarryingKeeps};

/// Whatever a store of an earlier version is taken over as has the map, the sessions and the locks that its tables say, and
/// its epoch, or of the first version the next one.
pub fn carrying_keeps()
    ensures { CarryingKeeps }
{}
