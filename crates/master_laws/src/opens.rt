//! Whom a master gives a handle.
ghost use Rattle.master_laws.specs.Opens.{OpensWherePermitted, GivenHandleIsOpen};
ghost use Rattle.master_laws.specs.Makes.{MakesOnlyWherePermitted, MakesWherePermitted, KeptNumbersAreCarried};

/// An Open that makes nothing is answered with a handle exactly if the node is there, each right of its mode is
/// permitted to the client's principal by the ACL files that the node names, and its lock-delay is within the limit.
pub fn opens_where_permitted()
    ensures { OpensWherePermitted }
{}

/// The handle that an Open that makes nothing is answered with is of its client and its number, on the node and in the
/// mode that it asked for, and it is open from then on.
pub fn given_handle_is_open()
    ensures { GivenHandleIsOpen }
{}

/// When its turn comes an Open that makes a node gives a handle only where content and lock-delay are within the limits,
/// write is permitted on the directory above and each right of its mode on the new node, and the limits of the cell leave
/// room for the node and its content; or, if a node of the name is there and may be, each right on that one.
pub fn makes_only_where_permitted()
    ensures { MakesOnlyWherePermitted }
{}

/// Wherever that is so, an Open that makes a node, under no sequencer and of a name of the master's cell, gives a handle
/// when its turn comes.
pub fn makes_where_permitted()
    ensures { MakesWherePermitted }
{}

/// A handle can carry the epoch and the instances of each master that is kept beside its rows, from epoch 1 on.
pub fn kept_numbers_are_carried()
    ensures { KeptNumbersAreCarried }
{}
