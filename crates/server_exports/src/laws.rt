//! What holds of the blocks that a master tells.
ghost use Rattle.server_exports.specs.Written.{MessageStandsBehind};

/// In a block that tells a message, all bytes of it stand after the first ten: a server hands these on as they are.
pub fn message_stands_behind()
    ensures { MessageStandsBehind }
{}
