//! What is told, beside what is told where nothing is refused.
use rows_cell::ListRecords;
use std::alloc::Global;
use watch_cell::Alike;
use world_cell::World;
use world_steps::Message;

fn is_same(message: &Message, other: &Message) -> bool {
    match (message, other) {
        (Message::ToMaster(request), Message::ToMaster(other)) => request.is_same(other),
        (Message::ToClient(out), Message::ToClient(other)) => out.is_same(other),
        _ => false,
    }
}

/// Whether these messages are those, in order. Takes no memory.
pub(crate) fn are_same(sent: &[Message], others: &[Message]) -> bool {
    if sent.len() != others.len() {
        return false;
    }
    for (message, other) in sent.iter().zip(others.iter()) {
        if !is_same(message, other) {
            return false;
        }
    }
    true
}

/// Whether a world sent what its twin sent, and a master is up in both or in neither. Takes no memory.
pub(crate) fn are_alike(world: &World<ListRecords>, twin: &World<ListRecords>) -> bool {
    world.is_up() == twin.is_up() && are_same(world.messages(), twin.messages())
}
