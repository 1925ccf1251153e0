//! The messages that were sent.
ghost use Rattle.std.specs.Prelude.{◌≡◌, ◌≤◌, ◌<◌, ◌+◌, ◌++◌, ◌∷◌, [], map, length};
ghost use Rattle.std.specs.Option.{option_copied};
ghost use Rattle.std.specs.Vec.{vec_len, vec_capacity};
ghost use Rattle.world_steps.specs.Messages.{message_at, request_at, out_at};

use collections::Items;
use tags_cell::{Out, Request};

/// A message that was sent, by its direction.
#[derive(Drop)]
pub enum Message {
    ToMaster(Request),
    ToClient(Out),
}

/// The request of a number, where the message of that number is one.
pub fn request_at(sent: &[Message], number: u64) -> Option<&Request>
    ensures { option_copied result ≡ request_at sent.now number }
{
    match message_at(sent, number)? {
        Message::ToMaster(request) => Some(request),
        Message::ToClient(_) => None,
    }
}

/// The message to a client of a number, where the message of that number is one.
pub fn out_at(sent: &[Message], number: u64) -> Option<&Out>
    ensures { option_copied result ≡ out_at sent.now number }
{
    match message_at(sent, number)? {
        Message::ToMaster(_) => None,
        Message::ToClient(out) => Some(out),
    }
}

fn message_at(sent: &[Message], number: u64) -> Option<&Message>
    ensures { option_copied result ≡ message_at sent.now number }
{
    if number == 0 {
        return None;
    }
    sent.get((number - 1) as usize)
}

/// Adds a request, where there is room.
pub fn send(sent: &mut Vec<Message>, request: Request)
    requires { vec_len sent.old < vec_capacity sent.old }
    ensures items { sent.new.items ≡ sent.old.items ++ Message.ToMaster request ∷ [] }
{
    sent.push_reserved(Message::ToMaster(request));
}

/// Adds messages to clients, where there is room.
pub fn send_all(sent: &mut Vec<Message>, outs: Items<Out>)
    requires { vec_len sent.old + length outs ≤ vec_capacity sent.old }
    ensures items { sent.new.items ≡ sent.old.items ++ map Message.ToClient outs }
{
    for out in outs.into_vec() {
        sent.push_reserved(Message::ToClient(out));
    }
}
