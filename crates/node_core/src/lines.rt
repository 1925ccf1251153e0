//! The lines that are printed.
ghost use Rattle.std.specs.Prelude.{◌≡◌, IfOk, None, Some};
ghost use Rattle.std.specs.Fmt.{DisplaysOnOk};
ghost use Rattle.node_core.specs.Texts.{line_text};
ghost use Rattle.node_core.specs.declared.lines.Line.TheVariants as lines;

use crate::answers::Answer;
use crate::events::Event;
use crate::kinds::LockMode;
use crate::listings::Listing;
use crate::refusals::Fault;
use crate::texts::{write_number, write_numbers};
use crate::views::{Mod, Shown, View};
use collections::Same;
use names_cell::Name;
use std::alloc::AllocError;
use std::fmt;

/// A line that is printed, without the LF behind it.
#[derive(Drop)]
pub enum Line {
    /// A master came up: its epoch.
    Up(u64),
    Down,
    Recovered,
    /// The client's session was committed as live.
    Started(u64),
    /// The client's session was committed as ended.
    Ended(u64),
    /// A change of the map was committed: client, number of its call, change, and the children of a directory that is
    /// put. `0 0` is the cell's own deletion of an ephemeral node.
    Applied(u64, u64, Mod, Listing),
    /// A new right to cache: its number, the client, the name.
    Granted(u64, u64, Name),
    /// The right of this number ended by an acknowledgement.
    Acked(u64),
    /// The right of this number ended with its session.
    Expired(u64),
    /// A lock was taken: client, instance, mode, generation.
    Locked(u64, u64, LockMode, u64),
    /// A lock was given back: client, instance.
    Freed(u64, u64),
    /// A holder's session expired: client, instance.
    Lapsed(u64, u64),
    /// A lock-delay ended: instance.
    Reopened(u64),
    /// Answered from the client's cache: client, name, and the view or absence.
    Served(u64, Name, Option<View>),
    /// A call ended: client, number of its call (0 where the client answered by itself), answer.
    Done(u64, u64, Answer),
    /// The client was told of an event.
    Told(u64, Event),
    /// The client's lease has ended.
    Jeopardy(u64),
    /// The client has a lease again.
    Safe(u64),
    /// The client's session is lost.
    Lost(u64),
    /// A step was refused, or a call, or a message.
    Refused(Fault),
}

impl Clone for Line {
    ghost is_clone = { λ s t. t ≡ s };

    fn clone(&self) -> Result<Line, AllocError> {
        Ok(match self {
            Line::Up(epoch) => Line::Up(*epoch),
            Line::Down => Line::Down,
            Line::Recovered => Line::Recovered,
            Line::Started(client) => Line::Started(*client),
            Line::Ended(client) => Line::Ended(*client),
            Line::Applied(client, call, change, children) => applied_clone(
                *client, *call, change, children,
            )?,
            Line::Granted(right, client, name) => Line::Granted(*right, *client, name.clone()?),
            Line::Acked(right) => Line::Acked(*right),
            Line::Expired(right) => Line::Expired(*right),
            Line::Locked(client, instance, mode, generation) => Line::Locked(
                *client,
                *instance,
                *mode,
                *generation,
            ),
            Line::Freed(client, instance) => Line::Freed(*client, *instance),
            Line::Lapsed(client, instance) => Line::Lapsed(*client, *instance),
            Line::Reopened(instance) => Line::Reopened(*instance),
            Line::Served(client, name, None) => Line::Served(*client, name.clone()?, None),
            Line::Served(client, name, Some(view)) => served_clone(*client, name, view)?,
            Line::Done(client, call, answer) => Line::Done(*client, *call, answer.clone()?),
            Line::Told(client, event) => Line::Told(*client, event.clone()?),
            Line::Jeopardy(client) => Line::Jeopardy(*client),
            Line::Safe(client) => Line::Safe(*client),
            Line::Lost(client) => Line::Lost(*client),
            Line::Refused(fault) => Line::Refused(*fault),
        })
    }
}

fn applied_clone(
    client: u64,
    call: u64,
    change: &Mod,
    children: &Listing,
) -> Result<Line, AllocError>
    ensures { IfOk result (λ line. line ≡ lines.Applied client call change.now children.now) }
{
    let children = children.clone()?;
    Ok(Line::Applied(client, call, change.clone()?, children))
}

fn served_clone(client: u64, name: &Name, view: &View) -> Result<Line, AllocError>
    ensures { IfOk result (λ line. line ≡ lines.Served client name.now (Some view.now)) }
{
    Ok(Line::Served(client, name.clone()?, Some(view.clone()?)))
}

impl Same for Line {
    ghost exact = { λ x y h. h };
}

impl fmt::Display for Line {
    ghost output = { λ x. Some (line_text x) };

    fn fmt<W: fmt::Write>(&self, f: &mut fmt::Formatter<W>) -> fmt::Result {
        match self {
            Line::Up(epoch) => write_number(f, "up ", *epoch),
            Line::Down => f.write_str("down"),
            Line::Recovered => f.write_str("recovered"),
            Line::Started(client) => write_number(f, "started ", *client),
            Line::Ended(client) => write_number(f, "ended ", *client),
            Line::Applied(client, call, change, children) => write_applied(
                f, *client, *call, change, children,
            ),
            Line::Granted(right, client, name) => write_granted(f, *right, *client, name),
            Line::Acked(right) => write_number(f, "acked ", *right),
            Line::Expired(right) => write_number(f, "expired ", *right),
            Line::Locked(client, instance, mode, generation) => write_locked(
                f,
                *client,
                *instance,
                *mode,
                *generation,
            ),
            Line::Freed(client, instance) => write_numbers(f, "freed ", *client, *instance),
            Line::Lapsed(client, instance) => write_numbers(f, "lapsed ", *client, *instance),
            Line::Reopened(instance) => write_number(f, "reopened ", *instance),
            Line::Served(client, name, None) => write_absent(f, *client, name),
            Line::Served(client, name, Some(view)) => write_served(f, *client, name, view),
            Line::Done(client, call, answer) => write_done(f, *client, *call, answer),
            Line::Told(client, event) => write_told(f, *client, event),
            Line::Jeopardy(client) => write_number(f, "jeopardy ", *client),
            Line::Safe(client) => write_number(f, "safe ", *client),
            Line::Lost(client) => write_number(f, "lost ", *client),
            Line::Refused(fault) => write!(f, "refused {fault}"),
        }
    }
}

fn write_applied<W: fmt::Write>(
    f: &mut fmt::Formatter<W>,
    client: u64,
    call: u64,
    change: &Mod,
    children: &Listing,
) -> fmt::Result
    ensures { DisplaysOnOk W.write_str_gives f.old result (Some (line_text (lines.Applied client call change.now children.now))) f.new }
{
    match change {
        Mod::Put(name, node) => {
            let shown = Shown::of(node, children);
            write!(f, "applied {client} {call} put {name} {shown}")
        }
        Mod::Gone(name) => write!(f, "applied {client} {call} gone {name}"),
    }
}

fn write_granted<W: fmt::Write>(
    f: &mut fmt::Formatter<W>,
    right: u64,
    client: u64,
    name: &Name,
) -> fmt::Result
    ensures { DisplaysOnOk W.write_str_gives f.old result (Some (line_text (lines.Granted right client name.now))) f.new }
{
    write!(f, "granted {right} {client} {name}")
}

fn write_locked<W: fmt::Write>(
    f: &mut fmt::Formatter<W>,
    client: u64,
    instance: u64,
    mode: LockMode,
    generation: u64,
) -> fmt::Result
    ensures { DisplaysOnOk W.write_str_gives f.old result (Some (line_text (lines.Locked client instance mode generation))) f.new }
{
    write!(f, "locked {client} {instance} {mode} {generation}")
}

fn write_absent<W: fmt::Write>(f: &mut fmt::Formatter<W>, client: u64, name: &Name) -> fmt::Result
    ensures { DisplaysOnOk W.write_str_gives f.old result (Some (line_text (lines.Served client name.now None))) f.new }
{
    write!(f, "served {client} {name} absent")
}

fn write_served<W: fmt::Write>(
    f: &mut fmt::Formatter<W>,
    client: u64,
    name: &Name,
    view: &View,
) -> fmt::Result
    ensures { DisplaysOnOk W.write_str_gives f.old result (Some (line_text (lines.Served client name.now (Some view.now)))) f.new }
{
    write!(f, "served {client} {name} {view}")
}

fn write_done<W: fmt::Write>(
    f: &mut fmt::Formatter<W>,
    client: u64,
    call: u64,
    answer: &Answer,
) -> fmt::Result
    ensures { DisplaysOnOk W.write_str_gives f.old result (Some (line_text (lines.Done client call answer.now))) f.new }
{
    write!(f, "done {client} {call} {answer}")
}

fn write_told<W: fmt::Write>(f: &mut fmt::Formatter<W>, client: u64, event: &Event) -> fmt::Result
    ensures { DisplaysOnOk W.write_str_gives f.old result (Some (line_text (lines.Told client event.now))) f.new }
{
    write!(f, "event {client} {event}")
}
