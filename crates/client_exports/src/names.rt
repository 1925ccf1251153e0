//! The names that a line of the last step shows.
ghost use Rattle.std.specs.Prelude.{◌≡◌, slice_get};
ghost use Rattle.client_exports.specs.Tellings.{text_in, answer_children, seen_children, told_children, child_at, acl_of, node_acl, stat_acl, answer_acl, seen_acl, told_acl, acl_at, event_name, told_name, name_at};

use crate::held::HeldClient;
use names_cell::Component;
use node_core::{Answer, Event, Line, Node, Stat, View};

impl HeldClient {
    /// The last component of the name of a child, the first at 0, in order of bytes, that the line at this place shows; empty where it
    /// shows none there. Copies nothing.
    pub fn told_child(&self, place: usize, index: usize) -> &[u8]
        ensures { result.now ≡ child_at self.now.lines place index }
    {
        match self.lines.as_slice().get(place) {
            Some(line) => component_at(told_children(line), index),
            None => &[],
        }
    }

    /// The ACL for a right, 1 to read, 2 to write, 4 to change ACL names, of the node that the line at this place shows; empty where it
    /// shows none. Copies nothing.
    pub fn told_acl(&self, place: usize, right: u32) -> &[u8]
        ensures { result.now ≡ acl_at self.now.lines place right }
    {
        match self.lines.as_slice().get(place) {
            Some(line) => told_acl(line, right),
            None => &[],
        }
    }

    /// The whole name of the child that the event at this place tells of, or of the node that the cache served there; empty where it
    /// is another line. Copies nothing.
    pub fn told_name(&self, place: usize) -> &[u8]
        ensures { result.now ≡ name_at self.now.lines place }
    {
        match self.lines.as_slice().get(place) {
            Some(line) => told_name(line),
            None => &[],
        }
    }
}

fn component_at(components: &[Component], index: usize) -> &[u8]
    ensures { result.now ≡ text_in (slice_get components.now index) }
{
    match components.get(index) {
        Some(component) => component.as_str().as_bytes(),
        None => &[],
    }
}

fn answer_children(answer: &Answer) -> &[Component]
    ensures { result.now ≡ answer_children answer.now }
{
    match answer {
        Answer::Viewed(view) => view.children.as_slice(),
        Answer::Names(names) => names.as_slice(),
        _ => &[],
    }
}

fn seen_children(seen: &Option<View>) -> &[Component]
    ensures { result.now ≡ seen_children seen.now }
{
    match seen {
        Some(view) => view.children.as_slice(),
        None => &[],
    }
}

fn told_children(line: &Line) -> &[Component]
    ensures { result.now ≡ told_children line.now }
{
    match line {
        Line::Done(_, _, answer) => answer_children(answer),
        Line::Served(_, _, seen) => seen_children(seen),
        _ => &[],
    }
}

fn acl_of<'a>(
    read: &'a Component,
    write: &'a Component,
    change: &'a Component,
    right: u32,
) -> &'a [u8]
    ensures { result.now ≡ acl_of read.now write.now change.now right }
{
    if right == 1 {
        read.as_str().as_bytes()
    } else if right == 2 {
        write.as_str().as_bytes()
    } else if right == 4 {
        change.as_str().as_bytes()
    } else {
        &[]
    }
}

fn node_acl(node: &Node, right: u32) -> &[u8]
    ensures { result.now ≡ node_acl node.now right }
{
    acl_of(&node.read, &node.write, &node.change, right)
}

fn stat_acl(stat: &Stat, right: u32) -> &[u8]
    ensures { result.now ≡ stat_acl stat.now right }
{
    acl_of(&stat.read, &stat.write, &stat.change, right)
}

fn answer_acl(answer: &Answer, right: u32) -> &[u8]
    ensures { result.now ≡ answer_acl answer.now right }
{
    match answer {
        Answer::Viewed(view) => node_acl(&view.node, right),
        Answer::Stated(stat) => stat_acl(stat, right),
        _ => &[],
    }
}

fn seen_acl(seen: &Option<View>, right: u32) -> &[u8]
    ensures { result.now ≡ seen_acl seen.now right }
{
    match seen {
        Some(view) => node_acl(&view.node, right),
        None => &[],
    }
}

fn told_acl(line: &Line, right: u32) -> &[u8]
    ensures { result.now ≡ told_acl line.now right }
{
    match line {
        Line::Done(_, _, answer) => answer_acl(answer, right),
        Line::Served(_, _, seen) => seen_acl(seen, right),
        _ => &[],
    }
}

fn event_name(event: &Event) -> &[u8]
    ensures { result.now ≡ event_name event.now }
{
    match event {
        Event::ChildAdded(_, name) => name.as_str().as_bytes(),
        Event::ChildRemoved(_, name) => name.as_str().as_bytes(),
        Event::ChildModified(_, name) => name.as_str().as_bytes(),
        _ => &[],
    }
}

fn told_name(line: &Line) -> &[u8]
    ensures { result.now ≡ told_name line.now }
{
    match line {
        Line::Served(_, name, _) => name.as_str().as_bytes(),
        Line::Told(_, event) => event_name(event),
        _ => &[],
    }
}
