//! The events of a watch, and the entries of its trail.
ghost use Rattle.std.specs.Prelude.{◌≡◌, ◌↔◌, IfOk, IsTrue};

use crate::alike::Alike;
use over_core::Swept;
use std::alloc::AllocError;
use std::marker::Model;
use tags_cell::Request;

/// A step that a thread asks for. Moments are in milliseconds.
#[derive(Drop)]
pub enum WatchEvent {
    /// A message is taken at a moment.
    Take(u64, Request),
    /// The master does the first action that there is at a moment.
    Sweep(u64),
}

/// A step that was made: what was asked for, and what it printed and sent. A message that is taken is never quiet.
#[derive(Drop)]
pub struct Entry {
    pub event: WatchEvent,
    pub reply: Swept,
}

impl Clone for WatchEvent {
    ghost is_clone = { λ s t. t ≡ s };

    fn clone(&self) -> Result<WatchEvent, AllocError> {
        Ok(match self {
            WatchEvent::Take(now, request) => WatchEvent::Take(*now, request.clone()?),
            WatchEvent::Sweep(now) => WatchEvent::Sweep(*now),
        })
    }
}

impl Alike for WatchEvent {
    fn is_same(&self, other: &WatchEvent) -> bool {
        match (self, other) {
            (WatchEvent::Take(now, request), WatchEvent::Take(then, another)) => {
                now == then && request.is_same(another)
            }
            (WatchEvent::Sweep(now), WatchEvent::Sweep(then)) => now == then,
            _ => false,
        }
    }
}

/// Whether an entry has this event and this reply. Costs their size.
pub(crate) fn is_same(entry: &Entry, event: &WatchEvent, reply: &Swept) -> bool
    ensures { IsTrue result ↔ ((entry.now.event ≡ event.now) × (entry.now.reply ≡ reply.now)) }
{
    entry.event.is_same(event)
        && entry.reply.lines.is_same(&reply.lines)
        && entry.reply.outs.is_same(&reply.outs)
        && entry.reply.quiet == reply.quiet
}

/// An event three times: for the trail, for the pass and for the caller. To a contract it is that event.
#[derive(Drop)]
pub(crate) struct ThreeEvents {
    first: WatchEvent,
    second: WatchEvent,
    third: WatchEvent,
}

impl Model for ThreeEvents {
    ghost use Rattle.std.specs.Prelude.{◌≡◌};
    ghost use Rattle.watch_cell.specs.declared.events.WatchEvent.{WatchEvent};

    ghost Value = { WatchEvent };

    ghost view = { λ e. e.first };

    ghost invariant = { λ e. (e.second ≡ e.first) × (e.third ≡ e.first) };
}

impl ThreeEvents {
    pub fn of(event: WatchEvent) -> Result<ThreeEvents, AllocError>
        ensures { IfOk result (λ events. events ≡ event) }
    {
        let second = event.clone()?;
        let third = event.clone()?;
        Ok(ThreeEvents {
            first: event,
            second,
            third,
        })
    }

    pub fn event(&self) -> &WatchEvent
        ensures { result.now ≡ self.now }
    {
        &self.first
    }

    pub fn all(self) -> (WatchEvent, WatchEvent, WatchEvent)
        ensures first { result.0 ≡ self }
        ensures second { result.1 ≡ self }
        ensures third { result.2 ≡ self }
    {
        let ThreeEvents {
            first,
            second,
            third,
        } = self;
        (first, second, third)
    }
}
