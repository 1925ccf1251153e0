//! The events that an Alive carries: those that the master didn't know to be processed, in order of their numbers
//! (Burrows 2006, section 2.5). The numbers may be any that a u64 holds.
ghost use Rattle.std.specs.Prelude.{◌≡◌, ◌++◌, IfOk};
ghost use Rattle.client_core.specs.InOrder.{follow};
ghost use Rattle.client_core.specs.Events.{event_numbers, are_events_in_order, last_event, event_lines};

use collections::Items;
use node_core::Line;
use std::alloc::AllocError;
use tags_cell::NumberedEvent;

/// Whether the numbers rise by one, and begin at most one above what was processed.
pub fn are_events_in_order(processed: u64, events: &[NumberedEvent]) -> bool
    ensures { result ≡ are_events_in_order processed events.now }
{
    match events {
        [] => true,
        [first, others @ ..] => {
            first.number.saturating_sub(1) <= processed && events_follow(first.number, others)
        }
    }
}

// Whether the numbers rise by one from after this one on.
fn events_follow(mut last: u64, events: &[NumberedEvent]) -> bool
    ensures { result ≡ follow last (event_numbers events.now) }
{
    for next in events {
        if next.number.checked_sub(1) != Some(last) {
            return false;
        }
        last = next.number;
    }
    true
}

/// The last number, 0 where there is none.
pub fn last_event(events: &[NumberedEvent]) -> u64
    ensures { result ≡ last_event 0 events.now }
{
    match events {
        [] => 0,
        [.., last] => last.number,
    }
}

/// These lines, and after them what a client prints of the events above this number, in their order.
pub fn with_events(
    lines: Items<Line>,
    client: u64,
    processed: u64,
    events: &[NumberedEvent],
) -> Result<Items<Line>, AllocError>
    ensures { IfOk result (λ more. more ≡ lines ++ event_lines client processed events.now) }
{
    let mut lines = lines;
    for next in events {
        if next.number > processed {
            lines.push(Line::Told(client, next.event.clone()?))?;
        }
    }
    Ok(lines)
}
