//! The events of one session.
ghost use Rattle.std.specs.Prelude.{◌≡◌, ◌≤◌, ◌<◌, ◌-◌, None, Some, IfOk, IfErr, OnOk, OnErr, length};
ghost use Rattle.node_core.specs.Limits.{number_end};
ghost use Rattle.event_core.specs.Queue.{empty_queue, waiting_limit, count_of, is_full, is_exhausted, has_waiting, unacked, pushed, with_lost, without_first, acknowledge_fault, acknowledged_to};

use crate::boxes::BoxedEvent;
use collections::Items;
use node_core::{Fault, NUMBER_LIMIT};
use std::alloc::{AllocError, Global};
use std::collections::VecDeque;
use std::marker::Model;
use tags_cell::NumberedEvent;

/// The most events of a session that wait for its acknowledgement.
pub const WAITING_LIMIT: usize = 256;

/// The events of one session (Burrows 2006, section 2.5), numbered from 1 in each epoch: up to which number they were
/// acknowledged, those after it in order, and whether one was missed, because the queue was full. It has room for as many
/// as may wait, 8 bytes for each, so that only its making takes memory.
#[derive(Drop)]
pub struct EventQueue {
    acknowledged: u64,
    waiting: VecDeque<BoxedEvent>,
    // The last one that was missed: its place in memory is the one of the event that says so later.
    missed: Option<BoxedEvent>,
}

impl Model for EventQueue {
    ghost use Rattle.std.specs.Prelude.{◌≤◌, ◌<◌, ◌+◌, is_some};
    ghost use Rattle.node_core.specs.Limits.{number_end};
    ghost use Rattle.std.specs.VecDeque.{deque_len, deque_capacity};
    ghost use Rattle.event_core.specs.Queue.{EventQueue, waiting_limit};

    ghost Value = { EventQueue };

    ghost view = { λ q. record { acknowledged = q.acknowledged; waiting = q.waiting.items; missed = is_some q.missed } };

    ghost invariant = { λ q. (waiting_limit ≤ deque_capacity q.waiting) × (deque_len q.waiting ≤ waiting_limit) × (q.acknowledged + deque_len q.waiting < number_end) };
}

impl EventQueue {
    /// No events yet, and room for 256.
    pub fn new(alloc: Global) -> Result<EventQueue, AllocError>
        ensures { IfOk result (λ queue. queue ≡ empty_queue) }
    {
        Ok(EventQueue {
            acknowledged: 0,
            waiting: VecDeque::with_capacity(alloc, WAITING_LIMIT)?,
            missed: None,
        })
    }

    /// The number of the last event, 0 before the first. Takes no memory.
    pub fn count(&self) -> u64
        ensures count { result ≡ count_of self.now }
        ensures range { result < number_end }
    {
        self.acknowledged + self.waiting.len() as u64
    }

    /// The number up to which the events were acknowledged. Takes no memory.
    pub fn acknowledged(&self) -> u64
        ensures { result ≡ self.now.acknowledged }
    {
        self.acknowledged
    }

    /// Whether no event can get a number any more: the last one has 2^63-1. Takes no memory.
    pub fn is_exhausted(&self) -> bool
        ensures { result ≡ is_exhausted self.now }
    {
        self.count() >= NUMBER_LIMIT
    }

    /// Whether events wait for their acknowledgement. Takes no memory.
    pub fn owes(&self) -> bool
        ensures { result ≡ has_waiting self.now }
    {
        self.waiting.len() >= 1
    }

    // Whether no event can be added.
    fn is_full(&self) -> bool
        ensures { result ≡ is_full self.now }
    {
        self.waiting.len() >= WAITING_LIMIT || self.is_exhausted()
    }

    /// An event for the session gets the next number. Where 256 wait already, or no number is left, it is missed. Takes
    /// no memory.
    pub fn push(&mut self, event: BoxedEvent)
        ensures { self.new ≡ pushed event self.old }
    {
        if self.is_full() {
            self.missed = Some(event);
            return;
        }
        self.waiting.push_back_reserved(event);
    }

    // How many events an acknowledgement up to this number takes off.
    fn count_to(&self, number: u64) -> u64
        ensures { result ≡ number - self.now.acknowledged }
    {
        number.saturating_sub(self.acknowledged)
    }

    /// Why an acknowledgement would be refused, if it would: the test that `acknowledge` makes first. Takes no memory.
    pub fn acknowledge_fault(&self, number: u64) -> Option<Fault>
        ensures { result ≡ acknowledge_fault number self.now }
    {
        let count = self.count();
        if number > count {
            Some(Fault::BadAck(count))
        } else {
            None
        }
    }

    // The first events wait no longer.
    fn drop_first(&mut self, count: u64)
        requires { count ≤ length self.old.waiting }
        ensures { self.new ≡ without_first count self.old }
    {
        drop(self.waiting.drain(..count as usize));
        self.acknowledged += count;
    }

    // Where some were missed and one can be added, one is queued for them all.
    fn add_lost(&mut self)
        ensures { self.new ≡ with_lost self.old }
    {
        if self.is_full() {
            return;
        }
        if let Some(missed) = self.missed.take() {
            self.waiting.push_back_reserved(missed.into_lost());
        }
    }

    /// The events up to a number wait no longer. Where one can be added then and some were missed, one event that says
    /// so is queued, with the next number. Refused as BadAck, with the number of the last event, exactly where the number
    /// is above it. Takes no memory.
    pub fn acknowledge(&mut self, number: u64) -> Result<(), Fault>
        ensures may { OnOk result (acknowledge_fault number self.old ≡ None) }
        ensures ok { OnOk result (self.new ≡ acknowledged_to number self.old) }
        ensures fault { IfErr result (λ e. acknowledge_fault number self.old ≡ Some e) }
        ensures err { OnErr result (self.new ≡ self.old) }
    {
        if let Some(fault) = self.acknowledge_fault(number) {
            return Err(fault);
        }
        self.drop_first(self.count_to(number));
        self.add_lost();
        Ok(())
    }

    /// The events that wait for their acknowledgement, with their numbers, in order.
    pub fn unacked(&self, alloc: Global) -> Result<Items<NumberedEvent>, AllocError>
        ensures events { IfOk result (λ events. events ≡ unacked self.now) }
        ensures bound { IfOk result (λ events. length events ≤ waiting_limit) }
    {
        let mut number = self.acknowledged;
        let mut events = Items::new(alloc);
        for event in self.waiting.iter() {
            number += 1;
            let event = event.event().clone()?;
            events.push(NumberedEvent { number, event })?;
        }
        Ok(events)
    }
}
