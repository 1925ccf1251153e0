//! What threads send each other.
use crossbeam_channel::{Receiver, Sender, bounded};
use std::alloc::{AllocError, Global};
use std::sync::Wait;
use std::sync::atomic::{AtomicU64, Ordering};
use tags_cell::Out;

/// So many letters wait for a client. There are never more: an answer to its call, one to its Beat, and the end.
const ROOM: usize = 8;

/// What comes to a client's thread.
#[derive(Drop)]
pub(crate) enum Letter {
    /// What the master sent to the client.
    Out(Out),
    /// The run is over.
    Over,
}

/// A channel to each client.
#[derive(Drop)]
pub(crate) struct Letters {
    senders: Vec<Sender<Letter>>,
    receivers: Vec<Receiver<Letter>>,
    /// How many clients have not finished.
    playing: AtomicU64,
    /// Whether the end was sent: not 0.
    over: AtomicU64,
}

impl Letters {
    /// All memory that they need is taken here.
    pub(crate) fn new(alloc: Global, clients: u64) -> Result<Letters, AllocError> {
        let mut senders = Vec::new(alloc);
        let mut receivers = Vec::new(alloc);
        for _ in 0..clients {
            let (sender, receiver) = bounded(alloc, ROOM)?;
            senders.push(sender)?;
            receivers.push(receiver)?;
        }
        Ok(Letters {
            senders,
            receivers,
            playing: AtomicU64::new(clients),
            over: AtomicU64::new(0),
        })
    }

    /// Sends what the master sent on to its client.
    pub(crate) fn send<W: Wait>(&self, rt: &W, out: Out) {
        let client = out.client().get();
        if let Some(sender) = self.senders.get(client.saturating_sub(1) as usize) {
            let _ = sender.send(rt, Letter::Out(out));
        }
    }

    /// Waits for the next letter to a client.
    pub(crate) fn next<W: Wait>(&self, rt: &W, client: u64) -> Letter {
        match self.receivers.get(client.saturating_sub(1) as usize) {
            Some(receiver) => receiver.recv(rt).unwrap_or(Letter::Over),
            None => Letter::Over,
        }
    }

    /// A client has finished. The last one ends the run.
    pub(crate) fn finish<W: Wait>(&self, rt: &W) {
        if self.playing.fetch_sub(1, Ordering::SeqCst) == 1 {
            self.end(rt);
        }
    }

    /// Ends the run.
    pub(crate) fn end<W: Wait>(&self, rt: &W) {
        if self.over.swap(1, Ordering::SeqCst) == 0 {
            for sender in &self.senders {
                let _ = sender.send(rt, Letter::Over);
            }
        }
    }
}
