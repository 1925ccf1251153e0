//! What a master sends.
use crate::alike::Alike;
use tags_cell::{
    Alive, CallResult, Invalidation, NewHandle, NumberedEvent, Out, Refused, Reply, Started,
};

impl Alike for Started {
    fn is_same(&self, other: &Started) -> bool {
        self.client.get() == other.client.get()
            && self.epoch == other.epoch
            && self.number.get() == other.number.get()
            && self.span == other.span
    }
}

impl Alike for Invalidation {
    fn is_same(&self, other: &Invalidation) -> bool {
        self.number == other.number && self.name.is_same(&other.name)
    }
}

impl Alike for NumberedEvent {
    fn is_same(&self, other: &NumberedEvent) -> bool {
        self.number == other.number && self.event.is_same(&other.event)
    }
}

impl Alike for Alive {
    fn is_same(&self, other: &Alive) -> bool {
        self.client.get() == other.client.get()
            && self.epoch == other.epoch
            && self.number.get() == other.number.get()
            && self.span == other.span
            && self.invalidations.is_same(&other.invalidations)
            && self.events.is_same(&other.events)
    }
}

impl Alike for NewHandle {
    fn is_same(&self, other: &NewHandle) -> bool {
        self.bytes.is_same(&other.bytes)
            && self.instance.get() == other.instance.get()
            && self.life.is_same(&other.life)
    }
}

impl Alike for CallResult {
    fn is_same(&self, other: &CallResult) -> bool {
        match (self, other) {
            (CallResult::Opened(a), CallResult::Opened(b)) => a.is_same(b),
            (CallResult::Closed, CallResult::Closed) => true,
            (CallResult::Viewed(a), CallResult::Viewed(b)) => a.is_same(b),
            (CallResult::Stated(a), CallResult::Stated(b)) => a.is_same(b),
            (CallResult::Listed(a), CallResult::Listed(b)) => a.is_same(b),
            (CallResult::Sequencer(a), CallResult::Sequencer(b)) => a.is_same(b),
            (CallResult::Done, CallResult::Done) => true,
            (CallResult::Refused(a), CallResult::Refused(b)) => a.is_same(b),
            _ => false,
        }
    }
}

impl Alike for Reply {
    fn is_same(&self, other: &Reply) -> bool {
        self.client.get() == other.client.get()
            && self.epoch == other.epoch
            && self.number.get() == other.number.get()
            && self.stamp.is_same(&other.stamp)
            && self.result.is_same(&other.result)
    }
}

impl Alike for Refused {
    fn is_same(&self, other: &Refused) -> bool {
        self.client.get() == other.client.get()
            && self.epoch == other.epoch
            && self.number.get() == other.number.get()
            && self.fault.is_same(&other.fault)
    }
}

impl Alike for Out {
    fn is_same(&self, other: &Out) -> bool {
        match (self, other) {
            (Out::Started(a), Out::Started(b)) => a.is_same(b),
            (Out::Alive(a), Out::Alive(b)) => a.is_same(b),
            (Out::Reply(a), Out::Reply(b)) => a.is_same(b),
            (Out::Refused(a), Out::Refused(b)) => a.is_same(b),
            _ => false,
        }
    }
}
