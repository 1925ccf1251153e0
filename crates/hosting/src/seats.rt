//! A master that a program hosts, and what it does by a frame.
ghost use Rattle.std.specs.Prelude.{◌≡◌, ◌≤◌, IfOk};
ghost use Rattle.hosting.specs.Seats.{hosted, Does, DoesFrame, Arrives, Listens, Ticks, Leaves, Shows, Stands, IsDue};
ghost use Rattle.hosting.specs.Standing.{standing_of};

use crate::answers::{Answered, answer};
use crate::frames::Frame;
use crate::settling::{Settled, settle};
use crate::standing::{MasterStanding, standing_of};
use codec::WireFault;
use master_state::Master;
use node_core::Fault;
use over_core::Cell;
use rows_cell::{MasterTerms, Records};
use std::alloc::{AllocError, Global};
use tags_cell::Request;

/// The records of a cell by themselves, or with the master that is up over them.
#[derive(Drop)]
pub enum HostedMaster<R: Records> {
    Up(Cell<R>),
    Down(R),
}

/// What is answered to a frame.
#[derive(Drop)]
pub enum FrameReply {
    /// What was sent is no frame, and nothing changes.
    Bad(WireFault),
    /// What it asks for is refused.
    Refused(Fault),
    /// The master came up with this epoch, and swept.
    Came(u64, Settled),
    Answered(Answered),
    Swept(Settled),
    /// The master is gone.
    Gone,
    Stands(MasterStanding),
}

impl<R: Records> HostedMaster<R> {
    /// The records. A master that is up is gone.
    pub fn close(self) -> R
        ensures { R.store result ≡ (hosted R.store self).store }
    {
        match self {
            HostedMaster::Up(cell) => cell.down(),
            HostedMaster::Down(records) => records,
        }
    }

    /// Does what was sent: a frame, or what is wrong with one. The master goes by these terms.
    pub fn take(
        self,
        alloc: Global,
        terms: MasterTerms,
        sent: &Result<Frame, WireFault>,
    ) -> (HostedMaster<R>, FrameReply)
        requires { (1000 ≤ terms.lease) × (terms.lease ≤ 60000) }
        ensures { Does terms sent.now (hosted R.store self) result.1 (hosted R.store result.0) }
    {
        match sent {
            Ok(frame) => self.do_frame(alloc, terms, frame),
            Err(fault) => (self, FrameReply::Bad(*fault)),
        }
    }

    /// The earliest moment, in milliseconds, at which the master that is up has something to do, from the last one on that
    /// it was told; none where it never has, or where none is up. Nothing changes. Want of memory alone refuses.
    pub fn next_deadline(&mut self) -> Result<Option<u64>, AllocError>
        ensures due { IfOk result (IsDue (hosted R.store self.old).master) }
        ensures same { hosted R.store self.new ≡ hosted R.store self.old }
    {
        match self {
            HostedMaster::Up(cell) => cell.next_deadline(),
            HostedMaster::Down(_) => Ok(None),
        }
    }

    fn do_frame(
        self,
        alloc: Global,
        terms: MasterTerms,
        frame: &Frame,
    ) -> (HostedMaster<R>, FrameReply)
        requires { (1000 ≤ terms.lease) × (terms.lease ≤ 60000) }
        ensures { DoesFrame terms frame.now (hosted R.store self) result.1 (hosted R.store result.0) }
    {
        match frame {
            Frame::Up(now) => self.come_up(alloc, terms, *now),
            Frame::Message(now, request) => self.hear(alloc, *now, request),
            Frame::Tick(now) => self.sweep(alloc, *now),
            Frame::Down => self.go(),
            Frame::State => self.stand(alloc),
        }
    }

    fn come_up(self, alloc: Global, terms: MasterTerms, now: u64) -> (HostedMaster<R>, FrameReply)
        requires { (1000 ≤ terms.lease) × (terms.lease ≤ 60000) }
        ensures { Arrives terms now (hosted R.store self).master (hosted R.store self).store result.1 (hosted R.store result.0) }
    {
        match self {
            HostedMaster::Up(cell) => (
                HostedMaster::Up(cell),
                FrameReply::Refused(Fault::MasterUp),
            ),
            HostedMaster::Down(records) => match Cell::up(alloc, records, terms, now) {
                Ok(mut cell) => {
                    let epoch = cell.epoch();
                    let settled = settle(alloc, &mut cell, now);
                    (HostedMaster::Up(cell), FrameReply::Came(epoch, settled))
                }
                Err((fault, records)) => (HostedMaster::Down(records), FrameReply::Refused(fault)),
            },
        }
    }

    fn hear(self, alloc: Global, now: u64, request: &Request) -> (HostedMaster<R>, FrameReply)
        ensures { Listens now request.now (hosted R.store self).master (hosted R.store self).store result.1 (hosted R.store result.0) }
    {
        match self {
            HostedMaster::Up(mut cell) => {
                let answered = answer(alloc, &mut cell, now, request);
                (HostedMaster::Up(cell), FrameReply::Answered(answered))
            }
            HostedMaster::Down(records) => (
                HostedMaster::Down(records),
                FrameReply::Refused(Fault::MasterDown),
            ),
        }
    }

    fn sweep(self, alloc: Global, now: u64) -> (HostedMaster<R>, FrameReply)
        ensures { Ticks now (hosted R.store self).master (hosted R.store self).store result.1 (hosted R.store result.0) }
    {
        match self {
            HostedMaster::Up(mut cell) => {
                let settled = settle(alloc, &mut cell, now);
                (HostedMaster::Up(cell), FrameReply::Swept(settled))
            }
            HostedMaster::Down(records) => (
                HostedMaster::Down(records),
                FrameReply::Refused(Fault::MasterDown),
            ),
        }
    }

    fn go(self) -> (HostedMaster<R>, FrameReply)
        ensures { Leaves (hosted R.store self).master (hosted R.store self).store result.1 (hosted R.store result.0) }
    {
        match self {
            HostedMaster::Up(cell) => (HostedMaster::Down(cell.down()), FrameReply::Gone),
            HostedMaster::Down(records) => (
                HostedMaster::Down(records),
                FrameReply::Refused(Fault::MasterDown),
            ),
        }
    }

    fn stand(self, alloc: Global) -> (HostedMaster<R>, FrameReply)
        ensures { Stands (hosted R.store self).master (hosted R.store self).store result.1 (hosted R.store result.0) }
    {
        match self {
            HostedMaster::Up(cell) => {
                let reply = shown(alloc, cell.master());
                (HostedMaster::Up(cell), reply)
            }
            HostedMaster::Down(records) => (
                HostedMaster::Down(records),
                FrameReply::Refused(Fault::MasterDown),
            ),
        }
    }
}

// How a master stands, unless memory is wanting.
fn shown(alloc: Global, master: &Master) -> FrameReply
    ensures { Shows (standing_of master.now) result }
{
    match standing_of(alloc, master) {
        Ok(standing) => FrameReply::Stands(standing),
        Err(_) => FrameReply::Refused(Fault::NoMemory),
    }
}
