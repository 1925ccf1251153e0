//! The ephemeral nodes that go by themselves.
ghost use Rattle.std.specs.Prelude.{◌≡◌, true, Some, find, IfOk, OnOk, OnErr};
ghost use Rattle.std.specs.Option.{option_map};
ghost use Rattle.gate_core.specs.Gate.{push_answer};
ghost use Rattle.master_parts.specs.Ephemerals.{idle_of};
ghost use Rattle.cell_core.specs.Step.{queued, names_of};
ghost use Rattle.cell_core.specs.Ephemerals.{is_to_go, is_ok, may_tidy, next_idle, tidied, is_still_idle};

use crate::asking::{TouchedNames, ask};
use crate::cells::MemoryMaster;
use crate::takes::queue;
use master_parts::{Orphan, Task};
use master_state::Master;
use std::alloc::AllocError;

/// How long ephemeral nodes stay at least once a recovery has ended, in milliseconds: by then who holds one open has
/// shown its handle, or its session has ended.
pub const SPARED_FOR: u64 = 60_000;

impl MemoryMaster {
    /// The first ephemeral node by name that goes: nobody holds it open, it has no children and isn't the root, and the
    /// cell doesn't wait to delete it yet. None in recovery, nor within 60,000 ms from its end or from the master's
    /// coming up without one, nor where no change has room.
    pub fn next_idle(&self) -> Result<Option<Orphan>, AllocError>
        ensures { IfOk result (λ idle. idle ≡ next_idle self.now) }
    {
        let master = &self.master;
        if may_tidy(master) {
            first_to_go(master)
        } else {
            Ok(None)
        }
    }

    /// Whether the node may still go when its turn comes: the same node is there, and nobody holds it open again.
    pub fn is_still_idle(&self, idle: &Orphan) -> Result<bool, AllocError>
        ensures { IfOk result (λ still. still ≡ is_still_idle self.now idle.now) }
    {
        let master = &self.master;
        let Some(node) = master.map().get(&idle.name) else {
            return Ok(false);
        };
        if node.instance != idle.instance {
            return Ok(false);
        }
        master.tables.is_left(&idle.name, node)
    }

    /// The deletion of an ephemeral node waits after all other changes, and who may keep its name in a cache, or the
    /// one above, is asked for it.
    pub fn tidy(&mut self, idle: Orphan) -> Result<(), AllocError>
        requires { is_ok (push_answer self.old.gate) ≡ true }
        ensures ok { OnOk result (self.new ≡ tidied self.old idle) }
        ensures err { OnErr result (self.new ≡ self.old) }
    {
        let master = &mut self.master;
        let touched = TouchedNames::WithParent(idle.name.clone()?);
        let names = touched.names(master.alloc)?;
        match queue_idle(master, &touched, idle) {
            Ok(()) => {
                ask(master, names);
                master.tables.pass(touched.name());
                Ok(())
            }
            Err(error) => {
                drop(names);
                Err(error)
            }
        }
    }
}

fn queue_idle(master: &mut Master, touched: &TouchedNames, idle: Orphan) -> Result<(), AllocError>
    requires { is_ok (push_answer master.old.gate) ≡ true }
    ensures ok { OnOk result (master.new ≡ queued master.old (names_of (Some touched.now)) (Task.Tidies idle)) }
    ensures err { OnErr result (master.new ≡ master.old) }
{
    let names = touched.names(master.alloc)?;
    queue(master, names, Task::Tidies(idle))
}

// No recovery goes on, the last one is long enough ago, and there is room for one more change.
fn may_tidy(master: &Master) -> bool
    ensures { result ≡ may_tidy master.now }
{
    if master.recovering {
        return false;
    }
    if master.clock.saturating_sub(master.serving_from) < SPARED_FOR {
        return false;
    }
    master.gate().next_number().is_ok()
}

// The first node by name that is to go.
fn first_to_go(master: &Master) -> Result<Option<Orphan>, AllocError>
    ensures { IfOk result (λ idle. idle ≡ option_map idle_of (find (is_to_go master.now) master.now.nodes)) }
{
    master.tables.first_to_go()
}
