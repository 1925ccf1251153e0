//! The changes that wait, among which the deletion of a node is found.
ghost use Rattle.std.specs.Prelude.{◌≡◌, ◌+◌, ◌-◌, true, false, ℕ, [], cond, fold, Err, IfErr, OnOk, OnErr};
ghost use Rattle.std.specs.List.{list_any};
ghost use Rattle.collections.specs.Results.{Gives};
ghost use Rattle.rights_core.specs.Rights.{grant_answer, is_new, granted, clients_to_ask, asked_back, ended};
ghost use Rattle.gate_core.specs.Gate.{push_answer, with_change, change_at, without};
ghost use Rattle.master_parts.specs.Ephemerals.{tidies};
ghost use Rattle.master_parts.specs.Tasks.{is_tidied, count_listed};

use crate::ephemerals::tidies;
use crate::pending::Task;
use crate::walks::instance_tidied;
use collections::Table;
use gate_core::{Pending, Queue};
use names_cell::Name;
use node_core::{Fault, Issues};
use rights_core::{Ending, Grant};
use std::alloc::Global;
use std::marker::Model;

// The changes that wait, and the rights that hold them up, as a `Queue`, so that whether the deletion of a node waits is
// found without a look at all that wait.
#[derive(Drop)]
pub(crate) struct Tasks {
    queue: Queue<Task>,
    // The instances of the nodes whose deletion waits.
    instances: Table<u64, ()>,
    // Whether these are all of them. Where memory was wanting they aren't, until nothing waits.
    complete: bool,
}

impl Model for Tasks {
    ghost use Rattle.std.specs.Prelude.{◌≡◌, true};
    ghost use Rattle.gate_core.specs.Queue.{QueueState};
    ghost use Rattle.master_parts.specs.declared.pending.Task.{Task};
    ghost use Rattle.master_parts.specs.Tasks.{AreTidied};

    ghost Value = { QueueState Task };

    ghost view = { λ t. t.queue };

    ghost invariant = { λ t. t.complete ≡ true → AreTidied t.instances t.queue.gate.waiting };
}

impl Tasks {
    // No rights and no changes; takes no memory yet.
    pub(crate) fn new(alloc: Global) -> Tasks
        ensures { result ≡ record { rights = []; gate = record { waiting = []; pushed = 0 } } }
    {
        Tasks {
            queue: Queue::new(alloc),
            instances: Table::new(alloc),
            complete: true,
        }
    }

    pub(crate) fn queue(&self) -> &Queue<Task>
        ensures { result.now ≡ self.now }
    {
        &self.queue
    }

    // Whether the deletion of an instance waits: one look-up; where memory was wanting, a look at all that wait.
    pub(crate) fn tidies(&self, instance: u64) -> bool
        ensures { result ≡ list_any (λ w. tidies instance w.change.body) self.now.gate.waiting }
    {
        if self.complete {
            return self.instances.get(&instance).is_some();
        }
        any_tidies(&self.queue, instance)
    }

    pub(crate) fn push(&mut self, change: Pending<Task>) -> Result<u64, Fault>
        ensures answer { Gives Fault.NoMemory result (push_answer self.old.gate) }
        ensures at_once { IfErr (push_answer self.old.gate) (λ fault. result ≡ Err fault) }
        ensures ok { OnOk result (self.new ≡ record self.old { gate = with_change change self.old.gate }) }
        ensures err { OnErr result (self.new ≡ self.old) }
    {
        let tidied = instance_tidied(Some(&change));
        let number = self.queue.push(change)?;
        let listed = list(&mut self.instances, tidied);
        self.complete = self.complete && listed;
        Ok(number)
    }

    pub(crate) fn take(&mut self, number: u64) -> Option<Pending<Task>>
        ensures taken { result ≡ change_at number self.old.gate.waiting }
        ensures others { self.new ≡ record self.old { gate = record self.old.gate { waiting = without number self.old.gate.waiting } } }
    {
        let taken = self.queue.take(number);
        unlist(&mut self.instances, instance_tidied(taken.as_ref()));
        self.complete = self.complete || is_empty(&self.queue, &self.instances);
        taken
    }

    pub(crate) fn note_quiet(&mut self)
        ensures { self.new ≡ self.old }
    {
        self.queue.note_quiet();
    }

    pub(crate) fn grant(&mut self, client: u64, name: &Name) -> Result<Grant, Fault>
        ensures answer { Gives Fault.NoMemory result (grant_answer client name.now self.old.rights) }
        ensures at_once { is_new (grant_answer client name.now self.old.rights) ≡ false → result ≡ grant_answer client name.now self.old.rights }
        ensures ok { OnOk result (self.new ≡ record self.old { rights = granted client name.now self.old.rights }) }
        ensures err { OnErr result (self.new ≡ self.old) }
    {
        self.queue.grant(client, name)
    }

    pub(crate) fn ask_back<I: Issues>(&mut self, name: &Name, issues: &mut I)
        ensures asked { self.new ≡ record self.old { rights = asked_back name.now self.old.rights } }
        ensures issued { issues.new ≡ fold I.issued issues.old (clients_to_ask name.now self.old.rights) }
    {
        self.queue.ask_back(name, issues);
    }

    pub(crate) fn end(&mut self, client: u64, ending: Ending)
        ensures { self.new ≡ record self.old { rights = ended client ending self.old.rights } }
    {
        self.queue.end(client, ending);
    }
}

fn any_tidies(queue: &Queue<Task>, instance: u64) -> bool
    ensures { result ≡ list_any (λ w. tidies instance w.change.body) queue.now.gate.waiting }
{
    queue
        .gate()
        .changes()
        .as_map()
        .values()
        .any(|waiting| tidies(instance, &waiting.change.body))
}

// The instance of a change that came is listed. False where it isn't, for want of memory or since it was.
fn list(instances: &mut Table<u64, ()>, tidied: Option<u64>) -> bool
    ensures { result ≡ true → (i : ℕ) → count_listed i instances.new ≡ count_listed i instances.old + cond (is_tidied i tidied) 1 0 }
{
    let Some(instance) = tidied else {
        return true;
    };
    match instances.put(instance, ()) {
        Ok(None) => true,
        _ => false,
    }
}

// The instance of a change that left is listed no more. Takes no memory.
fn unlist(instances: &mut Table<u64, ()>, tidied: Option<u64>)
    ensures { (i : ℕ) → count_listed i instances.new ≡ count_listed i instances.old - cond (is_tidied i tidied) 1 0 }
{
    if let Some(instance) = tidied {
        let _count = instances.as_map().len();
        instances.remove(&instance);
    }
}

// Whether nothing waits, and nothing is listed.
fn is_empty(queue: &Queue<Task>, instances: &Table<u64, ()>) -> bool
    ensures { result ≡ true → (queue.now.gate.waiting ≡ []) × (instances.now ≡ []) }
{
    queue.gate().len() == 0 && instances.as_map().is_empty()
}
