//! The changes that wait, together with the rights that hold them up.
ghost use Rattle.std.specs.Prelude.{◌≡◌, ℕ, ◌==◌, ◌&&◌, ◌||◌, not, false, List, [], Err, find, fold, IfErr, OnOk, OnErr};
ghost use Rattle.std.specs.List.{list_any, list_all};
ghost use Rattle.std.specs.Str.{bytes_eq};
ghost use Rattle.std.specs.Option.{option_copied};
ghost use Rattle.std.specs.Map.{keys_of};
ghost use Rattle.collections.specs.Results.{Gives};
ghost use Rattle.node_core.specs.declared.refusals.Fault.{Fault};
ghost use Rattle.rights_core.specs.Rights.{held_on, grant_answer, is_new, granted, clients_to_ask, asked_back, ended};
ghost use Rattle.gate_core.specs.Gate.{ready, push_answer, with_change, change_at, without};
ghost use Rattle.gate_core.specs.Waking.{is_listed, leads, wakes, is_free_at};

use crate::gate::Gate;
use crate::leads::Leads;
use crate::pending::{Pending, all_free};
use collections::Table;
use names_cell::Name;
use node_core::{Fault, Issues};
use rights_core::{Ending, Grant, Rights};
use std::alloc::{AllocError, Global};
use std::marker::Model;

/// The changes that wait, together with the rights that hold them up, so that the change that is ready is found without a
/// look at all that wait. To a contract it is the two alone.
#[derive(Drop)]
pub struct Queue<T> {
    rights: Rights,
    gate: Gate<T>,
    leads: Leads,
    // The numbers of changes that may be ready.
    free: Table<u64, ()>,
    // Whether these are all such changes. Where memory was wanting they aren't, until none is ready.
    complete: bool,
}

impl<T> Model for Queue<T> {
    ghost use Rattle.gate_core.specs.Queue.{QueueState};
    ghost use Rattle.gate_core.specs.Waking.{IsWoken};

    ghost Value = { QueueState T };

    ghost view = { λ q. record { rights = q.rights; gate = q.gate } };

    ghost invariant = { λ q. IsWoken q.rights q.gate.waiting q.free q.complete q.leads };
}

impl<T> Queue<T> {
    /// No rights and no changes; takes no memory yet.
    pub fn new(alloc: Global) -> Queue<T>
        ensures { result ≡ record { rights = []; gate = record { waiting = []; pushed = 0 } } }
    {
        Queue {
            rights: Rights::new(alloc),
            gate: Gate::new(alloc),
            leads: Leads::new(alloc),
            free: Table::new(alloc),
            complete: true,
        }
    }

    /// The rights, to be looked at.
    pub fn rights(&self) -> &Rights
        ensures { result.now ≡ self.now.rights }
    {
        &self.rights
    }

    /// The changes that wait, to be looked at.
    pub fn gate(&self) -> &Gate<T>
        ensures { result.now ≡ self.now.gate }
    {
        &self.gate
    }

    /// The number of the lowest change that no right holds up. Takes no memory. It looks only at changes that were freed
    /// since `note_quiet` last found none ready; where memory was wanting since, at each change before the one that it finds.
    pub fn ready(&self) -> Option<u64>
        ensures { result ≡ ready self.now.rights self.now.gate.waiting }
    {
        if !self.complete {
            return self.gate.ready(&self.rights);
        }
        let _count = self.gate.len();
        let _listed = self.free.as_map().len();
        first_free(&self.free, &self.gate, &self.rights).copied()
    }

    /// Where no change is ready, later calls of `ready` look at none of those again that were freed until now. Costs one
    /// `ready`, and takes no memory.
    pub fn note_quiet(&mut self)
        ensures { self.new ≡ self.old }
    {
        if self.ready().is_none() {
            self.free.retain(|_, _| false);
            self.complete = true;
        }
    }

    /// Grants a client the right to keep a name, as `Rights::grant` does.
    pub fn grant(&mut self, client: u64, name: &Name) -> Result<Grant, Fault>
        ensures answer { Gives Fault.NoMemory result (grant_answer client name.now self.old.rights) }
        ensures at_once { is_new (grant_answer client name.now self.old.rights) ≡ false → result ≡ grant_answer client name.now self.old.rights }
        ensures ok { OnOk result (self.new ≡ record self.old { rights = granted client name.now self.old.rights }) }
        ensures err { OnErr result (self.new ≡ self.old) }
    {
        self.rights.grant(client, name)
    }

    /// Asks each client for a name that holds it and wasn't asked for it yet, as `Rights::ask_back` does. Takes no memory.
    pub fn ask_back<I: Issues>(&mut self, name: &Name, issues: &mut I)
        ensures asked { self.new ≡ record self.old { rights = asked_back name.now self.old.rights } }
        ensures issued { issues.new ≡ fold I.issued issues.old (clients_to_ask name.now self.old.rights) }
    {
        self.rights.ask_back(name, issues);
    }

    /// Ends the rights of a client that this ends, as `Rights::end` does. It never fails: where memory is wanting the next
    /// `ready` looks at all that waits. While changes wait it also looks at the names of the rights that end, and at the
    /// changes that touch one on which no right is left.
    pub fn end(&mut self, client: u64, ending: Ending)
        ensures { self.new ≡ record self.old { rights = ended client ending self.old.rights } }
    {
        if !self.complete || self.gate.len() == 0 {
            self.rights.end(client, ending);
            return;
        }
        let Ok(names) = self.rights.names_ending(client, ending) else {
            self.rights.end(client, ending);
            self.complete = false;
            return;
        };
        self.rights.end(client, ending);
        self.complete = wake(&mut self.free, &self.leads, &self.rights, names.as_slice()).is_ok();
    }
}

impl<T: Drop> Queue<T> {
    /// A change that comes stands behind all others, and gets the next number, as by `Gate::push`. Refused while 4,096
    /// changes wait, which is never for want of memory.
    pub fn push(&mut self, change: Pending<T>) -> Result<u64, Fault>
        ensures answer { Gives Fault.NoMemory result (push_answer self.old.gate) }
        ensures at_once { IfErr (push_answer self.old.gate) (λ fault. result ≡ Err fault) }
        ensures ok { OnOk result (self.new ≡ record self.old { gate = with_change change self.old.gate }) }
        ensures err { OnErr result (self.new ≡ self.old) }
    {
        let _count = self.gate.len();
        let number = self.gate.next_number()?;
        let names = change.touched.clone()?;
        note(
            &mut self.leads,
            &mut self.free,
            &self.rights,
            names.as_slice(),
            number,
        )?;
        match self.gate.push(change) {
            Ok(number) => Ok(number),
            Err(fault) => {
                forget(&mut self.leads, &mut self.free, names.as_slice(), number);
                Err(fault)
            }
        }
    }

    /// Takes a change out that waits; the others keep their order. Takes no memory.
    pub fn take(&mut self, number: u64) -> Option<Pending<T>>
        ensures taken { result ≡ change_at number self.old.gate.waiting }
        ensures others { self.new ≡ record self.old { gate = record self.old.gate { waiting = without number self.old.gate.waiting } } }
    {
        let _count = self.gate.len();
        let Some(change) = self.gate.take(number) else {
            return None;
        };
        forget(
            &mut self.leads,
            &mut self.free,
            change.touched.as_slice(),
            number,
        );
        Some(change)
    }
}

// The first of the numbers whose change no right holds up.
fn first_free<'a, T>(free: &'a Table<u64, ()>, gate: &Gate<T>, rights: &Rights) -> Option<&'a u64>
    ensures { option_copied result ≡ find (is_free_at rights.now gate.now.waiting) (keys_of free.now) }
{
    free.as_map()
        .keys()
        .find(|number| is_free_at(gate, rights, **number))
}

// Whether the change of this number waits, and no right holds it up.
fn is_free_at<T>(gate: &Gate<T>, rights: &Rights, number: u64) -> bool
    ensures { result ≡ is_free_at rights.now gate.now.waiting number }
{
    match gate.numbered(number) {
        Some(waiting) => waiting.is_free(rights),
        None => false,
    }
}

// The names lead to this number, which is listed where none of them is held.
fn note(
    by_name: &mut Leads,
    free: &mut Table<u64, ()>,
    rights: &Rights,
    names: &[Name],
    number: u64,
) -> Result<(), AllocError>
    ensures led { OnOk result ((x : List ℕ) (n : ℕ) → leads x n by_name.new ≡ ((list_any (bytes_eq x) names.now && n == number) || leads x n by_name.old)) }
    ensures listed { OnOk result ((n : ℕ) → is_listed n free.new ≡ ((list_all (λ x. held_on x rights.now == 0) names.now && n == number) || is_listed n free.old)) }
    ensures others { OnErr result ((x : List ℕ) (n : ℕ) → (n == number) ≡ false → leads x n by_name.new ≡ leads x n by_name.old) }
    ensures err { OnErr result (free.new ≡ free.old) }
{
    by_name.add_all(names, number)?;
    if let Err(refused) = list_if(free, number, all_free(names, rights)) {
        by_name.remove_all(names, number);
        return Err(refused);
    }
    Ok(())
}

// The number is listed, where the test was met.
fn list_if(free: &mut Table<u64, ()>, number: u64, test: bool) -> Result<(), AllocError>
    ensures ok { OnOk result ((n : ℕ) → is_listed n free.new ≡ ((test && n == number) || is_listed n free.old)) }
    ensures err { OnErr result (free.new ≡ free.old) }
{
    if test {
        free.put(number, ())?;
    }
    Ok(())
}

// The names lead to this number no more, and it isn't listed. Takes no memory.
fn forget(by_name: &mut Leads, free: &mut Table<u64, ()>, names: &[Name], number: u64)
    ensures led { (x : List ℕ) (n : ℕ) → leads x n by_name.new ≡ (not (list_any (bytes_eq x) names.now && n == number) && leads x n by_name.old) }
    ensures listed { (n : ℕ) → is_listed n free.new ≡ (not (n == number) && is_listed n free.old) }
{
    by_name.remove_all(names, number);
    let _listed = free.as_map().len();
    let _former = free.remove(&number);
}

// The changes are listed to which those of these names lead that nobody holds.
fn wake(
    free: &mut Table<u64, ()>,
    by_name: &Leads,
    rights: &Rights,
    names: &[Name],
) -> Result<(), AllocError>
    ensures { OnOk result ((n : ℕ) → is_listed n free.new ≡ (list_any (wakes rights.now by_name.now n) names.now || is_listed n free.old)) }
{
    for name in names {
        if rights.held_on(name) == 0 {
            wake_at(free, by_name, name)?;
        }
    }
    Ok(())
}

// The changes are listed to which this name leads.
fn wake_at(free: &mut Table<u64, ()>, by_name: &Leads, name: &Name) -> Result<(), AllocError>
    ensures { OnOk result ((n : ℕ) → is_listed n free.new ≡ (leads name.now n by_name.now || is_listed n free.old)) }
{
    match by_name.at(name) {
        Some(numbers) => list_all_of(free, numbers),
        None => Ok(()),
    }
}

// These numbers are listed too.
fn list_all_of(free: &mut Table<u64, ()>, numbers: &Table<u64, ()>) -> Result<(), AllocError>
    ensures { OnOk result ((n : ℕ) → is_listed n free.new ≡ (is_listed n numbers.now || is_listed n free.old)) }
{
    for (number, _) in numbers.as_map() {
        free.put(*number, ())?;
    }
    Ok(())
}
