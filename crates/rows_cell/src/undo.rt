//! Edits that are done in place, and undone where one behind them is refused.
ghost use Rattle.std.specs.Prelude.{◌≡◌, ◌++◌, ◌∷◌, [], false, IfOk, OnOk, OnErr};
ghost use Rattle.std.specs.List.{list_any};
ghost use Rattle.std.specs.BTreeMap.{insert_entry};
ghost use Rattle.std.specs.Ordering.{nat_cmp};
ghost use Rattle.rows_cell.specs.Rows.{edited, changed_rows, put_stored, stored_node, at_generation};
ghost use Rattle.rows_cell.specs.Undo.{restored, all_restored, takes_away, removes_row, settled};

use crate::keys::LockKey;
use crate::tables::{Edit, LockRow, Rows, SessionRow, StoredNode, generation_at};
use collections::{Items, Table};
use names_cell::Name;
use node_core::Node;
use std::alloc::{AllocError, Global};
use std::mem;

/// What stood before an edit: it is put back without memory.
#[derive(Drop)]
pub(crate) enum FormerRow {
    OldEpoch(u64),
    OldInstance(u64),
    /// Of the lock of the node of this name, where it is there.
    OldGeneration(Name, u64),
    OldNode(Name, Option<StoredNode>),
    OldSession(u64, Option<SessionRow>),
    OldEnded(u64),
    OldLock(LockKey, Option<LockRow>),
}

impl Rows {
    // Does edits in place, in order, or leaves the rows: where one is refused, those before it are undone. A lock's row that
    // is taken away goes once none is refused any more, if it isn't put again.
    pub(crate) fn edit_all(&mut self, alloc: Global, edits: &[Edit]) -> Result<(), AllocError>
        requires { list_any removes_row edits.now ≡ false }
        ensures ok { OnOk result (self.new ≡ changed_rows self.old edits.now) }
        ensures err { OnErr result (self.new ≡ self.old) }
    {
        let mut formers = Vec::new(alloc);
        let mut late = Table::new(alloc);
        for edit in edits {
            match self.edit_late(edit, &mut formers, &mut late) {
                Ok(()) => {}
                Err(error) => {
                    self.restore_all(Items::from_vec(formers));
                    return Err(error);
                }
            }
        }
        self.settle(&late);
        Ok(())
    }

    // Does one edit, or leaves the rows. What stood before is noted behind the others; a row of a lock that is taken away
    // is noted to go.
    fn edit_late(
        &mut self,
        edit: &Edit,
        formers: &mut Vec<FormerRow>,
        late: &mut Table<LockKey, ()>,
    ) -> Result<(), AllocError>
        requires { removes_row edit.now ≡ false }
        ensures ok { OnOk result (settled self.new late.new ≡ edited (settled self.old late.old) edit.now) }
        ensures back { all_restored self.new formers.new.items ≡ all_restored self.old formers.old.items }
    {
        if !edit.is_of_locks() {
            self.edit_noted(edit, formers)?;
            return Ok(());
        }
        let _locks = self.locks.as_map().len();
        let _late = late.as_map().len();
        match edit {
            Edit::RemoveLock(key) => {
                late.put(*key, ())?;
            }
            Edit::PutLock(key, _) => {
                self.edit_noted(edit, formers)?;
                late.remove(key);
            }
            _ => unreachable!(),
        }
        Ok(())
    }

    // Takes these rows away, where they are there.
    fn settle(&mut self, late: &Table<LockKey, ()>)
        ensures { self.new ≡ settled self.old late.now }
    {
        for (key, _) in late.as_map() {
            self.locks.remove(key);
        }
    }

    // Does one edit, or leaves the rows. What stood before is noted behind the others.
    fn edit_noted(&mut self, edit: &Edit, formers: &mut Vec<FormerRow>) -> Result<(), AllocError>
        requires { takes_away edit.now ≡ false }
        ensures ok { OnOk result (self.new ≡ edited self.old edit.now) }
        ensures back { all_restored self.new formers.new.items ≡ all_restored self.old formers.old.items }
        ensures err { OnErr result (self.new ≡ self.old) }
    {
        formers.reserve(1)?;
        let former = self.edit_kept(edit)?;
        formers.push_reserved(former);
        Ok(())
    }

    // Does one edit and gives what stood before, or leaves the rows.
    fn edit_kept(&mut self, edit: &Edit) -> Result<FormerRow, AllocError>
        requires { takes_away edit.now ≡ false }
        ensures ok { OnOk result (self.new ≡ edited self.old edit.now) }
        ensures back { IfOk result (λ former. restored self.new former ≡ self.old) }
        ensures err { OnErr result (self.new ≡ self.old) }
    {
        match edit {
            Edit::Epoch(epoch) => Ok(FormerRow::OldEpoch(mem::replace(&mut self.epoch, *epoch))),
            Edit::NextInstance(next) => {
                Ok(FormerRow::OldInstance(mem::replace(&mut self.next_instance, *next)))
            }
            Edit::LockGeneration(name, generation) => self.keep_generation(name, *generation),
            Edit::PutNode(name, node) => self.keep_node(name, node),
            Edit::PutSession(client, session) => self.keep_session(*client, session),
            Edit::EndedBelow(next) => {
                Ok(FormerRow::OldEnded(mem::replace(&mut self.ended_below, *next)))
            }
            Edit::PutLock(key, row) => {
                let former = self.locks.put(*key, *row)?;
                Ok(FormerRow::OldLock(*key, former))
            }
            _ => unreachable!(),
        }
    }

    fn keep_generation(&mut self, name: &Name, generation: u64) -> Result<FormerRow, AllocError>
        ensures ok { OnOk result (self.new ≡ record self.old { nodes = at_generation self.old.nodes name.now (stored_node self.old.nodes name.now) generation }) }
        ensures back { IfOk result (λ former. restored self.new former ≡ self.old) }
        ensures err { OnErr result (self.new ≡ self.old) }
    {
        let former = generation_at(&self.nodes, name);
        let key = name.clone()?;
        self.set_generation(name, generation);
        Ok(FormerRow::OldGeneration(key, former))
    }

    fn keep_node(&mut self, name: &Name, node: &Node) -> Result<FormerRow, AllocError>
        ensures ok { OnOk result (self.new ≡ record self.old { nodes = put_stored self.old.nodes name.now node.now }) }
        ensures back { IfOk result (λ former. restored self.new former ≡ self.old) }
        ensures err { OnErr result (self.new ≡ self.old) }
    {
        let key = name.clone()?;
        let former = self.put_node(name, node)?;
        Ok(FormerRow::OldNode(key, former))
    }

    fn keep_session(&mut self, client: u64, session: &SessionRow) -> Result<FormerRow, AllocError>
        ensures ok { OnOk result (self.new ≡ record self.old { sessions = insert_entry nat_cmp self.old.sessions client session.now }) }
        ensures back { IfOk result (λ former. restored self.new former ≡ self.old) }
        ensures err { OnErr result (self.new ≡ self.old) }
    {
        let former = self.sessions.put(client, session.clone()?)?;
        Ok(FormerRow::OldSession(client, former))
    }

    // The last that was done is undone first.
    fn restore_all(&mut self, formers: Items<FormerRow>)
        ensures { self.new ≡ all_restored self.old formers }
    {
        let mut formers = formers;
        while let Some(former) = formers.pop() {
            self.restore(former);
        }
    }

    // Puts back what stood before an edit.
    fn restore(&mut self, former: FormerRow)
        ensures { self.new ≡ restored self.old former }
    {
        match former {
            FormerRow::OldEpoch(epoch) => self.epoch = epoch,
            FormerRow::OldInstance(next) => self.next_instance = next,
            FormerRow::OldGeneration(name, generation) => self.set_generation(&name, generation),
            FormerRow::OldNode(name, former) => self.nodes.restore(&name, former),
            FormerRow::OldSession(client, former) => self.sessions.restore(&client, former),
            FormerRow::OldEnded(next) => self.ended_below = next,
            FormerRow::OldLock(key, former) => self.locks.restore(&key, former),
        }
    }
}
