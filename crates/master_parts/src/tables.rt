//! The tables of a master.
ghost use Rattle.std.specs.Prelude.{◌≡◌, ◌+◌, true, false, ℕ, List, [], Some, None, is_some, find, IfOk, IfErr, IfSome, OnOk, OnErr};
ghost use Rattle.std.specs.Option.{option_map, option_copied};
ghost use Rattle.std.specs.BTreeMap.{is_at, insert_entry};
ghost use Rattle.std.specs.Map.{remove_entry};
ghost use Rattle.std.specs.Cmp.Lexicographic.{slice_cmp};
ghost use Rattle.std.specs.Ordering.{nat_cmp};
ghost use Rattle.collections.specs.Results.{Gives};
ghost use Rattle.collections.specs.Tables.{with_former};
ghost use Rattle.node_core.specs.Nodes.{get_node};
ghost use Rattle.lease_core.specs.Lease.{IsMoment};
ghost use Rattle.rights_core.specs.Rights.{grant_answer, is_new, granted, clients_to_ask, asked_back, ended as rights_ended};
ghost use Rattle.gate_core.specs.Gate.{ready, push_answer, with_change, change_at, without as without_change};
ghost use Rattle.session_core.specs.Session.{beat_fault, beaten, answered, keeping, told, prolonged, session_until, ended};
ghost use Rattle.session_core.specs.Sessions.{session_of, with_session, with_new, without, issued_by};
ghost use Rattle.master_parts.specs.Keys.{handle_order};
ghost use Rattle.master_parts.specs.OpenHandles.{state_at, forgotten, without_client};
ghost use Rattle.master_parts.specs.Ephemerals.{is_held_open, must_stay, is_left, has_its_turn, goes, first_to_go};

use crate::candidates::Candidates;
use crate::ephemerals::{first_among, first_of_all, idle_at, is_left};
use crate::handles::{HandleKey, HandleState};
use crate::nodes::Nodes;
use crate::open_handles::Handles;
use crate::pending::{Orphan, Task};
use crate::tasks::Tasks;
use crate::walks::{
    add_parent, candidates_of, forget_node, lose_node, note_node, wake_held, wake_open, wake_tidied,
};
use event_core::BoxedEvent;
use gate_core::{Pending, Queue};
use names_cell::{Name, Principal};
use node_core::{Fault, Node};
use rights_core::{Ending, Grant};
use session_core::{LastCall, Sessions};
use std::alloc::{AllocError, Global};
use std::marker::Model;
use tags_cell::{Beat, ClientNumber, Reply};

/// The nodes of a cell, the handles that are open on them, the sessions of clients, the rights to cache that they hold, and
/// the changes that wait. To a contract it is these five. Beside them it keeps which ephemeral nodes may be to go, so that
/// nobody has to look at all: each step that may leave a node without an open handle notes that.
#[derive(Drop)]
pub struct Tables {
    nodes: Nodes,
    handles: Handles,
    sessions: Sessions<Reply>,
    queue: Tasks,
    candidates: Candidates,
}

impl Model for Tables {
    ghost use Rattle.master_parts.specs.State.{TableState};
    ghost use Rattle.master_parts.specs.Candidates.{AreCandidates};

    ghost Value = { TableState };

    ghost view = { λ t. record { nodes = t.nodes; handles = t.handles; sessions = t.sessions; queue = t.queue } };

    ghost invariant = { λ t. AreCandidates (record { nodes = t.nodes; handles = t.handles; sessions = t.sessions; queue = t.queue }) t.candidates };
}

impl Tables {
    /// The tables of a master that comes up with these nodes and sessions: it knows of no handle, no right is held, and
    /// nothing waits.
    pub fn of_parts(alloc: Global, nodes: Nodes, sessions: Sessions<Reply>) -> Tables
        ensures { result ≡ record { nodes = nodes; handles = []; sessions = sessions; queue = record { rights = []; gate = record { waiting = []; pushed = 0 } } } }
    {
        let candidates = candidates_of(alloc, &nodes);
        Tables {
            nodes,
            handles: Handles::new(alloc),
            sessions,
            queue: Tasks::new(alloc),
            candidates,
        }
    }

    pub fn nodes(&self) -> &Nodes
        ensures { result.now ≡ self.now.nodes }
    {
        &self.nodes
    }

    pub fn handles(&self) -> &Handles
        ensures { result.now ≡ self.now.handles }
    {
        &self.handles
    }

    pub fn sessions(&self) -> &Sessions<Reply>
        ensures { result.now ≡ self.now.sessions }
    {
        &self.sessions
    }

    /// The changes that wait, and the rights that hold them up.
    pub fn queue(&self) -> &Queue<Task>
        ensures { result.now ≡ self.now.queue }
    {
        self.queue.queue()
    }

    /// Whether a handle of a live session is open on an instance.
    pub fn is_held_open(&self, instance: u64) -> bool
        ensures { result ≡ is_held_open self.now instance }
    {
        self.handles.is_open_in(instance, &self.sessions)
    }

    /// Whether the node of a name stays whoever holds it open: the root, and a directory with children.
    pub fn must_stay(&self, name: &Name) -> Result<bool, AllocError>
        ensures { IfOk result (λ stays. stays ≡ must_stay self.now.nodes name.now) }
    {
        if name.is_root() {
            return Ok(true);
        }
        self.nodes.map().has_children(name)
    }

    /// Whether it is an ephemeral node that nobody holds open, which may go.
    pub fn is_left(&self, name: &Name, node: &Node) -> Result<bool, AllocError>
        ensures { IfOk result (λ left. left ≡ is_left self.now name.now node.now) }
    {
        is_left(self, name, node)
    }

    // Whether the cell waits to delete an instance already.
    pub(crate) fn has_its_turn(&self, instance: u64) -> bool
        ensures { result ≡ has_its_turn self.now instance }
    {
        self.queue.tidies(instance)
    }

    /// The first ephemeral node by name that is to go: nobody holds it open, it has no children and isn't the root, and
    /// its deletion doesn't wait yet. It looks at those alone that may be to go since `note_quiet` looked last; at all
    /// ephemeral nodes where memory was wanting since, or a step was undone.
    pub fn first_to_go(&self) -> Result<Option<Orphan>, AllocError>
        ensures { IfOk result (λ idle. idle ≡ first_to_go self.now) }
    {
        match self.candidates.names() {
            Some(names) => {
                let _nodes = self.nodes.map().as_map();
                let _count = names.as_map().len();
                first_among(self, names)
            }
            None => self.first_of_ephemerals(),
        }
    }

    fn first_of_ephemerals(&self) -> Result<Option<Orphan>, AllocError>
        ensures { IfOk result (λ idle. idle ≡ first_to_go self.now) }
    {
        match self.nodes.ephemerals() {
            Some(names) => {
                let _nodes = self.nodes.map().as_map();
                let _count = names.as_map().len();
                first_among(self, names)
            }
            None => first_of_all(self),
        }
    }

    /// Notes what was looked at and isn't ready or to go, so that nobody looks at it again. To be called where nothing is to
    /// be done; elsewhere it does no harm. Takes no memory that it can't do without.
    pub fn note_quiet(&mut self)
        ensures { self.new ≡ self.old }
    {
        self.queue.note_quiet();
        self.pass_candidates();
    }

    // The candidates before the first node that is to go are none any more.
    fn pass_candidates(&mut self)
        ensures { self.new ≡ self.old }
    {
        match self.first_to_go() {
            Ok(None) => self.candidates.clear(),
            Ok(Some(_)) => self.pass_stale(),
            Err(_) => {}
        }
    }

    fn pass_stale(&mut self)
        ensures { self.new ≡ self.old }
    {
        for _ in 0..self.candidates.count() {
            if !self.pass_first() {
                return;
            }
        }
    }

    // The first candidate is none any more where its node isn't to go. False where it is to go.
    fn pass_first(&mut self) -> bool
        ensures { self.new ≡ self.old }
    {
        let Some(name) = self.first_stale() else {
            return false;
        };
        self.candidates.pass(&name);
        true
    }

    // The first candidate, where its node isn't to go.
    fn first_stale(&self) -> Option<Name>
        ensures { IfSome result (λ name. (node : Node) → get_node self.now.nodes name ≡ Some node → goes self.now (name, node) ≡ false) }
    {
        let name = self.candidates.first()?;
        match idle_at(self, name) {
            Ok(None) => match name.clone() {
                Ok(copy) => Some(copy),
                Err(_) => None,
            },
            _ => None,
        }
    }
}

// The nodes of a map.
impl Tables {
    /// Sets a node. What stood at the name is given back.
    pub fn set_node(&mut self, name: Name, node: Node) -> Result<Option<Node>, AllocError>
        ensures ok { OnOk result (self.new ≡ record self.old { nodes = insert_entry (slice_cmp nat_cmp) self.old.nodes name node }) }
        ensures former { IfOk result (λ former. former ≡ get_node self.old.nodes name) }
        ensures undone { IfOk result (λ former. record self.new { nodes = with_former (slice_cmp nat_cmp) self.new.nodes name former } ≡ self.old) }
        ensures err { OnErr result (self.new ≡ self.old) }
    {
        note_node(&mut self.candidates, &name, &node);
        self.nodes.set(name, node)
    }

    /// Gives a name the node that it had before a `set_node`, or none where it had none. Takes no memory that it can't do
    /// without.
    pub fn restore_node(&mut self, name: &Name, former: Option<Node>)
        ensures { self.new ≡ record self.old { nodes = with_former (slice_cmp nat_cmp) self.old.nodes name.now former } }
    {
        let _nodes = self.nodes.map().as_map();
        let there = self.nodes.map().get(name);
        lose_node(&mut self.candidates, name, there, &former);
        self.nodes.restore(name, former);
    }

    /// Takes a node away. What stood at the name is given back. Takes no memory that it can't do without.
    pub fn unset_node(&mut self, name: &Name) -> Option<Node>
        ensures after { self.new ≡ record self.old { nodes = remove_entry (is_at (slice_cmp nat_cmp name.now)) self.old.nodes } }
        ensures former { result ≡ get_node self.old.nodes name.now }
    {
        let _nodes = self.nodes.map().as_map();
        let former = self.nodes.unset(name);
        forget_node(&mut self.candidates, name, former.as_ref());
        add_parent(&mut self.candidates, name);
        former
    }
}

// The handles.
impl Tables {
    /// Notes how a handle stands, and gives how it stood before.
    pub fn put_handle(
        &mut self,
        key: HandleKey,
        state: HandleState,
    ) -> Result<Option<HandleState>, AllocError>
        ensures former { IfOk result (λ former. former ≡ state_at self.old.handles key) }
        ensures ok { OnOk result (self.new ≡ record self.old { handles = insert_entry handle_order self.old.handles key state }) }
        ensures undone { IfOk result (λ former. record self.new { handles = with_former handle_order self.new.handles key former } ≡ self.old) }
        ensures err { OnErr result (self.new ≡ self.old) }
    {
        let _number = key.number.get();
        let _count = self.handles.len();
        wake_open(&mut self.candidates, self.handles.get(&key));
        self.handles.put(key, state)
    }

    /// Notes again how a handle stood before a `put_handle`. Takes no memory.
    pub fn restore_handle(&mut self, key: &HandleKey, former: Option<HandleState>)
        ensures { self.new ≡ record self.old { handles = with_former handle_order self.old.handles key.now former } }
    {
        let _number = key.number.get();
        let _count = self.handles.len();
        self.candidates.lose();
        self.handles.restore(key, former);
    }

    /// What was kept of how a handle stood before a `put_handle` is forgotten. Takes no memory.
    pub fn settle_handle(&mut self, key: &HandleKey, former: Option<HandleState>)
        ensures { self.new ≡ self.old }
    {
        self.handles.settle(key, former);
    }

    /// Nothing is known of a handle any more; one that is known as closed stays so. Takes no memory that it can't do
    /// without.
    pub fn forget_handle(&mut self, key: &HandleKey)
        ensures { self.new ≡ record self.old { handles = forgotten self.old.handles key.now } }
    {
        let _count = self.handles.len();
        wake_open(&mut self.candidates, self.handles.get(key));
        self.handles.forget(key);
    }
}

// The sessions: each call is the one of `Sessions`.
impl Tables {
    /// A session of a client that has none begins at `now`, and lives for a lease.
    pub fn begin(
        &mut self,
        client: ClientNumber,
        principal: Principal,
        now: u64,
    ) -> Result<(), AllocError>
        requires moment { IsMoment now }
        requires absent { session_of self.old.sessions client ≡ None }
        ensures ok { OnOk result (self.new ≡ record self.old { sessions = with_new self.old.sessions client (session_until principal true (now + self.old.sessions.lease)) }) }
        ensures undone { OnOk result (record self.new { sessions = without self.new.sessions client } ≡ self.old) }
        ensures err { OnErr result (self.new ≡ self.old) }
    {
        self.sessions.begin(client, principal, now)
    }

    /// A session that a Start began is gone again, since it couldn't be committed. Takes no memory.
    pub fn take_back(&mut self, client: ClientNumber)
        ensures { self.new ≡ record self.old { sessions = without self.old.sessions client } }
    {
        self.candidates.lose();
        self.sessions.take_back(client);
    }

    /// Nothing is known of a client's session any more. Takes no memory.
    pub fn forget_session(&mut self, client: ClientNumber)
        ensures { self.new ≡ record self.old { sessions = without self.old.sessions client } }
    {
        if self.sessions.is_live(client.get()) {
            self.take_back(client);
            return;
        }
        forget_in(&mut self.sessions, client);
    }

    /// A client's session ends, and the handles that it has open are forgotten. It looks at each of them twice. Takes no
    /// memory that it can't do without.
    pub fn expire(&mut self, client: u64)
        ensures { self.new ≡ record self.old { handles = without_client self.old.handles client; sessions = with_session self.old.sessions client ended } }
    {
        let _count = self.handles.len();
        wake_held(&self.handles, &mut self.candidates, client);
        self.handles.forget_client(client);
        self.sessions.expire(client);
    }

    /// A client's session, if it has one, lives until this moment at least. Tells whether it has one. Takes no memory.
    pub fn prolong(&mut self, client: ClientNumber, moment: u64) -> bool
        ensures there { result ≡ is_some (session_of self.old.sessions client) }
        ensures prolonged { self.new ≡ record self.old { sessions = with_session self.old.sessions client (prolonged moment) } }
    {
        self.sessions.prolong(client, moment)
    }

    /// The client's parked Beat is answered at `now`. Takes no memory.
    pub fn answer(&mut self, client: ClientNumber, now: u64)
        requires { IsMoment now }
        ensures { self.new ≡ record self.old { sessions = with_session self.old.sessions client (answered self.old.sessions.lease now) } }
    {
        self.sessions.answer(client, now);
    }

    /// A Beat that was received at `received` acknowledges what its client has processed, and waits for its answer; refused
    /// as by `Sessions::beat`. Takes no memory.
    pub fn beat(&mut self, beat: &Beat, received: u64) -> Result<(), Fault>
        ensures may { OnOk result (beat_fault (session_of self.old.sessions beat.now.client) beat.now ≡ None) }
        ensures ok { OnOk result (self.new ≡ record self.old { sessions = with_session self.old.sessions beat.now.client (beaten beat.now received) }) }
        ensures fault { IfErr result (λ e. beat_fault (session_of self.old.sessions beat.now.client) beat.now ≡ Some e) }
        ensures err { OnErr result (self.new ≡ self.old) }
    {
        self.sessions.beat(beat, received)
    }

    /// The last call of a client, and its reply once it has one. Takes no memory.
    pub fn keep(&mut self, client: ClientNumber, kept: LastCall<Reply>)
        ensures { self.new ≡ record self.old { sessions = with_session self.old.sessions client (keeping kept) } }
    {
        self.sessions.keep(client, kept);
    }

    /// A client is told of an event; one whose session has ended isn't. Takes no memory.
    pub fn tell(&mut self, client: u64, event: BoxedEvent)
        ensures { self.new ≡ record self.old { sessions = with_session self.old.sessions client (told event) } }
    {
        self.sessions.tell(client, event);
    }

    /// A moment, in milliseconds: which sessions may be due by then is found out.
    pub fn note_moment(&mut self, now: u64)
        ensures { self.new ≡ self.old }
    {
        self.sessions.note_moment(now);
    }

    /// The first moment behind the one noted last at which something may be to be done for a session; `u64::MAX` stands for
    /// never. It says where to look first.
    pub fn next_moment(&self) -> u64 {
        self.sessions.next_moment()
    }

    /// A client that wasn't heard from is noted, so that nobody looks for one while it isn't.
    pub fn note_unheard(&mut self)
        ensures { self.new ≡ self.old }
    {
        self.sessions.note_unheard();
    }
}

// What waits, and the rights: each call is the one of `Queue`.
impl Tables {
    /// A change that comes stands behind all others, and gets the next number. Refused while 4,096 changes wait, which is
    /// never for want of memory.
    pub fn push(&mut self, change: Pending<Task>) -> Result<u64, Fault>
        ensures answer { Gives Fault.NoMemory result (push_answer self.old.queue.gate) }
        ensures at_once { IfErr (push_answer self.old.queue.gate) (λ fault. result ≡ Err fault) }
        ensures ok { OnOk result (self.new ≡ record self.old { queue = record self.old.queue { gate = with_change change self.old.queue.gate } }) }
        ensures err { OnErr result (self.new ≡ self.old) }
    {
        self.queue.push(change)
    }

    /// What was looked at and isn't to go is looked at no more until something changes that it goes by. Takes no memory.
    pub fn pass(&mut self, name: &Name)
        ensures { self.new ≡ self.old }
    {
        if let Ok(None) = idle_at(self, name) {
            self.candidates.pass(name);
        }
    }

    /// Takes a change out that waits; the others keep their order. Takes no memory that it can't do without.
    pub fn take(&mut self, number: u64) -> Option<Pending<Task>>
        ensures taken { result ≡ change_at number self.old.queue.gate.waiting }
        ensures others { self.new ≡ record self.old { queue = record self.old.queue { gate = record self.old.queue.gate { waiting = without_change number self.old.queue.gate.waiting } } } }
    {
        let taken = self.queue.take(number);
        wake_tidied(&mut self.candidates, taken.as_ref());
        taken
    }

    /// Grants a client the right to keep a name, where it doesn't hold it already and fewer than 1,048,576 are held.
    pub fn grant(&mut self, client: u64, name: &Name) -> Result<Grant, Fault>
        ensures answer { Gives Fault.NoMemory result (grant_answer client name.now self.old.queue.rights) }
        ensures at_once { is_new (grant_answer client name.now self.old.queue.rights) ≡ false → result ≡ grant_answer client name.now self.old.queue.rights }
        ensures ok { OnOk result (self.new ≡ record self.old { queue = record self.old.queue { rights = granted client name.now self.old.queue.rights } }) }
        ensures err { OnErr result (self.new ≡ self.old) }
    {
        self.queue.grant(client, name)
    }

    /// Asks each client for a name that holds it and wasn't asked for it yet: its session was issued one invalidation more.
    /// It walks once over the clients that hold the name, and takes no memory that it can't do without.
    pub fn ask_back(&mut self, name: &Name)
        ensures { self.new ≡ record self.old { sessions = issued_by (clients_to_ask name.now self.old.queue.rights) self.old.sessions; queue = record self.old.queue { rights = asked_back name.now self.old.queue.rights } } }
    {
        self.queue.ask_back(name, &mut self.sessions);
    }

    /// Ends the rights of a client that this ends. Takes no memory that it can't do without.
    pub fn end(&mut self, client: u64, ending: Ending)
        ensures { self.new ≡ record self.old { queue = record self.old.queue { rights = rights_ended client ending self.old.queue.rights } } }
    {
        self.queue.end(client, ending);
    }
}

fn forget_in(sessions: &mut Sessions<Reply>, client: ClientNumber)
    ensures { sessions.new ≡ without sessions.old client }
{
    sessions.take_back(client);
}
