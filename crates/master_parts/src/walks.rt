//! What each step tells the candidates.
ghost use Rattle.std.specs.Prelude.{◌≡◌, true, false, ℕ, List, Some, None};
ghost use Rattle.std.specs.declared.ops.Bound.TheVariants.{Included, Excluded};
ghost use Rattle.std.specs.BTreeMap.Range.{entries_between};
ghost use Rattle.master_parts.specs.Keys.{handle_order};
ghost use Rattle.std.specs.Option.{option_copied};
ghost use Rattle.std.specs.BTreeMap.{is_at};
ghost use Rattle.std.specs.Cmp.Lexicographic.{slice_cmp};
ghost use Rattle.std.specs.Ordering.{is_le, nat_cmp};
ghost use Rattle.names_cell.specs.Text.{parent_of};
ghost use Rattle.node_core.specs.declared.nodes.Node.{Node as NodeValue};
ghost use Rattle.node_core.specs.Nodes.{get_node};
ghost use Rattle.master_parts.specs.declared.handles.HandleKey.{HandleKey as KeyValue};
ghost use Rattle.master_parts.specs.declared.handles.HandleState.TheVariants as states;
ghost use Rattle.master_parts.specs.Handles.{NotedHandle};
ghost use Rattle.master_parts.specs.EphemeralNames.{is_ephemeral};
ghost use Rattle.master_parts.specs.OpenHandles.{state_at};
ghost use Rattle.master_parts.specs.Candidates.{Has, Leads, AreFound, HaveNumbers, instance_open, instance_tidied};

use crate::candidates::Candidates;
use crate::handles::{HandleKey, HandleState, first_key};
use crate::nodes::{Nodes, is_ephemeral};
use crate::open_handles::Handles;
use crate::pending::Task;
use gate_core::Pending;
use names_cell::Name;
use node_core::Node;
use std::alloc::Global;

// All ephemeral nodes.
pub(crate) fn candidates_of(alloc: Global, nodes: &Nodes) -> Candidates
    ensures has { (q : List ℕ) (w : NodeValue) → get_node nodes.now q ≡ Some w → is_ephemeral w.life ≡ true → Has result q }
    ensures found { AreFound nodes.now result }
{
    let mut candidates = Candidates::new(alloc);
    for (name, node) in nodes.map().as_map() {
        note_node(&mut candidates, name, node);
    }
    candidates
}

// A node is set.
pub(crate) fn note_node(candidates: &mut Candidates, name: &Name, node: &Node)
    ensures has { is_ephemeral node.now.life ≡ true → Has candidates.new name.now }
    ensures found { is_ephemeral node.now.life ≡ true → Leads candidates.new node.now.instance name.now }
    ensures leads { (i : ℕ) (q : List ℕ) → Leads candidates.old i q → Leads candidates.new i q }
    ensures kept { (q : List ℕ) → Has candidates.old q → Has candidates.new q }
{
    if is_ephemeral(node.life) {
        candidates.place(name, node.instance);
        candidates.add(name);
    }
}

// A node of this name stands again, or none, where another may have stood: any may be to go.
pub(crate) fn lose_node(
    candidates: &mut Candidates,
    name: &Name,
    there: Option<&Node>,
    former: &Option<Node>,
)
    ensures found { (w : NodeValue) → former.now ≡ Some w → is_ephemeral w.life ≡ true → Leads candidates.new w.instance name.now }
    ensures has { (q : List ℕ) → (former.now ≡ None → is_at (slice_cmp nat_cmp q) name.now ≡ false) → Has candidates.new q }
    ensures leads { (i : ℕ) (q : List ℕ) → is_at (slice_cmp nat_cmp q) name.now ≡ false → Leads candidates.old i q → Leads candidates.new i q }
{
    candidates.lose();
    match former {
        Some(node) => note_node(candidates, name, node),
        None => forget_node(candidates, name, there),
    }
}

// The node of this name is gone.
pub(crate) fn forget_node(candidates: &mut Candidates, name: &Name, node: Option<&Node>)
    ensures leads { (i : ℕ) (q : List ℕ) → is_at (slice_cmp nat_cmp q) name.now ≡ false → Leads candidates.old i q → Leads candidates.new i q }
    ensures kept { (q : List ℕ) → is_at (slice_cmp nat_cmp q) name.now ≡ false → Has candidates.old q → Has candidates.new q }
{
    if let Some(node) = node {
        candidates.forget(name, node.instance);
    }
}

// The node above a name may be to go.
pub(crate) fn add_parent(candidates: &mut Candidates, name: &Name)
    ensures own { (q : List ℕ) → parent_of name.now ≡ Some q → Has candidates.new q }
    ensures leads { (i : ℕ) (q : List ℕ) → Leads candidates.old i q → Leads candidates.new i q }
    ensures kept { (q : List ℕ) → Has candidates.old q → Has candidates.new q }
{
    match name.parent() {
        Ok(Some(parent)) => candidates.add(&parent),
        Ok(None) => {}
        Err(_) => candidates.lose(),
    }
}

// The instance that a handle in this state is open on.
fn instance_open(state: Option<&HandleState>) -> Option<u64>
    ensures { result ≡ instance_open (option_copied state.entry) }
{
    match state {
        Some(HandleState::Open(noted)) => Some(noted.instance()),
        _ => None,
    }
}

// The instance that a change deletes by itself.
pub(crate) fn instance_tidied(change: Option<&Pending<Task>>) -> Option<u64>
    ensures { result ≡ instance_tidied (option_copied change.entry) }
{
    let change = change?;
    match &change.body {
        Task::Asked(_) => None,
        Task::Tidies(idle) => Some(idle.instance),
    }
}

// The nodes that a client holds open may be to go.
pub(crate) fn wake_held(handles: &Handles, candidates: &mut Candidates, client: u64)
    requires { HaveNumbers handles.now }
    ensures own { (key : KeyValue) (noted : NotedHandle) (q : List ℕ) → state_at handles.now key ≡ Some (states.Open noted) → key.client ≡ client → Leads candidates.old noted.handle.instance q → Has candidates.new q }
    ensures leads { (i : ℕ) (q : List ℕ) → Leads candidates.old i q → Leads candidates.new i q }
    ensures kept { (q : List ℕ) → Has candidates.old q → Has candidates.new q }
{
    let _count = handles.len();
    let Some(next) = client.checked_add(1) else {
        candidates.lose();
        return;
    };
    match (first_key(client), first_key(next)) {
        (Some(first), Some(end)) => wake_between(handles, candidates, first, end),
        _ => candidates.lose(),
    }
}

// The nodes may be to go that the handles from a key to below another are open on.
fn wake_between(handles: &Handles, candidates: &mut Candidates, first: HandleKey, end: HandleKey)
    requires { is_le (handle_order first end) ≡ true }
    ensures own { (key : KeyValue) (noted : NotedHandle) (q : List ℕ) → state_at (entries_between handle_order (Included first) (Excluded end) handles.now) key ≡ Some (states.Open noted) → Leads candidates.old noted.handle.instance q → Has candidates.new q }
    ensures leads { (i : ℕ) (q : List ℕ) → Leads candidates.old i q → Leads candidates.new i q }
    ensures kept { (q : List ℕ) → Has candidates.old q → Has candidates.new q }
{
    for (_, state) in handles.states().as_map().range(first..end) {
        wake_open(candidates, Some(state));
    }
}

// The node may be to go that a handle in this state is open on.
pub(crate) fn wake_open(candidates: &mut Candidates, state: Option<&HandleState>)
    ensures own { (i : ℕ) (q : List ℕ) → instance_open (option_copied state.entry) ≡ Some i → Leads candidates.old i q → Has candidates.new q }
    ensures leads { (i : ℕ) (q : List ℕ) → Leads candidates.old i q → Leads candidates.new i q }
    ensures kept { (q : List ℕ) → Has candidates.old q → Has candidates.new q }
{
    if let Some(instance) = instance_open(state) {
        candidates.wake(instance);
    }
}

// The node may be to go whose deletion waits no more.
pub(crate) fn wake_tidied(candidates: &mut Candidates, change: Option<&Pending<Task>>)
    ensures own { (i : ℕ) (q : List ℕ) → instance_tidied (option_copied change.entry) ≡ Some i → Leads candidates.old i q → Has candidates.new q }
    ensures leads { (i : ℕ) (q : List ℕ) → Leads candidates.old i q → Leads candidates.new i q }
    ensures kept { (q : List ℕ) → Has candidates.old q → Has candidates.new q }
{
    if let Some(instance) = instance_tidied(change) {
        candidates.wake(instance);
    }
}
