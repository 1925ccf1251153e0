//! Nodes, the map of names to nodes, and every line that is printed.
#![tactic(auto)]

mod access;
mod answers;
mod events;
mod faults;
mod issues;
mod kinds;
mod laws;
mod lines;
mod listings;
mod maps;
mod nodes;
mod refusals;
mod room;
mod stats;
mod texts;
mod views;

pub use access::permitted;
pub use answers::Answer;
pub use events::Event;
pub use faults::NodeFault;
pub use issues::Issues;
pub use kinds::{Kind, Life, LockMode, Right};
pub use laws::{
    after_changes_one_name, after_keeps_names_in_order, gone_node_is_absent,
    no_put_without_a_parent, put_node_is_there, put_shows_its_view, untouched_views_stay,
};
pub use lines::Line;
pub use listings::Listing;
pub use maps::{CONTENT_LIMIT, Map, MapOutcome, NUMBER_LIMIT};
pub use nodes::Node;
pub use refusals::Fault;
pub use room::room_fault;
pub use stats::Stat;
pub use views::{Mod, View};
