//! What a viewer answers.
use cache_core::Shared;
use node_core::View;

/// What a viewer answers for a name.
#[derive(Drop)]
pub enum Hit {
    /// The entry is this view, which is shared with the cache.
    View(Shared<View>),
    /// The entry is the absence of a node.
    Absent,
    /// No entry may be served.
    Miss,
    /// No view could be entered, since the keeper was closed.
    Gone,
}
