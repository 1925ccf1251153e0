//! What changes do to the nodes and the views of names, for every map and every change.
ghost use Rattle.node_core.specs.Laws.{PutNodeIsThere, GoneNodeIsAbsent, OtherNamesStay, NoPutWithoutParent, NamesStayInOrder, PutShowsItsView, UntouchedViewsStay};

/// After a Put the name's node is the one that was put.
pub fn put_node_is_there()
    ensures { PutNodeIsThere }
{}

/// After a Gone nothing stands at the name.
pub fn gone_node_is_absent()
    ensures { GoneNodeIsAbsent }
{}

/// After any change each other name's node is as before.
pub fn after_changes_one_name()
    ensures { OtherNamesStay }
{}

/// A name whose parent is missing can't be put.
pub fn no_put_without_a_parent()
    ensures { NoPutWithoutParent }
{}

/// After any change the keys are names, in the order of their bytes, each once.
pub fn after_keeps_names_in_order()
    ensures { NamesStayInOrder }
{}

/// After a Put its name shows what is printed of the change: its node, and the children that it had.
pub fn put_shows_its_view()
    ensures { PutShowsItsView }
{}

/// After any change each name that it doesn't touch shows what it showed: a node that comes or goes touches its
/// parent's name too.
pub fn untouched_views_stay()
    ensures { UntouchedViewsStay }
{}
