//! What the pages list, each law as the contract of a function that does nothing.
ghost use Rattle.release_view.specs.Served.{served_of};
ghost use Rattle.discovery.specs.Laws.{AreListed, ListsInOrder, ListsGates};

use release_view::{View, view_is_kept};

/// The documents list exactly the groups with a served version, but the core group, each once and in order of bytes,
/// and of each group exactly its served versions.
pub fn groups_are_exact(view: &View)
    ensures { AreListed (served_of view.now.versions) }
{
    let _served = view.served();
}

/// The documents list the versions of a group in order of stability, and the resources of a version in order of bytes.
pub fn lists_are_in_order(view: &View)
    ensures { ListsInOrder view.now.versions }
{
    view_is_kept(view);
}

/// The metrics page has a line for each gate that is found at the view's release, in order of bytes, and no other.
pub fn metrics_are_exact(view: &View)
    ensures { ListsGates view.now }
{
    view_is_kept(view);
}
