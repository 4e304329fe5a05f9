//! What follows from the definitions, each law as the contract of a function that does nothing.
ghost use Rattle.object_pages.specs.Fitting.{FitResource, FitVersions};
ghost use Rattle.object_pages.specs.Laws.{HaveOnePage};
ghost use Rattle.request_target.specs.Targets.{resource_seen};
ghost use Rattle.request_target.specs.Told.{IsResourceIn};

use object_state::Stored;
use release_view::View;
use request_target::Resource;

/// In a version an object has one page, and so has a list of objects.
pub fn objects_have_one_page(of: Resource<'_>)
    ensures { HaveOnePage (resource_seen of.entry) }
{
    let _table = of.table;
}

/// Where what is held fits each version of its resource that a view has, what the objects of a
/// resource of the view hold fits its table, and so does what is listed of them.
pub fn held_objects_fit(view: &View, objects: &[Stored], of: Resource<'_>)
    requires held { FitVersions view.now.versions objects.now }
    requires told { IsResourceIn view.now.versions (resource_seen of) }
    ensures { FitResource (resource_seen of.entry) objects.now }
{
    let _table = of.table;
}
