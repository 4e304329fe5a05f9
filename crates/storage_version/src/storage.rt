//! The version in which objects of a resource are stored.
ghost use Rattle.std.specs.Prelude.{◌≡◌, true, Some};
ghost use Rattle.fields.specs.Table.{AreLawful};
ghost use Rattle.lifecycle.specs.Entry.{named};
ghost use Rattle.release_view.specs.Known.{table_name};
ghost use Rattle.release_view.specs.Later.{AreOfOneHistory};
ghost use Rattle.release_view.specs.Views.{has_live};
ghost use Rattle.schemas.specs.Dated.{Dated};
ghost use Rattle.storage_version.specs.Storage.{storage_table_in};

use fields::VersionTable;
use lifecycle::ApiName;
use release_view::{View, later_view_reads_live, view_finds_each};

fn name_of(table: &VersionTable) -> ApiName<'_>
    ensures { named result ≡ table_name table.now }
{
    ApiName {
        group: table.group.bytes(),
        version: table.version.bytes(),
        resource: table.resource.bytes(),
    }
}

/// The table, in the view, of the version in which objects of the resource are stored: the most stable version that is live
/// in `back`, or in the view where the kind isn't live in `back`. The kind is live in the view, and `back` is a view of the
/// same history at the same release or up to three below it.
pub fn storage_for<'a>(
    view: &'a View,
    back: &'a View,
    group: &[u8],
    resource: &[u8],
) -> &'a VersionTable
    requires live { has_live view.now.versions group.now resource.now ≡ true }
    requires one { (history : Dated) × AreOfOneHistory history back.now view.now }
    ensures table { storage_table_in back.now.versions view.now.versions group.now resource.now
        ≡ Some result.now }
    ensures lawful { AreLawful result.now.rows }
{
    match back.live_best(group, resource) {
        Some(best) => {
            later_view_reads_live(back, view);
            view.table(name_of(best)).unwrap()
        }
        None => {
            view_finds_each(view);
            view.live_best(group, resource).unwrap()
        }
    }
}
