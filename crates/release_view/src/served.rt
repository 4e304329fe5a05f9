//! The served versions, as they are shown.
ghost use Rattle.std.specs.Prelude.{◌≡◌, IfOk, option_map};
ghost use Rattle.release_view.specs.Served.{shown, served_as, served_of};

use crate::known::KnownVersion;
use basis::Memory;
use minor_version::Text;
use std::alloc::Global;

/// A version of a resource that a release serves.
#[derive(Debug, Drop)]
pub struct ServedVersion {
    pub group: Text,
    pub version: Text,
    pub resource: Text,
    pub kind: Text,
    pub singular: Text,
    pub namespaced: bool,
}

fn shown(alloc: Global, version: &KnownVersion) -> Result<ServedVersion, Memory>
    ensures { IfOk result (λ s. s ≡ shown version.now) }
{
    Ok(ServedVersion {
        group: version.table.group.duplicate(alloc)?,
        version: version.table.version.duplicate(alloc)?,
        resource: version.table.resource.duplicate(alloc)?,
        kind: version.table.kind.duplicate(alloc)?,
        singular: version.singular.duplicate(alloc)?,
        namespaced: version.namespaced,
    })
}

/// The served ones among the versions, in order.
pub fn served_versions(
    alloc: Global,
    versions: &[KnownVersion],
) -> Result<Vec<ServedVersion>, Memory>
    ensures { IfOk result (λ s. s.items ≡ served_of versions.now) }
{
    let mut served = Vec::new(alloc);
    for version in versions {
        if !version.served {
            continue;
        }
        let version = shown(alloc, version)?;
        served.push(version)?;
    }
    Ok(served)
}
