use minor_version::{Minor, Text};

/// What happens to a version of a resource.
#[derive(Debug, Drop)]
pub enum ApiChange {
    /// The version appears, and is served by default where it is `enabled`.
    Introduced {
        kind: Text,
        singular: Text,
        namespaced: bool,
        enabled: bool,
    },
    /// The version's removal is planned, in favour of the `replacement` of the same resource.
    Deprecated {
        removal: Minor,
        replacement: Text,
    },
    /// The version is served no more. Stored objects in it are still read.
    Removed,
    /// Objects in the version aren't read any more.
    Forgotten,
}

/// A change of a version of a resource, dated by the release since which it holds.
#[derive(Debug, Drop)]
pub struct ApiEntry {
    pub group: Text,
    pub version: Text,
    pub resource: Text,
    pub since: Minor,
    pub change: ApiChange,
}

/// A version of a resource. The core group's name is empty.
#[derive(Clone, Copy, Debug)]
pub struct ApiName<'a> {
    pub group: &'a [u8],
    pub version: &'a [u8],
    pub resource: &'a [u8],
}

impl ApiEntry {
    ghost use Rattle.std.specs.Prelude.{◌≡◌};
    ghost use Rattle.lifecycle.specs.Entry.{named, subject};

    /// The version of which the entry speaks.
    pub fn name(&self) -> ApiName<'_>
        ensures { named result ≡ subject self.now }
    {
        ApiName {
            group: self.group.bytes(),
            version: self.version.bytes(),
            resource: self.resource.bytes(),
        }
    }
}
