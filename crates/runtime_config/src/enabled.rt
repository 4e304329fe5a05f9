ghost use Rattle.std.specs.Prelude.{◌≡◌, ◌↔◌, IsTrue, Contains};
ghost use Rattle.lifecycle.specs.Entry.{named};
ghost use Rattle.runtime_config.specs.Served.{AreInOrder, by_name};

use lifecycle::ApiName;
use minor_version::Text;
use std::cmp::Ordering;
use std::marker::Model;

/// A version of a resource, by its three texts.
#[derive(Debug, Drop)]
pub struct ServedName {
    pub group: Text,
    pub version: Text,
    pub resource: Text,
}

impl Model for ServedName {
    ghost use Rattle.lifecycle.specs.Entry.{GroupVersionResource};
    ghost use Rattle.runtime_config.specs.Served.{name_of};

    ghost Value = { GroupVersionResource };

    ghost view = { name_of };
}

/// The versions that a release serves, seen as the list of their names in order of bytes.
#[derive(Debug, Drop)]
pub struct Enabled {
    names: Vec<ServedName>,
}

impl Model for Enabled {
    ghost use Rattle.std.specs.Prelude.{List};
    ghost use Rattle.lifecycle.specs.Entry.{GroupVersionResource};
    ghost use Rattle.runtime_config.specs.Served.{AreInOrder};

    ghost Value = { List GroupVersionResource };

    ghost view = { λ e. e.names.items };

    ghost invariant = { λ e. AreInOrder e.names.items };
}

impl PartialEq for ServedName {
    ghost use Rattle.std.proofs.Common.{rules};
    ghost use Rattle.std.specs.Cmp.Rules.{comparing};
    ghost use Rattle.runtime_config.specs.Served.{is_same_name};

    ghost eq = { is_same_name };

    ghost laws = { Prim.search (comparing, rules) };

    fn eq(&self, other: &ServedName) -> bool {
        self.group == other.group
            && self.version == other.version
            && self.resource == other.resource
    }
}

impl Eq for ServedName {
    ghost use Rattle.std.proofs.Common.{rules};
    ghost use Rattle.std.specs.Cmp.Rules.{comparing};

    ghost laws = { Prim.search (comparing, rules) };
}

impl Ord for ServedName {
    ghost use Rattle.std.proofs.Common.{rules};
    ghost use Rattle.std.specs.Cmp.Rules.{comparing};
    ghost use Rattle.runtime_config.specs.Served.{by_name};

    ghost cmp = { by_name };

    ghost total = { Prim.search (comparing, rules) };

    ghost matches_partial_cmp = { Prim.search (comparing, rules) };

    ghost matches_eq = { Prim.search (comparing, rules) };

    fn cmp(&self, other: &ServedName) -> Ordering {
        self.group
            .cmp(&other.group)
            .then(self.version.cmp(&other.version))
            .then(self.resource.cmp(&other.resource))
    }
}

impl PartialOrd for ServedName {
    ghost use Rattle.std.proofs.Common.{rules};
    ghost use Rattle.std.specs.Cmp.{partial_order_from_agreeing_total};
    ghost use Rattle.std.specs.Cmp.Rules.{comparing};
    ghost use Rattle.std.specs.Ordering.{as_partial_cmp};
    ghost use Rattle.runtime_config.specs.Served.{by_name};

    ghost partial_cmp = { as_partial_cmp by_name };

    ghost laws = { partial_order_from_agreeing_total by_name
        (Prim.search (comparing, rules)) (Prim.search (comparing, rules))
        (Prim.search (comparing, rules)) };

    fn partial_cmp(&self, other: &ServedName) -> Option<Ordering> {
        Some(self.cmp(other))
    }
}

impl ServedName {
    fn compared(&self, name: ApiName<'_>) -> Ordering
        ensures { result ≡ by_name self.now (named name.entry) }
    {
        self.group
            .bytes()
            .cmp(&name.group)
            .then(self.version.bytes().cmp(&name.version))
            .then(self.resource.bytes().cmp(&name.resource))
    }
}

impl Enabled {
    // The names are in order of bytes.
    pub(crate) fn new(names: Vec<ServedName>) -> Enabled
        requires { AreInOrder names.items }
        ensures { result ≡ names.items }
    {
        Enabled { names }
    }

    /// Whether the version is served: live at the release and switched on.
    pub fn serves(&self, name: ApiName<'_>) -> bool
        ensures { IsTrue result ↔ Contains self.now (named name.entry) }
    {
        is_among(self.names.as_slice(), name)
    }
}

// Whether the name is among names in order.
fn is_among(names: &[ServedName], name: ApiName<'_>) -> bool
    requires { AreInOrder names.now }
    ensures { IsTrue result ↔ Contains names.now (named name.entry) }
{
    match names.binary_search_by(|served| served.compared(name)) {
        Ok(_) => true,
        Err(_) => false,
    }
}
