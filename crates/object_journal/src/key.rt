ghost use Rattle.std.specs.Prelude.{◌≡◌, IfOk};

use minor_version::{Memory, Text};
use std::alloc::Global;
use std::cmp::Ordering;

/// What an object is stored under. Keys are ordered by their fields, in this order, by bytes.
#[derive(Debug, Drop)]
pub struct Key {
    pub group: Text,
    pub resource: Text,
    pub namespace: Text,
    pub name: Text,
}

impl Key {
    /// A copy of the key.
    pub fn duplicate(&self, alloc: Global) -> Result<Self, Memory>
        ensures { IfOk result (λ k. k ≡ self.now) }
    {
        Ok(Key {
            group: self.group.duplicate(alloc)?,
            resource: self.resource.duplicate(alloc)?,
            namespace: self.namespace.duplicate(alloc)?,
            name: self.name.duplicate(alloc)?,
        })
    }
}

impl PartialEq for Key {
    ghost use Rattle.std.proofs.Common.{rules};
    ghost use Rattle.std.specs.Cmp.Rules.{comparing};
    ghost use Rattle.object_journal.specs.KeyOrder.{is_same_key};

    ghost eq = { is_same_key };

    ghost laws = { Prim.search (comparing, rules) };

    fn eq(&self, other: &Key) -> bool {
        self.group == other.group
            && self.resource == other.resource
            && self.namespace == other.namespace
            && self.name == other.name
    }
}

impl Eq for Key {
    ghost use Rattle.std.proofs.Common.{rules};
    ghost use Rattle.std.specs.Cmp.Rules.{comparing};

    ghost laws = { Prim.search (comparing, rules) };
}

impl Ord for Key {
    ghost use Rattle.std.proofs.Common.{rules};
    ghost use Rattle.std.specs.Cmp.Rules.{comparing};
    ghost use Rattle.object_journal.specs.KeyOrder.{by_key};

    ghost cmp = { by_key };

    ghost total = { Prim.search (comparing, rules) };

    ghost matches_partial_cmp = { Prim.search (comparing, rules) };

    ghost matches_eq = { Prim.search (comparing, rules) };

    fn cmp(&self, other: &Key) -> Ordering {
        self.group
            .cmp(&other.group)
            .then(self.resource.cmp(&other.resource))
            .then(self.namespace.cmp(&other.namespace))
            .then(self.name.cmp(&other.name))
    }
}

impl PartialOrd for Key {
    ghost use Rattle.std.proofs.Common.{rules};
    ghost use Rattle.std.specs.Cmp.{partial_order_from_agreeing_total};
    ghost use Rattle.std.specs.Cmp.Rules.{comparing};
    ghost use Rattle.std.specs.Ordering.{as_partial_cmp};
    ghost use Rattle.object_journal.specs.KeyOrder.{by_key};

    ghost partial_cmp = { as_partial_cmp by_key };

    ghost laws = { partial_order_from_agreeing_total by_key (Prim.search (comparing, rules)) (Prim.search (comparing, rules)) (Prim.search (comparing, rules)) };

    fn partial_cmp(&self, other: &Key) -> Option<Ordering> {
        Some(self.cmp(other))
    }
}
