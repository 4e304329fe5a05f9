//! The place of a version in a view: by group, then from the most stable on, then by resource. A view has one version
//! at each place.
use crate::known::KnownVersion;
use std::cmp::Ordering;

impl PartialEq for KnownVersion {
    ghost use Rattle.std.specs.Cmp.{partial_equiv_from_equiv};
    ghost use Rattle.std.specs.Ordering.{eq_by_cmp};
    ghost use Rattle.release_view.specs.Known.{by_place};
    ghost use Rattle.release_view.specs.Order.{same_place};

    ghost eq = { eq_by_cmp by_place };

    ghost laws = { partial_equiv_from_equiv same_place };

    fn eq(&self, other: &KnownVersion) -> bool {
        self.cmp(other) == Ordering::Equal
    }
}

impl Eq for KnownVersion {
    ghost use Rattle.release_view.specs.Order.{same_place};

    ghost laws = { same_place };
}

impl Ord for KnownVersion {
    ghost use Rattle.std.proofs.Common.{rules};
    ghost use Rattle.std.specs.Cmp.Rules.{comparing};
    ghost use Rattle.release_view.specs.Known.{by_place};
    ghost use Rattle.release_view.specs.Order.{by_place_total};

    ghost cmp = { by_place };

    ghost total = { by_place_total };

    ghost matches_partial_cmp = { Prim.search (comparing, rules) };

    ghost matches_eq = { Prim.search (comparing, rules) };

    fn cmp(&self, other: &KnownVersion) -> Ordering {
        self.table
            .group
            .cmp(&other.table.group)
            .then(self.word.cmp(&other.word))
            .then(self.table.resource.cmp(&other.table.resource))
    }
}

impl PartialOrd for KnownVersion {
    ghost use Rattle.std.proofs.Common.{rules};
    ghost use Rattle.std.specs.Cmp.{partial_order_from_agreeing_total};
    ghost use Rattle.std.specs.Cmp.Rules.{comparing};
    ghost use Rattle.std.specs.Ordering.{as_partial_cmp};
    ghost use Rattle.release_view.specs.Known.{by_place};
    ghost use Rattle.release_view.specs.Order.{by_place_total};

    ghost partial_cmp = { as_partial_cmp by_place };

    ghost laws = { partial_order_from_agreeing_total by_place by_place_total
        (Prim.search (comparing, rules)) (Prim.search (comparing, rules)) };

    fn partial_cmp(&self, other: &KnownVersion) -> Option<Ordering> {
        Some(self.cmp(other))
    }
}
