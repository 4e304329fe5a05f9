use basis::Sequence;
use fields::{FieldList, SpellList};
use gate_spec::GateEntry;
use lifecycle::ApiEntry;
use minor_version::Minor;
use std::marker::Model;

/// Changes of feature gates, in document order.
pub type GateList = Sequence<GateEntry>;

/// Changes of API versions, in document order.
pub type ApiList = Sequence<ApiEntry>;

/// A release history: dated entries, each list in document order, and the first and the last release of which they
/// speak. Its type keeps that all it holds has the shape of its member in a document.
#[derive(Debug, Drop)]
pub struct History {
    pub first: Option<Minor>,
    pub last: Option<Minor>,
    pub gates: GateList,
    pub apis: ApiList,
    pub fields: FieldList,
    pub spells: SpellList,
}

impl Model for History {
    ghost use Rattle.schemas.specs.Dated.{Dated};

    ghost Value = { Dated };

    ghost use Rattle.schemas.specs.Fields.{dated, IsWellShaped};

    ghost view = { dated };

    ghost invariant = { IsWellShaped };
}
