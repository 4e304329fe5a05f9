ghost use Rattle.std.specs.Prelude.{◌≡◌, ◌↔◌, IsTrue, ◌-◌, [], ◌∷◌, ◌++◌, length, OnOk, OnErr};
ghost use Rattle.std.specs.Option.{ForSome};
ghost use Rattle.std.specs.List.{slice_get};
ghost use Rattle.fields.specs.Order.{IsBelow};
ghost use Rattle.fields.specs.Table.{IdsRise};

use crate::field::{Form, Path};
use crate::value::{FieldType, FieldValue};
use basis::{Memory, Sequence};
use minor_version::Text;
use std::alloc::Global;
use std::cmp::Ordering;
use std::marker::Model;

/// How one version of a resource spells one field, at a release.
#[derive(Debug, Drop)]
pub struct FieldRow {
    pub id: Text,
    pub ty: FieldType,
    pub required: bool,
    /// Whether the field has no gate, or the gate is on.
    pub on: bool,
    pub path: Path,
    pub form: Form,
    pub default: Option<FieldValue>,
}

/// Rows, in rising byte order of id. The empty list takes no memory.
#[derive(Debug, Drop)]
pub struct FieldRows {
    rows: Sequence<FieldRow>,
}

impl Model for FieldRows {
    ghost use Rattle.std.specs.Prelude.{List};
    ghost use Rattle.fields.specs.declared.table.FieldRow.{FieldRow};
    ghost use Rattle.fields.specs.Table.{IdsRise};

    ghost Value = { List FieldRow };

    ghost view = { λ r. r.rows };

    ghost invariant = { λ r. IdsRise r.rows };
}

impl FieldRows {
    /// No rows.
    pub fn new() -> Self
        ensures { result ≡ [] }
    {
        FieldRows {
            rows: Sequence::new(),
        }
    }

    /// Whether a row of the id may be appended: the id is above the last row's.
    pub fn can_push(&self, id: &[u8]) -> bool
        ensures { IsTrue result
            ↔ ForSome (slice_get self.now (length self.now - 1)) (λ last. IsBelow last.id id.now) }
    {
        let Some(last) = self.items().last() else {
            return true;
        };
        matches!(last.id.bytes().cmp(id), Ordering::Less)
    }

    /// Appends a row, whose id is above the last one's. Where memory runs out, the row is dropped and the list stays.
    pub fn push(&mut self, alloc: Global, row: FieldRow) -> Result<(), Memory>
        requires { ForSome (slice_get self.old (length self.old - 1))
            (λ last. IsBelow last.id row.id) }
        ensures ok { OnOk result (self.new ≡ self.old ++ row ∷ []) }
        ensures err { OnErr result (self.new ≡ self.old) }
    {
        self.rows.push(alloc, row)
    }

    /// The rows, in order.
    pub fn items(&self) -> &[FieldRow]
        ensures value { result.now ≡ self.now }
        ensures rise { IdsRise result.now }
    {
        self.rows.items()
    }
}

/// The fields of a resource, as one of its versions spells them at a release.
#[derive(Debug, Drop)]
pub struct VersionTable {
    pub group: Text,
    pub version: Text,
    pub resource: Text,
    pub kind: Text,
    pub rows: FieldRows,
}
