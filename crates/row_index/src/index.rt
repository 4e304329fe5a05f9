use crate::keys::{list_fields, list_spells};
use crate::made::{by_id, rows_in};
use basis::Memory;
use fields::{Field, FieldRows, Spell};
use gate_flags::GateValues;
use lifecycle::ApiName;
use listing::{Listing, listed};
use minor_version::Minor;
use schemas::Accepted;
use std::alloc::Global;
use std::marker::Model;

/// An index of the fields and spellings dated at or before a release, with the values of its gates.
#[derive(Drop)]
pub struct RowIndex<'a> {
    fields: &'a [Field],
    spells: &'a [Spell],
    gates: &'a GateValues,
    e: Minor,
    fields_by_resource: Listing<'a, Field>,
    spells_by_version: Listing<'a, Spell>,
}

impl<'a> Model for RowIndex<'a> {
    ghost use Rattle.row_index.specs.Source.{RowSource};

    ghost Value = { RowSource };

    ghost use Rattle.row_index.specs.Fields.{source_of, IsIndex};

    ghost view = { source_of };

    ghost invariant = { IsIndex };
}

impl<'a> RowIndex<'a> {
    ghost use Rattle.std.specs.Prelude.{◌≡◌, IfOk};
    ghost use Rattle.lifecycle.specs.Entry.{named};
    ghost use Rattle.row_index.specs.Laws.{AreRowsOf, source_at};

    /// The index of an accepted history's fields and spellings that are dated at or before the release.
    pub fn at(
        alloc: Global,
        a: &'a Accepted,
        e: Minor,
        gates: &'a GateValues,
    ) -> Result<Self, Memory>
        ensures { IfOk result (λ index. index ≡ source_at a.now e gates.now) }
    {
        let history = a.history();
        let fields = history.fields.items();
        let spells = history.spells.items();
        let fields_by_resource = list_fields(alloc, fields, e)?;
        let spells_by_version = list_spells(alloc, spells, e)?;
        Ok(RowIndex {
            fields,
            spells,
            gates,
            e,
            fields_by_resource,
            spells_by_version,
        })
    }

    /// The rows of the version's table: the fields of its resource that it spells, in order of id.
    pub fn rows(&self, alloc: Global, name: ApiName<'a>) -> Result<FieldRows, Memory>
        ensures { IfOk result (AreRowsOf self.now (named name.entry)) }
    {
        let Some(fields) = listed(&self.fields_by_resource, name.group, name.resource, &[]) else {
            return Ok(FieldRows::new());
        };
        let Some(spells) = listed(
            &self.spells_by_version,
            name.group,
            name.version,
            name.resource,
        ) else {
            return Ok(FieldRows::new());
        };
        let fields = by_id(alloc, fields)?;
        rows_in(alloc, self.gates, spells, &fields)
    }
}
