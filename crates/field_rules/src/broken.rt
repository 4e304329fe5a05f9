ghost use Rattle.std.specs.Prelude.{◌≡◌, IfOk};
ghost use Rattle.schemas.specs.Rules.{field_checks, FindsFault};
ghost use Rattle.field_rules.specs.Lists.{lists};

use crate::index::Index;
use crate::on_fields::{
    first_misplaced, first_unfairly_required, first_unspelled, first_with_unknown_gate,
};
use crate::on_spellings::{first_met_path, first_unfit, first_unpaired};
use basis::Memory;
use fields::{Field, Spell};
use gate_spec::GateEntry;
use lifecycle::ApiEntry;
use minor_version::Minor;
use schemas::{Array, Broken};
use std::alloc::Global;

fn broken_by_field(rule: u8, index: u64) -> Result<Option<Broken>, Memory>
    ensures { result ≡ Ok (Some (record { rule = rule; array = Array.Field; index = index })) }
{
    Ok(Some(Broken {
        rule,
        array: Array::Field,
        index,
    }))
}

fn broken_by_spell(rule: u8, index: u64) -> Result<Option<Broken>, Memory>
    ensures { result ≡ Ok (Some (record { rule = rule; array = Array.Spell; index = index })) }
{
    Ok(Some(Broken {
        rule,
        array: Array::Spell,
        index,
    }))
}

/// The lowest of the rules HR11 to HR16 that the fields and spellings of a history break, at the first entry that breaks
/// it, or none where they keep them all. It is fast where the history keeps HR3 and HR6: then it takes the time of some
/// passes over the entries.
pub fn first_broken(
    alloc: Global,
    first: Minor,
    gates: &[GateEntry],
    apis: &[ApiEntry],
    fields: &[Field],
    spells: &[Spell],
) -> Result<Option<Broken>, Memory>
    ensures { IfOk result
        (FindsFault (lists first gates.now apis.now fields.now spells.now) field_checks) }
{
    let index = Index::new(alloc, first, gates, apis, fields, spells)?;
    match first_misplaced(alloc, &index, fields) {
        Ok(Some(number)) => return broken_by_field(11, number),
        Ok(None) => {}
        Err(Memory) => return Err(Memory),
    }
    if let Some(number) = first_unfairly_required(&index, fields) {
        return broken_by_field(12, number);
    }
    if let Some(number) = first_with_unknown_gate(&index, fields) {
        return broken_by_field(13, number);
    }
    if let Some(number) = first_unspelled(&index, fields) {
        return broken_by_field(14, number);
    }
    match first_unpaired(alloc, &index, spells) {
        Ok(Some(number)) => return broken_by_spell(14, number),
        Ok(None) => {}
        Err(Memory) => return Err(Memory),
    }
    match first_met_path(alloc, spells) {
        Ok(Some(number)) => return broken_by_spell(15, number),
        Ok(None) => {}
        Err(Memory) => return Err(Memory),
    }
    if let Some(number) = first_unfit(&index, spells) {
        return broken_by_spell(16, number);
    }
    Ok(None)
}
