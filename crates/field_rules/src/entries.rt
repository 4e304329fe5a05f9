//! Questions to a few entries.
ghost use Rattle.std.specs.Prelude.{◌↔◌, ◌≤◌, ◌≡◌, IsTrue, max, length};
ghost use Rattle.lifecycle.specs.Entry.{IsIntroduction};
ghost use Rattle.schemas.specs.ApiRules.{IsForgetting};
ghost use Rattle.listing.specs.Listing.{lent_in, HasLent, EachLent};
ghost use Rattle.fields.specs.Table.{AreApart};
ghost use Rattle.schemas.specs.SpellRules.{FitsType};

use crate::types::fits_type;
use fields::{Field, Spell, are_apart};
use gate_spec::GateEntry;
use lifecycle::{ApiChange, ApiEntry};
use minor_version::{Minor, Text};

/// Whether the change is an introduction.
pub fn is_introduction(change: &ApiChange) -> bool
    ensures { IsTrue result ↔ IsIntroduction change.now }
{
    matches!(change, ApiChange::Introduced { .. })
}

fn is_forgetting(change: &ApiChange) -> bool
    ensures { IsTrue result ↔ IsForgetting change.now }
{
    matches!(change, ApiChange::Forgotten)
}

/// Whether one of the entries is an introduction by this release.
pub fn has_introduction_by(entries: Option<&Vec<&ApiEntry>>, by: Minor) -> bool
    ensures { IsTrue result
        ↔ HasLent (λ x. IsIntroduction x.change × (x.since ≤ by)) entries.entry }
{
    match entries {
        Some(entries) => {
            entries
                .iter()
                .any(|x| is_introduction(&x.change) && x.since <= by)
        }
        None => false,
    }
}

/// Whether each introduction among the entries is dated at or after this release.
pub fn are_introduced_since(entries: Option<&Vec<&ApiEntry>>, since: Minor) -> bool
    ensures { IsTrue result
        ↔ EachLent (λ x. IsIntroduction x.change → since ≤ x.since) entries.entry }
{
    match entries {
        Some(entries) => {
            entries
                .iter()
                .all(|x| !is_introduction(&x.change) || since <= x.since)
        }
        None => true,
    }
}

/// Whether one of the entries is a forgetting by this release.
pub fn has_forgetting_by(entries: Option<&Vec<&ApiEntry>>, by: Minor) -> bool
    ensures { IsTrue result ↔ HasLent (λ x. IsForgetting x.change × (x.since ≤ by)) entries.entry }
{
    match entries {
        Some(entries) => {
            entries
                .iter()
                .any(|x| is_forgetting(&x.change) && x.since <= by)
        }
        None => false,
    }
}

/// Whether one of the entries is an introduction so that the later of it and of the field's date is this date.
pub fn has_introduction_for(entries: Option<&Vec<&ApiEntry>>, field: Minor, date: Minor) -> bool
    ensures { IsTrue result
        ↔ HasLent (λ x. IsIntroduction x.change × (date ≡ max field x.since)) entries.entry }
{
    match entries {
        Some(entries) => {
            entries.iter().any(|x| is_introduction(&x.change) && date == field.max(x.since))
        }
        None => false,
    }
}

/// Whether one of the entries of a gate is dated by this release.
pub fn has_gate_by(entries: Option<&Vec<&GateEntry>>, by: Minor) -> bool
    ensures { IsTrue result ↔ HasLent (λ x. x.since ≤ by) entries.entry }
{
    match entries {
        Some(entries) => entries.iter().any(|x| x.since <= by),
        None => false,
    }
}

/// Whether one of the fields has this id.
pub fn has_field(entries: Option<&Vec<&Field>>, id: &Text) -> bool
    ensures { IsTrue result ↔ HasLent (λ x. x.id ≡ id.now) entries.entry }
{
    match entries {
        Some(entries) => entries.iter().any(|x| x.id == *id),
        None => false,
    }
}

/// Whether one of the spellings is of a field with this id.
pub fn has_spelling(entries: Option<&Vec<&Spell>>, id: &Text) -> bool
    ensures { IsTrue result ↔ HasLent (λ x. x.field ≡ id.now) entries.entry }
{
    match entries {
        Some(entries) => entries.iter().any(|x| x.field == *id),
        None => false,
    }
}

/// How many fields these are.
pub fn count(entries: Option<&Vec<&Field>>) -> usize
    ensures { result ≡ length (lent_in entries.entry) }
{
    match entries {
        Some(entries) => entries.len(),
        None => 0,
    }
}

fn have_paths_apart(spell: &Spell, other: &Spell) -> bool
    ensures { IsTrue result ↔ AreApart spell.now.path other.now.path }
{
    are_apart(spell.path.items(), other.path.items())
}

/// Whether the spelling's path is apart from those of the spellings.
pub fn is_apart_from(entries: Option<&Vec<&Spell>>, spell: &Spell) -> bool
    ensures { IsTrue result ↔ EachLent (λ x. AreApart spell.now.path x.path) entries.entry }
{
    match entries {
        Some(entries) => entries.iter().all(|x| have_paths_apart(spell, x)),
        None => true,
    }
}

/// Whether the spelling fits each of the fields that has its id.
pub fn fits_fields(entries: Option<&Vec<&Field>>, spell: &Spell) -> bool
    ensures { IsTrue result
        ↔ EachLent (λ x. x.id ≡ spell.now.field
        → FitsType x.ty spell.now.form spell.now.default) entries.entry }
{
    match entries {
        Some(entries) => {
            entries
                .iter()
                .all(|x| x.id != spell.field || fits_type(x.ty, spell))
        }
        None => true,
    }
}
