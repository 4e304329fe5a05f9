//! The rules on spellings: for each, the number of the first entry that breaks it.
ghost use Rattle.std.specs.Prelude.{◌≡◌, ◌↔◌, List, IsTrue, IfOk, All};
ghost use Rattle.fields.specs.declared.field.Spell.{Spell as TheSpell};
ghost use Rattle.schemas.specs.Places.{FindsFirst};
ghost use Rattle.listing.specs.Keys.{version_of_spell};
ghost use Rattle.listing.specs.Listing.{IsListing};
ghost use Rattle.schemas.specs.Pairs.{AreForOneVersion, AreOfOnePair};
ghost use Rattle.fields.specs.Table.{AreApart};
ghost use Rattle.schemas.specs.SpellRules.{SpellsPairOnce, HasOwnPath, FitsField};

use crate::entries::{has_spelling, is_apart_from};
use crate::index::Index;
use crate::keys::take_spell;
use basis::Memory;
use fields::{Spell, begins_free};
use listing::{Listing, listed};
use std::alloc::Global;
use std::collections::BTreeMap;

fn is_single<'a>(earlier: &Listing<'a, Spell>, spell: &'a Spell) -> bool
    ensures { (spells : List TheSpell) → IsListing version_of_spell spells earlier.now
        → IsTrue result ↔ All (λ t. ¬ AreOfOnePair spell.now t) spells }
{
    let group = spell.group.bytes();
    let version = spell.version.bytes();
    let resource = spell.resource.bytes();
    !has_spelling(listed(earlier, group, version, resource), &spell.field)
}

fn spells_pair_once<'a>(index: &Index<'a>, earlier: &Listing<'a, Spell>, spell: &'a Spell) -> bool
    ensures { (spells : List TheSpell) → IsListing version_of_spell spells earlier.now
        → IsTrue result ↔ SpellsPairOnce index.now.apis index.now.fields spells spell.now }
{
    index.is_paired(spell) && is_single(earlier, spell)
}

/// The first spelling that isn't of a pair, has another date, or is a second one (HR14).
pub fn first_unpaired<'a>(
    alloc: Global,
    index: &Index<'a>,
    spells: &'a [Spell],
) -> Result<Option<u64>, Memory>
    ensures { IfOk result (FindsFirst (SpellsPairOnce index.now.apis index.now.fields) spells.now) }
{
    let mut earlier: Listing<'a, Spell> = BTreeMap::new(alloc);
    for (i, spell) in spells.iter().enumerate() {
        if !spells_pair_once(index, &earlier, spell) {
            return Ok(Some(i as u64 + 1));
        }
        take_spell(alloc, &mut earlier, spell)?;
    }
    Ok(None)
}

fn is_apart<'a>(earlier: &Listing<'a, Spell>, spell: &'a Spell) -> bool
    ensures { (spells : List TheSpell) → IsListing version_of_spell spells earlier.now
        → IsTrue result
        ↔ All (λ t. AreForOneVersion spell.now t → AreApart spell.now.path t.path) spells }
{
    let group = spell.group.bytes();
    let version = spell.version.bytes();
    let resource = spell.resource.bytes();
    is_apart_from(listed(earlier, group, version, resource), spell)
}

fn has_own_path<'a>(earlier: &Listing<'a, Spell>, spell: &'a Spell) -> bool
    ensures { (spells : List TheSpell) → IsListing version_of_spell spells earlier.now
        → IsTrue result ↔ HasOwnPath spells spell.now }
{
    begins_free(spell.path.items()) && is_apart(earlier, spell)
}

/// The first spelling whose path begins at a member that each object has, or meets an earlier one of its version (HR15).
pub fn first_met_path(alloc: Global, spells: &[Spell]) -> Result<Option<u64>, Memory>
    ensures { IfOk result (FindsFirst HasOwnPath spells.now) }
{
    let mut earlier: Listing<'_, Spell> = BTreeMap::new(alloc);
    for (i, spell) in spells.iter().enumerate() {
        if !has_own_path(&earlier, spell) {
            return Ok(Some(i as u64 + 1));
        }
        take_spell(alloc, &mut earlier, spell)?;
    }
    Ok(None)
}

/// The first spelling whose form or default doesn't fit the field's type (HR16).
pub fn first_unfit<'a>(index: &Index<'a>, spells: &'a [Spell]) -> Option<u64>
    ensures { FindsFirst (FitsField index.now.fields) spells.now result }
{
    for (i, spell) in spells.iter().enumerate() {
        if !index.fits_field(spell) {
            return Some(i as u64 + 1);
        }
    }
    None
}
