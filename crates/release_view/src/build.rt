//! The view of a release, made from a history.
ghost use Rattle.std.specs.Prelude.{◌≡◌, All, IfOk, option_map};
ghost use Rattle.lifecycle.specs.Entry.{named, subject};
ghost use Rattle.lifecycle.specs.Tables.{warning};
ghost use Rattle.lifecycle.specs.Version.{IsVersion};
ghost use Rattle.release_view.specs.Known.{tables_at, deprecation, AreKnown};
ghost use Rattle.release_view.specs.Parts.{IsGathered, IsTableOf, IsVersionOf};
ghost use Rattle.release_view.specs.Spelling.{HaveLawfulTables, SpellAlike};
ghost use Rattle.release_view.specs.Views.{IsViewable, IsViewOf};

use crate::known::{KnownVersion, Planned};
use crate::release::View;
use crate::served::served_versions;
use basis::Memory;
use fields::VersionTable;
use gate_flags::GateValues;
use lifecycle::{ApiChange, ApiEntry, ApiName, version_word};
use minor_version::{Minor, Text, TextFault};
use row_index::RowIndex;
use runtime_config::Enabled;
use schemas::Accepted;
use std::alloc::Global;
use std::collections::BTreeSet;
use version_index::VersionIndex;

fn planned<'a>(
    alloc: Global,
    index: &VersionIndex<'a>,
    name: ApiName<'a>,
) -> Result<Option<Planned>, Memory>
    ensures { IfOk result (λ p. option_map deprecation p ≡ warning index.now (named name.entry)) }
{
    let Some(warning) = index.warning(name) else {
        return Ok(None);
    };
    let replacement = match Text::copy(alloc, warning.replacement) {
        Ok(replacement) => replacement,
        Err(TextFault::Memory) => return Err(Memory),
        Err(TextFault::NotUtf8) => unreachable!(),
    };
    Ok(Some(Planned {
        since: warning.since,
        removal: warning.removal,
        replacement,
    }))
}

fn table<'a>(
    alloc: Global,
    rows: &RowIndex<'a>,
    entry: &'a ApiEntry,
    kind: &Text,
) -> Result<VersionTable, Memory>
    ensures { IfOk result (IsTableOf rows.now (subject entry.now) kind.now) }
{
    let rows = rows.rows(alloc, entry.name())?;
    Ok(VersionTable {
        group: entry.group.duplicate(alloc)?,
        version: entry.version.duplicate(alloc)?,
        resource: entry.resource.duplicate(alloc)?,
        kind: kind.duplicate(alloc)?,
        rows,
    })
}

/// What the tables and the served names say of the entry's version. None where it isn't read.
fn known_version<'a>(
    alloc: Global,
    index: &VersionIndex<'a>,
    rows: &RowIndex<'a>,
    on: &Enabled,
    entry: &'a ApiEntry,
) -> Result<Option<KnownVersion>, Memory>
    requires { IsVersion entry.now.version }
    ensures { IfOk result
        (IsVersionOf (record { apis = index.now; source = rows.now }) on.now (subject entry.now)) }
{
    let name = entry.name();
    if !index.is_decodable(name) {
        return Ok(None);
    }
    let Some(word) = version_word(name.version) else {
        return Ok(None);
    };
    let Some(first) = index.introduction(name) else {
        return Ok(None);
    };
    let ApiChange::Introduced {
        kind,
        singular,
        namespaced,
        ..
    } = &first.change
    else {
        return Ok(None);
    };
    Ok(Some(KnownVersion {
        table: table(alloc, rows, entry, kind)?,
        word,
        singular: singular.duplicate(alloc)?,
        namespaced: *namespaced,
        live: index.is_live(name),
        served: on.serves(name),
        warning: planned(alloc, index, name)?,
    }))
}

/// The versions of which the entries speak and that are read, in order.
fn gathered<'a>(
    alloc: Global,
    entries: &'a [ApiEntry],
    index: &VersionIndex<'a>,
    rows: &RowIndex<'a>,
    on: &Enabled,
) -> Result<Vec<KnownVersion>, Memory>
    requires { All (λ x. IsVersion x.version) entries.now }
    ensures { IfOk result (λ v. IsGathered (record { apis = index.now; source = rows.now })
        on.now entries.now v.items) }
{
    let mut versions = BTreeSet::new(alloc);
    for entry in entries {
        let version = match known_version(alloc, index, rows, on, entry) {
            Ok(Some(version)) => version,
            Ok(None) => continue,
            Err(Memory) => return Err(Memory),
        };
        versions.insert(version)?;
    }
    let versions = versions.into_iter().collect(alloc)?;
    Ok(versions)
}

/// The versions that the release reads, in order, with the rows of their tables.
fn known_versions(
    alloc: Global,
    a: &Accepted,
    e: Minor,
    gates: &GateValues,
    on: &Enabled,
) -> Result<Vec<KnownVersion>, Memory>
    ensures known { IfOk result (λ v. AreKnown (tables_at a.now e gates.now) on.now v.items) }
    ensures lawful { IfOk result (λ v. HaveLawfulTables v.items) }
    ensures alike { IfOk result (λ v. SpellAlike v.items) }
{
    let history = a.history();
    let entries = history.apis.items();
    let index = VersionIndex::at(alloc, entries, e)?;
    let rows = RowIndex::at(alloc, a, e, gates)?;
    let versions = gathered(alloc, entries, &index, &rows, on)?;
    Ok(versions)
}

/// The view of the release e, with the values of its gates and the versions that it serves.
pub fn view_at(
    alloc: Global,
    a: &Accepted,
    e: Minor,
    gates: GateValues,
    on: Enabled,
) -> Result<View, Memory>
    requires { IsViewable a.now e gates on }
    ensures { IfOk result (IsViewOf a.now e gates on) }
{
    let versions = known_versions(alloc, a, e, &gates, &on)?;
    let served = served_versions(alloc, &versions)?;
    Ok(View::new(e, gates, versions, served))
}
