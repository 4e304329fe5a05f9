//! The versions that a text leaves served.
ghost use Rattle.std.specs.Prelude.{◌≡◌, ◌↔◌, IsTrue, IfOk};
ghost use Rattle.std.specs.List.{AllByRecursion};
ghost use Rattle.lifecycle.specs.Entry.{named, subject};
ghost use Rattle.runtime_config.specs.Rows.{HasItsKeys, entries_of};
ghost use Rattle.runtime_config.specs.Config.{HasWord, enables, enabled_by_default};
ghost use Rattle.runtime_config.specs.Serving.{level_in, IsSwitched, IsOnIn, AreNamesOn};

use crate::enabled::ServedName;
use crate::keys::{ALL, Row, level_key};
use basis::Memory;
use flag_text::{Name, said_in};
use lifecycle::{ApiChange, ApiEntry, ApiName, VersionWord, version_word};
use std::alloc::Global;
use std::collections::{BTreeMap, BTreeSet};
use version_index::VersionIndex;

/// What the last pieces say, by key.
pub type Booleans<'a> = BTreeMap<Name<'a>, Option<bool>>;

fn enables(change: &ApiChange) -> bool
    ensures { result ≡ enables change.now }
{
    match change {
        ApiChange::Introduced { enabled, .. } => *enabled,
        ApiChange::Deprecated { .. } => false,
        ApiChange::Removed => false,
        ApiChange::Forgotten => false,
    }
}

fn is_enabled<'a>(index: &VersionIndex<'a>, name: ApiName<'a>) -> bool
    ensures { result ≡ enabled_by_default index.now (named name.entry) }
{
    match index.introduction(name) {
        Some(entry) => enables(&entry.change),
        None => false,
    }
}

fn word_of(text: &[u8]) -> Option<VersionWord>
    ensures { HasWord text.now result }
{
    version_word(text)
}

fn level_in<'a>(booleans: &Booleans<'a>, word: Option<VersionWord>) -> Option<bool>
    ensures { result ≡ level_in booleans.now word }
{
    match word {
        Some(word) => said_in(booleans, level_key(word.level)),
        None => None,
    }
}

/// Whether the most specific given key that names the version with this text switches it on.
fn is_switched_on<'a>(
    booleans: &Booleans<'a>,
    text: &[u8],
    resource: &'a [u8],
    version: &'a [u8],
    enabled: bool,
) -> bool
    ensures { IsSwitched booleans.now text.now resource.now version.now enabled result }
{
    let all = said_in(booleans, ALL).unwrap_or(enabled);
    let level = level_in(booleans, word_of(text)).unwrap_or(all);
    let version = said_in(booleans, version).unwrap_or(level);
    said_in(booleans, resource).unwrap_or(version)
}

/// Whether the version of the row is live and switched on.
fn is_on<'k, 'a>(index: &VersionIndex<'a>, booleans: &Booleans<'k>, row: &'k Row<'a>) -> bool
    requires { HasItsKeys row.now }
    ensures { IsTrue result ↔ IsOnIn index.now booleans.now (subject row.now.entry.now) }
{
    let name = row.entry.name();
    index.is_live(name)
        && is_switched_on(
            booleans,
            name.version,
            row.resource.as_bytes(),
            row.version.as_bytes(),
            is_enabled(index, name),
        )
}

fn owned(alloc: Global, entry: &ApiEntry) -> Result<ServedName, Memory>
    ensures { IfOk result (λ name. name ≡ subject entry.now) }
{
    Ok(ServedName {
        group: entry.group.duplicate(alloc)?,
        version: entry.version.duplicate(alloc)?,
        resource: entry.resource.duplicate(alloc)?,
    })
}

fn name_set<'k, 'a>(
    alloc: Global,
    index: &VersionIndex<'a>,
    booleans: &Booleans<'k>,
    rows: &'k [Row<'a>],
) -> Result<BTreeSet<ServedName>, Memory>
    requires { AllByRecursion HasItsKeys rows.now }
    ensures { IfOk result
        (λ set. AreNamesOn index.now booleans.now (entries_of rows.now) set.keys) }
{
    let mut set = BTreeSet::new(alloc);
    for row in rows {
        if is_on(index, booleans, row) {
            let name = owned(alloc, row.entry)?;
            set.insert(name)?;
        }
    }
    Ok(set)
}

/// The names of the versions that are live and switched on, in order of bytes.
pub fn names_on<'k, 'a>(
    alloc: Global,
    index: &VersionIndex<'a>,
    booleans: &Booleans<'k>,
    rows: &'k [Row<'a>],
) -> Result<Vec<ServedName>, Memory>
    requires { AllByRecursion HasItsKeys rows.now }
    ensures { IfOk result
        (λ names. AreNamesOn index.now booleans.now (entries_of rows.now) names.items) }
{
    let set = name_set(alloc, index, booleans, rows)?;
    let names = set.into_iter().collect(alloc)?;
    Ok(names)
}
