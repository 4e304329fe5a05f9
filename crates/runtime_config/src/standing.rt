//! What is best of the versions that a key names.
ghost use Rattle.std.specs.Prelude.{◌≡◌, IfOk, OnOk};
ghost use Rattle.std.specs.List.{AllByRecursion};
ghost use Rattle.std.specs.Ordering.{nat_cmp};
ghost use Rattle.std.specs.Cmp.Lexicographic.{slice_cmp};
ghost use Rattle.std.specs.BTreeMap.{get};
ghost use Rattle.runtime_config.specs.Rows.{HasItsKeys, entries_of};
ghost use Rattle.runtime_config.specs.Standings.{HasStandings};
ghost use Rattle.runtime_config.specs.Merges.{better, merged, own_standing, Raises, TakesIn};

use crate::keys::Row;
use basis::Memory;
use flag_text::Name;
use lifecycle::ApiEntry;
use minor_version::Minor;
use std::alloc::Global;
use std::collections::BTreeMap;
use version_index::VersionIndex;

/// What is best of the versions that a key names, at a release.
#[derive(Clone, Copy, Debug, PartialEq, Eq)]
pub enum Standing {
    /// The history speaks of one.
    Later,
    /// One was introduced by then.
    Gone,
    /// One is live.
    Live,
}

/// Standings, by key.
pub type Standings<'a> = BTreeMap<Name<'a>, Standing>;

/// What the entry says of its version.
fn own_standing<'a>(index: &VersionIndex<'a>, entry: &'a ApiEntry, e: Minor) -> Standing
    ensures { result ≡ own_standing index.now e entry.now }
{
    if entry.since > e {
        Standing::Later
    } else if index.is_live(entry.name()) {
        Standing::Live
    } else if entry.change.is_introduction() {
        Standing::Gone
    } else {
        Standing::Later
    }
}

/// The better of the two.
fn better(a: Standing, b: Standing) -> Standing
    ensures { result ≡ better a b }
{
    match (a, b) {
        (Standing::Live, _) | (_, Standing::Live) => Standing::Live,
        (Standing::Gone, _) | (_, Standing::Gone) => Standing::Gone,
        (Standing::Later, Standing::Later) => Standing::Later,
    }
}

/// The standing of the key.
pub fn standing_in<'a>(known: &Standings<'a>, key: &'a [u8]) -> Option<Standing>
    ensures { result ≡ get (slice_cmp nat_cmp) known.now key.now }
{
    known.get(&Name { bytes: key }).copied()
}

/// Raises the standing of the key to this one, where it isn't better already.
fn raise<'a>(known: &mut Standings<'a>, key: &'a [u8], own: Standing) -> Result<(), Memory>
    ensures { OnOk result (Raises known.old known.new key.now own) }
{
    let standing = match standing_in(known, key) {
        Some(standing) => better(standing, own),
        None => own,
    };
    match known.insert(Name { bytes: key }, standing) {
        Ok(_) => Ok(()),
        Err(_) => Err(Memory),
    }
}

/// Takes in what the row's entry says of the row's keys.
fn take_in<'k>(known: &mut Standings<'k>, row: &'k Row<'_>, own: Standing) -> Result<(), Memory>
    ensures { OnOk result (TakesIn known.old known.new row.now own) }
{
    raise(known, row.version.as_bytes(), own)?;
    raise(known, row.resource.as_bytes(), own)
}

/// The standing of each key that names a version of the history.
pub fn standings<'k, 'a>(
    alloc: Global,
    index: &VersionIndex<'a>,
    rows: &'k [Row<'a>],
    e: Minor,
) -> Result<Standings<'k>, Memory>
    requires { AllByRecursion HasItsKeys rows.now }
    ensures { IfOk result (HasStandings index.now e (entries_of rows.now)) }
{
    let mut known: Standings<'k> = BTreeMap::new(alloc);
    for row in rows {
        take_in(&mut known, row, own_standing(index, row.entry, e))?;
    }
    Ok(known)
}
