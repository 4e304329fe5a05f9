//! The keys by which a text can name the version of an entry.
ghost use Rattle.std.specs.Prelude.{◌≡◌, ◌++◌, IfOk, codes, string_bytes};
ghost use Rattle.lifecycle.specs.Entry.{subject};
ghost use Rattle.lifecycle.specs.Names.{group_version};
ghost use Rattle.runtime_config.specs.Keys.{is_api_key, level_key, version_key, resource_key};
ghost use Rattle.runtime_config.specs.Rows.{AreRowsOf};

use basis::Memory;
use lifecycle::{ApiEntry, Level};
use std::alloc::{AllocError, Global};

/// The key of all versions.
pub const ALL: &[u8] = b"api/all";

/// An entry with the keys that name its version: that of the version, and that of the one resource in it.
#[derive(Drop)]
pub struct Row<'a> {
    pub entry: &'a ApiEntry,
    pub version: String,
    pub resource: String,
}

/// Whether the key is one of the four that every release takes.
pub fn is_api_key(key: &[u8]) -> bool
    ensures { result ≡ is_api_key key.now }
{
    key == ALL
        || key == b"api/ga".as_slice()
        || key == b"api/beta".as_slice()
        || key == b"api/alpha".as_slice()
}

/// The key of the versions of a level.
pub fn level_key(level: Level) -> &'static [u8]
    ensures { result.now ≡ level_key level }
{
    match level {
        Level::Ga => b"api/ga",
        Level::Beta(_) => b"api/beta",
        Level::Alpha(_) => b"api/alpha",
    }
}

fn with_slash(alloc: Global, front: &str, back: &str) -> Result<String, AllocError>
    ensures { IfOk result (λ s. string_bytes s ≡ front.now ++ codes "/" ++ back.now) }
{
    format!(in alloc; "{front}/{back}")
}

fn joined(alloc: Global, group: &str, version: &str) -> Result<String, AllocError>
    ensures { IfOk result (λ s. string_bytes s ≡ group_version group.now version.now) }
{
    if group.is_empty() {
        String::from_str(alloc, version)
    } else {
        with_slash(alloc, group, version)
    }
}

/// The key of the entry's version.
pub fn version_key(alloc: Global, entry: &ApiEntry) -> Result<String, AllocError>
    ensures { IfOk result (λ s. string_bytes s ≡ version_key (subject entry.now)) }
{
    joined(alloc, entry.group.as_str(), entry.version.as_str())
}

/// The key of the entry's resource in its version.
pub fn resource_key(alloc: Global, entry: &ApiEntry) -> Result<String, AllocError>
    ensures { IfOk result (λ s. string_bytes s ≡ resource_key (subject entry.now)) }
{
    let version = version_key(alloc, entry)?;
    with_slash(alloc, version.as_str(), entry.resource.as_str())
}

/// The entries with their keys.
pub fn rows<'a>(alloc: Global, entries: &'a [ApiEntry]) -> Result<Vec<Row<'a>>, Memory>
    ensures { IfOk result (λ rows. AreRowsOf entries.now rows.items) }
{
    let mut rows = Vec::new(alloc);
    for entry in entries {
        let version = version_key(alloc, entry)?;
        let resource = resource_key(alloc, entry)?;
        let row = Row {
            entry,
            version,
            resource,
        };
        rows.push(row)?;
    }
    Ok(rows)
}
