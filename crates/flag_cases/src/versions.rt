//! Questions on versions of resources.
use crate::history::{History, group_named};
use lifecycle::{ApiEntry, ApiName, decodable_at, live_at, warning_at};
use minor_version::{Memory, Minor};
use runtime_config::{Enabled, enabled_at};
use std::alloc::Global;
use std::fmt::Write;
use version_index::VersionIndex;

fn push_served(line: &mut String, entry: &ApiEntry, enabled: &Enabled) -> Result<(), Memory> {
    if !entry.change.is_introduction() || !enabled.serves(entry.name()) {
        return Ok(());
    }
    let version = entry.version.as_str();
    let resource = entry.resource.as_str();
    match write!(line, "{version} {resource};") {
        Ok(()) => Ok(()),
        Err(_) => Err(Memory),
    }
}

fn push_all(line: &mut String, apis: &[ApiEntry], enabled: &Enabled) -> Result<(), Memory> {
    for entry in apis {
        match push_served(line, entry, enabled) {
            Ok(()) => {}
            Err(memory) => return Err(memory),
        }
    }
    Ok(())
}

fn listed(alloc: Global, apis: &[ApiEntry], enabled: &Enabled) -> Result<String, Memory> {
    let mut line = String::new(alloc);
    match push_all(&mut line, apis, enabled) {
        Ok(()) => Ok(line),
        Err(memory) => Err(memory),
    }
}

/// The versions and resources that the text leaves served, each as often as the history changes it; or the fault.
pub fn served(alloc: Global, history: &History, e: Minor, text: &str) -> Result<String, Memory> {
    match enabled_at(alloc, history.apis.items(), e, text.as_bytes()) {
        Ok(enabled) => listed(alloc, history.apis.items(), &enabled),
        Err(fault) => Ok(format!(in alloc; "{fault}")?),
    }
}

fn status(live: bool, decodable: bool) -> &'static str {
    match (live, decodable) {
        (true, true) => "live",
        (true, false) => "live and not read",
        (false, true) => "read",
        (false, false) => "gone",
    }
}

fn told(
    alloc: Global,
    status: &str,
    since: Minor,
    removal: Minor,
    replacement: &[u8],
) -> Result<String, Memory> {
    let since = since.number();
    let removal = removal.number();
    let replacement = str::from_utf8(replacement).unwrap_or("no text");
    Ok(format!(in alloc; "{status}, since {since} until {removal} for {replacement}")?)
}

fn told_alone(alloc: Global, status: &str) -> Result<String, Memory> {
    Ok(format!(in alloc; "{status}, no warning")?)
}

fn told_by_list(
    alloc: Global,
    apis: &[ApiEntry],
    name: ApiName<'_>,
    e: Minor,
) -> Result<String, Memory> {
    let status = status(live_at(apis, name, e), decodable_at(apis, name, e));
    match warning_at(apis, name, e) {
        Some(it) => told(alloc, status, it.since, it.removal, it.replacement),
        None => told_alone(alloc, status),
    }
}

fn told_by_index<'x>(
    alloc: Global,
    index: &VersionIndex<'x>,
    name: ApiName<'x>,
) -> Result<String, Memory> {
    let status = status(index.is_live(name), index.is_decodable(name));
    match index.warning(name) {
        Some(it) => told(alloc, status, it.since, it.removal, it.replacement),
        None => told_alone(alloc, status),
    }
}

fn found<'x>(
    alloc: Global,
    apis: &'x [ApiEntry],
    name: ApiName<'x>,
    e: Minor,
) -> Result<String, Memory> {
    match VersionIndex::at(alloc, apis, e) {
        Ok(index) => told_by_index(alloc, &index, name),
        Err(memory) => Err(memory),
    }
}

fn joined(alloc: Global, listed: &str, found: &str) -> Result<String, Memory> {
    Ok(format!(in alloc; "{listed}; {found}")?)
}

fn told_by_both<'x>(
    alloc: Global,
    apis: &'x [ApiEntry],
    name: ApiName<'x>,
    e: Minor,
) -> Result<String, Memory> {
    let listed = told_by_list(alloc, apis, name, e)?;
    let found = found(alloc, apis, name, e)?;
    joined(alloc, listed.as_str(), found.as_str())
}

/// `<group> <version> <resource>`: whether the version is live or read, and its warning, by the list and by the index.
pub fn known<'x>(
    alloc: Global,
    history: &'x History,
    e: Minor,
    rest: &'x str,
) -> Result<String, Memory> {
    let (group, rest) = rest.split_once(' ').unwrap_or((rest, ""));
    let (version, resource) = rest.split_once(' ').unwrap_or((rest, ""));
    let name = ApiName {
        group: group_named(group).as_bytes(),
        version: version.as_bytes(),
        resource: resource.as_bytes(),
    };
    told_by_both(alloc, history.apis.items(), name, e)
}
