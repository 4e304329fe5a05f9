//! Objects that are read in one version and shown in another.
use crate::rows::table_of;
use basis::Memory;
use conversion::{
    Mode, ReadFault, fault_text, fits, has_float, object_of, read_fields, show_fields, taken,
    whole_object,
};
use fields::{Fields, VersionTable};
use serde_json::Value;
use std::alloc::Global;

/// How an object is read, and whether it is shown with its metadata.
#[derive(Clone, Copy)]
pub(crate) struct Reading {
    pub(crate) mode: Mode,
    pub(crate) is_whole: bool,
}

/// A record of a store, without its metadata.
pub(crate) const STORED: Reading = Reading {
    mode: Mode::Stored,
    is_whole: false,
};

/// A body, without its metadata.
pub(crate) const BODY: Reading = Reading {
    mode: Mode::Body,
    is_whole: false,
};

/// A body, with its metadata.
pub(crate) const WHOLE: Reading = Reading {
    mode: Mode::Body,
    is_whole: true,
};

/// Whether the text is that of a JSON object.
pub(crate) fn is_object(alloc: Global, text: &str) -> Result<bool, Memory> {
    match object_of(alloc, text.as_bytes()) {
        Ok(json) => Ok(json.is_some()),
        Err(memory) => Err(memory),
    }
}

fn said(alloc: Global, text: &str) -> Result<String, Memory> {
    Ok(String::from_str(alloc, text)?)
}

fn json_text(alloc: Global, json: Result<Value, Memory>) -> Result<String, Memory> {
    match json {
        Ok(json) => Ok(json.to_string(alloc)?),
        Err(memory) => Err(memory),
    }
}

fn fields_shown(alloc: Global, to: &VersionTable, fields: &Fields) -> Result<String, Memory> {
    if !to.rows.are_lawful() || !fits(to, fields) {
        return said(alloc, "no fields of the other version");
    }
    json_text(alloc, show_fields(alloc, to, fields))
}

// The name of the version, with its group.
fn version_of(alloc: Global, table: &VersionTable) -> Result<String, Memory> {
    let group = table.group.as_str();
    let version = table.version.as_str();
    Ok(format!(in alloc; "{group}/{version}")?)
}

// The whole object, with the metadata that it had.
fn whole_shown(
    alloc: Global,
    to: &VersionTable,
    fields: &Fields,
    json: Value,
) -> Result<String, Memory> {
    if !to.rows.are_lawful() || !fits(to, fields) {
        return said(alloc, "no fields of the other version");
    }
    if json
        .get("metadata")
        .is_some_and(|metadata| has_float(metadata))
    {
        return said(alloc, "no whole metadata");
    }
    let version = version_of(alloc, to)?;
    let metadata = taken(alloc, json, "metadata");
    json_text(
        alloc,
        whole_object(alloc, to, version.as_str(), fields, metadata),
    )
}

fn refusal(alloc: Global, fault: &ReadFault) -> Result<String, Memory> {
    match fault {
        ReadFault::Bad { path, cause } => fault_text(alloc, path.items(), *cause),
        ReadFault::Memory => Err(Memory),
    }
}

// The fields alone, or the whole object with the metadata that it had.
fn read_shown(
    alloc: Global,
    is_whole: bool,
    to: &VersionTable,
    fields: &Fields,
    json: Value,
) -> Result<String, Memory> {
    if is_whole {
        whole_shown(alloc, to, fields, json)
    } else {
        fields_shown(alloc, to, fields)
    }
}

fn tree_shown(
    alloc: Global,
    reading: Reading,
    from: &VersionTable,
    to: &VersionTable,
    json: Value,
) -> Result<String, Memory> {
    if !from.rows.are_lawful() {
        return said(alloc, "no lawful table");
    }
    match read_fields(alloc, from, &json, reading.mode) {
        Ok(fields) => read_shown(alloc, reading.is_whole, to, &fields, json),
        Err(fault) => refusal(alloc, &fault),
    }
}

fn text_shown(
    alloc: Global,
    reading: Reading,
    from: &VersionTable,
    to: &VersionTable,
    text: &str,
) -> Result<String, Memory> {
    match object_of(alloc, text.as_bytes()) {
        Ok(Some(json)) => tree_shown(alloc, reading, from, to, json),
        Ok(None) => said(alloc, "no object"),
        Err(memory) => Err(memory),
    }
}

fn shown_from(
    alloc: Global,
    reading: Reading,
    from: &VersionTable,
    rest: &str,
) -> Result<String, Memory> {
    let (to, text) = rest.split_once(' ').unwrap_or((rest, ""));
    match table_of(alloc, to) {
        Ok(to) => text_shown(alloc, reading, from, &to, text),
        Err(memory) => Err(memory),
    }
}

/// What the text reads as in one version, shown in another, as in `old new {}`; or why it can't be read.
pub(crate) fn shown_object(alloc: Global, reading: Reading, rest: &str) -> Result<String, Memory> {
    let (from, rest) = rest.split_once(' ').unwrap_or((rest, ""));
    match table_of(alloc, from) {
        Ok(from) => shown_from(alloc, reading, &from, rest),
        Err(memory) => Err(memory),
    }
}
