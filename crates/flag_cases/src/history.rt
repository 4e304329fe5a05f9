//! The history of the cases, a line for each change.
use basis::Sequence;
use gate_spec::{GateChange, GateEntry, Stage, stage_named};
use lifecycle::{ApiChange, ApiEntry};
use minor_version::{Memory, Minor, Text, parse_plain};
use std::alloc::Global;

/// The changes of gates and of versions.
#[derive(Drop)]
pub struct History {
    pub gates: Sequence<GateEntry>,
    pub apis: Sequence<ApiEntry>,
}

/// A word of a line, where the line has so many.
fn word_of(line: &str, index: usize) -> &str {
    line.split(' ').nth(index).unwrap_or("")
}

fn release_in(line: &str, index: usize) -> Option<Minor> {
    parse_plain(word_of(line, index).as_bytes())
}

fn stage_of(line: &str) -> Option<Stage> {
    match word_of(line, 2) {
        "GA" => stage_named(b""),
        word => stage_named(word.as_bytes()),
    }
}

fn spec_of(line: &str) -> Option<GateChange> {
    let stage = stage_of(line)?;
    Some(GateChange::Spec {
        stage,
        default: word_of(line, 3) == "on",
        locked: word_of(line, 4) == "locked",
    })
}

fn gate_change(line: &str) -> Option<GateChange> {
    if word_of(line, 2) == "gone" {
        return Some(GateChange::Gone);
    }
    spec_of(line)
}

fn introduced(alloc: Global, enabled: bool) -> Result<Option<ApiChange>, Memory> {
    let kind = Text::from_str(alloc, "Widget")?;
    let singular = Text::from_str(alloc, "widget")?;
    Ok(Some(ApiChange::Introduced {
        kind,
        singular,
        namespaced: true,
        enabled,
    }))
}

fn deprecated(alloc: Global, line: &str) -> Result<Option<ApiChange>, Memory> {
    let Some(removal) = release_in(line, 5) else {
        return Ok(None);
    };
    let replacement = Text::from_str(alloc, word_of(line, 6))?;
    Ok(Some(ApiChange::Deprecated {
        removal,
        replacement,
    }))
}

fn api_change(alloc: Global, line: &str) -> Result<Option<ApiChange>, Memory> {
    match word_of(line, 4) {
        "on" => introduced(alloc, true),
        "off" => introduced(alloc, false),
        "removed" => Ok(Some(ApiChange::Removed)),
        "forgotten" => Ok(Some(ApiChange::Forgotten)),
        "deprecated" => deprecated(alloc, line),
        _ => Ok(None),
    }
}

fn entry_of(
    alloc: Global,
    line: &str,
    since: Minor,
    change: ApiChange,
) -> Result<ApiEntry, Memory> {
    let Ok(group) = Text::from_str(alloc, group_named(word_of(line, 0))) else {
        return Err(Memory);
    };
    let Ok(version) = Text::from_str(alloc, word_of(line, 1)) else {
        return Err(Memory);
    };
    let Ok(resource) = Text::from_str(alloc, word_of(line, 2)) else {
        return Err(Memory);
    };
    Ok(ApiEntry {
        group,
        version,
        resource,
        since,
        change,
    })
}

impl History {
    /// No change.
    pub fn new() -> History {
        History {
            gates: Sequence::new(),
            apis: Sequence::new(),
        }
    }

    /// `<name> <release> <stage or gone> <on or off> <locked or free>`. Tells whether the line is a change.
    pub fn add_gate(&mut self, alloc: Global, line: &str) -> Result<bool, Memory> {
        let Some(since) = release_in(line, 1) else {
            return Ok(false);
        };
        let Some(change) = gate_change(line) else {
            return Ok(false);
        };
        let name = Text::from_str(alloc, word_of(line, 0))?;
        let entry = GateEntry {
            name,
            since,
            change,
        };
        self.gates.push(alloc, entry)?;
        Ok(true)
    }

    fn push_version(
        &mut self,
        alloc: Global,
        entry: Result<ApiEntry, Memory>,
    ) -> Result<bool, Memory> {
        match entry {
            Ok(entry) => self.apis.push(alloc, entry)?,
            Err(memory) => return Err(memory),
        }
        Ok(true)
    }

    /// `<group> <version> <resource> <release> <change>`, where the core group is `core`; a deprecation has the planned
    /// removal and the replacement behind it. Tells whether the line is a change.
    pub fn add_version(&mut self, alloc: Global, line: &str) -> Result<bool, Memory> {
        let Some(since) = release_in(line, 3) else {
            return Ok(false);
        };
        match api_change(alloc, line) {
            Ok(Some(change)) => self.push_version(alloc, entry_of(alloc, line, since, change)),
            Ok(None) => Ok(false),
            Err(memory) => Err(memory),
        }
    }
}

/// The name of the group that a line names.
pub fn group_named(word: &str) -> &str {
    if word == "core" { "" } else { word }
}
