//! A history as words.
use fields::{Field, FieldValue, Path, Spell};
use gate_spec::{GateChange, GateEntry, Stage};
use lifecycle::{ApiChange, ApiEntry};
use minor_version::{Minor, Text};
use schemas::History;
use std::alloc::Global;

fn release(release: Option<Minor>) -> u16 {
    match release {
        Some(release) => release.number(),
        None => 0,
    }
}

fn stage(stage: Stage) -> &'static str {
    match stage {
        Stage::Alpha => "alpha",
        Stage::Beta => "beta",
        Stage::Ga => "ga",
        Stage::Deprecated => "deprecated",
    }
}

fn gate(alloc: Global, entry: &GateEntry) -> anyhow::Result<String> {
    let name = entry.name.as_str();
    let since = entry.since.number();
    match entry.change {
        GateChange::Spec {
            stage: level,
            default,
            locked,
        } => {
            let level = stage(level);
            Ok(format!(in alloc; "{name} {since} {level} {default} {locked}")?)
        }
        GateChange::Gone => Ok(format!(in alloc; "{name} {since} gone")?),
    }
}

fn introduction(
    alloc: Global,
    kind: &Text,
    singular: &Text,
    namespaced: bool,
    enabled: bool,
) -> anyhow::Result<String> {
    let kind = kind.as_str();
    let singular = singular.as_str();
    Ok(format!(in alloc; "introduced {kind} {singular} {namespaced} {enabled}")?)
}

fn deprecation(alloc: Global, removal: Minor, replacement: &Text) -> anyhow::Result<String> {
    let removal = removal.number();
    let replacement = replacement.as_str();
    Ok(format!(in alloc; "deprecated {removal} {replacement}")?)
}

fn change(alloc: Global, change: &ApiChange) -> anyhow::Result<String> {
    match change {
        ApiChange::Introduced {
            kind,
            singular,
            namespaced,
            enabled,
        } => introduction(alloc, kind, singular, *namespaced, *enabled),
        ApiChange::Deprecated {
            removal,
            replacement,
        } => deprecation(alloc, *removal, replacement),
        ApiChange::Removed => Ok(String::from_str(alloc, "removed")?),
        ApiChange::Forgotten => Ok(String::from_str(alloc, "forgotten")?),
    }
}

fn api(alloc: Global, entry: &ApiEntry) -> anyhow::Result<String> {
    let group = entry.group.as_str();
    let version = entry.version.as_str();
    let resource = entry.resource.as_str();
    let since = entry.since.number();
    let change = change(alloc, &entry.change)?;
    Ok(format!(in alloc; "{group} {version} {resource} {since} {change}")?)
}

fn guard(gate: &Option<Text>) -> &str {
    match gate {
        Some(gate) => gate.as_str(),
        None => "none",
    }
}

fn field(alloc: Global, entry: &Field) -> anyhow::Result<String> {
    let group = entry.group.as_str();
    let resource = entry.resource.as_str();
    let id = entry.id.as_str();
    let since = entry.since.number();
    let ty = entry.ty;
    let required = entry.required;
    let gate = guard(&entry.gate);
    Ok(format!(in alloc; "{group} {resource} {id} {since} {ty:?} {required} {gate}")?)
}

fn path(alloc: Global, path: &Path) -> anyhow::Result<String> {
    let mut text = String::new(alloc);
    for segment in path.items() {
        text.push_str("/")?;
        text.push_str(segment.as_str())?;
    }
    Ok(text)
}

fn default(alloc: Global, value: &Option<FieldValue>) -> anyhow::Result<String> {
    match value {
        None => Ok(String::from_str(alloc, "none")?),
        Some(FieldValue::Bool(flag)) => Ok(format!(in alloc; "Bool {flag}")?),
        Some(FieldValue::Int(number)) => Ok(format!(in alloc; "Int {number}")?),
        Some(FieldValue::Text(text)) => {
            let text = text.as_str();
            Ok(format!(in alloc; "Text {text}")?)
        }
        Some(FieldValue::List(_)) => Ok(String::from_str(alloc, "TextList")?),
    }
}

fn spell(alloc: Global, entry: &Spell) -> anyhow::Result<String> {
    let group = entry.group.as_str();
    let resource = entry.resource.as_str();
    let version = entry.version.as_str();
    let id = entry.field.as_str();
    let since = entry.since.number();
    let path = path(alloc, &entry.path)?;
    let form = entry.form;
    let default = default(alloc, &entry.default)?;
    Ok(format!(in alloc; "{group} {resource} {version} {id} {since} {path} {form:?} {default}")?)
}

fn put(text: &mut String, entry: anyhow::Result<String>) -> anyhow::Result<()> {
    text.push_str("; ")?;
    text.push_str(entry?.as_str())?;
    Ok(())
}

/// The numbers of the first and the last release, and the entries in order, with a semicolon between two.
pub fn words(alloc: Global, history: &History) -> anyhow::Result<String> {
    let first = release(history.first);
    let last = release(history.last);
    let mut text = format!(in alloc; "{first} to {last}")?;
    for entry in history.gates.items() {
        put(&mut text, gate(alloc, entry))?;
    }
    for entry in history.apis.items() {
        put(&mut text, api(alloc, entry))?;
    }
    for entry in history.fields.items() {
        put(&mut text, field(alloc, entry))?;
    }
    for entry in history.spells.items() {
        put(&mut text, spell(alloc, entry))?;
    }
    Ok(text)
}
