//! The history of which releases are viewed: the product's example with resources in the core group.
use basis::Memory;
use example::WIDGETS;
use history_reader::read_history;
use history_rules::check;
use minor_version::{Minor, from_number};
use release_view::{View, view_by_config};
use schemas::Accepted;
use std::alloc::Global;

/// Pods, nodes and crates, of which the last two are in no namespace.
const APIS: &str = r#"api = [
 {group="", version="v1", resource="pods", since="1.28", event="introduced", kind="Pod", singular="pod", namespaced=true, enabled=true},
 {group="", version="v1", resource="nodes", since="1.28", event="introduced", kind="Node", singular="node", namespaced=false, enabled=true},
 {group="", version="v1", resource="crates", since="1.28", event="introduced", kind="Crate", singular="crate", namespaced=false, enabled=true},"#;

/// The fields of pods.
const FIELDS: &str = r#"field = [
 {group="", resource="pods", id="image", since="1.28", type="Text", required=true},
 {group="", resource="pods", id="args", since="1.28", type="TextList"},
 {group="", resource="pods", id="grace", since="1.28", type="Int"},"#;

const SPELLS: &str = r#"spell = [
 {group="", resource="pods", version="v1", field="image", since="1.28", path="spec.image"},
 {group="", resource="pods", version="v1", field="args", since="1.28", path="spec.run.args"},
 {group="", resource="pods", version="v1", field="grace", since="1.28", path="spec.run.grace", form="Decimal"},"#;

/// A part of a path.
const LONG: &str = "abcdefghijklmnopqrstuvwxyzabcdef";

fn field_text(alloc: Global, k: u32) -> Result<String, Memory> {
    Ok(format!(in alloc;
        "\n {{group=\"\", resource=\"crates\", id=\"f{k}\", since=\"1.28\", type=\"Int\", required=true}},"
    )?)
}

fn spell_text(alloc: Global, k: u32) -> Result<String, Memory> {
    Ok(format!(in alloc;
        "\n {{group=\"\", resource=\"crates\", version=\"v1\", field=\"f{k}\", since=\"1.28\", path=\"f{k}.{LONG}.{LONG}.{LONG}.{LONG}.{LONG}.{LONG}.{LONG}\"}},"
    )?)
}

/// The fields of the core group, with 40 of crates.
fn fields_text(alloc: Global) -> Result<String, Memory> {
    let mut text = String::from_str(alloc, FIELDS)?;
    for k in 0..40 {
        let field = match field_text(alloc, k) {
            Ok(field) => field,
            Err(_) => return Err(Memory),
        };
        match text.push_str(field.as_str()) {
            Ok(()) => {}
            Err(_) => return Err(Memory),
        }
    }
    Ok(text)
}

/// Their spellings, by which an object of crates has more than 4,096 bytes.
fn spells_text(alloc: Global) -> Result<String, Memory> {
    let mut text = String::from_str(alloc, SPELLS)?;
    for k in 0..40 {
        let spell = match spell_text(alloc, k) {
            Ok(spell) => spell,
            Err(_) => return Err(Memory),
        };
        match text.push_str(spell.as_str()) {
            Ok(()) => {}
            Err(_) => return Err(Memory),
        }
    }
    Ok(text)
}

fn history_text(alloc: Global) -> Result<String, Memory> {
    let fields = fields_text(alloc)?;
    let spells = spells_text(alloc)?;
    let text = WIDGETS.replace(alloc, "api = [", APIS)?;
    let text = text.replace(alloc, "field = [", fields.as_str())?;
    Ok(text.replace(alloc, "spell = [", spells.as_str())?)
}

fn accepted_text(alloc: Global, text: &str) -> Option<Accepted> {
    let history = read_history(alloc, text.as_bytes()).ok()?;
    check(alloc, history).ok()
}

/// The history, where it is accepted.
pub fn accepted(alloc: Global) -> Result<Option<Accepted>, Memory> {
    let text = history_text(alloc)?;
    Ok(accepted_text(alloc, text.as_str()))
}

/// The release with this number in decimal.
pub fn release(word: &str) -> Option<Minor> {
    from_number(word.parse::<u16>().ok()?)
}

/// The view of the release under a runtime configuration, if there is one.
pub fn view_of(alloc: Global, accepted: &Accepted, e: Minor, config: &str) -> Option<View> {
    if e < accepted.first() || accepted.last() < e {
        return None;
    }
    view_by_config(alloc, accepted, e, config.as_bytes()).ok()
}
