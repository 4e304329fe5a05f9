//! A list of objects.
ghost use Rattle.std.specs.Prelude.{◌≡◌, ◌++◌, false, IfOk, codes, map, string_bytes};
ghost use Rattle.object_pages.specs.Documents.{AreShown, IsListOf, list_tree};
ghost use Rattle.object_pages.specs.Fitting.{AllFit};
ghost use Rattle.request_target.specs.Targets.{resource_seen};
ghost use Rattle.serde_json.specs.View.{items_of, view as tree_of};
ghost use Rattle.serde_json.specs.Written.{has_float, items_have_float};

use crate::page::{decimal_text, object_page};
use basis::Memory;
use discovery::group_version;
use object_state::Stored;
use request_target::Resource;
use serde_json::{Value, json};
use std::alloc::{AllocError, Global};

// Each object whole, in order.
fn item_values(alloc: Global, of: Resource<'_>, objects: &[Stored]) -> Result<Vec<Value>, Memory>
    requires { AllFit of.table.now objects.now }
    ensures shown { IfOk result (λ v.
        AreShown (resource_seen of.entry) objects.now (map tree_of v.items)) }
    ensures no_float { IfOk result (λ v.
        items_have_float (items_of (map tree_of v.items)) ≡ false) }
{
    let mut values = Vec::new(alloc);
    for stored in objects {
        let value = object_page(alloc, of, &stored.key, &stored.object)?;
        values.push(value)?;
    }
    Ok(values)
}

fn list_kind(alloc: Global, kind: &str) -> Result<String, AllocError>
    ensures { IfOk result (λ s. string_bytes s ≡ kind.now ++ codes "List") }
{
    format!(in alloc; "{kind}List")
}

fn list_value(
    alloc: Global,
    version: &str,
    items: Vec<Value>,
    kind: &str,
    revision: &str,
) -> Result<Value, AllocError>
    ensures { IfOk result (λ v. tree_of v
        ≡ list_tree version.now (map tree_of items.items) kind.now revision.now) }
{
    json!(in alloc; {"apiVersion": version, "items": items, "kind": kind, "metadata": {"resourceVersion": revision}})
}

/// The list of the objects, each whole in the version of the resource, at a revision of their
/// store.
pub fn list_page(
    alloc: Global,
    of: Resource<'_>,
    revision: u64,
    objects: &[Stored],
) -> Result<Value, Memory>
    requires { AllFit of.table.now objects.now }
    ensures list { IfOk result (λ v.
        IsListOf (resource_seen of.entry) revision objects.now (tree_of v)) }
    ensures no_float { IfOk result (λ v. has_float (tree_of v) ≡ false) }
{
    let items = item_values(alloc, of, objects)?;
    let version = group_version(alloc, &of.served.group, &of.served.version)?;
    let kind = list_kind(alloc, of.served.kind.as_str())?;
    let revision = decimal_text(alloc, revision)?;
    let value = list_value(
        alloc,
        version.as_str(),
        items,
        kind.as_str(),
        revision.as_str(),
    )?;
    Ok(value)
}
