//! An object whole.
ghost use Rattle.std.specs.Prelude.{◌≡◌, false, IfOk, decimal, string_bytes};
ghost use Rattle.fields.specs.Fits.{Fits};
ghost use Rattle.object_pages.specs.Documents.{IsShown, inside_tree, metadata_tree, outside_tree, uid_of};
ghost use Rattle.request_target.specs.Targets.{resource_seen};
ghost use Rattle.serde_json.specs.View.{view as tree_of};
ghost use Rattle.serde_json.specs.Written.{has_float};

use basis::Memory;
use conversion::whole_object;
use discovery::group_version;
use object_journal::Key;
use object_state::Object;
use request_target::Resource;
use serde_json::{Value, json};
use std::alloc::{AllocError, Global};

/// A number in decimal.
pub(crate) fn decimal_text(alloc: Global, number: u64) -> Result<String, AllocError>
    ensures { IfOk result (λ s. string_bytes s ≡ decimal number) }
{
    format!(in alloc; "{number}")
}

fn uid_text(alloc: Global, object: &Object) -> Result<String, AllocError>
    ensures { IfOk result (λ s. string_bytes s ≡ uid_of object.now) }
{
    let created = object.created;
    format!(in alloc; "u{created}")
}

fn inside_value(
    alloc: Global,
    name: &str,
    namespace: &str,
    revision: &str,
    uid: &str,
) -> Result<Value, AllocError>
    ensures { IfOk result (λ v. tree_of v
        ≡ inside_tree name.now namespace.now revision.now uid.now) }
{
    json!(in alloc; {"name": name, "namespace": namespace, "resourceVersion": revision, "uid": uid})
}

fn outside_value(alloc: Global, name: &str, revision: &str, uid: &str) -> Result<Value, AllocError>
    ensures { IfOk result (λ v. tree_of v ≡ outside_tree name.now revision.now uid.now) }
{
    json!(in alloc; {"name": name, "resourceVersion": revision, "uid": uid})
}

// The metadata of an object of a namespaced resource, or of another one.
fn metadata_value(
    alloc: Global,
    namespaced: bool,
    key: &Key,
    object: &Object,
) -> Result<Value, AllocError>
    ensures { IfOk result (λ v. tree_of v ≡ metadata_tree namespaced key.now object.now) }
{
    let revision = decimal_text(alloc, object.revision)?;
    let uid = uid_text(alloc, object)?;
    let name = key.name.as_str();
    if namespaced {
        inside_value(
            alloc,
            name,
            key.namespace.as_str(),
            revision.as_str(),
            uid.as_str(),
        )
    } else {
        outside_value(alloc, name, revision.as_str(), uid.as_str())
    }
}

/// The object as a whole, in the version of the resource. Its namespace is told where the resource
/// is namespaced.
pub fn object_page(
    alloc: Global,
    of: Resource<'_>,
    key: &Key,
    object: &Object,
) -> Result<Value, Memory>
    requires { Fits of.table.now.rows object.now.fields }
    ensures shown { IfOk result (λ v.
        IsShown (resource_seen of.entry) key.now object.now (tree_of v)) }
    ensures no_float { IfOk result (λ v. has_float (tree_of v) ≡ false) }
{
    let version = group_version(alloc, &of.served.group, &of.served.version)?;
    let metadata = metadata_value(alloc, of.served.namespaced, key, object)?;
    whole_object(
        alloc,
        of.table,
        version.as_str(),
        &object.fields,
        Some(metadata),
    )
}
