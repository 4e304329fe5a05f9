//! The document of the resources in a version.
ghost use Rattle.std.specs.Prelude.{◌≡◌, IfOk, IfSome, false, find, map, option_copied, option_map};
ghost use Rattle.serde_json.specs.View.{view as tree_of};
ghost use Rattle.serde_json.specs.Written.{has_float};
ghost use Rattle.discovery.specs.Resources.{is_of, resources_in, resource_tree, resources_tree, resources_among, resource_list_page};

use crate::text::group_version;
use basis::Memory;
use minor_version::Text;
use release_view::{ServedVersion, View};
use serde_json::{Value, json};
use std::alloc::{AllocError, Global};

fn is_of(version: &ServedVersion, group: &[u8], word: &[u8]) -> bool
    ensures { result ≡ is_of group.now word.now version.now }
{
    version.group.bytes() == group && version.version.bytes() == word
}

fn resource_value(alloc: Global, resource: &ServedVersion) -> Result<Value, AllocError>
    ensures { IfOk result (λ v. tree_of v ≡ resource_tree resource.now) }
{
    let kind = resource.kind.as_str();
    let name = resource.resource.as_str();
    let namespaced = resource.namespaced;
    let singular = resource.singular.as_str();
    json!(in alloc; {
        "kind": kind, "name": name, "namespaced": namespaced, "singularName": singular,
        "verbs": ["create", "delete", "get", "list", "update"]
    })
}

fn resource_values(
    alloc: Global,
    served: &[ServedVersion],
    group: &[u8],
    version: &[u8],
) -> Result<Vec<Value>, Memory>
    ensures { IfOk result (λ v.
        map tree_of v.items
        ≡ map resource_tree (resources_in served.now group.now version.now)) }
{
    let mut values = Vec::new(alloc);
    for resource in served {
        if !is_of(resource, group, version) {
            continue;
        }
        let value = resource_value(alloc, resource)?;
        values.push(value)?;
    }
    Ok(values)
}

fn resources_value(
    alloc: Global,
    group: &Text,
    version: &Text,
    resources: Vec<Value>,
) -> Result<Value, AllocError>
    ensures { IfOk result
        (λ v. tree_of v ≡ resources_tree group.now version.now (map tree_of resources.items)) }
{
    let both = group_version(alloc, group, version)?;
    json!(in alloc; {
        "apiVersion": "v1", "groupVersion": both, "kind": "APIResourceList",
        "resources": resources
    })
}

fn first_of<'a>(
    served: &'a [ServedVersion],
    group: &[u8],
    version: &[u8],
) -> Option<&'a ServedVersion>
    ensures { option_copied result ≡ find (is_of group.now version.now) served.now }
{
    served
        .iter()
        .find(|resource| is_of(resource, group, version))
}

fn resources_among(
    alloc: Global,
    served: &[ServedVersion],
    group: &[u8],
    version: &[u8],
) -> Result<Option<Value>, Memory>
    ensures { IfOk result
        (λ o. option_map tree_of o ≡ resources_among served.now group.now version.now) }
{
    let Some(first) = first_of(served, group, version) else {
        return Ok(None);
    };
    let resources = resource_values(alloc, served, group, version)?;
    let value = resources_value(alloc, &first.group, &first.version, resources)?;
    Ok(Some(value))
}

/// The document of the resources that are served in the version of the group. None where none is.
pub fn resource_list(
    alloc: Global,
    view: &View,
    group: &[u8],
    version: &[u8],
) -> Result<Option<Value>, Memory>
    ensures page { IfOk result
        (λ o. option_map tree_of o ≡ resource_list_page view.now group.now version.now) }
    ensures no_float { IfOk result (λ o. IfSome o (λ v. has_float (tree_of v) ≡ false)) }
{
    resources_among(alloc, view.served(), group, version)
}
