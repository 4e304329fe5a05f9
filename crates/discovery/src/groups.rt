//! The documents of groups.
ghost use Rattle.std.specs.Prelude.{◌≡◌, ◌++◌, IfOk, IfSome, false, find, map, option_map, option_copied};
ghost use Rattle.serde_json.specs.View.{view as tree_of};
ghost use Rattle.serde_json.specs.Written.{has_float};
ghost use Rattle.discovery.specs.Groups.{is_in, versions_in, version_tree, preferred_tree, group_tree, group_trees, list_tree, single_tree, group_list_page, group_among, group_page};
ghost use Rattle.discovery.specs.Lasts.{is_last};
ghost use Rattle.discovery.specs.Order.{GroupsRise, AreIn, IsOfAnother};

use crate::text::group_version;
use basis::Memory;
use minor_version::Text;
use release_view::{ServedVersion, View};
use serde_json::{Value, json};
use std::alloc::{AllocError, Global};

fn is_last(last: Option<&Text>, text: &Text) -> bool
    ensures { result ≡ is_last (option_copied last.entry) text.now }
{
    match last {
        Some(last) => text.bytes() == last.bytes(),
        None => false,
    }
}

/// The served versions of the group, each once, in order.
fn versions_in<'a>(
    alloc: Global,
    served: &'a [ServedVersion],
    group: &Text,
) -> Result<Vec<&'a Text>, Memory>
    ensures { IfOk result (λ v. map (λ w. w.now) v.items ≡ versions_in served.now group.now) }
{
    let mut versions = Vec::new(alloc);
    let mut last: Option<&'a Text> = None;
    for version in served {
        if version.group != *group || is_last(last, &version.version) {
            continue;
        }
        last = Some(&version.version);
        versions.push(&version.version)?;
    }
    Ok(versions)
}

fn version_value(alloc: Global, group: &Text, version: &Text) -> Result<Value, AllocError>
    ensures { IfOk result (λ v. tree_of v ≡ version_tree group.now version.now) }
{
    let both = group_version(alloc, group, version)?;
    let version = version.as_str();
    json!(in alloc; {"groupVersion": both, "version": version})
}

fn version_values(alloc: Global, group: &Text, versions: &[&Text]) -> Result<Vec<Value>, AllocError>
    ensures { IfOk result (λ v.
        map tree_of v.items
        ≡ map (version_tree group.now) (map (λ w. w.now) versions.now)) }
{
    let mut values = Vec::new(alloc);
    for version in versions {
        let value = version_value(alloc, group, version)?;
        values.push(value)?;
    }
    Ok(values)
}

// The first version is preferred.
fn preferred_value(alloc: Global, group: &Text, versions: &[&Text]) -> Result<Value, AllocError>
    ensures { IfOk result
        (λ v. tree_of v ≡ preferred_tree group.now (map (λ w. w.now) versions.now)) }
{
    match versions {
        [first, ..] => version_value(alloc, group, first),
        [] => Ok(Value::Null),
    }
}

fn group_value(alloc: Global, group: &Text, versions: &[&Text]) -> Result<Value, AllocError>
    ensures { IfOk result (λ v. tree_of v ≡ group_tree group.now (map (λ w. w.now) versions.now)) }
{
    let values = version_values(alloc, group, versions)?;
    let preferred = preferred_value(alloc, group, versions)?;
    let name = group.as_str();
    json!(in alloc; {"name": name, "preferredVersion": preferred, "versions": values})
}

fn single_value(alloc: Global, group: &Text, versions: &[&Text]) -> Result<Value, AllocError>
    ensures { IfOk result (λ v. tree_of v ≡ single_tree group.now (map (λ w. w.now) versions.now)) }
{
    let values = version_values(alloc, group, versions)?;
    let preferred = preferred_value(alloc, group, versions)?;
    let name = group.as_str();
    json!(in alloc; {
        "apiVersion": "v1", "kind": "APIGroup", "name": name,
        "preferredVersion": preferred, "versions": values
    })
}

fn listed_value(alloc: Global, group: &Text, served: &[ServedVersion]) -> Result<Value, Memory>
    ensures { IfOk result
        (λ v. tree_of v ≡ group_tree group.now (versions_in served.now group.now)) }
{
    let versions = versions_in(alloc, served, group)?;
    let value = group_value(alloc, group, versions.as_slice())?;
    Ok(value)
}

/// The served versions of the group that come first, and those after them.
fn split_group<'a>(
    served: &'a [ServedVersion],
    group: &Text,
) -> (&'a [ServedVersion], &'a [ServedVersion])
    ensures joined { served.now ≡ result.0.now ++ result.1.now }
    ensures own { AreIn group.now result.0.now }
    ensures next { IsOfAnother group.now result.1.now }
{
    for (i, version) in served.iter().enumerate() {
        if version.group != *group {
            return served.split_at(i);
        }
    }
    served.split_at(served.len())
}

fn group_values(alloc: Global, served: &[ServedVersion]) -> Result<Vec<Value>, Memory>
    requires { GroupsRise served.now }
    ensures { IfOk result (λ v. map tree_of v.items ≡ group_trees served.now) }
{
    let mut values = Vec::new(alloc);
    let mut rest = served;
    while let [first, ..] = rest {
        let (own, others) = split_group(rest, &first.group);
        rest = others;
        if first.group.bytes().is_empty() {
            continue;
        }
        let value = listed_value(alloc, &first.group, own)?;
        values.push(value)?;
    }
    Ok(values)
}

fn list_value(alloc: Global, groups: Vec<Value>) -> Result<Value, AllocError>
    ensures { IfOk result (λ v. tree_of v ≡ list_tree (map tree_of groups.items)) }
{
    json!(in alloc; {"apiVersion": "v1", "groups": groups, "kind": "APIGroupList"})
}

/// The list of the groups with a served version, but the core group.
pub fn group_list(alloc: Global, view: &View) -> Result<Value, Memory>
    ensures page { IfOk result (λ v. tree_of v ≡ group_list_page view.now) }
    ensures no_float { IfOk result (λ v. has_float (tree_of v) ≡ false) }
{
    let groups = group_values(alloc, view.served())?;
    let value = list_value(alloc, groups)?;
    Ok(value)
}

fn first_in<'a>(served: &'a [ServedVersion], group: &[u8]) -> Option<&'a ServedVersion>
    ensures { option_copied result ≡ find (is_in group.now) served.now }
{
    served.iter().find(|version| version.group.bytes() == group)
}

fn group_among(
    alloc: Global,
    served: &[ServedVersion],
    name: &[u8],
) -> Result<Option<Value>, Memory>
    ensures { IfOk result (λ o. option_map tree_of o ≡ group_among served.now name.now) }
{
    if name.is_empty() {
        return Ok(None);
    }
    let Some(first) = first_in(served, name) else {
        return Ok(None);
    };
    let versions = versions_in(alloc, served, &first.group)?;
    let value = single_value(alloc, &first.group, versions.as_slice())?;
    Ok(Some(value))
}

/// The document of one group. None where nothing of the group is served, and for the core group.
pub fn group(alloc: Global, view: &View, name: &[u8]) -> Result<Option<Value>, Memory>
    ensures page { IfOk result (λ o. option_map tree_of o ≡ group_page view.now name.now) }
    ensures no_float { IfOk result (λ o. IfSome o (λ v. has_float (tree_of v) ≡ false)) }
{
    group_among(alloc, view.served(), name)
}
