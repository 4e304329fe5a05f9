//! The kinds of resources and the resources of kinds, so that an introduction is compared with one other of each.
ghost use Rattle.std.specs.Prelude.{◌≡◌, ◌↔◌, List, [], ◌∷◌, ◌++◌, IsTrue, OnOk, IfSome, All};
ghost use Rattle.std.specs.Option.{option_copied};
ghost use Rattle.lifecycle.specs.declared.entry.ApiEntry.{ApiEntry as TheEntry};
ghost use Rattle.schemas.specs.ApiRules.{AgreeInKind, KeepKindsApart};
ghost use Rattle.basis.specs.NameMap.{value_at};
ghost use Rattle.history_rules.specs.Kinds.{PutsChange, PutsResource};
ghost use Rattle.history_rules.specs.KindsFields.{AreKindsOf};

use basis::{Memory, NameMap, put, value_of};
use lifecycle::{ApiChange, ApiEntry};
use minor_version::Text;
use std::alloc::Global;
use std::collections::BTreeMap;

/// The kinds that entries introduce, where they keep them apart.
#[derive(Drop)]
pub struct Kinds<'a> {
    /// By group and resource: the latest introduction.
    changes: NameMap<'a, &'a ApiChange>,
    /// By group and kind: the resource.
    resources: NameMap<'a, &'a [u8]>,
}

fn agree_in_kind(x: &ApiChange, y: &ApiChange) -> bool
    ensures { IsTrue result ↔ AgreeInKind x.now y.now }
{
    match (x, y) {
        (
            ApiChange::Introduced {
                kind,
                singular,
                namespaced,
                ..
            },
            ApiChange::Introduced {
                kind: other_kind,
                singular: other_singular,
                namespaced: other_namespaced,
                ..
            },
        ) => { kind == other_kind && singular == other_singular && namespaced == other_namespaced }
        _ => true,
    }
}

fn agrees_with(known: Option<&ApiChange>, change: &ApiChange) -> bool
    ensures { IsTrue result ↔ IfSome (option_copied known.entry) (λ y. AgreeInKind change.now y) }
{
    match known {
        Some(y) => agree_in_kind(change, y),
        None => true,
    }
}

fn is_that(known: Option<&[u8]>, resource: &[u8]) -> bool
    ensures { IsTrue result ↔ IfSome (option_copied known.entry) (λ r. r ≡ resource.now) }
{
    match known {
        Some(known) => known == resource,
        None => true,
    }
}

fn put_change<'a>(
    changes: &mut NameMap<'a, &'a ApiChange>,
    entry: &'a ApiEntry,
) -> Result<(), Memory>
    ensures { OnOk result (PutsChange entry.now changes.old changes.new) }
{
    let group = entry.group.bytes();
    let resource = entry.resource.bytes();
    put(changes, group, resource, &[], &entry.change)
}

fn put_resource<'a>(
    resources: &mut NameMap<'a, &'a [u8]>,
    entry: &'a ApiEntry,
    kind: &'a Text,
) -> Result<(), Memory>
    ensures { OnOk result (PutsResource entry.now kind.now resources.old resources.new) }
{
    let group = entry.group.bytes();
    let kind = kind.bytes();
    put(resources, group, kind, &[], entry.resource.bytes())
}

impl<'a> Kinds<'a> {
    /// The kinds of no entries.
    pub fn new(alloc: Global) -> Self
        ensures { AreKindsOf [] result }
    {
        Kinds {
            changes: BTreeMap::new(alloc),
            resources: BTreeMap::new(alloc),
        }
    }

    fn agree_with(&self, entry: &'a ApiEntry) -> bool
        ensures { IsTrue result
            ↔ IfSome
            (option_copied (value_at self.now.changes entry.now.group entry.now.resource []))
            (λ y. AgreeInKind entry.now.change y) }
    {
        let group = entry.group.bytes();
        let resource = entry.resource.bytes();
        agrees_with(value_of(&self.changes, group, resource, &[]), &entry.change)
    }

    fn have_only(&self, entry: &'a ApiEntry, kind: &'a Text) -> bool
        ensures { IsTrue result
            ↔ IfSome (option_copied (value_at self.now.resources entry.now.group kind.now []))
            (λ r. r ≡ entry.now.resource) }
    {
        let group = entry.group.bytes();
        let kind = kind.bytes();
        is_that(
            value_of(&self.resources, group, kind, &[]),
            entry.resource.bytes(),
        )
    }

    /// Whether the entry keeps its kind apart from those of the entries.
    pub fn are_apart_from(&self, entry: &'a ApiEntry) -> bool
        ensures { (entries : List TheEntry) → AreKindsOf entries self.now
            → IsTrue result ↔ All (KeepKindsApart entry.now) entries }
    {
        match &entry.change {
            ApiChange::Introduced { kind, .. } => {
                self.agree_with(entry) && self.have_only(entry, kind)
            }
            _ => true,
        }
    }

    /// Takes in one more entry, which keeps its kind apart.
    pub fn take_in(&mut self, entry: &'a ApiEntry) -> Result<(), Memory>
        ensures { OnOk result ((entries : List TheEntry) → AreKindsOf entries self.old
            → All (KeepKindsApart entry.now) entries
            → AreKindsOf (entries ++ entry.now ∷ []) self.new) }
    {
        let ApiChange::Introduced { kind, .. } = &entry.change else {
            return Ok(());
        };
        put_change(&mut self.changes, entry)?;
        put_resource(&mut self.resources, entry, kind)
    }
}
