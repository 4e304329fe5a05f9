//! For each entry the previous one of its gate or version, in one pass.
ghost use Rattle.std.specs.Prelude.{IfOk, length};
ghost use Rattle.schemas.specs.GateRules.{previous_of_gate};
ghost use Rattle.schemas.specs.ApiRules.{previous_of_version};
ghost use Rattle.history_rules.specs.Previous.{AreLinked};

use basis::{Memory, NameMap, put, value_of};
use gate_spec::GateEntry;
use lifecycle::ApiEntry;
use std::alloc::Global;
use std::collections::BTreeMap;

/// For each entry the previous one of its gate.
pub fn link_gates<'a>(
    alloc: Global,
    entries: &'a [GateEntry],
) -> Result<Vec<Option<&'a GateEntry>>, Memory>
    ensures { IfOk result (λ links.
        AreLinked previous_of_gate entries.now (length entries.now) links.items) }
{
    let mut latest: NameMap<'a, &'a GateEntry> = BTreeMap::new(alloc);
    let mut links = Vec::new(alloc);
    for entry in entries {
        let name = entry.name.bytes();
        match links.push(value_of(&latest, name, &[], &[])) {
            Ok(()) => {}
            Err(_) => return Err(Memory),
        }
        put(&mut latest, name, &[], &[], entry)?;
    }
    Ok(links)
}

/// For each entry the previous one of its version.
pub fn link_versions<'a>(
    alloc: Global,
    entries: &'a [ApiEntry],
) -> Result<Vec<Option<&'a ApiEntry>>, Memory>
    ensures { IfOk result (λ links.
        AreLinked previous_of_version entries.now (length entries.now) links.items) }
{
    let mut latest: NameMap<'a, &'a ApiEntry> = BTreeMap::new(alloc);
    let mut links = Vec::new(alloc);
    for entry in entries {
        let group = entry.group.bytes();
        let version = entry.version.bytes();
        let resource = entry.resource.bytes();
        match links.push(value_of(&latest, group, version, resource)) {
            Ok(()) => {}
            Err(_) => return Err(Memory),
        }
        put(&mut latest, group, version, resource, entry)?;
    }
    Ok(links)
}
