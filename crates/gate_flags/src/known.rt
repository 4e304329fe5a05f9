//! What a release knows of each gate.
ghost use Rattle.std.specs.Prelude.{◌≡◌, IfOk};
ghost use Rattle.gate_spec.specs.Gates.{RisesInDate};
ghost use Rattle.gate_flags.specs.Lookups.{spec_in, KnowsGates};

use basis::Memory;
use flag_text::Name;
use gate_spec::{GateEntry, SpecAt};
use minor_version::{Minor, Text};
use std::alloc::Global;
use std::collections::BTreeMap;

/// A gate of the history, and what the release knows of it.
#[derive(Clone, Copy, Debug)]
pub struct Known<'a> {
    pub name: &'a Text,
    pub spec: SpecAt,
}

/// What the map has of the gate with this name.
pub fn spec_in<'a>(known: &BTreeMap<Name<'a>, Known<'a>>, name: &'a [u8]) -> SpecAt
    ensures { result ≡ spec_in known.now name.now }
{
    match known.get(&Name { bytes: name }) {
        Some(gate) => gate.spec,
        None => SpecAt::Never,
    }
}

/// What the release knows of each gate of the history, by name.
pub fn known_gates<'a>(
    alloc: Global,
    entries: &'a [GateEntry],
    e: Minor,
) -> Result<BTreeMap<Name<'a>, Known<'a>>, Memory>
    requires { RisesInDate entries.now }
    ensures { IfOk result (KnowsGates entries.now e) }
{
    let mut known = BTreeMap::new(alloc);
    for entry in entries {
        let bytes = entry.name.bytes();
        let spec = spec_in(&known, bytes).after(entry, e);
        let gate = Known {
            name: &entry.name,
            spec,
        };
        known.insert(Name { bytes }, gate)?;
    }
    Ok(known)
}
