//! What follows from the definition of a version's rows, each as the contract of a function that does nothing.
ghost use Rattle.std.specs.Prelude.{◌≡◌, ◌≤◌, true};
ghost use Rattle.gate_flags.specs.Values.{HasValue};
ghost use Rattle.lifecycle.specs.Entry.{named};
ghost use Rattle.row_index.specs.Laws.{HasOneTable, KnowsSame};
ghost use Rattle.schemas.specs.Cutoff.{cutoff};

use fields::{Field, Spell};
use gate_flags::GateValues;
use lifecycle::ApiName;
use minor_version::Minor;
use schemas::History;

/// The rows of a version are one list: by exactness two such lists have the same rows, and by order in the same place.
pub fn version_has_one_table(
    gates: &GateValues,
    fields: &[Field],
    spells: &[Spell],
    name: ApiName<'_>,
)
    ensures { HasOneTable (λ gate. HasValue gates.now gate true)
        fields.now spells.now (named name.entry) }
{
    let _gates = gates;
    let _fields = fields;
    let _spells = spells;
    let _name = name;
}

/// A history that is cut at a release knows at each earlier one, and at that one, what the whole history knows there.
pub fn cut_knows_same(history: &History, cut: &History, e: Minor, o: Minor)
    requires cut { cut.now ≡ cutoff history.now o }
    requires later { e ≤ o }
    ensures { KnowsSame history.now cut.now e }
{}
