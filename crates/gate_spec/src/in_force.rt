ghost use Rattle.std.specs.Prelude.{◌≡◌, ◌↔◌, ℕ, ◌<◌, ◌++◌, [], ◌∷◌, List, All, IsTrue};
ghost use Rattle.gate_spec.specs.Gates.{RisesInDate, cutoff, last_default, spec_after, IsLastDefault, IsSpecAt};
ghost use Rattle.gate_spec.specs.declared.entry.GateEntry.{GateEntry as TheEntry};

use crate::entry::{GateChange, GateEntry, SpecAt};
use minor_version::Minor;

impl SpecAt {
    /// What the release knows of a gate after one more entry of it, which is dated after the earlier ones.
    pub fn after(self, entry: &GateEntry, e: Minor) -> SpecAt
        ensures same { result ≡ spec_after self entry.now e }
        ensures known { (earlier : List TheEntry)
            → All (λ x. x.name ≡ entry.now.name → x.since < entry.now.since) earlier
            → IsSpecAt earlier entry.now.name e self
            → IsSpecAt (earlier ++ entry.now ∷ []) entry.now.name e result }
    {
        if e < entry.since {
            return match self {
                SpecAt::Never => SpecAt::PreAlpha,
                _ => self,
            };
        }
        match entry.change {
            GateChange::Spec {
                stage,
                default,
                locked,
            } => SpecAt::Found {
                stage,
                default,
                locked,
            },
            GateChange::Gone => SpecAt::Removed(self.last_default()),
        }
    }

    // The default of the newest spec so far.
    fn last_default(self) -> bool
        ensures same { result ≡ last_default self }
        ensures newest { (earlier : List TheEntry) (name : List ℕ) (e : ℕ)
            → IsSpecAt earlier name e self → IsLastDefault (cutoff earlier e) name result }
    {
        match self {
            SpecAt::Found { default, .. } => default,
            SpecAt::Removed(value) => value,
            SpecAt::PreAlpha => false,
            SpecAt::Never => false,
        }
    }
}

/// What the release e knows of the gate with this name, by a history whose entries of one gate rise in date.
pub fn spec_at(entries: &[GateEntry], name: &[u8], e: Minor) -> SpecAt
    requires { RisesInDate entries.now }
    ensures { IsSpecAt entries.now name.now e result }
{
    let mut spec = SpecAt::Never;
    for entry in entries {
        if entry.name.bytes() == name {
            spec = spec.after(entry, e);
        }
    }
    spec
}

// Whether the entry is dated after each of the earlier entries of its gate.
fn is_later(earlier: &[GateEntry], entry: &GateEntry) -> bool
    ensures { IsTrue result
        ↔ All (λ x. x.name ≡ entry.now.name → x.since < entry.now.since) earlier.now }
{
    earlier.iter().all(|x| x.name.bytes() != entry.name.bytes() || x.since < entry.since)
}

/// Whether the entries of one gate rise in date. It compares each two entries, so it is for short histories.
pub fn rises_in_date(entries: &[GateEntry]) -> bool
    ensures { IsTrue result ↔ RisesInDate entries.now }
{
    for (index, entry) in entries.iter().enumerate() {
        if !is_later(entries.split_at(index).0, entry) {
            return false;
        }
    }
    true
}
