//! The rules on feature gates: for each, the number of the first entry that breaks it.
ghost use Rattle.std.specs.Prelude.{◌↔◌, IsTrue, length};
ghost use Rattle.std.specs.Option.{option_copied};
ghost use Rattle.schemas.specs.Places.{FindsFirst};
ghost use Rattle.schemas.specs.GateRules.{previous_of_gate, IsGone, IsFitSpec, IsRipe, RisesFrom, RisesInGate, FitsStage, FollowsLockedSpec};
ghost use Rattle.history_rules.specs.Previous.{AreLinked};

use gate_spec::{GateChange, GateEntry, Stage};

/// For how many releases a locked gate stays.
const NOTICE: u16 = 3;

fn is_gone(change: &GateChange) -> bool
    ensures { IsTrue result ↔ IsGone change.now }
{
    matches!(change, GateChange::Gone)
}

fn rises(previous: Option<&GateEntry>, entry: &GateEntry) -> bool
    ensures { IsTrue result ↔ RisesFrom (option_copied previous.entry) entry.now.since }
{
    match previous {
        None => true,
        Some(y) => y.since < entry.since && !is_gone(&y.change),
    }
}

/// The first entry that isn't dated after the previous entry of its gate, or follows a removal (HR3).
pub fn first_not_rising(entries: &[GateEntry], previous: &[Option<&GateEntry>]) -> Option<u64>
    requires { AreLinked previous_of_gate entries.now (length entries.now) previous.now }
    ensures { FindsFirst RisesInGate entries.now result }
{
    for (i, entry) in entries.iter().enumerate() {
        if !rises(previous[i], entry) {
            return Some(i as u64 + 1);
        }
    }
    None
}

fn fits_stage(change: &GateChange) -> bool
    ensures { IsTrue result ↔ IsFitSpec change.now }
{
    match change {
        GateChange::Gone => true,
        GateChange::Spec {
            stage,
            default,
            locked,
        } => match stage {
            Stage::Alpha => !default && !locked,
            Stage::Beta => !locked,
            Stage::Ga => *default,
            Stage::Deprecated => true,
        },
    }
}

/// The first entry whose spec doesn't fit its stage (HR4).
pub fn first_unfit_spec(entries: &[GateEntry]) -> Option<u64>
    ensures { FindsFirst FitsStage entries.now result }
{
    for (i, entry) in entries.iter().enumerate() {
        if !fits_stage(&entry.change) {
            return Some(i as u64 + 1);
        }
    }
    None
}

fn is_ripe(previous: Option<&GateEntry>, entry: &GateEntry) -> bool
    ensures { IsTrue result
        ↔ IsRipe (option_copied previous.entry) entry.now.since entry.now.change }
{
    match (entry.change, previous) {
        (GateChange::Spec { .. }, _) => true,
        (GateChange::Gone, None) => false,
        (GateChange::Gone, Some(y)) => {
            matches!(y.change, GateChange::Spec { locked: true, .. })
                && y.since.number() + NOTICE <= entry.since.number()
        }
    }
}

/// The first removal that doesn't follow a locked spec of its gate, three releases later or more (HR5).
pub fn first_unripe_removal(entries: &[GateEntry], previous: &[Option<&GateEntry>]) -> Option<u64>
    requires { AreLinked previous_of_gate entries.now (length entries.now) previous.now }
    ensures { FindsFirst FollowsLockedSpec entries.now result }
{
    for (i, entry) in entries.iter().enumerate() {
        if !is_ripe(previous[i], entry) {
            return Some(i as u64 + 1);
        }
    }
    None
}
