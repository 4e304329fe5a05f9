//! Laws of bodies. Nothing is computed here; each law is a contract.
ghost use Rattle.std.specs.Prelude.{option_copied};
ghost use Rattle.fields.specs.Table.{AreLawful};
ghost use Rattle.request_body.specs.Laws.{AreGivenOnce, GivesOnce, GivesFitting, IsFaultlessWhereGiven, MissesOnce, HasOneMisfit, HasNoMisfitWhereAllFit};
ghost use Rattle.request_body.specs.Places.{place_seen};
ghost use Rattle.serde_json.specs.View.{view};

use crate::place::Place;
use fields::{Fields, VersionTable};
use http_front::{Request, Verb};
use object_state::State;
use serde_json::Value;

/// A body gives at most one map of fields by a version's table. That map fits the table, and a body that gives one has
/// no fault of reading.
pub fn body_gives_one_map(table: &VersionTable, tree: &Value, stored: Option<&Fields>)
    requires { AreLawful table.now.rows }
    ensures once { GivesOnce table.now.rows (view tree.now) (option_copied stored.entry) }
    ensures fitting { GivesFitting table.now.rows (view tree.now) (option_copied stored.entry) }
    ensures faultless { IsFaultlessWhereGiven table.now.rows (view tree.now)
        (option_copied stored.entry) }
{}

/// A request gives the object of a name at most one map of fields.
pub fn request_gives_one_map(state: &State, request: &Request, place: Place<'_>)
    ensures { AreGivenOnce state.now.state request.now (place_seen place.entry) }
{
    let _objects = state.objects();
}

/// At most one required field is the first that is missing.
pub fn one_field_is_first_missing(table: &VersionTable, fields: &Fields)
    ensures { MissesOnce table.now.rows fields.now }
{}

/// At most one member of a body is the first that doesn't fit, and none where all of them fit.
pub fn body_has_one_misfit(verb: Verb, place: Place<'_>, tree: &Value)
    ensures once { HasOneMisfit verb (place_seen place.entry) (view tree.now) }
    ensures none { HasNoMisfitWhereAllFit verb (place_seen place.entry) (view tree.now) }
{}
