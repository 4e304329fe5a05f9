ghost use Rattle.serde_json.specs.View.{view};
ghost use Rattle.fields.specs.Table.{AreLawful};
ghost use Rattle.fields.specs.Fits.{Fits, AreOfSameFields, KnowsLess};
ghost use Rattle.conversion.specs.Laws.{ReadsAsOne, IsFaultlessWhereRead, HasOneFault, RoundTrips, IsShallow, WholeRoundTrips, FitsAlike, ReadsLess, GoesThereAndBack};

use crate::mode::Mode;
use fields::{Fields, VersionTable};
use serde_json::Value;

/// A tree has no two answers: it reads as at most one map, or has at most one first fault, and not both. Want of memory,
/// which can meet any tree, is left out. Nothing is computed here; the law is the contract.
pub fn tree_has_one_answer(table: &VersionTable, json: &Value, mode: Mode)
    ensures one_map { ReadsAsOne mode table.now.rows (view json.now) }
    ensures one_fault { HasOneFault mode table.now.rows (view json.now) }
    ensures either { IsFaultlessWhereRead mode table.now.rows (view json.now) }
{}

/// The round trip: each map that fits a version's rows is shown there by one tree, and each tree that shows it is read, as
/// stored, as that map. What is read fits the rows, and what is shown nests nine deep at most, so that its text is read
/// again by `serde_json`. Nothing is computed here; the law is the contract.
pub fn what_is_shown_is_read(table: &VersionTable)
    requires { AreLawful table.now.rows }
    ensures round { RoundTrips table.now.rows }
    ensures shallow { IsShallow table.now.rows }
{}

/// The same of whole objects, with `apiVersion`, `kind` and perhaps metadata. Nothing is computed here; the law is the
/// contract.
pub fn what_is_whole_is_read(table: &VersionTable)
    requires { AreLawful table.now.rows }
    ensures { WholeRoundTrips table.now }
{}

/// What fits one version's rows fits those of each other version of the same fields. Nothing is computed here; the law is
/// the contract.
pub fn same_fields_fit_alike(table: &VersionTable, other: &VersionTable)
    requires { AreOfSameFields table.now.rows other.now.rows }
    ensures { FitsAlike table.now.rows other.now.rows }
{}

/// A release that knows fewer fields reads less, and nothing else: what a later release's rows of a version read of a
/// stored object, the earlier one's rows read of it but for the fields that they don't have. Nothing is computed here;
/// the law is the contract.
pub fn fewer_rows_read_less(table: &VersionTable, later: &VersionTable)
    requires { KnowsLess table.now.rows later.now.rows }
    ensures { ReadsLess table.now.rows later.now.rows }
{}

/// The law of conversion: fields that go from one version to another, and back, are as they were, and so is the object
/// that shows them. Nothing is computed here; the law is the contract.
pub fn there_and_back(table: &VersionTable, other: &VersionTable, fields: &Fields)
    requires lawful { AreLawful table.now.rows }
    requires other_lawful { AreLawful other.now.rows }
    requires same { AreOfSameFields table.now.rows other.now.rows }
    requires fits { Fits table.now.rows fields.now }
    ensures fits { Fits other.now.rows fields.now }
    ensures same { GoesThereAndBack table.now.rows other.now.rows fields.now }
{}
