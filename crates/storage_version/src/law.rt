//! What follows from the definitions, each as the contract of a function that does nothing.
ghost use Rattle.storage_version.specs.Laws.{ReadsOwn, ReadsKnown, ReadsOnce, ReadsFitting, FitsStorage, ReadsFittingStorage, MakeOneHistory, StandsForOne, StandsWhereReadable, GoesOnStanding, KeepsRecords};

use release_view::{View, later_view_reads_live, view_finds_each, view_is_kept, view_tells_tables};
use schemas::Accepted;

/// What is stored in a version that a release reads is read by it as the same fields; and what it reads of a resource fits
/// each version of that which it reads.
pub fn release_reads_own(view: &View)
    ensures own { ReadsOwn view.now.versions }
    ensures fitting { ReadsFitting view.now.versions }
{
    view_is_kept(view);
    view_finds_each(view);
}

/// What is stored in the storage version is read by the earlier release, where the kind is live there, as what it knows of
/// the fields.
pub fn earlier_release_reads_known(back: &View, view: &View)
    ensures { ReadsKnown back.now view.now }
{
    view_is_kept(view);
    view_finds_each(back);
    view_tells_tables(back);
    view_tells_tables(view);
    later_view_reads_live(back, view);
}

/// A release reads a body as one map of fields at most.
pub fn body_has_one_reading(view: &View)
    ensures { ReadsOnce view.now.versions }
{
    let _view = view;
}

/// What fits a version of a resource fits its storage version, and so does what the release reads of a stored body.
pub fn what_fits_is_stored(back: &View, view: &View)
    ensures fits { FitsStorage back.now.versions view.now.versions }
    ensures read { ReadsFittingStorage back.now.versions view.now.versions }
{
    view_is_kept(view);
    release_reads_own(view);
    let _back = back;
}

/// Views of an accepted history that texts make, of releases at most three apart, are views of one history.
pub fn views_are_of_one_history(a: &Accepted, back: &View, view: &View)
    ensures { MakeOneHistory a.now back.now view.now }
{
    let _history = a.history();
    let _back = back;
    let _view = view;
}

/// Records stand for one state at most.
pub fn records_stand_for_one_state(view: &View)
    ensures { StandsForOne view.now.versions }
{
    let _view = view;
}

/// Records that stand for a state stand under the earlier release for what it knows of that, if it reads those of the kinds
/// that are live there.
pub fn readable_records_stand(back: &View, view: &View)
    ensures { StandsWhereReadable back.now view.now }
{
    view_is_kept(back);
    view_finds_each(back);
    view_finds_each(view);
    later_view_reads_live(back, view);
}

/// The law of a step: where the state changes, and the records by the entry of that change, the records go on standing for
/// the state, and under the earlier release for what that knows of it.
pub fn records_go_on_standing(back: &View, view: &View)
    ensures { GoesOnStanding back.now view.now }
{
    release_reads_own(view);
    body_has_one_reading(view);
    body_has_one_reading(back);
    earlier_release_reads_known(back, view);
}

/// The law of kept records: they are the old ones before any step, and a step leaves those that are kept after it; for each
/// state they are one list. So they are a function of the old records and the later state.
pub fn records_are_kept(back: &View, view: &View)
    ensures { KeepsRecords back.now view.now }
{
    let _back = back;
    let _view = view;
}
