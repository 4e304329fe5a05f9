//! What follows from the definitions, each law as the contract of a function that does nothing.
ghost use Rattle.served_steps.specs.Laws.{HaveOneEnd, AreJoined, KeepWhatHolds, StandFitting, ChangesAreStorable, KeptGoOnStanding, AreKeptAfterSteps};

use crate::texts::served_have_texts;
use object_state::State;
use plain_machine::Machine;
use release_view::{View, later_view_reads_live, view_finds_each, view_is_kept};
use storage_version::{records_are_kept, records_go_on_standing, release_reads_own};

/// The same items have the same replies, one after another, and leave one state.
pub fn steps_have_one_end(machine: &Machine, state: &State)
    ensures { HaveOneEnd machine.now state.now.state }
{
    let _objects = state.objects();
    let _machine = machine;
}

/// Some steps and then others are all of them one after another.
pub fn steps_are_joined(machine: &Machine, state: &State)
    ensures { AreJoined machine.now state.now.state }
{
    let _machine = machine;
    let _state = state;
}

/// Steps don't lower the revision; the objects go on fitting the versions of their resources; and the codes of the replies are
/// those that replies have.
pub fn steps_keep_what_holds(machine: &Machine, state: &State)
    ensures { KeepWhatHolds machine.now state.now.state }
{
    view_finds_each(&machine.view);
    view_is_kept(&machine.view);
    let _state = state;
}

/// Objects that stored records are read as fit the versions of their resources.
pub fn standing_objects_fit(view: &View)
    ensures { StandFitting view.now.versions }
{
    release_reads_own(view);
}

/// A change that a request makes can be stored.
pub fn changes_are_storable(back: &View, machine: &Machine)
    ensures { ChangesAreStorable back.now machine.now }
{
    let _back = back;
    view_finds_each(&machine.view);
    view_is_kept(&machine.view);
}

/// After any steps from a state that records stand for, there are records that are kept of them; they stand for the later state,
/// and by the earlier release for what that knows of it.
pub fn kept_records_go_on_standing(back: &View, machine: &Machine)
    ensures standing { KeptGoOnStanding back.now machine.now }
    ensures kept { AreKeptAfterSteps back.now machine.now }
{
    view_finds_each(&machine.view);
    view_is_kept(&machine.view);
    later_view_reads_live(back, &machine.view);
    served_have_texts(back, &machine.view);
    records_go_on_standing(back, &machine.view);
    records_are_kept(back, &machine.view);
}
