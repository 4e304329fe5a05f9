//! Laws of a state. Nothing is computed here; each law is a contract.
ghost use Rattle.std.specs.Prelude.{◌≡◌, ◌≢◌, ◌↔◌, ◌+◌, List, Some, None, length};
ghost use Rattle.object_journal.specs.declared.key.Key.{Key as KeyS};
ghost use Rattle.key_order.specs.Stretches.{AreByNamespace};
ghost use Rattle.object_state.specs.declared.object.Object.{Object as ObjectS};
ghost use Rattle.object_state.specs.declared.object.Stored.{Stored as StoredS};
ghost use Rattle.object_state.specs.Objects.{AreInKeyOrder, Holds, HasKey, IsChanged, objects_of, objects_inside};
ghost use Rattle.object_state.specs.State.{State as StateS, IsApplied};

use crate::object::{Change, Stored};
use crate::state::State;

/// A key holds at most one object.
pub fn key_holds_one_object(objects: &[Stored])
    requires { AreInKeyOrder objects.now }
    ensures { (key : KeyS) (a b : ObjectS) → Holds objects.now key a
        → Holds objects.now key b → a ≡ b }
{}

/// A change leaves one state.
pub fn change_leaves_one_state(state: &State, change: &Change)
    ensures { (a b : StateS) → IsApplied state.now.state change.now a
        → IsApplied state.now.state change.now b → a ≡ b }
{}

/// A change leaves what is under the other keys.
pub fn change_touches_one_key(state: &State, change: &Change)
    ensures { (new : StateS) (key : KeyS) (object : ObjectS)
        → IsApplied state.now.state change.now new → key ≢ change.now.key
        → Holds new.objects key object ↔ Holds state.now.state.objects key object }
{}

/// A change leaves one object more where its key is new, as many where it puts an object over another, and one less where
/// it takes one out.
pub fn change_counts_objects(objects: &[Stored], change: &Change)
    requires { AreInKeyOrder objects.now }
    ensures comes { (new : List StoredS) (object : ObjectS) → IsChanged objects.now change.now new
        → change.now.object ≡ Some object → ¬ HasKey objects.now change.now.key
        → length new ≡ length objects.now + 1 }
    ensures stays { (new : List StoredS) (object : ObjectS) → IsChanged objects.now change.now new
        → change.now.object ≡ Some object → HasKey objects.now change.now.key
        → length new ≡ length objects.now }
    ensures goes { (new : List StoredS) → IsChanged objects.now change.now new
        → change.now.object ≡ None → HasKey objects.now change.now.key
        → length new + 1 ≡ length objects.now }
{}

/// The objects of a resource, and those of one namespace of it, stand by namespace, then name.
pub fn listed_objects_stand_by_name(
    objects: &[Stored],
    group: &[u8],
    resource: &[u8],
    namespace: &[u8],
)
    requires { AreInKeyOrder objects.now }
    ensures whole { AreByNamespace (λ s. s.key) (objects_of group.now resource.now objects.now) }
    ensures inside { AreByNamespace (λ s. s.key)
        (objects_inside group.now resource.now namespace.now objects.now) }
{}
