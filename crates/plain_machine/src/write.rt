//! Creations, new fields and deletions.
ghost use Rattle.std.specs.Prelude.{◌≡◌, ◌≢◌, ◌+◌, ◌<◌, ◌≤◌, IfErr, IfOk, IfSome, IsSome, None, OnOk};
ghost use Rattle.fields.specs.Fits.{Fits};
ghost use Rattle.http_front.specs.declared.request.Verb.TheVariants.{Delete, Post, Put};
ghost use Rattle.object_journal.specs.Journal.{last_revision, most_keys};
ghost use Rattle.object_state.specs.Objects.{HasKey, Holds};
ghost use Rattle.request_body.specs.Places.{place_seen};
ghost use Rattle.request_target.specs.Targets.{resource_seen};
ghost use Rattle.plain_machine.specs.Calls.{AreGivenIn, AreTexts, FitAtPlace, IsKeyFor, IsRefusedIn, IsSoundIn, IsWrittenIn, Passed, ShowsObject};
ghost use Rattle.plain_machine.specs.Heads.{IsStop};
ghost use Rattle.plain_machine.specs.Refusals.{refusals};

use crate::answer::{Answer, deleted, document};
use crate::call::Call;
use crate::decision::Decision;
use crate::stop::Stop;
use basis::Memory;
use fields::Fields;
use object_journal::Key;
use object_pages::object_page;
use object_state::{Change, Object};
use request_target::Resource;
use std::alloc::Global;

/// The answer that shows the object.
pub(crate) fn shown(
    alloc: Global,
    code: u16,
    of: Resource<'_>,
    key: &Key,
    object: &Object,
) -> Result<Answer, Memory>
    requires { Fits of.table.now.rows object.now.fields }
    ensures { IfOk result (ShowsObject code (resource_seen of.entry) key.now object.now) }
{
    let page = object_page(alloc, of, key, object)?;
    document(alloc, code, &page)
}

// ---- creations

// The object that is made at this revision.
fn creation(
    alloc: Global,
    call: &Call<'_>,
    key: Key,
    fields: Fields,
    revision: u64,
) -> Result<Decision, Memory>
    requires post { call.now.request.now.verb ≡ Post }
    requires given { AreGivenIn call.now key fields }
    requires fits { Fits call.now.place.of.table.now.rows fields }
    requires room { call.now.state.now.state.records < most_keys }
    requires next { revision ≡ call.now.state.now.state.revision + 1 }
    requires within { revision ≤ last_revision }
    ensures written { IfOk result (IsWrittenIn call.now) }
    ensures sound { IfOk result (λ d. IfSome d.change (IsSoundIn call.now)) }
{
    let object = Object {
        created: revision,
        revision,
        fields,
    };
    let answer = shown(alloc, 201, call.place.of, &key, &object)?;
    Ok(Decision {
        answer,
        change: Some(Change {
            key,
            object: Some(object),
        }),
    })
}

/// What becomes of a request that makes an object.
pub(crate) fn create(alloc: Global, call: &Call<'_>) -> Result<Decision, Stop>
    requires post { call.now.request.now.verb ≡ Post }
    requires own { (place_seen call.now.place).own ≡ None }
    requires texts { AreTexts (place_seen call.now.place) }
    ensures passed { OnOk result (Passed call.now refusals) }
    ensures written { IfOk result (IsWrittenIn call.now) }
    ensures sound { IfOk result (λ d. IfSome d.change (IsSoundIn call.now)) }
    ensures refused { IfErr result (IsStop (IsRefusedIn call.now)) }
{
    let tree = call.body(alloc)?;
    let key = call.given_key(alloc, &tree)?;
    let fields = call.fields(alloc, &tree, &key)?;
    call.absent(alloc, &key)?;
    call.complete(alloc, &key, &fields)?;
    call.room(alloc)?;
    let revision = call.next_revision(alloc)?;
    Ok(creation(alloc, call, key, fields, revision)?)
}

// ---- new fields

// The stored object with other fields, at this revision.
fn update(
    alloc: Global,
    call: &Call<'_>,
    key: Key,
    old: &Object,
    fields: Fields,
    revision: u64,
) -> Result<Decision, Memory>
    requires put { call.now.request.now.verb ≡ Put }
    requires holds { Holds call.now.state.now.state.objects key old.now }
    requires given { AreGivenIn call.now key fields }
    requires others { fields ≢ old.now.fields }
    requires fits { Fits call.now.place.of.table.now.rows fields }
    requires next { revision ≡ call.now.state.now.state.revision + 1 }
    requires within { revision ≤ last_revision }
    ensures written { IfOk result (IsWrittenIn call.now) }
    ensures sound { IfOk result (λ d. IfSome d.change (IsSoundIn call.now)) }
{
    let object = Object {
        created: old.created,
        revision,
        fields,
    };
    let answer = shown(alloc, 200, call.place.of, &key, &object)?;
    Ok(Decision {
        answer,
        change: Some(Change {
            key,
            object: Some(object),
        }),
    })
}

// The stored object as it is.
fn left(alloc: Global, call: &Call<'_>, key: &Key, old: &Object) -> Result<Decision, Memory>
    requires put { call.now.request.now.verb ≡ Put }
    requires holds { Holds call.now.state.now.state.objects key.now old.now }
    requires given { AreGivenIn call.now key.now old.now.fields }
    requires fits { Fits call.now.place.of.table.now.rows old.now.fields }
    ensures written { IfOk result (IsWrittenIn call.now) }
    ensures sound { IfOk result (λ d. IfSome d.change (IsSoundIn call.now)) }
{
    let answer = shown(alloc, 200, call.place.of, key, old)?;
    Ok(Decision {
        answer,
        change: None,
    })
}

/// What becomes of a request that gives an object new fields.
pub(crate) fn replace(alloc: Global, call: &Call<'_>) -> Result<Decision, Stop>
    requires put { call.now.request.now.verb ≡ Put }
    requires own { IsSome (place_seen call.now.place).own }
    requires texts { AreTexts (place_seen call.now.place) }
    requires fits { FitAtPlace call.now }
    ensures passed { OnOk result (Passed call.now refusals) }
    ensures written { IfOk result (IsWrittenIn call.now) }
    ensures sound { IfOk result (λ d. IfSome d.change (IsSoundIn call.now)) }
    ensures refused { IfErr result (IsStop (IsRefusedIn call.now)) }
{
    let tree = call.body(alloc)?;
    let key = call.own_key(alloc)?;
    let fields = call.fields(alloc, &tree, &key)?;
    let old = call.existing(alloc, &key)?;
    call.meant(alloc, &key, Some(&tree), old)?;
    call.complete(alloc, &key, &fields)?;
    let _objects = call.state.objects();
    if fields.same(&old.fields) {
        return Ok(left(alloc, call, &key, old)?);
    }
    let revision = call.next_revision(alloc)?;
    Ok(update(alloc, call, key, old, fields, revision)?)
}

// ---- deletions

// The object is gone.
fn removal(alloc: Global, call: &Call<'_>, key: Key) -> Result<Decision, Memory>
    requires delete { call.now.request.now.verb ≡ Delete }
    requires key { IsKeyFor call.now key }
    requires held { HasKey call.now.state.now.state.objects key }
    requires more { call.now.state.now.state.revision < last_revision }
    ensures written { IfOk result (IsWrittenIn call.now) }
    ensures sound { IfOk result (λ d. IfSome d.change (IsSoundIn call.now)) }
{
    let answer = deleted(alloc)?;
    Ok(Decision {
        answer,
        change: Some(Change { key, object: None }),
    })
}

/// What becomes of a request that deletes an object.
pub(crate) fn remove(alloc: Global, call: &Call<'_>) -> Result<Decision, Stop>
    requires delete { call.now.request.now.verb ≡ Delete }
    requires own { IsSome (place_seen call.now.place).own }
    requires texts { AreTexts (place_seen call.now.place) }
    ensures passed { OnOk result (Passed call.now refusals) }
    ensures written { IfOk result (IsWrittenIn call.now) }
    ensures sound { IfOk result (λ d. IfSome d.change (IsSoundIn call.now)) }
    ensures refused { IfErr result (IsStop (IsRefusedIn call.now)) }
{
    let tree = call.conditions(alloc)?;
    let key = call.own_key(alloc)?;
    let old = call.existing(alloc, &key)?;
    call.meant(alloc, &key, tree.as_ref(), old)?;
    let _revision = call.next_revision(alloc)?;
    Ok(removal(alloc, call, key)?)
}
