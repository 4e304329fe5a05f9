//! Requests for objects, and their refusals, in the order in which they are tested. Each test is of a
//! request that passed those before it.
ghost use Rattle.std.specs.Prelude.{◌≡◌, ◌+◌, ◌<◌, ◌≤◌, All, IfErr, IfOk, IfSome, IsSome, None, OnOk, option_map};
ghost use Rattle.fields.specs.Fits.{Fits};
ghost use Rattle.http_front.specs.declared.request.Verb.TheVariants.{Delete, Post};
ghost use Rattle.object_journal.specs.Journal.{last_revision, most_keys};
ghost use Rattle.object_state.specs.Objects.{Holds};
ghost use Rattle.request_body.specs.Members.{FitsMember, members_of};
ghost use Rattle.request_body.specs.Places.{place_seen};
ghost use Rattle.request_body.specs.Writes.{GivesFields, GoesByBody, HasTree};
ghost use Rattle.plain_machine.specs.Calls.{AreGivenIn, AreTexts, HasBody, IsBodyOf, IsKeyFor, IsRefusedIn, IsToChange, Passed, conflict_cases, field_cases, full_cases, member_cases, missing_cases, object_cases};
ghost use Rattle.plain_machine.specs.Heads.{IsStop};
ghost use Rattle.plain_machine.specs.Refusals.{refusals};
ghost use Rattle.serde_json.specs.View.{view as tree_of};

use crate::answer::{
    bad_body, bad_field, bad_member, conflict, ended, exists, full, missing, no_object,
};
use crate::stop::Stop;
use basis::Memory;
use conversion::{ReadFault, object_of};
use fields::Fields;
use http_front::Request;
use object_journal::Key;
use object_state::{Object, State};
use request_body::{Place, fields_given, first_missing, is_meant_for_another, misfit, name_in};
use serde_json::Value;
use std::alloc::Global;

/// The most records that a store has.
const MOST_RECORDS: u64 = 4_096;

/// The last revision of a store.
const LAST_REVISION: u64 = 1_000_000;

/// A request for objects at a place, and the state that it finds.
#[derive(Clone, Copy, Debug)]
pub(crate) struct Call<'a> {
    pub state: &'a State,
    pub request: &'a Request,
    pub place: Place<'a>,
}

impl<'a> Call<'a> {
    // ---- the body

    fn json(&self, alloc: Global) -> Result<Value, Stop>
        requires { GoesByBody self.now.request.now.verb self.now.request.now.body }
        ensures ok { IfOk result (λ v. HasTree self.now.request.now (tree_of v)) }
        ensures refused { IfErr result (IsStop (IsRefusedIn self.now)) }
    {
        match object_of(alloc, self.request.body.bytes())? {
            Some(tree) => Ok(tree),
            None => Err(Stop::Refused(bad_body(alloc)?)),
        }
    }

    fn members(&self, alloc: Global, tree: &Value) -> Result<(), Stop>
        requires { HasTree self.now.request.now (tree_of tree.now) }
        ensures ok { OnOk result (All (FitsMember (place_seen self.now.place) (tree_of tree.now))
            (members_of self.now.request.now.verb)) }
        ensures refused { IfErr result (IsStop (IsRefusedIn self.now)) }
    {
        match misfit(self.request.verb, self.place, tree) {
            Some(member) => Err(Stop::Refused(bad_member(alloc, member)?)),
            None => Ok(()),
        }
    }

    /// The body, which is a JSON object whose members fit.
    pub(crate) fn body(&self, alloc: Global) -> Result<Value, Stop>
        requires { GoesByBody self.now.request.now.verb self.now.request.now.body }
        ensures ok { IfOk result (λ v. HasBody self.now (tree_of v)) }
        ensures passed { OnOk result (Passed self.now member_cases) }
        ensures refused { IfErr result (IsStop (IsRefusedIn self.now)) }
    {
        let tree = self.json(alloc)?;
        self.members(alloc, &tree)?;
        Ok(tree)
    }

    /// The body of a deletion, which may have none.
    pub(crate) fn conditions(&self, alloc: Global) -> Result<Option<Value>, Stop>
        requires { self.now.request.now.verb ≡ Delete }
        ensures ok { IfOk result (λ o. IsBodyOf self.now (option_map tree_of o)) }
        ensures passed { OnOk result (Passed self.now field_cases) }
        ensures refused { IfErr result (IsStop (IsRefusedIn self.now)) }
    {
        if self.request.body.bytes().is_empty() {
            return Ok(None);
        }
        let tree = self.body(alloc)?;
        Ok(Some(tree))
    }

    // ---- the object that the request is about

    /// The key of the object that the path names.
    pub(crate) fn own_key(&self, alloc: Global) -> Result<Key, Memory>
        requires own { IsSome (place_seen self.now.place).own }
        requires texts { AreTexts (place_seen self.now.place) }
        ensures { IfOk result (IsKeyFor self.now) }
    {
        match self.place.own {
            Some(name) => self.place.key(alloc, name),
            None => unreachable!(),
        }
    }

    /// The key of the object that the body names.
    pub(crate) fn given_key(&self, alloc: Global, tree: &Value) -> Result<Key, Memory>
        requires post { self.now.request.now.verb ≡ Post }
        requires own { (place_seen self.now.place).own ≡ None }
        requires texts { AreTexts (place_seen self.now.place) }
        requires body { HasBody self.now (tree_of tree.now) }
        ensures { IfOk result (IsKeyFor self.now) }
    {
        match name_in(tree) {
            Some(name) => self.place.key(alloc, name.as_bytes()),
            None => unreachable!(),
        }
    }

    /// The fields that the body gives the object.
    pub(crate) fn fields(&self, alloc: Global, tree: &Value, key: &Key) -> Result<Fields, Stop>
        requires passed { Passed self.now member_cases }
        requires gives { GivesFields self.now.request.now.verb }
        requires body { HasBody self.now (tree_of tree.now) }
        requires key { IsKeyFor self.now key.now }
        ensures ok { IfOk result (AreGivenIn self.now key.now) }
        ensures fits { IfOk result (Fits self.now.place.of.table.now.rows) }
        ensures passed { OnOk result (Passed self.now field_cases) }
        ensures refused { IfErr result (IsStop (IsRefusedIn self.now)) }
    {
        let stored = match self.state.get(key) {
            Some(object) => Some(&object.fields),
            None => None,
        };
        match fields_given(alloc, self.place, tree, stored) {
            Ok(fields) => Ok(fields),
            Err(ReadFault::Bad { path, cause }) => {
                Err(Stop::Refused(bad_field(alloc, path.items(), cause)?))
            }
            Err(ReadFault::Memory) => Err(Stop::Memory),
        }
    }

    /// The object, which is there.
    pub(crate) fn existing(&self, alloc: Global, key: &Key) -> Result<&'a Object, Stop>
        requires passed { Passed self.now field_cases }
        requires own { IsSome (place_seen self.now.place).own }
        requires key { IsKeyFor self.now key.now }
        ensures ok { IfOk result (λ o. Holds self.now.state.now.state.objects key.now o.now) }
        ensures passed { OnOk result (Passed self.now object_cases) }
        ensures refused { IfErr result (IsStop (IsRefusedIn self.now)) }
    {
        match self.state.get(key) {
            Some(object) => Ok(object),
            None => Err(Stop::Refused(no_object(alloc, self.place.of, key.name.as_str())?)),
        }
    }

    /// The object that is to be made isn't there.
    pub(crate) fn absent(&self, alloc: Global, key: &Key) -> Result<(), Stop>
        requires passed { Passed self.now field_cases }
        requires post { self.now.request.now.verb ≡ Post }
        requires own { (place_seen self.now.place).own ≡ None }
        requires key { IsKeyFor self.now key.now }
        ensures passed { OnOk result (Passed self.now conflict_cases) }
        ensures refused { IfErr result (IsStop (IsRefusedIn self.now)) }
    {
        match self.state.get(key) {
            Some(_) => Err(Stop::Refused(exists(alloc, self.place.of, key.name.as_str())?)),
            None => Ok(()),
        }
    }

    /// The request is meant for the object as it is.
    pub(crate) fn meant(
        &self,
        alloc: Global,
        key: &Key,
        tree: Option<&Value>,
        object: &Object,
    ) -> Result<(), Stop>
        requires passed { Passed self.now object_cases }
        requires key { IsKeyFor self.now key.now }
        requires holds { Holds self.now.state.now.state.objects key.now object.now }
        requires body { IsBodyOf self.now (option_map (λ v. tree_of v.now) tree) }
        ensures passed { OnOk result (Passed self.now conflict_cases) }
        ensures refused { IfErr result (IsStop (IsRefusedIn self.now)) }
    {
        let _objects = self.state.objects();
        match tree {
            Some(tree) => {
                if is_meant_for_another(self.request.verb, tree, object) {
                    Err(Stop::Refused(conflict(alloc, self.place.of, key.name.as_str())?))
                } else {
                    Ok(())
                }
            }
            None => Ok(()),
        }
    }

    /// The required fields are there.
    pub(crate) fn complete(&self, alloc: Global, key: &Key, fields: &Fields) -> Result<(), Stop>
        requires passed { Passed self.now conflict_cases }
        requires gives { GivesFields self.now.request.now.verb }
        requires given { AreGivenIn self.now key.now fields.now }
        ensures passed { OnOk result (Passed self.now missing_cases) }
        ensures refused { IfErr result (IsStop (IsRefusedIn self.now)) }
    {
        let _objects = self.state.objects();
        let of = self.place.of;
        match first_missing(of.table, fields) {
            Some(row) => {
                Err(Stop::Refused(missing(alloc, of, key.name.as_str(), row.path.items())?))
            }
            None => Ok(()),
        }
    }

    // ---- the store

    /// There is room for one more record.
    pub(crate) fn room(&self, alloc: Global) -> Result<(), Stop>
        requires passed { Passed self.now missing_cases }
        requires post { self.now.request.now.verb ≡ Post }
        ensures room { OnOk result (self.now.state.now.state.records < most_keys) }
        ensures passed { OnOk result (Passed self.now full_cases) }
        ensures refused { IfErr result (IsStop (IsRefusedIn self.now)) }
    {
        if self.state.records() >= MOST_RECORDS {
            Err(Stop::Refused(full(alloc)?))
        } else {
            Ok(())
        }
    }

    /// The revision that the request makes.
    pub(crate) fn next_revision(&self, alloc: Global) -> Result<u64, Stop>
        requires passed { Passed self.now full_cases }
        requires changes { IsToChange self.now }
        ensures next { IfOk result (λ n. n ≡ self.now.state.now.state.revision + 1) }
        ensures within { IfOk result (λ n. n ≤ last_revision) }
        ensures passed { OnOk result (Passed self.now refusals) }
        ensures refused { IfErr result (IsStop (IsRefusedIn self.now)) }
    {
        let revision = self.state.revision();
        if revision >= LAST_REVISION {
            Err(Stop::Refused(ended(alloc)?))
        } else {
            Ok(revision + 1)
        }
    }
}
