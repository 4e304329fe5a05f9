ghost use Rattle.std.specs.Prelude.{◌≡◌, ◌↔◌, [], IsTrue, OnOk, OnErr, Some, None, option_copied};
ghost use Rattle.fields.specs.Map.{IsMap, value_at, IsChangedAt, AreAlike};
ghost use Rattle.fields.specs.Places.{IsPlaceOf, IsBefore};

use crate::value::FieldValue;
use basis::Memory;
use minor_version::Text;
use std::alloc::Global;
use std::cmp::Ordering;
use std::marker::Model;

/// A field that is held, by its id.
#[derive(Debug, Drop)]
pub struct FieldPair {
    pub id: Text,
    pub value: FieldValue,
}

/// What the fields of an object hold: a finite map from ids to values, seen as its pairs in byte order of id. The empty
/// map takes no memory.
#[derive(Debug, Drop)]
pub struct Fields {
    // None until the first pair, since a `Vec` is made with its allocator.
    pairs: Option<Vec<FieldPair>>,
}

impl Model for Fields {
    ghost use Rattle.std.specs.Prelude.{List, []};
    ghost use Rattle.std.specs.Option.{option_map_or};
    ghost use Rattle.fields.specs.declared.map.FieldPair.{FieldPair};
    ghost use Rattle.fields.specs.Map.{IsMap};

    ghost Value = { List FieldPair };

    ghost view = { λ f. option_map_or (λ v. v.items) f.pairs [] };

    ghost invariant = { λ f. IsMap (option_map_or (λ v. v.items) f.pairs []) };
}

// Where the id has its pair, or else where a pair of it belongs.
fn place_of(pairs: &[FieldPair], id: &[u8]) -> Result<usize, usize>
    ensures { IsPlaceOf pairs.now id.now result }
{
    for (i, pair) in pairs.iter().enumerate() {
        match pair.id.bytes().cmp(id) {
            Ordering::Less => {}
            Ordering::Equal => return Ok(i),
            Ordering::Greater => return Err(i),
        }
    }
    Err(pairs.len())
}

// Inserts the pair where it belongs. Where memory runs out, it is dropped and the pairs stay.
fn insert_at(pairs: &mut Vec<FieldPair>, i: usize, pair: FieldPair) -> Result<(), Memory>
    requires map { IsMap pairs.old.items }
    requires place { IsBefore pairs.old.items pair.id i }
    ensures map { IsMap pairs.new.items }
    ensures ok { OnOk result
        (IsChangedAt pair.id (Some pair.value) pairs.old.items pairs.new.items) }
    ensures err { OnErr result (pairs.new.items ≡ pairs.old.items) }
{
    pairs.insert(i, pair)?;
    Ok(())
}

// Puts the value at the id. Where memory runs out, both are dropped and the pairs stay.
fn put_in(pairs: &mut Vec<FieldPair>, id: Text, value: FieldValue) -> Result<(), Memory>
    requires { IsMap pairs.old.items }
    ensures map { IsMap pairs.new.items }
    ensures ok { OnOk result (IsChangedAt id (Some value) pairs.old.items pairs.new.items) }
    ensures err { OnErr result (pairs.new.items ≡ pairs.old.items) }
{
    match place_of(pairs.as_slice(), id.bytes()) {
        Ok(i) => {
            pairs[i] = FieldPair { id, value };
            Ok(())
        }
        Err(i) => insert_at(pairs, i, FieldPair { id, value }),
    }
}

fn remove_from(pairs: &mut Vec<FieldPair>, id: &[u8])
    requires { IsMap pairs.old.items }
    ensures map { IsMap pairs.new.items }
    ensures changed { IsChangedAt id.now None pairs.old.items pairs.new.items }
{
    if let Ok(i) = place_of(pairs.as_slice(), id) {
        pairs.remove(i);
    }
}

fn same_pairs(pairs: &[FieldPair], others: &[FieldPair]) -> bool
    ensures { IsTrue result ↔ (pairs.now ≡ others.now) }
{
    if pairs.len() != others.len() {
        return false;
    }
    for (i, pair) in pairs.iter().enumerate() {
        if !pair.same(&others[i]) {
            return false;
        }
    }
    true
}

impl FieldPair {
    fn same(&self, other: &FieldPair) -> bool
        ensures { IsTrue result ↔ (self.now ≡ other.now) }
    {
        self.id == other.id && self.value.same(&other.value)
    }
}

impl Fields {
    /// The map that holds nothing.
    pub fn new() -> Self
        ensures { result ≡ [] }
    {
        Fields { pairs: None }
    }

    /// The pairs, in byte order of id.
    pub fn pairs(&self) -> &[FieldPair]
        ensures value { result.now ≡ self.now }
        ensures map { IsMap result.now }
    {
        match &self.pairs {
            Some(pairs) => pairs.as_slice(),
            None => &[],
        }
    }

    /// What is held at the id.
    pub fn get(&self, id: &[u8]) -> Option<&FieldValue>
        ensures { option_copied result ≡ value_at self.now id.now }
    {
        let pairs = self.pairs();
        match place_of(pairs, id) {
            Ok(i) => Some(&pairs[i].value),
            Err(_) => None,
        }
    }

    /// Whether both maps hold the same.
    pub fn same(&self, other: &Fields) -> bool
        ensures equal { IsTrue result ↔ (self.now ≡ other.now) }
        ensures alike { IsTrue result ↔ AreAlike self.now other.now }
    {
        same_pairs(self.pairs(), other.pairs())
    }

    /// Holds the value at the id, in place of what was held there. Where memory runs out, both are dropped and the map
    /// stays.
    pub fn put(&mut self, alloc: Global, id: Text, value: FieldValue) -> Result<(), Memory>
        ensures map { IsMap self.new }
        ensures ok { OnOk result (IsChangedAt id (Some value) self.old self.new) }
        ensures err { OnErr result (self.new ≡ self.old) }
    {
        let mut pairs = match self.pairs.take() {
            Some(pairs) => pairs,
            None => Vec::new(alloc),
        };
        let put = put_in(&mut pairs, id, value);
        self.pairs = Some(pairs);
        put
    }

    /// Holds nothing at the id any more.
    pub fn remove(&mut self, id: &[u8])
        ensures map { IsMap self.new }
        ensures changed { IsChangedAt id.now None self.old self.new }
    {
        if let Some(pairs) = &mut self.pairs {
            remove_from(pairs, id);
        }
    }
}
