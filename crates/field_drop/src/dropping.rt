ghost use Rattle.std.specs.Prelude.{◌↔◌, IsTrue, option_copied};
ghost use Rattle.field_drop.specs.Dropping.{IsStored, AreKept};

use fields::{Fields, VersionTable};

fn is_stored(old: Option<&Fields>, id: &[u8]) -> bool
    ensures { IsTrue result ↔ IsStored (option_copied old.entry) id.now }
{
    match old {
        Some(old) => old.get(id).is_some(),
        None => false,
    }
}

/// Removes from the fields of a new object exactly those whose row in the table isn't on and which the stored object
/// doesn't hold. An object that is created has no stored one. (The rule on disabled fields in Kubernetes' document on API
/// changes.)
pub fn drop_fields(new: &mut Fields, old: Option<&Fields>, table: &VersionTable)
    ensures { AreKept table.now.rows (option_copied old.entry) new.old new.new }
{
    let _pairs = new.pairs();
    for row in table.rows.items() {
        let id = row.id.bytes();
        if !row.on && !is_stored(old, id) {
            new.remove(id);
        }
    }
}
