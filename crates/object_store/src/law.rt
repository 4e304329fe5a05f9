ghost use Rattle.std.specs.Prelude.{◌≡◌, ℕ, List};
ghost use Rattle.object_journal.specs.Standing.{MeansSame};
ghost use Rattle.object_store.specs.declared.item.Item.{Item};
ghost use Rattle.object_store.specs.Records.{AreRecords, RecoversTo};
ghost use Rattle.object_store.specs.Stores.{KeepsRecords};

use object_journal::{Entry, bytes_have_one_reading};

/// The law of one list: entries leave at most one list of records. Nothing is computed here; the law is the contract.
pub fn entries_leave_one_list(entries: &[Entry])
    ensures { (xs ys : List Item) → AreRecords entries.now xs → AreRecords entries.now ys → xs ≡ ys }
{}

/// The law of what is recovered: bytes give at most one list of records, at one revision. Nothing is computed here; the
/// law is the contract.
pub fn bytes_give_one_list_of_records(bytes: &[u8])
    ensures items { (xs ys : List Item) (n m : ℕ) → RecoversTo bytes.now xs n
        → RecoversTo bytes.now ys m → xs ≡ ys }
    ensures revision { (xs ys : List Item) (n m : ℕ) → RecoversTo bytes.now xs n
        → RecoversTo bytes.now ys m → n ≡ m }
{
    bytes_have_one_reading(bytes)
}

/// The law of what an opening leaves: bytes that mean what others mean give the same records at the same revision. Nothing
/// is computed here; the law is the contract.
pub fn same_meaning_gives_the_same_records(old: &[u8], new: &[u8])
    requires { MeansSame old.now new.now }
    ensures { KeepsRecords old.now new.now }
{}
