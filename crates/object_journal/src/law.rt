ghost use Rattle.std.specs.Prelude.{◌≡◌, ◌≢◌, ◌<◌, ℕ, List, [], ◌∷◌, ◌++◌};
ghost use Rattle.object_journal.specs.declared.entry.Entry.{Entry};
ghost use Rattle.object_journal.specs.Journal.{IsJournal, IsRefusal, IsGated, MayFollow, AreLawful, revision_after, open_gate, header_of, records_of};
ghost use Rattle.object_journal.specs.Payload.{frame_bytes};

use crate::entry::Entry;
use crate::framed::Framed;

/// The law of one reading: bytes mean at most one base with at most one list of entries, and bytes that mean any have no
/// place where they break the grammar, which others have at most once. No bytes have neither. Nothing is computed here;
/// the law is the contract.
pub fn bytes_have_one_reading(bytes: &[u8])
    ensures base { (a b : ℕ) (xs ys : List Entry) → IsJournal bytes.now a xs
        → IsJournal bytes.now b ys → a ≡ b }
    ensures entries { (a b : ℕ) (xs ys : List Entry) → IsJournal bytes.now a xs
        → IsJournal bytes.now b ys → xs ≡ ys }
    ensures either { (base place : ℕ) (entries : List Entry) → IsJournal bytes.now base entries
        → ¬ IsRefusal bytes.now place }
    ensures place { (p q : ℕ) → IsRefusal bytes.now p → IsRefusal bytes.now q → p ≡ q }
    ensures some { ((base : ℕ) (entries : List Entry) → ¬ IsJournal bytes.now base entries)
        → ¬ ((place : ℕ) → ¬ IsRefusal bytes.now place) }
{}

/// The law of the next record: where bytes mean a base and entries, and the framed entry may follow them, then its bytes
/// behind an open gate in place of the closed one, and a closed gate behind them, mean the entries and this one, whatever
/// follows the closed gate. Nothing is computed here; the law is the contract.
pub fn record_is_read_again(framed: &Framed)
    ensures { (base gate : ℕ) (entries : List Entry) (bytes behind : List ℕ)
        → IsGated bytes base entries → MayFollow base entries framed.now → gate ≢ open_gate
        → IsGated (header_of base
        ++ (records_of entries ++ ((open_gate ∷ frame_bytes framed.now) ++ gate ∷ behind)))
        base (entries ++ framed.now ∷ []) }
{}

/// The law of the last revision: where lawful entries have a revision above the base, the greatest is that of the last of
/// them. So the revision that may follow is one above the last. Nothing is computed here; the law is the contract.
pub fn last_revision_is_the_greatest(base: u64, entries: &[Entry])
    requires lawful { AreLawful base entries.now }
    requires above { base < revision_after base entries.now }
    ensures { (front : List Entry) (last : Entry) → entries.now ≡ front ++ last ∷ []
        → revision_after base entries.now ≡ last.revision }
{}
