//! Laws of lengths, each as the contract of a function that does nothing.
ghost use Rattle.std.specs.Prelude.{◌≤◌, length};
ghost use Rattle.fields.specs.Fits.{AreOfSameFields};
ghost use Rattle.fields.specs.Table.{AreLawful};
ghost use Rattle.object_journal.specs.Payload.{HasShortTexts, body_of, longest_payload, payload_of};
ghost use Rattle.schemas.specs.Dated.{IsShaped};
ghost use Rattle.serde_json.specs.View.{view as tree_of};
ghost use Rattle.body_bound.specs.Entries.{IsShortKey};
ghost use Rattle.body_bound.specs.Held.{HoldsWithin};
ghost use Rattle.body_bound.specs.Puts.{PutsAreWithin};
ghost use Rattle.body_bound.specs.Room.{WritesWithin};
ghost use Rattle.body_bound.specs.Shown.{ShowsWithin, BodyIsWithin, longest_shown};
ghost use Rattle.body_bound.specs.Texts.{ReadsWithin};

use fields::VersionTable;
use object_journal::Entry;
use release_view::{View, view_is_kept};
use schemas::Accepted;
use serde_json::Value;

/// The texts of what bytes are read as have no more bytes than these.
pub fn texts_are_within(bytes: &[u8])
    ensures { ReadsWithin bytes.now }
{
    let _bytes = bytes;
}

/// The texts of the fields that a tree is read as have no more bytes than its texts and the
/// defaults.
pub fn held_texts_are_within(table: &VersionTable, json: &Value)
    requires { AreLawful table.now.rows }
    ensures { HoldsWithin table.now.rows (tree_of json.now) }
{
    let _table = table;
    let _json = json;
}

/// The compact text of a tree has at most six bytes for each byte of its texts and names, and what
/// stands around them.
pub fn compact_text_is_within(json: &Value)
    ensures { WritesWithin (tree_of json.now) }
{
    let _json = json;
}

/// The text of an object that shows fields has at most six bytes for each byte of their texts, of its
/// version and of its kind, and what stands around them.
pub fn shown_text_is_within(table: &VersionTable)
    requires { AreLawful table.now.rows }
    ensures { ShowsWithin table.now }
{
    let _table = table;
}

/// A stored body has at most 904,000 bytes: of the fields that a request's body is read as, or of some
/// of them, in any version of the resource.
pub fn shown_body_is_within(table: &VersionTable, shown: &VersionTable)
    requires lawful { AreLawful table.now.rows }
    requires shown_lawful { AreLawful shown.now.rows }
    requires same { AreOfSameFields table.now.rows shown.now.rows }
    ensures { BodyIsWithin table.now shown.now }
{
    let _table = table;
    let _shown = shown;
}

/// An entry of the journal that puts such a body isn't too long for it.
pub fn shown_entry_is_within(entry: &Entry)
    requires key { IsShortKey entry.now.key }
    requires body { length (body_of entry.now.change) ≤ longest_shown }
    ensures texts { HasShortTexts entry.now.key }
    ensures within { length (payload_of entry.now) ≤ longest_payload }
{
    let _entry = entry;
}

/// An accepted history has the shape that each history has, with the lengths of its names.
pub fn accepted_history_is_shaped(a: &Accepted)
    ensures { IsShaped a.now }
{
    let history = a.history();
    let _apis = &history.apis;
}

/// The journal takes each entry that stores, in the storage version, what a request gives an object.
pub fn puts_are_within(back: &View, view: &View)
    ensures { PutsAreWithin back.now view.now }
{
    view_is_kept(view);
    let _back = back;
}
