//! What follows from the rules, each as the contract of a function that does nothing.
ghost use Rattle.schemas.specs.Rules.{IsAccepted};
ghost use Rattle.schemas.specs.Laws.{GatesRise, IsIntroducedOnce, KindsStayLive, HasOneFirstFault, IsJoined, ArePairsKept, LiveStaysDecodable, DecodableIsSpelled, PathsAreApart, RowsAreLawful, EachFieldHasRow, RowsAreAlike, RowsAreKept};
ghost use Rattle.std.specs.Prelude.{◌↔◌};
ghost use Rattle.schemas.specs.Pairs.{AreSpelledOnce};

use crate::history::History;

/// A history is accepted exactly where no entry breaks a rule, and has then no first fault.
pub fn accepted_is_unbroken(h: &History)
    ensures { IsJoined h.now }
{
    let _gates = &h.gates;
}

/// A history has at most one first fault.
pub fn first_fault_is_one(h: &History)
    ensures { HasOneFirstFault h.now }
{
    let _history = h;
}

/// The entries of one gate rise in date (by HR3).
pub fn gates_rise_in_date(h: &History)
    ensures { IsAccepted h.now → GatesRise h.now }
{
    let _history = h;
}

/// A version has at most one introduction (by HR6).
pub fn version_is_introduced_once(h: &History)
    ensures { IsAccepted h.now → IsIntroducedOnce h.now }
{
    let _history = h;
}

/// A kind that is live at a release is live at every later one (by HR9).
pub fn live_kind_stays_live(h: &History)
    ensures { IsAccepted h.now → KindsStayLive h.now }
{
    let _history = h;
}

/// HR14 is kept exactly where each pair of a field and a version has exactly one spelling, and each spelling is that of
/// a pair.
pub fn pairs_have_one_spelling(h: &History)
    ensures { ArePairsKept h.now ↔ AreSpelledOnce h.now.apis h.now.fields h.now.spells }
{
    let _history = h;
}

/// The paths of two spellings of one version are apart (by HR15).
pub fn paths_are_apart(h: &History)
    ensures { IsAccepted h.now → PathsAreApart h.now.spells }
{
    let _history = h;
}

/// A version that is live at a release is decodable from it up to three releases later (by HR10).
pub fn live_version_stays_decodable(h: &History)
    ensures { IsAccepted h.now → LiveStaysDecodable h.now.apis }
{
    let _history = h;
}

/// In a version that is decodable at a release each field of its resource that is there by then is spelled exactly once
/// (by HR6, HR11 and HR14).
pub fn decodable_version_is_spelled(h: &History)
    ensures { IsAccepted h.now → DecodableIsSpelled h.now }
{
    let _history = h;
}

/// The rows of a version at a release are lawful: at most 64, with paths apart, and forms and defaults that fit (by HR11,
/// HR15 and HR16).
pub fn rows_are_lawful(h: &History)
    ensures { IsAccepted h.now → RowsAreLawful h.now }
{
    let _gates = &h.gates;
}

/// In a version that is decodable at a release each field of its resource that is there by then has a row (by HR14).
pub fn each_field_has_row(h: &History)
    ensures { IsAccepted h.now → EachFieldHasRow h.now }
{
    let _history = h;
}

/// The versions of a resource that are decodable at a release have rows of the same fields (by HR11 and HR14).
pub fn rows_are_alike(h: &History)
    ensures { IsAccepted h.now → RowsAreAlike h.now }
{
    let _history = h;
}

/// A version that is decodable at a release has, at each later one, the rows that it has there, but for which of them are
/// on, and beside them those of fields that come later (by HR6, HR11 and HR14).
pub fn rows_are_kept(h: &History)
    ensures { IsAccepted h.now → RowsAreKept h.now }
{
    let _history = h;
}
