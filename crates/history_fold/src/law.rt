//! What follows from the definition of a fold, each as the contract of a function that does nothing.
ghost use Rattle.history_fold.specs.Laws.{IsAcceptedWhereFolded, IsFoldedOnce, KeepsTheRest, HasTablesOfWhole, IsViewedAsWhole, HasFaultsOfWhole};

use minor_version::Minor;
use schemas::History;

/// An accepted history that is folded is accepted: the fold keeps each of the rules HR1 to HR16.
pub fn folded_is_accepted(history: &History)
    ensures { IsAcceptedWhereFolded history.now }
{
    let _gates = &history.gates;
}

/// A history that is folded twice is as it is where it is folded once.
pub fn folded_twice_is_once(history: &History)
    ensures { IsFoldedOnce history.now }
{
    let _gates = &history.gates;
}

/// What stays of a history that is folded.
pub fn folded_keeps_the_rest(history: &History)
    ensures { KeepsTheRest history.now }
{
    let _gates = &history.gates;
}

/// At each release from the floor on an accepted history has, folded and cut, the tables that it has whole and cut.
pub fn folded_has_same_tables(history: &History, o: Minor)
    ensures { HasTablesOfWhole history.now o }
{
    let _gates = &history.gates;
}

/// Each release from the floor to the last has, by an accepted history that is folded, the views that it has by the
/// whole one, and the same texts of flags are valid and make the same.
pub fn folded_is_viewed_alike(history: &History, o: Minor)
    ensures { IsViewedAsWhole history.now o }
{
    let _gates = &history.gates;
}

/// At each release from the floor on a text of flags has, by an accepted history that is folded, the faults that it has by
/// the whole one, but that a key of what is forgotten may be unknown, or name only what comes later.
pub fn folded_has_same_faults(history: &History, o: Minor, text: &[u8])
    ensures { HasFaultsOfWhole history.now o text.now }
{
    let _gates = &history.gates;
}
