//! What follows from the definition of a cut, each as the contract of a function that does nothing.
ghost use Rattle.history_cut.specs.Laws.{IsAcceptedWhereCut, IsCutOnce, IsCutAgain};

use minor_version::Minor;
use schemas::History;

/// An accepted history that is cut at one of its releases is accepted: the cut keeps each of the rules HR1 to HR16.
pub fn cutoff_is_accepted(history: &History, o: Minor)
    ensures { IsAcceptedWhereCut history.now o }
{
    let _gates = &history.gates;
}

/// A history that is cut at a release twice is as it is where it is cut there once.
pub fn cutoff_twice_is_once(history: &History, o: Minor)
    ensures { IsCutOnce history.now o }
{
    let _gates = &history.gates;
}

/// A history that is cut at a release, and then at that or an earlier one, is as it is where it is cut at the second
/// alone.
pub fn cutoff_of_cutoff(history: &History, o: Minor, e: Minor)
    ensures { IsCutAgain history.now o e }
{
    let _gates = &history.gates;
}
