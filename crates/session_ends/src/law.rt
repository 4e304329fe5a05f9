//! What follows from the definitions, each law as the contract of a function that does nothing.
ghost use Rattle.session_ends.specs.Drawn.{TakesAll, TakesScript};
ghost use Rattle.session_ends.specs.Laws.{GivesFirst, GivesTurns, ServesByCourse};

use disk::Disk;

/// The turns that a mux gives of a piece are the piece's: all of them, or the first ones.
pub fn pieces_have_their_turns()
    ensures all { GivesTurns }
    ensures first { GivesFirst }
{}

/// A course of turns from a front's start, by which a session ends, is what the session leaves.
pub fn courses_make_sessions<D: Disk>()
    ensures { ServesByCourse D.clock D.may_leave D.beside }
{}

/// Where the end of a front was taken, and each event had room in the buffers, all its events were taken: so it is with the
/// events of a script.
pub fn ended_fronts_are_taken()
    ensures all { TakesAll }
    ensures script { TakesScript }
{}
