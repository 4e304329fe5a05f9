//! What follows from the definitions, each law as the contract of a function that does nothing.
ghost use Rattle.std.specs.Prelude.{List};
ghost use Rattle.disk.specs.Beside.{FrontEvent};
ghost use Rattle.session_turns.specs.Caught.{TakesLess};
ghost use Rattle.session_turns.specs.Laws.{HasOneListOfTurns, AreFrontOfAll, IsOrderOfAll};

/// Events, and for each turn whether its reply went, determine the turns but for their replies;
/// and the first turns are the front of all.
pub fn events_have_one_list_of_turns()
    ensures one { (events : List FrontEvent) → HasOneListOfTurns events }
    ensures front { (events : List FrontEvent) → AreFrontOfAll events }
{}

/// Where each reply went, the turns are the items in the order in which pieces complete them.
pub fn turns_are_in_order()
    ensures { (events : List FrontEvent) → IsOrderOfAll events }
{}

/// Whoever takes a connection's items in turn comes to an end: behind each there is less to take.
pub fn takings_end()
    ensures { TakesLess }
{}
