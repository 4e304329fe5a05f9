ghost use Rattle.world.specs.Growth.{GrowsByNothing, GrowsInTurn, GrowsByTaking, GrowsByFailing, GrowsByRoom, GrowsBySending, ShutsAtLast, StaysShut};
ghost use Rattle.world.specs.Rules.{LastIsInTurn};

/// The law of a front's calls: sends and events that were taken only grow at their ends, over each call and over each run
/// of calls. Nothing is computed here; the law is the contract.
pub fn fronts_only_grow()
    ensures nothing { GrowsByNothing }
    ensures in_turn { GrowsInTurn }
    ensures taking { GrowsByTaking }
    ensures failing { GrowsByFailing }
    ensures room { GrowsByRoom }
    ensures sending { GrowsBySending }
{}

/// The law of lawful events: each stands in turn behind those before it. Nothing is computed here; the law is the contract.
pub fn lawful_events_are_in_turn()
    ensures { LastIsInTurn }
{}

/// The law of shut connections: a reply that is the last of its connection, or doesn't go, shuts it, and it stays shut.
/// Nothing is computed here; the law is the contract.
pub fn last_replies_shut()
    ensures last { ShutsAtLast }
    ensures stays { StaysShut }
{}
