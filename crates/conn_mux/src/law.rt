ghost use Rattle.conn_mux.specs.Follows.{FollowsDrop, FollowsOpening, FollowsPiece, FollowsTaking, HasGivenAll};
ghost use Rattle.conn_mux.specs.Streams.{LeavesBehind, LeavesMore, LeavesNone};
ghost use Rattle.conn_mux.specs.Orders.{GivesNothing, HasItemsOfStream, HasOneOrder, KeepsOrder, LeavesCompleted};

/// The law of one stream: what is taken of its rest in turn, while bytes come, are its items, and what is taken between two
/// pieces is what the later one completes. Nothing is computed here; the law is the contract.
pub fn takings_are_the_items(stream: &[u8])
    ensures more { LeavesMore stream.now }
    ensures next { LeavesBehind stream.now }
    ensures all { LeavesNone stream.now }
    ensures completed { LeavesCompleted stream.now }
{}

/// The law of order: events complete items in one order, and more events only add to it. Nothing is computed here; the
/// law is the contract.
pub fn events_have_one_order()
    ensures one { HasOneOrder }
    ensures kept { KeepsOrder }
{}

/// The law of cuts: what events complete of a connection are the items of its stream, wherever that is cut into pieces,
/// and nothing of a connection that isn't held. Nothing is computed here; the law is the contract.
pub fn cuts_change_no_item(c: u32)
    ensures held { HasItemsOfStream c }
    ensures other { GivesNothing c }
{}

/// The law of a mux: through each call it has what is left of a connection's stream behind the items that it gave, and where
/// it gives nothing it gave all items of the stream. Nothing is computed here; the law is the contract.
pub fn mux_follows_streams(c: u32)
    ensures opening { FollowsOpening c }
    ensures piece { FollowsPiece c }
    ensures dropping { FollowsDrop c }
    ensures taking { FollowsTaking c }
    ensures all { HasGivenAll c }
{}
