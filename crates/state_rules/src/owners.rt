//! Laws of zones that are taken and given back, and of writers that are opened and closed: each keeps the rules of a
//! state.
ghost use Rattle.state_rules.specs.ZoneRules.{TakeKeepsRules, DestinationKeepsRules, VictimKeepsRules, GiveBackKeepsRules, RetireKeepsRules, OpenKeepsRules, CloseKeepsRules};
ghost use Rattle.state_rules.specs.Tokens.{TakeLeavesToken};

/// A zone that nobody holds may be taken for an open writer that has none.
pub fn law_take_keeps_rules()
    ensures { TakeKeepsRules }
{}

/// So may one for the collector to copy to.
pub fn law_destination_keeps_rules()
    ensures { DestinationKeepsRules }
{}

/// So may one for the collector to empty.
pub fn law_victim_keeps_rules()
    ensures { VictimKeepsRules }
{}

/// A zone in which nothing waits to be recorded may be given back, finished before where little room is left.
pub fn law_give_back_keeps_rules()
    ensures { GiveBackKeepsRules }
{}

/// A victim may be emptied and given back.
pub fn law_retire_keeps_rules()
    ensures { RetireKeepsRules }
{}

/// A writer that is opened keeps the rules.
pub fn law_open_keeps_rules()
    ensures { OpenKeepsRules }
{}

/// So does one that is closed and holds no zone.
pub fn law_close_keeps_rules()
    ensures { CloseKeepsRules }
{}

/// The zone that is chosen for a writer, whichever it is, leaves one active-zone token at least once it is opened.
pub fn law_take_leaves_token()
    ensures { TakeLeavesToken }
{}
