//! Laws of steps on zones and on the log: each keeps the rules of a state.
ghost use Rattle.state_rules.specs.ZoneRules.{AppendKeepsRules, FinishKeepsRules, ResetKeepsRules, RollKeepsRules, RecordKeepsRules, DeadZonesKeepRules, FreeTokenKeepsRules};

/// An append keeps the rules.
pub fn law_append_keeps_rules()
    ensures { AppendKeepsRules }
{}

/// So does a finish.
pub fn law_finish_keeps_rules()
    ensures { FinishKeepsRules }
{}

/// So does a reset.
pub fn law_reset_keeps_rules()
    ensures { ResetKeepsRules }
{}

/// A roll of the log keeps the rules in every state that it passes.
pub fn law_roll_keeps_rules()
    ensures { RollKeepsRules }
{}

/// So does a record that is added, after a roll where it must.
pub fn law_record_keeps_rules()
    ensures { RecordKeepsRules }
{}

/// So do the resets of zones that nothing needs.
pub fn law_dead_zones_keep_rules()
    ensures { DeadZonesKeepRules }
{}

/// So does the finish by which a mount for writing gets a token.
pub fn law_free_token_keeps_rules()
    ensures { FreeTokenKeepsRules }
{}
