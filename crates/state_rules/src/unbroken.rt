//! Laws of tables that keep the rules, on the images that they describe.
ghost use Rattle.state_rules.specs.Unbroken.{RulesUnbroken};

/// What is recorded breaks no rule of an image on which it is written, what is found again of sparse files among it.
pub fn law_rules_unbroken()
    ensures { RulesUnbroken }
{}
