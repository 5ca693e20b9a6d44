//! Laws of changes of names: each keeps the rules of a state.
ghost use Rattle.state_rules.specs.NameRules.{CreateKeepsRules, LinkKeepsRules, RenameKeepsRules, UnlinkKeepsRules};

/// A new file, of a name that no file has, keeps the rules.
pub fn law_create_keeps_rules()
    ensures { CreateKeepsRules }
{}

/// So does one more name, which no file has.
pub fn law_link_keeps_rules()
    ensures { LinkKeepsRules }
{}

/// So does another name, whoever had it.
pub fn law_rename_keeps_rules()
    ensures { RenameKeepsRules }
{}

/// So does a name fewer.
pub fn law_unlink_keeps_rules()
    ensures { UnlinkKeepsRules }
{}
