//! Laws of steps on the data of a file: each keeps the rules of a state.
ghost use Rattle.state_rules.specs.DataRules.{CommitKeepsRules, PointKeepsRules, ShowKeepsRules, ClearKeepsRules, MoveKeepsRules};
ghost use Rattle.state_rules.specs.NoteRules.{NoteKeepsRules};

/// A commit keeps the rules.
pub fn law_commit_keeps_rules()
    ensures { CommitKeepsRules }
{}

/// So does a recovery point of a file of which all is recorded.
pub fn law_point_keeps_rules()
    ensures { PointKeepsRules }
{}

/// So do bytes that are shown of a sparse file with a recovery point.
pub fn law_show_keeps_rules()
    ensures { ShowKeepsRules }
{}

/// So do recovery points that a mount for writing clears.
pub fn law_clear_keeps_rules()
    ensures { ClearKeepsRules }
{}

/// So do extents that the collector moves to its own zone.
pub fn law_move_keeps_rules()
    ensures { MoveKeepsRules }
{}

/// So does an extent that a file's writer notes behind all that lies in its zone.
pub fn law_note_keeps_rules()
    ensures { NoteKeepsRules }
{}
