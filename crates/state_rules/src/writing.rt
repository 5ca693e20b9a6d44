//! Laws of mounts that write: a data zone may grow and be finished.
ghost use Rattle.state_rules.specs.WritingRules.{AppendKeepsWriting, FinishKeepsWriting};
ghost use Rattle.state_rules.specs.WritingData.{CommitKeepsWriting, ShowKeepsWriting, NoteKeepsWriting, PointKeepsWriting};

/// An append to a data zone that somebody holds keeps the rules of a mount that writes.
pub fn law_append_keeps_writing()
    ensures { AppendKeepsWriting }
{}

/// So does a finish of a data zone.
pub fn law_finish_keeps_writing()
    ensures { FinishKeepsWriting }
{}

/// So does a commit, which needs no more room than the table had.
pub fn law_commit_keeps_writing()
    ensures { CommitKeepsWriting }
{}

/// So do bytes that are shown of a sparse file with a recovery point.
pub fn law_show_keeps_writing()
    ensures { ShowKeepsWriting }
{}

/// So does an extent that a file's writer notes, where the table has room with it.
pub fn law_note_keeps_writing()
    ensures { NoteKeepsWriting }
{}

/// So does a recovery point in the zone of its file's writer.
pub fn law_point_keeps_writing()
    ensures { PointKeepsWriting }
{}
