//! Laws of the recorded tree after each change.
ghost use Rattle.change_records.specs.TreesAfter.{CreateChangesTree, LinkChangesTree, RenameChangesTree, UnlinkChangesTree, CommitGrowsFile, RecoveryPointKeepsTree, ReplacementKeepsTree};

/// With a new file behind the others, the recorded tree has it.
pub fn create_changes_tree()
    ensures { CreateChangesTree }
{}

/// With one more name of a file, the recorded tree has the link.
pub fn link_changes_tree()
    ensures { LinkChangesTree }
{}

/// After a rename the recorded tree is renamed, whether no file had the new name, another one, or the file itself.
pub fn rename_changes_tree()
    ensures { RenameChangesTree }
{}

/// Without a name the recorded tree is unlinked.
pub fn unlink_changes_tree()
    ensures { UnlinkChangesTree }
{}

/// After a commit the file in the recorded tree has the bytes of all its extents.
pub fn commit_grows_file()
    ensures { CommitGrowsFile }
{}

/// A recovery point leaves the recorded tree as it is.
pub fn recovery_point_keeps_tree()
    ensures { RecoveryPointKeepsTree }
{}

/// Moved extents of the same bytes leave the recorded tree as it is.
pub fn replacement_keeps_tree()
    ensures { ReplacementKeepsTree }
{}
