//! Laws of replay: what a record makes of a table, and of the tree.
ghost use Rattle.log_model.specs.ReplayLaws.{AddedRecordIsReplayed, SnapshotIsReplayed, ReplayMakesTable, ReplayedSizesAreRight};
ghost use Rattle.log_model.specs.TableLaws.{CreateIsReplayed, LinkIsReplayed, RenameIsReplayed, RenameOverIsReplayed, DeleteIsReplayed, GrowIsReplayed, ReplaceKeepsTree, RecordKeepsTable, RecordKeepsSizes};

/// The update of a new file, replayed, creates it in the tree.
pub fn create_is_replayed()
    ensures { CreateIsReplayed }
{}

/// The update with one more name, replayed, links it in the tree.
pub fn link_is_replayed()
    ensures { LinkIsReplayed }
{}

/// The update with a free name in place of another, replayed, renames it in the tree.
pub fn rename_is_replayed()
    ensures { RenameIsReplayed }
{}

/// The update with another file's name in place of one, replayed, renames over that file in the tree.
pub fn rename_over_is_replayed()
    ensures { RenameOverIsReplayed }
{}

/// A deletion, replayed, takes the name out of the tree.
pub fn delete_is_replayed()
    ensures { DeleteIsReplayed }
{}

/// An update with more extents, replayed, grows the file in the tree.
pub fn grow_is_replayed()
    ensures { GrowIsReplayed }
{}

/// A replacement by extents of the same bytes, replayed, leaves the tree as it is.
pub fn replace_keeps_tree()
    ensures { ReplaceKeepsTree }
{}

/// A log without an end record, with one record more, replays to the table after that record.
pub fn added_record_is_replayed()
    ensures { AddedRecordIsReplayed }
{}

/// The snapshot of a table replays to that table.
pub fn snapshot_is_replayed()
    ensures { SnapshotIsReplayed }
{}

/// A record makes a table of a table: ids rise, each file has a name, and no two files share one.
pub fn record_keeps_table()
    ensures { RecordKeepsTable }
{}

/// A log that replays makes a table, whoever wrote it: ids rise, each file has a name, and no two files share one.
pub fn replay_makes_table()
    ensures { ReplayMakesTable }
{}

/// A record keeps the stated sizes right.
pub fn record_keeps_sizes()
    ensures { RecordKeepsSizes }
{}

/// The sizes of a table that was replayed are right, whoever wrote the log.
pub fn replayed_sizes_are_right()
    ensures { ReplayedSizesAreRight }
{}
