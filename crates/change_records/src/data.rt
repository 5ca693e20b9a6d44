//! Laws of the records of commits, of recovery points and of replaced extents.
ghost use Rattle.change_records.specs.DataRecords.{CommitIsRecorded, RecoveryPointIsRecorded, ReplacementIsRecorded};

/// The update of a commit makes the recorded table of the rows in which all extents of the file are recorded.
pub fn commit_is_recorded()
    ensures { CommitIsRecorded }
{}

/// The update of a recovery point makes the recorded table of the rows in which the file has it.
pub fn recovery_point_is_recorded()
    ensures { RecoveryPointIsRecorded }
{}

/// The replacement of moved extents makes the recorded table of the rows in which they are moved.
pub fn replacement_is_recorded()
    ensures { ReplacementIsRecorded }
{}
