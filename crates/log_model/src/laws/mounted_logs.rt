//! Laws of what an image mounts to, while its log gets a record or is followed by a new one.
ghost use Rattle.log_model.specs.MountedLogLaws.{SelectedTableMounts, RecordMounts, PartMounts, NewLogMounts};

/// The table of the selected log mounts where it breaks no rule.
pub fn selected_table_mounts()
    ensures { SelectedTableMounts }
{}

/// Once a record stands behind the log, the table after it mounts.
pub fn record_mounts()
    ensures { RecordMounts }
{}

/// While a part of the record stands there, the table before it mounts.
pub fn part_mounts()
    ensures { PartMounts }
{}

/// A new log with the snapshot of a table mounts that table.
pub fn new_log_mounts()
    ensures { NewLogMounts }
{}
