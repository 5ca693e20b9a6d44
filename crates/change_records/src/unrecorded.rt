//! Laws of steps that write no record, and of the rows of a mount.
ghost use Rattle.change_records.specs.Unrecorded.{NoteRecordsNothing, ShowChangesTime, ShowStaysWritable, MountClearsPoints, MountedRowsAreValid};

/// An extent that is noted leaves what is recorded as it is.
pub fn note_records_nothing()
    ensures { NoteRecordsNothing }
{}

/// Bytes that are shown change the time of their file at most, in what is recorded.
pub fn show_changes_time()
    ensures { ShowChangesTime }
{}

/// What is recorded can be written after bytes are shown.
pub fn show_stays_writable()
    ensures { ShowStaysWritable }
{}

/// Without their recovery points rows are valid, can be written, and are the same tree.
pub fn mount_clears_points()
    ensures { MountClearsPoints }
{}

/// The rows of an image that mounts are valid, whoever wrote it.
pub fn mounted_rows_are_valid()
    ensures { MountedRowsAreValid }
{}
