//! Laws of the records of new files, of links, of renames and of deletions.
ghost use Rattle.change_records.specs.NameRecords.{CreateIsRecorded, LinkIsRecorded, RenameIsRecorded, UnlinkIsRecorded};

/// The update of a new file makes the recorded table of the rows with that file behind the others.
pub fn create_is_recorded()
    ensures { CreateIsRecorded }
{}

/// The update with one more name makes the recorded table of the rows in which the file has it too.
pub fn link_is_recorded()
    ensures { LinkIsRecorded }
{}

/// The update of a file under its new name makes the recorded table of the rows after the rename, whether no file had
/// that name, another one, or the file itself.
pub fn rename_is_recorded()
    ensures { RenameIsRecorded }
{}

/// A deletion makes the recorded table of the rows without the name.
pub fn unlink_is_recorded()
    ensures { UnlinkIsRecorded }
{}
