//! Laws of changes of names that set no recovery point.
ghost use Rattle.change_cover.specs.NameChanges.{CreateSetsNoPoint, NamesSetNoPoint, RenameSetsNoPoint, UnlinkSetsNoPoint};

/// A new file has no recovery point.
pub fn create_sets_no_point()
    ensures { CreateSetsNoPoint }
{}

/// Other names of a file, as after a link, set none.
pub fn names_set_no_point()
    ensures { NamesSetNoPoint }
{}

/// A deletion sets none.
pub fn unlink_sets_no_point()
    ensures { UnlinkSetsNoPoint }
{}

/// A rename sets none.
pub fn rename_sets_no_point()
    ensures { RenameSetsNoPoint }
{}
