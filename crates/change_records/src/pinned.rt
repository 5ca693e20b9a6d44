//! Laws of changes that add no extent: each extent and each recovery point is durable afterwards where it was before.
ghost use Rattle.change_records.specs.PinnedRows.{CreateAddsNoExtent, NamesAddNoExtent, RenameAddsNoExtent, UnlinkAddsNoExtent};

/// With a new file the same extents are recorded, and what was pinned is.
pub fn create_adds_no_extent()
    ensures { CreateAddsNoExtent }
{}

/// With other names of a file, as after a link, the same extents are recorded, and what was pinned is.
pub fn names_add_no_extent()
    ensures { NamesAddNoExtent }
{}

/// After a rename some of the extents are recorded, and what was pinned is.
pub fn rename_adds_no_extent()
    ensures { RenameAddsNoExtent }
{}

/// After a deletion some of the extents are recorded, and what was pinned is.
pub fn unlink_adds_no_extent()
    ensures { UnlinkAddsNoExtent }
{}
