//! Laws of resets of data zones in which the table has nothing.
ghost use Rattle.change_cover.specs.Resets.{DeadZoneHasNothing, NoExtentIsNothing, ResetLeaves, ResetMountsTheSame, ResetStands};

/// Where no extent lies in a zone and no file has a recovery point, the table has nothing in it.
pub fn no_extent_is_nothing()
    ensures { NoExtentIsNothing }
{}

/// Nor has it anything in a zone in which no extent of the state lies.
pub fn dead_zone_has_nothing()
    ensures { DeadZoneHasNothing }
{}

/// After the reset the image has the same rows at rest.
pub fn reset_stands()
    ensures { ResetStands }
{}

/// A crash within the reset leaves the tree that is shown.
pub fn reset_leaves()
    ensures { ResetLeaves }
{}

/// Such a crash mounts to exactly that tree, times included.
pub fn reset_mounts_the_same()
    ensures { ResetMountsTheSame }
{}
