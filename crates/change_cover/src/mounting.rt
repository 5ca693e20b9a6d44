//! Laws of mounting for writing.
ghost use Rattle.change_cover.specs.MountRoom.{ClearedNeedsNoMore, MayMountFits, MayMountHasRoom, MayMountIsShort, MayMountRolls};
ghost use Rattle.change_cover.specs.Mounting.{MountClearsRows, MountedShowsImage, SettledShowsTheSame, SettledStands};

/// The state of an image that mounts has its table and its log, and shows the tree that it mounts to.
pub fn mounted_shows_image()
    ensures { MountedShowsImage }
{}

/// Rows whose recovery points are cleared record the entries without them, and are shown where the rows were.
pub fn mount_clears_rows()
    ensures { MountClearsRows }
{}

/// Once the table without recovery points is at rest in a new log, the state with the cleared rows and that log stands.
pub fn settled_stands()
    ensures { SettledStands }
{}

/// Where the image mounts to the tree that was mounted, that state shows it.
pub fn settled_shows_the_same()
    ensures { SettledShowsTheSame }
{}

/// Rows whose recovery points are cleared need no more room.
pub fn cleared_needs_no_more()
    ensures { ClearedNeedsNoMore }
{}

/// Where a sequence is left and a log takes the table and its greatest record, the roll isn't refused.
pub fn may_mount_rolls()
    ensures { MayMountRolls }
{}

/// Behind that roll the table has room.
pub fn may_mount_has_room()
    ensures { MayMountHasRoom }
{}

/// The blocks of that roll leave room in a zone.
pub fn may_mount_fits()
    ensures { MayMountFits }
{}

/// The snapshot of that roll is shorter than 2^32 bytes.
pub fn may_mount_is_short()
    ensures { MayMountIsShort }
{}
