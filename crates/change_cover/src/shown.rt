//! Laws of the tree that is shown where the image is at rest.
ghost use Rattle.change_cover.specs.ShownTrees.{CrashMountsShown, RestMountsShown, RestShowsRecorded};

/// Where all is recorded and shown, the tree that is shown is the recorded one.
pub fn rest_shows_recorded()
    ensures { RestShowsRecorded }
{}

/// Where besides no file has a recovery point, the image mounts to exactly the tree that is shown.
pub fn rest_mounts_shown()
    ensures { RestMountsShown }
{}

/// So does whatever a crash leaves of it.
pub fn crash_mounts_shown()
    ensures { CrashMountsShown }
{}
