//! Laws of a log at rest. Each function does nothing, and its contract is a law.
ghost use Rattle.log_store.specs.RollRest.{RollIsAtRest, RollMomentMounts, RollMomentRecovers};

/// After a roll the image is at rest with the new log and the table of its snapshot.
pub fn roll_is_at_rest()
    ensures { RollIsAtRest }
{}

/// A crash within a roll leaves what a crash may leave of the table before it, or of the table of the snapshot.
pub fn roll_moment_recovers()
    ensures { RollMomentRecovers }
{}

/// A crash within a roll mounts the table before it, or the table of the snapshot.
pub fn roll_moment_mounts()
    ensures { RollMomentMounts }
{}
