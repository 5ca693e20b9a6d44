//! Laws of the steps from one image at rest to the next.
ghost use Rattle.crash_cover.specs.RestSteps.{RestIsKept, SyncKeepsRest, FinishKeepsRest, ResetKeepsRest, RecordIsAtRest, FinishMomentMounts, ResetMomentMounts};

/// An image at rest is at rest still where its log has the same blocks and its table the same data.
pub fn rest_is_kept()
    ensures { RestIsKept }
{}

/// A sync keeps an image at rest.
pub fn sync_keeps_rest()
    ensures { SyncKeepsRest }
{}

/// A finished zone keeps an image at rest.
pub fn finish_keeps_rest()
    ensures { FinishKeepsRest }
{}

/// A data zone in which the table has nothing may be reset: the image is at rest still.
pub fn reset_keeps_rest()
    ensures { ResetKeepsRest }
{}

/// Once a record is appended to the log and synced, the image is at rest with the table after it.
pub fn record_is_at_rest()
    ensures { RecordIsAtRest }
{}

/// A crash within a finish leaves the table.
pub fn finish_moment_mounts()
    ensures { FinishMomentMounts }
{}

/// A crash within the reset of a data zone in which the table has nothing leaves the table.
pub fn reset_moment_mounts()
    ensures { ResetMomentMounts }
{}
