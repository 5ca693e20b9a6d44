//! Laws of images at rest, and of a record that is added to their log.
ghost use Rattle.crash_cover.specs.AtRest.{RestMounts, CrashAtRestMounts, RecordMomentMounts};

/// An image at rest mounts its table.
pub fn rest_mounts()
    ensures { RestMounts }
{}

/// Whatever a crash leaves of an image at rest mounts the same table.
pub fn crash_at_rest_mounts()
    ensures { CrashAtRestMounts }
{}

/// A crash within the append of a record to the log of an image at rest leaves the table before it or the one after it.
pub fn record_moment_mounts()
    ensures { RecordMomentMounts }
{}
