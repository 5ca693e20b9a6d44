//! Laws of the tree that a crash leaves.
ghost use Rattle.crash_cover.specs.Recovery.{CrashRecovers, RecordMomentRecovers};

/// Whatever a crash leaves of an image at rest mounts to the tree of its table, but that a sparse file may have more
/// bytes, which stood behind its recovery point.
pub fn crash_recovers()
    ensures { CrashRecovers }
{}

/// A crash within the append of a record to the log of an image at rest leaves what a crash may leave of the table
/// before it, or of the one after it.
pub fn record_moment_recovers()
    ensures { RecordMomentRecovers }
{}
