//! Laws of the tree that a crash leaves, with what is found again in durable blocks.
ghost use Rattle.least_crash.specs.Recovery.{CrashRecovers, RecordMomentRecovers};

/// Whatever a crash leaves of an image at rest mounts to the tree of its table with what durable blocks have, but that
/// a sparse file may have more bytes, which stood behind them.
pub fn law_crash_recovers()
    ensures { CrashRecovers }
{}

/// A crash within the append of a record to the log of an image at rest leaves what a crash may leave of the table
/// before it, or of the one after it.
pub fn law_record_moment_recovers()
    ensures { RecordMomentRecovers }
{}
