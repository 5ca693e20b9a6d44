//! Laws of the crash that loses the most.
ghost use Rattle.least_crash.specs.Least.{LeastIsWithin, CrashFramesBetween};

/// Each crash of an image keeps at least what the crash that loses the most keeps.
pub fn law_least_is_within()
    ensures { LeastIsWithin }
{}

/// The frames that a crash leaves begin with those in durable blocks, and are the first of those that stood.
pub fn law_crash_frames_between()
    ensures { CrashFramesBetween }
{}
