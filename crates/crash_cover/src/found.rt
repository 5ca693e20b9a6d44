//! Laws of the extents that are found again.
ghost use Rattle.crash_cover.specs.FoundExtents.{FoundIsWritten};

/// Each extent that is found again from a recovery point is written, in the zone of that point.
pub fn found_is_written()
    ensures { FoundIsWritten }
{}
