//! Laws of crashes: what they leave of the zones that logs and tables are read from.
ghost use Rattle.log_model.specs.CrashLaws.{CrashKeepsFronts, DurableZoneStays, AppendCrashLeavesPart, RecordCrashMounts, FilledCrashLeavesPart, NewLogCrashMounts};

/// A crash keeps the first blocks of each zone.
pub fn crash_keeps_fronts()
    ensures { CrashKeepsFronts }
{}

/// A zone whose blocks are all durable keeps all of them.
pub fn durable_zone_stays()
    ensures { DurableZoneStays }
{}

/// After an append to a durable metadata zone a crash leaves the first blocks of the append there, and the other metadata zones as they were.
pub fn append_crash_leaves_part()
    ensures { AppendCrashLeavesPart }
{}

/// A crash within the append of a record to the log leaves the table before it or the one after it, where these break no rule there.
pub fn record_crash_mounts()
    ensures { RecordCrashMounts }
{}

/// A crash of an image with a filled metadata zone, whose others are durable, leaves the first of its blocks there.
pub fn filled_crash_leaves_part()
    ensures { FilledCrashLeavesPart }
{}

/// A crash while a new log with the snapshot of the old one's table is written leaves that table, where it breaks no rule there.
pub fn new_log_crash_mounts()
    ensures { NewLogCrashMounts }
{}
