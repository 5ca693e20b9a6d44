//! Laws of tables whose extents are durable.
ghost use Rattle.crash_cover.specs.Pinned.{CrashKeepsDurable, PinnedTableStays, PinnedIsKept};

/// A crash keeps the first blocks of each zone, and all durable ones among them.
pub fn crash_keeps_durable()
    ensures { CrashKeepsDurable }
{}

/// A table whose extents are durable breaks no rule where each zone keeps its durable blocks.
pub fn pinned_table_stays()
    ensures { PinnedTableStays }
{}

/// A pinned table is pinned still where it reads the same.
pub fn pinned_is_kept()
    ensures { PinnedIsKept }
{}
