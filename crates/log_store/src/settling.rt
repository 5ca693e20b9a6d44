//! The law of the table that a mount for writing records.
ghost use Rattle.log_store.specs.Settled.{SettledTable};

/// Where nothing is pending, the table of an image at rest with the extents that are found again and without recovery
/// points is a pinned table with right sizes, and mounts to the same tree.
pub fn settled_table()
    ensures { SettledTable }
{}
