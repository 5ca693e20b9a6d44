//! Laws of mounting: what it reads, and what a crash keeps.
ghost use Rattle.log_model.specs.MountLaws.{MountReadsBlocks, FrontHasFirstFrames, FramesStayInOrder, KeptExtentStays, KeptTableStays};

/// A mount reads the geometry and the blocks of an image: seals and durable numbers change neither log nor table nor tree.
pub fn mount_reads_blocks()
    ensures { MountReadsBlocks }
{}

/// The first blocks of a zone have the first of its frames.
pub fn front_has_first_frames()
    ensures { FrontHasFirstFrames }
{}

/// Where a zone keeps its first blocks, the frames from an address in it are the first of those that were there.
pub fn frames_stay_in_order()
    ensures { FramesStayInOrder }
{}

/// An extent within the blocks that a zone keeps has its bytes still.
pub fn kept_extent_stays()
    ensures { KeptExtentStays }
{}

/// A table that breaks no rule breaks none where its extents and its recovery points are kept.
pub fn kept_table_stays()
    ensures { KeptTableStays }
{}
