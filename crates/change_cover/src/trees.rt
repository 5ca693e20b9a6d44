//! Laws of images that mount to the same tree.
ghost use Rattle.change_cover.specs.SameTrees.{CrashMountsTheSame, KeptBlocksMountTheSame, KeptBlocksShowTheSame};

/// Whatever a crash leaves of an image that stands mounts to exactly its tree.
pub fn crash_mounts_the_same()
    ensures { CrashMountsTheSame }
{}

/// The same rows show the same tree on an image that has the blocks in which they lie.
pub fn kept_blocks_show_the_same()
    ensures { KeptBlocksShowTheSame }
{}

/// Such an image mounts to the same tree.
pub fn kept_blocks_mount_the_same()
    ensures { KeptBlocksMountTheSame }
{}
