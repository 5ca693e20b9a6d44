//! Laws of the selection of a log, on images, while a new log is begun.
ghost use Rattle.log_model.specs.NewLogLaws.{OtherMayBeReset, PartOfSuperblock, PartOfSnapshot, WholeSnapshot};

/// A metadata zone that isn't the selected log's may be reset: the same log is selected.
pub fn other_may_be_reset()
    ensures { OtherMayBeReset }
{}

/// A part of the new superblock in an empty zone changes nothing.
pub fn part_of_superblock()
    ensures { PartOfSuperblock }
{}

/// The new superblock with a part of the snapshot, or with none of it, leaves the old log selected.
pub fn part_of_snapshot()
    ensures { PartOfSnapshot }
{}

/// The new superblock with its whole snapshot is the log that is selected.
pub fn whole_snapshot()
    ensures { WholeSnapshot }
{}
