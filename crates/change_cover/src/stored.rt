//! Laws of a change of names whose record is added to the log, after a roll where it must.
ghost use Rattle.change_cover.specs.Stored.{ChangeIsShown, ChangeMakesBehind, ChangeMakesTable, LeftAfterChange, NextLogFollows, RecordBehindRollLeaves, RecordBehindRollStands, RecordLeaves, RecordStands};

/// The log that follows in the model is the one that a roll makes.
pub fn next_log_follows()
    ensures { NextLogFollows }
{}

/// The record of a change of names makes what the rows after it record of the table at rest.
pub fn change_makes_table()
    ensures { ChangeMakesTable }
{}

/// So it does behind a roll.
pub fn change_makes_behind()
    ensures { ChangeMakesBehind }
{}

/// Once the record is added, the image has the rows after the change at rest.
pub fn record_stands()
    ensures { RecordStands }
{}

/// So it has where the record was added behind a roll; the new log counts.
pub fn record_behind_roll_stands()
    ensures { RecordBehindRollStands }
{}

/// A crash while the record is added leaves the tree shown before the change, or the one after it.
pub fn record_leaves()
    ensures { RecordLeaves }
{}

/// So does a crash within a roll and the record behind it.
pub fn record_behind_roll_leaves()
    ensures { RecordBehindRollLeaves }
{}

/// The tree that is shown after the change is the one before it, with the change made.
pub fn change_is_shown()
    ensures { ChangeIsShown }
{}

/// What is left of the image after the change is left of the image before it, with the change made.
pub fn left_after_change()
    ensures { LeftAfterChange }
{}
