//! Laws of what a crash leaves, as trees.
ghost use Rattle.change_cover.specs.Left.{ChangedIsLeft, CrashIsLeft, LeftOfMore, LeftOfSame, RecoveredIsLeft, SameTreeIsLeft};

/// What a crash may leave of the recorded table is left of the tree that is shown.
pub fn recovered_is_left()
    ensures { RecoveredIsLeft }
{}

/// A crash of an image at rest is left of the tree that is shown.
pub fn crash_is_left()
    ensures { CrashIsLeft }
{}

/// What a crash may leave of the table after a change of names is left of the shown tree after the change.
pub fn changed_is_left()
    ensures { ChangedIsLeft }
{}

/// What is left of some trees is left of more trees.
pub fn left_of_more()
    ensures { LeftOfMore }
{}

/// What is left of an image is left of one that mounts to the same tree.
pub fn left_of_same()
    ensures { LeftOfSame }
{}

/// An image that mounts to exactly the same tree is left of it.
pub fn same_tree_is_left()
    ensures { SameTreeIsLeft }
{}
