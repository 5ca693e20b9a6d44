//! Laws of a state that stands while data zones are reset one after another.
ghost use Rattle.change_cover.specs.Following.{EmptiedKeepsBlocks, FollowerLeaves, FollowsItself, ResetFollows};

/// A state that stands follows itself.
pub fn follows_itself()
    ensures { FollowsItself }
{}

/// A reset keeps the blocks of all other zones.
pub fn emptied_keeps_blocks()
    ensures { EmptiedKeepsBlocks }
{}

/// Once a zone in which the table has nothing is reset, the state shows the same tree still.
pub fn reset_follows()
    ensures { ResetFollows }
{}

/// What a crash leaves then is left of the tree that was shown before the resets.
pub fn follower_leaves()
    ensures { FollowerLeaves }
{}
