//! Laws of zones that nothing needs, which are reset one by one.
ghost use Rattle.change_steps.specs.Resetting.{ResetsBegin, ResetsGoOn, ResetsArePassed, ResetsEnd, ResetsAnswer, ResetsKeepFiles};

/// Before the first reset, all zones that may be reset are left.
pub fn resets_begin()
    ensures { ResetsBegin }
{}

/// The lowest of the zones that are left may be reset next, where that leaves the others as they were.
pub fn resets_go_on()
    ensures { ResetsGoOn }
{}

/// Each state on the way is one that the resets of all zones pass.
pub fn resets_are_passed()
    ensures { ResetsArePassed }
{}

/// Where no zone is left, the state is the last one of the resets of all zones.
pub fn resets_end()
    ensures { ResetsEnd }
{}

/// Resets are never refused.
pub fn resets_answer()
    ensures { ResetsAnswer }
{}

/// Resets change neither files nor the log.
pub fn resets_keep_files()
    ensures { ResetsKeepFiles }
{}
