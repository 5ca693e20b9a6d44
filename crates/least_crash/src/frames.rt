//! Laws of frames that fill their blocks, and of one more frame behind them.
ghost use Rattle.least_crash.specs.Filling.{FramesGoOn, FrameIsFound, PartIsNotFound};

/// Behind frames that fill their blocks the walk goes on.
pub fn law_frames_go_on()
    ensures { FramesGoOn }
{}

/// The blocks of one frame are found as one extent.
pub fn law_frame_is_found()
    ensures { FrameIsFound }
{}

/// A part of these blocks is not found.
pub fn law_part_is_not_found()
    ensures { PartIsNotFound }
{}
