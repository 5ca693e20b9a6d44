//! Laws of data zones that grow while an image is at rest.
ghost use Rattle.least_crash.specs.DataSteps.{AppendKeepsRest, AppendMomentRecovers, FrameKeepsRest, FrameMomentRecovers};

/// Blocks that are appended to a data zone without recovery points leave an image at rest, and are not seen in its table.
pub fn law_append_keeps_rest()
    ensures { AppendKeepsRest }
{}

/// A crash within such an append leaves what a crash may leave of the table.
pub fn law_append_moment_recovers()
    ensures { AppendMomentRecovers }
{}

/// Blocks that are appended behind the recovery point of one file alone leave an image at rest, whatever they are, and
/// what a crash keeps at least is the same.
pub fn law_frame_keeps_rest()
    ensures { FrameKeepsRest }
{}

/// A crash within such an append leaves what a crash may leave of the table, up to the bytes that stand after it.
pub fn law_frame_moment_recovers()
    ensures { FrameMomentRecovers }
{}
