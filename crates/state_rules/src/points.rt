//! Laws of recovery points: what their rules give to an append, and that an append and a finish keep them.
ghost use Rattle.state_rules.specs.Points.{WriterGivesNoPoint, CollectorGivesNoPoint, PointIsAlone, AppendKeepsPoints, FinishKeepsPoints};

/// The zone of a file without a recovery point has none, so that an append to it is not seen.
pub fn law_writer_gives_no_point()
    ensures { WriterGivesNoPoint }
{}

/// Nor has the zone to which the collector copies.
pub fn law_collector_gives_no_point()
    ensures { CollectorGivesNoPoint }
{}

/// The zone of a file with a recovery point has that one alone, behind all that is recorded there.
pub fn law_point_is_alone()
    ensures { PointIsAlone }
{}

/// An append keeps the rules of recovery points.
pub fn law_append_keeps_points()
    ensures { AppendKeepsPoints }
{}

/// So does a finish.
pub fn law_finish_keeps_points()
    ensures { FinishKeepsPoints }
{}
