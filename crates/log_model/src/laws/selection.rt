//! Laws of the selection of a log, on lists of logs.
ghost use Rattle.log_model.specs.SelectionLaws.{SkippedZoneHasNoLog, PassedOverMayGo, NewestIsSelected, OtherMayGo, FewerHaveNoTwin, HigherHasNoTwin};

/// An empty metadata zone, or one whose first record is torn, has no log.
#[tactic(auto, using(crate::proofs::SelectionLaws::skipped_zone_has_no_log))]
pub fn skipped_zone_has_no_log()
    ensures { SkippedZoneHasNoLog }
{}

/// A log that is passed over may go: the same log is selected.
#[tactic(auto, using(crate::proofs::SelectionLaws::passed_over_may_go))]
pub fn passed_over_may_go()
    ensures { PassedOverMayGo }
{}

/// The log with a snapshot and the highest sequence is selected.
#[tactic(auto, using(crate::proofs::SelectionLaws::newest_is_selected))]
pub fn newest_is_selected()
    ensures { NewestIsSelected }
{}

/// Any other log than the selected one may go: the same log is selected.
#[tactic(auto, using(crate::proofs::SelectionLaws::other_may_go))]
pub fn other_may_go()
    ensures { OtherMayGo }
{}

/// Where no two logs have one sequence, none have once a log has gone.
#[tactic(auto, using(crate::proofs::TwinLaws::fewer_have_no_twin))]
pub fn fewer_have_no_twin()
    ensures { FewerHaveNoTwin }
{}

/// A log of a higher sequence than all others has no twin.
#[tactic(auto, using(crate::proofs::TwinLaws::higher_has_no_twin))]
pub fn higher_has_no_twin()
    ensures { HigherHasNoTwin }
{}
