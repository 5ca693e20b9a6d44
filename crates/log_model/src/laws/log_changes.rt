//! Laws of the selection of a log, after a change in one metadata zone.
ghost use Rattle.log_model.specs.LogChangeLaws.{TornZoneIsAsEmpty, OtherZoneMayBeEmptied, BegunLogIsPassedOver, CompleteLogIsSelected, SelectedLogMayGrow};

/// A metadata zone whose first record is torn counts as an empty one.
pub fn torn_zone_is_as_empty()
    ensures { TornZoneIsAsEmpty }
{}

/// A metadata zone other than the selected log's may be emptied: the same log is selected.
pub fn other_zone_may_be_emptied()
    ensures { OtherZoneMayBeEmptied }
{}

/// A log of a new highest sequence in an empty zone is passed over as long as it has no snapshot.
pub fn begun_log_is_passed_over()
    ensures { BegunLogIsPassedOver }
{}

/// A log of a new highest sequence in an empty zone is selected once it has its snapshot.
pub fn complete_log_is_selected()
    ensures { CompleteLogIsSelected }
{}

/// The selected log may get more payloads, and it may end torn: it stays selected.
pub fn selected_log_may_grow()
    ensures { SelectedLogMayGrow }
{}
