//! Laws of the selection of a log, on images, while a record is added to it.
ghost use Rattle.log_model.specs.AppendLaws.{SelectedIsOfItsZone, SelectedGrowsInItsZone, RecordBehindSelected, PartBehindSelected};

/// The selected log is that of one of the zones, and its scan is the zone's.
pub fn selected_is_of_its_zone()
    ensures { SelectedIsOfItsZone }
{}

/// The selected log may get more payloads in its zone, and end torn there: it stays selected.
pub fn selected_grows_in_its_zone()
    ensures { SelectedGrowsInItsZone }
{}

/// Once a record stands behind a clean log, the log is selected with one payload more.
pub fn record_behind_selected()
    ensures { RecordBehindSelected }
{}

/// While a part of the record stands there, the log is selected with the payloads that it had.
pub fn part_behind_selected()
    ensures { PartBehindSelected }
{}
