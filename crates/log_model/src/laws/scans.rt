//! Laws of scans: what more blocks behind a log change.
ghost use Rattle.log_model.specs.ScanLaws.{BoundIsFree, FrontScansToFront, CleanScanGoesOn, RecordIsFound, AppendAddsPayload, PartIsTorn};

/// A bound on the records of a scan that is at least the number of blocks changes nothing.
#[tactic(auto, using(crate::proofs::LogScanLaws::bound_is_free))]
pub fn bound_is_free()
    ensures { BoundIsFree }
{}

/// The first blocks of a zone have the first of its payloads, and no damage that the zone doesn't have.
pub fn front_scans_to_front()
    ensures { FrontScansToFront }
{}

/// Behind blocks that scan clean the scan goes on with what follows.
#[tactic(auto, using(crate::proofs::LogScanLaws::clean_scan_goes_on))]
pub fn clean_scan_goes_on()
    ensures { CleanScanGoesOn }
{}

/// The blocks of a record scan to its payload, and the scan goes on behind them.
#[tactic(auto, using(crate::proofs::RecordLaws::record_is_found))]
pub fn record_is_found()
    ensures { RecordIsFound }
{}

/// A record behind a clean log is one payload more.
#[tactic(auto, using(crate::proofs::RecordLaws::append_adds_payload))]
pub fn append_adds_payload()
    ensures { AppendAddsPayload }
{}

/// A part of a record behind a clean log is torn, and the payloads stay.
#[tactic(auto, using(crate::proofs::RecordLaws::part_is_torn))]
pub fn part_is_torn()
    ensures { PartIsTorn }
{}
