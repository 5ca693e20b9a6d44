//! Laws of room for metadata.
ghost use Rattle.log_model.specs.HeadroomLaws.{DeletionKeepsRoom, DeletionTakesOneBlock, RoomForDeletion, RecordFitsTable, FewerExtentsNeedNoMore};

/// A table with room has room still once a name is deleted.
pub fn deletion_keeps_room()
    ensures { DeletionKeepsRoom }
{}

/// The record of a deletion takes one block.
pub fn deletion_takes_one_block()
    ensures { DeletionTakesOneBlock }
{}

/// A new log with a table that has room takes one block more.
pub fn room_for_deletion()
    ensures { RoomForDeletion }
{}

/// A new log with a table that has room takes the update or replacement of one of its files.
pub fn record_fits_table()
    ensures { RecordFitsTable }
{}

/// A table whose files have no more extents than another's needs no more blocks.
pub fn fewer_extents_need_no_more()
    ensures { FewerExtentsNeedNoMore }
{}
