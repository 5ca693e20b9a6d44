//! Laws of the ways in which a change that is recorded ends.
ghost use Rattle.change_steps.specs.Endings.{RowsAsk, DeletionAsks};

/// A change of rows is refused at the end of the sequence or for want of room. Else it ends with nothing done, or with
/// its rows stored, while dead zones are reset or when all are.
pub fn rows_ask()
    ensures { RowsAsk }
{}

/// So does a deletion, which always has room.
pub fn deletion_asks()
    ensures { DeletionAsks }
{}
