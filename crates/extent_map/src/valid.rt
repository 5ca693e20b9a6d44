//! What holds of every table.

ghost use Rattle.std.specs.List.{AllByRecursion};
ghost use Rattle.extent_map.specs.Sound.{IsRow};
ghost use Rattle.extent_map.specs.TableState.{IsTableState};

use crate::row::Row;
use crate::table::FileTable;

impl FileTable {
    /// The ids rise, each file has a name, no name is that of two files, and each file is sound.
    pub fn valid(&self)
        ensures table { IsTableState self.now.rows self.now.greatest }
        ensures rows { AllByRecursion IsRow self.now.rows }
    {
        rows_are_valid(&self.rows);
    }
}

/// Each row is sound.
fn rows_are_valid(rows: &[Row])
    ensures { AllByRecursion IsRow rows.now }
{
    for row in rows {
        row.valid();
    }
}
