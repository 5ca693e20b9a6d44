//! Recovery points that are taken away.

ghost use Rattle.std.specs.Prelude.{◌≡◌, map};
ghost use Rattle.fs_model.specs.TreeSteps.{cleared};

use crate::row::Row;
use crate::table::FileTable;

impl FileTable {
    /// Takes the recovery points of all files away. It takes no memory.
    pub fn clear_points(&mut self)
        ensures rows { self.new.rows ≡ map cleared self.old.rows }
        ensures greatest { self.new.greatest ≡ self.old.greatest }
    {
        self.holders = None;
        clear_points(&mut self.rows);
    }
}

/// Takes the recovery point of each file away.
fn clear_points(rows: &mut Vec<Row>)
    ensures { rows.new.items ≡ map cleared rows.old.items }
{
    for i in 0..rows.len() {
        let row = &mut rows[i];
        row.clear_point();
    }
}
