//! Names that are taken from the files.

ghost use Rattle.std.specs.Prelude.{◌≡◌, vec_capacity};
ghost use Rattle.extent_map.specs.Naming.{rows_left};

use crate::row::Row;
use record_model::Name;

/// Takes these names from every file; a file that has none left is gone.
pub(crate) fn take_names(rows: &mut Vec<Row>, taken: &[Name])
    ensures rows { rows.new.items ≡ rows_left taken.now rows.old.items }
    ensures capacity { vec_capacity rows.new ≡ vec_capacity rows.old }
{
    let mut at = 0;
    'rows: while at < rows.len() {
        let row = &mut rows[at];
        if row.lose_names(taken) {
            at += 1;
        } else {
            drop(rows.remove(at));
        }
    }
}
