//! The rows of a snapshot in the order of their ids.

ghost use Rattle.std.specs.Prelude.{◌≡◌, IfOk};
ghost use Rattle.std.specs.List.{AllByRecursion};
ghost use Rattle.extent_map.specs.Applying.{rows_of};
ghost use Rattle.extent_map.specs.IdOrder.{AreInOrder, rise_from};
ghost use Rattle.extent_map.specs.Records.{recorded_of};
ghost use Rattle.extent_map.specs.Sound.{IsSound};

use crate::copies::copy_entry;
use crate::row::Row;
use record_model::FileEntry;
use std::alloc::{AllocError, Global};

/// The rows of the entries, by ids that don't fall. Where the ids rise already, nothing moves, so
/// that a snapshot of ours takes one walk.
pub(crate) fn rows_by_id(alloc: Global, files: &[FileEntry]) -> Result<Vec<Row>, AllocError>
    requires { AllByRecursion IsSound files.now }
    ensures { IfOk result (λ rows. AreInOrder files.now rows.items) }
{
    let mut rows = rows_of(alloc, files)?;
    rows.sort_unstable_by_key(|row| row.id());
    Ok(rows)
}

/// The rows of the entries, in the order in which these stand.
fn rows_of(alloc: Global, files: &[FileEntry]) -> Result<Vec<Row>, AllocError>
    requires { AllByRecursion IsSound files.now }
    ensures { IfOk result (λ rows. rows.items ≡ rows_of files.now) }
{
    let mut rows = Vec::new(alloc);
    for file in files {
        rows.push(Row::new(alloc, copy_entry(alloc, file)?))?;
    }
    Ok(rows)
}

/// Whether each id is above the one before it: among ids that don't fall, none then comes twice.
pub(crate) fn ids_rise(rows: &[Row]) -> bool
    ensures { result ≡ rise_from 0 (recorded_of rows.now) }
{
    let mut least: u64 = 0;
    for row in rows {
        let id = row.entry().id;
        if id < least {
            return false;
        }
        least = id + 1;
    }
    true
}
