//! Rows in the order of their ids, in which an id is found by halves.

ghost use Rattle.std.specs.Prelude.{◌≡◌, ◌≤◌, ◌<◌, length, slice_index_or, vec_capacity, IsOk, OnOk, IsTrue, IfSome, IfNone, None, Some};
ghost use Rattle.log_model.specs.TableLaws.{IdsRise};
ghost use Rattle.fs_model.specs.FsState.{TableRow, row_of};
ghost use Rattle.extent_map.specs.Applying.{with_row, place_of};
ghost use Rattle.extent_map.specs.Records.{recorded_of};

use crate::row::Row;
use std::alloc::AllocError;

/// Puts a row in its place, which may be that of another row of its id.
pub(crate) fn put_row(rows: &mut Vec<Row>, row: Row) -> Result<(), AllocError>
    requires { IdsRise 0 (recorded_of rows.old.items) }
    ensures rows { OnOk result (rows.new.items ≡ with_row row rows.old.items) }
    ensures fits { length rows.old.items < vec_capacity rows.old → IsOk result }
{
    let at = place_of(rows, row.id());
    if has_id_at(rows, at, row.id()) {
        rows[at] = row;
    } else {
        rows.insert(at, row)?;
    }
    Ok(())
}

/// Where the row of an id stands.
pub(crate) fn index_of(rows: &[Row], id: u64) -> Option<usize>
    requires { IdsRise 0 (recorded_of rows.now) }
    ensures absent { IfNone result (row_of id rows.now ≡ None) }
    ensures within { IfSome result (λ at. at < length rows.now) }
    ensures row { IfSome result (λ at. (d : TableRow) → row_of id rows.now ≡ Some (slice_index_or rows.now at d)) }
    ensures id { IfSome result (λ at. (d : TableRow) → (slice_index_or rows.now at d).entry.id ≡ id) }
{
    let at = place_of(rows, id);
    if has_id_at(rows, at, id) {
        Some(at)
    } else {
        None
    }
}

/// Whether a row of this id stands at a place.
fn has_id_at(rows: &[Row], at: usize, id: u64) -> bool
    ensures there { IsTrue result → at < length rows.now }
    ensures row { (d : TableRow) → at < length rows.now → (slice_index_or rows.now at d).entry.id ≡ id → IsTrue result }
    ensures id { (d : TableRow) → IsTrue result → (slice_index_or rows.now at d).entry.id ≡ id }
{
    at < rows.len() && rows[at].id() == id
}

/// How many rows stand before the place of an id.
pub(crate) fn place_of(rows: &[Row], id: u64) -> usize
    requires { IdsRise 0 (recorded_of rows.now) }
    ensures place { result ≡ place_of id rows.now }
    ensures within { result ≤ length rows.now }
{
    let mut low = 0;
    let mut high = rows.len();
    'halves: while low < high {
        let middle = low + (high - low) / 2;
        if rows[middle].id() < id {
            low = middle + 1;
        } else {
            high = middle;
        }
    }
    low
}
