//! Where a byte of a file lies.

ghost use Rattle.std.specs.Prelude.{◌≡◌, ◌↔◌, ◌+◌, ◌^◌, ◌<◌, ◌++◌, Ok, Err, All, IsTrue, IsSome, IsSomeAnd};
ghost use Rattle.std.specs.Option.{ForSome};
ghost use Rattle.log_model.specs.FileTable.{size_of};
ghost use Rattle.fs_model.specs.FsState.{row_of};
ghost use Rattle.extent_map.specs.Lookups.{
  AreInRange,
  EndsInRange,
  extents_of,
  is_shown,
  located,
  rest_in,
  rest_of,
  shown_rest,
};

use crate::lookups::row_of;
use crate::row::Row;
use crate::table::FileTable;
use record_model::Extent;

impl FileTable {
    /// The rest of the extent that holds the byte of a file at this offset; `None` exactly where the
    /// file isn't there or the offset isn't below the number of its bytes that are shown.
    pub fn locate(&self, id: u64, offset: u64) -> Option<Extent>
        requires { ForSome (row_of id self.now.rows) AreInRange }
        ensures rest { result ≡ located id offset self.now.rows }
        ensures there { IsSome result ↔ IsTrue (is_shown id offset self.now.rows) }
    {
        match row_of(&self.rows, id) {
            None => None,
            Some(row) => shown_rest(row, offset),
        }
    }
}

/// The rest of the extent that holds a byte of a file, if it is shown.
fn shown_rest(row: &Row, offset: u64) -> Option<Extent>
    requires { AreInRange row.now }
    ensures rest { result ≡ shown_rest offset row.now }
    ensures there { IsSome result ↔ (offset < row.now.shown) }
{
    if row.shows(offset) {
        rest_in_row(row, offset)
    } else {
        None
    }
}

/// The rest of the extent that holds a byte that is shown.
fn rest_in_row(row: &Row, offset: u64) -> Option<Extent>
    requires ends { AreInRange row.now }
    requires within { offset < size_of row.now.entry.extents + size_of row.now.unrecorded }
    ensures { IsSomeAnd result (λ rest. rest_in offset (extents_of row.now) ≡ Ok rest) }
{
    match rest_in(row.entry().extents.items(), offset) {
        Ok(rest) => Some(rest),
        Err(behind) => match rest_in(row.unrecorded(), behind) {
            Ok(rest) => Some(rest),
            Err(_) => None,
        },
    }
}

/// The rest of the extent that holds the byte of an offset, or how far behind the extents it lies.
fn rest_in(extents: &[Extent], offset: u64) -> Result<Extent, u64>
    requires { All EndsInRange extents.now }
    ensures { result ≡ rest_in offset extents.now }
{
    let mut rest = offset;
    for extent in extents {
        if rest < extent.len {
            return Ok(rest_of(extent, rest));
        }
        rest -= extent.len;
    }
    Err(rest)
}

/// The extent from this offset on.
fn rest_of(extent: &Extent, offset: u64) -> Extent
    requires ends { EndsInRange extent.now }
    requires within { offset < extent.now.len }
    ensures { result ≡ rest_of extent.now offset }
{
    Extent {
        start: extent.start + offset,
        len: extent.len - offset,
    }
}
