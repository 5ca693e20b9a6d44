//! Whether a stated size is the sum of the lengths.

ghost use Rattle.std.specs.Prelude.{◌≡◌, ◌==◌, Some};
ghost use Rattle.log_model.specs.FileTable.{has_right_size, grown, size_of};

use crate::row::Row;
use record_model::{Extent, FileEntry};

/// Whether the size that an entry states is the sum of its extents.
pub(crate) fn has_right_size(entry: &FileEntry) -> bool
    ensures { result ≡ has_right_size entry.now }
{
    is_size_of(entry.size, entry.extents.items())
}

/// Whether the size that an update states is the sum of the file's extents with those that it adds.
pub(crate) fn grows_right(row: &Row, entry: &FileEntry) -> bool
    ensures { result ≡ has_right_size (grown (Some row.now.entry) entry.now) }
{
    let size = row.entry().size;
    size <= entry.size && is_size_of(entry.size - size, entry.extents.items())
}

/// Whether a number is the sum of the lengths.
fn is_size_of(size: u64, extents: &[Extent]) -> bool
    ensures { result ≡ (size == size_of extents.now) }
{
    let mut rest = size;
    for extent in extents {
        if rest < extent.len {
            return false;
        }
        rest -= extent.len;
    }
    rest == 0
}
