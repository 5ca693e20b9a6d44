// Bytes of a file that are shown, read from a device.
ghost use Rattle.std.specs.Prelude.{◌≡◌, ◌+◌, ◌^◌, ◌≤◌, ◌<◌, Some, length, take, drop, min, IfOk, IsErr, OnOk};
ghost use Rattle.std.specs.Option.{ForSome};
ghost use Rattle.zone_image.specs.Counts.{HasCause};
ghost use Rattle.zone_image.specs.Reads.{OnlyReads};
ghost use Rattle.log_model.specs.Frames.{bytes_of};
ghost use Rattle.fs_model.specs.FsState.{TableRow, row_of, working_entry};
ghost use Rattle.fs_core.specs.Reading.{IsShown, IsWrittenRow};

use extent_map::FileTable;
use extent_reader::read_extent;
use zone_image::Geometry;
use zoned_device::{DevFault, ZonedDevice};

/// A file, by its id, and the offset of one of its bytes.
#[derive(Clone, Copy)]
pub(crate) struct FilePlace {
    pub(crate) id: u64,
    pub(crate) offset: u64,
}

// The lower of the bytes that an extent has left and those that are wanted.
fn piece(left: u64, wanted: usize) -> usize
    ensures { result ≡ min left wanted }
{
    if left < wanted as u64 {
        left as usize
    } else {
        wanted
    }
}

// Reads the first of the wanted bytes of a file, as many as lie in one extent, and answers how many these are.
fn read_piece<D: ZonedDevice>(
    dev: &mut D,
    geometry: &Geometry,
    files: &FileTable,
    place: FilePlace,
    block: &mut [u8],
    out: &mut [u8],
) -> Result<usize, DevFault>
    requires is_known { D.known dev.old }
    requires same_geometry { geometry.now ≡ D.geometry dev.old }
    requires buffer { length block.old ≡ geometry.now.block }
    requires written { ForSome (row_of place.id files.now.rows) (IsWrittenRow geometry.now (D.infos dev.old)) }
    requires some { 0 < length out.old }
    requires shown { IsShown place.id (place.offset + length out.old) files.now.rows }
    ensures some { IfOk result (λ n. 0 < n) }
    ensures fits { IfOk result (λ n. n ≤ length out.old) }
    ensures bytes { IfOk result (λ n. D.tells → (r : TableRow) → row_of place.id files.now.rows ≡ Some r
        → take n out.new ≡ take n (drop place.offset (bytes_of (D.image dev.old) (working_entry r).extents))) }
    ensures same_len { length out.new ≡ length out.old }
    ensures same_buffer { length block.new ≡ length block.old }
    ensures device { OnlyReads D.known D.geometry D.infos D.tells D.image D.tick D.since D.failed_changes dev.old dev.new }
    ensures cause { HasCause (D.faults dev.old) (D.faults dev.new) (IsErr result) }
{
    let Some(rest) = files.locate(place.id, place.offset) else {
        unreachable!();
    };
    let count = piece(rest.len, out.len());
    let (front, _) = out.split_at_mut(count);
    read_extent(dev, geometry, rest, block, front)?;
    Ok(count)
}

/// Reads bytes of a file that are shown, piece by piece.
pub(crate) fn read_shown<D: ZonedDevice>(
    dev: &mut D,
    geometry: &Geometry,
    files: &FileTable,
    place: FilePlace,
    block: &mut [u8],
    out: &mut [u8],
) -> Result<(), DevFault>
    requires is_known { D.known dev.old }
    requires same_geometry { geometry.now ≡ D.geometry dev.old }
    requires buffer { length block.old ≡ geometry.now.block }
    requires written { ForSome (row_of place.id files.now.rows) (IsWrittenRow geometry.now (D.infos dev.old)) }
    requires shown { IsShown place.id (place.offset + length out.old) files.now.rows }
    requires fits { place.offset + length out.old < 2 ^ 64 }
    ensures bytes { OnOk result (D.tells → (r : TableRow) → row_of place.id files.now.rows ≡ Some r
        → out.new ≡ take (length out.old) (drop place.offset (bytes_of (D.image dev.old) (working_entry r).extents))) }
    ensures same_len { length out.new ≡ length out.old }
    ensures same_buffer { length block.new ≡ length block.old }
    ensures device { OnlyReads D.known D.geometry D.infos D.tells D.image D.tick D.since D.failed_changes dev.old dev.new }
    ensures cause { HasCause (D.faults dev.old) (D.faults dev.new) (IsErr result) }
{
    let mut done = 0;
    while done < out.len() {
        let behind = FilePlace {
            id: place.id,
            offset: place.offset + done as u64,
        };
        let (_, rest) = out.split_at_mut(done);
        done += read_piece(dev, geometry, files, behind, block, rest)?;
    }
    Ok(())
}
