// A file is read.
ghost use Rattle.std.specs.Prelude.{◌≡◌, ◌↔◌, ◌-◌, ◌++◌, None, Some, length, take, drop, min, option_map, All, MatchOption, IfOk, IsErr, IsErrOf};
ghost use Rattle.zone_image.specs.Counts.{HasCause};
ghost use Rattle.zone_image.specs.Image.{IsCrash};
ghost use Rattle.zone_image.specs.Moments.{LeavesOnly};
ghost use Rattle.zone_image.specs.Reads.{OnlyReads};
ghost use Rattle.log_model.specs.Mounted.{all_extents};
ghost use Rattle.fs_model.specs.CrashClauses.{shown_file};
ghost use Rattle.fs_model.specs.FsState.{TableRow, recorded, row_named, row_of};
ghost use Rattle.mount_replay.specs.Rules.{IsWrittenExtent};
ghost use Rattle.fs_core.specs.Reading.{IsRead};

use crate::error::ReadError;
use crate::file_system::Fs;
use crate::shown::{FilePlace, read_shown};
use fs_tables::FsTables;
use record_model::Name;
use zoned_device::{DevFault, ZonedDevice};

// A file, by its id, and how many of its bytes are shown.
#[derive(Clone, Copy)]
struct ShownFile {
    id: u64,
    shown: u64,
}

// The file of a name.
fn file_named(tables: &FsTables, name: &Name) -> Option<ShownFile>
    ensures { MatchOption result (row_named name.now tables.now.state.rows ≡ None) (λ f. (r : TableRow)
        × (row_named name.now tables.now.state.rows ≡ Some r) × (row_of f.id tables.now.state.rows ≡ Some r) × (r.shown ≡ f.shown)) }
{
    tables.valid();
    let files = tables.files();
    let Some(id) = files.find(name) else {
        return None;
    };
    match files.shown(id) {
        Some(shown) => Some(ShownFile { id, shown }),
        None => None,
    }
}

// How many bytes are shown from an offset on, as far as there is room for them.
fn count_of(shown: u64, offset: u64, room: usize) -> usize
    ensures { result ≡ min room (shown - offset) }
{
    let left = shown.saturating_sub(offset);
    if left < room as u64 {
        left as usize
    } else {
        room
    }
}

// Reads a file from an offset on, as many of its shown bytes as there are and as there is room for.
fn read_file<D: ZonedDevice>(
    dev: &mut D,
    tables: &FsTables,
    file: ShownFile,
    offset: u64,
    block: &mut [u8],
    out: &mut [u8],
) -> Result<usize, DevFault>
    requires is_known { D.known dev.old }
    requires same_geometry { D.geometry dev.old ≡ tables.now.state.geometry }
    requires written { All (IsWrittenExtent tables.now.state.geometry (D.infos dev.old)) (all_extents (recorded tables.now.state)) }
    requires buffer { length block.old ≡ tables.now.state.geometry.block }
    requires shown { option_map (λ r. r.shown) (row_of file.id tables.now.state.rows) ≡ Some file.shown }
    ensures many { IfOk result (λ n. n ≡ min (length out.old) (file.shown - offset)) }
    ensures bytes { IfOk result (λ n. D.tells → (r : TableRow) → row_of file.id tables.now.state.rows ≡ Some r
        → out.new ≡ take n (drop offset (shown_file (D.image dev.old) r).bytes) ++ drop n out.old) }
    ensures same_buffer { length block.new ≡ length block.old }
    ensures device { OnlyReads D.known D.geometry D.infos D.tells D.image D.tick D.since D.failed_changes dev.old dev.new }
    ensures cause { HasCause (D.faults dev.old) (D.faults dev.new) (IsErr result) }
{
    let count = count_of(file.shown, offset, out.len());
    if count == 0 {
        return Ok(0);
    }
    let (front, _) = out.split_at_mut(count);
    let geometry = tables.geometry();
    let place = FilePlace {
        id: file.id,
        offset,
    };
    read_shown(dev, &geometry, tables.files(), place, block, front)?;
    Ok(count)
}

impl<D: ZonedDevice> Fs<D> {
    /// Reads a file from an offset on: as many of its shown bytes as there are and as `out` has room for. It answers how
    /// many these are, and takes no memory. A file system that is stopped still reads.
    ///
    /// `NotFound` comes exactly where no file has the name, and `DevFault` only where the device's count of faults rose;
    /// the bytes of `out` are open then.
    pub fn read(&mut self, name: &Name, offset: u64, out: &mut [u8]) -> Result<usize, ReadError>
        ensures read { IfOk result (λ n. (r : TableRow) × (row_named name.now self.old.state.rows ≡ Some r)
            × IsRead D.tells (D.image self.old.device) r offset out.old n out.new) }
        ensures not_found { IsErrOf result ReadError.NotFound ↔ (row_named name.now self.old.state.rows ≡ None) }
        ensures state { self.new.state ≡ self.old.state }
        ensures mode { (self.new.writing ≡ self.old.writing) × (self.new.stopped ≡ self.old.stopped) }
        ensures same_image { D.tells → D.image self.new.device ≡ D.image self.old.device }
        ensures any_moment { LeavesOnly D.tick D.since self.old.device self.new.device (IsCrash (D.image self.old.device)) }
        ensures changes { D.failed_changes self.new.device ≡ D.failed_changes self.old.device }
        ensures cause { HasCause (D.faults self.old.device) (D.faults self.new.device) (IsErrOf result ReadError.DevFault) }
    {
        let Some(file) = file_named(&self.tables, name) else {
            return Err(ReadError::NotFound);
        };
        let read = read_file(
            &mut self.dev,
            &self.tables,
            file,
            offset,
            &mut self.block,
            out,
        );
        let Ok(count) = read else {
            return Err(ReadError::DevFault);
        };
        Ok(count)
    }
}
