// The lines of a file system's files.
ghost use Rattle.std.specs.Prelude.{◌≡◌, ◌≤◌, map, flat_map, IfOk, IfSome};
ghost use Rattle.std.specs.Option.{option_copied};
ghost use Rattle.log_model.specs.TableLaws.{IdsRise};
ghost use Rattle.command_model.specs.ReportTexts.{listed_names};
ghost use Rattle.fs_model.specs.FsState.{recorded};
ghost use Rattle.extent_map.specs.Records.{recorded_of};
ghost use Rattle.fs_report.specs.Lines.{listed_of};
ghost use Rattle.zenfs_cmd.specs.Walks.{HaveIds, first_from};

use extent_map::{FileEntry, FileTable};
use fs_core::Fs;
use fs_report::{Line, push_lines};
use std::alloc::{AllocError, Global};
use zoned_device::ZonedDevice;

/// The lines of all files.
pub(crate) fn lines_of<D: ZonedDevice>(
    alloc: Global,
    fs: &Fs<D>,
) -> Result<Vec<Line<'_>>, AllocError>
    ensures { IfOk result (λ lines. map listed_of lines.items ≡ flat_map listed_names (recorded fs.now.state)) }
{
    fs.sound();
    lines_in(alloc, fs.files())
}

// The lines of the files of a table.
fn lines_in(alloc: Global, files: &FileTable) -> Result<Vec<Line<'_>>, AllocError>
    ensures { IfOk result (λ lines. IdsRise 0 (recorded_of files.now.rows) → HaveIds (recorded_of files.now.rows)
        → map listed_of lines.items ≡ flat_map listed_names (recorded_of files.now.rows)) }
{
    let mut lines = Vec::new(alloc);
    let mut from = 0;
    while let Some(file) = file_from(files, from) {
        push_lines(&mut lines, file)?;
        if file.id == u64::MAX {
            break;
        }
        from = file.id + 1;
    }
    Ok(lines)
}

/// The file with the least id from this one on.
pub(crate) fn file_from(files: &FileTable, from: u64) -> Option<&FileEntry>
    ensures least { IfSome (option_copied result) (λ e. from ≤ e.id) }
    ensures first { IdsRise 0 (recorded_of files.now.rows) → option_copied result ≡ first_from from (recorded_of files.now.rows) }
{
    match files.next_id(from) {
        Some(id) => files.file(id),
        None => None,
    }
}
