// The dump of a file system's files and zones, file by file and zone by zone.
ghost use Rattle.std.specs.Prelude.{◌≡◌, ◌++◌, [], map, filter, IfOk, OnOk};
ghost use Rattle.std.specs.List.{enumerate_from};
ghost use Rattle.log_model.specs.TableLaws.{IdsRise};
ghost use Rattle.command_model.specs.DumpText.{dump_file, dump_zone, is_dumped};
ghost use Rattle.fs_model.specs.FsState.{recorded};
ghost use Rattle.extent_map.specs.Records.{recorded_of};
ghost use Rattle.zenfs_cmd.specs.Walks.{HaveIds};

use crate::lines::file_from;
use extent_map::FileTable;
use fs_core::Fs;
use fs_report::Dump;
use std::alloc::{AllocError, Global};
use zone_alloc::ZoneTable;
use zoned_device::ZonedDevice;

/// A dump that has all files, and no zone yet.
pub(crate) fn dump_of_files<D: ZonedDevice>(alloc: Global, fs: &Fs<D>) -> Result<Dump, AllocError>
    ensures files { IfOk result (λ dump. dump.files ≡ map dump_file (recorded fs.now.state)) }
    ensures zones { IfOk result (λ dump. dump.zones ≡ []) }
{
    fs.sound();
    dump_of_table(alloc, fs.files())
}

// A dump that has the files of a table.
fn dump_of_table(alloc: Global, files: &FileTable) -> Result<Dump, AllocError>
    ensures files { IfOk result (λ dump. IdsRise 0 (recorded_of files.now.rows) → HaveIds (recorded_of files.now.rows)
        → dump.files ≡ map dump_file (recorded_of files.now.rows)) }
    ensures zones { IfOk result (λ dump. dump.zones ≡ []) }
{
    let mut dump = Dump::new(alloc);
    let mut from = 0;
    while let Some(file) = file_from(files, from) {
        dump.add_file(alloc, file)?;
        if file.id == u64::MAX {
            break;
        }
        from = file.id + 1;
    }
    Ok(dump)
}

/// Adds the zones of a table that have a block or a seal.
pub(crate) fn add_zones(alloc: Global, dump: &mut Dump, zones: &ZoneTable) -> Result<(), AllocError>
    ensures zones { OnOk result (dump.new.zones ≡ dump.old.zones ++ map dump_zone (filter is_dumped (enumerate_from 0 zones.now.zones))) }
    ensures files { OnOk result (dump.new.files ≡ dump.old.files) }
{
    let geometry = zones.geometry();
    for zone in 0..geometry.zones {
        dump.add_zone(alloc, zone, zones.state(zone))?;
    }
    Ok(())
}
