// Reads of the zones in a file.
ghost use Rattle.std.specs.Prelude.{◌≡◌, ◌+◌, ◌/◌, ◌%◌, ◌<◌, ◌≤◌, length, OnOk, IsErr};
ghost use Rattle.zone_image.specs.Changes.{bytes_at};
ghost use Rattle.zone_image.specs.Counts.{HasCause};
ghost use Rattle.zone_image.specs.Infos.{info_at};
ghost use Rattle.image_backend.specs.Contents.{SameFile};
ghost use Rattle.image_backend.specs.Table.{table_infos};
ghost use Rattle.power_image.specs.Table.{image_in};
ghost use Rattle.power_image.specs.State.{HoldsTable};

use crate::format::block_at;
use crate::table::Table;
use image_backend::{ByteFile, FileFault};

/// Reads whole written blocks of a zone.
pub(crate) fn read<F: ByteFile>(
    file: &mut F,
    table: &Table,
    zone: u32,
    block: u32,
    out: &mut [u8],
) -> Result<(), FileFault>
    requires known { HoldsTable F.is_open F.is_sized F.size table.now file.old }
    requires is_zone { zone < table.now.zones.geometry.zones }
    requires whole { length out.old % table.now.zones.geometry.block ≡ 0 }
    requires written { block + length out.old / table.now.zones.geometry.block ≤ (info_at (table_infos table.now.zones) zone).written }
    ensures bytes { OnOk result (F.tells → out.new
        ≡ bytes_at (image_in table.now.zones (F.contents file.old)) zone block (length out.old / table.now.zones.geometry.block)) }
    ensures same { SameFile F.is_open F.is_sized F.size F.tells F.contents file.old file.new }
    ensures cause { HasCause (F.faults file.old) (F.faults file.new) (IsErr result) }
{
    let geometry = table.geometry();
    file.read_at(block_at(&geometry, zone, block), out)
}
