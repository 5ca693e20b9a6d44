// The zones of an image that is mounted: their hints, and what of them is live.
ghost use Rattle.std.specs.Prelude.{◌≡◌, ◌+◌, ◌^◌, ◌<◌, length, All, None, IfOk, IsTrue, nat_lt, slice_index_or, sum_by};
ghost use Rattle.zone_image.specs.Changes.{change_at};
ghost use Rattle.zone_image.specs.Image.{is_valid, zone_of};
ghost use Rattle.zone_image.specs.Infos.{IsPossible};
ghost use Rattle.log_model.specs.FileTable.{size_of};
ghost use Rattle.log_model.specs.Mounted.{all_extents};
ghost use Rattle.fs_model.specs.FsState.{touched};
ghost use Rattle.zone_alloc.specs.ZoneTableState.{with_state, live_blocks, live_bytes, IsInDataZone};
ghost use Rattle.mount_replay.specs.Filling.{AreMarks, Entered, entered, filled_zones, lowered, marked_all, marked_files, start_of};

use crate::recovered::zone_of;
use record_model::{Extent, FileEntry};
use std::alloc::{AllocError, Global};
use zone_alloc::ZoneTable;
use zone_image::{Geometry, ZoneInfo};

/// The zones of a device as it tells them, with what the files of a table make of them: their live blocks and bytes,
/// and of each zone the hint of the file whose extent stands first in it.
pub(crate) fn filled_table(
    alloc: Global,
    geometry: &Geometry,
    infos: Vec<ZoneInfo>,
    collect: bool,
    files: &[FileEntry],
) -> Result<ZoneTable, AllocError>
    requires possible { IsPossible geometry.now infos.items }
    requires lie { All (IsInDataZone geometry.now) (all_extents files.now) }
    requires fits { size_of (all_extents files.now) < 2 ^ 64 }
    ensures { IfOk result (λ t. t ≡ record { geometry = geometry.now; collect = collect; zones = filled_zones geometry.now files.now infos.items }) }
{
    let mut starts: Vec<Option<u64>> = vec![in alloc; None; geometry.zones as usize]?;
    let mut zones = ZoneTable::new(alloc, geometry, infos, collect)?;
    enter_files(geometry, &mut zones, &mut starts, files);
    Ok(zones)
}

// Enters the extents of all files.
fn enter_files(
    geometry: &Geometry,
    zones: &mut ZoneTable,
    starts: &mut [Option<u64>],
    files: &[FileEntry],
)
    requires valid { IsTrue (is_valid geometry.now) }
    requires marks { AreMarks geometry.now starts.old zones.old }
    requires lie { All (IsInDataZone geometry.now) (all_extents files.now) }
    requires blocks { live_blocks zones.old.zones + sum_by (touched geometry.now.block) (all_extents files.now) < 2 ^ 64 }
    requires bytes { live_bytes zones.old.zones + size_of (all_extents files.now) < 2 ^ 64 }
    ensures { Entered geometry.now (λ n. marked_files geometry.now n files.now) (sum_by (touched geometry.now.block) (all_extents files.now))
        (size_of (all_extents files.now)) starts.old zones.old starts.new zones.new }
{
    for file in files {
        enter_extents(geometry, zones, starts, file.hint, file.extents.items());
    }
}

// Enters the extents of one file.
fn enter_extents(
    geometry: &Geometry,
    zones: &mut ZoneTable,
    starts: &mut [Option<u64>],
    hint: u32,
    extents: &[Extent],
)
    requires valid { IsTrue (is_valid geometry.now) }
    requires marks { AreMarks geometry.now starts.old zones.old }
    requires lie { All (IsInDataZone geometry.now) extents.now }
    requires blocks { live_blocks zones.old.zones + sum_by (touched geometry.now.block) extents.now < 2 ^ 64 }
    requires bytes { live_bytes zones.old.zones + size_of extents.now < 2 ^ 64 }
    ensures { Entered geometry.now (λ n. marked_all geometry.now n hint extents.now) (sum_by (touched geometry.now.block) extents.now)
        (size_of extents.now) starts.old zones.old starts.new zones.new }
{
    for i in 0..extents.len() {
        enter_extent(geometry, zones, starts, hint, extents[i]);
    }
}

// Enters one extent. It gives its zone the hint where it stands before those that were entered.
fn enter_extent(
    geometry: &Geometry,
    zones: &mut ZoneTable,
    starts: &mut [Option<u64>],
    hint: u32,
    extent: Extent,
)
    requires valid { IsTrue (is_valid geometry.now) }
    requires marks { AreMarks geometry.now starts.old zones.old }
    requires lies { IsInDataZone geometry.now extent }
    requires blocks { live_blocks zones.old.zones + touched geometry.now.block extent < 2 ^ 64 }
    requires bytes { live_bytes zones.old.zones + extent.len < 2 ^ 64 }
    ensures starts { starts.new ≡ change_at (zone_of geometry.now extent.start) (lowered extent.start) starts.old }
    ensures zones { zones.new ≡ with_state zones.old (zone_of geometry.now extent.start)
        (entered geometry.now.block hint extent (start_of (slice_index_or starts.old (zone_of geometry.now extent.start) None))) }
{
    let zone = zone_of(geometry, extent.start);
    zones.live_add(extent);
    let low = starts[zone as usize];
    if !is_lower(extent.start, low) {
        return;
    }
    starts[zone as usize] = Some(extent.start);
    zones.set_hint(zone, hint);
}

// Whether a start is lower than the lowest so far.
fn is_lower(start: u64, low: Option<u64>) -> bool
    ensures { result ≡ nat_lt start (start_of low) }
{
    match low {
        None => true,
        Some(low) => start < low,
    }
}
