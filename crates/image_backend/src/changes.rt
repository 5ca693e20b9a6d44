// The changes of an image in a file: each writes to the file, and then the table takes over what was written.
ghost use Rattle.std.specs.Prelude.{◌≡◌, ◌⊎◌, ◌||◌, nat_lt, ◌+◌, ◌*◌, ◌/◌, ◌%◌, ◌<◌, ◌≤◌, true, false, length, IfOk, OnOk, OnErr, IsErr, IsTrue};
ghost use Rattle.zone_image.specs.Image.{is_valid};
ghost use Rattle.zone_image.specs.Changes.{blocks_in, appended, finished, emptied, synced};
ghost use Rattle.zone_image.specs.Infos.{info_at, active_zones, infos_appended, infos_finished, infos_emptied, IsPossibleInfo};
ghost use Rattle.zone_image.specs.Counts.{Rose, HasCause, Counts as Counted};
ghost use Rattle.image_backend.specs.Contents.{patched, SameFile, SameOutside};
ghost use Rattle.image_backend.specs.Format.{descriptor_at, descriptor_bytes};
ghost use Rattle.image_backend.specs.Table.{table_infos, slot_info, slot_at, slot_appended, slot_finished, no_slot, with_slot, table_synced};
ghost use Rattle.image_backend.specs.ImageState.{change_counted, HoldsTable, HoldsZones};
ghost use Rattle.image_backend.specs.FileImage.{image_with, IsDescribed};

use crate::byte_file::{ByteFile, FileFault};
use crate::counts::Counts;
use crate::format::{self, block_at, descriptor_at};
use crate::table::{NO_SLOT, Slot, Table};
use zoned_device::DevFault;

/// Writes whole blocks at the end of a zone, and answers the first block's number.
pub(crate) fn append<F: ByteFile>(
    file: &mut F,
    table: &mut Table,
    counts: &mut Counts,
    zone: u32,
    bytes: &[u8],
) -> Result<u32, DevFault>
    requires known { HoldsTable F.is_open F.is_sized F.size table.old file.old }
    requires described { IsDescribed F.tells counts.old.broken table.old (F.contents file.old) }
    requires is_zone { zone < table.old.geometry.zones }
    requires whole { length bytes.now % table.old.geometry.block ≡ 0 }
    requires unsealed { (info_at (table_infos table.old) zone).sealed ≡ false }
    requires room { (info_at (table_infos table.old) zone).written + length bytes.now / table.old.geometry.block
        ≤ table.old.geometry.capacity }
    requires active { (info_at (table_infos table.old) zone).written ≡ 0
        → active_zones (table_infos table.old) < table.old.geometry.active_limit }
    ensures first { IfOk result (λ first. first ≡ (info_at (table_infos table.old) zone).written) }
    ensures done { OnOk result (table.new ≡ with_slot table.old zone
        (slot_appended table.old.geometry.capacity (length bytes.now / table.old.geometry.block) (slot_at table.old zone))) }
    ensures new_infos { OnOk result (table_infos table.new ≡ infos_appended table.old.geometry (table_infos table.old) zone
        (length bytes.now / table.old.geometry.block)) }
    ensures not_done { OnErr result (table.new ≡ table.old) }
    ensures new_image { OnOk result (F.tells → image_with table.new (F.contents file.new)
        ≡ appended (image_with table.old (F.contents file.old)) zone (blocks_in table.old.geometry bytes.now)) }
    ensures same_image { OnErr result (F.tells → image_with table.new (F.contents file.new)
        ≡ image_with table.old (F.contents file.old)) }
    ensures still_described { IsDescribed F.tells counts.new.broken table.new (F.contents file.new) }
    ensures still_known { HoldsTable F.is_open F.is_sized F.size table.new file.new }
    ensures refused { IsTrue counts.old.broken → IsErr result }
    ensures same_counts { OnOk result (counts.new ≡ counts.old) }
    ensures stays { IsTrue counts.old.broken → IsTrue counts.new.broken }
    ensures caused { IsErr result → IsTrue counts.old.broken ⊎ Rose (F.faults file.old) (F.faults file.new) }
    ensures cause { HasCause counts.old.faults counts.new.faults (IsErr result) }
    ensures changes { Counted counts.old.failed_changes counts.new.failed_changes result }
{
    counts.begin_change()?;
    let geometry = table.geometry();
    let slot = table.slot(zone);
    let at = block_at(&geometry, zone, slot.written);
    if file.write_at(at, bytes).is_err() {
        return Err(counts.failed_change());
    }
    let count = bytes.len() / geometry.block as usize;
    let after = slot.appended(geometry.capacity, count as u32);
    put_slot(file, table, counts, zone, after, false)?;
    Ok(slot.written)
}

/// Seals a zone. The seal is durable then.
pub(crate) fn finish<F: ByteFile>(
    file: &mut F,
    table: &mut Table,
    counts: &mut Counts,
    zone: u32,
) -> Result<(), DevFault>
    requires known { HoldsTable F.is_open F.is_sized F.size table.old file.old }
    requires described { IsDescribed F.tells counts.old.broken table.old (F.contents file.old) }
    requires is_zone { zone < table.old.geometry.zones }
    ensures done { OnOk result (table.new ≡ with_slot table.old zone (slot_finished (slot_at table.old zone))) }
    ensures new_infos { OnOk result (table_infos table.new ≡ infos_finished (table_infos table.old) zone) }
    ensures not_done { OnErr result (table.new ≡ table.old) }
    ensures new_image { OnOk result (F.tells → image_with table.new (F.contents file.new)
        ≡ finished (image_with table.old (F.contents file.old)) zone) }
    ensures same_image { OnErr result (F.tells → image_with table.new (F.contents file.new)
        ≡ image_with table.old (F.contents file.old)) }
    ensures still_described { IsDescribed F.tells counts.new.broken table.new (F.contents file.new) }
    ensures still_known { HoldsTable F.is_open F.is_sized F.size table.new file.new }
    ensures refused { IsTrue counts.old.broken → IsErr result }
    ensures same_counts { OnOk result (counts.new ≡ counts.old) }
    ensures stays { IsTrue counts.old.broken → IsTrue counts.new.broken }
    ensures caused { IsErr result → IsTrue counts.old.broken ⊎ Rose (F.faults file.old) (F.faults file.new) }
    ensures breaks { IsErr result → IsTrue counts.new.broken }
    ensures durable { OnOk result (F.tells → F.is_durable file.new) }
    ensures cause { HasCause counts.old.faults counts.new.faults (IsErr result) }
    ensures changes { Counted counts.old.failed_changes counts.new.failed_changes result }
{
    counts.begin_change()?;
    let slot = table.slot(zone);
    put_slot(file, table, counts, zone, slot.finished(), true)
}

/// Empties a zone. It is durably empty then; of one that has neither a block nor a seal that is known already.
pub(crate) fn reset<F: ByteFile>(
    file: &mut F,
    table: &mut Table,
    counts: &mut Counts,
    zone: u32,
) -> Result<(), DevFault>
    requires known { HoldsTable F.is_open F.is_sized F.size table.old file.old }
    requires described { IsDescribed F.tells counts.old.broken table.old (F.contents file.old) }
    requires is_zone { zone < table.old.geometry.zones }
    ensures done { OnOk result (table.new ≡ with_slot table.old zone no_slot) }
    ensures new_infos { OnOk result (table_infos table.new ≡ infos_emptied (table_infos table.old) zone) }
    ensures not_done { OnErr result (table.new ≡ table.old) }
    ensures new_image { OnOk result (F.tells → image_with table.new (F.contents file.new)
        ≡ emptied (image_with table.old (F.contents file.old)) zone) }
    ensures same_image { OnErr result (F.tells → image_with table.new (F.contents file.new)
        ≡ image_with table.old (F.contents file.old)) }
    ensures still_described { IsDescribed F.tells counts.new.broken table.new (F.contents file.new) }
    ensures still_known { HoldsTable F.is_open F.is_sized F.size table.new file.new }
    ensures refused { IsTrue counts.old.broken → IsErr result }
    ensures same_counts { OnOk result (counts.new ≡ counts.old) }
    ensures stays { IsTrue counts.old.broken → IsTrue counts.new.broken }
    ensures caused { IsErr result → IsTrue counts.old.broken ⊎ Rose (F.faults file.old) (F.faults file.new) }
    ensures breaks { IsErr result → IsTrue counts.new.broken }
    ensures durable { OnOk result ((nat_lt 0 (slot_at table.old zone).written || (slot_at table.old zone).sealed) ≡ true
        → F.tells → F.is_durable file.new) }
    ensures cause { HasCause counts.old.faults counts.new.faults (IsErr result) }
    ensures changes { Counted counts.old.failed_changes counts.new.failed_changes result }
{
    counts.begin_change()?;
    let slot = table.slot(zone);
    put_slot(file, table, counts, zone, NO_SLOT, slot.is_used())
}

/// Makes all blocks durable. After a failed sync no further change is taken, since the system may answer the next one
/// well though it lost what the first one was to keep.
pub(crate) fn sync<F: ByteFile>(
    file: &mut F,
    table: &mut Table,
    counts: &mut Counts,
) -> Result<(), DevFault>
    requires known { HoldsTable F.is_open F.is_sized F.size table.old file.old }
    requires described { IsDescribed F.tells counts.old.broken table.old (F.contents file.old) }
    ensures done { OnOk result (table.new ≡ table_synced table.old) }
    ensures same_infos { table_infos table.new ≡ table_infos table.old }
    ensures not_done { OnErr result (table.new ≡ table.old) }
    ensures new_image { OnOk result (F.tells → image_with table.new (F.contents file.new)
        ≡ synced (image_with table.old (F.contents file.old))) }
    ensures same_image { OnErr result (F.tells → image_with table.new (F.contents file.new)
        ≡ image_with table.old (F.contents file.old)) }
    ensures still_described { IsDescribed F.tells counts.new.broken table.new (F.contents file.new) }
    ensures still_known { HoldsTable F.is_open F.is_sized F.size table.new file.new }
    ensures refused { IsTrue counts.old.broken → IsErr result }
    ensures same_counts { OnOk result (counts.new ≡ counts.old) }
    ensures stays { IsTrue counts.old.broken → IsTrue counts.new.broken }
    ensures caused { IsErr result → IsTrue counts.old.broken ⊎ Rose (F.faults file.old) (F.faults file.new) }
    ensures breaks { IsErr result → IsTrue counts.new.broken }
    ensures durable { OnOk result (F.tells → F.is_durable file.new) }
    ensures cause { HasCause counts.old.faults counts.new.faults (IsErr result) }
    ensures changes { Counted counts.old.failed_changes counts.new.failed_changes result }
{
    counts.begin_change()?;
    if file.sync().is_err() {
        return Err(counts.break_off());
    }
    table.sync();
    Ok(())
}

// Writes a zone's descriptor, and makes it durable where it is to last. After a fault no further change is taken.
fn put_slot<F: ByteFile>(
    file: &mut F,
    table: &mut Table,
    counts: &mut Counts,
    zone: u32,
    slot: Slot,
    lasts: bool,
) -> Result<(), DevFault>
    requires valid { IsTrue (is_valid table.old.geometry) }
    requires count { length table.old.slots ≡ table.old.geometry.zones }
    requires holds { HoldsZones F.is_open F.is_sized F.size table.old.geometry file.old }
    requires described { IsDescribed F.tells counts.old.broken table.old (F.contents file.old) }
    requires is_zone { zone < table.old.geometry.zones }
    requires possible { IsPossibleInfo table.old.geometry (slot_info slot) }
    ensures done { OnOk result (table.new ≡ with_slot table.old zone slot) }
    ensures not_done { OnErr result (table.new ≡ table.old) }
    ensures holds { HoldsZones F.is_open F.is_sized F.size table.old.geometry file.new }
    ensures written { OnOk result (F.tells → F.contents file.new
        ≡ patched (descriptor_at zone) (descriptor_bytes (slot_info slot)) (F.contents file.old)) }
    ensures after_fault { OnErr result (F.tells → SameOutside (descriptor_at zone) 8 (F.contents file.old) (F.contents file.new)) }
    ensures described { IsDescribed F.tells counts.new.broken table.new (F.contents file.new) }
    ensures same_counts { OnOk result (counts.new ≡ counts.old) }
    ensures broken { OnErr result (counts.new ≡ record (change_counted counts.old) { broken = true }) }
    ensures durable { OnOk result (IsTrue lasts → F.tells → F.is_durable file.new) }
    ensures caused { IsErr result → Rose (F.faults file.old) (F.faults file.new) }
    ensures cause { HasCause counts.old.faults counts.new.faults (IsErr result) }
{
    let bytes = format::descriptor(slot.info());
    if write_part(file, descriptor_at(zone), &bytes, lasts).is_err() {
        return Err(counts.break_off());
    }
    table.set(zone, slot);
    Ok(())
}

// Writes bytes, and makes all that was written durable where they are to last.
fn write_part<F: ByteFile>(
    file: &mut F,
    at: u64,
    bytes: &[u8],
    lasts: bool,
) -> Result<(), FileFault>
    requires opened { F.is_open file.old }
    requires known { F.is_sized file.old }
    requires within { at + length bytes.now ≤ F.size file.old }
    ensures written { OnOk result (F.tells → F.contents file.new ≡ patched at bytes.now (F.contents file.old)) }
    ensures after_fault { OnErr result (F.tells → SameOutside at (length bytes.now) (F.contents file.old) (F.contents file.new)) }
    ensures still_open { F.is_open file.new }
    ensures still_known { F.is_sized file.new }
    ensures same_size { F.size file.new ≡ F.size file.old }
    ensures durable { OnOk result (IsTrue lasts → F.tells → F.is_durable file.new) }
    ensures cause { HasCause (F.faults file.old) (F.faults file.new) (IsErr result) }
{
    file.write_at(at, bytes)?;
    sync_part(file, lasts)
}

// Makes all that was written durable where it is to last.
fn sync_part<F: ByteFile>(file: &mut F, lasts: bool) -> Result<(), FileFault>
    requires { F.is_open file.old }
    ensures same { SameFile F.is_open F.is_sized F.size F.tells F.contents file.old file.new }
    ensures durable { OnOk result (IsTrue lasts → F.tells → F.is_durable file.new) }
    ensures cause { HasCause (F.faults file.old) (F.faults file.new) (IsErr result) }
{
    if !lasts {
        return Ok(());
    }
    file.sync()
}
