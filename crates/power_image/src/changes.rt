// The changes of an image in a file: each writes to the file, and the table takes over what was written.
ghost use Rattle.std.specs.Prelude.{◌≡◌, ◌⊎◌, ◌+◌, ◌/◌, ◌%◌, ◌<◌, ◌≤◌, true, false, length, IfOk, OnOk, OnErr, IsErr, IsTrue};
ghost use Rattle.zone_image.specs.Changes.{blocks_in, appended, finished, emptied, synced};
ghost use Rattle.zone_image.specs.Infos.{info_at, active_zones, infos_appended, infos_finished, infos_emptied, Shows, ShowsSome};
ghost use Rattle.zone_image.specs.Counts.{Rose, HasCause, Counts as Counted};
ghost use Rattle.image_backend.specs.Table.{table_infos, slot_at, slot_appended, slot_finished, no_slot, with_slot, table_synced, IsTable};
ghost use Rattle.power_image.specs.Table.{image_in, numbers_of};
ghost use Rattle.power_image.specs.State.{change_counted, HoldsTable, IsSaid, AreSettled, Leaves};

use crate::counts::Counts;
use crate::describing::describe;
use crate::format::block_at;
use crate::table::{NO_ZONE, Table, Zone};
use image_backend::{ByteFile, FileFault};
use zoned_device::DevFault;

/// Writes whole blocks at the end of a zone, and answers the first block's number. The descriptor doesn't tell of them until
/// the next sync, unless they fill the zone.
pub(crate) fn append<F: ByteFile>(
    file: &mut F,
    table: &mut Table,
    counts: &mut Counts,
    zone: u32,
    bytes: &[u8],
) -> Result<u32, DevFault>
    requires known { HoldsTable F.is_open F.is_sized F.size table.old file.old }
    requires said { counts.old.broken ≡ false → IsSaid F.tells table.old (F.contents file.old) }
    requires is_zone { zone < table.old.zones.geometry.zones }
    requires whole { length bytes.now % table.old.zones.geometry.block ≡ 0 }
    requires unsealed { (info_at (table_infos table.old.zones) zone).sealed ≡ false }
    requires room { (info_at (table_infos table.old.zones) zone).written + length bytes.now / table.old.zones.geometry.block
        ≤ table.old.zones.geometry.capacity }
    requires active { (info_at (table_infos table.old.zones) zone).written ≡ 0
        → active_zones (table_infos table.old.zones) < table.old.zones.geometry.active_limit }
    ensures first { IfOk result (λ first. first ≡ (info_at (table_infos table.old.zones) zone).written) }
    ensures new_infos { OnOk result (table_infos table.new.zones ≡ infos_appended table.old.zones.geometry (table_infos table.old.zones) zone
        (length bytes.now / table.old.zones.geometry.block)) }
    ensures new_image { OnOk result (F.tells → image_in table.new.zones (F.contents file.new) ≡ (appended (image_in table.old.zones (F.contents file.old)) zone (blocks_in table.old.zones.geometry bytes.now))) }
    ensures after_fault { OnErr result (ShowsSome table.old.zones.geometry F.tells zone (blocks_in table.old.zones.geometry bytes.now)
        (table_infos table.old.zones) (image_in table.old.zones (F.contents file.old))
        (table_infos table.new.zones) (image_in table.new.zones (F.contents file.new))) }
    ensures same_geometry { table.new.zones.geometry ≡ table.old.zones.geometry }
    ensures still_said { counts.new.broken ≡ false → IsSaid F.tells table.new (F.contents file.new) }
    ensures still_known { HoldsTable F.is_open F.is_sized F.size table.new file.new }
    ensures refused { IsTrue counts.old.broken → IsErr result }
    ensures same_counts { OnOk result (counts.new ≡ counts.old) }
    ensures stays { IsTrue counts.old.broken → IsTrue counts.new.broken }
    ensures caused { IsErr result → IsTrue counts.old.broken ⊎ Rose (F.faults file.old) (F.faults file.new) }
    ensures cause { HasCause counts.old.faults counts.new.faults (IsErr result) }
    ensures changes { Counted counts.old.failed_changes counts.new.failed_changes result }
{
    counts.begin_change()?;
    let first = table.zone(zone).written;
    if write_blocks(file, table, zone, bytes).is_err() {
        return Err(counts.failed_change());
    }
    describe_full(file, table, counts, zone)?;
    Ok(first)
}

/// Seals a zone. The seal is described then, with all blocks of the zone.
pub(crate) fn finish<F: ByteFile>(
    file: &mut F,
    table: &mut Table,
    counts: &mut Counts,
    zone: u32,
) -> Result<(), DevFault>
    requires known { HoldsTable F.is_open F.is_sized F.size table.old file.old }
    requires said { counts.old.broken ≡ false → IsSaid F.tells table.old (F.contents file.old) }
    requires is_zone { zone < table.old.zones.geometry.zones }
    ensures new_infos { OnOk result (table_infos table.new.zones ≡ infos_finished (table_infos table.old.zones) zone) }
    ensures new_image { OnOk result (F.tells → image_in table.new.zones (F.contents file.new)
        ≡ (finished (image_in table.old.zones (F.contents file.old)) zone)) }
    ensures after_fault { OnErr result (Shows F.tells (table_infos table.old.zones) (image_in table.old.zones (F.contents file.old))
        (table_infos table.new.zones) (image_in table.new.zones (F.contents file.new))
        ⊎ Shows F.tells (infos_finished (table_infos table.old.zones) zone) (finished (image_in table.old.zones (F.contents file.old)) zone)
        (table_infos table.new.zones) (image_in table.new.zones (F.contents file.new))) }
    ensures settled { OnOk result (AreSettled table.new zone (zone + 1)) }
    ensures breaks { IsErr result → IsTrue counts.new.broken }
    ensures same_geometry { table.new.zones.geometry ≡ table.old.zones.geometry }
    ensures still_said { counts.new.broken ≡ false → IsSaid F.tells table.new (F.contents file.new) }
    ensures still_known { HoldsTable F.is_open F.is_sized F.size table.new file.new }
    ensures refused { IsTrue counts.old.broken → IsErr result }
    ensures same_counts { OnOk result (counts.new ≡ counts.old) }
    ensures stays { IsTrue counts.old.broken → IsTrue counts.new.broken }
    ensures caused { IsErr result → IsTrue counts.old.broken ⊎ Rose (F.faults file.old) (F.faults file.new) }
    ensures cause { HasCause counts.old.faults counts.new.faults (IsErr result) }
    ensures changes { Counted counts.old.failed_changes counts.new.failed_changes result }
{
    counts.begin_change()?;
    let numbers = table.zone(zone).finished();
    change_zone(file, table, counts, zone, numbers)
}

/// Empties a zone. It is described as empty then.
pub(crate) fn reset<F: ByteFile>(
    file: &mut F,
    table: &mut Table,
    counts: &mut Counts,
    zone: u32,
) -> Result<(), DevFault>
    requires known { HoldsTable F.is_open F.is_sized F.size table.old file.old }
    requires said { counts.old.broken ≡ false → IsSaid F.tells table.old (F.contents file.old) }
    requires is_zone { zone < table.old.zones.geometry.zones }
    ensures new_infos { OnOk result (table_infos table.new.zones ≡ infos_emptied (table_infos table.old.zones) zone) }
    ensures new_image { OnOk result (F.tells → image_in table.new.zones (F.contents file.new)
        ≡ (emptied (image_in table.old.zones (F.contents file.old)) zone)) }
    ensures after_fault { OnErr result (Shows F.tells (table_infos table.old.zones) (image_in table.old.zones (F.contents file.old))
        (table_infos table.new.zones) (image_in table.new.zones (F.contents file.new))
        ⊎ Shows F.tells (infos_emptied (table_infos table.old.zones) zone) (emptied (image_in table.old.zones (F.contents file.old)) zone)
        (table_infos table.new.zones) (image_in table.new.zones (F.contents file.new))) }
    ensures settled { OnOk result (AreSettled table.new zone (zone + 1)) }
    ensures breaks { IsErr result → IsTrue counts.new.broken }
    ensures same_geometry { table.new.zones.geometry ≡ table.old.zones.geometry }
    ensures still_said { counts.new.broken ≡ false → IsSaid F.tells table.new (F.contents file.new) }
    ensures still_known { HoldsTable F.is_open F.is_sized F.size table.new file.new }
    ensures refused { IsTrue counts.old.broken → IsErr result }
    ensures same_counts { OnOk result (counts.new ≡ counts.old) }
    ensures stays { IsTrue counts.old.broken → IsTrue counts.new.broken }
    ensures caused { IsErr result → IsTrue counts.old.broken ⊎ Rose (F.faults file.old) (F.faults file.new) }
    ensures cause { HasCause counts.old.faults counts.new.faults (IsErr result) }
    ensures changes { Counted counts.old.failed_changes counts.new.failed_changes result }
{
    counts.begin_change()?;
    change_zone(file, table, counts, zone, NO_ZONE)
}

/// Makes all blocks durable, and the descriptors tell of them.
pub(crate) fn sync<F: ByteFile>(
    file: &mut F,
    table: &mut Table,
    counts: &mut Counts,
) -> Result<(), DevFault>
    requires known { HoldsTable F.is_open F.is_sized F.size table.old file.old }
    requires said { counts.old.broken ≡ false → IsSaid F.tells table.old (F.contents file.old) }
    ensures new_image { OnOk result (F.tells → image_in table.new.zones (F.contents file.new)
        ≡ (synced (image_in table.old.zones (F.contents file.old)))) }
    ensures same_infos { table_infos table.new.zones ≡ table_infos table.old.zones }
    ensures after_fault { OnErr result (F.tells → image_in table.new.zones (F.contents file.new)
        ≡ image_in table.old.zones (F.contents file.old)) }
    ensures settled { OnOk result (AreSettled table.new 0 table.new.zones.geometry.zones) }
    ensures breaks { IsErr result → IsTrue counts.new.broken }
    ensures same_geometry { table.new.zones.geometry ≡ table.old.zones.geometry }
    ensures still_said { counts.new.broken ≡ false → IsSaid F.tells table.new (F.contents file.new) }
    ensures still_known { HoldsTable F.is_open F.is_sized F.size table.new file.new }
    ensures refused { IsTrue counts.old.broken → IsErr result }
    ensures same_counts { OnOk result (counts.new ≡ counts.old) }
    ensures stays { IsTrue counts.old.broken → IsTrue counts.new.broken }
    ensures caused { IsErr result → IsTrue counts.old.broken ⊎ Rose (F.faults file.old) (F.faults file.new) }
    ensures cause { HasCause counts.old.faults counts.new.faults (IsErr result) }
    ensures changes { Counted counts.old.failed_changes counts.new.failed_changes result }
{
    counts.begin_change()?;
    let zones = table.geometry().zones;
    describe_range(file, table, counts, 0, zones)?;
    table.sync();
    Ok(())
}

// Writes whole blocks at the end of a zone.
fn write_blocks<F: ByteFile>(
    file: &mut F,
    table: &mut Table,
    zone: u32,
    bytes: &[u8],
) -> Result<(), FileFault>
    requires known { HoldsTable F.is_open F.is_sized F.size table.old file.old }
    requires said { IsSaid F.tells table.old (F.contents file.old) }
    requires is_zone { zone < table.old.zones.geometry.zones }
    requires whole { length bytes.now % table.old.zones.geometry.block ≡ 0 }
    requires unsealed { (info_at (table_infos table.old.zones) zone).sealed ≡ false }
    requires room { (info_at (table_infos table.old.zones) zone).written + length bytes.now / table.old.zones.geometry.block
        ≤ table.old.zones.geometry.capacity }
    requires active { (info_at (table_infos table.old.zones) zone).written ≡ 0
        → active_zones (table_infos table.old.zones) < table.old.zones.geometry.active_limit }
    ensures done { OnOk result (Leaves F.tells (with_slot table.old.zones zone
        (slot_appended table.old.zones.geometry.capacity (length bytes.now / table.old.zones.geometry.block) (slot_at table.old.zones zone)))
        (appended (image_in table.old.zones (F.contents file.old)) zone (blocks_in table.old.zones.geometry bytes.now)) table.new.zones (F.contents file.new)) }
    ensures not_done { OnErr result (Leaves F.tells table.old.zones
        (image_in table.old.zones (F.contents file.old)) table.new.zones (F.contents file.new)) }
    ensures same_geometry { table.new.zones.geometry ≡ table.old.zones.geometry }
    ensures same_descriptors { table.new.descriptors ≡ table.old.descriptors }
    ensures still_said { IsSaid F.tells table.new (F.contents file.new) }
    ensures still_known { HoldsTable F.is_open F.is_sized F.size table.new file.new }
    ensures cause { HasCause (F.faults file.old) (F.faults file.new) (IsErr result) }
{
    let geometry = table.geometry();
    let numbers = table.zone(zone);
    let at = block_at(&geometry, zone, numbers.written);
    file.write_at(at, bytes)?;
    let count = bytes.len() / geometry.block as usize;
    let after = numbers.appended(geometry.capacity, count as u32);
    table.set_zone(zone, after);
    Ok(())
}

// Describes a zone that was filled.
fn describe_full<F: ByteFile>(
    file: &mut F,
    table: &mut Table,
    counts: &mut Counts,
    zone: u32,
) -> Result<(), DevFault>
    requires known { HoldsTable F.is_open F.is_sized F.size table.old file.old }
    requires said { IsSaid F.tells table.old (F.contents file.old) }
    requires unbroken { counts.old.broken ≡ false }
    requires is_zone { zone < table.old.zones.geometry.zones }
    ensures same { Leaves F.tells table.old.zones (image_in table.old.zones (F.contents file.old)) table.new.zones (F.contents file.new) }
    ensures still_said { counts.new.broken ≡ false → IsSaid F.tells table.new (F.contents file.new) }
    ensures still_known { HoldsTable F.is_open F.is_sized F.size table.new file.new }
    ensures same_counts { OnOk result (counts.new ≡ counts.old) }
    ensures broken { OnErr result (counts.new ≡ record (change_counted counts.old) { broken = true }) }
    ensures caused { IsErr result → Rose (F.faults file.old) (F.faults file.new) }
    ensures cause { HasCause counts.old.faults counts.new.faults (IsErr result) }
{
    if !table.zone(zone).sealed {
        return Ok(());
    }
    describe_range(file, table, counts, zone, zone + 1)
}

// Gives a zone other numbers, and describes them.
fn change_zone<F: ByteFile>(
    file: &mut F,
    table: &mut Table,
    counts: &mut Counts,
    zone: u32,
    numbers: Zone,
) -> Result<(), DevFault>
    requires known { HoldsTable F.is_open F.is_sized F.size table.old file.old }
    requires said { IsSaid F.tells table.old (F.contents file.old) }
    requires unbroken { counts.old.broken ≡ false }
    requires is_zone { zone < table.old.zones.geometry.zones }
    requires possible { IsTable (with_slot table.old.zones zone (numbers_of numbers)) }
    ensures done { Leaves F.tells (with_slot table.old.zones zone (numbers_of numbers))
        (image_in (with_slot table.old.zones zone (numbers_of numbers)) (F.contents file.old)) table.new.zones (F.contents file.new) }
    ensures settled { OnOk result (AreSettled table.new zone (zone + 1)) }
    ensures still_said { counts.new.broken ≡ false → IsSaid F.tells table.new (F.contents file.new) }
    ensures still_known { HoldsTable F.is_open F.is_sized F.size table.new file.new }
    ensures same_counts { OnOk result (counts.new ≡ counts.old) }
    ensures broken { OnErr result (counts.new ≡ record (change_counted counts.old) { broken = true }) }
    ensures caused { IsErr result → Rose (F.faults file.old) (F.faults file.new) }
    ensures cause { HasCause counts.old.faults counts.new.faults (IsErr result) }
{
    table.set_zone(zone, numbers);
    describe_range(file, table, counts, zone, zone + 1)
}

// Describes the pending zones of a range. After a fault no further change is taken.
fn describe_range<F: ByteFile>(
    file: &mut F,
    table: &mut Table,
    counts: &mut Counts,
    from: u32,
    to: u32,
) -> Result<(), DevFault>
    requires known { HoldsTable F.is_open F.is_sized F.size table.old file.old }
    requires said { IsSaid F.tells table.old (F.contents file.old) }
    requires unbroken { counts.old.broken ≡ false }
    requires range { to ≤ table.old.zones.geometry.zones }
    ensures same { Leaves F.tells table.old.zones (image_in table.old.zones (F.contents file.old)) table.new.zones (F.contents file.new) }
    ensures settled { OnOk result (AreSettled table.new from to) }
    ensures still_said { counts.new.broken ≡ false → IsSaid F.tells table.new (F.contents file.new) }
    ensures still_known { HoldsTable F.is_open F.is_sized F.size table.new file.new }
    ensures same_counts { OnOk result (counts.new ≡ counts.old) }
    ensures broken { OnErr result (counts.new ≡ record (change_counted counts.old) { broken = true }) }
    ensures caused { IsErr result → Rose (F.faults file.old) (F.faults file.new) }
    ensures cause { HasCause counts.old.faults counts.new.faults (IsErr result) }
{
    if !has_pending(table, from, to) {
        return Ok(());
    }
    if describe(file, table, from, to).is_err() {
        return Err(counts.break_off());
    }
    Ok(())
}

// Whether a zone of a range is pending.
fn has_pending(table: &Table, from: u32, to: u32) -> bool
    requires numbers { to ≤ length table.now.zones.slots }
    requires descriptors { to ≤ length table.now.descriptors }
    ensures { result ≡ false → AreSettled table.now from to }
{
    for zone in from..to {
        if table.is_pending(zone) {
            return true;
        }
    }
    false
}
